//! How the program ends.

/// The input was read to its end.
pub const DONE: u8 = 0;

/// The words of the command line are none that the program knows.
pub const USAGE: u8 = 1;

/// A line of the script is bad.
pub const BAD_LINE: u8 = 2;

/// The input, or a file on the shelf, could not be read.
pub const READ_FAULT: u8 = 3;

/// The output could not be written.
pub const WRITE_FAULT: u8 = 4;

/// The file of a table is not there, or has a fault.
pub const BAD_TABLE: u8 = 5;

/// The stored definitions could not be read, or could not be stored.
pub const KEEPER_FAULT: u8 = 6;

/// Memory was wanting.
pub const NO_MEMORY: u8 = 7;

/// The script is longer than a script may be.
pub const TOO_LONG: u8 = 8;

/// The stored definitions are not sound on this machine.
pub const UNSOUND: u8 = 9;

/// The status with which the program ends, one of the numbers above.
#[derive(Clone, Copy, Debug, PartialEq, Eq)]
pub struct Status(pub u8);
