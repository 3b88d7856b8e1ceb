//! The words of options that say what the machine has.

ghost use Rattle.std.specs.Prelude.{◌≡◌};
ghost use Rattle.options.specs.Machine.{unit_of, memory_of, cores_of};

use crate::numeral::{in_range, numeral_of, small_within};
use rm_base::limits::{CORES_MOST, MEMORY_LEAST, MEMORY_MOST};

/// A memory word in bytes: digits and the letter of a unit.
pub fn memory_of(word: &str) -> Option<u64>
    ensures { result ≡ memory_of word.now }
{
    let last = word.len().checked_sub(1)?;
    let unit = unit_of(word.as_bytes()[last])?;
    let number = numeral_of(&word[..last])?;
    in_range(MEMORY_LEAST, MEMORY_MOST, number.checked_mul(unit)?)
}

/// How many bytes the letter of a unit stands for.
fn unit_of(letter: u8) -> Option<u64>
    ensures { result ≡ unit_of letter }
{
    match letter {
        b'K' => Some(1 << 10),
        b'M' => Some(1 << 20),
        b'G' => Some(1 << 30),
        b'T' => Some(1 << 40),
        _ => None,
    }
}

/// A number of cores.
pub fn cores_of(word: &str) -> Option<u32>
    ensures { result ≡ cores_of word.now }
{
    small_within(1, CORES_MOST, word)
}
