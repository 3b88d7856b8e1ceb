//! The words of the command line, and the numbers with which the program ends.
#![tactic(auto)]

pub mod command_line;
pub mod machine;
pub mod numeral;
pub mod script;
pub mod status;
pub mod workload;

ghost use Rattle.std.specs.Prelude.{◌≡◌, map, option_map, string_bytes, IfOk, IfSome};
ghost use Rattle.options.specs.Options.{HasWorkers, for_script, for_workload, options_of, script_told, told, workload_told};
ghost use Rattle.clap.specs.Words.{found_of, rows_of};

use crate::command_line::value_of;
use crate::script::script_matches;
use crate::workload::workload_matches;
use clap::ArgMatches;
use std::alloc::{AllocError, Global};

/// Which command the words name.
#[derive(Clone, Copy, PartialEq, Eq, Debug)]
pub enum Command {
    Script,
    Workload,
}

/// What the program makes of the outside for a command.
#[derive(Clone, Copy, PartialEq, Eq, Debug)]
pub struct Options<'a> {
    pub command: Command,
    /// How many workers run queries.
    pub workers: u32,
    /// The file that keeps definitions; none: they are kept in memory.
    pub store: Option<&'a str>,
    /// The folder of files that queries spill to, which no command makes use of yet; none: the present one.
    pub spool: Option<&'a str>,
}

/// What the program makes of the outside for the command that the words name, or none where no command takes them; fails
/// where memory is wanting.
pub fn options_of<'a>(alloc: Global, words: &'a [String]) -> Result<Option<Options<'a>>, AllocError>
    ensures told { IfOk result (λ options. option_map told options ≡ options_of (map string_bytes words.now)) }

    // A workload has as many workers as its words say.
    ensures workers { IfOk result (λ options. IfSome options (HasWorkers (map string_bytes words.now))) }
{
    read_words(alloc, words)
}

/// What is told of the first command that takes the words.
fn read_words<'a>(alloc: Global, words: &'a [String]) -> Result<Option<Options<'a>>, AllocError>
    ensures { IfOk result (λ options. option_map told options ≡ options_of (map string_bytes words.now)) }
{
    match for_script(alloc, words)? {
        Some(options) => Ok(Some(options)),
        None => for_workload(alloc, words),
    }
}

fn for_script<'a>(alloc: Global, words: &'a [String]) -> Result<Option<Options<'a>>, AllocError>
    ensures { IfOk result (λ options. option_map told options ≡ for_script (map string_bytes words.now)) }
{
    match script_matches(alloc, words)? {
        Some(matches) => Ok(script_told(&matches)),
        None => Ok(None),
    }
}

fn script_told<'a>(matches: &ArgMatches<'a>) -> Option<Options<'a>>
    ensures { option_map told result ≡ script_told (rows_of (found_of matches.now)) }
{
    script::options_in(matches)?;
    Some(Options {
        command: Command::Script,
        workers: 1,
        store: value_of(matches, "store"),
        spool: value_of(matches, "spool"),
    })
}

fn for_workload<'a>(alloc: Global, words: &'a [String]) -> Result<Option<Options<'a>>, AllocError>
    ensures { IfOk result (λ options. option_map told options ≡ for_workload (map string_bytes words.now)) }
{
    match workload_matches(alloc, words)? {
        Some(matches) => Ok(workload_told(&matches)),
        None => Ok(None),
    }
}

fn workload_told<'a>(matches: &ArgMatches<'a>) -> Option<Options<'a>>
    ensures { option_map told result ≡ workload_told (rows_of (found_of matches.now)) }
{
    let options = workload::options_in(matches)?;
    Some(Options {
        command: Command::Workload,
        workers: options.workers,
        store: None,
        spool: value_of(matches, "spool"),
    })
}
