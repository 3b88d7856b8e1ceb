//! The words of the command `script`.

ghost use Rattle.std.specs.Prelude.{◌≡◌, map, string_bytes, IfOk, IfSome, option_map};
ghost use Rattle.clap.specs.Words.{found_of, rows_of};
ghost use Rattle.options.specs.CommandLine.{given};
ghost use Rattle.options.specs.Script.{SCRIPT, options_in, script_options, script_rules};
ghost use Rattle.options.specs.Within.{AreWithin};

use crate::command_line::{given, value_of};
use crate::machine::{cores_of, memory_of};
use clap::ArgMatches;
use std::alloc::{AllocError, Global};

/// What the words of the command line say of the machine.
#[derive(Clone, Copy, PartialEq, Eq, Debug)]
pub struct ScriptOptions {
    /// The memory in bytes.
    pub memory: u64,
    /// How many cores there are.
    pub cores: u32,
}

/// What the words of the command line say of the machine, where they are `script`'s; fails where memory is wanting.
///
/// `--memory` and `--cores` must be given, `--store` and `--spool` may be. Options stand in any order, each once, as
/// `--x V` or as `--x=V`.
pub fn script_options(alloc: Global, words: &[String]) -> Result<Option<ScriptOptions>, AllocError>
    ensures options { IfOk result (λ options. options ≡ script_options (map string_bytes words.now)) }
    ensures within { IfOk result (λ options. IfSome options AreWithin) }
{
    match script_matches(alloc, words)? {
        Some(matches) => Ok(options_in(&matches)),
        None => Ok(None),
    }
}

/// What the words give the command's options, where the command takes them.
pub fn script_matches<'a>(
    alloc: Global,
    words: &'a [String],
) -> Result<Option<ArgMatches<'a>>, AllocError>
    ensures { IfOk result (λ matches. option_map (λ m. rows_of (found_of m)) matches
        ≡ given SCRIPT script_rules (map string_bytes words.now)) }
{
    let options = [
        ("memory", true),
        ("cores", true),
        ("store", false),
        ("spool", false),
    ];
    given(alloc, "script", &options, words)
}

/// The options, where each value is in its range.
pub fn options_in(matches: &ArgMatches<'_>) -> Option<ScriptOptions>
    ensures options { result ≡ options_in (rows_of (found_of matches.now)) }
    ensures within { IfSome result AreWithin }
{
    Some(ScriptOptions {
        memory: memory_of(value_of(matches, "memory")?)?,
        cores: cores_of(value_of(matches, "cores")?)?,
    })
}
