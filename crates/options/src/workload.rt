//! The words of the command `workload`.

ghost use Rattle.std.specs.Prelude.{◌≡◌, map, string_bytes, option_map, IfOk, IfSome};
ghost use Rattle.clap.specs.Words.{found_of, rows_of};
ghost use Rattle.options.specs.CommandLine.{given};
ghost use Rattle.options.specs.Within.{IsWorkloadWithin};
ghost use Rattle.options.specs.Workload.{WORKLOAD, options_in, workload_options, workload_rules};

use crate::command_line::{given, value_of};
use crate::machine::{cores_of, memory_of};
use crate::numeral::{number_within, small_within};
use clap::ArgMatches;
use rm_base::limits::{WORKLOAD_QUERIES_MOST, WORKLOAD_ROWS_MOST};
use std::alloc::{AllocError, Global};

/// What the words of the command line say of a generated workload.
#[derive(Clone, Copy, PartialEq, Eq, Debug)]
pub struct WorkloadOptions {
    /// The memory in bytes.
    pub memory: u64,
    /// How many cores there are.
    pub cores: u32,
    /// How many queries there are.
    pub count: u32,
    /// How many rows the first table has.
    pub rows: u32,
    /// The number with which the generator begins.
    pub seed: u64,
    /// How many workers run the queries: one, as no word names another number yet.
    pub workers: u32,
}

/// What the words of the command line say of a generated workload, where they are `workload`'s; fails where memory is
/// wanting.
///
/// `--memory`, `--cores`, `--count`, `--rows` and `--seed` must be given, `--spool` may be. Options stand in any order,
/// each once, as `--x V` or as `--x=V`.
pub fn workload_options(
    alloc: Global,
    words: &[String],
) -> Result<Option<WorkloadOptions>, AllocError>
    ensures options { IfOk result (λ options. options ≡ workload_options (map string_bytes words.now)) }
    ensures within { IfOk result (λ options. IfSome options IsWorkloadWithin) }
{
    match workload_matches(alloc, words)? {
        Some(matches) => Ok(options_in(&matches)),
        None => Ok(None),
    }
}

/// What the words give the command's options, where the command takes them.
pub fn workload_matches<'a>(
    alloc: Global,
    words: &'a [String],
) -> Result<Option<ArgMatches<'a>>, AllocError>
    ensures { IfOk result (λ matches. option_map (λ m. rows_of (found_of m)) matches
        ≡ given WORKLOAD workload_rules (map string_bytes words.now)) }
{
    let options = [
        ("memory", true),
        ("cores", true),
        ("count", true),
        ("rows", true),
        ("seed", true),
        ("spool", false),
    ];
    given(alloc, "workload", &options, words)
}

/// The options, where each value is in its range.
pub fn options_in(matches: &ArgMatches<'_>) -> Option<WorkloadOptions>
    ensures options { result ≡ options_in (rows_of (found_of matches.now)) }
    ensures within { IfSome result IsWorkloadWithin }
{
    Some(WorkloadOptions {
        memory: memory_of(value_of(matches, "memory")?)?,
        cores: cores_of(value_of(matches, "cores")?)?,
        count: small_within(0, WORKLOAD_QUERIES_MOST, value_of(matches, "count")?)?,
        rows: small_within(1, WORKLOAD_ROWS_MOST, value_of(matches, "rows")?)?,
        seed: number_within(0, u64::MAX, value_of(matches, "seed")?)?,
        workers: 1,
    })
}
