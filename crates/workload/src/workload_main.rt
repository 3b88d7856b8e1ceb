//! The command `workload`, from its words to what it prints.

ghost use Rattle.std.specs.Prelude.{◌≡◌, ◌≤◌, map, length, string_bytes};
ghost use Rattle.options.specs.Workload.{workload_options};
ghost use Rattle.workload.specs.Ended.{IsWorkload, HasKits, EndsAs, seen_sink};

use crate::failure::{Failure, status_of};
use crate::kit::Kit;
use crate::output::write_text;
use crate::running::run_workload;
use options::status::Status;
use options::workload::workload_options;
use rm_outside::clock::Clock;
use rm_outside::sink::Sink;
use rm_outside::spool::Spool;
use std::alloc::Global;

/// Reads what the words of the command line say, runs the queries, and writes what they came to.
fn run_words<O: Sink, P: Spool, C: Clock>(
    alloc: Global,
    words: &[String],
    out: &mut O,
    kits: &mut Vec<Kit<P, C>>,
) -> Result<(), Failure>
    requires { HasKits (map string_bytes words.now) (length kits.old.items) }
    ensures ends { EndsAs (workload_options (map string_bytes words.now)) (seen_sink O.Sink out.old) (seen_sink O.Sink out.new) result }
    ensures later { O.faults out.old ≤ O.faults out.new }
    ensures spools { map (λ kit. kit.spool) kits.new.items ≡ map (λ kit. kit.spool) kits.old.items }
{
    let options = workload_options(alloc, words)?.ok_or(Failure::Usage)?;
    let text = run_workload(alloc, &options, &mut kits[0])?;
    write_text(out, text.as_bytes())
}

/// Does all that `poolhost workload` does: reads the words of the command line, runs the queries of a generated workload
/// one after the other, and writes what they came to.
///
/// It always returns. The first kit's worker runs all queries; what the clock says changes nothing that is written, and the
/// kits' spools stay as they were.
pub fn workload_main<O: Sink, P: Spool, C: Clock>(
    alloc: Global,
    words: &[String],
    out: &mut O,
    kits: &mut Vec<Kit<P, C>>,
) -> Status
    requires { HasKits (map string_bytes words.now) (length kits.old.items) }
    ensures run { IsWorkload (map string_bytes words.now) (seen_sink O.Sink out.old) (seen_sink O.Sink out.new) result.0 }
    ensures later { O.faults out.old ≤ O.faults out.new }
    ensures spools { map (λ kit. kit.spool) kits.new.items ≡ map (λ kit. kit.spool) kits.old.items }
{
    status_of(run_words(alloc, words, out, kits))
}
