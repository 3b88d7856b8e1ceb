//! Running the lines of a script.

ghost use Rattle.std.specs.Prelude.{◌≡◌, ◌≤◌, length, IsSome, OnOk, IfErr};
ghost use Rattle.std.specs.Str.Lines.{lines};
ghost use Rattle.sessions.specs.Running.{IsCause, LinesEnded, WentOn, EndedAt, LineLeft, LeftRows};
ghost use Rattle.sessions.specs.World.{WhereTold, TellsRows, seen_sink, seen_shelf, seen_keeper};

use crate::answer::{write_answer, write_shown};
use crate::failure::Failure;
use crate::lines::cut_line;
use crate::output::write_text;
use crate::script::{Script, Turned};
use crate::texts::bad_text;
use rm_base::limits::SCRIPT_MOST;
use rm_outside::keeper::Keeper;
use rm_outside::shelf::Shelf;
use rm_outside::sink::Sink;
use rm_outside::spool::Spool;
use std::alloc::Global;

/// Does what a line says, and writes what it prints.
fn run_line<O: Sink, H: Shelf, P: Spool, K: Keeper>(
    alloc: Global,
    number: u64,
    line: &[u8],
    script: &mut Script,
    out: &mut O,
    shelf: &mut H,
    spool: &mut P,
    keeper: &mut K,
) -> Result<(), Failure>
    requires { TellsRows (K.stored keeper.old) script.old.machine.definitions }
    ensures later { O.faults out.old ≤ O.faults out.new }
    ensures shelf_later { H.faults shelf.old ≤ H.faults shelf.new }
    ensures files { H.files shelf.new ≡ H.files shelf.old }
    ensures spool { spool.new ≡ spool.old }
    ensures keeper_later { K.faults keeper.old ≤ K.faults keeper.new }
    ensures told { IsSome (K.stored keeper.new) → IsSome (K.stored keeper.old) }
    ensures agrees { OnOk result (TellsRows (K.stored keeper.new) script.new.machine.definitions) }
    ensures goes { OnOk result (WhereTold (H.files shelf.old) (λ files. WentOn files script.old script.new line.now (O.written out.old) (O.written out.new))) }
    ensures cause { IfErr result (IsCause (seen_sink O.Sink out.old) (seen_sink O.Sink out.new) (seen_shelf H.Shelf shelf.old) (seen_shelf H.Shelf shelf.new)
        (seen_keeper K.Keeper keeper.old) (seen_keeper K.Keeper keeper.new)) }
    ensures ends { IfErr result (λ f. WhereTold (H.files shelf.old) (λ files.
        EndedAt files number script.old line.now (O.written out.old) (O.written out.new) (K.stored keeper.new) f)) }
    ensures left { IfErr result (λ f. WhereTold (H.files shelf.old) (λ files. WhereTold (K.stored keeper.new) (λ rows.
        LineLeft files number script.old line.now (O.written out.old) (O.written out.new) rows))) }
{
    match script.take_line(alloc, shelf, spool, keeper, line)? {
        Turned::Goes(text) => write_text(out, text.as_bytes()),
        Turned::Answers(answer) => write_answer(alloc, &answer, out),
        Turned::Shows { before, table } => write_shown(alloc, before.as_str(), &table, out),
        Turned::Bad => {
            let text = bad_text(alloc, number)?;
            write_text(out, text.as_bytes())?;
            Err(Failure::BadLine)
        }
        Turned::Stops(text) => {
            write_text(out, text.as_bytes())?;
            Err(Failure::BadTable)
        }
    }
}

/// Does what the lines of a text say, one after the other, up to the one that ends the script, and writes what each
/// prints before it goes on.
pub fn run_lines<O: Sink, H: Shelf, P: Spool, K: Keeper>(
    alloc: Global,
    bytes: &[u8],
    script: &mut Script,
    out: &mut O,
    shelf: &mut H,
    spool: &mut P,
    keeper: &mut K,
) -> Result<(), Failure>
    requires short { length bytes.now ≤ SCRIPT_MOST }
    requires agrees { TellsRows (K.stored keeper.old) script.old.machine.definitions }
    ensures files { H.files shelf.new ≡ H.files shelf.old }
    ensures spool { spool.new ≡ spool.old }
    ensures told { IsSome (K.stored keeper.new) → IsSome (K.stored keeper.old) }
    ensures cause { IfErr result (IsCause (seen_sink O.Sink out.old) (seen_sink O.Sink out.new) (seen_shelf H.Shelf shelf.old) (seen_shelf H.Shelf shelf.new)
        (seen_keeper K.Keeper keeper.old) (seen_keeper K.Keeper keeper.new)) }
    ensures ends { WhereTold (H.files shelf.old) (λ files.
        LinesEnded files script.old (lines bytes.now) (O.written out.old) (O.written out.new) (K.stored keeper.new) result) }
    ensures left { WhereTold (H.files shelf.old) (λ files. WhereTold (K.stored keeper.new) (λ rows.
        LeftRows files script.old (lines bytes.now) (O.written out.old) (O.written out.new) rows)) }
{
    let mut rest = bytes;
    let mut number = 1;
    while let Some((line, more)) = cut_line(rest) {
        run_line(alloc, number, line, script, out, shelf, spool, keeper)?;
        rest = more;
        number += 1;
    }
    Ok(())
}
