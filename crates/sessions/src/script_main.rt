//! The command `script`, from its words and the bytes that it reads to the bytes that it writes.

ghost use Rattle.std.specs.Prelude.{◌≡◌, None, map, string_bytes};
ghost use Rattle.options.specs.Script.{script_options};
ghost use Rattle.sessions.specs.Transfers.{ReadFront};
ghost use Rattle.sessions.specs.World.{seen_world};
ghost use Rattle.sessions.specs.Ended.{HasEnded, IsRun};
ghost use Rattle.options.specs.declared.status.TheConstants.{USAGE};

use crate::failure::{Failure, status_of};
use crate::input::read_input;
use crate::run::run_lines;
use crate::script::Script;
use keeper_rows::opening::open_definitions;
use options::script::script_options;
use options::status::Status;
use rm_outside::keeper::Keeper;
use rm_outside::shelf::Shelf;
use rm_outside::sink::Sink;
use rm_outside::source::Source;
use rm_outside::spool::Spool;
use std::alloc::Global;

/// Reads what the words of the command line say, the script, whole, and the stored definitions, and does what the script's
/// lines say.
fn run_words<S: Source, O: Sink, H: Shelf, P: Spool, K: Keeper>(
    alloc: Global,
    words: &[String],
    input: &mut S,
    out: &mut O,
    shelf: &mut H,
    spool: &mut P,
    keeper: &mut K,
) -> Result<(), Failure>
    ensures reads { ReadFront (S.left input.old) (S.left input.new) }
    ensures unread { script_options (map string_bytes words.now) ≡ None → input.new ≡ input.old }
    ensures unopened { script_options (map string_bytes words.now) ≡ None → keeper.new ≡ keeper.old }
    ensures ends { let seen : _ = seen_world S.Source O.Sink H.Shelf P.Spool K.Keeper in
        HasEnded (script_options (map string_bytes words.now)) (seen input.old out.old shelf.old spool.old keeper.old)
        (seen input.new out.new shelf.new spool.new keeper.new) result }
    ensures files { H.files shelf.new ≡ H.files shelf.old }
    ensures spool { spool.new ≡ spool.old }
{
    let Some(options) = script_options(alloc, words)? else {
        return Err(Failure::Usage);
    };
    let bytes = read_input(alloc, input)?;
    let definitions = open_definitions(alloc, keeper, options.memory, options.cores)?;
    let mut script = Script::new(alloc, definitions)?;
    run_lines(alloc, &bytes, &mut script, out, shelf, spool, keeper)
}

/// Does all that `poolhost script` does: reads the words of the command line, the whole input and the stored definitions,
/// runs the script's lines in their order, and writes what each prints. The definitions that an accepted statement leaves
/// are stored before the statement takes effect.
///
/// It always returns. The spool is not called yet.
pub fn script_main<S: Source, O: Sink, H: Shelf, P: Spool, K: Keeper>(
    alloc: Global,
    words: &[String],
    input: &mut S,
    out: &mut O,
    shelf: &mut H,
    spool: &mut P,
    keeper: &mut K,
) -> Status
    ensures run { let seen : _ = seen_world S.Source O.Sink H.Shelf P.Spool K.Keeper in
        IsRun (map string_bytes words.now) (seen input.old out.old shelf.old spool.old keeper.old)
        (seen input.new out.new shelf.new spool.new keeper.new) result.0 }

    // Where the words are none of a script's, nothing is read, and the store is not opened.
    ensures unread { result.0 ≡ USAGE → input.new ≡ input.old }
    ensures unopened { result.0 ≡ USAGE → keeper.new ≡ keeper.old }

    // Files stay as they are told, and what is not called yet stays as it was.
    ensures files { H.files shelf.new ≡ H.files shelf.old }
    ensures spool { spool.new ≡ spool.old }
{
    status_of(run_words(alloc, words, input, out, shelf, spool, keeper))
}
