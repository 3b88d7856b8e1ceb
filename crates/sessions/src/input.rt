//! Reading a whole script.

ghost use Rattle.std.specs.Prelude.{◌≤◌, IfOk, IfErr};
ghost use Rattle.sessions.specs.Transfers.{ReadFront, IsWholeInput, ExplainsInput};
ghost use Rattle.sessions.specs.World.{seen_source};

use crate::failure::{Failure, read_failure};
use rm_base::limits::{PIECE_MOST, SCRIPT_MOST};
use rm_outside::source::Source;
use std::alloc::Global;

/// Reads a script to its end, or up to one byte more than a script may have.
pub fn read_input<S: Source>(alloc: Global, input: &mut S) -> Result<Vec<u8>, Failure>
    ensures later { S.faults input.old ≤ S.faults input.new }
    ensures reads { ReadFront (S.left input.old) (S.left input.new) }
    ensures whole { IfOk result (λ bytes. IsWholeInput (S.left input.old) (S.left input.new) bytes.items) }
    ensures err { IfErr result (ExplainsInput (seen_source S.Source input.old) (seen_source S.Source input.new)) }
{
    let mut bytes = Vec::new(alloc);
    let mut piece = [0; PIECE_MOST];
    while bytes.len() <= SCRIPT_MOST {
        let most = PIECE_MOST.min(SCRIPT_MOST + 1 - bytes.len());
        let count = match input.read(&mut piece[..most]) {
            Ok(count) => count,
            Err(error) => return Err(read_failure(error)),
        };
        if count == 0 {
            return Ok(bytes);
        }
        bytes.extend_from_slice(&piece[..count])?;
    }
    Err(Failure::TooLong)
}
