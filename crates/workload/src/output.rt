//! Writing a text whole.

ghost use Rattle.std.specs.Prelude.{◌≤◌, IfErr, OnOk};
ghost use Rattle.std.specs.Io.KnownBytes.{Appends};
ghost use Rattle.workload.specs.Ended.{ExplainsOutput, seen_sink};

use crate::failure::{Failure, write_failure};
use rm_outside::sink::Sink;

/// Writes a text, as often as the sink takes a part of it.
pub fn write_text<O: Sink>(out: &mut O, text: &[u8]) -> Result<(), Failure>
    ensures later { O.faults out.old ≤ O.faults out.new }
    ensures whole { OnOk result (Appends (O.written out.old) (O.written out.new) text.now) }
    ensures err { IfErr result (ExplainsOutput (seen_sink O.Sink out.old) (seen_sink O.Sink out.new) text.now) }
{
    let mut at = 0;
    while at < text.len() {
        match out.write(&text[at..]) {
            Ok(count) => at += count,
            Err(error) => return Err(write_failure(error)),
        }
    }
    Ok(())
}
