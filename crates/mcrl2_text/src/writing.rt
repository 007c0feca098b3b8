//! A whole piece into a sink.
ghost use Rattle.std.specs.Prelude.{◌≡◌, ◌≤◌, ◌<◌, ◌++◌, Some, None, OnOk, OnErr, IfSome, length};
ghost use Rattle.mcrl2_text.specs.Bytes.{TakesPrefix};
ghost use Rattle.mcrl2_text.specs.Calls.{EndsWriting, WritesOn};
ghost use Rattle.mcrl2_text.specs.Faults.{Rose};

use crate::{Failed, Sink};

/// Writes a whole piece: what a write has left is written next, until nothing is left.
///
/// It takes no memory. What a sink takes for a write is the sink's own.
///
/// # Errors
///
/// `Failed` where the sink failed. The bytes taken are then a prefix of the piece, and no call followed the failed one.
pub fn write_all<O: Sink>(sink: &mut O, piece: &[u8]) -> Result<(), Failed>
    ensures whole { OnOk result (IfSome (O.taken sink.old) (λ before. O.taken sink.new ≡ Some (before ++ piece.now))) }
    ensures prefix { IfSome (O.taken sink.old) (λ before. TakesPrefix before (O.taken sink.new) piece.now) }
    ensures faults { O.faults sink.old ≤ O.faults sink.new }
    ensures failed { OnErr result (Rose (O.faults sink.old) (O.faults sink.new)) }

    // Which calls were made: up to the whole piece, or up to the failed one.
    ensures ok_calls { OnOk result (WritesOn O.writes sink.old piece.now (length piece.now) sink.new) }
    ensures failed_calls { OnErr result (EndsWriting O.writes sink.old piece.now sink.new) }
{
    let mut at = 0;
    while at < piece.len() {
        at += sink.write(&piece[at..])?;
    }
    Ok(())
}
