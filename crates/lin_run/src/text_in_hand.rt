//! The text that a command is done with.
ghost use Rattle.std.specs.Prelude.{◌≡◌, ◌≤◌, ◌<◌, IfErr, IfOk, IfSome, IsErrOf, length};
ghost use Rattle.mcrl2_text.specs.Faults.{Rose};
ghost use Rattle.lin_refusals.specs.Stops.{IsOfLoading};
ghost use Rattle.lin_words.specs.Commands.{asked, text_asked, IsSized, ReadsFor};

use lin_driver::buffer_line;
use lin_refusals::Stop;
use lin_words::{Command, Task};
use mcrl2_text::{MAX_TEXT_LEN, Shelf, load};
use std::alloc::Global;

/// The text that a command is done with: that of its file, or for `generate` that of a line of buffers.
pub fn text_for<H: Shelf>(
    alloc: Global,
    command: Command<'_>,
    shelf: &mut H,
) -> Result<Vec<u8>, Stop>
    requires { IsSized command.task }
    ensures text { IfOk result (λ bytes. IfSome (text_asked (H.text_of shelf.old) (asked command.entry)) (λ text. bytes.items ≡ text)) }
    ensures short { IfOk result (λ bytes. length bytes.items ≤ MAX_TEXT_LEN) }
    ensures read_fault { IsErrOf result Stop.ReadFault → Rose (H.faults shelf.old) (H.faults shelf.new) }
    ensures too_long { IsErrOf result Stop.TooLong → IfSome (text_asked (H.text_of shelf.old) (asked command.entry)) (λ text. MAX_TEXT_LEN < length text) }
    ensures no_other { IfErr result IsOfLoading }
    ensures texts { H.text_of shelf.new ≡ H.text_of shelf.old }
    ensures faults { H.faults shelf.old ≤ H.faults shelf.new }
    ensures unread { ¬ (ReadsFor command.entry.task) → shelf.new ≡ shelf.old }
{
    if let Task::Generate(size) = command.task {
        return Ok(buffer_line(alloc, size)?);
    }
    Ok(load(alloc, shelf, command.file)?)
}
