//! The task `steps` behind chosen moves: what the linear process of a text can do where these lead.
ghost use Rattle.std.specs.Prelude.{◌≡◌, ◌≢◌, ◌≤◌, Some, IfErr, IfOk, IsErrOf, length};
ghost use Rattle.mcrl2_text.specs.Faults.{Rose};
ghost use Rattle.lin_words.specs.declared.command.Task.TheVariants.{StepsAfter};
ghost use Rattle.lin_run.specs.Causes.{HasCause};
ghost use Rattle.lin_run.specs.Ends.{IsAnswer};

use data_theory::Names;
use lin_answers::Answer;
use lin_driver::{Ending, Method, linearise_as};
use lin_refusals::Stop;
use lin_tasks::steps_after_file;
use mcrl2_text::{MAX_TEXT_LEN, Shelf};
use std::alloc::Global;

/// What the linear process of a text, which is made by a method and ends as it is asked to, can do behind the moves that a file chooses, which a shelf has under a name. The file is read once
/// the text is made linear.
///
/// # Errors
///
/// Those of [`linearise_as`] with that method and ending, then those of [`mcrl2_text::load`], and then `Refused` where a line of the file is neither blank nor the number of a move.
pub fn steps_after<H: Shelf>(
    alloc: Global,
    text: &[u8],
    shelf: &mut H,
    name: &str,
    method: Method,
    ending: Ending,
    fuel: u64,
    bound: u64,
) -> Result<Answer, Stop>
    requires { length text.now ≤ MAX_TEXT_LEN }
    ensures answered { IfOk result (λ answer. IsAnswer ending (StepsAfter method fuel bound) text.now (H.text_of shelf.old name.now) answer.status answer.text.items) }
    ensures cause { IfErr result (λ stop. (stop ≢ Stop.Words) × HasCause stop (Some (record { task = StepsAfter method fuel bound; text = text.now; further = H.text_of shelf.old name.now; ending = ending }))) }
    ensures read_fault { IsErrOf result Stop.ReadFault → Rose (H.faults shelf.old) (H.faults shelf.new) }
{
    let mut names = Names::new(alloc);
    match linearise_as(alloc, text, &mut names, method, ending) {
        Ok(made) => steps_after_file(alloc, made, shelf, name, fuel, bound),
        Err(fault) => Err(Stop::for_fault(alloc, &names, &fault)),
    }
}
