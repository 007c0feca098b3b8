//! The program over any shelf and sinks.
ghost use Rattle.std.specs.Prelude.{◌≡◌, ◌≢◌, ◌≤◌, ◌<◌, ◌⊎◌, ◌++◌, List, ℕ, Some, None, codes, IfErr, IfOk, IfSome, IsErrOf, OnOk, length, map, string_bytes};
ghost use Rattle.mcrl2_text.specs.Bytes.{TakesPrefix};
ghost use Rattle.mcrl2_text.specs.Faults.{Rose};
ghost use Rattle.lin_driver.specs.Accepted.{CanBeLinearised, IsOfTheText};
ghost use Rattle.lin_driver.specs.Refusals.{IsRefusedWith};
ghost use Rattle.lin_words.specs.Commands.{asked_by, question, NeedsFurther, ReadsAFile};
ghost use Rattle.lin_run.specs.Causes.{HasCause, IsFaultFor, status_of_stop};
ghost use Rattle.lin_run.specs.Ends.{EndsWell, EndsWithLine, HasGoodFurther, IsAnswer, IsAnswered, IsTaken, MayStayOpen, MaySayNo};

use crate::holding::judge_condition;
use crate::leading::steps_after;
use crate::replaying::replay;
use crate::text_in_hand::text_for;
use data_theory::Names;
use lin_answers::{Answer, Status};
use lin_driver::{Elimination, Ending, LinFault, check_text, eliminated_text, linear_text};
use lin_refusals::Stop;
use lin_tasks::{counts, equations, steps, walk};
use lin_words::{Task, command_of};
use mcrl2_text::{MAX_TEXT_LEN, Shelf, Sink, write_all};
use std::alloc::Global;

/// Does what the words ask for: writes to `out` the linear process of the specification that the shelf has under the
/// given name, or `ok` where the task is to check it, or to `err` a line that says why not.
pub fn run<H: Shelf, O: Sink, E: Sink>(
    alloc: Global,
    words: &Vec<String>,
    shelf: &mut H,
    out: &mut O,
    err: &mut E,
) -> Status
    // When each status comes.
    ensures words { result ≡ Status.Words → asked_by (map string_bytes words.now.items) ≡ None }
    ensures no_command { asked_by (map string_bytes words.now.items) ≡ None → (result ≡ Status.Words) ⊎ (result ≡ Status.NoMemory) }
    ensures read_fault { result ≡ Status.ReadFault → Rose (H.faults shelf.old) (H.faults shelf.new) }
    ensures write_fault { result ≡ Status.WriteFault → Rose (O.faults out.old) (O.faults out.new) }
    ensures undecided { result ≡ Status.Undecided → IfSome (asked_by (map string_bytes words.now.items)) (λ a. MayStayOpen a.task) }
    ensures no { result ≡ Status.No → IfSome (asked_by (map string_bytes words.now.items)) (λ a. MaySayNo a.task) }

    // What the output gets: the whole answer, a prefix of it after a fault of its own, or nothing.
    ensures done { IsAnswered result → IfSome (question (H.text_of shelf.old) (map string_bytes words.now.items))
        (λ q. (length q.text ≤ MAX_TEXT_LEN) × (answer : List ℕ) × IsAnswer q.ending q.task q.text q.further result answer
        × IfSome (O.taken out.old) (λ before. O.taken out.new ≡ Some (before ++ answer))) }
    ensures cut_off { result ≡ Status.WriteFault → IfSome (question (H.text_of shelf.old) (map string_bytes words.now.items))
        (λ q. (length q.text ≤ MAX_TEXT_LEN) × (status : Status) × (answer : List ℕ) × IsAnswer q.ending q.task q.text q.further status answer
        × IfSome (O.taken out.old) (λ before. TakesPrefix before (O.taken out.new) answer)) }
    ensures out_kept { ¬ (IsAnswered result) → result ≢ Status.WriteFault → out.new ≡ out.old }

    // What the error output gets: nothing, or the line of the status with its cause.
    ensures err_kept { IsAnswered result → err.new ≡ err.old }
    ensures err { EndsWithLine result (question (H.text_of shelf.old) (map string_bytes words.now.items))
        (E.taken err.old) (E.taken err.new) (E.faults err.old) (E.faults err.new) }

    ensures shelf_kept { ¬ (ReadsAFile (asked_by (map string_bytes words.now.items))) → shelf.new ≡ shelf.old }

    // For each text that the task takes it is done: what is written stands for the text, that of an elimination has its effect, and that of `steps`, `walk` and `replay` speaks of
    // its steps. That of `invariant` stands for the text where the condition holds. A trace has to be good, and so do choices and a condition.
    ensures headline { IfSome (question (H.text_of shelf.old) (map string_bytes words.now.items)) (λ q. IsTaken q.ending q.task q.text → HasGoodFurther q.ending q.task q.text q.further
        → length q.text ≤ MAX_TEXT_LEN → ¬ (Rose (H.faults shelf.old) (H.faults shelf.new)) → ¬ (Rose (O.faults out.old) (O.faults out.new))
        → EndsWell result q (O.taken out.old) (O.taken out.new)) }

    // And so it is for each text without a fault for which the task refuses it.
    ensures complete { IfSome (question (H.text_of shelf.old) (map string_bytes words.now.items)) (λ q. ((texts : List (List ℕ)) (fault : LinFault) → IsFaultFor q.ending q.task fault → ¬ (IsRefusedWith q.text texts fault)) → HasGoodFurther q.ending q.task q.text q.further
        → length q.text ≤ MAX_TEXT_LEN → ¬ (Rose (H.faults shelf.old) (H.faults shelf.new)) → ¬ (Rose (O.faults out.old) (O.faults out.new))
        → EndsWell result q (O.taken out.old) (O.taken out.new)) }
{
    match answer(alloc, words, shelf) {
        Ok(answer) => {
            if write_all(out, &answer.text).is_ok() {
                return answer.status;
            }
            let _ = write_all(err, b"write fault\n");
            Status::WriteFault
        }
        Err(stop) => {
            let _ = write_all(err, stop.line());
            status_of(&stop)
        }
    }
}

/// The answer that the words ask for, whole.
fn answer<H: Shelf>(alloc: Global, words: &[String], shelf: &mut H) -> Result<Answer, Stop>
    ensures words { IsErrOf result Stop.Words → asked_by (map string_bytes words.now) ≡ None }
    ensures no_command { asked_by (map string_bytes words.now) ≡ None → IsErrOf result Stop.Words ⊎ IsErrOf result Stop.NoMemory }
    ensures read_fault { IsErrOf result Stop.ReadFault → Rose (H.faults shelf.old) (H.faults shelf.new) }
    ensures refused { IfErr result (λ stop. HasCause stop (question (H.text_of shelf.old) (map string_bytes words.now))) }
    ensures answered { IfOk result (λ answer. IsAnswered answer.status × IfSome (question (H.text_of shelf.old) (map string_bytes words.now))
        (λ q. (length q.text ≤ MAX_TEXT_LEN) × IsAnswer q.ending q.task q.text q.further answer.status answer.text.items)) }
    ensures stays_open { IfOk result (λ answer. answer.status ≡ Status.Undecided → IfSome (asked_by (map string_bytes words.now)) (λ a. MayStayOpen a.task)) }
    ensures says_no { IfOk result (λ answer. answer.status ≡ Status.No → IfSome (asked_by (map string_bytes words.now)) (λ a. MaySayNo a.task)) }
    ensures shelf_kept { ¬ (ReadsAFile (asked_by (map string_bytes words.now))) → shelf.new ≡ shelf.old }
{
    let command = command_of(alloc, words)?.ok_or(Stop::Words)?;
    let text = text_for(alloc, command, shelf)?;
    if let Some(further) = command.further {
        return answer_with(alloc, command.task, command.ending, &text, shelf, further);
    }
    let mut names = Names::new(alloc);
    match answer_to(alloc, command.task, command.ending, &text, &mut names) {
        Ok(answer) => Ok(answer),
        Err(fault) => Err(Stop::for_fault(alloc, &names, &fault)),
    }
}

/// The answer of a task on a text and a further file, which a shelf has under a name.
fn answer_with<H: Shelf>(
    alloc: Global,
    task: Task,
    ending: Ending,
    text: &[u8],
    shelf: &mut H,
    name: &str,
) -> Result<Answer, Stop>
    requires needs { NeedsFurther task }
    requires short { length text.now ≤ MAX_TEXT_LEN }
    ensures answered { IfOk result (λ answer. IsAnswer ending task text.now (H.text_of shelf.old name.now) answer.status answer.text.items) }
    ensures cause { IfErr result (λ stop. (stop ≢ Stop.Words) × HasCause stop (Some (record { task = task; text = text.now; further = H.text_of shelf.old name.now; ending = ending }))) }
    ensures read_fault { IsErrOf result Stop.ReadFault → Rose (H.faults shelf.old) (H.faults shelf.new) }
{
    match task {
        Task::Replay {
            method,
            fuel,
            bound,
        } => replay(alloc, text, shelf, name, method, ending, fuel, bound),
        Task::StepsAfter {
            method,
            fuel,
            bound,
        } => steps_after(alloc, text, shelf, name, method, ending, fuel, bound),
        Task::Invariant { method, fuel } => {
            judge_condition(alloc, text, shelf, name, method, ending, fuel)
        }
        _ => unreachable!(),
    }
}

/// The answer of a task that needs no further file on a text.
fn answer_to(
    alloc: Global,
    task: Task,
    ending: Ending,
    text: &[u8],
    names: &mut Names,
) -> Result<Answer, LinFault>
    requires { ¬ (NeedsFurther task) }
    ensures answered { IfOk result (λ answer. IsAnswer ending task text.now None answer.status answer.text.items) }
    ensures of_the_task { IfErr result (λ fault. fault ≢ LinFault.NoMemory → IsFaultFor ending task fault) }
    ensures refused { IfErr result (λ fault. fault ≢ LinFault.NoMemory → IsRefusedWith text.now names.new fault) }
{
    match task {
        Task::Check => Ok(Answer::done(checked(alloc, text, names)?)),
        Task::Linearise(method) => Ok(Answer::done(linear_text(
            alloc, text, names, method, ending,
        )?)),
        Task::Constelm { method, fuel } => Ok(Answer::done(eliminated_text(
            alloc,
            text,
            names,
            method,
            ending,
            Elimination::Constants(fuel),
        )?)),
        Task::Parelm(method) => Ok(Answer::done(eliminated_text(
            alloc,
            text,
            names,
            method,
            ending,
            Elimination::Parameters,
        )?)),
        Task::Sumelm { method, fuel } => Ok(Answer::done(eliminated_text(
            alloc,
            text,
            names,
            method,
            ending,
            Elimination::Sums(fuel),
        )?)),
        Task::Steps {
            method,
            fuel,
            bound,
        } => steps(alloc, text, names, method, ending, fuel, bound),
        Task::Walk { method, plan } => walk(alloc, text, names, method, ending, plan),
        Task::Equations(method) => equations(alloc, text, names, method, ending),
        Task::Generate(_) => Ok(Answer::done(counts(alloc, text, names)?)),
        Task::StepsAfter { .. } => unreachable!(),
        Task::Replay { .. } => unreachable!(),
        Task::Invariant { .. } => unreachable!(),
    }
}

/// The line that says that a text can be linearised.
fn checked(alloc: Global, text: &[u8], names: &mut Names) -> Result<Vec<u8>, LinFault>
    ensures accepted { OnOk result (CanBeLinearised text.now) }
    ensures says { IfOk result (λ line. line.items ≡ codes "ok\n") }
    ensures of_the_text { IfErr result (λ fault. fault ≢ LinFault.NoMemory → IsOfTheText fault) }
    ensures refused { IfErr result (λ fault. fault ≢ LinFault.NoMemory → IsRefusedWith text.now names.new fault) }
{
    check_text(alloc, text, names)?;
    match Vec::from_slice(alloc, b"ok\n") {
        Ok(line) => Ok(line),
        Err(_) => Err(LinFault::NoMemory),
    }
}

fn status_of(stop: &Stop) -> Status
    ensures { result ≡ status_of_stop stop.now }
{
    match stop {
        Stop::Words => Status::Words,
        Stop::ReadFault => Status::ReadFault,
        Stop::TooLong | Stop::Refused(_) => Status::Refused,
        Stop::NoMemory => Status::NoMemory,
    }
}
