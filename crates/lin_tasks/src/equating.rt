//! The task `equations`: whether the written equations of a text keep the rules under which they are consistent.
ghost use Rattle.std.specs.Prelude.{◌≡◌, ◌≢◌, ◌++◌, IfErr, IfOk, OnOk};
ghost use Rattle.lin_driver.specs.Accepted.{CanBeLinearised};
ghost use Rattle.lin_driver.specs.Faults.{IsFaultBy};
ghost use Rattle.lin_driver.specs.Refusals.{IsRefusedWith};
ghost use Rattle.lin_tasks.specs.JudgedEquations.{broken_line, judged_line, reason_word, status_of_judged, AreJudgedEquations};

use crate::decimals::push_number;
use data_theory::{Names, NoMemory};
use eqn_check as eqn;
use eqn_check::Reason;
use lin_answers::{Answer, Status};
use lin_driver::{Ending, LinFault, Method, judge_equations};
use std::alloc::Global;

/// Puts the word of a rule behind a line.
fn push_reason(line: &mut Vec<u8>, reason: Reason) -> Result<(), NoMemory>
    ensures { OnOk result (line.new.items ≡ line.old.items ++ reason_word reason) }
{
    match reason {
        Reason::Shape => line.extend_from_slice(b"shape")?,
        Reason::Repeat => line.extend_from_slice(b"repeat")?,
        Reason::Overlap => line.extend_from_slice(b"overlap")?,
        Reason::Recursion => line.extend_from_slice(b"recursion")?,
    }
    Ok(())
}

/// The line of the first equation that breaks a rule.
fn broken_line(alloc: Global, number: usize, reason: Reason) -> Result<Vec<u8>, NoMemory>
    ensures { IfOk result (λ line. line.items ≡ broken_line number reason) }
{
    let mut line = Vec::from_slice(alloc, b"unproved ")?;
    push_number(&mut line, number as u64)?;
    line.extend_from_slice(b" ")?;
    push_reason(&mut line, reason)?;
    line.extend_from_slice(b"\n")?;
    Ok(line)
}

/// An answer on equations, as it is shown.
fn judged_line(alloc: Global, answer: eqn::Answer) -> Result<Vec<u8>, NoMemory>
    ensures { IfOk result (λ line. line.items ≡ judged_line answer) }
{
    match answer {
        eqn::Answer::Consistent => Ok(Vec::from_slice(alloc, b"consistent\n")?),
        eqn::Answer::Unproved(number, reason) => broken_line(alloc, number, reason),
    }
}

/// The status of an answer on equations.
fn status_of_judged(answer: eqn::Answer) -> Status
    ensures { result ≡ status_of_judged answer }
{
    match answer {
        eqn::Answer::Consistent => Status::Done,
        eqn::Answer::Unproved(..) => Status::Undecided,
    }
}

/// Whether the written equations of a text keep four rules (shape, repeat, overlap, recursion) under which they are consistent; or the first one
/// that breaks a rule, and the first rule that it breaks. The text is made linear by the method and with the ending, too.
///
/// # Errors
///
/// Those of [`judge_equations`].
pub fn equations(
    alloc: Global,
    text: &[u8],
    names: &mut Names,
    method: Method,
    ending: Ending,
) -> Result<Answer, LinFault>
    ensures accepted { OnOk result (CanBeLinearised text.now) }
    ensures judged { IfOk result (λ answer. AreJudgedEquations text.now answer.status answer.text.items) }
    ensures refused { IfErr result (λ fault. fault ≢ LinFault.NoMemory → IsRefusedWith text.now names.new fault) }
    ensures by { IfErr result (IsFaultBy ending method) }
{
    let answer = judge_equations(alloc, text, names, method, ending)?;
    let line = judged_line(alloc, answer)?;
    Ok(Answer {
        text: line,
        status: status_of_judged(answer),
    })
}
