//! Why a form has no regular encoding.

ghost use Rattle.std.specs.Prelude.{◌≡◌, IfErr, IfSome, OnOk, MatchOption, length};
ghost use Rattle.std.specs.List.{position};
ghost use Rattle.greibach.specs.PlainForms.{plain_form};
ghost use Rattle.greibach.specs.Tails.{HasTails};
ghost use Rattle.regular_encoder.specs.Refusals.{has_two_calls, IsEncodeFaultOf};

use data_theory::NoMemory;
use greibach::{Greibach, GreibachEquation};
use std::alloc::{AllocError, AllocFailed};

/// Why a form has no regular encoding.
#[derive(Clone, Copy, Debug, PartialEq, Eq)]
pub enum EncodeFault {
    /// The summand with this number, from 1 over the equations in their order, is the first with two calls.
    NotTail(usize),
    /// No memory was left.
    NoMemory,
}

impl From<NoMemory> for EncodeFault {
    ghost use Rattle.regular_encoder.specs.declared.faults.EncodeFault.TheVariants.{NoMemory};

    ghost from_gives = { λ _ fault. fault ≡ NoMemory };

    fn from(_: NoMemory) -> Self {
        EncodeFault::NoMemory
    }
}

impl From<AllocError> for EncodeFault {
    ghost use Rattle.regular_encoder.specs.declared.faults.EncodeFault.TheVariants.{NoMemory};

    ghost from_gives = { λ _ fault. fault ≡ NoMemory };

    fn from(_: AllocError) -> Self {
        EncodeFault::NoMemory
    }
}

impl<T: Drop> From<AllocFailed<T>> for EncodeFault {
    ghost use Rattle.regular_encoder.specs.declared.faults.EncodeFault.TheVariants.{NoMemory};

    ghost from_gives = { λ _ fault. fault ≡ NoMemory };

    fn from(_: AllocFailed<T>) -> Self {
        EncodeFault::NoMemory
    }
}

/// The place of the first summand with two calls, from 0.
fn two_calls_at(equation: &GreibachEquation) -> Option<usize>
    ensures { result ≡ position has_two_calls equation.now.summands.items }
{
    equation
        .summands
        .iter()
        .position(|summand| summand.next.len() >= 2)
}

/// Tests that no summand has two calls.
pub(crate) fn check_tail(form: &Greibach) -> Result<(), EncodeFault>
    ensures tail { OnOk result (HasTails (plain_form form.now)) }
    ensures fault { IfErr result (IsEncodeFaultOf (plain_form form.now)) }
{
    let mut before: usize = 0;
    for equation in &form.equations {
        let count = equation.summands.len();
        let Some(after) = before.checked_add(count) else {
            // There is no memory for so many summands.
            return Err(EncodeFault::NoMemory);
        };
        if let Some(place) = two_calls_at(equation) {
            return Err(EncodeFault::NotTail(before + place + 1));
        }
        before = after;
    }
    Ok(())
}
