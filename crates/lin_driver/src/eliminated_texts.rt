//! The text of the linear process of a text from which something is eliminated.

ghost use Rattle.std.specs.Prelude.{◌≡◌, ◌≢◌, List, ℕ, IfErr, IfOk, OnOk, map};
ghost use Rattle.mcrl2_syntax.specs.Declarations.{spec_of};
ghost use Rattle.process_terms.specs.PlainProcesses.{plain_equation};
ghost use Rattle.lps_core.specs.PlainLinears.{plain_linear};
ghost use Rattle.lin_driver.specs.Accepted.{CanBeLinearised};
ghost use Rattle.lin_driver.specs.Eliminated.{IsEliminated, IsPrintedLeft};
ghost use Rattle.lin_driver.specs.Faults.{IsFaultBy};
ghost use Rattle.lin_driver.specs.Headline.{StandsFor};
ghost use Rattle.lin_driver.specs.Linearised.{IsMadeOf};
ghost use Rattle.lin_driver.specs.Refusals.{IsRefusedWith};
ghost use Rattle.lin_driver.specs.declared.ending.Ending.{Ending};

use crate::eliminations::{Elimination, left_of};
use crate::ending::Ending;
use crate::fault::LinFault;
use crate::linearising::{Linearised, linearise_as};
use crate::methods::Method;
use data_theory::Names;
use lps_core::{Linear, signature_stands};
use lps_printer::print;
use std::alloc::Global;
use std::mem;

/// What the elimination leaves of what was made of a text, printed. The linear process is used up: none is left in its place.
///
/// # Errors
///
/// `NoMemory` only.
fn print_left(
    alloc: Global,
    made: &mut Linearised,
    elimination: Elimination,
) -> Result<Vec<u8>, LinFault>
    requires { (ending : Ending) × (text : List ℕ) × IsMadeOf ending text (spec_of made.old.spec) made.old.sig made.old.pool.trees (map plain_equation made.old.theory.equations.items) made.old.name (plain_linear made.old.lin) }
    ensures written { IfOk result (λ text. IsPrintedLeft elimination (spec_of made.old.spec) made.old.sig made.old.pool.trees (map plain_equation made.old.theory.equations.items) made.old.name (plain_linear made.old.lin) text.items) }
    ensures no_fault { IfErr result (λ fault. fault ≡ LinFault.NoMemory) }
{
    let nothing = Linear {
        params: Vec::new(alloc),
        init: Vec::new(alloc),
        summands: Vec::new(alloc),
    };
    let lin = mem::replace(&mut made.lin, nothing);
    let left = left_of(
        alloc,
        lin,
        &made.sig,
        &mut made.pool,
        &made.theory,
        elimination,
    )?;
    let text = print(
        alloc,
        &made.spec,
        &mut made.sig,
        &made.pool,
        made.name,
        &left,
    )?;
    signature_stands(&made.sig);
    Ok(text)
}

/// The text of what an elimination leaves of the linear process of a text, which is made by a method and ends as it is asked to.
///
/// It stands for the given text as that of [`linear_text`](crate::linear_text) does. The parameters and the sums that are left keep their
/// names and their order, and so do the summands.
///
/// # Errors
///
/// Those of [`linearise_as`](crate::linearise_as) with that method and ending.
pub fn eliminated_text(
    alloc: Global,
    text: &[u8],
    names: &mut Names,
    method: Method,
    ending: Ending,
    elimination: Elimination,
) -> Result<Vec<u8>, LinFault>
    ensures accepted { OnOk result (CanBeLinearised text.now) }
    ensures stands_for { IfOk result (λ printed. StandsFor ending text.now printed.items) }
    ensures eliminated { IfOk result (λ printed. IsEliminated ending method elimination text.now printed.items) }
    ensures refused { IfErr result (λ fault. fault ≢ LinFault.NoMemory → IsRefusedWith text.now names.new fault) }
    ensures by { IfErr result (IsFaultBy ending method) }
{
    let mut made = linearise_as(alloc, text, names, method, ending)?;
    print_left(alloc, &mut made, elimination)
}
