//! The text of the linear process of a text.

ghost use Rattle.std.specs.Prelude.{◌≡◌, ◌≢◌, ◌<◌, IfErr, IfOk, OnOk, length};
ghost use Rattle.data_theory.specs.Signature.{Sig};
ghost use Rattle.data_theory.specs.WholeSignatures.{IsSignature};
ghost use Rattle.mcrl2_syntax.specs.Declarations.{spec_of};
ghost use Rattle.lps_core.specs.Fitting.{Fits};
ghost use Rattle.lps_core.specs.PlainLinears.{plain_linear};
ghost use Rattle.lps_printer.specs.PrintedLinears.{IsPrinted};
ghost use Rattle.lin_driver.specs.Accepted.{CanBeLinearised};
ghost use Rattle.lin_driver.specs.Faults.{IsFaultBy};
ghost use Rattle.lin_driver.specs.Headline.{StandsFor};
ghost use Rattle.lin_driver.specs.Refusals.{IsRefusedWith};
ghost use Rattle.lin_driver.specs.WrittenTexts.{IsWrittenFor};
ghost use Rattle.lin_driver.specs.declared.ending.Ending.{Ending};

use crate::ending::Ending;
use crate::fault::LinFault;
use crate::linearising::{Linearised, linearise_as};
use crate::methods::Method;
use data_theory::Names;
use lps_core::signature_stands;
use lps_printer::print;
use std::alloc::Global;

/// What was made of a text, printed.
///
/// # Errors
///
/// `NoMemory` only.
fn print_out(alloc: Global, made: &mut Linearised) -> Result<Vec<u8>, LinFault>
    requires fits { Fits made.old.sig made.old.pool.trees (plain_linear made.old.lin) }
    requires name { made.old.name.0 < length made.old.sig.texts }
    ensures written { IfOk result (λ text. (h : Sig) × IsSignature h × IsPrinted (spec_of made.old.spec) made.old.sig h made.old.pool.trees made.old.name (plain_linear made.old.lin) text.items) }
    ensures no_fault { IfErr result (λ fault. fault ≡ LinFault.NoMemory) }
{
    let text = print(
        alloc,
        &made.spec,
        &mut made.sig,
        &made.pool,
        made.name,
        &made.lin,
    )?;
    signature_stands(&made.sig);
    Ok(text)
}

/// The text of the linear process of a text by a method, which ends as it is asked to.
///
/// It stands for the given text: it has the same data and at most structs and constants behind them, and where these are consistent, both processes
/// are bisimilar by a named link (Groote and Mousavi, strong bisimilarity). By the ending `Terminate` the linear process never ends, and the link pairs
/// the end of the text's process with a last step `Terminate`. It is the printed text of a linear process that is plainly conditioned
/// for what the text's specification writes, and is canonical. No sort is added where no component needs a stack, and a linear text keeps its
/// process, unless the method is `Stack`.
///
/// # Errors
///
/// Those of [`linearise_as`](crate::linearise_as) with that method and ending.
pub fn linear_text(
    alloc: Global,
    text: &[u8],
    names: &mut Names,
    method: Method,
    ending: Ending,
) -> Result<Vec<u8>, LinFault>
    ensures accepted { OnOk result (CanBeLinearised text.now) }
    ensures stands_for { IfOk result (λ printed. StandsFor ending text.now printed.items) }
    ensures written { IfOk result (λ printed. IsWrittenFor ending method text.now printed.items) }
    ensures refused { IfErr result (λ fault. fault ≢ LinFault.NoMemory → IsRefusedWith text.now names.new fault) }
    ensures by { IfErr result (IsFaultBy ending method) }
{
    let mut made = linearise_as(alloc, text, names, method, ending)?;
    print_out(alloc, &mut made)
}
