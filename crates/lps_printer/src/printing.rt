//! The text of a label, and what the text of a linear process needs.

ghost use Rattle.std.specs.Prelude.{◌≡◌, [], map, IfOk};
ghost use Rattle.std.specs.List.{All};
ghost use Rattle.process_terms.specs.PlainProcesses.{plain_label};
ghost use Rattle.process_terms.specs.SignatureEntries.{entries_of};
ghost use Rattle.lps_core.specs.Fitting.{Fits, IsActionOf};
ghost use Rattle.lps_core.specs.PlainLinears.{initial_of, linear_of, plain_linear};
ghost use Rattle.lps_printer.specs.SignatureNames.{text_names_under};
ghost use Rattle.lps_printer.specs.NeededConstants.{linear_nils, nil_sort, Finds, IsNil};
ghost use Rattle.lps_printer.specs.PrintedTexts.{label_text};

use crate::process_writer::ProcessWriter;
use crate::tables::{once_actions, once_functions};
use data_theory::{FunId, NoMemory, Signature};
use indexmap::IndexSet;
use lps_core::Linear;
use process_terms::Label;
use std::alloc::Global;
use term_pool::Pool;

/// The text of a label. It adds nothing: an empty list in an open place is `[]`.
///
/// # Errors
///
/// `NoMemory` only.
pub fn print_label<'a>(
    alloc: Global,
    sig: &'a Signature,
    pool: &'a Pool,
    label: &Label,
) -> Result<Vec<u8>, NoMemory>
    requires { All (IsActionOf sig.now pool.now.trees) (plain_label label.now) }
    ensures written { IfOk result (λ text. text.items ≡ label_text sig.now pool.now.trees (plain_label label.now)) }
{
    let _ = sig.names();
    let functions = once_functions(alloc, sig)?;
    let actions = once_actions(alloc, sig)?;
    let writer = ProcessWriter::new(
        sig,
        pool,
        functions.as_slice(),
        &[],
        actions.as_slice(),
        b"",
        &[],
    );
    let mut text = Vec::new(alloc);
    writer.label(label, b"", &mut text)?;
    Ok(text)
}

/// The `[]` that stand in open places of the printed process, each once, in the order of first need.
pub(crate) fn needed_nils<'a>(
    alloc: Global,
    sig: &'a Signature,
    pool: &'a Pool,
    lin: &'a Linear,
) -> Result<IndexSet<FunId>, NoMemory>
    requires { Fits sig.now pool.now.trees (plain_linear lin.now) }
    ensures nils { IfOk result (λ found. All (IsNil sig.now) found.keys) }
    ensures needed { IfOk result (λ found. Finds [] (linear_nils (text_names_under sig.now []) (linear_of (entries_of sig.now pool.now.trees) (plain_linear lin.now)) (initial_of (entries_of sig.now pool.now.trees) (plain_linear lin.now))) (map (nil_sort sig.now) found.keys)) }
{
    let _ = sig.names();
    let functions = once_functions(alloc, sig)?;
    let actions = once_actions(alloc, sig)?;
    let writer = ProcessWriter::new(
        sig,
        pool,
        functions.as_slice(),
        &[],
        actions.as_slice(),
        b"",
        lin.params(),
    );
    let mut found = IndexSet::new(alloc);
    writer.summands_nils(lin.summands(), &mut found)?;
    writer.initial_nils(lin.init(), &mut found)?;
    Ok(found)
}
