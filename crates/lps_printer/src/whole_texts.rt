//! The text of a linear process.

ghost use Rattle.std.specs.Prelude.{◌≡◌, ◌<◌, ◌≤◌, ◌-◌, ℕ, length, slice_get, Some, IfOk, OnOk};
ghost use Rattle.std.specs.List.{All};
ghost use Rattle.data_theory.specs.declared.ids.FunId.{FunId};
ghost use Rattle.data_theory.specs.IdTerms.{IsGrown};
ghost use Rattle.data_theory.specs.Structs.{numbers_from};
ghost use Rattle.mcrl2_syntax.specs.Declarations.{spec_of};
ghost use Rattle.lps_core.specs.CanonicalConditions.{HaveNoNeedlessTrue};
ghost use Rattle.lps_core.specs.Fitting.{Fits};
ghost use Rattle.lps_core.specs.Naming.{HaveOwnNames, ParamsHaveOwnNames};
ghost use Rattle.lps_core.specs.PlainLinears.{plain_linear};
ghost use Rattle.sort_table.specs.SignatureVocabularies.{text_under};
ghost use Rattle.lps_printer.specs.CanonicalTexts.{IsCanonicalText};
ghost use Rattle.lps_printer.specs.PrintedLinears.{HasText, IsPrinted};

use crate::added::push_added;
use crate::constants::add_constants;
use crate::copied_sections::copied_text;
use crate::printing::needed_nils;
use crate::process_writer::ProcessWriter;
use crate::tables::{once_actions, once_functions};
use data_theory::{FunId, NameId, NoMemory, Signature};
use lps_core::Linear;
use mcrl2_syntax::Spec;
use std::alloc::Global;
use term_pool::Pool;

/// The functions from this number on and before that one.
fn functions_between(alloc: Global, first: usize, last: usize) -> Result<Vec<FunId>, NoMemory>
    requires { first ≤ last }
    ensures { IfOk result (λ functions. functions.items ≡ numbers_from first (last - first)) }
{
    let mut functions = Vec::new(alloc);
    for number in first..last {
        functions.push(FunId(number))?;
    }
    Ok(functions)
}

/// The text with these constants for empty lists, by a signature that has them.
fn text_with<'a>(
    alloc: Global,
    spec: &Spec,
    sig: &'a Signature,
    pool: &'a Pool,
    constants: &'a [Option<FunId>],
    added: &[FunId],
    name: NameId,
    lin: &'a Linear,
) -> Result<Vec<u8>, NoMemory>
    requires fits { Fits sig.now pool.now.trees (plain_linear lin.now) }
    requires name { name.0 < length sig.now.texts }
    requires known { (k : ℕ) (f : FunId) → slice_get constants.now k ≡ Some (Some f) → f.0 < length sig.now.functions }
    requires added { All (λ (f : FunId). f.0 < length sig.now.functions) added.now }
    ensures { IfOk result (λ text. HasText (spec_of spec.now) sig.now pool.now.trees constants.now (text_under sig.now name) (plain_linear lin.now) added.now text.items) }
{
    let names = sig.names();
    let functions = once_functions(alloc, sig)?;
    let actions = once_actions(alloc, sig)?;
    let writer = ProcessWriter::new(
        sig,
        pool,
        functions.as_slice(),
        constants,
        actions.as_slice(),
        names.text(name).as_bytes(),
        lin.params(),
    );
    let (mut text, gap) = copied_text(alloc, spec)?;
    let gap = push_added(alloc, spec, sig, added, gap, &mut text)?;
    writer.sections(lin, gap, &mut text)?;
    Ok(text)
}

/// The text of a linear process: the declarations of the specification but those of processes, what was added to the data, and
/// the process under this name. A constant is added for each sort whose empty list stands in an open place. Where the variables have their
/// own names and the conditions say nothing needless, the text is canonical.
///
/// # Errors
///
/// `NoMemory` only.
pub fn print(
    alloc: Global,
    spec: &Spec,
    sig: &mut Signature,
    pool: &Pool,
    name: NameId,
    lin: &Linear,
) -> Result<Vec<u8>, NoMemory>
    requires fits { Fits sig.old pool.now.trees (plain_linear lin.now) }
    requires name { name.0 < length sig.old.texts }
    ensures grown { IsGrown sig.old sig.new }
    ensures written { IfOk result (λ text. IsPrinted (spec_of spec.now) sig.old sig.new pool.now.trees name (plain_linear lin.now) text.items) }
    ensures canonical { IfOk result (λ text. ParamsHaveOwnNames sig.old (plain_linear lin.now).params → HaveOwnNames sig.old (plain_linear lin.now) → HaveNoNeedlessTrue sig.old pool.now.trees (plain_linear lin.now) → IsCanonicalText (spec_of spec.now) sig.new (text_under sig.new name) text.items) }
{
    let _ = sig.names();
    let first = sig.fun_count();
    let found = needed_nils(alloc, sig, pool, lin)?;
    let constants = add_constants(alloc, sig, found.as_slice())?;
    let _ = sig.names();
    let added = functions_between(alloc, first, sig.fun_count())?;
    text_with(
        alloc,
        spec,
        sig,
        pool,
        constants.as_slice(),
        added.as_slice(),
        name,
        lin,
    )
}
