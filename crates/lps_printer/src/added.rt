//! What is added to the declarations of a text.

ghost use Rattle.std.specs.Prelude.{◌<◌, length, IfOk};
ghost use Rattle.std.specs.List.{All};
ghost use Rattle.data_theory.specs.declared.ids.FunId.{FunId};
ghost use Rattle.mcrl2_syntax.specs.Declarations.{spec_of};
ghost use Rattle.lps_printer.specs.AddedDeclarations.{added_sections};
ghost use Rattle.lps_printer.specs.AddingSections.{AddsSections};
ghost use Rattle.lps_printer.specs.TextWordings.{NamesSorts};
ghost use Rattle.lps_printer.specs.WrittenProcesses.{TextNames};

use crate::added_actions::push_actions;
use crate::added_functions::added_functions;
use crate::added_sections::{Line, push_line_section};
use crate::added_structs::{constants, push_structs};
use data_theory::{FunId, NoMemory, Signature};
use mcrl2_syntax::Spec;
use std::alloc::Global;

/// The added declarations: actions, structs, constants, and an equation for each of these constants for empty lists. Gives the white space in
/// front of what comes behind them.
///
/// # Errors
///
/// `NoMemory` only.
pub(crate) fn push_added(
    alloc: Global,
    spec: &Spec,
    sig: &Signature,
    empty_lists: &[FunId],
    gap: &'static [u8],
    out: &mut Vec<u8>,
) -> Result<&'static [u8], NoMemory>
    requires { All (λ (f : FunId). f.0 < length sig.now.functions) empty_lists.now }
    ensures { IfOk result (λ next. (n : TextNames) → NamesSorts sig.now n → AddsSections out.old.items out.new.items gap.now next.now (added_sections (spec_of spec.now) sig.now n empty_lists.now)) }
{
    let _ = sig.names();
    let added = added_functions(spec, sig);
    let constants = constants(alloc, sig, added)?;
    let gap = push_actions(spec, sig, gap, out)?;
    let gap = push_structs(sig, added, gap, out)?;
    let gap = push_line_section(sig, Line::Constant, constants.as_slice(), gap, out)?;
    push_line_section(sig, Line::EmptyList, empty_lists, gap, out)
}
