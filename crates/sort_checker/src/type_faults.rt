//! The first fault of typing that a text has.

ghost use Rattle.std.specs.Prelude.{◌≡◌, IfOk, option_map};
ghost use Rattle.std.specs.List.{All, Contains};
ghost use Rattle.mcrl2_syntax.specs.Declarations.{spec_of};
ghost use Rattle.mcrl2_syntax.specs.TreeWords.{IsSpecOfWords};
ghost use Rattle.sort_table.specs.BareDeclarations.{bare_sections};
ghost use Rattle.sort_table.specs.Identifiers.{identifiers_in};
ghost use Rattle.sort_checker.specs.FullVocabularies.{FullVocabulary, IsOver};
ghost use Rattle.sort_checker.specs.Refusals.{type_fault};
ghost use Rattle.sort_checker.specs.FoundFaults.{fault_of};

use crate::comm_shapes::comm_shape;
use crate::free_variables::free_variable;
use crate::left_sides::variable_left;
use crate::renamings::renamed_twice;
use crate::unknown_names::unknown_name;
use crate::untyped_parts::untyped;
use data_theory::{NoMemory, Signature};
use mcrl2_syntax::Spec;
use std::alloc::Global;

/// Why a text is ill typed, with the number of the declaration, from 1, and the name where the fault has one.
#[derive(Clone, Copy, Debug)]
pub enum FoundFault<'a> {
    /// A name that isn't known.
    UnknownName(usize, &'a [u8]),
    /// A part that doesn't type.
    Untyped(usize),
    /// A variable that isn't one of the left side, or a parameter that is left out and isn't in scope.
    FreeVariable(usize, &'a [u8]),
    /// A left side that is a variable.
    VariableLeft(usize),
    /// A `comm` whose rules don't fit.
    CommShape(usize),
    /// A name that is renamed twice.
    RenameTwice(usize, &'a [u8]),
}

/// The first fault of a text, in the order of these variants: of one fault the first declaration that has it, and in it the first name.
///
/// # Errors
///
/// `NoMemory` where there is none for what is looked up, and where no `usize` counts the declarations.
pub fn ill_typed<'a>(
    alloc: Global,
    sig: &'a Signature,
    spec: &'a Spec,
) -> Result<Option<FoundFault<'a>>, NoMemory>
    requires words { IsSpecOfWords (spec_of spec.now) }
    requires entered { All (Contains sig.now.texts) (identifiers_in (spec_of spec.now)) }
    ensures { IfOk result (λ found. (v : FullVocabulary) → IsOver sig.now (bare_sections (spec_of spec.now)) v → option_map fault_of found ≡ type_fault v (bare_sections (spec_of spec.now))) }
{
    if let Some((number, name)) = unknown_name(alloc, sig, spec)? {
        return Ok(Some(FoundFault::UnknownName(number, name)));
    }
    if let Some(number) = untyped(alloc, sig, spec)? {
        return Ok(Some(FoundFault::Untyped(number)));
    }
    if let Some((number, name)) = free_variable(alloc, sig, spec)? {
        return Ok(Some(FoundFault::FreeVariable(number, name)));
    }
    if let Some(number) = variable_left(alloc, spec)? {
        return Ok(Some(FoundFault::VariableLeft(number)));
    }
    if let Some(number) = comm_shape(alloc, sig, spec)? {
        return Ok(Some(FoundFault::CommShape(number)));
    }
    match renamed_twice(alloc, spec)? {
        Some((number, name)) => Ok(Some(FoundFault::RenameTwice(number, name))),
        None => Ok(None),
    }
}
