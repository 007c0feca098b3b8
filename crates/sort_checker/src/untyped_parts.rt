//! The first declaration with a part that doesn't type.

ghost use Rattle.std.specs.Prelude.{◌≡◌, [], map, IfOk, List, Bool};
ghost use Rattle.std.specs.List.{All, Contains, list_all};
ghost use Rattle.mcrl2_syntax.specs.Declarations.{plain_decl, spec_of};
ghost use Rattle.mcrl2_syntax.specs.ProcessParts.{var_group_of};
ghost use Rattle.mcrl2_syntax.specs.ProcessTrees.{plain_process};
ghost use Rattle.mcrl2_syntax.specs.TreeWords.{IsSpecOfWords};
ghost use Rattle.sort_table.specs.Identifiers.{identifiers_in};
ghost use Rattle.sort_table.specs.BareDeclarations.{bare_sections};
ghost use Rattle.sort_table.specs.BareProcesses.{Variables, bare_process, bare_variables};
ghost use Rattle.sort_table.specs.DeclarationTrees.{declaration_of};
ghost use Rattle.data_typing.specs.Contexts.{IsScopeOver};
ghost use Rattle.sort_checker.specs.FullVocabularies.{FullVocabulary, IsOver};
ghost use Rattle.sort_checker.specs.Faults.{is_typed};
ghost use Rattle.sort_checker.specs.Parts.{parts_in, scoped};
ghost use Rattle.sort_checker.specs.ReadyTrees.{AreReadyDeclarations, AreReadyGroups, AreReadyLeaves, IsReadyDeclaration, leaves_of_part, leaves_at, leaves_along, leaves_in};
ghost use Rattle.sort_checker.specs.Refusals.{number_from, untyped_fault};
ghost use Rattle.sort_checker.specs.ScopedTrees.{scoped_under};
ghost use Rattle.sort_checker.specs.StopTrees.{part_of, stop_of, stops_of};
ghost use Rattle.sort_checker.specs.Stops.{part_at, scoped_along};
ghost use Rattle.sort_checker.specs.TextContexts.{IsContext, IsContextOver};
ghost use Rattle.sort_checker.specs.TypedTrees.{are_parts_typed, is_untyped};
ghost use Rattle.sort_checker.specs.VariableScopes.{HasInScope};

use crate::left_sides::number_behind;
use crate::stops::{PartTree, StopTree, stops};
use crate::text_contexts::{TextContext, text_context};
use crate::typed_parts::{
    are_steps, are_values, is_equation, is_result, is_step, is_truth, renamings_fit,
};
use crate::variable_scopes::{VariableScope, empty_scope, enter_groups, pass_stop, section_scope};
use data_theory::{NoMemory, Signature};
use mcrl2_syntax::{Decl, ProcTree, Spec, VarGroup};
use std::alloc::Global;

/// Whether a part of a process term types.
fn is_part_typed<'a>(
    alloc: Global,
    context: &TextContext<'a>,
    scope: &VariableScope,
    part: PartTree<'a>,
) -> Result<bool, NoMemory>
    requires context { IsContext context.now }
    requires scope { IsScopeOver context.now.sig.now scope.now.scope }
    requires ready { AreReadyLeaves context.now.sig.now.texts (leaves_of_part part) }
    ensures { IfOk result (λ b. (v : FullVocabulary) (xs : Variables) → IsContextOver v context.now → HasInScope context.now.sig.now xs scope.now → b ≡ is_typed v (scoped xs (part_of part.entry))) }
{
    match part {
        PartTree::Action(action) => is_step(alloc, context, scope, action),
        PartTree::Multi(actions) => are_steps(alloc, context, scope, actions),
        PartTree::Call(name, assignments) => {
            are_values(alloc, context, scope, name.bytes.as_slice(), assignments)
        }
        PartTree::Condition(condition) => is_truth(alloc, context, scope, condition),
        PartTree::Rename(renamings) => {
            Ok(renamings_fit(context.sig, &context.actions, renamings))
        }
        PartTree::Allow(_) => Ok(true),
        PartTree::Block(_) => Ok(true),
        PartTree::Hide(_) => Ok(true),
        PartTree::Comm(_) => Ok(true),
    }
}

/// Whether the part at a stop types.
fn is_typed_at<'a>(
    alloc: Global,
    context: &TextContext<'a>,
    scope: &VariableScope,
    stop: StopTree<'a>,
) -> Result<bool, NoMemory>
    requires context { IsContext context.now }
    requires scope { IsScopeOver context.now.sig.now scope.now.scope }
    requires ready { AreReadyLeaves context.now.sig.now.texts (leaves_at stop) }
    ensures { IfOk result (λ b. (v : FullVocabulary) (xs : Variables) → IsContextOver v context.now → HasInScope context.now.sig.now xs scope.now → b ≡ list_all (is_typed v) (part_at xs (stop_of stop.entry))) }
{
    match stop {
        StopTree::At(part) => is_part_typed(alloc, context, scope, part),
        StopTree::Enter(_) => Ok(true),
        StopTree::Leave(_) => Ok(true),
    }
}

/// Whether all parts along the stops of a process term type, where these variables are in scope.
fn are_typed_along<'a>(
    alloc: Global,
    context: &TextContext<'a>,
    scope: &mut VariableScope,
    stops: &[StopTree<'a>],
) -> Result<bool, NoMemory>
    requires context { IsContext context.now }
    requires scope { (xs : Variables) × HasInScope context.now.sig.now xs scope.old }
    requires ready { AreReadyLeaves context.now.sig.now.texts (leaves_along stops.now) }
    ensures { IfOk result (λ b. (v : FullVocabulary) (xs : Variables) → IsContextOver v context.now → HasInScope context.now.sig.now xs scope.old → b ≡ list_all (is_typed v) (scoped_along xs (stops_of stops.now))) }
{
    for stop in stops {
        if !is_typed_at(alloc, context, scope, *stop)? {
            return Ok(false);
        }
        pass_stop(context.sig, &context.sorts, scope, *stop)?;
    }
    Ok(true)
}

/// Whether all parts of a process term type, where variables of these groups are in scope.
fn is_process_typed<'a>(
    alloc: Global,
    context: &TextContext<'a>,
    groups: &[VarGroup],
    process: &'a ProcTree,
) -> Result<bool, NoMemory>
    requires context { IsContext context.now }
    requires groups { AreReadyGroups context.now.sig.now.texts (map var_group_of groups.now) }
    requires process { AreReadyLeaves context.now.sig.now.texts (leaves_in (plain_process process.now)) }
    ensures { IfOk result (λ b. (v : FullVocabulary) → IsContextOver v context.now → b ≡ list_all (is_typed v) (parts_in (bare_variables (map var_group_of groups.now)) (bare_process (plain_process process.now)))) }
{
    let mut scope = empty_scope(alloc);
    enter_groups(context.sig, &context.sorts, &mut scope, groups)?;
    let list = stops(alloc, process)?;
    are_typed_along(alloc, context, &mut scope, list.as_slice())
}

/// Whether all parts of a declaration type. Only equations use the variables of the section in front.
fn is_declaration_typed<'a>(
    alloc: Global,
    context: &TextContext<'a>,
    scope: &VariableScope,
    declaration: &'a Decl,
) -> Result<bool, NoMemory>
    requires context { IsContext context.now }
    requires scope { IsScopeOver context.now.sig.now scope.now.scope }
    requires ready { IsReadyDeclaration context.now.sig.now.texts (plain_decl declaration.now) }
    ensures { IfOk result (λ b. (v : FullVocabulary) (xs : Variables) → IsContextOver v context.now → HasInScope context.now.sig.now xs scope.now → b ≡ are_parts_typed v (record { variables = xs; declaration = declaration_of declaration.now })) }
{
    match declaration {
        Decl::Cons(_, _, _, to) => is_result(context.sig, &context.sorts, to),
        Decl::Equation(_, equation) => is_equation(alloc, context, scope, equation),
        Decl::Proc(_, _, groups, process) => {
            is_process_typed(alloc, context, groups.as_slice(), process)
        }
        Decl::Init(_, process) => is_process_typed(alloc, context, &[], process),
        _ => Ok(true),
    }
}

/// The number of the first of these declarations with a part that doesn't type, where the first has this number.
fn untyped_in_section<'a>(
    alloc: Global,
    context: &TextContext<'a>,
    first: usize,
    before: &'a [Decl],
    declarations: &'a [Decl],
) -> Result<Option<usize>, NoMemory>
    requires context { IsContext context.now }
    requires before { AreReadyDeclarations context.now.sig.now.texts before.now }
    requires ready { AreReadyDeclarations context.now.sig.now.texts declarations.now }
    ensures { IfOk result (λ found. (v : FullVocabulary) → IsContextOver v context.now → found ≡ number_from (is_untyped v) first (scoped_under before.now declarations.now)) }
{
    let scope = section_scope(alloc, context.sig, &context.sorts, before)?;
    let mut number = first;
    for declaration in declarations {
        if !is_declaration_typed(alloc, context, &scope, declaration)? {
            return Ok(Some(number));
        }
        number = number_behind(number, 1)?;
    }
    Ok(None)
}

/// The first declaration with a part that doesn't type, as its number from 1: an expression, an action or a call without an
/// elaboration, a renaming to a name that isn't declared with all sorts of the old one, or a `cons` whose result isn't a sort declared
/// without a definition.
///
/// # Errors
///
/// `NoMemory` where there is none for what is read, and where no `usize` counts the declarations.
pub fn untyped<'a>(
    alloc: Global,
    sig: &'a Signature,
    spec: &'a Spec,
) -> Result<Option<usize>, NoMemory>
    requires words { IsSpecOfWords (spec_of spec.now) }
    requires entered { All (Contains sig.now.texts) (identifiers_in (spec_of spec.now)) }
    ensures { IfOk result (λ found. (v : FullVocabulary) → IsOver sig.now (bare_sections (spec_of spec.now)) v → found ≡ untyped_fault v (bare_sections (spec_of spec.now))) }
{
    let context = text_context(alloc, sig, spec)?;
    let mut number = 1;
    let mut before: &'a [Decl] = &[];
    for section in &spec.sections {
        let declarations = section.declarations.as_slice();
        if let Some(found) = untyped_in_section(alloc, &context, number, before, declarations)? {
            return Ok(Some(found));
        }
        number = number_behind(number, declarations.len())?;
        before = declarations;
    }
    Ok(None)
}
