//! The first free variable.

ghost use Rattle.std.specs.Prelude.{◌≡◌, List, map, is_some, IfOk, option_map};
ghost use Rattle.std.specs.List.{All, AllByRecursion, Contains};
ghost use Rattle.mcrl2_syntax.specs.declared.process_tree.Assignment.{Assignment};
ghost use Rattle.mcrl2_syntax.specs.Declarations.{plain_decl, some_data, spec_of};
ghost use Rattle.mcrl2_syntax.specs.DataTrees.{plain_data};
ghost use Rattle.mcrl2_syntax.specs.ProcessParts.{var_group_of};
ghost use Rattle.mcrl2_syntax.specs.ProcessTrees.{plain_process};
ghost use Rattle.mcrl2_syntax.specs.TreeWords.{IsSpecOfWords};
ghost use Rattle.sort_table.specs.Expressions.{Name};
ghost use Rattle.sort_table.specs.Identifiers.{in_data, in_condition, identifiers_in};
ghost use Rattle.sort_table.specs.BareDeclarations.{bare_sections};
ghost use Rattle.sort_table.specs.BareProcesses.{Variables, bare_process, bare_variables};
ghost use Rattle.sort_table.specs.DeclarationTrees.{declaration_of};
ghost use Rattle.sort_table.specs.SignatureVocabularies.{text_under, vocabulary_of};
ghost use Rattle.data_typing.specs.Typings.{first_of};
ghost use Rattle.sort_checker.specs.FullVocabularies.{FullVocabulary, IsOver};
ghost use Rattle.sort_checker.specs.Faults.{free_variable};
ghost use Rattle.sort_checker.specs.FreeTrees.{is_free, is_left_out, first_free, equation_part, AreVariableNames, HasNamesOf, assigned, HasAssigned, left_out_among, free_in};
ghost use Rattle.sort_checker.specs.NameNumbers.{has_name};
ghost use Rattle.sort_checker.specs.Operators.{stands_in};
ghost use Rattle.sort_checker.specs.PartTypings.{left_out};
ghost use Rattle.sort_checker.specs.Parts.{a_call, parts_in, scoped};
ghost use Rattle.sort_checker.specs.ParameterTables.{IsParameterOver, parameter_of, parameters_of};
ghost use Rattle.sort_checker.specs.ReadyTrees.{AreReadyDeclarations, AreReadyGroups, AreReadyLeaves, IsReadyDeclaration, leaves_along, leaves_in};
ghost use Rattle.sort_checker.specs.Refusals.{first_from, free_fault};
ghost use Rattle.sort_checker.specs.RenamedTrees.{named_fault};
ghost use Rattle.sort_checker.specs.ScopedTrees.{scoped_under};
ghost use Rattle.sort_checker.specs.Scopes.{scope_of};
ghost use Rattle.sort_checker.specs.StopTrees.{part_of, stop_of, stops_of};
ghost use Rattle.sort_checker.specs.Stops.{part_at, scoped_along};
ghost use Rattle.sort_checker.specs.TextContexts.{IsContext, IsContextOver};
ghost use Rattle.sort_checker.specs.VariableScopes.{HasInScope};

use crate::data_names::data_identifiers;
use crate::left_sides::{number_behind, section_names};
use crate::name_numbers::NameNumbers;
use crate::parameter_tables::{Parameter, parameter_name};
use crate::stops::{PartTree, StopTree, stops};
use crate::text_contexts::{TextContext, text_context};
use crate::variable_scopes::{VariableScope, empty_scope, enter_groups, pass_stop};
use data_theory::{NoMemory, Signature};
use mcrl2_syntax::{Assignment, DataTree, Decl, EquationTree, ProcTree, Spec, VarGroup, Word};
use std::alloc::Global;

/// The identifiers of an expression, for look-ups.
fn names_of_data<'a>(alloc: Global, tree: &'a DataTree) -> Result<NameNumbers<'a>, NoMemory>
    ensures { IfOk result (λ names. (n : Name) → has_name names n ≡ stands_in n (in_data (plain_data tree.now))) }
{
    let mut names = NameNumbers::new(alloc);
    let list = data_identifiers(alloc, tree)?;
    for name in list.as_slice() {
        names.put(name, 0)?;
    }
    Ok(names)
}

/// Whether a name is among the variables and not among those of the left side.
fn is_free<'a>(variables: &NameNumbers<'a>, left: &NameNumbers<'a>, name: &'a [u8]) -> bool
    ensures { result ≡ is_free variables.now left.now name.now }
{
    variables.get(name).is_some() && left.get(name).is_none()
}

/// The first name of an expression that is among the variables and not among those of the left side.
fn free_in_data<'a>(
    alloc: Global,
    variables: &NameNumbers<'a>,
    left: &NameNumbers<'a>,
    tree: &'a DataTree,
) -> Result<Option<&'a [u8]>, NoMemory>
    ensures { IfOk result (λ found. option_map (λ n. n.now) found ≡ first_free variables.now left.now (in_data (plain_data tree.now))) }
{
    let list = data_identifiers(alloc, tree)?;
    for name in list.as_slice() {
        if is_free(variables, left, name) {
            return Ok(Some(name));
        }
    }
    Ok(None)
}

/// The first such name of a condition, where there is one.
fn free_in_condition<'a>(
    alloc: Global,
    variables: &NameNumbers<'a>,
    left: &NameNumbers<'a>,
    condition: &'a Option<Box<DataTree>>,
) -> Result<Option<&'a [u8]>, NoMemory>
    ensures { IfOk result (λ found. option_map (λ n. n.now) found ≡ first_free variables.now left.now (in_condition (some_data condition.now))) }
{
    match condition {
        Some(condition) => free_in_data(alloc, variables, left, condition),
        None => Ok(None),
    }
}

/// The first variable of an equation's condition and right side that isn't one of its left side.
fn free_in_equation<'a>(
    alloc: Global,
    variables: &NameNumbers<'a>,
    equation: &'a EquationTree,
) -> Result<Option<&'a [u8]>, NoMemory>
    ensures { IfOk result (λ found. (v : FullVocabulary) (xs : Variables) → HasNamesOf xs variables.now → AreVariableNames xs → option_map (λ n. n.now) found ≡ free_variable v (scoped xs (equation_part equation.now))) }
{
    let left = names_of_data(alloc, &equation.left)?;
    match free_in_condition(alloc, variables, &left, &equation.condition)? {
        Some(name) => Ok(Some(name)),
        None => free_in_data(alloc, variables, &left, &equation.right),
    }
}

/// The names to which something is assigned.
fn assigned_names<'a>(
    alloc: Global,
    assignments: &'a [Assignment],
) -> Result<NameNumbers<'a>, NoMemory>
    ensures { IfOk result (HasAssigned assignments.now) }
{
    let mut names = NameNumbers::new(alloc);
    for assignment in assignments {
        names.put(assignment.name.bytes.as_slice(), 0)?;
    }
    Ok(names)
}

/// Whether the innermost variable of a parameter's name has the parameter's sort.
fn is_taken_from(sig: &Signature, scope: &VariableScope, parameter: Parameter) -> bool
    requires { IsParameterOver sig.now parameter }
    ensures { (xs : Variables) → HasInScope sig.now xs scope.now → result ≡ is_some (left_out (scope_of (vocabulary_of sig.now) xs) (parameter_of sig.now parameter)) }
{
    let _ = sig.next_sort();
    match scope.scope.find(parameter.name) {
        Some(bound) => bound.sort.is(parameter.sort),
        None => false,
    }
}

/// Whether nothing is assigned to a parameter, and it isn't in scope.
fn is_left_out<'a>(
    sig: &'a Signature,
    scope: &VariableScope,
    names: &NameNumbers<'a>,
    parameter: Parameter,
) -> bool
    requires { IsParameterOver sig.now parameter }
    ensures { (xs : Variables) (ds : List Assignment) → HasInScope sig.now xs scope.now → HasAssigned ds names.now → result ≡ is_left_out (scope_of (vocabulary_of sig.now) xs) (assigned ds) (parameter_of sig.now parameter) }
{
    names.get(parameter_name(sig, parameter)).is_none() && !is_taken_from(sig, scope, parameter)
}

/// The first of these parameters to which nothing is assigned and which isn't in scope.
fn left_out_among<'a>(
    sig: &'a Signature,
    scope: &VariableScope,
    names: &NameNumbers<'a>,
    parameters: &[Parameter],
) -> Option<&'a [u8]>
    requires { AllByRecursion (IsParameterOver sig.now) parameters.now }
    ensures { (xs : Variables) (ds : List Assignment) → HasInScope sig.now xs scope.now → HasAssigned ds names.now → option_map (λ n. n.now) result ≡ left_out_among (scope_of (vocabulary_of sig.now) xs) (assigned ds) (parameters_of sig.now parameters.now) }
{
    for parameter in parameters {
        if is_left_out(sig, scope, names, *parameter) {
            return Some(parameter_name(sig, *parameter));
        }
    }
    None
}

/// The first parameter that a call by assignment leaves out and that isn't in scope.
fn free_in_call<'a>(
    alloc: Global,
    context: &TextContext<'a>,
    scope: &VariableScope,
    name: &'a Word,
    assignments: &'a [Assignment],
) -> Result<Option<&'a [u8]>, NoMemory>
    requires { IsContext context.now }
    ensures { IfOk result (λ found. (v : FullVocabulary) (xs : Variables) → IsContextOver v context.now → HasInScope context.now.sig.now xs scope.now → option_map (λ n. n.now) found ≡ free_variable v (scoped xs (a_call name.now.bytes.items (assigned assignments.now)))) }
{
    let Some(parameters) = context.processes.get(name.bytes.as_slice()) else {
        return Ok(None);
    };
    let names = assigned_names(alloc, assignments)?;
    Ok(left_out_among(context.sig, scope, &names, parameters))
}

/// The first free variable of a part of a process term.
fn free_in_part<'a>(
    alloc: Global,
    context: &TextContext<'a>,
    scope: &VariableScope,
    part: PartTree<'a>,
) -> Result<Option<&'a [u8]>, NoMemory>
    requires { IsContext context.now }
    ensures { IfOk result (λ found. (v : FullVocabulary) (xs : Variables) → IsContextOver v context.now → HasInScope context.now.sig.now xs scope.now → option_map (λ n. n.now) found ≡ free_variable v (scoped xs (part_of part.entry))) }
{
    match part {
        PartTree::Call(name, assignments) => {
            free_in_call(alloc, context, scope, name, assignments)
        }
        PartTree::Action(_) => Ok(None),
        PartTree::Multi(_) => Ok(None),
        PartTree::Condition(_) => Ok(None),
        PartTree::Allow(_) => Ok(None),
        PartTree::Block(_) => Ok(None),
        PartTree::Hide(_) => Ok(None),
        PartTree::Rename(_) => Ok(None),
        PartTree::Comm(_) => Ok(None),
    }
}

/// The first free variable of the part at a stop.
fn free_at<'a>(
    alloc: Global,
    context: &TextContext<'a>,
    scope: &VariableScope,
    stop: StopTree<'a>,
) -> Result<Option<&'a [u8]>, NoMemory>
    requires { IsContext context.now }
    ensures { IfOk result (λ found. (v : FullVocabulary) (xs : Variables) → IsContextOver v context.now → HasInScope context.now.sig.now xs scope.now → option_map (λ n. n.now) found ≡ first_of (free_variable v) (part_at xs (stop_of stop.entry))) }
{
    match stop {
        StopTree::At(part) => free_in_part(alloc, context, scope, part),
        StopTree::Enter(_) => Ok(None),
        StopTree::Leave(_) => Ok(None),
    }
}

/// The first free variable along the stops of a process term, where these variables are in scope.
fn free_along<'a>(
    alloc: Global,
    context: &TextContext<'a>,
    scope: &mut VariableScope,
    stops: &[StopTree<'a>],
) -> Result<Option<&'a [u8]>, NoMemory>
    requires context { IsContext context.now }
    requires ready { AreReadyLeaves context.now.sig.now.texts (leaves_along stops.now) }
    ensures { IfOk result (λ found. (v : FullVocabulary) (xs : Variables) → IsContextOver v context.now → HasInScope context.now.sig.now xs scope.old → option_map (λ n. n.now) found ≡ first_of (free_variable v) (scoped_along xs (stops_of stops.now))) }
{
    for stop in stops {
        if let Some(name) = free_at(alloc, context, scope, *stop)? {
            return Ok(Some(name));
        }
        pass_stop(context.sig, &context.sorts, scope, *stop)?;
    }
    Ok(None)
}

/// The first free variable of a process term, where variables of these groups are in scope.
fn free_in_process<'a>(
    alloc: Global,
    context: &TextContext<'a>,
    groups: &[VarGroup],
    process: &'a ProcTree,
) -> Result<Option<&'a [u8]>, NoMemory>
    requires context { IsContext context.now }
    requires groups { AreReadyGroups context.now.sig.now.texts (map var_group_of groups.now) }
    requires process { AreReadyLeaves context.now.sig.now.texts (leaves_in (plain_process process.now)) }
    ensures { IfOk result (λ found. (v : FullVocabulary) → IsContextOver v context.now → option_map (λ n. n.now) found ≡ first_of (free_variable v) (parts_in (bare_variables (map var_group_of groups.now)) (bare_process (plain_process process.now)))) }
{
    let mut scope = empty_scope(alloc);
    enter_groups(context.sig, &context.sorts, &mut scope, groups)?;
    let list = stops(alloc, process)?;
    free_along(alloc, context, &mut scope, list.as_slice())
}

/// The first free variable of a declaration. Only equations use the variables of the section in front.
fn free_in_declaration<'a>(
    alloc: Global,
    context: &TextContext<'a>,
    variables: &NameNumbers<'a>,
    declaration: &'a Decl,
) -> Result<Option<&'a [u8]>, NoMemory>
    requires context { IsContext context.now }
    requires ready { IsReadyDeclaration context.now.sig.now.texts (plain_decl declaration.now) }
    ensures { IfOk result (λ found. (v : FullVocabulary) (xs : Variables) → IsContextOver v context.now → HasNamesOf xs variables.now → AreVariableNames xs → option_map (λ n. n.now) found ≡ free_in v (record { variables = xs; declaration = declaration_of declaration.now })) }
{
    match declaration {
        Decl::Equation(_, equation) => free_in_equation(alloc, variables, equation),
        Decl::Proc(_, _, groups, process) => {
            free_in_process(alloc, context, groups.as_slice(), process)
        }
        Decl::Init(_, process) => free_in_process(alloc, context, &[], process),
        _ => Ok(None),
    }
}

/// The first of these declarations with a free variable, numbered from this number on, and the variable.
fn free_in_section<'a>(
    alloc: Global,
    context: &TextContext<'a>,
    first: usize,
    before: &'a [Decl],
    declarations: &'a [Decl],
) -> Result<Option<(usize, &'a [u8])>, NoMemory>
    requires context { IsContext context.now }
    requires before { AreReadyDeclarations context.now.sig.now.texts before.now }
    requires ready { AreReadyDeclarations context.now.sig.now.texts declarations.now }
    ensures { IfOk result (λ found. (v : FullVocabulary) → IsContextOver v context.now → option_map named_fault found ≡ first_from (free_in v) first (scoped_under before.now declarations.now)) }
{
    let variables = section_names(alloc, before)?;
    let mut number = first;
    for declaration in declarations {
        if let Some(name) = free_in_declaration(alloc, context, &variables, declaration)? {
            return Ok(Some((number, name)));
        }
        number = number_behind(number, 1)?;
    }
    Ok(None)
}

/// The first declaration with a free variable, as its number from 1, with the first such variable in it: a name of an equation's
/// condition or right side that is a variable and not one of the left side, or a parameter that a call by assignment leaves out and
/// that isn't in scope with its sort.
///
/// # Errors
///
/// `NoMemory` where there is none for the names, and where no `usize` counts the declarations.
pub fn free_variable<'a>(
    alloc: Global,
    sig: &'a Signature,
    spec: &'a Spec,
) -> Result<Option<(usize, &'a [u8])>, NoMemory>
    requires words { IsSpecOfWords (spec_of spec.now) }
    requires entered { All (Contains sig.now.texts) (identifiers_in (spec_of spec.now)) }
    ensures { IfOk result (λ found. (v : FullVocabulary) → IsOver sig.now (bare_sections (spec_of spec.now)) v → option_map named_fault found ≡ free_fault v (bare_sections (spec_of spec.now))) }
{
    let context = text_context(alloc, sig, spec)?;
    let mut number = 1;
    let mut before: &'a [Decl] = &[];
    for section in &spec.sections {
        let declarations = section.declarations.as_slice();
        if let Some(found) = free_in_section(alloc, &context, number, before, declarations)? {
            return Ok(Some(found));
        }
        number = number_behind(number, declarations.len())?;
        before = declarations;
    }
    Ok(None)
}
