//! Whether the parts of declarations type.

ghost use Rattle.std.specs.Prelude.{◌≡◌, ◌<◌, ◌==◌, ℕ, List, Some, length, map, is_some, is_none, option_map, IfOk, IfSome};
ghost use Rattle.std.specs.List.{All, AllByRecursion, flat_map, list_all};
ghost use Rattle.data_theory.specs.declared.ids.SortId.{SortId};
ghost use Rattle.mcrl2_syntax.specs.DataTrees.{plain_data};
ghost use Rattle.mcrl2_syntax.specs.Declarations.{some_data};
ghost use Rattle.mcrl2_syntax.specs.ProcessParts.{plain_action, assignment_of};
ghost use Rattle.mcrl2_syntax.specs.SortTrees.{plain_sort};
ghost use Rattle.mcrl2_syntax.specs.TreeWords.{IsDataOfWords, IsConditionOfWords, IsSortOfWords};
ghost use Rattle.data_theory.specs.IdTerms.{sort_under};
ghost use Rattle.data_theory.specs.Terms.{Sort, boolean, named};
ghost use Rattle.data_theory.specs.Declarations.{sort_at};
ghost use Rattle.data_theory.specs.Signature.{Sig};
ghost use Rattle.sort_table.specs.BareData.{bare_data};
ghost use Rattle.sort_table.specs.BareDeclarations.{bare_condition};
ghost use Rattle.sort_table.specs.BareSorts.{bare_sort};
ghost use Rattle.sort_table.specs.Expressions.{Name, Expression};
ghost use Rattle.sort_table.specs.SignatureVocabularies.{vocabulary_of};
ghost use Rattle.sort_table.specs.Vocabularies.{sort_in};
ghost use Rattle.data_typing.specs.Contexts.{AreTablesOf, IsFlatOver, IsScopeOver, IsRead, IsReadingOf};
ghost use Rattle.data_typing.specs.FlatSorts.{flat_sort};
ghost use Rattle.data_typing.specs.Typings.{Typing, all_at};
ghost use Rattle.sort_checker.specs.ActionTables.{GroupsActions};
ghost use Rattle.sort_checker.specs.Faults.{is_no_struct, is_plain_sort};
ghost use Rattle.sort_checker.specs.FreeTrees.{assigned};
ghost use Rattle.sort_checker.specs.NameNumbers.{has_name};
ghost use Rattle.sort_checker.specs.Operators.{stands_in, first_again, renaming_fits};
ghost use Rattle.sort_checker.specs.PartTypings.{assigned_names, right_side};
ghost use Rattle.sort_checker.specs.ParameterTables.{IsParameterOver, parameter_of, parameters_of, parameters_under};
ghost use Rattle.sort_checker.specs.ReadyTrees.{AreReadyLeaves, leaves_of_action, leaves_of_values};
ghost use Rattle.sort_checker.specs.TextContexts.{IsContext};
ghost use Rattle.sort_checker.specs.TypedTrees.{typing_of, typings_of, AreReadings, how_of, is_action, is_call, is_step, value_under, HasValues, value_checks, values_check, are_values, is_equation, renaming_at};
ghost use Rattle.sort_checker.specs.declared.text_contexts.TextContext.{TextContext};
ghost use Rattle.sort_checker.specs.declared.variable_scopes.VariableScope.{VariableScope};

use crate::action_tables::ActionTable;
use crate::comm_shapes::has_action;
use crate::name_numbers::NameNumbers;
use crate::parameter_tables::{Parameter, parameter_name};
use crate::text_contexts::TextContext;
use crate::variable_scopes::VariableScope;
use crate::variable_sorts::sort_of;
use data_theory::{NoMemory, Signature, SortId, SortKind};
use data_typing::expressions::read_expression;
use data_typing::flat_sorts::{Base, FlatSort};
use data_typing::nodes::Reading;
use data_typing::sort_tables::SortTables;
use mcrl2_syntax::{ActionTree, Assignment, DataTree, EquationTree, Renaming, SortTree};
use std::alloc::Global;
use std::collections::BTreeMap;

/// How an argument fits a sort: it infers just that one, or checks at it.
#[derive(Clone, Copy)]
pub(crate) enum Way {
    Exactly,
    Checked,
}

/// Reads an expression.
fn read_in(
    alloc: Global,
    context: &TextContext,
    scope: &VariableScope,
    tree: &DataTree,
) -> Result<Reading, NoMemory>
    requires context { IsContext context.now }
    requires scope { IsScopeOver context.now.sig.now scope.now.scope }
    requires words { IsDataOfWords (plain_data tree.now) }
    ensures read { IfOk result (λ r. IsRead r) }
    ensures typing { IfOk result (λ r. IsReadingOf context.now.sig.now r (typing_of context.now scope.now (bare_data (plain_data tree.now)))) }
{
    read_expression(alloc, context.sig, &context.sorts, &scope.scope, tree)
}

/// Whether an expression checks as a truth value.
pub(crate) fn is_truth(
    alloc: Global,
    context: &TextContext,
    scope: &VariableScope,
    tree: &DataTree,
) -> Result<bool, NoMemory>
    requires context { IsContext context.now }
    requires scope { IsScopeOver context.now.sig.now scope.now.scope }
    requires words { IsDataOfWords (plain_data tree.now) }
    ensures { IfOk result (λ b. b ≡ is_some ((typing_of context.now scope.now (bare_data (plain_data tree.now))).checks boolean)) }
{
    let reading = read_in(alloc, context, scope, tree)?;
    reading.checks(FlatSort {
        depth: 0,
        base: Base::Bool,
    })
}

/// Reads expressions.
fn read_all(
    alloc: Global,
    context: &TextContext,
    scope: &VariableScope,
    trees: &[DataTree],
) -> Result<Vec<Reading>, NoMemory>
    requires context { IsContext context.now }
    requires scope { IsScopeOver context.now.sig.now scope.now.scope }
    requires words { AllByRecursion IsDataOfWords (map plain_data trees.now) }
    ensures read { IfOk result (λ list. AllByRecursion IsRead list.items) }
    ensures typings { IfOk result (λ list. AreReadings context.now.sig.now list.items (typings_of context.now scope.now trees.now)) }
{
    let mut list = Vec::new(alloc);
    for tree in trees {
        list.push(read_in(alloc, context, scope, tree)?)?;
    }
    Ok(list)
}

/// Whether an expression that was read fits a sort.
pub(crate) fn fits(reading: &Reading, sort: FlatSort, way: Way) -> Result<bool, NoMemory>
    requires { IsRead reading.now }
    ensures { IfOk result (λ b. (g : Sig) (t : Typing) → IsReadingOf g reading.now t → b ≡ is_some (how_of way (flat_sort sort) t)) }
{
    match way {
        Way::Exactly => match reading.sort() {
            Some(inferred) => Ok(inferred.is(sort)),
            None => Ok(false),
        },
        Way::Checked => reading.checks(sort),
    }
}

/// Whether expressions that were read fit these sorts, in their order.
pub(crate) fn all_fit(readings: &[Reading], sorts: &[FlatSort], way: Way) -> Result<bool, NoMemory>
    requires { AllByRecursion IsRead readings.now }
    ensures { IfOk result (λ b. (g : Sig) (ts : List Typing) → AreReadings g readings.now ts → b ≡ is_some (all_at (how_of way) (map flat_sort sorts.now) ts)) }
{
    if readings.len() != sorts.len() {
        return Ok(false);
    }
    for place in 0..readings.len() {
        if !fits(&readings[place], sorts[place], way)? {
            return Ok(false);
        }
    }
    Ok(true)
}

/// The sorts with these numbers.
fn flats_of(
    alloc: Global,
    sorts: &SortTables,
    numbers: &[SortId],
) -> Result<Vec<FlatSort>, NoMemory>
    ensures { IfOk result (λ list. (g : Sig) → AreTablesOf g sorts.now → All (λ (s : SortId). s.0 < length g.sorts) numbers.now → map flat_sort list.items ≡ map (sort_under g) numbers.now) }
{
    let mut list = Vec::new(alloc);
    for number in numbers {
        list.push(sorts.flat(*number))?;
    }
    Ok(list)
}

/// Whether some action of a name has sorts that the arguments fit.
fn is_action<'a>(
    alloc: Global,
    context: &TextContext<'a>,
    name: &'a [u8],
    readings: &[Reading],
) -> Result<bool, NoMemory>
    requires context { IsContext context.now }
    requires read { AllByRecursion IsRead readings.now }
    ensures { IfOk result (λ b. (ts : List Typing) → AreReadings context.now.sig.now readings.now ts → b ≡ is_action context.now name.now ts) }
{
    let Some(group) = context.actions.groups.get(&name) else {
        return Ok(false);
    };
    let _ = context.sig.next_sort();
    let actions = group.as_slice();
    for action in actions {
        let sorts = flats_of(alloc, &context.sorts, action.sorts.as_slice())?;
        if all_fit(readings, sorts.as_slice(), Way::Exactly)? {
            return Ok(true);
        }
        if all_fit(readings, sorts.as_slice(), Way::Checked)? {
            return Ok(true);
        }
    }
    Ok(false)
}

/// The sorts of parameters.
fn parameter_sorts(alloc: Global, parameters: &[Parameter]) -> Result<Vec<FlatSort>, NoMemory>
    ensures { IfOk result (λ list. (g : Sig) → map flat_sort list.items ≡ map (λ (p : Name × Sort). p.1) (parameters_of g parameters.now)) }
{
    let mut list = Vec::new(alloc);
    for parameter in parameters {
        list.push(parameter.sort)?;
    }
    Ok(list)
}

/// Whether arguments in order check at the parameters of a process.
fn is_call<'a>(
    alloc: Global,
    context: &TextContext<'a>,
    name: &'a [u8],
    readings: &[Reading],
) -> Result<bool, NoMemory>
    requires read { AllByRecursion IsRead readings.now }
    ensures { IfOk result (λ b. (ts : List Typing) → AreReadings context.now.sig.now readings.now ts → b ≡ is_call context.now name.now ts) }
{
    let Some(parameters) = context.processes.get(name) else {
        return Ok(false);
    };
    let sorts = parameter_sorts(alloc, parameters)?;
    all_fit(readings, sorts.as_slice(), Way::Checked)
}

/// Whether this is an action, or `tau`, or the call of a process.
pub(crate) fn is_step<'a>(
    alloc: Global,
    context: &TextContext<'a>,
    scope: &VariableScope,
    action: &'a ActionTree,
) -> Result<bool, NoMemory>
    requires context { IsContext context.now }
    requires scope { IsScopeOver context.now.sig.now scope.now.scope }
    requires ready { AreReadyLeaves context.now.sig.now.texts (leaves_of_action (plain_action action.now)) }
    ensures { IfOk result (λ b. b ≡ is_step context.now scope.now (plain_action action.now)) }
{
    let ActionTree::Named(_, name, arguments) = action else {
        return Ok(true);
    };
    let name = name.bytes.as_slice();
    let readings = read_all(alloc, context, scope, arguments.as_slice())?;
    if is_action(alloc, context, name, readings.as_slice())? {
        return Ok(true);
    }
    is_call(alloc, context, name, readings.as_slice())
}

/// Whether each of these is an action, or `tau`, or the call of a process.
pub(crate) fn are_steps<'a>(
    alloc: Global,
    context: &TextContext<'a>,
    scope: &VariableScope,
    actions: &'a [ActionTree],
) -> Result<bool, NoMemory>
    requires context { IsContext context.now }
    requires scope { IsScopeOver context.now.sig.now scope.now.scope }
    requires ready { AreReadyLeaves context.now.sig.now.texts (flat_map leaves_of_action (map plain_action actions.now)) }
    ensures { IfOk result (λ b. b ≡ list_all (is_step context.now scope.now) (map plain_action actions.now)) }
{
    for action in actions {
        if !is_step(alloc, context, scope, action)? {
            return Ok(false);
        }
    }
    Ok(true)
}

/// What is assigned to each name, unless something is assigned to one twice.
fn values_of<'a>(
    alloc: Global,
    context: &TextContext<'a>,
    scope: &VariableScope,
    assignments: &'a [Assignment],
) -> Result<Option<BTreeMap<&'a [u8], Reading>>, NoMemory>
    requires context { IsContext context.now }
    requires scope { IsScopeOver context.now.sig.now scope.now.scope }
    requires ready { AreReadyLeaves context.now.sig.now.texts (leaves_of_values (map assignment_of assignments.now)) }
    ensures once { IfOk result (λ values. is_some values ≡ is_none (first_again (assigned_names (assigned assignments.now)))) }
    ensures values { IfOk result (λ values. IfSome values (HasValues context.now scope.now (assigned assignments.now))) }
{
    let mut values: BTreeMap<&'a [u8], Reading> = BTreeMap::new(alloc);
    for assignment in assignments {
        let name = assignment.name.bytes.as_slice();
        if values.get(&name).is_some() {
            return Ok(None);
        }
        let value = read_in(alloc, context, scope, &assignment.value)?;
        values.insert(name, value)?;
    }
    Ok(Some(values))
}

/// The names of parameters.
fn parameter_names<'a>(
    alloc: Global,
    sig: &'a Signature,
    parameters: &[Parameter],
) -> Result<NameNumbers<'a>, NoMemory>
    requires { AllByRecursion (IsParameterOver sig.now) parameters.now }
    ensures { IfOk result (λ names. (n : Name) → has_name names n ≡ stands_in n (map (λ (p : Name × Sort). p.0) (parameters_of sig.now parameters.now))) }
{
    let mut names = NameNumbers::new(alloc);
    for parameter in parameters {
        names.put(parameter_name(sig, *parameter), 0)?;
    }
    Ok(names)
}

/// Whether something is assigned to these names alone.
fn assigns_only<'a>(names: &NameNumbers<'a>, assignments: &'a [Assignment]) -> bool
    ensures { result ≡ list_all (has_name names.now) (assigned_names (assigned assignments.now)) }
{
    for assignment in assignments {
        if names.get(assignment.name.bytes.as_slice()).is_none() {
            return false;
        }
    }
    true
}

/// Whether what is assigned to a parameter checks at its sort.
fn value_checks<'a>(
    sig: &'a Signature,
    values: &BTreeMap<&'a [u8], Reading>,
    parameter: Parameter,
) -> Result<bool, NoMemory>
    requires over { IsParameterOver sig.now parameter }
    requires read { (x : Name) → IfSome (value_under values.now x) IsRead }
    ensures { IfOk result (λ b. (c : TextContext) (s : VariableScope) (ds : List (Name × Expression)) → c.sig.now ≡ sig.now → HasValues c s ds values.now → b ≡ value_checks c s ds (parameter_of sig.now parameter)) }
{
    let name = parameter_name(sig, parameter);
    match values.get(&name) {
        Some(value) => value.checks(parameter.sort),
        None => Ok(true),
    }
}

/// Whether what is assigned to each of these parameters checks at its sort.
fn values_check<'a>(
    sig: &'a Signature,
    values: &BTreeMap<&'a [u8], Reading>,
    parameters: &[Parameter],
) -> Result<bool, NoMemory>
    requires over { AllByRecursion (IsParameterOver sig.now) parameters.now }
    requires read { (x : Name) → IfSome (value_under values.now x) IsRead }
    ensures { IfOk result (λ b. (c : TextContext) (s : VariableScope) (ds : List (Name × Expression)) → c.sig.now ≡ sig.now → HasValues c s ds values.now → b ≡ values_check c s ds (parameters_of sig.now parameters.now)) }
{
    for parameter in parameters {
        if !value_checks(sig, values, *parameter)? {
            return Ok(false);
        }
    }
    Ok(true)
}

/// Whether a call by assignment gives values to parameters of the process, to each at most once and at its sort.
pub(crate) fn are_values<'a>(
    alloc: Global,
    context: &TextContext<'a>,
    scope: &VariableScope,
    name: &'a [u8],
    assignments: &'a [Assignment],
) -> Result<bool, NoMemory>
    requires context { IsContext context.now }
    requires scope { IsScopeOver context.now.sig.now scope.now.scope }
    requires ready { AreReadyLeaves context.now.sig.now.texts (leaves_of_values (map assignment_of assignments.now)) }
    ensures { IfOk result (λ b. b ≡ are_values context.now scope.now (assigned assignments.now) (option_map (parameters_of context.now.sig.now) (parameters_under context.now.processes name.now))) }
{
    let Some(parameters) = context.processes.get(name) else {
        return Ok(false);
    };
    let names = parameter_names(alloc, context.sig, parameters)?;
    if !assigns_only(&names, assignments) {
        return Ok(false);
    }
    match values_of(alloc, context, scope, assignments)? {
        Some(values) => values_check(context.sig, &values, parameters),
        None => Ok(false),
    }
}

/// Whether the new name is declared with all sorts of the old one.
fn renaming_fits<'a>(sig: &'a Signature, table: &ActionTable<'a>, renaming: &'a Renaming) -> bool
    requires { GroupsActions sig.now sig.now.actions table.now.groups }
    ensures { result ≡ renaming_fits (vocabulary_of sig.now) (renaming_at renaming.now) }
{
    let Some(group) = table.groups.get(&renaming.old.bytes.as_slice()) else {
        return true;
    };
    let _ = sig.next_sort();
    let actions = group.as_slice();
    let new = renaming.renamed.bytes.as_slice();
    for action in actions {
        if !has_action(sig, table, new, action.sorts.as_slice()) {
            return false;
        }
    }
    true
}

/// Whether each of these new names is declared with all sorts of the old one.
pub(crate) fn renamings_fit<'a>(
    sig: &'a Signature,
    table: &ActionTable<'a>,
    renamings: &'a [Renaming],
) -> bool
    requires { GroupsActions sig.now sig.now.actions table.now.groups }
    ensures { result ≡ list_all (renaming_fits (vocabulary_of sig.now)) (map renaming_at renamings.now) }
{
    for renaming in renamings {
        if !renaming_fits(sig, table, renaming) {
            return false;
        }
    }
    true
}

/// Whether the sides of an equation have one sort.
fn sides_fit(left: &Reading, right: &Reading) -> Result<bool, NoMemory>
    requires left { IsRead left.now }
    requires right { IsRead right.now }
    ensures { IfOk result (λ b. (g : Sig) (l r : Typing) → IsReadingOf g left.now l → IsReadingOf g right.now r → b ≡ is_some (right_side l r)) }
{
    if let Some(sort) = left.sort() {
        return right.checks(sort);
    }
    let Some(sort) = right.sort() else {
        return Ok(false);
    };
    if !left.checks(sort)? {
        return Ok(false);
    }
    right.checks(sort)
}

/// Whether the condition of an equation is a truth value, and its sides have one sort.
pub(crate) fn is_equation(
    alloc: Global,
    context: &TextContext,
    scope: &VariableScope,
    equation: &EquationTree,
) -> Result<bool, NoMemory>
    requires context { IsContext context.now }
    requires scope { IsScopeOver context.now.sig.now scope.now.scope }
    requires condition { IsConditionOfWords (some_data equation.now.condition) }
    requires left { IsDataOfWords (plain_data equation.now.left) }
    requires right { IsDataOfWords (plain_data equation.now.right) }
    ensures { IfOk result (λ b. b ≡ is_equation context.now scope.now (bare_condition (some_data equation.now.condition)) (bare_data (plain_data equation.now.left)) (bare_data (plain_data equation.now.right))) }
{
    if let Some(condition) = &equation.condition {
        if !is_truth(alloc, context, scope, condition)? {
            return Ok(false);
        }
    }
    let left = read_in(alloc, context, scope, &equation.left)?;
    let right = read_in(alloc, context, scope, &equation.right)?;
    sides_fit(&left, &right)
}

/// Whether a sort is declared without a definition.
fn is_plain_sort(sig: &Signature, sorts: &SortTables, sort: FlatSort) -> bool
    requires tables { AreTablesOf sig.now sorts.now }
    requires over { IsFlatOver sig.now sort }
    ensures { result ≡ is_plain_sort (vocabulary_of sig.now).tables (Some (flat_sort sort)) }
{
    if sort.depth > 0 {
        return false;
    }
    match sort.base {
        Base::Named(number) => is_no_struct(sig, sorts.named[number]),
        Base::Bool => false,
        Base::Pos => false,
        Base::Nat => false,
        Base::Int => false,
    }
}

/// Whether a declared sort has no `struct`.
fn is_no_struct(sig: &Signature, sort: SortId) -> bool
    requires { sort.0 < length sig.now.sorts }
    ensures { (d : ℕ) → sort_under sig.now sort ≡ named d → result ≡ is_no_struct (sort_at (vocabulary_of sig.now).tables d) }
{
    match sig.kind(sort) {
        SortKind::Struct(_) => false,
        _ => true,
    }
}

/// Whether the result of a `cons` is a sort that is declared without a definition.
pub(crate) fn is_result(
    sig: &Signature,
    sorts: &SortTables,
    tree: &SortTree,
) -> Result<bool, NoMemory>
    requires tables { AreTablesOf sig.now sorts.now }
    requires words { IsSortOfWords (plain_sort tree.now) }
    ensures { IfOk result (λ b. b ≡ is_plain_sort (vocabulary_of sig.now).tables (sort_in (vocabulary_of sig.now).sort_names (bare_sort (plain_sort tree.now)))) }
{
    match sort_of(sig, sorts, tree)? {
        Some(sort) => Ok(is_plain_sort(sig, sorts, sort)),
        None => Ok(false),
    }
}
