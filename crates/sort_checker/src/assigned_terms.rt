//! The terms of a call by assignment.

ghost use Rattle.std.specs.Prelude.{◌≡◌, ◌<◌, ℕ, Some, length, map, option_map, IfOk, OnOk};
ghost use Rattle.std.specs.List.{AllByRecursion};
ghost use Rattle.mcrl2_syntax.specs.ProcessParts.{assignment_of};
ghost use Rattle.mcrl2_syntax.specs.TreeWords.{IsAssignmentOfWords};
ghost use Rattle.sort_table.specs.Expressions.{Name};
ghost use Rattle.sort_table.specs.NamedLists.{first_named};
ghost use Rattle.sort_table.specs.Vocabularies.{Vocabulary};
ghost use Rattle.data_typing.specs.declared.sort_tables.SortTables.{SortTables};
ghost use Rattle.data_typing.specs.Meanings as meanings;
ghost use Rattle.sort_checker.specs.Additions.{GoesOn};
ghost use Rattle.sort_checker.specs.AssignedTrees.{assigned_value, HasPlaces};
ghost use Rattle.sort_checker.specs.CodeContexts.{IsReady, IsParameterOver, SeesData, IsWished, AreWished, parameter_of};
ghost use Rattle.sort_checker.specs.PartTypings.{left_out, assigned_or, assigned_in};

use crate::name_numbers::NameNumbers;
use crate::process_tables::Parameter;
use crate::wished_terms::wished_term;
use data_theory::{NoMemory, Signature, TermId};
use data_typing::scope::Scope;
use data_typing::sort_tables::SortTables;
use data_typing::steps::Wanted;
use mcrl2_syntax::Assignment;
use std::alloc::Global;
use term_pool::{Head, Pool};

/// The place of the first assignment to each name.
fn assigned_places<'a>(
    alloc: Global,
    assignments: &'a [Assignment],
) -> Result<NameNumbers<'a>, NoMemory>
    ensures { IfOk result (HasPlaces (map assigned_value assignments.now)) }
{
    let mut places = NameNumbers::new(alloc);
    for place in 0..assignments.len() {
        let name = assignments[place].name.bytes.as_slice();
        if places.get(name).is_none() {
            places.put(name, place)?;
        }
    }
    Ok(places)
}

/// The innermost variable of a parameter's name, where it has the parameter's sort.
fn left_out_term(
    sig: &Signature,
    pool: &mut Pool,
    scope: &Scope,
    parameter: &Parameter,
) -> Result<Option<TermId>, NoMemory>
    requires ready { (t : SortTables) × IsReady sig.now pool.old t scope.now }
    requires parameter { IsParameterOver sig.now parameter.now }
    ensures kept { GoesOn sig.now pool.old sig.now pool.new }
    ensures ready { OnOk result ((t : SortTables) → IsReady sig.now pool.old t scope.now → IsReady sig.now pool.new t scope.now) }
    ensures means { IfOk result (λ found. (v : Vocabulary) (variables : meanings.Scope) → SeesData sig.now scope.now v variables → IsWished sig.now pool.new (left_out variables (parameter_of parameter.now)) found) }
{
    let _ = sig.next_sort();
    let Some(bound) = scope.find(parameter.number) else {
        return Ok(None);
    };
    if !bound.sort.is(parameter.sort) {
        return Ok(None);
    }
    let term = pool.intern(Head::Var(bound.var), &[])?;
    Ok(Some(term))
}

/// What a parameter stands for in a call: what is assigned to it, or else the variable of its name.
fn parameter_term<'a>(
    alloc: Global,
    sig: &mut Signature,
    pool: &mut Pool,
    tables: &mut SortTables,
    scope: &Scope,
    places: &NameNumbers<'a>,
    assignments: &'a [Assignment],
    parameter: &Parameter<'a>,
) -> Result<Option<TermId>, NoMemory>
    requires ready { IsReady sig.old pool.old tables.old scope.now }
    requires places { HasPlaces (map assigned_value assignments.now) places.now }
    requires words { AllByRecursion IsAssignmentOfWords (map assignment_of assignments.now) }
    requires parameter { IsParameterOver sig.old parameter.now }
    ensures kept { GoesOn sig.old pool.old sig.new pool.new }
    ensures ready { OnOk result (IsReady sig.new pool.new tables.new scope.now) }
    ensures means { IfOk result (λ found. (v : Vocabulary) (variables : meanings.Scope) → SeesData sig.old scope.now v variables → IsWished sig.new pool.new (assigned_or v variables (parameter_of parameter.now) (first_named parameter.now.name.now (map assigned_value assignments.now))) found) }
{
    match places.get(parameter.name) {
        Some(place) => {
            let value = &assignments[place].value;
            let wanted = Wanted::At(parameter.sort);
            wished_term(alloc, sig, pool, tables, scope, value, wanted)
        }
        None => left_out_term(sig, pool, scope, parameter),
    }
}

/// What the parameters of a process stand for in a call by assignment, where each stands for something of its sort.
///
/// # Errors
///
/// `NoMemory` where there is none for the terms.
pub(crate) fn assigned_terms<'a>(
    alloc: Global,
    sig: &mut Signature,
    pool: &mut Pool,
    tables: &mut SortTables,
    scope: &Scope,
    parameters: &[Parameter<'a>],
    assignments: &'a [Assignment],
) -> Result<Option<Vec<TermId>>, NoMemory>
    requires ready { IsReady sig.old pool.old tables.old scope.now }
    requires parameters { AllByRecursion (IsParameterOver sig.old) parameters.now }
    requires words { AllByRecursion IsAssignmentOfWords (map assignment_of assignments.now) }
    ensures kept { GoesOn sig.old pool.old sig.new pool.new }
    ensures ready { OnOk result (IsReady sig.new pool.new tables.new scope.now) }
    ensures means { IfOk result (λ found. (v : Vocabulary) (variables : meanings.Scope) → SeesData sig.old scope.now v variables → AreWished sig.new pool.new (assigned_in v variables (map parameter_of parameters.now) (map assigned_value assignments.now)) (option_map (λ ids. ids.items) found)) }
{
    let places = assigned_places(alloc, assignments)?;
    let mut terms = Vec::new(alloc);
    for parameter in parameters {
        let found = parameter_term(
            alloc,
            sig,
            pool,
            tables,
            scope,
            &places,
            assignments,
            parameter,
        )?;
        let Some(term) = found else {
            return Ok(None);
        };
        terms.push(term)?;
    }
    Ok(Some(terms))
}
