//! The terms of the arguments of a call.

ghost use Rattle.std.specs.Prelude.{map, IfOk, OnOk, option_map};
ghost use Rattle.std.specs.List.{AllByRecursion};
ghost use Rattle.mcrl2_syntax.specs.DataTrees.{plain_data};
ghost use Rattle.mcrl2_syntax.specs.TreeWords.{IsDataOfWords};
ghost use Rattle.sort_table.specs.Vocabularies.{Vocabulary};
ghost use Rattle.data_typing.specs.Contexts.{IsFlatOver};
ghost use Rattle.data_typing.specs.Meanings as meanings;
ghost use Rattle.data_typing.specs.Readings.{bare_trees};
ghost use Rattle.sort_checker.specs.PartTypings.{arguments_in};
ghost use Rattle.sort_checker.specs.Additions.{GoesOn};
ghost use Rattle.sort_checker.specs.CodeContexts.{IsReady, SeesData, AreWished, parameter_of};

use crate::process_tables::Parameter;
use crate::wished_terms::wished_term;
use data_theory::{NoMemory, Signature, TermId};
use data_typing::scope::Scope;
use data_typing::sort_tables::SortTables;
use data_typing::steps::Wanted;
use mcrl2_syntax::DataTree;
use std::alloc::Global;
use term_pool::Pool;

/// The terms of the arguments of a call, where there is one for each parameter and each checks at its parameter's sort.
///
/// # Errors
///
/// `NoMemory` where there is none for the terms.
pub(crate) fn argument_terms<'a>(
    alloc: Global,
    sig: &mut Signature,
    pool: &mut Pool,
    tables: &mut SortTables,
    scope: &Scope,
    parameters: &[Parameter<'a>],
    arguments: &[DataTree],
) -> Result<Option<Vec<TermId>>, NoMemory>
    requires ready { IsReady sig.old pool.old tables.old scope.now }
    requires words { AllByRecursion IsDataOfWords (map plain_data arguments.now) }
    requires sorts { AllByRecursion (λ p. IsFlatOver sig.old p.sort) parameters.now }
    ensures kept { GoesOn sig.old pool.old sig.new pool.new }
    ensures ready { OnOk result (IsReady sig.new pool.new tables.new scope.now) }
    ensures means { IfOk result (λ found. (v : Vocabulary) (variables : meanings.Scope) → SeesData sig.old scope.now v variables → AreWished sig.new pool.new (arguments_in v variables (map parameter_of parameters.now) (bare_trees arguments.now)) (option_map (λ ids. ids.items) found)) }
{
    if arguments.len() != parameters.len() {
        return Ok(None);
    }
    let mut terms = Vec::new(alloc);
    for i in 0..arguments.len() {
        let wanted = Wanted::At(parameters[i].sort);
        let found = wished_term(alloc, sig, pool, tables, scope, &arguments[i], wanted)?;
        let Some(term) = found else {
            return Ok(None);
        };
        terms.push(term)?;
    }
    Ok(Some(terms))
}
