//! The equations of a text in code.

ghost use Rattle.std.specs.Prelude.{◌≡◌, ◌++◌, List, [], map, IfOk, OnOk};
ghost use Rattle.std.specs.List.{AllByRecursion, flat_map};
ghost use Rattle.process_terms.specs.PlainProcesses.{plain_equation};
ghost use Rattle.sort_table.specs.SignatureVocabularies.{vocabulary_of};
ghost use Rattle.sort_checker.specs.Additions.{GoesOn};
ghost use Rattle.sort_checker.specs.FullVocabularies.{FullVocabulary};
ghost use Rattle.sort_checker.specs.Elaborations.{WrittenEquation};
ghost use Rattle.sort_checker.specs.ScopedTrees.{scoped_item, scoped_items};
ghost use Rattle.sort_checker.specs.CodeContexts.{IsReady};
ghost use Rattle.sort_checker.specs.ElaboratedTexts.{IsReadyScoped, equations_by, CanElaborateEquations, AreElaboratedEquations};

use crate::equation_elaborating::equation_of;
use crate::scoped_declarations::ScopedDecl;
use data_theory::{NoMemory, Signature};
use data_typing::scope::Scope;
use data_typing::sort_tables::SortTables;
use mcrl2_syntax::Decl;
use std::alloc::Global;
use term_pool::{Equation, Pool};

/// Puts the equation of a declaration behind the others, where it is one.
fn add_equation<'a>(
    alloc: Global,
    sig: &mut Signature,
    pool: &mut Pool,
    tables: &mut SortTables,
    scope: &mut Scope,
    equations: &mut Vec<Equation>,
    item: ScopedDecl<'a>,
) -> Result<(), NoMemory>
    requires ready { IsReady sig.old pool.old tables.old scope.old }
    requires empty { scope.old ≡ [] }
    requires words { IsReadyScoped sig.old.texts item }
    requires elaborates { CanElaborateEquations sig.old (equations_by (scoped_item item)) }
    ensures kept { GoesOn sig.old pool.old sig.new pool.new }
    ensures ready { OnOk result (IsReady sig.new pool.new tables.new scope.new) }
    ensures empty { OnOk result (scope.new ≡ []) }
    ensures means { OnOk result ((v : FullVocabulary) (es : List WrittenEquation) → v.declared ≡ vocabulary_of sig.old → AreElaboratedEquations v sig.old pool.old es (map plain_equation equations.old.items) → AreElaboratedEquations v sig.new pool.new (es ++ equations_by (scoped_item item.entry)) (map plain_equation equations.new.items)) }
{
    let Decl::Equation(_, tree) = item.declaration else {
        return Ok(());
    };
    let equation = equation_of(alloc, sig, pool, tables, scope, item.before, tree)?;
    equations.push(equation)?;
    Ok(())
}

/// The equations of these declarations. Each has variables of its own.
///
/// # Errors
///
/// `NoMemory` where there is none for them.
pub(crate) fn written_equations<'a>(
    alloc: Global,
    sig: &mut Signature,
    pool: &mut Pool,
    tables: &mut SortTables,
    list: &[ScopedDecl<'a>],
) -> Result<Vec<Equation>, NoMemory>
    requires ready { IsReady sig.old pool.old tables.old [] }
    requires words { AllByRecursion (IsReadyScoped sig.old.texts) list.now }
    requires elaborate { CanElaborateEquations sig.old (flat_map equations_by (scoped_items list.now)) }
    ensures kept { GoesOn sig.old pool.old sig.new pool.new }
    ensures ready { OnOk result (IsReady sig.new pool.new tables.new []) }
    ensures means { IfOk result (λ made. (v : FullVocabulary) → v.declared ≡ vocabulary_of sig.old → AreElaboratedEquations v sig.new pool.new (flat_map equations_by (scoped_items list.now)) (map plain_equation made.items)) }
{
    let mut scope = Scope::new(alloc);
    let mut equations = Vec::new(alloc);
    for item in list {
        add_equation(alloc, sig, pool, tables, &mut scope, &mut equations, *item)?;
    }
    Ok(equations)
}
