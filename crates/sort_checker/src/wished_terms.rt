//! Terms of expressions, by what elaborating knows.

ghost use Rattle.std.specs.Prelude.{IfOk, OnOk};
ghost use Rattle.data_theory.specs.Terms.{boolean, Term};
ghost use Rattle.mcrl2_syntax.specs.DataTrees.{plain_data};
ghost use Rattle.mcrl2_syntax.specs.TreeWords.{IsDataOfWords};
ghost use Rattle.sort_table.specs.BareData.{bare_data};
ghost use Rattle.data_typing.specs.Making.{wished};
ghost use Rattle.data_typing.specs.Meanings as meanings;
ghost use Rattle.data_typing.specs.Meanings.{typing_in, ChecksAs};
ghost use Rattle.data_typing.specs.CodeSteps.{wish_of};
ghost use Rattle.data_typing.specs.Contexts.{IsWantedOver};
ghost use Rattle.sort_table.specs.Vocabularies.{Vocabulary};
ghost use Rattle.sort_checker.specs.Additions.{GoesOn};
ghost use Rattle.sort_checker.specs.ElaboratedParts.{IsTerm};
ghost use Rattle.sort_checker.specs.CodeContexts.{IsReady, SeesData, CanCheck, IsWished};
ghost use Rattle.sort_checker.specs.ElaboratedTexts.{HasTermHere, IsTermHere};

use data_theory::{NoMemory, Signature, TermId};
use data_typing::elaborating::elaborate;
use data_typing::flat_sorts::{Base, FlatSort};
use data_typing::scope::Scope;
use data_typing::sort_tables::SortTables;
use data_typing::steps::Wanted;
use mcrl2_syntax::DataTree;
use std::alloc::Global;
use term_pool::Pool;

/// The term of an expression, at the sort that it infers or at the one that is wanted, where it has one there.
///
/// # Errors
///
/// `NoMemory` where there is none for the term.
pub(crate) fn wished_term(
    alloc: Global,
    sig: &mut Signature,
    pool: &mut Pool,
    tables: &mut SortTables,
    scope: &Scope,
    tree: &DataTree,
    wanted: Wanted,
) -> Result<Option<TermId>, NoMemory>
    requires ready { IsReady sig.old pool.old tables.old scope.now }
    requires tree { IsDataOfWords (plain_data tree.now) }
    requires wanted { IsWantedOver sig.old wanted }
    ensures kept { GoesOn sig.old pool.old sig.new pool.new }
    ensures ready { OnOk result (IsReady sig.new pool.new tables.new scope.now) }
    ensures means { IfOk result (λ found. (v : Vocabulary) (variables : meanings.Scope) → SeesData sig.old scope.now v variables → IsWished sig.new pool.new (wished (wish_of wanted) (typing_in v variables (bare_data (plain_data tree.now)))) found) }
{
    let _ = sig.next_sort();
    let term = elaborate(alloc, sig, pool, tables, scope, tree, wanted)?;
    Ok(term)
}

/// The term of an expression that has one, at the sort that it infers or at the one that is wanted.
///
/// # Errors
///
/// `NoMemory` where there is none for the term.
pub(crate) fn typed_term(
    alloc: Global,
    sig: &mut Signature,
    pool: &mut Pool,
    tables: &mut SortTables,
    scope: &Scope,
    tree: &DataTree,
    wanted: Wanted,
) -> Result<TermId, NoMemory>
    requires ready { IsReady sig.old pool.old tables.old scope.now }
    requires tree { IsDataOfWords (plain_data tree.now) }
    requires wanted { IsWantedOver sig.old wanted }
    requires typed { HasTermHere sig.old scope.now (λ v variables. wished (wish_of wanted) (typing_in v variables (bare_data (plain_data tree.now)))) }
    ensures kept { GoesOn sig.old pool.old sig.new pool.new }
    ensures ready { OnOk result (IsReady sig.new pool.new tables.new scope.now) }
    ensures means { IfOk result (IsTermHere sig.old scope.now (λ v variables. wished (wish_of wanted) (typing_in v variables (bare_data (plain_data tree.now)))) sig.new pool.new) }
{
    let found = wished_term(alloc, sig, pool, tables, scope, tree, wanted)?;
    let Some(term) = found else {
        unreachable!();
    };
    Ok(term)
}

/// The term of a condition, which is typed.
///
/// # Errors
///
/// `NoMemory` where there is none for the term.
pub(crate) fn condition_term(
    alloc: Global,
    sig: &mut Signature,
    pool: &mut Pool,
    tables: &mut SortTables,
    scope: &Scope,
    tree: &DataTree,
) -> Result<TermId, NoMemory>
    requires ready { IsReady sig.old pool.old tables.old scope.now }
    requires tree { IsDataOfWords (plain_data tree.now) }
    requires typed { CanCheck sig.old scope.now (bare_data (plain_data tree.now)) boolean }
    ensures kept { GoesOn sig.old pool.old sig.new pool.new }
    ensures ready { OnOk result (IsReady sig.new pool.new tables.new scope.now) }
    ensures means { IfOk result (λ id. (v : Vocabulary) (variables : meanings.Scope) → SeesData sig.old scope.now v variables → (t : Term) × ChecksAs v variables (bare_data (plain_data tree.now)) boolean t × IsTerm sig.new pool.new id t) }
{
    let truth = FlatSort {
        depth: 0,
        base: Base::Bool,
    };
    typed_term(alloc, sig, pool, tables, scope, tree, Wanted::At(truth))
}
