//! Data terms from trees, over a signature to which nothing is added.

ghost use Rattle.std.specs.Prelude.{◌≡◌, ◌<◌, length, IfOk, IsErrOf, OnOk};
ghost use Rattle.std.specs.List.{All};
ghost use Rattle.data_theory.specs.declared.ids.VarId.{VarId};
ghost use Rattle.data_theory.specs.IdTerms.{IsTreeWithin};
ghost use Rattle.data_theory.specs.Terms.{Term};
ghost use Rattle.mcrl2_syntax.specs.DataTrees.{plain_data};
ghost use Rattle.mcrl2_syntax.specs.TreeWords.{IsDataOfWords};
ghost use Rattle.data_typing.specs.CodeWords as code;
ghost use Rattle.data_typing.specs.Contexts.{AreTablesOf, IsScopeOver};
ghost use Rattle.sort_checker.specs.Additions.{GoesOn};
ghost use Rattle.sort_checker.specs.TypedData.{scope_under, IsTypedData, IsDataTermOf, IsDataTermIn};

use data_theory::{NoMemory, Signature, SortId, TermId, VarId};
use data_typing::expressions::read_expression;
use data_typing::scope::{Bound, Scope};
use data_typing::sort_tables::{SortTables, sort_tables};
use data_typing::standing::term_over;
use data_typing::steps::Wanted;
use mcrl2_parser::TermFault;
use mcrl2_syntax::DataTree;
use std::alloc::Global;
use term_pool::Pool;

/// The scope of these variables of a signature, each under its name and with its sort. The last one is the innermost.
fn scope_of(
    alloc: Global,
    sig: &Signature,
    tables: &SortTables,
    variables: &[VarId],
) -> Result<Scope, NoMemory>
    requires tables { AreTablesOf sig.now tables.now }
    requires variables { All (λ (x : VarId). x.0 < length sig.now.variables) variables.now }
    ensures over { IfOk result (λ scope. IsScopeOver sig.now scope) }
    ensures means { IfOk result (λ scope. code.scope_of sig.now.texts scope ≡ scope_under sig.now variables.now) }
{
    let mut scope = Scope::new(alloc);
    let _ = sig.next_sort();
    for var in variables {
        let name = sig.var_name(*var);
        let sort = tables.flat(sig.var_sort(*var));
        scope.enter(Bound {
            name,
            var: *var,
            sort,
        })?;
    }
    Ok(scope)
}

/// The typed term that a tree is at a sort, where it is one.
fn typed_data(
    alloc: Global,
    tree: &DataTree,
    sig: &Signature,
    pool: &mut Pool,
    scope: &[VarId],
    sort: SortId,
) -> Result<Option<TermId>, NoMemory>
    requires words { IsDataOfWords (plain_data tree.now) }
    requires trees { All (IsTreeWithin sig.now) pool.old.trees }
    requires scope { All (λ (x : VarId). x.0 < length sig.now.variables) scope.now }
    requires sort { sort.0 < length sig.now.sorts }
    ensures kept { GoesOn sig.now pool.old sig.now pool.new }
    ensures trees { OnOk result (All (IsTreeWithin sig.now) pool.new.trees) }
    ensures means { IfOk result (λ found. IsDataTermIn sig.now pool.new scope.now sort (plain_data tree.now) found) }
{
    let tables = sort_tables(alloc, sig)?;
    let variables = scope_of(alloc, sig, &tables, scope)?;
    let _ = sig.next_sort();
    let reading = read_expression(alloc, sig, &tables, &variables, tree)?;
    let wanted = Wanted::At(tables.flat(sort));
    let term = term_over(alloc, sig, pool, &tables, &reading, wanted)?;
    Ok(term)
}

/// The term that a tree elaborates to at a sort over a signature, with these variables of the signature in scope, each under its name. Where
/// two have one name the later one is meant. Nothing is added to the signature, and the pool keeps every old entry.
///
/// # Errors
///
/// `NotATerm` where the tree is no typed term: it doesn't check at the sort with these variables in scope, or a subterm has a sort that isn't
/// in the signature, as a list sort that was never added. `NoMemory` comes only where memory runs out.
pub fn elaborate_data(
    alloc: Global,
    tree: &DataTree,
    sig: &Signature,
    pool: &mut Pool,
    scope: &[VarId],
    sort: SortId,
) -> Result<TermId, TermFault>
    requires words { IsDataOfWords (plain_data tree.now) }
    requires trees { All (IsTreeWithin sig.now) pool.old.trees }
    requires scope { All (λ (x : VarId). x.0 < length sig.now.variables) scope.now }
    requires sort { sort.0 < length sig.now.sorts }
    ensures kept { GoesOn sig.now pool.old sig.now pool.new }
    ensures trees { OnOk result (All (IsTreeWithin sig.now) pool.new.trees) }
    ensures means { IfOk result (λ made. IsDataTermOf sig.now pool.new scope.now sort (plain_data tree.now) made) }
    ensures not_a_term { IsErrOf result TermFault.NotATerm → (t : Term) → ¬ (IsTypedData sig.now scope.now sort (plain_data tree.now) t) }
{
    match typed_data(alloc, tree, sig, pool, scope, sort) {
        Ok(Some(made)) => Ok(made),
        Ok(None) => Err(TermFault::NotATerm),
        Err(_) => Err(TermFault::NoMemory),
    }
}
