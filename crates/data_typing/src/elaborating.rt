//! Terms of expressions.

ghost use Rattle.std.specs.Prelude.{◌≡◌, None, IfOk, OnOk, IfSome, option_map};
ghost use Rattle.mcrl2_syntax.specs.DataTrees.{plain_data};
ghost use Rattle.sort_table.specs.BareData.{bare_data};
ghost use Rattle.sort_table.specs.NamedSorts.{AddsLists};
ghost use Rattle.sort_table.specs.SignatureVocabularies.{vocabulary_of};
ghost use Rattle.term_pool.specs.HeadTrees.{IsIn};
ghost use Rattle.term_pool.specs.Pools.{Extends};
ghost use Rattle.data_typing.specs.Typings.{Typing};
ghost use Rattle.data_typing.specs.Meanings.{typing_in};
ghost use Rattle.data_typing.specs.CodeWords.{scope_of};
ghost use Rattle.data_typing.specs.Readings.{IsReadable};
ghost use Rattle.data_typing.specs.Making.{wished};
ghost use Rattle.data_typing.specs.CodeSteps.{wish_of};
ghost use Rattle.data_typing.specs.CodeParts.{term_at, KeepTrees};
ghost use Rattle.data_typing.specs.Contexts.{AreTablesOf, IsScopeOver, IsWantedOver, IsReadOver, IsReadingOf};

use crate::expressions::read_expression;
use crate::making::{made_term, parts_of};
use crate::nodes::Reading;
use crate::scope::Scope;
use crate::sort_tables::{SortTables, go_on};
use crate::steps::{Task, Wanted, steps_of};
use data_theory::{NoMemory, Signature, TermId};
use mcrl2_syntax::DataTree;
use std::alloc::Global;
use term_pool::Pool;

/// The term of an expression that was read, at the sort that it infers, or at the one that is wanted. There is none where the
/// expression has none there. List sorts that functions of the term have and that aren't there are added, and no others.
pub fn term_of(
    alloc: Global,
    sig: &mut Signature,
    pool: &mut Pool,
    tables: &mut SortTables,
    reading: &Reading,
    wanted: Wanted,
) -> Result<Option<TermId>, NoMemory>
    requires tables { AreTablesOf sig.old tables.old }
    requires reading { IsReadOver sig.old reading.now }
    requires wanted { IsWantedOver sig.old wanted }
    ensures means { IfOk result (λ o. (t : Typing) → IsReadingOf sig.old reading.now t → option_map (term_at sig.new pool.new.trees) o ≡ wished (wish_of wanted) t) }
    ensures within { IfOk result (λ o. IfSome o (IsIn pool.new.trees)) }
    ensures trees { OnOk result (KeepTrees sig.old pool.old.trees sig.new pool.new.trees) }
    ensures none { IfOk result (λ o. o ≡ None → sig.new ≡ sig.old) }
    ensures added { AddsLists sig.old sig.new }
    ensures tables { OnOk result (AreTablesOf sig.new tables.new) }
    ensures kept { Extends pool.old.trees pool.new.trees }
    ensures constants { pool.new.constants ≡ pool.old.constants }
{
    let task = Task {
        at: reading.at,
        wanted,
    };
    let Some(steps) = steps_of(
        alloc,
        reading.nodes.as_slice(),
        reading.known.as_slice(),
        task,
    )?
    else {
        return Ok(None);
    };
    let parts = parts_of(alloc, sig, tables.named.as_slice(), steps.as_slice())?;
    go_on(sig, tables)?;
    let term = made_term(alloc, sig, pool, parts)?;
    Ok(Some(term))
}

/// The term of an expression over a signature, where these variables are in scope, at the sort that it infers or at the one that is
/// wanted. There is none where the expression has none there.
pub fn elaborate(
    alloc: Global,
    sig: &mut Signature,
    pool: &mut Pool,
    tables: &mut SortTables,
    scope: &Scope,
    tree: &DataTree,
    wanted: Wanted,
) -> Result<Option<TermId>, NoMemory>
    requires tables { AreTablesOf sig.old tables.old }
    requires scope { IsScopeOver sig.old scope.now }
    requires tree { IsReadable (plain_data tree.now) }
    requires wanted { IsWantedOver sig.old wanted }
    ensures means { IfOk result (λ o. option_map (term_at sig.new pool.new.trees) o ≡ wished (wish_of wanted) (typing_in (vocabulary_of sig.old) (scope_of sig.old.texts scope.now) (bare_data (plain_data tree.now)))) }
    ensures within { IfOk result (λ o. IfSome o (IsIn pool.new.trees)) }
    ensures trees { OnOk result (KeepTrees sig.old pool.old.trees sig.new pool.new.trees) }
    ensures none { IfOk result (λ o. o ≡ None → sig.new ≡ sig.old) }
    ensures added { AddsLists sig.old sig.new }
    ensures tables { OnOk result (AreTablesOf sig.new tables.new) }
    ensures kept { Extends pool.old.trees pool.new.trees }
    ensures constants { pool.new.constants ≡ pool.old.constants }
{
    let reading = read_expression(alloc, sig, tables, scope, tree)?;
    let term = term_of(alloc, sig, pool, tables, &reading, wanted)?;
    Ok(term)
}
