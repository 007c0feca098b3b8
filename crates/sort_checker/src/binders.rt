//! Variables that come into scope.

ghost use Rattle.std.specs.Prelude.{◌≡◌, ◌<◌, ◌∷◌, [], Some, length, map, take, IfOk, OnOk};
ghost use Rattle.std.specs.List.{AllByRecursion, Contains};
ghost use Rattle.data_theory.specs.IdTerms.{sort_under};
ghost use Rattle.mcrl2_syntax.specs.Words.{word_of};
ghost use Rattle.mcrl2_syntax.specs.ProcessParts.{var_group_of};
ghost use Rattle.mcrl2_syntax.specs.TreeWords.{IsName, AreNames, IsGroupOfWords};
ghost use Rattle.sort_table.specs.BareProcesses.{bare_names, bare_group, bare_variables};
ghost use Rattle.sort_table.specs.BareSorts.{SortExpression};
ghost use Rattle.sort_table.specs.NamedSorts.{sort_names_of};
ghost use Rattle.sort_table.specs.SignatureVocabularies.{vocabulary_of};
ghost use Rattle.sort_table.specs.Vocabularies.{sort_in};
ghost use Rattle.sort_checker.specs.Additions.{GoesOn};
ghost use Rattle.sort_checker.specs.NumberedWords.{StandIn};
ghost use Rattle.sort_checker.specs.CodeContexts.{words_at, VariablesStand, IsReady, AreBound, EnterBehind};
ghost use Rattle.sort_checker.specs.SoundTexts.{HaveSorts};

use crate::sort_numbers::sort_number;
use crate::word_numbers::word_number;
use data_theory::{NoMemory, Signature, SortId, VarId};
use data_typing::scope::{Bound, Scope};
use data_typing::sort_tables::{SortTables, go_on};
use mcrl2_syntax::{VarGroup, Word};
use std::alloc::Global;
use term_pool::Pool;

/// A variable of this name and sort comes into scope, and stands behind the others that did.
fn enter_word(
    sig: &mut Signature,
    pool: &Pool,
    tables: &SortTables,
    scope: &mut Scope,
    variables: &mut Vec<VarId>,
    word: &Word,
    sort: SortId,
) -> Result<(), NoMemory>
    requires ready { IsReady sig.old pool.now tables.now scope.old }
    requires name { IsName (word_of word.now) }
    requires there { Contains sig.old.texts word.now.bytes.items }
    requires sort { sort.0 < length sig.old.sorts }
    ensures kept { GoesOn sig.old pool.now sig.new pool.now }
    ensures ready { OnOk result (IsReady sig.new pool.now tables.now scope.new) }
    ensures bound { OnOk result ((e : SortExpression) → sort_in (sort_names_of sig.old) e ≡ Some (sort_under sig.old sort) → EnterBehind sig.old scope.old variables.old.items ((word.now.bytes.items, e) ∷ []) sig.new scope.new variables.new.items) }
{
    let name = word_number(sig, word);
    let var = sig.add_var(name, sort)?;
    let sort = tables.flat(sort);
    scope.enter(Bound { name, var, sort })?;
    variables.push(var)?;
    Ok(())
}

/// Variables of these names and of one sort come into scope.
fn enter_words(
    sig: &mut Signature,
    pool: &Pool,
    tables: &SortTables,
    scope: &mut Scope,
    variables: &mut Vec<VarId>,
    words: &[Word],
    sort: SortId,
) -> Result<(), NoMemory>
    requires ready { IsReady sig.old pool.now tables.now scope.old }
    requires names { AreNames (map word_of words.now) }
    requires there { StandIn sig.old (bare_names (map word_of words.now)) }
    requires sort { sort.0 < length sig.old.sorts }
    ensures kept { GoesOn sig.old pool.now sig.new pool.now }
    ensures ready { OnOk result (IsReady sig.new pool.now tables.now scope.new) }
    ensures bound { OnOk result ((e : SortExpression) → sort_in (sort_names_of sig.old) e ≡ Some (sort_under sig.old sort) → EnterBehind sig.old scope.old variables.old.items (words_at e words.now) sig.new scope.new variables.new.items) }
{
    for word in words {
        enter_word(sig, pool, tables, scope, variables, word, sort)?;
    }
    Ok(())
}

/// Variables of one sort come into scope.
fn enter_group(
    sig: &mut Signature,
    pool: &Pool,
    tables: &mut SortTables,
    scope: &mut Scope,
    variables: &mut Vec<VarId>,
    group: &VarGroup,
) -> Result<(), NoMemory>
    requires ready { IsReady sig.old pool.now tables.old scope.old }
    requires group { IsGroupOfWords (var_group_of group.now) }
    requires there { VariablesStand sig.old (bare_group (var_group_of group.now)) }
    requires sorts { HaveSorts (vocabulary_of sig.old) (bare_group (var_group_of group.now)) }
    ensures kept { GoesOn sig.old pool.now sig.new pool.now }
    ensures ready { OnOk result (IsReady sig.new pool.now tables.new scope.new) }
    ensures bound { OnOk result (EnterBehind sig.old scope.old variables.old.items (bare_group (var_group_of group.now)) sig.new scope.new variables.new.items) }
{
    if group.names.as_slice().is_empty() {
        return Ok(());
    }
    let sort = sort_number(sig, &group.sort)?;
    go_on(sig, tables)?;
    enter_words(
        sig,
        pool,
        tables,
        scope,
        variables,
        group.names.as_slice(),
        sort,
    )
}

/// Variables come into scope. Each gets a new number.
///
/// # Errors
///
/// `NoMemory` where there is none for them.
pub(crate) fn enter_groups(
    alloc: Global,
    sig: &mut Signature,
    pool: &Pool,
    tables: &mut SortTables,
    scope: &mut Scope,
    groups: &[VarGroup],
) -> Result<Vec<VarId>, NoMemory>
    requires ready { IsReady sig.old pool.now tables.old scope.old }
    requires groups { AllByRecursion IsGroupOfWords (map var_group_of groups.now) }
    requires there { VariablesStand sig.old (bare_variables (map var_group_of groups.now)) }
    requires sorts { HaveSorts (vocabulary_of sig.old) (bare_variables (map var_group_of groups.now)) }
    ensures kept { GoesOn sig.old pool.now sig.new pool.now }
    ensures ready { OnOk result (IsReady sig.new pool.now tables.new scope.new) }
    ensures bound { IfOk result (λ ids. AreBound sig.old scope.old (bare_variables (map var_group_of groups.now)) sig.new scope.new ids.items) }
{
    let mut variables = Vec::new(alloc);
    for group in groups {
        enter_group(sig, pool, tables, scope, &mut variables, group)?;
    }
    Ok(variables)
}

/// The innermost variables leave the scope, so that so many are left.
pub(crate) fn leave_to(scope: &mut Scope, left: usize)
    ensures { scope.new ≡ take left scope.old }
{
    while scope.len() > left {
        scope.leave();
    }
}
