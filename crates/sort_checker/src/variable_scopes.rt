//! The variables in scope with their sorts.

ghost use Rattle.std.specs.Prelude.{◌≡◌, ◌++◌, ◌∷◌, ◌-◌, [], length, map, take, IfOk, IfSome, OnOk, option_map};
ghost use Rattle.std.specs.Str.{IsUtf8};
ghost use Rattle.std.specs.List.{AllByRecursion, Contains};
ghost use Rattle.mcrl2_syntax.specs.Words.{PlainWord, word_of};
ghost use Rattle.mcrl2_syntax.specs.ProcessParts.{var_group_of};
ghost use Rattle.mcrl2_syntax.specs.TreeWords.{AreNames};
ghost use Rattle.data_theory.specs.Signature.{Sig};
ghost use Rattle.sort_table.specs.Expressions.{Name};
ghost use Rattle.sort_table.specs.BareSorts.{SortExpression};
ghost use Rattle.sort_table.specs.BareProcesses.{Variables, bare_variables};
ghost use Rattle.sort_table.specs.SignatureVocabularies.{vocabulary_of};
ghost use Rattle.sort_table.specs.Vocabularies.{sort_in};
ghost use Rattle.data_typing.specs.FlatSorts.{flat_sort};
ghost use Rattle.data_typing.specs.Contexts.{AreTablesOf, IsFlatOver};
ghost use Rattle.sort_checker.specs.ReadyTrees.{AreReadyGroups, AreReadyDeclarations, AreReadyLeaves, leaves_at};
ghost use Rattle.sort_checker.specs.StopTrees.{stop_of};
ghost use Rattle.sort_checker.specs.ScopedTrees.{variables_under};
ghost use Rattle.sort_checker.specs.Stops.{without, variables_behind};
ghost use Rattle.sort_checker.specs.VariableScopes.{HasInScope};

use crate::stops::StopTree;
use crate::variable_sorts::{name_number, sort_of};
use data_theory::{NoMemory, Signature, VarId};
use data_typing::flat_sorts::FlatSort;
use data_typing::scope::{Bound, Scope};
use data_typing::sort_tables::SortTables;
use mcrl2_syntax::{Decl, VarGroup, Word};
use std::alloc::Global;

/// The variables in scope, the innermost last. A variable whose sort isn't known has no place in the scope that typing takes, so a mark
/// for each variable says whether it has one.
#[derive(Drop)]
pub(crate) struct VariableScope {
    pub(crate) scope: Scope,
    pub(crate) entered: Vec<bool>,
}

/// No variables.
pub(crate) fn empty_scope(alloc: Global) -> VariableScope
    ensures { (g : Sig) → HasInScope g [] result }
{
    VariableScope {
        scope: Scope::new(alloc),
        entered: Vec::new(alloc),
    }
}

impl VariableScope {
    /// A variable of this name and sort comes into scope.
    fn enter(
        &mut self,
        sig: &Signature,
        name: &[u8],
        sort: Option<FlatSort>,
    ) -> Result<(), NoMemory>
        requires text { IsUtf8 name.now }
        requires there { Contains sig.now.texts name.now }
        requires over { IfSome sort (IsFlatOver sig.now) }
        ensures { OnOk result ((xs : Variables) (e : SortExpression) → option_map flat_sort sort ≡ sort_in (vocabulary_of sig.now).sort_names e → HasInScope sig.now xs self.old → HasInScope sig.now (xs ++ (name.now, e) ∷ []) self.new) }
    {
        match sort {
            Some(sort) => {
                let bound = Bound {
                    name: name_number(sig, name),
                    var: VarId(self.scope.len()),
                    sort,
                };
                self.scope.enter(bound)?;
                self.entered.push(true)?;
            }
            None => self.entered.push(false)?,
        }
        Ok(())
    }

    /// The innermost variable leaves the scope, where there is one.
    fn leave_one(&mut self)
        ensures { (g : Sig) (xs : Variables) → HasInScope g xs self.old → HasInScope g (take (length xs - 1) xs) self.new }
    {
        match self.entered.pop() {
            Some(true) => self.scope.leave(),
            Some(false) => {}
            None => {}
        }
    }

    /// So many variables leave the scope, the innermost first.
    fn leave(&mut self, count: usize)
        ensures { (g : Sig) (xs : Variables) → HasInScope g xs self.old → HasInScope g (take (length xs - count) xs) self.new }
    {
        for _step in 0..count {
            self.leave_one();
        }
    }
}

/// Variables of these names and this sort come into scope.
fn enter_words(
    sig: &Signature,
    scope: &mut VariableScope,
    words: &[Word],
    sort: Option<FlatSort>,
) -> Result<(), NoMemory>
    requires names { AreNames (map word_of words.now) }
    requires there { AllByRecursion (λ (w : PlainWord). Contains sig.now.texts w.bytes) (map word_of words.now) }
    requires over { IfSome sort (IsFlatOver sig.now) }
    ensures { OnOk result ((xs : Variables) (e : SortExpression) → option_map flat_sort sort ≡ sort_in (vocabulary_of sig.now).sort_names e → HasInScope sig.now xs scope.old → HasInScope sig.now (xs ++ map (λ (w : PlainWord). (w.bytes, e)) (map word_of words.now)) scope.new) }
{
    for word in words {
        scope.enter(sig, word.bytes.as_slice(), sort)?;
    }
    Ok(())
}

/// Variables come into scope.
///
/// # Errors
///
/// `NoMemory` where there is none for them.
pub(crate) fn enter_groups(
    sig: &Signature,
    tables: &SortTables,
    scope: &mut VariableScope,
    groups: &[VarGroup],
) -> Result<(), NoMemory>
    requires tables { AreTablesOf sig.now tables.now }
    requires ready { AreReadyGroups sig.now.texts (map var_group_of groups.now) }
    ensures { OnOk result ((xs : Variables) → HasInScope sig.now xs scope.old → HasInScope sig.now (xs ++ bare_variables (map var_group_of groups.now)) scope.new) }
{
    for group in groups {
        let sort = sort_of(sig, tables, &group.sort)?;
        enter_words(sig, scope, group.names.as_slice(), sort)?;
    }
    Ok(())
}

/// They leave it again.
fn leave_groups(scope: &mut VariableScope, groups: &[VarGroup])
    ensures { (g : Sig) (xs : Variables) → HasInScope g xs scope.old → HasInScope g (without (bare_variables (map var_group_of groups.now)) xs) scope.new }
{
    for group in groups {
        scope.leave(group.names.as_slice().len());
    }
}

/// The variables of a stop come into scope or leave it.
///
/// # Errors
///
/// `NoMemory` where there is none for them.
pub(crate) fn pass_stop<'a>(
    sig: &Signature,
    tables: &SortTables,
    scope: &mut VariableScope,
    stop: StopTree<'a>,
) -> Result<(), NoMemory>
    requires tables { AreTablesOf sig.now tables.now }
    requires ready { AreReadyLeaves sig.now.texts (leaves_at stop) }
    ensures { OnOk result ((xs : Variables) → HasInScope sig.now xs scope.old → HasInScope sig.now (variables_behind xs (stop_of stop.entry)) scope.new) }
{
    match stop {
        StopTree::Enter(groups) => enter_groups(sig, tables, scope, groups),
        StopTree::Leave(groups) => {
            leave_groups(scope, groups);
            Ok(())
        }
        StopTree::At(_) => Ok(()),
    }
}

/// The variables that these declarations declare.
///
/// # Errors
///
/// `NoMemory` where there is none for them.
pub(crate) fn section_scope(
    alloc: Global,
    sig: &Signature,
    tables: &SortTables,
    declarations: &[Decl],
) -> Result<VariableScope, NoMemory>
    requires tables { AreTablesOf sig.now tables.now }
    requires ready { AreReadyDeclarations sig.now.texts declarations.now }
    ensures { IfOk result (HasInScope sig.now (variables_under declarations.now)) }
{
    let mut scope = empty_scope(alloc);
    for declaration in declarations {
        if let Decl::Vars(_, groups) = declaration {
            enter_groups(sig, tables, &mut scope, groups.as_slice())?;
        }
    }
    Ok(scope)
}
