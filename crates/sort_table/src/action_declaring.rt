//! The declared actions in a signature.

ghost use Rattle.std.specs.Prelude.{◌<◌, List, length, map, OnOk};
ghost use Rattle.std.specs.List.{All, AllByRecursion, Contains};
ghost use Rattle.mcrl2_syntax.specs.SortTrees.{plain_sort};
ghost use Rattle.data_theory.specs.Keys.{key};
ghost use Rattle.sort_table.specs.BareSorts.{SortExpression, bare_sort};
ghost use Rattle.sort_table.specs.SortMeanings.{actions_by, actions_in};
ghost use Rattle.sort_table.specs.DeclarationTrees.{declaration_of, declarations_under};
ghost use Rattle.sort_table.specs.IndexedKinds.{kinds_of_index};
ghost use Rattle.sort_table.specs.NamedSorts.{ReadsSorts};
ghost use Rattle.sort_table.specs.EnteredFunctions.{HaveSortsOf, IsReadable, IsKnownName, IsNameId};
ghost use Rattle.sort_table.specs.NamedFunctions.{names_of};
ghost use Rattle.sort_table.specs.EnteredActions.{AddsActions, EntersAct, IsReadyAction, actions_named};

use crate::function_declaring::{copied, name_id};
use crate::sort_declaring::SortNames;
use data_theory::{NameId, NoMemory, Signature, SortId};
use mcrl2_syntax::{Decl, SortTree, Word};
use std::alloc::Global;

/// Adds an action that isn't there.
fn put_act(
    alloc: Global,
    signature: &mut Signature,
    bytes: &[u8],
    name: NameId,
    sorts: &[SortId],
) -> Result<(), NoMemory>
    requires known { IsKnownName signature.old bytes.now }
    requires name { IsNameId signature.old bytes.now name }
    requires sorts { All (λ sort. sort.0 < length signature.old.sorts) sorts.now }
    requires absent { ¬ (Contains signature.old.actions (key name sorts.now)) }
    ensures { OnOk result (EntersAct bytes.now sorts.now signature.old signature.new) }
{
    let _ = signature.names();
    let Ok(text) = str::from_utf8(bytes) else {
        unreachable!();
    };
    let copy = copied(alloc, sorts)?;
    signature.add_act(text, copy)?;
    Ok(())
}

/// Adds an action, where it isn't there.
fn add_one_act(
    alloc: Global,
    signature: &mut Signature,
    bytes: &[u8],
    sorts: &[SortId],
) -> Result<(), NoMemory>
    requires known { IsKnownName signature.old bytes.now }
    requires sorts { All (λ sort. sort.0 < length signature.old.sorts) sorts.now }
    ensures { OnOk result (EntersAct bytes.now sorts.now signature.old signature.new) }
{
    let name = name_id(signature, bytes);
    match signature.act(name, sorts) {
        Some(_) => Ok(()),
        None => put_act(alloc, signature, bytes, name, sorts),
    }
}

/// Adds actions of these names with given sorts, where they aren't there.
fn add_each_act(
    alloc: Global,
    signature: &mut Signature,
    words: &[Word],
    sorts: &[SortId],
) -> Result<(), NoMemory>
    requires known { AllByRecursion (IsKnownName signature.old) (names_of words.now) }
    requires sorts { (es : List SortExpression) × HaveSortsOf signature.old es sorts.now }
    ensures { OnOk result ((es : List SortExpression) → HaveSortsOf signature.old es sorts.now → AddsActions (actions_named es words.now) signature.old signature.new) }
{
    for word in words {
        add_one_act(alloc, signature, word.bytes.as_slice(), sorts)?;
    }
    Ok(())
}

impl<'a> SortNames<'a> {
    /// Adds the actions of one declaration.
    fn add_acts(
        &self,
        alloc: Global,
        signature: &mut Signature,
        words: &'a [Word],
        domain: &'a [SortTree],
    ) -> Result<(), NoMemory>
        requires reads { ReadsSorts (kinds_of_index self.now.index) self.now.ids.items signature.old }
        requires domain { AllByRecursion (IsReadable signature.old) (map bare_sort (map plain_sort domain.now)) }
        requires known { AllByRecursion (IsKnownName signature.old) (names_of words.now) }
        ensures { OnOk result (AddsActions (actions_named (map bare_sort (map plain_sort domain.now)) words.now) signature.old signature.new) }
    {
        let sorts = self.sorts_of_trees(alloc, signature, domain)?;
        add_each_act(alloc, signature, words, sorts.as_slice())
    }

    /// Adds the actions that a declaration declares.
    fn add_declared_acts(
        &self,
        alloc: Global,
        signature: &mut Signature,
        declaration: &'a Decl,
    ) -> Result<(), NoMemory>
        requires reads { ReadsSorts (kinds_of_index self.now.index) self.now.ids.items signature.old }
        requires ready { IsReadyAction signature.old (declaration_of declaration.now) }
        ensures { OnOk result (AddsActions (actions_by (declaration_of declaration.now)) signature.old signature.new) }
    {
        match declaration {
            Decl::Act(_, words, domain) => {
                self.add_acts(alloc, signature, words.as_slice(), domain.as_slice())
            }
            _ => Ok(()),
        }
    }

    /// Adds the actions that declarations declare, each once.
    ///
    /// # Errors
    ///
    /// `NoMemory` where there is none for them.
    pub(crate) fn add_actions(
        &self,
        alloc: Global,
        signature: &mut Signature,
        declarations: &[&'a Decl],
    ) -> Result<(), NoMemory>
        requires reads { ReadsSorts (kinds_of_index self.now.index) self.now.ids.items signature.old }
        requires ready { AllByRecursion (IsReadyAction signature.old) (declarations_under declarations.now) }
        ensures { OnOk result (AddsActions (actions_in (declarations_under declarations.now)) signature.old signature.new) }
    {
        for declaration in declarations {
            self.add_declared_acts(alloc, signature, declaration)?;
        }
        Ok(())
    }
}
