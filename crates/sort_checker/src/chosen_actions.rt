//! Which action of a name arguments fit.

ghost use Rattle.std.specs.Prelude.{◌≡◌, List, map, option_map, IfOk};
ghost use Rattle.std.specs.List.{AllByRecursion};
ghost use Rattle.data_theory.specs.Signature.{Sig};
ghost use Rattle.mcrl2_syntax.specs.Words.{word_of};
ghost use Rattle.mcrl2_syntax.specs.DataTrees.{plain_data};
ghost use Rattle.mcrl2_syntax.specs.TreeWords.{IsDataOfWords, IsName};
ghost use Rattle.sort_table.specs.SignatureVocabularies.{vocabulary_of};
ghost use Rattle.data_typing.specs.CodeWords.{scope_of};
ghost use Rattle.data_typing.specs.Contexts.{AreTablesOf, IsScopeOver, IsRead};
ghost use Rattle.data_typing.specs.Meanings.{typing_in};
ghost use Rattle.data_typing.specs.Readings.{bare_trees};
ghost use Rattle.data_typing.specs.Typings.{Typing};
ghost use Rattle.sort_checker.specs.ElaboratedLabels.{first_taken, IsChoice};
ghost use Rattle.sort_checker.specs.SortedActions.{AreActionsOf};
ghost use Rattle.sort_checker.specs.TypedTrees.{AreReadings, how_of};

use crate::argument_readings::readings_of;
use crate::sorted_actions::{SortedAction, SortedActions};
use crate::typed_parts::{Way, all_fit};
use crate::word_numbers::text_of;
use data_theory::{NoMemory, Signature};
use data_typing::nodes::Reading;
use data_typing::scope::Scope;
use data_typing::sort_tables::SortTables;
use mcrl2_syntax::{DataTree, Word};
use std::alloc::Global;

/// An action, how arguments fit its sorts, and what was read of them.
#[derive(Drop)]
pub(crate) struct Chosen<'s> {
    pub(crate) action: &'s SortedAction,
    pub(crate) way: Way,
    pub(crate) readings: Vec<Reading>,
}

/// The first of some actions whose sorts the arguments fit in this way.
fn first_fitting<'s>(
    readings: &[Reading],
    actions: &'s [SortedAction],
    way: Way,
) -> Result<Option<&'s SortedAction>, NoMemory>
    requires { AllByRecursion IsRead readings.now }
    ensures { IfOk result (λ found. (g : Sig) (ts : List Typing) → AreReadings g readings.now ts → option_map (λ a. a.now) found ≡ first_taken (how_of way) ts actions.now) }
{
    for action in actions {
        if all_fit(readings, action.sorts.as_slice(), way)? {
            return Ok(Some(action));
        }
    }
    Ok(None)
}

/// The action of a name with arguments: the first whose sorts are exactly those that the arguments infer, or else the first at which
/// each checks.
///
/// # Errors
///
/// `NoMemory` where there is none for what is read.
pub(crate) fn chosen_action<'s>(
    alloc: Global,
    sig: &Signature,
    tables: &SortTables,
    scope: &Scope,
    actions: &'s SortedActions,
    name: &Word,
    arguments: &[DataTree],
) -> Result<Option<Chosen<'s>>, NoMemory>
    requires tables { AreTablesOf sig.now tables.now }
    requires scope { IsScopeOver sig.now scope.now }
    requires actions { AreActionsOf sig.now actions.now }
    requires words_name { IsName (word_of name.now) }
    requires words_arguments { AllByRecursion IsDataOfWords (map plain_data arguments.now) }
    ensures { IfOk result (λ found. IsChoice sig.now name.now.bytes.items (map (typing_in (vocabulary_of sig.now) (scope_of sig.now.texts scope.now)) (bare_trees arguments.now)) found) }
{
    let Some(number) = sig.names().find(text_of(name.bytes.as_slice())) else {
        return Ok(None);
    };
    if number.0 >= actions.groups.len() {
        return Ok(None);
    }
    let group = actions.groups[number.0].as_slice();
    let readings = readings_of(alloc, sig, tables, scope, arguments)?;
    let way = Way::Exactly;
    if let Some(action) = first_fitting(readings.as_slice(), group, way)? {
        return Ok(Some(Chosen {
            action,
            way,
            readings,
        }));
    }
    let way = Way::Checked;
    match first_fitting(readings.as_slice(), group, way)? {
        Some(action) => Ok(Some(Chosen {
            action,
            way,
            readings,
        })),
        None => Ok(None),
    }
}
