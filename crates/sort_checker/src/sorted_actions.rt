//! The actions of a signature as elaborating takes them.

ghost use Rattle.std.specs.Prelude.{◌≡◌, ◌<◌, ◌≤◌, ℕ, length, map, IfOk, OnOk};
ghost use Rattle.std.specs.List.{All, AllByRecursion};
ghost use Rattle.data_theory.specs.declared.ids.SortId.{SortId};
ghost use Rattle.data_theory.specs.IdTerms.{sort_under};
ghost use Rattle.data_theory.specs.Signature.{Sig};
ghost use Rattle.data_typing.specs.Contexts.{AreTablesOf, IsFlatOver};
ghost use Rattle.data_typing.specs.FlatSorts.{flat_sort};
ghost use Rattle.sort_checker.specs.SortedActions.{actions_at, AreActionsOf, PutsBehind};

use data_theory::{ActId, NameId, NoMemory, Signature, SortId};
use data_typing::flat_sorts::FlatSort;
use data_typing::sort_tables::SortTables;
use std::alloc::Global;

/// An action: its number, and its sorts as typing takes them.
#[derive(Drop)]
pub(crate) struct SortedAction {
    pub(crate) act: ActId,
    pub(crate) sorts: Vec<FlatSort>,
}

/// Under the number of each name its actions, in the order of the text. Nothing is borrowed of the signature, so that it can grow.
#[derive(Drop)]
pub(crate) struct SortedActions {
    pub(crate) groups: Vec<Vec<SortedAction>>,
}

/// The actions of a signature.
///
/// # Errors
///
/// `NoMemory` where there is none for the table.
pub(crate) fn sorted_actions(
    alloc: Global,
    sig: &Signature,
    tables: &SortTables,
) -> Result<SortedActions, NoMemory>
    requires tables { AreTablesOf sig.now tables.now }
    ensures { IfOk result (AreActionsOf sig.now) }
{
    let mut groups: Vec<Vec<SortedAction>> = Vec::new(alloc);
    let _ = sig.next_sort();
    let actions = sig.acts();
    for number in 0..actions.len() {
        let action = &actions[number];
        let sorts = flats_of(alloc, tables, action.sorts.as_slice())?;
        let act = ActId(number);
        put_action(alloc, &mut groups, action.name, SortedAction { act, sorts })?;
    }
    Ok(SortedActions { groups })
}

/// The sorts with these numbers, as typing takes them.
fn flats_of(
    alloc: Global,
    tables: &SortTables,
    numbers: &[SortId],
) -> Result<Vec<FlatSort>, NoMemory>
    ensures sorts { IfOk result (λ list. (g : Sig) → AreTablesOf g tables.now → All (λ (s : SortId). s.0 < length g.sorts) numbers.now → map flat_sort list.items ≡ map (sort_under g) numbers.now) }
    ensures over { IfOk result (λ list. (g : Sig) → AreTablesOf g tables.now → All (λ (s : SortId). s.0 < length g.sorts) numbers.now → AllByRecursion (IsFlatOver g) list.items) }
{
    let mut list = Vec::new(alloc);
    for number in numbers {
        list.push(tables.flat(*number))?;
    }
    Ok(list)
}

/// Puts an action behind the others of its name.
fn put_action(
    alloc: Global,
    groups: &mut Vec<Vec<SortedAction>>,
    name: NameId,
    action: SortedAction,
) -> Result<(), NoMemory>
    ensures { OnOk result (PutsBehind groups.old.items name.0 action groups.new.items) }
{
    make_room(alloc, groups, name.0)?;
    groups[name.0].push(action)?;
    Ok(())
}

/// Makes room for a number. Where no group stands and where an empty one does are the same.
fn make_room(
    alloc: Global,
    groups: &mut Vec<Vec<SortedAction>>,
    number: usize,
) -> Result<(), NoMemory>
    ensures room { OnOk result (number < length groups.new.items) }
    ensures same { (n : ℕ) → actions_at groups.new.items n ≡ actions_at groups.old.items n }
{
    while groups.len() <= number {
        groups.push(Vec::new(alloc))?;
    }
    Ok(())
}
