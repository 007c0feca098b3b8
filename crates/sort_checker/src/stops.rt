//! The way through a process term: its parts, and where variables come into scope.

ghost use Rattle.std.specs.Prelude.{◌≡◌, ◌++◌, ◌∷◌, [], map, IfOk, OnOk};
ghost use Rattle.mcrl2_syntax.specs.ProcessTrees.{plain_process, processes_of};
ghost use Rattle.sort_table.specs.BareProcesses.{bare_process, bare_processes};
ghost use Rattle.sort_checker.specs.Stops.{stops_in, stops_in_all};
ghost use Rattle.sort_checker.specs.Stops.{at};
ghost use Rattle.sort_checker.specs.ReadyTrees.{leaves_in, leaves_in_all, leaves_of_part, leaves_along};
ghost use Rattle.sort_checker.specs.StopTrees.{part_of, stops_of};
ghost use Rattle.sort_checker.specs.declared.stops.StopTree.TheVariants.{At};

use data_theory::NoMemory;
use mcrl2_syntax::{
    ActionTree, Assignment, CommRule, DataTree, NameSet, ProcTree, Renaming, VarGroup, Word,
};
use std::alloc::Global;

/// A part of a process term.
#[derive(Clone, Copy)]
pub(crate) enum PartTree<'a> {
    /// An action, or a call with arguments in order.
    Action(&'a ActionTree),
    /// Several of these with `|` between them.
    Multi(&'a [ActionTree]),
    /// A call by assignment.
    Call(&'a Word, &'a [Assignment]),
    /// A condition.
    Condition(&'a DataTree),
    /// The sets of an `allow`.
    Allow(&'a [NameSet]),
    /// The names of a `block`.
    Block(&'a [Word]),
    /// The names of a `hide`.
    Hide(&'a [Word]),
    /// The renamings of a `rename`.
    Rename(&'a [Renaming]),
    /// The rules of a `comm`.
    Comm(&'a [CommRule]),
}

/// A stop on the way through a process term.
#[derive(Clone, Copy)]
pub(crate) enum StopTree<'a> {
    /// The variables of a `sum` come into scope.
    Enter(&'a [VarGroup]),
    /// They leave it.
    Leave(&'a [VarGroup]),
    /// A part.
    At(PartTree<'a>),
}

/// The stops of a process term, in the order of the text.
///
/// # Errors
///
/// `NoMemory` where there is none for the list.
pub(crate) fn stops<'a>(alloc: Global, process: &'a ProcTree) -> Result<Vec<StopTree<'a>>, NoMemory>
    ensures stops { IfOk result (λ list. stops_of list.items ≡ stops_in (bare_process (plain_process process.now))) }
    ensures leaves { IfOk result (λ list. leaves_along list.items ≡ leaves_in (plain_process process.now)) }
{
    let mut list = Vec::new(alloc);
    add_process(&mut list, process)?;
    Ok(list)
}

/// Puts a part behind the stops.
fn add_part<'a>(list: &mut Vec<StopTree<'a>>, part: PartTree<'a>) -> Result<(), NoMemory>
    ensures { OnOk result (list.new.items ≡ list.old.items ++ At part.entry ∷ []) }
{
    list.push(StopTree::At(part))?;
    Ok(())
}

/// Puts the stops of a process term behind the others.
#[cycle(stops)]
fn add_process<'a>(list: &mut Vec<StopTree<'a>>, process: &'a ProcTree) -> Result<(), NoMemory>
    ensures stops { OnOk result (stops_of list.new.items ≡ stops_of list.old.items ++ stops_in (bare_process (plain_process process.now))) }
    ensures leaves { OnOk result (leaves_along list.new.items ≡ leaves_along list.old.items ++ leaves_in (plain_process process.now)) }
{
    match process {
        ProcTree::Delta(_) => Ok(()),
        ProcTree::Action(action) => add_part(list, PartTree::Action(action)),
        ProcTree::Multi(_, actions) => add_part(list, PartTree::Multi(actions.as_slice())),
        ProcTree::Call(_, name, assignments) => {
            add_part(list, PartTree::Call(name, assignments.as_slice()))
        }
        ProcTree::Brackets(_, inner) => add_process(list, inner),
        ProcTree::Allow(_, sets, inner) => {
            add_around(list, PartTree::Allow(sets.as_slice()), inner)
        }
        ProcTree::Block(_, names, inner) => {
            add_around(list, PartTree::Block(names.as_slice()), inner)
        }
        ProcTree::Hide(_, names, inner) => {
            add_around(list, PartTree::Hide(names.as_slice()), inner)
        }
        ProcTree::Rename(_, renamings, inner) => {
            add_around(list, PartTree::Rename(renamings.as_slice()), inner)
        }
        ProcTree::Comm(_, rules, inner) => {
            add_around(list, PartTree::Comm(rules.as_slice()), inner)
        }
        ProcTree::When(_, condition, then) => {
            add_around(list, PartTree::Condition(condition), then)
        }
        ProcTree::Either(_, condition, then, other) => {
            add_around(list, PartTree::Condition(condition), then)?;
            add_process(list, other)
        }
        ProcTree::Sum(_, groups, inner) => {
            list.push(StopTree::Enter(groups.as_slice()))?;
            add_process(list, inner)?;
            list.push(StopTree::Leave(groups.as_slice()))?;
            Ok(())
        }
        ProcTree::Sequence(_, parts)
        | ProcTree::Parallel(_, parts)
        | ProcTree::Choice(_, parts)
        | ProcTree::Sync(_, parts) => add_processes(list, parts.as_slice()),
        ProcTree::LeftMerge(_, first, second) => {
            add_process(list, first)?;
            add_process(list, second)
        }
    }
}

/// Puts a part and the stops of the process term behind it behind the others.
#[cycle(stops)]
fn add_around<'a>(
    list: &mut Vec<StopTree<'a>>,
    part: PartTree<'a>,
    inner: &'a ProcTree,
) -> Result<(), NoMemory>
    ensures stops { OnOk result (stops_of list.new.items ≡ stops_of list.old.items ++ (at (part_of part.entry) ∷ stops_in (bare_process (plain_process inner.now)))) }
    ensures leaves { OnOk result (leaves_along list.new.items ≡ leaves_along list.old.items ++ (leaves_of_part part.entry ++ leaves_in (plain_process inner.now))) }
{
    add_part(list, part)?;
    add_process(list, inner)
}

/// Puts the stops of process terms behind the others.
#[cycle(stops)]
fn add_processes<'a>(
    list: &mut Vec<StopTree<'a>>,
    processes: &'a [ProcTree],
) -> Result<(), NoMemory>
    ensures stops { OnOk result (stops_of list.new.items ≡ stops_of list.old.items ++ stops_in_all (bare_processes (processes_of (map plain_process processes.now)))) }
    ensures leaves { OnOk result (leaves_along list.new.items ≡ leaves_along list.old.items ++ leaves_in_all (processes_of (map plain_process processes.now))) }
{
    for process in processes {
        add_process(list, process)?;
    }
    Ok(())
}
