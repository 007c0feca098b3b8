//! The calls of process terms.

ghost use Rattle.std.specs.Prelude.{◌≡◌, ◌++◌, map, IfOk, OnOk};
ghost use Rattle.process_terms.specs.PlainProcesses.{plain_process, processes_of};
ghost use Rattle.process_terms.specs.Meanings.{Entries, body_of};
ghost use Rattle.guard_check.specs.Calls.{calls};
ghost use Rattle.guard_check.specs.CallGraphs.{plain_calls, all_calls};

use data_theory::NoMemory;
use process_terms::Proc;
use std::alloc::Global;

/// Which calls of a process term count.
#[derive(Clone, Copy)]
pub enum Extent {
    /// All of them.
    Everywhere,
    /// Those that stand before any action: in `p . q` only those of p.
    BeforeActions,
}

/// The names that a process term calls, as numbers, in the order of the text.
///
/// # Errors
///
/// `NoMemory` where there is none for the list.
pub fn calls_of_term(alloc: Global, extent: Extent, process: &Proc) -> Result<Vec<usize>, NoMemory>
    ensures { IfOk result (λ found. (g : Entries) → found.items ≡ calls extent (body_of g (plain_process process.now))) }
{
    let mut found = Vec::new(alloc);
    add_calls(extent, process, &mut found)?;
    Ok(found)
}

/// Puts the names that a process term calls behind those that were found.
#[cycle(walk)]
fn add_calls(extent: Extent, process: &Proc, found: &mut Vec<usize>) -> Result<(), NoMemory>
    ensures { OnOk result (found.new.items ≡ found.old.items ++ plain_calls extent (plain_process process.now)) }
{
    match process {
        Proc::Delta | Proc::Act(_) => Ok(()),
        Proc::Call(callee, _) => Ok(found.push(callee.0)?),
        Proc::Choice(parts) | Proc::Merge(parts) | Proc::Sync(parts) => {
            add_all_calls(extent, parts, found)
        }
        Proc::Seq(parts) => match extent {
            Extent::Everywhere => add_all_calls(extent, parts, found),
            Extent::BeforeActions => match parts.first() {
                Some(first) => add_calls(extent, first, found),
                None => Ok(()),
            },
        },
        Proc::Cond(_, then, other) => {
            add_calls(extent, then, found)?;
            add_calls(extent, other, found)
        }
        Proc::LeftMerge(first, second) => {
            add_calls(extent, first, found)?;
            add_calls(extent, second, found)
        }
        Proc::Sum(_, part)
        | Proc::Allow(_, part)
        | Proc::Block(_, part)
        | Proc::Hide(_, part)
        | Proc::Rename(_, part)
        | Proc::Comm(_, part) => add_calls(extent, part, found),
    }
}

/// Puts the names that these call behind those that were found.
#[cycle(walk)]
fn add_all_calls(extent: Extent, parts: &[Proc], found: &mut Vec<usize>) -> Result<(), NoMemory>
    ensures { OnOk result (found.new.items ≡ found.old.items ++ all_calls extent (processes_of (map plain_process parts.now))) }
{
    for part in parts {
        add_calls(extent, part, found)?;
    }
    Ok(())
}
