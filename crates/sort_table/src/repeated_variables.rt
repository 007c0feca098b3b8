//! The first declaration that has a variable twice in a list of parameters or of sum variables.

ghost use Rattle.std.specs.Prelude.{◌≡◌, map, IfOk};
ghost use Rattle.mcrl2_syntax.specs.ProcessTrees.{plain_process, processes_of};
ghost use Rattle.sort_table.specs.DeclarationTrees.{declaration_of, declarations_under};
ghost use Rattle.sort_table.specs.Duplicates.{variable_lists};
ghost use Rattle.sort_table.specs.Repeats.{IsLeastPair};
ghost use Rattle.sort_table.specs.RepeatedVariables.{any_twice, groups_twice, sums_twice, all_sums_twice, VariableAgain};

use crate::item_entries::add_groups;
use crate::repeats::first_repeat;
use data_theory::NoMemory;
use mcrl2_syntax::{Decl, ProcTree, VarGroup};
use std::alloc::Global;

/// The number of the first declaration that has a variable twice in one list, twice.
///
/// # Errors
///
/// `NoMemory` where there is none for the variables of a list.
pub(crate) fn repeated_variables(
    alloc: Global,
    declarations: &[&Decl],
) -> Result<Option<(usize, usize)>, NoMemory>
    ensures { IfOk result (λ found. IsLeastPair (VariableAgain (declarations_under declarations.now)) found) }
{
    let mut number = 0;
    for declaration in declarations {
        number += 1;
        if repeats_in_declaration(alloc, declaration)? {
            return Ok(Some((number, number)));
        }
    }
    Ok(None)
}

/// Whether a declaration has a variable twice in one list.
fn repeats_in_declaration(alloc: Global, declaration: &Decl) -> Result<bool, NoMemory>
    ensures { IfOk result (λ found. found ≡ any_twice (variable_lists (declaration_of declaration.now))) }
{
    match declaration {
        Decl::Proc(_, _, parameters, body) => {
            if repeats_in_groups(alloc, parameters.as_slice())? {
                return Ok(true);
            }
            repeats_in_process(alloc, body)
        }
        Decl::Init(_, body) => repeats_in_process(alloc, body),
        _ => Ok(false),
    }
}

/// Whether a list of variables has one twice.
fn repeats_in_groups(alloc: Global, groups: &[VarGroup]) -> Result<bool, NoMemory>
    ensures { IfOk result (λ found. found ≡ groups_twice groups.now) }
{
    let mut entries = Vec::new(alloc);
    add_groups(alloc, &mut entries, 0, 0, groups)?;
    let found = first_repeat(alloc, entries.as_slice())?;
    Ok(found.is_some())
}

/// Whether a process term has a sum variable twice in one list.
#[cycle(sums)]
fn repeats_in_process(alloc: Global, process: &ProcTree) -> Result<bool, NoMemory>
    ensures { IfOk result (λ found. found ≡ sums_twice (plain_process process.now)) }
{
    match process {
        ProcTree::Delta(_)
        | ProcTree::Action(_)
        | ProcTree::Multi(_, _)
        | ProcTree::Call(_, _, _) => Ok(false),
        ProcTree::Brackets(_, inner)
        | ProcTree::Allow(_, _, inner)
        | ProcTree::Block(_, _, inner)
        | ProcTree::Hide(_, _, inner)
        | ProcTree::Rename(_, _, inner)
        | ProcTree::Comm(_, _, inner)
        | ProcTree::When(_, _, inner) => repeats_in_process(alloc, inner),
        ProcTree::Sum(_, groups, inner) => {
            if repeats_in_groups(alloc, groups.as_slice())? {
                return Ok(true);
            }
            repeats_in_process(alloc, inner)
        }
        ProcTree::Either(_, _, then, other) => {
            if repeats_in_process(alloc, then)? {
                return Ok(true);
            }
            repeats_in_process(alloc, other)
        }
        ProcTree::Sequence(_, parts)
        | ProcTree::Sync(_, parts)
        | ProcTree::Parallel(_, parts)
        | ProcTree::Choice(_, parts) => repeats_in_processes(alloc, parts.as_slice()),
        ProcTree::LeftMerge(_, first, second) => {
            if repeats_in_process(alloc, first)? {
                return Ok(true);
            }
            repeats_in_process(alloc, second)
        }
    }
}

/// Whether one of these process terms has a sum variable twice in one list.
#[cycle(sums)]
fn repeats_in_processes(alloc: Global, processes: &[ProcTree]) -> Result<bool, NoMemory>
    ensures { IfOk result (λ found. found ≡ all_sums_twice (processes_of (map plain_process processes.now))) }
{
    for process in processes {
        if repeats_in_process(alloc, process)? {
            return Ok(true);
        }
    }
    Ok(false)
}
