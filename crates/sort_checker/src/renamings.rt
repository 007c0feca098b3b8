//! The first name that a `rename` renames twice.

ghost use Rattle.std.specs.Prelude.{◌≡◌, ◌∷◌, map, option_map, IfOk};
ghost use Rattle.mcrl2_syntax.specs.ProcessParts.{renaming_of};
ghost use Rattle.mcrl2_syntax.specs.ProcessTrees.{plain_process, processes_of};
ghost use Rattle.mcrl2_syntax.specs.Declarations.{spec_of};
ghost use Rattle.sort_table.specs.BareDeclarations.{bare_sections};
ghost use Rattle.sort_table.specs.DeclarationTrees.{declaration_of};
ghost use Rattle.sort_checker.specs.Refusals.{rename_fault};
ghost use Rattle.sort_checker.specs.Faults.{operators_of};
ghost use Rattle.sort_checker.specs.RenamedTrees.{named_fault, rename_fault_from, again_in_process, again_in_processes, again_in_operators, again_among};
ghost use Rattle.sort_checker.specs.ScopedTrees.{scoped_items};

use crate::name_numbers::NameNumbers;
use crate::scoped_declarations::{ScopedDecl, scoped_list};
use data_theory::NoMemory;
use mcrl2_syntax::{Decl, ProcTree, Renaming, Spec};
use std::alloc::Global;

/// The first declaration in which a `rename` renames a name twice, as its number from 1, with the first such name in it.
///
/// # Errors
///
/// `NoMemory` where there is none for the names of a `rename`.
pub fn renamed_twice<'a>(
    alloc: Global,
    spec: &'a Spec,
) -> Result<Option<(usize, &'a [u8])>, NoMemory>
    ensures { IfOk result (λ found. option_map named_fault found ≡ rename_fault (bare_sections (spec_of spec.now))) }
{
    let declarations = scoped_list(alloc, spec)?;
    first_renamed(alloc, declarations.as_slice())
}

/// The first of these declarations that renames a name twice, with the name.
fn first_renamed<'a>(
    alloc: Global,
    declarations: &[ScopedDecl<'a>],
) -> Result<Option<(usize, &'a [u8])>, NoMemory>
    ensures { IfOk result (λ found. option_map named_fault found ≡ rename_fault_from 1 (scoped_items declarations.now)) }
{
    let mut number = 0;
    for declaration in declarations {
        number += 1;
        if let Some(name) = again_in_declaration(alloc, declaration.declaration)? {
            return Ok(Some((number, name)));
        }
    }
    Ok(None)
}

/// The first name that a declaration renames twice.
fn again_in_declaration<'a>(
    alloc: Global,
    declaration: &'a Decl,
) -> Result<Option<&'a [u8]>, NoMemory>
    ensures { IfOk result (λ found. option_map (λ name. name.now) found ≡ again_in_operators (operators_of (declaration_of declaration.now))) }
{
    match declaration {
        Decl::Proc(_, _, _, body) | Decl::Init(_, body) => again_in_process(alloc, body),
        _ => Ok(None),
    }
}

/// The first name that a process term renames twice.
#[cycle(renames)]
fn again_in_process<'a>(alloc: Global, process: &'a ProcTree) -> Result<Option<&'a [u8]>, NoMemory>
    ensures { IfOk result (λ found. option_map (λ name. name.now) found ≡ again_in_process (plain_process process.now)) }
{
    match process {
        ProcTree::Delta(_)
        | ProcTree::Action(_)
        | ProcTree::Multi(_, _)
        | ProcTree::Call(_, _, _) => Ok(None),
        ProcTree::Brackets(_, inner)
        | ProcTree::Allow(_, _, inner)
        | ProcTree::Block(_, _, inner)
        | ProcTree::Hide(_, _, inner)
        | ProcTree::Comm(_, _, inner)
        | ProcTree::Sum(_, _, inner)
        | ProcTree::When(_, _, inner) => again_in_process(alloc, inner),
        ProcTree::Rename(_, renamings, inner) => {
            match first_again(alloc, renamings.as_slice())? {
                Some(name) => Ok(Some(name)),
                None => again_in_process(alloc, inner),
            }
        }
        ProcTree::Either(_, _, then, other) => match again_in_process(alloc, then)? {
            Some(name) => Ok(Some(name)),
            None => again_in_process(alloc, other),
        },
        ProcTree::Sequence(_, parts)
        | ProcTree::Parallel(_, parts)
        | ProcTree::Choice(_, parts)
        | ProcTree::Sync(_, parts) => again_in_processes(alloc, parts.as_slice()),
        ProcTree::LeftMerge(_, first, second) => match again_in_process(alloc, first)? {
            Some(name) => Ok(Some(name)),
            None => again_in_process(alloc, second),
        },
    }
}

/// The first name that one of these process terms renames twice.
#[cycle(renames)]
fn again_in_processes<'a>(
    alloc: Global,
    processes: &'a [ProcTree],
) -> Result<Option<&'a [u8]>, NoMemory>
    ensures { IfOk result (λ found. option_map (λ name. name.now) found ≡ again_in_processes (processes_of (map plain_process processes.now))) }
{
    for process in processes {
        if let Some(name) = again_in_process(alloc, process)? {
            return Ok(Some(name));
        }
    }
    Ok(None)
}

/// The first name of these renamings that stands again further behind.
fn first_again<'a>(alloc: Global, renamings: &'a [Renaming]) -> Result<Option<&'a [u8]>, NoMemory>
    ensures { IfOk result (λ found. option_map (λ name. name.now) found ≡ again_among (map renaming_of renamings.now)) }
{
    let mut behind = NameNumbers::new(alloc);
    let mut found = None;
    let mut left = renamings.len();
    while left > 0 {
        left -= 1;
        let name = renamings[left].old.bytes.as_slice();
        if behind.get(name).is_some() {
            found = Some(name);
        }
        behind.put(name, left)?;
    }
    Ok(found)
}
