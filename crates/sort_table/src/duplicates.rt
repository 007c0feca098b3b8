//! The first declaration that declares something again.

ghost use Rattle.std.specs.Prelude.{◌≡◌, ◌++◌, IfOk, OnOk, MatchOption};
ghost use Rattle.sort_table.specs.DeclarationTrees.{declarations_of_text};
ghost use Rattle.sort_table.specs.UnknownSorts.{AllAreKnown};
ghost use Rattle.sort_table.specs.SortCycles.{NoCycle};
ghost use Rattle.sort_table.specs.Duplicates.{all_items, NothingAgain, IsDuplicate};
ghost use Rattle.sort_table.specs.Domains.{domains_by};
ghost use Rattle.sort_table.specs.Repeats.{marks_of};
ghost use Rattle.sort_table.specs.ItemMarks.{marks_from};
ghost use Rattle.sort_table.specs.PlacedDeclarations.{all_placed, section_items, sections_of_text};

use crate::declaration_lists::declaration_list;
use crate::domains::{DomainTable, domain_table};
use crate::flat_sorts::flat_table;
use crate::item_entries::add_declaration;
use crate::repeated_variables::repeated_variables;
use crate::repeats::{Entry, first_repeat, lesser};
use crate::sort_indexes::sort_index;
use data_theory::NoMemory;
use mcrl2_syntax::{Decl, Spec};
use std::alloc::Global;

/// The first declaration that declares something again, with the first one that did so: the numbers of both, from 1, the earlier one
/// first. They are equal where a declaration repeats itself or a built-in function.
///
/// What may be declared once: a sort name; a function name with sorts, where the built-in functions count over any sort; an action
/// name with sorts; a process name; a name as action or as process; a variable in one list of parameters or of sum variables, or in one
/// `var` section. Sorts are compared through aliases. Lists of sorts are numbered, so that the time is n log n in
/// the length of the text. The rules are those of the mCRL2 language reference, without overloaded process names.
///
/// # Errors
///
/// `NoMemory` where there is none for the tables.
pub fn first_duplicate(alloc: Global, spec: &Spec) -> Result<Option<(usize, usize)>, NoMemory>
    requires known { AllAreKnown (declarations_of_text spec.now) }
    requires no_cycle { NoCycle (declarations_of_text spec.now) }
    ensures { IfOk result (λ found. MatchOption found (NothingAgain (sections_of_text spec.now)) (λ found. IsDuplicate (sections_of_text spec.now) found.0 found.1)) }
{
    let placed = placed_declarations(alloc, spec)?;
    let declarations = declaration_list(alloc, spec)?;
    let index = sort_index(alloc, declarations.as_slice())?;
    let flats = flat_table(alloc, index)?;
    let table = domain_table(alloc, flats, declarations.as_slice())?;
    let entries = declared_entries(alloc, &table, placed.as_slice())?;
    let items = first_repeat(alloc, entries.as_slice())?;
    let variables = repeated_variables(alloc, declarations.as_slice())?;
    Ok(lesser(items, variables))
}

/// The declarations of all sections in the order of the text, each with the number of its section, from 0.
fn placed_declarations<'a>(
    alloc: Global,
    spec: &'a Spec,
) -> Result<Vec<(usize, &'a Decl)>, NoMemory>
    ensures { IfOk result (λ list. all_placed list.items ≡ all_items 0 (sections_of_text spec.now)) }
{
    let mut list = Vec::new(alloc);
    let mut number = 0;
    for section in &spec.sections {
        place_section(&mut list, number, section.declarations.as_slice())?;
        number += 1;
    }
    Ok(list)
}

/// Puts the declarations of a section behind the others.
fn place_section<'a>(
    list: &mut Vec<(usize, &'a Decl)>,
    section: usize,
    declarations: &'a [Decl],
) -> Result<(), NoMemory>
    ensures { OnOk result (all_placed list.new.items ≡ all_placed list.old.items ++ section_items section declarations.now) }
{
    for declaration in declarations {
        list.push((section, declaration))?;
    }
    Ok(())
}

/// The entries of what these declarations declare.
fn declared_entries<'a>(
    alloc: Global,
    table: &DomainTable<'a>,
    placed: &[(usize, &'a Decl)],
) -> Result<Vec<Entry>, NoMemory>
    ensures { IfOk result (λ entries. marks_of entries.items ≡ marks_from (domains_by table.now) 1 (all_placed placed.now)) }
{
    let mut entries = Vec::new(alloc);
    let mut number = 0;
    for (section, declaration) in placed {
        number += 1;
        add_declaration(alloc, table, &mut entries, number, *section, declaration)?;
    }
    Ok(entries)
}
