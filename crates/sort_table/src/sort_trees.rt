//! The sort expressions of a text.

ghost use Rattle.std.specs.Prelude.{◌≡◌, ◌++◌, ◌∷◌, [], List, map, IfOk, OnOk};
ghost use Rattle.std.specs.List.{flat_map};
ghost use Rattle.mcrl2_syntax.specs.SortTrees.{plain_sort};
ghost use Rattle.mcrl2_syntax.specs.ProcessParts.{var_group_of};
ghost use Rattle.mcrl2_syntax.specs.ProcessTrees.{plain_process, processes_of};
ghost use Rattle.mcrl2_syntax.specs.Declarations.{field_of, constructor_of};
ghost use Rattle.sort_table.specs.BareSorts.{bare_sort};
ghost use Rattle.sort_table.specs.BareProcesses.{bare_group, bare_variables, bare_process, bare_processes, sums_in, sums_in_all};
ghost use Rattle.sort_table.specs.BareDeclarations.{bare_constructor};
ghost use Rattle.sort_table.specs.DeclarationTrees.{declaration_of, declarations_under};
ghost use Rattle.sort_table.specs.Built.{expressions_in, sorts_of_constructor, sorts_of_variables};
ghost use Rattle.sort_table.specs.LentTrees.{expressions_of};

use data_theory::NoMemory;
use mcrl2_syntax::{Constructor, Decl, ProcTree, SortTree, VarGroup};
use std::alloc::Global;

/// The sort expressions in declarations, in the order of the text: one for each variable.
///
/// # Errors
///
/// `NoMemory` where there is none for the list.
pub(crate) fn sort_trees<'a>(
    alloc: Global,
    declarations: &[&'a Decl],
) -> Result<Vec<&'a SortTree>, NoMemory>
    ensures { IfOk result (λ list. expressions_of list.items ≡ flat_map expressions_in (declarations_under declarations.now)) }
{
    let mut list = Vec::new(alloc);
    for declaration in declarations {
        add_declaration(&mut list, declaration)?;
    }
    Ok(list)
}

/// Puts the sort expressions of a declaration behind the others.
fn add_declaration<'a>(list: &mut Vec<&'a SortTree>, declaration: &'a Decl) -> Result<(), NoMemory>
    ensures { OnOk result (expressions_of list.new.items ≡ expressions_of list.old.items ++ expressions_in (declaration_of declaration.now)) }
{
    match declaration {
        Decl::Sorts(_, _) | Decl::Equation(_, _) => Ok(()),
        Decl::Alias(_, _, sort) => {
            list.push(sort)?;
            Ok(())
        }
        Decl::Struct(_, _, constructors) => add_constructors(list, constructors.as_slice()),
        Decl::Cons(_, _, domain, sort) => add_type(list, domain.as_slice(), sort),
        Decl::Map(_, _, domain, sort) => add_type(list, domain.as_slice(), sort),
        Decl::Vars(_, groups) => add_groups(list, groups.as_slice()),
        Decl::Act(_, _, domain) => add_trees(list, domain.as_slice()),
        Decl::Proc(_, _, parameters, body) => {
            add_groups(list, parameters.as_slice())?;
            add_process(list, body)
        }
        Decl::Init(_, body) => add_process(list, body),
    }
}

/// Puts these sort expressions behind the others.
fn add_trees<'a>(list: &mut Vec<&'a SortTree>, trees: &'a [SortTree]) -> Result<(), NoMemory>
    ensures { OnOk result (expressions_of list.new.items ≡ expressions_of list.old.items ++ map bare_sort (map plain_sort trees.now)) }
{
    for tree in trees {
        list.push(tree)?;
    }
    Ok(())
}

/// Puts the sorts of a function behind the others.
fn add_type<'a>(
    list: &mut Vec<&'a SortTree>,
    domain: &'a [SortTree],
    sort: &'a SortTree,
) -> Result<(), NoMemory>
    ensures { OnOk result (expressions_of list.new.items ≡ expressions_of list.old.items ++ (map bare_sort (map plain_sort domain.now) ++ bare_sort (plain_sort sort.now) ∷ [])) }
{
    add_trees(list, domain)?;
    list.push(sort)?;
    Ok(())
}

/// Puts the sorts of the arguments of a constructor behind the others.
fn add_constructor<'a>(
    list: &mut Vec<&'a SortTree>,
    constructor: &'a Constructor,
) -> Result<(), NoMemory>
    ensures { OnOk result (expressions_of list.new.items ≡ expressions_of list.old.items ++ sorts_of_constructor (bare_constructor (constructor_of constructor.now))) }
{
    for field in &constructor.fields {
        list.push(&field.sort)?;
    }
    Ok(())
}

/// Puts the sorts of the arguments of constructors behind the others.
fn add_constructors<'a>(
    list: &mut Vec<&'a SortTree>,
    constructors: &'a [Constructor],
) -> Result<(), NoMemory>
    ensures { OnOk result (expressions_of list.new.items ≡ expressions_of list.old.items ++ flat_map sorts_of_constructor (map bare_constructor (map constructor_of constructors.now))) }
{
    for constructor in constructors {
        add_constructor(list, constructor)?;
    }
    Ok(())
}

/// Puts the sort of these variables behind the others, as often as there are variables.
fn add_group<'a>(list: &mut Vec<&'a SortTree>, group: &'a VarGroup) -> Result<(), NoMemory>
    ensures { OnOk result (expressions_of list.new.items ≡ expressions_of list.old.items ++ sorts_of_variables (bare_group (var_group_of group.now))) }
{
    for _name in group.names.as_slice() {
        list.push(&group.sort)?;
    }
    Ok(())
}

/// Puts the sorts of these variables behind the others.
fn add_groups<'a>(list: &mut Vec<&'a SortTree>, groups: &'a [VarGroup]) -> Result<(), NoMemory>
    ensures { OnOk result (expressions_of list.new.items ≡ expressions_of list.old.items ++ sorts_of_variables (bare_variables (map var_group_of groups.now))) }
{
    for group in groups {
        add_group(list, group)?;
    }
    Ok(())
}

/// Puts the sorts of a process term's sum variables behind the others.
#[cycle(sums)]
fn add_process<'a>(list: &mut Vec<&'a SortTree>, process: &'a ProcTree) -> Result<(), NoMemory>
    ensures { OnOk result (expressions_of list.new.items ≡ expressions_of list.old.items ++ flat_map sorts_of_variables (sums_in (bare_process (plain_process process.now)))) }
{
    match process {
        ProcTree::Delta(_)
        | ProcTree::Action(_)
        | ProcTree::Multi(_, _)
        | ProcTree::Call(_, _, _) => Ok(()),
        ProcTree::Brackets(_, inner)
        | ProcTree::Allow(_, _, inner)
        | ProcTree::Block(_, _, inner)
        | ProcTree::Hide(_, _, inner)
        | ProcTree::Rename(_, _, inner)
        | ProcTree::Comm(_, _, inner)
        | ProcTree::When(_, _, inner) => add_process(list, inner),
        ProcTree::Sum(_, groups, inner) => {
            add_groups(list, groups.as_slice())?;
            add_process(list, inner)
        }
        ProcTree::Either(_, _, then, other) => {
            add_process(list, then)?;
            add_process(list, other)
        }
        ProcTree::Sequence(_, parts)
        | ProcTree::Sync(_, parts)
        | ProcTree::Parallel(_, parts)
        | ProcTree::Choice(_, parts) => add_processes(list, parts.as_slice()),
        ProcTree::LeftMerge(_, first, second) => {
            add_process(list, first)?;
            add_process(list, second)
        }
    }
}

/// Puts the sorts of these process terms' sum variables behind the others.
#[cycle(sums)]
fn add_processes<'a>(
    list: &mut Vec<&'a SortTree>,
    processes: &'a [ProcTree],
) -> Result<(), NoMemory>
    ensures { OnOk result (expressions_of list.new.items ≡ expressions_of list.old.items ++ flat_map sorts_of_variables (sums_in_all (bare_processes (processes_of (map plain_process processes.now))))) }
{
    for process in processes {
        add_process(list, process)?;
    }
    Ok(())
}
