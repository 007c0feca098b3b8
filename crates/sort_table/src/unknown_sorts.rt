//! The first sort name that isn't declared.

ghost use Rattle.std.specs.Prelude.{◌≡◌, ◌++◌, ◌∷◌, [], map, option_map, MatchOption, IfOk};
ghost use Rattle.mcrl2_syntax.specs.SortTrees.{plain_sort};
ghost use Rattle.mcrl2_syntax.specs.ProcessParts.{var_group_of};
ghost use Rattle.mcrl2_syntax.specs.ProcessTrees.{plain_process, processes_of};
ghost use Rattle.mcrl2_syntax.specs.Declarations.{constructor_of};
ghost use Rattle.sort_table.specs.BareSorts.{bare_sort};
ghost use Rattle.sort_table.specs.SortMeanings.{kinds_in};
ghost use Rattle.sort_table.specs.DeclarationTrees.{declaration_of, declarations_under, declarations_of_text};
ghost use Rattle.sort_table.specs.UnknownSorts.{name_in, sorts_used, AllAreKnown, UsesUnknownSort};
ghost use Rattle.sort_table.specs.IndexedKinds.{kinds_of_index};
ghost use Rattle.sort_table.specs.UsedNames.{unknown_among, leaf_of, names_of_trees, names_of_constructor, names_of_constructors, names_of_group, names_of_groups, names_of_sums, names_of_all_sums};

use crate::declaration_lists::declaration_list;
use crate::sort_entries::SortIndex;
use crate::sort_indexes::sort_index;
use data_theory::NoMemory;
use mcrl2_syntax::{Constructor, Decl, ProcTree, SortTree, Spec, VarGroup};
use std::alloc::Global;

/// The first declaration that uses a sort name that isn't declared, as its number from 1, with the first such name in it.
///
/// # Errors
///
/// `NoMemory` where there is none for the table of the declared names.
pub fn unknown_sort<'a>(
    alloc: Global,
    spec: &'a Spec,
) -> Result<Option<(usize, &'a [u8])>, NoMemory>
    ensures { IfOk result (λ found. MatchOption found (AllAreKnown (declarations_of_text spec.now)) (λ found. UsesUnknownSort (declarations_of_text spec.now) found.0 found.1.now)) }
{
    let declarations = declaration_list(alloc, spec)?;
    let index = sort_index(alloc, declarations.as_slice())?;
    Ok(first_unknown(&index, declarations.as_slice()))
}

/// The first of these declarations that uses a name that isn't declared, with the name.
fn first_unknown<'a>(index: &SortIndex<'a>, declarations: &[&'a Decl]) -> Option<(usize, &'a [u8])>
    requires { kinds_of_index index.now ≡ kinds_in (declarations_under declarations.now) }
    ensures { MatchOption result (AllAreKnown (declarations_under declarations.now)) (λ found. UsesUnknownSort (declarations_under declarations.now) found.0 found.1.now) }
{
    let mut number = 0;
    for declaration in declarations {
        number += 1;
        if let Some(name) = unknown_in_declaration(index, declaration) {
            return Some((number, name));
        }
    }
    None
}

/// The first name that a declaration uses and that isn't declared.
fn unknown_in_declaration<'a>(index: &SortIndex<'a>, declaration: &'a Decl) -> Option<&'a [u8]>
    ensures { option_map (λ name. name.now) result ≡ unknown_among (kinds_of_index index.now) (sorts_used (declaration_of declaration.now)) }
{
    match declaration {
        Decl::Sorts(_, _) | Decl::Equation(_, _) => None,
        Decl::Alias(_, _, sort) => unknown_in_sort(index, sort),
        Decl::Struct(_, _, constructors) => {
            unknown_in_constructors(index, constructors.as_slice())
        }
        Decl::Cons(_, _, domain, sort) => unknown_in_type(index, domain.as_slice(), sort),
        Decl::Map(_, _, domain, sort) => unknown_in_type(index, domain.as_slice(), sort),
        Decl::Vars(_, groups) => unknown_in_groups(index, groups.as_slice()),
        Decl::Act(_, _, domain) => unknown_in_sorts(index, domain.as_slice()),
        Decl::Proc(_, _, groups, body) => unknown_in_definition(index, groups.as_slice(), body),
        Decl::Init(_, body) => unknown_in_process(index, body),
    }
}

/// The first name in the sorts of a function that isn't declared.
fn unknown_in_type<'a>(
    index: &SortIndex<'a>,
    domain: &'a [SortTree],
    sort: &'a SortTree,
) -> Option<&'a [u8]>
    ensures { option_map (λ name. name.now) result ≡ unknown_among (kinds_of_index index.now) (names_of_trees domain.now ++ name_in (bare_sort (plain_sort sort.now))) }
{
    match unknown_in_sorts(index, domain) {
        Some(name) => Some(name),
        None => unknown_in_sort(index, sort),
    }
}

/// The first name in the sorts of parameters and of a body's sum variables that isn't declared.
fn unknown_in_definition<'a>(
    index: &SortIndex<'a>,
    parameters: &'a [VarGroup],
    body: &'a ProcTree,
) -> Option<&'a [u8]>
    ensures { option_map (λ name. name.now) result ≡ unknown_among (kinds_of_index index.now) (names_of_groups parameters.now ++ names_of_sums (plain_process body.now)) }
{
    match unknown_in_groups(index, parameters) {
        Some(name) => Some(name),
        None => unknown_in_process(index, body),
    }
}

/// The name in a sort expression, where it isn't declared.
fn unknown_in_sort<'a>(index: &SortIndex<'a>, tree: &'a SortTree) -> Option<&'a [u8]>
    ensures { option_map (λ name. name.now) result ≡ unknown_among (kinds_of_index index.now) (name_in (bare_sort (plain_sort tree.now))) }
{
    match tree_name(tree) {
        Some(name) => unknown_name(index, name),
        None => None,
    }
}

/// The name, where it isn't declared.
fn unknown_name<'a>(index: &SortIndex<'a>, name: &'a [u8]) -> Option<&'a [u8]>
    ensures { option_map (λ name. name.now) result ≡ unknown_among (kinds_of_index index.now) (name.now ∷ []) }
{
    match index.find(name) {
        Some(_) => None,
        None => Some(name),
    }
}

/// The first name in these sort expressions that isn't declared.
fn unknown_in_sorts<'a>(index: &SortIndex<'a>, trees: &'a [SortTree]) -> Option<&'a [u8]>
    ensures { option_map (λ name. name.now) result ≡ unknown_among (kinds_of_index index.now) (names_of_trees trees.now) }
{
    for tree in trees {
        if let Some(name) = unknown_in_sort(index, tree) {
            return Some(name);
        }
    }
    None
}

/// The first name in the arguments of a constructor that isn't declared.
fn unknown_in_constructor<'a>(
    index: &SortIndex<'a>,
    constructor: &'a Constructor,
) -> Option<&'a [u8]>
    ensures { option_map (λ name. name.now) result ≡ unknown_among (kinds_of_index index.now) (names_of_constructor constructor.now) }
{
    for field in &constructor.fields {
        if let Some(name) = unknown_in_sort(index, &field.sort) {
            return Some(name);
        }
    }
    None
}

/// The first name in the arguments of these constructors that isn't declared.
fn unknown_in_constructors<'a>(
    index: &SortIndex<'a>,
    constructors: &'a [Constructor],
) -> Option<&'a [u8]>
    ensures { option_map (λ name. name.now) result ≡ unknown_among (kinds_of_index index.now) (names_of_constructors constructors.now) }
{
    for constructor in constructors {
        if let Some(name) = unknown_in_constructor(index, constructor) {
            return Some(name);
        }
    }
    None
}

/// The name in the sort of these variables, where it isn't declared. Without variables there is no sort.
fn unknown_in_group<'a>(index: &SortIndex<'a>, group: &'a VarGroup) -> Option<&'a [u8]>
    ensures { option_map (λ name. name.now) result ≡ unknown_among (kinds_of_index index.now) (names_of_group group.now) }
{
    if group.names.as_slice().is_empty() {
        return None;
    }
    unknown_in_sort(index, &group.sort)
}

/// The first name in the sorts of these variables that isn't declared.
fn unknown_in_groups<'a>(index: &SortIndex<'a>, groups: &'a [VarGroup]) -> Option<&'a [u8]>
    ensures { option_map (λ name. name.now) result ≡ unknown_among (kinds_of_index index.now) (names_of_groups groups.now) }
{
    for group in groups {
        if let Some(name) = unknown_in_group(index, group) {
            return Some(name);
        }
    }
    None
}

/// The first name in the sorts of a process term's sum variables that isn't declared.
#[cycle(sums)]
fn unknown_in_process<'a>(index: &SortIndex<'a>, process: &'a ProcTree) -> Option<&'a [u8]>
    ensures { option_map (λ name. name.now) result ≡ unknown_among (kinds_of_index index.now) (names_of_sums (plain_process process.now)) }
{
    match process {
        ProcTree::Delta(_)
        | ProcTree::Action(_)
        | ProcTree::Multi(_, _)
        | ProcTree::Call(_, _, _) => None,
        ProcTree::Brackets(_, inner)
        | ProcTree::Allow(_, _, inner)
        | ProcTree::Block(_, _, inner)
        | ProcTree::Hide(_, _, inner)
        | ProcTree::Rename(_, _, inner)
        | ProcTree::Comm(_, _, inner)
        | ProcTree::When(_, _, inner) => unknown_in_process(index, inner),
        ProcTree::Sum(_, groups, inner) => match unknown_in_groups(index, groups.as_slice()) {
            Some(name) => Some(name),
            None => unknown_in_process(index, inner),
        },
        ProcTree::Either(_, _, then, other) => match unknown_in_process(index, then) {
            Some(name) => Some(name),
            None => unknown_in_process(index, other),
        },
        ProcTree::Sequence(_, parts)
        | ProcTree::Sync(_, parts)
        | ProcTree::Parallel(_, parts)
        | ProcTree::Choice(_, parts) => unknown_in_processes(index, parts.as_slice()),
        ProcTree::LeftMerge(_, first, second) => match unknown_in_process(index, first) {
            Some(name) => Some(name),
            None => unknown_in_process(index, second),
        },
    }
}

/// The first name in the sorts of these process terms' sum variables that isn't declared.
#[cycle(sums)]
fn unknown_in_processes<'a>(index: &SortIndex<'a>, processes: &'a [ProcTree]) -> Option<&'a [u8]>
    ensures { option_map (λ name. name.now) result ≡ unknown_among (kinds_of_index index.now) (names_of_all_sums (processes_of (map plain_process processes.now))) }
{
    for process in processes {
        if let Some(name) = unknown_in_process(index, process) {
            return Some(name);
        }
    }
    None
}

/// The name in a sort expression, where it has one.
pub(crate) fn tree_name<'a>(tree: &'a SortTree) -> Option<&'a [u8]>
    ensures { option_map (λ name. name.now) result ≡ leaf_of (bare_sort (plain_sort tree.now)) }
{
    match tree {
        SortTree::Bool(_) | SortTree::Pos(_) | SortTree::Nat(_) | SortTree::Int(_) => None,
        SortTree::Name(name) => Some(name.bytes.as_slice()),
        SortTree::List(_, inner) | SortTree::Brackets(_, inner) => tree_name(inner),
    }
}
