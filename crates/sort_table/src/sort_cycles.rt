//! The first cycle of sort definitions.

ghost use Rattle.std.specs.Prelude.{◌≡◌, ◌<◌, ◌∷◌, [], List, ℕ, length, map, MatchOption, IfOk, OnOk, Contains, slice_get, Some};
ghost use Rattle.graphs.specs.Graphs.{HasEdge};
ghost use Rattle.graphs.specs.Marking.{TurnsEdges};
ghost use Rattle.mcrl2_syntax.specs.SortTrees.{plain_sort};
ghost use Rattle.sort_table.specs.BareSorts.{bare_sort};
ghost use Rattle.sort_table.specs.BareDeclarations.{Declaration};
ghost use Rattle.sort_table.specs.SortMeanings.{kinds_in};
ghost use Rattle.sort_table.specs.DeclarationTrees.{declarations_of_text};
ghost use Rattle.sort_table.specs.SortCycles.{NoCycle, IsFirstCycle};
ghost use Rattle.sort_table.specs.SortIndexes.{kind_of};
ghost use Rattle.sort_table.specs.IndexedKinds.{kinds_of_index};
ghost use Rattle.sort_table.specs.AliasGraphs.{edge_through, edge_by, AddsDefinition, IsAliasGraph, AreNamesAt};

use crate::declaration_lists::declaration_list;
use crate::sort_entries::{Definition, SortIndex};
use crate::sort_indexes::sort_index;
use crate::unknown_sorts::tree_name;
use data_theory::NoMemory;
use graphs::first_cycle;
use mcrl2_syntax::{SortTree, Spec};
use std::alloc::Global;

/// The names of the first cycle of sort definitions through `=` and `List`: it begins at the name that is declared first, is
/// a shortest one from there, and of these the one whose next names are declared first.
///
/// # Errors
///
/// `NoMemory` where there is none for the graph.
pub fn sort_cycle<'a>(alloc: Global, spec: &'a Spec) -> Result<Option<Vec<&'a [u8]>>, NoMemory>
    ensures { IfOk result (λ found. MatchOption found (NoCycle (declarations_of_text spec.now)) (λ names. IsFirstCycle (declarations_of_text spec.now) (map (λ name. name.now) names.items))) }
{
    let declarations = declaration_list(alloc, spec)?;
    let index = sort_index(alloc, declarations.as_slice())?;
    first_sort_cycle(alloc, &index)
}

/// The names of the first cycle among these.
fn first_sort_cycle<'a>(
    alloc: Global,
    index: &SortIndex<'a>,
) -> Result<Option<Vec<&'a [u8]>>, NoMemory>
    ensures { (ds : List Declaration) → kinds_of_index index.now ≡ kinds_in ds → IfOk result (λ found. MatchOption found (NoCycle ds) (λ names. IsFirstCycle ds (map (λ name. name.now) names.items))) }
{
    let edges = alias_edges(alloc, index)?;
    let among = vec![in alloc; true; index.len()]?;
    let found = first_cycle(alloc, edges.as_slice(), among.as_slice())?;
    let Some(cycle) = found else {
        return Ok(None);
    };
    let names = names_at(alloc, index, cycle.as_slice())?;
    Ok(Some(names))
}

/// The names at these places.
fn names_at<'a>(
    alloc: Global,
    index: &SortIndex<'a>,
    places: &[usize],
) -> Result<Vec<&'a [u8]>, NoMemory>
    requires { (place : ℕ) → Contains places.now place → place < length (kinds_of_index index.now) }
    ensures { IfOk result (λ names. AreNamesAt (kinds_of_index index.now) places.now (map (λ name. name.now) names.items)) }
{
    let mut names = Vec::new(alloc);
    for place in places {
        let (name, _) = index.get(*place);
        names.push(name)?;
    }
    Ok(names)
}

/// The graph of aliases: from the first place of each name to those of the names that its definitions use.
pub(crate) fn alias_edges(alloc: Global, index: &SortIndex) -> Result<Vec<Vec<usize>>, NoMemory>
    ensures { IfOk result (λ edges. IsAliasGraph (kinds_of_index index.now) (kinds_of_index index.now) edges.items) }
{
    let mut edges = no_edges(alloc, index.len())?;
    for place in 0..index.len() {
        add_definition(&mut edges, index, place)?;
    }
    Ok(edges)
}

/// Adds the edge of the declaration at a place, where it has one.
fn add_definition(
    edges: &mut Vec<Vec<usize>>,
    index: &SortIndex,
    place: usize,
) -> Result<(), NoMemory>
    requires place { place < length (kinds_of_index index.now) }
    requires size { length edges.old.items ≡ length (kinds_of_index index.now) }
    ensures { OnOk result (AddsDefinition (kinds_of_index index.now) place edges.old.items edges.new.items) }
{
    let (name, definition) = index.get(place);
    match definition_edge(index, name, definition) {
        Some((from, to)) => add_edge(edges, from, to),
        None => Ok(()),
    }
}

/// A graph without edges.
pub(crate) fn no_edges(alloc: Global, nodes: usize) -> Result<Vec<Vec<usize>>, NoMemory>
    ensures size { IfOk result (λ edges. length edges.items ≡ nodes) }
    ensures none { IfOk result (λ edges. (a b : ℕ) → ¬ HasEdge edges.items a b) }
{
    let mut edges = Vec::new(alloc);
    for _ in 0..nodes {
        edges.push(Vec::new(alloc))?;
    }
    Ok(edges)
}

/// Adds an edge.
pub(crate) fn add_edge(edges: &mut Vec<Vec<usize>>, from: usize, to: usize) -> Result<(), NoMemory>
    requires { from < length edges.old.items }
    ensures { OnOk result (TurnsEdges edges.old.items to (from ∷ []) edges.new.items) }
{
    edges[from].push(to)?;
    Ok(())
}

/// The edge of a declaration of a name, where it is an alias of an expression with a declared name.
fn definition_edge<'a>(
    index: &SortIndex<'a>,
    name: &'a [u8],
    definition: Definition<'a>,
) -> Option<(usize, usize)>
    ensures { result ≡ edge_by (kinds_of_index index.now) name.now (kind_of definition.entry) }
{
    match definition {
        Definition::Alias(tree) => alias_edge(index, name, tree),
        Definition::Alone | Definition::Struct => None,
    }
}

/// The edge from the first place of a name to that of the name in an expression.
fn alias_edge<'a>(
    index: &SortIndex<'a>,
    name: &'a [u8],
    tree: &'a SortTree,
) -> Option<(usize, usize)>
    ensures { result ≡ edge_through (kinds_of_index index.now) name.now (bare_sort (plain_sort tree.now)) }
{
    let used = tree_name(tree)?;
    let from = index.find(name)?;
    let to = index.find(used)?;
    Some((from, to))
}
