//! The first cycle of a graph.

ghost use Rattle.std.specs.Prelude.{◌≡◌, ◌<◌, ◌≤◌, ◌⊎◌, ℕ, List, [], ◌∷◌, length, IfOk, OnOk, MatchOption, MatchBool, Contains};
ghost use Rattle.graphs.specs.Graphs.{IsGraph, HasEdge, HasEdgeAmong, HasCycle, IsPath};
ghost use Rattle.graphs.specs.Cycles.{IsFirstCycle, IsFirstPath};
ghost use Rattle.graphs.specs.Distances.{IsAt, AreDistances, EdgeTurned, ReachesAll, ReachesLevel, IsNearest};

use crate::edges::{edges_among, reversed};
use crate::order::ranks;
use std::alloc::{AllocError, Global};

/// The first cycle over nodes among these, as the list of its nodes; `None` exactly where they have none.
///
/// It begins at the least node that lies on a cycle, is a shortest one from there, and of these the one whose next nodes
/// are least.
///
/// # Errors
///
/// Want of memory.
pub fn first_cycle(
    alloc: Global,
    edges: &[Vec<usize>],
    among: &[bool],
) -> Result<Option<Vec<usize>>, AllocError>
    requires graph { IsGraph edges.now }
    requires among { length among.now ≡ length edges.now }
    ensures { IfOk result (λ found. MatchOption found (¬ HasCycle (HasEdgeAmong edges.now among.now)) (λ cycle. IsFirstCycle (HasEdgeAmong edges.now among.now) cycle.items)) }
{
    if ranks(alloc, edges, among)?.is_some() {
        return Ok(None);
    }
    let kept = edges_among(alloc, edges, among)?;
    let back = reversed(alloc, kept.as_slice())?;
    for node in 0..kept.len() {
        let distances = distances_to(alloc, back.as_slice(), node)?;
        let found = cycle_through(alloc, kept.as_slice(), distances.as_slice(), node)?;
        if let Some(cycle) = found {
            return Ok(Some(cycle));
        }
    }
    Ok(None)
}

/// How many edges a shortest path from each node to this one has, given the edges turned round.
fn distances_to(
    alloc: Global,
    back: &[Vec<usize>],
    node: usize,
) -> Result<Vec<Option<usize>>, AllocError>
    requires graph { IsGraph back.now }
    requires node { node < length back.now }
    ensures size { IfOk result (λ distances. length distances.items ≡ length back.now) }
    ensures distances { IfOk result (λ distances. AreDistances (EdgeTurned back.now) node distances.items) }
{
    let mut distances = vec![in alloc; None; back.len()]?;
    distances[node] = Some(0);
    let mut level = Vec::new(alloc);
    level.push(node)?;
    let mut distance = 0;
    'levels: while !level.is_empty() {
        distance += 1;
        level = next_level(alloc, back, level.as_slice(), distance, &mut distances)?;
    }
    Ok(distances)
}

/// Gives this distance to the nodes before a level that have none, which are the next level.
fn next_level(
    alloc: Global,
    back: &[Vec<usize>],
    level: &[usize],
    distance: usize,
    distances: &mut Vec<Option<usize>>,
) -> Result<Vec<usize>, AllocError>
    requires graph { IsGraph back.now }
    requires level { (a : ℕ) → Contains level.now a → a < length back.now }
    requires size { length distances.old.items ≡ length back.now }
    ensures { IfOk result (λ next. ReachesLevel back.now level.now distance distances.old.items distances.new.items next.items) }
{
    let mut next = Vec::new(alloc);
    for node in level {
        reach_all(distances, &mut next, back[*node].as_slice(), distance)?;
    }
    Ok(next)
}

/// Gives this distance to those of these nodes that have none, and puts them behind the next ones.
fn reach_all(
    distances: &mut Vec<Option<usize>>,
    next: &mut Vec<usize>,
    nodes: &[usize],
    distance: usize,
) -> Result<(), AllocError>
    requires { (a : ℕ) → Contains nodes.now a → a < length distances.old.items }
    ensures { OnOk result (ReachesAll nodes.now distance distances.old.items next.old.items distances.new.items next.new.items) }
{
    for node in nodes {
        if distances[*node].is_none() {
            distances[*node] = Some(distance);
            next.push(*node)?;
        }
    }
    Ok(())
}

/// The least of these nodes that are nearest, with its distance.
fn nearest(nodes: &[usize], distances: &[Option<usize>]) -> Option<(usize, usize)>
    requires { (a : ℕ) → Contains nodes.now a → a < length distances.now }
    ensures { MatchOption result ((a d : ℕ) → Contains nodes.now a → ¬ IsAt distances.now a d) (λ found. IsNearest nodes.now distances.now found.1 found.0) }
{
    let mut found = None;
    for node in nodes {
        let Some(distance) = distances[*node] else {
            continue;
        };
        if is_nearer(found, distance, *node) {
            found = Some((distance, *node));
        }
    }
    found
}

/// Whether a node is nearer than the one found before, or as near and less.
fn is_nearer(found: Option<(usize, usize)>, distance: usize, node: usize) -> bool
    ensures { MatchBool result (MatchOption found (Unit {0}) (λ f. distance < f.0 ⊎ ((distance ≡ f.0) × (node < f.1)))) (MatchOption found ⊥ (λ f. f.0 < distance ⊎ ((f.0 ≡ distance) × (f.1 ≤ node)))) }
{
    match found {
        None => true,
        Some((least, first)) => distance < least || distance == least && node < first,
    }
}

/// The first of the shortest cycles through a node, given the distances to it.
fn cycle_through(
    alloc: Global,
    edges: &[Vec<usize>],
    distances: &[Option<usize>],
    node: usize,
) -> Result<Option<Vec<usize>>, AllocError>
    requires graph { IsGraph edges.now }
    requires node { node < length edges.now }
    requires size { length distances.now ≡ length edges.now }
    requires distances { AreDistances (HasEdge edges.now) node distances.now }
    ensures { IfOk result (λ found. MatchOption found ((xs : List ℕ) → ¬ IsPath (HasEdge edges.now) node xs node) (λ cycle. (xs : List ℕ) × (cycle.items ≡ node ∷ xs) × IsFirstPath (HasEdge edges.now) node xs node)) }
{
    let Some((mut left, mut current)) = nearest(edges[node].as_slice(), distances) else {
        return Ok(None);
    };
    let mut cycle = Vec::new(alloc);
    cycle.push(node)?;
    while current != node {
        cycle.push(current)?;
        let Some((less, next)) = nearest(edges[current].as_slice(), distances) else {
            unreachable!();
        };
        left = less;
        current = next;
    }
    Ok(Some(cycle))
}
