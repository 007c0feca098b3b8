//! Graphs made from graphs.

ghost use Rattle.std.specs.Prelude.{◌≡◌, ◌<◌, ◌↔◌, ℕ, length, IfOk, OnOk, Contains, IsTrue};
ghost use Rattle.graphs.specs.Graphs.{IsGraph, HasEdge, HasEdgeAmong, IsReversed};
ghost use Rattle.graphs.specs.Marking.{lead_below, list_below, KeepsAmong, KeepsMarked, TurnsEdges};

use std::alloc::{AllocError, Global};

/// Whether each successor is a node.
pub fn is_graph(edges: &[Vec<usize>]) -> bool
    ensures { IsTrue result ↔ IsGraph edges.now }
{
    all_below(edges, edges.len())
}

/// Whether these are nodes of the graph.
pub fn are_nodes(edges: &[Vec<usize>], nodes: &[usize]) -> bool
    ensures { IsTrue result ↔ ((a : ℕ) → Contains nodes.now a → a < length edges.now) }
{
    are_below(nodes, edges.len())
}

/// Whether all successors are below a number.
fn all_below(edges: &[Vec<usize>], count: usize) -> bool
    ensures { result ≡ lead_below count edges.now }
{
    edges
        .iter()
        .all(|successors| are_below(successors.as_slice(), count))
}

/// Whether these nodes are below a number.
fn are_below(nodes: &[usize], count: usize) -> bool
    ensures { result ≡ list_below count nodes.now }
{
    nodes.iter().all(|node| *node < count)
}

/// The edges between nodes that are among these.
pub fn edges_among(
    alloc: Global,
    edges: &[Vec<usize>],
    among: &[bool],
) -> Result<Vec<Vec<usize>>, AllocError>
    requires graph { IsGraph edges.now }
    requires among { length among.now ≡ length edges.now }
    ensures { IfOk result (λ kept. KeepsAmong edges.now among.now kept.items) }
{
    let mut kept = Vec::new(alloc);
    for node in 0..edges.len() {
        kept.push(successors_among(alloc, edges, among, node)?)?;
    }
    Ok(kept)
}

/// The successors of a node along edges between nodes that are among these.
fn successors_among(
    alloc: Global,
    edges: &[Vec<usize>],
    among: &[bool],
    node: usize,
) -> Result<Vec<usize>, AllocError>
    requires graph { IsGraph edges.now }
    requires among { length among.now ≡ length edges.now }
    requires node { node < length edges.now }
    ensures { IfOk result (λ kept. (b : ℕ) → Contains kept.items b ↔ HasEdgeAmong edges.now among.now node b) }
{
    if !among[node] {
        return Ok(Vec::new(alloc));
    }
    marked_nodes(alloc, edges[node].as_slice(), among)
}

/// Those of these nodes that are marked.
fn marked_nodes(alloc: Global, nodes: &[usize], marks: &[bool]) -> Result<Vec<usize>, AllocError>
    requires { (a : ℕ) → Contains nodes.now a → a < length marks.now }
    ensures { IfOk result (λ marked. KeepsMarked nodes.now marks.now marked.items) }
{
    let mut marked = Vec::new(alloc);
    for node in nodes {
        if marks[*node] {
            marked.push(*node)?;
        }
    }
    Ok(marked)
}

/// The graph with each edge turned round.
///
/// # Errors
///
/// Want of memory.
pub fn reversed(alloc: Global, edges: &[Vec<usize>]) -> Result<Vec<Vec<usize>>, AllocError>
    requires { IsGraph edges.now }
    ensures { IfOk result (λ back. IsReversed edges.now back.items) }
{
    let mut back = no_edges(alloc, edges.len())?;
    for node in 0..edges.len() {
        turn_edges(&mut back, node, edges[node].as_slice())?;
    }
    Ok(back)
}

/// A graph without edges.
fn no_edges(alloc: Global, nodes: usize) -> Result<Vec<Vec<usize>>, AllocError>
    ensures size { IfOk result (λ edges. length edges.items ≡ nodes) }
    ensures none { IfOk result (λ edges. (a b : ℕ) → ¬ HasEdge edges.items a b) }
{
    let mut edges = Vec::new(alloc);
    for _ in 0..nodes {
        edges.push(Vec::new(alloc))?;
    }
    Ok(edges)
}

/// Adds an edge to a node from each of these.
fn turn_edges(back: &mut Vec<Vec<usize>>, node: usize, from: &[usize]) -> Result<(), AllocError>
    requires { (a : ℕ) → Contains from.now a → a < length back.old.items }
    ensures { OnOk result (TurnsEdges back.old.items node from.now back.new.items) }
{
    for successor in from {
        back[*successor].push(node)?;
    }
    Ok(())
}
