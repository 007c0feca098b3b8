//! Answers about graphs as text.

ghost use Rattle.std.specs.Prelude.{◌≡◌, ◌<◌, ℕ, length, Contains};
ghost use Rattle.graphs.specs.Graphs.{IsGraph};

use crate::questions::{graph, marks, nodes_below, numbers};
use graphs::{first_cycle, is_graph, ranks, reachable, reversed};
use std::alloc::{AllocError, Global};
use std::fmt::Write;

/// The answer to the question of a line: a word and numbers of nodes, a colon and a graph, as `cycle 0 1 2: 1; 2; 0 2`, which has the
/// successors of each node, with semicolons between them. `chain 5` is the graph in which each of five nodes leads to the next, and in
/// `ring 5` the last leads to the first as well.
pub fn answer(alloc: Global, line: &str) -> Result<String, AllocError> {
    let Some((asked, text)) = line.split_once(':') else {
        return format!(in alloc; "no question");
    };
    let edges = graph(alloc, text)?;
    let edges = edges.as_slice();
    if !is_graph(edges) {
        return format!(in alloc; "no graph");
    }
    let nodes = nodes_below(alloc, &numbers(alloc, asked)?, edges.len())?;
    match asked.split_whitespace().next() {
        Some(word) => graph_answer(alloc, word, edges, nodes.as_slice()),
        None => format!(in alloc; "no question"),
    }
}

/// The answer to the question of a word.
fn graph_answer(
    alloc: Global,
    word: &str,
    edges: &[Vec<usize>],
    nodes: &[usize],
) -> Result<String, AllocError>
    requires graph { IsGraph edges.now }
    requires nodes { (a : ℕ) → Contains nodes.now a → a < length edges.now }
{
    match word {
        "reach" => reach_answer(alloc, edges, nodes),
        "cycle" => cycle_answer(alloc, edges, nodes),
        "ranks" => ranks_answer(alloc, edges, nodes),
        "turn" => turn_answer(alloc, edges),
        _ => format!(in alloc; "no question"),
    }
}

/// The nodes that are reached from these.
fn reach_answer(alloc: Global, edges: &[Vec<usize>], nodes: &[usize]) -> Result<String, AllocError>
    requires graph { IsGraph edges.now }
    requires nodes { (a : ℕ) → Contains nodes.now a → a < length edges.now }
{
    let mut reached = Vec::new(alloc);
    for (node, mark) in reachable(alloc, edges, nodes)?.iter().enumerate() {
        if *mark {
            reached.push(node)?;
        }
    }
    listed(alloc, &reached)
}

/// The first cycle among these nodes.
fn cycle_answer(alloc: Global, edges: &[Vec<usize>], nodes: &[usize]) -> Result<String, AllocError>
    requires graph { IsGraph edges.now }
    requires nodes { (a : ℕ) → Contains nodes.now a → a < length edges.now }
{
    let among = marks(alloc, nodes, edges.len())?;
    match first_cycle(alloc, edges, &among)? {
        Some(cycle) => listed(alloc, &cycle),
        None => format!(in alloc; "no cycle"),
    }
}

/// The ranks along the edges among these nodes.
fn ranks_answer(alloc: Global, edges: &[Vec<usize>], nodes: &[usize]) -> Result<String, AllocError>
    requires graph { IsGraph edges.now }
    requires nodes { (a : ℕ) → Contains nodes.now a → a < length edges.now }
{
    let among = marks(alloc, nodes, edges.len())?;
    match ranks(alloc, edges, &among)? {
        Some(ranks) => listed(alloc, &ranks),
        None => format!(in alloc; "a cycle"),
    }
}

/// The graph turned round.
fn turn_answer(alloc: Global, edges: &[Vec<usize>]) -> Result<String, AllocError>
    requires { IsGraph edges.now }
{
    let mut text = String::new(alloc);
    for (node, successors) in reversed(alloc, edges)?.iter().enumerate() {
        if node > 0 {
            text.push_str("; ")?;
        }
        text.push_str(listed(alloc, successors)?.as_str())?;
    }
    Ok(text)
}

/// Numbers with blanks between them.
fn listed(alloc: Global, numbers: &[usize]) -> Result<String, AllocError> {
    let mut text = String::new(alloc);
    for (place, number) in numbers.iter().enumerate() {
        if place > 0 {
            text.push_str(" ")?;
        }
        text.push_str(format!(in alloc; "{number}")?.as_str())?;
    }
    Ok(text)
}
