//! Numbers and graphs from text.

ghost use Rattle.std.specs.Prelude.{◌≡◌, ◌<◌, ℕ, length, IfOk, Contains};

use std::alloc::{AllocError, Global};

/// The numbers of a text; other words are passed over.
pub fn numbers(alloc: Global, text: &str) -> Result<Vec<usize>, AllocError> {
    let mut numbers = Vec::new(alloc);
    for word in text.split_whitespace() {
        if let Ok(number) = word.parse::<usize>() {
            numbers.push(number)?;
        }
    }
    Ok(numbers)
}

/// Those of these numbers that are nodes.
pub fn nodes_below(alloc: Global, numbers: &[usize], count: usize) -> Result<Vec<usize>, AllocError>
    ensures { IfOk result (λ nodes. (a : ℕ) → Contains nodes.items a → a < count) }
{
    let mut nodes = Vec::new(alloc);
    for number in numbers {
        if *number >= count {
            continue;
        }
        nodes.push(*number)?;
    }
    Ok(nodes)
}

/// A mark for each node, set for those of these.
pub fn marks(alloc: Global, nodes: &[usize], count: usize) -> Result<Vec<bool>, AllocError>
    requires { (a : ℕ) → Contains nodes.now a → a < count }
    ensures { IfOk result (λ marks. length marks.items ≡ count) }
{
    let mut marks = vec![in alloc; false; count]?;
    for node in nodes {
        marks[*node] = true;
    }
    Ok(marks)
}

/// The graph of a text.
pub fn graph(alloc: Global, text: &str) -> Result<Vec<Vec<usize>>, AllocError> {
    if let Some((shape, count)) = text.trim().split_once(' ') {
        if let Ok(count) = count.parse::<usize>() {
            match shape {
                "chain" => return row(alloc, count, false),
                "ring" => return row(alloc, count, true),
                _ => {}
            }
        }
    }
    let mut edges = Vec::new(alloc);
    for part in text.split(';') {
        edges.push(numbers(alloc, part)?)?;
    }
    Ok(edges)
}

/// The graph in which each node leads to the next, and the last one to the first, if it is closed.
fn row(alloc: Global, count: usize, closed: bool) -> Result<Vec<Vec<usize>>, AllocError> {
    let mut edges = Vec::new(alloc);
    for node in 0..count {
        let next = if node < count - 1 {
            Some(node + 1)
        } else if closed {
            Some(0)
        } else {
            None
        };
        edges.push(next.into_iter().collect(alloc)?)?;
    }
    Ok(edges)
}
