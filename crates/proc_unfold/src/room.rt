//! Whether the stack has room for a network: whoever makes it, goes through it or gives it back goes down as deep as it nests, and it nests
//! deeper than any declaration, since each name on the way adds the nesting of its body. No clause speaks of this count: where
//! there is no room, there is no memory.

use crate::outside::Parallelism;
use data_theory::NoMemory;
use process_terms::{Model, Proc};
use std::alloc::Global;

/// How deep a network may nest, with the process terms in it: as deep as the tree of one declaration may.
const MAX_DEPTH: usize = 5_000;

/// Whether the network of a specification nests no deeper than the stack has room for. Linear in the specification's size, but for the
/// order of the ranks.
///
/// # Errors
///
/// `NoMemory` where there is none for the depths.
pub fn has_room(alloc: Global, model: &Model, found: &Parallelism) -> Result<bool, NoMemory> {
    let mut depths = vec![in alloc; 0; model.procs.len()]?;
    for (_, place) in by_rank(alloc, found)? {
        let depth = match model.procs.get(place) {
            Some(definition) => depth_of(&definition.body, depths.as_slice()),
            None => 0,
        };
        if let Some(slot) = depths.get_mut(place) {
            *slot = depth;
        }
    }
    Ok(depth_of(&model.init, depths.as_slice()) <= MAX_DEPTH)
}

/// The reached parallel processes, each behind its rank, from the least rank on.
fn by_rank(alloc: Global, found: &Parallelism) -> Result<Vec<(usize, usize)>, NoMemory> {
    let mut order = Vec::new(alloc);
    for (place, rank) in found.ranks.iter().enumerate() {
        if is_opened(found, place) {
            order.push((*rank, place))?;
        }
    }
    order.sort()?;
    Ok(order)
}

/// Whether calls of the process are opened.
fn is_opened(found: &Parallelism, place: usize) -> bool {
    let reached = found.reached.get(place).copied().unwrap_or(false);
    reached && found.parallel.get(place).copied().unwrap_or(false)
}

/// How deep a process term nests where calls nest as deep as these say.
#[cycle(depths)]
fn depth_of(process: &Proc, depths: &[usize]) -> usize {
    match process {
        Proc::Delta | Proc::Act(_) => 1,
        Proc::Call(callee, _) => depths.get(callee.0).copied().unwrap_or(0).max(1),
        Proc::Choice(parts) | Proc::Seq(parts) | Proc::Merge(parts) | Proc::Sync(parts) =>
            depth_of_parts(parts, depths),
        Proc::Cond(_, then, other) => depth_of(then, depths)
            .max(depth_of(other, depths))
            .saturating_add(1),
        Proc::LeftMerge(first, second) => depth_of(first, depths)
            .max(depth_of(second, depths))
            .saturating_add(1),
        Proc::Sum(_, part)
        | Proc::Allow(_, part)
        | Proc::Block(_, part)
        | Proc::Hide(_, part)
        | Proc::Rename(_, part)
        | Proc::Comm(_, part) => depth_of(part, depths).saturating_add(1),
    }
}

/// One more than how deep the deepest of these nests.
#[cycle(depths)]
fn depth_of_parts(parts: &[Proc], depths: &[usize]) -> usize {
    let mut depth: usize = 0;
    for part in parts {
        depth = depth.max(depth_of(part, depths));
    }
    depth.saturating_add(1)
}
