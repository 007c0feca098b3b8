//! The edges of a transition system, state by state.

ghost use Rattle.std.specs.Prelude.{◌≡◌, ◌<◌, ℕ, Vec, [], get_or, length, IfOk};
ghost use Rattle.std.specs.List.{All};
ghost use Rattle.aut_check.specs.Comparing.{numbers_at, AreEdgesFrom};
ghost use Rattle.aut_check.specs.PlainSystems.{plain_system};

use crate::systems::Lts;
use std::alloc::{AllocError, Global};

/// So many empty lists.
fn empty_lists(alloc: Global, count: usize) -> Result<Vec<Vec<usize>>, AllocError>
    ensures size { IfOk result (λ lists. length lists.items ≡ count) }
    ensures none { IfOk result (λ lists. (i : ℕ) → numbers_at lists.items i ≡ []) }
{
    let mut lists = Vec::new(alloc);
    for _ in 0..count {
        lists.push(Vec::new(alloc))?;
    }
    Ok(lists)
}

/// For each state the numbers of the edges from it.
pub(crate) fn edges_by_source(alloc: Global, lts: &Lts) -> Result<Vec<Vec<usize>>, AllocError>
    requires { All (λ e. e.from < length lts.now.states.items) (plain_system lts.now).edges }
    ensures long { IfOk result (λ found. length found.items ≡ length lts.now.states.items) }
    ensures edges { IfOk result (λ found. (i : ℕ) (d : Vec ℕ Global) → i < length found.items → AreEdgesFrom (plain_system lts.now) i (get_or found.items i d).items) }
{
    let mut found = empty_lists(alloc, lts.states.len())?;
    for (number, edge) in lts.edges.iter().enumerate() {
        found[edge.from].push(number)?;
    }
    Ok(found)
}
