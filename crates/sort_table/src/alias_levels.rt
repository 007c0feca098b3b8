//! The order in which aliases get their sorts.

ghost use Rattle.std.specs.Prelude.{◌≡◌, ◌<◌, ℕ, length, IfOk, slice_index};
ghost use Rattle.sort_table.specs.IndexedKinds.{kinds_of_index};
ghost use Rattle.sort_table.specs.NamedSorts.{AreSoundKinds};
ghost use Rattle.sort_table.specs.DeclaringSorts.{AreLevels, AreByRank};

use crate::sort_cycles::{add_edge, alias_edges, no_edges};
use crate::sort_entries::SortIndex;
use data_theory::NoMemory;
use graphs::ranks;
use std::alloc::Global;

/// The places of the declared names in levels, so that what an alias uses stands in a level below.
///
/// # Errors
///
/// `NoMemory` where there is none for the graph.
pub(crate) fn alias_levels(alloc: Global, index: &SortIndex) -> Result<Vec<Vec<usize>>, NoMemory>
    requires { AreSoundKinds (kinds_of_index index.now) }
    ensures { IfOk result (λ levels. AreLevels (kinds_of_index index.now) levels.items) }
{
    let edges = alias_edges(alloc, index)?;
    let among = vec![in alloc; true; index.len()]?;
    let found = ranks(alloc, edges.as_slice(), among.as_slice())?;
    let Some(places) = found else {
        unreachable!();
    };
    by_rank(alloc, places.as_slice())
}

/// The places with each rank.
fn by_rank(alloc: Global, ranks: &[usize]) -> Result<Vec<Vec<usize>>, NoMemory>
    requires { (place : ℕ) → place < length ranks.now → slice_index ranks.now place < length ranks.now }
    ensures { IfOk result (λ levels. AreByRank ranks.now (length ranks.now) levels.items) }
{
    let mut levels = no_edges(alloc, ranks.len())?;
    for place in 0..ranks.len() {
        add_edge(&mut levels, ranks[place], place)?;
    }
    Ok(levels)
}
