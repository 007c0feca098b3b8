//! Edges and states over one pool, entered into another.

ghost use Rattle.std.specs.Prelude.{◌≡◌, map, IfOk};
ghost use Rattle.std.specs.List.{All};
ghost use Rattle.lps_core.specs.PlainLinears.{plain_next};
ghost use Rattle.aut_check.specs.EnteredSystems.{entered_edge, entered_state, EdgeHasPlaces, StateHasPlaces};
ghost use Rattle.aut_check.specs.PlainSystems.{plain_edge};

use crate::systems::Edge;
use data_theory::{NoMemory, TermId};
use std::alloc::Global;
use trace_replay::{entered_label, numbers_in};

/// Edges over the numbers that stand at the places of their terms.
pub(crate) fn entered_edges(
    alloc: Global,
    ids: &[TermId],
    edges: &[Edge],
) -> Result<Vec<Edge>, NoMemory>
    requires { All (EdgeHasPlaces ids.now) (map plain_edge edges.now) }
    ensures { IfOk result (λ made. map plain_edge made.items ≡ map (entered_edge ids.now) (map plain_edge edges.now)) }
{
    let mut made = Vec::new(alloc);
    for edge in edges {
        made.push(Edge {
            from: edge.from,
            label: entered_label(alloc, ids, &edge.label)?,
            to: edge.to,
        })?;
    }
    Ok(made)
}

/// A state over these numbers.
fn entered_state(
    alloc: Global,
    ids: &[TermId],
    state: &Option<Vec<TermId>>,
) -> Result<Option<Vec<TermId>>, NoMemory>
    requires { StateHasPlaces ids.now (plain_next state.now) }
    ensures { IfOk result (λ made. plain_next made ≡ entered_state ids.now (plain_next state.now)) }
{
    match state {
        Some(terms) => Ok(Some(numbers_in(alloc, ids, terms.as_slice())?)),
        None => Ok(None),
    }
}

/// States over these numbers.
pub(crate) fn entered_states(
    alloc: Global,
    ids: &[TermId],
    states: &[Option<Vec<TermId>>],
) -> Result<Vec<Option<Vec<TermId>>>, NoMemory>
    requires { All (StateHasPlaces ids.now) (map plain_next states.now) }
    ensures { IfOk result (λ made. map plain_next made.items ≡ map (entered_state ids.now) (map plain_next states.now)) }
{
    let mut made = Vec::new(alloc);
    for state in states {
        made.push(entered_state(alloc, ids, state)?)?;
    }
    Ok(made)
}
