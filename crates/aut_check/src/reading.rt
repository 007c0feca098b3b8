//! The transition system that two texts tell.

ghost use Rattle.std.specs.Prelude.{IfErr, IfOk};
ghost use Rattle.std.specs.List.{All};
ghost use Rattle.lps_core.specs.Fitting.{IsVariable};
ghost use Rattle.lps_core.specs.PlainLinears.{plain_linear};
ghost use Rattle.term_pool.specs.Pools.{Extends};
ghost use Rattle.aut_check.specs.PlainSystems.{plain_system};
ghost use Rattle.aut_check.specs.ReadSystems.{IsReadSystem, IsSystemFault};

use crate::aut_reading::read_aut;
use crate::entering::{entered_edges, entered_states};
use crate::equal_terms::sorts_of_variables;
use crate::state_reading::read_states;
use crate::systems::Lts;
use data_theory::{NoMemory, Signature};
use lps_core::{Linear, signature_stands};
use std::alloc::{AllocError, Global};
use term_pool::Pool;
use trace_replay::enter_all;

/// Why two texts tell no transition system.
#[derive(Clone, Copy, Debug, PartialEq, Eq)]
pub enum AutFault {
    /// The line with this number is the first bad one of the Aldebaran text, or the one behind its last line, where the header or an edge is missing.
    BadAut(usize),
    /// The line with this number is the first bad one of the text of states, or the one behind its last line, where a state is missing.
    BadStates(usize),
    /// No memory was left.
    NoMemory,
}

impl From<AllocError> for AutFault {
    ghost use Rattle.std.specs.Prelude.{◌≡◌};
    ghost use Rattle.aut_check.specs.declared.reading.AutFault.TheVariants as faults;

    ghost from_gives = { λ _ fault. fault ≡ faults.NoMemory };

    fn from(_: AllocError) -> Self {
        AutFault::NoMemory
    }
}

impl From<NoMemory> for AutFault {
    ghost use Rattle.std.specs.Prelude.{◌≡◌};
    ghost use Rattle.aut_check.specs.declared.reading.AutFault.TheVariants as faults;

    ghost from_gives = { λ _ fault. fault ≡ faults.NoMemory };

    fn from(_: NoMemory) -> Self {
        AutFault::NoMemory
    }
}

/// The transition system that an Aldebaran text and a text of states tell, whose states have terms for the parameters of a linear process. Nothing is added
/// to the signature, and the pool keeps every old entry. The terms are read over a pool of their own, so that nothing is asked of the other one.
///
/// # Errors
///
/// `BadAut` and `BadStates` with the number of the first bad line. The Aldebaran text is read first, whole. `NoMemory` comes only where memory runs out.
pub fn read_lts(
    alloc: Global,
    aut: &[u8],
    states: &[u8],
    lin: &Linear,
    sig: &Signature,
    pool: &mut Pool,
) -> Result<Lts, AutFault>
    requires { All (IsVariable sig.now) (plain_linear lin.now).params }
    ensures kept { Extends pool.old.trees pool.new.trees }
    ensures read { IfOk result (λ lts. IsReadSystem sig.now pool.new.trees (plain_linear lin.now).params aut.now states.now (plain_system lts)) }
    ensures fault { IfErr result (IsSystemFault sig.now (plain_linear lin.now).params aut.now states.now) }
{
    signature_stands(sig);
    let sorts = sorts_of_variables(alloc, sig, lin.params.as_slice())?;
    let sorts = sorts.as_slice();
    let mut own = Pool::new(alloc)?;
    let (counts, edges) = read_aut(alloc, sig, &mut own, aut)?;
    let states = read_states(alloc, sig, &mut own, sorts, counts.states, states)?;
    let ids = enter_all(alloc, &own, pool)?;
    let ids = ids.as_slice();
    Ok(Lts {
        first: counts.first,
        edges: entered_edges(alloc, ids, edges.as_slice())?,
        states: entered_states(alloc, ids, states.as_slice())?,
    })
}
