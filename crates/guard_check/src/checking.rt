//! Whether recursion is guarded.

ghost use Rattle.std.specs.Prelude.{◌≡◌, IfOk, IfErr};
ghost use Rattle.process_terms.specs.PlainProcesses.{plain_model};
ghost use Rattle.guard_check.specs.Guards.{HasDeclaredCalls, HasRanks, IsGuardedModel};
ghost use Rattle.guard_check.specs.Faults.{IsGuardFaultOf};

use crate::call_graphs::call_graph;
use crate::calls::Extent;
use crate::cycle_names::names_of_cycle;
use data_theory::{NameId, NoMemory};
use graphs::{first_cycle, ranks};
use process_terms::Model;
use std::alloc::{AllocError, Global};

/// A specification whose recursion is guarded.
#[derive(Drop)]
pub struct Guarded<'a> {
    /// The specification.
    pub model: &'a Model,
    /// A number for each definition: each definition that `init` reaches leads only to ones with smaller numbers.
    pub ranks: Vec<usize>,
    ghost ranked: { HasRanks (plain_model model.now) ranks.items },
}

/// Why a specification isn't taken as guarded.
#[derive(Debug, Drop)]
pub enum GuardFault {
    /// These processes lead one to the next, and the last to the first.
    Unguarded(Vec<NameId>),
    /// There is no memory.
    NoMemory,
}

impl From<NoMemory> for GuardFault {
    ghost use Rattle.guard_check.specs.declared.checking.GuardFault.TheVariants.{NoMemory};

    ghost from_gives = { λ _ fault. fault ≡ NoMemory };

    fn from(_: NoMemory) -> Self {
        GuardFault::NoMemory
    }
}

impl From<AllocError> for GuardFault {
    ghost use Rattle.guard_check.specs.declared.checking.GuardFault.TheVariants.{NoMemory};

    ghost from_gives = { λ _ fault. fault ≡ NoMemory };

    fn from(_: AllocError) -> Self {
        GuardFault::NoMemory
    }
}

impl<'a> Guarded<'a> {
    /// The specification.
    pub fn model(&self) -> &'a Model
        ensures { result.now ≡ self.now.model.now }
    {
        self.model
    }
}

/// The specification with ranks, where its recursion is guarded. Linear in its size.
///
/// # Errors
///
/// `Unguarded` exactly where a process that `init` reaches leads round to itself, with the names of the first cycle: it
/// begins at the first definition that lies on one, is a shortest one from there, and of these the one whose next
/// definitions come first. `NoMemory` where there is none for the graph of calls.
pub fn check<'a>(alloc: Global, model: &'a Model) -> Result<Guarded<'a>, GuardFault>
    requires { HasDeclaredCalls (plain_model model.now) }
    ensures model { IfOk result (λ guarded. guarded.model.now ≡ model.now) }
    ensures guarded { IfOk result (λ _. IsGuardedModel (plain_model model.now)) }
    ensures unguarded { IfErr result (IsGuardFaultOf (plain_model model.now)) }
{
    let leading = call_graph(alloc, Extent::BeforeActions, model)?;
    let found = ranks(alloc, leading.edges.as_slice(), leading.reached.as_slice())?;
    if let Some(ranks) = found {
        return Ok(Guarded { model, ranks });
    }
    match first_cycle(alloc, leading.edges.as_slice(), leading.reached.as_slice())? {
        Some(cycle) => Err(GuardFault::Unguarded(names_of_cycle(
            alloc,
            model.procs.as_slice(),
            cycle.as_slice(),
        )?)),
        None => unreachable!(),
    }
}
