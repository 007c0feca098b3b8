//! Why a specification has no network.

ghost use Rattle.std.specs.Prelude.{◌≡◌};

use data_theory::{NameId, NoMemory};
use std::alloc::AllocError;

/// Why a specification has no network.
#[derive(Debug, Drop)]
pub enum NetFault {
    /// These processes call one the next, and the last the first, and have or reach a parallel operator.
    ParallelRecursion(Vec<NameId>),
    /// In the declaration of this number, from 1, something parallel stands under `+`, `.`, `sum` or `->`.
    ParallelUnderSequential(usize),
    /// There is no memory.
    NoMemory,
}

impl From<NoMemory> for NetFault {
    ghost use Rattle.proc_unfold.specs.declared.faults.NetFault.TheVariants.{NoMemory};

    ghost from_gives = { λ _ fault. fault ≡ NoMemory };

    fn from(_: NoMemory) -> Self {
        NetFault::NoMemory
    }
}

impl From<AllocError> for NetFault {
    ghost use Rattle.proc_unfold.specs.declared.faults.NetFault.TheVariants.{NoMemory};

    ghost from_gives = { λ _ fault. fault ≡ NoMemory };

    fn from(_: AllocError) -> Self {
        NetFault::NoMemory
    }
}
