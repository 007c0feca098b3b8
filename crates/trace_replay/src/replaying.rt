//! Whether a linear process has the steps of a trace.

use data_theory::NoMemory;
use std::alloc::{AllocError, AllocFailed};

/// What a trace is to a linear process.
#[derive(Clone, Copy, Debug, PartialEq, Eq)]
pub enum Verdict {
    /// Some states are left behind the last label.
    Accepted,
    /// No state is left behind the line with this number, and nothing up to it was left open.
    Rejected(usize),
    /// No state is left behind the line with this number, and something up to it was left open.
    Undecided(usize),
}

/// Why a trace gets no verdict.
#[derive(Clone, Copy, Debug, PartialEq, Eq)]
pub enum ReplayFault {
    /// The line with this number is the first one that is neither blank nor a label.
    BadTrace(usize),
    /// No memory was left.
    NoMemory,
}

impl From<AllocError> for ReplayFault {
    ghost use Rattle.std.specs.Prelude.{◌≡◌};
    ghost use Rattle.trace_replay.specs.declared.replaying.ReplayFault.TheVariants.{NoMemory};

    ghost from_gives = { λ _ fault. fault ≡ NoMemory };

    fn from(_: AllocError) -> Self {
        ReplayFault::NoMemory
    }
}

impl<T: Drop> From<AllocFailed<T>> for ReplayFault {
    ghost use Rattle.std.specs.Prelude.{◌≡◌};
    ghost use Rattle.trace_replay.specs.declared.replaying.ReplayFault.TheVariants.{NoMemory};

    ghost from_gives = { λ _ fault. fault ≡ NoMemory };

    fn from(_: AllocFailed<T>) -> Self {
        ReplayFault::NoMemory
    }
}

impl From<NoMemory> for ReplayFault {
    ghost use Rattle.std.specs.Prelude.{◌≡◌};
    ghost use Rattle.trace_replay.specs.declared.replaying.ReplayFault.TheVariants as faults;

    ghost from_gives = { λ _ fault. fault ≡ faults.NoMemory };

    fn from(_: NoMemory) -> Self {
        ReplayFault::NoMemory
    }
}
