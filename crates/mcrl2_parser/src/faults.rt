//! Why a text is refused.
ghost use Rattle.std.specs.Prelude.{◌≡◌};

use std::alloc::{AllocError, AllocFailed};

/// Why a list of tokens is no specification. Declarations are named by their numbers, counted from 1 over the whole text.
#[derive(Clone, Copy, Debug, PartialEq, Eq)]
pub enum ParseFault {
    /// The tokens of this declaration spell none.
    Syntax(usize),
    /// The level of this declaration passes [`MAX_LEVEL`](crate::MAX_LEVEL).
    TooDeep(usize),
    /// No declaration is in an `init` section.
    NoInit,
    /// This declaration is the second one in an `init` section.
    TwoInits(usize),
    /// No memory was left.
    NoMemory,
}

impl From<AllocError> for ParseFault {
    ghost use Rattle.mcrl2_parser.specs.declared.faults.ParseFault.TheVariants.{NoMemory};

    ghost from_gives = { λ _ fault. fault ≡ NoMemory };

    fn from(_: AllocError) -> Self {
        ParseFault::NoMemory
    }
}

impl<T: Drop> From<AllocFailed<T>> for ParseFault {
    ghost use Rattle.mcrl2_parser.specs.declared.faults.ParseFault.TheVariants.{NoMemory};

    ghost from_gives = { λ _ fault. fault ≡ NoMemory };

    fn from(_: AllocFailed<T>) -> Self {
        ParseFault::NoMemory
    }
}
