//! Lines without a label.

ghost use Rattle.std.specs.Prelude.{◌≡◌, ◌≢◌, ◌↔◌, IfOk, IsTrue, false};
ghost use Rattle.trace_replay.specs.BlankLines.{IsBlank};

use mcrl2_lexer::{LexFault, lex};
use std::alloc::{AllocError, Global};

/// That a line with a fault isn't blank.
fn faulty(fault: LexFault) -> Result<bool, AllocError>
    ensures { IfOk result (λ blank. (blank ≡ false) × (fault ≢ LexFault.NoMemory)) }
{
    match fault {
        LexFault::NoMemory => Err(AllocError),
        LexFault::BadByte(_) => Ok(false),
        LexFault::NumeralTooLarge(_) => Ok(false),
        LexFault::OutOfProfile(_) => Ok(false),
    }
}

/// Whether a line has no tokens.
pub(crate) fn is_blank(alloc: Global, line: &[u8]) -> Result<bool, AllocError>
    ensures { IfOk result (λ blank. IsTrue blank ↔ IsBlank line.now) }
{
    match lex(alloc, line) {
        Ok(tokens) => Ok(tokens.list().is_empty()),
        Err(fault) => faulty(fault),
    }
}
