//! A whole text from a shelf.
ghost use Rattle.std.specs.Prelude.{◌≡◌, ◌≤◌, ◌<◌, ◌+◌, ◌⊎◌, ℕ, Some, None, true, false, IfOk, OnOk, IfSome, IsErrOf, length, vec_len};
ghost use Rattle.mcrl2_text.specs.Calls.{EndsReading, OpensThen, ReadsOn};
ghost use Rattle.mcrl2_text.specs.Faults.{Rose};
ghost use Rattle.mcrl2_text.specs.declared.loading.LoadFault.TheVariants.{NoMemory};

use crate::{Failed, Shelf};
use std::alloc::{AllocError, Global};

/// The most bytes that a text may have.
pub const MAX_TEXT_LEN: usize = 16_777_216;

/// The length of the buffer that a read gets, where more bytes than that may still come.
const BUFFER_LEN: usize = 4_096;

/// Why a text wasn't loaded.
#[derive(Clone, Copy, Debug, PartialEq, Eq)]
pub enum LoadFault {
    /// The shelf failed to open the text or to read on.
    ReadFault,
    /// The text has more than [`MAX_TEXT_LEN`] bytes.
    TooLong,
    /// No memory was left for the text.
    NoMemory,
}

impl From<AllocError> for LoadFault {
    ghost from_gives = { λ _ fault. fault ≡ NoMemory };

    fn from(_: AllocError) -> Self {
        LoadFault::NoMemory
    }
}

/// The whole text under a name.
///
/// The text is opened, and then read until a read gives no bytes or one byte more than [`MAX_TEXT_LEN`] is there. Each
/// read gets a buffer of 4,096 bytes, or of as many bytes as are missing to that number where these are fewer. No call
/// follows the end of the text or a failed call.
///
/// # Errors
///
/// `ReadFault` where the shelf failed, and `TooLong` where it didn't and the text has more than [`MAX_TEXT_LEN`] bytes.
pub fn load<H: Shelf>(alloc: Global, shelf: &mut H, name: &str) -> Result<Vec<u8>, LoadFault>
    ensures whole { IfOk result (λ bytes. IfSome (H.text_of shelf.old name.now) (λ text. bytes.items ≡ text)) }
    ensures short { IfOk result (λ bytes. vec_len bytes ≤ MAX_TEXT_LEN) }
    ensures too_long { IsErrOf result LoadFault.TooLong → IfSome (H.text_of shelf.old name.now) (λ text. MAX_TEXT_LEN < length text) }
    ensures read_fault { IsErrOf result LoadFault.ReadFault → Rose (H.faults shelf.old) (H.faults shelf.new) }

    // Which calls were made: up to the end, up to too many bytes, up to the failed one, or up to the want of memory.
    ensures ok_calls { OnOk result (OpensThen H.opens shelf.old name.now (λ opened.
        EndsReading H.reads opened (MAX_TEXT_LEN + 1) (Some 0) shelf.new)) }
    ensures too_long_calls { IsErrOf result LoadFault.TooLong → OpensThen H.opens shelf.old name.now (λ opened.
        ReadsOn H.reads opened (MAX_TEXT_LEN + 1) 0 shelf.new) }
    ensures read_fault_calls { IsErrOf result LoadFault.ReadFault → H.opens shelf.old name.now false shelf.new
        ⊎ OpensThen H.opens shelf.old name.now (λ opened. EndsReading H.reads opened (MAX_TEXT_LEN + 1) None shelf.new) }
    ensures no_memory_calls { IsErrOf result LoadFault.NoMemory → OpensThen H.opens shelf.old name.now (λ opened.
        (missing : ℕ) × ReadsOn H.reads opened (MAX_TEXT_LEN + 1) missing shelf.new) }

    ensures texts { H.text_of shelf.new ≡ H.text_of shelf.old }
    ensures faults { H.faults shelf.old ≤ H.faults shelf.new }
{
    if shelf.open(name).is_err() {
        return Err(LoadFault::ReadFault);
    }
    let mut text = Vec::new(alloc);
    let mut buffer = [0u8; BUFFER_LEN];
    let mut missing = MAX_TEXT_LEN + 1;
    while missing > 0 {
        let room = &mut buffer[..missing.min(BUFFER_LEN)];
        match shelf.read(room) {
            Err(Failed) => return Err(LoadFault::ReadFault),
            Ok(0) => return Ok(text),
            Ok(n) => {
                text.extend_from_slice(&room[..n])?;
                missing -= n;
            }
        }
    }
    Err(LoadFault::TooLong)
}
