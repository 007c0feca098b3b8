//! The bytes of words.

ghost use Rattle.std.specs.Prelude.{◌≡◌, ◌≤◌, IfOk, length};

use std::alloc::{AllocError, Global};
use std::marker::Model;

/// How many bytes a word holds in itself at most.
const ROOM: usize = 14;

/// Where the bytes of a word stand.
#[derive(Debug, Drop)]
enum Held {
    /// That many stand in front of the others.
    Inside(u8, [u8; 14]),
    /// They have a block of their own.
    Outside(Box<Vec<u8>>),
}

/// The bytes of a word. Up to fourteen of them take no memory of their own.
#[derive(Debug, Drop)]
pub struct WordBytes {
    held: Held,
}

impl Model for WordBytes {
    ghost use Rattle.mcrl2_syntax.specs.ByteLists.{Bytes};

    ghost Value = { Bytes };

    ghost use Rattle.mcrl2_syntax.specs.WordBytes.{held_bytes, IsHeld};

    ghost view = { λ b. record { items = held_bytes b.held } };

    ghost invariant = { λ b. IsHeld b.held };
}

impl WordBytes {
    /// A copy of these bytes.
    ///
    /// # Errors
    ///
    /// `AllocError` where there is no memory for more than fourteen bytes.
    pub fn new(alloc: Global, bytes: &[u8]) -> Result<WordBytes, AllocError>
        ensures { IfOk result (λ b. b.items ≡ bytes.now) }
    {
        if bytes.len() <= ROOM {
            return Ok(WordBytes::inside(bytes));
        }
        let bytes = bytes.to_vec(alloc)?;
        let block = Box::new(alloc, bytes)?;
        Ok(WordBytes {
            held: Held::Outside(block),
        })
    }

    // A copy of few bytes.
    fn inside(bytes: &[u8]) -> WordBytes
        requires { length bytes.now ≤ 14 }
        ensures { result.items ≡ bytes.now }
    {
        let mut room = [0; 14];
        let len = bytes.len();
        room[..len].copy_from_slice(bytes);
        WordBytes {
            held: Held::Inside(len as u8, room),
        }
    }

    /// The bytes. It takes no memory.
    pub fn as_slice(&self) -> &[u8]
        ensures value { result.now ≡ self.now.items }
        ensures len { length result.now ≡ length self.now.items }
    {
        match &self.held {
            Held::Inside(len, room) => &room[..*len as usize],
            Held::Outside(block) => block.as_slice(),
        }
    }
}
