//! A shelf and a sink that never fail.
ghost use Rattle.std.specs.Prelude.{◌≡◌, [], Some, None, true, drop, length, min, unwrap_or};
ghost use Rattle.std.proofs.Common.{lit<};
ghost use Rattle.mcrl2_text.specs.Texts.{text_at, text_named};

use crate::texts::{bytes_at, copy_next, place_of};
use crate::{Failed, MemText, Shelf, Sink};

/// A shelf over texts in memory that never fails. A name that it hasn't stands for the empty text.
#[derive(Drop)]
pub struct SteadyShelf {
    texts: Vec<MemText>,
    place: usize,
    at: usize,
}

impl SteadyShelf {
    /// A shelf with these texts, of which none is open. Of two texts with one name the first counts.
    pub fn new(texts: Vec<MemText>) -> SteadyShelf
        ensures texts { ⟦<SteadyShelf as Shelf>⟧.text_of result ≡ (λ name. Some (unwrap_or (text_named texts.items name) [])) }
        ensures rest { ⟦<SteadyShelf as Shelf>⟧.rest result ≡ Some [] }
    {
        let place = texts.len();
        SteadyShelf {
            texts,
            place,
            at: 0,
        }
    }
}

impl Shelf for SteadyShelf {
    ghost text_of = { λ s name. Some (unwrap_or (text_named s.texts.items name) []) };

    ghost rest = { λ s. Some (drop s.at (text_at s.texts.items s.place)) };

    ghost faults = { λ _. 0 };

    ghost opens = { λ _ _ opened _. opened ≡ true };

    ghost reads = { λ s room read _. read ≡ Some (min (length (drop s.at (text_at s.texts.items s.place))) room) };

    ghost bounded = { λ _. lit< tt };

    fn open(&mut self, name: &str) -> Result<(), Failed> {
        self.place = place_of(&self.texts, name).unwrap_or(self.texts.len());
        self.at = 0;
        Ok(())
    }

    fn read(&mut self, buf: &mut [u8]) -> Result<usize, Failed> {
        let most = buf.len();
        let n = copy_next(bytes_at(&self.texts, self.place), self.at, most, buf);
        self.at += n;
        Ok(n)
    }
}

/// A sink that takes each piece whole, keeps no byte and never fails.
#[derive(Clone, Copy, Debug)]
pub struct SteadySink;

impl SteadySink {
    /// The sink.
    pub fn new() -> SteadySink
        ensures { ⟦<SteadySink as Sink>⟧.faults result ≡ 0 }
    {
        SteadySink
    }
}

impl Sink for SteadySink {
    ghost taken = { λ _. None };

    ghost faults = { λ _. 0 };

    ghost writes = { λ _ piece wrote _. wrote ≡ Some (length piece) };

    ghost bounded = { λ _. lit< tt };

    fn write(&mut self, piece: &[u8]) -> Result<usize, Failed> {
        Ok(piece.len())
    }
}
