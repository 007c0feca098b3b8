//! Where bytes are written to.
ghost use Rattle.std.specs.Prelude.{◌≡◌, ◌≤◌, ◌<◌, ◌^◌, ◌++◌, List, ℕ, Option, Some, length, take, IfOk, OnErr, IfSome};
ghost use Rattle.std.specs.Result.{result_ok};
ghost use Rattle.mcrl2_text.specs.Faults.{Rose};

use crate::Failed;

/// What takes bytes, one piece after the other.
///
/// What a sink means are its ghost members. A sink that can't know what became of its bytes, as one over a stream, tells
/// none of them; it still counts its faults.
pub trait Sink {
    /// The bytes taken so far, where the sink tells them.
    ghost taken: { Self → Option (List ℕ) };

    /// How many faults the sink has counted. The count stays at 2^64 - 1 once it is there.
    ghost faults: { Self → ℕ };

    /// That a `write` of that piece leads from one state of the sink to the other: it took that many bytes, or none where
    /// it failed.
    ghost writes: { Self → List ℕ → Option ℕ → Self → Type 0 };

    /// Takes the first bytes of a piece, and says how many: at least one of a piece that isn't empty.
    ///
    /// # Errors
    ///
    /// `Failed` comes only where the sink counts a fault. The call has then taken nothing.
    fn write(&mut self, piece: &[u8]) -> Result<usize, Failed>
        ensures call { writes self.old piece.now (result_ok result) self.new }
        ensures within { IfOk result (λ n. n ≤ length piece.now) }
        ensures some { 0 < length piece.now → IfOk result (λ n. 0 < n) }
        ensures takes { IfOk result (λ n. IfSome (taken self.old) (λ before. taken self.new ≡ Some (before ++ take n piece.now))) }
        ensures nothing { OnErr result (IfSome (taken self.old) (λ before. taken self.new ≡ Some before)) }
        ensures faults { faults self.old ≤ faults self.new }
        ensures failed { OnErr result (Rose (faults self.old) (faults self.new)) };

    /// The count is a number of 64 bits.
    ghost bounded: { (s : Self) → faults s < 2 ^ 64 };
}
