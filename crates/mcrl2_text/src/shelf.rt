//! Where texts are read from.
ghost use Rattle.std.specs.Prelude.{◌≡◌, ◌≤◌, ◌<◌, ◌^◌, ◌+◌, ◌-◌, min, Bool, List, ℕ, Option, length, is_ok, IfOk, OnOk, OnErr, IfSome};
ghost use Rattle.std.specs.Result.{result_ok};
ghost use Rattle.mcrl2_text.specs.Bytes.{ReadsNext};
ghost use Rattle.mcrl2_text.specs.Faults.{Rose};

/// A call failed: its shelf or sink has counted a fault.
#[derive(Clone, Copy, Debug, PartialEq, Eq)]
pub struct Failed;

/// Texts by name, of which one at a time is open and read from its first byte to its last.
///
/// What a shelf means are its ghost members. A shelf that can't know its texts, as one over files, tells none of them;
/// it still counts its faults.
pub trait Shelf {
    /// The text under each name, where the shelf tells it.
    ghost text_of: { Self → List ℕ → Option (List ℕ) };

    /// What is left to be read of the open text, where the shelf tells it.
    ghost rest: { Self → Option (List ℕ) };

    /// How many faults the shelf has counted. The count stays at 2^64 - 1 once it is there.
    ghost faults: { Self → ℕ };

    /// That an `open` of that name, which succeeded or not, leads from one state of the shelf to the other.
    ghost opens: { Self → List ℕ → Bool → Self → Type 0 };

    /// That a `read` into a buffer of that length leads from one state of the shelf to the other: it gave that many
    /// bytes, or none where it failed.
    ghost reads: { Self → ℕ → Option ℕ → Self → Type 0 };

    /// Opens the text under a name at its first byte.
    ///
    /// # Errors
    ///
    /// `Failed` comes only where the shelf counts a fault.
    fn open(&mut self, name: &str) -> Result<(), Failed>
        ensures call { opens self.old name.now (is_ok result) self.new }
        ensures rest { OnOk result (rest self.new ≡ text_of self.old name.now) }
        ensures texts { text_of self.new ≡ text_of self.old }
        ensures faults { faults self.old ≤ faults self.new }
        ensures failed { OnErr result (Rose (faults self.old) (faults self.new)) };

    /// Reads the next bytes of the open text into the front of `buf`, and says how many; 0 only at the end of the text.
    ///
    /// # Errors
    ///
    /// `Failed` comes only where the shelf counts a fault.
    fn read(&mut self, buf: &mut [u8]) -> Result<usize, Failed>
        requires { 0 < length buf.old }
        ensures call { reads self.old (length buf.old) (result_ok result) self.new }
        ensures within { IfOk result (λ n. n ≤ length buf.old) }
        ensures next { IfOk result (λ n. IfSome (rest self.old) (λ before. ReadsNext before (rest self.new) buf.new n)) }
        ensures texts { text_of self.new ≡ text_of self.old }
        ensures faults { faults self.old ≤ faults self.new }
        ensures failed { OnErr result (Rose (faults self.old) (faults self.new)) };

    /// The count is a number of 64 bits.
    ghost bounded: { (s : Self) → faults s < 2 ^ 64 };
}

/// Counts one more fault, for the call that failed by it.
pub(crate) fn count_fault(faults: &mut u64) -> Failed
    ensures { faults.new ≡ min (faults.old + 1) (2 ^ 64 - 1) }
{
    *faults = faults.saturating_add(1);
    Failed
}
