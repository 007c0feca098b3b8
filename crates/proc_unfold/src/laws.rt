//! What is proved of unfolding. The functions do nothing: each contract is a law.

ghost use Rattle.proc_unfold.specs.Unfolding.{UnfoldingIsSame};

/// What a process term unfolds to is the same.
pub fn unfolding_is_same()
    ensures { UnfoldingIsSame }
{}
