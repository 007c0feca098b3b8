//! Answers on transition systems.

/// Whether a transition system is strongly bisimilar to a linear process, or the number of the state that was tried first of those that fail.
#[derive(Clone, Copy, Debug, PartialEq, Eq)]
pub enum AutVerdict {
    /// No state fails.
    Bisimilar,
    /// This state differs.
    Mismatch(usize),
    /// This state doesn't match, but what isn't decided could still make it match.
    Undecided(usize),
}

/// How one state comes out.
#[derive(Clone, Copy, Debug, PartialEq, Eq)]
pub(crate) enum StateVerdict {
    Good,
    Differs,
    Open,
}
