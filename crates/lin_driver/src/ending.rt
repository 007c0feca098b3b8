//! What becomes of the end of a process.

/// What becomes of the end of a process.
#[derive(Clone, Copy, Debug, PartialEq, Eq)]
pub enum Ending {
    /// It stays: a summand may terminate.
    End,
    /// An action `Terminate` comes behind it, so that no summand terminates. mCRL2's own tools say the end so.
    Terminate,
}
