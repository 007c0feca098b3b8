//! How a walk goes.

/// How a walk goes: the fuel of each term, the values of each sum, the number that it is picked from, and the steps that it takes at most.
#[derive(Clone, Copy, Debug, PartialEq, Eq)]
pub struct Plan {
    /// The uses of equations that a rewriting has.
    pub fuel: u64,
    /// The values that are tried of a sum.
    pub bound: u64,
    /// The number from which the walk is picked.
    pub seed: u64,
    /// The steps at most.
    pub depth: u64,
}
