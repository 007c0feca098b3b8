//! Numbers in code.
//!
//! [`NumOp`] lists the operations on numbers, [`NumberRules`] holds a closure that computes them, and [`exact`] is such a
//! closure. A `Num` holds magnitudes up to 2^128 - 1. The values of the operations are those of the theory of data, over
//! whole numbers of any size; `specs/` says how an answer speaks of such a value.
#![tactic(auto)]

pub mod laws;
mod magnitudes;
mod num_op;
// Public, so that a crate above can pass `exact` by its name.
pub mod operations;
mod rules;
mod signs;

pub use num_op::NumOp;
pub use operations::exact;
pub use rules::NumberRules;
pub use signs::{is_less, negated};
