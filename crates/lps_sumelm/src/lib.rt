//! Sums that an equality solves are removed from linear processes.
//!
//! What a solvable part is and what a solved summand is stands in `specs/`, and in plain words in
//! `docs/definitions/solving.md`.
#![tactic(auto)]

mod eliminating;
pub mod laws;
mod simplifying;
mod solutions;
mod solving;
mod variables;

pub use eliminating::eliminate;
pub use solutions::{Solution, first_solution};
