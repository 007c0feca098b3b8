//! Parameters of a linear process that keep their initial terms are left out.
//!
//! What a constant set is stands in `specs/`, and in plain words in `docs/definitions/eliminations.md`.
#![tactic(auto)]

mod changing;
mod eliminating;
pub mod laws;
mod marking;
mod putting;
mod simplifying;

pub use eliminating::eliminate;
