//! Communication around a linear process.
//!
//! What the ways of a label are stands in `specs/`, and in plain words in `docs/definitions/communication.md`.
#![tactic(auto)]

mod around;
mod conditions;
pub mod laws;
mod places;
mod plans;
mod rule_tables;
mod starts;
mod ways;

pub use around::communicate;
