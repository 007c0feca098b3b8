//! Moves of a linear process that the lines of a text choose.
//!
//! What the lines say, and which moves are taken, stands in `specs/`, and in plain words in `docs/definitions/choosing.md`.
#![tactic(auto)]

mod choices;
mod following;
mod saying;

pub use choices::Choice;
pub use following::{ChoiceFault, follow};
