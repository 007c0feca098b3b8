//! What a linear process can do in a state, move by move.
//!
//! What the options of a state are stands in `specs/`, and in plain words in `docs/definitions/simulating.md`.
#![tactic(auto)]

pub mod combinations;
pub mod laws;
pub mod leading_parts;
mod options;
pub mod rewriting;
mod session;
pub mod sum_values;
mod walk;

pub use options::{Move, Open, Options, options_at};
pub use session::Session;
pub use walk::Walk;
