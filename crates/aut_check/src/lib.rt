//! A given labelled transition system against a linear process.
//!
//! What a file of edges and states says, when a move and an edge match and what the answers mean stands in `specs/`, and in plain words in
//! `docs/definitions/autcheck.md`.
#![tactic(auto)]

mod aut_reading;
mod comparing;
mod edges;
mod entering;
mod equal_terms;
mod labels;
pub mod laws;
mod line_parts;
mod matchings;
mod pairs;
mod reading;
mod state_reading;
mod systems;
mod tables;
mod verdicts;

pub use comparing::compare;
pub use reading::{AutFault, read_lts};
pub use systems::{Edge, Lts};
pub use verdicts::AutVerdict;
