//! Parameters of a linear process that nothing needs are left out.
//!
//! Which parameters are needed stands in `specs/`, and in plain words in `docs/definitions/eliminations.md`.
#![tactic(auto)]

mod keeping;
mod needed;
mod uses;

pub use keeping::{keep_marked, kept};
pub use needed::eliminate;
pub use uses::{marks_of, parameter_terms, use_graph};
