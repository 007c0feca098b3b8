//! The operators that filter the summands of a linear process by their labels: `allow`, `block`, `hide` and `rename`.
//!
//! What each keeps stands in `specs/`, and in plain words in `docs/definitions/operators.md`.
#![tactic(auto)]

mod filters;
mod indexes;
mod labels;
pub mod laws;

pub use filters::{allow, block, hide, rename};
pub use indexes::{add_names, is_in};
pub use labels::{is_among, names_of, take_one};
