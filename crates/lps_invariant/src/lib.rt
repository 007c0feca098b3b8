//! Whether a condition over the parameters of a linear process holds in all its states, and what is left without the summands
//! that never fire then.
//!
//! What has to be shown, and what may be assumed there, stands in `specs/`, and in plain words in
//! `docs/definitions/invariants.md`.
#![tactic(auto)]

mod deciding;
mod judging;
pub mod laws;
mod parts;
mod places;

pub use judging::{Judged, judge};
