//! The linear process of any Greibach form: one parameter, a stack of calls.
//!
//! The encoding stands in `specs/`, and in plain words in `docs/definitions/linear.md`.
#![tactic(auto)]

mod encoding;
mod frames;
pub mod laws;
mod layouts;
mod linear;
mod symbols;

pub use linear::encode;
