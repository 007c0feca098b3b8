//! The linear process of a tail recursive Greibach form: a control number and shared columns.
//!
//! The encoding stands in `specs/`, and in plain words in `docs/definitions/linear.md`.
#![tactic(auto)]

mod encoding;
mod faults;
pub mod laws;
mod layouts;
mod linear;

pub use encoding::encode_equation;
pub use faults::EncodeFault;
pub use layouts::{Layout, add_all_kinds, lay_out};
pub use linear::encode;
