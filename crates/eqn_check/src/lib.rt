//! A test that written equations are consistent.
#![tactic(auto)]

mod alike;
mod answers;
mod calls;
mod checking;
mod comparisons;
mod counting;
mod earlier;
mod edges;
pub mod examples;
mod exclusion;
mod falling;
mod filled;
pub mod laws;
mod linear;
mod patterns;
mod recursion;
mod roles;
mod signs;
mod variable_sets;

pub use answers::{Answer, Reason};
pub use checking::check;
pub use roles::Role;
