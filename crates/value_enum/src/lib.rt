//! The first constructor values of a sort.
//!
//! A constructor value is a closed term of constructors and numerals. [`values`] lists the first ones of a sort by their weights, and says
//! whether the sort has others.
#![tactic(auto)]

mod constructors;
mod enumerating;
mod exhausting;
pub mod laws;
mod levels;
mod listed;
mod shapes;

pub use enumerating::values;
pub use listed::Values;
