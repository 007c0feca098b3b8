//! Terms by number.
//!
//! A [`Pool`] holds terms as nodes, and hands out an id for each: two ids are equal exactly where their trees are, so that a
//! subterm that stands in many terms is held once. The trees are those of the theory of data over the numbers of a
//! signature; `specs/` says which tree a node is.
#![tactic(auto)]

mod bindings;
pub mod first_value_laws;
mod first_values;
pub mod growth;
mod inhabited;
pub mod laws;
mod merging;
mod pool;
mod terms;
mod weight;

pub use bindings::bound_term;
pub use first_values::has_value;
pub use inhabited::inhabited_sorts;
pub use pool::Pool;
pub use terms::{Equation, Head, Node, Theory};
