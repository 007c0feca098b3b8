//! Parallelism outside recursion, and the network of a specification's parallel components.
//!
//! An operator is parallel where it is `||`, `allow`, `block`, `hide`, `rename` or `comm`. The definitions stand in specs/;
//! the functions of [`laws`] state what is proved of them.
#![tactic(auto)]

mod faults;
pub mod laws;
mod networks;
mod opening;
mod outside;
mod places;
mod putting;
mod room;
mod unfolding;

pub use faults::NetFault;
pub use networks::{NetOp, Network};
pub use outside::{Parallelism, outside_recursion};
pub use unfolding::unfold;
