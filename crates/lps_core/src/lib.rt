//! Linear processes in code, and what every pass over them stands on.
//!
//! What a linear process means and when it fits a pool and a signature stands in `specs/`, and in plain words in
//! `docs/definitions/linear.md`.
#![tactic(auto)]

mod conditions;
pub mod laws;
mod linears;
mod moving;
mod naming;
mod numbers;
mod sealing;

pub use conditions::{conjoined, parts_of};
pub use linears::{Linear, Summand};
pub use moving::{put_all, put_label, renaming, variable_term};
pub use naming::{
    add_variable_names, fresh_from, has_name, name_all, name_sums, put_next, signature_stands,
    used_names,
};
pub use numbers::{equals_number, numeral};
pub use sealing::seal;
