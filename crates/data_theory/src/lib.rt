//! The theory of data.
//!
//! What the terms of a text are and when two closed terms are provably equal stands in `specs/`, and in plain words in
//! `docs/definitions/data.md`. The functions in the modules of this crate have empty bodies: the contract of each is a law of
//! that theory, so that the crates above can cite it. [`Names`] is the table of texts.
#![tactic(auto)]

mod actions;
pub mod booleans;
mod built_ins;
pub mod constructors;
mod declaring;
pub mod environments;
pub mod equality;
pub mod examples;
pub mod fuel;
mod functions;
pub mod growth;
mod ids;
mod keys;
pub mod meanings;
mod named_functions;
mod names;
mod no_memory;
mod num;
pub mod rewriting;
mod row_names;
mod rows;
mod signature;
mod sort_lists;
mod sort_names;
mod sort_table;
pub mod sorts;
mod structs;
mod table;
mod taken;
pub mod values;
mod words;

pub use actions::ActEntry;
pub use ids::{ActId, FunId, NameId, ProcId, SortId, TermId, VarId};
pub use names::Names;
pub use no_memory::NoMemory;
pub use num::Num;
pub use rows::Row;
pub use signature::{Signature, Variable};
pub use sort_table::SortKind;
pub use structs::ConDecl;
pub use table::rows_of;
pub use words::{ListWord, NumberWord, Word};
