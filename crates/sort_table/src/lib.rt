//! What the declarations of a specification declare: its sorts, functions and actions, and when they are refused.
//!
//! The definitions stand in `specs/`, and in plain words in `docs/definitions/vocabulary.md`. The functions of `laws` have empty
//! bodies: the contract of each is a law of these definitions, so that the crates above can cite it.
#![tactic(auto)]

mod action_declaring;
mod alias_levels;
mod building;
mod built_in_tests;
mod constructor_marks;
mod constructor_sorts;
mod declaration_lists;
mod domains;
mod duplicates;
mod empty_sorts;
mod entered_texts;
mod flat_sorts;
mod function_declaring;
mod identifiers;
mod item_entries;
pub mod laws;
mod own_names;
mod repeated_variables;
mod repeats;
mod sort_cycles;
mod sort_declaring;
mod sort_entries;
mod sort_indexes;
mod sort_reading;
mod sort_signatures;
mod sort_trees;
mod taken_texts;
mod text_signatures;
mod unknown_sorts;
mod written_sorts;

pub use building::{SortFault, build};
pub use duplicates::first_duplicate;
pub use empty_sorts::empty_sort;
pub use sort_cycles::sort_cycle;
pub use sort_signatures::sort_signature;
pub use unknown_sorts::unknown_sort;
