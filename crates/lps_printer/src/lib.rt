//! The text of a linear process.
//!
//! The definitions stand in `specs/`, and in plain words in `docs/definitions/printing.md`. The functions of `laws` have empty
//! bodies: the contract of each is a law of these definitions, so that the crates above can cite it.
#![tactic(auto)]

mod added;
mod added_actions;
mod added_functions;
mod added_sections;
mod added_structs;
mod constants;
mod copied_data;
mod copied_declarations;
mod copied_parts;
mod copied_sections;
mod copied_tokens;
mod definitions;
mod forms;
mod labels;
pub mod laws;
mod needs;
mod next_terms;
mod numbers;
mod parts;
mod printing;
mod process_writer;
mod sorts;
mod summands;
mod tables;
mod term_writer;
mod terms;
mod tokens;
mod whole_texts;
mod wording;

pub use printing::print_label;
pub use whole_texts::print;
