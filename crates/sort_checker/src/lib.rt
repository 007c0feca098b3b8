//! Elaboration: which theory and which process a specification stands for, and when it is ill typed.
//!
//! The definitions stand in `specs/`, and in plain words in `docs/definitions/elaboration.md`. The functions of `laws` have empty
//! bodies: the contract of each is a law of these definitions, so that the crates above can cite it. `elaborate` takes a whole text, and
//! `elaborate_label` and `elaborate_data` a label and a data term alone, over a signature to which they add nothing.
#![tactic(auto)]

mod action_tables;
mod argument_readings;
mod argument_terms;
mod assigned_terms;
mod binders;
mod chosen_actions;
mod closed_labels;
mod comm_shapes;
mod data_names;
mod definitions;
mod elaborating;
mod equation_elaborating;
mod form_trees;
mod free_variables;
mod known_names;
mod labels;
pub mod laws;
mod left_sides;
mod name_numbers;
mod parameter_tables;
mod process_elaborating;
mod process_tables;
mod renamings;
mod scope_names;
mod scoped_declarations;
mod sort_numbers;
mod sorted_actions;
mod stops;
mod table_building;
mod text_contexts;
mod type_faults;
mod typed_data;
mod typed_parts;
mod unknown_names;
mod untyped_parts;
mod variable_scopes;
mod variable_sorts;
mod wished_terms;
mod word_numbers;
mod written_equations;

pub use closed_labels::elaborate_label;
pub use comm_shapes::comm_shape;
pub use elaborating::{TypeFault, elaborate};
pub use free_variables::free_variable;
pub use left_sides::variable_left;
pub use renamings::renamed_twice;
pub use type_faults::{FoundFault, ill_typed};
pub use typed_data::elaborate_data;
pub use unknown_names::unknown_name;
pub use untyped_parts::untyped;
