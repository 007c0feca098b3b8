//! Greibach forms: the types, what a form means, and the form of a component.
#![tactic(auto)]

mod calls;
mod environments;
mod forms;
mod heads;
pub mod laws;
mod lists;
mod normal_forms;
mod numbers;
mod places;
mod reading;
mod renewing;
mod variables;

pub use forms::{Greibach, GreibachEquation, GreibachSummand};
pub use normal_forms::normal_form;
