//! Processes and their steps.
//!
//! [`Proc`] and its parts are process terms in code, whose terms, names and variables are numbers. The definitions stand in specs/.
#![tactic(auto)]

pub mod agreement;
mod comm_rules;
mod components;
mod definitions;
mod labels;
pub mod meanings;
mod processes;
pub mod worked_steps;

pub use comm_rules::{CommRule, CommSet};
pub use components::Component;
pub use definitions::{Model, ProcDef};
pub use labels::{Action, Label};
pub use processes::Proc;
