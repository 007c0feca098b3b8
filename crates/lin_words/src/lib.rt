//! What the words of the command line ask for: a task with its options, the name of a file, and that of a further one.
//!
//! The functions of [`laws`] have empty bodies: the contract of each is a law, so that the crates above can cite it.
#![tactic(auto)]

mod command;
mod command_line;
pub mod laws;
mod options;

pub use command::{Command, Task, command_of};
pub use options::Options;
