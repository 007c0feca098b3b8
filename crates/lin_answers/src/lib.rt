//! What a task answers: bytes, with the status that the program ends with once they are written. And how a walk is to go.
#![tactic(auto)]

mod answers;
mod plan;
mod status;
mod statuses;

pub use answers::Answer;
pub use plan::Plan;
pub use status::Status;
pub use statuses::status_with;
