//! Why there is nothing to write, and the line that says so.
#![tactic(auto)]

mod refusal;
mod stop;

pub use refusal::numbered;
pub use stop::Stop;
