//! The program over any shelf and sinks.
#![tactic(auto)]

mod holding;
mod leading;
mod replaying;
mod text_in_hand;
mod top;

pub use top::run;
