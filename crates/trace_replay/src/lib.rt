//! Whether a linear process has the steps of a trace.
//!
//! What the lines of a trace are, which states they lead to and what the answers mean stands in `specs/`, and in plain words in
//! `docs/definitions/replaying.md`.
#![tactic(auto)]

mod blank;
mod deciding;
mod entering;
pub mod laws;
mod leading;
mod lines;
mod reading;
mod replaying;
mod states;
mod traces;
mod ways;

pub use deciding::{Answer, decide_all};
pub use entering::{enter_all, entered_label, numbers_in};
pub use lines::split_line;
pub use reading::{Line, label_of_line, read_trace};
pub use replaying::{ReplayFault, Verdict};
pub use traces::replay;
pub use ways::{add_term_equalities, sorts_of};
