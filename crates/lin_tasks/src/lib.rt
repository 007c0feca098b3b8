//! The tasks that tell what a text's linear process can do: its first steps and those after chosen moves, a walk of it, its verdict on a trace, and
//! how large it is; whether a condition holds in all its states; and whether the text's equations are known to be consistent.
#![tactic(auto)]

mod decimals;
mod equating;
mod generating;
mod invariants;
mod option_texts;
mod state_texts;
mod stepping;
mod stepping_after;
mod verdicts;
mod walking;

pub use equating::equations;
pub use generating::counts;
pub use invariants::judgement_of_file;
pub use stepping::steps;
pub use stepping_after::steps_after_file;
pub use verdicts::verdict_on_file;
pub use walking::walk;
