//! Which processes call which, and whether recursion is guarded.
//!
//! A process leads to another one where its body calls it before any action; in `p . q` only p counts, and of every other
//! operator all operands count. Recursion is guarded where no process that `init` reaches leads round to itself (Groote and
//! Mousavi, guarded recursion). The definitions stand in specs/.
#![tactic(auto)]

mod call_graphs;
mod calls;
mod checking;
mod cycle_names;

pub use call_graphs::{CallGraph, call_graph, has_declared_calls};
pub use calls::{Extent, calls_of_term};
pub use checking::{GuardFault, Guarded, check};
pub use cycle_names::names_of_cycle;
