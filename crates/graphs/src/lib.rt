//! Graphs over numbered nodes: which nodes are reached, ranks along the edges, and the first cycle.
//!
//! A graph is a list of the successors of each node. A successor may stand twice, and a node may follow itself. All calls
//! take time linear in nodes and edges, but for [`first_cycle`] where there is a cycle, which is then at most quadratic.
#![tactic(auto)]

mod cycles;
mod edges;
mod order;
mod reach;

pub use cycles::first_cycle;
pub use edges::{are_nodes, is_graph, reversed};
pub use order::ranks;
pub use reach::reachable;
