//! Bytes in and out.
//!
//! A program reads its texts from a [`Shelf`] and writes to a [`Sink`]. Both count their faults, so that a contract can
//! say that a failed call is the shelf's or the sink's own fault, and both say which calls were made. [`load`] gives a
//! whole text, and [`write_all`] writes a whole piece. The shelves and sinks in memory are for tests and for callers that
//! have the bytes already.
#![tactic(auto)]

mod loading;
mod mem_shelf;
mod mem_sink;
mod shelf;
mod sink;
mod steady;
mod texts;
mod writing;

pub use loading::{LoadFault, MAX_TEXT_LEN, load};
pub use mem_shelf::MemShelf;
pub use mem_sink::MemSink;
pub use shelf::{Failed, Shelf};
pub use sink::Sink;
pub use steady::{SteadyShelf, SteadySink};
pub use texts::MemText;
pub use writing::write_all;

/// No memory was left.
#[derive(Clone, Copy, Debug, PartialEq, Eq)]
pub struct NoMemory;
