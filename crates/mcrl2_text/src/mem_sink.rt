//! A sink in memory, whose calls fail by a plan.
ghost use Rattle.std.specs.Prelude.{◌≡◌, ◌<◌, ◌^◌, [], Some, IfOk, length};
ghost use Rattle.mcrl2_text.specs.Plans.{WritesByPlan};

use crate::shelf::count_fault;
use crate::{Failed, NoMemory, Sink};
use std::alloc::Global;

/// A sink that keeps its bytes in memory. Calls are counted from 1, up to 2^64 - 1, and a call whose number is listed
/// fails; so does one that finds no memory. Each failed call is a fault.
#[derive(Drop)]
pub struct MemSink {
    bytes: Vec<u8>,
    write_fails: Vec<u64>,
    most: usize,
    writes: u64,
    faults: u64,
    ghost some: { 0 < most },
    ghost counted: { faults < 2 ^ 64 },
}

impl MemSink {
    ghost use Rattle.mcrl2_text.specs.MemoryPlans.{sink_plan};

    /// An empty sink with room for that many bytes: the calls with the listed numbers fail, and a write takes at most
    /// `most` bytes. A write within the room takes no memory.
    ///
    /// # Errors
    ///
    /// `NoMemory` where there is no memory for the room.
    pub fn new(
        alloc: Global,
        room: usize,
        write_fails: Vec<u64>,
        most: usize,
    ) -> Result<MemSink, NoMemory>
        requires { 0 < most }
        ensures taken { IfOk result (λ sink. ⟦<MemSink as Sink>⟧.taken sink ≡ Some []) }
        ensures faults { IfOk result (λ sink. ⟦<MemSink as Sink>⟧.faults sink ≡ 0) }
        ensures plan { IfOk result (λ sink. sink_plan sink ≡ record {
          write_fails = write_fails.items;
          most = most;
          room = room;
          writes = 0;
        }) }
    {
        let Ok(bytes) = Vec::with_capacity(alloc, room) else {
            return Err(NoMemory);
        };
        Ok(MemSink {
            bytes,
            write_fails,
            most,
            writes: 0,
            faults: 0,
        })
    }

    /// The bytes taken.
    pub fn bytes(&self) -> &[u8]
        ensures { ⟦<MemSink as Sink>⟧.taken self.now ≡ Some result.now }
    {
        &self.bytes
    }
}

impl Sink for MemSink {
    ghost use Rattle.mcrl2_text.specs.MemoryPlans.{sink_plan};

    ghost taken = { λ s. Some s.bytes.items };

    ghost faults = { λ s. s.faults };

    ghost writes = { λ s piece wrote t. WritesByPlan (sink_plan s) (length s.bytes.items) piece wrote (sink_plan t) };

    ghost bounded = { λ s. s.counted };

    fn write(&mut self, piece: &[u8]) -> Result<usize, Failed> {
        self.writes = self.writes.saturating_add(1);
        if self.write_fails.contains(&self.writes) {
            return Err(count_fault(&mut self.faults));
        }
        let n = piece.len().min(self.most);
        if self.bytes.extend_from_slice(&piece[..n]).is_err() {
            return Err(count_fault(&mut self.faults));
        }
        Ok(n)
    }
}
