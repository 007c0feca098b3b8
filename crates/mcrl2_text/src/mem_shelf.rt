//! A shelf in memory, whose calls fail by a plan.
ghost use Rattle.std.specs.Prelude.{◌≡◌, ◌<◌, ◌^◌, [], Some, drop};
ghost use Rattle.mcrl2_text.specs.Plans.{OpensByPlan, ReadsByPlan};
ghost use Rattle.mcrl2_text.specs.Texts.{text_at, text_named};

use crate::shelf::count_fault;
use crate::texts::{bytes_at, copy_next, place_of};
use crate::{Failed, MemText, Shelf};

/// A shelf over texts in memory. Calls of each kind are counted from 1, up to 2^64 - 1, and a call whose number is listed
/// fails; so does the opening of a text that isn't there. Each failed call is a fault.
#[derive(Drop)]
pub struct MemShelf {
    texts: Vec<MemText>,
    open_fails: Vec<u64>,
    read_fails: Vec<u64>,
    most: usize,
    opens: u64,
    reads: u64,
    faults: u64,
    place: usize,
    at: usize,
    ghost some: { 0 < most },
    ghost counted: { faults < 2 ^ 64 },
}

impl MemShelf {
    ghost use Rattle.mcrl2_text.specs.MemoryPlans.{shelf_plan};

    /// A shelf with these texts, of which none is open: the calls with the listed numbers fail, and a read moves at most
    /// `most` bytes. Of two texts with one name the first counts.
    pub fn new(
        texts: Vec<MemText>,
        open_fails: Vec<u64>,
        read_fails: Vec<u64>,
        most: usize,
    ) -> MemShelf
        requires { 0 < most }
        ensures texts { ⟦<MemShelf as Shelf>⟧.text_of result ≡ text_named texts.items }
        ensures rest { ⟦<MemShelf as Shelf>⟧.rest result ≡ Some [] }
        ensures faults { ⟦<MemShelf as Shelf>⟧.faults result ≡ 0 }
        ensures plan { shelf_plan result ≡ record {
          open_fails = open_fails.items;
          read_fails = read_fails.items;
          most = most;
          opens = 0;
          reads = 0;
        } }
    {
        let place = texts.len();
        MemShelf {
            texts,
            open_fails,
            read_fails,
            most,
            opens: 0,
            reads: 0,
            faults: 0,
            place,
            at: 0,
        }
    }
}

impl Shelf for MemShelf {
    ghost use Rattle.mcrl2_text.specs.MemoryPlans.{shelf_plan};

    ghost text_of = { λ s name. text_named s.texts.items name };

    ghost rest = { λ s. Some (drop s.at (text_at s.texts.items s.place)) };

    ghost faults = { λ s. s.faults };

    ghost opens = { λ s name opened t. OpensByPlan (shelf_plan s) (text_named s.texts.items name) opened (shelf_plan t) };

    ghost reads = { λ s room read t. ReadsByPlan (shelf_plan s) (drop s.at (text_at s.texts.items s.place)) room read (shelf_plan t) };

    ghost bounded = { λ s. s.counted };

    fn open(&mut self, name: &str) -> Result<(), Failed> {
        self.opens = self.opens.saturating_add(1);
        if self.open_fails.contains(&self.opens) {
            return Err(count_fault(&mut self.faults));
        }
        let Some(place) = place_of(&self.texts, name) else {
            return Err(count_fault(&mut self.faults));
        };
        self.place = place;
        self.at = 0;
        Ok(())
    }

    fn read(&mut self, buf: &mut [u8]) -> Result<usize, Failed> {
        self.reads = self.reads.saturating_add(1);
        if self.read_fails.contains(&self.reads) {
            return Err(count_fault(&mut self.faults));
        }
        let n = copy_next(bytes_at(&self.texts, self.place), self.at, self.most, buf);
        self.at += n;
        Ok(n)
    }
}
