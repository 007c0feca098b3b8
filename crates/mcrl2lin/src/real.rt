//! Files and standard streams as a shelf and sinks, which count their faults and tell nothing of what they hold; and the words of the
//! command line.
ghost use Rattle.std.specs.Prelude.{◌≡◌, ◌<◌, ◌+◌, ◌-◌, ◌^◌, min, None};

use mcrl2_text::{Failed, Shelf, Sink};
use std::env::{Env, FillError};
use std::fs::{self, File};
use std::io::{Read, Write};

/// The files of the system, by their paths.
#[derive(Drop)]
pub struct FileShelf<'a> {
    rt: &'a HostRuntime,
    file: Option<File>,
    faults: u64,
    ghost counted: { faults < 2 ^ 64 },
}

impl<'a> FileShelf<'a> {
    /// The shelf, with no file open.
    pub fn new(rt: &'a HostRuntime) -> FileShelf<'a>
        ensures { result.faults ≡ 0 }
    {
        FileShelf {
            rt,
            file: None,
            faults: 0,
        }
    }
}

impl Shelf for FileShelf<'_> {
    ghost text_of = { λ _ _. None };

    ghost rest = { λ _. None };

    ghost faults = { λ s. s.faults };

    ghost opens = { λ _ _ _ _. Unit {0} };

    ghost reads = { λ _ _ _ _. Unit {0} };

    ghost bounded = { λ s. s.counted };

    fn open(&mut self, name: &str) -> Result<(), Failed> {
        let Ok(file) = fs::open(self.rt, name) else {
            return Err(count_fault(&mut self.faults));
        };
        self.file = Some(file);
        Ok(())
    }

    fn read(&mut self, buf: &mut [u8]) -> Result<usize, Failed> {
        let Some(file) = &mut self.file else {
            return Ok(0);
        };
        match file.read(buf) {
            Ok(n) => Ok(n),
            Err(_) => Err(count_fault(&mut self.faults)),
        }
    }
}

/// A standard stream. A write that takes nothing of a piece is a fault.
#[derive(Drop)]
pub struct Stream<W> {
    stream: W,
    faults: u64,
    ghost counted: { faults < 2 ^ 64 },
}

impl<W: Write> Stream<W> {
    /// The sink over a stream.
    pub fn new(stream: W) -> Stream<W>
        ensures { result.faults ≡ 0 }
    {
        Stream { stream, faults: 0 }
    }
}

impl<W: Write> Sink for Stream<W> {
    ghost taken = { λ _. None };

    ghost faults = { λ s. s.faults };

    ghost writes = { λ _ _ _ _. Unit {0} };

    ghost bounded = { λ s. s.counted };

    fn write(&mut self, piece: &[u8]) -> Result<usize, Failed> {
        match self.stream.write(piece) {
            Ok(n) if n > 0 || piece.is_empty() => Ok(n),
            _ => Err(count_fault(&mut self.faults)),
        }
    }
}

fn count_fault(faults: &mut u64) -> Failed
    ensures { faults.new ≡ min (faults.old + 1) (2 ^ 64 - 1) }
{
    *faults = faults.saturating_add(1);
    Failed
}

/// The system's words and variables, but for the first word, which is the program's own name.
#[derive(Drop)]
pub struct BehindName<'a>(pub &'a HostRuntime);

impl Env for BehindName<'_> {
    fn arg(&self, i: usize, buf: &mut [u8]) -> Result<usize, FillError> {
        match i.checked_add(1) {
            Some(behind) => self.0.arg(behind, buf),
            None => Err(FillError::NotPresent),
        }
    }

    fn var(&self, name: &str, buf: &mut [u8]) -> Result<usize, FillError> {
        self.0.var(name, buf)
    }

    fn var_at(&self, i: usize, buf: &mut [u8]) -> Result<usize, FillError> {
        self.0.var_at(i, buf)
    }
}
