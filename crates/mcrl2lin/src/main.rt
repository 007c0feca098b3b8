//! The program `mcrl2lin`: linearises an mCRL2 specification.
#![tactic(auto)]

mod real;

use lin_answers::Status;
use lin_run::run;
use mcrl2_text::write_all;
use real::{BehindName, FileShelf, Stream};
use std::env;
use std::io::{self, ErrorKind};
use std::process::ExitCode;

fn main(rt: HostRuntime) -> ExitCode {
    let alloc = rt.alloc();
    let mut shelf = FileShelf::new(&rt);
    let mut out = Stream::new(rt.stdout());
    let mut err = Stream::new(rt.stderr());
    let status = match words(&rt) {
        Ok(words) => run(alloc, &words, &mut shelf, &mut out, &mut err),
        Err(error) if error.kind() == ErrorKind::OutOfMemory => {
            let _ = write_all(&mut err, b"no memory\n");
            Status::NoMemory
        }
        // A word that is no text: then the words give no command, which `run` says.
        Err(_) => run(alloc, &Vec::new(alloc), &mut shelf, &mut out, &mut err),
    };
    ExitCode::from(status.number())
}

/// The words, with the program's own name in front. By which name it was started doesn't matter, since that may be no text.
fn words(rt: &HostRuntime) -> io::Result<Vec<String>> {
    let alloc = rt.alloc();
    let mut words = vec![in alloc; String::from_str(alloc, "mcrl2lin")?]?;
    for word in env::args(&(BehindName(rt), alloc))? {
        words.push(word)?;
    }
    Ok(words)
}
