//! Cases of calls that no text of the finished program shows: for each line of `stdin` a line of `stdout`.
//!
//! A line that begins with `%` is a heading, and its own answer. One that begins with `tokens`, `left` or `places` and a blank asks about the text
//! behind it (see [`text_answers::answer`]), and any other one about a graph (see [`graph_answers::answer`]).
#![tactic(auto)]

mod data_forms;
mod graph_answers;
mod questions;
mod text_answers;

use std::alloc::{AllocError, Global};
use std::io::{self, Write};

/// The answer to a line.
fn answer(alloc: Global, line: &str) -> Result<Vec<u8>, AllocError> {
    match line.split_once(' ') {
        Some(("%", _)) => line.as_bytes().to_vec(alloc),
        Some((kind, text)) if matches!(kind, "tokens" | "left" | "places") => {
            text_answers::answer(alloc, kind, text)
        }
        _ => Ok(graph_answers::answer(alloc, line)?.into_bytes()),
    }
}

fn main(rt: HostRuntime) -> io::Result<()> {
    let mut out = rt.stdout();
    for line in rt.lines(rt.alloc()) {
        let mut answer = answer(rt.alloc(), line?.as_str())?;
        answer.push(b'\n')?;
        out.write_all(&answer)?;
    }
    Ok(())
}
