//! The choices of a text.

ghost use Rattle.std.specs.Prelude.{◌≡◌, [], IfOk};
ghost use Rattle.trace_replay.specs.Lines.{lines_of};
ghost use Rattle.chosen_moves.specs.Choices.{HaveChoices, IsReadLine};

use crate::saying::{Said, said_by};
use data_theory::NoMemory;
use std::alloc::Global;
use trace_replay::split_line;

/// The number of a move, counted from 1, that a line of a text chooses, with the number of that line.
#[derive(Clone, Copy, Debug, PartialEq, Eq)]
pub struct Choice {
    pub line: usize,
    pub number: u128,
}

/// Puts the choice of a line behind others, where it has one. It tells whether the line says nothing but a choice.
fn read_line(
    alloc: Global,
    text: &[u8],
    line: usize,
    choices: &mut Vec<Choice>,
) -> Result<bool, NoMemory>
    ensures { IfOk result (IsReadLine text.now line choices.old.items choices.new.items) }
{
    match said_by(alloc, text)? {
        Said::Nothing => Ok(true),
        Said::Number(number) => {
            choices.push(Choice { line, number })?;
            Ok(true)
        }
        Said::Other => Ok(false),
    }
}

/// Lists the choices of a text, up to the first line that says something else. The answer is the number of that line, where there is one.
///
/// # Errors
///
/// `NoMemory` only.
pub(crate) fn read_choices(
    alloc: Global,
    text: &[u8],
    choices: &mut Vec<Choice>,
) -> Result<Option<usize>, NoMemory>
    requires { choices.old.items ≡ [] }
    ensures { IfOk result (HaveChoices 1 (lines_of text.now) choices.new.items) }
{
    let mut rest = text;
    let mut line = 1;
    while !rest.is_empty() {
        let (front, behind) = split_line(rest);
        if !read_line(alloc, front, line, choices)? {
            return Ok(Some(line));
        }
        rest = behind;
        line += 1;
    }
    Ok(None)
}
