//! The labels of a trace.

ghost use Rattle.std.specs.Prelude.{map, option_map, IfOk, IfErr, IsErrOf, OnOk};
ghost use Rattle.std.specs.List.{All};
ghost use Rattle.data_theory.specs.IdTerms.{IsTreeWithin};
ghost use Rattle.process_terms.specs.Labels as labels;
ghost use Rattle.process_terms.specs.PlainProcesses.{plain_label};
ghost use Rattle.sort_checker.specs.Additions.{GoesOn};
ghost use Rattle.trace_replay.specs.ReadTraces.{IsReadLabel, IsReadLine, IsReadTrace, plain_line};
ghost use Rattle.trace_replay.specs.ReadingFaults.{IsLineFault, IsTraceFault};
ghost use Rattle.trace_replay.specs.Traces.{SpellsLabel};

use crate::blank::is_blank;
use crate::lines::split_line;
use crate::replaying::ReplayFault;
use data_theory::Signature;
use mcrl2_parser::{LabelFault, parse_label};
use process_terms::Label;
use sort_checker::elaborate_label;
use std::alloc::Global;
use term_pool::Pool;

/// A label with the number of its line, counted from 1.
#[derive(Debug, Drop)]
pub struct Line {
    pub number: usize,
    pub label: Label,
}

/// The label that a line spells, as [`parse_label`] and [`elaborate_label`] read it.
///
/// # Errors
///
/// `NotALabel` where the line spells no closed, typed label. `NoMemory` comes only where memory runs out.
pub fn label_of_line(
    alloc: Global,
    sig: &Signature,
    pool: &mut Pool,
    line: &[u8],
) -> Result<Label, LabelFault>
    requires { All (IsTreeWithin sig.now) pool.old.trees }
    ensures kept { GoesOn sig.now pool.old sig.now pool.new }
    ensures trees { OnOk result (All (IsTreeWithin sig.now) pool.new.trees) }
    ensures label { IfOk result (λ label. IsReadLabel sig.now pool.new.trees line.now (plain_label label)) }
    ensures not_a_label { IsErrOf result LabelFault.NotALabel → (m : labels.Label) → ¬ (SpellsLabel sig.now line.now m) }
{
    let tree = parse_label(alloc, line)?;
    elaborate_label(alloc, &tree, sig, pool)
}

/// The label of a line with its number, or none where the line is blank.
fn read_line(
    alloc: Global,
    sig: &Signature,
    pool: &mut Pool,
    line: &[u8],
    number: usize,
) -> Result<Option<Line>, ReplayFault>
    requires { All (IsTreeWithin sig.now) pool.old.trees }
    ensures kept { GoesOn sig.now pool.old sig.now pool.new }
    ensures trees { OnOk result (All (IsTreeWithin sig.now) pool.new.trees) }
    ensures read { IfOk result (λ found. IsReadLine sig.now pool.new.trees number line.now (option_map plain_line found)) }
    ensures fault { IfErr result (IsLineFault sig.now number line.now) }
{
    if is_blank(alloc, line)? {
        return Ok(None);
    }
    match label_of_line(alloc, sig, pool, line) {
        Ok(label) => Ok(Some(Line { number, label })),
        Err(LabelFault::NotALabel) => Err(ReplayFault::BadTrace(number)),
        Err(LabelFault::NoMemory) => Err(ReplayFault::NoMemory),
    }
}

/// The labels of a trace, each with the number of its line. Nothing is added to the signature, and the pool keeps every old entry.
///
/// # Errors
///
/// `BadTrace` with the number of the first line that isn't blank and spells no closed, typed label. `NoMemory` comes only where
/// memory runs out.
pub fn read_trace(
    alloc: Global,
    sig: &Signature,
    pool: &mut Pool,
    trace: &[u8],
) -> Result<Vec<Line>, ReplayFault>
    requires { All (IsTreeWithin sig.now) pool.old.trees }
    ensures kept { GoesOn sig.now pool.old sig.now pool.new }
    ensures trees { OnOk result (All (IsTreeWithin sig.now) pool.new.trees) }
    ensures read { IfOk result (λ lines. IsReadTrace sig.now pool.new.trees trace.now (map plain_line lines.items)) }
    ensures fault { IfErr result (IsTraceFault sig.now trace.now) }
{
    let mut lines = Vec::new(alloc);
    let mut rest = trace;
    let mut number = 1;
    while !rest.is_empty() {
        let (line, behind) = split_line(rest);
        if let Some(found) = read_line(alloc, sig, pool, line, number)? {
            lines.push(found)?;
        }
        rest = behind;
        number += 1;
    }
    Ok(lines)
}
