//! Options and labels, as they are shown.

ghost use Rattle.std.specs.Prelude.{◌≡◌, ◌++◌, codes, map, IfOk, OnOk};
ghost use Rattle.std.specs.List.{All, flat_map};
ghost use Rattle.process_terms.specs.Meanings.{label_of};
ghost use Rattle.process_terms.specs.PlainProcesses.{plain_label};
ghost use Rattle.process_terms.specs.SignatureEntries.{entries_of};
ghost use Rattle.lps_core.specs.Fitting.{IsActionOf};
ghost use Rattle.lps_simulator.specs.OptionsInCode.{meant_move, plain_move, plain_options};
ghost use Rattle.lin_tasks.specs.Shown.{counts_line, cut_line, label_line, move_lines, open_line, options_text, CanBeShown};

use crate::decimals::push_number;
use data_theory::{NoMemory, Signature};
use lps_printer::print_label;
use lps_simulator::{Move, Open, Options};
use process_terms::Label;
use std::alloc::Global;
use term_pool::Pool;

/// The text of what a linear process can do: a line for each move, for each undecided and for each cut summand, and one that counts these.
pub fn options_text(
    alloc: Global,
    sig: &Signature,
    pool: &Pool,
    found: &Options,
) -> Result<Vec<u8>, NoMemory>
    requires { All (CanBeShown sig.now pool.now.trees) (plain_options found.now).moves }
    ensures { IfOk result (λ text. text.items ≡ options_text sig.now (map (meant_move sig.now pool.now.trees) (plain_options found.now).moves) found.now.undecided.items found.now.cut.items) }
{
    let mut text = Vec::new(alloc);
    push_moves(alloc, sig, pool, &found.moves, &mut text)?;
    push_undecided(&found.undecided, &mut text)?;
    push_cuts(&found.cut, &mut text)?;
    push_counts(
        found.moves.len(),
        found.undecided.len(),
        found.cut.len(),
        &mut text,
    )?;
    Ok(text)
}

/// Puts a label behind a text, on a line.
pub fn push_label(
    alloc: Global,
    sig: &Signature,
    pool: &Pool,
    label: &Label,
    text: &mut Vec<u8>,
) -> Result<(), NoMemory>
    requires { All (IsActionOf sig.now pool.now.trees) (plain_label label.now) }
    ensures { OnOk result (text.new.items ≡ text.old.items ++ label_line sig.now (label_of (entries_of sig.now pool.now.trees) (plain_label label.now))) }
{
    let shown = print_label(alloc, sig, pool, label)?;
    push_line(text, &shown)?;
    Ok(())
}

/// Puts bytes behind a text, as a line.
fn push_line(text: &mut Vec<u8>, line: &[u8]) -> Result<(), NoMemory>
    ensures { OnOk result (text.new.items ≡ text.old.items ++ line.now ++ codes "\n") }
{
    text.extend_from_slice(line)?;
    text.extend_from_slice(b"\n")?;
    Ok(())
}

/// Puts moves behind a text, each on a line with its number from 1.
fn push_moves(
    alloc: Global,
    sig: &Signature,
    pool: &Pool,
    moves: &[Move],
    text: &mut Vec<u8>,
) -> Result<(), NoMemory>
    requires { All (CanBeShown sig.now pool.now.trees) (map plain_move moves.now) }
    ensures { OnOk result (text.new.items ≡ text.old.items ++ move_lines sig.now 1 (map (meant_move sig.now pool.now.trees) (map plain_move moves.now))) }
{
    for (index, step) in moves.iter().enumerate() {
        push_number(text, index as u64 + 1)?;
        text.extend_from_slice(b" ")?;
        push_label(alloc, sig, pool, &step.label, text)?;
    }
    Ok(())
}

/// Puts undecided summands behind a text, each on a line with its reason.
fn push_undecided(undecided: &[Open], text: &mut Vec<u8>) -> Result<(), NoMemory>
    ensures { OnOk result (text.new.items ≡ text.old.items ++ flat_map open_line undecided.now) }
{
    for entry in undecided {
        push_open(*entry, text)?;
    }
    Ok(())
}

fn push_open(entry: Open, text: &mut Vec<u8>) -> Result<(), NoMemory>
    ensures { OnOk result (text.new.items ≡ text.old.items ++ open_line entry) }
{
    text.extend_from_slice(b"undecided ")?;
    push_number(text, entry.summand as u64)?;
    if entry.spent {
        text.extend_from_slice(b" spent\n")?;
    } else {
        text.extend_from_slice(b" stuck\n")?;
    }
    Ok(())
}

/// Puts summands that are cut behind a text, each on a line.
fn push_cuts(cut: &[usize], text: &mut Vec<u8>) -> Result<(), NoMemory>
    ensures { OnOk result (text.new.items ≡ text.old.items ++ flat_map cut_line cut.now) }
{
    for summand in cut {
        push_cut(*summand, text)?;
    }
    Ok(())
}

fn push_cut(summand: usize, text: &mut Vec<u8>) -> Result<(), NoMemory>
    ensures { OnOk result (text.new.items ≡ text.old.items ++ cut_line summand) }
{
    text.extend_from_slice(b"cut ")?;
    push_number(text, summand as u64)?;
    text.extend_from_slice(b"\n")?;
    Ok(())
}

/// Puts the line that counts behind a text.
fn push_counts(
    moves: usize,
    undecided: usize,
    cut: usize,
    text: &mut Vec<u8>,
) -> Result<(), NoMemory>
    ensures { OnOk result (text.new.items ≡ text.old.items ++ counts_line moves undecided cut) }
{
    text.extend_from_slice(b"moves ")?;
    push_number(text, moves as u64)?;
    text.extend_from_slice(b", undecided ")?;
    push_number(text, undecided as u64)?;
    text.extend_from_slice(b", cut ")?;
    push_number(text, cut as u64)?;
    text.extend_from_slice(b"\n")?;
    Ok(())
}
