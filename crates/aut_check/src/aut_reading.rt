//! The edges of an Aldebaran text.

ghost use Rattle.std.specs.Prelude.{◌≡◌, ◌<◌, ◌≤◌, ◌+◌, ◌^◌, length, map, option_map, IfErr, IfOk, OnOk, OnSome};
ghost use Rattle.std.specs.Bool.{OnTrue};
ghost use Rattle.std.specs.List.{All};
ghost use Rattle.data_theory.specs.IdTerms.{IsTreeWithin};
ghost use Rattle.term_pool.specs.Pools.{Extends};
ghost use Rattle.trace_replay.specs.Lines.{lines_of};
ghost use Rattle.aut_check.specs.LineParts.{counts_of};
ghost use Rattle.aut_check.specs.PlainSystems.{plain_edge};
ghost use Rattle.aut_check.specs.ReadSystems.{AddsEdge, AreReadEdges, HasHeader, IsAutFault, IsEdgesFault, IsHeaderFault, IsReadAut, IsReadEdge};

use crate::line_parts::{Counts, edge_text, header_of, is_white};
use crate::reading::AutFault;
use crate::systems::Edge;
use data_theory::{NoMemory, Signature};
use mcrl2_parser::LabelFault;
use std::alloc::Global;
use term_pool::Pool;
use trace_replay::{label_of_line, split_line};

/// The edge that a line tells, or nothing where the line is none between two of the states.
fn read_edge(
    alloc: Global,
    sig: &Signature,
    pool: &mut Pool,
    counts: Counts,
    line: &[u8],
) -> Result<Option<Edge>, NoMemory>
    requires { All (IsTreeWithin sig.now) pool.old.trees }
    ensures kept { Extends pool.old.trees pool.new.trees }
    ensures trees { IfOk result (λ found. OnSome found (All (IsTreeWithin sig.now) pool.new.trees)) }
    ensures edge { IfOk result (λ found. IsReadEdge sig.now pool.new.trees (counts_of counts) line.now (option_map plain_edge found)) }
{
    let Some((from, text, to)) = edge_text(line) else {
        return Ok(None);
    };
    if counts.states <= from || counts.states <= to {
        return Ok(None);
    }
    match label_of_line(alloc, sig, pool, text) {
        Ok(label) => Ok(Some(Edge { from, label, to })),
        Err(LabelFault::NotALabel) => Ok(None),
        Err(LabelFault::NoMemory) => Err(NoMemory),
    }
}

/// Puts the edge of a line behind others, where the line isn't white. It tells whether the line is good.
fn add_edge(
    alloc: Global,
    sig: &Signature,
    pool: &mut Pool,
    counts: Counts,
    line: &[u8],
    edges: &mut Vec<Edge>,
) -> Result<bool, NoMemory>
    requires trees { All (IsTreeWithin sig.now) pool.old.trees }
    requires few { length edges.old.items ≤ counts.edges }
    ensures kept { Extends pool.old.trees pool.new.trees }
    ensures trees { IfOk result (λ good. OnTrue good (All (IsTreeWithin sig.now) pool.new.trees)) }
    ensures adds { IfOk result (AddsEdge sig.now pool.new.trees (counts_of counts) line.now (map plain_edge edges.old.items) (map plain_edge edges.new.items)) }
{
    if is_white(line) {
        return Ok(true);
    }
    if edges.len() == counts.edges {
        return Ok(false);
    }
    let Some(edge) = read_edge(alloc, sig, pool, counts, line)? else {
        return Ok(false);
    };
    edges.push(edge)?;
    Ok(true)
}

/// The edges of lines, of which the first one has this number.
fn read_edges(
    alloc: Global,
    sig: &Signature,
    pool: &mut Pool,
    counts: Counts,
    first: usize,
    text: &[u8],
) -> Result<Vec<Edge>, AutFault>
    requires trees { All (IsTreeWithin sig.now) pool.old.trees }
    requires numbers { first + length text.now < 2 ^ 64 }
    ensures kept { Extends pool.old.trees pool.new.trees }
    ensures trees { OnOk result (All (IsTreeWithin sig.now) pool.new.trees) }
    ensures read { IfOk result (λ edges. AreReadEdges sig.now pool.new.trees (counts_of counts) (lines_of text.now) (map plain_edge edges.items)) }
    ensures fault { IfErr result (IsEdgesFault sig.now (counts_of counts) first (lines_of text.now)) }
{
    let mut edges = Vec::new(alloc);
    let mut rest = text;
    let mut number = first;
    while !rest.is_empty() {
        let (line, behind) = split_line(rest);
        if !add_edge(alloc, sig, pool, counts, line, &mut edges)? {
            return Err(AutFault::BadAut(number));
        }
        rest = behind;
        number += 1;
    }
    if edges.len() < counts.edges {
        return Err(AutFault::BadAut(number));
    }
    Ok(edges)
}

/// What the header of a text tells, the number of the line behind it, and the text from there on.
fn read_header(text: &[u8]) -> Result<(Counts, usize, &[u8]), AutFault>
    ensures header { IfOk result (λ found. HasHeader 1 (lines_of text.now) (counts_of found.0) found.1 (lines_of found.2.now)) }
    ensures numbers { IfOk result (λ found. found.1 + length found.2.now ≤ length text.now + 1) }
    ensures fault { IfErr result (IsHeaderFault (lines_of text.now)) }
{
    let mut rest = text;
    let mut number = 1;
    while !rest.is_empty() {
        let (line, behind) = split_line(rest);
        if !is_white(line) {
            return match header_of(line) {
                Some(counts) => Ok((counts, number + 1, behind)),
                None => Err(AutFault::BadAut(number)),
            };
        }
        rest = behind;
        number += 1;
    }
    Err(AutFault::BadAut(number))
}

/// What an Aldebaran text tells: its counts, and its edges.
///
/// # Errors
///
/// `BadAut` with the number of the first bad line, or the one behind the last line where the header or an edge is missing. `NoMemory` comes only where
/// memory runs out.
pub(crate) fn read_aut(
    alloc: Global,
    sig: &Signature,
    pool: &mut Pool,
    text: &[u8],
) -> Result<(Counts, Vec<Edge>), AutFault>
    requires { All (IsTreeWithin sig.now) pool.old.trees }
    ensures kept { Extends pool.old.trees pool.new.trees }
    ensures trees { OnOk result (All (IsTreeWithin sig.now) pool.new.trees) }
    ensures read { IfOk result (λ found. IsReadAut sig.now pool.new.trees text.now (counts_of found.0) (map plain_edge found.1.items)) }
    ensures fault { IfErr result (IsAutFault sig.now text.now) }
{
    let (counts, number, rest) = read_header(text)?;
    let edges = read_edges(alloc, sig, pool, counts, number, rest)?;
    Ok((counts, edges))
}
