//! The states of a text.

ghost use Rattle.std.specs.Prelude.{◌<◌, ◌≤◌, length, map, option_map, IfErr, IfOk, OnOk, OnSome};
ghost use Rattle.std.specs.Bool.{OnTrue};
ghost use Rattle.std.specs.List.{All, AllByRecursion};
ghost use Rattle.data_theory.specs.declared.ids.SortId.{SortId};
ghost use Rattle.data_theory.specs.declared.ids.TermId.{TermId};
ghost use Rattle.data_theory.specs.IdTerms.{IsTreeWithin};
ghost use Rattle.lps_core.specs.PlainLinears.{plain_next};
ghost use Rattle.mcrl2_syntax.specs.DataTrees.{plain_data};
ghost use Rattle.mcrl2_syntax.specs.TreeWords.{IsDataOfWords};
ghost use Rattle.term_pool.specs.Pools.{Extends};
ghost use Rattle.aut_check.specs.ReadSystems.{AddsState, AreReadStates, AreReadTerms, AreTermsOfLine, IsStatesFault};

use crate::line_parts::{is_end, is_plain, is_white};
use crate::reading::AutFault;
use data_theory::{NoMemory, Signature, SortId, TermId};
use lps_core::signature_stands;
use mcrl2_parser::{TermFault, parse_tuple};
use mcrl2_syntax::DataTree;
use sort_checker::elaborate_data;
use std::alloc::Global;
use term_pool::Pool;
use trace_replay::split_line;

/// The closed terms of these sorts that trees are, one for each, or nothing where they are none.
fn terms_of_trees(
    alloc: Global,
    sig: &Signature,
    pool: &mut Pool,
    sorts: &[SortId],
    trees: &[DataTree],
) -> Result<Option<Vec<TermId>>, NoMemory>
    requires trees { All (IsTreeWithin sig.now) pool.old.trees }
    requires sorts { All (λ (s : SortId). s.0 < length sig.now.sorts) sorts.now }
    requires words { AllByRecursion IsDataOfWords (map plain_data trees.now) }
    ensures kept { Extends pool.old.trees pool.new.trees }
    ensures trees { IfOk result (λ found. OnSome found (All (IsTreeWithin sig.now) pool.new.trees)) }
    ensures terms { IfOk result (λ found. AreReadTerms sig.now pool.new.trees sorts.now (map plain_data trees.now) (plain_next found)) }
{
    signature_stands(sig);
    if trees.len() != sorts.len() {
        return Ok(None);
    }
    let mut terms = Vec::new(alloc);
    for (place, tree) in trees.iter().enumerate() {
        match elaborate_data(alloc, tree, sig, pool, &[], sorts[place]) {
            Ok(term) => terms.push(term)?,
            Err(TermFault::NotATerm) => return Ok(None),
            Err(TermFault::NoMemory) => return Err(NoMemory),
        }
    }
    Ok(Some(terms))
}

/// The closed terms of these sorts that a line spells in brackets, or nothing where it spells none.
fn terms_of_line(
    alloc: Global,
    sig: &Signature,
    pool: &mut Pool,
    sorts: &[SortId],
    line: &[u8],
) -> Result<Option<Vec<TermId>>, NoMemory>
    requires trees { All (IsTreeWithin sig.now) pool.old.trees }
    requires sorts { All (λ (s : SortId). s.0 < length sig.now.sorts) sorts.now }
    ensures kept { Extends pool.old.trees pool.new.trees }
    ensures trees { IfOk result (λ found. OnSome found (All (IsTreeWithin sig.now) pool.new.trees)) }
    ensures terms { IfOk result (λ found. AreTermsOfLine sig.now pool.new.trees sorts.now line.now (plain_next found)) }
{
    match parse_tuple(alloc, line) {
        Ok(trees) => {
            let terms = terms_of_trees(alloc, sig, pool, sorts, trees.as_slice())?;
            Ok(terms)
        }
        Err(TermFault::NotATerm) => Ok(None),
        Err(TermFault::NoMemory) => Err(NoMemory),
    }
}

/// Puts the state of a line behind others, where the line isn't white. It tells whether the line is good.
fn add_state(
    alloc: Global,
    sig: &Signature,
    pool: &mut Pool,
    sorts: &[SortId],
    count: usize,
    line: &[u8],
    states: &mut Vec<Option<Vec<TermId>>>,
) -> Result<bool, NoMemory>
    requires trees { All (IsTreeWithin sig.now) pool.old.trees }
    requires sorts { All (λ (s : SortId). s.0 < length sig.now.sorts) sorts.now }
    requires few { length states.old.items ≤ count }
    ensures kept { Extends pool.old.trees pool.new.trees }
    ensures trees { IfOk result (λ good. OnTrue good (All (IsTreeWithin sig.now) pool.new.trees)) }
    ensures adds { IfOk result (AddsState sig.now pool.new.trees sorts.now count line.now (map plain_next states.old.items) (map plain_next states.new.items)) }
{
    if is_white(line) {
        return Ok(true);
    }
    if states.len() == count {
        return Ok(false);
    }
    if is_end(line) {
        states.push(None)?;
        return Ok(true);
    }
    if !is_plain(line) {
        return Ok(false);
    }
    let Some(terms) = terms_of_line(alloc, sig, pool, sorts, line)? else {
        return Ok(false);
    };
    states.push(Some(terms))?;
    Ok(true)
}

/// The states of a text, which are to be so many, each with its terms of these sorts, or with nothing for the state after termination.
///
/// # Errors
///
/// `BadStates` with the number of the first bad line, or the one behind the last line where a state is missing. `NoMemory` comes only where memory runs
/// out.
pub(crate) fn read_states(
    alloc: Global,
    sig: &Signature,
    pool: &mut Pool,
    sorts: &[SortId],
    count: usize,
    text: &[u8],
) -> Result<Vec<Option<Vec<TermId>>>, AutFault>
    requires trees { All (IsTreeWithin sig.now) pool.old.trees }
    requires sorts { All (λ (s : SortId). s.0 < length sig.now.sorts) sorts.now }
    ensures kept { Extends pool.old.trees pool.new.trees }
    ensures trees { OnOk result (All (IsTreeWithin sig.now) pool.new.trees) }
    ensures read { IfOk result (λ states. AreReadStates sig.now pool.new.trees sorts.now text.now count (map plain_next states.items)) }
    ensures fault { IfErr result (IsStatesFault sig.now sorts.now text.now count) }
{
    let mut states = Vec::new(alloc);
    let mut rest = text;
    let mut number = 1;
    while !rest.is_empty() {
        let (line, behind) = split_line(rest);
        if !add_state(alloc, sig, pool, sorts, count, line, &mut states)? {
            return Err(AutFault::BadStates(number));
        }
        rest = behind;
        number += 1;
    }
    if states.len() < count {
        return Err(AutFault::BadStates(number));
    }
    Ok(states)
}
