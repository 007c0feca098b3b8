//! The summands of a product, in their order, before their conditions are joined.

ghost use Rattle.std.specs.Prelude.{◌≡◌, [], ◌∷◌, ◌++◌, map, flat_map, if◌then◌else◌, IfOk, OnOk};
ghost use Rattle.process_terms.specs.PlainProcesses.{plain_label};
ghost use Rattle.lps_core.specs.PlainLinears.{plain_next};
ghost use Rattle.summand_expander.specs.Drafts.{all_drafts, behind, beside, both_moves, ending_alone, going_alone, lone_drafts, next_of_both, placed, plain_draft, plain_move, plain_side};

use crate::sides::{Draft, Move, Side};
use data_theory::{NoMemory, TermId};
use process_terms::Label;
use std::alloc::Global;

/// Some terms and then others.
pub fn joined(alloc: Global, first: &[TermId], second: &[TermId]) -> Result<Vec<TermId>, NoMemory>
    ensures { IfOk result (λ all. all.items ≡ first.now ++ second.now) }
{
    let mut all = first.to_vec(alloc)?;
    all.extend_from_slice(second)?;
    Ok(all)
}

/// A side's own terms in front of those of the other side, or behind them.
fn in_place(
    alloc: Global,
    own_first: bool,
    own: &[TermId],
    others: &[TermId],
) -> Result<Vec<TermId>, NoMemory>
    ensures { IfOk result (λ all. all.items ≡ placed own_first own.now others.now) }
{
    if own_first {
        joined(alloc, own, others)
    } else {
        joined(alloc, others, own)
    }
}

/// What a side does, with some parts in front of its own.
fn drafted(
    alloc: Global,
    own: &[TermId],
    other: &[TermId],
    step: &Move,
    next: Option<Vec<TermId>>,
) -> Result<Draft, NoMemory>
    ensures { IfOk result (λ draft. plain_draft draft ≡ behind (own.now ++ other.now) (plain_move step.now) (plain_next next)) }
{
    let mut parts = joined(alloc, own, other)?;
    parts.extend_from_slice(step.parts.as_slice())?;
    Ok(Draft {
        sums: step.sums.to_vec(alloc)?,
        parts,
        label: step.label.copy(alloc)?,
        next,
    })
}

/// The part that the other side is running, where the one side ends.
fn part_of_other(alloc: Global, step: &Move, other: &Side) -> Result<Vec<TermId>, NoMemory>
    ensures { IfOk result (λ parts. parts.items ≡ beside (plain_move step.now) (plain_side other.now)) }
{
    if step.ends {
        Ok(other.running.to_vec(alloc)?)
    } else {
        Ok(Vec::new(alloc))
    }
}

/// One side alone, which goes on, or ends while the other side is running.
fn goes_alone(
    alloc: Global,
    own_first: bool,
    own: &Side,
    other: &Side,
    step: &Move,
) -> Result<Draft, NoMemory>
    ensures { IfOk result (λ draft. plain_draft draft ≡ going_alone own_first (plain_side own.now) (plain_side other.now) (plain_move step.now)) }
{
    let next = in_place(
        alloc,
        own_first,
        step.onward.as_slice(),
        other.columns.as_slice(),
    )?;
    let part = part_of_other(alloc, step, other)?;
    drafted(
        alloc,
        own.running.as_slice(),
        part.as_slice(),
        step,
        Some(next),
    )
}

/// Adds the draft of one side alone that ends when the other side has ended.
pub fn add_last(
    alloc: Global,
    own: &Side,
    other: &Side,
    step: &Move,
    drafts: &mut Vec<Draft>,
) -> Result<(), NoMemory>
    ensures { OnOk result (map plain_draft drafts.new.items ≡ map plain_draft drafts.old.items ++ ending_alone (plain_side own.now) (plain_side other.now) (plain_move step.now)) }
{
    if !step.ends {
        return Ok(());
    }
    let Some(flag) = other.flag else {
        return Ok(());
    };
    drafts.push(drafted(alloc, own.running.as_slice(), &[flag], step, None)?)?;
    Ok(())
}

/// Adds the drafts of one side alone.
pub fn add_alone(
    alloc: Global,
    own_first: bool,
    own: &Side,
    other: &Side,
    step: &Move,
    drafts: &mut Vec<Draft>,
) -> Result<(), NoMemory>
    ensures { OnOk result (map plain_draft drafts.new.items ≡ map plain_draft drafts.old.items ++ lone_drafts own_first (plain_side own.now) (plain_side other.now) (plain_move step.now)) }
{
    drafts.push(goes_alone(alloc, own_first, own, other, step)?)?;
    add_last(alloc, own, other, step, drafts)
}

/// Adds the drafts of all summands of one side alone.
fn add_all_alone(
    alloc: Global,
    own_first: bool,
    own: &Side,
    other: &Side,
    drafts: &mut Vec<Draft>,
) -> Result<(), NoMemory>
    ensures { OnOk result (map plain_draft drafts.new.items ≡ map plain_draft drafts.old.items ++ flat_map (lone_drafts own_first (plain_side own.now) (plain_side other.now)) (map plain_move own.now.moves.items)) }
{
    for step in &own.moves {
        add_alone(alloc, own_first, own, other, step, drafts)?;
    }
    Ok(())
}

/// The actions of one label and then those of another.
fn joined_labels(alloc: Global, first: &Label, second: &Label) -> Result<Label, NoMemory>
    ensures { IfOk result (λ label. plain_label label ≡ plain_label first.now ++ plain_label second.now) }
{
    let mut actions = first.copy(alloc)?.actions;
    for action in &second.actions {
        actions.push(action.copy(alloc)?)?;
    }
    Ok(Label { actions })
}

/// The columns after both sides have done a summand; none where both end.
fn next_of(alloc: Global, first: &Move, second: &Move) -> Result<Option<Vec<TermId>>, NoMemory>
    ensures { IfOk result (λ next. plain_next next ≡ next_of_both (plain_move first.now) (plain_move second.now)) }
{
    if first.ends && second.ends {
        return Ok(None);
    }
    let all = joined(alloc, first.onward.as_slice(), second.onward.as_slice())?;
    Ok(Some(all))
}

/// Both sides at once.
pub fn pair(
    alloc: Global,
    left: &Side,
    right: &Side,
    first: &Move,
    second: &Move,
) -> Result<Draft, NoMemory>
    ensures { IfOk result (λ draft. plain_draft draft ≡ both_moves (plain_side left.now) (plain_side right.now) (plain_move first.now) (plain_move second.now)) }
{
    let mut sums = first.sums.to_vec(alloc)?;
    sums.extend_from_slice(second.sums.as_slice())?;
    let mut parts = joined(alloc, left.running.as_slice(), right.running.as_slice())?;
    parts.extend_from_slice(first.parts.as_slice())?;
    parts.extend_from_slice(second.parts.as_slice())?;
    Ok(Draft {
        sums,
        parts,
        label: joined_labels(alloc, &first.label, &second.label)?,
        next: next_of(alloc, first, second)?,
    })
}

/// Adds the drafts of one left summand with each right one.
fn add_pairs_of(
    alloc: Global,
    left: &Side,
    right: &Side,
    first: &Move,
    drafts: &mut Vec<Draft>,
) -> Result<(), NoMemory>
    ensures { OnOk result (map plain_draft drafts.new.items ≡ map plain_draft drafts.old.items ++ map (both_moves (plain_side left.now) (plain_side right.now) (plain_move first.now)) (map plain_move right.now.moves.items)) }
{
    for second in &right.moves {
        drafts.push(pair(alloc, left, right, first, second)?)?;
    }
    Ok(())
}

/// Adds the drafts of all pairs, the left summand outer.
fn add_pairs(
    alloc: Global,
    left: &Side,
    right: &Side,
    drafts: &mut Vec<Draft>,
) -> Result<(), NoMemory>
    ensures { OnOk result (map plain_draft drafts.new.items ≡ map plain_draft drafts.old.items ++ flat_map (λ m. map (both_moves (plain_side left.now) (plain_side right.now) m) (map plain_move right.now.moves.items)) (map plain_move left.now.moves.items)) }
{
    for first in &left.moves {
        add_pairs_of(alloc, left, right, first, drafts)?;
    }
    Ok(())
}

/// The drafts of a product: the left summands alone, the right ones alone, and all pairs.
pub fn drafts_of(alloc: Global, left: &Side, right: &Side) -> Result<Vec<Draft>, NoMemory>
    ensures { IfOk result (λ drafts. map plain_draft drafts.items ≡ all_drafts (plain_side left.now) (plain_side right.now)) }
{
    let mut drafts = Vec::new(alloc);
    add_all_alone(alloc, true, left, right, &mut drafts)?;
    add_all_alone(alloc, false, right, left, &mut drafts)?;
    add_pairs(alloc, left, right, &mut drafts)?;
    Ok(drafts)
}
