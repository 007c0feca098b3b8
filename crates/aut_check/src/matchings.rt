//! Whether the rows of a square table get marked columns, each its own.

ghost use Rattle.std.specs.Prelude.{◌≡◌, ◌<◌, ◌≤◌, ◌+◌, ◌↔◌, ℕ, List, length, map, true, false, IfOk, IfSome, IfNone, IsTrue, OnOk};
ghost use Rattle.std.specs.List.{SwappedAt};
ghost use Rattle.aut_check.specs.Matchings.{column_of, mark_at, plain_trial, rows, AddsTrials, HasMatching, IsBegun, IsMarkedBelow, IsMoved, IsOrder, IsSquare, IsTrial};

use std::alloc::{AllocError, Global};

/// An order of the columns in which each row that was looked at has a marked column, but for one.
#[derive(Debug, Drop)]
struct Trial {
    order: Vec<usize>,
    loose: usize,
}

/// So many columns, in their order.
fn all_columns(alloc: Global, count: usize) -> Result<Vec<usize>, AllocError>
    ensures { IfOk result (λ columns. IsOrder count columns.items) }
{
    let mut columns = Vec::new(alloc);
    for column in 0..count {
        columns.push(column)?;
    }
    Ok(columns)
}

/// Whether a row has a mark in a column.
fn is_marked(marks: &[Vec<bool>], row: usize, column: usize) -> bool
    requires square { IsSquare (rows marks.now) }
    requires row { row < length marks.now }
    requires column { column < length marks.now }
    ensures { result ≡ mark_at (rows marks.now) row column }
{
    marks[row][column]
}

/// The first place from a row on whose column is marked in the loose row.
fn free_place(marks: &[Vec<bool>], order: &[usize], row: usize, loose: usize) -> Option<usize>
    requires square { IsSquare (rows marks.now) }
    requires order { IsOrder (length marks.now) order.now }
    requires loose { loose < length marks.now }
    ensures found { IfSome result (λ place. (row ≤ place) × (place < length marks.now) × (mark_at (rows marks.now) loose (column_of order.now place) ≡ true)) }
    ensures none { IfNone result ((place : ℕ) → row ≤ place → place < length marks.now → mark_at (rows marks.now) loose (column_of order.now place) ≡ false) }
{
    for place in row..order.len() {
        if is_marked(marks, loose, order[place]) {
            return Some(place);
        }
    }
    None
}

/// An order in which two columns are exchanged.
fn exchanged(
    alloc: Global,
    order: &[usize],
    one: usize,
    other: usize,
) -> Result<Vec<usize>, AllocError>
    requires one { one < length order.now }
    requires other { other < length order.now }
    ensures swapped { IfOk result (λ made. SwappedAt order.now made.items one other) }
    ensures long { IfOk result (λ made. length made.items ≡ length order.now) }
{
    let mut made = Vec::from_slice(alloc, order)?;
    made.swap(one, other);
    Ok(made)
}

/// Adds a trial for each row in front of this one that wasn't moved and whose column is marked in the loose row, which gets that column there.
fn add_trials(
    alloc: Global,
    marks: &[Vec<bool>],
    order: &[usize],
    row: usize,
    trial: &Trial,
    moved: &mut Vec<bool>,
    waiting: &mut Vec<Trial>,
) -> Result<(), AllocError>
    requires square { IsSquare (rows marks.now) }
    requires begun { IsBegun (rows marks.now) row order.now }
    requires many { length moved.old.items ≡ length marks.now }
    requires trial { IsTrial (rows marks.now) row order.now moved.old.items (plain_trial trial.now) }
    ensures { OnOk result (AddsTrials (rows marks.now) row order.now trial.now.loose row moved.old.items moved.new.items (map plain_trial waiting.old.items) (map plain_trial waiting.new.items)) }
{
    for place in 0..row {
        if moved[place] {
            continue;
        }
        if !is_marked(marks, trial.loose, order[place]) {
            continue;
        }
        moved[place] = true;
        let next = exchanged(alloc, trial.order.as_slice(), trial.loose, place)?;
        waiting.push(Trial {
            order: next,
            loose: place,
        })?;
    }
    Ok(())
}

/// The order in which the loose row gets the free column that stands at a place.
fn filled(alloc: Global, trial: &Trial, row: usize, place: usize) -> Result<Vec<usize>, AllocError>
    requires loose { trial.now.loose < length trial.now.order.items }
    requires place { place < length trial.now.order.items }
    ensures row { IfOk result (λ made. place ≡ row → made.items ≡ trial.now.order.items) }
    ensures other { IfOk result (λ made. (place ≡ row → ⊥) → SwappedAt trial.now.order.items made.items trial.now.loose place × (length made.items ≡ length trial.now.order.items)) }
{
    if place == row {
        return Vec::from_slice(alloc, trial.order.as_slice());
    }
    exchanged(alloc, trial.order.as_slice(), trial.loose, place)
}

/// An order in which the rows up to this one have marked columns, where those in front of it have in the given one.
fn with_row(
    alloc: Global,
    marks: &[Vec<bool>],
    order: &[usize],
    row: usize,
) -> Result<Option<Vec<usize>>, AllocError>
    requires square { IsSquare (rows marks.now) }
    requires begun { IsBegun (rows marks.now) row order.now }
    ensures found { IfOk result (λ r. IfSome r (λ next. IsOrder (length marks.now) next.items × IsMarkedBelow (rows marks.now) (row + 1) next.items)) }
    ensures none { IfOk result (λ r. IfNone r (HasMatching (rows marks.now) → ⊥)) }
{
    let mut moved = vec![in alloc; false; marks.len()]?;
    let mut waiting = Vec::new(alloc);
    moved[row] = true;
    waiting.push(Trial {
        order: Vec::from_slice(alloc, order)?,
        loose: row,
    })?;
    while let Some(trial) = waiting.pop() {
        if let Some(place) = free_place(marks, order, row, trial.loose) {
            let next = filled(alloc, &trial, row, place)?;
            return Ok(Some(next));
        }
        add_trials(alloc, marks, order, row, &trial, &mut moved, &mut waiting)?;
    }
    Ok(None)
}

/// Whether each row of a square table gets a marked column of its own.
///
/// # Errors
///
/// Want of memory.
pub(crate) fn has_matching(alloc: Global, marks: &[Vec<bool>]) -> Result<bool, AllocError>
    requires square { IsSquare (rows marks.now) }
    ensures { IfOk result (λ found. IsTrue found ↔ HasMatching (rows marks.now)) }
{
    let mut order = all_columns(alloc, marks.len())?;
    for row in 0..marks.len() {
        let Some(next) = with_row(alloc, marks, order.as_slice(), row)? else {
            return Ok(false);
        };
        order = next;
    }
    Ok(true)
}
