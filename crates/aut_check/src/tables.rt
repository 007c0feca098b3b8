//! What tables of answers say together.

ghost use Rattle.std.specs.Prelude.{◌≡◌, ◌↔◌, ◌<◌, ℕ, Bool, length, map, slice_index_or, IfOk, IsTrue};
ghost use Rattle.std.specs.List.{All, AllZip};
ghost use Rattle.trace_replay.specs.DecidedConditions.{answer_of};
ghost use Rattle.trace_replay.specs.Decidings.{fail};
ghost use Rattle.aut_check.specs.Matchings.{IsSquare, rows as mark_rows};
ghost use Rattle.aut_check.specs.Tables.{answers_of, better, both, column_answers, mark_of, marked, settled_verdict, tables_of, worse, IsBest, IsVerdictOn, IsWorst, TableComes};

use crate::matchings::has_matching;
use crate::verdicts::StateVerdict;
use std::alloc::{AllocError, Global};
use trace_replay::Answer;

/// How two parts come out that both have to hold.
pub(crate) fn both(one: Answer, other: Answer) -> Answer
    ensures { answer_of result ≡ both (answer_of one) (answer_of other) }
{
    match (one, other) {
        (Answer::Fail, _) => Answer::Fail,
        (_, Answer::Fail) => Answer::Fail,
        (Answer::Open, _) => Answer::Open,
        (_, Answer::Open) => Answer::Open,
        (Answer::Hold, Answer::Hold) => Answer::Hold,
    }
}

/// How two parts come out of which one has to hold.
fn better(one: Answer, other: Answer) -> Answer
    ensures { answer_of result ≡ better (answer_of one) (answer_of other) }
{
    match (one, other) {
        (Answer::Hold, _) => Answer::Hold,
        (_, Answer::Hold) => Answer::Hold,
        (Answer::Open, _) => Answer::Open,
        (_, Answer::Open) => Answer::Open,
        (Answer::Fail, Answer::Fail) => Answer::Fail,
    }
}

/// Whether it fails.
pub(crate) fn fails(answer: Answer) -> bool
    ensures { IsTrue result ↔ (answer_of answer ≡ fail) }
{
    match answer {
        Answer::Fail => true,
        Answer::Hold => false,
        Answer::Open => false,
    }
}

/// Whether an answer is that it holds, or maybe that it is open.
fn is_mark(answer: Answer, open_too: bool) -> bool
    ensures { result ≡ mark_of open_too (answer_of answer) }
{
    match answer {
        Answer::Hold => true,
        Answer::Fail => false,
        Answer::Open => open_too,
    }
}

/// The marks of a row.
fn marks_of_row(alloc: Global, row: &[Answer], open_too: bool) -> Result<Vec<bool>, AllocError>
    ensures { IfOk result (λ marks. marks.items ≡ map (mark_of open_too) (answers_of row.now)) }
{
    let mut marks = Vec::new(alloc);
    for answer in row {
        marks.push(is_mark(*answer, open_too))?;
    }
    Ok(marks)
}

/// The marks of a table.
fn marks_of(
    alloc: Global,
    rows: &[Vec<Answer>],
    open_too: bool,
) -> Result<Vec<Vec<bool>>, AllocError>
    ensures { IfOk result (λ marks. mark_rows marks.items ≡ marked open_too (tables_of rows.now)) }
{
    let mut marks = Vec::new(alloc);
    for row in rows {
        marks.push(marks_of_row(alloc, row.as_slice(), open_too)?)?;
    }
    Ok(marks)
}

/// Whether each row of a square table gets a column of its own where it holds; or where it holds or is open; or neither.
pub(crate) fn table_answer(alloc: Global, rows: &[Vec<Answer>]) -> Result<Answer, AllocError>
    requires { (open_too : Bool) → IsSquare (marked open_too (tables_of rows.now)) }
    ensures { IfOk result (λ answer. TableComes (tables_of rows.now) (answer_of answer)) }
{
    let holding = marks_of(alloc, rows, false)?;
    if has_matching(alloc, holding.as_slice())? {
        return Ok(Answer::Hold);
    }
    let open = marks_of(alloc, rows, true)?;
    if has_matching(alloc, open.as_slice())? {
        return Ok(Answer::Open);
    }
    Ok(Answer::Fail)
}

/// The best answer of a row.
fn best_of_row(row: &[Answer]) -> Answer
    ensures { IsBest (answers_of row.now) (answer_of result) }
{
    let mut best = Answer::Fail;
    for answer in row {
        best = better(best, *answer);
    }
    best
}

/// The best answer of a column.
fn best_of_column(rows: &[Vec<Answer>], column: usize) -> Answer
    requires { All (λ row. column < length row.items) rows.now }
    ensures { IsBest (column_answers (tables_of rows.now) column) (answer_of result) }
{
    let mut best = Answer::Fail;
    for row in rows {
        best = better(best, row[column]);
    }
    best
}

/// The best answers of all rows.
fn best_of_rows(alloc: Global, rows: &[Vec<Answer>]) -> Result<Vec<Answer>, AllocError>
    ensures { IfOk result (λ bests. AllZip IsBest (tables_of rows.now) (answers_of bests.items)) }
{
    let mut bests = Vec::new(alloc);
    for row in rows {
        bests.push(best_of_row(row.as_slice()))?;
    }
    Ok(bests)
}

/// The best answers of so many columns.
fn best_of_columns(
    alloc: Global,
    rows: &[Vec<Answer>],
    count: usize,
) -> Result<Vec<Answer>, AllocError>
    requires { All (λ row. length row.items ≡ count) rows.now }
    ensures long { IfOk result (λ bests. length bests.items ≡ count) }
    ensures bests { IfOk result (λ bests. (column : ℕ) → column < count → IsBest (column_answers (tables_of rows.now) column) (slice_index_or (answers_of bests.items) column fail)) }
{
    let mut bests = Vec::new(alloc);
    for column in 0..count {
        bests.push(best_of_column(rows, column))?;
    }
    Ok(bests)
}

/// The verdict where none is open, and maybe one fails.
fn without_open(one_fails: bool) -> StateVerdict
    ensures { result ≡ settled_verdict one_fails }
{
    if one_fails {
        return StateVerdict::Differs;
    }
    StateVerdict::Good
}

/// The verdict on the best answers of all rows, or of all columns.
fn worst_of(bests: &[Answer]) -> StateVerdict
    ensures { IsWorst (answers_of bests.now) result }
{
    let mut one_fails = false;
    for best in bests {
        match *best {
            Answer::Hold => continue,
            Answer::Open => return StateVerdict::Open,
            Answer::Fail => one_fails = true,
        }
    }
    without_open(one_fails)
}

/// The verdict of both ways.
fn worse(one: StateVerdict, other: StateVerdict) -> StateVerdict
    ensures { result ≡ worse one other }
{
    match (one, other) {
        (StateVerdict::Open, _) => StateVerdict::Open,
        (_, StateVerdict::Open) => StateVerdict::Open,
        (StateVerdict::Differs, _) => StateVerdict::Differs,
        (_, StateVerdict::Differs) => StateVerdict::Differs,
        (StateVerdict::Good, StateVerdict::Good) => StateVerdict::Good,
    }
}

/// The verdict on a table with so many columns: each row and each column has to hold somewhere.
pub(crate) fn table_verdict(
    alloc: Global,
    rows: &[Vec<Answer>],
    count: usize,
) -> Result<StateVerdict, AllocError>
    requires { All (λ row. length row.items ≡ count) rows.now }
    ensures { IfOk result (IsVerdictOn (tables_of rows.now) count) }
{
    let row_bests = best_of_rows(alloc, rows)?;
    let column_bests = best_of_columns(alloc, rows, count)?;
    Ok(worse(
        worst_of(row_bests.as_slice()),
        worst_of(column_bests.as_slice()),
    ))
}
