//! The table of built-in functions, by the mCRL2 language reference.

ghost use Rattle.std.specs.Prelude.{◌≡◌, IfOk};
ghost use Rattle.data_theory.specs.Table as table;

use crate::ids::SortId;
use crate::no_memory::NoMemory;
use crate::row_names::names_rows;
use crate::rows::Row;
use crate::words::{ListWord, NumberWord, Word};
use std::alloc::Global;

pub const BOOL: SortId = SortId(0);

const POS: SortId = SortId(1);

const NAT: SortId = SortId(2);

const INT: SortId = SortId(3);

/// The prefix `-` and the upcasts, which have the numbers 0 to 5.
#[tactic(auto, unfolding(crate::specs::Table::first_rows))]
pub fn first_rows() -> [Row; 6]
    ensures { result ≡ table.first_rows }
{
    [
        Row::One(Word::Number(NumberWord::Minus), POS, INT),
        Row::One(Word::Number(NumberWord::Minus), NAT, INT),
        Row::One(Word::Number(NumberWord::Minus), INT, INT),
        Row::One(Word::Number(NumberWord::PosToNat), POS, NAT),
        Row::One(Word::Number(NumberWord::NatToInt), NAT, INT),
        Row::One(Word::Number(NumberWord::PosToInt), POS, INT),
    ]
}

/// The functions on truth values.
#[tactic(auto, unfolding(crate::specs::Table::truth_rows))]
pub fn truth_rows() -> [Row; 6]
    ensures { result ≡ table.truth_rows }
{
    [
        Row::Constant(Word::True, BOOL),
        Row::Constant(Word::False, BOOL),
        Row::One(Word::Not, BOOL, BOOL),
        Row::Two(Word::And, BOOL, BOOL, BOOL),
        Row::Two(Word::Or, BOOL, BOOL, BOOL),
        Row::Two(Word::Implies, BOOL, BOOL, BOOL),
    ]
}

/// The comparisons of numbers.
#[tactic(auto, unfolding(crate::specs::Table::comparison_rows))]
pub fn comparison_rows() -> [Row; 12]
    ensures { result ≡ table.comparison_rows }
{
    [
        Row::Two(Word::Less, POS, POS, BOOL),
        Row::Two(Word::Less, NAT, NAT, BOOL),
        Row::Two(Word::Less, INT, INT, BOOL),
        Row::Two(Word::AtMost, POS, POS, BOOL),
        Row::Two(Word::AtMost, NAT, NAT, BOOL),
        Row::Two(Word::AtMost, INT, INT, BOOL),
        Row::Two(Word::Greater, POS, POS, BOOL),
        Row::Two(Word::Greater, NAT, NAT, BOOL),
        Row::Two(Word::Greater, INT, INT, BOOL),
        Row::Two(Word::AtLeast, POS, POS, BOOL),
        Row::Two(Word::AtLeast, NAT, NAT, BOOL),
        Row::Two(Word::AtLeast, INT, INT, BOOL),
    ]
}

/// Sums, differences and products.
#[tactic(auto, unfolding(crate::specs::Table::sum_rows))]
pub fn sum_rows() -> [Row; 11]
    ensures { result ≡ table.sum_rows }
{
    [
        Row::Two(Word::Number(NumberWord::Plus), POS, POS, POS),
        Row::Two(Word::Number(NumberWord::Plus), POS, NAT, POS),
        Row::Two(Word::Number(NumberWord::Plus), NAT, POS, POS),
        Row::Two(Word::Number(NumberWord::Plus), NAT, NAT, NAT),
        Row::Two(Word::Number(NumberWord::Plus), INT, INT, INT),
        Row::Two(Word::Number(NumberWord::Minus), POS, POS, INT),
        Row::Two(Word::Number(NumberWord::Minus), NAT, NAT, INT),
        Row::Two(Word::Number(NumberWord::Minus), INT, INT, INT),
        Row::Two(Word::Number(NumberWord::Times), POS, POS, POS),
        Row::Two(Word::Number(NumberWord::Times), NAT, NAT, NAT),
        Row::Two(Word::Number(NumberWord::Times), INT, INT, INT),
    ]
}

/// Quotients, remainders and powers.
#[tactic(auto, unfolding(crate::specs::Table::quotient_rows))]
pub fn quotient_rows() -> [Row; 7]
    ensures { result ≡ table.quotient_rows }
{
    [
        Row::Two(Word::Number(NumberWord::Div), NAT, POS, NAT),
        Row::Two(Word::Number(NumberWord::Div), INT, POS, INT),
        Row::Two(Word::Number(NumberWord::Mod), NAT, POS, NAT),
        Row::Two(Word::Number(NumberWord::Mod), INT, POS, NAT),
        Row::Two(Word::Number(NumberWord::Exp), POS, NAT, POS),
        Row::Two(Word::Number(NumberWord::Exp), NAT, NAT, NAT),
        Row::Two(Word::Number(NumberWord::Exp), INT, NAT, INT),
    ]
}

/// The least and the greatest of two numbers.
#[tactic(auto, unfolding(crate::specs::Table::extreme_rows))]
pub fn extreme_rows() -> [Row; 6]
    ensures { result ≡ table.extreme_rows }
{
    [
        Row::Two(Word::Number(NumberWord::Min), POS, POS, POS),
        Row::Two(Word::Number(NumberWord::Min), NAT, NAT, NAT),
        Row::Two(Word::Number(NumberWord::Min), INT, INT, INT),
        Row::Two(Word::Number(NumberWord::Max), POS, POS, POS),
        Row::Two(Word::Number(NumberWord::Max), NAT, NAT, NAT),
        Row::Two(Word::Number(NumberWord::Max), INT, INT, INT),
    ]
}

/// Functions of one number.
#[tactic(auto, unfolding(crate::specs::Table::step_rows))]
pub fn step_rows() -> [Row; 10]
    ensures { result ≡ table.step_rows }
{
    [
        Row::One(Word::Number(NumberWord::Abs), INT, NAT),
        Row::One(Word::Number(NumberWord::Succ), POS, POS),
        Row::One(Word::Number(NumberWord::Succ), NAT, POS),
        Row::One(Word::Number(NumberWord::Succ), INT, INT),
        Row::One(Word::Number(NumberWord::Pred), POS, NAT),
        Row::One(Word::Number(NumberWord::Pred), NAT, INT),
        Row::One(Word::Number(NumberWord::Pred), INT, INT),
        Row::One(Word::Number(NumberWord::NatToPos), NAT, POS),
        Row::One(Word::Number(NumberWord::IntToNat), INT, NAT),
        Row::One(Word::Number(NumberWord::IntToPos), INT, POS),
    ]
}

/// The functions over any sort.
#[tactic(auto, unfolding(crate::specs::Table::sort_rows))]
pub fn sort_rows(sort: SortId) -> [Row; 3]
    ensures { result ≡ table.sort_rows sort }
{
    [
        Row::Two(Word::Equal, sort, sort, BOOL),
        Row::Two(Word::Different, sort, sort, BOOL),
        Row::Three(Word::If, BOOL, sort, sort, sort),
    ]
}

/// The functions over a list sort and its element sort.
#[tactic(auto, unfolding(crate::specs::Table::list_rows))]
pub fn list_rows(element: SortId, list: SortId) -> [Row; 11]
    ensures { result ≡ table.list_rows element list }
{
    [
        Row::ListConstant(Word::List(ListWord::Empty), list),
        Row::Two(Word::List(ListWord::Cons), element, list, list),
        Row::Two(Word::List(ListWord::Snoc), list, element, list),
        Row::Two(Word::List(ListWord::Concat), list, list, list),
        Row::One(Word::List(ListWord::Size), list, NAT),
        Row::Two(Word::List(ListWord::At), list, NAT, element),
        Row::One(Word::List(ListWord::Head), list, element),
        Row::One(Word::List(ListWord::Rhead), list, element),
        Row::One(Word::List(ListWord::Tail), list, list),
        Row::One(Word::List(ListWord::Rtail), list, list),
        Row::Two(Word::List(ListWord::In), element, list, BOOL),
    ]
}

/// All that a signature begins with, in order.
pub fn first_table(alloc: Global) -> Result<Vec<Row>, NoMemory>
    ensures { IfOk result (λ rows. rows.items ≡ table.first_table) }
{
    let mut rows = Vec::from_slice(alloc, &first_rows())?;
    rows.extend_from_slice(&truth_rows())?;
    rows.extend_from_slice(&sort_rows(BOOL))?;
    rows.extend_from_slice(&sort_rows(POS))?;
    rows.extend_from_slice(&sort_rows(NAT))?;
    rows.extend_from_slice(&sort_rows(INT))?;
    rows.extend_from_slice(&comparison_rows())?;
    rows.extend_from_slice(&sum_rows())?;
    rows.extend_from_slice(&quotient_rows())?;
    rows.extend_from_slice(&extreme_rows())?;
    rows.extend_from_slice(&step_rows())?;
    Ok(rows)
}

/// All that comes with a list sort, in order.
pub fn list_table(alloc: Global, element: SortId, list: SortId) -> Result<Vec<Row>, NoMemory>
    ensures { IfOk result (λ rows. rows.items ≡ table.list_table element list) }
{
    let mut rows = Vec::from_slice(alloc, &sort_rows(list))?;
    rows.extend_from_slice(&list_rows(element, list))?;
    Ok(rows)
}

/// The whole table over a sort and its list sort, in the language's order.
fn language_table(alloc: Global, sort: SortId, list: SortId) -> Result<Vec<Row>, NoMemory>
    ensures { IfOk result (λ rows. rows.items ≡ table.language_table sort list) }
{
    let mut rows = Vec::from_slice(alloc, &truth_rows())?;
    rows.extend_from_slice(&sort_rows(sort))?;
    rows.extend_from_slice(&comparison_rows())?;
    rows.extend_from_slice(&sum_rows())?;
    rows.extend_from_slice(&first_rows())?;
    rows.extend_from_slice(&quotient_rows())?;
    rows.extend_from_slice(&extreme_rows())?;
    rows.extend_from_slice(&step_rows())?;
    rows.extend_from_slice(&list_rows(sort, list))?;
    Ok(rows)
}

ghost use Rattle.data_theory.specs.RowsOfWords.{rows_of};

/// The rows of a name, in the order of the language's table: the signatures that the built-in functions of this name have, where
/// "any sort" is the given one, and a list sort that over it.
pub fn rows_of(alloc: Global, name: &str, sort: SortId, list: SortId) -> Result<Vec<Row>, NoMemory>
    ensures { IfOk result (λ rows. rows.items ≡ rows_of name.now sort list) }
{
    if !names_rows(name.as_bytes()) {
        return Ok(Vec::new(alloc));
    }
    let table = language_table(alloc, sort, list)?;
    let mut rows = Vec::new(alloc);
    for row in table.as_slice() {
        if row.word().text() == name {
            rows.push(*row)?;
        }
    }
    Ok(rows)
}
