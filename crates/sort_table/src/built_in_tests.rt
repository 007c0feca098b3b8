//! Whether a function is built in.

ghost use Rattle.std.specs.Prelude.{◌≡◌, ◌∷◌, [], IfOk};
ghost use Rattle.std.specs.List.{list_any};
ghost use Rattle.sort_table.specs.BuiltInTests.{flat_eq, shorter, fits_place, read_off, fit_places, chosen_sort, fits_row, is_built_in};

use crate::flat_sorts::{FlatSort, built_in};
use data_theory::{NoMemory, Row, SortId, rows_of};
use std::alloc::Global;

/// Whether a function with this name and these sorts is built in, over any sort S.
///
/// # Errors
///
/// `NoMemory` where there is none for the rows of the name.
pub(crate) fn is_built_in(alloc: Global, name: &[u8], sorts: &[FlatSort]) -> Result<bool, NoMemory>
    ensures { IfOk result (λ found. found ≡ is_built_in name.now sorts.now) }
{
    let Ok(text) = str::from_utf8(name) else {
        return Ok(false);
    };
    let rows = rows_of(alloc, text, SortId(4), SortId(5))?;
    Ok(one_fits(rows.as_slice(), sorts))
}

/// Whether these are the sorts of one of the rows, over some sort S.
fn one_fits(rows: &[Row], sorts: &[FlatSort]) -> bool
    ensures { result ≡ list_any (fits_row sorts.now) rows.now }
{
    rows.iter().any(|row| fits_row(*row, sorts))
}

/// Whether these are the sorts of a row, over some sort S.
fn fits_row(row: Row, sorts: &[FlatSort]) -> bool
    ensures { result ≡ fits_row sorts.now row }
{
    match row {
        Row::Constant(_, _) => sorts.is_empty(),
        Row::ListConstant(_, first) => fits_one(first, sorts),
        Row::One(_, first, _) => fits_one(first, sorts),
        Row::Two(_, first, second, _) => fits_two(first, second, sorts),
        Row::Three(_, first, second, third, _) => fits_three(first, second, third, sorts),
    }
}

/// Whether these are the sorts of one place.
fn fits_one(first: SortId, sorts: &[FlatSort]) -> bool
    ensures { result ≡ fit_places (chosen_sort (first ∷ []) sorts.now) (first ∷ []) sorts.now }
{
    match sorts {
        [s] => fits_place(read_off(first, *s, built_in(0)), first, *s),
        _ => false,
    }
}

/// Whether these are the sorts of two places.
fn fits_two(first: SortId, second: SortId, sorts: &[FlatSort]) -> bool
    ensures { result ≡ fit_places (chosen_sort (first ∷ second ∷ []) sorts.now) (first ∷ second ∷ []) sorts.now }
{
    match sorts {
        [s, t] => {
            let element = read_off(first, *s, read_off(second, *t, built_in(0)));
            fits_place(element, first, *s) && fits_place(element, second, *t)
        }
        _ => false,
    }
}

/// Whether these are the sorts of three places.
fn fits_three(first: SortId, second: SortId, third: SortId, sorts: &[FlatSort]) -> bool
    ensures { result ≡ fit_places (chosen_sort (first ∷ second ∷ third ∷ []) sorts.now) (first ∷ second ∷ third ∷ []) sorts.now }
{
    match sorts {
        [s, t, u] => {
            let other = read_off(second, *t, read_off(third, *u, built_in(0)));
            let element = read_off(first, *s, other);
            fits_place(element, first, *s)
                && fits_place(element, second, *t)
                && fits_place(element, third, *u)
        }
        _ => false,
    }
}

/// Whether a place of the table has this sort, where S is the element.
fn fits_place(element: FlatSort, place: SortId, sort: FlatSort) -> bool
    ensures { result ≡ fits_place element place.0 sort }
{
    if place.0 < 4 {
        are_same(built_in(place.0), sort)
    } else if place.0 == 5 {
        if sort.depth == 0 {
            false
        } else {
            are_same(element, shorter(sort))
        }
    } else {
        are_same(element, sort)
    }
}

/// S, where this place of the table has this sort, and the other one where the place doesn't hang on S.
fn read_off(place: SortId, sort: FlatSort, other: FlatSort) -> FlatSort
    ensures { result ≡ read_off place.0 sort other }
{
    if place.0 < 4 {
        other
    } else if place.0 == 5 {
        shorter(sort)
    } else {
        sort
    }
}

/// The element of a list sort.
fn shorter(sort: FlatSort) -> FlatSort
    ensures { result ≡ shorter sort }
{
    FlatSort {
        depth: sort.depth.saturating_sub(1),
        kind: sort.kind,
        place: sort.place,
    }
}

/// Whether two sorts are one.
fn are_same(a: FlatSort, b: FlatSort) -> bool
    ensures { result ≡ flat_eq a b }
{
    a.depth == b.depth && a.kind == b.kind && a.place == b.place
}
