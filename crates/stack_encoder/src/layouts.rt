//! Columns by their numbers, and what stands in a frame for those that an equation doesn't use.

ghost use Rattle.std.specs.Prelude.{◌≡◌, ◌⊎◌, ◌<◌, ◌≤◌, ◌==◌, ℕ, map, length, slice_get, IfOk, OnOk};
ghost use Rattle.std.specs.List.{All, Contains, flat_map, list_any};
ghost use Rattle.data_theory.specs.IdTerms.{IsGrown};
ghost use Rattle.term_pool.specs.ConstructorValues.{HasValue};
ghost use Rattle.term_pool.specs.Constants.{AreConstants, KeepsConstants};
ghost use Rattle.term_pool.specs.Pools.{Extends};
ghost use Rattle.greibach.specs.PlainForms.{plain_call, plain_equation, plain_form, plain_form_summand, PlainFormSummand};
ghost use Rattle.regular_encoder.specs.FormColumns.{places_in};
ghost use Rattle.stack_encoder.specs.StackColumns.{in_need, needed_for, needed_in, numbered_place, sort_of_column, unless_used, unused, value_at, default_at, with_numbers, AreClosedTerms, HaveDefaults, LeadsToPlaces, SummandLeadsToPlaces, EquationLeadsToPlaces};

use data_theory::{NameId, NoMemory, Signature, SortId, TermId};
use greibach::{Greibach, GreibachEquation, GreibachSummand};
use indexmap::IndexSet;
use std::alloc::Global;
use term_pool::Pool;

/// For each equation the columns of its parameters, by their numbers, and for each column the term that stands in a frame whose
/// equation doesn't use it.
#[derive(Debug, Drop)]
pub struct Layout {
    pub places: Vec<Vec<usize>>,
    pub defaults: Vec<TermId>,
}

/// The place of the equation with a number from 1.
fn place_of(places: &[Vec<usize>], number: usize) -> &[usize]
    requires from_one { 1 ≤ number }
    requires within { number ≤ length places.now }
    ensures { result.now ≡ numbered_place (places_in places.now) number }
{
    places[number - 1].as_slice()
}

/// Whether a column is at the place.
fn is_used(place: &[usize], column: usize) -> bool
    ensures { result ≡ list_any (λ (p : ℕ). p == column) place.now }
{
    place.iter().any(|used| *used == column)
}

/// Adds a column that isn't at the place and isn't there.
fn add_unless_used(
    place: &[usize],
    column: usize,
    needed: &mut IndexSet<usize>,
) -> Result<(), NoMemory>
    ensures { OnOk result (needed.new.keys ≡ with_numbers needed.old.keys (unless_used place.now column)) }
{
    if is_used(place, column) {
        return Ok(());
    }
    needed.insert(column)?;
    Ok(())
}

/// Adds the columns that aren't at the place.
fn add_unused(columns: usize, place: &[usize], needed: &mut IndexSet<usize>) -> Result<(), NoMemory>
    ensures { OnOk result (needed.new.keys ≡ with_numbers needed.old.keys (unused columns place.now)) }
{
    for column in 0..columns {
        add_unless_used(place, column, needed)?;
    }
    Ok(())
}

/// Adds the columns that equations of calls don't use, from the last call to the first.
fn add_needed_for(
    columns: usize,
    places: &[Vec<usize>],
    next: &[(usize, Vec<TermId>)],
    needed: &mut IndexSet<usize>,
) -> Result<(), NoMemory>
    requires { All (LeadsToPlaces (places_in places.now)) (map plain_call next.now) }
    ensures { OnOk result (needed.new.keys ≡ with_numbers needed.old.keys (needed_for columns (places_in places.now) (map plain_call next.now))) }
{
    for number in 0..next.len() {
        let call = &next[next.len() - 1 - number];
        add_unused(columns, place_of(places, call.0), needed)?;
    }
    Ok(())
}

/// Adds those for the summands of an equation.
fn add_needed_in(
    columns: usize,
    places: &[Vec<usize>],
    summands: &[GreibachSummand],
    needed: &mut IndexSet<usize>,
) -> Result<(), NoMemory>
    requires { All (SummandLeadsToPlaces (places_in places.now)) (map plain_form_summand summands.now) }
    ensures { OnOk result (needed.new.keys ≡ with_numbers needed.old.keys (flat_map (λ (s : PlainFormSummand). needed_for columns (places_in places.now) s.next) (map plain_form_summand summands.now))) }
{
    for summand in summands {
        add_needed_for(columns, places, summand.next.as_slice(), needed)?;
    }
    Ok(())
}

/// The columns that some frame doesn't use, each once: those of the first frame, and then those of the summands in their order.
fn needed_columns(
    alloc: Global,
    columns: usize,
    places: &[Vec<usize>],
    equations: &[GreibachEquation],
) -> Result<IndexSet<usize>, NoMemory>
    requires first { 1 ≤ length places.now }
    requires calls { All (EquationLeadsToPlaces (places_in places.now)) (map plain_equation equations.now) }
    ensures { IfOk result (λ needed. needed.keys ≡ in_need columns (places_in places.now) (map plain_equation equations.now)) }
{
    let mut needed = IndexSet::new(alloc);
    add_unused(columns, place_of(places, 1), &mut needed)?;
    for equation in equations {
        add_needed_in(columns, places, equation.summands.as_slice(), &mut needed)?;
    }
    Ok(needed)
}

/// The closed terms of the sorts of columns, one after another.
fn closed_terms(
    alloc: Global,
    sig: &mut Signature,
    pool: &mut Pool,
    kinds: &IndexSet<(NameId, SortId)>,
    needed: &IndexSet<usize>,
) -> Result<Vec<TermId>, NoMemory>
    requires within { All (λ x. x < length kinds.now.keys) needed.now.keys }
    requires inhabited { All (λ x. HasValue sig.old (sort_of_column kinds.now.keys x)) needed.now.keys }
    requires constants { AreConstants sig.old pool.old.constants }
    ensures terms { IfOk result (λ terms. AreClosedTerms sig.old pool.old (map (sort_of_column kinds.now.keys) needed.now.keys) sig.new pool.new terms.items) }
    ensures grown { IsGrown sig.old sig.new }
    ensures kept { Extends pool.old.trees pool.new.trees }
    ensures constants { AreConstants sig.new pool.new.constants }
    ensures constants_kept { KeepsConstants pool.old.constants pool.new.constants }
{
    let mut terms = Vec::new(alloc);
    for number in 0..needed.len() {
        let (_, sort) = kinds[needed[number]];
        terms.push(pool.closed_term(sig, sort)?)?;
    }
    Ok(terms)
}

/// The term beside a number.
pub fn value_beside(numbers: &[usize], terms: &[TermId], column: usize) -> Option<TermId>
    requires { length numbers.now ≡ length terms.now }
    ensures { result ≡ value_at numbers.now terms.now column }
{
    for number in 0..numbers.len() {
        if numbers[number] == column {
            return Some(terms[number]);
        }
    }
    None
}

/// What stands for a column in a frame that doesn't use it: its closed term where there is one, and otherwise the first argument.
fn default_of(
    needed: &[usize],
    closed: &[TermId],
    place: &[usize],
    init: &[TermId],
    column: usize,
) -> Option<TermId>
    requires needed { length needed.now ≡ length closed.now }
    requires place { length place.now ≡ length init.now }
    ensures { result ≡ default_at needed.now closed.now place.now init.now column }
{
    if let Some(term) = value_beside(needed, closed, column) {
        return Some(term);
    }
    value_beside(place, init, column)
}

/// These for all columns.
fn all_defaults(
    alloc: Global,
    columns: usize,
    needed: &[usize],
    closed: &[TermId],
    place: &[usize],
    init: &[TermId],
) -> Result<Vec<TermId>, NoMemory>
    requires needed { length needed.now ≡ length closed.now }
    requires place { length place.now ≡ length init.now }
    requires each { (x : ℕ) → x < columns → Contains needed.now x ⊎ Contains place.now x }
    ensures long { IfOk result (λ found. length found.items ≡ columns) }
    ensures each { IfOk result (λ found. (x : ℕ) → x < columns → slice_get found.items x ≡ default_at needed.now closed.now place.now init.now x) }
{
    let mut found = Vec::new(alloc);
    for column in 0..columns {
        let Some(term) = default_of(needed, closed, place, init, column) else {
            unreachable!()
        };
        found.push(term)?;
    }
    Ok(found)
}

/// For each column the term that stands in a frame whose equation doesn't use it. Only columns that some frame doesn't use get the
/// closed term of their sort.
pub fn defaults_of(
    alloc: Global,
    sig: &mut Signature,
    pool: &mut Pool,
    form: &Greibach,
    kinds: &IndexSet<(NameId, SortId)>,
    places: &[Vec<usize>],
) -> Result<Vec<TermId>, NoMemory>
    requires first { 1 ≤ length places.now }
    requires calls { All (EquationLeadsToPlaces (places_in places.now)) (plain_form form.now).equations }
    requires long { length (numbered_place (places_in places.now) 1) ≡ length form.now.init.items }
    requires inhabited { All (λ (k : NameId × SortId). HasValue sig.old k.1) kinds.now.keys }
    requires constants { AreConstants sig.old pool.old.constants }
    ensures values { IfOk result (λ found. HaveDefaults kinds.now.keys (places_in places.now) (plain_form form.now) sig.old pool.old sig.new pool.new found.items) }
    ensures grown { IsGrown sig.old sig.new }
    ensures kept { Extends pool.old.trees pool.new.trees }
    ensures constants { AreConstants sig.new pool.new.constants }
    ensures constants_kept { KeepsConstants pool.old.constants pool.new.constants }
{
    let columns = kinds.len();
    let needed = needed_columns(alloc, columns, places, form.equations.as_slice())?;
    let closed = closed_terms(alloc, sig, pool, kinds, &needed)?;
    let place = place_of(places, 1);
    let found = all_defaults(
        alloc,
        columns,
        needed.as_slice(),
        closed.as_slice(),
        place,
        form.init.as_slice(),
    )?;
    Ok(found)
}
