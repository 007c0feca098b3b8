//! Combinations of values.

ghost use Rattle.std.specs.Prelude.{◌≡◌, ◌<◌, ◌≤◌, List, [], ◌∷◌, cond, length, take, IfOk, OnErr, OnOk, MatchOption, IsTrue, false};
ghost use Rattle.lps_simulator.specs.Combinations.{combinations, rows, AreWithin, AreFilled, LeavesOut, from_places, behind_places, places_read};

use data_theory::{NoMemory, TermId};
use std::alloc::Global;
use std::marker::Model;

/// The combinations of one value of each list that are still to come, in order. The last value changes fastest.
#[derive(Debug, Drop)]
pub struct Combinations {
    lists: Vec<Vec<TermId>>,
    /// Places in the first lists. What is to come begins with the first combination of the values at these places.
    places: Vec<usize>,
    over: bool,
}

impl Model for Combinations {
    ghost use Rattle.std.specs.Prelude.{List, [], cond};
    ghost use Rattle.data_theory.specs.declared.ids.TermId.{TermId};

    ghost Value = { List (List TermId) };

    ghost use Rattle.lps_simulator.specs.Combinations.{rows, from_places};
    ghost use Rattle.lps_simulator.specs.Places.{StandsAtPlaces};

    ghost view = { λ c. cond c.over [] (from_places (rows c.lists.items) c.places.items) };

    ghost invariant = { StandsAtPlaces };
}

/// Whether one of the lists has no value.
fn has_empty(lists: &[Vec<TermId>]) -> bool
    ensures empty { IsTrue result → combinations (rows lists.now) ≡ [] }
    ensures filled { result ≡ false → AreFilled (rows lists.now) }
{
    for list in lists {
        if list.is_empty() {
            return true;
        }
    }
    false
}

/// Goes on to the first combination of those that begin with the values at these places.
fn fill(lists: &[Vec<TermId>], places: &mut Vec<usize>) -> Result<(), NoMemory>
    requires within { AreWithin (rows lists.now) places.old.items }
    requires filled { AreFilled (rows lists.now) }
    ensures within { AreWithin (rows lists.now) places.new.items }
    ensures left { from_places (rows lists.now) places.new.items ≡ from_places (rows lists.now) places.old.items }
    ensures full { OnOk result (length places.new.items ≡ length lists.now) }
{
    while places.len() < lists.len() {
        places.push(0)?;
    }
    Ok(())
}

/// Goes on behind the combinations that begin with the values at these places. Whether there are others.
fn pass(lists: &[Vec<TermId>], places: &mut Vec<usize>) -> Result<bool, NoMemory>
    requires { AreWithin (rows lists.now) places.old.items }
    ensures within { AreWithin (rows lists.now) places.new.items }
    ensures left { IfOk result (λ more. cond more (from_places (rows lists.now) places.new.items) [] ≡ behind_places (rows lists.now) places.old.items) }
{
    while let Some(place) = places.pop() {
        let count = lists[places.len()].len();
        if place + 1 < count {
            places.push(place + 1)?;
            return Ok(true);
        }
    }
    Ok(false)
}

/// The values at these places.
fn values_at(
    alloc: Global,
    lists: &[Vec<TermId>],
    places: &[usize],
) -> Result<Vec<TermId>, NoMemory>
    requires within { AreWithin (rows lists.now) places.now }
    ensures { IfOk result (λ values. values.items ≡ places_read (rows lists.now) places.now) }
{
    let mut values = Vec::new(alloc);
    for number in 0..places.len() {
        let list = lists[number].as_slice();
        values.push(list[places[number]])?;
    }
    Ok(values)
}

/// Whether what is at these places begins with the first `level` of these values.
fn begin_with(lists: &[Vec<TermId>], places: &[usize], values: &[TermId], level: usize) -> bool
    requires { AreWithin (rows lists.now) places.now }
    ensures { IsTrue result → (level ≤ length places.now) × (places_read (rows lists.now) (take level places.now) ≡ take level values.now) }
{
    if places.len() < level || values.len() < level {
        return false;
    }
    for number in 0..level {
        let list = lists[number].as_slice();
        if list[places[number]].0 != values[number].0 {
            return false;
        }
    }
    true
}

impl Combinations {
    /// All combinations of one value of each list. Of no list there is one, which is empty.
    pub fn new(alloc: Global, lists: Vec<Vec<TermId>>) -> Combinations
        ensures { result ≡ combinations (rows lists.items) }
    {
        let over = has_empty(lists.as_slice());
        Combinations {
            lists,
            places: Vec::new(alloc),
            over,
        }
    }

    /// The next combination, where there is one.
    ///
    /// # Errors
    ///
    /// `NoMemory` where there is none for it. The same ones are still to come then.
    pub fn next(&mut self, alloc: Global) -> Result<Option<Vec<TermId>>, NoMemory>
        ensures next { IfOk result (λ next. MatchOption next (self.old ≡ []) (λ values. self.old ≡ values.items ∷ self.new)) }
        ensures unchanged { OnErr result (self.new ≡ self.old) }
    {
        if self.over {
            return Ok(None);
        }
        let lists = self.lists.as_slice();
        fill(lists, &mut self.places)?;
        let values = values_at(alloc, lists, self.places.as_slice())?;
        let mut places = Vec::from_slice(alloc, self.places.as_slice())?;
        let more = pass(lists, &mut places)?;
        self.places = places;
        self.over = !more;
        Ok(Some(values))
    }

    /// Leaves out the next ones as long as they begin with the first `level` of these values.
    ///
    /// # Errors
    ///
    /// `NoMemory` where there is none for the places. The same ones are still to come then.
    pub fn leave_out(
        &mut self,
        alloc: Global,
        values: &[TermId],
        level: usize,
    ) -> Result<(), NoMemory>
        ensures left_out { OnOk result (LeavesOut level values.now self.old self.new) }
        ensures unchanged { OnErr result (self.new ≡ self.old) }
    {
        if self.over {
            return Ok(());
        }
        let lists = self.lists.as_slice();
        if !begin_with(lists, self.places.as_slice(), values, level) {
            return Ok(());
        }
        let mut places = Vec::from_slice(alloc, &self.places[..level])?;
        let more = pass(lists, &mut places)?;
        self.places = places;
        self.over = !more;
        Ok(())
    }
}
