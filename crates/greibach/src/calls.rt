//! The calls of summands.

ghost use Rattle.std.specs.Prelude.{◌≡◌, ◌<◌, List, [], ◌∷◌, length, map, reverse, IfOk, OnOk};
ghost use Rattle.std.specs.List.{All, Contains};
ghost use Rattle.data_theory.specs.declared.ids.VarId.{VarId};
ghost use Rattle.data_theory.specs.IdTrees.{Tree};
ghost use Rattle.term_pool.specs.HeadTrees.{trees_at, AreIn};
ghost use Rattle.term_pool.specs.Pools.{Extends};
ghost use Rattle.term_pool.specs.Bindings.{listed, listed_terms};
ghost use Rattle.greibach.specs.ListedVariables.{listed_variables};
ghost use Rattle.greibach.specs.MeetingOrder.{IsNumberOf, Meets};
ghost use Rattle.greibach.specs.PlacesInCode.{plain_calls, plain_places};
ghost use Rattle.greibach.specs.OnwardCalls.{first_trees, kept_trees, onward_trees, params_of_place, part_at, rest_trees, AreTreeCalls, FirstIsListed, HasArgumentsAmong, HasArgumentsIn, OnwardIsListed, RestIsListed};
ghost use Rattle.greibach.specs.NumberedCalls.{AddsNumbered};

use crate::environments::terms_for;
use crate::numbers::number;
use crate::places::{Part, Places};
use data_theory::{NoMemory, TermId, VarId};
use indexmap::IndexSet;
use lps_core::put_all;
use std::alloc::Global;
use term_pool::Pool;

/// A call of an equation by its number from 1, or of a place that has no number yet.
pub type Call = (usize, Vec<TermId>);

/// The call of a place's equation, with the terms that are listed for its parameters.
pub fn rest_call(
    alloc: Global,
    places: &Places<'_>,
    place: usize,
    by: &[(VarId, TermId)],
    met: &mut IndexSet<usize>,
) -> Result<Call, NoMemory>
    requires there { place < length places.now.places.items }
    requires bound { All (λ (v : VarId). Contains (listed_variables by.now) v) (params_of_place (plain_places places.now) place) }
    ensures met { OnOk result (Meets met.old.keys (place ∷ []) met.new.keys) }
    ensures number { IfOk result (λ call. IsNumberOf met.new.keys place call.0) }
    ensures args { IfOk result (λ call. (ts : List Tree) → trees_at ts call.1.items ≡ map (listed ts by.now) (params_of_place (plain_places places.now) place)) }
    ensures within { IfOk result (λ call. All (Contains (listed_terms by.now)) call.1.items) }
{
    let args = terms_for(alloc, places.places[place].params.as_slice(), by)?;
    let number = number(place, met)?;
    Ok((number, args))
}

/// The call of a rest, where there is one.
pub fn rest_calls(
    alloc: Global,
    places: &Places<'_>,
    rest: Option<usize>,
    by: &[(VarId, TermId)],
    met: &mut IndexSet<usize>,
) -> Result<Vec<Call>, NoMemory>
    requires { RestIsListed (plain_places places.now) by.now rest }
    ensures calls { IfOk result (λ calls. (ts : List Tree) → AreTreeCalls ts (rest_trees (plain_places places.now) ts by.now rest) met.old.keys met.new.keys (plain_calls calls.items)) }
    ensures within { IfOk result (λ calls. All (HasArgumentsAmong (listed_terms by.now)) (plain_calls calls.items)) }
{
    match rest {
        None => Ok(Vec::new(alloc)),
        Some(place) => {
            let call = rest_call(alloc, places, place, by, met)?;
            let mut calls = Vec::new(alloc);
            calls.push(call)?;
            Ok(calls)
        }
    }
}

/// The calls of a call that is kept, and of the rest behind it.
fn kept_calls(
    alloc: Global,
    places: &Places<'_>,
    pool: &mut Pool,
    callee: usize,
    args: &[TermId],
    rest: Option<usize>,
    by: &[(VarId, TermId)],
    met: &mut IndexSet<usize>,
) -> Result<Vec<Call>, NoMemory>
    requires listed { AreIn pool.old.trees (listed_terms by.now) }
    requires entry { callee < length (plain_places places.now).entries }
    requires args { AreIn pool.old.trees args.now }
    requires rest { RestIsListed (plain_places places.now) by.now rest }
    ensures kept { Extends pool.old.trees pool.new.trees }
    ensures constants { pool.new.constants ≡ pool.old.constants }
    ensures calls { IfOk result (λ calls. AreTreeCalls pool.new.trees (kept_trees (plain_places places.now) pool.old.trees by.now callee args.now rest) met.old.keys met.new.keys (plain_calls calls.items)) }
    ensures within { IfOk result (λ calls. All (HasArgumentsIn pool.new.trees) (plain_calls calls.items)) }
{
    let args = put_all(alloc, pool, args, by)?;
    let number = number(places.entries[callee].place, met)?;
    let mut calls = Vec::new(alloc);
    calls.push((number, args))?;
    let mut behind = rest_calls(alloc, places, rest, by, met)?;
    calls.append(&mut behind)?;
    Ok(calls)
}

/// The calls for what follows a label in its own body, from a place on. A call at the beginning is kept, and the rest behind it is one
/// call; else all of it is one.
fn first_calls(
    alloc: Global,
    places: &Places<'_>,
    pool: &mut Pool,
    first: usize,
    by: &[(VarId, TermId)],
    met: &mut IndexSet<usize>,
) -> Result<Vec<Call>, NoMemory>
    requires listed { AreIn pool.old.trees (listed_terms by.now) }
    requires place { first < length (plain_places places.now).places }
    requires there { FirstIsListed (plain_places places.now) pool.old.trees by.now first (part_at (plain_places places.now) first) }
    ensures kept { Extends pool.old.trees pool.new.trees }
    ensures constants { pool.new.constants ≡ pool.old.constants }
    ensures calls { IfOk result (λ calls. AreTreeCalls pool.new.trees (first_trees (plain_places places.now) pool.old.trees by.now first (part_at (plain_places places.now) first)) met.old.keys met.new.keys (plain_calls calls.items)) }
    ensures within { IfOk result (λ calls. All (HasArgumentsIn pool.new.trees) (plain_calls calls.items)) }
{
    let here = &places.places[first];
    match &here.part {
        Part::Call(callee, args) => {
            kept_calls(alloc, places, pool, *callee, *args, here.rest, by, met)
        }
        _ => rest_calls(alloc, places, Some(first), by, met),
    }
}

/// The calls for what follows a label in its own body, where something follows.
pub fn onward_calls(
    alloc: Global,
    places: &Places<'_>,
    pool: &mut Pool,
    rest: Option<usize>,
    by: &[(VarId, TermId)],
    met: &mut IndexSet<usize>,
) -> Result<Vec<Call>, NoMemory>
    requires listed { AreIn pool.old.trees (listed_terms by.now) }
    requires there { OnwardIsListed (plain_places places.now) pool.old.trees by.now rest }
    ensures kept { Extends pool.old.trees pool.new.trees }
    ensures constants { pool.new.constants ≡ pool.old.constants }
    ensures calls { IfOk result (λ calls. AreTreeCalls pool.new.trees (onward_trees (plain_places places.now) pool.old.trees by.now rest) met.old.keys met.new.keys (plain_calls calls.items)) }
    ensures within { IfOk result (λ calls. All (HasArgumentsIn pool.new.trees) (plain_calls calls.items)) }
{
    match rest {
        None => Ok(Vec::new(alloc)),
        Some(first) => first_calls(alloc, places, pool, first, by, met),
    }
}

/// The call of a place that waits, with its number.
fn numbered(alloc: Global, waiting: &Call, met: &mut IndexSet<usize>) -> Result<Call, NoMemory>
    ensures met { OnOk result (Meets met.old.keys (waiting.now.0 ∷ []) met.new.keys) }
    ensures number { IfOk result (λ call. IsNumberOf met.new.keys waiting.now.0 call.0) }
    ensures args { IfOk result (λ call. call.1.items ≡ waiting.now.1.items) }
{
    let number = number(waiting.0, met)?;
    let args = waiting.1.to_vec(alloc)?;
    Ok((number, args))
}

/// Adds the calls of the places that wait, the last one first.
pub fn add_waiting(
    alloc: Global,
    waiting: &[Call],
    met: &mut IndexSet<usize>,
    calls: &mut Vec<Call>,
) -> Result<(), NoMemory>
    ensures { OnOk result (AddsNumbered (reverse (plain_calls waiting.now)) met.old.keys met.new.keys (plain_calls calls.old.items) (plain_calls calls.new.items)) }
{
    let mut left = waiting.len();
    while left > 0 {
        left -= 1;
        let call = numbered(alloc, &waiting[left], met)?;
        calls.push(call)?;
    }
    Ok(())
}
