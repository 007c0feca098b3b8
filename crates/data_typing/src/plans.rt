//! How calls are elaborated.

ghost use Rattle.std.specs.Prelude.{◌≡◌, ◌<◌, length, map, List, Option, IfOk, option_map, option_and_then};
ghost use Rattle.data_typing.specs.FlatSorts.{flat_sort, place_of};
ghost use Rattle.data_typing.specs.Nodes.{profile_of, any_profile_of, sorting_at, sortings_at, sortings, AreBelow, AreKnown};
ghost use Rattle.data_typing.specs.Sortings.{Profile, profile, any_profile, all_same, all_check};
ghost use Rattle.data_typing.specs.Typings as typings;
ghost use Rattle.data_typing.specs.Plans.{place_where, sort_by, first_sort, call_plan, planned, TellAll};
ghost use Rattle.data_typing.specs.CodePlans.{plan_of};

use crate::flat_sorts::{FlatSort, SortPlace};
use crate::nodes::{AnyOverload, Node, Overload, all_check_at, all_check_sorts, are_exactly};
use data_theory::NoMemory;

/// Which function of a call is chosen.
#[derive(Clone, Copy, Debug)]
pub enum CallPlan {
    /// The one of fixed sorts at this place, with the inferred arguments.
    Exact(usize),
    /// The one of fixed sorts at this place, with the checked arguments.
    Fitting(usize),
    /// The one over any sort, with this sort.
    Over(FlatSort),
}

/// The first function whose arguments are exactly of the inferred sorts.
fn exact_place(
    nodes: &[Node],
    known: &[Option<FlatSort>],
    arguments: &[usize],
    signatures: &[Overload],
) -> Option<usize>
    requires known { AreKnown nodes.now known.now }
    requires there { AreBelow (length known.now) arguments.now }
    ensures { result ≡ place_where (λ (f : Profile). all_same f.arguments (sortings_at (sortings nodes.now) arguments.now)) (map profile_of signatures.now) }
{
    for (k, signature) in signatures.iter().enumerate() {
        if are_exactly(nodes, known, arguments, &signature.arguments) {
            return Some(k);
        }
    }
    None
}

/// The first function at which every argument checks.
fn fitting_place(
    nodes: &[Node],
    known: &[Option<FlatSort>],
    arguments: &[usize],
    signatures: &[Overload],
) -> Result<Option<usize>, NoMemory>
    requires known { AreKnown nodes.now known.now }
    requires there { AreBelow (length known.now) arguments.now }
    ensures { IfOk result (λ o. o ≡ place_where (λ (f : Profile). all_check f.arguments (sortings_at (sortings nodes.now) arguments.now)) (map profile_of signatures.now)) }
{
    for (k, signature) in signatures.iter().enumerate() {
        if all_check_sorts(nodes, known, arguments, &signature.arguments)? {
            return Ok(Some(k));
        }
    }
    Ok(None)
}

/// The sort that the part at this place tells, where all arguments check over it.
fn sort_by_part(
    nodes: &[Node],
    known: &[Option<FlatSort>],
    arguments: &[usize],
    any: &AnyOverload,
    place: SortPlace,
    at: usize,
) -> Result<Option<FlatSort>, NoMemory>
    requires known { AreKnown nodes.now known.now }
    requires there { AreBelow (length known.now) arguments.now }
    requires at { at < length known.now }
    ensures { IfOk result (λ o. option_map flat_sort o ≡ sort_by (sortings_at (sortings nodes.now) arguments.now) (any_profile_of any.now) (place_of place) (sorting_at (sortings nodes.now) at)) }
{
    match known[at] {
        Some(inferred) => match inferred.read_off(place) {
            Some(sort) => {
                if all_check_at(nodes, known, known.len(), arguments, &any.arguments, sort)? {
                    Ok(Some(sort))
                } else {
                    Ok(None)
                }
            }
            None => Ok(None),
        },
        None => Ok(None),
    }
}

/// The first sort that an argument tells and over which all arguments check.
fn told_sort(
    nodes: &[Node],
    known: &[Option<FlatSort>],
    arguments: &[usize],
    any: &AnyOverload,
) -> Result<Option<FlatSort>, NoMemory>
    requires known { AreKnown nodes.now known.now }
    requires there { AreBelow (length known.now) arguments.now }
    ensures { IfOk result (λ o. option_map flat_sort o ≡ first_sort (sortings_at (sortings nodes.now) arguments.now) (any_profile_of any.now) (any_profile_of any.now).arguments (sortings_at (sortings nodes.now) arguments.now)) }
{
    let places = any.arguments.as_slice();
    for (k, at) in arguments.iter().enumerate() {
        if k >= places.len() {
            return Ok(None);
        }
        let told = sort_by_part(nodes, known, arguments, any, places[k], *at)?;
        if told.is_some() {
            return Ok(told);
        }
    }
    Ok(None)
}

/// How a call is elaborated, where it infers a sort.
fn plan_of_call(
    nodes: &[Node],
    known: &[Option<FlatSort>],
    arguments: &[usize],
    signatures: &[Overload],
    any: &Option<AnyOverload>,
) -> Result<Option<CallPlan>, NoMemory>
    requires known { AreKnown nodes.now known.now }
    requires there { AreBelow (length known.now) arguments.now }
    ensures { IfOk result (λ o. option_map plan_of o ≡ call_plan (map profile_of signatures.now) (option_map any_profile_of any.now) (sortings_at (sortings nodes.now) arguments.now)) }
{
    if let Some(k) = exact_place(nodes, known, arguments, signatures) {
        return Ok(Some(CallPlan::Exact(k)));
    }
    if let Some(any) = any {
        if let Some(sort) = told_sort(nodes, known, arguments, any)? {
            return Ok(Some(CallPlan::Over(sort)));
        }
    }
    match fitting_place(nodes, known, arguments, signatures)? {
        Some(k) => Ok(Some(CallPlan::Fitting(k))),
        None => Ok(None),
    }
}

/// How a call is elaborated: whatever the symbols of its functions and the terms of its arguments are, what it infers is what
/// the plan says.
pub fn plan_call(
    nodes: &[Node],
    known: &[Option<FlatSort>],
    arguments: &[usize],
    signatures: &[Overload],
    any: &Option<AnyOverload>,
) -> Result<Option<CallPlan>, NoMemory>
    requires known { AreKnown nodes.now known.now }
    requires there { AreBelow (length known.now) arguments.now }
    ensures plan { IfOk result (λ o. option_map plan_of o ≡ call_plan (map profile_of signatures.now) (option_map any_profile_of any.now) (sortings_at (sortings nodes.now) arguments.now)) }
    ensures infers { IfOk result (λ o. (fs : List typings.Signature) (c : Option typings.Scheme) (ts : List typings.Typing) → TellAll (sortings_at (sortings nodes.now) arguments.now) ts → map profile fs ≡ map profile_of signatures.now → option_map any_profile c ≡ option_map any_profile_of any.now → typings.call_infers fs c ts ≡ option_and_then (planned fs c ts) (option_map plan_of o)) }
{
    let plan = plan_of_call(nodes, known, arguments, signatures, any)?;
    Ok(plan)
}
