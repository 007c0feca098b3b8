//! Whether a sort has heavier values than those that are known.

ghost use Rattle.std.specs.Prelude.{◌≡◌, ◌<◌, ◌↔◌, ◌^◌, ◌-◌, ℕ, Some, length, false, true, get_or, IfOk, IsTrue, MatchOption};
ghost use Rattle.std.specs.List.{Contains};
ghost use Rattle.data_theory.specs.declared.ids.SortId.{SortId};
ghost use Rattle.data_theory.specs.WholeSignatures.{IsSignature};
ghost use Rattle.value_enum.specs.Shapes.{AreShapes, arguments_at};
ghost use Rattle.value_enum.specs.Levels.{limit_of, MakeHeavier, MakeNoHeavier, HasHeavier, HasNoHeavier, AreHeaviest, AreWeightsOfValues, HasNoneAbove};

use crate::levels::is_number;
use crate::shapes::{Shapes, constructors_at};
use data_theory::{NoMemory, Signature, SortId};
use std::alloc::Global;

/// Whether all values of a sort weigh no more than this, by the weights of the heaviest values up to it of all sorts.
///
/// At first only Pos, Nat and Int are taken to have values without bound, and then each sort of which a constructor makes a value that is heavier.
pub fn is_exhausted(
    alloc: Global,
    sig: &Signature,
    shapes: &Shapes,
    heaviest: &[usize],
    sort: SortId,
    weight: usize,
) -> Result<bool, NoMemory>
    requires stands { IsSignature sig.now }
    requires shapes { AreShapes sig.now shapes.now }
    requires count { length heaviest.now ≡ length shapes.now.constructors.items }
    requires sort { Contains shapes.now.sorts.keys sort }
    requires weight { weight < 2 ^ 64 - 1 }
    requires heaviest { AreHeaviest sig.now shapes.now.sorts.keys heaviest.now weight }
    requires noted { AreWeightsOfValues sig.now shapes.now.sorts.keys heaviest.now }
    ensures { IfOk result (λ exhausted. IsTrue exhausted ↔ HasNoneAbove sig.now sort weight) }
{
    let mut unbounded = Vec::new(alloc);
    for number in 0..heaviest.len() {
        unbounded.push(is_number(SortId(number)))?;
    }
    while let Some(grows) = growing(shapes, heaviest, unbounded.as_slice(), weight) {
        unbounded[grows] = true;
    }
    if unbounded[sort.0] {
        return Ok(false);
    }
    Ok(true)
}

/// The first sort that is taken to be bounded and of which a constructor may make a heavier value.
fn growing(shapes: &Shapes, heaviest: &[usize], unbounded: &[bool], weight: usize) -> Option<usize>
    requires arguments { (a : SortId) → Contains shapes.now.arguments.items (Some a) → a.0 < length heaviest.now }
    requires count { length heaviest.now ≡ length shapes.now.constructors.items }
    requires same { length unbounded.now ≡ length heaviest.now }
    requires weight { weight < 2 ^ 64 - 1 }
    ensures { MatchOption result ((k : ℕ) → k < length unbounded.now → get_or unbounded.now k false ≡ false → HasNoHeavier shapes.now heaviest.now unbounded.now weight k)
        (λ k. (k < length unbounded.now) × (get_or unbounded.now k false ≡ false) × HasHeavier shapes.now heaviest.now unbounded.now weight k) }
{
    for number in 0..unbounded.len() {
        if unbounded[number] {
            continue;
        }
        if grows(shapes, number, heaviest, unbounded, weight) {
            return Some(number);
        }
    }
    None
}

/// Whether a constructor of a sort may make a heavier value.
fn grows(
    shapes: &Shapes,
    sort: usize,
    heaviest: &[usize],
    unbounded: &[bool],
    weight: usize,
) -> bool
    requires arguments { (a : SortId) → Contains shapes.now.arguments.items (Some a) → a.0 < length heaviest.now }
    requires same { length unbounded.now ≡ length heaviest.now }
    requires weight { weight < 2 ^ 64 - 1 }
    ensures heavier { result ≡ true → HasHeavier shapes.now heaviest.now unbounded.now weight sort }
    ensures none { result ≡ false → HasNoHeavier shapes.now heaviest.now unbounded.now weight sort }
{
    let constructors = constructors_at(shapes, sort);
    for constructor in constructors {
        if makes_heavier(
            shapes.arguments.as_slice(),
            constructor.first,
            heaviest,
            unbounded,
            weight,
        ) {
            return true;
        }
    }
    false
}

/// Whether values of the sorts at a place may make one that is heavier: each has some, and all that they weigh together is more.
fn makes_heavier(
    arguments: &[Option<SortId>],
    first: usize,
    heaviest: &[usize],
    unbounded: &[bool],
    weight: usize,
) -> bool
    requires arguments { (a : SortId) → Contains arguments.now (Some a) → a.0 < length heaviest.now }
    requires same { length unbounded.now ≡ length heaviest.now }
    requires weight { weight < 2 ^ 64 - 1 }
    ensures heavier { result ≡ true → MakeHeavier heaviest.now unbounded.now (arguments_at arguments.now first) weight }
    ensures none { result ≡ false → MakeNoHeavier heaviest.now unbounded.now (arguments_at arguments.now first) weight }
{
    let mut total: usize = 1;
    for place in first..arguments.len() {
        let Some(sort) = arguments[place] else {
            return total > weight;
        };
        let limit = limit_for(heaviest, unbounded, sort);
        if limit == 0 {
            return false;
        }
        total = total.saturating_add(limit);
    }
    total > weight
}

/// How heavy the known values of a sort may be.
fn limit_for(heaviest: &[usize], unbounded: &[bool], sort: SortId) -> usize
    requires sort { sort.0 < length heaviest.now }
    requires same { length unbounded.now ≡ length heaviest.now }
    ensures { result ≡ limit_of heaviest.now unbounded.now sort }
{
    if unbounded[sort.0] {
        usize::MAX
    } else {
        heaviest[sort.0]
    }
}
