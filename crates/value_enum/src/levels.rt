//! The first values of sorts by their weights.

ghost use Rattle.std.specs.Prelude.{◌≡◌, ◌<◌, ◌≤◌, ◌+◌, ◌++◌, ◌∷◌, ℕ, List, length, map, take, IfOk, OnOk};
ghost use Rattle.std.specs.List.{Contains};
ghost use Rattle.data_theory.specs.Whole.{whole_of};
ghost use Rattle.data_theory.specs.Signature.{Sig};
ghost use Rattle.data_theory.specs.IdTrees.{Tree};
ghost use Rattle.data_theory.specs.WholeSignatures.{IsSignature};
ghost use Rattle.term_pool.specs.Pools.{Extends};
ghost use Rattle.term_pool.specs.ConstructorValues.{ConstructorValue, ConstructorValues, built};
ghost use Rattle.value_enum.specs.Values.{AreTermsOf};
ghost use Rattle.value_enum.specs.Shapes.{AreShapes};
ghost use Rattle.value_enum.specs.Levels.{is_number_sort, number_weighing, in_front_of_all, weighing_up_to, values_weighing, shape_of, values_at, tuples_at, plain_tuples, AreTuplesOf, HaveTuples, AreLevels, IsValueRow, IsTupleRow, IsFirstTupleRow, StandUnmerged};

use crate::shapes::{Shapes, constructors_at};
use data_theory::{FunId, NoMemory, Num, Signature, SortId, TermId};
use std::alloc::Global;
use term_pool::{Head, Pool};

/// The first values of each sort that have one weight, in the order of the sorts' numbers.
#[derive(Drop)]
pub struct ValueRow {
    pub by_sort: Vec<Vec<TermId>>,
}

/// The arguments of a constructor from a place on.
#[derive(Drop)]
pub struct Tuple {
    pub terms: Vec<TermId>,
}

/// The first lists of arguments from each place on that weigh the same together.
#[derive(Drop)]
pub struct TupleRow {
    pub by_place: Vec<Vec<Tuple>>,
}

/// The first values and lists of arguments of the weights from 0 on.
#[derive(Drop)]
pub struct Levels {
    pub values: Vec<ValueRow>,
    pub tuples: Vec<TupleRow>,
}

/// The values of a sort that have this weight.
pub fn values_of_weight(rows: &[ValueRow], weight: usize, sort: SortId) -> &[TermId]
    ensures { result.now ≡ values_at rows.now weight sort }
{
    let Some(row) = rows.get(weight) else {
        return &[];
    };
    let Some(values) = row.by_sort.get(sort.0) else {
        return &[];
    };
    values.as_slice()
}

/// The lists of arguments from a place on that weigh this.
fn tuples_of_weight(rows: &[TupleRow], weight: usize, place: usize) -> &[Tuple]
    ensures { result.now ≡ tuples_at rows.now weight place }
{
    let Some(row) = rows.get(weight) else {
        return &[];
    };
    let Some(tuples) = row.by_place.get(place) else {
        return &[];
    };
    tuples.as_slice()
}

/// A value in front of others.
fn in_front(alloc: Global, first: TermId, rest: &Tuple) -> Result<Tuple, NoMemory>
    ensures { IfOk result (λ tuple. tuple.terms.items ≡ first ∷ rest.now.terms.items) }
{
    let mut terms = Vec::new(alloc);
    terms.push(first)?;
    terms.extend_from_slice(rest.terms.as_slice())?;
    Ok(Tuple { terms })
}

/// Adds a value in front of each of these, until there are more tuples than the bound.
fn add_in_front(
    alloc: Global,
    first: TermId,
    rests: &[Tuple],
    bound: usize,
    tuples: &mut Vec<Tuple>,
) -> Result<(), NoMemory>
    requires { length tuples.old.items ≤ bound + 1 }
    ensures { OnOk result (plain_tuples tuples.new.items ≡ take (bound + 1) (plain_tuples tuples.old.items ++ map (λ rest. first ∷ rest) (plain_tuples rests.now))) }
{
    for rest in rests {
        if tuples.len() > bound {
            return Ok(());
        }
        let tuple = in_front(alloc, first, rest)?;
        tuples.push(tuple)?;
    }
    Ok(())
}

/// Adds each of these values in front of each of the rests, until there are more tuples than the bound.
fn add_all_in_front(
    alloc: Global,
    firsts: &[TermId],
    rests: &[Tuple],
    bound: usize,
    tuples: &mut Vec<Tuple>,
) -> Result<(), NoMemory>
    requires { length tuples.old.items ≤ bound + 1 }
    ensures { OnOk result (plain_tuples tuples.new.items ≡ take (bound + 1) (plain_tuples tuples.old.items ++ in_front_of_all (λ first rest. first ∷ rest) firsts.now (plain_tuples rests.now))) }
{
    for first in firsts {
        if tuples.len() > bound {
            return Ok(());
        }
        add_in_front(alloc, *first, rests, bound, tuples)?;
    }
    Ok(())
}

/// The first lists of arguments that begin with a value of this sort, go on at this place and weigh this together.
fn tuples_weighing(
    alloc: Global,
    values: &[ValueRow],
    tuples: &[TupleRow],
    sort: SortId,
    rest: usize,
    bound: usize,
) -> Result<Vec<Tuple>, NoMemory>
    ensures { IfOk result (λ found. plain_tuples found.items ≡ take (bound + 1) (weighing_up_to (λ first rest. first ∷ rest) (λ w. values_at values.now w sort) (λ w. plain_tuples (tuples_at tuples.now w rest)) (length tuples.now) (length tuples.now))) }
{
    let weight = tuples.len();
    let mut found = Vec::new(alloc);
    for less in 0..weight {
        let firsts = values_of_weight(values, less + 1, sort);
        let rests = tuples_of_weight(tuples, weight - (less + 1), rest);
        add_all_in_front(alloc, firsts, rests, bound, &mut found)?;
    }
    Ok(found)
}

/// The number of Pos, Nat or Int that has a weight.
fn number_of_weight(sort: SortId, weight: usize) -> Num
    requires { 0 < weight }
    ensures { whole_of result ≡ number_weighing sort weight }
{
    let (negative, magnitude) = match sort.0 {
        1 => (false, weight),
        2 => (false, weight - 1),
        _ => (weight > 1 && weight % 2 == 1, weight / 2),
    };
    Num {
        negative,
        magnitude: magnitude as u128,
    }
}

/// Whether a sort is Pos, Nat or Int.
pub fn is_number(sort: SortId) -> bool
    ensures { result ≡ is_number_sort sort }
{
    sort.0 == 1 || sort.0 == 2 || sort.0 == 3
}

/// Adds a constructor over each of these lists of arguments, until there are more values than the bound.
fn add_built(
    pool: &mut Pool,
    fun: FunId,
    tuples: &[Tuple],
    bound: usize,
    values: &mut Vec<TermId>,
) -> Result<(), NoMemory>
    requires room { length values.old.items ≤ bound + 1 }
    requires tuples { (us : List ConstructorValues) × AreTuplesOf pool.old.trees (plain_tuples tuples.now) us }
    ensures kept { Extends pool.old.trees pool.new.trees }
    ensures constants { pool.new.constants ≡ pool.old.constants }
    ensures added { OnOk result ((vs : List ConstructorValue) (us : List ConstructorValues) → StandUnmerged fun us → AreTermsOf pool.old.trees values.old.items vs → AreTuplesOf pool.old.trees (plain_tuples tuples.now) us → AreTermsOf pool.new.trees values.new.items (take (bound + 1) (vs ++ map (built fun) us))) }
    ensures room { OnOk result (length values.new.items ≤ bound + 1) }
{
    for tuple in tuples {
        if values.len() > bound {
            return Ok(());
        }
        let value = pool.intern(Head::Fun(fun), tuple.terms.as_slice())?;
        values.push(value)?;
    }
    Ok(())
}

/// The first values of a sort that have a weight.
fn values_weighing(
    alloc: Global,
    sig: &Signature,
    pool: &mut Pool,
    shapes: &Shapes,
    tuples: &[TupleRow],
    sort: SortId,
    bound: usize,
) -> Result<Vec<TermId>, NoMemory>
    requires stands { IsSignature sig.now }
    requires shapes { AreShapes sig.now shapes.now }
    requires sort { Contains shapes.now.sorts.keys sort }
    requires some { 0 < length tuples.now }
    requires tuples { HaveTuples (shape_of sig.now shapes.now) shapes.now.arguments.items (bound + 1) pool.old.trees tuples.now }
    ensures kept { Extends pool.old.trees pool.new.trees }
    ensures constants { pool.new.constants ≡ pool.old.constants }
    ensures values { IfOk result (λ values. AreTermsOf pool.new.trees values.items (take (bound + 1) (values_weighing (shape_of sig.now shapes.now) sort (length tuples.now)))) }
{
    let weight = tuples.len();
    let mut values = Vec::new(alloc);
    if is_number(sort) {
        let number = number_of_weight(sort, weight);
        let value = pool.intern(Head::Num(sort, number), &[])?;
        values.push(value)?;
        return Ok(values);
    }
    let constructors = constructors_at(shapes, sort.0);
    for constructor in constructors {
        let arguments = tuples_of_weight(tuples, weight - 1, constructor.first);
        add_built(pool, constructor.fun, arguments, bound, &mut values)?;
    }
    Ok(values)
}

/// The first values of each sort that have the next weight.
fn next_values(
    alloc: Global,
    sig: &Signature,
    pool: &mut Pool,
    shapes: &Shapes,
    tuples: &[TupleRow],
    bound: usize,
) -> Result<ValueRow, NoMemory>
    requires stands { IsSignature sig.now }
    requires shapes { AreShapes sig.now shapes.now }
    requires some { 0 < length tuples.now }
    requires tuples { HaveTuples (shape_of sig.now shapes.now) shapes.now.arguments.items (bound + 1) pool.old.trees tuples.now }
    ensures kept { Extends pool.old.trees pool.new.trees }
    ensures constants { pool.new.constants ≡ pool.old.constants }
    ensures row { IfOk result (IsValueRow sig.now shapes.now bound pool.new.trees (length tuples.now)) }
{
    let mut by_sort = Vec::new(alloc);
    for number in 0..shapes.constructors.len() {
        let sort = SortId(number);
        if !shapes.sorts.contains(&sort) {
            by_sort.push(Vec::new(alloc))?;
            continue;
        }
        let values = values_weighing(alloc, sig, pool, shapes, tuples, sort, bound)?;
        by_sort.push(values)?;
    }
    Ok(ValueRow { by_sort })
}

/// The first lists of arguments of each place that have the next weight.
fn next_tuples(
    alloc: Global,
    arguments: &[Option<SortId>],
    values: &[ValueRow],
    tuples: &[TupleRow],
    bound: usize,
) -> Result<TupleRow, NoMemory>
    ensures { IfOk result (IsTupleRow arguments.now values.now tuples.now (length tuples.now) bound) }
{
    let mut by_place = Vec::new(alloc);
    for place in 0..arguments.len() {
        let Some(sort) = arguments[place] else {
            by_place.push(Vec::new(alloc))?;
            continue;
        };
        let found = tuples_weighing(alloc, values, tuples, sort, place + 1, bound)?;
        by_place.push(found)?;
    }
    Ok(TupleRow { by_place })
}

/// The lists of arguments that weigh nothing: at an end the one without arguments.
fn first_tuples(alloc: Global, arguments: &[Option<SortId>]) -> Result<TupleRow, NoMemory>
    ensures { IfOk result (IsFirstTupleRow arguments.now) }
{
    let mut by_place = Vec::new(alloc);
    for argument in arguments {
        if argument.is_some() {
            by_place.push(Vec::new(alloc))?;
            continue;
        }
        let nothing = Tuple {
            terms: Vec::new(alloc),
        };
        let mut found = Vec::new(alloc);
        found.push(nothing)?;
        by_place.push(found)?;
    }
    Ok(TupleRow { by_place })
}

/// The level of weight 0, at which no sort has values.
pub fn first_levels(alloc: Global, shapes: &Shapes) -> Result<Levels, NoMemory>
    ensures levels { IfOk result (λ levels. (g : Sig) (bound : ℕ) (ts : List Tree) → AreShapes g shapes.now → AreLevels g shapes.now bound ts levels) }
    ensures one { IfOk result (λ levels. length levels.values.items ≡ 1) }
{
    let nothing = Vec::new(alloc);
    let mut values = Vec::new(alloc);
    values.push(ValueRow { by_sort: nothing })?;
    let first = first_tuples(alloc, shapes.arguments.as_slice())?;
    let mut tuples = Vec::new(alloc);
    tuples.push(first)?;
    Ok(Levels { values, tuples })
}

/// Adds the level of the next weight.
pub fn add_level(
    alloc: Global,
    sig: &Signature,
    pool: &mut Pool,
    shapes: &Shapes,
    levels: &mut Levels,
    bound: usize,
) -> Result<(), NoMemory>
    requires stands { IsSignature sig.now }
    requires shapes { AreShapes sig.now shapes.now }
    requires levels { AreLevels sig.now shapes.now bound pool.old.trees levels.old }
    ensures kept { Extends pool.old.trees pool.new.trees }
    ensures constants { pool.new.constants ≡ pool.old.constants }
    ensures levels { OnOk result (AreLevels sig.now shapes.now bound pool.new.trees levels.new) }
    ensures longer { OnOk result (length levels.new.values.items ≡ length levels.old.values.items + 1) }
{
    let values = next_values(alloc, sig, pool, shapes, levels.tuples.as_slice(), bound)?;
    levels.values.push(values)?;
    let tuples = next_tuples(
        alloc,
        shapes.arguments.as_slice(),
        levels.values.as_slice(),
        levels.tuples.as_slice(),
        bound,
    )?;
    levels.tuples.push(tuples)?;
    Ok(())
}
