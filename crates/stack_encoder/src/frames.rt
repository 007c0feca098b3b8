//! Terms over a stack.

ghost use Rattle.std.specs.Prelude.{◌≡◌, ◌≤◌, ◌++◌, [], ◌∷◌, length, map, List, IfOk, OnOk};
ghost use Rattle.std.specs.List.{All};
ghost use Rattle.data_theory.specs.IdTrees.{Tree, variable, put_tree};
ghost use Rattle.term_pool.specs.Bindings.{listed, listed_terms};
ghost use Rattle.term_pool.specs.HeadTrees.{tree_at, trees_at, IsIn, AreIn};
ghost use Rattle.term_pool.specs.Pools.{Extends};
ghost use Rattle.lps_core.specs.TreeConditions.{conjunction_tree, tree_parts, trees_without_true};
ghost use Rattle.greibach.specs.PlainForms.{plain_call};
ghost use Rattle.stack_encoder.specs.Frames.{frame_layout, plain_symbols};
ghost use Rattle.stack_encoder.specs.TreeStack.{argument_tree, column_trees, first_parts, frame_tree, not_function, one_tree, place_at, pushed_trees, rest_tree, IsCallIn};

use crate::layouts::{Layout, value_beside};
use crate::symbols::Symbols;
use data_theory::{FunId, NoMemory, TermId, VarId};
use lps_core::{conjoined, equals_number, numeral, parts_of, put_all, variable_term};
use std::alloc::Global;
use term_pool::{Head, Pool};

/// `!`
const NOT: FunId = FunId(8);

/// A function of the stack.
pub fn of_stack(pool: &mut Pool, symbols: &Symbols, fun: FunId) -> Result<TermId, NoMemory>
    ensures kept { Extends pool.old.trees pool.new.trees }
    ensures constants { pool.new.constants ≡ pool.old.constants }
    ensures within { IfOk result (λ id. IsIn pool.new.trees id) }
    ensures tree { IfOk result (λ id. tree_at pool.new.trees id ≡ one_tree fun (variable symbols.now.stack)) }
{
    let stack = variable_term(pool, symbols.stack)?;
    pool.intern(Head::Fun(fun), &[stack])
}

/// `is_push(rest(q))`
pub fn more_part(pool: &mut Pool, symbols: &Symbols) -> Result<TermId, NoMemory>
    ensures kept { Extends pool.old.trees pool.new.trees }
    ensures constants { pool.new.constants ≡ pool.old.constants }
    ensures within { IfOk result (λ id. IsIn pool.new.trees id) }
    ensures tree { IfOk result (λ id. tree_at pool.new.trees id ≡ one_tree symbols.now.is_push (rest_tree (plain_symbols symbols.now) symbols.now.stack)) }
{
    let rest = of_stack(pool, symbols, symbols.rest)?;
    pool.intern(Head::Fun(symbols.is_push), &[rest])
}

/// `!is_push(rest(q))`
pub fn last_part(pool: &mut Pool, symbols: &Symbols) -> Result<TermId, NoMemory>
    ensures kept { Extends pool.old.trees pool.new.trees }
    ensures constants { pool.new.constants ≡ pool.old.constants }
    ensures within { IfOk result (λ id. IsIn pool.new.trees id) }
    ensures tree { IfOk result (λ id. tree_at pool.new.trees id ≡ one_tree not_function (one_tree symbols.now.is_push (rest_tree (plain_symbols symbols.now) symbols.now.stack))) }
{
    let more = more_part(pool, symbols)?;
    pool.intern(Head::Fun(NOT), &[more])
}

/// `pc(q) == i`
fn number_part(pool: &mut Pool, symbols: &Symbols, number: usize) -> Result<TermId, NoMemory>
    requires { 1 ≤ number }
    ensures kept { Extends pool.old.trees pool.new.trees }
    ensures constants { pool.new.constants ≡ pool.old.constants }
    ensures within { IfOk result (λ id. IsIn pool.new.trees id) }
    ensures tree { IfOk result (λ id. one_tree symbols.now.is_push (variable symbols.now.stack) ∷ tree_at pool.new.trees id ∷ [] ≡ first_parts (plain_symbols symbols.now) symbols.now.stack number) }
{
    let top = of_stack(pool, symbols, symbols.pc)?;
    equals_number(pool, top, number)
}

/// `is_push(q)` and `pc(q) == i`
fn own_parts(
    alloc: Global,
    pool: &mut Pool,
    symbols: &Symbols,
    number: usize,
) -> Result<Vec<TermId>, NoMemory>
    requires { 1 ≤ number }
    ensures kept { Extends pool.old.trees pool.new.trees }
    ensures constants { pool.new.constants ≡ pool.old.constants }
    ensures within { IfOk result (λ found. AreIn pool.new.trees found.items) }
    ensures trees { IfOk result (λ found. trees_at pool.new.trees found.items ≡ first_parts (plain_symbols symbols.now) symbols.now.stack number) }
{
    let mut found = Vec::new(alloc);
    let first = of_stack(pool, symbols, symbols.is_push)?;
    found.push(first)?;
    let second = number_part(pool, symbols, number)?;
    found.push(second)?;
    Ok(found)
}

/// The condition of a summand of the equation with a number from 1, with further parts.
pub fn encode_condition(
    alloc: Global,
    pool: &mut Pool,
    symbols: &Symbols,
    number: usize,
    own: TermId,
    further: &[TermId],
) -> Result<TermId, NoMemory>
    requires number { 1 ≤ number }
    requires within { IsIn pool.old.trees own }
    requires further { AreIn pool.old.trees further.now }
    ensures kept { Extends pool.old.trees pool.new.trees }
    ensures constants { pool.new.constants ≡ pool.old.constants }
    ensures within { IfOk result (λ id. IsIn pool.new.trees id) }
    ensures tree { IfOk result (λ id. tree_at pool.new.trees id ≡ conjunction_tree (first_parts (plain_symbols symbols.now) symbols.now.stack number ++ (trees_without_true (tree_parts (tree_at pool.old.trees own)) ++ trees_at pool.old.trees further.now))) }
{
    let mut conditions = own_parts(alloc, pool, symbols, number)?;
    parts_of(pool, own, &mut conditions)?;
    conditions.extend_from_slice(further)?;
    conjoined(pool, conditions)
}

/// The term of a column: the argument whose place it is, or the one that stands where the equation doesn't use it.
fn column_term(place: &[usize], args: &[TermId], column: usize, default: TermId) -> TermId
    requires long { length place.now ≡ length args.now }
    ensures tree { (ts : List Tree) → tree_at ts result ≡ argument_tree place.now (trees_at ts args.now) column (tree_at ts default) }
    ensures within { (ts : List Tree) → AreIn ts args.now → IsIn ts default → IsIn ts result }
{
    match value_beside(place, args, column) {
        Some(term) => term,
        None => default,
    }
}

/// Adds the terms of the columns.
fn add_columns(
    place: &[usize],
    args: &[TermId],
    defaults: &[TermId],
    found: &mut Vec<TermId>,
) -> Result<(), NoMemory>
    requires long { length place.now ≡ length args.now }
    ensures trees { OnOk result ((ts : List Tree) → trees_at ts found.new.items ≡ trees_at ts found.old.items ++ column_trees place.now (trees_at ts args.now) 0 (trees_at ts defaults.now)) }
    ensures within { OnOk result ((ts : List Tree) → AreIn ts args.now → AreIn ts defaults.now → AreIn ts found.old.items → AreIn ts found.new.items) }
{
    for column in 0..defaults.len() {
        found.push(column_term(place, args, column, defaults[column]))?;
    }
    Ok(())
}

/// The frame of a call on a stack.
pub fn pushed(
    alloc: Global,
    pool: &mut Pool,
    symbols: &Symbols,
    layout: &Layout,
    number: usize,
    args: &[TermId],
    below: TermId,
) -> Result<TermId, NoMemory>
    requires number { 1 ≤ number }
    requires place { number ≤ length layout.now.places.items }
    requires long { length (place_at (frame_layout pool.old.trees layout.now) number) ≡ length args.now }
    requires args { AreIn pool.old.trees args.now }
    requires below { IsIn pool.old.trees below }
    requires defaults { AreIn pool.old.trees layout.now.defaults.items }
    ensures kept { Extends pool.old.trees pool.new.trees }
    ensures constants { pool.new.constants ≡ pool.old.constants }
    ensures within { IfOk result (λ id. IsIn pool.new.trees id) }
    ensures tree { IfOk result (λ id. tree_at pool.new.trees id ≡ frame_tree (plain_symbols symbols.now) (frame_layout pool.old.trees layout.now) number (trees_at pool.old.trees args.now) (tree_at pool.old.trees below)) }
{
    let mut list = Vec::new(alloc);
    let first = numeral(pool, number)?;
    list.push(first)?;
    let place = layout.places[number - 1].as_slice();
    add_columns(place, args, layout.defaults.as_slice(), &mut list)?;
    list.push(below)?;
    pool.intern(Head::Fun(symbols.push), list.as_slice())
}

/// The frame of a call on a stack, with those listed put in for the variables of its arguments.
fn pushed_call(
    alloc: Global,
    pool: &mut Pool,
    symbols: &Symbols,
    layout: &Layout,
    call: &(usize, Vec<TermId>),
    by: &[(VarId, TermId)],
    below: TermId,
) -> Result<TermId, NoMemory>
    requires call { IsCallIn pool.old.trees (frame_layout pool.old.trees layout.now) (plain_call call.now) }
    requires listed { AreIn pool.old.trees (listed_terms by.now) }
    requires below { IsIn pool.old.trees below }
    requires defaults { AreIn pool.old.trees layout.now.defaults.items }
    ensures kept { Extends pool.old.trees pool.new.trees }
    ensures constants { pool.new.constants ≡ pool.old.constants }
    ensures within { IfOk result (λ id. IsIn pool.new.trees id) }
    ensures tree { IfOk result (λ id. tree_at pool.new.trees id ≡ frame_tree (plain_symbols symbols.now) (frame_layout pool.old.trees layout.now) call.now.0 (map (put_tree (listed pool.old.trees by.now)) (trees_at pool.old.trees call.now.1.items)) (tree_at pool.old.trees below)) }
{
    let args = put_all(alloc, pool, call.1.as_slice(), by)?;
    pushed(alloc, pool, symbols, layout, call.0, args.as_slice(), below)
}

/// The frames of calls on a stack, the first one on top.
pub fn pushed_on(
    alloc: Global,
    pool: &mut Pool,
    symbols: &Symbols,
    layout: &Layout,
    calls: &[(usize, Vec<TermId>)],
    by: &[(VarId, TermId)],
    below: TermId,
) -> Result<TermId, NoMemory>
    requires calls { All (IsCallIn pool.old.trees (frame_layout pool.old.trees layout.now)) (map plain_call calls.now) }
    requires listed { AreIn pool.old.trees (listed_terms by.now) }
    requires below { IsIn pool.old.trees below }
    requires defaults { AreIn pool.old.trees layout.now.defaults.items }
    ensures kept { Extends pool.old.trees pool.new.trees }
    ensures constants { pool.new.constants ≡ pool.old.constants }
    ensures within { IfOk result (λ id. IsIn pool.new.trees id) }
    ensures tree { IfOk result (λ id. tree_at pool.new.trees id ≡ pushed_trees (plain_symbols symbols.now) (frame_layout pool.old.trees layout.now) (listed pool.old.trees by.now) pool.old.trees (map plain_call calls.now) (tree_at pool.old.trees below)) }
{
    let mut top = below;
    for number in 0..calls.len() {
        let call = &calls[calls.len() - 1 - number];
        top = pushed_call(alloc, pool, symbols, layout, call, by, top)?;
    }
    Ok(top)
}
