//! The summands of the regular encoding.

ghost use Rattle.std.specs.Prelude.{◌≡◌, ◌≤◌, ◌++◌, map, length, option_map, IfOk, IfSome, OnOk};
ghost use Rattle.std.specs.List.{All};
ghost use Rattle.data_theory.specs.IdTrees.{put_tree};
ghost use Rattle.term_pool.specs.HeadTrees.{tree_at, trees_at, IsIn, AreIn};
ghost use Rattle.term_pool.specs.Pools.{Extends};
ghost use Rattle.term_pool.specs.Bindings.{listed, listed_terms};
ghost use Rattle.lps_core.specs.PlainLinears.{plain_next, plain_summand};
ghost use Rattle.greibach.specs.PlainForms.{plain_call, plain_equation, plain_form_summand};
ghost use Rattle.lps_core.specs.TreeSummands.{trees_of_summand, IsSummandIn, bound_tree};
ghost use Rattle.lps_core.specs.TreeConditions.{conjunction_tree, tree_parts, trees_without_true};
ghost use Rattle.regular_encoder.specs.WholeEncoding.{equation_encoded, trees_of_summands};
ghost use Rattle.regular_encoder.specs.TreeEncoding.{place_at, plain_layout, tree_control_of, tree_control_parts, tree_encoded, tree_encoded_next, tree_next, IsCallIn, IsFormSummandIn};

use crate::layouts::Layout;
use data_theory::{NoMemory, TermId, VarId};
use greibach::{GreibachEquation, GreibachSummand};
use lps_core::{
    Summand, conjoined, equals_number, numeral, parts_of, put_all, put_label, renaming,
    variable_term,
};
use std::alloc::Global;
use term_pool::Pool;

/// The term of a column: that of the argument whose place it is, and otherwise its own.
fn column_term(
    pool: &mut Pool,
    column: VarId,
    place: &[VarId],
    args: &[TermId],
) -> Result<TermId, NoMemory>
    requires within { AreIn pool.old.trees args.now }
    requires long { length place.now ≡ length args.now }
    ensures kept { Extends pool.old.trees pool.new.trees }
    ensures constants { pool.new.constants ≡ pool.old.constants }
    ensures within { IfOk result (λ id. IsIn pool.new.trees id) }
    ensures tree { IfOk result (λ id. tree_at pool.new.trees id ≡ bound_tree place.now (trees_at pool.old.trees args.now) column) }
{
    for number in 0..place.len() {
        if place[number].0 == column.0 {
            return Ok(args[number]);
        }
    }
    variable_term(pool, column)
}

/// Adds the terms of columns.
fn column_terms(
    pool: &mut Pool,
    columns: &[VarId],
    place: &[VarId],
    args: &[TermId],
    terms: &mut Vec<TermId>,
) -> Result<(), NoMemory>
    requires within { AreIn pool.old.trees args.now }
    requires long { length place.now ≡ length args.now }
    requires terms { AreIn pool.old.trees terms.old.items }
    ensures kept { Extends pool.old.trees pool.new.trees }
    ensures constants { pool.new.constants ≡ pool.old.constants }
    ensures within { OnOk result (AreIn pool.new.trees terms.new.items) }
    ensures terms { OnOk result (trees_at pool.new.trees terms.new.items ≡ trees_at pool.old.trees terms.old.items ++ map (bound_tree place.now (trees_at pool.old.trees args.now)) columns.now) }
{
    for column in columns {
        terms.push(column_term(pool, *column, place, args)?)?;
    }
    Ok(())
}

/// The control number, where there is a control parameter.
pub(crate) fn control_terms(
    alloc: Global,
    pool: &mut Pool,
    control: Option<VarId>,
    number: usize,
) -> Result<Vec<TermId>, NoMemory>
    requires { 1 ≤ number }
    ensures kept { Extends pool.old.trees pool.new.trees }
    ensures constants { pool.new.constants ≡ pool.old.constants }
    ensures within { IfOk result (λ found. AreIn pool.new.trees found.items) }
    ensures terms { IfOk result (λ found. trees_at pool.new.trees found.items ≡ tree_control_of control number) }
{
    let mut found = Vec::new(alloc);
    if let Some(_) = control {
        found.push(numeral(pool, number)?)?;
    }
    Ok(found)
}

/// The control number, where there is a control parameter, and the terms of the columns.
fn next_terms(
    alloc: Global,
    pool: &mut Pool,
    layout: &Layout,
    call: &(usize, Vec<TermId>),
    by: &[(VarId, TermId)],
) -> Result<Vec<TermId>, NoMemory>
    requires call { IsCallIn pool.old.trees (plain_layout layout.now) (plain_call call.now) }
    requires listed { AreIn pool.old.trees (listed_terms by.now) }
    ensures kept { Extends pool.old.trees pool.new.trees }
    ensures constants { pool.new.constants ≡ pool.old.constants }
    ensures within { IfOk result (λ terms. AreIn pool.new.trees terms.items) }
    ensures terms { IfOk result (λ terms. trees_at pool.new.trees terms.items ≡ tree_next (plain_layout layout.now) (listed pool.old.trees by.now) call.now.0 (trees_at pool.old.trees call.now.1.items)) }
{
    let args = put_all(alloc, pool, call.1.as_slice(), by)?;
    let mut terms = control_terms(alloc, pool, layout.control, call.0)?;
    let place = layout.places[call.0 - 1].as_slice();
    column_terms(
        pool,
        layout.columns.as_slice(),
        place,
        args.as_slice(),
        &mut terms,
    )?;
    Ok(terms)
}

/// The part `s == i`, where there is a control parameter.
fn control_parts(
    alloc: Global,
    pool: &mut Pool,
    control: Option<VarId>,
    number: usize,
) -> Result<Vec<TermId>, NoMemory>
    requires { 1 ≤ number }
    ensures kept { Extends pool.old.trees pool.new.trees }
    ensures constants { pool.new.constants ≡ pool.old.constants }
    ensures within { IfOk result (λ found. AreIn pool.new.trees found.items) }
    ensures parts { IfOk result (λ found. trees_at pool.new.trees found.items ≡ tree_control_parts control number) }
{
    let mut found = Vec::new(alloc);
    if let Some(control) = control {
        let term = variable_term(pool, control)?;
        found.push(equals_number(pool, term, number)?)?;
    }
    Ok(found)
}

/// The condition of a summand of the equation with a number from 1.
fn encode_condition(
    alloc: Global,
    pool: &mut Pool,
    control: Option<VarId>,
    number: usize,
    cond: TermId,
    by: &[(VarId, TermId)],
) -> Result<TermId, NoMemory>
    requires number { 1 ≤ number }
    requires within { IsIn pool.old.trees cond }
    requires listed { AreIn pool.old.trees (listed_terms by.now) }
    ensures kept { Extends pool.old.trees pool.new.trees }
    ensures constants { pool.new.constants ≡ pool.old.constants }
    ensures within { IfOk result (λ id. IsIn pool.new.trees id) }
    ensures tree { IfOk result (λ id. tree_at pool.new.trees id ≡ conjunction_tree (tree_control_parts control number ++ trees_without_true (tree_parts (put_tree (listed pool.old.trees by.now) (tree_at pool.old.trees cond))))) }
{
    let own = pool.subst(cond, by)?;
    let mut conditions = control_parts(alloc, pool, control, number)?;
    parts_of(pool, own, &mut conditions)?;
    conjoined(pool, conditions)
}

/// The next terms of a summand that calls.
fn encode_next(
    alloc: Global,
    pool: &mut Pool,
    layout: &Layout,
    next: &[(usize, Vec<TermId>)],
    by: &[(VarId, TermId)],
) -> Result<Option<Vec<TermId>>, NoMemory>
    requires next { All (IsCallIn pool.old.trees (plain_layout layout.now)) (map plain_call next.now) }
    requires listed { AreIn pool.old.trees (listed_terms by.now) }
    ensures kept { Extends pool.old.trees pool.new.trees }
    ensures constants { pool.new.constants ≡ pool.old.constants }
    ensures within { IfOk result (λ made. IfSome (plain_next made) (AreIn pool.new.trees)) }
    ensures next { IfOk result (λ made. option_map (trees_at pool.new.trees) (plain_next made) ≡ tree_encoded_next (plain_layout layout.now) (listed pool.old.trees by.now) pool.old.trees (map plain_call next.now)) }
{
    match next {
        [] => Ok(None),
        [call, ..] => Ok(Some(next_terms(alloc, pool, layout, call, by)?)),
    }
}

/// A summand of the equation with a number from 1.
fn encode_summand(
    alloc: Global,
    pool: &mut Pool,
    layout: &Layout,
    number: usize,
    summand: &GreibachSummand,
    by: &[(VarId, TermId)],
) -> Result<Summand, NoMemory>
    requires number { 1 ≤ number }
    requires within { IsFormSummandIn pool.old.trees (plain_layout layout.now) (plain_form_summand summand.now) }
    requires listed { AreIn pool.old.trees (listed_terms by.now) }
    ensures kept { Extends pool.old.trees pool.new.trees }
    ensures constants { pool.new.constants ≡ pool.old.constants }
    ensures within { IfOk result (λ made. IsSummandIn pool.new.trees (plain_summand made)) }
    ensures summand { IfOk result (λ made. trees_of_summand pool.new.trees (plain_summand made) ≡ tree_encoded (plain_layout layout.now) number (listed pool.old.trees by.now) pool.old.trees (plain_form_summand summand.now)) }
{
    let cond = encode_condition(alloc, pool, layout.control, number, summand.cond, by)?;
    let label = put_label(alloc, pool, &summand.label, by)?;
    let next = encode_next(alloc, pool, layout, summand.next.as_slice(), by)?;
    Ok(Summand {
        sums: summand.sums.to_vec(alloc)?,
        cond,
        label,
        next,
    })
}

/// Adds the summands that encode those of the equation with a number from 1: its parameters become their columns, where there is a
/// control parameter a summand asks for the number, and a column that the next equation doesn't use keeps its value.
pub fn encode_equation(
    alloc: Global,
    pool: &mut Pool,
    layout: &Layout,
    number: usize,
    equation: &GreibachEquation,
    summands: &mut Vec<Summand>,
) -> Result<(), NoMemory>
    requires number { 1 ≤ number }
    requires place { number ≤ length (plain_layout layout.now).places }
    requires long { length (place_at (plain_layout layout.now) number) ≡ length equation.now.params.items }
    requires within { All (IsFormSummandIn pool.old.trees (plain_layout layout.now)) (map plain_form_summand equation.now.summands.items) }
    requires made { All (IsSummandIn pool.old.trees) (map plain_summand summands.old.items) }
    ensures kept { Extends pool.old.trees pool.new.trees }
    ensures constants { pool.new.constants ≡ pool.old.constants }
    ensures within { OnOk result (All (IsSummandIn pool.new.trees) (map plain_summand summands.new.items)) }
    ensures summands { OnOk result (trees_of_summands pool.new.trees summands.new.items ≡ trees_of_summands pool.old.trees summands.old.items ++ equation_encoded (plain_layout layout.now) number pool.old.trees (plain_equation equation.now)) }
{
    let place = layout.places[number - 1].as_slice();
    let by = renaming(alloc, pool, equation.params.as_slice(), place)?;
    for summand in &equation.summands {
        let made = encode_summand(alloc, pool, layout, number, summand, by.as_slice())?;
        summands.push(made)?;
    }
    Ok(())
}
