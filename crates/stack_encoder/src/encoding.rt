//! The summands of the stack encoding.

ghost use Rattle.std.specs.Prelude.{◌≡◌, ◌≤◌, ◌<◌, ◌++◌, [], ◌∷◌, map, length, None, IfOk, OnOk};
ghost use Rattle.std.specs.List.{All};
ghost use Rattle.data_theory.specs.declared.ids.VarId.{VarId};
ghost use Rattle.term_pool.specs.HeadTrees.{AreIn};
ghost use Rattle.term_pool.specs.Pools.{Extends};
ghost use Rattle.term_pool.specs.Bindings.{listed, listed_terms};
ghost use Rattle.lps_core.specs.PlainLinears.{plain_next, plain_summand};
ghost use Rattle.lps_core.specs.TreeSummands.{bound_tree, trees_of_summand, IsSummandIn};
ghost use Rattle.greibach.specs.PlainForms.{plain_equation, plain_form_summand};
ghost use Rattle.regular_encoder.specs.WholeEncoding.{trees_of_summands};
ghost use Rattle.stack_encoder.specs.Frames.{frame_layout, plain_symbols};
ghost use Rattle.stack_encoder.specs.TreeStack.{field_tree, place_at, tree_stacked, tree_way_down, tree_way_out, tree_way_up, IsFormSummandIn};
ghost use Rattle.stack_encoder.specs.WholeStack.{equation_stacked, summand_stacked, trees_stacked_from, way_of, AreEquationsFor, IsEquationIn, IsWayIn};

use crate::frames::{encode_condition, last_part, more_part, of_stack, pushed_on};
use crate::layouts::Layout;
use crate::symbols::Symbols;
use data_theory::{NoMemory, TermId, VarId};
use greibach::{GreibachEquation, GreibachSummand};
use lps_core::{Summand, put_label};
use std::alloc::Global;
use term_pool::Pool;

/// Parameters with the fields of the top frame that have their values, to be put in.
fn to_fields(
    alloc: Global,
    pool: &mut Pool,
    symbols: &Symbols,
    params: &[VarId],
    place: &[usize],
) -> Result<Vec<(VarId, TermId)>, NoMemory>
    requires long { length place.now ≡ length params.now }
    requires fields { All (λ x. x < length symbols.now.fields.items) place.now }
    ensures kept { Extends pool.old.trees pool.new.trees }
    ensures constants { pool.new.constants ≡ pool.old.constants }
    ensures within { IfOk result (λ by. AreIn pool.new.trees (listed_terms by.items)) }
    ensures moves { IfOk result (λ by. (v : VarId) → listed pool.new.trees by.items v ≡ bound_tree params.now (map (field_tree (plain_symbols symbols.now) symbols.now.stack) place.now) v) }
{
    let mut by = Vec::new(alloc);
    for number in 0..params.len() {
        let field = of_stack(pool, symbols, symbols.fields[place[number]])?;
        by.push((params[number], field))?;
    }
    Ok(by)
}

/// A summand with further parts of its condition and with these next terms.
fn encode_way(
    alloc: Global,
    pool: &mut Pool,
    symbols: &Symbols,
    number: usize,
    summand: &GreibachSummand,
    by: &[(VarId, TermId)],
    further: &[TermId],
    next: Option<Vec<TermId>>,
) -> Result<Summand, NoMemory>
    requires number { 1 ≤ number }
    requires within { IsWayIn pool.old.trees (plain_form_summand summand.now) further.now (plain_next next) }
    requires listed { AreIn pool.old.trees (listed_terms by.now) }
    ensures kept { Extends pool.old.trees pool.new.trees }
    ensures constants { pool.new.constants ≡ pool.old.constants }
    ensures within { IfOk result (λ made. IsSummandIn pool.new.trees (plain_summand made)) }
    ensures summand { IfOk result (λ made. trees_of_summand pool.new.trees (plain_summand made) ≡ tree_stacked (plain_symbols symbols.now) symbols.now.stack number (listed pool.old.trees by.now) pool.old.trees (plain_form_summand summand.now) (way_of pool.old.trees further.now (plain_next next))) }
{
    let own = pool.subst(summand.cond, by)?;
    let cond = encode_condition(alloc, pool, symbols, number, own, further)?;
    let label = put_label(alloc, pool, &summand.label, by)?;
    Ok(Summand {
        sums: summand.sums.to_vec(alloc)?,
        cond,
        label,
        next,
    })
}

/// The summand that pushes the frames of its calls on the rest of the stack.
fn encode_up(
    alloc: Global,
    pool: &mut Pool,
    symbols: &Symbols,
    layout: &Layout,
    number: usize,
    summand: &GreibachSummand,
    by: &[(VarId, TermId)],
) -> Result<Summand, NoMemory>
    requires number { 1 ≤ number }
    requires within { IsFormSummandIn pool.old.trees (frame_layout pool.old.trees layout.now) (plain_form_summand summand.now) }
    requires listed { AreIn pool.old.trees (listed_terms by.now) }
    requires defaults { AreIn pool.old.trees layout.now.defaults.items }
    ensures kept { Extends pool.old.trees pool.new.trees }
    ensures constants { pool.new.constants ≡ pool.old.constants }
    ensures within { IfOk result (λ made. IsSummandIn pool.new.trees (plain_summand made)) }
    ensures summand { IfOk result (λ made. trees_of_summand pool.new.trees (plain_summand made) ≡ tree_stacked (plain_symbols symbols.now) symbols.now.stack number (listed pool.old.trees by.now) pool.old.trees (plain_form_summand summand.now) (tree_way_up (plain_symbols symbols.now) (frame_layout pool.old.trees layout.now) symbols.now.stack (listed pool.old.trees by.now) pool.old.trees (plain_form_summand summand.now).next)) }
{
    let rest = of_stack(pool, symbols, symbols.rest)?;
    let calls = summand.next.as_slice();
    let top = pushed_on(alloc, pool, symbols, layout, calls, by, rest)?;
    let next = Vec::from_array(alloc, [top])?;
    encode_way(alloc, pool, symbols, number, summand, by, &[], Some(next))
}

/// The summand that goes on with the rest of the stack, where a frame is left there.
fn encode_down(
    alloc: Global,
    pool: &mut Pool,
    symbols: &Symbols,
    number: usize,
    summand: &GreibachSummand,
    by: &[(VarId, TermId)],
) -> Result<Summand, NoMemory>
    requires number { 1 ≤ number }
    requires within { IsWayIn pool.old.trees (plain_form_summand summand.now) [] None }
    requires listed { AreIn pool.old.trees (listed_terms by.now) }
    ensures kept { Extends pool.old.trees pool.new.trees }
    ensures constants { pool.new.constants ≡ pool.old.constants }
    ensures within { IfOk result (λ made. IsSummandIn pool.new.trees (plain_summand made)) }
    ensures summand { IfOk result (λ made. trees_of_summand pool.new.trees (plain_summand made) ≡ tree_stacked (plain_symbols symbols.now) symbols.now.stack number (listed pool.old.trees by.now) pool.old.trees (plain_form_summand summand.now) (tree_way_down (plain_symbols symbols.now) symbols.now.stack)) }
{
    let more = more_part(pool, symbols)?;
    let rest = of_stack(pool, symbols, symbols.rest)?;
    let next = Vec::from_array(alloc, [rest])?;
    encode_way(
        alloc,
        pool,
        symbols,
        number,
        summand,
        by,
        &[more],
        Some(next),
    )
}

/// The summand that ends, where no frame is left.
fn encode_out(
    alloc: Global,
    pool: &mut Pool,
    symbols: &Symbols,
    number: usize,
    summand: &GreibachSummand,
    by: &[(VarId, TermId)],
) -> Result<Summand, NoMemory>
    requires number { 1 ≤ number }
    requires within { IsWayIn pool.old.trees (plain_form_summand summand.now) [] None }
    requires listed { AreIn pool.old.trees (listed_terms by.now) }
    ensures kept { Extends pool.old.trees pool.new.trees }
    ensures constants { pool.new.constants ≡ pool.old.constants }
    ensures within { IfOk result (λ made. IsSummandIn pool.new.trees (plain_summand made)) }
    ensures summand { IfOk result (λ made. trees_of_summand pool.new.trees (plain_summand made) ≡ tree_stacked (plain_symbols symbols.now) symbols.now.stack number (listed pool.old.trees by.now) pool.old.trees (plain_form_summand summand.now) (tree_way_out (plain_symbols symbols.now) symbols.now.stack)) }
{
    let last = last_part(pool, symbols)?;
    encode_way(alloc, pool, symbols, number, summand, by, &[last], None)
}

/// The summands for a summand without calls.
fn encode_last(
    alloc: Global,
    pool: &mut Pool,
    symbols: &Symbols,
    number: usize,
    summand: &GreibachSummand,
    by: &[(VarId, TermId)],
    summands: &mut Vec<Summand>,
) -> Result<(), NoMemory>
    requires number { 1 ≤ number }
    requires within { IsWayIn pool.old.trees (plain_form_summand summand.now) [] None }
    requires listed { AreIn pool.old.trees (listed_terms by.now) }
    requires made { All (IsSummandIn pool.old.trees) (map plain_summand summands.old.items) }
    ensures kept { Extends pool.old.trees pool.new.trees }
    ensures constants { pool.new.constants ≡ pool.old.constants }
    ensures within { OnOk result (All (IsSummandIn pool.new.trees) (map plain_summand summands.new.items)) }
    ensures summands { OnOk result (trees_of_summands pool.new.trees summands.new.items ≡ trees_of_summands pool.old.trees summands.old.items ++ map (tree_stacked (plain_symbols symbols.now) symbols.now.stack number (listed pool.old.trees by.now) pool.old.trees (plain_form_summand summand.now)) (tree_way_down (plain_symbols symbols.now) symbols.now.stack ∷ tree_way_out (plain_symbols symbols.now) symbols.now.stack ∷ [])) }
{
    summands.push(encode_down(alloc, pool, symbols, number, summand, by)?)?;
    summands.push(encode_out(alloc, pool, symbols, number, summand, by)?)?;
    Ok(())
}

/// Adds the summands for one of the equation with a number from 1: one where it calls, and two where it doesn't.
fn encode_summand(
    alloc: Global,
    pool: &mut Pool,
    symbols: &Symbols,
    layout: &Layout,
    number: usize,
    summand: &GreibachSummand,
    by: &[(VarId, TermId)],
    summands: &mut Vec<Summand>,
) -> Result<(), NoMemory>
    requires number { 1 ≤ number }
    requires within { IsFormSummandIn pool.old.trees (frame_layout pool.old.trees layout.now) (plain_form_summand summand.now) }
    requires listed { AreIn pool.old.trees (listed_terms by.now) }
    requires defaults { AreIn pool.old.trees layout.now.defaults.items }
    requires made { All (IsSummandIn pool.old.trees) (map plain_summand summands.old.items) }
    ensures kept { Extends pool.old.trees pool.new.trees }
    ensures constants { pool.new.constants ≡ pool.old.constants }
    ensures within { OnOk result (All (IsSummandIn pool.new.trees) (map plain_summand summands.new.items)) }
    ensures summands { OnOk result (trees_of_summands pool.new.trees summands.new.items ≡ trees_of_summands pool.old.trees summands.old.items ++ summand_stacked (plain_symbols symbols.now) (frame_layout pool.old.trees layout.now) symbols.now.stack number (listed pool.old.trees by.now) pool.old.trees (plain_form_summand summand.now)) }
{
    if summand.next.len() == 0 {
        return encode_last(alloc, pool, symbols, number, summand, by, summands);
    }
    summands.push(encode_up(alloc, pool, symbols, layout, number, summand, by)?)?;
    Ok(())
}

/// Adds the summands for those of the equation with a number from 1. Its parameters become the fields of the top frame.
fn encode_equation(
    alloc: Global,
    pool: &mut Pool,
    symbols: &Symbols,
    layout: &Layout,
    number: usize,
    equation: &GreibachEquation,
    summands: &mut Vec<Summand>,
) -> Result<(), NoMemory>
    requires number { 1 ≤ number }
    requires equation { IsEquationIn pool.old.trees (length symbols.now.fields.items) (frame_layout pool.old.trees layout.now) number (plain_equation equation.now) }
    requires defaults { AreIn pool.old.trees layout.now.defaults.items }
    requires made { All (IsSummandIn pool.old.trees) (map plain_summand summands.old.items) }
    ensures kept { Extends pool.old.trees pool.new.trees }
    ensures constants { pool.new.constants ≡ pool.old.constants }
    ensures within { OnOk result (All (IsSummandIn pool.new.trees) (map plain_summand summands.new.items)) }
    ensures summands { OnOk result (trees_of_summands pool.new.trees summands.new.items ≡ trees_of_summands pool.old.trees summands.old.items ++ equation_stacked (plain_symbols symbols.now) (frame_layout pool.old.trees layout.now) symbols.now.stack number pool.old.trees (plain_equation equation.now)) }
{
    let place = layout.places[number - 1].as_slice();
    let by = to_fields(alloc, pool, symbols, equation.params.as_slice(), place)?;
    for summand in &equation.summands {
        encode_summand(
            alloc,
            pool,
            symbols,
            layout,
            number,
            summand,
            by.as_slice(),
            summands,
        )?;
    }
    Ok(())
}

/// The summands of all equations, in their order.
pub fn encode_equations(
    alloc: Global,
    pool: &mut Pool,
    symbols: &Symbols,
    layout: &Layout,
    equations: &[GreibachEquation],
) -> Result<Vec<Summand>, NoMemory>
    requires equations { AreEquationsFor pool.old.trees (length symbols.now.fields.items) (frame_layout pool.old.trees layout.now) (map plain_equation equations.now) }
    requires defaults { AreIn pool.old.trees layout.now.defaults.items }
    ensures kept { Extends pool.old.trees pool.new.trees }
    ensures constants { pool.new.constants ≡ pool.old.constants }
    ensures within { IfOk result (λ made. All (IsSummandIn pool.new.trees) (map plain_summand made.items)) }
    ensures summands { IfOk result (λ made. trees_of_summands pool.new.trees made.items ≡ trees_stacked_from (plain_symbols symbols.now) (frame_layout pool.old.trees layout.now) symbols.now.stack 1 pool.old.trees (map plain_equation equations.now)) }
{
    let mut summands = Vec::new(alloc);
    for number in 0..equations.len() {
        let equation = &equations[number];
        encode_equation(
            alloc,
            pool,
            symbols,
            layout,
            number + 1,
            equation,
            &mut summands,
        )?;
    }
    Ok(summands)
}
