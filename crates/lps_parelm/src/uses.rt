//! What terms and parameters use.

ghost use Rattle.std.specs.Prelude.{◌≡◌, ◌++◌, ◌<◌, flat_map, length, map, slice_index_or, IfOk, IfSome, OnOk, false};
ghost use Rattle.std.specs.List.{All};
ghost use Rattle.data_theory.specs.declared.ids.TermId.{TermId};
ghost use Rattle.data_theory.specs.IdTrees.{variable};
ghost use Rattle.term_pool.specs.HeadTrees.{trees_at, AreIn, IsIn};
ghost use Rattle.term_pool.specs.Pools.{Extends};
ghost use Rattle.process_terms.specs.PlainProcesses.{plain_label};
ghost use Rattle.lps_core.specs.PlainLinears.{plain_linear, plain_next, PlainSummand};
ghost use Rattle.lps_parelm.specs.Uses.{argument_numbers, next_number, next_numbers, numbers, shown_numbers, AreArguments, AreUses, HasArguments, HaveNextTerms};

use data_theory::{NoMemory, TermId, VarId};
use lps_core::{Linear, variable_term};
use process_terms::Label;
use std::alloc::Global;
use term_pool::Pool;

/// The terms of these variables.
pub fn parameter_terms(
    alloc: Global,
    pool: &mut Pool,
    params: &[VarId],
) -> Result<Vec<TermId>, NoMemory>
    ensures kept { Extends pool.old.trees pool.new.trees }
    ensures constants { pool.new.constants ≡ pool.old.constants }
    ensures within { IfOk result (λ terms. AreIn pool.new.trees terms.items) }
    ensures trees { IfOk result (λ terms. trees_at pool.new.trees terms.items ≡ map variable params.now) }
{
    let mut terms = Vec::new(alloc);
    for param in params {
        terms.push(variable_term(pool, *param)?)?;
    }
    Ok(terms)
}

fn arguments_of(alloc: Global, pool: &Pool, term: TermId) -> Result<Vec<usize>, NoMemory>
    requires { IsIn pool.now.trees term }
    ensures { IfOk result (λ args. HasArguments pool.now.trees term.0 args.items) }
{
    let mut args = Vec::new(alloc);
    add_terms(&mut args, pool.node(term).args.as_slice())?;
    Ok(args)
}

/// The arguments of each term.
fn arguments(alloc: Global, pool: &Pool) -> Result<Vec<Vec<usize>>, NoMemory>
    ensures { IfOk result (λ arguments. AreArguments pool.now.trees arguments.items) }
{
    let mut arguments = Vec::new(alloc);
    for number in 0..pool.len() {
        arguments.push(arguments_of(alloc, pool, TermId(number))?)?;
    }
    Ok(arguments)
}

fn add_terms(found: &mut Vec<usize>, terms: &[TermId]) -> Result<(), NoMemory>
    ensures { OnOk result (found.new.items ≡ found.old.items ++ numbers terms.now) }
{
    for term in terms {
        found.push(term.0)?;
    }
    Ok(())
}

fn add_arguments(found: &mut Vec<usize>, label: &Label) -> Result<(), NoMemory>
    ensures { OnOk result (found.new.items ≡ found.old.items ++ argument_numbers (plain_label label.now)) }
{
    for action in &label.actions {
        add_terms(found, action.args.as_slice())?;
    }
    Ok(())
}

/// The conditions, and the arguments of the actions.
pub(crate) fn shown_terms(alloc: Global, lin: &Linear) -> Result<Vec<usize>, NoMemory>
    ensures { IfOk result (λ shown. shown.items ≡ flat_map shown_numbers (plain_linear lin.now).summands) }
{
    let mut shown = Vec::new(alloc);
    for summand in &lin.summands {
        shown.push(summand.cond.0)?;
        add_arguments(&mut shown, &summand.label)?;
    }
    Ok(shown)
}

/// Adds the next term at a place, if there is one.
fn add_next_term(
    found: &mut Vec<usize>,
    next: &Option<Vec<TermId>>,
    place: usize,
) -> Result<(), NoMemory>
    requires { IfSome (plain_next next.now) (λ ids. place < length ids) }
    ensures { OnOk result (found.new.items ≡ found.old.items ++ next_number place (plain_next next.now)) }
{
    if let Some(terms) = next {
        found.push(terms[place].0)?;
    }
    Ok(())
}

/// Adds the next terms of the parameter at a place.
fn add_next_terms(found: &mut Vec<usize>, lin: &Linear, place: usize) -> Result<(), NoMemory>
    requires { All (λ (s : PlainSummand). IfSome s.next (λ ids. place < length ids)) (plain_linear lin.now).summands }
    ensures { OnOk result (found.new.items ≡ found.old.items ++ next_numbers place (plain_linear lin.now).summands) }
{
    for summand in &lin.summands {
        add_next_term(found, &summand.next, place)?;
    }
    Ok(())
}

/// The terms of the pool as a graph: from each term to its arguments, and from each of the parameters, given by their terms, to
/// its next terms.
pub fn use_graph(
    alloc: Global,
    pool: &Pool,
    lin: &Linear,
    params: &[TermId],
) -> Result<Vec<Vec<usize>>, NoMemory>
    requires within { AreIn pool.now.trees params.now }
    requires next { HaveNextTerms (length params.now) (plain_linear lin.now).summands }
    ensures { IfOk result (λ uses. AreUses pool.now.trees params.now (plain_linear lin.now).summands uses.items) }
{
    let mut uses = arguments(alloc, pool)?;
    for place in 0..params.len() {
        add_next_terms(&mut uses[params[place].0], lin, place)?;
    }
    Ok(uses)
}

/// For each of the parameters, given by their terms, whether its term is marked.
pub fn marks_of(alloc: Global, marked: &[bool], params: &[TermId]) -> Result<Vec<bool>, NoMemory>
    requires { All (λ (param : TermId). param.0 < length marked.now) params.now }
    ensures { IfOk result (λ marks. marks.items ≡ map (λ (param : TermId). slice_index_or marked.now param.0 false) params.now) }
{
    let mut marks = Vec::new(alloc);
    for param in params {
        marks.push(marked[param.0])?;
    }
    Ok(marks)
}
