//! Parameters that change.

ghost use Rattle.std.specs.Prelude.{◌≡◌, ◌<◌, length, map, IfOk, IfSome, MatchBool};
ghost use Rattle.std.specs.List.{All};
ghost use Rattle.data_theory.specs.Signature.{Sig};
ghost use Rattle.data_theory.specs.WholeSignatures.{IsSignature};
ghost use Rattle.data_theory.specs.IdTrees.{put_tree, variable};
ghost use Rattle.term_pool.specs.Bindings.{listed, listed_terms};
ghost use Rattle.term_pool.specs.HeadTrees.{tree_at, trees_at, AreIn, IsIn};
ghost use Rattle.term_pool.specs.Pools.{Extends};
ghost use Rattle.lps_core.specs.Fitting.{Fits};
ghost use Rattle.lps_core.specs.PlainLinears.{plain_linear, plain_next, plain_summand, PlainSummand};
ghost use Rattle.lps_core.specs.TreeSummands.{IsSummandIn};
ghost use Rattle.lps_constelm.specs.Putting.{AreChanging, ChangesBy, NextChangesBy, NextStaysBy, StaysBy};

use crate::putting::pairs;
use data_theory::{NoMemory, TermId, VarId};
use lps_core::{Linear, Summand};
use std::alloc::Global;
use term_pool::Pool;

/// Whether two terms of the pool differ.
fn differ(pool: &Pool, one: TermId, other: TermId) -> bool
    requires one { IsIn pool.now.trees one }
    requires other { IsIn pool.now.trees other }
    ensures { MatchBool result (¬ (tree_at pool.now.trees one ≡ tree_at pool.now.trees other)) (tree_at pool.now.trees one ≡ tree_at pool.now.trees other) }
{
    pool.len();
    one != other
}

/// Whether a term, with those listed put in, isn't the initial one. A parameter's own term goes to that.
fn goes_elsewhere(
    pool: &mut Pool,
    term: TermId,
    own: TermId,
    by: &[(VarId, TermId)],
    init: TermId,
) -> Result<bool, NoMemory>
    requires term { IsIn pool.old.trees term }
    requires own { put_tree (listed pool.old.trees by.now) (tree_at pool.old.trees own) ≡ tree_at pool.old.trees init }
    requires listed { AreIn pool.old.trees (listed_terms by.now) }
    requires init { IsIn pool.old.trees init }
    ensures kept { Extends pool.old.trees pool.new.trees }
    ensures elsewhere { IfOk result (λ elsewhere. MatchBool elsewhere (¬ (put_tree (listed pool.old.trees by.now) (tree_at pool.old.trees term) ≡ tree_at pool.old.trees init)) (put_tree (listed pool.old.trees by.now) (tree_at pool.old.trees term) ≡ tree_at pool.old.trees init)) }
{
    if term == own {
        return Ok(false);
    }
    let put = pool.subst(term, by)?;
    Ok(differ(pool, put, init))
}

/// Whether the next term at a place, with those listed put in, isn't the initial one. Where there is none, none changes.
fn next_changes(
    pool: &mut Pool,
    next: &Option<Vec<TermId>>,
    place: usize,
    own: TermId,
    by: &[(VarId, TermId)],
    init: TermId,
) -> Result<bool, NoMemory>
    requires place { IfSome (plain_next next.now) (λ ids. place < length ids) }
    requires within { IfSome (plain_next next.now) (AreIn pool.old.trees) }
    requires own { put_tree (listed pool.old.trees by.now) (tree_at pool.old.trees own) ≡ tree_at pool.old.trees init }
    requires listed { AreIn pool.old.trees (listed_terms by.now) }
    requires init { IsIn pool.old.trees init }
    ensures kept { Extends pool.old.trees pool.new.trees }
    ensures changes { IfOk result (λ changes. MatchBool changes (NextChangesBy (listed pool.old.trees by.now) pool.old.trees place init (plain_next next.now)) (NextStaysBy (listed pool.old.trees by.now) pool.old.trees place init (plain_next next.now))) }
{
    match next {
        Some(terms) => goes_elsewhere(pool, terms[place], own, by, init),
        None => Ok(false),
    }
}

/// Whether some next term at a place, with those listed put in, isn't the initial one.
fn changes(
    pool: &mut Pool,
    summands: &[Summand],
    place: usize,
    own: TermId,
    by: &[(VarId, TermId)],
    init: TermId,
) -> Result<bool, NoMemory>
    requires place { All (λ (s : PlainSummand). IfSome s.next (λ ids. place < length ids)) (map plain_summand summands.now) }
    requires within { All (IsSummandIn pool.old.trees) (map plain_summand summands.now) }
    requires own_in { IsIn pool.old.trees own }
    requires own { put_tree (listed pool.old.trees by.now) (tree_at pool.old.trees own) ≡ tree_at pool.old.trees init }
    requires listed { AreIn pool.old.trees (listed_terms by.now) }
    requires init { IsIn pool.old.trees init }
    ensures kept { Extends pool.old.trees pool.new.trees }
    ensures changes { IfOk result (λ changes. MatchBool changes (ChangesBy (listed pool.old.trees by.now) pool.old.trees (map plain_summand summands.now) place init) (StaysBy (listed pool.old.trees by.now) pool.old.trees (map plain_summand summands.now) place init)) }
{
    for summand in summands {
        if next_changes(pool, &summand.next, place, own, by, init)? {
            return Ok(true);
        }
    }
    Ok(false)
}

/// The terms of the parameters that change, where all initial terms are put in.
pub(crate) fn changing(
    alloc: Global,
    pool: &mut Pool,
    lin: &Linear,
    params: &[TermId],
) -> Result<Vec<usize>, NoMemory>
    requires fits { (g : Sig) × IsSignature g × Fits g pool.old.trees (plain_linear lin.now) }
    requires params { trees_at pool.old.trees params.now ≡ map variable (plain_linear lin.now).params }
    requires within { AreIn pool.old.trees params.now }
    ensures kept { Extends pool.old.trees pool.new.trees }
    ensures changing { IfOk result (λ start. AreChanging pool.old.trees (plain_linear lin.now) params.now start.items) }
{
    let by = pairs(alloc, lin.params.as_slice(), lin.init.as_slice())?;
    let mut start = Vec::new(alloc);
    for place in 0..params.len() {
        if !changes(
            pool,
            lin.summands.as_slice(),
            place,
            params[place],
            by.as_slice(),
            lin.init[place],
        )? {
            continue;
        }
        start.push(params[place].0)?;
    }
    Ok(start)
}
