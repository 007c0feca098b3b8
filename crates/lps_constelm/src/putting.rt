//! Initial terms that are put in for parameters that go.

ghost use Rattle.std.specs.Prelude.{◌≡◌, length, map, option_map, IfOk, IfSome};
ghost use Rattle.std.specs.List.{All};
ghost use Rattle.data_theory.specs.IdTrees.{put_tree};
ghost use Rattle.term_pool.specs.Bindings.{listed, listed_terms};
ghost use Rattle.term_pool.specs.HeadTrees.{trees_at, AreIn};
ghost use Rattle.term_pool.specs.Pools.{Extends};
ghost use Rattle.lps_core.specs.PlainLinears.{plain_linear, plain_next, plain_summand};
ghost use Rattle.lps_core.specs.TreeSummands.{trees_of_summand, IsSummandIn};
ghost use Rattle.lps_parelm.specs.Keeping.{fates_of, keep};
ghost use Rattle.lps_parelm.specs.Uses.{HaveNextTerms};
ghost use Rattle.lps_constelm.specs.Putting.{pairs_of, put_kept_summand, unmarked, IsWithoutUnmarked};

use data_theory::{NoMemory, TermId, VarId};
use lps_core::{Linear, Summand, put_all, put_label};
use lps_parelm::kept;
use std::alloc::Global;
use term_pool::Pool;

/// Variables with terms, place by place, to be put in.
pub(crate) fn pairs(
    alloc: Global,
    vars: &[VarId],
    terms: &[TermId],
) -> Result<Vec<(VarId, TermId)>, NoMemory>
    requires { length terms.now ≡ length vars.now }
    ensures { IfOk result (λ by. by.items ≡ pairs_of vars.now terms.now) }
{
    let mut by = Vec::new(alloc);
    for place in 0..vars.len() {
        by.push((vars[place], terms[place]))?;
    }
    Ok(by)
}

/// The other marks.
fn turned(alloc: Global, marks: &[bool]) -> Result<Vec<bool>, NoMemory>
    ensures { IfOk result (λ others. others.items ≡ unmarked marks.now) }
{
    let mut others = Vec::new(alloc);
    for mark in marks {
        others.push(!*mark)?;
    }
    Ok(others)
}

/// The next terms at the marked places, with those listed put in.
fn put_kept_next(
    alloc: Global,
    pool: &mut Pool,
    next: &Option<Vec<TermId>>,
    marks: &[bool],
    by: &[(VarId, TermId)],
) -> Result<Option<Vec<TermId>>, NoMemory>
    requires long { IfSome (plain_next next.now) (λ ids. length ids ≡ length marks.now) }
    requires within { IfSome (plain_next next.now) (AreIn pool.old.trees) }
    requires listed { AreIn pool.old.trees (listed_terms by.now) }
    ensures kept { Extends pool.old.trees pool.new.trees }
    ensures within { IfOk result (λ made. IfSome (plain_next made) (AreIn pool.new.trees)) }
    ensures next { IfOk result (λ made. option_map (trees_at pool.new.trees) (plain_next made) ≡ option_map (λ us. map (put_tree (listed pool.old.trees by.now)) (keep (fates_of marks.now) us)) (option_map (trees_at pool.old.trees) (plain_next next.now))) }
{
    match next {
        Some(terms) => {
            let left = kept(alloc, terms.as_slice(), marks)?;
            Ok(Some(put_all(alloc, pool, left.as_slice(), by)?))
        }
        None => Ok(None),
    }
}

/// The summand with the next terms at the marked places, and with those listed put in.
fn put_summand(
    alloc: Global,
    pool: &mut Pool,
    summand: &Summand,
    marks: &[bool],
    by: &[(VarId, TermId)],
) -> Result<Summand, NoMemory>
    requires long { IfSome (plain_summand summand.now).next (λ ids. length ids ≡ length marks.now) }
    requires within { IsSummandIn pool.old.trees (plain_summand summand.now) }
    requires listed { AreIn pool.old.trees (listed_terms by.now) }
    ensures kept { Extends pool.old.trees pool.new.trees }
    ensures within { IfOk result (λ made. IsSummandIn pool.new.trees (plain_summand made)) }
    ensures trees { IfOk result (λ made. trees_of_summand pool.new.trees (plain_summand made) ≡ put_kept_summand (listed pool.old.trees by.now) (fates_of marks.now) (trees_of_summand pool.old.trees (plain_summand summand.now))) }
{
    let cond = pool.subst(summand.cond, by)?;
    let label = put_label(alloc, pool, &summand.label, by)?;
    let next = put_kept_next(alloc, pool, &summand.next, marks, by)?;
    Ok(Summand {
        sums: summand.sums.to_vec(alloc)?,
        cond,
        label,
        next,
    })
}

/// The summands with the next terms at the marked places, and with those listed put in.
fn put_summands(
    alloc: Global,
    pool: &mut Pool,
    summands: &[Summand],
    marks: &[bool],
    by: &[(VarId, TermId)],
) -> Result<Vec<Summand>, NoMemory>
    requires long { HaveNextTerms (length marks.now) (map plain_summand summands.now) }
    requires within { All (IsSummandIn pool.old.trees) (map plain_summand summands.now) }
    requires listed { AreIn pool.old.trees (listed_terms by.now) }
    ensures kept { Extends pool.old.trees pool.new.trees }
    ensures within { IfOk result (λ made. All (IsSummandIn pool.new.trees) (map plain_summand made.items)) }
    ensures trees { IfOk result (λ made. map (trees_of_summand pool.new.trees) (map plain_summand made.items) ≡ map (put_kept_summand (listed pool.old.trees by.now) (fates_of marks.now)) (map (trees_of_summand pool.old.trees) (map plain_summand summands.now))) }
{
    let mut made = Vec::new(alloc);
    for summand in summands {
        made.push(put_summand(alloc, pool, summand, marks, by)?)?;
    }
    Ok(made)
}

/// The unmarked parameters with their initial terms.
fn unmarked_pairs(
    alloc: Global,
    lin: &Linear,
    marks: &[bool],
) -> Result<Vec<(VarId, TermId)>, NoMemory>
    requires params { length (plain_linear lin.now).params ≡ length marks.now }
    requires init { length (plain_linear lin.now).init ≡ length marks.now }
    ensures { IfOk result (λ by. by.items ≡ pairs_of (keep (fates_of (unmarked marks.now)) (plain_linear lin.now).params) (keep (fates_of (unmarked marks.now)) (plain_linear lin.now).init)) }
{
    let others = turned(alloc, marks)?;
    let vars = kept(alloc, lin.params.as_slice(), others.as_slice())?;
    let terms = kept(alloc, lin.init.as_slice(), others.as_slice())?;
    pairs(alloc, vars.as_slice(), terms.as_slice())
}

/// The linear process with the marked parameters, with the initial terms of the others put in for them.
pub(crate) fn without_unmarked(
    alloc: Global,
    pool: &mut Pool,
    lin: &Linear,
    marks: &[bool],
) -> Result<Linear, NoMemory>
    requires params { length (plain_linear lin.now).params ≡ length marks.now }
    requires init { length (plain_linear lin.now).init ≡ length marks.now }
    requires next { HaveNextTerms (length marks.now) (plain_linear lin.now).summands }
    requires terms { AreIn pool.old.trees (plain_linear lin.now).init }
    requires summands { All (IsSummandIn pool.old.trees) (plain_linear lin.now).summands }
    ensures kept { Extends pool.old.trees pool.new.trees }
    ensures without { IfOk result (λ made. IsWithoutUnmarked pool.old.trees pool.new.trees marks.now (plain_linear lin.now) (plain_linear made)) }
{
    let by = unmarked_pairs(alloc, lin, marks)?;
    let summands = put_summands(alloc, pool, lin.summands.as_slice(), marks, by.as_slice())?;
    Ok(Linear {
        params: kept(alloc, lin.params.as_slice(), marks)?,
        init: kept(alloc, lin.init.as_slice(), marks)?,
        summands,
    })
}
