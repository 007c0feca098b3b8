//! Parts of a condition that give a term for a sum variable.

ghost use Rattle.std.specs.Prelude.{◌≡◌, ◌↔◌, ◌<◌, ◌++◌, ℕ, length, map, take, drop, suc, IfOk, IfSome, IsTrue, MatchOption, None, Some, option_map};
ghost use Rattle.std.specs.Prelude.{List};
ghost use Rattle.std.specs.List.{All};
ghost use Rattle.data_theory.specs.Terms.{equality};
ghost use Rattle.data_theory.specs.Terms as terms;
ghost use Rattle.data_theory.specs.IdTerms.{sort_under, symbol_under};
ghost use Rattle.data_theory.specs.Signature.{Sig};
ghost use Rattle.term_pool.specs.HeadTrees.{IsIn};
ghost use Rattle.data_rewriter.specs.Standing.{listed_at, term_at, IsTerm};
ghost use Rattle.lps_core.specs.TreeSummands.{numbers_of};
ghost use Rattle.lps_sumelm.specs.Solutions.{is_among, side, solution, NoneGives};
ghost use Rattle.lps_sumelm.specs.SummandsInCode.{meant_solution, IsFirstAt, HasSides};

use crate::variables::occurs;
use data_theory::{FunId, NoMemory, Signature, SortId, TermId, VarId};
use lps_core::signature_stands;
use std::alloc::Global;
use term_pool::{Head, Pool};

/// A variable with the term that a part gives for it.
#[derive(Clone, Copy, Debug)]
pub struct Solution {
    pub var: VarId,
    pub term: TermId,
}

/// Whether a function is `==` over a sort.
fn is_equality_over(sig: &Signature, fun: FunId, sort: SortId) -> bool
    requires fun { fun.0 < length sig.now.functions }
    requires sort { sort.0 < length sig.now.sorts }
    ensures { IsTrue result ↔ (symbol_under sig.now fun ≡ equality (sort_under sig.now sort)) }
{
    signature_stands(sig);
    match sig.fun("==", &[sort, sort]) {
        Some(found) => found.0 == fun.0,
        None => false,
    }
}

/// Whether a function is `==` over some sort.
fn is_equality(sig: &Signature, fun: FunId) -> bool
    requires { fun.0 < length sig.now.functions }
    ensures { IsTrue result ↔ ((s : terms.Sort) × (symbol_under sig.now fun ≡ equality s)) }
{
    signature_stands(sig);
    match sig.args_of(fun) {
        [sort, _] => is_equality_over(sig, fun, *sort),
        _ => false,
    }
}

/// The sides of an `==`.
fn sides(sig: &Signature, pool: &Pool, part: TermId) -> Option<(TermId, TermId)>
    requires { IsTerm sig.now pool.now.trees part }
    ensures { MatchOption result ((xs : List ℕ) → solution xs (term_at sig.now pool.now.trees part) ≡ None) (λ p. HasSides sig.now pool.now.trees part p.0 p.1) }
{
    let node = pool.node(part);
    let Head::Fun(fun) = node.head else {
        return None;
    };
    if !is_equality(sig, fun) {
        return None;
    }
    match node.args.as_slice() {
        [left, right] => Some((*left, *right)),
        _ => None,
    }
}

/// Whether a variable is among these.
fn is_sum(sums: &[VarId], var: VarId) -> bool
    ensures { result ≡ is_among var.0 (numbers_of sums.now) }
{
    for sum in sums {
        if sum.0 == var.0 {
            return true;
        }
    }
    false
}

/// The other side, for a side that is one of the variables and isn't in the other one.
fn side(
    alloc: Global,
    pool: &Pool,
    sums: &[VarId],
    left: TermId,
    right: TermId,
) -> Result<Option<Solution>, NoMemory>
    requires left { IsIn pool.now.trees left }
    requires right { IsIn pool.now.trees right }
    ensures gives { IfOk result (λ found. (g : Sig) → option_map (meant_solution g pool.now.trees) found ≡ side (numbers_of sums.now) (term_at g pool.now.trees left) (term_at g pool.now.trees right)) }
    ensures term { IfOk result (λ found. IfSome found (λ f. f.term ≡ right)) }
{
    let Head::Var(var) = pool.node(left).head else {
        return Ok(None);
    };
    if !is_sum(sums, var) {
        return Ok(None);
    }
    if occurs(alloc, pool, var, right)? {
        return Ok(None);
    }
    Ok(Some(Solution { var, term: right }))
}

/// What a part gives for one of the variables. Where both sides are such variables, the left one counts.
fn solution_of(
    alloc: Global,
    sig: &Signature,
    pool: &Pool,
    sums: &[VarId],
    part: TermId,
) -> Result<Option<Solution>, NoMemory>
    requires { IsTerm sig.now pool.now.trees part }
    ensures gives { IfOk result (λ found. option_map (meant_solution sig.now pool.now.trees) found ≡ solution (numbers_of sums.now) (term_at sig.now pool.now.trees part)) }
    ensures term { IfOk result (λ found. IfSome found (λ f. IsTerm sig.now pool.now.trees f.term)) }
{
    let Some((left, right)) = sides(sig, pool, part) else {
        return Ok(None);
    };
    if let Some(found) = side(alloc, pool, sums, left, right)? {
        return Ok(Some(found));
    }
    side(alloc, pool, sums, right, left)
}

/// The first solvable part, by its place, with what it gives.
///
/// # Errors
///
/// `NoMemory` where there is none to look into the terms.
pub fn first_solution(
    alloc: Global,
    sig: &Signature,
    pool: &Pool,
    sums: &[VarId],
    parts: &[TermId],
) -> Result<Option<(usize, Solution)>, NoMemory>
    requires { All (IsTerm sig.now pool.now.trees) parts.now }
    ensures { IfOk result (λ found. MatchOption found (NoneGives (numbers_of sums.now) (listed_at sig.now pool.now.trees parts.now)) (λ p. IsFirstAt sig.now pool.now.trees (numbers_of sums.now) parts.now p.0 p.1)) }
{
    for place in 0..parts.len() {
        if let Some(found) = solution_of(alloc, sig, pool, sums, parts[place])? {
            return Ok(Some((place, found)));
        }
    }
    Ok(None)
}
