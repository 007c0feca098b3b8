//! Counting down: the variables that a condition keeps above the least value of their sorts, and
//! the terms that are less than a variable.

ghost use Rattle.std.specs.Prelude.{◌≡◌, ◌↔◌, ◌<◌, None, cond, length, pos, IfOk, OnOk, Some};
ghost use Rattle.std.specs.List.{All, Contains};
ghost use Rattle.data_theory.specs.declared.ids.VarId.{VarId};
ghost use Rattle.data_theory.specs.Signature.{Sig};
ghost use Rattle.data_theory.specs.IdTerms.{sort_under, symbol_under};
ghost use Rattle.data_theory.specs.IdTrees.{variable};
ghost use Rattle.data_theory.specs.Terms.{numeral};
ghost use Rattle.data_theory.specs.Whole.{whole_of};
ghost use Rattle.term_pool.specs.HeadTrees.{tree_at, IsIn};
ghost use Rattle.eqn_check.specs.Conditions.{different};
ghost use Rattle.eqn_check.specs.Counted.{numbered, AddsKept, AreCounted, AreKeptAbove};
ghost use Rattle.eqn_check.specs.Counting as counting;
ghost use Rattle.eqn_check.specs.Judged.{term_at, IsTerm};

use crate::comparisons::{differ, sides};
use crate::exclusion::conjuncts;
use crate::signs::{Sign, sign_of_function};
use crate::variable_sets::VariableSet;
use data_theory::{FunId, NoMemory, Num, Signature, SortId, SortKind, TermId, VarId};
use number_rules::is_less;
use std::alloc::Global;
use term_pool::{Head, Pool};

/// The variable that a term is.
fn variable_of(pool: &Pool, term: TermId) -> Option<VarId>
    requires { IsIn pool.now.trees term }
    ensures { (sig : Sig) → numbered result ≡ counting.variable_in
        (term_at sig pool.now.trees term) }
{
    match pool.node(term).head {
        Head::Var(var) => Some(var),
        _ => None,
    }
}

/// A number that isn't negative.
fn natural(magnitude: u128) -> Num
    ensures { whole_of result ≡ pos magnitude }
{
    Num {
        negative: false,
        magnitude,
    }
}

/// The number at which counting down ends in a sort: 1 in Pos, else 0.
fn least(sig: &Signature, sort: SortId) -> Num
    requires { sort.0 < length sig.now.sorts }
    ensures { whole_of result ≡ counting.least (sort_under sig.now sort) }
{
    match sig.kind(sort) {
        SortKind::Pos => natural(1),
        _ => natural(0),
    }
}

/// Whether a term is a numeral of at least that number.
fn is_from_least(sig: &Signature, pool: &Pool, term: TermId) -> bool
    requires { IsTerm sig.now pool.now.trees term }
    ensures { result ≡ counting.is_from_least (term_at sig.now pool.now.trees term) }
{
    let Head::Num(sort, number) = pool.node(term).head else {
        return false;
    };
    !is_less(number, least(sig, sort))
}

/// Whether a term is a numeral above that number.
fn is_above_least(sig: &Signature, pool: &Pool, term: TermId) -> bool
    requires { IsTerm sig.now pool.now.trees term }
    ensures { result ≡ counting.is_above_least (term_at sig.now pool.now.trees term) }
{
    let Head::Num(sort, number) = pool.node(term).head else {
        return false;
    };
    is_less(least(sig, sort), number)
}

/// Whether a number is the least one of its sort, which has one.
fn is_least_number(sig: &Signature, sort: SortId, number: Num) -> bool
    requires { sort.0 < length sig.now.sorts }
    ensures { result ≡ counting.is_least (numeral (sort_under sig.now sort) (whole_of number)) }
{
    match sig.kind(sort) {
        SortKind::Pos => !differ(number, least(sig, sort)),
        SortKind::Nat => !differ(number, least(sig, sort)),
        _ => false,
    }
}

/// Whether a term is the least value of its sort: 1 in Pos, 0 in Nat, or the empty list.
fn is_least(sig: &Signature, pool: &Pool, term: TermId) -> bool
    requires { IsTerm sig.now pool.now.trees term }
    ensures { result ≡ counting.is_least (term_at sig.now pool.now.trees term) }
{
    match pool.node(term).head {
        Head::Var(_) => false,
        Head::Num(sort, number) => is_least_number(sig, sort, number),
        Head::Fun(fun) => matches!(sign_of_function(sig, fun), Sign::Empty),
    }
}

/// The variable that is above the least value where the first term is less than the second.
fn kept_below(sig: &Signature, pool: &Pool, one: TermId, other: TermId) -> Option<VarId>
    requires one { IsTerm sig.now pool.now.trees one }
    requires other { IsTerm sig.now pool.now.trees other }
    ensures { numbered result ≡ cond (counting.is_from_least (term_at sig.now pool.now.trees one))
        (counting.variable_in (term_at sig.now pool.now.trees other)) None }
{
    if !is_from_least(sig, pool, one) {
        return None;
    }
    variable_of(pool, other)
}

/// That where the first term is less or the same.
fn kept_up_to(sig: &Signature, pool: &Pool, one: TermId, other: TermId) -> Option<VarId>
    requires one { IsTerm sig.now pool.now.trees one }
    requires other { IsTerm sig.now pool.now.trees other }
    ensures { numbered result ≡ cond (counting.is_above_least
        (term_at sig.now pool.now.trees one)) (counting.variable_in
        (term_at sig.now pool.now.trees other)) None }
{
    if !is_above_least(sig, pool, one) {
        return None;
    }
    variable_of(pool, other)
}

/// That where they differ.
fn kept_different(sig: &Signature, pool: &Pool, one: TermId, other: TermId) -> Option<VarId>
    requires one { IsTerm sig.now pool.now.trees one }
    requires other { IsTerm sig.now pool.now.trees other }
    ensures { numbered result ≡ counting.kept_above_by different
        (term_at sig.now pool.now.trees one) (term_at sig.now pool.now.trees other) }
{
    if is_least(sig, pool, other) {
        return variable_of(pool, one);
    }
    if is_least(sig, pool, one) {
        return variable_of(pool, other);
    }
    None
}

/// The variable that a part of a condition keeps above the least value of its sort.
fn kept_above(sig: &Signature, pool: &Pool, part: TermId) -> Option<VarId>
    requires { IsTerm sig.now pool.now.trees part }
    ensures { numbered result ≡ counting.kept_above (term_at sig.now pool.now.trees part) }
{
    let Some((fun, one, other)) = sides(pool, part) else {
        return None;
    };
    match sign_of_function(sig, fun) {
        Sign::Less => kept_below(sig, pool, one, other),
        Sign::AtMost => kept_up_to(sig, pool, one, other),
        Sign::Greater => kept_below(sig, pool, other, one),
        Sign::AtLeast => kept_up_to(sig, pool, other, one),
        Sign::Different => kept_different(sig, pool, one, other),
        _ => None,
    }
}

/// Adds that variable.
fn add_kept(
    sig: &Signature,
    pool: &Pool,
    part: TermId,
    found: &mut VariableSet,
) -> Result<(), NoMemory>
    requires { IsTerm sig.now pool.now.trees part }
    ensures { OnOk result (AddsKept sig.now pool.now.trees part found.old found.new) }
{
    if let Some(var) = kept_above(sig, pool, part) {
        found.insert(var)?;
    }
    Ok(())
}

/// The variables that a condition keeps above the least value of their sorts.
fn variables_above(
    alloc: Global,
    sig: &Signature,
    pool: &Pool,
    condition: TermId,
) -> Result<VariableSet, NoMemory>
    requires { IsTerm sig.now pool.now.trees condition }
    ensures { IfOk result (λ found. AreKeptAbove sig.now pool.now.trees condition found) }
{
    let mut found = VariableSet::new(alloc);
    let mut rest = condition;
    while let Some((one, other)) = conjuncts(sig, pool, rest) {
        add_kept(sig, pool, one, &mut found)?;
        rest = other;
    }
    add_kept(sig, pool, rest, &mut found)?;
    Ok(found)
}

/// The variable that a term is, if it is one of these.
fn counted_variable(pool: &Pool, above: &VariableSet, term: TermId) -> Option<VarId>
    requires { IsIn pool.now.trees term }
    ensures { (v : VarId) → (result ≡ Some v) ↔
        ((tree_at pool.now.trees term ≡ variable v) × Contains above.now v) }
{
    let Head::Var(var) = pool.node(term).head else {
        return None;
    };
    if !above.contains(var) {
        return None;
    }
    Some(var)
}

/// For each of these terms the variable that it is, if the condition keeps that above the least value of its sort.
pub fn counted_variables(
    alloc: Global,
    sig: &Signature,
    pool: &Pool,
    condition: TermId,
    terms: &[TermId],
) -> Result<Vec<Option<VarId>>, NoMemory>
    requires condition { IsTerm sig.now pool.now.trees condition }
    requires terms { All (IsTerm sig.now pool.now.trees) terms.now }
    ensures { IfOk result (λ counted. AreCounted sig.now pool.now.trees condition terms.now
        counted.items) }
{
    let above = variables_above(alloc, sig, pool, condition)?;
    let mut counted = Vec::new(alloc);
    for term in terms {
        counted.push(counted_variable(pool, &above, *term))?;
    }
    Ok(counted)
}

/// Whether a term is a numeral of at least 1.
fn is_from_one(pool: &Pool, term: TermId) -> bool
    requires { IsIn pool.now.trees term }
    ensures { (sig : Sig) → result ≡ counting.is_from_one (term_at sig pool.now.trees term) }
{
    let Head::Num(_, number) = pool.node(term).head else {
        return false;
    };
    is_less(natural(0), number)
}

/// The variable x of `x - m`, with a numeral m of at least 1.
fn counted_down(sig: &Signature, pool: &Pool, term: TermId) -> Option<VarId>
    requires { IsTerm sig.now pool.now.trees term }
    ensures { numbered result ≡ counting.counted_down (term_at sig.now pool.now.trees term) }
{
    let Some((fun, one, other)) = sides(pool, term) else {
        return None;
    };
    let Sign::Minus = sign_of_function(sig, fun) else {
        return None;
    };
    if !is_from_one(pool, other) {
        return None;
    }
    variable_of(pool, one)
}

/// The variable than which a function of a term is less.
fn lessened_by(sig: &Signature, pool: &Pool, fun: FunId, term: TermId) -> Option<VarId>
    requires function { fun.0 < length sig.now.functions }
    requires term { IsTerm sig.now pool.now.trees term }
    ensures { numbered result ≡ counting.lessened_by (symbol_under sig.now fun)
        (term_at sig.now pool.now.trees term) }
{
    match sign_of_function(sig, fun) {
        Sign::ToPositive => counted_down(sig, pool, term),
        Sign::ToNatural => counted_down(sig, pool, term),
        Sign::Tail => variable_of(pool, term),
        Sign::Rtail => variable_of(pool, term),
        _ => None,
    }
}

/// The variable than which a term is less, where that is above the least value of its sort.
pub fn lessened(sig: &Signature, pool: &Pool, term: TermId) -> Option<VarId>
    requires { IsTerm sig.now pool.now.trees term }
    ensures { numbered result ≡ counting.lessened (term_at sig.now pool.now.trees term) }
{
    let node = pool.node(term);
    let Head::Fun(fun) = node.head else {
        return None;
    };
    if node.args.len() != 1 {
        return counted_down(sig, pool, term);
    }
    lessened_by(sig, pool, fun, node.args[0])
}
