//! What the parts of conditions say of two terms.

ghost use Rattle.std.specs.Prelude.{◌≡◌, ◌<◌, length, IfOk, MatchOption, None, not};
ghost use Rattle.std.specs.Bool.{Decides};
ghost use Rattle.data_theory.specs.Arithmetic.{equal_numbers};
ghost use Rattle.data_theory.specs.IdData.{data_meant};
ghost use Rattle.data_theory.specs.IdTerms.{symbol_under};
ghost use Rattle.data_theory.specs.Whole.{whole_of};
ghost use Rattle.term_pool.specs.HeadTrees.{tree_at, IsIn};
ghost use Rattle.eqn_check.specs.Comparisons.{are_of_lists, comparison_by, meant_reading, relation_told, are_contrary_in_order, are_contrary_turned, tells_equal, tells_strict, AreComparable, IsComparisonOf, IsSides, IsNotBinary};
ghost use Rattle.eqn_check.specs.Conditions.{holds, reading, AreDifferent, BeginDifferently, HaveSameSides, HaveTurnedSides, IsFalseOfNumerals};
ghost use Rattle.eqn_check.specs.Fillings.{filled_at, AreOppositesOver};
ghost use Rattle.eqn_check.specs.Judged.{IsTerm};

use crate::filled::{FilledTerm, Opposites, are_same, resolved};
use crate::patterns::is_constructor;
use crate::signs::{Sign, sign_of_function};
use data_theory::{FunId, NoMemory, Num, Signature, TermId};
use number_rules::is_less;
use std::alloc::Global;
use term_pool::{Head, Pool};

/// How two terms are related.
#[derive(Clone, Copy, Debug)]
pub enum Relation {
    Below,
    UpTo,
    Equal,
    Different,
}

/// Two terms that are related so.
#[derive(Clone, Copy, Debug)]
pub struct Comparison {
    pub relation: Relation,
    pub one: FilledTerm,
    pub other: FilledTerm,
}

/// Whether it is `==`.
pub fn is_equality(relation: Relation) -> bool
    ensures { result ≡ tells_equal relation }
{
    matches!(relation, Relation::Equal)
}

/// Whether no term is so related to itself.
pub fn is_strict(relation: Relation) -> bool
    ensures { result ≡ tells_strict relation }
{
    matches!(relation, Relation::Below | Relation::Different)
}

/// Whether two comparisons can't both be true, where the one has the sides of the other in the other order.
pub fn contradict_turned(one: Relation, other: Relation) -> bool
    ensures { result ≡ are_contrary_turned one other }
{
    match one {
        Relation::Equal => matches!(other, Relation::Different),
        Relation::Below => !matches!(other, Relation::Different),
        _ => false,
    }
}

/// Whether two comparisons can't both be true, where they have the same sides in the same order.
pub fn contradict_in_order(one: Relation, other: Relation) -> bool
    ensures { result ≡ are_contrary_in_order one other }
{
    match one {
        Relation::Equal => matches!(other, Relation::Different),
        Relation::Below => matches!(other, Relation::Equal),
        _ => false,
    }
}

/// What a sign says of two terms.
fn compared_by(sign: Sign, one: FilledTerm, other: FilledTerm) -> Option<Comparison>
    ensures { result ≡ comparison_by sign one other }
{
    let (relation, one, other) = match sign {
        Sign::Less => (Relation::Below, one, other),
        Sign::AtMost => (Relation::UpTo, one, other),
        Sign::Greater => (Relation::Below, other, one),
        Sign::AtLeast => (Relation::UpTo, other, one),
        Sign::Equal => (Relation::Equal, one, other),
        Sign::Different => (Relation::Different, one, other),
        _ => return None,
    };
    Some(Comparison {
        relation,
        one,
        other,
    })
}

/// The function of a term and its two arguments.
pub fn sides(pool: &Pool, term: TermId) -> Option<(FunId, TermId, TermId)>
    requires { IsIn pool.now.trees term }
    ensures { MatchOption result (IsNotBinary (tree_at pool.now.trees term))
        (λ r. IsSides pool.now.trees term r.0 r.1 r.2) }
{
    let node = pool.node(term);
    let Head::Fun(fun) = node.head else {
        return None;
    };
    if node.args.len() != 2 {
        return None;
    }
    Some((fun, node.args[0], node.args[1]))
}

/// What a part of a condition says of two terms.
pub fn what_is_said(
    sig: &Signature,
    pool: &Pool,
    opposites: &Opposites,
    part: FilledTerm,
) -> Option<Comparison>
    requires opposites { AreOppositesOver sig.now pool.now.trees opposites.now }
    requires part { IsTerm sig.now pool.now.trees part.term }
    ensures { MatchOption result (reading (filled_at sig.now pool.now.trees opposites.now part) ≡
        None) (IsComparisonOf sig.now pool.now.trees opposites.now part) }
{
    let at = resolved(sig, pool, opposites, part);
    let Some((fun, one, other)) = sides(pool, at.term) else {
        return None;
    };
    let first = FilledTerm {
        term: one,
        by: at.by,
    };
    let second = FilledTerm {
        term: other,
        by: at.by,
    };
    compared_by(sign_of_function(sig, fun), first, second)
}

/// Whether two numbers differ.
pub fn differ(x: Num, y: Num) -> bool
    ensures { result ≡ not (equal_numbers (whole_of x) (whole_of y)) }
{
    if is_less(x, y) {
        return true;
    }
    is_less(y, x)
}

/// Whether a relation doesn't hold of two numbers.
fn fails(relation: Relation, x: Num, y: Num) -> bool
    ensures { result ≡ not (holds (relation_told relation) (whole_of x) (whole_of y)) }
{
    match relation {
        Relation::Below => !is_less(x, y),
        Relation::UpTo => is_less(y, x),
        Relation::Equal => differ(x, y),
        Relation::Different => !differ(x, y),
    }
}

/// Whether it is of two numerals and doesn't hold.
pub fn fails_of_numerals(
    sig: &Signature,
    pool: &Pool,
    opposites: &Opposites,
    said: Comparison,
) -> bool
    requires opposites { AreOppositesOver sig.now pool.now.trees opposites.now }
    requires said { AreComparable sig.now pool.now.trees said }
    ensures { Decides result (IsFalseOfNumerals
        (meant_reading sig.now pool.now.trees opposites.now said)) }
{
    let one = resolved(sig, pool, opposites, said.one);
    let other = resolved(sig, pool, opposites, said.other);
    let node = pool.node(one.term);
    let under = pool.node(other.term);
    let Head::Num(_, x) = node.head else {
        return false;
    };
    let Head::Num(_, y) = under.head else {
        return false;
    };
    fails(said.relation, x, y)
}

/// Whether both signs are `[]`, or both `|>`.
fn are_one_of_lists(one: Sign, other: Sign) -> bool
    ensures { result ≡ are_of_lists one other }
{
    match one {
        Sign::Empty => matches!(other, Sign::Empty),
        Sign::Cons => matches!(other, Sign::Cons),
        _ => false,
    }
}

/// Whether two functions differ, where `[]` and `|>` count once, whatever their sorts.
fn are_different(sig: &Signature, one: FunId, other: FunId) -> bool
    requires one { one.0 < length sig.now.functions }
    requires other { other.0 < length sig.now.functions }
    ensures { Decides result (AreDifferent (symbol_under sig.now one)
        (symbol_under sig.now other)) }
{
    sig.next_sort();
    if are_one_of_lists(sign_of_function(sig, one), sign_of_function(sig, other)) {
        return false;
    }
    if one == other {
        return false;
    }
    true
}

/// Whether two terms begin with different constructors.
pub fn begin_differently(
    sig: &Signature,
    pool: &Pool,
    opposites: &Opposites,
    said: Comparison,
) -> bool
    requires opposites { AreOppositesOver sig.now pool.now.trees opposites.now }
    requires said { AreComparable sig.now pool.now.trees said }
    ensures { Decides result (BeginDifferently (data_meant sig.now)
        (filled_at sig.now pool.now.trees opposites.now said.one)
        (filled_at sig.now pool.now.trees opposites.now said.other)) }
{
    let one = resolved(sig, pool, opposites, said.one);
    let other = resolved(sig, pool, opposites, said.other);
    let node = pool.node(one.term);
    let under = pool.node(other.term);
    let Head::Fun(first) = node.head else {
        return false;
    };
    let Head::Fun(second) = under.head else {
        return false;
    };
    if !is_constructor(sig, first) {
        return false;
    }
    if !is_constructor(sig, second) {
        return false;
    }
    are_different(sig, first, second)
}

/// Whether two comparisons are of the same terms, in this order.
pub fn have_same_sides(
    alloc: Global,
    sig: &Signature,
    pool: &Pool,
    opposites: &Opposites,
    said: Comparison,
    also: Comparison,
) -> Result<bool, NoMemory>
    requires opposites { AreOppositesOver sig.now pool.now.trees opposites.now }
    requires said { AreComparable sig.now pool.now.trees said }
    requires also { AreComparable sig.now pool.now.trees also }
    ensures { IfOk result (λ b. Decides b (HaveSameSides
        (meant_reading sig.now pool.now.trees opposites.now said)
        (meant_reading sig.now pool.now.trees opposites.now also))) }
{
    let first = are_same(alloc, sig, pool, opposites, said.one, also.one)?;
    if !first {
        return Ok(false);
    }
    let second = are_same(alloc, sig, pool, opposites, said.other, also.other)?;
    Ok(second)
}

/// Whether they are of the same terms, in the other order.
pub fn have_turned_sides(
    alloc: Global,
    sig: &Signature,
    pool: &Pool,
    opposites: &Opposites,
    said: Comparison,
    also: Comparison,
) -> Result<bool, NoMemory>
    requires opposites { AreOppositesOver sig.now pool.now.trees opposites.now }
    requires said { AreComparable sig.now pool.now.trees said }
    requires also { AreComparable sig.now pool.now.trees also }
    ensures { IfOk result (λ b. Decides b (HaveTurnedSides
        (meant_reading sig.now pool.now.trees opposites.now said)
        (meant_reading sig.now pool.now.trees opposites.now also))) }
{
    let first = are_same(alloc, sig, pool, opposites, said.one, also.other)?;
    if !first {
        return Ok(false);
    }
    let second = are_same(alloc, sig, pool, opposites, said.other, also.one)?;
    Ok(second)
}
