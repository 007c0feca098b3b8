//! Equations that exclude one another.

ghost use Rattle.std.specs.Prelude.{◌≡◌, [], ◌∷◌, map, IfOk, MatchOption, OnOk};
ghost use Rattle.std.specs.Bool.{Decides};
ghost use Rattle.std.specs.List.{All};
ghost use Rattle.data_theory.specs.Equations.{falseᵗ, !ᵗ◌};
ghost use Rattle.data_theory.specs.IdData.{data_meant};
ghost use Rattle.eqn_check.specs.Comparisons.{meant_reading, AreComparable};
ghost use Rattle.eqn_check.specs.Conditions.{parts, AreContrary, AreContraryReadings, CantAllHold, IsFalseByForm, IsFalseReading};
ghost use Rattle.eqn_check.specs.Fillings.{filled_at, AreOppositesOver};
ghost use Rattle.eqn_check.specs.ExcludedPairs.{parts_at, AddsParts, AreConjuncts, AreOppositesOf, CantHoldWith, DecidesExclusion, IsFilledTerm};
ghost use Rattle.eqn_check.specs.Judged.{term_at, IsEquationOver, IsTerm};

use crate::comparisons::{
    Comparison, begin_differently, contradict_in_order, contradict_turned, fails_of_numerals,
    have_same_sides, have_turned_sides, is_equality, is_strict, sides, what_is_said,
};
use crate::filled::{FilledTerm, Filling, Opposites, are_same, find_opposites, resolved};
use crate::signs::{Sign, sign_of_function};
use data_theory::{NoMemory, Signature, TermId};
use std::alloc::Global;
use term_pool::{Equation, Head, Pool};

/// Whether what a part says is false by its form.
fn is_false_comparison(
    alloc: Global,
    sig: &Signature,
    pool: &Pool,
    opposites: &Opposites,
    said: Comparison,
) -> Result<bool, NoMemory>
    requires opposites { AreOppositesOver sig.now pool.now.trees opposites.now }
    requires said { AreComparable sig.now pool.now.trees said }
    ensures { IfOk result (λ b. Decides b (IsFalseReading (data_meant sig.now)
        (meant_reading sig.now pool.now.trees opposites.now said))) }
{
    if fails_of_numerals(sig, pool, opposites, said) {
        return Ok(true);
    }
    if is_equality(said.relation) {
        return Ok(begin_differently(sig, pool, opposites, said));
    }
    if !is_strict(said.relation) {
        return Ok(false);
    }
    let same = are_same(alloc, sig, pool, opposites, said.one, said.other)?;
    Ok(same)
}

/// Whether a part is `false`.
fn is_falsity(sig: &Signature, pool: &Pool, opposites: &Opposites, part: FilledTerm) -> bool
    requires opposites { AreOppositesOver sig.now pool.now.trees opposites.now }
    requires part { IsTerm sig.now pool.now.trees part.term }
    ensures { Decides result (filled_at sig.now pool.now.trees opposites.now part ≡ falseᵗ) }
{
    let at = resolved(sig, pool, opposites, part);
    let node = pool.node(at.term);
    let Head::Fun(fun) = node.head else {
        return false;
    };
    let Sign::False = sign_of_function(sig, fun) else {
        return false;
    };
    node.args.is_empty()
}

/// Whether a part is false by its form.
fn is_false(
    alloc: Global,
    sig: &Signature,
    pool: &Pool,
    opposites: &Opposites,
    part: FilledTerm,
) -> Result<bool, NoMemory>
    requires opposites { AreOppositesOver sig.now pool.now.trees opposites.now }
    requires part { IsTerm sig.now pool.now.trees part.term }
    ensures { IfOk result (λ b. Decides b (IsFalseByForm (data_meant sig.now)
        (filled_at sig.now pool.now.trees opposites.now part))) }
{
    if is_falsity(sig, pool, opposites, part) {
        return Ok(true);
    }
    let Some(said) = what_is_said(sig, pool, opposites, part) else {
        return Ok(false);
    };
    let wrong = is_false_comparison(alloc, sig, pool, opposites, said)?;
    Ok(wrong)
}

/// Whether two comparisons can't both be true.
fn are_contrary_comparisons(
    alloc: Global,
    sig: &Signature,
    pool: &Pool,
    opposites: &Opposites,
    said: Comparison,
    also: Comparison,
) -> Result<bool, NoMemory>
    requires opposites { AreOppositesOver sig.now pool.now.trees opposites.now }
    requires said { AreComparable sig.now pool.now.trees said }
    requires also { AreComparable sig.now pool.now.trees also }
    ensures { IfOk result (λ b. Decides b (AreContraryReadings
        (meant_reading sig.now pool.now.trees opposites.now said)
        (meant_reading sig.now pool.now.trees opposites.now also))) }
{
    if !contradict_turned(said.relation, also.relation) {
        return Ok(false);
    }
    let turned = have_turned_sides(alloc, sig, pool, opposites, said, also)?;
    if turned {
        return Ok(true);
    }
    if !contradict_in_order(said.relation, also.relation) {
        return Ok(false);
    }
    let same = have_same_sides(alloc, sig, pool, opposites, said, also)?;
    Ok(same)
}

/// Whether a part is the negation of another one.
fn is_negation(
    alloc: Global,
    sig: &Signature,
    pool: &Pool,
    opposites: &Opposites,
    part: FilledTerm,
    other: FilledTerm,
) -> Result<bool, NoMemory>
    requires opposites { AreOppositesOver sig.now pool.now.trees opposites.now }
    requires part { IsTerm sig.now pool.now.trees part.term }
    requires other { IsTerm sig.now pool.now.trees other.term }
    ensures { IfOk result (λ b. Decides b (filled_at sig.now pool.now.trees opposites.now other ≡ !ᵗ
        filled_at sig.now pool.now.trees opposites.now part)) }
{
    let at = resolved(sig, pool, opposites, other);
    let node = pool.node(at.term);
    let Head::Fun(fun) = node.head else {
        return Ok(false);
    };
    let Sign::Not = sign_of_function(sig, fun) else {
        return Ok(false);
    };
    if node.args.len() != 1 {
        return Ok(false);
    }
    let under = FilledTerm {
        term: node.args[0],
        by: at.by,
    };
    let same = are_same(alloc, sig, pool, opposites, under, part)?;
    Ok(same)
}

/// Whether two parts can't both be true.
fn are_contrary(
    alloc: Global,
    sig: &Signature,
    pool: &Pool,
    opposites: &Opposites,
    part: FilledTerm,
    other: FilledTerm,
) -> Result<bool, NoMemory>
    requires opposites { AreOppositesOver sig.now pool.now.trees opposites.now }
    requires part { IsTerm sig.now pool.now.trees part.term }
    requires other { IsTerm sig.now pool.now.trees other.term }
    ensures { IfOk result (λ b. Decides b (AreContrary
        (filled_at sig.now pool.now.trees opposites.now part)
        (filled_at sig.now pool.now.trees opposites.now other))) }
{
    let negated = is_negation(alloc, sig, pool, opposites, part, other)?;
    if negated {
        return Ok(true);
    }
    let Some(said) = what_is_said(sig, pool, opposites, part) else {
        return Ok(false);
    };
    let Some(also) = what_is_said(sig, pool, opposites, other) else {
        return Ok(false);
    };
    let contrary = are_contrary_comparisons(alloc, sig, pool, opposites, said, also)?;
    Ok(contrary)
}

/// Whether a part is false by its form, or contrary to one of these.
fn cant_hold_with(
    alloc: Global,
    sig: &Signature,
    pool: &Pool,
    opposites: &Opposites,
    part: FilledTerm,
    others: &[FilledTerm],
) -> Result<bool, NoMemory>
    requires opposites { AreOppositesOver sig.now pool.now.trees opposites.now }
    requires part { IsTerm sig.now pool.now.trees part.term }
    requires others { All (IsFilledTerm sig.now pool.now.trees) others.now }
    ensures { IfOk result (λ b. Decides b (CantHoldWith sig.now pool.now.trees opposites.now part
        others.now)) }
{
    let wrong = is_false(alloc, sig, pool, opposites, part)?;
    if wrong {
        return Ok(true);
    }
    for i in 0..others.len() {
        let contrary = are_contrary(alloc, sig, pool, opposites, part, others[i])?;
        if contrary {
            return Ok(true);
        }
    }
    Ok(false)
}

/// Whether one of these parts is false by its form, or two of them are contrary.
fn cant_all_hold(
    alloc: Global,
    sig: &Signature,
    pool: &Pool,
    opposites: &Opposites,
    parts: &[FilledTerm],
) -> Result<bool, NoMemory>
    requires opposites { AreOppositesOver sig.now pool.now.trees opposites.now }
    requires parts { All (IsFilledTerm sig.now pool.now.trees) parts.now }
    ensures { IfOk result (λ b. Decides b (CantAllHold (data_meant sig.now) (map
        (filled_at sig.now pool.now.trees opposites.now) parts.now))) }
{
    for i in 0..parts.len() {
        let cant = cant_hold_with(alloc, sig, pool, opposites, parts[i], parts)?;
        if cant {
            return Ok(true);
        }
    }
    Ok(false)
}

/// The sides of a `&&`.
pub fn conjuncts(sig: &Signature, pool: &Pool, term: TermId) -> Option<(TermId, TermId)>
    requires { IsTerm sig.now pool.now.trees term }
    ensures { MatchOption result (parts (term_at sig.now pool.now.trees term) ≡ term_at sig.now
        pool.now.trees term ∷ []) (λ r. AreConjuncts sig.now pool.now.trees term r.0 r.1) }
{
    let Some((fun, one, other)) = sides(pool, term) else {
        return None;
    };
    let Sign::And = sign_of_function(sig, fun) else {
        return None;
    };
    Some((one, other))
}

/// Adds the parts of a condition.
fn push_parts(
    sig: &Signature,
    pool: &Pool,
    condition: TermId,
    by: Filling,
    found: &mut Vec<FilledTerm>,
) -> Result<(), NoMemory>
    requires { IsTerm sig.now pool.now.trees condition }
    ensures { OnOk result (AddsParts sig.now pool.now.trees condition by found.old.items
        found.new.items) }
{
    let mut rest = condition;
    while let Some((one, other)) = conjuncts(sig, pool, rest) {
        found.push(FilledTerm { term: one, by })?;
        rest = other;
    }
    found.push(FilledTerm { term: rest, by })?;
    Ok(())
}

/// Whether the conditions of two equations can't both be true, with these terms put in.
fn have_contrary_conditions(
    alloc: Global,
    sig: &Signature,
    pool: &Pool,
    opposites: &Opposites,
    one: &Equation,
    other: &Equation,
) -> Result<bool, NoMemory>
    requires opposites { AreOppositesOver sig.now pool.now.trees opposites.now }
    requires one { IsEquationOver sig.now pool.now.trees one.now }
    requires other { IsEquationOver sig.now pool.now.trees other.now }
    ensures { IfOk result (λ b. Decides b (CantAllHold (data_meant sig.now)
        (parts_at sig.now pool.now.trees opposites.now one.now other.now))) }
{
    let mut parts = Vec::new(alloc);
    push_parts(sig, pool, one.cond, Filling::First, &mut parts)?;
    push_parts(sig, pool, other.cond, Filling::Second, &mut parts)?;
    let cant = cant_all_hold(alloc, sig, pool, opposites, parts.as_slice())?;
    Ok(cant)
}

/// What stands opposite the variables of two left sides.
fn opposites_of(
    alloc: Global,
    sig: &Signature,
    pool: &Pool,
    one: TermId,
    other: TermId,
) -> Result<Opposites, NoMemory>
    requires one { IsTerm sig.now pool.now.trees one }
    requires other { IsTerm sig.now pool.now.trees other }
    ensures { IfOk result (AreOppositesOf sig.now pool.now.trees one other) }
{
    let first = find_opposites(alloc, sig, pool, one, other)?;
    let second = find_opposites(alloc, sig, pool, other, one)?;
    Ok(Opposites { first, second })
}

/// Whether two equations exclude one another, where no variable stands twice in a left side.
pub fn exclude(
    alloc: Global,
    sig: &Signature,
    pool: &Pool,
    one: &Equation,
    other: &Equation,
) -> Result<bool, NoMemory>
    requires one { IsEquationOver sig.now pool.now.trees one.now }
    requires other { IsEquationOver sig.now pool.now.trees other.now }
    ensures { IfOk result (DecidesExclusion sig.now pool.now.trees one.now other.now) }
{
    let opposites = opposites_of(alloc, sig, pool, one.left, other.left)?;
    let first = FilledTerm {
        term: one.right,
        by: Filling::First,
    };
    let second = FilledTerm {
        term: other.right,
        by: Filling::Second,
    };
    let same = are_same(alloc, sig, pool, &opposites, first, second)?;
    if same {
        return Ok(true);
    }
    let contrary = have_contrary_conditions(alloc, sig, pool, &opposites, one, other)?;
    Ok(contrary)
}
