//! Terms with the most general terms put in that make two left sides the same.

ghost use Rattle.std.specs.Prelude.{◌≡◌, ◌++◌, length, IfOk, OnOk};
ghost use Rattle.std.specs.Bool.{Decides};
ghost use Rattle.data_theory.specs.IdTrees.{variable};
ghost use Rattle.term_pool.specs.HeadTrees.{tree_at};
ghost use Rattle.eqn_check.specs.Alike.{pairs, IsVariableTree};
ghost use Rattle.eqn_check.specs.declared.filled.Filling.TheVariants.{Second};
ghost use Rattle.eqn_check.specs.Fillings.{filled_at, filled_pairs, first_given, opposite_of, AreOpposite, AreOppositesOver, ComparesFilled, IsAlone, IsLeaf, IsResolved};
ghost use Rattle.eqn_check.specs.Judged.{IsTerm};

use crate::alike::{is_variable, push_pairs};
use data_theory::{NoMemory, Signature, TermId, VarId};
use std::alloc::Global;
use std::collections::HashMap;
use term_pool::{Head, Pool};

/// What stands for the variables of a term.
#[derive(Clone, Copy, Debug, PartialEq, Eq)]
pub enum Filling {
    /// They are the first equation's, and what stands opposite is put in.
    First,
    /// They are the second equation's, and what stands opposite is put in, but for variables.
    Second,
    /// They are the first equation's, and stay.
    FirstAlone,
    /// They are the second equation's, and stay.
    SecondAlone,
}

/// A term, and what stands for its variables.
#[derive(Clone, Copy, Debug)]
pub struct FilledTerm {
    pub term: TermId,
    pub by: Filling,
}

/// What stands in the place of the variables of two left sides, in the other one.
#[derive(Drop)]
pub struct Opposites {
    pub first: HashMap<VarId, TermId>,
    pub second: HashMap<VarId, TermId>,
}

/// What stands in the place of the variables of a term, in another one.
pub fn find_opposites(
    alloc: Global,
    sig: &Signature,
    pool: &Pool,
    one: TermId,
    other: TermId,
) -> Result<HashMap<VarId, TermId>, NoMemory>
    requires one { IsTerm sig.now pool.now.trees one }
    requires other { IsTerm sig.now pool.now.trees other }
    ensures { IfOk result (AreOpposite sig.now pool.now.trees one other) }
{
    let mut found = HashMap::new(alloc);
    let mut left = Vec::new(alloc);
    left.push((one, other))?;
    for _ in 0..u64::MAX {
        let Some((first, second)) = left.pop() else {
            return Ok(found);
        };
        let node = pool.node(first);
        let Head::Var(var) = node.head else {
            let under = pool.node(second);
            push_pairs(&mut left, node.args.as_slice(), under.args.as_slice())?;
            continue;
        };
        found.insert(var, second)?;
    }
    Err(NoMemory)
}

/// What a map has for a variable.
fn opposite_in(found: &HashMap<VarId, TermId>, var: VarId) -> Option<TermId>
    ensures { result ≡ opposite_of found.now var.0 }
{
    found.get(&var).copied()
}

/// What stands for a variable of the first equation.
fn first_resolved(opposites: &Opposites, term: TermId, var: VarId) -> FilledTerm
    ensures { result ≡ first_given term (opposite_of opposites.now.first var.0) }
{
    match opposite_in(&opposites.first, var) {
        Some(other) => FilledTerm {
            term: other,
            by: Filling::SecondAlone,
        },
        None => FilledTerm {
            term,
            by: Filling::FirstAlone,
        },
    }
}

/// What stands for a variable of the second equation.
fn second_resolved(
    sig: &Signature,
    pool: &Pool,
    opposites: &Opposites,
    filled: FilledTerm,
    var: VarId,
) -> FilledTerm
    requires opposites { AreOppositesOver sig.now pool.now.trees opposites.now }
    requires term { IsTerm sig.now pool.now.trees filled.term }
    requires variable { tree_at pool.now.trees filled.term ≡ variable var }
    requires by { filled.by ≡ Second }
    ensures { IsResolved sig.now pool.now.trees opposites.now filled result }
{
    let alone = FilledTerm {
        term: filled.term,
        by: Filling::SecondAlone,
    };
    let Some(other) = opposite_in(&opposites.second, var) else {
        return alone;
    };
    if is_variable(pool, other) {
        return alone;
    }
    FilledTerm {
        term: other,
        by: Filling::FirstAlone,
    }
}

/// What stands for a term, if it is a variable.
pub fn resolved(
    sig: &Signature,
    pool: &Pool,
    opposites: &Opposites,
    filled: FilledTerm,
) -> FilledTerm
    requires opposites { AreOppositesOver sig.now pool.now.trees opposites.now }
    requires term { IsTerm sig.now pool.now.trees filled.term }
    ensures { IsResolved sig.now pool.now.trees opposites.now filled result }
{
    let Head::Var(var) = pool.node(filled.term).head else {
        return filled;
    };
    match filled.by {
        Filling::First => first_resolved(opposites, filled.term, var),
        Filling::Second => second_resolved(sig, pool, opposites, filled, var),
        Filling::FirstAlone => filled,
        Filling::SecondAlone => filled,
    }
}

/// Adds the pairs of two lists of arguments.
fn push_filled(
    left: &mut Vec<(FilledTerm, FilledTerm)>,
    ones: &[TermId],
    one: Filling,
    others: &[TermId],
    other: Filling,
) -> Result<(), NoMemory>
    requires { length ones.now ≡ length others.now }
    ensures { OnOk result (left.new.items ≡ left.old.items ++ filled_pairs one other
        (pairs ones.now others.now)) }
{
    for i in 0..ones.len() {
        let first = FilledTerm {
            term: ones[i],
            by: one,
        };
        let second = FilledTerm {
            term: others[i],
            by: other,
        };
        left.push((first, second))?;
    }
    Ok(())
}

/// Whether two terms are the same, of which the first is a variable or a numeral.
fn are_same_leaves(
    sig: &Signature,
    pool: &Pool,
    opposites: &Opposites,
    one: FilledTerm,
    other: FilledTerm,
) -> bool
    requires one { IsTerm sig.now pool.now.trees one.term }
    requires other { IsTerm sig.now pool.now.trees other.term }
    requires leaf { IsLeaf (tree_at pool.now.trees one.term) }
    requires one_alone { IsVariableTree (tree_at pool.now.trees one.term) → IsAlone one.by }
    requires other_alone { IsVariableTree (tree_at pool.now.trees other.term) → IsAlone other.by }
    ensures { Decides result (filled_at sig.now pool.now.trees opposites.now one ≡ filled_at sig.now
        pool.now.trees opposites.now other) }
{
    sig.next_sort();
    pool.len();
    if one.term != other.term {
        return false;
    }
    !is_variable(pool, one.term) || one.by == other.by
}

/// Compares the roots of two terms, and adds the pairs of their arguments; `false` where the terms aren't the same.
fn compare(
    sig: &Signature,
    pool: &Pool,
    opposites: &Opposites,
    one: FilledTerm,
    other: FilledTerm,
    left: &mut Vec<(FilledTerm, FilledTerm)>,
) -> Result<bool, NoMemory>
    requires opposites { AreOppositesOver sig.now pool.now.trees opposites.now }
    requires one { IsTerm sig.now pool.now.trees one.term }
    requires other { IsTerm sig.now pool.now.trees other.term }
    ensures { IfOk result (λ b. ComparesFilled sig.now pool.now.trees opposites.now one other
        left.old.items left.new.items b) }
{
    sig.next_sort();
    let first = resolved(sig, pool, opposites, one);
    let second = resolved(sig, pool, opposites, other);
    let node = pool.node(first.term);
    let under = pool.node(second.term);
    let Head::Fun(fun) = node.head else {
        return Ok(are_same_leaves(sig, pool, opposites, first, second));
    };
    let Head::Fun(over) = under.head else {
        return Ok(false);
    };
    if fun != over {
        return Ok(false);
    }
    if node.args.len() != under.args.len() {
        return Ok(false);
    }
    push_filled(
        left,
        node.args.as_slice(),
        first.by,
        under.args.as_slice(),
        second.by,
    )?;
    Ok(true)
}

/// Whether two terms are the same with these terms put in.
pub fn are_same(
    alloc: Global,
    sig: &Signature,
    pool: &Pool,
    opposites: &Opposites,
    one: FilledTerm,
    other: FilledTerm,
) -> Result<bool, NoMemory>
    requires opposites { AreOppositesOver sig.now pool.now.trees opposites.now }
    requires one { IsTerm sig.now pool.now.trees one.term }
    requires other { IsTerm sig.now pool.now.trees other.term }
    ensures { IfOk result (λ b. Decides b (filled_at sig.now pool.now.trees opposites.now one ≡
        filled_at sig.now pool.now.trees opposites.now other)) }
{
    let mut left = Vec::new(alloc);
    left.push((one, other))?;
    for _ in 0..u64::MAX {
        let Some((first, second)) = left.pop() else {
            return Ok(true);
        };
        let same = compare(sig, pool, opposites, first, second, &mut left)?;
        if !same {
            return Ok(false);
        }
    }
    Err(NoMemory)
}
