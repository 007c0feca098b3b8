//! Left sides that meet.

ghost use Rattle.std.specs.Prelude.{◌≡◌, ◌++◌, IfOk, OnOk};
ghost use Rattle.std.specs.Bool.{Decides};
ghost use Rattle.term_pool.specs.HeadTrees.{tree_at, IsIn};
ghost use Rattle.eqn_check.specs.Alike.{pairs, AreAlike, AreLeft, Compares, IsVariableTree};
ghost use Rattle.eqn_check.specs.Judged.{term_at, IsTerm};

use data_theory::{NoMemory, Signature, TermId};
use std::alloc::Global;
use term_pool::{Head, Pool};

/// Adds the pairs of two lists, as far as both go.
pub fn push_pairs(
    left: &mut Vec<(TermId, TermId)>,
    ones: &[TermId],
    others: &[TermId],
) -> Result<(), NoMemory>
    ensures { OnOk result (left.new.items ≡ left.old.items ++ pairs ones.now others.now) }
{
    for i in 0..ones.len() {
        if i >= others.len() {
            return Ok(());
        }
        left.push((ones[i], others[i]))?;
    }
    Ok(())
}

/// Whether a term is a variable.
pub fn is_variable(pool: &Pool, term: TermId) -> bool
    requires { IsIn pool.now.trees term }
    ensures { Decides result (IsVariableTree (tree_at pool.now.trees term)) }
{
    matches!(pool.node(term).head, Head::Var(_))
}

/// Compares the roots of two terms, and adds the pairs of their arguments; `false` where the terms aren't alike.
fn compare(
    sig: &Signature,
    pool: &Pool,
    one: TermId,
    other: TermId,
    left: &mut Vec<(TermId, TermId)>,
) -> Result<bool, NoMemory>
    requires one { IsTerm sig.now pool.now.trees one }
    requires other { IsTerm sig.now pool.now.trees other }
    ensures { IfOk result (λ b. Compares sig.now pool.now.trees one other left.old.items
        left.new.items b) }
{
    sig.next_sort();
    if is_variable(pool, one) || is_variable(pool, other) {
        return Ok(true);
    }
    let node = pool.node(one);
    let under = pool.node(other);
    let Head::Fun(fun) = node.head else {
        return Ok(one == other);
    };
    let Head::Fun(over) = under.head else {
        return Ok(false);
    };
    if fun != over {
        return Ok(false);
    }
    if node.args.len() != under.args.len() {
        return Ok(false);
    }
    push_pairs(left, node.args.as_slice(), under.args.as_slice())?;
    Ok(true)
}

/// Whether nothing but variables tells two terms apart.
pub fn are_alike(
    alloc: Global,
    sig: &Signature,
    pool: &Pool,
    one: TermId,
    other: TermId,
) -> Result<bool, NoMemory>
    requires one { IsTerm sig.now pool.now.trees one }
    requires other { IsTerm sig.now pool.now.trees other }
    ensures { IfOk result (λ b. Decides b (AreAlike (term_at sig.now pool.now.trees one)
        (term_at sig.now pool.now.trees other))) }
{
    let mut left = Vec::new(alloc);
    left.push((one, other))?;
    for _ in 0..u64::MAX {
        let Some((first, second)) = left.pop() else {
            return Ok(true);
        };
        let same = compare(sig, pool, first, second, &mut left)?;
        if !same {
            return Ok(false);
        }
    }
    Err(NoMemory)
}
