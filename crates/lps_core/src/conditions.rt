//! Conditions as lists of parts.

ghost use Rattle.std.specs.Prelude.{◌≡◌, ◌++◌, [], ◌∷◌, cond, IfOk, OnOk, OnErr, MatchOption};
ghost use Rattle.std.specs.List.{All};
ghost use Rattle.term_pool.specs.HeadTrees.{tree_at, trees_at, IsIn, AreIn};
ghost use Rattle.term_pool.specs.Pools.{Extends};
ghost use Rattle.lps_core.specs.TreeConditions.{AreSides, conjunction_tree, is_true_tree, tree_parts, trees_without_true};

use data_theory::{FunId, NoMemory, TermId};
use term_pool::{Head, Pool};

/// `true`
const TRUE: FunId = FunId(6);

/// `&&`
const AND: FunId = FunId(9);

/// The sides of a `&&`.
fn sides(pool: &Pool, cond: TermId) -> Option<(TermId, TermId)>
    requires { IsIn pool.now.trees cond }
    ensures { MatchOption result (tree_parts (tree_at pool.now.trees cond) ≡ tree_at pool.now.trees cond ∷ []) (λ p. AreSides pool.now.trees cond p.0 p.1) }
{
    let node = pool.node(cond);
    let Head::Fun(fun) = node.head else {
        return None;
    };
    if fun.0 != AND.0 {
        return None;
    }
    match node.args.as_slice() {
        [left, right] => Some((*left, *right)),
        _ => None,
    }
}

/// Whether a term is `true`.
fn is_true(pool: &Pool, id: TermId) -> bool
    requires { IsIn pool.now.trees id }
    ensures { result ≡ is_true_tree (tree_at pool.now.trees id) }
{
    let node = pool.node(id);
    let Head::Fun(fun) = node.head else {
        return false;
    };
    if fun.0 != TRUE.0 {
        return false;
    }
    match node.args.as_slice() {
        [] => true,
        _ => false,
    }
}

/// Adds a part that isn't `true`.
fn add_part(pool: &Pool, part: TermId, found: &mut Vec<TermId>) -> Result<(), NoMemory>
    requires { IsIn pool.now.trees part }
    ensures parts { OnOk result (trees_at pool.now.trees found.new.items ≡ trees_at pool.now.trees found.old.items ++ trees_without_true (tree_at pool.now.trees part ∷ [])) }
    ensures within { OnOk result (AreIn pool.now.trees found.old.items → AreIn pool.now.trees found.new.items) }
{
    if !is_true(pool, part) {
        found.push(part)?;
    }
    Ok(())
}

/// The parts of a condition, without `true`, behind those that are there.
pub fn parts_of(pool: &Pool, cond: TermId, found: &mut Vec<TermId>) -> Result<(), NoMemory>
    requires { IsIn pool.now.trees cond }
    ensures parts { OnOk result (trees_at pool.now.trees found.new.items ≡ trees_at pool.now.trees found.old.items ++ trees_without_true (tree_parts (tree_at pool.now.trees cond))) }
    ensures within { OnOk result (AreIn pool.now.trees found.old.items → AreIn pool.now.trees found.new.items) }
{
    let mut rest = cond;
    while let Some((left, right)) = sides(pool, rest) {
        add_part(pool, left, found)?;
        rest = right;
    }
    add_part(pool, rest, found)
}

/// One chain of these parts.
pub fn conjoined(pool: &mut Pool, parts: Vec<TermId>) -> Result<TermId, NoMemory>
    requires { AreIn pool.old.trees parts.items }
    ensures kept { Extends pool.old.trees pool.new.trees }
    ensures constants { pool.new.constants ≡ pool.old.constants }
    ensures within { IfOk result (λ id. IsIn pool.new.trees id) }
    ensures tree { IfOk result (λ id. tree_at pool.new.trees id ≡ conjunction_tree (trees_at pool.old.trees parts.items)) }
{
    let mut waiting = parts;
    let Some(mut chain) = waiting.pop() else {
        return pool.intern(Head::Fun(TRUE), &[]);
    };
    while let Some(part) = waiting.pop() {
        chain = pool.intern(Head::Fun(AND), &[part, chain])?;
    }
    Ok(chain)
}
