//! The parts of conditions, with `true` among them.

ghost use Rattle.std.specs.Prelude.{◌≡◌, ◌++◌, [], ◌∷◌, IfOk, OnOk, MatchOption};
ghost use Rattle.std.specs.List.{All};
ghost use Rattle.term_pool.specs.HeadTrees.{tree_at, trees_at, IsIn, AreIn};
ghost use Rattle.data_rewriter.specs.Standing.{listed_at, term_at, IsTerm};
ghost use Rattle.lps_core.specs.Conditions.{parts};
ghost use Rattle.lps_core.specs.TreeConditions.{tree_parts, AreSides};

use data_theory::{FunId, NoMemory, Signature, TermId};
use lps_core::signature_stands;
use std::alloc::Global;
use term_pool::{Head, Pool};

/// `&&`
const AND: FunId = FunId(9);

/// The sides of a `&&`.
fn sides(pool: &Pool, term: TermId) -> Option<(TermId, TermId)>
    requires { IsIn pool.now.trees term }
    ensures { MatchOption result (tree_parts (tree_at pool.now.trees term) ≡ tree_at pool.now.trees term ∷ []) (λ p. AreSides pool.now.trees term p.0 p.1) }
{
    let node = pool.node(term);
    let Head::Fun(fun) = node.head else {
        return None;
    };
    if fun.0 != AND.0 {
        return None;
    }
    match node.args.as_slice() {
        [left, right] => Some((*left, *right)),
        _ => None,
    }
}

/// Adds the parts of a term, in their order.
///
/// # Errors
///
/// `NoMemory` where there is none for them.
pub(crate) fn add_parts(pool: &Pool, term: TermId, found: &mut Vec<TermId>) -> Result<(), NoMemory>
    requires { IsIn pool.now.trees term }
    ensures parts { OnOk result (trees_at pool.now.trees found.new.items ≡ trees_at pool.now.trees found.old.items ++ tree_parts (tree_at pool.now.trees term)) }
    ensures within { OnOk result (AreIn pool.now.trees found.old.items → AreIn pool.now.trees found.new.items) }
{
    let mut rest = term;
    while let Some((left, right)) = sides(pool, rest) {
        found.push(left)?;
        rest = right;
    }
    found.push(rest)?;
    Ok(())
}

/// The parts of a term, in their order.
///
/// # Errors
///
/// `NoMemory` where there is none for them.
pub(crate) fn all_parts(
    alloc: Global,
    sig: &Signature,
    pool: &Pool,
    term: TermId,
) -> Result<Vec<TermId>, NoMemory>
    requires { IsTerm sig.now pool.now.trees term }
    ensures stand { IfOk result (λ found. All (IsTerm sig.now pool.now.trees) found.items) }
    ensures parts { IfOk result (λ found. listed_at sig.now pool.now.trees found.items ≡ parts (term_at sig.now pool.now.trees term)) }
{
    signature_stands(sig);
    let mut found = Vec::new(alloc);
    add_parts(pool, term, &mut found)?;
    Ok(found)
}
