//! Matching of left sides.

ghost use Rattle.std.specs.Prelude.{◌≡◌, ◌↔◌, ◌++◌, List, [], IfOk, OnOk, IfSome, IfNone, MatchOption, length};
ghost use Rattle.std.specs.List.{All, Contains};
ghost use Rattle.data_theory.specs.declared.ids.TermId.{TermId};
ghost use Rattle.data_theory.specs.declared.ids.VarId.{VarId};
ghost use Rattle.data_theory.specs.Signature.{Sig};
ghost use Rattle.data_theory.specs.IdTables.{IsTable};
ghost use Rattle.term_pool.specs.HeadTrees.{IsIn};
ghost use Rattle.data_rewriter.specs.Standing.{IsTerm};
ghost use Rattle.data_rewriter.specs.Matching.{IsMatchState, Misses, pairs};

use data_theory::{NoMemory, TermId, VarId};
use std::alloc::Global;
use term_pool::{Head, Pool};

/// The term that was found for a variable.
fn found_for(var: VarId, found: &[(VarId, TermId)]) -> Option<TermId>
    ensures { MatchOption result (All (λ p. p.0.0 ≡ var.0 → ⊥) found.now) (λ term. Contains found.now (var, term)) }
{
    for i in 0..found.len() {
        let (other, term) = found[i];
        if other == var {
            return Some(term);
        }
    }
    None
}

/// Adds the pairs of two lists.
fn push_pairs(
    left: &mut Vec<(TermId, TermId)>,
    patterns: &[TermId],
    terms: &[TermId],
) -> Result<(), NoMemory>
    requires { length patterns.now ≡ length terms.now }
    ensures { OnOk result (left.new.items ≡ left.old.items ++ pairs patterns.now terms.now) }
{
    for i in 0..patterns.len() {
        left.push((patterns[i], terms[i]))?;
    }
    Ok(())
}

/// What stands for the variables of a pattern where it is laid over a term.
pub fn match_terms(
    alloc: Global,
    pool: &Pool,
    pattern: TermId,
    term: TermId,
) -> Result<Option<Vec<(VarId, TermId)>>, NoMemory>
    requires pattern { IsIn pool.now.trees pattern }
    requires term { IsIn pool.now.trees term }
    ensures { IfOk result (λ r. (sig : Sig) → IsTable sig → IsTerm sig pool.now.trees pattern → IsTerm sig pool.now.trees term → MatchOption r (Misses sig pool.now.trees pattern term) (λ found. IsMatchState sig pool.now.trees pattern term found.items [])) }
{
    let mut found = Vec::new(alloc);
    let mut left = Vec::new(alloc);
    left.push((pattern, term))?;
    for _ in 0..u64::MAX {
        let Some((next, over)) = left.pop() else {
            return Ok(Some(found));
        };
        let node = pool.node(next);
        if let Head::Var(var) = node.head {
            if let Some(other) = found_for(var, found.as_slice()) {
                if other != over {
                    return Ok(None);
                }
                continue;
            }
            found.push((var, over))?;
            continue;
        }
        let Head::Fun(fun) = node.head else {
            if next != over {
                return Ok(None);
            }
            continue;
        };
        let under = pool.node(over);
        let Head::Fun(other) = under.head else {
            return Ok(None);
        };
        if fun != other {
            return Ok(None);
        }
        if node.args.len() != under.args.len() {
            return Ok(None);
        }
        push_pairs(&mut left, node.args.as_slice(), under.args.as_slice())?;
    }
    Err(NoMemory)
}
