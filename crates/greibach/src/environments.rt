//! Terms for the variables of a body.

ghost use Rattle.std.specs.Prelude.{◌≡◌, ◌∷◌, List, length, map, IfOk, IfSome, MatchOption};
ghost use Rattle.std.specs.List.{All, Contains};
ghost use Rattle.data_theory.specs.declared.ids.VarId.{VarId};
ghost use Rattle.data_theory.specs.IdTrees.{Tree};
ghost use Rattle.term_pool.specs.HeadTrees.{tree_at, trees_at};
ghost use Rattle.term_pool.specs.Bindings.{listed, listed_terms};
ghost use Rattle.greibach.specs.ListedVariables.{listed_variables, paired};

use data_theory::{NoMemory, TermId, VarId};
use std::alloc::Global;

/// The first of the terms that are listed for a variable, which has one.
fn term_for(var: VarId, by: &[(VarId, TermId)]) -> Option<TermId>
    ensures none { MatchOption result (Contains (listed_variables by.now) var → ⊥) (λ term. (ts : List Tree) → listed ts by.now var ≡ tree_at ts term) }
    ensures among { IfSome result (λ term. Contains (listed_terms by.now) term) }
{
    for (listed, term) in by {
        if *listed == var {
            return Some(*term);
        }
    }
    None
}

/// The terms that are listed for variables, each of which has one.
pub fn terms_for(
    alloc: Global,
    vars: &[VarId],
    by: &[(VarId, TermId)],
) -> Result<Vec<TermId>, NoMemory>
    requires { All (λ (v : VarId). Contains (listed_variables by.now) v) vars.now }
    ensures terms { IfOk result (λ terms. (ts : List Tree) → trees_at ts terms.items ≡ map (listed ts by.now) vars.now) }
    ensures among { IfOk result (λ terms. All (Contains (listed_terms by.now)) terms.items) }
{
    let mut terms = Vec::new(alloc);
    for var in vars {
        match term_for(*var, by) {
            Some(term) => terms.push(term)?,
            None => unreachable!(),
        }
    }
    Ok(terms)
}

/// Variables with the terms for them, place by place.
pub fn bound_to(
    alloc: Global,
    vars: &[VarId],
    terms: &[TermId],
) -> Result<Vec<(VarId, TermId)>, NoMemory>
    requires { length terms.now ≡ length vars.now }
    ensures { IfOk result (λ by. by.items ≡ paired vars.now terms.now) }
{
    let mut by = Vec::new(alloc);
    for number in 0..vars.len() {
        by.push((vars[number], terms[number]))?;
    }
    Ok(by)
}

/// A variable with its term in front of others.
pub fn with_first(
    alloc: Global,
    var: VarId,
    term: TermId,
    by: &[(VarId, TermId)],
) -> Result<Vec<(VarId, TermId)>, NoMemory>
    ensures { IfOk result (λ all. all.items ≡ (var, term) ∷ by.now) }
{
    let mut all = Vec::new(alloc);
    all.push((var, term))?;
    all.extend_from_slice(by)?;
    Ok(all)
}
