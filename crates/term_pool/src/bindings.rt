//! Terms that are put in for variables.

ghost use Rattle.std.specs.Prelude.{◌≡◌, List, Some, map, IfOk, IfSome, IsSome, MatchOption};
ghost use Rattle.std.specs.List.{All, Contains};
ghost use Rattle.data_theory.specs.declared.ids.VarId.{VarId};
ghost use Rattle.data_theory.specs.declared.ids.TermId.{TermId};
ghost use Rattle.data_theory.specs.IdTrees.{Tree, variable};
ghost use Rattle.term_pool.specs.HeadTrees.{tree_at};
ghost use Rattle.term_pool.specs.Bindings.{listed, listed_terms, result_of};

use data_theory::{NoMemory, TermId, VarId};
use std::alloc::Global;
use std::collections::HashMap;

/// The first of the terms that are listed for a variable.
pub fn bound_term(var: VarId, by: &[(VarId, TermId)]) -> Option<TermId>
    ensures tree { (ts : List Tree) → MatchOption result (listed ts by.now var ≡ variable var) (λ term. listed ts by.now var ≡ tree_at ts term) }
    ensures among { IfSome result (λ term. Contains (listed_terms by.now) term) }
{
    for (listed, term) in by {
        if *listed == var {
            return Some(*term);
        }
    }
    None
}

/// The results of terms that have one.
pub fn results_of(
    alloc: Global,
    terms: &[TermId],
    results: &HashMap<TermId, TermId>,
) -> Result<Vec<TermId>, NoMemory>
    requires { All (λ term. IsSome (result_of results.now term)) terms.now }
    ensures { IfOk result (λ found. map Some found.items ≡ map (result_of results.now) terms.now) }
{
    let mut found = Vec::new(alloc);
    for term in terms {
        found.push(results[term])?;
    }
    Ok(found)
}
