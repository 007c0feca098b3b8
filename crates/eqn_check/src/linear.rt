//! Terms in which no variable stands twice.

ghost use Rattle.std.specs.Prelude.{◌≡◌, ◌++◌, IfOk, OnOk};
ghost use Rattle.std.specs.Bool.{Decides};
ghost use Rattle.data_theory.specs.Environments.{AreDistinct};
ghost use Rattle.term_pool.specs.HeadTrees.{tree_at, IsIn};
ghost use Rattle.eqn_check.specs.Linear.{variables_in};

use crate::variable_sets::VariableSet;
use data_theory::{NoMemory, TermId};
use std::alloc::Global;
use term_pool::{Head, Pool};

/// Adds terms behind others.
pub fn push_all(terms: &mut Vec<TermId>, added: &[TermId]) -> Result<(), NoMemory>
    ensures { OnOk result (terms.new.items ≡ terms.old.items ++ added.now) }
{
    for term in added {
        terms.push(*term)?;
    }
    Ok(())
}

/// Whether no variable stands twice in a term.
pub fn has_distinct_variables(alloc: Global, pool: &Pool, term: TermId) -> Result<bool, NoMemory>
    requires { IsIn pool.now.trees term }
    ensures { IfOk result (λ b. Decides b (AreDistinct (variables_in
        (tree_at pool.now.trees term)))) }
{
    let mut waiting = Vec::new(alloc);
    let mut seen = VariableSet::new(alloc);
    waiting.push(term)?;
    for _ in 0..u64::MAX {
        let Some(next) = waiting.pop() else {
            return Ok(true);
        };
        let node = pool.node(next);
        let Head::Var(var) = node.head else {
            push_all(&mut waiting, node.args.as_slice())?;
            continue;
        };
        if seen.contains(var) {
            return Ok(false);
        }
        seen.insert(var)?;
    }
    Err(NoMemory)
}
