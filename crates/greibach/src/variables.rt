//! Sets of variables.

ghost use Rattle.std.specs.Prelude.{◌≡◌, ◌==◌, ◌↔◌, ◌⊎◌, IfOk, OnOk};
ghost use Rattle.std.specs.List.{Contains, list_any};
ghost use Rattle.data_theory.specs.declared.ids.VarId.{VarId};
ghost use Rattle.data_theory.specs.declared.ids.TermId.{TermId};
ghost use Rattle.term_pool.specs.declared.terms.Head.TheVariants.{Var};
ghost use Rattle.term_pool.specs.HeadTrees.{AreIn};
ghost use Rattle.greibach.specs.OccurringVariables.{those_among, OccursIn};

use data_theory::{NoMemory, TermId, VarId};
use indexmap::IndexSet;
use std::alloc::Global;
use std::collections::BTreeSet;
use term_pool::{Head, Pool};

/// Adds variables to a set.
pub fn add_variables(vars: &[VarId], set: &mut IndexSet<VarId>) -> Result<(), NoMemory>
    ensures { OnOk result ((v : VarId) → Contains set.new.keys v ↔ (Contains set.old.keys v ⊎ Contains vars.now v)) }
{
    for var in vars {
        set.insert(*var)?;
    }
    Ok(())
}

/// Whether a variable is in a set.
pub fn has_variable(set: &IndexSet<VarId>, var: VarId) -> bool
    ensures { result ≡ list_any (λ (y : VarId). var.0 == y.0) set.now.keys }
{
    set.contains(&var)
}

/// Those of the variables that are in a set.
pub fn among(alloc: Global, vars: &[VarId], set: &IndexSet<VarId>) -> Result<Vec<VarId>, NoMemory>
    ensures { IfOk result (λ found. found.items ≡ those_among vars.now set.now.keys) }
{
    let mut found = Vec::new(alloc);
    for var in vars {
        if has_variable(set, *var) {
            found.push(*var)?;
        }
    }
    Ok(found)
}

/// Adds terms to a set.
fn insert_all(terms: &[TermId], set: &mut BTreeSet<TermId>) -> Result<(), NoMemory>
    ensures { OnOk result ((term : TermId) → Contains set.new.keys term ↔ (Contains set.old.keys term ⊎ Contains terms.now term)) }
{
    for term in terms {
        set.insert(*term)?;
    }
    Ok(())
}

/// Adds the variable that a head is.
fn add_head(head: Head, set: &mut IndexSet<VarId>) -> Result<(), NoMemory>
    ensures { OnOk result ((v : VarId) → Contains set.new.keys v ↔ (Contains set.old.keys v ⊎ (head ≡ Var v))) }
{
    if let Head::Var(var) = head {
        set.insert(var)?;
    }
    Ok(())
}

/// Adds the variables of terms to a set. Each term under these is read once.
pub fn add_terms(
    alloc: Global,
    pool: &Pool,
    terms: &[TermId],
    set: &mut IndexSet<VarId>,
) -> Result<(), NoMemory>
    requires { AreIn pool.now.trees terms.now }
    ensures { OnOk result ((v : VarId) → Contains set.new.keys v ↔ (Contains set.old.keys v ⊎ OccursIn pool.now.trees terms.now v)) }
{
    let mut waiting = BTreeSet::new(alloc);
    insert_all(terms, &mut waiting)?;
    while let Some(next) = waiting.pop_last() {
        let node = pool.node(next);
        insert_all(node.args.as_slice(), &mut waiting)?;
        add_head(node.head, set)?;
    }
    Ok(())
}
