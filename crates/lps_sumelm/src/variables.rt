//! Which variables occur in terms.

ghost use Rattle.std.specs.Prelude.{◌≡◌, ◌==◌, ◌↔◌, ◌⊎◌, IfOk, IfSome, IsTrue, OnOk};
ghost use Rattle.std.specs.List.{list_any, All, Contains};
ghost use Rattle.data_theory.specs.declared.ids.VarId.{VarId};
ghost use Rattle.data_theory.specs.declared.ids.TermId.{TermId};
ghost use Rattle.term_pool.specs.declared.terms.Head.TheVariants.{Var};
ghost use Rattle.term_pool.specs.HeadTrees.{tree_at, AreIn, IsIn};
ghost use Rattle.process_terms.specs.PlainProcesses.{plain_label};
ghost use Rattle.lps_core.specs.PlainLinears.{plain_next, plain_summand};
ghost use Rattle.lps_core.specs.TreeSummands.{IsActionIn, IsSummandIn};
ghost use Rattle.lps_sumelm.specs.OccurringVariables.{summand_terms, terms_of_label, terms_of_next, Occurs, OccursIn};

use data_theory::{NoMemory, TermId, VarId};
use indexmap::IndexSet;
use lps_core::Summand;
use process_terms::Label;
use std::alloc::Global;
use std::collections::BTreeSet;
use term_pool::{Head, Pool};

/// Adds terms to a set.
fn insert_all(terms: &[TermId], set: &mut BTreeSet<TermId>) -> Result<(), NoMemory>
    ensures { OnOk result ((term : TermId) → Contains set.new.keys term ↔ (Contains set.old.keys term ⊎ Contains terms.now term)) }
{
    for term in terms {
        set.insert(*term)?;
    }
    Ok(())
}

/// Adds the variable that a head is.
fn add_head(head: Head, set: &mut IndexSet<VarId>) -> Result<(), NoMemory>
    ensures { OnOk result ((v : VarId) → Contains set.new.keys v ↔ (Contains set.old.keys v ⊎ (head ≡ Var v))) }
{
    if let Head::Var(var) = head {
        set.insert(var)?;
    }
    Ok(())
}

/// Adds the variables of terms to a set. Each term under these is read once.
fn add_terms(
    alloc: Global,
    pool: &Pool,
    terms: &[TermId],
    set: &mut IndexSet<VarId>,
) -> Result<(), NoMemory>
    requires { AreIn pool.now.trees terms.now }
    ensures { OnOk result ((v : VarId) → Contains set.new.keys v ↔ (Contains set.old.keys v ⊎ OccursIn pool.now.trees terms.now v)) }
{
    let mut waiting = BTreeSet::new(alloc);
    insert_all(terms, &mut waiting)?;
    while let Some(next) = waiting.pop_last() {
        let node = pool.node(next);
        insert_all(node.args.as_slice(), &mut waiting)?;
        add_head(node.head, set)?;
    }
    Ok(())
}

/// Whether a variable is in a set.
pub(crate) fn has_variable(set: &IndexSet<VarId>, var: VarId) -> bool
    ensures { result ≡ list_any (λ (y : VarId). var.0 == y.0) set.now.keys }
{
    set.contains(&var)
}

/// Whether a variable occurs in a term.
pub(crate) fn occurs(alloc: Global, pool: &Pool, var: VarId, term: TermId) -> Result<bool, NoMemory>
    requires { IsIn pool.now.trees term }
    ensures { IfOk result (λ there. IsTrue there ↔ Occurs var (tree_at pool.now.trees term)) }
{
    let mut found = IndexSet::new(alloc);
    add_terms(alloc, pool, &[term], &mut found)?;
    Ok(has_variable(&found, var))
}

/// Adds the variables of a label's arguments to a set.
fn add_label(
    alloc: Global,
    pool: &Pool,
    label: &Label,
    set: &mut IndexSet<VarId>,
) -> Result<(), NoMemory>
    requires { All (IsActionIn pool.now.trees) (plain_label label.now) }
    ensures { OnOk result ((v : VarId) → Contains set.new.keys v ↔ (Contains set.old.keys v ⊎ OccursIn pool.now.trees (terms_of_label (plain_label label.now)) v)) }
{
    for action in &label.actions {
        add_terms(alloc, pool, action.args.as_slice(), set)?;
    }
    Ok(())
}

/// Adds the variables of next terms to a set.
fn add_next(
    alloc: Global,
    pool: &Pool,
    next: &Option<Vec<TermId>>,
    set: &mut IndexSet<VarId>,
) -> Result<(), NoMemory>
    requires { IfSome (plain_next next.now) (AreIn pool.now.trees) }
    ensures { OnOk result ((v : VarId) → Contains set.new.keys v ↔ (Contains set.old.keys v ⊎ OccursIn pool.now.trees (terms_of_next (plain_next next.now)) v)) }
{
    match next {
        Some(terms) => add_terms(alloc, pool, terms.as_slice(), set),
        None => Ok(()),
    }
}

/// The variables that occur in a summand's terms.
pub(crate) fn summand_variables(
    alloc: Global,
    pool: &Pool,
    summand: &Summand,
) -> Result<IndexSet<VarId>, NoMemory>
    requires { IsSummandIn pool.now.trees (plain_summand summand.now) }
    ensures { IfOk result (λ found. (v : VarId) → Contains found.keys v ↔ OccursIn pool.now.trees (summand_terms (plain_summand summand.now)) v) }
{
    let mut found = IndexSet::new(alloc);
    add_terms(alloc, pool, &[summand.cond], &mut found)?;
    add_label(alloc, pool, &summand.label, &mut found)?;
    add_next(alloc, pool, &summand.next, &mut found)?;
    Ok(found)
}
