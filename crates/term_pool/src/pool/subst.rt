//! Terms put in for variables.

ghost use Rattle.std.specs.Prelude.{◌≡◌, ◌↔◌, ◌⊎◌, IfOk, OnOk};
ghost use Rattle.std.specs.List.{All, Contains};
ghost use Rattle.data_theory.specs.declared.ids.TermId.{TermId};
ghost use Rattle.data_theory.specs.declared.ids.VarId.{VarId};
ghost use Rattle.data_theory.specs.IdTrees.{put_tree};
ghost use Rattle.term_pool.specs.HeadTrees.{tree_at, IsIn, AreIn};
ghost use Rattle.term_pool.specs.Pools.{Extends, AddsAtMost, AddsOnly};
ghost use Rattle.term_pool.specs.Bindings.{listed, listed_terms, IsDone};
ghost use Rattle.term_pool.specs.Subterms.{IsArgument, IsMadeUnder, AreUnder};

use super::Pool;
use crate::bindings::{bound_term, results_of};
use crate::terms::Head;
use data_theory::{NoMemory, TermId, VarId};
use std::collections::{BTreeSet, HashMap};

/// Adds terms to a set.
fn insert_all(set: &mut BTreeSet<TermId>, terms: &[TermId]) -> Result<(), NoMemory>
    ensures { OnOk result ((term : TermId) → Contains set.new.keys term ↔ (Contains set.old.keys term ⊎ Contains terms.now term)) }
{
    for term in terms {
        set.insert(*term)?;
    }
    Ok(())
}

impl Pool {
    /// A term and the terms under it, each once, from the greatest id down.
    fn terms_under(&self, id: TermId) -> Result<Vec<TermId>, NoMemory>
        requires { IsIn self.now.trees id }
        ensures { IfOk result (λ under. AreUnder self.now.trees id under.items) }
    {
        let mut under = Vec::new(self.alloc);
        let mut waiting = BTreeSet::new(self.alloc);
        waiting.insert(id)?;
        while let Some(next) = waiting.pop_last() {
            insert_all(&mut waiting, self.node(next).args.as_slice())?;
            under.push(next)?;
        }
        Ok(under)
    }

    /// A term with the listed terms put in, where its arguments have their results.
    fn put_in(
        &mut self,
        id: TermId,
        by: &[(VarId, TermId)],
        results: &HashMap<TermId, TermId>,
    ) -> Result<TermId, NoMemory>
        requires within { IsIn self.old.trees id }
        requires terms { AreIn self.old.trees (listed_terms by.now) }
        requires arguments { (arg : TermId) → IsArgument self.old.trees arg id → IsDone self.old.trees (listed self.old.trees by.now) results.now arg }
        ensures added { AddsAtMost self.old.trees (put_tree (listed self.old.trees by.now) (tree_at self.old.trees id)) self.new.trees }
        ensures tree { IfOk result (λ made. tree_at self.new.trees made ≡ put_tree (listed self.old.trees by.now) (tree_at self.old.trees id)) }
        ensures within { IfOk result (λ made. IsIn self.new.trees made) }
        ensures constants { self.new.constants ≡ self.old.constants }
    {
        let node = self.node(id);
        let head = node.head;
        if let Head::Var(var) = head {
            return Ok(bound_term(var, by).unwrap_or(id));
        }
        let args = results_of(self.alloc, node.args.as_slice(), results)?;
        self.intern(head, args.as_slice())
    }

    /// The term with the listed terms in place of variables, all at once. What can merge then merges, as in
    /// [`intern`](Self::intern).
    ///
    /// The first term that is listed for a variable counts; a variable for which none is listed stays. Beside the result, the
    /// pool may get what becomes of the terms under the given one, and nothing else; after `NoMemory` too.
    ///
    /// Each term under the given one is read once, in however many places it stands, and no call stack grows with the term.
    pub fn subst(&mut self, id: TermId, by: &[(VarId, TermId)]) -> Result<TermId, NoMemory>
        requires within { IsIn self.old.trees id }
        requires terms { AreIn self.old.trees (listed_terms by.now) }
        ensures kept { Extends self.old.trees self.new.trees }
        ensures added { AddsOnly self.old.trees (IsMadeUnder (listed self.old.trees by.now) (tree_at self.old.trees id)) self.new.trees }
        ensures tree { IfOk result (λ made. tree_at self.new.trees made ≡ put_tree (listed self.old.trees by.now) (tree_at self.old.trees id)) }
        ensures within { IfOk result (λ made. IsIn self.new.trees made) }
        ensures constants { self.new.constants ≡ self.old.constants }
    {
        let mut left = self.terms_under(id)?;
        let mut results = HashMap::new(self.alloc);
        while let Some(next) = left.pop() {
            let made = self.put_in(next, by, &results)?;
            results.insert(next, made)?;
        }
        Ok(results[&id])
    }
}
