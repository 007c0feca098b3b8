//! A pool of terms.

mod closed_term;
mod subst;

use crate::merging::merged_numeral;
use crate::terms::{Head, Node};
use data_theory::{FunId, NoMemory, SortId, TermId};
use indexmap::{IndexMap, IndexSet};
use std::alloc::Global;
use std::marker::Model;

/// A list of trees, by their ids, and the constants that were declared for sorts without constructors. No two ids have one
/// tree.
#[derive(Drop)]
pub struct Pool {
    nodes: IndexSet<Node>,
    constants: IndexMap<SortId, FunId>,
    alloc: Global,
}

impl Model for Pool {
    ghost use Rattle.term_pool.specs.Pools.{PoolContents};
    ghost use Rattle.term_pool.specs.TreeCodes.{coded_contents};

    ghost Value = { PoolContents };

    ghost coded = { coded_contents };

    ghost use Rattle.term_pool.specs.Pools.{trees_of_nodes, IsPool};

    ghost view = { λ pool. record { trees = trees_of_nodes pool.nodes.keys; constants = pool.constants.entries } };

    ghost invariant = { λ pool. IsPool pool.nodes.keys };
}

impl Pool {
    ghost use Rattle.std.specs.Prelude.{◌≡◌, ◌<◌, [], length, IfOk, OnOk, OnErr, IfSome, MatchOption};
    ghost use Rattle.std.specs.List.{All};
    ghost use Rattle.data_theory.specs.declared.ids.TermId.{TermId};
    ghost use Rattle.term_pool.specs.HeadTrees.{written_tree, head_tree, tree_at, trees_at, IsIn, AreIn, Stands};
    ghost use Rattle.term_pool.specs.Pools.{AreDistinct, Extends, Adds};

    /// The empty pool.
    pub fn new(alloc: Global) -> Result<Pool, NoMemory>
        ensures empty { IfOk result (λ pool. pool.trees ≡ []) }
        ensures constants { IfOk result (λ pool. pool.constants ≡ []) }
    {
        Ok(Pool {
            nodes: IndexSet::new(alloc),
            constants: IndexMap::new(alloc),
            alloc,
        })
    }

    /// The number of terms. The ids of the pool are those below it.
    pub fn len(&self) -> usize
        ensures count { result ≡ length self.now.trees }
        ensures distinct { AreDistinct self.now.trees }
    {
        self.nodes.len()
    }

    /// The head and the arguments of a term. The ids of the arguments are below its own.
    pub fn node(&self, id: TermId) -> &Node
        requires { IsIn self.now.trees id }
        ensures tree { tree_at self.now.trees id ≡ written_tree result.now.head (trees_at self.now.trees result.now.args.items) }
        ensures unmerged { tree_at self.now.trees id ≡ head_tree result.now.head (trees_at self.now.trees result.now.args.items) }
        ensures below { All (λ (arg : TermId). arg.0 < id.0) result.now.args.items }
        ensures stands { Stands result.now.head result.now.args.items }
        ensures distinct { AreDistinct self.now.trees }
    {
        &self.nodes[id.0]
    }

    /// The id of a node in which nothing merges.
    fn enter(&mut self, head: Head, args: &[TermId]) -> Result<TermId, NoMemory>
        requires within { AreIn self.old.trees args.now }
        requires stands { Stands head args.now }
        requires unmerged { head_tree head (trees_at self.old.trees args.now) ≡ written_tree head (trees_at self.old.trees args.now) }
        ensures kept { Extends self.old.trees self.new.trees }
        ensures added { OnOk result (Adds self.old.trees (head_tree head (trees_at self.old.trees args.now)) self.new.trees) }
        ensures tree { IfOk result (λ id. tree_at self.new.trees id ≡ head_tree head (trees_at self.old.trees args.now)) }
        ensures within { IfOk result (λ id. IsIn self.new.trees id) }
        ensures constants { self.new.constants ≡ self.old.constants }
        ensures unchanged { OnErr result (self.new ≡ self.old) }
    {
        let args = args.to_vec(self.alloc)?;
        let (place, _) = self.nodes.insert_full(Node { head, args })?;
        Ok(TermId(place))
    }

    /// The numeral that a head makes of its one argument, where the two merge.
    fn merged(&self, head: Head, args: &[TermId]) -> Option<Head>
        requires { AreIn self.now.trees args.now }
        ensures merges { MatchOption result (head_tree head (trees_at self.now.trees args.now) ≡ written_tree head (trees_at self.now.trees args.now)) (λ numeral. head_tree head (trees_at self.now.trees args.now) ≡ head_tree numeral []) }
        ensures stands { IfSome result (λ numeral. Stands numeral []) }
    {
        let Head::Fun(fun) = head else {
            return None;
        };
        if args.len() != 1 {
            return None;
        }
        let Head::Num(sort, num) = self.node(args[0]).head else {
            return None;
        };
        merged_numeral(fun, sort, num)
    }

    /// The id of the term with this head and these arguments. It is added where it isn't there; a refusal adds nothing. A `Pos2Nat`, `Nat2Int` or
    /// `Pos2Int` over a numeral is the numeral of the wider sort, and a prefix `-` over a numeral above zero is the negative
    /// numeral.
    pub fn intern(&mut self, head: Head, args: &[TermId]) -> Result<TermId, NoMemory>
        requires within { AreIn self.old.trees args.now }
        requires stands { Stands head args.now }
        ensures kept { Extends self.old.trees self.new.trees }
        ensures added { OnOk result (Adds self.old.trees (head_tree head (trees_at self.old.trees args.now)) self.new.trees) }
        ensures tree { IfOk result (λ id. tree_at self.new.trees id ≡ head_tree head (trees_at self.old.trees args.now)) }
        ensures within { IfOk result (λ id. IsIn self.new.trees id) }
        ensures constants { self.new.constants ≡ self.old.constants }
        ensures unchanged { OnErr result (self.new ≡ self.old) }
    {
        match self.merged(head, args) {
            Some(numeral) => self.enter(numeral, &[]),
            None => self.enter(head, args),
        }
    }
}
