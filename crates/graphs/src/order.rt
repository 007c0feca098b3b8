//! Ranks along the edges of a graph.

ghost use Rattle.std.specs.Prelude.{◌≡◌, ◌<◌, ◌≤◌, ◌+◌, ◌^◌, ℕ, [], ◌∷◌, length, map, IfOk, MatchOption, MatchBool};
ghost use Rattle.graphs.specs.Graphs.{IsGraph, HasEdge, HasEdgeAmong, HasCycle, AreRanks};
ghost use Rattle.graphs.specs.Settling.{IsSettling, IsNewSearch, Settles, rank_in};

use crate::edges::edges_among;
use std::alloc::{AllocError, Global};

/// What a search knows of a node: nothing, that it stands on the path, or its rank.
#[derive(Clone, Copy)]
enum State {
    New,
    Open,
    Done(usize),
}

/// A search in depth, which ranks each node behind all that it leads to.
#[derive(Drop)]
struct Search {
    /// How many successors of each node are done.
    seen: Vec<usize>,
    states: Vec<State>,
    count: usize,
}

/// Ranks of the nodes, all below their number, so that each edge between nodes among these leads to a smaller rank;
/// `None` exactly where they have a cycle.
///
/// # Errors
///
/// Want of memory.
pub fn ranks(
    alloc: Global,
    edges: &[Vec<usize>],
    among: &[bool],
) -> Result<Option<Vec<usize>>, AllocError>
    requires graph { IsGraph edges.now }
    requires among { length among.now ≡ length edges.now }
    ensures ranks { IfOk result (λ ranks. MatchOption ranks (HasCycle (HasEdgeAmong edges.now among.now)) (λ ranks. AreRanks edges.now among.now ranks.items)) }
    ensures acyclic { IfOk result (λ ranks. MatchOption ranks (HasCycle (HasEdgeAmong edges.now among.now)) (λ _. ¬ HasCycle (HasEdgeAmong edges.now among.now))) }
{
    let kept = edges_among(alloc, edges, among)?;
    let mut search = new_search(alloc, edges.len())?;
    for node in 0..kept.len() {
        if !search.settle(alloc, kept.as_slice(), node)? {
            return Ok(None);
        }
    }
    Ok(Some(search.ranks(alloc)?))
}

/// The search that has met no node.
fn new_search(alloc: Global, nodes: usize) -> Result<Search, AllocError>
    ensures { IfOk result (λ search. IsNewSearch nodes search.seen.items search.states.items search.count) }
{
    let seen = vec![in alloc; 0; nodes]?;
    let states = vec![in alloc; State::New; nodes]?;
    let count = 0;
    Ok(Search {
        seen,
        states,
        count,
    })
}

impl Search {
    /// Ranks a node and all that it leads to; `false` where a cycle is met.
    fn settle(
        &mut self,
        alloc: Global,
        edges: &[Vec<usize>],
        node: usize,
    ) -> Result<bool, AllocError>
        requires graph { IsGraph edges.now }
        requires node { node < length edges.now }
        requires settling { IsSettling edges.now self.old.seen.items self.old.states.items [] self.old.count }
        ensures { IfOk result (λ settled. MatchBool settled (Settles edges.now node self.old.states.items self.new.seen.items self.new.states.items self.new.count) (HasCycle (HasEdge edges.now))) }
    {
        let mut path = Vec::new(alloc);
        if let State::New = self.states[node] {
            self.states[node] = State::Open;
            path.push(node)?;
        }
        while let Some(top) = path.pop() {
            let successors = edges[top].as_slice();
            let seen = self.seen[top];
            if seen >= successors.len() {
                self.states[top] = State::Done(self.count);
                self.count += 1;
                continue;
            }
            path.push(top)?;
            let successor = successors[seen];
            match self.states[successor] {
                State::New => {
                    self.states[successor] = State::Open;
                    path.push(successor)?;
                }
                State::Open => return Ok(false),
                State::Done(_) => self.seen[top] = seen + 1,
            }
        }
        Ok(true)
    }

    /// The ranks of the nodes that are done.
    fn ranks(&self, alloc: Global) -> Result<Vec<usize>, AllocError>
        ensures { IfOk result (λ ranks. ranks.items ≡ map rank_in self.now.states.items) }
    {
        self.states.iter().map(|state| state.rank()).collect(alloc)
    }
}

impl State {
    /// The rank of a node that is done.
    fn rank(self) -> usize
        ensures { result ≡ rank_in self }
    {
        match self {
            State::Done(rank) => rank,
            State::New | State::Open => 0,
        }
    }
}
