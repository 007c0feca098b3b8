//! The graph of calls between mappings.

ghost use Rattle.std.specs.Prelude.{◌≡◌, ◌<◌, ◌↔◌, ◌⊎◌, ℕ, false, true, length, IfOk, OnOk};
ghost use Rattle.std.specs.List.{All, Contains};
ghost use Rattle.data_theory.specs.declared.ids.FunId.{FunId};
ghost use Rattle.term_pool.specs.HeadTrees.{IsIn};
ghost use Rattle.graphs.specs.Graphs.{HasCycle, HasEdge, IsGraph};
ghost use Rattle.eqn_check.specs.CallTables.{AreEdgesUpTo, CallsOther, CallsRoundTo, ListAllCalls};
ghost use Rattle.eqn_check.specs.Judged.{IsEquationOver};

use crate::calls::EquationCalls;
use crate::patterns::is_mapping;
use data_theory::{FunId, NoMemory, Signature, TermId};
use graphs::{ranks, reachable};
use std::alloc::Global;
use term_pool::{Head, Pool, Theory};

/// Adds the numbers of the functions that are called, but for this one.
fn add_callees(
    pool: &Pool,
    fun: FunId,
    calls: &[TermId],
    found: &mut Vec<usize>,
) -> Result<(), NoMemory>
    requires { All (IsIn pool.now.trees) calls.now }
    ensures { OnOk result ((b : ℕ) → Contains found.new.items b ↔ (Contains found.old.items b
        ⊎ CallsOther pool.now.trees fun calls.now b)) }
{
    for call in calls {
        let Head::Fun(callee) = pool.node(*call).head else {
            continue;
        };
        if callee == fun {
            continue;
        }
        found.push(callee.0)?;
    }
    Ok(())
}

/// A list for each function, without entries.
fn no_edges(alloc: Global, count: usize) -> Result<Vec<Vec<usize>>, NoMemory>
    ensures size { IfOk result (λ edges. length edges.items ≡ count) }
    ensures none { IfOk result (λ edges. (a b : ℕ) → HasEdge edges.items a b → ⊥) }
{
    let mut edges = Vec::new(alloc);
    for _ in 0..count {
        edges.push(Vec::new(alloc))?;
    }
    Ok(edges)
}

/// For each function, the other mappings that its equations call.
pub fn call_edges(
    alloc: Global,
    sig: &Signature,
    theory: &Theory,
    pool: &Pool,
    lists: &[EquationCalls],
) -> Result<Vec<Vec<usize>>, NoMemory>
    requires equations { All (IsEquationOver sig.now pool.now.trees) theory.now.equations.items }
    requires lists { ListAllCalls sig.now pool.now.trees theory.now.equations.items lists.now }
    ensures { IfOk result (λ edges. AreEdgesUpTo sig.now pool.now.trees theory.now.equations.items
        (length theory.now.equations.items) edges.items) }
{
    let mut edges = no_edges(alloc, sig.fun_count())?;
    for number in 0..theory.equations.len() {
        let Head::Fun(fun) = pool.node(theory.equations[number].left).head else {
            continue;
        };
        if !is_mapping(sig, fun) {
            continue;
        }
        let list = &lists[number];
        add_callees(pool, fun, list.condition.as_slice(), &mut edges[fun.0])?;
        add_callees(pool, fun, list.right.as_slice(), &mut edges[fun.0])?;
    }
    Ok(edges)
}

/// Whether a graph has a cycle.
pub fn is_cyclic(alloc: Global, edges: &[Vec<usize>]) -> Result<bool, NoMemory>
    requires { IsGraph edges.now }
    ensures { IfOk result (λ cyclic. cyclic ≡ false → HasCycle (HasEdge edges.now) → ⊥) }
{
    let all = vec![in alloc; true; edges.len()]?;
    let found = ranks(alloc, edges, all.as_slice())?;
    Ok(found.is_none())
}

/// Whether one of these calls, but for those of the function itself, leads to the function. A graph without a cycle isn't searched.
pub fn calls_round(
    alloc: Global,
    pool: &Pool,
    edges: &[Vec<usize>],
    cyclic: bool,
    fun: FunId,
    list: &EquationCalls,
) -> Result<bool, NoMemory>
    requires graph { IsGraph edges.now }
    requires fun { fun.0 < length edges.now }
    requires condition { All (IsIn pool.now.trees) list.now.condition.items }
    requires right { All (IsIn pool.now.trees) list.now.right.items }
    requires callees { (b : ℕ) → CallsOther pool.now.trees fun list.now.condition.items b
        ⊎ CallsOther pool.now.trees fun list.now.right.items b → b < length edges.now }
    ensures round { IfOk result (λ round. round ≡ true
        → CallsRoundTo pool.now.trees edges.now fun list.now) }
    ensures none { IfOk result (λ round. round ≡ false
        → CallsRoundTo pool.now.trees edges.now fun list.now → cyclic ≡ false) }
{
    if !cyclic {
        return Ok(false);
    }
    let mut start = Vec::new(alloc);
    add_callees(pool, fun, list.condition.as_slice(), &mut start)?;
    add_callees(pool, fun, list.right.as_slice(), &mut start)?;
    let reached = reachable(alloc, edges, start.as_slice())?;
    Ok(reached[fun.0])
}
