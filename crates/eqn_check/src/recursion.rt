//! Calls that go around.

ghost use Rattle.std.specs.Prelude.{◌≡◌, ◌<◌, length, Bool, IfOk, List, Some, slice_get};
ghost use Rattle.std.specs.Bool.{Decides};
ghost use Rattle.std.specs.List.{list_any, All};
ghost use Rattle.data_theory.specs.IdData.{data_meant};
ghost use Rattle.data_theory.specs.Provable.{Equation};
ghost use Rattle.eqn_check.specs.CallTables.{AreCalls};
ghost use Rattle.eqn_check.specs.Judged.{term_at, AreEquationsOf, IsEquationOver};
ghost use Rattle.eqn_check.specs.Patterns.{IsLeftSide};
ghost use Rattle.eqn_check.specs.Rules.{BreaksRecursion};

use crate::calls::{EquationCalls, list_calls};
use crate::edges::{call_edges, calls_round, is_cyclic};
use crate::falling::{calls_itself, falling_places};
use data_theory::{NoMemory, Signature};
use std::alloc::Global;
use term_pool::{Head, Pool, Theory};

/// What the equations call.
#[derive(Drop)]
pub struct Calls {
    /// The calls of mappings in each equation.
    pub lists: Vec<EquationCalls>,
    /// For each function, the other mappings that its equations call.
    pub edges: Vec<Vec<usize>>,
    /// Whether a mapping may reach itself by way of others.
    pub cyclic: bool,
    /// For each function, which of its argument places fall in all its equations.
    pub falling: Vec<Vec<bool>>,
}

/// What the equations call.
pub fn find_calls(
    alloc: Global,
    sig: &Signature,
    theory: &Theory,
    pool: &Pool,
) -> Result<Calls, NoMemory>
    requires { All (IsEquationOver sig.now pool.now.trees) theory.now.equations.items }
    ensures { IfOk result (λ calls. AreCalls sig.now pool.now.trees theory.now.equations.items
        calls.lists.items calls.edges.items calls.cyclic calls.falling.items) }
{
    let lists = list_calls(alloc, sig, theory, pool)?;
    let edges = call_edges(alloc, sig, theory, pool, lists.as_slice())?;
    let cyclic = is_cyclic(alloc, edges.as_slice())?;
    let falling = falling_places(alloc, sig, theory, pool, lists.as_slice())?;
    Ok(Calls {
        lists,
        edges,
        cyclic,
        falling,
    })
}

/// Whether one of the marks is set.
fn has_mark(marks: &[bool]) -> bool
    ensures { result ≡ list_any (λ (b : Bool). b) marks.now }
{
    marks.iter().any(|mark| *mark)
}

/// Whether the calls of an equation may go around, where its left side is of the right shape.
pub fn goes_around(
    alloc: Global,
    sig: &Signature,
    theory: &Theory,
    pool: &Pool,
    calls: &Calls,
    number: usize,
) -> Result<bool, NoMemory>
    requires equations { All (IsEquationOver sig.now pool.now.trees) theory.now.equations.items }
    requires calls { AreCalls sig.now pool.now.trees theory.now.equations.items
        calls.now.lists.items calls.now.edges.items calls.now.cyclic calls.now.falling.items }
    requires number { number < length theory.now.equations.items }
    ensures { IfOk result (λ around. (own : List Equation)
        → AreEquationsOf sig.now pool.now.trees theory.now.equations.items own
        → (q : Equation) → slice_get own number ≡ Some q → IsLeftSide (data_meant sig.now) q.left
        → Decides around (BreaksRecursion (data_meant sig.now) own q)) }
{
    let Head::Fun(fun) = pool.node(theory.equations[number].left).head else {
        return Ok(false);
    };
    sig.next_sort();
    let list = &calls.lists[number];
    let round = calls_round(alloc, pool, calls.edges.as_slice(), calls.cyclic, fun, list)?;
    if round {
        return Ok(true);
    }
    let itself = calls_itself(pool, fun, list);
    if !itself {
        return Ok(false);
    }
    let falls = has_mark(calls.falling[fun.0].as_slice());
    Ok(!falls)
}
