//! Argument places that fall.

ghost use Rattle.std.specs.Prelude.{◌≡◌, ◌++◌, ◌↔◌, ◌⊎◌, length, map, true, IfOk, OnOk};
ghost use Rattle.std.specs.Bool.{Decides};
ghost use Rattle.std.specs.List.{All, Contains};
ghost use Rattle.data_theory.specs.declared.ids.FunId.{FunId};
ghost use Rattle.data_theory.specs.declared.ids.VarId.{VarId};
ghost use Rattle.data_theory.specs.IdTrees.{Trees};
ghost use Rattle.term_pool.specs.declared.terms.Head.TheVariants.{Var};
ghost use Rattle.term_pool.specs.HeadTrees.{tree_at, IsIn};
ghost use Rattle.eqn_check.specs.CallTables.{with_mark, AllBelow, AreBelow, AreFallingUpTo, CallsItself, CountsDownInCall, FallsInCall, FallsInCalls, FallsInEquation, HaveAllMarks, IsConstructorAt, IsLeftOf, KeepsMarks, ListAllCalls, ListsEquationCalls, ShrinksInCall};
ghost use Rattle.eqn_check.specs.Judged.{IsEquationOver, IsTerm};

use crate::calls::EquationCalls;
use crate::counting::{counted_variables, lessened};
use crate::patterns::is_constructor;
use crate::variable_sets::VariableSet;
use data_theory::{FunId, NoMemory, Signature, TermId, VarId};
use std::alloc::Global;
use term_pool::{Equation, Head, Pool, Theory};

/// Whether a term is a constructor, applied.
fn is_constructed(sig: &Signature, pool: &Pool, term: TermId) -> bool
    requires { IsTerm sig.now pool.now.trees term }
    ensures { Decides result (IsConstructorAt sig.now (tree_at pool.now.trees term)) }
{
    let Head::Fun(fun) = pool.node(term).head else {
        return false;
    };
    is_constructor(sig, fun)
}

/// Whether a constructor stands above a term, or at its root.
fn is_below(sig: &Signature, pool: &Pool, term: TermId, below: bool) -> bool
    requires { IsTerm sig.now pool.now.trees term }
    ensures { Decides result ((below ≡ true) ⊎ IsConstructorAt sig.now
        (tree_at pool.now.trees term)) }
{
    if below {
        return true;
    }
    is_constructed(sig, pool, term)
}

/// Adds terms behind others, each with this mark.
fn push_marked(
    waiting: &mut Vec<(TermId, bool)>,
    terms: &[TermId],
    mark: bool,
) -> Result<(), NoMemory>
    ensures { OnOk result (waiting.new.items ≡ waiting.old.items ++ map
        (with_mark mark) terms.now) }
{
    for term in terms {
        waiting.push((*term, mark))?;
    }
    Ok(())
}

/// Adds the variable that a head is.
fn add_head(head: Head, set: &mut VariableSet) -> Result<(), NoMemory>
    ensures { OnOk result ((v : VarId) → Contains set.new v ↔ (Contains set.old v
        ⊎ (head ≡ Var v))) }
{
    if let Head::Var(var) = head {
        set.insert(var)?;
    }
    Ok(())
}

/// The variables that stand in an argument of a constructor in a term.
fn variables_below(
    alloc: Global,
    sig: &Signature,
    pool: &Pool,
    term: TermId,
) -> Result<VariableSet, NoMemory>
    requires { IsTerm sig.now pool.now.trees term }
    ensures { IfOk result (λ found. AreBelow sig.now pool.now.trees term found) }
{
    let mut found = VariableSet::new(alloc);
    let mut waiting = Vec::new(alloc);
    waiting.push((term, false))?;
    for _ in 0..u64::MAX {
        let Some((next, below)) = waiting.pop() else {
            return Ok(found);
        };
        let node = pool.node(next);
        let under = is_below(sig, pool, next, below);
        push_marked(&mut waiting, node.args.as_slice(), under)?;
        if !below {
            continue;
        }
        add_head(node.head, &mut found)?;
    }
    Err(NoMemory)
}

/// The variables that stand in an argument of a constructor in each of these terms.
fn all_variables_below(
    alloc: Global,
    sig: &Signature,
    pool: &Pool,
    terms: &[TermId],
) -> Result<Vec<VariableSet>, NoMemory>
    requires { All (IsTerm sig.now pool.now.trees) terms.now }
    ensures { IfOk result (λ sets. AllBelow sig.now pool.now.trees terms.now sets.items) }
{
    let mut sets = Vec::new(alloc);
    for term in terms {
        sets.push(variables_below(alloc, sig, pool, *term)?)?;
    }
    Ok(sets)
}

/// Whether a call's argument at a place is a variable of the set there.
fn shrinks_at(pool: &Pool, below: &[VariableSet], call: TermId, place: usize) -> bool
    requires { IsIn pool.now.trees call }
    ensures { Decides result (ShrinksInCall pool.now.trees below.now call place) }
{
    let args = pool.node(call).args.as_slice();
    if place >= args.len() {
        return false;
    }
    if place >= below.len() {
        return false;
    }
    let Head::Var(var) = pool.node(args[place]).head else {
        return false;
    };
    below[place].contains(var)
}

/// Whether a call's argument at a place is less than the variable that is counted down there.
fn counts_down_at(
    sig: &Signature,
    pool: &Pool,
    counted: &[Option<VarId>],
    call: TermId,
    place: usize,
) -> bool
    requires { IsTerm sig.now pool.now.trees call }
    ensures { Decides result (CountsDownInCall sig.now pool.now.trees counted.now call place) }
{
    let args = pool.node(call).args.as_slice();
    if place >= args.len() {
        return false;
    }
    if place >= counted.len() {
        return false;
    }
    let Some(var) = counted[place] else {
        return false;
    };
    let Some(over) = lessened(sig, pool, args[place]) else {
        return false;
    };
    over == var
}

/// Whether a call's argument at a place is a variable of the set there, or less than the variable that is counted down there.
fn falls_at(
    sig: &Signature,
    pool: &Pool,
    below: &[VariableSet],
    counted: &[Option<VarId>],
    call: TermId,
    place: usize,
) -> bool
    requires { IsTerm sig.now pool.now.trees call }
    ensures { Decides result (FallsInCall sig.now pool.now.trees below.now counted.now call place) }
{
    if shrinks_at(pool, below, call, place) {
        return true;
    }
    counts_down_at(sig, pool, counted, call, place)
}

/// Takes the marks of the places back that don't fall in a call.
fn keep_in_call(
    sig: &Signature,
    pool: &Pool,
    below: &[VariableSet],
    counted: &[Option<VarId>],
    call: TermId,
    places: &mut Vec<bool>,
)
    requires { IsTerm sig.now pool.now.trees call }
    ensures { KeepsMarks places.old.items places.new.items
        (FallsInCall sig.now pool.now.trees below.now counted.now call) }
{
    for place in 0..places.len() {
        if falls_at(sig, pool, below, counted, call, place) {
            continue;
        }
        places[place] = false;
    }
}

/// Takes the marks of the places back that don't fall in all of these calls of a function.
fn keep_in_calls(
    sig: &Signature,
    pool: &Pool,
    below: &[VariableSet],
    counted: &[Option<VarId>],
    fun: FunId,
    calls: &[TermId],
    places: &mut Vec<bool>,
)
    requires { All (IsTerm sig.now pool.now.trees) calls.now }
    ensures { KeepsMarks places.old.items places.new.items
        (FallsInCalls sig.now pool.now.trees below.now counted.now fun calls.now) }
{
    for call in calls {
        let Head::Fun(callee) = pool.node(*call).head else {
            continue;
        };
        if callee != fun {
            continue;
        }
        keep_in_call(sig, pool, below, counted, *call, places);
    }
}

/// Whether one of these calls is of a function.
fn has_call(pool: &Pool, fun: FunId, calls: &[TermId]) -> bool
    requires { All (IsIn pool.now.trees) calls.now }
    ensures { Decides result (CallsItself pool.now.trees fun calls.now) }
{
    for call in calls {
        let Head::Fun(callee) = pool.node(*call).head else {
            continue;
        };
        if callee == fun {
            return true;
        }
    }
    false
}

/// Whether an equation calls a function.
pub fn calls_itself(pool: &Pool, fun: FunId, list: &EquationCalls) -> bool
    requires condition { All (IsIn pool.now.trees) list.now.condition.items }
    requires right { All (IsIn pool.now.trees) list.now.right.items }
    ensures { Decides result (CallsItself pool.now.trees fun list.now.condition.items
        ⊎ CallsItself pool.now.trees fun list.now.right.items) }
{
    if has_call(pool, fun, list.condition.as_slice()) {
        return true;
    }
    has_call(pool, fun, list.right.as_slice())
}

/// Takes the marks of the places back that don't fall in an equation of a mapping.
fn keep_in_equation(
    alloc: Global,
    sig: &Signature,
    pool: &Pool,
    equation: &Equation,
    list: &EquationCalls,
    places: &mut Vec<bool>,
) -> Result<(), NoMemory>
    requires equation { IsEquationOver sig.now pool.now.trees equation.now }
    requires list { ListsEquationCalls sig.now pool.now.trees equation.now list.now }
    ensures { OnOk result ((f : FunId) (ps : Trees)
        → IsLeftOf sig.now pool.now.trees equation.now f ps
        → KeepsMarks places.old.items places.new.items
        (FallsInEquation sig.now pool.now.trees equation.now f)) }
{
    let node = pool.node(equation.left);
    let Head::Fun(fun) = node.head else {
        return Ok(());
    };
    let args = node.args.as_slice();
    let below = all_variables_below(alloc, sig, pool, args)?;
    let counted = counted_variables(alloc, sig, pool, equation.cond, args)?;
    keep_in_calls(
        sig,
        pool,
        below.as_slice(),
        &[],
        fun,
        list.condition.as_slice(),
        places,
    );
    keep_in_calls(
        sig,
        pool,
        below.as_slice(),
        counted.as_slice(),
        fun,
        list.right.as_slice(),
        places,
    );
    Ok(())
}

/// For each function, a mark for each of its argument places.
fn all_places(alloc: Global, sig: &Signature) -> Result<Vec<Vec<bool>>, NoMemory>
    ensures { IfOk result (λ places. HaveAllMarks sig.now (length sig.now.functions) places.items) }
{
    let mut places = Vec::new(alloc);
    for number in 0..sig.fun_count() {
        let count = sig.args_of(FunId(number)).len();
        places.push(vec![in alloc; true; count]?)?;
    }
    Ok(places)
}

/// For each function, which of its argument places fall in all its equations.
pub fn falling_places(
    alloc: Global,
    sig: &Signature,
    theory: &Theory,
    pool: &Pool,
    lists: &[EquationCalls],
) -> Result<Vec<Vec<bool>>, NoMemory>
    requires equations { All (IsEquationOver sig.now pool.now.trees) theory.now.equations.items }
    requires lists { ListAllCalls sig.now pool.now.trees theory.now.equations.items lists.now }
    ensures { IfOk result (λ places. AreFallingUpTo sig.now pool.now.trees
        theory.now.equations.items (length theory.now.equations.items) places.items) }
{
    let mut places = all_places(alloc, sig)?;
    for number in 0..theory.equations.len() {
        let equation = &theory.equations[number];
        let Head::Fun(fun) = pool.node(equation.left).head else {
            continue;
        };
        let list = &lists[number];
        if !calls_itself(pool, fun, list) {
            continue;
        }
        keep_in_equation(alloc, sig, pool, equation, list, &mut places[fun.0])?;
    }
    Ok(places)
}
