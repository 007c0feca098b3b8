//! Rewriting with pending places in a vector.

ghost use Rattle.std.specs.Prelude.{◌≡◌, ◌<◌, ◌≤◌, ◌∷◌, ℕ, List, length, suc, Some, IfOk, IfSome, OnOk, IsTrue, ◌↔◌, MatchOption, Contains};
ghost use Rattle.std.specs.List.{All};
ghost use Rattle.data_theory.specs.declared.ids.TermId.{TermId};
ghost use Rattle.data_theory.specs.IdTables.{IsTable};
ghost use Rattle.term_pool.specs.HeadTrees.{IsIn, AreIn, tree_at};
ghost use Rattle.term_pool.specs.Pools.{Extends};
ghost use Rattle.data_rewriter.specs.Frames.{Plain, plain, applies, decides};
ghost use Rattle.data_theory.specs.declared.ids.FunId.{FunId};
ghost use Rattle.data_theory.specs.Signature.{Sig};
ghost use Rattle.data_theory.specs.Provable.{Equation};
ghost use Rattle.data_theory.specs.Terms.{Term, Terms, more};
ghost use Rattle.data_theory.specs.Equations.{trueᵗ};
ghost use Rattle.data_theory.specs.IdTrees.{Tree};
ghost use Rattle.data_theory.specs.IdTerms.{symbol_under, IsTreeWithin};
ghost use Rattle.data_rewriter.specs.Standing.{IsTerm, term_at};
ghost use Rattle.data_theory.specs.Rewriting.{FirstDecides, LooksFirst, IsTruthValue};
ghost use Rattle.data_rewriter.specs.Places as places;
ghost use Rattle.data_rewriter.specs.Stored.{AreCovered, KeepsStored};
ghost use Rattle.term_pool.specs.Bindings.{result_of};
ghost use Rattle.number_rules.specs.Rule.{IsExact, rule_of};
ghost use Rattle.data_rewriter.specs.Charges.{Known, AnswerCosts};
ghost use Rattle.data_rewriter.specs.Paying.{IsKnownStore, PaysBehind, PaysOn};
ghost use Rattle.data_rewriter.specs.States.{Says, IsStored, IsHandIn, AreTablesOf, EntersRoot, UsesRight, IsFirst, IsFirstOrNone, IsFoundIn, IsFoundWithin, IsHandWithin, AreIdsIn, IsFrameIn, Follows, Shows, AreStored, StartsIn};

use crate::equations::{Found, LINES, first_equation, is_truth};
use crate::signs::Sign;
use crate::stack::{Frame, Stack};
use crate::tables::Tables;
use crate::truth_lines::{is_false, is_true};
use crate::views::view_of;
use data_theory::{FunId, NoMemory, Num, TermId};
use number_rules::{NumOp, NumberRules};
use std::alloc::Global;
use std::collections::HashMap;
use term_pool::{Head, Pool};

/// How a rewriting ends.
#[derive(Clone, Copy, Debug, PartialEq, Eq)]
pub enum Normal {
    Done(TermId),
    Spent(TermId),
}

/// What is done next at a place.
#[derive(Clone, Copy)]
pub enum Hand {
    /// The term is still to be rewritten.
    Visit(TermId),
    /// The arguments are normal, and the equations from a number on are still to be tried.
    Root(TermId, usize),
    /// The place goes to this term.
    Answer(TermId),
    /// The fuel is 0, and a further use is needed.
    Spent,
}

/// The place in hand, which began with the first term.
#[derive(Clone, Copy)]
pub struct Place {
    pub start: TermId,
    pub hand: Hand,
}

/// Begins with a term at a place.
fn visit(
    alloc: Global,
    pool: &Pool,
    normal_forms: &HashMap<TermId, TermId>,
    stack: &mut Stack,
    start: TermId,
    term: TermId,
) -> Result<Place, NoMemory>
    requires ids { AreIdsIn pool.now.trees stack.old start (Hand.Visit term) }
    requires stored { StartsIn pool.now.trees normal_forms.now }
    ensures ids { IfOk result (λ p. AreIdsIn pool.now.trees stack.new p.start p.hand) }
    ensures unspent { IfOk result (λ p. p.hand ≡ Hand.Spent → ⊥) }
    ensures follows { IfOk result (λ p. (fuel : ℕ) → Follows (λ sig own. IsTable sig × AreStored sig own pool.now.trees normal_forms.now) pool.now.trees pool.now.trees stack.old start (Hand.Visit term) stack.new p.start p.hand fuel fuel) }
    ensures pays { IfOk result (λ p. (fuel : ℕ) → PaysOn (λ sig own known. IsTable sig × IsKnownStore sig pool.now.trees normal_forms.now known) pool.now.trees pool.now.trees stack.old start (Hand.Visit term) stack.new p.start p.hand fuel fuel) }
{
    if let Some(normal) = normal_forms.get(&term) {
        let hand = Hand::Answer(*normal);
        return Ok(Place { start, hand });
    }
    let node = pool.node(term);
    let Head::Fun(fun) = node.head else {
        let hand = Hand::Answer(term);
        return Ok(Place { start, hand });
    };
    if node.args.is_empty() {
        let hand = Hand::Root(term, 0);
        return Ok(Place { start, hand });
    }
    let first = node.args[0];
    let args = node.args.as_slice().to_vec(alloc)?;
    stack.push(Frame::Applying {
        start,
        fun,
        args,
        done: 0,
    })?;
    let hand = Hand::Visit(first);
    Ok(Place { start: first, hand })
}

/// Goes on at the root, when the arguments are normal.
fn enter_root(
    pool: &mut Pool,
    start: TermId,
    fun: FunId,
    args: &[TermId],
) -> Result<Place, NoMemory>
    requires { AreIn pool.old.trees args.now }
    ensures kept { Extends pool.old.trees pool.new.trees }
    ensures start { IfOk result (λ p. p.start ≡ start) }
    ensures within { IfOk result (λ p. IsHandIn pool.new.trees p.hand) }
    ensures unspent { IfOk result (λ p. p.hand ≡ Hand.Spent → ⊥) }
    ensures root { IfOk result (λ p. (sig : Sig) → IsTable sig → EntersRoot sig pool.old.trees pool.new.trees fun args.now p.hand) }
    ensures over { IfOk result (λ p. (sig : Sig) → IsTable sig → fun.0 < length sig.functions → All (IsTerm sig pool.old.trees) args.now → IsHandWithin sig pool.new.trees p.hand) }
{
    let root = pool.intern(Head::Fun(fun), args)?;
    let hand = match pool.node(root).head {
        Head::Fun(_) => Hand::Root(root, 0),
        _ => Hand::Answer(root),
    };
    Ok(Place { start, hand })
}

/// Whether a function's first argument may decide before the others are looked at.
fn looks_first(tables: &Tables, fun: FunId) -> bool
    ensures { (sig : Sig) (own : List Equation) (ts : List Tree) → AreTablesOf tables.now sig own ts → fun.0 < length sig.functions → IsTrue result ↔ LooksFirst (symbol_under sig fun) }
{
    match tables.sign(fun) {
        Sign::If => true,
        Sign::And => true,
        Sign::Or => true,
        Sign::Implies => true,
        _ => false,
    }
}

/// Whether a term is `true` or `false`.
fn is_truth_value(tables: &Tables, pool: &Pool, term: TermId) -> bool
    requires { IsIn pool.now.trees term }
    ensures { (sig : Sig) (own : List Equation) → AreTablesOf tables.now sig own pool.now.trees → IsTerm sig pool.now.trees term → IsTrue result ↔ IsTruthValue (term_at sig pool.now.trees term) }
{
    let shown = view_of(tables, pool, term);
    if is_true(shown) {
        return true;
    }
    is_false(shown)
}

/// Whether the first argument decides.
fn first_decides(tables: &Tables, pool: &Pool, fun: FunId, first: TermId) -> bool
    requires { IsIn pool.now.trees first }
    ensures { (sig : Sig) (own : List Equation) → AreTablesOf tables.now sig own pool.now.trees → fun.0 < length sig.functions → IsTerm sig pool.now.trees first → (rest : Terms) → IsTrue result ↔ FirstDecides (symbol_under sig fun) (more (term_at sig pool.now.trees first) rest) }
{
    if looks_first(tables, fun) {
        return is_truth_value(tables, pool, first);
    }
    false
}

/// Goes on with the application whose place in hand went to a normal term.
fn next_argument(
    tables: &Tables,
    pool: &mut Pool,
    stack: &mut Stack,
    start: TermId,
    fun: FunId,
    args: Vec<TermId>,
    done: usize,
    normal: TermId,
) -> Result<Place, NoMemory>
    requires frame { IsFrameIn pool.old.trees (applies start fun args.items done) }
    requires frames { All (IsFrameIn pool.old.trees) stack.old }
    requires normal { IsIn pool.old.trees normal }
    ensures kept { Extends pool.old.trees pool.new.trees }
    ensures ids { IfOk result (λ p. AreIdsIn pool.new.trees stack.new p.start p.hand) }
    ensures unspent { IfOk result (λ p. p.hand ≡ Hand.Spent → ⊥) }
    ensures follows { IfOk result (λ p. (hand : TermId) (fuel : ℕ) → Follows (λ sig own. AreTablesOf tables.now sig own pool.old.trees) pool.old.trees pool.new.trees (applies start fun args.items done ∷ stack.old) hand (Hand.Answer normal) stack.new p.start p.hand fuel fuel) }
    ensures pays { IfOk result (λ p. (hand : TermId) (fuel : ℕ) → PaysBehind (λ sig own. AreTablesOf tables.now sig own pool.old.trees) pool.old.trees pool.new.trees (applies start fun args.items done ∷ stack.old) hand normal stack.new p.start p.hand fuel fuel) }
{
    let mut args = args;
    args[done] = normal;
    let decides = first_decides(tables, pool, fun, normal);
    if decides && done == 0 {
        let place = enter_root(pool, start, fun, args.as_slice())?;
        return Ok(place);
    }
    if done + 1 == args.len() {
        let place = enter_root(pool, start, fun, args.as_slice())?;
        return Ok(place);
    }
    let next = args[done + 1];
    stack.push(Frame::Applying {
        start,
        fun,
        args,
        done: done + 1,
    })?;
    let hand = Hand::Visit(next);
    Ok(Place { start: next, hand })
}

/// Uses an equation whose condition went to `true`.
fn use_right(fuel: &mut u64, start: TermId, right: TermId) -> Place
    ensures start { result.start ≡ start }
    ensures uses { UsesRight fuel.old fuel.new right result.hand }
    ensures falls { fuel.new ≤ fuel.old }
{
    if *fuel == 0 {
        let hand = Hand::Spent;
        return Place { start, hand };
    }
    *fuel -= 1;
    let hand = Hand::Visit(right);
    Place { start, hand }
}

/// Goes on behind a condition.
fn behind_condition(
    tables: &Tables,
    pool: &Pool,
    fuel: &mut u64,
    start: TermId,
    root: TermId,
    number: usize,
    right: TermId,
    normal: TermId,
) -> Result<Place, NoMemory>
    requires { IsIn pool.now.trees normal }
    ensures ids { IfOk result (λ p. (below : List Plain) → All (IsFrameIn pool.now.trees) below → IsFrameIn pool.now.trees (decides start root number right) → AreIdsIn pool.now.trees below p.start p.hand) }
    ensures follows { IfOk result (λ p. (below : List Plain) (hand : TermId) → Follows (λ sig own. AreTablesOf tables.now sig own pool.now.trees) pool.now.trees pool.now.trees (decides start root number right ∷ below) hand (Hand.Answer normal) below p.start p.hand fuel.old fuel.new) }
    ensures pays { IfOk result (λ p. (below : List Plain) (hand : TermId) → PaysBehind (λ sig own. AreTablesOf tables.now sig own pool.now.trees) pool.now.trees pool.now.trees (decides start root number right ∷ below) hand normal below p.start p.hand fuel.old fuel.new) }
    ensures falls { fuel.new ≤ fuel.old }
    ensures spent { IfOk result (λ p. p.hand ≡ Hand.Spent → fuel.new ≡ 0) }
{
    if is_truth(tables, pool, normal) {
        return Ok(use_right(fuel, start, right));
    }
    // Of the built-in equations only the last one at a root has a condition.
    if number < LINES {
        let hand = Hand::Root(root, LINES);
        return Ok(Place { start, hand });
    }
    let Some(next) = number.checked_add(1) else {
        return Err(NoMemory);
    };
    let hand = Hand::Root(root, next);
    Ok(Place { start, hand })
}

/// Begins with an equation that applies.
fn begin_equation(
    stack: &mut Stack,
    fuel: &mut u64,
    start: TermId,
    root: TermId,
    found: Found,
    from: usize,
) -> Result<Place, NoMemory>
    ensures ids { IfOk result (λ p. (ts : List Tree) → AreIdsIn ts stack.old start (Hand.Root root from) → IsFoundIn ts found → AreIdsIn ts stack.new p.start p.hand) }
    ensures follows { IfOk result (λ p. (ts : List Tree) → Follows (λ sig own. IsFirst sig own ts root from found × IsFoundWithin sig ts found) ts ts stack.old start (Hand.Root root from) stack.new p.start p.hand fuel.old fuel.new) }
    ensures pays { IfOk result (λ p. (ts : List Tree) → PaysOn (λ sig own known. IsFirst sig own ts root from found) ts ts stack.old start (Hand.Root root from) stack.new p.start p.hand fuel.old fuel.new) }
    ensures falls { fuel.new ≤ fuel.old }
    ensures spent { IfOk result (λ p. p.hand ≡ Hand.Spent → fuel.new ≡ 0) }
{
    let Some(cond) = found.cond else {
        return Ok(use_right(fuel, start, found.right));
    };
    if found.number >= LINES {
        if *fuel == 0 {
            let hand = Hand::Spent;
            return Ok(Place { start, hand });
        }
        *fuel -= 1;
    }
    stack.push(Frame::Deciding {
        start,
        root,
        number: found.number,
        right: found.right,
    })?;
    let hand = Hand::Visit(cond);
    Ok(Place { start: cond, hand })
}

/// Goes on with what waits for a normal term.
fn resume(
    tables: &Tables,
    pool: &mut Pool,
    stack: &mut Stack,
    fuel: &mut u64,
    frame: Frame,
    normal: TermId,
) -> Result<Place, NoMemory>
    requires frame { IsFrameIn pool.old.trees (plain frame) }
    requires frames { All (IsFrameIn pool.old.trees) stack.old }
    requires normal { IsIn pool.old.trees normal }
    ensures kept { Extends pool.old.trees pool.new.trees }
    ensures ids { IfOk result (λ p. AreIdsIn pool.new.trees stack.new p.start p.hand) }
    ensures follows { IfOk result (λ p. (hand : TermId) → Follows (λ sig own. AreTablesOf tables.now sig own pool.old.trees) pool.old.trees pool.new.trees (plain frame ∷ stack.old) hand (Hand.Answer normal) stack.new p.start p.hand fuel.old fuel.new) }
    ensures pays { IfOk result (λ p. (hand : TermId) → PaysBehind (λ sig own. AreTablesOf tables.now sig own pool.old.trees) pool.old.trees pool.new.trees (plain frame ∷ stack.old) hand normal stack.new p.start p.hand fuel.old fuel.new) }
    ensures falls { fuel.new ≤ fuel.old }
    ensures spent { IfOk result (λ p. p.hand ≡ Hand.Spent → fuel.new ≡ 0) }
{
    match frame {
        Frame::Applying {
            start,
            fun,
            args,
            done,
        } => {
            let place = next_argument(tables, pool, stack, start, fun, args, done, normal)?;
            Ok(place)
        }
        Frame::Deciding {
            start,
            root,
            number,
            right,
        } => {
            let place = behind_condition(tables, pool, fuel, start, root, number, right, normal)?;
            Ok(place)
        }
    }
}

/// Tries the equations at a root.
fn at_root<F: Fn(NumOp, Num, Num) -> Option<Num>>(
    alloc: Global,
    tables: &Tables,
    rules: &NumberRules<F>,
    pool: &mut Pool,
    stack: &mut Stack,
    fuel: &mut u64,
    start: TermId,
    root: TermId,
    from: usize,
) -> Result<Place, NoMemory>
    requires ids { AreIdsIn pool.old.trees stack.old start (Hand.Root root from) }
    requires known { (sig : Sig) × (own : List Equation) × AreTablesOf tables.now sig own pool.old.trees × IsTerm sig pool.old.trees root }
    requires rules { IsExact (F.pre (rule_of rules.now)) (F.post (rule_of rules.now)) }
    ensures kept { Extends pool.old.trees pool.new.trees }
    ensures ids { IfOk result (λ p. AreIdsIn pool.new.trees stack.new p.start p.hand) }
    ensures follows { IfOk result (λ p. Follows (λ sig own. AreTablesOf tables.now sig own pool.old.trees) pool.old.trees pool.new.trees stack.old start (Hand.Root root from) stack.new p.start p.hand fuel.old fuel.new) }
    ensures pays { IfOk result (λ p. PaysOn (λ sig own known. AreTablesOf tables.now sig own pool.old.trees) pool.old.trees pool.new.trees stack.old start (Hand.Root root from) stack.new p.start p.hand fuel.old fuel.new) }
    ensures falls { fuel.new ≤ fuel.old }
    ensures spent { IfOk result (λ p. p.hand ≡ Hand.Spent → fuel.new ≡ 0) }
{
    match first_equation(alloc, tables, rules, pool, root, from)? {
        Some(found) => {
            let place = begin_equation(stack, fuel, start, root, found, from)?;
            Ok(place)
        }
        None => {
            let hand = Hand::Answer(root);
            Ok(Place { start, hand })
        }
    }
}

/// Keeps what a place goes to, and that this goes to itself. What was kept stays, also where there is no memory.
pub fn keep(
    pool: &Pool,
    normal_forms: &mut HashMap<TermId, TermId>,
    start: TermId,
    normal: TermId,
) -> Result<(), NoMemory>
    ensures within { (ts : List Tree) → StartsIn ts normal_forms.old → IsIn ts start → IsIn ts normal → StartsIn ts normal_forms.new }
    ensures stored { (sig : Sig) (own : List Equation) (ts : List Tree) → AreStored sig own ts normal_forms.old → IsStored sig own ts start normal → IsStored sig own ts normal normal → AreStored sig own ts normal_forms.new }
    ensures pairs { (sig : Sig) (own : List Equation) → IsTable sig → AreCovered own → AreStored sig own pool.now.trees normal_forms.old → IsStored sig own pool.now.trees start normal → IsStored sig own pool.now.trees normal normal → KeepsStored normal_forms.old normal_forms.new }
    ensures both { OnOk result ((result_of normal_forms.new start ≡ Some normal) × (result_of normal_forms.new normal ≡ Some normal)) }
    ensures known { OnOk result ((sig : Sig) (ts : List Tree) (known : Known) → IsKnownStore sig ts normal_forms.old known → Contains known (term_at sig ts start, term_at sig ts normal) → Contains known (term_at sig ts normal, term_at sig ts normal) → IsKnownStore sig ts normal_forms.new known) }
{
    // No two numbers of a pool have one tree.
    pool.len();
    normal_forms.insert(normal, normal)?;
    normal_forms.insert(start, normal)?;
    Ok(())
}

/// The normal form that is kept for a term.
pub fn kept(normal_forms: &HashMap<TermId, TermId>, term: TermId) -> Option<TermId>
    ensures { result ≡ result_of normal_forms.now term }
{
    match normal_forms.get(&term) {
        Some(normal) => Some(*normal),
        None => None,
    }
}

/// Rewrites a term.
pub fn run<F: Fn(NumOp, Num, Num) -> Option<Num>>(
    alloc: Global,
    tables: &Tables,
    rules: &NumberRules<F>,
    normal_forms: &mut HashMap<TermId, TermId>,
    pool: &mut Pool,
    term: TermId,
    fuel: &mut u64,
) -> Result<Normal, NoMemory>
    requires term { IsIn pool.old.trees term }
    requires known { (sig : Sig) × (own : List Equation) × AreTablesOf tables.now sig own pool.old.trees × AreStored sig own pool.old.trees normal_forms.old × IsTreeWithin sig (tree_at pool.old.trees term) }
    requires rules { IsExact (F.pre (rule_of rules.now)) (F.post (rule_of rules.now)) }
    requires stored { StartsIn pool.old.trees normal_forms.old }
    ensures kept { Extends pool.old.trees pool.new.trees }
    ensures stored { (sig : Sig) (own : List Equation) → AreTablesOf tables.now sig own pool.old.trees → AreStored sig own pool.old.trees normal_forms.old → IsTreeWithin sig (tree_at pool.old.trees term) → AreStored sig own pool.new.trees normal_forms.new }
    ensures pairs { (sig : Sig) (own : List Equation) → AreTablesOf tables.now sig own pool.old.trees → AreStored sig own pool.old.trees normal_forms.old → IsTreeWithin sig (tree_at pool.old.trees term) → AreCovered own → KeepsStored normal_forms.old normal_forms.new }
    ensures says { IfOk result (λ r. (sig : Sig) (own : List Equation) → AreTablesOf tables.now sig own pool.old.trees → AreStored sig own pool.old.trees normal_forms.old → IsTreeWithin sig (tree_at pool.old.trees term) → Says sig own pool.old.trees pool.new.trees term fuel.old fuel.new r) }
    ensures costs { IfOk result (λ r. (sig : Sig) (own : List Equation) → AreTablesOf tables.now sig own pool.old.trees → AreStored sig own pool.old.trees normal_forms.old → IsTreeWithin sig (tree_at pool.old.trees term) → AnswerCosts sig own pool.old.trees pool.new.trees normal_forms.old term fuel.old fuel.new r) }
    ensures falls { fuel.new ≤ fuel.old }
{
    let mut stack = Stack::new(alloc);
    let mut place = Place {
        start: term,
        hand: Hand::Visit(term),
    };
    for _ in 0..u64::MAX {
        let start = place.start;
        place = match place.hand {
            Hand::Visit(next) => visit(alloc, pool, normal_forms, &mut stack, start, next)?,
            Hand::Root(root, from) => {
                at_root(
                    alloc, tables, rules, pool, &mut stack, fuel, start, root, from,
                )?
            }
            Hand::Answer(normal) => {
                keep(pool, normal_forms, start, normal)?;
                let Some(frame) = stack.pop() else {
                    return Ok(Normal::Done(normal));
                };
                resume(tables, pool, &mut stack, fuel, frame, normal)?
            }
            Hand::Spent => return Ok(Normal::Spent(term)),
        };
    }
    Err(NoMemory)
}
