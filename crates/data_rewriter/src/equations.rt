//! The first equation that matches at a root.

ghost use Rattle.std.specs.Prelude.{◌≡◌, ◌⊎◌, ◌≤◌, ◌<◌, ◌+◌, ◌↔◌, ℕ, List, length, IfOk, IfSome, IsTrue};
ghost use Rattle.std.specs.List.{All};
ghost use Rattle.data_theory.specs.declared.ids.TermId.{TermId};
ghost use Rattle.data_theory.specs.declared.ids.VarId.{VarId};
ghost use Rattle.data_theory.specs.Terms.{Term, put};
ghost use Rattle.data_theory.specs.Equations.{trueᵗ};
ghost use Rattle.data_theory.specs.IdData.{data_meant};
ghost use Rattle.data_theory.specs.Signature.{Sig};
ghost use Rattle.data_theory.specs.Provable.{Equation};
ghost use Rattle.data_theory.specs.Rewriting.{lines};
ghost use Rattle.number_rules.specs.Rule.{IsExact, rule_of};
ghost use Rattle.term_pool.specs.HeadTrees.{IsIn, AreIn, tree_at};
ghost use Rattle.term_pool.specs.Bindings.{listed_terms};
ghost use Rattle.term_pool.specs.Pools.{Extends};
ghost use Rattle.data_rewriter.specs.Standing.{IsTerm, StandsFor, term_at};
ghost use Rattle.data_rewriter.specs.FirstLines.{LineAt, IsConditionMade};
ghost use Rattle.data_rewriter.specs.Written.{IsRule};
ghost use Rattle.data_rewriter.specs.FirstRules.{IsFirstRule, put_by};
ghost use Rattle.data_rewriter.specs.States.{AreTablesOf, HasHead, IsFirstOrNone, IsFoundIn, IsFoundWithin};

use crate::lines::first_line;
use crate::making::make_line;
use crate::matching::match_terms;
use crate::tables::{Rule, Tables};
use crate::truth_lines::is_true;
use crate::views::view_of;
use data_theory::{FunId, NoMemory, Num, TermId, VarId};
use number_rules::{NumOp, NumberRules};
use std::alloc::Global;
use term_pool::{Head, Pool};

/// The number of built-in equations that rewriting uses.
pub const LINES: usize = 55;

/// An equation that matches at a root, with this instance of its condition, where that isn't `true`, and of its right side.
#[derive(Clone, Copy)]
pub struct Found {
    pub number: usize,
    pub cond: Option<TermId>,
    pub right: TermId,
}

/// A written equation that matches, by its number, with what was found for its variables.
#[derive(Drop)]
pub struct Matched {
    pub number: usize,
    pub found: Vec<(VarId, TermId)>,
}

/// Whether a term is `true`.
pub fn is_truth(tables: &Tables, pool: &Pool, term: TermId) -> bool
    requires { IsIn pool.now.trees term }
    ensures { (sig : Sig) (own : List Equation) → AreTablesOf tables.now sig own pool.now.trees → IsTerm sig pool.now.trees term → IsTrue result ↔ (term_at sig pool.now.trees term ≡ trueᵗ) }
{
    is_true(view_of(tables, pool, term))
}

/// The first written equation from a number on that matches at a root with this function.
fn first_rule(
    alloc: Global,
    tables: &Tables,
    pool: &Pool,
    root: TermId,
    fun: FunId,
    first: usize,
) -> Result<Option<Matched>, NoMemory>
    requires root { IsIn pool.now.trees root }
    requires known { (sig : Sig) × (own : List Equation) × AreTablesOf tables.now sig own pool.now.trees × (fun.0 < length sig.functions) }
    ensures { IfOk result (λ r. (sig : Sig) (own : List Equation) → AreTablesOf tables.now sig own pool.now.trees → IsTerm sig pool.now.trees root → HasHead fun (tree_at pool.now.trees root) → IsFirstRule sig pool.now.trees tables.now.rules.items root first r) }
{
    let numbers = tables.numbers(fun);
    for i in 0..numbers.len() {
        let number = numbers[i];
        if number < first {
            continue;
        }
        if let Some(found) = match_terms(alloc, pool, tables.rules[number].left, root)? {
            return Ok(Some(Matched { number, found }));
        }
    }
    Ok(None)
}

/// The instance of a written equation by what was found for its variables.
fn instance(
    tables: &Tables,
    pool: &mut Pool,
    number: usize,
    rule: Rule,
    found: &[(VarId, TermId)],
) -> Result<Found, NoMemory>
    requires cond { IsIn pool.old.trees rule.cond }
    requires right { IsIn pool.old.trees rule.right }
    requires terms { AreIn pool.old.trees (listed_terms found.now) }
    ensures kept { Extends pool.old.trees pool.new.trees }
    ensures number { IfOk result (λ made. made.number ≡ LINES + number) }
    ensures inside { IfOk result (IsFoundIn pool.new.trees) }
    ensures made { IfOk result (λ made. (sig : Sig) (own : List Equation) → AreTablesOf tables.now sig own pool.old.trees → IsRule sig pool.old.trees rule → All (λ (p : VarId × TermId). IsTerm sig pool.old.trees p.1) found.now → StandsFor sig pool.new.trees made.right (put (put_by sig pool.old.trees found.now) (term_at sig pool.old.trees rule.right)) × IsConditionMade sig pool.new.trees made.cond (put (put_by sig pool.old.trees found.now) (term_at sig pool.old.trees rule.cond))) }
{
    let cond = pool.subst(rule.cond, found)?;
    let right = pool.subst(rule.right, found)?;
    let Some(number) = LINES.checked_add(number) else {
        return Err(NoMemory);
    };
    if is_truth(tables, pool, cond) {
        return Ok(Found {
            number,
            cond: None,
            right,
        });
    }
    Ok(Found {
        number,
        cond: Some(cond),
        right,
    })
}

/// The first written equation from a number of equations on that matches at a root.
fn first_written(
    alloc: Global,
    tables: &Tables,
    pool: &mut Pool,
    root: TermId,
    from: usize,
) -> Result<Option<Found>, NoMemory>
    requires root { IsIn pool.old.trees root }
    requires known { (sig : Sig) × (own : List Equation) × AreTablesOf tables.now sig own pool.old.trees × IsTerm sig pool.old.trees root }
    requires start { (from ≡ 0) ⊎ (lines ≤ from) }
    ensures kept { Extends pool.old.trees pool.new.trees }
    ensures within { IfOk result (λ r. IfSome r (IsFoundIn pool.new.trees)) }
    ensures first { IfOk result (λ r. (sig : Sig) (own : List Equation) → AreTablesOf tables.now sig own pool.old.trees → IsTerm sig pool.old.trees root → ((i : ℕ) (c r : Term) → from ≤ i → LineAt (data_meant sig) i (term_at sig pool.old.trees root) c r → ⊥) → IsFirstOrNone sig own pool.new.trees root from r × IfSome r (IsFoundWithin sig pool.new.trees)) }
{
    // No root is a variable or a numeral.
    let Head::Fun(fun) = pool.node(root).head else {
        return Err(NoMemory);
    };
    let first = from.saturating_sub(LINES);
    let Some(matched) = first_rule(alloc, tables, pool, root, fun, first)? else {
        return Ok(None);
    };
    let rule = tables.rules[matched.number];
    let found = instance(tables, pool, matched.number, rule, matched.found.as_slice())?;
    Ok(Some(found))
}

/// The first equation from a number on that matches at a root. The number is 0, or behind the built-in equations.
pub fn first_equation<F: Fn(NumOp, Num, Num) -> Option<Num>>(
    alloc: Global,
    tables: &Tables,
    rules: &NumberRules<F>,
    pool: &mut Pool,
    root: TermId,
    from: usize,
) -> Result<Option<Found>, NoMemory>
    requires root { IsIn pool.old.trees root }
    requires known { (sig : Sig) × (own : List Equation) × AreTablesOf tables.now sig own pool.old.trees × IsTerm sig pool.old.trees root }
    requires start { (from ≡ 0) ⊎ (lines ≤ from) }
    requires rules { IsExact (F.pre (rule_of rules.now)) (F.post (rule_of rules.now)) }
    ensures kept { Extends pool.old.trees pool.new.trees }
    ensures within { IfOk result (λ r. IfSome r (IsFoundIn pool.new.trees)) }
    ensures first { IfOk result (λ r. (sig : Sig) (own : List Equation) → AreTablesOf tables.now sig own pool.old.trees → IsTerm sig pool.old.trees root → IsFirstOrNone sig own pool.new.trees root from r × IfSome r (IsFoundWithin sig pool.new.trees)) }
{
    if from == 0 {
        let Some(line) = first_line(tables, rules, pool, root) else {
            let found = first_written(alloc, tables, pool, root, from)?;
            return Ok(found);
        };
        let found = make_line(alloc, tables, pool, line)?;
        return Ok(Some(found));
    }
    let found = first_written(alloc, tables, pool, root, from)?;
    Ok(found)
}
