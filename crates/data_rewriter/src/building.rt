//! What makes the tables of a rewriter.

ghost use Rattle.std.specs.Prelude.{◌≡◌, ◌<◌, ◌++◌, ◌∷◌, ◌==◌, ℕ, List, [], cond, length, map, get_or, slice_get, IfOk, OnOk, IfSome};
ghost use Rattle.std.specs.List.{All};
ghost use Rattle.data_theory.specs.Functions.{arguments_of};
ghost use Rattle.data_theory.specs.IdTerms.{sort_under};
ghost use Rattle.data_theory.specs.Provable as provable;
ghost use Rattle.data_theory.specs.WholeSignatures.{IsSignature};
ghost use Rattle.data_theory.specs.declared.ids.FunId.{FunId};
ghost use Rattle.data_theory.specs.declared.ids.SortId.{SortId};
ghost use Rattle.term_pool.specs.HeadTrees.{IsIn};
ghost use Rattle.data_rewriter.specs.declared.tables.Rule.{Rule};
ghost use Rattle.data_rewriter.specs.Signatures.{AreEqualities};
ghost use Rattle.data_rewriter.specs.States.{AreRulesAt, AreTablesOf};
ghost use Rattle.data_rewriter.specs.Written.{AreEquationsOf, IsRule, rule_of, rules_of};

use crate::function_signs::signs_of;
use crate::tables::{Rule, Tables};
use crate::word_signs::equality_of;
use data_theory::{FunId, NoMemory, Signature, SortId};
use std::alloc::Global;
use term_pool::{Equation, Head, Pool, Theory};

/// The equalities of sorts.
fn equalities_of(alloc: Global, sig: &Signature, sorts: &[SortId]) -> Result<Vec<FunId>, NoMemory>
    requires stands { IsSignature sig.now }
    requires sorts { All (λ (s : SortId). s.0 < length sig.now.sorts) sorts.now }
    ensures { IfOk result (λ equalities. AreEqualities sig.now equalities.items (map (sort_under sig.now) sorts.now)) }
{
    let mut equalities = Vec::new(alloc);
    for i in 0..sorts.len() {
        equalities.push(equality_of(sig, sorts[i]))?;
    }
    Ok(equalities)
}

/// For each function the equalities of its arguments' sorts.
fn places_of(alloc: Global, sig: &Signature) -> Result<Vec<Vec<FunId>>, NoMemory>
    requires { IsSignature sig.now }
    ensures { IfOk result (λ places. (f : FunId) → IfSome (slice_get sig.now.functions f.0) (λ h. AreEqualities sig.now (get_or (map (λ v. v.items) places.items) f.0 []) (map (sort_under sig.now) (arguments_of h)))) }
{
    let mut places = Vec::new(alloc);
    for number in 0..sig.fun_count() {
        let fun = FunId(number);
        places.push(equalities_of(alloc, sig, sig.args_of(fun))?)?;
    }
    Ok(places)
}

/// What is kept of written equations.
fn kept_rules(alloc: Global, equations: &[Equation]) -> Result<Vec<Rule>, NoMemory>
    ensures { IfOk result (λ rules. rules.items ≡ map rule_of equations.now) }
{
    let mut rules = Vec::new(alloc);
    for equation in equations {
        rules.push(Rule {
            cond: equation.cond,
            left: equation.left,
            right: equation.right,
        })?;
    }
    Ok(rules)
}

/// As many empty lists.
fn empty_lists(alloc: Global, count: usize) -> Result<Vec<Vec<usize>>, NoMemory>
    ensures count { IfOk result (λ lists. length lists.items ≡ count) }
    ensures empty { IfOk result (λ lists. (f : FunId) → get_or (map (λ v. v.items) lists.items) f.0 [] ≡ []) }
{
    let mut lists = Vec::new(alloc);
    while lists.len() < count {
        lists.push(Vec::new(alloc))?;
    }
    Ok(lists)
}

/// Adds a number behind those of a list.
fn add_number(lists: &mut Vec<Vec<usize>>, place: usize, number: usize) -> Result<(), NoMemory>
    requires { place < length lists.old.items }
    ensures count { length lists.new.items ≡ length lists.old.items }
    ensures added { OnOk result ((f : FunId) → get_or (map (λ v. v.items) lists.new.items) f.0 [] ≡ get_or (map (λ v. v.items) lists.old.items) f.0 [] ++ cond (f.0 == place) (number ∷ []) []) }
{
    lists[place].push(number)?;
    Ok(())
}

/// For each function the numbers of the rules with it at the root of their left side, in their order.
fn numbers_by_head(
    alloc: Global,
    count: usize,
    pool: &Pool,
    rules: &[Rule],
) -> Result<Vec<Vec<usize>>, NoMemory>
    requires { All (λ (r : Rule). IsIn pool.now.trees r.left) rules.now }
    ensures { IfOk result (λ lists. (f : FunId) → f.0 < count → AreRulesAt pool.now.trees rules.now f (get_or (map (λ v. v.items) lists.items) f.0 [])) }
{
    let mut by_head = empty_lists(alloc, count)?;
    for number in 0..rules.len() {
        let Head::Fun(fun) = pool.node(rules[number].left).head else {
            continue;
        };
        if fun.0 >= by_head.len() {
            continue;
        }
        add_number(&mut by_head, fun.0, number)?;
    }
    Ok(by_head)
}

/// The tables of a signature and of written equations.
pub fn tables_of(
    alloc: Global,
    sig: &Signature,
    pool: &Pool,
    theory: &Theory,
) -> Result<Tables, NoMemory>
    requires stands { IsSignature sig.now }
    requires theory { All (IsRule sig.now pool.now.trees) (rules_of theory.now) }
    ensures { IfOk result (λ tables. (own : List provable.Equation) → AreEquationsOf sig.now pool.now.trees (rules_of theory.now) own → AreTablesOf tables sig.now own pool.now.trees) }
{
    let signs = signs_of(alloc, sig)?;
    let places = places_of(alloc, sig)?;
    let rules = kept_rules(alloc, theory.equations.as_slice())?;
    let by_head = numbers_by_head(alloc, sig.fun_count(), pool, rules.as_slice())?;
    Ok(Tables {
        signs,
        places,
        rules,
        by_head,
    })
}
