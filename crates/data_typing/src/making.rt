//! Terms of a pool by their steps.

ghost use Rattle.std.specs.Prelude.{◌≡◌, ◌<◌, ◌≤◌, ◌++◌, ◌∷◌, [], length, map, IfOk, OnOk, pos};
ghost use Rattle.std.specs.List.{All, AllByRecursion};
ghost use Rattle.data_theory.specs.declared.ids.FunId.{FunId};
ghost use Rattle.data_theory.specs.Terms as terms;
ghost use Rattle.data_theory.specs.Terms.{Symbol};
ghost use Rattle.data_theory.specs.IdTerms.{symbol_under, term_under, IsGrown, IsTreeWithin};
ghost use Rattle.term_pool.specs.HeadTrees.{head_tree, IsIn, Stands};
ghost use Rattle.term_pool.specs.Pools.{Extends};
ghost use Rattle.data_typing.specs.Typings.{least_sort};
ghost use Rattle.data_typing.specs.NamedSorts.{AreNamedSorts};
ghost use Rattle.data_typing.specs.Making.{Joins, Turns, Make};
ghost use Rattle.sort_table.specs.NamedSorts.{AddsLists};
ghost use Rattle.data_typing.specs.CodeSteps.{item_of, items_of, IsStepWithin};
ghost use Rattle.data_typing.specs.CodeParts.{part_item, part_items, needed, term_at, IsPartWithin, MakeOne, KeepTrees};

use crate::finding::function_number;
use crate::steps::Step;
use data_theory::{FunId, NoMemory, Num, Signature, SortId, TermId, VarId};
use std::alloc::Global;
use term_pool::{Head, Pool};

/// A step whose function has its number.
#[derive(Clone, Copy)]
pub enum Part {
    Variable(VarId),
    Numeral(u128),
    Apply(FunId, usize),
}

/// A step with the number of its function.
fn part_of(
    alloc: Global,
    sig: &mut Signature,
    named: &[SortId],
    count: usize,
    step: &Step,
) -> Result<Part, NoMemory>
    requires named { AreNamedSorts sig.old named.now }
    requires count { count ≤ length sig.old.functions }
    requires there { IsStepWithin (length named.now) count step.now }
    ensures means { IfOk result (λ part. (y : FunId → Symbol) → ((k : FunId) → k.0 < count → y k ≡ symbol_under sig.old k) → part_item sig.new part ≡ item_of y step.now) }
    ensures within { IfOk result (λ part. IsPartWithin sig.new part) }
    ensures grown { IsGrown sig.old sig.new }
    ensures added { AddsLists sig.old sig.new }
{
    match step {
        Step::Variable(var) => {
            let _ = sig.next_sort();
            Ok(Part::Variable(*var))
        }
        Step::Numeral(value) => {
            let _ = sig.next_sort();
            Ok(Part::Numeral(*value))
        }
        Step::Apply(overload, arity) => {
            let fun = function_number(alloc, sig, named, count, overload)?;
            Ok(Part::Apply(fun, *arity))
        }
    }
}

/// The steps with the numbers of their functions. List sorts that these have and that aren't there are added.
pub fn parts_of(
    alloc: Global,
    sig: &mut Signature,
    named: &[SortId],
    steps: &[Step],
) -> Result<Vec<Part>, NoMemory>
    requires named { AreNamedSorts sig.old named.now }
    requires there { AllByRecursion (IsStepWithin (length named.now) (length sig.old.functions)) steps.now }
    ensures mean { IfOk result (λ parts. part_items sig.new parts.items ≡ items_of (symbol_under sig.old) steps.now) }
    ensures within { IfOk result (λ parts. All (IsPartWithin sig.new) parts.items) }
    ensures grown { IsGrown sig.old sig.new }
    ensures added { AddsLists sig.old sig.new }
{
    let count = sig.fun_count();
    let _ = sig.next_sort();
    let mut parts: Vec<Part> = Vec::new(alloc);
    for step in steps {
        let _ = sig.next_sort();
        let part = part_of(alloc, sig, named, count, step)?;
        parts.push(part)?;
    }
    Ok(parts)
}

/// The root of a numeral at its least sort.
fn numeral_head(sig: &Signature, value: u128) -> Head
    ensures means { term_under sig.now (head_tree result []) ≡ terms.numeral (least_sort value) (pos value) }
    ensures stands { Stands result [] }
    ensures within { IsTreeWithin sig.now (head_tree result []) }
{
    let _ = sig.next_sort();
    let number = Num {
        negative: false,
        magnitude: value,
    };
    if value == 0 {
        Head::Num(SortId(2), number)
    } else {
        Head::Num(SortId(1), number)
    }
}

/// A term without arguments behind those that are made.
fn push_leaf(
    sig: &Signature,
    pool: &mut Pool,
    made: &mut Vec<TermId>,
    head: Head,
) -> Result<(), NoMemory>
    requires within { All (IsIn pool.old.trees) made.old.items }
    requires stands { Stands head [] }
    requires there { IsTreeWithin sig.now (head_tree head []) }
    ensures within { OnOk result (All (IsIn pool.new.trees) made.new.items) }
    ensures trees { OnOk result (KeepTrees sig.now pool.old.trees sig.now pool.new.trees) }
    ensures pushed { OnOk result (map (term_at sig.now pool.new.trees) made.new.items ≡ map (term_at sig.now pool.old.trees) made.old.items ++ term_under sig.now (head_tree head []) ∷ []) }
    ensures kept { Extends pool.old.trees pool.new.trees }
    ensures constants { pool.new.constants ≡ pool.old.constants }
{
    let _ = sig.next_sort();
    let term = pool.intern(head, &[])?;
    made.push(term)?;
    Ok(())
}

/// A function over the last terms that are made, in their place.
fn join_last(
    sig: &Signature,
    pool: &mut Pool,
    made: &mut Vec<TermId>,
    fun: FunId,
    count: usize,
) -> Result<(), NoMemory>
    requires within { All (IsIn pool.old.trees) made.old.items }
    requires enough { count ≤ length made.old.items }
    requires there { fun.0 < length sig.now.functions }
    ensures within { OnOk result (All (IsIn pool.new.trees) made.new.items) }
    ensures trees { OnOk result (KeepTrees sig.now pool.old.trees sig.now pool.new.trees) }
    ensures joined { OnOk result (Joins (symbol_under sig.now fun) count (map (term_at sig.now pool.old.trees) made.old.items) (map (term_at sig.now pool.new.trees) made.new.items)) }
    ensures kept { Extends pool.old.trees pool.new.trees }
    ensures constants { pool.new.constants ≡ pool.old.constants }
{
    let _ = sig.next_sort();
    let from = made.len() - count;
    let term = pool.intern(Head::Fun(fun), &made[from..])?;
    made.truncate(from);
    made.push(term)?;
    Ok(())
}

/// One more term, of the last ones that are made.
fn put_part(
    sig: &Signature,
    pool: &mut Pool,
    made: &mut Vec<TermId>,
    part: Part,
) -> Result<(), NoMemory>
    requires within { All (IsIn pool.old.trees) made.old.items }
    requires enough { needed part ≤ length made.old.items }
    requires there { IsPartWithin sig.now part }
    ensures within { OnOk result (All (IsIn pool.new.trees) made.new.items) }
    ensures trees { OnOk result (KeepTrees sig.now pool.old.trees sig.now pool.new.trees) }
    ensures turns { OnOk result (Turns (part_item sig.now part) (map (term_at sig.now pool.old.trees) made.old.items) (map (term_at sig.now pool.new.trees) made.new.items)) }
    ensures kept { Extends pool.old.trees pool.new.trees }
    ensures constants { pool.new.constants ≡ pool.old.constants }
{
    match part {
        Part::Variable(var) => push_leaf(sig, pool, made, Head::Var(var)),
        Part::Numeral(value) => push_leaf(sig, pool, made, numeral_head(sig, value)),
        Part::Apply(fun, count) => join_last(sig, pool, made, fun, count),
    }
}

/// The term that parts make. They are read from their end.
pub fn made_term(
    alloc: Global,
    sig: &Signature,
    pool: &mut Pool,
    parts: Vec<Part>,
) -> Result<TermId, NoMemory>
    requires make { MakeOne sig.now parts.items [] }
    requires there { All (IsPartWithin sig.now) parts.items }
    ensures means { IfOk result (λ term. Make (part_items sig.now parts.items) [] (term_at sig.now pool.new.trees term ∷ [])) }
    ensures within { IfOk result (λ term. IsIn pool.new.trees term) }
    ensures trees { OnOk result (KeepTrees sig.now pool.old.trees sig.now pool.new.trees) }
    ensures kept { Extends pool.old.trees pool.new.trees }
    ensures constants { pool.new.constants ≡ pool.old.constants }
{
    let mut parts = parts;
    let mut made: Vec<TermId> = Vec::new(alloc);
    while let Some(part) = parts.pop() {
        put_part(sig, pool, &mut made, part)?;
    }
    Ok(made[0])
}
