//! The first constructor value of a sort, as a term.

ghost use Rattle.std.specs.Prelude.{◌≡◌, ◌<◌, false, map, length, IsSome, IfOk, OnOk, OnErr, MatchOption};
ghost use Rattle.std.specs.List.{All, Contains, filter};
ghost use Rattle.data_theory.specs.declared.ids.SortId.{SortId};
ghost use Rattle.data_theory.specs.declared.ids.TermId.{TermId};
ghost use Rattle.data_theory.specs.Sorts.{IsBare};
ghost use Rattle.data_theory.specs.Whole.{whole_of};
ghost use Rattle.data_theory.specs.IdTerms.{IsGrown};
ghost use Rattle.data_theory.specs.IdTreeSorts.{HasNumber, HasTreeSort};
ghost use Rattle.data_theory.specs.WholeSignatures.{IsSignature};
ghost use Rattle.term_pool.specs.HeadTrees.{tree_at, trees_at, IsIn, AreIn};
ghost use Rattle.term_pool.specs.Pools.{Extends};
ghost use Rattle.term_pool.specs.ConstructorValues.{ConstructorValue, HasValue, IsFirstValue};
ghost use Rattle.term_pool.specs.FirstValues.{AreFirstValues};
ghost use Rattle.term_pool.specs.FirstTerms.{HasEntry, HasRootAt, IsRootWithin, root_arguments, sorts_under, AreSortsWithin, lacks_constant, is_in_need, first_number, IsOrdered, IsReady, IsTreeOf, made_for, HasTerm};
ghost use Rattle.term_pool.specs.Constants.{tree_with, constant_of, is_listed, AreConstants, KeepsConstants, all_sorts, sorts_in_need, DeclaresConstant, DeclaresConstants};

use super::Pool;
use crate::first_values::{First, Root, first_values};
use crate::terms::Head;
use data_theory::{NoMemory, Num, Signature, SortId, SortKind, TermId};
use indexmap::IndexSet;
use std::alloc::Global;
use std::collections::HashMap;

/// What stands at the root of the first value of a sort.
fn root_of(firsts: &[Option<First>], sort: SortId) -> Root
    requires { HasEntry firsts.now sort }
    ensures { HasRootAt firsts.now sort result }
{
    firsts[sort.0].as_ref().unwrap().root
}

/// The sorts of the arguments under a root.
fn argument_sorts(sig: &Signature, root: Root) -> &[SortId]
    requires { IsRootWithin (length sig.now.functions) root }
    ensures { result.now ≡ root_arguments sig.now.functions root }
{
    match root {
        Root::Constructor(fun) => sig.args_of(fun),
        Root::Number | Root::Constant => &[],
    }
}

/// The first of these sorts that isn't in a set.
fn first_outside(sorts: &[SortId], set: &IndexSet<SortId>) -> Option<SortId>
    ensures { MatchOption result (All (Contains set.now.keys) sorts.now) (λ sort. Contains sorts.now sort × ¬ (Contains set.now.keys sort)) }
{
    for sort in sorts {
        if !set.contains(sort) {
            return Some(*sort);
        }
    }
    None
}

/// The sorts whose first values stand in that of a sort, each behind those of its arguments.
fn sorts_within(
    alloc: Global,
    sig: &Signature,
    firsts: &[Option<First>],
    sort: SortId,
) -> Result<IndexSet<SortId>, NoMemory>
    requires stands { IsSignature sig.now }
    requires first { AreFirstValues sig.now firsts.now }
    requires inhabited { HasValue sig.now sort }
    ensures { IfOk result (λ sorts. AreSortsWithin sig.now.functions firsts.now sort sorts.keys) }
{
    let mut sorts = IndexSet::new(alloc);
    let mut waiting = Vec::new(alloc);
    waiting.push(sort)?;
    while let Some(next) = waiting.pop() {
        let args = argument_sorts(sig, root_of(firsts, next));
        let Some(arg) = first_outside(args, &sorts) else {
            sorts.insert(next)?;
            continue;
        };
        waiting.push(next)?;
        waiting.push(arg)?;
    }
    Ok(sorts)
}

/// The terms that were made for sorts.
fn terms_for(
    alloc: Global,
    sorts: &[SortId],
    made: &HashMap<SortId, TermId>,
) -> Result<Vec<TermId>, NoMemory>
    requires { All (λ sort. IsSome (made_for made.now sort)) sorts.now }
    ensures { IfOk result (λ found. map Some found.items ≡ map (made_for made.now) sorts.now) }
{
    let mut found = Vec::new(alloc);
    for sort in sorts {
        found.push(made[sort])?;
    }
    Ok(found)
}

/// The first number of Pos, Nat or Int.
fn numeral_of(sort: SortId) -> Num
    ensures { whole_of result ≡ first_number sort }
{
    Num {
        negative: false,
        magnitude: u128::from(sort.0 == 1),
    }
}

impl Pool {
    /// Whether a sort has no constructors and no constant yet.
    fn lacks_constant(&self, sig: &Signature, sort: SortId) -> bool
        requires { sort.0 < length sig.now.sorts }
        ensures { result ≡ lacks_constant sig.now.sorts self.now.constants sort }
    {
        matches!(sig.kind(sort), SortKind::Abstract) && !self.constants.contains_key(&sort)
    }

    /// Declares the constant of a sort without constructors.
    fn declare_constant(&mut self, sig: &mut Signature, sort: SortId) -> Result<(), NoMemory>
        requires bare { IsBare sig.old.sorts sort }
        requires absent { is_listed self.old.constants sort ≡ false }
        ensures declared { OnOk result (DeclaresConstant sort sig.old self.old.constants sig.new self.new.constants) }
        ensures unchanged { OnErr result (self.new ≡ self.old) }
        ensures trees { self.new.trees ≡ self.old.trees }
        ensures grown { IsGrown sig.old sig.new }
    {
        self.constants.reserve(1)?;
        let names = sig.names();
        let text = names.text(sig.sort_name(sort));
        let base = format!(in self.alloc; "dc_{text}")?;
        let name = sig.fresh(base.as_str())?;
        let constant = sig.add_map(name, sort)?;
        let _ = self.constants.insert(sort, constant);
        Ok(())
    }

    /// Declares the constants of those of these sorts that lack one, in the order of the sorts' numbers.
    fn declare_constants(
        &mut self,
        sig: &mut Signature,
        sorts: &IndexSet<SortId>,
    ) -> Result<(), NoMemory>
        requires { AreConstants sig.old self.old.constants }
        ensures declared { OnOk result (DeclaresConstants (filter (is_in_need sig.old.sorts self.old.constants sorts.now.keys) (all_sorts sig.old)) sig.old self.old.constants sig.new self.new.constants) }
        ensures constants { AreConstants sig.new self.new.constants }
        ensures kept { KeepsConstants self.old.constants self.new.constants }
        ensures trees { self.new.trees ≡ self.old.trees }
        ensures grown { IsGrown sig.old sig.new }
    {
        for number in 0..sig.next_sort().0 {
            let sort = SortId(number);
            if sorts.contains(&sort) && self.lacks_constant(sig, sort) {
                self.declare_constant(sig, sort)?;
            }
        }
        Ok(())
    }

    /// The term of the first value of a sort, where its arguments have theirs.
    fn first_term(
        &mut self,
        sig: &Signature,
        firsts: &[Option<First>],
        sort: SortId,
        made: &HashMap<SortId, TermId>,
    ) -> Result<TermId, NoMemory>
        requires ready { IsReady (length sig.now.functions) firsts.now self.old.constants sort }
        requires arguments { All (HasTerm sig.now.functions firsts.now self.old.trees self.old.constants made.now) (sorts_under sig.now.functions firsts.now sort) }
        ensures kept { Extends self.old.trees self.new.trees }
        ensures constants { self.new.constants ≡ self.old.constants }
        ensures within { IfOk result (λ id. IsIn self.new.trees id) }
        ensures tree { IfOk result (λ id. IsTreeOf sig.now.functions firsts.now self.old.constants sort (tree_at self.new.trees id)) }
    {
        match root_of(firsts, sort) {
            Root::Number => self.intern(Head::Num(sort, numeral_of(sort)), &[]),
            Root::Constructor(fun) => {
                let args = terms_for(self.alloc, sig.args_of(fun), made)?;
                self.intern(Head::Fun(fun), args.as_slice())
            }
            Root::Constant => {
                let constant = self.constants[&sort];
                self.intern(Head::Fun(constant), &[])
            }
        }
    }

    /// The terms of the first values of sorts that stand behind those of their arguments.
    fn first_terms(
        &mut self,
        sig: &Signature,
        firsts: &[Option<First>],
        sorts: &IndexSet<SortId>,
    ) -> Result<HashMap<SortId, TermId>, NoMemory>
        requires ready { All (IsReady (length sig.now.functions) firsts.now self.old.constants) sorts.now.keys }
        requires ordered { IsOrdered sig.now.functions firsts.now sorts.now.keys }
        ensures kept { Extends self.old.trees self.new.trees }
        ensures constants { self.new.constants ≡ self.old.constants }
        ensures made { IfOk result (λ made. All (HasTerm sig.now.functions firsts.now self.new.trees self.new.constants made) sorts.now.keys) }
    {
        let mut made = HashMap::new(self.alloc);
        for sort in sorts {
            let term = self.first_term(sig, firsts, *sort, &made)?;
            made.insert(*sort, term)?;
        }
        Ok(made)
    }

    /// The term of the first constructor value of a sort that isn't empty.
    ///
    /// Values are ordered by weight, then by the places of their constructors, then by their arguments from the left. A
    /// constructor weighs 1 more than its arguments. Numbers weigh what makes 1, 2, 3 .. the order of Pos, 0, 1, 2 .. that of
    /// Nat and 0, 1, -1, 2, -2 .. that of Int. A sort without constructors has one value, its constant. The constants that
    /// stand in the value and aren't there yet are declared, in the order of their sorts: maps without arguments, whose names
    /// are the fresh ones to `dc_` with the sort's name behind it.
    ///
    /// After `NoMemory` the pool and the signature may have got some of this. The old terms and constants stay, then too.
    pub fn closed_term(&mut self, sig: &mut Signature, sort: SortId) -> Result<TermId, NoMemory>
        requires inhabited { HasValue sig.old sort }
        requires constants { AreConstants sig.old self.old.constants }
        ensures has { OnOk result ((v : ConstructorValue) × IsFirstValue sig.old sort v) }
        ensures first { IfOk result (λ id. (v : ConstructorValue) → IsFirstValue sig.old sort v → tree_at self.new.trees id ≡ tree_with (constant_of self.new.constants) v) }
        ensures declared { OnOk result ((v : ConstructorValue) → IsFirstValue sig.old sort v → DeclaresConstants (sorts_in_need sig.old self.old.constants v) sig.old self.old.constants sig.new self.new.constants) }
        ensures within { IfOk result (λ id. IsIn self.new.trees id) }
        ensures sorted { IfOk result (λ id. HasTreeSort sig.new (tree_at self.new.trees id) sort) }
        ensures kept { Extends self.old.trees self.new.trees }
        ensures constants { AreConstants sig.new self.new.constants }
        ensures constants_kept { KeepsConstants self.old.constants self.new.constants }
        ensures grown { IsGrown sig.old sig.new }
    {
        let firsts = first_values(self.alloc, sig)?;
        let sorts = sorts_within(self.alloc, sig, firsts.as_slice(), sort)?;
        self.declare_constants(sig, &sorts)?;
        let made = self.first_terms(sig, firsts.as_slice(), &sorts)?;
        Ok(made[&sort])
    }
}
