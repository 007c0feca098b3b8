//! Which sorts have a value, for all sorts at once.

ghost use Rattle.std.specs.Prelude.{◌≡◌, ◌<◌, ◌+◌, ◌++◌, ◌⊎◌, ℕ, [], length, map, IfOk, OnOk, MatchOption, IsTrue};
ghost use Rattle.std.specs.List.{All, Contains};
ghost use Rattle.data_theory.specs.Sorts.{kind_of};
ghost use Rattle.data_theory.specs.IdData.{constructors_of};
ghost use Rattle.data_theory.specs.WholeSignatures.{IsSignature};
ghost use Rattle.term_pool.specs.Inhabited.{AreInhabited, IsMarked, IsSearch, AreMarkedUpTo, AreAllMarked, IsFirstUnmarked, IsMarkedToo, unmarked_count, is_made, from_start, candidates_in, marks_at_once, waiting_at};

use data_theory::{FunId, NoMemory, Signature, SortId, SortKind};
use std::alloc::Global;
use std::mem;

/// A constructor, and how many of its first arguments are known to have sorts with a value.
#[derive(Clone, Copy, Debug)]
pub struct Candidate {
    pub fun: FunId,
    pub known: usize,
}

/// For each sort, in the order of their numbers, whether it has a constructor value, so that it isn't empty.
///
/// The time is linear in the sorts and in the arguments of their constructors. `NoMemory` comes only where memory runs out.
pub fn inhabited_sorts(alloc: Global, sig: &Signature) -> Result<Vec<bool>, NoMemory>
    ensures stands { IsSignature sig.now }
    ensures marks { IfOk result (λ marks. AreInhabited sig.now marks.items) }
{
    let mut marks = sorts_at_once(alloc, sig)?;
    let mut ready = Vec::new(alloc);
    let mut waiting = no_candidates(alloc, marks.len())?;
    let all = all_constructors(alloc, sig)?;
    place_all(sig, &mut marks, &mut ready, &mut waiting, all.as_slice())?;
    while let Some(sort) = ready.pop() {
        let candidates = mem::replace(&mut waiting[sort.0], Vec::new(alloc));
        place_all(
            sig,
            &mut marks,
            &mut ready,
            &mut waiting,
            candidates.as_slice(),
        )?;
    }
    Ok(marks)
}

/// Puts each candidate to the first of its arguments whose sort isn't marked, and marks the sort of a candidate that has none.
fn place_all(
    sig: &Signature,
    marks: &mut Vec<bool>,
    ready: &mut Vec<SortId>,
    waiting: &mut Vec<Vec<Candidate>>,
    candidates: &[Candidate],
) -> Result<(), NoMemory>
    requires signature { IsSignature sig.now }
    requires search { IsSearch sig.now marks.old.items ready.old.items waiting.old.items candidates.now }
    ensures search { OnOk result (IsSearch sig.now marks.new.items ready.new.items waiting.new.items []) }
    ensures left { OnOk result (unmarked_count marks.new.items + length ready.new.items ≡ unmarked_count marks.old.items + length ready.old.items) }
{
    for candidate in candidates {
        let args = sig.args_of(candidate.fun);
        match first_unmarked(marks.as_slice(), args, candidate.known) {
            Some(place) => waiting[args[place].0].push(Candidate {
                fun: candidate.fun,
                known: place,
            })?,
            None => mark(marks, ready, sig.sort_of(candidate.fun))?,
        }
    }
    Ok(())
}

/// Marks a sort, which is ready from then on if it wasn't marked.
fn mark(marks: &mut Vec<bool>, ready: &mut Vec<SortId>, sort: SortId) -> Result<(), NoMemory>
    requires { sort.0 < length marks.old.items }
    ensures { OnOk result (IsMarkedToo sort marks.old.items ready.old.items marks.new.items ready.new.items) }
{
    if !marks[sort.0] {
        marks[sort.0] = true;
        ready.push(sort)?;
    }
    Ok(())
}

/// The first place from this one on whose sort isn't marked.
fn first_unmarked(marks: &[bool], sorts: &[SortId], from: usize) -> Option<usize>
    requires within { All (λ sort. sort.0 < length marks.now) sorts.now }
    requires known { AreMarkedUpTo marks.now sorts.now from }
    ensures { MatchOption result (AreAllMarked marks.now sorts.now) (IsFirstUnmarked marks.now sorts.now) }
{
    for place in from..sorts.len() {
        if !marks[sorts[place].0] {
            return Some(place);
        }
    }
    None
}

/// The sorts without declared constructors, which all have a value.
fn sorts_at_once(alloc: Global, sig: &Signature) -> Result<Vec<bool>, NoMemory>
    ensures stands { IsSignature sig.now }
    ensures marks { IfOk result (λ marks. marks.items ≡ marks_at_once sig.now.sorts) }
{
    let mut marks = Vec::new(alloc);
    for number in 0..sig.next_sort().0 {
        let made = has_constructors(sig.kind(SortId(number)));
        marks.push(!made)?;
    }
    Ok(marks)
}

/// Whether a sort has declared constructors.
fn has_constructors(kind: &SortKind) -> bool
    ensures { result ≡ is_made (kind_of kind.now) }
{
    match kind {
        SortKind::Cons(_) => true,
        SortKind::Struct(_) => true,
        _ => false,
    }
}

/// No candidate for each sort.
fn no_candidates(alloc: Global, count: usize) -> Result<Vec<Vec<Candidate>>, NoMemory>
    ensures size { IfOk result (λ waiting. length waiting.items ≡ count) }
    ensures none { IfOk result (λ waiting. (k : ℕ) → waiting_at waiting.items k ≡ []) }
{
    let mut waiting = Vec::new(alloc);
    for _ in 0..count {
        waiting.push(Vec::new(alloc))?;
    }
    Ok(waiting)
}

/// The declared constructors of all sorts, of which no argument is known.
fn all_constructors(alloc: Global, sig: &Signature) -> Result<Vec<Candidate>, NoMemory>
    ensures stands { IsSignature sig.now }
    ensures all { IfOk result (λ all. all.items ≡ candidates_in sig.now.sorts) }
{
    let mut all = Vec::new(alloc);
    for number in 0..sig.next_sort().0 {
        push_candidates(&mut all, declared_constructors(sig.kind(SortId(number))))?;
    }
    Ok(all)
}

/// The declared constructors of a sort.
fn declared_constructors(kind: &SortKind) -> &[FunId]
    ensures { result.now ≡ constructors_of (kind_of kind.now) }
{
    match kind {
        SortKind::Cons(funs) => funs.as_slice(),
        SortKind::Struct(funs) => funs.as_slice(),
        _ => &[],
    }
}

/// Puts these functions behind the candidates.
fn push_candidates(all: &mut Vec<Candidate>, funs: &[FunId]) -> Result<(), NoMemory>
    ensures { OnOk result (all.new.items ≡ all.old.items ++ map from_start funs.now) }
{
    for fun in funs {
        all.push(Candidate {
            fun: *fun,
            known: 0,
        })?;
    }
    Ok(())
}
