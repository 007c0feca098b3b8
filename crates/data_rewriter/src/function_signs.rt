//! The signs of the functions of a signature.

ghost use Rattle.std.specs.Prelude.{◌≡◌, ◌<◌, ℕ, length, map, Some, slice_get, IfOk, IfSome};
ghost use Rattle.std.specs.List.{All};
ghost use Rattle.data_theory.specs.Functions.{Function};
ghost use Rattle.data_theory.specs.IdData.{constructors_of};
ghost use Rattle.data_theory.specs.Signature.{Sig};
ghost use Rattle.data_theory.specs.Sorts.{SortInfo};
ghost use Rattle.data_theory.specs.WholeSignatures.{IsSignature};
ghost use Rattle.data_theory.specs.declared.ids.FunId.{FunId};
ghost use Rattle.data_theory.specs.declared.ids.SortId.{SortId};
ghost use Rattle.data_rewriter.specs.declared.signs.Sign.TheVariants.{Constructor, Projection};
ghost use Rattle.data_rewriter.specs.Signs.{sign_at};
ghost use Rattle.data_rewriter.specs.Views.{AreSigns};
ghost use Rattle.data_rewriter.specs.Marking.{AreMarked, AreMarkedWhereThere, IsFirstSign, IsMark, IsMarked, Marks};

use crate::signs::Sign;
use crate::word_signs::sign_of_word;
use data_theory::{FunId, NoMemory, Signature, SortId, SortKind};
use std::alloc::Global;

/// The sign of a function by its word; of a declared one that it is no constructor, projection or recogniser.
fn first_sign(sig: &Signature, fun: FunId) -> Sign
    requires stands { IsSignature sig.now }
    requires function { fun.0 < length sig.now.functions }
    ensures { IsFirstSign sig.now fun result }
{
    match sig.word_of(fun) {
        Some(word) => sign_of_word(sig, word, sig.args_of(fun), sig.sort_of(fun)),
        None => Sign::Other,
    }
}

/// The signs of all functions by their words.
fn first_signs(alloc: Global, sig: &Signature) -> Result<Vec<Sign>, NoMemory>
    requires { IsSignature sig.now }
    ensures count { IfOk result (λ marks. length marks.items ≡ length sig.now.functions) }
    ensures signs { IfOk result (λ marks. (f : FunId) → f.0 < length sig.now.functions → IsFirstSign sig.now f (sign_at marks.items f)) }
{
    let mut signs = Vec::new(alloc);
    for number in 0..sig.fun_count() {
        signs.push(first_sign(sig, FunId(number)))?;
    }
    Ok(signs)
}

/// Marks constructors.
fn mark_all(signs: &mut Vec<Sign>, constructors: &[FunId])
    requires { All (λ (f : FunId). f.0 < length signs.old.items) constructors.now }
    ensures marks { (sig : Sig) → All (λ (f : FunId). IsMark sig f Constructor) constructors.now → Marks sig signs.old.items signs.new.items }
    ensures marked { AreMarked signs.new.items constructors.now }
{
    for i in 0..constructors.len() {
        signs[constructors[i].0] = Sign::Constructor;
    }
}

/// Marks the constructors of a sort.
fn mark_constructors_of(signs: &mut Vec<Sign>, sig: &Signature, sort: SortId)
    requires stands { IsSignature sig.now }
    requires sort { sort.0 < length sig.now.sorts }
    requires count { length signs.old.items ≡ length sig.now.functions }
    ensures marks { Marks sig.now signs.old.items signs.new.items }
    ensures marked { IfSome (slice_get sig.now.sorts sort.0) (λ s. AreMarked signs.new.items (constructors_of s.kind)) }
{
    match sig.kind(sort) {
        SortKind::Cons(constructors) => mark_all(signs, constructors.as_slice()),
        SortKind::Struct(constructors) => mark_all(signs, constructors.as_slice()),
        _ => {}
    }
}

/// Marks the constructors of all sorts.
fn mark_constructors(signs: &mut Vec<Sign>, sig: &Signature)
    requires stands { IsSignature sig.now }
    requires count { length signs.old.items ≡ length sig.now.functions }
    ensures marks { Marks sig.now signs.old.items signs.new.items }
    ensures marked { (s : SortId) (t : SortInfo) → slice_get sig.now.sorts s.0 ≡ Some t → AreMarked signs.new.items (constructors_of t.kind) }
{
    for number in 0..sig.next_sort().0 {
        mark_constructors_of(signs, sig, SortId(number));
    }
}

/// Marks the projections of a constructor.
fn mark_projections(signs: &mut Vec<Sign>, constructor: FunId, projections: &[Option<FunId>])
    requires { (k : ℕ) (p : FunId) → slice_get projections.now k ≡ Some (Some p) → p.0 < length signs.old.items }
    ensures marks { (sig : Sig) → ((k : ℕ) (p : FunId) → slice_get projections.now k ≡ Some (Some p) → IsMark sig p (Projection constructor k)) → Marks sig signs.old.items signs.new.items }
    ensures marked { AreMarkedWhereThere signs.new.items projections.now }
{
    for place in 0..projections.len() {
        let Some(projection) = projections[place] else {
            continue;
        };
        signs[projection.0] = Sign::Projection(constructor, place);
    }
}

/// Marks the projections and the recogniser of a function.
fn mark_parts_of(signs: &mut Vec<Sign>, sig: &Signature, constructor: FunId)
    requires stands { IsSignature sig.now }
    requires function { constructor.0 < length sig.now.functions }
    requires count { length signs.old.items ≡ length sig.now.functions }
    ensures marks { Marks sig.now signs.old.items signs.new.items }
    ensures marked { IfSome (slice_get sig.now.functions constructor.0) (λ h. AreMarkedWhereThere signs.new.items h.projections × IfSome h.test (IsMarked signs.new.items)) }
{
    mark_projections(signs, constructor, sig.projections(constructor));
    if let Some(recogniser) = sig.test(constructor) {
        signs[recogniser.0] = Sign::Recogniser(constructor);
    }
}

/// Marks the projections and recognisers of all constructors.
fn mark_parts(signs: &mut Vec<Sign>, sig: &Signature)
    requires stands { IsSignature sig.now }
    requires count { length signs.old.items ≡ length sig.now.functions }
    ensures marks { Marks sig.now signs.old.items signs.new.items }
    ensures marked { (c : FunId) (h : Function) → slice_get sig.now.functions c.0 ≡ Some h → AreMarkedWhereThere signs.new.items h.projections × IfSome h.test (IsMarked signs.new.items) }
{
    for number in 0..sig.fun_count() {
        mark_parts_of(signs, sig, FunId(number));
    }
}

/// The sign of each function.
pub fn signs_of(alloc: Global, sig: &Signature) -> Result<Vec<Sign>, NoMemory>
    requires { IsSignature sig.now }
    ensures { IfOk result (λ marks. AreSigns sig.now marks.items) }
{
    let mut signs = first_signs(alloc, sig)?;
    mark_constructors(&mut signs, sig);
    mark_parts(&mut signs, sig);
    Ok(signs)
}
