//! The linear process of any form.

ghost use Rattle.std.specs.Prelude.{◌≡◌, ◌≤◌, ◌<◌, ◌^◌, [], ◌∷◌, length, IfOk, OnOk};
ghost use Rattle.std.specs.List.{All};
ghost use Rattle.data_theory.specs.Declarations.{NoSortIsEmpty};
ghost use Rattle.data_theory.specs.IdData.{data_meant};
ghost use Rattle.data_theory.specs.IdTerms.{IsGrown};
ghost use Rattle.data_theory.specs.WholeSignatures.{IsSignature};
ghost use Rattle.term_pool.specs.Constants.{AreConstants, KeepsConstants};
ghost use Rattle.term_pool.specs.HeadTrees.{trees_at, AreIn};
ghost use Rattle.term_pool.specs.Pools.{Extends};
ghost use Rattle.lps_core.specs.Fitting.{Fits};
ghost use Rattle.lps_core.specs.PlainLinears.{plain_linear};
ghost use Rattle.greibach.specs.FittingForms.{FormFits};
ghost use Rattle.greibach.specs.PlainForms.{plain_form};
ghost use Rattle.stack_encoder.specs.AddedStacks.{IsPlainOnStack};
ghost use Rattle.stack_encoder.specs.Frames.{frame_layout, plain_symbols};
ghost use Rattle.stack_encoder.specs.StackedForms.{first_tree, summands_due, HasItsStack, IsStackedForm, StackingIsGood};
ghost use Rattle.stack_encoder.specs.TreeStack.{place_at};

use crate::encoding::encode_equations;
use crate::frames::pushed;
use crate::layouts::{Layout, defaults_of};
use crate::symbols::{Symbols, add_stack};
use data_theory::{NoMemory, Signature, TermId};
use greibach::Greibach;
use indexmap::IndexSet;
use lps_core::{Linear, signature_stands};
use regular_encoder::add_all_kinds;
use std::alloc::Global;
use term_pool::{Head, Pool};

/// Adds the sort of the stack with a field for each column of a form, and finds what stands in its frames.
fn lay_out(
    alloc: Global,
    form: &Greibach,
    sig: &mut Signature,
    pool: &mut Pool,
) -> Result<(Symbols, Layout), NoMemory>
    requires fits { FormFits sig.old pool.old.trees (plain_form form.now) }
    requires inhabited { NoSortIsEmpty (data_meant sig.old) }
    requires constants { AreConstants sig.old pool.old.constants }
    ensures stack { IfOk result (λ made. HasItsStack sig.old pool.old (plain_form form.now) sig.new pool.new (plain_symbols made.0) made.0.stack (frame_layout pool.new.trees made.1).places made.1.defaults.items) }
    ensures few { OnOk result (length (plain_form form.now).equations < 2 ^ 128) }
    ensures stands { OnOk result (IsSignature sig.new) }
    ensures inhabited { OnOk result (NoSortIsEmpty (data_meant sig.new)) }
    ensures grown { IsGrown sig.old sig.new }
    ensures kept { Extends pool.old.trees pool.new.trees }
    ensures constants { AreConstants sig.new pool.new.constants }
    ensures constants_kept { KeepsConstants pool.old.constants pool.new.constants }
{
    signature_stands(sig);
    let equations = form.equations.as_slice();
    let mut kinds = IndexSet::new(alloc);
    let places = add_all_kinds(alloc, sig, equations, &mut kinds)?;
    let symbols = add_stack(alloc, sig, &kinds)?;
    signature_stands(sig);
    let defaults = defaults_of(alloc, sig, pool, form, &kinds, places.as_slice())?;
    signature_stands(sig);
    Ok((symbols, Layout { places, defaults }))
}

/// The frame of the first equation with the initial terms, on the empty stack.
fn first_stack(
    alloc: Global,
    pool: &mut Pool,
    symbols: &Symbols,
    layout: &Layout,
    init: &[TermId],
) -> Result<Vec<TermId>, NoMemory>
    requires place { 1 ≤ length layout.now.places.items }
    requires long { length (place_at (frame_layout pool.old.trees layout.now) 1) ≡ length init.now }
    requires init { AreIn pool.old.trees init.now }
    requires defaults { AreIn pool.old.trees layout.now.defaults.items }
    ensures kept { Extends pool.old.trees pool.new.trees }
    ensures constants { pool.new.constants ≡ pool.old.constants }
    ensures within { IfOk result (λ terms. AreIn pool.new.trees terms.items) }
    ensures terms { IfOk result (λ terms. trees_at pool.new.trees terms.items ≡ first_tree (plain_symbols symbols.now) (frame_layout pool.old.trees layout.now) (trees_at pool.old.trees init.now) ∷ []) }
{
    let empty = pool.intern(Head::Fun(symbols.empty), &[])?;
    let start = pushed(alloc, pool, symbols, layout, 1, init, empty)?;
    Ok(Vec::from_array(alloc, [start])?)
}

/// The linear process of any form: one parameter, whose value is a stack of frames, one for each call that is left. A frame has the
/// number of the call's equation and a field for each name and sort of the equations' parameters; fields that the equation doesn't use
/// have the closed term of their sort. A summand with calls becomes one that pushes their frames on the rest of the stack, the first one
/// on top. A summand without calls becomes two: one goes on with the rest of the stack, where that has a frame, and one ends, where it
/// has none. The structured sort of the stack is added to the signature, with fresh names. With that sort the result is plainly
/// conditioned for each specification for which the form is. Linear in the number of frames that the summands push times the number of
/// columns and of the called equations' parameters, in the square of the number of columns, and in the signature's size for each column
/// that some frame doesn't use.
///
/// After an error the pool and the signature may have got some of this. What was there stays, then too.
///
/// # Errors
///
/// `NoMemory` where there is none for the result.
pub fn encode(
    alloc: Global,
    form: &Greibach,
    sig: &mut Signature,
    pool: &mut Pool,
) -> Result<Linear, NoMemory>
    requires form { FormFits sig.old pool.old.trees (plain_form form.now) }
    requires inhabited { NoSortIsEmpty (data_meant sig.old) }
    requires constants { AreConstants sig.old pool.old.constants }
    ensures stands { OnOk result (IsSignature sig.new) }
    ensures inhabited { OnOk result (NoSortIsEmpty (data_meant sig.new)) }
    ensures grown { IsGrown sig.old sig.new }
    ensures kept { Extends pool.old.trees pool.new.trees }
    ensures constants { AreConstants sig.new pool.new.constants }
    ensures constants_kept { KeepsConstants pool.old.constants pool.new.constants }
    ensures encoded { IfOk result (λ made. IsStackedForm sig.old pool.old sig.new pool.new (plain_form form.now) (plain_linear made)) }
    ensures fits { IfOk result (λ made. Fits sig.new pool.new.trees (plain_linear made)) }
    ensures bisimilar { IfOk result (λ made. StackingIsGood sig.new pool.new.trees (plain_form form.now) (plain_linear made)) }
    ensures summands { IfOk result (λ made. length (plain_linear made).summands ≡ summands_due (plain_form form.now).equations) }
    ensures plain { IfOk result (λ made. IsPlainOnStack sig.old sig.new pool.new (plain_form form.now) (plain_linear made)) }
{
    signature_stands(sig);
    let (symbols, layout) = lay_out(alloc, form, sig, pool)?;
    let summands = encode_equations(alloc, pool, &symbols, &layout, form.equations.as_slice())?;
    let init = first_stack(alloc, pool, &symbols, &layout, form.init.as_slice())?;
    Ok(Linear {
        params: Vec::from_array(alloc, [symbols.stack])?,
        init,
        summands,
    })
}
