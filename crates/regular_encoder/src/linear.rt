//! The linear process of a tail form.

ghost use Rattle.std.specs.Prelude.{◌≡◌, ◌++◌, map, length, IfOk, IfErr, OnOk};
ghost use Rattle.std.specs.List.{All};
ghost use Rattle.data_theory.specs.Declarations.{NoSortIsEmpty};
ghost use Rattle.data_theory.specs.IdData.{data_meant};
ghost use Rattle.data_theory.specs.IdTerms.{IsGrown};
ghost use Rattle.data_theory.specs.WholeSignatures.{IsSignature};
ghost use Rattle.term_pool.specs.Constants.{AreConstants, KeepsConstants};
ghost use Rattle.term_pool.specs.HeadTrees.{trees_at, AreIn};
ghost use Rattle.term_pool.specs.Pools.{Extends};
ghost use Rattle.lps_core.specs.Fitting.{Fits};
ghost use Rattle.lps_core.specs.PlainLinears.{plain_linear, plain_summand};
ghost use Rattle.lps_core.specs.TreeSummands.{IsSummandIn};
ghost use Rattle.greibach.specs.FittingForms.{FormFits};
ghost use Rattle.greibach.specs.PlainForms.{plain_equation, plain_form};
ghost use Rattle.greibach.specs.Tails.{HasTails};
ghost use Rattle.regular_encoder.specs.EncodedForms.{AreEquationsFor, EncodingIsGood, IsEncodedForm, OneEquationIsKept, StaysPlain};
ghost use Rattle.regular_encoder.specs.FormColumns.{layout_params};
ghost use Rattle.regular_encoder.specs.Refusals.{all_summands, IsEncodeFaultOf};
ghost use Rattle.regular_encoder.specs.TreeEncoding.{plain_layout, tree_control_of};
ghost use Rattle.regular_encoder.specs.WholeEncoding.{trees_encoded_from, trees_of_summands};

use crate::encoding::{control_terms, encode_equation};
use crate::faults::{EncodeFault, check_tail};
use crate::layouts::{Layout, lay_out};
use data_theory::{NoMemory, Signature, TermId, VarId};
use greibach::{Greibach, GreibachEquation};
use lps_core::{Linear, Summand, signature_stands};
use std::alloc::Global;
use term_pool::Pool;

/// The control parameter, where there is one, and the columns.
fn parameters(alloc: Global, layout: &Layout) -> Result<Vec<VarId>, NoMemory>
    ensures { IfOk result (λ params. params.items ≡ layout_params (plain_layout layout.now)) }
{
    let mut params = Vec::new(alloc);
    if let Some(control) = layout.control {
        params.push(control)?;
    }
    params.extend_from_slice(layout.columns.as_slice())?;
    Ok(params)
}

/// The number 1, where there is a control parameter, and the first values of the columns.
fn initial_terms(alloc: Global, pool: &mut Pool, layout: &Layout) -> Result<Vec<TermId>, NoMemory>
    requires { AreIn pool.old.trees layout.now.firsts.items }
    ensures kept { Extends pool.old.trees pool.new.trees }
    ensures constants { pool.new.constants ≡ pool.old.constants }
    ensures within { IfOk result (λ terms. AreIn pool.new.trees terms.items) }
    ensures terms { IfOk result (λ terms. trees_at pool.new.trees terms.items ≡ tree_control_of layout.now.control 1 ++ trees_at pool.new.trees layout.now.firsts.items) }
{
    let mut terms = control_terms(alloc, pool, layout.control, 1)?;
    terms.extend_from_slice(layout.firsts.as_slice())?;
    Ok(terms)
}

/// The encoded summands of all equations, in their order.
fn encode_equations(
    alloc: Global,
    pool: &mut Pool,
    layout: &Layout,
    equations: &[GreibachEquation],
) -> Result<Vec<Summand>, NoMemory>
    requires { AreEquationsFor pool.old.trees (plain_layout layout.now) (map plain_equation equations.now) }
    ensures kept { Extends pool.old.trees pool.new.trees }
    ensures constants { pool.new.constants ≡ pool.old.constants }
    ensures within { IfOk result (λ made. All (IsSummandIn pool.new.trees) (map plain_summand made.items)) }
    ensures summands { IfOk result (λ made. trees_of_summands pool.new.trees made.items ≡ trees_encoded_from (plain_layout layout.now) 1 pool.old.trees (map plain_equation equations.now)) }
{
    let mut summands = Vec::new(alloc);
    for number in 0..equations.len() {
        let equation = &equations[number];
        encode_equation(alloc, pool, layout, number + 1, equation, &mut summands)?;
    }
    Ok(summands)
}

/// The linear process of a form in which no summand has two calls: each summand becomes one, in the same order, the equations'
/// parameters share columns, and a control parameter has the number of the equation. A form of one equation keeps its parameters,
/// initial terms and summands, and gets no control parameter. The result is plainly conditioned for each specification for which the
/// form is. Linear in the form's size times the number of columns, and in the signature's size for each column that the first equation
/// doesn't use.
///
/// After an error the pool and the signature may have got some of this. What was there stays, then too.
///
/// # Errors
///
/// `NotTail` exactly where a summand has two calls, with the number of the first one, from 1 over the equations in their order.
/// `NoMemory` where there is none for the result.
pub fn encode(
    alloc: Global,
    form: &Greibach,
    sig: &mut Signature,
    pool: &mut Pool,
) -> Result<Linear, EncodeFault>
    requires form { FormFits sig.old pool.old.trees (plain_form form.now) }
    requires inhabited { NoSortIsEmpty (data_meant sig.old) }
    requires constants { AreConstants sig.old pool.old.constants }
    ensures stands { OnOk result (IsSignature sig.new) }
    ensures inhabited { OnOk result (NoSortIsEmpty (data_meant sig.new)) }
    ensures grown { IsGrown sig.old sig.new }
    ensures kept { Extends pool.old.trees pool.new.trees }
    ensures constants { AreConstants sig.new pool.new.constants }
    ensures constants_kept { KeepsConstants pool.old.constants pool.new.constants }
    ensures encoded { IfOk result (λ made. IsEncodedForm sig.old pool.old sig.new pool.new (plain_form form.now) (plain_linear made)) }
    ensures fits { IfOk result (λ made. Fits sig.new pool.new.trees (plain_linear made)) }
    ensures bisimilar { IfOk result (λ made. EncodingIsGood sig.new pool.new.trees (plain_form form.now) (plain_linear made)) }
    ensures summands { IfOk result (λ made. length (plain_linear made).summands ≡ length (all_summands (plain_form form.now).equations)) }
    ensures plain { IfOk result (λ made. StaysPlain sig.new pool.new (plain_form form.now) (plain_linear made)) }
    ensures one_equation { IfOk result (λ made. OneEquationIsKept sig.old pool.old.trees sig.new pool.new.trees (plain_form form.now) (plain_linear made)) }
    ensures tail { OnOk result (HasTails (plain_form form.now)) }
    ensures not_tail { IfErr result (IsEncodeFaultOf (plain_form form.now)) }
{
    signature_stands(sig);
    check_tail(form)?;
    let layout = lay_out(alloc, form, sig, pool)?;
    let summands = encode_equations(alloc, pool, &layout, form.equations.as_slice())?;
    let init = initial_terms(alloc, pool, &layout)?;
    let params = parameters(alloc, &layout)?;
    Ok(Linear {
        params,
        init,
        summands,
    })
}
