//! The linear process of a form by a method.

ghost use Rattle.std.specs.Prelude.{◌↔◌, IfErr, IfOk, IsTrue, OnOk};
ghost use Rattle.data_theory.specs.Declarations.{NoSortIsEmpty};
ghost use Rattle.data_theory.specs.IdData.{data_meant};
ghost use Rattle.data_theory.specs.IdTerms.{IsGrown};
ghost use Rattle.data_theory.specs.WholeSignatures.{IsSignature};
ghost use Rattle.term_pool.specs.Constants.{AreConstants};
ghost use Rattle.term_pool.specs.Pools.{Extends};
ghost use Rattle.lps_core.specs.PlainLinears.{plain_linear};
ghost use Rattle.greibach.specs.FittingForms.{FormFits};
ghost use Rattle.greibach.specs.PlainForms.{plain_form};
ghost use Rattle.greibach.specs.Surroundings.{HasUsableNames};
ghost use Rattle.greibach.specs.Tails.{HasTails};
ghost use Rattle.regular_encoder.specs.EncodedForms.{IsEncodedForm};
ghost use Rattle.regular_encoder.specs.Refusals.{IsEncodeFaultOf};
ghost use Rattle.stack_encoder.specs.StackedForms.{IsStackedForm};
ghost use Rattle.lin_driver.specs.MethodForms.{IsEncodedBy, IsMethodFaultOf, IsTailFor, LeadsFromForm, UsesStack};
ghost use Rattle.lin_driver.specs.PlainlyMade.{EncodesPlainly};

use crate::methods::Method;
use data_theory::{NoMemory, Signature};
use greibach::Greibach;
use lps_core::{Linear, signature_stands};
use regular_encoder::EncodeFault;
use std::alloc::Global;
use term_pool::Pool;

impl Method {
    /// Whether a form is encoded with a stack.
    fn uses_stack(self, form: &Greibach) -> bool
        ensures { IsTrue result ↔ UsesStack self (plain_form form.now) }
    {
        match self {
            Method::Auto => !form.is_tail(),
            Method::Regular => false,
            Method::Stack => true,
        }
    }
}

/// The linear process of a tail form with columns for the equations' parameters.
fn encode_with_columns(
    alloc: Global,
    form: &Greibach,
    sig: &mut Signature,
    pool: &mut Pool,
) -> Result<Linear, EncodeFault>
    requires form { FormFits sig.old pool.old.trees (plain_form form.now) }
    requires inhabited { NoSortIsEmpty (data_meant sig.old) }
    requires constants { AreConstants sig.old pool.old.constants }
    requires names { HasUsableNames sig.old }
    ensures stands { OnOk result (IsSignature sig.new) }
    ensures inhabited { OnOk result (NoSortIsEmpty (data_meant sig.new)) }
    ensures grown { IsGrown sig.old sig.new }
    ensures kept { Extends pool.old.trees pool.new.trees }
    ensures constants { AreConstants sig.new pool.new.constants }
    ensures encoded { IfOk result (λ made. IsEncodedForm sig.old pool.old sig.new pool.new (plain_form form.now) (plain_linear made)) }
    ensures leads { IfOk result (λ made. LeadsFromForm sig.old sig.new pool.new.trees (plain_form form.now) (plain_linear made)) }
    ensures plain { IfOk result (λ made. EncodesPlainly sig.old sig.new pool.new (plain_form form.now) (plain_linear made)) }
    ensures tail { OnOk result (HasTails (plain_form form.now)) }
    ensures refused { IfErr result (IsEncodeFaultOf (plain_form form.now)) }
{
    signature_stands(sig);
    let made = regular_encoder::encode(alloc, form, sig, pool)?;
    Ok(made)
}

/// The linear process of a form with a stack.
fn encode_with_stack(
    alloc: Global,
    form: &Greibach,
    sig: &mut Signature,
    pool: &mut Pool,
) -> Result<Linear, NoMemory>
    requires form { FormFits sig.old pool.old.trees (plain_form form.now) }
    requires inhabited { NoSortIsEmpty (data_meant sig.old) }
    requires constants { AreConstants sig.old pool.old.constants }
    requires names { HasUsableNames sig.old }
    ensures stands { OnOk result (IsSignature sig.new) }
    ensures inhabited { OnOk result (NoSortIsEmpty (data_meant sig.new)) }
    ensures grown { IsGrown sig.old sig.new }
    ensures kept { Extends pool.old.trees pool.new.trees }
    ensures constants { AreConstants sig.new pool.new.constants }
    ensures encoded { IfOk result (λ made. IsStackedForm sig.old pool.old sig.new pool.new (plain_form form.now) (plain_linear made)) }
    ensures leads { IfOk result (λ made. LeadsFromForm sig.old sig.new pool.new.trees (plain_form form.now) (plain_linear made)) }
    ensures plain { IfOk result (λ made. EncodesPlainly sig.old sig.new pool.new (plain_form form.now) (plain_linear made)) }
{
    signature_stands(sig);
    let made = stack_encoder::encode(alloc, form, sig, pool)?;
    Ok(made)
}

/// The linear process of a form by a method: with a stack, or with columns for the equations' parameters. `Auto` takes a stack exactly where the
/// form isn't tail. It is plainly conditioned for what the form is.
///
/// After an error the pool and the signature may have got some of this. What was there stays, then too.
///
/// # Errors
///
/// `NotTail` only by the method `Regular` where a summand has two calls, with the number of the first one, from 1 over the equations in
/// their order.
pub fn encode_form(
    alloc: Global,
    form: &Greibach,
    method: Method,
    sig: &mut Signature,
    pool: &mut Pool,
) -> Result<Linear, EncodeFault>
    requires form { FormFits sig.old pool.old.trees (plain_form form.now) }
    requires inhabited { NoSortIsEmpty (data_meant sig.old) }
    requires constants { AreConstants sig.old pool.old.constants }
    requires names { HasUsableNames sig.old }
    ensures stands { OnOk result (IsSignature sig.new) }
    ensures inhabited { OnOk result (NoSortIsEmpty (data_meant sig.new)) }
    ensures grown { IsGrown sig.old sig.new }
    ensures kept { Extends pool.old.trees pool.new.trees }
    ensures constants { AreConstants sig.new pool.new.constants }
    ensures encoded { IfOk result (λ made. IsEncodedBy method sig.old pool.old sig.new pool.new (plain_form form.now) (plain_linear made)) }
    ensures leads { IfOk result (λ made. LeadsFromForm sig.old sig.new pool.new.trees (plain_form form.now) (plain_linear made)) }
    ensures plain { IfOk result (λ made. EncodesPlainly sig.old sig.new pool.new (plain_form form.now) (plain_linear made)) }
    ensures tail { OnOk result (IsTailFor method (plain_form form.now)) }
    ensures refused { IfErr result (IsMethodFaultOf method (plain_form form.now)) }
{
    if method.uses_stack(form) {
        let made = encode_with_stack(alloc, form, sig, pool)?;
        Ok(made)
    } else {
        encode_with_columns(alloc, form, sig, pool)
    }
}
