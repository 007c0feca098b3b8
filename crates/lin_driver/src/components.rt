//! The linear processes of the components of a network.

ghost use Rattle.std.specs.Prelude.{◌≡◌, ◌++◌, ◌∷◌, [], IfErr, IfOk, OnOk, map};
ghost use Rattle.std.specs.List.{All, AllZip};
ghost use Rattle.data_theory.specs.IdTerms.{IsGrown};
ghost use Rattle.term_pool.specs.Pools.{Extends};
ghost use Rattle.process_terms.specs.PlainProcesses.{plain_component, plain_model};
ghost use Rattle.process_terms.specs.SignatureEntries.{entries_of};
ghost use Rattle.lps_core.specs.PlainLinears.{plain_linear};
ghost use Rattle.greibach.specs.PlainComponents.{written_from};
ghost use Rattle.lin_driver.specs.AddedSorts.{NeedsNoStack};
ghost use Rattle.lin_driver.specs.Faults.{IsModelFaultBy};
ghost use Rattle.lin_driver.specs.KeptTexts.{KeepsComponent};
ghost use Rattle.lin_driver.specs.LinearLeaves.{AreLeavesMade, IsLeafFaultOf, IsLeafMade, IsLeafOf, IsLeavesFaultOf, IsReady};
ghost use Rattle.lin_driver.specs.PlainlyMade.{ArePlainLeaves, IsPlainFor};

use crate::fault::ModelFault;
use crate::form_encoding::encode_form;
use crate::methods::Method;
use data_theory::{NoMemory, Signature};
use greibach::normal_form;
use guard_check::Guarded;
use lps_core::{Linear, signature_stands};
use process_terms::Component;
use std::alloc::Global;
use std::collections::VecDeque;
use term_pool::Pool;

/// The linear process of a component with this number, by a method. Where the component is a call of a definition in the shape of a linear
/// process, and the method isn't `Stack`, it keeps that definition.
///
/// # Errors
///
/// `NotTail` only by the method `Regular` where the component's form has a summand with two calls, with the number of the first one.
fn linear_of_component(
    alloc: Global,
    guarded: &Guarded<'_>,
    component: &Component,
    number: usize,
    method: Method,
    sig: &mut Signature,
    pool: &mut Pool,
) -> Result<Linear, ModelFault>
    requires ready { IsReady sig.old pool.old (plain_model guarded.now.model.now) }
    requires leaf { IsLeafOf sig.old pool.old.trees (plain_model guarded.now.model.now) (plain_component component.now) }
    ensures grown { IsGrown sig.old sig.new }
    ensures kept { Extends pool.old.trees pool.new.trees }
    ensures plain { IfOk result (λ made. IsPlainFor sig.old sig.new pool.new (written_from (entries_of sig.old pool.old.trees) (plain_model guarded.now.model.now) (plain_component component.now)) (plain_linear made)) }
    ensures sorts { IfOk result (λ _. NeedsNoStack method (plain_model guarded.now.model.now) (plain_component component.now) → sig.new.sorts ≡ sig.old.sorts) }
    ensures keeps { IfOk result (λ made. KeepsComponent method (entries_of sig.new pool.new.trees) (plain_model guarded.now.model.now) (plain_component component.now) (plain_linear made)) }
    ensures made { IfOk result (λ made. IsLeafMade method sig.old pool.old sig.new pool.new (plain_model guarded.now.model.now) (plain_component component.now) (plain_linear made)) }
    ensures refused { IfErr result (IsLeafFaultOf (plain_model guarded.now.model.now) (plain_component component.now) number) }
    ensures by { IfErr result (IsModelFaultBy method) }
{
    signature_stands(sig);
    let form = normal_form(alloc, guarded, sig, pool, component)?;
    match encode_form(alloc, &form, method, sig, pool) {
        Ok(linear) => Ok(linear),
        Err(fault) => Err(ModelFault::of_component(number, fault)),
    }
}

/// Puts a linear process behind the others.
fn put_last(made: &mut VecDeque<Linear>, linear: Linear) -> Result<(), NoMemory>
    ensures { OnOk result (map plain_linear made.new.items ≡ map plain_linear made.old.items ++ plain_linear linear ∷ []) }
{
    Ok(made.push_back(linear)?)
}

/// The linear processes of components by a method, in their order.
///
/// # Errors
///
/// `NotTail` only by the method `Regular` where a component's form has a summand with two calls, with the number of the first such
/// component and that of the first such summand of its form.
pub(crate) fn linear_components(
    alloc: Global,
    guarded: &Guarded<'_>,
    components: &[Component],
    method: Method,
    sig: &mut Signature,
    pool: &mut Pool,
) -> Result<VecDeque<Linear>, ModelFault>
    requires ready { IsReady sig.old pool.old (plain_model guarded.now.model.now) }
    requires leaves { All (IsLeafOf sig.old pool.old.trees (plain_model guarded.now.model.now)) (map plain_component components.now) }
    ensures grown { IsGrown sig.old sig.new }
    ensures kept { Extends pool.old.trees pool.new.trees }
    ensures plain { IfOk result (λ made. ArePlainLeaves sig.old pool.old sig.new pool.new (plain_model guarded.now.model.now) (map plain_component components.now) (map plain_linear made.items)) }
    ensures sorts { IfOk result (λ _. All (NeedsNoStack method (plain_model guarded.now.model.now)) (map plain_component components.now) → sig.new.sorts ≡ sig.old.sorts) }
    ensures keeps { IfOk result (λ made. AllZip (KeepsComponent method (entries_of sig.new pool.new.trees) (plain_model guarded.now.model.now)) (map plain_component components.now) (map plain_linear made.items)) }
    ensures made { IfOk result (λ made. AreLeavesMade method sig.old pool.old sig.new pool.new (plain_model guarded.now.model.now) (map plain_component components.now) (map plain_linear made.items)) }
    ensures refused { IfErr result (IsLeavesFaultOf (plain_model guarded.now.model.now) (map plain_component components.now)) }
    ensures by { IfErr result (IsModelFaultBy method) }
{
    signature_stands(sig);
    let mut made = VecDeque::new(alloc);
    for (place, component) in components.iter().enumerate() {
        let linear = linear_of_component(alloc, guarded, component, place + 1, method, sig, pool)?;
        put_last(&mut made, linear)?;
    }
    Ok(made)
}
