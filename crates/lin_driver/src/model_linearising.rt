//! The linear process of a specification.

ghost use Rattle.std.specs.Prelude.{◌≡◌, IfErr, IfOk, OnOk, length};
ghost use Rattle.std.specs.List.{All};
ghost use Rattle.data_theory.specs.IdTerms.{IsGrown};
ghost use Rattle.data_theory.specs.Signature.{Sig};
ghost use Rattle.data_theory.specs.WholeSignatures.{IsSignature};
ghost use Rattle.term_pool.specs.Pools.{Extends};
ghost use Rattle.process_terms.specs.PlainProcesses.{plain_component, plain_model};
ghost use Rattle.process_terms.specs.Meanings.{process_of};
ghost use Rattle.process_terms.specs.SignatureEntries.{entries_of};
ghost use Rattle.guard_check.specs.Guards.{IsGuardedModel};
ghost use Rattle.lps_core.specs.CanonicalConditions.{HaveNoNeedlessTrue};
ghost use Rattle.lps_core.specs.Naming.{GrowsByNames};
ghost use Rattle.lps_core.specs.PlainLinears.{plain_linear};
ghost use Rattle.proc_unfold.specs.FittingModels.{IsWellFormed, ModelFits};
ghost use Rattle.proc_unfold.specs.Networks.{network_process, plain_network};
ghost use Rattle.proc_unfold.specs.Parallelism.{IsNetFaultOf, StandsOutsideRecursion};
ghost use Rattle.proc_unfold.specs.Unfolded.{HasItsComponents, IsOpened, IsSameNetwork};
ghost use Rattle.greibach.specs.Surroundings.{HasUsableNames};
ghost use Rattle.lin_driver.specs.AddedSorts.{IsWithoutStacks, NeedsNoStack};
ghost use Rattle.lin_driver.specs.Faults.{IsModelFaultBy};
ghost use Rattle.lin_driver.specs.KeptTexts.{KeepsModel, KeepsNetwork};
ghost use Rattle.lin_driver.specs.Leaves.{leaves, HasLeaves};
ghost use Rattle.lin_driver.specs.LinearLeaves.{IsLeavesFaultOf};
ghost use Rattle.lin_driver.specs.MadeFromLeaves.{IsMadeAlongNetwork, IsMadeFromLeaves};
ghost use Rattle.lin_driver.specs.ModelLinears.{CanBeLinear, CanBeLinearFrom, IsModelFaultOf, IsProcessName, LeadsToLinear};
ghost use Rattle.lin_driver.specs.PlainlyMade.{IsPlainFor, written_in_model};
ghost use Rattle.lin_driver.specs.SettledNetworks.{settled, settled_component, KeepsTheCall};
ghost use Rattle.lin_driver.specs.TakenNames.{HaveIdentifiers};

use crate::components::linear_components;
use crate::composing::compose;
use crate::fault::ModelFault;
use crate::leaves::leaves_of;
use crate::methods::Method;
use crate::scopes::Scope;
use crate::tidying::tidy_conditions;
use crate::variable_names::take_variable_names;
use data_theory::{NameId, NoMemory, Signature};
use guard_check::{Guarded, check};
use lps_core::{Linear, name_sums, signature_stands};
use proc_unfold::{NetFault, Network, unfold};
use process_terms::{Component, Model, Proc};
use std::alloc::Global;
use term_pool::Pool;

/// A fresh name for the process. From then on the names of all variables are taken, too.
fn name_process(alloc: Global, sig: &mut Signature) -> Result<NameId, NoMemory>
    requires { HaveIdentifiers sig.old }
    ensures grown { GrowsByNames sig.old sig.new }
    ensures name { IfOk result (IsProcessName sig.old sig.new) }
    ensures names { OnOk result (HasUsableNames sig.new) }
{
    signature_stands(sig);
    let name = sig.fresh("P")?;
    take_variable_names(alloc, sig, name)?;
    Ok(name)
}

/// A component, and a term that is a call as that call.
fn settled_part(component: Component) -> Component
    ensures { plain_component result ≡ settled_component (plain_component component) }
{
    match component {
        Component::Term(Proc::Call(process, args)) => Component::Call(process, args),
        other => other,
    }
}

/// A network, in which a call isn't a term.
fn settle(network: Network) -> Network
    ensures { plain_network result ≡ settled (plain_network network) }
{
    match network {
        Network::Leaf(component) => Network::Leaf(settled_part(component)),
        Network::Merge(parts) => Network::Merge(parts),
        Network::Op(operator, part) => Network::Op(operator, part),
        Network::LeftMerge(first, second) => Network::LeftMerge(first, second),
        Network::Sync(parts) => Network::Sync(parts),
    }
}

/// The network of a specification. Where `init` is a call that isn't opened, it is that call.
///
/// # Errors
///
/// Those of `unfold`.
fn open_network(alloc: Global, model: &Model, pool: &mut Pool) -> Result<Network, NetFault>
    requires { IsWellFormed pool.old.trees (plain_model model.now) }
    ensures kept { Extends pool.old.trees pool.new.trees }
    ensures constants { pool.new.constants ≡ pool.old.constants }
    ensures opened { IfOk result (λ network. IsOpened (plain_model model.now) pool.new.trees (plain_network network)) }
    ensures same { IfOk result (λ network. (g : Sig) → IsSignature g → ModelFits g pool.old.trees (plain_model model.now) → IsSameNetwork g pool.new.trees (plain_model model.now) (plain_network network)) }
    ensures components { IfOk result (λ network. (g : Sig) → IsSignature g → ModelFits g pool.old.trees (plain_model model.now) → HasItsComponents g pool.new.trees (plain_model model.now) (plain_network network)) }
    ensures call { IfOk result (λ network. KeepsTheCall (plain_model model.now) pool.new.trees (plain_network network)) }
    ensures outside { IfOk result (λ _. StandsOutsideRecursion (plain_model model.now)) }
    ensures refused { IfErr result (IsNetFaultOf (plain_model model.now)) }
{
    match unfold(alloc, model, pool) {
        Ok(network) => Ok(settle(network)),
        Err(fault) => Err(fault),
    }
}

/// The linear process of the network of a specification whose recursion is guarded, by a method, with the number of its components.
///
/// # Errors
///
/// `NotTail` only by the method `Regular` where a component's form has a summand with two calls, with the number of the first such
/// component and that of the first such summand of its form.
fn linear_of_network(
    alloc: Global,
    guarded: &Guarded<'_>,
    network: &Network,
    method: Method,
    sig: &mut Signature,
    pool: &mut Pool,
) -> Result<(Linear, usize), ModelFault>
    requires can { CanBeLinearFrom sig.old pool.old (plain_model guarded.now.model.now) (plain_network network.now) }
    requires opened { IsOpened (plain_model guarded.now.model.now) pool.old.trees (plain_network network.now) }
    ensures grown { IsGrown sig.old sig.new }
    ensures kept { Extends pool.old.trees pool.new.trees }
    ensures linear { IfOk result (λ made. LeadsToLinear sig.old (network_process (entries_of sig.old pool.old.trees) (plain_model guarded.now.model.now) (plain_network network.now)) sig.new pool.new.trees (plain_linear made.0)) }
    ensures plain { IfOk result (λ made. IsPlainFor sig.old sig.new pool.new (written_in_model (entries_of sig.old pool.old.trees) (plain_model guarded.now.model.now)) (plain_linear made.0)) }
    ensures conditions { IfOk result (λ made. HaveNoNeedlessTrue sig.new pool.new.trees (plain_linear made.0)) }
    ensures sorts { IfOk result (λ _. All (NeedsNoStack method (plain_model guarded.now.model.now)) (leaves (plain_network network.now)) → sig.new.sorts ≡ sig.old.sorts) }
    ensures keeps { IfOk result (λ made. KeepsNetwork method (entries_of sig.new pool.new.trees) (plain_model guarded.now.model.now) (plain_network network.now) (plain_linear made.0)) }
    ensures composed { IfOk result (λ made. IsMadeFromLeaves method sig.old pool.old (plain_model guarded.now.model.now) (plain_network network.now) sig.new pool.new.trees (plain_linear made.0)) }
    ensures components { IfOk result (λ made. made.1 ≡ length (leaves (plain_network network.now))) }
    ensures refused { IfErr result (IsLeavesFaultOf (plain_model guarded.now.model.now) (leaves (plain_network network.now))) }
    ensures by { IfErr result (IsModelFaultBy method) }
{
    signature_stands(sig);
    let components = leaves_of(alloc, network)?;
    let mut parts = linear_components(alloc, guarded, components.as_slice(), method, sig, pool)?;
    let composed = compose(alloc, network, &Scope::Everything, &mut parts, sig, pool)?;
    let named = name_sums(alloc, composed, sig, pool)?;
    let tidy = tidy_conditions(alloc, named, pool)?;
    Ok((tidy, components.len()))
}

/// The linear process of a specification by a method, with the name of its process and the number of the components of its network.
///
/// The process gets its name first. Then the components are made linear from the left, then come the products and the operators from the
/// inside, and the sums get their names. A product directly under `allow`, or under `comm` directly under that, and each product directly inside
/// such a one is the product within what can be completed to an allowed set. A `||_` or `|` is the product whose first step is one of the left side alone, or one of both.
/// Last the needless parts `true` of conditions go. The result is plainly conditioned for what the
/// specification writes, none of its conditions of two or more parts has the part `true`, and no sort is added where no component needs a
/// stack. Of a linear text it keeps the parameters, the initial terms and the summands, unless the method is `Stack`.
///
/// # Errors
///
/// Those of `unfold`, exactly as there. Then those of `check`, exactly as there, and `NotTail` only by the method `Regular` where a
/// component's form has a summand with two calls, with the number of the first such component and that of the first such summand of its
/// form.
pub fn linear_of(
    alloc: Global,
    model: &Model,
    method: Method,
    sig: &mut Signature,
    pool: &mut Pool,
) -> Result<(NameId, Linear, usize), ModelFault>
    requires { CanBeLinear sig.old pool.old (plain_model model.now) }
    ensures grown { IsGrown sig.old sig.new }
    ensures kept { Extends pool.old.trees pool.new.trees }
    ensures linear { IfOk result (λ made. LeadsToLinear sig.old (process_of (entries_of sig.new pool.new.trees) (plain_model model.now)) sig.new pool.new.trees (plain_linear made.1)) }
    ensures plain { IfOk result (λ made. IsPlainFor sig.old sig.new pool.new (written_in_model (entries_of sig.new pool.new.trees) (plain_model model.now)) (plain_linear made.1)) }
    ensures conditions { IfOk result (λ made. HaveNoNeedlessTrue sig.new pool.new.trees (plain_linear made.1)) }
    ensures sorts { IfOk result (λ _. IsWithoutStacks method (plain_model model.now) → sig.new.sorts ≡ sig.old.sorts) }
    ensures name { IfOk result (λ made. IsProcessName sig.old sig.new made.0) }
    ensures keeps { IfOk result (λ made. KeepsModel method (entries_of sig.new pool.new.trees) (plain_model model.now) (plain_linear made.1)) }
    ensures composed { IfOk result (λ made. IsMadeAlongNetwork method (plain_model model.now) sig.new pool.new.trees (plain_linear made.1)) }
    ensures components { IfOk result (λ made. HasLeaves (plain_model model.now) made.2) }
    ensures outside { IfOk result (λ _. StandsOutsideRecursion (plain_model model.now)) }
    ensures guarded { IfOk result (λ _. IsGuardedModel (plain_model model.now)) }
    ensures refused { IfErr result (IsModelFaultOf (plain_model model.now)) }
    ensures by { IfErr result (IsModelFaultBy method) }
{
    signature_stands(sig);
    let network = open_network(alloc, model, pool)?;
    let guarded = check(alloc, model)?;
    let name = name_process(alloc, sig)?;
    let (linear, components) = linear_of_network(alloc, &guarded, &network, method, sig, pool)?;
    Ok((name, linear, components))
}
