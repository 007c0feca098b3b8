//! New variables for the side that gives way.

ghost use Rattle.std.specs.Prelude.{◌≡◌, ◌⊎◌, ◌↔◌, ◌<◌, ◌++◌, ◌∷◌, [], length, map, IfOk, OnOk, IsTrue};
ghost use Rattle.std.specs.List.{All, Contains};
ghost use Rattle.data_theory.specs.declared.ids.VarId.{VarId};
ghost use Rattle.data_theory.specs.WholeSignatures.{IsSignature};
ghost use Rattle.data_theory.specs.Signature.{with_variable};
ghost use Rattle.lps_core.specs.Fitting.{sort_of_variable, IsVariable};
ghost use Rattle.lps_core.specs.Naming.{GrowsByNames};
ghost use Rattle.lps_core.specs.PlainLinears.{plain_linear, plain_summand};
ghost use Rattle.summand_expander.specs.Renewals.{all_sums, AreRenewed, GivesWay, HasVariable, OneIsRenewed};

use crate::sides::Renewal;
use data_theory::{NameId, NoMemory, Signature, VarId};
use indexmap::IndexSet;
use lps_core::{Linear, add_variable_names, fresh_from, has_name};
use std::alloc::Global;

/// The sums of all summands, in their order.
fn sums_of(alloc: Global, lin: &Linear) -> Result<Vec<VarId>, NoMemory>
    ensures { IfOk result (λ sums. sums.items ≡ all_sums (map plain_summand lin.now.summands.items)) }
{
    let mut sums = Vec::new(alloc);
    for summand in &lin.summands {
        sums.extend_from_slice(summand.sums.as_slice())?;
    }
    Ok(sums)
}

/// Adds variables to a set.
fn add_all(vars: &[VarId], set: &mut IndexSet<VarId>) -> Result<(), NoMemory>
    ensures { OnOk result ((v : VarId) → Contains set.new.keys v ↔ (Contains set.old.keys v ⊎ Contains vars.now v)) }
{
    for var in vars {
        set.insert(*var)?;
    }
    Ok(())
}

/// The variables of a linear process.
fn variables_of(alloc: Global, lin: &Linear) -> Result<IndexSet<VarId>, NoMemory>
    ensures { IfOk result (λ set. (v : VarId) → Contains set.keys v ↔ HasVariable (plain_linear lin.now) v) }
{
    let sums = sums_of(alloc, lin)?;
    let mut set = IndexSet::new(alloc);
    add_all(lin.params.as_slice(), &mut set)?;
    add_all(sums.as_slice(), &mut set)?;
    Ok(set)
}

/// Whether a variable is among these.
fn has_variable(set: &IndexSet<VarId>, var: VarId) -> bool
    ensures { IsTrue result ↔ Contains set.now.keys var }
{
    set.contains(&var)
}

/// Gives a variable a new one with this name in its place.
fn add_new(
    sig: &mut Signature,
    var: VarId,
    name: NameId,
    renewal: &mut Renewal,
) -> Result<(), NoMemory>
    requires stands { IsSignature sig.old }
    requires variable { IsVariable sig.old var }
    requires name { name.0 < length sig.old.texts }
    requires absent { ¬ (Contains renewal.old.from.keys var) }
    ensures grown { GrowsByNames sig.old sig.new }
    ensures added { OnOk result (sig.new ≡ with_variable sig.old (record { name = name; sort = sort_of_variable sig.old var })) }
    ensures from { OnOk result (renewal.new.from.keys ≡ renewal.old.from.keys ++ var ∷ []) }
    ensures to { OnOk result (renewal.new.to.items ≡ renewal.old.to.items ++ record { 0 = length sig.old.variables } ∷ []) }
{
    let sort = sig.var_sort(var);
    let new = sig.add_var(name, sort)?;
    renewal.from.insert(var)?;
    renewal.to.push(new)?;
    Ok(())
}

/// Gives a variable a new one in its place where it has one of these names or is one of the others', and has none yet. A name that is
/// one of these becomes a fresh one.
fn renew_one(
    alloc: Global,
    sig: &mut Signature,
    names: &IndexSet<NameId>,
    others: &IndexSet<VarId>,
    var: VarId,
    renewal: &mut Renewal,
) -> Result<(), NoMemory>
    requires stands { IsSignature sig.old }
    requires variable { IsVariable sig.old var }
    ensures grown { GrowsByNames sig.old sig.new }
    ensures renewed { OnOk result (OneIsRenewed (Contains names.now.keys) (Contains others.now.keys) sig.old renewal.old.from.keys renewal.old.to.items var sig.new renewal.new.from.keys renewal.new.to.items) }
{
    if has_variable(&renewal.from, var) {
        return Ok(());
    }
    let name = sig.var_name(var);
    if has_name(names, name) {
        let fresh = fresh_from(alloc, sig, name)?;
        return add_new(sig, var, fresh, renewal);
    }
    if has_variable(others, var) {
        return add_new(sig, var, name, renewal);
    }
    Ok(())
}

/// The same for variables from the left.
fn renew(
    alloc: Global,
    sig: &mut Signature,
    names: &IndexSet<NameId>,
    others: &IndexSet<VarId>,
    vars: &[VarId],
    renewal: &mut Renewal,
) -> Result<(), NoMemory>
    requires stands { IsSignature sig.old }
    requires variables { All (IsVariable sig.old) vars.now }
    ensures grown { GrowsByNames sig.old sig.new }
    ensures renewed { OnOk result (AreRenewed (Contains names.now.keys) (Contains others.now.keys) sig.old renewal.old.from.keys renewal.old.to.items vars.now sig.new renewal.new.from.keys renewal.new.to.items) }
{
    for var in vars {
        renew_one(alloc, sig, names, others, *var, renewal)?;
    }
    Ok(())
}

/// New variables for those of the right side that have to give way to the left one's.
pub fn giving_way(
    alloc: Global,
    left: &Linear,
    right: &Linear,
    sig: &mut Signature,
) -> Result<Renewal, NoMemory>
    requires stands { IsSignature sig.old }
    requires left { All (IsVariable sig.old) left.now.params.items }
    requires params { All (IsVariable sig.old) right.now.params.items }
    requires sums { All (IsVariable sig.old) (all_sums (map plain_summand right.now.summands.items)) }
    ensures grown { GrowsByNames sig.old sig.new }
    ensures gives_way { IfOk result (λ renewal. GivesWay sig.old (plain_linear left.now) (plain_linear right.now) sig.new renewal.from.keys renewal.to.items) }
{
    let others = variables_of(alloc, left)?;
    let mut names = IndexSet::new(alloc);
    add_variable_names(sig, left.params.as_slice(), &mut names)?;
    let mut renewal = Renewal {
        from: IndexSet::new(alloc),
        to: Vec::new(alloc),
    };
    let params = right.params.as_slice();
    renew(alloc, sig, &names, &others, params, &mut renewal)?;
    let sums = sums_of(alloc, right)?;
    let none = IndexSet::new(alloc);
    renew(alloc, sig, &none, &others, sums.as_slice(), &mut renewal)?;
    Ok(renewal)
}
