//! Other variables with the names and sorts of given ones.

ghost use Rattle.std.specs.Prelude.{IfOk};
ghost use Rattle.std.specs.List.{All};
ghost use Rattle.data_theory.specs.WholeSignatures.{IsSignature};
ghost use Rattle.lps_core.specs.Fitting.{IsVariable};
ghost use Rattle.lps_core.specs.Naming.{GrowsByNames};
ghost use Rattle.greibach.specs.RenewedVariables.{AreRenewed, IsRenewed};

use data_theory::{NoMemory, Signature, VarId};
use std::alloc::Global;

/// Another variable with the name and the sort of a given one.
pub fn renew(sig: &mut Signature, var: VarId) -> Result<VarId, NoMemory>
    requires variable { IsVariable sig.old var }
    requires stands { IsSignature sig.old }
    ensures renewed { IfOk result (λ other. IsRenewed sig.old var sig.new other) }
    ensures grown { GrowsByNames sig.old sig.new }
{
    let name = sig.var_name(var);
    let sort = sig.var_sort(var);
    Ok(sig.add_var(name, sort)?)
}

/// Other variables with the names and sorts of these.
pub fn renewed(alloc: Global, sig: &mut Signature, vars: &[VarId]) -> Result<Vec<VarId>, NoMemory>
    requires variables { All (IsVariable sig.old) vars.now }
    requires stands { IsSignature sig.old }
    ensures renewed { IfOk result (λ others. AreRenewed sig.old vars.now sig.new others.items) }
    ensures grown { GrowsByNames sig.old sig.new }
{
    let mut others = Vec::new(alloc);
    for var in vars {
        others.push(renew(sig, *var)?)?;
    }
    Ok(others)
}
