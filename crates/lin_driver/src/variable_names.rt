//! The names of variables are taken.

ghost use Rattle.std.specs.Prelude.{◌≡◌, ◌≤◌, ◌<◌, length, OnOk};
ghost use Rattle.lps_core.specs.Fitting.{HasTakenName, IsVariable};
ghost use Rattle.lps_core.specs.Naming.{GrowsByNames};
ghost use Rattle.lin_driver.specs.TakenNames.{HasIdentifierText, HaveIdentifiers, HaveTakenNames};

use data_theory::{NameId, NoMemory, Signature, SortId, VarId};
use lps_core::signature_stands;
use std::alloc::Global;

/// Takes the name of a variable.
fn take_name_of(alloc: Global, sig: &mut Signature, var: VarId) -> Result<(), NoMemory>
    requires { IsVariable sig.old var }
    ensures grown { GrowsByNames sig.old sig.new }
    ensures variables { sig.new.variables ≡ sig.old.variables }
    ensures taken { OnOk result (HasTakenName sig.new var) }
{
    signature_stands(sig);
    let names = sig.names();
    let text = String::from_str(alloc, names.text(sig.var_name(var)))?;
    let _ = sig.take_name(text.as_str())?;
    Ok(())
}

/// Takes the names of the variables with numbers below this one.
fn take_names_below(alloc: Global, sig: &mut Signature, count: usize) -> Result<(), NoMemory>
    requires { count ≤ length sig.old.variables }
    ensures grown { GrowsByNames sig.old sig.new }
    ensures variables { sig.new.variables ≡ sig.old.variables }
    ensures taken { OnOk result (HaveTakenNames sig.new count) }
{
    signature_stands(sig);
    for number in 0..count {
        take_name_of(alloc, sig, VarId(number))?;
    }
    Ok(())
}

/// Takes the names of all variables. A further variable under the given name tells how many there are.
pub(crate) fn take_variable_names(
    alloc: Global,
    sig: &mut Signature,
    name: NameId,
) -> Result<(), NoMemory>
    requires { name.0 < length sig.old.texts }
    ensures grown { GrowsByNames sig.old sig.new }
    ensures taken { OnOk result (HaveTakenNames sig.new (length sig.new.variables)) }
    ensures named { OnOk result (HasIdentifierText sig.old name → HaveIdentifiers sig.old → HaveIdentifiers sig.new) }
{
    signature_stands(sig);
    let last = sig.add_var(name, SortId(0))?;
    take_names_below(alloc, sig, last.0)?;
    take_name_of(alloc, sig, last)
}
