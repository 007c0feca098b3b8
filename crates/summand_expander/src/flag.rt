//! The flag of a side.

ghost use Rattle.std.specs.Prelude.{IfOk};
ghost use Rattle.lps_core.specs.Naming.{GrowsByNames};
ghost use Rattle.lps_core.specs.PlainLinears.{can_end, plain_linear};
ghost use Rattle.summand_expander.specs.Renewals.{IsFlag};

use data_theory::{NoMemory, Signature, SortId, VarId};
use lps_core::{Linear, signature_stands};

const BOOL: SortId = SortId(0);

/// A new variable of sort Bool for a linear process that can end.
pub fn flag_for(lin: &Linear, sig: &mut Signature) -> Result<Option<VarId>, NoMemory>
    ensures grown { GrowsByNames sig.old sig.new }
    ensures flag { IfOk result (λ flag. IsFlag sig.old (can_end (plain_linear lin.now)) sig.new flag) }
{
    signature_stands(sig);
    if !lin.can_end() {
        return Ok(None);
    }
    let name = sig.fresh("ended")?;
    Ok(Some(sig.add_var(name, BOOL)?))
}
