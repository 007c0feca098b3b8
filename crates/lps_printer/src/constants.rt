//! Constants for empty lists.

ghost use Rattle.std.specs.Prelude.{◌≡◌, ◌<◌, length, map, IfOk, OnOk};
ghost use Rattle.std.specs.List.{All};
ghost use Rattle.data_theory.specs.declared.ids.FunId.{FunId};
ghost use Rattle.data_theory.specs.IdTerms.{IsGrown};
ghost use Rattle.lps_printer.specs.AddedConstants.{bare_table, result_in, with_constants, AddsConstant, AddsConstants};

use data_theory::{FunId, NoMemory, Signature};
use std::alloc::Global;

/// Adds a constant of the sort of a function's result, and gives the constant.
fn add_constant(sig: &mut Signature, nil: FunId) -> Result<FunId, NoMemory>
    requires { nil.0 < length sig.old.functions }
    ensures grown { IsGrown sig.old sig.new }
    ensures number { IfOk result (λ constant. constant.0 ≡ length sig.old.functions) }
    ensures added { OnOk result (AddsConstant sig.old (result_in sig.old nil) sig.new) }
{
    let _ = sig.names();
    let sort = sig.sort_of(nil);
    let name = sig.fresh("nil")?;
    sig.add_map(name, sort)
}

/// Adds a constant for each of these `[]`, one after the other. For each function the table has the constant that stands for it,
/// where there is one.
pub(crate) fn add_constants(
    alloc: Global,
    sig: &mut Signature,
    nils: &[FunId],
) -> Result<Vec<Option<FunId>>, NoMemory>
    requires { All (λ (nil : FunId). nil.0 < length sig.old.functions) nils.now }
    ensures grown { IsGrown sig.old sig.new }
    ensures added { OnOk result (AddsConstants sig.old (map (result_in sig.old) nils.now) sig.new) }
    ensures table { IfOk result (λ constants. constants.items ≡ with_constants (length sig.old.functions) nils.now (bare_table sig.old)) }
{
    let mut constants = vec![in alloc; None; sig.fun_count()]?;
    if nils.is_empty() {
        return Ok(constants);
    }
    let _ = sig.take_name("nil")?;
    for nil in nils {
        constants[nil.0] = Some(add_constant(sig, *nil)?);
    }
    Ok(constants)
}
