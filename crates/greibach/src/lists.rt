//! Lists of variables.

ghost use Rattle.std.specs.Prelude.{◌≡◌, ◌++◌, ◌∷◌, [], IfOk};

use data_theory::{NoMemory, VarId};
use std::alloc::Global;

/// Variables with another one behind them.
pub fn with_last(alloc: Global, front: &[VarId], last: VarId) -> Result<Vec<VarId>, NoMemory>
    ensures { IfOk result (λ all. all.items ≡ front.now ++ last ∷ []) }
{
    let mut all = front.to_vec(alloc)?;
    all.push(last)?;
    Ok(all)
}
