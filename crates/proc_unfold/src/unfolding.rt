//! The network of a specification.

ghost use Rattle.std.specs.Prelude.{◌≡◌, IfOk, IfErr};
ghost use Rattle.data_theory.specs.Signature.{Sig};
ghost use Rattle.data_theory.specs.WholeSignatures.{IsSignature};
ghost use Rattle.term_pool.specs.Pools.{Extends};
ghost use Rattle.process_terms.specs.PlainProcesses.{plain_model};
ghost use Rattle.proc_unfold.specs.Parallelism.{IsNetFaultOf, StandsOutsideRecursion};
ghost use Rattle.proc_unfold.specs.FittingModels.{IsWellFormed, ModelFits};
ghost use Rattle.proc_unfold.specs.Networks.{plain_network};
ghost use Rattle.proc_unfold.specs.Unfolded.{IsOpened, IsUnfolded, IsSameNetwork, HasItsComponents};

use crate::faults::NetFault;
use crate::networks::Network;
use crate::opening::Opening;
use crate::outside::outside_recursion;
use crate::room::has_room;
use process_terms::Model;
use std::alloc::Global;
use term_pool::Pool;

/// The network of a specification whose parallelism stands outside recursion: in `init`, each call of a process that has or
/// reaches a parallel operator is replaced by its body with the arguments put in, until no such call is left.
///
/// Beside the new terms the pool stays as it is. The time is that of writing the network, which may be twice as large for each
/// process on the way (`A = B || B; B = C || C; ..`), and of following the calls that lead to each part.
///
/// # Errors
///
/// Those of [`outside_recursion`](crate::outside_recursion), exactly as there. `NoMemory` comes also where the network nests deeper
/// than the stack has room for, which it may since each name on the way adds to it.
pub fn unfold(alloc: Global, model: &Model, pool: &mut Pool) -> Result<Network, NetFault>
    requires { IsWellFormed pool.old.trees (plain_model model.now) }
    ensures kept { Extends pool.old.trees pool.new.trees }
    ensures constants { pool.new.constants ≡ pool.old.constants }
    ensures opened { IfOk result (λ network. IsOpened (plain_model model.now) pool.new.trees (plain_network network)) }
    ensures unfolded { IfOk result (λ network. (g : Sig) → IsSignature g → ModelFits g pool.old.trees (plain_model model.now) → IsUnfolded g pool.new.trees (plain_model model.now) (plain_network network)) }
    ensures same { IfOk result (λ network. (g : Sig) → IsSignature g → ModelFits g pool.old.trees (plain_model model.now) → IsSameNetwork g pool.new.trees (plain_model model.now) (plain_network network)) }
    ensures components { IfOk result (λ network. (g : Sig) → IsSignature g → ModelFits g pool.old.trees (plain_model model.now) → HasItsComponents g pool.new.trees (plain_model model.now) (plain_network network)) }
    ensures outside { IfOk result (λ _. StandsOutsideRecursion (plain_model model.now)) }
    ensures refused { IfErr result (IsNetFaultOf (plain_model model.now)) }
{
    let found = outside_recursion(alloc, model)?;
    if !has_room(alloc, model, &found)? {
        return Err(NetFault::NoMemory);
    }
    let opening = Opening {
        model,
        found: &found,
    };
    let count = model.procs.len();
    Ok(opening.open(alloc, pool, &model.init, count, &[])?)
}
