//! Parameters that aren't in the greatest constant set.

ghost use Rattle.std.specs.Prelude.{◌<◌, ℕ, length, Contains, IfOk};
ghost use Rattle.std.specs.List.{All};
ghost use Rattle.data_theory.specs.Signature.{Sig};
ghost use Rattle.data_theory.specs.WholeSignatures.{IsSignature};
ghost use Rattle.data_theory.specs.declared.ids.TermId.{TermId};
ghost use Rattle.graphs.specs.Graphs.{IsGraph};
ghost use Rattle.term_pool.specs.Pools.{Extends};
ghost use Rattle.lps_core.specs.Fitting.{Fits};
ghost use Rattle.lps_core.specs.PlainLinears.{plain_linear};
ghost use Rattle.lps_constelm.specs.Putting.{LeadTo};
ghost use Rattle.lps_constelm.specs.Rounds.{MarksTheOthers};

use crate::changing::changing;
use data_theory::{NoMemory, TermId};
use graphs::{reachable, reversed};
use lps_core::Linear;
use lps_parelm::{marks_of, parameter_terms, use_graph};
use std::alloc::Global;
use term_pool::Pool;

/// Marks those of the parameters, given by their terms, from which a path leads to one of these nodes.
fn mark_users(
    alloc: Global,
    uses: &[Vec<usize>],
    start: &[usize],
    params: &[TermId],
) -> Result<Vec<bool>, NoMemory>
    requires graph { IsGraph uses.now }
    requires start { (a : ℕ) → Contains start.now a → a < length uses.now }
    requires params { All (λ (param : TermId). param.0 < length uses.now) params.now }
    ensures { IfOk result (λ marks. LeadTo uses.now start.now params.now marks.items) }
{
    let back = reversed(alloc, uses)?;
    let reached = reachable(alloc, back.as_slice(), start)?;
    marks_of(alloc, reached.as_slice(), params)
}

/// Marks the parameters that use one that changes. The others are the greatest constant set.
pub(crate) fn mark_others(
    alloc: Global,
    pool: &mut Pool,
    lin: &Linear,
) -> Result<Vec<bool>, NoMemory>
    requires { (g : Sig) × IsSignature g × Fits g pool.old.trees (plain_linear lin.now) }
    ensures kept { Extends pool.old.trees pool.new.trees }
    ensures marked { IfOk result (λ marks. (g : Sig) → IsSignature g → Fits g pool.old.trees (plain_linear lin.now) → MarksTheOthers g pool.new.trees (plain_linear lin.now) marks.items) }
{
    let params = parameter_terms(alloc, pool, lin.params.as_slice())?;
    let uses = use_graph(alloc, pool, lin, params.as_slice())?;
    let start = changing(alloc, pool, lin, params.as_slice())?;
    mark_users(alloc, uses.as_slice(), start.as_slice(), params.as_slice())
}
