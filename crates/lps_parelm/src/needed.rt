//! Parameters that are needed.

ghost use Rattle.std.specs.Prelude.{◌≡◌, length, IfOk};
ghost use Rattle.std.specs.List.{All};
ghost use Rattle.data_theory.specs.Signature.{Sig};
ghost use Rattle.data_theory.specs.WholeSignatures.{IsSignature};
ghost use Rattle.term_pool.specs.HeadTrees.{AreIn};
ghost use Rattle.term_pool.specs.Pools.{Extends};
ghost use Rattle.lps_core.specs.Fitting.{Fits};
ghost use Rattle.lps_core.specs.PlainLinears.{plain_linear};
ghost use Rattle.lps_core.specs.TreeSummands.{IsSummandIn};
ghost use Rattle.lps_parelm.specs.Needed.{IsWithoutTheUnneeded};
ghost use Rattle.lps_parelm.specs.Uses.{AreMarked, HaveNextTerms};

use crate::keeping::keep_marked;
use crate::uses::{marks_of, parameter_terms, shown_terms, use_graph};
use data_theory::{NoMemory, TermId};
use graphs::reachable;
use lps_core::Linear;
use std::alloc::Global;
use term_pool::Pool;

/// Marks those of the parameters, given by their terms, that are needed.
fn mark_needed(
    alloc: Global,
    pool: &Pool,
    lin: &Linear,
    params: &[TermId],
) -> Result<Vec<bool>, NoMemory>
    requires within { AreIn pool.now.trees params.now }
    requires summands { All (IsSummandIn pool.now.trees) (plain_linear lin.now).summands }
    requires next { HaveNextTerms (length params.now) (plain_linear lin.now).summands }
    ensures { IfOk result (λ marks. AreMarked pool.now.trees params.now (plain_linear lin.now).summands marks.items) }
{
    let uses = use_graph(alloc, pool, lin, params)?;
    let shown = shown_terms(alloc, lin)?;
    let reached = reachable(alloc, uses.as_slice(), shown.as_slice())?;
    marks_of(alloc, reached.as_slice(), params)
}

/// The linear process without the parameters that aren't needed, and without their initial and next terms (mCRL2 tool set,
/// `lpsparelm`). It takes time linear in the process and the pool.
///
/// # Errors
///
/// `NoMemory` where there is none for the result. The pool may have got the terms of parameters then, too.
pub fn eliminate(alloc: Global, lin: Linear, pool: &mut Pool) -> Result<Linear, NoMemory>
    requires { (g : Sig) × IsSignature g × Fits g pool.old.trees (plain_linear lin) }
    ensures kept { Extends pool.old.trees pool.new.trees }
    ensures constants { pool.new.constants ≡ pool.old.constants }
    ensures fits { IfOk result (λ made. (g : Sig) → IsSignature g → Fits g pool.old.trees (plain_linear lin) → Fits g pool.new.trees (plain_linear made)) }
    ensures needed { IfOk result (λ made. (g : Sig) → IsSignature g → Fits g pool.old.trees (plain_linear lin) → IsWithoutTheUnneeded g pool.new.trees (plain_linear lin) (plain_linear made)) }
{
    let params = parameter_terms(alloc, pool, lin.params.as_slice())?;
    let marks = mark_needed(alloc, pool, &lin, params.as_slice())?;
    keep_marked(alloc, &lin, marks.as_slice())
}
