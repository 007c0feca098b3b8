//! The summands of a product, once its sides are known.

ghost use Rattle.std.specs.Prelude.{◌≡◌, ◌++◌, List, [], map, IfOk};
ghost use Rattle.std.specs.List.{All};
ghost use Rattle.data_theory.specs.declared.ids.SortId.{SortId};
ghost use Rattle.data_theory.specs.declared.ids.VarId.{VarId};
ghost use Rattle.data_theory.specs.Signature.{Sig};
ghost use Rattle.data_theory.specs.WholeSignatures.{IsSignature};
ghost use Rattle.data_theory.specs.Complete.{IsComplete};
ghost use Rattle.data_theory.specs.IdTables.{IsTable};
ghost use Rattle.term_pool.specs.HeadTrees.{AreIn, IsIn};
ghost use Rattle.term_pool.specs.Pools.{Extends};
ghost use Rattle.process_terms.specs.SignatureEntries.{entries_of};
ghost use Rattle.bisim_laws.specs.BaseStates.{Side as MeantSide};
ghost use Rattle.lps_core.specs.Fitting.{sort_of_variable};
ghost use Rattle.lps_core.specs.PlainLinears.{plain_summand, summand_of};
ghost use Rattle.summand_expander.specs.Drafts.{plain_draft, plain_side};
ghost use Rattle.summand_expander.specs.Product.{product};
ghost use Rattle.summand_expander.specs.SideFits.{FitsWithNames, SideFits};
ghost use Rattle.summand_expander.specs.SideMeanings.{joined_draft, joined_summand, AreJoined, IsDraftIn, IsSideIn, SideMeans};

use crate::drafts::drafts_of;
use crate::sides::{Draft, Side};
use data_theory::NoMemory;
use lps_core::{Summand, conjoined};
use std::alloc::Global;
use term_pool::Pool;

/// The summand of a draft.
fn finished(pool: &mut Pool, draft: Draft) -> Result<Summand, NoMemory>
    requires { AreIn pool.old.trees draft.parts.items }
    ensures kept { Extends pool.old.trees pool.new.trees }
    ensures constants { pool.new.constants ≡ pool.old.constants }
    ensures within { IfOk result (λ summand. IsIn pool.new.trees summand.cond) }
    ensures joined { IfOk result (λ summand. joined_summand pool.new.trees (plain_summand summand) ≡ joined_draft pool.old.trees (plain_draft draft)) }
{
    let cond = conjoined(pool, draft.parts)?;
    Ok(Summand {
        sums: draft.sums,
        cond,
        label: draft.label,
        next: draft.next,
    })
}

/// The summands of drafts.
pub fn all_finished(
    alloc: Global,
    pool: &mut Pool,
    drafts: Vec<Draft>,
) -> Result<Vec<Summand>, NoMemory>
    requires { All (IsDraftIn pool.old.trees) (map plain_draft drafts.items) }
    ensures kept { Extends pool.old.trees pool.new.trees }
    ensures constants { pool.new.constants ≡ pool.old.constants }
    ensures joined { IfOk result (λ made. AreJoined pool.old.trees (map plain_draft drafts.items) pool.new.trees (map plain_summand made.items)) }
{
    let mut made = Vec::new(alloc);
    for draft in drafts {
        made.push(finished(pool, draft)?)?;
    }
    Ok(made)
}

/// The summands of the product of two sides: those of the left side alone, those of the right one alone, and all pairs, the left
/// one outer. Each label and each condition is made once.
///
/// # Errors
///
/// `NoMemory` where there is none for them.
pub fn summands_of(
    alloc: Global,
    left: &Side,
    right: &Side,
    pool: &mut Pool,
) -> Result<Vec<Summand>, NoMemory>
    requires left { IsSideIn pool.old.trees (plain_side left.now) }
    requires right { IsSideIn pool.old.trees (plain_side right.now) }
    ensures kept { Extends pool.old.trees pool.new.trees }
    ensures constants { pool.new.constants ≡ pool.old.constants }
    ensures means { IfOk result (λ made. (g : Sig) → IsTable g → IsComplete g → (a b : MeantSide) → SideMeans (entries_of g pool.old.trees) (plain_side left.now) a → SideMeans (entries_of g pool.old.trees) (plain_side right.now) b → map (summand_of (entries_of g pool.new.trees)) (map plain_summand made.items) ≡ (product a b).summands) }
    ensures fits { IfOk result (λ made. (g : Sig) → IsSignature g → (params : List VarId) (ps qs : List SortId) → SideFits g pool.old.trees ps (plain_side left.now) → SideFits g pool.old.trees qs (plain_side right.now) → map (sort_of_variable g) params ≡ ps ++ qs → All (FitsWithNames g pool.new.trees params) (map plain_summand made.items)) }
{
    let drafts = drafts_of(alloc, left, right)?;
    all_finished(alloc, pool, drafts)
}
