//! Constant parameters that are left out, one greatest set after another.

ghost use Rattle.std.specs.Prelude.{◌≡◌, ◌↔◌, Bool, List, cond, false, true, IfOk};
ghost use Rattle.std.specs.List.{list_any};
ghost use Rattle.data_theory.specs.Provable.{Equation};
ghost use Rattle.data_theory.specs.Signature.{Sig};
ghost use Rattle.data_theory.specs.Terms.{Term};
ghost use Rattle.data_theory.specs.WholeSignatures.{IsSignature};
ghost use Rattle.term_pool.specs.Pools.{Extends};
ghost use Rattle.data_rewriter.specs.Simplifying.{AreWellFormed};
ghost use Rattle.lps_core.specs.Fitting.{Fits};
ghost use Rattle.lps_core.specs.PlainLinears.{plain_linear};
ghost use Rattle.lps_constelm.specs.Eliminating.{IsWithoutConstants};
ghost use Rattle.lps_constelm.specs.Rounds.{IsFirstRound, IsNextRound, MarksTheOthers};
ghost use Rattle.lps_constelm.specs.Runs.{Makes, Runs};

use crate::marking::mark_others;
use crate::putting::without_unmarked;
use crate::simplifying::simplify_linear;
use data_rewriter::Simplifier;
use data_theory::NoMemory;
use lps_core::Linear;
use std::alloc::Global;
use term_pool::Pool;

/// A linear process whose terms were simplified. The parameters that aren't marked are its greatest constant set.
#[derive(Drop)]
struct Round {
    lin: Linear,
    marks: Vec<bool>,
}

/// The linear process with its terms simplified.
fn first_round<S: Simplifier>(
    alloc: Global,
    pool: &mut Pool,
    simp: &mut S,
    lin: &Linear,
) -> Result<Round, NoMemory>
    requires { (g : Sig) × (own : List Equation) × IsSignature g × Fits g pool.old.trees (plain_linear lin.now) × S.fits simp.old g own pool.old.trees × AreWellFormed g own }
    ensures runs { Runs (S.fits simp.old) (S.fits simp.new) (S.simple simp.old) (S.simple simp.new) (λ g. IsSignature g × Fits g pool.old.trees (plain_linear lin.now)) pool.old.trees pool.new.trees }
    ensures made { IfOk result (λ made. Makes (S.fits simp.old) (S.simple simp.old) (λ g. IsSignature g × Fits g pool.old.trees (plain_linear lin.now)) pool.old.trees (λ g own P. IsFirstRound g own P pool.old.trees pool.new.trees (plain_linear lin.now) (plain_linear made.lin) made.marks.items)) }
{
    let made = simplify_linear(alloc, pool, simp, lin)?;
    simp.fits_grown_pools();
    let marks = mark_others(alloc, pool, &made)?;
    Ok(Round { lin: made, marks })
}

/// The linear process without its greatest constant set, and with its terms simplified.
fn next_round<S: Simplifier>(
    alloc: Global,
    pool: &mut Pool,
    simp: &mut S,
    round: &Round,
) -> Result<Round, NoMemory>
    requires { (g : Sig) × (own : List Equation) × IsSignature g × MarksTheOthers g pool.old.trees (plain_linear round.now.lin) round.now.marks.items × S.fits simp.old g own pool.old.trees × AreWellFormed g own }
    ensures runs { Runs (S.fits simp.old) (S.fits simp.new) (S.simple simp.old) (S.simple simp.new) (λ g. IsSignature g × MarksTheOthers g pool.old.trees (plain_linear round.now.lin) round.now.marks.items) pool.old.trees pool.new.trees }
    ensures made { IfOk result (λ made. Makes (S.fits simp.old) (S.simple simp.old) (λ g. IsSignature g × MarksTheOthers g pool.old.trees (plain_linear round.now.lin) round.now.marks.items) pool.old.trees (λ g own P. IsNextRound g own P pool.old.trees pool.new.trees (plain_linear round.now.lin) round.now.marks.items (plain_linear made.lin) made.marks.items)) }
{
    simp.fits_grown_pools();
    let left = without_unmarked(alloc, pool, &round.lin, round.marks.as_slice())?;
    first_round(alloc, pool, simp, &left)
}

/// Whether some parameter isn't marked.
fn has_unmarked(round: &Round) -> bool
    ensures { result ≡ list_any (λ (m : Bool). cond m false true) round.now.marks.items }
{
    round.marks.iter().any(|mark| !*mark)
}

/// The linear process without its constant parameters (mCRL2 tool set, `lpsconstelm`).
///
/// All terms are simplified, the initial ones too. Then, as long as there is a constant set that isn't empty, the greatest one is
/// removed, the initial terms of its parameters are put in for them, and all terms are simplified again. What doesn't change by
/// this stays in its order.
///
/// Finding the greatest set takes time linear in the process and the pool, but for putting the initial terms into each next term.
///
/// After `NoMemory` the pool may have got some of this. What was there stays, then too.
///
/// # Errors
///
/// `NoMemory` where the simplifier has none, or there is none for the result.
pub fn eliminate<S: Simplifier>(
    alloc: Global,
    lin: Linear,
    pool: &mut Pool,
    simp: &mut S,
) -> Result<Linear, NoMemory>
    requires { (g : Sig) × (own : List Equation) × IsSignature g × Fits g pool.old.trees (plain_linear lin) × S.fits simp.old g own pool.old.trees × AreWellFormed g own }
    ensures kept { Extends pool.old.trees pool.new.trees }
    ensures fitting { (g : Sig) (own : List Equation) → IsSignature g → Fits g pool.old.trees (plain_linear lin) → S.fits simp.old g own pool.old.trees → AreWellFormed g own → S.fits simp.new g own pool.new.trees }
    ensures same { (g : Sig) (own : List Equation) (t : Term) → S.simple simp.new g own t ↔ S.simple simp.old g own t }
    ensures fits { IfOk result (λ made. (g : Sig) (own : List Equation) → IsSignature g → Fits g pool.old.trees (plain_linear lin) → S.fits simp.old g own pool.old.trees → AreWellFormed g own → Fits g pool.new.trees (plain_linear made)) }
    ensures eliminated { IfOk result (λ made. (g : Sig) (own : List Equation) → IsSignature g → Fits g pool.old.trees (plain_linear lin) → S.fits simp.old g own pool.old.trees → AreWellFormed g own → IsWithoutConstants g own (S.simple simp.old g own) pool.new.trees (plain_linear lin) (plain_linear made)) }
{
    let mut round = first_round(alloc, pool, simp, &lin)?;
    while has_unmarked(&round) {
        round = next_round(alloc, pool, simp, &round)?;
    }
    let Round { lin: made, .. } = round;
    Ok(made)
}
