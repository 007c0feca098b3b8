//! Whether an invariant holds.

ghost use Rattle.std.specs.Prelude.{◌≡◌, ◌++◌, [], ◌∷◌, List, map, IfOk, MatchOption, OnOk};
ghost use Rattle.std.specs.List.{All};
ghost use Rattle.data_theory.specs.Provable.{Equation};
ghost use Rattle.data_theory.specs.Terms.{Term};
ghost use Rattle.data_theory.specs.IdData.{data_meant};
ghost use Rattle.data_theory.specs.IdTrees.{Tree};
ghost use Rattle.data_theory.specs.declared.ids.TermId.{TermId};
ghost use Rattle.term_pool.specs.Pools.{Extends};
ghost use Rattle.number_rules.specs.Rule.{IsExact, rule_of};
ghost use Rattle.data_rewriter.specs.Rewriters as rewriters;
ghost use Rattle.data_rewriter.specs.Rewriters.{number_rules};
ghost use Rattle.data_rewriter.specs.Standing.{listed_at, IsTerm};
ghost use Rattle.process_terms.specs.Meanings.{bound_at};
ghost use Rattle.process_terms.specs.SignatureEntries.{entries_of};
ghost use Rattle.lps_core.specs.Conditions.{parts};
ghost use Rattle.lps_core.specs.Fitting.{Fits, SummandFits};
ghost use Rattle.lps_core.specs.PlainLinears.{plain_linear, plain_summand, summand_of};
ghost use Rattle.lps_invariant.specs.Places.{SolvedPlaceIs};
ghost use Rattle.lps_invariant.specs.Decisions.{IsProvedWhole, IsRefuted};
ghost use Rattle.lps_invariant.specs.Judging.{plain_truths, AreSifted, IsInvariantIn, IsJudgement, IsOpenAt, IsShownWith, LeavesWhatFits, PlaceOf, StartIs};
ghost use Rattle.lps_invariant.specs.JudgingInCode.{ArePartsOf, IsAskedOf, IsFound, IsOpenSummand};
ghost use Rattle.lps_invariant.specs.Keeping.{Keeps};
ghost use Rattle.lps_invariant.specs.declared.judging.Judged.TheVariants.{Unproved};

use crate::deciding::{Found, look_at, open_goal};
use crate::parts::all_parts;
use crate::places::{Place, parts_with, solved_place};
use data_rewriter::{Rewriter, Truth};
use data_theory::{NoMemory, Num, Signature, TermId, VarId};
use lps_core::{Linear, Summand, signature_stands};
use number_rules::NumOp;
use std::alloc::Global;
use term_pool::Pool;

/// What is found of an invariant.
#[derive(Debug, Drop)]
pub enum Judged {
    /// It holds in every state. The linear process is left without the summands that never fire, and for each of the others there
    /// are the answers for what may be assumed there.
    Holds {
        lin: Linear,
        truths: Vec<Vec<Truth>>,
    },
    /// The first place at which it isn't proved, from 0, and the first part of it that isn't proved there, from 1, with the answers
    /// for what may be assumed there and last for that part.
    Unproved {
        place: usize,
        part: usize,
        truths: Vec<Truth>,
    },
}

/// The first place with a goal that isn't proved, the first such goal, and the answers.
#[derive(Drop)]
struct OpenPlace {
    place: usize,
    part: usize,
    truths: Vec<Truth>,
}

/// The summands that stay, and for each of them the answers for what may be assumed there.
#[derive(Drop)]
struct Left {
    summands: Vec<Summand>,
    truths: Vec<Vec<Truth>>,
}

/// Adds a summand that stays.
fn keep(
    alloc: Global,
    left: &mut Left,
    summand: &Summand,
    truths: Vec<Truth>,
) -> Result<(), NoMemory>
    ensures summands { OnOk result (map plain_summand left.new.summands.items ≡ map plain_summand left.old.summands.items ++ plain_summand summand.now ∷ []) }
    ensures truths { OnOk result (plain_truths left.new.truths.items ≡ plain_truths left.old.truths.items ++ truths.items ∷ []) }
{
    left.truths.push(truths)?;
    left.summands.push(summand.copy(alloc)?)?;
    Ok(())
}

/// What is found at the start.
fn look_at_start<F: Fn(NumOp, Num, Num) -> Option<Num>>(
    alloc: Global,
    sig: &Signature,
    pool: &mut Pool,
    rewriter: &mut Rewriter<F>,
    lin: &Linear,
    invariant: &[TermId],
    fuel: u64,
) -> Result<Option<OpenPlace>, NoMemory>
    requires known { (own : List Equation) × rewriters.Fits rewriter.old sig.now own pool.old.trees }
    requires rules { IsExact (F.pre (rule_of (number_rules rewriter.old))) (F.post (rule_of (number_rules rewriter.old))) }
    requires lin { Fits sig.now pool.old.trees (plain_linear lin.now) }
    requires invariant { All (IsTerm sig.now pool.old.trees) invariant.now }
    ensures kept { Keeps sig.now pool.old.trees pool.new.trees rewriter.old rewriter.new }
    ensures start { IfOk result (λ found. (own : List Equation) → rewriters.Fits rewriter.old sig.now own pool.old.trees → (inv : TermId) → ArePartsOf sig.now pool.old.trees inv invariant.now → MatchOption found (StartIs (IsProvedWhole (data_meant sig.now) own fuel) sig.now pool.old.trees (plain_linear lin.now) inv) (λ o. (o.place ≡ 0) × StartIs (IsOpenAt sig.now own fuel pool.new.trees o.part o.truths.items) sig.now pool.old.trees (plain_linear lin.now) inv)) }
{
    let params = lin.params.as_slice();
    let goals = parts_with(alloc, sig, pool, params, invariant, lin.init.as_slice())?;
    let place = Place {
        hypotheses: Vec::new(alloc),
        goals,
    };
    let Some((part, truth)) = open_goal(alloc, sig, pool, rewriter, &place, fuel)? else {
        return Ok(None);
    };
    let mut truths = Vec::new(alloc);
    truths.push(truth)?;
    Ok(Some(OpenPlace {
        place: 0,
        part,
        truths,
    }))
}

/// What is found at a summand.
fn look_at_summand<F: Fn(NumOp, Num, Num) -> Option<Num>>(
    alloc: Global,
    sig: &Signature,
    pool: &mut Pool,
    rewriter: &mut Rewriter<F>,
    params: &[VarId],
    invariant: &[TermId],
    summand: &Summand,
    fuel: u64,
) -> Result<Found, NoMemory>
    requires known { (own : List Equation) × rewriters.Fits rewriter.old sig.now own pool.old.trees }
    requires rules { IsExact (F.pre (rule_of (number_rules rewriter.old))) (F.post (rule_of (number_rules rewriter.old))) }
    requires summand { SummandFits sig.now pool.old.trees params.now (plain_summand summand.now) }
    requires invariant { All (IsTerm sig.now pool.old.trees) invariant.now }
    ensures kept { Keeps sig.now pool.old.trees pool.new.trees rewriter.old rewriter.new }
    ensures found { IfOk result (λ found. (own : List Equation) → rewriters.Fits rewriter.old sig.now own pool.old.trees → (inv : Term) → listed_at sig.now pool.old.trees invariant.now ≡ parts inv → SolvedPlaceIs (IsFound sig.now own fuel pool.new.trees found) (map (bound_at (entries_of sig.now pool.old.trees)) params.now) inv (summand_of (entries_of sig.now pool.old.trees) (plain_summand summand.now))) }
{
    let place = solved_place(alloc, sig, pool, params, invariant, summand)?;
    look_at(alloc, sig, pool, rewriter, &place, fuel)
}

/// The first summand, from 1, with a place that isn't contradictory and has a goal that isn't proved. Those before it that stay
/// are added, with their answers.
fn look_at_summands<F: Fn(NumOp, Num, Num) -> Option<Num>>(
    alloc: Global,
    sig: &Signature,
    pool: &mut Pool,
    rewriter: &mut Rewriter<F>,
    lin: &Linear,
    invariant: &[TermId],
    fuel: u64,
    left: &mut Left,
) -> Result<Option<OpenPlace>, NoMemory>
    requires known { (own : List Equation) × rewriters.Fits rewriter.old sig.now own pool.old.trees }
    requires rules { IsExact (F.pre (rule_of (number_rules rewriter.old))) (F.post (rule_of (number_rules rewriter.old))) }
    requires asked { (ts : List Tree) × (inv : TermId) × IsAskedOf sig.now ts pool.old.trees (plain_linear lin.now) inv invariant.now }
    requires summands { left.old.summands.items ≡ [] }
    requires truths { left.old.truths.items ≡ [] }
    ensures kept { Keeps sig.now pool.old.trees pool.new.trees rewriter.old rewriter.new }
    ensures found { IfOk result (λ found. (own : List Equation) → rewriters.Fits rewriter.old sig.now own pool.old.trees → (ts : List Tree) (inv : TermId) → IsAskedOf sig.now ts pool.old.trees (plain_linear lin.now) inv invariant.now → MatchOption found (AreSifted (λ s answers. PlaceOf (IsShownWith sig.now own fuel pool.new.trees answers) sig.now ts (plain_linear lin.now) inv s) (PlaceOf (IsRefuted (data_meant sig.now) own fuel) sig.now ts (plain_linear lin.now) inv) (plain_linear lin.now).summands (map plain_summand left.new.summands.items) (plain_truths left.new.truths.items)) (λ o. IsOpenSummand sig.now own fuel ts pool.new.trees (plain_linear lin.now) inv o.place o.part o.truths.items)) }
{
    signature_stands(sig);
    let params = lin.params.as_slice();
    for (index, summand) in lin.summands.iter().enumerate() {
        match look_at_summand(alloc, sig, pool, rewriter, params, invariant, summand, fuel)? {
            Found::Contradictory => continue,
            Found::Shown(truths) => keep(alloc, left, summand, truths)?,
            Found::Open(part, truths) => {
                return Ok(Some(OpenPlace {
                    place: index + 1,
                    part,
                    truths,
                }));
            }
        }
    }
    Ok(None)
}

/// The linear process with the summands that stay.
fn with_summands(alloc: Global, lin: &Linear, summands: Vec<Summand>) -> Result<Linear, NoMemory>
    ensures params { IfOk result (λ made. (plain_linear made).params ≡ (plain_linear lin.now).params) }
    ensures init { IfOk result (λ made. (plain_linear made).init ≡ (plain_linear lin.now).init) }
    ensures summands { IfOk result (λ made. (plain_linear made).summands ≡ map plain_summand summands.items) }
{
    Ok(Linear {
        params: lin.params.to_vec(alloc)?,
        init: lin.init.to_vec(alloc)?,
        summands,
    })
}

/// The answer where a place has a goal that isn't proved.
fn unproved(found: OpenPlace) -> Judged
    ensures { result ≡ Unproved found.place found.part found.truths }
{
    let OpenPlace {
        place,
        part,
        truths,
    } = found;
    Judged::Unproved {
        place,
        part,
        truths,
    }
}

/// Whether a term over the parameters is an invariant of a linear process, and what is left of the process where it is.
///
/// Place 0 is the start: there each part of the term has to be shown of the initial terms. Place k is the k-th summand: there the parts
/// of the term and those of its condition may be assumed, and the parts of the term have to be shown of the next terms, if it
/// has any. As long as an assumption is an equality of a variable and a term without it, the first such one is taken away and the
/// term is put in for the variable. What is left is decided term by term, each with this fuel. A place with an assumption that
/// is decided `No` is contradictory: where the term holds, that summand never fires. A part that is one of the assumptions is shown.
///
/// It holds where each place that isn't contradictory shows its parts. The contradictory summands are left out then.
/// After `NoMemory` the pool may have got some terms. What was there stays, then too.
///
/// # Errors
///
/// `NoMemory` where the rewriter has none, or there is none for the result.
pub fn judge<F: Fn(NumOp, Num, Num) -> Option<Num>>(
    alloc: Global,
    lin: &Linear,
    inv: TermId,
    sig: &Signature,
    pool: &mut Pool,
    rewriter: &mut Rewriter<F>,
    fuel: u64,
) -> Result<Judged, NoMemory>
    requires lin { Fits sig.now pool.old.trees (plain_linear lin.now) }
    requires invariant { IsInvariantIn sig.now pool.old.trees (plain_linear lin.now) inv }
    requires known { (own : List Equation) × rewriters.Fits rewriter.old sig.now own pool.old.trees }
    requires rules { IsExact (F.pre (rule_of (number_rules rewriter.old))) (F.post (rule_of (number_rules rewriter.old))) }
    ensures kept { Extends pool.old.trees pool.new.trees }
    ensures rules { number_rules rewriter.new ≡ number_rules rewriter.old }
    ensures fitting { (own : List Equation) → rewriters.Fits rewriter.old sig.now own pool.old.trees → rewriters.Fits rewriter.new sig.now own pool.new.trees }
    ensures fits { IfOk result (λ judged. LeavesWhatFits sig.now pool.new.trees judged) }
    ensures judged { IfOk result (λ judged. (own : List Equation) → rewriters.Fits rewriter.old sig.now own pool.old.trees → IsJudgement sig.now own fuel pool.old.trees pool.new.trees (plain_linear lin.now) inv judged) }
{
    signature_stands(sig);
    let parts = all_parts(alloc, sig, pool, inv)?;
    let invariant = parts.as_slice();
    if let Some(open) = look_at_start(alloc, sig, pool, rewriter, lin, invariant, fuel)? {
        return Ok(unproved(open));
    }
    let mut left = Left {
        summands: Vec::new(alloc),
        truths: Vec::new(alloc),
    };
    let found = look_at_summands(alloc, sig, pool, rewriter, lin, invariant, fuel, &mut left)?;
    if let Some(open) = found {
        return Ok(unproved(open));
    }
    let Left { summands, truths } = left;
    Ok(Judged::Holds {
        lin: with_summands(alloc, lin, summands)?,
        truths,
    })
}
