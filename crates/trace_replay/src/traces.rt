//! Replaying a trace.

ghost use Rattle.std.specs.Prelude.{◌≡◌, ◌≢◌, [], ◌∷◌, List, Some, cond, false, map, IfErr, IfOk};
ghost use Rattle.data_theory.specs.Provable.{Equation};
ghost use Rattle.number_rules.specs.Rule.{IsExact, rule_of};
ghost use Rattle.term_pool.specs.Pools.{Extends};
ghost use Rattle.data_rewriter.specs.Rewriters.{Fits as FitsPool, number_rules};
ghost use Rattle.process_terms.specs.SignatureEntries.{entries_of};
ghost use Rattle.lps_core.specs.Fitting.{Fits};
ghost use Rattle.lps_core.specs.PlainLinears.{plain_linear, linear_of};
ghost use Rattle.trace_replay.specs.declared.replaying.Verdict.TheVariants.{Rejected, Undecided};
ghost use Rattle.trace_replay.specs.DecidedConditions.{setting};
ghost use Rattle.trace_replay.specs.Keeping.{Keeps};
ghost use Rattle.trace_replay.specs.ReadingFaults.{IsTraceFault};
ghost use Rattle.trace_replay.specs.ReadTraces.{plain_line};
ghost use Rattle.trace_replay.specs.Replays.{Entry, Replays};
ghost use Rattle.trace_replay.specs.States.{meant_states, plain_states, StatesStand};
ghost use Rattle.trace_replay.specs.Verdicts.{IsVerdictOn, LinesAre};

use crate::entering::trace_lines;
use crate::leading::{either, lead};
use crate::reading::Line;
use crate::replaying::{ReplayFault, Verdict};
use crate::states::{States, one_state};
use data_rewriter::Rewriter;
use data_theory::{NoMemory, Num, Signature};
use lps_core::{Linear, signature_stands};
use number_rules::NumOp;
use std::alloc::Global;
use term_pool::Pool;

/// The verdict where no state is left behind the line with this number.
fn verdict_at(number: usize, doubt: bool) -> Verdict
    ensures { result ≡ cond doubt (Undecided number) (Rejected number) }
{
    if doubt {
        return Verdict::Undecided(number);
    }
    Verdict::Rejected(number)
}

/// The verdict on the labels of these lines, from some states on.
fn replay_lines<F: Fn(NumOp, Num, Num) -> Option<Num>>(
    alloc: Global,
    sig: &Signature,
    pool: &mut Pool,
    rewriter: &mut Rewriter<F>,
    lin: &Linear,
    lines: &[Line],
    fuel: u64,
    bound: u64,
    states: &mut States,
) -> Result<Verdict, NoMemory>
    requires known { (own : List Equation) × FitsPool rewriter.old sig.now own pool.old.trees }
    requires rules { IsExact (F.pre (rule_of (number_rules rewriter.old))) (F.post (rule_of (number_rules rewriter.old))) }
    requires lin { Fits sig.now pool.old.trees (plain_linear lin.now) }
    requires lines { (es : List Entry) × LinesAre sig.now pool.old.trees (map plain_line lines.now) es }
    requires states { StatesStand sig.now pool.old.trees states.old }
    requires some { plain_states states.old ≢ [] }
    ensures kept { Keeps sig.now pool.old.trees pool.new.trees rewriter.old rewriter.new }
    ensures verdict { IfOk result (λ verdict. (own : List Equation) (es : List Entry) → FitsPool rewriter.old sig.now own pool.old.trees → LinesAre sig.now pool.old.trees (map plain_line lines.now) es → Replays (setting sig.now own fuel bound) (linear_of (entries_of sig.now pool.old.trees) (plain_linear lin.now)) (meant_states sig.now pool.old.trees states.old) false es verdict) }
{
    signature_stands(sig);
    let mut doubt = false;
    for line in lines {
        let is_open = lead(
            alloc,
            sig,
            pool,
            rewriter,
            lin,
            &line.label,
            fuel,
            bound,
            states,
        )?;
        doubt = either(doubt, is_open);
        if states.is_empty() {
            return Ok(verdict_at(line.number, doubt));
        }
    }
    Ok(Verdict::Accepted)
}

/// Whether a linear process has the steps of a trace. The labels of all lines are read first. From the initial state on, each label leads to all
/// states to which a summand can do it: it is paired with the label by names and sorts in each way, for each combination of the first `bound`
/// values of its sums, and its condition and the equalities of the paired arguments are decided, each with its own fuel. Nothing is added to the
/// signature, and the pool keeps every old entry; nothing is asked of its other terms.
///
/// # Errors
///
/// `BadTrace` with the number of the first line that isn't blank and spells no closed, typed label. `NoMemory` comes only where
/// memory runs out.
pub fn replay<F: Fn(NumOp, Num, Num) -> Option<Num>>(
    alloc: Global,
    lin: &Linear,
    sig: &Signature,
    pool: &mut Pool,
    rewriter: &mut Rewriter<F>,
    trace: &[u8],
    fuel: u64,
    bound: u64,
) -> Result<Verdict, ReplayFault>
    requires known { (own : List Equation) × FitsPool rewriter.old sig.now own pool.old.trees }
    requires rules { IsExact (F.pre (rule_of (number_rules rewriter.old))) (F.post (rule_of (number_rules rewriter.old))) }
    requires lin { Fits sig.now pool.old.trees (plain_linear lin.now) }
    ensures kept { Extends pool.old.trees pool.new.trees }
    ensures rules { number_rules rewriter.new ≡ number_rules rewriter.old }
    ensures fits { (own : List Equation) → FitsPool rewriter.old sig.now own pool.old.trees → FitsPool rewriter.new sig.now own pool.new.trees }
    ensures verdict { IfOk result (λ verdict. (own : List Equation) → FitsPool rewriter.old sig.now own pool.old.trees → IsVerdictOn (setting sig.now own fuel bound) pool.old.trees (plain_linear lin.now) trace.now verdict) }
    ensures bad_trace { IfErr result (IsTraceFault sig.now trace.now) }
{
    signature_stands(sig);
    let lines = trace_lines(alloc, sig, pool, trace)?;
    let mut states = one_state(alloc, lin.init.as_slice())?;
    let verdict = replay_lines(
        alloc,
        sig,
        pool,
        rewriter,
        lin,
        lines.as_slice(),
        fuel,
        bound,
        &mut states,
    )?;
    Ok(verdict)
}
