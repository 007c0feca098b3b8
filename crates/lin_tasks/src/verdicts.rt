//! The task `replay`: the verdict of the linear process of a text on a trace.
ghost use Rattle.std.specs.Prelude.{◌≡◌, ℕ, List, map, IfErr, IfOk, IsErrOf};
ghost use Rattle.mcrl2_text.specs.Faults.{Rose};
ghost use Rattle.mcrl2_syntax.specs.Declarations.{spec_of};
ghost use Rattle.process_terms.specs.PlainProcesses.{plain_equation};
ghost use Rattle.lps_core.specs.Fitting.{Fits};
ghost use Rattle.lps_core.specs.PlainLinears.{plain_linear};
ghost use Rattle.trace_replay.specs.ReadingFaults.{IsTraceFault};
ghost use Rattle.lin_driver.specs.Eliminations.{equations_at, equations_in, CanRewrite};
ghost use Rattle.lin_driver.specs.Linearised.{IsMadeOf};
ghost use Rattle.lin_driver.specs.LinearOfTexts.{IsLinearOf};
ghost use Rattle.lin_driver.specs.declared.ending.Ending.{Ending};
ghost use Rattle.lin_driver.specs.declared.methods.Method.{Method};
ghost use Rattle.lin_refusals.specs.Stops.{IsTraceStop};
ghost use Rattle.lin_tasks.specs.ShownVerdicts.{status_of_verdict, verdict_line, IsReplayedAsTold, ShowsVerdict};

use data_rewriter::Rewriter;
use data_theory::Signature;
use lin_answers::{Answer, Status};
use lin_driver::Linearised;
use lin_refusals::{Stop, numbered};
use lps_core::Linear;
use mcrl2_text::{Shelf, load};
use number_rules::NumberRules;
use number_rules::operations::exact;
use std::alloc::{AllocError, Global};
use term_pool::{Pool, Theory};
use trace_replay::{ReplayFault, Verdict};

/// The line of a verdict.
fn verdict_line(alloc: Global, verdict: Verdict) -> Result<Vec<u8>, AllocError>
    ensures { IfOk result (λ line. line.items ≡ verdict_line verdict) }
{
    match verdict {
        Verdict::Accepted => Vec::from_slice(alloc, b"accepted\n"),
        Verdict::Rejected(number) => numbered(alloc, b"rejected ", number),
        Verdict::Undecided(number) => numbered(alloc, b"undecided ", number),
    }
}

/// The status of a verdict.
fn status_of_verdict(verdict: Verdict) -> Status
    ensures { result ≡ status_of_verdict verdict }
{
    match verdict {
        Verdict::Accepted => Status::Done,
        Verdict::Rejected(_) => Status::No,
        Verdict::Undecided(_) => Status::Undecided,
    }
}

/// The verdict of a linear process on a trace, as it is shown.
fn shown_verdict(
    alloc: Global,
    sig: &Signature,
    pool: &mut Pool,
    theory: &Theory,
    lin: &Linear,
    trace: &[u8],
    fuel: u64,
    bound: u64,
) -> Result<Answer, ReplayFault>
    requires fits { Fits sig.now pool.old.trees (plain_linear lin.now) }
    requires equations { CanRewrite sig.now pool.old.trees theory.now }
    ensures shown { IfOk result (λ answer. ShowsVerdict sig.now (equations_in sig.now pool.old.trees theory.now) fuel bound pool.old.trees (plain_linear lin.now) trace.now answer.status answer.text.items) }
    ensures bad_trace { IfErr result (IsTraceFault sig.now trace.now) }
{
    let rules = NumberRules::new(exact);
    let mut rewriter = Rewriter::new(alloc, sig, pool, theory, rules)?;
    let verdict = trace_replay::replay(alloc, lin, sig, pool, &mut rewriter, trace, fuel, bound)?;
    let text = verdict_line(alloc, verdict)?;
    Ok(Answer {
        text,
        status: status_of_verdict(verdict),
    })
}

/// The verdict of the linear process that was made of a text on a trace, as it is shown.
fn verdict_of(
    alloc: Global,
    made: Linearised,
    trace: &[u8],
    fuel: u64,
    bound: u64,
) -> Result<Answer, ReplayFault>
    requires { (ending : Ending) × (text : List ℕ) × IsMadeOf ending text (spec_of made.spec) made.sig made.pool.trees (map plain_equation made.theory.equations.items) made.name (plain_linear made.lin) }
    ensures shown { IfOk result (λ answer. ShowsVerdict made.sig (equations_at made.sig made.pool.trees (map plain_equation made.theory.equations.items)) fuel bound made.pool.trees (plain_linear made.lin) trace.now answer.status answer.text.items) }
    ensures bad_trace { IfErr result (IsTraceFault made.sig trace.now) }
{
    let Linearised {
        spec: _,
        sig,
        pool,
        theory,
        name: _,
        lin,
        components: _,
    } = made;
    let mut pool = pool;
    shown_verdict(alloc, &sig, &mut pool, &theory, &lin, trace, fuel, bound)
}

/// The verdict of the linear process that was made of a text on the trace that a shelf has under a name, as it is shown.
pub fn verdict_on_file<H: Shelf>(
    alloc: Global,
    made: Linearised,
    shelf: &mut H,
    name: &str,
    fuel: u64,
    bound: u64,
) -> Result<Answer, Stop>
    requires { (ending : Ending) × (text : List ℕ) × IsMadeOf ending text (spec_of made.spec) made.sig made.pool.trees (map plain_equation made.theory.equations.items) made.name (plain_linear made.lin) }
    ensures replayed { IfOk result (λ answer. (ending : Ending) (method : Method) (text : List ℕ)
        → IsLinearOf ending method text (spec_of made.spec) made.sig made.pool (map plain_equation made.theory.equations.items) made.name (plain_linear made.lin) made.components
        → IsReplayedAsTold ending method fuel bound text (H.text_of shelf.old name.now) answer.status answer.text.items) }
    ensures stopped { IfErr result (λ stop. (ending : Ending) (method : Method) (text : List ℕ)
        → IsLinearOf ending method text (spec_of made.spec) made.sig made.pool (map plain_equation made.theory.equations.items) made.name (plain_linear made.lin) made.components
        → IsTraceStop ending method text (H.text_of shelf.old name.now) stop) }
    ensures read_fault { IsErrOf result Stop.ReadFault → Rose (H.faults shelf.old) (H.faults shelf.new) }
{
    let trace = load(alloc, shelf, name)?;
    match verdict_of(alloc, made, &trace, fuel, bound) {
        Ok(answer) => Ok(answer),
        Err(fault) => Err(Stop::for_trace(alloc, fault)),
    }
}
