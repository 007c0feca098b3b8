//! The task `steps`: what the linear process of a text can do first.
ghost use Rattle.std.specs.Prelude.{◌≡◌, ◌≢◌, ℕ, List, map, IfErr, IfOk, OnOk};
ghost use Rattle.data_theory.specs.Provable.{Equation};
ghost use Rattle.number_rules.specs.Rule.{IsExact, rule_of};
ghost use Rattle.term_pool.specs.Pools.{Extends};
ghost use Rattle.data_rewriter.specs.Rewriters.{Fits as FitsPool, number_rules};
ghost use Rattle.data_rewriter.specs.Simplifying.{AreWellFormed};
ghost use Rattle.mcrl2_syntax.specs.Declarations.{spec_of};
ghost use Rattle.process_terms.specs.PlainProcesses.{plain_equation};
ghost use Rattle.lps_core.specs.Fitting.{Fits};
ghost use Rattle.lps_core.specs.PlainLinears.{plain_linear};
ghost use Rattle.lps_simulator.specs.Sessions.{session_linear, session_state, SessionFits};
ghost use Rattle.lin_driver.specs.Accepted.{CanBeLinearised};
ghost use Rattle.lin_driver.specs.Eliminations.{equations_at, equations_in, CanRewrite};
ghost use Rattle.lin_driver.specs.Faults.{IsFaultBy};
ghost use Rattle.lin_driver.specs.Linearised.{IsMadeOf};
ghost use Rattle.lin_driver.specs.Refusals.{IsRefusedWith};
ghost use Rattle.lin_driver.specs.declared.ending.Ending.{Ending};
ghost use Rattle.lin_tasks.specs.Shown.{ShowsOptions, ShowsOptionsIn};
ghost use Rattle.lin_tasks.specs.ShownTexts.{AreShownSteps};

use crate::option_texts::options_text;
use data_rewriter::Rewriter;
use data_theory::{Names, NoMemory, Num, Signature};
use lin_answers::{Answer, status_with};
use lin_driver::{Ending, LinFault, Linearised, Method, linearise_as};
use lps_core::{Linear, signature_stands};
use lps_simulator::Session;
use number_rules::operations::exact;
use number_rules::{NumOp, NumberRules};
use std::alloc::Global;
use term_pool::{Pool, Theory};

/// What a session can do where it stands, as it is shown.
pub(crate) fn options_of_session<F: Fn(NumOp, Num, Num) -> Option<Num>>(
    alloc: Global,
    sig: &Signature,
    pool: &mut Pool,
    rewriter: &mut Rewriter<F>,
    session: &mut Session,
    fuel: u64,
    bound: u64,
) -> Result<Answer, NoMemory>
    requires known { (own : List Equation) × FitsPool rewriter.old sig.now own pool.old.trees × AreWellFormed sig.now own }
    requires rules { IsExact (F.pre (rule_of (number_rules rewriter.old))) (F.post (rule_of (number_rules rewriter.old))) }
    requires session { SessionFits sig.now pool.old.trees session.old }
    ensures kept { OnOk result (Extends pool.old.trees pool.new.trees) }
    ensures shown { IfOk result (λ answer. (own : List Equation) → FitsPool rewriter.old sig.now own pool.old.trees → AreWellFormed sig.now own
        → ShowsOptionsIn sig.now own fuel bound pool.old.trees (session_linear session.old) (session_state session.old) answer.status answer.text.items) }
{
    signature_stands(sig);
    let found = session.options(sig, pool, rewriter, fuel, bound)?;
    let text = options_text(alloc, sig, pool, found)?;
    Ok(Answer {
        text,
        status: status_with(&found.undecided),
    })
}

/// What a linear process can do in its initial state, as it is shown.
fn shown_options(
    alloc: Global,
    sig: &Signature,
    pool: &mut Pool,
    theory: &Theory,
    lin: Linear,
    fuel: u64,
    bound: u64,
) -> Result<Answer, NoMemory>
    requires fits { Fits sig.now pool.old.trees (plain_linear lin) }
    requires equations { CanRewrite sig.now pool.old.trees theory.now }
    ensures { IfOk result (λ answer. ShowsOptions sig.now (equations_in sig.now pool.old.trees theory.now) fuel bound pool.old.trees (plain_linear lin) answer.status answer.text.items) }
{
    let rules = NumberRules::new(exact);
    let mut rewriter = Rewriter::new(alloc, sig, pool, theory, rules)?;
    let mut session = Session::new(alloc, lin)?;
    options_of_session(alloc, sig, pool, &mut rewriter, &mut session, fuel, bound)
}

/// What the linear process that was made of a text can do first, as it is shown.
fn steps_of(alloc: Global, made: Linearised, fuel: u64, bound: u64) -> Result<Answer, NoMemory>
    requires { (ending : Ending) × (text : List ℕ) × IsMadeOf ending text (spec_of made.spec) made.sig made.pool.trees (map plain_equation made.theory.equations.items) made.name (plain_linear made.lin) }
    ensures { IfOk result (λ answer. ShowsOptions made.sig (equations_at made.sig made.pool.trees (map plain_equation made.theory.equations.items)) fuel bound made.pool.trees (plain_linear made.lin) answer.status answer.text.items) }
{
    let Linearised {
        spec: _,
        sig,
        pool,
        theory,
        name: _,
        lin,
        components: _,
    } = made;
    let mut pool = pool;
    shown_options(alloc, &sig, &mut pool, &theory, lin, fuel, bound)
}

/// What the linear process of a text, which is made by a method and ends as it is asked to, can do in its initial state: its moves, for the
/// first `bound` values of each sum, the summands that aren't decided with this fuel, and those with a sum of more values.
///
/// # Errors
///
/// Those of [`linearise_as`] with that method and ending.
pub fn steps(
    alloc: Global,
    text: &[u8],
    names: &mut Names,
    method: Method,
    ending: Ending,
    fuel: u64,
    bound: u64,
) -> Result<Answer, LinFault>
    ensures accepted { OnOk result (CanBeLinearised text.now) }
    ensures shown { IfOk result (λ answer. AreShownSteps ending method fuel bound text.now answer.status answer.text.items) }
    ensures refused { IfErr result (λ fault. fault ≢ LinFault.NoMemory → IsRefusedWith text.now names.new fault) }
    ensures by { IfErr result (IsFaultBy ending method) }
{
    let made = linearise_as(alloc, text, names, method, ending)?;
    let answer = steps_of(alloc, made, fuel, bound)?;
    Ok(answer)
}
