//! The task `steps` behind chosen moves: what the linear process of a text can do where these lead.
ghost use Rattle.std.specs.Prelude.{◌≡◌, ◌++◌, ℕ, List, Some, map, IfErr, IfOk, IfSome, IsErrOf, OnOk};
ghost use Rattle.data_theory.specs.Provable.{Equation};
ghost use Rattle.mcrl2_text.specs.Faults.{Rose};
ghost use Rattle.mcrl2_syntax.specs.Declarations.{spec_of};
ghost use Rattle.number_rules.specs.Rule.{IsExact, rule_of};
ghost use Rattle.data_rewriter.specs.Rewriters.{Fits as FitsPool, number_rules};
ghost use Rattle.data_rewriter.specs.Simplifying.{AreWellFormed};
ghost use Rattle.process_terms.specs.PlainProcesses.{plain_equation};
ghost use Rattle.lps_core.specs.Fitting.{Fits};
ghost use Rattle.lps_core.specs.PlainLinears.{plain_linear, plain_next};
ghost use Rattle.lps_simulator.specs.OptionsInCode.{IsState};
ghost use Rattle.lps_simulator.specs.Sessions.{session_linear, session_state, SessionFits};
ghost use Rattle.chosen_moves.specs.ChosenMoves.{IsChoiceFault};
ghost use Rattle.lin_driver.specs.Eliminations.{equations_at, equations_in, CanRewrite};
ghost use Rattle.lin_driver.specs.Linearised.{IsMadeOf};
ghost use Rattle.lin_driver.specs.LinearOfTexts.{IsLinearOf};
ghost use Rattle.lin_driver.specs.declared.ending.Ending.{Ending};
ghost use Rattle.lin_driver.specs.declared.methods.Method.{Method};
ghost use Rattle.lin_refusals.specs.Stops.{IsChoiceStop};
ghost use Rattle.lin_tasks.specs.ProcessNames.{IsNewProcess};
ghost use Rattle.lin_tasks.specs.ShownAfter.{AreShownAsTold, ShowsBehind, ShowsStepsAfter};

use crate::state_texts::{sorts_of, state_line};
use crate::stepping::options_of_session;
use chosen_moves::{ChoiceFault, follow};
use data_rewriter::Rewriter;
use data_theory::{NameId, NoMemory, Num, Signature, TermId};
use lin_answers::Answer;
use lin_driver::Linearised;
use lin_refusals::Stop;
use lps_core::{Linear, signature_stands};
use lps_simulator::Session;
use mcrl2_text::{Shelf, load};
use number_rules::operations::exact;
use number_rules::{NumOp, NumberRules};
use std::alloc::Global;
use term_pool::{Pool, Theory};

/// What a session can do behind chosen moves, as it is shown, and the state to which these lead from the first one.
fn shown_behind<F: Fn(NumOp, Num, Num) -> Option<Num>>(
    alloc: Global,
    sig: &Signature,
    pool: &mut Pool,
    rewriter: &mut Rewriter<F>,
    session: &mut Session,
    first: Vec<TermId>,
    choices: &[u8],
    fuel: u64,
    bound: u64,
) -> Result<(Answer, Option<Vec<TermId>>), ChoiceFault>
    requires known { (own : List Equation) × FitsPool rewriter.old sig.now own pool.old.trees × AreWellFormed sig.now own }
    requires rules { IsExact (F.pre (rule_of (number_rules rewriter.old))) (F.post (rule_of (number_rules rewriter.old))) }
    requires session { SessionFits sig.now pool.old.trees session.old }
    requires first { session_state session.old ≡ Some first.items }
    ensures state { IfOk result (λ r. IfSome (plain_next r.1) (IsState sig.now pool.new.trees (session_linear session.old).params)) }
    ensures shown { IfOk result (λ r. (own : List Equation) → FitsPool rewriter.old sig.now own pool.old.trees → AreWellFormed sig.now own
        → ShowsBehind sig.now own fuel bound pool.old.trees pool.new.trees (session_linear session.old) (session_state session.old) choices.now (plain_next r.1) r.0.status r.0.text.items) }
    ensures fault { IfErr result (λ fault. (own : List Equation) → FitsPool rewriter.old sig.now own pool.old.trees → AreWellFormed sig.now own
        → IsChoiceFault sig.now own fuel bound (session_linear session.old) choices.now pool.old.trees (session_state session.old) fault) }
{
    signature_stands(sig);
    let last = follow(
        alloc, sig, pool, rewriter, session, first, choices, fuel, bound,
    )?;
    let answer = options_of_session(alloc, sig, pool, rewriter, session, fuel, bound)?;
    Ok((answer, last))
}

/// What a linear process can do behind chosen moves, as it is shown, and the state to which these lead from the initial one.
fn options_after(
    alloc: Global,
    sig: &Signature,
    pool: &mut Pool,
    theory: &Theory,
    lin: Linear,
    choices: &[u8],
    fuel: u64,
    bound: u64,
) -> Result<(Answer, Option<Vec<TermId>>), ChoiceFault>
    requires fits { Fits sig.now pool.old.trees (plain_linear lin) }
    requires equations { CanRewrite sig.now pool.old.trees theory.now }
    ensures state { IfOk result (λ r. IfSome (plain_next r.1) (IsState sig.now pool.new.trees (plain_linear lin).params)) }
    ensures shown { IfOk result (λ r. ShowsBehind sig.now (equations_in sig.now pool.old.trees theory.now) fuel bound pool.old.trees pool.new.trees (plain_linear lin) (Some (plain_linear lin).init) choices.now (plain_next r.1) r.0.status r.0.text.items) }
    ensures fault { IfErr result (IsChoiceFault sig.now (equations_in sig.now pool.old.trees theory.now) fuel bound (plain_linear lin) choices.now pool.old.trees (Some (plain_linear lin).init)) }
{
    let first = lin.init().to_vec(alloc)?;
    let rules = NumberRules::new(exact);
    let mut rewriter = Rewriter::new(alloc, sig, pool, theory, rules)?;
    let mut session = Session::new(alloc, lin)?;
    shown_behind(
        alloc,
        sig,
        pool,
        &mut rewriter,
        &mut session,
        first,
        choices,
        fuel,
        bound,
    )
}

/// Puts bytes behind a text.
fn push_text(text: &mut Vec<u8>, more: &[u8]) -> Result<(), NoMemory>
    ensures { OnOk result (text.new.items ≡ text.old.items ++ more.now) }
{
    text.extend_from_slice(more)?;
    Ok(())
}

/// The state to which chosen moves of a linear process lead, and what it can do there, as it is shown.
fn shown_after(
    alloc: Global,
    sig: &mut Signature,
    pool: &mut Pool,
    theory: &Theory,
    name: NameId,
    lin: Linear,
    choices: &[u8],
    fuel: u64,
    bound: u64,
) -> Result<Answer, ChoiceFault>
    requires name { IsNewProcess sig.old name }
    requires fits { Fits sig.old pool.old.trees (plain_linear lin) }
    requires equations { CanRewrite sig.old pool.old.trees theory.now }
    ensures shown { IfOk result (λ answer. ShowsStepsAfter sig.old (equations_in sig.old pool.old.trees theory.now) fuel bound pool.old.trees name (plain_linear lin) choices.now answer.status answer.text.items) }
    ensures fault { IfErr result (IsChoiceFault sig.old (equations_in sig.old pool.old.trees theory.now) fuel bound (plain_linear lin) choices.now pool.old.trees (Some (plain_linear lin).init)) }
{
    signature_stands(sig);
    let sorts = sorts_of(alloc, sig, lin.params())?;
    let (shown, last) = options_after(alloc, sig, pool, theory, lin, choices, fuel, bound)?;
    let mut text = state_line(alloc, sig, pool, name, sorts, last)?;
    push_text(&mut text, &shown.text)?;
    Ok(Answer {
        text,
        status: shown.status,
    })
}

/// The steps of the linear process that was made of a text behind chosen moves, as they are shown.
fn steps_after_of(
    alloc: Global,
    made: Linearised,
    choices: &[u8],
    fuel: u64,
    bound: u64,
) -> Result<Answer, ChoiceFault>
    requires { (ending : Ending) × (text : List ℕ) × IsMadeOf ending text (spec_of made.spec) made.sig made.pool.trees (map plain_equation made.theory.equations.items) made.name (plain_linear made.lin) }
    ensures shown { IfOk result (λ answer. ShowsStepsAfter made.sig (equations_at made.sig made.pool.trees (map plain_equation made.theory.equations.items)) fuel bound made.pool.trees made.name (plain_linear made.lin) choices.now answer.status answer.text.items) }
    ensures fault { IfErr result (IsChoiceFault made.sig (equations_at made.sig made.pool.trees (map plain_equation made.theory.equations.items)) fuel bound (plain_linear made.lin) choices.now made.pool.trees (Some (plain_linear made.lin).init)) }
{
    let Linearised {
        spec: _,
        sig,
        pool,
        theory,
        name,
        lin,
        components: _,
    } = made;
    let mut sig = sig;
    let mut pool = pool;
    shown_after(
        alloc, &mut sig, &mut pool, &theory, name, lin, choices, fuel, bound,
    )
}

/// The steps of the linear process that was made of a text behind the moves that a file chooses, which a shelf has under a name, as they are shown.
pub fn steps_after_file<H: Shelf>(
    alloc: Global,
    made: Linearised,
    shelf: &mut H,
    name: &str,
    fuel: u64,
    bound: u64,
) -> Result<Answer, Stop>
    requires { (ending : Ending) × (text : List ℕ) × IsMadeOf ending text (spec_of made.spec) made.sig made.pool.trees (map plain_equation made.theory.equations.items) made.name (plain_linear made.lin) }
    ensures shown { IfOk result (λ answer. (ending : Ending) (method : Method) (text : List ℕ)
        → IsLinearOf ending method text (spec_of made.spec) made.sig made.pool (map plain_equation made.theory.equations.items) made.name (plain_linear made.lin) made.components
        → AreShownAsTold ending method fuel bound text (H.text_of shelf.old name.now) answer.status answer.text.items) }
    ensures stopped { IfErr result (λ stop. (ending : Ending) (method : Method) (text : List ℕ)
        → IsLinearOf ending method text (spec_of made.spec) made.sig made.pool (map plain_equation made.theory.equations.items) made.name (plain_linear made.lin) made.components
        → IsChoiceStop ending method fuel bound text (H.text_of shelf.old name.now) stop) }
    ensures read_fault { IsErrOf result Stop.ReadFault → Rose (H.faults shelf.old) (H.faults shelf.new) }
{
    let choices = load(alloc, shelf, name)?;
    match steps_after_of(alloc, made, &choices, fuel, bound) {
        Ok(answer) => Ok(answer),
        Err(fault) => Err(Stop::for_choice(alloc, fault)),
    }
}
