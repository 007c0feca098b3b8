//! The task `walk`: steps of the linear process of a text that the words of a sequence pick.
ghost use Rattle.std.specs.Prelude.{◌≡◌, ◌≢◌, ◌++◌, ℕ, List, codes, decimal, map, IfErr, IfOk, OnOk};
ghost use Rattle.data_theory.specs.Provable.{Equation};
ghost use Rattle.number_rules.specs.Rule.{IsExact, rule_of};
ghost use Rattle.term_pool.specs.Pools.{Extends};
ghost use Rattle.data_rewriter.specs.Rewriters.{Fits as FitsPool, number_rules};
ghost use Rattle.data_rewriter.specs.Simplifying.{AreWellFormed};
ghost use Rattle.mcrl2_syntax.specs.Declarations.{spec_of};
ghost use Rattle.process_terms.specs.PlainProcesses.{plain_equation};
ghost use Rattle.lps_core.specs.Fitting.{Fits};
ghost use Rattle.lps_core.specs.PlainLinears.{plain_linear};
ghost use Rattle.lps_simulator.specs.Sessions.{session_linear, session_state, SessionFits};
ghost use Rattle.lps_simulator.specs.Walks.{chooser_of, next_word, word_of};
ghost use Rattle.lin_driver.specs.Accepted.{CanBeLinearised};
ghost use Rattle.lin_driver.specs.Eliminations.{equations_at, equations_in, CanRewrite};
ghost use Rattle.lin_driver.specs.Faults.{IsFaultBy};
ghost use Rattle.lin_driver.specs.Linearised.{IsMadeOf};
ghost use Rattle.lin_driver.specs.Refusals.{IsRefusedWith};
ghost use Rattle.lin_driver.specs.declared.ending.Ending.{Ending};
ghost use Rattle.lin_tasks.specs.ShownTexts.{IsShownWalk};
ghost use Rattle.lin_tasks.specs.Walks.{place_picked, HasWalked, PicksByWords, ShowsWalk, TakesOne};

use crate::decimals::push_number;
use crate::option_texts::push_label;
use data_rewriter::Rewriter;
use data_theory::{Names, NoMemory, Num, Signature};
use lin_answers::{Answer, Plan, Status, status_with};
use lin_driver::{Ending, LinFault, Linearised, Method, linearise_as};
use lps_core::{Linear, signature_stands};
use lps_simulator::{Session, Walk};
use number_rules::operations::exact;
use number_rules::{NumOp, NumberRules};
use std::alloc::Global;
use term_pool::{Pool, Theory};

/// The place of one of n that a word picks, where there is one.
fn place_picked(word: u64, n: usize) -> Option<usize>
    ensures { result ≡ place_picked word n }
{
    if n == 0 {
        return None;
    }
    Some(((word >> 33) % n as u64) as usize)
}

/// Takes the move of a session that the next word picks, and writes its label. Where there is no move, the answer is the status of a walk
/// that stops there.
fn take_one<F: Fn(NumOp, Num, Num) -> Option<Num>, C: Fn(u64, usize) -> Option<usize>>(
    alloc: Global,
    sig: &Signature,
    pool: &mut Pool,
    rewriter: &mut Rewriter<F>,
    session: &mut Session,
    walk: &mut Walk<C>,
    plan: Plan,
    text: &mut Vec<u8>,
) -> Result<Option<Status>, NoMemory>
    requires known { (own : List Equation) × FitsPool rewriter.old sig.now own pool.old.trees × AreWellFormed sig.now own }
    requires rules { IsExact (F.pre (rule_of (number_rules rewriter.old))) (F.post (rule_of (number_rules rewriter.old))) }
    requires session { SessionFits sig.now pool.old.trees session.old }
    requires chooser { PicksByWords (C.pre (chooser_of walk.old)) (C.post (chooser_of walk.old)) }
    ensures kept { OnOk result (Extends pool.old.trees pool.new.trees) }
    ensures rules { OnOk result (number_rules rewriter.new ≡ number_rules rewriter.old) }
    ensures fits { OnOk result ((own : List Equation) → FitsPool rewriter.old sig.now own pool.old.trees → FitsPool rewriter.new sig.now own pool.new.trees) }
    ensures linear { OnOk result (session_linear session.new ≡ session_linear session.old) }
    ensures session { OnOk result (SessionFits sig.now pool.new.trees session.new) }
    ensures chooser { OnOk result (chooser_of walk.new ≡ chooser_of walk.old) }
    ensures word { OnOk result (word_of walk.new ≡ next_word (word_of walk.old)) }
    ensures taken { IfOk result (λ stop. (own : List Equation) → FitsPool rewriter.old sig.now own pool.old.trees → AreWellFormed sig.now own
        → TakesOne sig.now own plan.fuel plan.bound (word_of walk.new) (session_linear session.old) pool.old.trees pool.new.trees text.old.items (session_state session.old) (session_state session.new) text.new.items stop) }
{
    signature_stands(sig);
    let found = session.options(sig, pool, rewriter, plan.fuel, plan.bound)?;
    let Some(k) = walk.pick(found.moves.len()) else {
        return Ok(Some(status_with(&found.undecided)));
    };
    push_label(alloc, sig, pool, &found.moves[k].label, text)?;
    session.take(k);
    Ok(None)
}

/// Takes the moves of a session that the next words pick, as many as the plan has at most, and writes their labels. The answer is how many it
/// took, and the status of the walk.
fn take_moves<F: Fn(NumOp, Num, Num) -> Option<Num>, C: Fn(u64, usize) -> Option<usize>>(
    alloc: Global,
    sig: &Signature,
    pool: &mut Pool,
    rewriter: &mut Rewriter<F>,
    session: &mut Session,
    walk: &mut Walk<C>,
    plan: Plan,
    text: &mut Vec<u8>,
) -> Result<(u64, Status), NoMemory>
    requires known { (own : List Equation) × FitsPool rewriter.old sig.now own pool.old.trees × AreWellFormed sig.now own }
    requires rules { IsExact (F.pre (rule_of (number_rules rewriter.old))) (F.post (rule_of (number_rules rewriter.old))) }
    requires session { SessionFits sig.now pool.old.trees session.old }
    requires chooser { PicksByWords (C.pre (chooser_of walk.old)) (C.post (chooser_of walk.old)) }
    ensures walked { IfOk result (λ r. (own : List Equation) → FitsPool rewriter.old sig.now own pool.old.trees → AreWellFormed sig.now own
        → HasWalked sig.now own plan (word_of walk.old) (session_linear session.old) pool.old.trees pool.new.trees (session_state session.old) text.old.items text.new.items r.0 r.1) }
{
    for taken in 0..plan.depth {
        let stop = take_one(alloc, sig, pool, rewriter, session, walk, plan, text)?;
        if let Some(status) = stop {
            return Ok((taken, status));
        }
    }
    Ok((plan.depth, Status::Done))
}

/// Puts the line that counts the moves of a walk behind a text.
fn push_taken(taken: u64, text: &mut Vec<u8>) -> Result<(), NoMemory>
    ensures { OnOk result (text.new.items ≡ text.old.items ++ codes "taken " ++ decimal taken ++ codes "\n") }
{
    text.extend_from_slice(b"taken ")?;
    push_number(text, taken)?;
    text.extend_from_slice(b"\n")?;
    Ok(())
}

/// A walk of a linear process from its initial state, as it is shown.
fn shown_walk(
    alloc: Global,
    sig: &Signature,
    pool: &mut Pool,
    theory: &Theory,
    lin: Linear,
    plan: Plan,
) -> Result<Answer, NoMemory>
    requires fits { Fits sig.now pool.old.trees (plain_linear lin) }
    requires equations { CanRewrite sig.now pool.old.trees theory.now }
    ensures { IfOk result (λ answer. ShowsWalk sig.now (equations_in sig.now pool.old.trees theory.now) plan pool.old.trees (plain_linear lin) answer.status answer.text.items) }
{
    signature_stands(sig);
    let rules = NumberRules::new(exact);
    let mut rewriter = Rewriter::new(alloc, sig, pool, theory, rules)?;
    let mut session = Session::new(alloc, lin)?;
    let mut walk = Walk::new(place_picked, plan.seed);
    let mut text = Vec::new(alloc);
    let (taken, status) = take_moves(
        alloc,
        sig,
        pool,
        &mut rewriter,
        &mut session,
        &mut walk,
        plan,
        &mut text,
    )?;
    push_taken(taken, &mut text)?;
    Ok(Answer { text, status })
}

/// A walk of the linear process that was made of a text, as it is shown.
fn walk_of(alloc: Global, made: Linearised, plan: Plan) -> Result<Answer, NoMemory>
    requires { (ending : Ending) × (text : List ℕ) × IsMadeOf ending text (spec_of made.spec) made.sig made.pool.trees (map plain_equation made.theory.equations.items) made.name (plain_linear made.lin) }
    ensures { IfOk result (λ answer. ShowsWalk made.sig (equations_at made.sig made.pool.trees (map plain_equation made.theory.equations.items)) plan made.pool.trees (plain_linear made.lin) answer.status answer.text.items) }
{
    let Linearised {
        spec: _,
        sig,
        pool,
        theory,
        name: _,
        lin,
        components: _,
    } = made;
    let mut pool = pool;
    shown_walk(alloc, &sig, &mut pool, &theory, lin, plan)
}

/// A walk of the linear process of a text, which is made by a method and ends as it is asked to: the labels of the moves that are taken, each picked by the next word
/// of a sequence, and their number.
///
/// # Errors
///
/// Those of [`linearise_as`] with that method and ending.
pub fn walk(
    alloc: Global,
    text: &[u8],
    names: &mut Names,
    method: Method,
    ending: Ending,
    plan: Plan,
) -> Result<Answer, LinFault>
    ensures accepted { OnOk result (CanBeLinearised text.now) }
    ensures shown { IfOk result (λ answer. IsShownWalk ending method plan text.now answer.status answer.text.items) }
    ensures refused { IfErr result (λ fault. fault ≢ LinFault.NoMemory → IsRefusedWith text.now names.new fault) }
    ensures by { IfErr result (IsFaultBy ending method) }
{
    let made = linearise_as(alloc, text, names, method, ending)?;
    let answer = walk_of(alloc, made, plan)?;
    Ok(answer)
}
