//! Moves that are taken as a text chooses them.

ghost use Rattle.std.specs.Prelude.{◌≡◌, ◌<◌, [], ◌∷◌, List, Some, IfErr, IfOk, IfSome, OnOk};
ghost use Rattle.data_theory.specs.Provable.{Equation};
ghost use Rattle.number_rules.specs.Rule.{IsExact, rule_of};
ghost use Rattle.process_terms.specs.Labels.{Label};
ghost use Rattle.term_pool.specs.Pools.{Extends};
ghost use Rattle.data_rewriter.specs.Rewriters.{Fits as FitsPool, number_rules};
ghost use Rattle.data_rewriter.specs.Simplifying.{AreWellFormed};
ghost use Rattle.lps_core.specs.PlainLinears.{plain_next};
ghost use Rattle.lps_simulator.specs.Sessions.{session_linear, session_state, SessionFits};
ghost use Rattle.chosen_moves.specs.ChosenMoves.{pick_of, picks_of, place_of, FollowsText, IsChoiceFault, IsMoveFault, IsOneFault};
ghost use Rattle.chosen_moves.specs.TakenMoves.{TakesMoves};

use crate::choices::{Choice, read_choices};
use data_rewriter::Rewriter;
use data_theory::{NoMemory, Num, Signature, TermId};
use lps_core::signature_stands;
use lps_simulator::Session;
use number_rules::NumOp;
use std::alloc::{AllocError, Global};
use term_pool::Pool;

/// Why the moves that a text chooses aren't taken.
#[derive(Clone, Copy, Debug, PartialEq, Eq)]
pub enum ChoiceFault {
    /// The line with this number is the first one that is neither blank nor the number of a move.
    BadChoice(usize),
    /// No memory was left.
    NoMemory,
}

impl From<AllocError> for ChoiceFault {
    ghost use Rattle.std.specs.Prelude.{◌≡◌};
    ghost use Rattle.chosen_moves.specs.declared.following.ChoiceFault.TheVariants as faults;

    ghost from_gives = { λ _ fault. fault ≡ faults.NoMemory };

    fn from(_: AllocError) -> Self {
        ChoiceFault::NoMemory
    }
}

impl From<NoMemory> for ChoiceFault {
    ghost use Rattle.std.specs.Prelude.{◌≡◌};
    ghost use Rattle.chosen_moves.specs.declared.following.ChoiceFault.TheVariants as faults;

    ghost from_gives = { λ _ fault. fault ≡ faults.NoMemory };

    fn from(_: NoMemory) -> Self {
        ChoiceFault::NoMemory
    }
}

/// The place of the move with a number among so many, where there is one.
fn place_of(number: u128, count: usize) -> Option<usize>
    ensures place { result ≡ place_of number count }
    ensures within { IfSome result (λ place. place < count) }
{
    if number == 0 || (count as u128) < number {
        return None;
    }
    Some((number - 1) as usize)
}

/// A copy of the terms of a state.
fn copy_of(alloc: Global, state: &Option<Vec<TermId>>) -> Result<Option<Vec<TermId>>, NoMemory>
    ensures { IfOk result (λ copy. plain_next copy ≡ plain_next state.now) }
{
    match state {
        Some(terms) => Ok(Some(terms.to_vec(alloc)?)),
        None => Ok(None),
    }
}

/// Takes the move of a session that is chosen. The answer is the state to which it leads.
fn take_chosen<F: Fn(NumOp, Num, Num) -> Option<Num>>(
    alloc: Global,
    sig: &Signature,
    pool: &mut Pool,
    rewriter: &mut Rewriter<F>,
    session: &mut Session,
    choice: Choice,
    fuel: u64,
    bound: u64,
) -> Result<Option<Vec<TermId>>, ChoiceFault>
    requires known { (own : List Equation) × FitsPool rewriter.old sig.now own pool.old.trees × AreWellFormed sig.now own }
    requires rules { IsExact (F.pre (rule_of (number_rules rewriter.old))) (F.post (rule_of (number_rules rewriter.old))) }
    requires session { SessionFits sig.now pool.old.trees session.old }
    ensures kept { OnOk result (Extends pool.old.trees pool.new.trees) }
    ensures rules { OnOk result (number_rules rewriter.new ≡ number_rules rewriter.old) }
    ensures fits { OnOk result ((own : List Equation) → FitsPool rewriter.old sig.now own pool.old.trees → FitsPool rewriter.new sig.now own pool.new.trees) }
    ensures linear { OnOk result (session_linear session.new ≡ session_linear session.old) }
    ensures session { OnOk result (SessionFits sig.now pool.new.trees session.new) }
    ensures state { IfOk result (λ next. plain_next next ≡ session_state session.new) }
    ensures taken { OnOk result ((own : List Equation) → FitsPool rewriter.old sig.now own pool.old.trees → AreWellFormed sig.now own
        → (labels : List Label) × TakesMoves sig.now own fuel bound (session_linear session.old) (pick_of choice ∷ []) pool.old.trees (session_state session.old) pool.new.trees (session_state session.new) labels) }
    ensures fault { IfErr result (λ fault. (own : List Equation) → FitsPool rewriter.old sig.now own pool.old.trees → AreWellFormed sig.now own
        → IsOneFault sig.now own fuel bound (session_linear session.old) pool.old.trees (session_state session.old) choice fault) }
{
    signature_stands(sig);
    let found = session.options(sig, pool, rewriter, fuel, bound)?;
    let Some(place) = place_of(choice.number, found.moves.len()) else {
        return Err(ChoiceFault::BadChoice(choice.line));
    };
    let next = copy_of(alloc, &found.moves[place].next)?;
    session.take(place);
    Ok(next)
}

/// Takes the moves of a session that are chosen, one after another. The answer is the state to which they lead from the first one.
fn take_all<F: Fn(NumOp, Num, Num) -> Option<Num>>(
    alloc: Global,
    sig: &Signature,
    pool: &mut Pool,
    rewriter: &mut Rewriter<F>,
    session: &mut Session,
    first: Vec<TermId>,
    choices: &[Choice],
    fuel: u64,
    bound: u64,
) -> Result<Option<Vec<TermId>>, ChoiceFault>
    requires known { (own : List Equation) × FitsPool rewriter.old sig.now own pool.old.trees × AreWellFormed sig.now own }
    requires rules { IsExact (F.pre (rule_of (number_rules rewriter.old))) (F.post (rule_of (number_rules rewriter.old))) }
    requires session { SessionFits sig.now pool.old.trees session.old }
    requires first { session_state session.old ≡ Some first.items }
    ensures kept { OnOk result (Extends pool.old.trees pool.new.trees) }
    ensures rules { OnOk result (number_rules rewriter.new ≡ number_rules rewriter.old) }
    ensures fits { OnOk result ((own : List Equation) → FitsPool rewriter.old sig.now own pool.old.trees → FitsPool rewriter.new sig.now own pool.new.trees) }
    ensures linear { OnOk result (session_linear session.new ≡ session_linear session.old) }
    ensures session { OnOk result (SessionFits sig.now pool.new.trees session.new) }
    ensures state { IfOk result (λ last. plain_next last ≡ session_state session.new) }
    ensures taken { OnOk result ((own : List Equation) → FitsPool rewriter.old sig.now own pool.old.trees → AreWellFormed sig.now own
        → (labels : List Label) × TakesMoves sig.now own fuel bound (session_linear session.old) (picks_of choices.now) pool.old.trees (session_state session.old) pool.new.trees (session_state session.new) labels) }
    ensures fault { IfErr result (λ fault. (own : List Equation) → FitsPool rewriter.old sig.now own pool.old.trees → AreWellFormed sig.now own
        → IsMoveFault sig.now own fuel bound (session_linear session.old) pool.old.trees (session_state session.old) choices.now fault) }
{
    let mut state = Some(first);
    for choice in choices {
        state = take_chosen(alloc, sig, pool, rewriter, session, *choice, fuel, bound)?;
    }
    Ok(state)
}

/// Takes the moves of a session that the lines of a text choose, one after another, from the state on in which the session stands. Each line is the number of a
/// move, counted from 1, or blank. The answer is the state to which they lead, or none where the process has ended.
///
/// # Errors
///
/// `BadChoice` with the number of the first line that is neither blank nor the number of a move of the state where the session stands then. `NoMemory` comes only where memory
/// runs out.
pub fn follow<F: Fn(NumOp, Num, Num) -> Option<Num>>(
    alloc: Global,
    sig: &Signature,
    pool: &mut Pool,
    rewriter: &mut Rewriter<F>,
    session: &mut Session,
    first: Vec<TermId>,
    text: &[u8],
    fuel: u64,
    bound: u64,
) -> Result<Option<Vec<TermId>>, ChoiceFault>
    requires known { (own : List Equation) × FitsPool rewriter.old sig.now own pool.old.trees × AreWellFormed sig.now own }
    requires rules { IsExact (F.pre (rule_of (number_rules rewriter.old))) (F.post (rule_of (number_rules rewriter.old))) }
    requires session { SessionFits sig.now pool.old.trees session.old }
    requires first { session_state session.old ≡ Some first.items }
    ensures kept { OnOk result (Extends pool.old.trees pool.new.trees) }
    ensures rules { OnOk result (number_rules rewriter.new ≡ number_rules rewriter.old) }
    ensures fits { OnOk result ((own : List Equation) → FitsPool rewriter.old sig.now own pool.old.trees → FitsPool rewriter.new sig.now own pool.new.trees) }
    ensures linear { OnOk result (session_linear session.new ≡ session_linear session.old) }
    ensures session { OnOk result (SessionFits sig.now pool.new.trees session.new) }
    ensures state { IfOk result (λ last. plain_next last ≡ session_state session.new) }
    ensures followed { OnOk result ((own : List Equation) → FitsPool rewriter.old sig.now own pool.old.trees → AreWellFormed sig.now own
        → FollowsText sig.now own fuel bound (session_linear session.old) text.now pool.old.trees (session_state session.old) pool.new.trees (session_state session.new)) }
    ensures fault { IfErr result (λ fault. (own : List Equation) → FitsPool rewriter.old sig.now own pool.old.trees → AreWellFormed sig.now own
        → IsChoiceFault sig.now own fuel bound (session_linear session.old) text.now pool.old.trees (session_state session.old) fault) }
{
    let mut choices = Vec::new(alloc);
    let bad = read_choices(alloc, text, &mut choices)?;
    let last = take_all(
        alloc, sig, pool, rewriter, session, first, &choices, fuel, bound,
    )?;
    match bad {
        Some(line) => Err(ChoiceFault::BadChoice(line)),
        None => Ok(last),
    }
}
