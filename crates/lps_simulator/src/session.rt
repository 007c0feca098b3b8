//! Sessions: a linear process in a state.

ghost use Rattle.std.specs.Prelude.{◌≡◌, ◌<◌, List, length, slice_get, is_none, IfOk, IfSome, OnErr, OnOk, MatchResult, Some, None};
ghost use Rattle.std.specs.List.{All};
ghost use Rattle.std.specs.Borrow.{sem};
ghost use Rattle.data_theory.specs.Provable.{Equation};
ghost use Rattle.data_theory.specs.Signature.{Sig};
ghost use Rattle.data_theory.specs.IdTrees.{Tree};
ghost use Rattle.number_rules.specs.Rule.{IsExact, rule_of};
ghost use Rattle.term_pool.specs.Pools.{Extends};
ghost use Rattle.data_rewriter.specs.Rewriters.{Fits as FitsPool, number_rules};
ghost use Rattle.data_rewriter.specs.Simplifying.{AreWellFormed};
ghost use Rattle.lps_core.specs.Fitting.{Fits};
ghost use Rattle.lps_core.specs.PlainLinears.{plain_linear, plain_next};
ghost use Rattle.lps_simulator.specs.OptionsInCode.{plain_move, plain_options, AreOptionsAt, IsMove, IsState, PlainMove, PlainOptions};
ghost use Rattle.lps_simulator.specs.Sessions.{session_linear, session_options, session_state, SessionFits};
ghost use Rattle.lps_simulator.specs.SessionLoans.{LendsOptions};

use crate::options::{Move, Options, nothing, options_at};
use data_rewriter::Rewriter;
use data_theory::{NoMemory, Num, Signature, TermId};
use lps_core::{Linear, signature_stands};
use number_rules::NumOp;
use std::alloc::Global;
use term_pool::Pool;

/// A linear process in one of its states, and what it can do there, once that has been asked.
#[derive(Debug, Drop)]
pub struct Session {
    lin: Linear,
    /// No state where the process has ended.
    state: Option<Vec<TermId>>,
    options: Option<Options>,
    alloc: Global,
}

/// What a linear process can do in a state, and nothing where it has ended.
fn options_in<F: Fn(NumOp, Num, Num) -> Option<Num>>(
    alloc: Global,
    sig: &Signature,
    pool: &mut Pool,
    rewriter: &mut Rewriter<F>,
    lin: &Linear,
    state: &Option<Vec<TermId>>,
    fuel: u64,
    bound: u64,
) -> Result<Options, NoMemory>
    requires known { (own : List Equation) × FitsPool rewriter.old sig.now own pool.old.trees }
    requires rules { IsExact (F.pre (rule_of (number_rules rewriter.old))) (F.post (rule_of (number_rules rewriter.old))) }
    requires lin { Fits sig.now pool.old.trees (plain_linear lin.now) }
    requires state { IfSome (plain_next state.now) (IsState sig.now pool.old.trees (plain_linear lin.now).params) }
    ensures kept { Extends pool.old.trees pool.new.trees }
    ensures rules { number_rules rewriter.new ≡ number_rules rewriter.old }
    ensures fits { (own : List Equation) → FitsPool rewriter.old sig.now own pool.old.trees → FitsPool rewriter.new sig.now own pool.new.trees }
    ensures options { IfOk result (λ found. (own : List Equation) → FitsPool rewriter.old sig.now own pool.old.trees → AreWellFormed sig.now own → AreOptionsAt sig.now own fuel bound pool.old.trees pool.new.trees (plain_linear lin.now) (plain_next state.now) (plain_options found)) }
    ensures moves { IfOk result (λ found. (own : List Equation) → FitsPool rewriter.old sig.now own pool.old.trees → AreWellFormed sig.now own → All (IsMove sig.now pool.new.trees (plain_linear lin.now).params) (plain_options found).moves) }
{
    match state {
        Some(terms) => {
            let terms = terms.as_slice();
            let found = options_at(alloc, sig, pool, rewriter, lin, terms, fuel, bound)?;
            Ok(found)
        }
        None => Ok(nothing(alloc)),
    }
}

/// The state to which a move leads.
fn state_after(options: Options, k: usize) -> Option<Vec<TermId>>
    requires { k < length (plain_options options).moves }
    ensures { (m : PlainMove) → slice_get (plain_options options).moves k ≡ Some m → plain_next result ≡ m.next }
{
    let Options { mut moves, .. } = options;
    let Move { next, .. } = moves.swap_remove(k);
    next
}

impl Session {
    /// A linear process in its initial state. Nothing was asked yet.
    ///
    /// # Errors
    ///
    /// `NoMemory` where there is none for the state.
    pub fn new(alloc: Global, lin: Linear) -> Result<Session, NoMemory>
        ensures linear { IfOk result (λ session. session_linear session ≡ plain_linear lin) }
        ensures state { IfOk result (λ session. session_state session ≡ Some (plain_linear lin).init) }
        ensures options { IfOk result (λ session. session_options session ≡ None) }
        ensures fits { IfOk result (λ session. (sig : Sig) (ts : List Tree) → Fits sig ts (plain_linear lin) → SessionFits sig ts session) }
    {
        let state = lin.init.to_vec(alloc)?;
        Ok(Session {
            lin,
            state: Some(state),
            options: None,
            alloc,
        })
    }

    /// Keeps what the process can do in the state in hand.
    fn list<F: Fn(NumOp, Num, Num) -> Option<Num>>(
        &mut self,
        sig: &Signature,
        pool: &mut Pool,
        rewriter: &mut Rewriter<F>,
        fuel: u64,
        bound: u64,
    ) -> Result<(), NoMemory>
        requires known { (own : List Equation) × FitsPool rewriter.old sig.now own pool.old.trees × AreWellFormed sig.now own }
        requires rules { IsExact (F.pre (rule_of (number_rules rewriter.old))) (F.post (rule_of (number_rules rewriter.old))) }
        requires session { SessionFits sig.now pool.old.trees self.old }
        ensures kept { Extends pool.old.trees pool.new.trees }
        ensures rules { number_rules rewriter.new ≡ number_rules rewriter.old }
        ensures fits { (own : List Equation) → FitsPool rewriter.old sig.now own pool.old.trees → FitsPool rewriter.new sig.now own pool.new.trees }
        ensures linear { session_linear self.new ≡ session_linear self.old }
        ensures state { session_state self.new ≡ session_state self.old }
        ensures options { OnOk result ((found : PlainOptions) × (session_options self.new ≡ Some found) × ((own : List Equation) → FitsPool rewriter.old sig.now own pool.old.trees → AreWellFormed sig.now own → AreOptionsAt sig.now own fuel bound pool.old.trees pool.new.trees (session_linear self.old) (session_state self.old) found)) }
        ensures none { OnErr result (session_options self.new ≡ None) }
        ensures session { SessionFits sig.now pool.new.trees self.new }
    {
        signature_stands(sig);
        self.options = None;
        let found = options_in(
            self.alloc,
            sig,
            pool,
            rewriter,
            &self.lin,
            &self.state,
            fuel,
            bound,
        )?;
        self.options = Some(found);
        Ok(())
    }

    /// The options that were kept.
    fn kept(&self) -> Result<&Options, NoMemory>
        ensures { MatchResult result (λ found. session_options self.now ≡ Some (plain_options found.now)) (λ _. session_options self.now ≡ None) }
    {
        match &self.options {
            Some(found) => Ok(found),
            None => Err(NoMemory),
        }
    }

    /// What the process can do in the state in hand, and nothing where it has ended: for each summand, in order, and for each combination
    /// of the first `bound` values of its sums, a move, where the condition is decided `Yes`. Each condition, each argument of an action
    /// and each next term is rewritten with its own fuel.
    ///
    /// # Errors
    ///
    /// `NoMemory` where there is none for the options. The session has none then, and the state that it had.
    pub fn options<F: Fn(NumOp, Num, Num) -> Option<Num>>(
        &mut self,
        sig: &Signature,
        pool: &mut Pool,
        rewriter: &mut Rewriter<F>,
        fuel: u64,
        bound: u64,
    ) -> Result<&Options, NoMemory>
        requires known { (own : List Equation) × FitsPool rewriter.old sig.now own pool.old.trees × AreWellFormed sig.now own }
        requires rules { IsExact (F.pre (rule_of (number_rules rewriter.old))) (F.post (rule_of (number_rules rewriter.old))) }
        requires session { SessionFits sig.now pool.old.trees self.old }
        ensures* session { sem 𝓛 (LendsOptions sig.now pool.new.trees self.entry result) }
        ensures kept { Extends pool.old.trees pool.new.trees }
        ensures rules { number_rules rewriter.new ≡ number_rules rewriter.old }
        ensures fits { (own : List Equation) → FitsPool rewriter.old sig.now own pool.old.trees → FitsPool rewriter.new sig.now own pool.new.trees }
        ensures options { IfOk result (λ found. (own : List Equation) → FitsPool rewriter.old sig.now own pool.old.trees → AreWellFormed sig.now own → AreOptionsAt sig.now own fuel bound pool.old.trees pool.new.trees (session_linear self.old) (session_state self.old) (plain_options found.now)) }
    {
        self.list(sig, pool, rewriter, fuel, bound)?;
        self.kept()
    }

    /// Goes on to the state of a move.
    pub fn take(&mut self, k: usize)
        requires { (found : PlainOptions) × (session_options self.old ≡ Some found) × (k < length found.moves) }
        ensures linear { session_linear self.new ≡ session_linear self.old }
        ensures state { (found : PlainOptions) (m : PlainMove) → session_options self.old ≡ Some found → slice_get found.moves k ≡ Some m → session_state self.new ≡ m.next }
        ensures options { session_options self.new ≡ None }
        ensures fits { (sig : Sig) (ts : List Tree) → SessionFits sig ts self.old → SessionFits sig ts self.new }
    {
        match self.options.take() {
            Some(options) => self.state = state_after(options, k),
            None => {}
        }
    }

    /// Goes to a state, also where the process had ended.
    pub fn stand(&mut self, state: Vec<TermId>)
        requires { length state.items ≡ length (session_linear self.old).params }
        ensures linear { session_linear self.new ≡ session_linear self.old }
        ensures state { session_state self.new ≡ Some state.items }
        ensures options { session_options self.new ≡ None }
        ensures fits { (sig : Sig) (ts : List Tree) → SessionFits sig ts self.old → IsState sig ts (session_linear self.old).params state.items → SessionFits sig ts self.new }
    {
        self.state = Some(state);
        self.options = None;
    }

    /// Whether the process has ended.
    pub fn ended(&self) -> bool
        ensures { result ≡ is_none (session_state self.now) }
    {
        self.state.is_none()
    }
}
