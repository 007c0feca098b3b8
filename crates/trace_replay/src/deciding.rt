//! How the conditions of a way come out.

ghost use Rattle.std.specs.Prelude.{◌≡◌, ℕ, List, cond, IfOk};
ghost use Rattle.std.specs.List.{All};
ghost use Rattle.data_theory.specs.Provable.{Equation};
ghost use Rattle.number_rules.specs.Rule.{IsExact, rule_of};
ghost use Rattle.term_pool.specs.Bindings.{listed_terms};
ghost use Rattle.data_rewriter.specs.Rewriters.{Fits, number_rules};
ghost use Rattle.data_rewriter.specs.Standing.{IsTerm};
ghost use Rattle.trace_replay.specs.Decidings.{ComeOut, hold, stay_open};
ghost use Rattle.trace_replay.specs.DecidedConditions.{answer_of, conditions_with, setting};
ghost use Rattle.trace_replay.specs.Keeping.{Keeps};

use data_rewriter::{Rewriter, Truth};
use data_theory::{NoMemory, Num, Signature, TermId, VarId};
use lps_simulator::rewriting::decide_with;
use number_rules::NumOp;
use term_pool::Pool;

/// How some conditions come out together.
#[derive(Clone, Copy, Debug, PartialEq, Eq)]
pub enum Answer {
    /// All are decided `Yes`.
    Hold,
    /// One is decided `No`.
    Fail,
    /// None is decided `No`, and one isn't decided.
    Open,
}

/// How conditions come out of which none is decided `No`.
fn without_no(is_open: bool) -> Answer
    ensures { answer_of result ≡ cond is_open stay_open hold }
{
    if is_open {
        return Answer::Open;
    }
    Answer::Hold
}

/// How conditions come out with the listed terms in place of variables. They are decided from the left until one is `No`, each with its own
/// fuel.
///
/// # Errors
///
/// `NoMemory` where the rewriter has none, or there is none for the terms.
pub fn decide_all<F: Fn(NumOp, Num, Num) -> Option<Num>>(
    sig: &Signature,
    pool: &mut Pool,
    rewriter: &mut Rewriter<F>,
    conditions: &[TermId],
    by: &[(VarId, TermId)],
    fuel: u64,
) -> Result<Answer, NoMemory>
    requires known { (own : List Equation) × Fits rewriter.old sig.now own pool.old.trees }
    requires rules { IsExact (F.pre (rule_of (number_rules rewriter.old))) (F.post (rule_of (number_rules rewriter.old))) }
    requires conditions { All (IsTerm sig.now pool.old.trees) conditions.now }
    requires listed { All (IsTerm sig.now pool.old.trees) (listed_terms by.now) }
    ensures kept { Keeps sig.now pool.old.trees pool.new.trees rewriter.old rewriter.new }
    ensures comes { IfOk result (λ answer. (own : List Equation) (bound : ℕ) → Fits rewriter.old sig.now own pool.old.trees → ComeOut (setting sig.now own fuel bound) (conditions_with sig.now pool.old.trees by.now conditions.now) (answer_of answer)) }
{
    let mut is_open = false;
    for condition in conditions {
        match decide_with(sig, pool, rewriter, *condition, by, fuel)? {
            Truth::Yes => continue,
            Truth::No => return Ok(Answer::Fail),
            Truth::Stuck(_) => is_open = true,
            Truth::Spent(_) => is_open = true,
        }
    }
    Ok(without_no(is_open))
}
