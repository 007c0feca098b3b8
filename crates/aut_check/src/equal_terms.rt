//! How the equalities of closed terms come out.

ghost use Rattle.std.specs.Prelude.{◌≡◌, ◌<◌, List, length, map, IfOk};
ghost use Rattle.std.specs.List.{All};
ghost use Rattle.data_theory.specs.IdTerms.{sort_under};
ghost use Rattle.data_theory.specs.Provable.{Equation};
ghost use Rattle.number_rules.specs.Rule.{IsExact, rule_of};
ghost use Rattle.data_rewriter.specs.Rewriters.{Fits as FitsPool, number_rules};
ghost use Rattle.data_rewriter.specs.Standing.{term_at};
ghost use Rattle.process_terms.specs.Communication.{equalities};
ghost use Rattle.lps_core.specs.Fitting.{sort_of_variable, IsVariable};
ghost use Rattle.trace_replay.specs.DecidedConditions.{answer_of};
ghost use Rattle.trace_replay.specs.Decidings.{ComeOut};
ghost use Rattle.trace_replay.specs.Keeping.{Keeps};
ghost use Rattle.aut_check.specs.Comparing.{setting, AreClosed};

use data_rewriter::Rewriter;
use data_theory::{NoMemory, Num, Signature, SortId, TermId, VarId};
use lps_core::signature_stands;
use number_rules::NumOp;
use std::alloc::{AllocError, Global};
use term_pool::Pool;
use trace_replay::{Answer, add_term_equalities, decide_all};

/// The sorts of variables.
pub(crate) fn sorts_of_variables(
    alloc: Global,
    sig: &Signature,
    vars: &[VarId],
) -> Result<Vec<SortId>, AllocError>
    requires { All (IsVariable sig.now) vars.now }
    ensures { IfOk result (λ sorts. sorts.items ≡ map (sort_of_variable sig.now) vars.now) }
{
    let mut sorts = Vec::new(alloc);
    for var in vars {
        sorts.push(sig.var_sort(*var))?;
    }
    Ok(sorts)
}

/// How the equalities of closed terms of the same sorts come out.
///
/// # Errors
///
/// `NoMemory` where there is none for them.
pub(crate) fn decide_equal<F: Fn(NumOp, Num, Num) -> Option<Num>>(
    alloc: Global,
    sig: &Signature,
    pool: &mut Pool,
    rewriter: &mut Rewriter<F>,
    sorts: &[SortId],
    firsts: &[TermId],
    seconds: &[TermId],
    fuel: u64,
) -> Result<Answer, NoMemory>
    requires known { (own : List Equation) × FitsPool rewriter.old sig.now own pool.old.trees }
    requires rules { IsExact (F.pre (rule_of (number_rules rewriter.old))) (F.post (rule_of (number_rules rewriter.old))) }
    requires sorts { All (λ s. s.0 < length sig.now.sorts) sorts.now }
    requires firsts { AreClosed sig.now pool.old.trees sorts.now firsts.now }
    requires seconds { AreClosed sig.now pool.old.trees sorts.now seconds.now }
    ensures kept { Keeps sig.now pool.old.trees pool.new.trees rewriter.old rewriter.new }
    ensures comes { IfOk result (λ answer. (own : List Equation) → FitsPool rewriter.old sig.now own pool.old.trees → ComeOut (setting sig.now own fuel) (equalities (map (sort_under sig.now) sorts.now) (map (term_at sig.now pool.old.trees) firsts.now) (map (term_at sig.now pool.old.trees) seconds.now)) (answer_of answer)) }
{
    signature_stands(sig);
    let mut conditions = Vec::new(alloc);
    add_term_equalities(sig, pool, sorts, firsts, seconds, &mut conditions)?;
    decide_all(sig, pool, rewriter, conditions.as_slice(), &[], fuel)
}
