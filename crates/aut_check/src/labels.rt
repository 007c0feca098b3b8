//! How the actions of two labels compare.

ghost use Rattle.std.specs.Prelude.{◌≡◌, List, map, IfOk};
ghost use Rattle.std.specs.List.{All};
ghost use Rattle.data_theory.specs.Provable.{Equation};
ghost use Rattle.number_rules.specs.Rule.{IsExact, rule_of};
ghost use Rattle.data_rewriter.specs.Rewriters.{Fits as FitsPool, number_rules};
ghost use Rattle.process_terms.specs.Meanings.{action_of, label_of};
ghost use Rattle.process_terms.specs.PlainProcesses.{plain_action, plain_label};
ghost use Rattle.process_terms.specs.SignatureEntries.{entries_of};
ghost use Rattle.trace_replay.specs.DecidedConditions.{answer_of};
ghost use Rattle.trace_replay.specs.Keeping.{Keeps};
ghost use Rattle.aut_check.specs.Comparing.{setting, ActionsCome, AreActionRows, IsActionRow, IsClosedIn, LabelsCome};
ghost use Rattle.aut_check.specs.Tables.{answers_of, tables_of};

use crate::equal_terms::decide_equal;
use crate::tables::table_answer;
use data_rewriter::Rewriter;
use data_theory::{NoMemory, Num, Signature};
use lps_core::signature_stands;
use number_rules::NumOp;
use process_terms::{Action, Label};
use std::alloc::Global;
use term_pool::Pool;
use trace_replay::{Answer, sorts_of};

/// How an action of a move compares with one of an edge.
fn compare_actions<F: Fn(NumOp, Num, Num) -> Option<Num>>(
    alloc: Global,
    sig: &Signature,
    pool: &mut Pool,
    rewriter: &mut Rewriter<F>,
    left: &Action,
    right: &Action,
    fuel: u64,
) -> Result<Answer, NoMemory>
    requires known { (own : List Equation) × FitsPool rewriter.old sig.now own pool.old.trees }
    requires rules { IsExact (F.pre (rule_of (number_rules rewriter.old))) (F.post (rule_of (number_rules rewriter.old))) }
    requires left { IsClosedIn sig.now pool.old.trees (plain_action left.now) }
    requires right { IsClosedIn sig.now pool.old.trees (plain_action right.now) }
    ensures kept { Keeps sig.now pool.old.trees pool.new.trees rewriter.old rewriter.new }
    ensures comes { IfOk result (λ answer. (own : List Equation) → FitsPool rewriter.old sig.now own pool.old.trees → ActionsCome (setting sig.now own fuel) (action_of (entries_of sig.now pool.old.trees) (plain_action left.now)) (action_of (entries_of sig.now pool.old.trees) (plain_action right.now)) (answer_of answer)) }
{
    signature_stands(sig);
    if left.act.0 != right.act.0 {
        return Ok(Answer::Fail);
    }
    let sorts = sorts_of(sig, left);
    let firsts = left.args.as_slice();
    let seconds = right.args.as_slice();
    decide_equal(alloc, sig, pool, rewriter, sorts, firsts, seconds, fuel)
}

/// How an action of a move compares with each action of an edge.
fn compare_action<F: Fn(NumOp, Num, Num) -> Option<Num>>(
    alloc: Global,
    sig: &Signature,
    pool: &mut Pool,
    rewriter: &mut Rewriter<F>,
    action: &Action,
    others: &[Action],
    fuel: u64,
) -> Result<Vec<Answer>, NoMemory>
    requires known { (own : List Equation) × FitsPool rewriter.old sig.now own pool.old.trees }
    requires rules { IsExact (F.pre (rule_of (number_rules rewriter.old))) (F.post (rule_of (number_rules rewriter.old))) }
    requires action { IsClosedIn sig.now pool.old.trees (plain_action action.now) }
    requires others { All (IsClosedIn sig.now pool.old.trees) (map plain_action others.now) }
    ensures kept { Keeps sig.now pool.old.trees pool.new.trees rewriter.old rewriter.new }
    ensures row { IfOk result (λ row. (own : List Equation) → FitsPool rewriter.old sig.now own pool.old.trees → IsActionRow (setting sig.now own fuel) (label_of (entries_of sig.now pool.old.trees) (map plain_action others.now)) (action_of (entries_of sig.now pool.old.trees) (plain_action action.now)) (answers_of row.items)) }
{
    signature_stands(sig);
    let mut row = Vec::new(alloc);
    for other in others {
        row.push(compare_actions(alloc, sig, pool, rewriter, action, other, fuel)?)?;
    }
    Ok(row)
}

/// How each action of a move compares with each action of an edge.
fn compare_each<F: Fn(NumOp, Num, Num) -> Option<Num>>(
    alloc: Global,
    sig: &Signature,
    pool: &mut Pool,
    rewriter: &mut Rewriter<F>,
    actions: &[Action],
    others: &[Action],
    fuel: u64,
) -> Result<Vec<Vec<Answer>>, NoMemory>
    requires known { (own : List Equation) × FitsPool rewriter.old sig.now own pool.old.trees }
    requires rules { IsExact (F.pre (rule_of (number_rules rewriter.old))) (F.post (rule_of (number_rules rewriter.old))) }
    requires actions { All (IsClosedIn sig.now pool.old.trees) (map plain_action actions.now) }
    requires others { All (IsClosedIn sig.now pool.old.trees) (map plain_action others.now) }
    ensures kept { Keeps sig.now pool.old.trees pool.new.trees rewriter.old rewriter.new }
    ensures rows { IfOk result (λ rows. (own : List Equation) → FitsPool rewriter.old sig.now own pool.old.trees → AreActionRows (setting sig.now own fuel) (label_of (entries_of sig.now pool.old.trees) (map plain_action actions.now)) (label_of (entries_of sig.now pool.old.trees) (map plain_action others.now)) (tables_of rows.items)) }
{
    signature_stands(sig);
    let mut rows = Vec::new(alloc);
    for action in actions {
        rows.push(compare_action(alloc, sig, pool, rewriter, action, others, fuel)?)?;
    }
    Ok(rows)
}

/// How two labels compare. Each action of the one is compared once with each of the other, and then each needs one of its own.
///
/// # Errors
///
/// `NoMemory` where there is none for it.
pub(crate) fn compare_labels<F: Fn(NumOp, Num, Num) -> Option<Num>>(
    alloc: Global,
    sig: &Signature,
    pool: &mut Pool,
    rewriter: &mut Rewriter<F>,
    left: &Label,
    right: &Label,
    fuel: u64,
) -> Result<Answer, NoMemory>
    requires known { (own : List Equation) × FitsPool rewriter.old sig.now own pool.old.trees }
    requires rules { IsExact (F.pre (rule_of (number_rules rewriter.old))) (F.post (rule_of (number_rules rewriter.old))) }
    requires left { All (IsClosedIn sig.now pool.old.trees) (plain_label left.now) }
    requires right { All (IsClosedIn sig.now pool.old.trees) (plain_label right.now) }
    ensures kept { Keeps sig.now pool.old.trees pool.new.trees rewriter.old rewriter.new }
    ensures labels { IfOk result (λ answer. (own : List Equation) → FitsPool rewriter.old sig.now own pool.old.trees → LabelsCome (setting sig.now own fuel) (label_of (entries_of sig.now pool.old.trees) (plain_label left.now)) (label_of (entries_of sig.now pool.old.trees) (plain_label right.now)) (answer_of answer)) }
{
    signature_stands(sig);
    if left.actions.len() != right.actions.len() {
        return Ok(Answer::Fail);
    }
    let actions = left.actions.as_slice();
    let others = right.actions.as_slice();
    let rows = compare_each(alloc, sig, pool, rewriter, actions, others, fuel)?;
    let answer = table_answer(alloc, rows.as_slice())?;
    Ok(answer)
}
