//! The task `invariant`: whether a condition holds in all states of the linear process of a text, and what is left of the process then.
ghost use Rattle.std.specs.Prelude.{◌≡◌, ◌<◌, ℕ, List, map, IfErr, IfOk, IsErrOf, length};
ghost use Rattle.std.specs.List.{All};
ghost use Rattle.data_theory.specs.Provable.{Equation};
ghost use Rattle.data_theory.specs.Terms.{Term};
ghost use Rattle.mcrl2_text.specs.Faults.{Rose};
ghost use Rattle.mcrl2_syntax.specs.Declarations.{spec_of};
ghost use Rattle.number_rules.specs.Rule.{IsExact, rule_of};
ghost use Rattle.term_pool.specs.HeadTrees.{tree_at, IsIn};
ghost use Rattle.term_pool.specs.Pools.{Extends};
ghost use Rattle.data_rewriter.specs.Rewriters.{Fits as FitsPool, number_rules};
ghost use Rattle.process_terms.specs.PlainProcesses.{plain_equation};
ghost use Rattle.lps_core.specs.Fitting.{Fits, IsVariable};
ghost use Rattle.lps_core.specs.PlainLinears.{plain_linear};
ghost use Rattle.lps_invariant.specs.Judging.{LeavesWhatFits};
ghost use Rattle.lin_driver.specs.Eliminations.{equations_at, equations_in, CanRewrite};
ghost use Rattle.lin_driver.specs.Headline.{StandsFor};
ghost use Rattle.lin_driver.specs.Linearised.{IsMadeOf};
ghost use Rattle.lin_driver.specs.LinearOfTexts.{IsLinearOf};
ghost use Rattle.lin_driver.specs.declared.ending.Ending.{Ending};
ghost use Rattle.lin_driver.specs.declared.methods.Method.{Method};
ghost use Rattle.lin_refusals.specs.BadTerms.{SpellsCondition};
ghost use Rattle.lin_refusals.specs.Stops.{IsConditionStop};
ghost use Rattle.lin_tasks.specs.JudgedConditions.{unproved_line, IsJudged, IsReadApart, IsReadAs, IsShownAs, ShowsJudgement};
ghost use Rattle.lin_tasks.specs.ShownInvariants.{IsJudgedAsTold};

use crate::decimals::push_number;
use data_rewriter::Rewriter;
use data_theory::{NameId, NoMemory, Num, Signature, SortId, TermId, VarId};
use lin_answers::{Answer, Status};
use lin_driver::Linearised;
use lin_refusals::Stop;
use lps_core::{Linear, signature_stands};
use lps_invariant::{Judged, judge};
use lps_printer::print;
use mcrl2_parser::{TermFault, parse_data};
use mcrl2_syntax::Spec;
use mcrl2_text::{Shelf, load};
use number_rules::operations::exact;
use number_rules::{NumOp, NumberRules};
use sort_checker::elaborate_data;
use std::alloc::Global;
use term_pool::{Pool, Theory};
use trace_replay::enter_all;

/// The sort of conditions.
const BOOL: SortId = SortId(0);

/// The line of the first place at which a condition isn't proved, and the first part that isn't proved there.
fn unproved_line(alloc: Global, place: usize, part: usize) -> Result<Vec<u8>, NoMemory>
    ensures { IfOk result (λ line. line.items ≡ unproved_line place part) }
{
    let mut line = Vec::from_slice(alloc, b"unproved ")?;
    push_number(&mut line, place as u64)?;
    line.extend_from_slice(b" ")?;
    push_number(&mut line, part as u64)?;
    line.extend_from_slice(b"\n")?;
    Ok(line)
}

/// The term that a condition is with these variables in scope, and the pool of its own that has it.
///
/// # Errors
///
/// `NotATerm` where it spells no term of sort Bool.
fn read_condition(
    alloc: Global,
    sig: &Signature,
    params: &[VarId],
    condition: &[u8],
) -> Result<(Pool, TermId), TermFault>
    requires params { All (IsVariable sig.now) params.now }
    ensures read { IfOk result (λ read. IsReadApart sig.now params.now condition.now read.0 read.1) }
    ensures not_a_term { IsErrOf result TermFault.NotATerm → (t : Term) → ¬ (SpellsCondition sig.now params.now condition.now t) }
{
    signature_stands(sig);
    let tree = parse_data(alloc, condition)?;
    let Ok(mut own) = Pool::new(alloc) else {
        return Err(TermFault::NoMemory);
    };
    let term = elaborate_data(alloc, &tree, sig, &mut own, params, BOOL)?;
    Ok((own, term))
}

/// A term of one pool, entered into another.
fn entered(alloc: Global, from: &Pool, term: TermId, to: &mut Pool) -> Result<TermId, NoMemory>
    requires { IsIn from.now.trees term }
    ensures kept { Extends to.old.trees to.new.trees }
    ensures within { IfOk result (IsIn to.new.trees) }
    ensures same { IfOk result (λ id. tree_at to.new.trees id ≡ tree_at from.now.trees term) }
{
    let ids = enter_all(alloc, from, to)?;
    Ok(ids[term.0])
}

/// The term that a condition is with these variables in scope, over a pool that gets it. It is read over a pool of its own, so that nothing is asked of the
/// other one.
///
/// # Errors
///
/// `NotATerm` where it spells no term of sort Bool.
fn term_of(
    alloc: Global,
    sig: &Signature,
    pool: &mut Pool,
    params: &[VarId],
    condition: &[u8],
) -> Result<TermId, TermFault>
    requires params { All (IsVariable sig.now) params.now }
    ensures kept { Extends pool.old.trees pool.new.trees }
    ensures read { IfOk result (IsReadAs sig.now params.now condition.now pool.new.trees) }
    ensures not_a_term { IsErrOf result TermFault.NotATerm → (t : Term) → ¬ (SpellsCondition sig.now params.now condition.now t) }
{
    let (own, term) = read_condition(alloc, sig, params, condition)?;
    match entered(alloc, &own, term, pool) {
        Ok(term) => Ok(term),
        Err(NoMemory) => Err(TermFault::NoMemory),
    }
}

/// What is found of a condition on the parameters of a linear process, by a rewriter.
///
/// # Errors
///
/// `NotATerm` where it spells no term of sort Bool over the parameters.
fn judged_by<F: Fn(NumOp, Num, Num) -> Option<Num>>(
    alloc: Global,
    sig: &Signature,
    pool: &mut Pool,
    rewriter: &mut Rewriter<F>,
    lin: &Linear,
    condition: &[u8],
    fuel: u64,
) -> Result<Judged, TermFault>
    requires known { (own : List Equation) × FitsPool rewriter.old sig.now own pool.old.trees }
    requires rules { IsExact (F.pre (rule_of (number_rules rewriter.old))) (F.post (rule_of (number_rules rewriter.old))) }
    requires fits { Fits sig.now pool.old.trees (plain_linear lin.now) }
    ensures judged { IfOk result (λ judged. (own : List Equation) → FitsPool rewriter.old sig.now own pool.old.trees
        → IsJudged sig.now own fuel pool.old.trees pool.new.trees (plain_linear lin.now) condition.now judged) }
    ensures not_a_term { IsErrOf result TermFault.NotATerm → (t : Term) → ¬ (SpellsCondition sig.now (plain_linear lin.now).params condition.now t) }
{
    signature_stands(sig);
    let invariant = term_of(alloc, sig, pool, lin.params(), condition)?;
    match judge(alloc, lin, invariant, sig, pool, rewriter, fuel) {
        Ok(judged) => Ok(judged),
        Err(NoMemory) => Err(TermFault::NoMemory),
    }
}

/// What is found of a condition on the parameters of a linear process, by the written equations.
///
/// # Errors
///
/// `NotATerm` where it spells no term of sort Bool over the parameters.
fn judged_over(
    alloc: Global,
    sig: &Signature,
    pool: &mut Pool,
    theory: &Theory,
    lin: &Linear,
    condition: &[u8],
    fuel: u64,
) -> Result<Judged, TermFault>
    requires fits { Fits sig.now pool.old.trees (plain_linear lin.now) }
    requires equations { CanRewrite sig.now pool.old.trees theory.now }
    ensures judged { IfOk result (λ judged. IsJudged sig.now (equations_in sig.now pool.old.trees theory.now) fuel pool.old.trees pool.new.trees (plain_linear lin.now) condition.now judged) }
    ensures not_a_term { IsErrOf result TermFault.NotATerm → (t : Term) → ¬ (SpellsCondition sig.now (plain_linear lin.now).params condition.now t) }
{
    let rules = NumberRules::new(exact);
    let Ok(mut rewriter) = Rewriter::new(alloc, sig, pool, theory, rules) else {
        return Err(TermFault::NoMemory);
    };
    judged_by(alloc, sig, pool, &mut rewriter, lin, condition, fuel)
}

/// What is found of a condition, as it is shown: the linear process under its name without the summands that never fire, or the place that is open.
fn shown_judgement(
    alloc: Global,
    spec: &Spec,
    sig: &mut Signature,
    pool: &Pool,
    name: NameId,
    judged: Judged,
) -> Result<Answer, NoMemory>
    requires name { name.0 < length sig.old.texts }
    requires fits { LeavesWhatFits sig.old pool.now.trees judged }
    ensures { IfOk result (λ answer. IsShownAs (spec_of spec.now) sig.old pool.now.trees name judged answer.status answer.text.items) }
{
    match judged {
        Judged::Holds { lin, truths: _ } => {
            let text = print(alloc, spec, sig, pool, name, &lin)?;
            signature_stands(sig);
            Ok(Answer::done(text))
        }
        Judged::Unproved {
            place,
            part,
            truths: _,
        } => {
            let text = unproved_line(alloc, place, part)?;
            Ok(Answer {
                text,
                status: Status::Undecided,
            })
        }
    }
}

/// What is found of a condition on the parameters of a linear process, as it is shown.
///
/// # Errors
///
/// `NotATerm` where it spells no term of sort Bool over the parameters.
fn shown_condition(
    alloc: Global,
    spec: &Spec,
    sig: &mut Signature,
    pool: &mut Pool,
    theory: &Theory,
    name: NameId,
    lin: &Linear,
    condition: &[u8],
    fuel: u64,
) -> Result<Answer, TermFault>
    requires name { name.0 < length sig.old.texts }
    requires fits { Fits sig.old pool.old.trees (plain_linear lin.now) }
    requires equations { CanRewrite sig.old pool.old.trees theory.now }
    ensures shown { IfOk result (λ answer. ShowsJudgement (spec_of spec.now) sig.old (equations_in sig.old pool.old.trees theory.now) fuel pool.old.trees name (plain_linear lin.now) condition.now answer.status answer.text.items) }
    ensures not_a_term { IsErrOf result TermFault.NotATerm → (t : Term) → ¬ (SpellsCondition sig.old (plain_linear lin.now).params condition.now t) }
{
    let judged = judged_over(alloc, sig, pool, theory, lin, condition, fuel)?;
    match shown_judgement(alloc, spec, sig, pool, name, judged) {
        Ok(answer) => Ok(answer),
        Err(NoMemory) => Err(TermFault::NoMemory),
    }
}

/// What is found of a condition on the parameters of the linear process that was made of a text, as it is shown.
///
/// # Errors
///
/// `NotATerm` where it spells no term of sort Bool over the parameters.
fn shown_of(
    alloc: Global,
    made: Linearised,
    condition: &[u8],
    fuel: u64,
) -> Result<Answer, TermFault>
    requires { (ending : Ending) × (text : List ℕ) × IsMadeOf ending text (spec_of made.spec) made.sig made.pool.trees (map plain_equation made.theory.equations.items) made.name (plain_linear made.lin) }
    ensures shown { IfOk result (λ answer. ShowsJudgement (spec_of made.spec) made.sig (equations_at made.sig made.pool.trees (map plain_equation made.theory.equations.items)) fuel made.pool.trees made.name (plain_linear made.lin) condition.now answer.status answer.text.items) }
    ensures not_a_term { IsErrOf result TermFault.NotATerm → (t : Term) → ¬ (SpellsCondition made.sig (plain_linear made.lin).params condition.now t) }
{
    let Linearised {
        spec,
        sig,
        pool,
        theory,
        name,
        lin,
        components: _,
    } = made;
    let mut sig = sig;
    let mut pool = pool;
    shown_condition(
        alloc, &spec, &mut sig, &mut pool, &theory, name, &lin, condition, fuel,
    )
}

/// Whether the condition that a shelf has under a name holds in all states of the linear process that was made of a text, as it is shown: the process without
/// the summands that never fire then, or the first place at which it isn't proved.
///
/// # Errors
///
/// Those of [`load`], and then `Refused` where the file spells no term of sort Bool over the parameters.
pub fn judgement_of_file<H: Shelf>(
    alloc: Global,
    made: Linearised,
    shelf: &mut H,
    name: &str,
    fuel: u64,
) -> Result<Answer, Stop>
    requires { (ending : Ending) × (text : List ℕ) × IsMadeOf ending text (spec_of made.spec) made.sig made.pool.trees (map plain_equation made.theory.equations.items) made.name (plain_linear made.lin) }
    ensures judged { IfOk result (λ answer. (ending : Ending) (method : Method) (text : List ℕ)
        → IsLinearOf ending method text (spec_of made.spec) made.sig made.pool (map plain_equation made.theory.equations.items) made.name (plain_linear made.lin) made.components
        → IsJudgedAsTold ending method fuel text (H.text_of shelf.old name.now) answer.status answer.text.items) }
    ensures stands_for { IfOk result (λ answer. answer.status ≡ Status.Done → (ending : Ending) (text : List ℕ)
        → IsMadeOf ending text (spec_of made.spec) made.sig made.pool.trees (map plain_equation made.theory.equations.items) made.name (plain_linear made.lin)
        → StandsFor ending text answer.text.items) }
    ensures stopped { IfErr result (λ stop. (ending : Ending) (method : Method) (text : List ℕ)
        → IsLinearOf ending method text (spec_of made.spec) made.sig made.pool (map plain_equation made.theory.equations.items) made.name (plain_linear made.lin) made.components
        → IsConditionStop ending method text (H.text_of shelf.old name.now) stop) }
    ensures read_fault { IsErrOf result Stop.ReadFault → Rose (H.faults shelf.old) (H.faults shelf.new) }
{
    let condition = load(alloc, shelf, name)?;
    match shown_of(alloc, made, &condition, fuel) {
        Ok(answer) => Ok(answer),
        Err(fault) => Err(Stop::for_term(alloc, fault)),
    }
}
