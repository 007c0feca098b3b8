//! Whether the written equations of a text keep the rules under which they are consistent.

ghost use Rattle.std.specs.Prelude.{◌≡◌, ◌≢◌, [], IfErr, IfOk, OnOk};
ghost use Rattle.data_theory.specs.WholeSignatures.{IsSignature};
ghost use Rattle.mcrl2_syntax.specs.Declarations.{spec_of};
ghost use Rattle.mcrl2_syntax.specs.TreeWords.{IsSpecOfWords};
ghost use Rattle.sort_table.specs.BareDeclarations.{bare_sections};
ghost use Rattle.sort_table.specs.Built.{IsBuilt};
ghost use Rattle.sort_checker.specs.FullVocabularies.{FullVocabulary};
ghost use Rattle.sort_checker.specs.TextModels.{HasOneStart};
ghost use Rattle.lin_driver.specs.Accepted.{CanBeLinearised, IsGuardedSystem};
ghost use Rattle.lin_driver.specs.Faults.{IsFaultBy};
ghost use Rattle.lin_driver.specs.JudgedTexts.{IsJudged, IsJudgedFor};
ghost use Rattle.lin_driver.specs.Refusals.{IsRefusedWith, IsSpecFault};
ghost use Rattle.lin_driver.specs.declared.ending.Ending.{Ending};

use crate::ending::Ending;
use crate::fault::LinFault;
use crate::methods::Method;
use crate::model_linearising::linear_of;
use crate::reading::read_text;
use crate::terminating::leave_terminate;
use data_theory::{Names, Signature};
use eqn_check::Answer;
use mcrl2_syntax::Spec;
use sort_checker::elaborate;
use std::alloc::Global;
use term_pool::Pool;

/// What is answered of the equations of a specification that its signature declares, where it can be linearised.
///
/// # Errors
///
/// Those of `elaborate` and of `linear_of`.
fn judge_spec(
    alloc: Global,
    spec: &Spec,
    sig: &mut Signature,
    pool: &mut Pool,
    method: Method,
) -> Result<Answer, LinFault>
    requires words { IsSpecOfWords (spec_of spec.now) }
    requires start { HasOneStart (bare_sections (spec_of spec.now)) }
    requires stands { IsSignature sig.old }
    requires built { IsBuilt (spec_of spec.now) sig.old }
    requires no_terms { pool.old.trees ≡ [] }
    requires no_constants { pool.old.constants ≡ [] }
    ensures accepted { OnOk result ((v : FullVocabulary) × IsGuardedSystem (bare_sections (spec_of spec.now)) v) }
    ensures judged { IfOk result (IsJudgedFor (spec_of spec.now)) }
    ensures refused { IfErr result (λ fault. fault ≢ LinFault.NoMemory → IsSpecFault (spec_of spec.now) sig.new.texts fault) }
    ensures by { (ending : Ending) → IfErr result (IsFaultBy ending method) }
{
    let model = elaborate(alloc, spec, sig, pool)?;
    let answer = eqn_check::check(alloc, sig, &model.theory, pool)?;
    match linear_of(alloc, &model, method, sig, pool) {
        Ok(_) => Ok(answer),
        Err(fault) => Err(LinFault::of_model(fault)),
    }
}

/// What is answered of the equations of a text whose declarations are sound.
///
/// # Errors
///
/// Those of `judge_spec`. `names` then has the texts of the signature.
fn judge_built(
    alloc: Global,
    spec: &Spec,
    sig: Signature,
    names: &mut Names,
    method: Method,
) -> Result<Answer, LinFault>
    requires words { IsSpecOfWords (spec_of spec.now) }
    requires start { HasOneStart (bare_sections (spec_of spec.now)) }
    requires built { IsBuilt (spec_of spec.now) sig }
    ensures accepted { OnOk result ((v : FullVocabulary) × IsGuardedSystem (bare_sections (spec_of spec.now)) v) }
    ensures judged { IfOk result (IsJudgedFor (spec_of spec.now)) }
    ensures refused { IfErr result (λ fault. fault ≢ LinFault.NoMemory → IsSpecFault (spec_of spec.now) names.new fault) }
    ensures by { (ending : Ending) → IfErr result (IsFaultBy ending method) }
{
    let mut sig = sig;
    let _ = sig.next_sort();
    let mut pool = Pool::new(alloc)?;
    match judge_spec(alloc, spec, &mut sig, &mut pool, method) {
        Ok(answer) => Ok(answer),
        Err(fault) => {
            *names = sig.into_names();
            Err(fault)
        }
    }
}

/// Whether the written equations of a text keep the four rules of [`eqn_check`], or the first one that breaks a rule, and the first rule that it
/// breaks. The text is made linear by the method, too.
///
/// # Errors
///
/// Those of [`linearise_as`](crate::linearise_as) with that method and ending.
pub fn judge_equations(
    alloc: Global,
    text: &[u8],
    names: &mut Names,
    method: Method,
    ending: Ending,
) -> Result<Answer, LinFault>
    ensures accepted { OnOk result (CanBeLinearised text.now) }
    ensures judged { IfOk result (IsJudged text.now) }
    ensures refused { IfErr result (λ fault. fault ≢ LinFault.NoMemory → IsRefusedWith text.now names.new fault) }
    ensures by { IfErr result (IsFaultBy ending method) }
{
    let (spec, sig) = read_text(alloc, text, names)?;
    let answer = judge_built(alloc, &spec, sig, names, method)?;
    leave_terminate(alloc, &spec, ending)?;
    Ok(answer)
}
