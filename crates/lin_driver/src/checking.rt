//! Whether a text can be linearised.

ghost use Rattle.std.specs.Prelude.{◌≡◌, ◌≢◌, [], IfErr, OnOk};
ghost use Rattle.data_theory.specs.WholeSignatures.{IsSignature};
ghost use Rattle.mcrl2_syntax.specs.Declarations.{spec_of};
ghost use Rattle.mcrl2_syntax.specs.TreeWords.{IsSpecOfWords};
ghost use Rattle.process_terms.specs.PlainProcesses.{plain_model};
ghost use Rattle.sort_table.specs.BareDeclarations.{bare_sections};
ghost use Rattle.sort_table.specs.Built.{IsBuilt};
ghost use Rattle.sort_checker.specs.FullVocabularies.{FullVocabulary};
ghost use Rattle.sort_checker.specs.TextModels.{HasOneStart};
ghost use Rattle.guard_check.specs.Guards.{HasDeclaredCalls, IsGuardedModel};
ghost use Rattle.proc_unfold.specs.Parallelism.{StandsOutsideRecursion};
ghost use Rattle.lin_driver.specs.Accepted.{CanBeLinearised, IsGuardedSystem, IsOfTheText, IsUpToRecursion};
ghost use Rattle.lin_driver.specs.ModelLinears.{IsModelFaultOf};
ghost use Rattle.lin_driver.specs.Refusals.{IsRefusedWith, IsSpecFault};

use crate::fault::{LinFault, ModelFault};
use crate::reading::read_text;
use data_theory::{Names, Signature};
use guard_check::check;
use mcrl2_syntax::Spec;
use proc_unfold::outside_recursion;
use process_terms::Model;
use sort_checker::elaborate;
use std::alloc::Global;
use term_pool::Pool;

/// Refuses a specification whose parallelism doesn't stand outside recursion, or whose recursion isn't guarded.
///
/// # Errors
///
/// Those of `outside_recursion`, and then those of `check`, exactly as there.
fn check_model(alloc: Global, model: &Model) -> Result<(), ModelFault>
    requires { HasDeclaredCalls (plain_model model.now) }
    ensures outside { OnOk result (StandsOutsideRecursion (plain_model model.now)) }
    ensures guarded { OnOk result (IsGuardedModel (plain_model model.now)) }
    ensures up_to_recursion { IfErr result IsUpToRecursion }
    ensures refused { IfErr result (IsModelFaultOf (plain_model model.now)) }
{
    outside_recursion(alloc, model)?;
    check(alloc, model)?;
    Ok(())
}

/// Refuses a specification that its signature declares, where it is ill typed or has a fault of parallelism or of recursion.
///
/// # Errors
///
/// Those of `elaborate` and of `check_model`.
fn check_spec(
    alloc: Global,
    spec: &Spec,
    sig: &mut Signature,
    pool: &mut Pool,
) -> Result<(), LinFault>
    requires words { IsSpecOfWords (spec_of spec.now) }
    requires start { HasOneStart (bare_sections (spec_of spec.now)) }
    requires stands { IsSignature sig.old }
    requires built { IsBuilt (spec_of spec.now) sig.old }
    requires no_terms { pool.old.trees ≡ [] }
    requires no_constants { pool.old.constants ≡ [] }
    ensures accepted { OnOk result ((v : FullVocabulary) × IsGuardedSystem (bare_sections (spec_of spec.now)) v) }
    ensures of_the_text { IfErr result (λ fault. fault ≢ LinFault.NoMemory → IsOfTheText fault) }
    ensures refused { IfErr result (λ fault. fault ≢ LinFault.NoMemory → IsSpecFault (spec_of spec.now) sig.new.texts fault) }
{
    let model = elaborate(alloc, spec, sig, pool)?;
    match check_model(alloc, &model) {
        Ok(()) => Ok(()),
        Err(fault) => Err(LinFault::of_model(fault)),
    }
}

/// Refuses a text whose declarations are sound, where it is ill typed or has a fault of parallelism or of recursion.
///
/// # Errors
///
/// Those of `check_spec`. `names` then has the texts of the signature.
fn check_built(
    alloc: Global,
    spec: &Spec,
    sig: Signature,
    names: &mut Names,
) -> Result<(), LinFault>
    requires words { IsSpecOfWords (spec_of spec.now) }
    requires start { HasOneStart (bare_sections (spec_of spec.now)) }
    requires built { IsBuilt (spec_of spec.now) sig }
    ensures accepted { OnOk result ((v : FullVocabulary) × IsGuardedSystem (bare_sections (spec_of spec.now)) v) }
    ensures of_the_text { IfErr result (λ fault. fault ≢ LinFault.NoMemory → IsOfTheText fault) }
    ensures refused { IfErr result (λ fault. fault ≢ LinFault.NoMemory → IsSpecFault (spec_of spec.now) names.new fault) }
{
    let mut sig = sig;
    let _ = sig.next_sort();
    let mut pool = Pool::new(alloc)?;
    match check_spec(alloc, spec, &mut sig, &mut pool) {
        Ok(()) => Ok(()),
        Err(fault) => {
            *names = sig.into_names();
            Err(fault)
        }
    }
}

/// Refuses a text that can't be linearised: the same work as [`linearise`](crate::linearise) up to the recursion.
///
/// A text that is accepted spells a well-typed specification whose parallelism stands outside recursion and whose recursion is guarded.
///
/// # Errors
///
/// The first of these: `Lex`, `Parse`, `Sort`, `Type` and `Net` as of [`linearise`](crate::linearise), and `Guard` where recursion isn't
/// guarded. `names`, which is to be empty, then has the text of each name that the fault lists. `NoMemory` comes only where memory runs out.
pub fn check_text(alloc: Global, text: &[u8], names: &mut Names) -> Result<(), LinFault>
    ensures accepted { OnOk result (CanBeLinearised text.now) }
    ensures of_the_text { IfErr result (λ fault. fault ≢ LinFault.NoMemory → IsOfTheText fault) }
    ensures refused { IfErr result (λ fault. fault ≢ LinFault.NoMemory → IsRefusedWith text.now names.new fault) }
    ensures cannot { IfErr result (λ fault. fault ≢ LinFault.NoMemory → ¬ (CanBeLinearised text.now)) }
{
    let (spec, sig) = read_text(alloc, text, names)?;
    check_built(alloc, &spec, sig, names)
}
