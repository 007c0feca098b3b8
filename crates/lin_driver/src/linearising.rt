//! The linear process of a text.

ghost use Rattle.std.specs.Prelude.{◌≡◌, ◌≢◌, ℕ, [], IfErr, IfOk, OnOk, map};
ghost use Rattle.data_theory.specs.WholeSignatures.{IsSignature};
ghost use Rattle.mcrl2_syntax.specs.Declarations.{spec_of};
ghost use Rattle.mcrl2_syntax.specs.TreeWords.{IsSpecOfWords};
ghost use Rattle.process_terms.specs.PlainProcesses.{plain_equation, plain_model};
ghost use Rattle.lps_core.specs.PlainLinears.{plain_linear};
ghost use Rattle.sort_table.specs.BareDeclarations.{bare_sections};
ghost use Rattle.sort_table.specs.Built.{IsBuilt};
ghost use Rattle.sort_checker.specs.FullVocabularies.{FullVocabulary};
ghost use Rattle.sort_checker.specs.TextModels.{HasOneStart};
ghost use Rattle.lin_driver.specs.Accepted.{CanBeLinearised, IsGuardedSystem};
ghost use Rattle.lin_driver.specs.Faults.{IsFaultBy};
ghost use Rattle.lin_driver.specs.Linearised.{IsLinearised, IsMadeOf};
ghost use Rattle.lin_driver.specs.LinearOfTexts.{IsLinearOf, IsMadeBy};
ghost use Rattle.lin_driver.specs.Refusals.{IsParsedAs, IsRefusedWith, IsSpecFault};
ghost use Rattle.lin_driver.specs.declared.ending.Ending.{Ending};
ghost use Rattle.lin_driver.specs.declared.ending.Ending.TheVariants.{End};

use crate::ending::Ending;
use crate::fault::LinFault;
use crate::methods::Method;
use crate::model_linearising::linear_of;
use crate::reading::read_text;
use crate::terminating::ended;
use data_theory::{NameId, Names, Signature};
use lps_core::Linear;
use mcrl2_syntax::Spec;
use process_terms::Model;
use sort_checker::elaborate;
use std::alloc::Global;
use term_pool::{Pool, Theory};

/// A text with its linear process.
#[derive(Drop)]
pub struct Linearised {
    /// The specification that the text spells.
    pub spec: Spec,
    /// The signature of what it declares, with the constants and the names that linearising added.
    pub sig: Signature,
    /// The terms of the written equations and of the linear process.
    pub pool: Pool,
    /// The written equations.
    pub theory: Theory,
    /// The name of the linear process.
    pub name: NameId,
    /// The linear process.
    pub lin: Linear,
    /// How many parallel components the specification has.
    pub components: usize,
}

/// The written equations of a model.
fn equations_of(model: Model) -> Theory
    ensures { map plain_equation result.equations.items ≡ (plain_model model).equations }
{
    let Model {
        theory,
        procs: _,
        init: _,
        init_declaration: _,
    } = model;
    theory
}

/// The equations and the linear process of a specification that its signature declares, with the name of the process and the number of
/// components.
///
/// # Errors
///
/// Those of `elaborate` and of `linear_of`.
fn linear_of_spec(
    alloc: Global,
    spec: &Spec,
    sig: &mut Signature,
    pool: &mut Pool,
    method: Method,
) -> Result<(Theory, NameId, Linear, usize), LinFault>
    requires words { IsSpecOfWords (spec_of spec.now) }
    requires start { HasOneStart (bare_sections (spec_of spec.now)) }
    requires stands { IsSignature sig.old }
    requires built { IsBuilt (spec_of spec.now) sig.old }
    requires no_terms { pool.old.trees ≡ [] }
    requires no_constants { pool.old.constants ≡ [] }
    ensures accepted { OnOk result ((v : FullVocabulary) × IsGuardedSystem (bare_sections (spec_of spec.now)) v) }
    ensures made { IfOk result (λ made. IsMadeBy method (spec_of spec.now) sig.new pool.new
        (map plain_equation made.0.equations.items) made.1 (plain_linear made.2) made.3) }
    ensures refused { IfErr result (λ fault. fault ≢ LinFault.NoMemory → IsSpecFault (spec_of spec.now) sig.new.texts fault) }
    ensures by { (ending : Ending) → IfErr result (IsFaultBy ending method) }
{
    let model = elaborate(alloc, spec, sig, pool)?;
    match linear_of(alloc, &model, method, sig, pool) {
        Ok((name, lin, components)) => Ok((equations_of(model), name, lin, components)),
        Err(fault) => Err(LinFault::of_model(fault)),
    }
}

/// A text whose declarations are sound, with its linear process.
///
/// # Errors
///
/// Those of `elaborate` and of `linear_of`. `names` then has the texts of the signature.
fn linear_of_built(
    alloc: Global,
    spec: Spec,
    sig: Signature,
    names: &mut Names,
    method: Method,
) -> Result<Linearised, LinFault>
    requires words { IsSpecOfWords (spec_of spec) }
    requires start { HasOneStart (bare_sections (spec_of spec)) }
    requires built { IsBuilt (spec_of spec) sig }
    ensures accepted { OnOk result ((v : FullVocabulary) × IsGuardedSystem (bare_sections (spec_of spec)) v) }
    ensures spec { IfOk result (λ made. spec_of made.spec ≡ spec_of spec) }
    ensures made { IfOk result (λ made. IsMadeBy method (spec_of made.spec) made.sig made.pool
        (map plain_equation made.theory.equations.items) made.name (plain_linear made.lin) made.components) }
    ensures refused { IfErr result (λ fault. fault ≢ LinFault.NoMemory → IsSpecFault (spec_of spec) names.new fault) }
    ensures by { (ending : Ending) → IfErr result (IsFaultBy ending method) }
{
    let mut sig = sig;
    let _ = sig.next_sort();
    let mut pool = Pool::new(alloc)?;
    match linear_of_spec(alloc, &spec, &mut sig, &mut pool, method) {
        Ok((theory, name, lin, components)) => Ok(Linearised {
            spec,
            sig,
            pool,
            theory,
            name,
            lin,
            components,
        }),
        Err(fault) => {
            *names = sig.into_names();
            Err(fault)
        }
    }
}

/// The linear process of a text by a method, with its end as it is.
///
/// # Errors
///
/// Those of `linearise`.
fn may_end(
    alloc: Global,
    text: &[u8],
    names: &mut Names,
    method: Method,
) -> Result<Linearised, LinFault>
    ensures accepted { OnOk result (CanBeLinearised text.now) }
    ensures parsed { IfOk result (λ made. IsParsedAs text.now (spec_of made.spec)) }
    ensures made { IfOk result (λ made. IsMadeBy method (spec_of made.spec) made.sig made.pool
        (map plain_equation made.theory.equations.items) made.name (plain_linear made.lin) made.components) }
    ensures refused { IfErr result (λ fault. fault ≢ LinFault.NoMemory → IsRefusedWith text.now names.new fault) }
    ensures by { (ending : Ending) → IfErr result (IsFaultBy ending method) }
{
    let (spec, sig) = read_text(alloc, text, names)?;
    linear_of_built(alloc, spec, sig, names, method)
}

/// The linear process of a text by a method, with all that it was made of, and with its end as it is.
///
/// The process that the text specifies is bisimilar to the linear one, over every theory whose data go on from the signature and are
/// consistent. Constants for sorts without constructors and structs of stacks may have been declared, and nothing else is new to the data; no
/// struct is, where no component needs a stack. The linear process is plainly conditioned for what the text's specification writes. It gets the
/// first of the names `P`, `P_1`, .. that is free; its parameters and the sums of a summand have names of their own, and none is a function's.
/// No condition of two or more parts has the part `true`. It is composed of the linear processes of the components. A product directly under
/// `allow`, or under `comm` directly under that, and each product directly inside such a one is the product within what can be completed to an
/// allowed set.
/// The text is one that [`check_text`](crate::check_text) accepts.
///
/// Of a linear text the linear process keeps the parameters, the initial terms and the summands in their order, unless the method is `Stack`: only the
/// names and numbers of variables change, and parts `true` of conditions are left out.
///
/// # Errors
///
/// The first of these: `Lex` where the text has no tokens that are accepted; `Parse` where one of its declarations nests too deeply or
/// spells none, or where not exactly one is in an `init` section; `Sort` where what they declare has a fault; `Type` where the text is ill
/// typed; `Net` where parallelism doesn't stand outside recursion; `Guard` where recursion isn't guarded; and by the method `Regular`
/// `NotTail` for a component whose form has a summand of two calls. `names`, which is to be empty, then has the text of each name that
/// the fault lists. `NoMemory` comes only where memory runs out.
pub fn linearise(
    alloc: Global,
    text: &[u8],
    names: &mut Names,
    method: Method,
) -> Result<Linearised, LinFault>
    ensures accepted { OnOk result (CanBeLinearised text.now) }
    ensures made { IfOk result (λ made. IsMadeOf End text.now (spec_of made.spec) made.sig made.pool.trees (map plain_equation made.theory.equations.items) made.name (plain_linear made.lin)) }
    ensures linear { IfOk result (λ made. IsLinearOf End method text.now (spec_of made.spec) made.sig made.pool
        (map plain_equation made.theory.equations.items) made.name (plain_linear made.lin) made.components) }
    ensures linearised { IfOk result (λ made. IsLinearised End text.now (spec_of made.spec) made.sig made.pool.trees (plain_linear made.lin)) }
    ensures refused { IfErr result (λ fault. fault ≢ LinFault.NoMemory → IsRefusedWith text.now names.new fault) }
    ensures by { IfErr result (IsFaultBy End method) }
{
    may_end(alloc, text, names, method)
}

/// The linear process of a text by a method, which ends as it is asked to. By the ending `End` it is that of [`linearise`].
///
/// By the ending `Terminate` it is that one, sealed: where it can end, an action `Terminate` comes behind the end, and a last parameter, the first of
/// the names `phase`, `phase_1`, .. that is free, says how far the process is. So it never ends. A process that can't end stays. mCRL2's own
/// tools say the end of a process so.
///
/// # Errors
///
/// Those of [`linearise`], and then by the ending `Terminate` `TerminateDeclared` where the text declares an action of this name, with arguments or
/// without, with the number of the first such declaration.
pub fn linearise_as(
    alloc: Global,
    text: &[u8],
    names: &mut Names,
    method: Method,
    ending: Ending,
) -> Result<Linearised, LinFault>
    ensures accepted { OnOk result (CanBeLinearised text.now) }
    ensures made { IfOk result (λ made. IsMadeOf ending text.now (spec_of made.spec) made.sig made.pool.trees (map plain_equation made.theory.equations.items) made.name (plain_linear made.lin)) }
    ensures linear { IfOk result (λ made. IsLinearOf ending method text.now (spec_of made.spec) made.sig made.pool
        (map plain_equation made.theory.equations.items) made.name (plain_linear made.lin) made.components) }
    ensures linearised { IfOk result (λ made. IsLinearised ending text.now (spec_of made.spec) made.sig made.pool.trees (plain_linear made.lin)) }
    ensures refused { IfErr result (λ fault. fault ≢ LinFault.NoMemory → IsRefusedWith text.now names.new fault) }
    ensures by { IfErr result (IsFaultBy ending method) }
    ensures in_turn { IfErr result (λ fault. (number : ℕ) → fault ≡ LinFault.TerminateDeclared number → CanBeLinearised text.now) }
{
    let made = may_end(alloc, text, names, method)?;
    ended(alloc, made, ending)
}
