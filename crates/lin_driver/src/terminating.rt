//! Linear processes whose end is an action `Terminate`.

ghost use Rattle.std.specs.Prelude.{◌≡◌, ◌≢◌, ◌++◌, ℕ, List, IfErr, IfOk, MatchOption, OnOk, false, map, true};
ghost use Rattle.std.specs.List.{Contains};
ghost use Rattle.bisim_laws.specs.Terminations.{terminate_name};
ghost use Rattle.mcrl2_syntax.specs.Declarations.{spec_of};
ghost use Rattle.mcrl2_syntax.specs.Words.{word_of};
ghost use Rattle.process_terms.specs.PlainProcesses.{plain_equation};
ghost use Rattle.lps_core.specs.PlainLinears.{plain_linear};
ghost use Rattle.sort_table.specs.BareProcesses.{bare_names};
ghost use Rattle.sort_table.specs.DeclarationTrees.{declaration_of, declarations_of_text, declarations_under};
ghost use Rattle.lin_driver.specs.Faults.{IsFaultBy};
ghost use Rattle.lin_driver.specs.Headline.{DeclareNoAction, DeclaresAction, LeavesTerminate};
ghost use Rattle.lin_driver.specs.LinearOfTexts.{IsLinearOf, IsMadeBy};
ghost use Rattle.lin_driver.specs.Refusals.{IsFirstOfAction, IsParsedAs, IsRefusedWith};
ghost use Rattle.lin_driver.specs.declared.ending.Ending.TheVariants.{Terminate};
ghost use Rattle.lin_driver.specs.declared.methods.Method.{Method};

use crate::ending::Ending;
use crate::fault::LinFault;
use crate::linearising::Linearised;
use data_theory::NoMemory;
use lps_core::{seal, signature_stands};
use mcrl2_syntax::{Decl, Spec, Word};
use std::alloc::Global;

/// Whether one of these words is `Terminate`.
fn has_terminate(words: &[Word]) -> bool
    ensures named { result ≡ true → Contains (bare_names (map word_of words.now)) terminate_name }
    ensures none { result ≡ false → ¬ (Contains (bare_names (map word_of words.now)) terminate_name) }
{
    for word in words {
        if word.bytes.as_slice() == b"Terminate".as_slice() {
            return true;
        }
    }
    false
}

/// Whether this declares an action `Terminate`.
fn declares_terminate(declaration: &Decl) -> bool
    ensures named { result ≡ true → DeclaresAction terminate_name (declaration_of declaration.now) }
    ensures none { result ≡ false → ¬ (DeclaresAction terminate_name (declaration_of declaration.now)) }
{
    match declaration {
        Decl::Act(_, names, _) => has_terminate(names.as_slice()),
        _ => false,
    }
}

/// Puts these declarations behind the others.
fn add_declarations<'a>(list: &mut Vec<&'a Decl>, declarations: &'a [Decl]) -> Result<(), NoMemory>
    ensures { OnOk result (declarations_under list.new.items ≡ declarations_under list.old.items ++ map declaration_of declarations.now) }
{
    for declaration in declarations {
        list.push(declaration)?;
    }
    Ok(())
}

/// The declarations of all sections, in the order of the text.
fn declaration_list<'a>(alloc: Global, spec: &'a Spec) -> Result<Vec<&'a Decl>, NoMemory>
    ensures { IfOk result (λ list. declarations_under list.items ≡ declarations_of_text spec.now) }
{
    let mut list = Vec::new(alloc);
    for section in &spec.sections {
        add_declarations(&mut list, section.declarations.as_slice())?;
    }
    Ok(list)
}

/// The first of these declarations that declares an action `Terminate`, as its number from 1.
fn first_terminate(declarations: &[&Decl]) -> Option<usize>
    ensures { MatchOption result (DeclareNoAction terminate_name (declarations_under declarations.now))
        (IsFirstOfAction terminate_name (declarations_under declarations.now)) }
{
    let mut number = 0;
    for declaration in declarations {
        number += 1;
        if declares_terminate(declaration) {
            return Some(number);
        }
    }
    None
}

/// Refuses a specification that declares an action `Terminate`.
///
/// # Errors
///
/// `TerminateDeclared`, with the number of the first such declaration, and `NoMemory` where there is none for a list of the declarations.
fn refuse_terminate(alloc: Global, spec: &Spec) -> Result<(), LinFault>
    ensures leaves { OnOk result (LeavesTerminate Terminate (spec_of spec.now)) }
    ensures refused { IfErr result (λ fault. fault ≢ LinFault.NoMemory → (text : List ℕ) (texts : List (List ℕ)) → IsParsedAs text (spec_of spec.now) → IsRefusedWith text texts fault) }
    ensures by { IfErr result (λ fault. (method : Method) → IsFaultBy Terminate method fault) }
{
    let declarations = declaration_list(alloc, spec)?;
    match first_terminate(declarations.as_slice()) {
        Some(number) => Err(LinFault::TerminateDeclared(number)),
        None => Ok(()),
    }
}

/// Refuses a specification that declares an action `Terminate`, where the end of its process is to be one.
///
/// # Errors
///
/// `TerminateDeclared`, with the number of the first such declaration, and `NoMemory` where there is none for a list of the declarations.
pub(crate) fn leave_terminate(alloc: Global, spec: &Spec, ending: Ending) -> Result<(), LinFault>
    ensures leaves { OnOk result (LeavesTerminate ending (spec_of spec.now)) }
    ensures refused { IfErr result (λ fault. fault ≢ LinFault.NoMemory → (text : List ℕ) (texts : List (List ℕ)) → IsParsedAs text (spec_of spec.now) → IsRefusedWith text texts fault) }
    ensures by { IfErr result (λ fault. (method : Method) → IsFaultBy ending method fault) }
{
    match ending {
        Ending::End => Ok(()),
        Ending::Terminate => refuse_terminate(alloc, spec),
    }
}

/// A linear process that was made of a text, sealed.
///
/// # Errors
///
/// `TerminateDeclared`, with the number of the first such declaration, where the text declares an action `Terminate`.
fn sealed(alloc: Global, made: Linearised) -> Result<Linearised, LinFault>
    requires made { (method : Method) × IsMadeBy method (spec_of made.spec) made.sig made.pool
        (map plain_equation made.theory.equations.items) made.name (plain_linear made.lin) made.components }
    ensures linear { IfOk result (λ done. (method : Method) (text : List ℕ) → IsParsedAs text (spec_of made.spec)
        → IsMadeBy method (spec_of made.spec) made.sig made.pool
        (map plain_equation made.theory.equations.items) made.name (plain_linear made.lin) made.components
        → IsLinearOf Terminate method text (spec_of done.spec) done.sig done.pool
        (map plain_equation done.theory.equations.items) done.name (plain_linear done.lin) done.components) }
    ensures refused { IfErr result (λ fault. fault ≢ LinFault.NoMemory → (text : List ℕ) (texts : List (List ℕ)) → IsParsedAs text (spec_of made.spec) → IsRefusedWith text texts fault) }
    ensures by { IfErr result (λ fault. (method : Method) → IsFaultBy Terminate method fault) }
{
    refuse_terminate(alloc, &made.spec)?;
    let Linearised {
        spec,
        sig,
        pool,
        theory,
        name,
        lin,
        components,
    } = made;
    let mut sig = sig;
    let mut pool = pool;
    signature_stands(&sig);
    let lin = seal(alloc, lin, &mut sig, &mut pool)?;
    signature_stands(&sig);
    Ok(Linearised {
        spec,
        sig,
        pool,
        theory,
        name,
        lin,
        components,
    })
}

/// A linear process that was made of a text, ended as it is asked to.
///
/// # Errors
///
/// `TerminateDeclared`, with the number of the first such declaration, where the text declares an action `Terminate` and the ending is of
/// this name.
pub(crate) fn ended(alloc: Global, made: Linearised, ending: Ending) -> Result<Linearised, LinFault>
    requires made { (method : Method) × IsMadeBy method (spec_of made.spec) made.sig made.pool
        (map plain_equation made.theory.equations.items) made.name (plain_linear made.lin) made.components }
    ensures linear { IfOk result (λ done. (method : Method) (text : List ℕ) → IsParsedAs text (spec_of made.spec)
        → IsMadeBy method (spec_of made.spec) made.sig made.pool
        (map plain_equation made.theory.equations.items) made.name (plain_linear made.lin) made.components
        → IsLinearOf ending method text (spec_of done.spec) done.sig done.pool
        (map plain_equation done.theory.equations.items) done.name (plain_linear done.lin) done.components) }
    ensures refused { IfErr result (λ fault. fault ≢ LinFault.NoMemory → (text : List ℕ) (texts : List (List ℕ)) → IsParsedAs text (spec_of made.spec) → IsRefusedWith text texts fault) }
    ensures by { IfErr result (λ fault. (method : Method) → IsFaultBy ending method fault) }
{
    match ending {
        Ending::End => Ok(made),
        Ending::Terminate => sealed(alloc, made),
    }
}
