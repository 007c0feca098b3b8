//! The model of a specification, or why it is ill typed.

ghost use Rattle.std.specs.Prelude.{◌≡◌, IfOk, IfErr, OnOk};
ghost use Rattle.std.specs.List.{All, Contains};
ghost use Rattle.std.specs.Str.{IsUtf8};
ghost use Rattle.data_theory.specs.IdTerms.{IsTreeWithin};
ghost use Rattle.mcrl2_syntax.specs.Declarations.{spec_of};
ghost use Rattle.mcrl2_syntax.specs.TreeWords.{IsSpecOfWords};
ghost use Rattle.process_terms.specs.PlainProcesses.{plain_model};
ghost use Rattle.sort_table.specs.BareDeclarations.{bare_sections};
ghost use Rattle.sort_table.specs.Identifiers.{identifiers_in};
ghost use Rattle.sort_checker.specs.Additions.{GoesOn};
ghost use Rattle.sort_checker.specs.FaultNames.{HoldsOfName};
ghost use Rattle.sort_checker.specs.FoundFaults.{fault_of};
ghost use Rattle.sort_checker.specs.FullVocabularies.{FullVocabulary, IsOver};
ghost use Rattle.sort_checker.specs.TextModels.{IsSignatureOf, HasOneStart, IsTypedOver, IsElaboratedText, IsModelOf, IsTypeFaultOf, IsNumberedFault};

use crate::definitions::{definitions, start};
use crate::scoped_declarations::scoped_list;
use crate::table_building::process_table;
use crate::type_faults::{FoundFault, ill_typed};
use crate::variable_sorts::name_number;
use crate::written_equations::written_equations;
use data_theory::{NameId, NoMemory, Signature};
use data_typing::sort_tables::sort_tables;
use mcrl2_syntax::Spec;
use process_terms::Model;
use std::alloc::Global;
use term_pool::{Pool, Theory};

/// Why a specification is ill typed: the number of the first declaration at fault, from 1, and the first name there.
#[derive(Debug, Drop)]
pub enum TypeFault {
    /// A name is neither a variable in scope nor a function, neither an action nor a process, or no action, as its place asks.
    UnknownName(usize, NameId),
    /// A part has no elaboration.
    Untyped(usize),
    /// An equation's condition or right side has a variable that its left side hasn't, or a call leaves out a parameter for which no
    /// variable of that name and sort is in scope.
    FreeVariable(usize, NameId),
    /// The left side of an equation is a variable.
    VariableLeft(usize),
    /// A name stands in two left sides of one `comm`, or a result isn't declared where its left side is.
    CommShape(usize),
    /// A name is renamed twice in one `rename`.
    RenameTwice(usize, NameId),
    /// There was no memory.
    NoMemory,
}

impl From<NoMemory> for TypeFault {
    ghost use Rattle.sort_checker.specs.declared.elaborating.TypeFault.TheVariants.{NoMemory};

    ghost from_gives = { λ _ fault. fault ≡ NoMemory };

    fn from(_: NoMemory) -> Self {
        TypeFault::NoMemory
    }
}

/// The fault with the number of its name.
fn numbered_fault<'a>(sig: &Signature, fault: FoundFault<'a>) -> TypeFault
    requires name { HoldsOfName (λ n. IsUtf8 n × Contains sig.now.texts n) (fault_of fault) }
    ensures { IsNumberedFault sig.now (fault_of fault.entry) result }
{
    match fault {
        FoundFault::UnknownName(number, name) => {
            TypeFault::UnknownName(number, name_number(sig, name))
        }
        FoundFault::Untyped(number) => TypeFault::Untyped(number),
        FoundFault::FreeVariable(number, name) => {
            TypeFault::FreeVariable(number, name_number(sig, name))
        }
        FoundFault::VariableLeft(number) => TypeFault::VariableLeft(number),
        FoundFault::CommShape(number) => TypeFault::CommShape(number),
        FoundFault::RenameTwice(number, name) => {
            TypeFault::RenameTwice(number, name_number(sig, name))
        }
    }
}

/// Refuses a specification that is ill typed.
///
/// # Errors
///
/// The first fault of the specification, and `NoMemory` where there is none to look for it.
fn check_types(alloc: Global, sig: &Signature, spec: &Spec) -> Result<(), TypeFault>
    requires words { IsSpecOfWords (spec_of spec.now) }
    requires start { HasOneStart (bare_sections (spec_of spec.now)) }
    requires built { IsSignatureOf (spec_of spec.now) sig.now }
    ensures elaborates { OnOk result (IsTypedOver sig.now (bare_sections (spec_of spec.now))) }
    ensures refused { IfErr result (IsTypeFaultOf (spec_of spec.now) sig.now) }
{
    match ill_typed(alloc, sig, spec)? {
        Some(fault) => Err(numbered_fault(sig, fault)),
        None => Ok(()),
    }
}

/// The model of a specification whose parts all elaborate.
fn model_of(
    alloc: Global,
    sig: &mut Signature,
    pool: &mut Pool,
    spec: &Spec,
) -> Result<Model, NoMemory>
    requires words { IsSpecOfWords (spec_of spec.now) }
    requires entered { All (Contains sig.old.texts) (identifiers_in (spec_of spec.now)) }
    requires trees { All (IsTreeWithin sig.old) pool.old.trees }
    requires elaborates { IsTypedOver sig.old (bare_sections (spec_of spec.now)) }
    ensures kept { GoesOn sig.old pool.old sig.new pool.new }
    ensures within { OnOk result (All (IsTreeWithin sig.new) pool.new.trees) }
    ensures means { IfOk result (λ model. (v : FullVocabulary) → IsOver sig.old (bare_sections (spec_of spec.now)) v → IsElaboratedText v sig.new pool.new (bare_sections (spec_of spec.now)) (plain_model model)) }
{
    let declarations = scoped_list(alloc, spec)?;
    let list = declarations.as_slice();
    let _ = sig.next_sort();
    let mut tables = sort_tables(alloc, sig)?;
    let processes = process_table(alloc, sig, &tables, list)?;
    let equations = written_equations(alloc, sig, pool, &mut tables, list)?;
    let procs = definitions(alloc, sig, pool, &mut tables, &processes, list)?;
    let (init_declaration, init) = start(alloc, sig, pool, &mut tables, &processes, list)?;
    Ok(Model {
        theory: Theory { equations },
        procs,
        init,
        init_declaration,
    })
}

/// The model of a specification: its written equations, its definitions and the process that starts, over the signature that
/// `sort_table::build` gave for it, with nothing added since but names, variables and list sorts. Each equation has variables of its own.
///
/// The signature gets variables and list sorts, and nothing else. Signature and pool keep every old entry, after a refusal too.
///
/// # Errors
///
/// The first of these that holds: a name isn't known, a part doesn't type, a variable is free, a left side is a variable, the rules of a
/// `comm` don't fit, or a name is renamed twice; with the first declaration, and in it the first name. `NoMemory` comes only where memory
/// runs out.
pub fn elaborate(
    alloc: Global,
    spec: &Spec,
    sig: &mut Signature,
    pool: &mut Pool,
) -> Result<Model, TypeFault>
    requires words { IsSpecOfWords (spec_of spec.now) }
    requires start { HasOneStart (bare_sections (spec_of spec.now)) }
    requires built { IsSignatureOf (spec_of spec.now) sig.old }
    requires trees { All (IsTreeWithin sig.old) pool.old.trees }
    ensures kept { GoesOn sig.old pool.old sig.new pool.new }
    ensures means { IfOk result (λ model. IsModelOf (spec_of spec.now) sig.new pool.new (plain_model model)) }
    ensures refused { IfErr result (IsTypeFaultOf (spec_of spec.now) sig.new) }
{
    let _ = sig.next_sort();
    check_types(alloc, sig, spec)?;
    let model = model_of(alloc, sig, pool, spec)?;
    Ok(model)
}
