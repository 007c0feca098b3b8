//! The names of functions, actions and processes.

ghost use Rattle.std.specs.Prelude.{◌≡◌, ◌<◌, IfOk, OnOk, length, map, slice_get};
ghost use Rattle.std.specs.List.{All};
ghost use Rattle.data_theory.specs.Keys.{Key};
ghost use Rattle.data_theory.specs.Words.{text_of};
ghost use Rattle.data_theory.specs.Actions.{actions_of};
ghost use Rattle.mcrl2_syntax.specs.Declarations.{spec_of};
ghost use Rattle.sort_table.specs.Expressions.{Name};
ghost use Rattle.sort_table.specs.BareDeclarations.{bare_sections};
ghost use Rattle.sort_table.specs.DeclarationTrees.{declaration_of};
ghost use Rattle.sort_table.specs.SignatureVocabularies.{text_under, function_name_of, vocabulary_of};
ghost use Rattle.sort_checker.specs.Faults.{is_function, is_action};
ghost use Rattle.sort_checker.specs.Operators.{stands_in};
ghost use Rattle.sort_checker.specs.NameNumbers.{has_name, AddsNames};
ghost use Rattle.sort_checker.specs.KnownNames.{process_names, Knows, plain_words, number_words, list_words, built_in_words, declared_names, action_names, process_names_by, process_names_of};

use crate::name_numbers::NameNumbers;
use data_theory::{ActEntry, FunId, ListWord, NoMemory, NumberWord, Signature, Word};
use mcrl2_syntax::{Decl, Spec};
use std::alloc::Global;

/// The names of the functions, built in or declared, of the actions and of the processes of a text.
#[derive(Drop)]
pub(crate) struct KnownNames<'a> {
    pub(crate) functions: NameNumbers<'a>,
    pub(crate) actions: NameNumbers<'a>,
    pub(crate) processes: NameNumbers<'a>,
}

/// The known names of a text over its signature.
///
/// # Errors
///
/// `NoMemory` where there is none for the names.
pub(crate) fn known_names<'a>(
    alloc: Global,
    sig: &'a Signature,
    spec: &'a Spec,
) -> Result<KnownNames<'a>, NoMemory>
    ensures { IfOk result (Knows (vocabulary_of sig.now) (bare_sections (spec_of spec.now))) }
{
    Ok(KnownNames {
        functions: function_names(alloc, sig)?,
        actions: names_of_actions(alloc, sig)?,
        processes: names_of_processes(alloc, spec)?,
    })
}

/// The names of the functions.
fn function_names<'a>(alloc: Global, sig: &'a Signature) -> Result<NameNumbers<'a>, NoMemory>
    ensures { IfOk result (λ names. (x : Name) → has_name names x ≡ is_function (vocabulary_of sig.now) x) }
{
    let mut names = NameNumbers::new(alloc);
    add_built_ins(&mut names)?;
    let _ = sig.next_sort();
    add_declared(&mut names, sig, sig.funs())?;
    Ok(names)
}

/// The built-in words of truth, of any sort and of its order.
#[tactic(auto, unfolding(crate::specs::KnownNames::plain_words))]
fn plain_words() -> [Word; 13]
    ensures { result ≡ plain_words }
{
    [
        Word::True,
        Word::False,
        Word::Not,
        Word::And,
        Word::Or,
        Word::Implies,
        Word::Equal,
        Word::Different,
        Word::If,
        Word::Less,
        Word::AtMost,
        Word::Greater,
        Word::AtLeast,
    ]
}

/// The built-in words of numbers.
#[tactic(auto, unfolding(crate::specs::KnownNames::number_words))]
fn number_words() -> [Word; 17]
    ensures { result ≡ number_words }
{
    [
        Word::Number(NumberWord::Plus),
        Word::Number(NumberWord::Minus),
        Word::Number(NumberWord::Times),
        Word::Number(NumberWord::Div),
        Word::Number(NumberWord::Mod),
        Word::Number(NumberWord::Exp),
        Word::Number(NumberWord::Min),
        Word::Number(NumberWord::Max),
        Word::Number(NumberWord::Abs),
        Word::Number(NumberWord::Succ),
        Word::Number(NumberWord::Pred),
        Word::Number(NumberWord::PosToNat),
        Word::Number(NumberWord::NatToInt),
        Word::Number(NumberWord::PosToInt),
        Word::Number(NumberWord::NatToPos),
        Word::Number(NumberWord::IntToNat),
        Word::Number(NumberWord::IntToPos),
    ]
}

/// The built-in words of lists; `[]` is no word.
#[tactic(auto, unfolding(crate::specs::KnownNames::list_words))]
fn list_words() -> [Word; 10]
    ensures { result ≡ list_words }
{
    [
        Word::List(ListWord::Cons),
        Word::List(ListWord::Snoc),
        Word::List(ListWord::Concat),
        Word::List(ListWord::Size),
        Word::List(ListWord::At),
        Word::List(ListWord::Head),
        Word::List(ListWord::Rhead),
        Word::List(ListWord::Tail),
        Word::List(ListWord::Rtail),
        Word::List(ListWord::In),
    ]
}

/// Adds the names of words.
fn add_words<'a>(names: &mut NameNumbers<'a>, words: &[Word]) -> Result<(), NoMemory>
    ensures { OnOk result (AddsNames names.old names.new (map text_of words.now)) }
{
    for word in words {
        names.put(word.text().as_bytes(), 0)?;
    }
    Ok(())
}

/// Adds the names of the built-in functions.
fn add_built_ins<'a>(names: &mut NameNumbers<'a>) -> Result<(), NoMemory>
    ensures { OnOk result (AddsNames names.old names.new (map text_of built_in_words)) }
{
    add_words(names, &plain_words())?;
    add_words(names, &number_words())?;
    add_words(names, &list_words())
}

/// The name of a function.
fn function_text<'a>(sig: &'a Signature, fun: FunId) -> &'a [u8]
    requires { fun.0 < length sig.now.functions }
    ensures { result.now ≡ function_name_of sig.now (slice_get sig.now.functions fun.0) }
{
    sig.fun_name(fun).as_bytes()
}

/// Adds the names of declared functions.
fn add_declared<'a>(
    names: &mut NameNumbers<'a>,
    sig: &'a Signature,
    funs: &[FunId],
) -> Result<(), NoMemory>
    requires { All (λ fun. fun.0 < length sig.now.functions) funs.now }
    ensures { OnOk result (AddsNames names.old names.new (declared_names sig.now funs.now)) }
{
    for fun in funs {
        names.put(function_text(sig, *fun), 0)?;
    }
    Ok(())
}

/// The names of the actions.
fn names_of_actions<'a>(alloc: Global, sig: &'a Signature) -> Result<NameNumbers<'a>, NoMemory>
    ensures { IfOk result (λ names. (x : Name) → has_name names x ≡ is_action (vocabulary_of sig.now) x) }
{
    let mut names = NameNumbers::new(alloc);
    let _ = sig.next_sort();
    add_actions(&mut names, sig, sig.acts())?;
    Ok(names)
}

/// The name of an action.
pub(crate) fn action_text<'a>(sig: &'a Signature, action: &ActEntry) -> &'a [u8]
    requires { action.now.name.0 < length sig.now.texts }
    ensures { result.now ≡ text_under sig.now action.now.name }
{
    sig.names().text(action.name).as_bytes()
}

/// Adds the names of actions.
fn add_actions<'a>(
    names: &mut NameNumbers<'a>,
    sig: &'a Signature,
    actions: &[ActEntry],
) -> Result<(), NoMemory>
    requires { All (λ (a : Key). a.name.0 < length sig.now.texts) (actions_of actions.now) }
    ensures { OnOk result (AddsNames names.old names.new (action_names sig.now (actions_of actions.now))) }
{
    for action in actions {
        names.put(action_text(sig, action), 0)?;
    }
    Ok(())
}

/// The names of the processes.
fn names_of_processes<'a>(alloc: Global, spec: &'a Spec) -> Result<NameNumbers<'a>, NoMemory>
    ensures { IfOk result (λ names. (x : Name) → has_name names x ≡ stands_in x (process_names (bare_sections (spec_of spec.now)))) }
{
    let mut names = NameNumbers::new(alloc);
    for section in &spec.sections {
        add_processes(&mut names, section.declarations.as_slice())?;
    }
    Ok(names)
}

/// Adds the names of the processes that these declarations define.
fn add_processes<'a>(names: &mut NameNumbers<'a>, declarations: &'a [Decl]) -> Result<(), NoMemory>
    ensures { OnOk result (AddsNames names.old names.new (process_names_of declarations.now)) }
{
    for declaration in declarations {
        add_process(names, declaration)?;
    }
    Ok(())
}

/// Adds the name of the process that a declaration defines.
fn add_process<'a>(names: &mut NameNumbers<'a>, declaration: &'a Decl) -> Result<(), NoMemory>
    ensures { OnOk result (AddsNames names.old names.new (process_names_by (declaration_of declaration.now))) }
{
    match declaration {
        Decl::Proc(_, name, _, _) => names.put(name.bytes.as_slice(), 0),
        _ => Ok(()),
    }
}
