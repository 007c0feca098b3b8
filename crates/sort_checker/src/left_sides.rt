//! The first equation whose left side is a variable.

ghost use Rattle.std.specs.Prelude.{◌≡◌, ◌+◌, map, option_map, IfOk, OnOk};
ghost use Rattle.mcrl2_syntax.specs.Declarations.{spec_of};
ghost use Rattle.mcrl2_syntax.specs.DataTrees.{plain_data, plain_operands, datas_of, operands_of};
ghost use Rattle.sort_table.specs.Expressions.{Name, word};
ghost use Rattle.sort_table.specs.BareData.{bare_data, bare_datas, to_the_left, to_the_right};
ghost use Rattle.sort_table.specs.BareDeclarations.{bare_sections};
ghost use Rattle.sort_table.specs.DeclarationTrees.{declaration_of};
ghost use Rattle.sort_checker.specs.Operators.{stands_in};
ghost use Rattle.sort_checker.specs.Refusals.{left_fault, number_from};
ghost use Rattle.sort_checker.specs.NameNumbers.{has_name, AddsNames};
ghost use Rattle.sort_checker.specs.LeftTrees.{lone_word, is_left_word, left_from, names_before, names_by, names_of_groups, names_of_words};
ghost use Rattle.sort_checker.specs.ScopedTrees.{scoped_under};

use crate::name_numbers::NameNumbers;
use data_theory::NoMemory;
use mcrl2_syntax::{DataTree, Decl, InfixSign, Spec, VarGroup, Word};
use std::alloc::Global;

/// The first declaration that is an equation whose left side is a variable in scope, as its number from 1.
///
/// # Errors
///
/// `NoMemory` where there is none for the names of a section's variables, and where no `usize` counts the declarations.
pub fn variable_left<'a>(alloc: Global, spec: &'a Spec) -> Result<Option<usize>, NoMemory>
    ensures { IfOk result (λ found. found ≡ left_fault (bare_sections (spec_of spec.now))) }
{
    let mut number = 1;
    let mut before: &'a [Decl] = &[];
    for section in &spec.sections {
        let declarations = section.declarations.as_slice();
        if let Some(found) = left_in_section(alloc, number, before, declarations)? {
            return Ok(Some(found));
        }
        number = number_behind(number, declarations.len())?;
        before = declarations;
    }
    Ok(None)
}

/// The number behind those of some declarations.
pub(crate) fn number_behind(number: usize, count: usize) -> Result<usize, NoMemory>
    ensures { IfOk result (λ sum. sum ≡ number + count) }
{
    match number.checked_add(count) {
        Some(sum) => Ok(sum),
        None => Err(NoMemory),
    }
}

/// The first of these declarations, from this number on, whose left side is a variable of the section before.
fn left_in_section<'a>(
    alloc: Global,
    number: usize,
    before: &'a [Decl],
    declarations: &'a [Decl],
) -> Result<Option<usize>, NoMemory>
    ensures { IfOk result (λ found. found ≡ left_from number (scoped_under before.now declarations.now)) }
{
    let names = section_names(alloc, before)?;
    match left_place(&names, declarations) {
        Some(place) => Ok(Some(number_behind(number, place)?)),
        None => Ok(None),
    }
}

/// The place of the first of these declarations whose left side is one of these names.
fn left_place<'a>(names: &NameNumbers<'a>, declarations: &'a [Decl]) -> Option<usize>
    ensures { result ≡ number_from (is_left_word (has_name names.now)) 0 (map declaration_of declarations.now) }
{
    let mut place = 0;
    for declaration in declarations {
        if is_left_word(names, declaration) {
            return Some(place);
        }
        place += 1;
    }
    None
}

/// Whether a declaration is an equation whose left side is one of these names.
fn is_left_word<'a>(names: &NameNumbers<'a>, declaration: &'a Decl) -> bool
    ensures { result ≡ is_left_word (has_name names.now) (declaration_of declaration.now) }
{
    match declaration {
        Decl::Equation(_, equation) => match lone_word(&equation.left) {
            Some(word) => names.get(word).is_some(),
            None => false,
        },
        _ => false,
    }
}

/// The word that an expression is, where it is one without arguments.
#[cycle(words)]
fn lone_word<'a>(tree: &'a DataTree) -> Option<&'a [u8]>
    ensures { option_map (λ word. word.now) result ≡ lone_word (bare_data (plain_data tree.now)) }
{
    match tree {
        DataTree::Name(name) => Some(name.bytes.as_slice()),
        DataTree::True(_) => Some(b"true"),
        DataTree::False(_) => Some(b"false"),
        DataTree::Apply(_, application) => {
            let arguments = application.arguments.as_slice();
            lone_call(application.name.bytes.as_slice(), arguments)
        }
        DataTree::Brackets(_, inner) => lone_word(inner),
        DataTree::Sum(_, chain) | DataTree::Product(_, chain) => {
            lone_first(&chain.first, chain.further.as_slice())
        }
        DataTree::And(_, operands) => lone_operand(b"&&", operands.as_slice()),
        DataTree::Or(_, operands) => lone_operand(b"||", operands.as_slice()),
        DataTree::Numeral(_)
        | DataTree::List(_, _)
        | DataTree::Prefix(_, _, _)
        | DataTree::Infix(_, _, _, _) => None,
    }
}

/// The word itself, where it has no arguments.
fn lone_call<'a>(name: &'a [u8], args: &'a [DataTree]) -> Option<&'a [u8]>
    ensures { option_map (λ word. word.now) result ≡ lone_word (word name.now (bare_datas (datas_of (map plain_data args.now)))) }
{
    if args.is_empty() { Some(name) } else { None }
}

/// The word that a first operand is, where there are no others behind it.
#[cycle(words)]
fn lone_first<'a>(first: &'a DataTree, others: &'a [(InfixSign, DataTree)]) -> Option<&'a [u8]>
    ensures { option_map (λ word. word.now) result ≡ lone_word (to_the_left (bare_data (plain_data first.now)) (operands_of (plain_operands others.now))) }
{
    if others.is_empty() {
        lone_word(first)
    } else {
        None
    }
}

/// The word that a chain of one operand is; without operands it is the sign.
#[cycle(words)]
fn lone_operand<'a>(sign: &'a [u8], operands: &'a [DataTree]) -> Option<&'a [u8]>
    ensures { option_map (λ word. word.now) result ≡ lone_word (to_the_right sign.now (datas_of (map plain_data operands.now))) }
{
    match operands {
        [] => Some(sign),
        [operand] => lone_word(operand),
        _ => None,
    }
}

/// The names of the variables that these declarations declare.
pub(crate) fn section_names<'a>(
    alloc: Global,
    declarations: &'a [Decl],
) -> Result<NameNumbers<'a>, NoMemory>
    ensures { IfOk result (λ names. (n : Name) → has_name names n ≡ stands_in n (names_before declarations.now)) }
{
    let mut names = NameNumbers::new(alloc);
    for declaration in declarations {
        add_declaration(&mut names, declaration)?;
    }
    Ok(names)
}

/// Adds the names of the variables of a declaration.
fn add_declaration<'a>(names: &mut NameNumbers<'a>, declaration: &'a Decl) -> Result<(), NoMemory>
    ensures { OnOk result (AddsNames names.old names.new (names_by declaration.now)) }
{
    match declaration {
        Decl::Vars(_, groups) => add_groups(names, groups.as_slice()),
        _ => Ok(()),
    }
}

/// Adds the names of variables.
fn add_groups<'a>(names: &mut NameNumbers<'a>, groups: &'a [VarGroup]) -> Result<(), NoMemory>
    ensures { OnOk result (AddsNames names.old names.new (names_of_groups groups.now)) }
{
    for group in groups {
        add_words(names, group.names.as_slice())?;
    }
    Ok(())
}

/// Adds names.
pub(crate) fn add_words<'a>(names: &mut NameNumbers<'a>, words: &'a [Word]) -> Result<(), NoMemory>
    ensures { OnOk result (AddsNames names.old names.new (names_of_words words.now)) }
{
    for word in words {
        names.put(word.bytes.as_slice(), 0)?;
    }
    Ok(())
}
