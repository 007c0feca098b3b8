//! The lines that refuse a text.
ghost use Rattle.std.specs.Prelude.{◌≡◌, ◌<◌, ◌++◌, codes, decimal, IfOk, OnOk, length, string_bytes};
ghost use Rattle.std.specs.List.{flat_map};
ghost use Rattle.data_theory.specs.declared.ids.NameId.{NameId};
ghost use Rattle.lin_refusals.specs.Lines.{AreNamed, bad_choice_line, bad_term_line, bad_trace_line, guard_line, lex_line, listed, named, names_of_fault, names_of_guard_fault, names_of_net_fault, names_of_sort_fault, names_of_type_fault, net_line, parse_line, refusal_line, sort_line, spaced, text_of, type_line};

use data_theory::{NameId, Names};
use guard_check::GuardFault;
use itoa::Buffer;
use lin_driver::LinFault;
use mcrl2_lexer::LexFault;
use mcrl2_parser::ParseFault;
use proc_unfold::NetFault;
use sort_checker::TypeFault;
use sort_table::SortFault;
use std::alloc::{AllocError, Global};

/// The line that refuses a text with that fault.
pub fn refusal(alloc: Global, names: &Names, fault: &LinFault) -> Result<Vec<u8>, AllocError>
    requires { AreNamed names.now (names_of_fault fault.now) }
    ensures { IfOk result (λ line. line.items ≡ refusal_line names.now fault.now) }
{
    match fault {
        LinFault::Lex(fault) => lex_refusal(alloc, *fault),
        LinFault::Parse(fault) => parse_refusal(alloc, *fault),
        LinFault::Sort(fault) => sort_refusal(alloc, names, fault),
        LinFault::Type(fault) => type_refusal(alloc, names, fault),
        LinFault::Net(fault) => net_refusal(alloc, names, fault),
        LinFault::Guard(fault) => guard_refusal(alloc, names, fault),
        LinFault::NotTail(component, summand) => tail_refusal(alloc, *component, *summand),
        LinFault::TerminateDeclared(number) => {
            numbered(alloc, b"refused 23 TerminateDeclared ", *number)
        }
        LinFault::NoMemory => Vec::from_slice(alloc, b"no memory\n"),
    }
}

fn lex_refusal(alloc: Global, fault: LexFault) -> Result<Vec<u8>, AllocError>
    ensures { IfOk result (λ line. line.items ≡ lex_line fault) }
{
    match fault {
        LexFault::BadByte(place) => numbered(alloc, b"refused 1 BadByte ", place),
        LexFault::NumeralTooLarge(place) => numbered(alloc, b"refused 2 NumeralTooLarge ", place),
        LexFault::OutOfProfile(place) => numbered(alloc, b"refused 3 OutOfProfile ", place),
        LexFault::NoMemory => Vec::from_slice(alloc, b"no memory\n"),
    }
}

fn parse_refusal(alloc: Global, fault: ParseFault) -> Result<Vec<u8>, AllocError>
    ensures { IfOk result (λ line. line.items ≡ parse_line fault) }
{
    match fault {
        ParseFault::Syntax(number) => numbered(alloc, b"refused 4 Syntax ", number),
        ParseFault::TooDeep(number) => numbered(alloc, b"refused 5 TooDeep ", number),
        ParseFault::NoInit => Vec::from_slice(alloc, b"refused 6 NoInit\n"),
        ParseFault::TwoInits(number) => numbered(alloc, b"refused 7 TwoInits ", number),
        ParseFault::NoMemory => Vec::from_slice(alloc, b"no memory\n"),
    }
}

fn sort_refusal(alloc: Global, names: &Names, fault: &SortFault) -> Result<Vec<u8>, AllocError>
    requires { AreNamed names.now (names_of_sort_fault fault.now) }
    ensures { IfOk result (λ line. line.items ≡ sort_line names.now fault.now) }
{
    let mut line = Vec::new(alloc);
    match fault {
        SortFault::UnknownSort(number, name) => {
            line.extend_from_slice(b"refused 8 UnknownSort")?;
            push_number(&mut line, *number)?;
            push_name(&mut line, names, *name)?;
        }
        SortFault::SortCycle(cycle) => {
            line.extend_from_slice(b"refused 9 SortCycle")?;
            push_names(&mut line, names, cycle)?;
        }
        SortFault::Duplicate(first, second) => {
            line.extend_from_slice(b"refused 10 Duplicate")?;
            push_number(&mut line, *first)?;
            push_number(&mut line, *second)?;
        }
        SortFault::EmptySort(name) => {
            line.extend_from_slice(b"refused 11 EmptySort")?;
            push_name(&mut line, names, *name)?;
        }
        SortFault::NoMemory => line.extend_from_slice(b"no memory")?,
    }
    line.extend_from_slice(b"\n")?;
    Ok(line)
}

fn type_refusal(alloc: Global, names: &Names, fault: &TypeFault) -> Result<Vec<u8>, AllocError>
    requires { AreNamed names.now (names_of_type_fault fault.now) }
    ensures { IfOk result (λ line. line.items ≡ type_line names.now fault.now) }
{
    match fault {
        TypeFault::UnknownName(number, name) => {
            named(alloc, b"refused 12 UnknownName", *number, names, *name)
        }
        TypeFault::Untyped(number) => numbered(alloc, b"refused 13 Untyped ", *number),
        TypeFault::FreeVariable(number, name) => {
            named(alloc, b"refused 14 FreeVariable", *number, names, *name)
        }
        TypeFault::VariableLeft(number) => numbered(alloc, b"refused 15 VariableLeft ", *number),
        TypeFault::CommShape(number) => numbered(alloc, b"refused 16 CommShape ", *number),
        TypeFault::RenameTwice(number, name) => {
            named(alloc, b"refused 17 RenameTwice", *number, names, *name)
        }
        TypeFault::NoMemory => Vec::from_slice(alloc, b"no memory\n"),
    }
}

fn net_refusal(alloc: Global, names: &Names, fault: &NetFault) -> Result<Vec<u8>, AllocError>
    requires { AreNamed names.now (names_of_net_fault fault.now) }
    ensures { IfOk result (λ line. line.items ≡ net_line names.now fault.now) }
{
    match fault {
        NetFault::ParallelRecursion(cycle) => {
            listed(alloc, b"refused 18 ParallelRecursion", names, cycle)
        }
        NetFault::ParallelUnderSequential(number) => {
            numbered(alloc, b"refused 19 ParallelUnderSequential ", *number)
        }
        NetFault::NoMemory => Vec::from_slice(alloc, b"no memory\n"),
    }
}

fn guard_refusal(alloc: Global, names: &Names, fault: &GuardFault) -> Result<Vec<u8>, AllocError>
    requires { AreNamed names.now (names_of_guard_fault fault.now) }
    ensures { IfOk result (λ line. line.items ≡ guard_line names.now fault.now) }
{
    match fault {
        GuardFault::Unguarded(cycle) => listed(alloc, b"refused 20 Unguarded", names, cycle),
        GuardFault::NoMemory => Vec::from_slice(alloc, b"no memory\n"),
    }
}

fn tail_refusal(alloc: Global, component: usize, summand: usize) -> Result<Vec<u8>, AllocError>
    ensures { IfOk result (λ line. line.items ≡ codes "refused 21 NotTail" ++ spaced (decimal component) ++ spaced (decimal summand) ++ codes "\n") }
{
    let mut line = Vec::from_slice(alloc, b"refused 21 NotTail")?;
    push_number(&mut line, component)?;
    push_number(&mut line, summand)?;
    line.extend_from_slice(b"\n")?;
    Ok(line)
}

/// A line with names at its end.
fn listed(
    alloc: Global,
    start: &[u8],
    names: &Names,
    list: &[NameId],
) -> Result<Vec<u8>, AllocError>
    requires { AreNamed names.now list.now }
    ensures { IfOk result (λ line. line.items ≡ listed start.now names.now list.now) }
{
    let mut line = Vec::from_slice(alloc, start)?;
    push_names(&mut line, names, list)?;
    line.extend_from_slice(b"\n")?;
    Ok(line)
}

/// A line with a number and a name at its end.
fn named(
    alloc: Global,
    start: &[u8],
    number: usize,
    names: &Names,
    name: NameId,
) -> Result<Vec<u8>, AllocError>
    requires { name.0 < length names.now }
    ensures { IfOk result (λ line. line.items ≡ named start.now number (text_of names.now name)) }
{
    let mut line = Vec::from_slice(alloc, start)?;
    push_number(&mut line, number)?;
    push_name(&mut line, names, name)?;
    line.extend_from_slice(b"\n")?;
    Ok(line)
}

/// The line that refuses a trace whose line with this number is no label.
pub fn bad_trace(alloc: Global, number: usize) -> Result<Vec<u8>, AllocError>
    ensures { IfOk result (λ line. line.items ≡ bad_trace_line number) }
{
    numbered(alloc, b"refused 22 BadTrace ", number)
}

/// The line that refuses a text that is no condition over the parameters.
pub fn bad_term(alloc: Global) -> Result<Vec<u8>, AllocError>
    ensures { IfOk result (λ line. line.items ≡ bad_term_line) }
{
    Vec::from_slice(alloc, b"refused 24 BadTerm\n")
}

/// The line that refuses a text of choices whose line with this number is no move.
pub fn bad_choice(alloc: Global, number: usize) -> Result<Vec<u8>, AllocError>
    ensures { IfOk result (λ line. line.items ≡ bad_choice_line number) }
{
    numbered(alloc, b"refused 28 BadChoice ", number)
}

/// A line with a number at its end.
pub fn numbered(alloc: Global, start: &[u8], number: usize) -> Result<Vec<u8>, AllocError>
    ensures { IfOk result (λ line. line.items ≡ start.now ++ decimal number ++ codes "\n") }
{
    let mut line = Vec::from_slice(alloc, start)?;
    end_with(&mut line, number)?;
    Ok(line)
}

/// Puts a number behind a line, and ends it.
fn end_with(line: &mut Vec<u8>, number: usize) -> Result<(), AllocError>
    ensures { OnOk result (line.new.items ≡ line.old.items ++ decimal number ++ codes "\n") }
{
    let mut buffer = Buffer::new();
    line.extend_from_slice(buffer.format(number).as_bytes())?;
    line.extend_from_slice(b"\n")
}

/// Puts a number behind a line, after a space.
fn push_number(line: &mut Vec<u8>, number: usize) -> Result<(), AllocError>
    ensures { OnOk result (line.new.items ≡ line.old.items ++ spaced (decimal number)) }
{
    let mut buffer = Buffer::new();
    line.extend_from_slice(b" ")?;
    line.extend_from_slice(buffer.format(number).as_bytes())
}

/// Puts the text of a name behind a line, after a space.
fn push_name(line: &mut Vec<u8>, names: &Names, name: NameId) -> Result<(), AllocError>
    requires { name.0 < length names.now }
    ensures { OnOk result (line.new.items ≡ line.old.items ++ spaced (text_of names.now name)) }
{
    line.extend_from_slice(b" ")?;
    line.extend_from_slice(names.text(name).as_bytes())
}

/// Puts the texts of names behind a line, each after a space.
fn push_names(line: &mut Vec<u8>, names: &Names, list: &[NameId]) -> Result<(), AllocError>
    requires { AreNamed names.now list.now }
    ensures { OnOk result (line.new.items ≡ line.old.items ++ flat_map (λ (n : NameId). spaced (text_of names.now n)) list.now) }
{
    for name in list {
        push_name(line, names, *name)?;
    }
    Ok(())
}
