//! The tree of a text, where none of its declarations is refused.
ghost use Rattle.std.specs.Prelude.{◌≡◌, ◌≢◌, ◌++◌, ℕ, List, false, All, IfOk, IfErr, OnOk, count_by, length};
ghost use Rattle.mcrl2_parser.specs.Declarations.{declarations_of, IsWithin};
ghost use Rattle.mcrl2_parser.specs.Faults.{HasFault, IsRefused, IsSound, IsSpelled, is_init, init_number, init_numbers, IsNotOne};
ghost use Rattle.mcrl2_syntax.specs.Declarations.{PlainSpec, plain_decl, spec_of};
ghost use Rattle.mcrl2_syntax.specs.SpelledDeclarations.{SpellsSpec};

use crate::declaration_readers::read_declaration;
use crate::declaring::{Cut, Declaration, MAX_LEN};
use crate::faults::ParseFault;
use crate::levels::is_too_deep;
use crate::sectioning::{begin, put_last};
use crate::sections::is_semicolon;
use crate::stack::has_room;
use crate::words::Fault;
use mcrl2_lexer::{Token, Tokens};
use mcrl2_syntax::{Decl, SectionWord, Spec, section_of_kind};
use std::alloc::{AllocError, Global};

/// The tree of a declaration of a text's tokens, which has that number.
///
/// # Errors
///
/// `TooDeep` where its level passes [`MAX_LEVEL`](crate::MAX_LEVEL), else `Syntax` where it is in no section, no `;` ends it, or
/// its tokens spell no declaration of its section. `NoMemory` where no memory is left, or the stack has no room.
fn tree_of(
    alloc: Global,
    text: &[u8],
    tokens: &[Token],
    number: usize,
    declaration: Declaration,
) -> Result<Decl, ParseFault>
    requires { IsWithin (length tokens.now) declaration }
    ensures spelled { IfOk result (λ tree. IsSpelled text.now tokens.now declaration (plain_decl tree)) }
    ensures sound { OnOk result (IsSound text.now tokens.now declaration) }
    ensures refused { IfErr result (λ fault. fault ≢ ParseFault.NoMemory → IsRefused text.now tokens.now number declaration fault) }
{
    let own = &tokens[declaration.start as usize..declaration.end as usize];
    if is_too_deep(alloc, own)? {
        return Err(ParseFault::TooDeep(number));
    }
    let Some(section) = declaration.section else {
        return Err(ParseFault::Syntax(number));
    };
    if !declaration.is_ended {
        return Err(ParseFault::Syntax(number));
    }
    if !has_room(alloc, own)? {
        return Err(ParseFault::NoMemory);
    }
    match read_declaration(alloc, text, section, own) {
        Ok(tree) => Ok(tree),
        Err(Fault::Syntax) => Err(ParseFault::Syntax(number)),
        Err(Fault::NoMemory) => Err(ParseFault::NoMemory),
    }
}

/// The fault of a declaration that no `;` ends and that has that number: `NoMemory` where no memory is left to look how deep it
/// nests.
fn fault_of(alloc: Global, tokens: &[Token], number: usize, declaration: Declaration) -> ParseFault
    requires within { IsWithin (length tokens.now) declaration }
    requires not_ended { declaration.is_ended ≡ false }
    ensures { (text : List ℕ) → result ≢ ParseFault.NoMemory → IsRefused text tokens.now number declaration result }
{
    let own = &tokens[declaration.start as usize..declaration.end as usize];
    match is_too_deep(alloc, own) {
        Ok(true) => ParseFault::TooDeep(number),
        Ok(false) => ParseFault::Syntax(number),
        Err(_) => ParseFault::NoMemory,
    }
}

/// Whether a declaration is in an `init` section.
fn is_init(declaration: Declaration) -> bool
    ensures { result ≡ is_init declaration }
{
    match declaration.section {
        Some(SectionWord::Init) => true,
        _ => false,
    }
}

/// Puts the number of a declaration behind the others, where that is in an `init` section.
fn note_init(
    inits: &mut Vec<usize>,
    number: usize,
    declaration: Declaration,
) -> Result<(), AllocError>
    ensures { OnOk result (inits.new.items ≡ inits.old.items ++ init_number number (is_init declaration)) }
{
    if is_init(declaration) {
        inits.push(number)?;
    }
    Ok(())
}

/// The specification of a text's tokens, and the numbers of the declarations in `init` sections. Each tree goes into its section
/// as soon as it is read.
///
/// # Errors
///
/// The fault of the first declaration that is refused, and `NoMemory` for 2^32 tokens or more.
fn read_all(alloc: Global, text: &[u8], tokens: &[Token]) -> Result<(Spec, Vec<usize>), ParseFault>
    ensures spelled { IfOk result (λ x. SpellsSpec text.now (spec_of x.0) tokens.now) }
    ensures inits { IfOk result (λ x. x.1.items ≡ init_numbers 1 (declarations_of tokens.now)) }
    ensures sound { OnOk result (All (IsSound text.now tokens.now) (declarations_of tokens.now)) }
    ensures fault { IfErr result (λ fault. fault ≢ ParseFault.NoMemory → HasFault text.now tokens.now fault) }
{
    if tokens.len() > MAX_LEN {
        return Err(ParseFault::NoMemory);
    }
    let mut sections = Vec::new(alloc);
    let mut inits = Vec::new(alloc);
    let mut number = 1;
    let mut cut = Cut::new();
    for (at, token) in tokens.iter().enumerate() {
        let word = section_of_kind(token.kind);
        if let Some(declaration) = cut.pass(at as u32, word, is_semicolon(token.kind)) {
            let tree = tree_of(alloc, text, tokens, number, declaration)?;
            put_last(&mut sections, tree)?;
            note_init(&mut inits, number, declaration)?;
            number += 1;
        }
        if let Some(word) = word {
            begin(alloc, &mut sections, token, word)?;
        }
    }
    match cut.left_over(tokens.len() as u32) {
        Some(left) => Err(fault_of(alloc, tokens, number, left)),
        None => Ok((Spec::new(sections), inits)),
    }
}

/// Refuses declarations of which not exactly one is in an `init` section, by the numbers of those that are.
///
/// # Errors
///
/// `NoInit` where none is, and `TwoInits` with the number of the second one.
fn check_inits(inits: &[usize]) -> Result<(), ParseFault>
    ensures one { OnOk result (length inits.now ≡ 1) }
    ensures not_one { IfErr result (IsNotOne inits.now) }
{
    match inits {
        [] => Err(ParseFault::NoInit),
        [_] => Ok(()),
        [_, second, ..] => Err(ParseFault::TwoInits(*second)),
    }
}

/// The specification that the tokens of a text spell.
///
/// The sections and the grammar of their declarations are those of the mCRL2 language reference, as far as they are read here.
/// The declarations are taken in the order of the text, and the first one that nests too deep or spells none is refused: its
/// level is looked at first. A declaration in no section spells none, and neither does one that no `;` ends. The bound of
/// levels is this program's own.
///
/// # Errors
///
/// `TooDeep` with the number of the first declaration that is refused, if its level passes [`MAX_LEVEL`](crate::MAX_LEVEL), else
/// `Syntax` with that number. If none is refused, `NoInit` where no declaration is in an `init` section, and `TwoInits` with the
/// number of the second one that is. `NoMemory` comes where no memory is left, or the stack has no room for a declaration.
pub fn parse(alloc: Global, tokens: &Tokens) -> Result<Spec, ParseFault>
    ensures spelled { IfOk result (λ spec. SpellsSpec tokens.now.text (spec_of spec) tokens.now.list) }
    ensures single { IfOk result (λ spec. (other : PlainSpec) → SpellsSpec tokens.now.text other tokens.now.list → spec_of spec ≡ other) }
    ensures sound { OnOk result (All (IsSound tokens.now.text tokens.now.list) (declarations_of tokens.now.list)) }
    ensures one_init { OnOk result (count_by is_init (declarations_of tokens.now.list) ≡ 1) }
    ensures fault { IfErr result (λ fault. fault ≢ ParseFault.NoMemory → HasFault tokens.now.text tokens.now.list fault) }
{
    let text = tokens.text();
    let all = tokens.list();
    let (spec, inits) = read_all(alloc, text, all)?;
    check_inits(&inits)?;
    Ok(spec)
}
