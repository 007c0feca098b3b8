//! The readers of declarations.

ghost use Rattle.std.specs.Prelude.{◌≡◌, [], List, IfOk, MatchResult};
ghost use Rattle.mcrl2_lexer.specs.declared.token.Token.{Token};
ghost use Rattle.mcrl2_syntax.specs.DataTrees.{PlainData, plain_data};
ghost use Rattle.mcrl2_syntax.specs.ProcessTrees.{PlainProcess, plain_process};
ghost use Rattle.mcrl2_syntax.specs.Declarations.{PlainDecl, plain_decl};
ghost use Rattle.mcrl2_syntax.specs.SpelledData.{SpellsData};
ghost use Rattle.mcrl2_syntax.specs.SpelledProcesses.{SpellsProcess};
ghost use Rattle.mcrl2_syntax.specs.SpelledDeclarations.{SpellsDecl};
ghost use Rattle.mcrl2_parser.specs.DeclarationParts.{BeginsNamed};

use crate::arrows::arrows_of;
use crate::datas::data;
use crate::lists::list;
use crate::part_spans::{constructors_span, groups_span, names_span, sorts_span};
use crate::parts::{names, vars};
use crate::processes::process;
use crate::signature_readers::{domain, parameters, signature, whole_sort};
use crate::words::{Fault, end, expect, name_before, word};
use mcrl2_lexer::{Kind, Token};
use mcrl2_syntax::{Constructor, DataTree, Decl, ProcTree, SectionWord, joined_spans};
use std::alloc::Global;

// The data expression that all the tokens spell.
fn whole_data(alloc: Global, text: &[u8], tokens: &[Token]) -> Result<DataTree, Fault>
    ensures found { IfOk result (λ x. SpellsData text.now (plain_data x) tokens.now []) }
    ensures only { (d : PlainData) → SpellsData text.now d tokens.now []
        → MatchResult result (λ x. plain_data x ≡ d) (λ e. e ≡ Fault.NoMemory) }
{
    let (tree, rest) = data(alloc, text, tokens)?;
    end(rest)?;
    Ok(tree)
}

// The process term that all the tokens spell.
fn whole_process(alloc: Global, text: &[u8], tokens: &[Token]) -> Result<Box<ProcTree>, Fault>
    ensures found { IfOk result (λ x. SpellsProcess text.now (plain_process x.value) tokens.now []) }
    ensures only { (p : PlainProcess) → SpellsProcess text.now p tokens.now []
        → MatchResult result (λ x. plain_process x.value ≡ p) (λ e. e ≡ Fault.NoMemory) }
{
    let arrows = arrows_of(alloc, tokens)?;
    let (tree, rest) = process(alloc, text, &arrows, tokens)?;
    end(rest)?;
    Ok(tree)
}

// The names of sorts that all the tokens spell.
fn sort_names(alloc: Global, text: &[u8], tokens: &[Token]) -> Result<Decl, Fault>
    ensures found { IfOk result (λ x. SpellsDecl text.now SectionWord.Sort (plain_decl x) tokens.now) }
    ensures only { (d : PlainDecl) → SpellsDecl text.now SectionWord.Sort d tokens.now
        → ((name : Token) (r : List Token) → BeginsNamed Kind.Equals name tokens.now r → ⊥)
        → MatchResult result (λ x. plain_decl x ≡ d) (λ e. e ≡ Fault.NoMemory) }
{
    let (names, rest) = names(alloc, text, tokens, Kind::Comma)?;
    end(rest)?;
    Ok(Decl::sorts_at(names_span(names.as_slice()), names))
}

// The name, and the sort that is given that name: that sort's tokens stand behind the `=`.
fn sort_definition(
    alloc: Global,
    text: &[u8],
    token: &Token,
    tokens: &[Token],
) -> Result<Decl, Fault>
    ensures found { (whole : List Token) → BeginsNamed Kind.Equals token.now whole tokens.now
        → IfOk result (λ x. SpellsDecl text.now SectionWord.Sort (plain_decl x) whole) }
    ensures only { (whole : List Token) (d : PlainDecl) → BeginsNamed Kind.Equals token.now whole tokens.now
        → SpellsDecl text.now SectionWord.Sort d whole → MatchResult result (λ x. plain_decl x ≡ d) (λ e. e ≡ Fault.NoMemory) }
{
    let name = word(alloc, text, token)?;
    let Ok((_, rest)) = expect(tokens, Kind::Struct) else {
        let sort = whole_sort(alloc, text, tokens)?;
        let span = joined_spans(name.span, sort.span());
        let tree = Decl::alias_at(alloc, span, name, sort)?;
        return Ok(tree);
    };
    let (constructors, rest) = list::<Constructor>(alloc, text, rest, Kind::Bar)?;
    end(rest)?;
    let span = joined_spans(name.span, constructors_span(&constructors));
    Ok(Decl::struct_at(span, name, constructors))
}

// The declaration of a `sort` section.
fn sort_declaration(alloc: Global, text: &[u8], tokens: &[Token]) -> Result<Decl, Fault>
    ensures found { IfOk result (λ x. SpellsDecl text.now SectionWord.Sort (plain_decl x) tokens.now) }
    ensures only { (d : PlainDecl) → SpellsDecl text.now SectionWord.Sort d tokens.now
        → MatchResult result (λ x. plain_decl x ≡ d) (λ e. e ≡ Fault.NoMemory) }
{
    match name_before(tokens, Kind::Equals) {
        Some((name, rest)) => sort_definition(alloc, text, name, rest),
        None => sort_names(alloc, text, tokens),
    }
}

// The declaration of a `cons` section.
fn cons_declaration(alloc: Global, text: &[u8], tokens: &[Token]) -> Result<Decl, Fault>
    ensures found { IfOk result (λ x. SpellsDecl text.now SectionWord.Cons (plain_decl x) tokens.now) }
    ensures only { (d : PlainDecl) → SpellsDecl text.now SectionWord.Cons d tokens.now
        → MatchResult result (λ x. plain_decl x ≡ d) (λ e. e ≡ Fault.NoMemory) }
{
    let (names, domain, sort) = signature(alloc, text, tokens)?;
    let span = joined_spans(names_span(names.as_slice()), sort.span());
    let tree = Decl::cons_at(alloc, span, names, domain, sort)?;
    Ok(tree)
}

// The declaration of a `map` section.
fn map_declaration(alloc: Global, text: &[u8], tokens: &[Token]) -> Result<Decl, Fault>
    ensures found { IfOk result (λ x. SpellsDecl text.now SectionWord.Map (plain_decl x) tokens.now) }
    ensures only { (d : PlainDecl) → SpellsDecl text.now SectionWord.Map d tokens.now
        → MatchResult result (λ x. plain_decl x ≡ d) (λ e. e ≡ Fault.NoMemory) }
{
    let (names, domain, sort) = signature(alloc, text, tokens)?;
    let span = joined_spans(names_span(names.as_slice()), sort.span());
    let tree = Decl::map_at(alloc, span, names, domain, sort)?;
    Ok(tree)
}

// The declaration of a `var` section.
fn var_declaration(alloc: Global, text: &[u8], tokens: &[Token]) -> Result<Decl, Fault>
    ensures found { IfOk result (λ x. SpellsDecl text.now SectionWord.Var (plain_decl x) tokens.now) }
    ensures only { (d : PlainDecl) → SpellsDecl text.now SectionWord.Var d tokens.now
        → MatchResult result (λ x. plain_decl x ≡ d) (λ e. e ≡ Fault.NoMemory) }
{
    let (groups, rest) = vars(alloc, text, tokens)?;
    end(rest)?;
    Ok(Decl::vars_at(groups_span(&groups), groups))
}

// The declaration of an `eqn` section.
fn eqn_declaration(alloc: Global, text: &[u8], tokens: &[Token]) -> Result<Decl, Fault>
    ensures found { IfOk result (λ x. SpellsDecl text.now SectionWord.Eqn (plain_decl x) tokens.now) }
    ensures only { (d : PlainDecl) → SpellsDecl text.now SectionWord.Eqn d tokens.now
        → MatchResult result (λ x. plain_decl x ≡ d) (λ e. e ≡ Fault.NoMemory) }
{
    let (first, rest) = data(alloc, text, tokens)?;
    let Ok((_, rest)) = expect(rest, Kind::Arrow) else {
        let (_, rest) = expect(rest, Kind::Equals)?;
        let right = whole_data(alloc, text, rest)?;
        let span = joined_spans(first.span(), right.span());
        return Ok(Decl::equation_at(span, None, first, right));
    };
    let (left, rest) = data(alloc, text, rest)?;
    let (_, rest) = expect(rest, Kind::Equals)?;
    let right = whole_data(alloc, text, rest)?;
    let span = joined_spans(first.span(), right.span());
    let condition = Box::new(alloc, first)?;
    Ok(Decl::equation_at(span, Some(condition), left, right))
}

// The declaration of an `act` section.
fn act_declaration(alloc: Global, text: &[u8], tokens: &[Token]) -> Result<Decl, Fault>
    ensures found { IfOk result (λ x. SpellsDecl text.now SectionWord.Act (plain_decl x) tokens.now) }
    ensures only { (d : PlainDecl) → SpellsDecl text.now SectionWord.Act d tokens.now
        → MatchResult result (λ x. plain_decl x ≡ d) (λ e. e ≡ Fault.NoMemory) }
{
    let (names, rest) = names(alloc, text, tokens, Kind::Comma)?;
    let Ok((_, rest)) = expect(rest, Kind::Colon) else {
        end(rest)?;
        return Ok(Decl::act_at(names_span(names.as_slice()), names, Vec::new(alloc)));
    };
    let (domain, rest) = domain(alloc, text, rest)?;
    end(rest)?;
    let span = joined_spans(names_span(names.as_slice()), sorts_span(&domain));
    Ok(Decl::act_at(span, names, domain))
}

// The declaration of a `proc` section.
fn proc_declaration(alloc: Global, text: &[u8], tokens: &[Token]) -> Result<Decl, Fault>
    ensures found { IfOk result (λ x. SpellsDecl text.now SectionWord.Proc (plain_decl x) tokens.now) }
    ensures only { (d : PlainDecl) → SpellsDecl text.now SectionWord.Proc d tokens.now
        → MatchResult result (λ x. plain_decl x ≡ d) (λ e. e ≡ Fault.NoMemory) }
{
    let (first, rest) = expect(tokens, Kind::Identifier)?;
    let name = word(alloc, text, first)?;
    let (parameters, rest) = parameters(alloc, text, rest)?;
    let (_, rest) = expect(rest, Kind::Equals)?;
    let body = whole_process(alloc, text, rest)?;
    let span = joined_spans(name.span, body.span());
    Ok(Decl::proc_at(span, name, parameters, body))
}

// The declaration of an `init` section.
fn init_declaration(alloc: Global, text: &[u8], tokens: &[Token]) -> Result<Decl, Fault>
    ensures found { IfOk result (λ x. SpellsDecl text.now SectionWord.Init (plain_decl x) tokens.now) }
    ensures only { (d : PlainDecl) → SpellsDecl text.now SectionWord.Init d tokens.now
        → MatchResult result (λ x. plain_decl x ≡ d) (λ e. e ≡ Fault.NoMemory) }
{
    let body = whole_process(alloc, text, tokens)?;
    Ok(Decl::init_at(body.span(), body))
}

/// The declaration that all the tokens spell in a section of that word.
pub fn read_declaration(
    alloc: Global,
    text: &[u8],
    section: SectionWord,
    tokens: &[Token],
) -> Result<Decl, Fault>
    ensures found { IfOk result (λ x. SpellsDecl text.now section (plain_decl x) tokens.now) }
    ensures only { (d : PlainDecl) → SpellsDecl text.now section d tokens.now
        → MatchResult result (λ x. plain_decl x ≡ d) (λ e. e ≡ Fault.NoMemory) }
{
    match section {
        SectionWord::Sort => sort_declaration(alloc, text, tokens),
        SectionWord::Cons => cons_declaration(alloc, text, tokens),
        SectionWord::Map => map_declaration(alloc, text, tokens),
        SectionWord::Var => var_declaration(alloc, text, tokens),
        SectionWord::Eqn => eqn_declaration(alloc, text, tokens),
        SectionWord::Act => act_declaration(alloc, text, tokens),
        SectionWord::Proc => proc_declaration(alloc, text, tokens),
        SectionWord::Init => init_declaration(alloc, text, tokens),
    }
}
