//! What is said of texts: their tokens, a data expression in brackets, and the places of their parts.

use crate::data_forms::push_data;
use mcrl2_lexer::{Tokens, lex};
use mcrl2_parser::parse;
use mcrl2_syntax::{Decl, Span, Spec};
use std::alloc::{AllocError, Global};
use std::fmt::Debug;

/// The name of a fault with its place.
fn fault_text<F: Debug>(alloc: Global, fault: &F) -> Result<Vec<u8>, AllocError> {
    Ok(format!(in alloc; "{fault:?}")?.into_bytes())
}

/// The kinds of the tokens with their places.
fn tokens_text(alloc: Global, tokens: &Tokens) -> Result<Vec<u8>, AllocError> {
    let mut out = Vec::new(alloc);
    for token in tokens.list() {
        if !out.is_empty() {
            out.push(b' ')?;
        }
        let text = format!(in alloc; "{:?} {}-{}", token.kind, token.start, token.end)?;
        out.extend_from_slice(text.as_bytes())?;
    }
    Ok(out)
}

/// The left sides of the equations, each in brackets around all its signs.
fn push_left_sides(out: &mut Vec<u8>, spec: &Spec) -> Result<(), AllocError> {
    for section in &spec.sections {
        for declaration in &section.declarations {
            if let Decl::Equation(_, equation) = declaration {
                push_data(out, &equation.left)?;
            }
        }
    }
    Ok(())
}

/// A stretch of text by the places of its first byte and of the one behind it.
fn push_span(out: &mut Vec<u8>, alloc: Global, span: Span) -> Result<(), AllocError> {
    let Span { start, end } = span;
    out.extend_from_slice(format!(in alloc; "{start}-{end}")?.as_bytes())
}

/// The place of a declaration, and that of the whole term or expression at its end.
fn push_places_in(out: &mut Vec<u8>, alloc: Global, tree: &Decl) -> Result<(), AllocError> {
    out.push(b' ')?;
    push_span(out, alloc, tree.span())?;
    let inner = match tree {
        Decl::Equation(_, equation) => equation.right.span(),
        Decl::Init(_, body) => body.span(),
        _ => return Ok(()),
    };
    out.push(b' ')?;
    push_span(out, alloc, inner)
}

/// The places of the sections' words and of the declarations.
fn push_places(out: &mut Vec<u8>, alloc: Global, spec: &Spec) -> Result<(), AllocError> {
    let mut front: &[u8] = b"";
    for section in &spec.sections {
        out.extend_from_slice(front)?;
        push_span(out, alloc, section.span)?;
        for declaration in &section.declarations {
            push_places_in(out, alloc, declaration)?;
        }
        front = b", ";
    }
    Ok(())
}

/// What is said of the specification that the tokens spell.
fn spec_text(alloc: Global, kind: &str, tokens: &Tokens) -> Result<Vec<u8>, AllocError> {
    match parse(alloc, tokens) {
        Ok(spec) => {
            let mut out = Vec::new(alloc);
            if kind == "left" {
                push_left_sides(&mut out, &spec)?;
            } else {
                push_places(&mut out, alloc, &spec)?;
            }
            Ok(out)
        }
        Err(fault) => fault_text(alloc, &fault),
    }
}

/// The answer to a text: its `tokens`, the `left` side of its equation in brackets around all signs, or the `places` of its sections'
/// words, of its declarations, and of the terms and expressions at their ends.
pub fn answer(alloc: Global, kind: &str, text: &str) -> Result<Vec<u8>, AllocError> {
    match lex(alloc, text.as_bytes()) {
        Ok(tokens) if kind == "tokens" => tokens_text(alloc, &tokens),
        Ok(tokens) => spec_text(alloc, kind, &tokens),
        Err(fault) => fault_text(alloc, &fault),
    }
}
