//! Data expressions as texts in which each sign has its brackets.

use mcrl2_syntax::{DataTree, InfixSign, PrefixSign, Word};
use std::alloc::AllocError;

/// How a prefix sign is written.
fn prefix_text(sign: PrefixSign) -> &'static [u8] {
    match sign {
        PrefixSign::Not => b"(!",
        PrefixSign::Negate => b"(-",
        PrefixSign::Size => b"(#",
    }
}

/// How an infix sign is written.
fn infix_text(sign: InfixSign) -> &'static [u8] {
    match sign {
        InfixSign::Implies => b" => ",
        InfixSign::Or => b" || ",
        InfixSign::And => b" && ",
        InfixSign::Equal => b" == ",
        InfixSign::NotEqual => b" != ",
        InfixSign::Less => b" < ",
        InfixSign::LessEqual => b" <= ",
        InfixSign::Greater => b" > ",
        InfixSign::GreaterEqual => b" >= ",
        InfixSign::In => b" in ",
        InfixSign::Prepend => b" |> ",
        InfixSign::Append => b" <| ",
        InfixSign::Concat => b" ++ ",
        InfixSign::Add => b" + ",
        InfixSign::Subtract => b" - ",
        InfixSign::Div => b" div ",
        InfixSign::Mod => b" mod ",
        InfixSign::Multiply => b" * ",
        InfixSign::At => b" . ",
    }
}

/// A name or a numeral.
fn push_word(out: &mut Vec<u8>, word: &Word) -> Result<(), AllocError> {
    out.extend_from_slice(word.bytes.as_slice())
}

/// Data expressions with commas between them.
#[cycle(data_forms)]
fn push_items(out: &mut Vec<u8>, items: &[DataTree]) -> Result<(), AllocError> {
    let mut front: &[u8] = b"";
    for item in items {
        out.extend_from_slice(front)?;
        push_data(out, item)?;
        front = b", ";
    }
    Ok(())
}

/// The operands behind the first one of a chain that groups to the left.
#[cycle(data_forms)]
fn push_operands(out: &mut Vec<u8>, operands: &[(InfixSign, DataTree)]) -> Result<(), AllocError> {
    for (sign, operand) in operands {
        out.extend_from_slice(infix_text(*sign))?;
        push_data(out, operand)?;
        out.push(b')')?;
    }
    Ok(())
}

/// A chain that groups to the right.
#[cycle(data_forms)]
fn push_to_the_right(
    out: &mut Vec<u8>,
    sign: InfixSign,
    operands: &[DataTree],
) -> Result<(), AllocError> {
    let mut left = operands.len();
    for operand in operands {
        left = left.saturating_sub(1);
        if left > 0 {
            out.push(b'(')?;
        }
        push_data(out, operand)?;
        if left > 0 {
            out.extend_from_slice(infix_text(sign))?;
        }
    }
    push_copies(out, b')', operands.len().saturating_sub(1))
}

/// A byte as often as that.
fn push_copies(out: &mut Vec<u8>, byte: u8, count: usize) -> Result<(), AllocError> {
    for _ in 0..count {
        out.push(byte)?;
    }
    Ok(())
}

/// A data expression with brackets around each sign with its operands, and no others.
#[cycle(data_forms)]
pub fn push_data(out: &mut Vec<u8>, tree: &DataTree) -> Result<(), AllocError> {
    match tree {
        DataTree::Name(word) => push_word(out, word),
        DataTree::Numeral(word) => push_word(out, word),
        DataTree::True(_) => out.extend_from_slice(b"true"),
        DataTree::False(_) => out.extend_from_slice(b"false"),
        DataTree::List(_, items) => {
            out.push(b'[')?;
            push_items(out, items)?;
            out.extend_from_slice(b"]")
        }
        DataTree::Apply(_, application) => {
            push_word(out, &application.name)?;
            out.push(b'(')?;
            push_items(out, &application.arguments)?;
            out.extend_from_slice(b")")
        }
        DataTree::Brackets(_, inner) => push_data(out, inner),
        DataTree::Prefix(_, sign, inner) => {
            out.extend_from_slice(prefix_text(*sign))?;
            push_data(out, inner)?;
            out.extend_from_slice(b")")
        }
        DataTree::Infix(_, sign, left, right) => {
            out.push(b'(')?;
            push_data(out, left)?;
            out.extend_from_slice(infix_text(*sign))?;
            push_data(out, right)?;
            out.extend_from_slice(b")")
        }
        DataTree::Sum(_, chain) | DataTree::Product(_, chain) => {
            push_copies(out, b'(', chain.further.len())?;
            push_data(out, &chain.first)?;
            push_operands(out, &chain.further)
        }
        DataTree::And(_, operands) => push_to_the_right(out, InfixSign::And, operands),
        DataTree::Or(_, operands) => push_to_the_right(out, InfixSign::Or, operands),
    }
}
