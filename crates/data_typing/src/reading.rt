//! Expressions as nodes.

ghost use Rattle.std.specs.Prelude.{◌≡◌, ◌<◌, ◌^◌, ℕ, length, map, List, IfOk, OnOk};
ghost use Rattle.std.specs.Str.{IsUtf8};
ghost use Rattle.data_theory.specs.declared.ids.FunId.{FunId};
ghost use Rattle.data_theory.specs.Terms.{Symbol};
ghost use Rattle.data_theory.specs.IdTerms.{symbol_under};
ghost use Rattle.mcrl2_lexer.specs.Tokens.{AreDigits};
ghost use Rattle.mcrl2_lexer.specs.Words.{decimal};
ghost use Rattle.mcrl2_syntax.specs.DataTrees.{plain_data, plain_operands, datas_of, operands_of};
ghost use Rattle.sort_table.specs.Expressions.{Name, Expression, none, numeral, listed, word};
ghost use Rattle.sort_table.specs.BareData as bare;
ghost use Rattle.data_typing.specs.Typings.{Meaning};
ghost use Rattle.data_typing.specs.Nodes.{AreNodes, AreBelow};
ghost use Rattle.data_typing.specs.NodeTypings.{Stands, EachStands, GoOn};
ghost use Rattle.sort_table.specs.NamedSorts.{sort_count};
ghost use Rattle.data_typing.specs.Within.{AreNodesWithin};
ghost use Rattle.data_typing.specs.CodeWords.{meaning_in};
ghost use Rattle.data_typing.specs.WordTables.{IsWordContext, HasFunctions};
ghost use Rattle.data_typing.specs.Readings.{expressions_of, joined, bare_trees, IsReadable, AreReadable, AreReadableOperands};

use crate::nodes::{Kind, Node, add};
use crate::word_table::{WordContext, WordTable};
use crate::words::word_kind;
use data_theory::NoMemory;
use mcrl2_lexer::numeral_value;
use mcrl2_syntax::{DataTree, InfixSign, PrefixSign, Word};
use std::alloc::Global;
use std::str::from_utf8;

/// A sign before an expression, as a word.
fn prefix_text(sign: PrefixSign) -> &'static str
    ensures { result.now ≡ bare.prefix_text sign }
{
    match sign {
        PrefixSign::Not => "!",
        PrefixSign::Negate => "-",
        PrefixSign::Size => "#",
    }
}

/// A sign between two expressions, as a word.
fn infix_text(sign: InfixSign) -> &'static str
    ensures { result.now ≡ bare.infix_text sign }
{
    match sign {
        InfixSign::Implies => "=>",
        InfixSign::Or => "||",
        InfixSign::And => "&&",
        InfixSign::Equal => "==",
        InfixSign::NotEqual => "!=",
        InfixSign::Less => "<",
        InfixSign::LessEqual => "<=",
        InfixSign::Greater => ">",
        InfixSign::GreaterEqual => ">=",
        InfixSign::In => "in",
        InfixSign::Prepend => "|>",
        InfixSign::Append => "<|",
        InfixSign::Concat => "++",
        InfixSign::Add => "+",
        InfixSign::Subtract => "-",
        InfixSign::Div => "div",
        InfixSign::Mod => "mod",
        InfixSign::Multiply => "*",
        InfixSign::At => ".",
    }
}

/// A name as text.
fn text_of(name: &Word) -> &str
    requires { IsUtf8 name.now.bytes.items }
    ensures { result.now ≡ name.now.bytes.items }
{
    match from_utf8(name.bytes.as_slice()) {
        Ok(text) => text,
        Err(_) => unreachable!(),
    }
}

/// A word with arguments, behind the nodes.
fn add_word<'a>(
    alloc: Global,
    context: &WordContext<'_>,
    nodes: &mut Vec<Node>,
    words: &mut WordTable<'a>,
    text: &'a str,
    arguments: Vec<usize>,
) -> Result<usize, NoMemory>
    requires context { IsWordContext context.now }
    requires words { HasFunctions context.now words.old }
    requires nodes { AreNodes nodes.old.items }
    requires below { AreBelow (length nodes.old.items) arguments.items }
    ensures words { OnOk result (HasFunctions context.now words.new) }
    ensures grown { OnOk result (GoOn nodes.old.items nodes.new.items) }
    ensures sound { OnOk result (AreNodesWithin (sort_count context.now.sig.now) (length context.now.sig.now.functions) nodes.old.items → AreNodesWithin (sort_count context.now.sig.now) (length context.now.sig.now.functions) nodes.new.items) }
    ensures within { IfOk result (λ at. at < length nodes.new.items) }
    ensures stands { IfOk result (λ at. (es : List Expression) → EachStands (symbol_under context.now.sig.now) (meaning_in context.now.sig.now context.now.scope.now) nodes.old.items arguments.items es → Stands (symbol_under context.now.sig.now) (meaning_in context.now.sig.now context.now.scope.now) nodes.new.items at (word text.now (expressions_of es))) }
{
    let alone = arguments.as_slice().is_empty();
    let kind = word_kind(alloc, context, words, text, alone)?;
    let at = add(nodes, Node { kind, arguments })?;
    Ok(at)
}

/// A word alone, behind the nodes.
fn add_name<'a>(
    alloc: Global,
    context: &WordContext<'_>,
    nodes: &mut Vec<Node>,
    words: &mut WordTable<'a>,
    text: &'a str,
) -> Result<usize, NoMemory>
    requires context { IsWordContext context.now }
    requires words { HasFunctions context.now words.old }
    requires nodes { AreNodes nodes.old.items }
    ensures words { OnOk result (HasFunctions context.now words.new) }
    ensures grown { OnOk result (GoOn nodes.old.items nodes.new.items) }
    ensures sound { OnOk result (AreNodesWithin (sort_count context.now.sig.now) (length context.now.sig.now.functions) nodes.old.items → AreNodesWithin (sort_count context.now.sig.now) (length context.now.sig.now.functions) nodes.new.items) }
    ensures within { IfOk result (λ at. at < length nodes.new.items) }
    ensures stands { IfOk result (λ at. Stands (symbol_under context.now.sig.now) (meaning_in context.now.sig.now context.now.scope.now) nodes.new.items at (word text.now none)) }
{
    add_word(alloc, context, nodes, words, text, Vec::new(alloc))
}

/// A list in brackets, behind the nodes.
fn add_list(nodes: &mut Vec<Node>, elements: Vec<usize>) -> Result<usize, NoMemory>
    requires nodes { AreNodes nodes.old.items }
    requires below { AreBelow (length nodes.old.items) elements.items }
    ensures grown { OnOk result (GoOn nodes.old.items nodes.new.items) }
    ensures sound { OnOk result ((n c : ℕ) → AreNodesWithin n c nodes.old.items → AreNodesWithin n c nodes.new.items) }
    ensures stands { IfOk result (λ at. (y : FunId → Symbol) (m : Name → Meaning) (es : List Expression) → EachStands y m nodes.old.items elements.items es → Stands y m nodes.new.items at (listed (expressions_of es))) }
{
    let node = Node {
        kind: Kind::List,
        arguments: elements,
    };
    let at = add(nodes, node)?;
    Ok(at)
}

/// A numeral, behind the nodes.
fn add_numeral(alloc: Global, nodes: &mut Vec<Node>, digits: &[u8]) -> Result<usize, NoMemory>
    requires nodes { AreNodes nodes.old.items }
    requires digits { AreDigits digits.now }
    requires small { decimal digits.now < 2 ^ 128 }
    ensures grown { OnOk result (GoOn nodes.old.items nodes.new.items) }
    ensures sound { OnOk result ((n c : ℕ) → AreNodesWithin n c nodes.old.items → AreNodesWithin n c nodes.new.items) }
    ensures stands { IfOk result (λ at. (y : FunId → Symbol) (m : Name → Meaning) → Stands y m nodes.new.items at (numeral (decimal digits.now))) }
{
    let Some(value) = numeral_value(digits) else {
        unreachable!()
    };
    let node = Node {
        kind: Kind::Numeral(value),
        arguments: Vec::new(alloc),
    };
    let at = add(nodes, node)?;
    Ok(at)
}

/// Words between expressions, from the right.
fn join<'a>(
    alloc: Global,
    context: &WordContext<'_>,
    nodes: &mut Vec<Node>,
    words: &mut WordTable<'a>,
    text: &'a str,
    operands: &[usize],
) -> Result<usize, NoMemory>
    requires context { IsWordContext context.now }
    requires words { HasFunctions context.now words.old }
    requires nodes { AreNodes nodes.old.items }
    requires below { AreBelow (length nodes.old.items) operands.now }
    ensures words { OnOk result (HasFunctions context.now words.new) }
    ensures grown { OnOk result (GoOn nodes.old.items nodes.new.items) }
    ensures sound { OnOk result (AreNodesWithin (sort_count context.now.sig.now) (length context.now.sig.now.functions) nodes.old.items → AreNodesWithin (sort_count context.now.sig.now) (length context.now.sig.now.functions) nodes.new.items) }
    ensures stands { IfOk result (λ at. (es : List Expression) → EachStands (symbol_under context.now.sig.now) (meaning_in context.now.sig.now context.now.scope.now) nodes.old.items operands.now es → Stands (symbol_under context.now.sig.now) (meaning_in context.now.sig.now context.now.scope.now) nodes.new.items at (joined text.now es)) }
{
    if operands.is_empty() {
        return add_name(alloc, context, nodes, words, text);
    }
    let last = operands.len() - 1;
    let mut at = operands[last];
    for step in 0..last {
        let parts = Vec::from_array(alloc, [operands[last - 1 - step], at])?;
        at = add_word(alloc, context, nodes, words, text, parts)?;
    }
    Ok(at)
}

/// An expression as nodes behind the others, and the number of its own node.
#[cycle(reading)]
pub fn read<'a>(
    alloc: Global,
    context: &WordContext<'_>,
    nodes: &mut Vec<Node>,
    words: &mut WordTable<'a>,
    tree: &'a DataTree,
) -> Result<usize, NoMemory>
    requires context { IsWordContext context.now }
    requires words { HasFunctions context.now words.old }
    requires nodes { AreNodes nodes.old.items }
    requires tree { IsReadable (plain_data tree.now) }
    ensures words { OnOk result (HasFunctions context.now words.new) }
    ensures grown { OnOk result (GoOn nodes.old.items nodes.new.items) }
    ensures sound { OnOk result (AreNodesWithin (sort_count context.now.sig.now) (length context.now.sig.now.functions) nodes.old.items → AreNodesWithin (sort_count context.now.sig.now) (length context.now.sig.now.functions) nodes.new.items) }
    ensures stands { IfOk result (λ at. Stands (symbol_under context.now.sig.now) (meaning_in context.now.sig.now context.now.scope.now) nodes.new.items at (bare.bare_data (plain_data tree.now))) }
{
    match tree {
        DataTree::Name(name) => add_name(alloc, context, nodes, words, text_of(name)),
        DataTree::Numeral(digits) => add_numeral(alloc, nodes, digits.bytes.as_slice()),
        DataTree::True(_) => add_name(alloc, context, nodes, words, "true"),
        DataTree::False(_) => add_name(alloc, context, nodes, words, "false"),
        DataTree::List(_, elements) => {
            let parts = read_all(alloc, context, nodes, words, elements.as_slice())?;
            add_list(nodes, parts)
        }
        DataTree::Apply(_, application) => {
            let word = text_of(&application.name);
            let arguments = application.arguments.as_slice();
            let parts = read_all(alloc, context, nodes, words, arguments)?;
            add_word(alloc, context, nodes, words, word, parts)
        }
        DataTree::Brackets(_, inner) => read(alloc, context, nodes, words, inner),
        DataTree::Prefix(_, sign, inner) => {
            let part = read(alloc, context, nodes, words, inner)?;
            let parts = Vec::from_array(alloc, [part])?;
            add_word(alloc, context, nodes, words, prefix_text(*sign), parts)
        }
        DataTree::Infix(_, sign, left, right) => {
            let first = read(alloc, context, nodes, words, left)?;
            let second = read(alloc, context, nodes, words, right)?;
            let parts = Vec::from_array(alloc, [first, second])?;
            add_word(alloc, context, nodes, words, infix_text(*sign), parts)
        }
        DataTree::Sum(_, chain) | DataTree::Product(_, chain) => {
            let at = read(alloc, context, nodes, words, &chain.first)?;
            read_chain(alloc, context, nodes, words, at, chain.further.as_slice())
        }
        DataTree::And(_, operands) => {
            read_joined(alloc, context, nodes, words, "&&", operands.as_slice())
        }
        DataTree::Or(_, operands) => {
            read_joined(alloc, context, nodes, words, "||", operands.as_slice())
        }
    }
}

/// Expressions as nodes, one after the other, and the numbers of their own nodes.
#[cycle(reading)]
fn read_all<'a>(
    alloc: Global,
    context: &WordContext<'_>,
    nodes: &mut Vec<Node>,
    words: &mut WordTable<'a>,
    trees: &'a [DataTree],
) -> Result<Vec<usize>, NoMemory>
    requires context { IsWordContext context.now }
    requires words { HasFunctions context.now words.old }
    requires nodes { AreNodes nodes.old.items }
    requires trees { AreReadable (datas_of (map plain_data trees.now)) }
    ensures words { OnOk result (HasFunctions context.now words.new) }
    ensures grown { OnOk result (GoOn nodes.old.items nodes.new.items) }
    ensures sound { OnOk result (AreNodesWithin (sort_count context.now.sig.now) (length context.now.sig.now.functions) nodes.old.items → AreNodesWithin (sort_count context.now.sig.now) (length context.now.sig.now.functions) nodes.new.items) }
    ensures stand { IfOk result (λ parts. EachStands (symbol_under context.now.sig.now) (meaning_in context.now.sig.now context.now.scope.now) nodes.new.items parts.items (bare_trees trees.now)) }
{
    let mut parts: Vec<usize> = Vec::new(alloc);
    for tree in trees {
        let at = read(alloc, context, nodes, words, tree)?;
        parts.push(at)?;
    }
    Ok(parts)
}

/// Expressions with a word between them, from the right. It is inlined, so that a level takes no more of the stack.
#[inline(always)]
#[cycle(reading)]
fn read_joined<'a>(
    alloc: Global,
    context: &WordContext<'_>,
    nodes: &mut Vec<Node>,
    words: &mut WordTable<'a>,
    text: &'a str,
    trees: &'a [DataTree],
) -> Result<usize, NoMemory>
    requires context { IsWordContext context.now }
    requires words { HasFunctions context.now words.old }
    requires nodes { AreNodes nodes.old.items }
    requires trees { AreReadable (datas_of (map plain_data trees.now)) }
    ensures words { OnOk result (HasFunctions context.now words.new) }
    ensures grown { OnOk result (GoOn nodes.old.items nodes.new.items) }
    ensures sound { OnOk result (AreNodesWithin (sort_count context.now.sig.now) (length context.now.sig.now.functions) nodes.old.items → AreNodesWithin (sort_count context.now.sig.now) (length context.now.sig.now.functions) nodes.new.items) }
    ensures stands { IfOk result (λ at. Stands (symbol_under context.now.sig.now) (meaning_in context.now.sig.now context.now.scope.now) nodes.new.items at (joined text.now (bare_trees trees.now))) }
{
    let parts = read_all(alloc, context, nodes, words, trees)?;
    join(alloc, context, nodes, words, text, parts.as_slice())
}

/// An expression that was read, with further ones behind signs, from the left.
#[cycle(reading)]
fn read_chain<'a>(
    alloc: Global,
    context: &WordContext<'_>,
    nodes: &mut Vec<Node>,
    words: &mut WordTable<'a>,
    first: usize,
    operands: &'a [(InfixSign, DataTree)],
) -> Result<usize, NoMemory>
    requires context { IsWordContext context.now }
    requires words { HasFunctions context.now words.old }
    requires nodes { AreNodes nodes.old.items }
    requires first { first < length nodes.old.items }
    requires trees { AreReadableOperands (operands_of (plain_operands operands.now)) }
    ensures words { OnOk result (HasFunctions context.now words.new) }
    ensures grown { OnOk result (GoOn nodes.old.items nodes.new.items) }
    ensures sound { OnOk result (AreNodesWithin (sort_count context.now.sig.now) (length context.now.sig.now.functions) nodes.old.items → AreNodesWithin (sort_count context.now.sig.now) (length context.now.sig.now.functions) nodes.new.items) }
    ensures stands { IfOk result (λ at. (e : Expression) → Stands (symbol_under context.now.sig.now) (meaning_in context.now.sig.now context.now.scope.now) nodes.old.items first e → Stands (symbol_under context.now.sig.now) (meaning_in context.now.sig.now context.now.scope.now) nodes.new.items at (bare.to_the_left e (operands_of (plain_operands operands.now)))) }
{
    let mut at = first;
    for operand in operands {
        let right = read(alloc, context, nodes, words, &operand.1)?;
        let parts = Vec::from_array(alloc, [at, right])?;
        at = add_word(alloc, context, nodes, words, infix_text(operand.0), parts)?;
    }
    Ok(at)
}
