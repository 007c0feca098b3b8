//! The tokens of sort and data expressions.

ghost use Rattle.std.specs.Prelude.{◌≡◌, ◌∷◌, map, OnOk};
ghost use Rattle.mcrl2_syntax.specs.SortTrees.{plain_sort};
ghost use Rattle.mcrl2_syntax.specs.DataTrees.{datas_of, operands_of, plain_data, plain_operands};
ghost use Rattle.lps_printer.specs.CopiedPlaces.{AddsCopied};
ghost use Rattle.lps_printer.specs.DataLayout.{infix_kind, prefix_kind};
ghost use Rattle.lps_printer.specs.TreeTokens.{data_tokens, datas_tokens, infix_token, operands_tokens, prefix_token, sort_tokens, token};

use crate::copied_tokens::CopiedText;
use crate::forms::{infix_text, prefix_text};
use data_theory::NoMemory;
use mcrl2_lexer::Kind;
use mcrl2_syntax::{DataTree, InfixSign, PrefixSign, SortTree};

/// The kind of a sign before its operand.
fn prefix_kind(sign: PrefixSign) -> Kind
    ensures { result ≡ prefix_kind sign }
{
    match sign {
        PrefixSign::Not => Kind::Exclamation,
        PrefixSign::Negate => Kind::Minus,
        PrefixSign::Size => Kind::Hash,
    }
}

/// The kind of a sign between its operands.
fn infix_kind(sign: InfixSign) -> Kind
    ensures { result ≡ infix_kind sign }
{
    match sign {
        InfixSign::Implies => Kind::Implies,
        InfixSign::Or => Kind::BarBar,
        InfixSign::And => Kind::AndAnd,
        InfixSign::Equal => Kind::EqualsEquals,
        InfixSign::NotEqual => Kind::NotEquals,
        InfixSign::Less => Kind::Less,
        InfixSign::LessEqual => Kind::LessEquals,
        InfixSign::Greater => Kind::Greater,
        InfixSign::GreaterEqual => Kind::GreaterEquals,
        InfixSign::In => Kind::In,
        InfixSign::Prepend => Kind::Prepend,
        InfixSign::Append => Kind::Append,
        InfixSign::Concat => Kind::Concat,
        InfixSign::Add => Kind::Plus,
        InfixSign::Subtract => Kind::Minus,
        InfixSign::Div => Kind::Div,
        InfixSign::Mod => Kind::Mod,
        InfixSign::Multiply => Kind::Star,
        InfixSign::At => Kind::Dot,
    }
}

impl CopiedText {
    /// A sort expression.
    pub(crate) fn sort(&mut self, tree: &SortTree) -> Result<(), NoMemory>
        ensures { OnOk result (AddsCopied self.old self.new (λ rest. sort_tokens (plain_sort tree.now) rest)) }
    {
        match tree {
            SortTree::Bool(_) => self.token(Kind::BoolWord, b"Bool"),
            SortTree::Pos(_) => self.token(Kind::PosWord, b"Pos"),
            SortTree::Nat(_) => self.token(Kind::NatWord, b"Nat"),
            SortTree::Int(_) => self.token(Kind::IntWord, b"Int"),
            SortTree::List(_, element) => {
                self.token(Kind::ListWord, b"List")?;
                self.token(Kind::LeftParen, b"(")?;
                self.sort(element)?;
                self.token(Kind::RightParen, b")")
            }
            SortTree::Name(name) => self.token(Kind::Identifier, name.bytes.as_slice()),
            SortTree::Brackets(_, inner) => {
                self.token(Kind::LeftParen, b"(")?;
                self.sort(inner)?;
                self.token(Kind::RightParen, b")")
            }
        }
    }

    /// A sign before its operand.
    fn prefix(&mut self, sign: PrefixSign) -> Result<(), NoMemory>
        ensures { OnOk result (AddsCopied self.old self.new (λ rest. prefix_token sign ∷ rest)) }
    {
        self.token(prefix_kind(sign), prefix_text(sign).as_bytes())
    }

    /// A sign between its operands.
    fn infix(&mut self, sign: InfixSign) -> Result<(), NoMemory>
        ensures { OnOk result (AddsCopied self.old self.new (λ rest. infix_token sign ∷ rest)) }
    {
        self.token(infix_kind(sign), infix_text(sign).as_bytes())
    }

    /// A data expression.
    #[cycle(data)]
    pub(crate) fn data(&mut self, tree: &DataTree) -> Result<(), NoMemory>
        ensures { OnOk result (AddsCopied self.old self.new (λ rest. data_tokens (plain_data tree.now) rest)) }
    {
        match tree {
            DataTree::Name(name) => self.token(Kind::Identifier, name.bytes.as_slice()),
            DataTree::Numeral(digits) => self.token(Kind::Numeral, digits.bytes.as_slice()),
            DataTree::True(_) => self.token(Kind::TrueWord, b"true"),
            DataTree::False(_) => self.token(Kind::FalseWord, b"false"),
            DataTree::List(_, elements) => {
                self.token(Kind::LeftBracket, b"[")?;
                self.datas(Kind::Comma, b",", elements.as_slice())?;
                self.token(Kind::RightBracket, b"]")
            }
            DataTree::Apply(_, application) => {
                self.token(Kind::Identifier, application.name.bytes.as_slice())?;
                self.token(Kind::LeftParen, b"(")?;
                self.datas(Kind::Comma, b",", application.arguments.as_slice())?;
                self.token(Kind::RightParen, b")")
            }
            DataTree::Brackets(_, inner) => {
                self.token(Kind::LeftParen, b"(")?;
                self.data(inner)?;
                self.token(Kind::RightParen, b")")
            }
            DataTree::Prefix(_, sign, inner) => {
                self.prefix(*sign)?;
                self.data(inner)
            }
            DataTree::Infix(_, sign, left, right) => {
                self.data(left)?;
                self.infix(*sign)?;
                self.data(right)
            }
            DataTree::Sum(_, chain) | DataTree::Product(_, chain) => {
                self.data(&chain.first)?;
                self.operands(chain.further.as_slice())
            }
            DataTree::And(_, operands) => self.datas(Kind::AndAnd, b"&&", operands.as_slice()),
            DataTree::Or(_, operands) => self.datas(Kind::BarBar, b"||", operands.as_slice()),
        }
    }

    /// Data expressions with a separator between them.
    #[cycle(data)]
    fn datas(&mut self, kind: Kind, separator: &[u8], trees: &[DataTree]) -> Result<(), NoMemory>
        ensures { OnOk result (AddsCopied self.old self.new (λ rest. datas_tokens (token kind separator.now) (datas_of (map plain_data trees.now)) rest)) }
    {
        let mut is_first = true;
        for tree in trees {
            self.separator(is_first, kind, separator)?;
            self.data(tree)?;
            is_first = false;
        }
        Ok(())
    }

    /// Further operands, each behind its sign.
    #[cycle(data)]
    fn operands(&mut self, operands: &[(InfixSign, DataTree)]) -> Result<(), NoMemory>
        ensures { OnOk result (AddsCopied self.old self.new (λ rest. operands_tokens (operands_of (plain_operands operands.now)) rest)) }
    {
        for operand in operands {
            self.infix(operand.0)?;
            self.data(&operand.1)?;
        }
        Ok(())
    }
}
