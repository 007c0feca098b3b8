//! Data expressions.

ghost use Rattle.std.specs.Prelude.{◌≡◌, IfOk, Some, None, map};
ghost use Rattle.mcrl2_syntax.specs.Words.{word_of};
ghost use Rattle.mcrl2_syntax.specs.DataTrees.{named, numeral, true_data, false_data, listed, applied, brackets, prefix, binary, sum_chain, product_chain, and_chain, or_chain, datas_of, operands_of, plain_data, plain_operands, data_span};

use crate::word::{Span, Word};
use std::alloc::{AllocFailed, Global};

/// A sign before an expression.
#[derive(Clone, Copy, Debug, PartialEq, Eq)]
pub enum PrefixSign {
    /// `!`
    Not,
    /// `-`
    Negate,
    /// `#`
    Size,
}

/// A sign between two expressions.
#[derive(Clone, Copy, Debug, PartialEq, Eq)]
pub enum InfixSign {
    /// `=>`
    Implies,
    /// `||`
    Or,
    /// `&&`
    And,
    /// `==`
    Equal,
    /// `!=`
    NotEqual,
    /// `<`
    Less,
    /// `<=`
    LessEqual,
    /// `>`
    Greater,
    /// `>=`
    GreaterEqual,
    /// `in`
    In,
    /// `|>`
    Prepend,
    /// `<|`
    Append,
    /// `++`
    Concat,
    /// `+`
    Add,
    /// `-`
    Subtract,
    /// `div`
    Div,
    /// `mod`
    Mod,
    /// `*`
    Multiply,
    /// `.`
    At,
}

/// A name with arguments.
#[derive(Debug, Drop)]
pub struct Application<T: Drop> {
    /// The name.
    pub name: Word,
    /// The arguments.
    pub arguments: Vec<T>,
}

/// A first operand, and further ones, each behind a sign.
#[derive(Debug, Drop)]
pub struct Chain<T: Drop> {
    /// The first operand.
    pub first: T,
    /// The further ones.
    pub further: Vec<(InfixSign, T)>,
}

/// A data expression.
///
/// What takes more room than a word stands in a box, so that each name of a long text takes little.
#[derive(Debug, Drop)]
pub enum DataTree {
    /// `x`
    Name(Word),
    /// `0`
    Numeral(Word),
    /// `true`
    True(Span),
    /// `false`
    False(Span),
    /// `[d, e]`
    List(Span, Box<Vec<DataTree>>),
    /// `f(d, e)`
    Apply(Span, Box<Application<DataTree>>),
    /// `(d)`
    Brackets(Span, Box<DataTree>),
    /// `!d`
    Prefix(Span, PrefixSign, Box<DataTree>),
    /// `d == e`
    Infix(Span, InfixSign, Box<DataTree>, Box<DataTree>),
    /// `d + e - f`
    Sum(Span, Box<Chain<DataTree>>),
    /// `d * e . f`
    Product(Span, Box<Chain<DataTree>>),
    /// `d && e`
    And(Span, Box<Vec<DataTree>>),
    /// `d || e`
    Or(Span, Box<Vec<DataTree>>),
}

impl DataTree {
    /// A name.
    pub fn name_at(name: Word) -> DataTree
        ensures { plain_data result ≡ named (word_of name) }
    {
        DataTree::Name(name)
    }

    /// A numeral.
    pub fn numeral_at(digits: Word) -> DataTree
        ensures { plain_data result ≡ numeral (word_of digits) }
    {
        DataTree::Numeral(digits)
    }

    /// The truth.
    pub fn true_at(span: Span) -> DataTree
        ensures { plain_data result ≡ true_data span }
    {
        DataTree::True(span)
    }

    /// The falsehood.
    pub fn false_at(span: Span) -> DataTree
        ensures { plain_data result ≡ false_data span }
    {
        DataTree::False(span)
    }

    /// A list of elements.
    ///
    /// # Errors
    ///
    /// The elements again, where no memory is left.
    pub fn list_at(
        alloc: Global,
        span: Span,
        elements: Vec<DataTree>,
    ) -> Result<DataTree, AllocFailed<Vec<DataTree>>>
        ensures { IfOk result (λ tree. plain_data tree ≡ listed span (datas_of (map plain_data elements.items))) }
    {
        let elements = Box::new(alloc, elements)?;
        Ok(DataTree::List(span, elements))
    }

    /// A name with arguments.
    ///
    /// # Errors
    ///
    /// The application again, where no memory is left.
    pub fn apply_at(
        alloc: Global,
        span: Span,
        name: Word,
        arguments: Vec<DataTree>,
    ) -> Result<DataTree, AllocFailed<Application<DataTree>>>
        ensures { IfOk result (λ tree. plain_data tree ≡ applied span (word_of name) (datas_of (map plain_data arguments.items))) }
    {
        let application = Box::new(alloc, Application { name, arguments })?;
        Ok(DataTree::Apply(span, application))
    }

    /// An expression in brackets.
    pub fn brackets_at(
        alloc: Global,
        span: Span,
        inner: DataTree,
    ) -> Result<DataTree, AllocFailed<DataTree>>
        ensures { IfOk result (λ tree. plain_data tree ≡ brackets span (plain_data inner)) }
    {
        let inner = Box::new(alloc, inner)?;
        Ok(DataTree::Brackets(span, inner))
    }

    /// A prefix sign before an expression.
    pub fn prefix_at(
        alloc: Global,
        span: Span,
        sign: PrefixSign,
        inner: DataTree,
    ) -> Result<DataTree, AllocFailed<DataTree>>
        ensures { IfOk result (λ tree. plain_data tree ≡ prefix span sign (plain_data inner)) }
    {
        let inner = Box::new(alloc, inner)?;
        Ok(DataTree::Prefix(span, sign, inner))
    }

    /// An infix sign between two expressions.
    pub fn infix_at(
        alloc: Global,
        span: Span,
        sign: InfixSign,
        left: DataTree,
        right: DataTree,
    ) -> Result<DataTree, AllocFailed<DataTree>>
        ensures { IfOk result (λ tree. plain_data tree ≡ binary span sign (plain_data left) (plain_data right)) }
    {
        let left = Box::new(alloc, left)?;
        let right = Box::new(alloc, right)?;
        Ok(DataTree::Infix(span, sign, left, right))
    }

    /// A first operand, and further ones after `+` or `-`, from the left.
    pub fn sum_at(
        alloc: Global,
        span: Span,
        first: DataTree,
        further: Vec<(InfixSign, DataTree)>,
    ) -> Result<DataTree, AllocFailed<Chain<DataTree>>>
        ensures { IfOk result (λ tree. plain_data tree ≡ sum_chain span (plain_data first) (operands_of (plain_operands further.items))) }
    {
        let chain = Box::new(alloc, Chain { first, further })?;
        Ok(DataTree::Sum(span, chain))
    }

    /// A first operand, and further ones after `*` or `.`, from the left.
    pub fn product_at(
        alloc: Global,
        span: Span,
        first: DataTree,
        further: Vec<(InfixSign, DataTree)>,
    ) -> Result<DataTree, AllocFailed<Chain<DataTree>>>
        ensures { IfOk result (λ tree. plain_data tree ≡ product_chain span (plain_data first) (operands_of (plain_operands further.items))) }
    {
        let chain = Box::new(alloc, Chain { first, further })?;
        Ok(DataTree::Product(span, chain))
    }

    /// Operands of `&&`, to be read from the right.
    ///
    /// # Errors
    ///
    /// The operands again, where no memory is left.
    pub fn and_at(
        alloc: Global,
        span: Span,
        operands: Vec<DataTree>,
    ) -> Result<DataTree, AllocFailed<Vec<DataTree>>>
        ensures { IfOk result (λ tree. plain_data tree ≡ and_chain span (datas_of (map plain_data operands.items))) }
    {
        let operands = Box::new(alloc, operands)?;
        Ok(DataTree::And(span, operands))
    }

    /// Operands of `||`, to be read from the right.
    ///
    /// # Errors
    ///
    /// The operands again, where no memory is left.
    pub fn or_at(
        alloc: Global,
        span: Span,
        operands: Vec<DataTree>,
    ) -> Result<DataTree, AllocFailed<Vec<DataTree>>>
        ensures { IfOk result (λ tree. plain_data tree ≡ or_chain span (datas_of (map plain_data operands.items))) }
    {
        let operands = Box::new(alloc, operands)?;
        Ok(DataTree::Or(span, operands))
    }

    /// Where the expression stands.
    pub fn span(&self) -> Span
        ensures { result ≡ data_span (plain_data self.now) }
    {
        match self {
            DataTree::Name(word) => word.span,
            DataTree::Numeral(word) => word.span,
            DataTree::True(span) => *span,
            DataTree::False(span) => *span,
            DataTree::List(span, _) => *span,
            DataTree::Apply(span, _) => *span,
            DataTree::Brackets(span, _) => *span,
            DataTree::Prefix(span, _, _) => *span,
            DataTree::Infix(span, _, _, _) => *span,
            DataTree::Sum(span, _) => *span,
            DataTree::Product(span, _) => *span,
            DataTree::And(span, _) => *span,
            DataTree::Or(span, _) => *span,
        }
    }
}
