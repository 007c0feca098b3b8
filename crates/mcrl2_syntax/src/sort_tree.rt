//! Sort expressions.

ghost use Rattle.std.specs.Prelude.{◌≡◌, IfOk};
ghost use Rattle.mcrl2_syntax.specs.Words.{word_of};
ghost use Rattle.mcrl2_syntax.specs.SortTrees.{bool_sort, pos_sort, nat_sort, int_sort, list_sort, named_sort, brackets_sort, plain_sort, sort_span};

use crate::word::{Span, Word};
use std::alloc::{AllocFailed, Global};

/// A sort expression.
#[derive(Debug, Drop)]
pub enum SortTree {
    /// `Bool`
    Bool(Span),
    /// `Pos`
    Pos(Span),
    /// `Nat`
    Nat(Span),
    /// `Int`
    Int(Span),
    /// `List(S)`
    List(Span, Box<SortTree>),
    /// `S`
    Name(Word),
    /// `(S)`
    Brackets(Span, Box<SortTree>),
}

impl SortTree {
    /// The sort `Bool`.
    pub fn bool_at(span: Span) -> SortTree
        ensures { plain_sort result ≡ bool_sort span }
    {
        SortTree::Bool(span)
    }

    /// The sort `Pos`.
    pub fn pos_at(span: Span) -> SortTree
        ensures { plain_sort result ≡ pos_sort span }
    {
        SortTree::Pos(span)
    }

    /// The sort `Nat`.
    pub fn nat_at(span: Span) -> SortTree
        ensures { plain_sort result ≡ nat_sort span }
    {
        SortTree::Nat(span)
    }

    /// The sort `Int`.
    pub fn int_at(span: Span) -> SortTree
        ensures { plain_sort result ≡ int_sort span }
    {
        SortTree::Int(span)
    }

    /// The lists over a sort.
    pub fn list_at(
        alloc: Global,
        span: Span,
        element: SortTree,
    ) -> Result<SortTree, AllocFailed<SortTree>>
        ensures { IfOk result (λ tree. plain_sort tree ≡ list_sort span (plain_sort element)) }
    {
        Ok(SortTree::List(span, Box::new(alloc, element)?))
    }

    /// A sort by its name.
    pub fn name_at(name: Word) -> SortTree
        ensures { plain_sort result ≡ named_sort (word_of name) }
    {
        SortTree::Name(name)
    }

    /// A sort in brackets.
    pub fn brackets_at(
        alloc: Global,
        span: Span,
        inner: SortTree,
    ) -> Result<SortTree, AllocFailed<SortTree>>
        ensures { IfOk result (λ tree. plain_sort tree ≡ brackets_sort span (plain_sort inner)) }
    {
        Ok(SortTree::Brackets(span, Box::new(alloc, inner)?))
    }

    /// Where the sort expression stands.
    pub fn span(&self) -> Span
        ensures { result ≡ sort_span (plain_sort self.now) }
    {
        match self {
            SortTree::Bool(span) => *span,
            SortTree::Pos(span) => *span,
            SortTree::Nat(span) => *span,
            SortTree::Int(span) => *span,
            SortTree::List(span, _) => *span,
            SortTree::Name(name) => name.span,
            SortTree::Brackets(span, _) => *span,
        }
    }
}
