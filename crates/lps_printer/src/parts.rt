//! What is left to write of a term.

use data_theory::TermId;
use mcrl2_syntax::InfixSign;

/// A part of a text that is still to be written.
#[derive(Clone, Copy)]
pub(crate) enum Part<'p> {
    /// A term, in a place of declared sort or in an open one, behind white space.
    Term(TermId, bool, &'p [u8]),
    /// A term in an open place, in brackets or not, behind white space.
    Operand(TermId, bool, &'p [u8]),
    /// ` (first |> rest)`, where the chain doesn't end in `[]`.
    Pair(TermId, TermId),
    /// A sign between operands, behind a space.
    Sign(InfixSign),
    /// Terms, in places of declared sort or in open ones, each behind a comma.
    Further(&'p [TermId], bool),
    /// The elements of a chain that ends in `[]`, each behind a comma.
    Elements(TermId),
    /// `)`
    CloseBracket,
    /// `]`
    CloseList,
}
