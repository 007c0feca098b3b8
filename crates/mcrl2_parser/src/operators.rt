//! The operators around a process term.

ghost use Rattle.std.specs.Prelude.{◌≡◌};
ghost use Rattle.mcrl2_syntax.specs.ProcessTrees.{plain_process};
ghost use Rattle.mcrl2_syntax.specs.SpelledLabels.{operated};
ghost use Rattle.mcrl2_parser.specs.Operators.{operation_of};

use mcrl2_syntax::{CommRule, NameSet, ProcTree, Renaming, Span, Word};

/// An operator without its process term.
#[derive(Debug, Drop)]
pub enum Operator {
    /// `allow`
    Allow(Vec<NameSet>),
    /// `block`
    Block(Vec<Word>),
    /// `hide`
    Hide(Vec<Word>),
    /// `rename`
    Rename(Vec<Renaming>),
    /// `comm`
    Comm(Vec<CommRule>),
}

impl Operator {
    /// The operator around a process term.
    pub fn around(self, span: Span, inner: Box<ProcTree>) -> ProcTree
        ensures { plain_process result ≡ operated span (operation_of self) (plain_process inner.value) }
    {
        match self {
            Operator::Allow(sets) => ProcTree::allow_at(span, sets, inner),
            Operator::Block(names) => ProcTree::block_at(span, names, inner),
            Operator::Hide(names) => ProcTree::hide_at(span, names, inner),
            Operator::Rename(renamings) => ProcTree::rename_at(span, renamings, inner),
            Operator::Comm(rules) => ProcTree::comm_at(span, rules, inner),
        }
    }
}
