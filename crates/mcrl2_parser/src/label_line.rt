//! The label that a line is.

ghost use Rattle.std.specs.Prelude.{◌≡◌, IfOk, IsErrOf};
ghost use Rattle.mcrl2_syntax.specs.ProcessParts.{PlainLabel, label_of};
ghost use Rattle.mcrl2_parser.specs.LabelLines.{IsLabelLine, of_reading};

use crate::parts::label;
use crate::readable::readable_tokens;
use crate::words::{Fault, end};
use mcrl2_syntax::LabelTree;
use std::alloc::Global;

/// Why a line gives no label.
#[derive(Clone, Copy, Debug, PartialEq, Eq)]
pub enum LabelFault {
    /// The line isn't the text of a label.
    NotALabel,
    /// No memory was left.
    NoMemory,
}

impl From<Fault> for LabelFault {
    ghost from_gives = { λ fault given. given ≡ of_reading fault };

    fn from(fault: Fault) -> Self {
        match fault {
            Fault::NoMemory => LabelFault::NoMemory,
            Fault::Syntax => LabelFault::NotALabel,
        }
    }
}

/// The label that a line spells, as `a(1)|b`. White space and comments may stand around its tokens.
///
/// # Errors
///
/// `NotALabel` where the line has no tokens, where their level passes [`MAX_LEVEL`](crate::MAX_LEVEL), and where they spell no
/// label. `NoMemory` where no memory is left.
pub fn parse_label(alloc: Global, line: &[u8]) -> Result<LabelTree, LabelFault>
    ensures found { IfOk result (λ tree. IsLabelLine line.now (label_of tree)) }
    ensures single { IfOk result (λ tree. (label : PlainLabel) → IsLabelLine line.now label → label_of tree ≡ label) }
    ensures not_a_label { IsErrOf result LabelFault.NotALabel → (label : PlainLabel) → IsLabelLine line.now label → ⊥ }
{
    let tokens = readable_tokens(alloc, line)?;
    let (tree, rest) = label(alloc, line, tokens.list())?;
    end(rest)?;
    Ok(tree)
}
