//! The tokens of a text that is read whole.

ghost use Rattle.std.specs.Prelude.{◌≡◌, List, IfOk, IsErrOf};
ghost use Rattle.mcrl2_lexer.specs.declared.token.Token.{Token};
ghost use Rattle.mcrl2_parser.specs.ReadableTexts.{IsReadable, of_lexing};

use crate::levels::is_too_deep;
use crate::stack::has_room;
use crate::words::Fault;
use mcrl2_lexer::{LexFault, Tokens, lex};
use std::alloc::Global;

impl From<LexFault> for Fault {
    ghost from_gives = { λ fault given. given ≡ of_lexing fault };

    fn from(fault: LexFault) -> Self {
        match fault {
            LexFault::NoMemory => Fault::NoMemory,
            _ => Fault::Syntax,
        }
    }
}

/// The tokens of a text that is read whole, where the stack has room for what they spell.
///
/// # Errors
///
/// `Syntax` where the text has no tokens, and where their level passes [`MAX_LEVEL`](crate::MAX_LEVEL). `NoMemory` where no
/// memory is left.
pub fn readable_tokens(alloc: Global, text: &[u8]) -> Result<Tokens, Fault>
    ensures found { IfOk result (λ tokens. IsReadable text.now tokens.list) }
    ensures syntax { IsErrOf result Fault.Syntax → (tokens : List Token) → IsReadable text.now tokens → ⊥ }
{
    let tokens = lex(alloc, text)?;
    if is_too_deep(alloc, tokens.list())? {
        return Err(Fault::Syntax);
    }
    if !has_room(alloc, tokens.list())? {
        return Err(Fault::NoMemory);
    }
    Ok(tokens)
}
