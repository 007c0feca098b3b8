//! What holds of the tokens of any text. The functions do nothing: their contracts are the laws.
ghost use Rattle.std.specs.Prelude.{◌≡◌, ℕ, List, length};
ghost use Rattle.mcrl2_lexer.specs.declared.token.Token.{Token};
ghost use Rattle.mcrl2_lexer.specs.declared.token.LexFault.{LexFault};
ghost use Rattle.mcrl2_lexer.specs.Lexing.{Lexes, HasTokens, HasFault};

/// A text has one list of tokens.
pub fn tokens_are_single()
    ensures { (text : List ℕ) (tokens others : List Token) → Lexes text 0 tokens (length text) → Lexes text 0 others (length text)
        → tokens ≡ others }
{}

/// A text with a fault has no list of tokens that are all accepted.
pub fn faulty_texts_have_no_tokens()
    ensures { (text : List ℕ) (fault : LexFault) (tokens : List Token) → HasFault text fault → HasTokens text tokens → ⊥ }
{}

/// A text has one fault at most.
pub fn faults_are_single()
    ensures { (text : List ℕ) (one other : LexFault) → HasFault text one → HasFault text other → one ≡ other }
{}
