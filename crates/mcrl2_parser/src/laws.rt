//! What holds of the faults of any tokens. The functions do nothing: their contracts are the laws.
ghost use Rattle.std.specs.Prelude.{◌≡◌, ℕ, All, List, count_by};
ghost use Rattle.mcrl2_lexer.specs.declared.token.Token.{Token};
ghost use Rattle.mcrl2_parser.specs.declared.faults.ParseFault.{ParseFault};
ghost use Rattle.mcrl2_parser.specs.Declarations.{declarations_of};
ghost use Rattle.mcrl2_parser.specs.Faults.{HasFault, IsWhole, IsSound, is_init};
ghost use Rattle.mcrl2_syntax.specs.Declarations.{PlainSpec};
ghost use Rattle.mcrl2_syntax.specs.SpelledDeclarations.{SpellsSpec};

/// Tokens of a text have one fault at most.
pub fn parse_faults_are_single()
    ensures { (text : List ℕ) (tokens : List Token) (one other : ParseFault) → HasFault text tokens one → HasFault text tokens other → one ≡ other }
{}

/// Tokens have no fault where all their declarations are sound and one of them is in an `init` section.
pub fn sound_tokens_have_no_fault()
    ensures { (text : List ℕ) (tokens : List Token) (fault : ParseFault) → All (IsSound text tokens) (declarations_of tokens)
        → count_by is_init (declarations_of tokens) ≡ 1 → HasFault text tokens fault → ⊥ }
{}

/// Tokens whose declarations are all whole spell a specification.
pub fn whole_declarations_spell_a_specification()
    ensures { (text : List ℕ) (tokens : List Token) → All (IsWhole text tokens) (declarations_of tokens) → (spec : PlainSpec) × SpellsSpec text spec tokens }
{}
