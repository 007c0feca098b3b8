//! The kinds of tokens.

/// What a token is: an identifier, a numeral, or one of the words and signs of the mCRL2 language reference.
#[derive(Clone, Copy, Debug, PartialEq, Eq)]
pub enum Kind {
    /// A name that is none of the words below. It begins with a letter or `_`, and may go on with digits and `'` too.
    Identifier,
    /// `0` alone, or digits of which the first is not `0`.
    Numeral,

    // The words that begin a section.
    /// `sort`
    Sort,
    /// `cons`
    Cons,
    /// `map`
    Map,
    /// `var`
    Var,
    /// `eqn`
    Eqn,
    /// `act`
    Act,
    /// `proc`
    Proc,
    /// `init`
    Init,

    // The other words.
    /// `struct`
    Struct,
    /// `Bool`
    BoolWord,
    /// `Pos`
    PosWord,
    /// `Nat`
    NatWord,
    /// `Int`
    IntWord,
    /// `List`
    ListWord,
    /// `true`
    TrueWord,
    /// `false`
    FalseWord,
    /// `div`
    Div,
    /// `mod`
    Mod,
    /// `in`
    In,
    /// `delta`
    Delta,
    /// `tau`
    Tau,
    /// `sum`
    Sum,
    /// `allow`
    Allow,
    /// `block`
    Block,
    /// `hide`
    Hide,
    /// `rename`
    Rename,
    /// `comm`
    Comm,

    // The signs.
    /// `(`
    LeftParen,
    /// `)`
    RightParen,
    /// `[`
    LeftBracket,
    /// `]`
    RightBracket,
    /// `{`
    LeftBrace,
    /// `}`
    RightBrace,
    /// `,`
    Comma,
    /// `;`
    Semicolon,
    /// `:`
    Colon,
    /// `=`
    Equals,
    /// `?`
    Question,
    /// `#`
    Hash,
    /// `!`
    Exclamation,
    /// `.`
    Dot,
    /// `+`
    Plus,
    /// `-`
    Minus,
    /// `*`
    Star,
    /// `|`
    Bar,
    /// `||`
    BarBar,
    /// `&&`
    AndAnd,
    /// `=>`
    Implies,
    /// `==`
    EqualsEquals,
    /// `!=`
    NotEquals,
    /// `<`
    Less,
    /// `<=`
    LessEquals,
    /// `>`
    Greater,
    /// `>=`
    GreaterEquals,
    /// `|>`
    Prepend,
    /// `<|`
    Append,
    /// `++`
    Concat,
    /// `->`
    Arrow,
    /// `<>`
    Else,

    // The words and signs of the language that aren't accepted.
    /// `dist`
    Dist,
    /// `glob`
    Glob,
    /// `Real`
    RealWord,
    /// `Set`
    SetWord,
    /// `Bag`
    BagWord,
    /// `FSet`
    FSetWord,
    /// `FBag`
    FBagWord,
    /// `lambda`
    Lambda,
    /// `forall`
    Forall,
    /// `exists`
    Exists,
    /// `whr`
    Whr,
    /// `end`
    End,
    /// `@`
    At,
    /// `<<`
    Before,
    /// `/`
    Slash,
    /// `||_`
    LeftMerge,
}
