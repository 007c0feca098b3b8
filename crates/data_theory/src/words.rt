//! The names of the built-in functions, as the mCRL2 language reference writes them.

/// A name of functions on numbers.
#[derive(Clone, Copy, Debug)]
pub enum NumberWord {
    Plus,
    Minus,
    Times,
    Div,
    Mod,
    Exp,
    Min,
    Max,
    Abs,
    Succ,
    Pred,
    PosToNat,
    NatToInt,
    PosToInt,
    NatToPos,
    IntToNat,
    IntToPos,
}

/// A name of functions on lists.
#[derive(Clone, Copy, Debug)]
pub enum ListWord {
    Empty,
    Cons,
    Snoc,
    Concat,
    Size,
    At,
    Head,
    Rhead,
    Tail,
    Rtail,
    In,
}

/// A name of built-in functions.
#[derive(Clone, Copy, Debug)]
pub enum Word {
    True,
    False,
    Not,
    And,
    Or,
    Implies,
    Equal,
    Different,
    If,
    Less,
    AtMost,
    Greater,
    AtLeast,
    Number(NumberWord),
    List(ListWord),
}

impl NumberWord {
    ghost use Rattle.std.specs.Prelude.{◌≡◌};
    ghost use Rattle.data_theory.specs.Words.{number_text};

    /// How it is written.
    pub fn text(self) -> &'static str
        ensures { result.now ≡ number_text self }
    {
        match self {
            NumberWord::Plus => "+",
            NumberWord::Minus => "-",
            NumberWord::Times => "*",
            NumberWord::Div => "div",
            NumberWord::Mod => "mod",
            NumberWord::Exp => "exp",
            NumberWord::Min => "min",
            NumberWord::Max => "max",
            NumberWord::Abs => "abs",
            NumberWord::Succ => "succ",
            NumberWord::Pred => "pred",
            NumberWord::PosToNat => "Pos2Nat",
            NumberWord::NatToInt => "Nat2Int",
            NumberWord::PosToInt => "Pos2Int",
            NumberWord::NatToPos => "Nat2Pos",
            NumberWord::IntToNat => "Int2Nat",
            NumberWord::IntToPos => "Int2Pos",
        }
    }
}

impl ListWord {
    ghost use Rattle.std.specs.Prelude.{◌≡◌};
    ghost use Rattle.data_theory.specs.Words.{list_text};

    /// How it is written.
    pub fn text(self) -> &'static str
        ensures { result.now ≡ list_text self }
    {
        match self {
            ListWord::Empty => "[]",
            ListWord::Cons => "|>",
            ListWord::Snoc => "<|",
            ListWord::Concat => "++",
            ListWord::Size => "#",
            ListWord::At => ".",
            ListWord::Head => "head",
            ListWord::Rhead => "rhead",
            ListWord::Tail => "tail",
            ListWord::Rtail => "rtail",
            ListWord::In => "in",
        }
    }
}

impl Word {
    ghost use Rattle.std.specs.Prelude.{◌≡◌};
    ghost use Rattle.data_theory.specs.Words.{text_of};

    /// How it is written.
    pub fn text(self) -> &'static str
        ensures { result.now ≡ text_of self }
    {
        match self {
            Word::True => "true",
            Word::False => "false",
            Word::Not => "!",
            Word::And => "&&",
            Word::Or => "||",
            Word::Implies => "=>",
            Word::Equal => "==",
            Word::Different => "!=",
            Word::If => "if",
            Word::Less => "<",
            Word::AtMost => "<=",
            Word::Greater => ">",
            Word::AtLeast => ">=",
            Word::Number(word) => word.text(),
            Word::List(word) => word.text(),
        }
    }
}
