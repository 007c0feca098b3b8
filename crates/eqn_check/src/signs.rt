//! The signs that conditions, and terms that are counted down, are written with.

ghost use Rattle.std.specs.Prelude.{◌≡◌, ◌<◌, List, length};
ghost use Rattle.data_theory.specs.Terms.{Sort};
ghost use Rattle.data_theory.specs.IdSymbols.{word_symbol};
ghost use Rattle.data_theory.specs.IdTerms.{symbol_under};
ghost use Rattle.eqn_check.specs.Comparisons.{sign_of};

use data_theory::{FunId, ListWord, NumberWord, Signature, Word};

/// A sign that conditions, and terms that are counted down, are written with.
#[derive(Clone, Copy, Debug)]
pub enum Sign {
    Less,
    AtMost,
    Greater,
    AtLeast,
    Equal,
    Different,
    And,
    Not,
    False,
    Empty,
    Cons,
    /// Infix or prefix.
    Minus,
    ToPositive,
    ToNatural,
    Tail,
    Rtail,
    /// Any other function.
    Other,
}

fn sign_of_word(word: Word) -> Sign
    ensures { (ss : List Sort) (to : Sort) → result ≡ sign_of (word_symbol word ss to) }
{
    match word {
        Word::Less => Sign::Less,
        Word::AtMost => Sign::AtMost,
        Word::Greater => Sign::Greater,
        Word::AtLeast => Sign::AtLeast,
        Word::Equal => Sign::Equal,
        Word::Different => Sign::Different,
        Word::And => Sign::And,
        Word::Not => Sign::Not,
        Word::False => Sign::False,
        Word::List(ListWord::Empty) => Sign::Empty,
        Word::List(ListWord::Cons) => Sign::Cons,
        Word::List(ListWord::Tail) => Sign::Tail,
        Word::List(ListWord::Rtail) => Sign::Rtail,
        Word::Number(NumberWord::Minus) => Sign::Minus,
        Word::Number(NumberWord::NatToPos | NumberWord::IntToPos) => Sign::ToPositive,
        Word::Number(NumberWord::IntToNat) => Sign::ToNatural,
        _ => Sign::Other,
    }
}

/// The sign that a function is.
pub fn sign_of_function(sig: &Signature, fun: FunId) -> Sign
    requires { fun.0 < length sig.now.functions }
    ensures { result ≡ sign_of (symbol_under sig.now fun) }
{
    match sig.word_of(fun) {
        Some(word) => sign_of_word(word),
        None => Sign::Other,
    }
}
