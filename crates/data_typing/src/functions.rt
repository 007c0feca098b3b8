//! The built-in functions of a signature, by their words and sorts.

ghost use Rattle.std.specs.Prelude.{◌≡◌, ◌<◌, length, map, slice_get, Some, IsTrue, IsSome, IfSome};
ghost use Rattle.data_theory.specs.IdSymbols.{word_symbol};
ghost use Rattle.data_theory.specs.IdTerms.{sort_under, symbol_under};
ghost use Rattle.data_typing.specs.WordPlaces as places;
ghost use Rattle.data_typing.specs.FoundRows.{IsFoundRow};

use data_theory::{FunId, ListWord, NumberWord, Signature, SortId, Word};

/// The number of a word on numbers.
fn number_place(word: NumberWord) -> usize
    ensures { result ≡ places.number_place word }
{
    match word {
        NumberWord::Plus => 0,
        NumberWord::Minus => 1,
        NumberWord::Times => 2,
        NumberWord::Div => 3,
        NumberWord::Mod => 4,
        NumberWord::Exp => 5,
        NumberWord::Min => 6,
        NumberWord::Max => 7,
        NumberWord::Abs => 8,
        NumberWord::Succ => 9,
        NumberWord::Pred => 10,
        NumberWord::PosToNat => 11,
        NumberWord::NatToInt => 12,
        NumberWord::PosToInt => 13,
        NumberWord::NatToPos => 14,
        NumberWord::IntToNat => 15,
        NumberWord::IntToPos => 16,
    }
}

/// The number of a word on lists.
fn list_place(word: ListWord) -> usize
    ensures { result ≡ places.list_place word }
{
    match word {
        ListWord::Empty => 0,
        ListWord::Cons => 1,
        ListWord::Snoc => 2,
        ListWord::Concat => 3,
        ListWord::Size => 4,
        ListWord::At => 5,
        ListWord::Head => 6,
        ListWord::Rhead => 7,
        ListWord::Tail => 8,
        ListWord::Rtail => 9,
        ListWord::In => 10,
    }
}

/// The number of a word.
fn word_place(word: Word) -> usize
    ensures { result ≡ places.word_place word }
{
    match word {
        Word::True => 0,
        Word::False => 1,
        Word::Not => 2,
        Word::And => 3,
        Word::Or => 4,
        Word::Implies => 5,
        Word::Equal => 6,
        Word::Different => 7,
        Word::If => 8,
        Word::Less => 9,
        Word::AtMost => 10,
        Word::Greater => 11,
        Word::AtLeast => 12,
        Word::Number(word) => 13 + number_place(word),
        Word::List(word) => 30 + list_place(word),
    }
}

/// Whether a function is that of a word, with this result.
fn is_of_word(sig: &Signature, fun: FunId, word: Word, to: SortId) -> bool
    requires { fun.0 < length sig.now.functions }
    ensures is { IsTrue result → IfSome (slice_get sig.now.functions fun.0) (λ f. (f.word ≡ Some word) × (f.result ≡ to)) }
    ensures tells { IfSome (slice_get sig.now.functions fun.0) (λ f. f.word ≡ Some word → f.result ≡ to → IsTrue result) }
{
    match sig.word_of(fun) {
        Some(found) => word_place(found) == word_place(word) && sig.sort_of(fun).0 == to.0,
        None => false,
    }
}

/// The function of a word with these sorts and this result. `[]` is found by its list sort.
pub fn built_in_function(sig: &Signature, word: Word, sorts: &[SortId], to: SortId) -> Option<FunId>
    ensures means { IfSome result (λ fun. symbol_under sig.now fun ≡ word_symbol word (map (sort_under sig.now) sorts.now) (sort_under sig.now to)) }
    ensures within { IfSome result (λ fun. fun.0 < length sig.now.functions) }
    ensures there { IsFoundRow sig.now word sorts.now to → IsSome result }
{
    let fun = sig.fun(word.text(), sorts)?;
    if is_of_word(sig, fun, word, to) {
        Some(fun)
    } else {
        None
    }
}
