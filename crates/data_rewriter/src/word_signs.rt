//! The signs of the built-in functions.

ghost use Rattle.std.specs.Prelude.{◌≡◌, ◌<◌, ℕ, length, map};
ghost use Rattle.std.specs.List.{All};
ghost use Rattle.data_theory.specs.Sorts.{IsListOver};
ghost use Rattle.data_theory.specs.Signature.{Sig};
ghost use Rattle.data_theory.specs.Terms.{equality, cons};
ghost use Rattle.data_theory.specs.Functions.{Function, arguments_of};
ghost use Rattle.data_theory.specs.Rows.{row_function};
ghost use Rattle.data_theory.specs.IdTables.{IsRow};
ghost use Rattle.data_theory.specs.IdTerms.{sort_under};
ghost use Rattle.data_theory.specs.declared.ids.NameId.{NameId};
ghost use Rattle.data_theory.specs.declared.ids.SortId.{SortId};
ghost use Rattle.data_theory.specs.declared.rows.Row.{Row};
ghost use Rattle.data_theory.specs.declared.rows.Row.TheVariants as rows;
ghost use Rattle.data_theory.specs.declared.words.Word.TheVariants as words;
ghost use Rattle.data_theory.specs.SignatureLaws.{symbol_of_row};
ghost use Rattle.data_theory.specs.WholeSignatures.{IsSignature};
ghost use Rattle.data_rewriter.specs.Standing.{IsSymbolOf};
ghost use Rattle.data_rewriter.specs.Signs.{HasSign, LooksAt};
ghost use Rattle.data_rewriter.specs.Marking.{IsSignOf, IsOfRow};

use crate::signs::{Comparison, Equals, Sign};
use data_theory::{FunId, ListWord, NumberWord, Signature, SortId, SortKind, Word};
use number_rules::NumOp;

/// The equality of a sort.
pub fn equality_of(sig: &Signature, sort: SortId) -> FunId
    requires stands { IsSignature sig.now }
    requires sort { sort.0 < length sig.now.sorts }
    ensures { IsSymbolOf sig.now result (equality (sort_under sig.now sort)) }
{
    sig.fun("==", &[sort, sort]).unwrap()
}

/// The `|>` of a list sort over a sort.
fn cons_of(sig: &Signature, element: SortId, list: SortId) -> FunId
    requires stands { IsSignature sig.now }
    requires list { IsListOver sig.now.sorts element list }
    ensures { IsSymbolOf sig.now result (cons (sort_under sig.now element)) }
{
    sig.fun("|>", &[element, list]).unwrap()
}

/// The sort of the elements of a list sort.
fn element_of(sig: &Signature, list: SortId) -> SortId
    requires { list.0 < length sig.now.sorts }
    ensures { (element : SortId) → IsListOver sig.now.sorts element list → result ≡ element }
{
    match sig.kind(list) {
        SortKind::List(element) => *element,
        _ => list,
    }
}

/// What the equality of a sort looks at.
fn looks_at(sig: &Signature, sort: SortId) -> Equals
    requires stands { IsSignature sig.now }
    requires sort { sort.0 < length sig.now.sorts }
    ensures { LooksAt sig.now result (sort_under sig.now sort) }
{
    match sig.kind(sort) {
        SortKind::Bool => Equals::Bool,
        SortKind::List(element) => Equals::List(*element, equality_of(sig, *element)),
        SortKind::Struct(_) => Equals::Struct,
        _ => Equals::Other,
    }
}

/// The sign of a function without arguments.
fn sign_of_constant(sig: &Signature, word: Word, to: SortId) -> Sign
    requires stands { IsSignature sig.now }
    requires to { to.0 < length sig.now.sorts }
    ensures constant { IsSignOf sig.now (rows.Constant word to) result }
    ensures list { IsSignOf sig.now (rows.ListConstant word to) result }
{
    match word {
        Word::True => Sign::True,
        Word::False => Sign::False,
        // Of the functions on lists `[]` alone has no arguments.
        Word::List(_) => Sign::Empty(element_of(sig, to)),
        _ => Sign::Other,
    }
}

/// The sign of a function of one number.
fn sign_of_one_number(word: NumberWord, from: SortId, to: SortId) -> Sign
    ensures { (sig : Sig) → from.0 < length sig.sorts → to.0 < length sig.sorts → IsSignOf sig (rows.One (words.Number word) from to) result }
{
    match word {
        NumberWord::Minus => Sign::Minus(from),
        NumberWord::Abs => Sign::One(NumOp::Abs, from, to),
        NumberWord::Succ => Sign::One(NumOp::Succ, from, to),
        NumberWord::Pred => Sign::One(NumOp::Pred, from, to),
        NumberWord::NatToPos => Sign::One(NumOp::ToPos, from, to),
        NumberWord::IntToPos => Sign::One(NumOp::ToPos, from, to),
        NumberWord::IntToNat => Sign::One(NumOp::ToNat, from, to),
        _ => Sign::Other,
    }
}

/// The sign of a function of one list.
fn sign_of_one_list(sig: &Signature, word: ListWord, from: SortId, to: SortId) -> Sign
    requires stands { IsSignature sig.now }
    requires from { from.0 < length sig.now.sorts }
    requires to { to.0 < length sig.now.sorts }
    ensures { IsSignOf sig.now (rows.One (words.List word) from to) result }
{
    match word {
        ListWord::Size => Sign::Size(element_of(sig, from)),
        ListWord::Head => Sign::Head(to),
        ListWord::Rhead => Sign::Rhead(to),
        ListWord::Tail => Sign::Tail(element_of(sig, to)),
        ListWord::Rtail => Sign::Rtail(element_of(sig, to)),
        _ => Sign::Other,
    }
}

/// The sign of a function of one argument.
fn sign_of_one(sig: &Signature, word: Word, from: SortId, to: SortId) -> Sign
    requires stands { IsSignature sig.now }
    requires from { from.0 < length sig.now.sorts }
    requires to { to.0 < length sig.now.sorts }
    ensures { IsSignOf sig.now (rows.One word from to) result }
{
    match word {
        Word::Not => Sign::Not,
        Word::Number(word) => sign_of_one_number(word, from, to),
        Word::List(word) => sign_of_one_list(sig, word, from, to),
        _ => Sign::Other,
    }
}

/// The sign of a function of two numbers.
fn sign_of_two_numbers(word: NumberWord, left: SortId, right: SortId, to: SortId) -> Sign
    ensures { (sig : Sig) → left.0 < length sig.sorts → right.0 < length sig.sorts → to.0 < length sig.sorts → IsSignOf sig (rows.Two (words.Number word) left right to) result }
{
    match word {
        NumberWord::Plus => Sign::Two(NumOp::Add, left, right, to),
        NumberWord::Minus => Sign::Two(NumOp::Sub, left, right, to),
        NumberWord::Times => Sign::Two(NumOp::Mul, left, right, to),
        NumberWord::Div => Sign::Two(NumOp::Div, left, right, to),
        NumberWord::Mod => Sign::Two(NumOp::Mod, left, right, to),
        NumberWord::Exp => Sign::Two(NumOp::Exp, left, right, to),
        NumberWord::Min => Sign::Two(NumOp::Min, left, right, to),
        NumberWord::Max => Sign::Two(NumOp::Max, left, right, to),
        _ => Sign::Other,
    }
}

/// The sign of a function of two arguments of which one is a list.
fn sign_of_two_lists(
    sig: &Signature,
    word: ListWord,
    left: SortId,
    right: SortId,
    to: SortId,
) -> Sign
    requires stands { IsSignature sig.now }
    requires left { left.0 < length sig.now.sorts }
    requires right { right.0 < length sig.now.sorts }
    requires to { to.0 < length sig.now.sorts }
    requires row { IsRow sig.now.sorts (rows.Two (words.List word) left right to) }
    ensures { HasSign sig.now (symbol_of_row sig.now (rows.Two (words.List word) left right to)) result }
{
    match word {
        ListWord::Cons => Sign::Cons(left),
        ListWord::Snoc => Sign::Snoc(right, cons_of(sig, right, to)),
        ListWord::Concat => Sign::Concat(element_of(sig, to)),
        ListWord::At => Sign::At(to),
        ListWord::In => Sign::In(left, equality_of(sig, left)),
        _ => Sign::Other,
    }
}

/// The sign of a function of two arguments.
fn sign_of_two(sig: &Signature, word: Word, left: SortId, right: SortId, to: SortId) -> Sign
    requires stands { IsSignature sig.now }
    requires left { left.0 < length sig.now.sorts }
    requires right { right.0 < length sig.now.sorts }
    requires to { to.0 < length sig.now.sorts }
    requires row { IsRow sig.now.sorts (rows.Two word left right to) }
    ensures { HasSign sig.now (symbol_of_row sig.now (rows.Two word left right to)) result }
{
    match word {
        Word::And => Sign::And,
        Word::Or => Sign::Or,
        Word::Implies => Sign::Implies,
        Word::Equal => Sign::Equal(left, looks_at(sig, left)),
        Word::Different => Sign::Different(equality_of(sig, left)),
        Word::Less => Sign::Compare(Comparison::Less, left),
        Word::AtMost => Sign::Compare(Comparison::AtMost, left),
        Word::Greater => Sign::Compare(Comparison::Greater, left),
        Word::AtLeast => Sign::Compare(Comparison::AtLeast, left),
        Word::Number(word) => sign_of_two_numbers(word, left, right, to),
        Word::List(word) => sign_of_two_lists(sig, word, left, right, to),
        _ => Sign::Other,
    }
}

/// The sign of a built-in function, by its word and its sorts.
pub fn sign_of_word(sig: &Signature, word: Word, args: &[SortId], to: SortId) -> Sign
    requires stands { IsSignature sig.now }
    requires args { All (λ (sort : SortId). sort.0 < length sig.now.sorts) args.now }
    requires to { to.0 < length sig.now.sorts }
    requires row { (r : Row) × IsRow sig.now.sorts r × IsOfRow r word args.now to }
    ensures { (r : Row) → IsRow sig.now.sorts r → IsOfRow r word args.now to → HasSign sig.now (symbol_of_row sig.now r) result }
{
    if args.len() == 0 {
        return sign_of_constant(sig, word, to);
    }
    if args.len() == 1 {
        return sign_of_one(sig, word, args[0], to);
    }
    if args.len() == 2 {
        return sign_of_two(sig, word, args[0], args[1], to);
    }
    Sign::If
}
