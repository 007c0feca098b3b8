//! Numerals.

ghost use Rattle.std.specs.Prelude.{◌≡◌, ℕ, OnOk, option_map, false};
ghost use Rattle.data_theory.specs.Whole.{whole_of};
ghost use Rattle.lps_printer.specs.Adding.{Adds};
ghost use Rattle.lps_printer.specs.PrintedExpressions.{applied, more, none, numeral};
ghost use Rattle.lps_printer.specs.DataLayout.{print};
ghost use Rattle.lps_printer.specs.WordForms.{cast_text, number_worded, IsOutermost};

use crate::forms::Outermost;
use crate::tokens::{push_digits, push_token};
use data_theory::{NoMemory, Num, SortId};

/// The function that stands around a numeral of this sort in an open place: one above zero is read as a Pos, and zero as a Nat.
fn cast_of(sort: SortId, magnitude: u128) -> Option<&'static str>
    ensures { option_map (λ text. text.now) result ≡ cast_text sort.0 magnitude }
{
    if sort.0 == 2 {
        return if magnitude == 0 {
            None
        } else {
            Some("Pos2Nat")
        };
    }
    if sort.0 == 3 {
        return if magnitude == 0 {
            Some("Nat2Int")
        } else {
            Some("Pos2Int")
        };
    }
    None
}

/// A number in brackets behind the name of a function.
fn push_cast(name: &str, number: u128, gap: &[u8], out: &mut Vec<u8>) -> Result<(), NoMemory>
    ensures { OnOk result (Adds out.old.items out.new.items (λ rest. print (applied name.now (more (numeral number) none)) gap.now rest)) }
{
    push_token(out, gap, name.as_bytes())?;
    push_token(out, b"", b"(")?;
    push_digits(out, b"", number)?;
    push_token(out, b"", b")")
}

/// A numeral: in a place of declared sort its digits, and in an open one with the function that gives it its sort.
pub(crate) fn push_number(
    sort: SortId,
    num: Num,
    placed: bool,
    gap: &[u8],
    out: &mut Vec<u8>,
) -> Result<(), NoMemory>
    ensures { OnOk result (Adds out.old.items out.new.items (λ rest. print (number_worded placed sort.0 (whole_of num)) gap.now rest)) }
{
    if num.negative {
        push_token(out, gap, b"-")?;
        return push_digits(out, b"", num.magnitude);
    }
    if placed {
        return push_digits(out, gap, num.magnitude);
    }
    match cast_of(sort, num.magnitude) {
        Some(name) => push_cast(name, num.magnitude, gap, out),
        None => push_digits(out, gap, num.magnitude),
    }
}

/// What stands outermost in the text of a numeral in an open place.
pub(crate) fn outermost_of_number(num: Num) -> Outermost
    ensures { (s : ℕ) → IsOutermost result (number_worded false s (whole_of num)) }
{
    if num.negative {
        Outermost::Minus
    } else {
        Outermost::Closed
    }
}
