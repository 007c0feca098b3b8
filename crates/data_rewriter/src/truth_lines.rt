//! The built-in equations on truth values, and those of every sort but for equality.

ghost use Rattle.std.specs.Prelude.{◌≡◌, ◌↔◌, List, IsTrue, Some, None};
ghost use Rattle.data_theory.specs.Signature.{Sig};
ghost use Rattle.data_theory.specs.IdTrees.{Tree};
ghost use Rattle.data_theory.specs.Terms.{Sort, Term, application, none, more, inequality, equality};
ghost use Rattle.data_theory.specs.Equations.{trueᵗ, falseᵗ, !ᵗ◌, ◌∧ᵗ◌, ◌∨ᵗ◌, ◌⇒ᵗ◌, two, chooses};
ghost use Rattle.data_rewriter.specs.Standing.{StandsFor, IsSymbolOf};
ghost use Rattle.data_rewriter.specs.Views.{IsView};
ghost use Rattle.data_rewriter.specs.FirstLines.{IsFirstLine, RightIs};

use crate::rights::{Line, Right};
use crate::views::View;
use data_theory::{FunId, TermId};

/// Whether a view is that of `true`.
pub fn is_true(view: View) -> bool
    ensures { (sig : Sig) (ts : List Tree) (t : Term) → IsView sig ts t view → IsTrue result ↔ (t ≡ trueᵗ) }
{
    matches!(view, View::True)
}

/// Whether a view is that of `false`.
pub fn is_false(view: View) -> bool
    ensures { (sig : Sig) (ts : List Tree) (t : Term) → IsView sig ts t view → IsTrue result ↔ (t ≡ falseᵗ) }
{
    matches!(view, View::False)
}

/// An equation without a condition.
pub fn line(number: usize, right: Right) -> Option<Line>
    ensures { result ≡ Some (record { number = number; above_zero = None; right = right }) }
{
    Some(Line {
        number,
        above_zero: None,
        right,
    })
}

/// The first equation at `!x`.
pub fn not_line(x: View) -> Option<Line>
    ensures { (sig : Sig) (ts : List Tree) (t : Term) → IsView sig ts t x → IsFirstLine sig ts (!ᵗ t) result }
{
    match x {
        View::True => line(0, Right::Truth(false)),
        View::False => line(1, Right::Truth(true)),
        View::Not(y) => line(2, Right::Is(y)),
        _ => None,
    }
}

/// The first equation at `x && y`.
pub fn and_line(x: TermId, y: TermId, left: View, right: View, same: bool) -> Option<Line>
    ensures { (sig : Sig) (ts : List Tree) (t u : Term) → StandsFor sig ts x t → StandsFor sig ts y u → IsView sig ts t left → IsView sig ts u right → (IsTrue same ↔ (t ≡ u)) → IsFirstLine sig ts (t ∧ᵗ u) result }
{
    if is_true(left) {
        return line(3, Right::Is(y));
    }
    if is_true(right) {
        return line(4, Right::Is(x));
    }
    if is_false(left) {
        return line(5, Right::Is(x));
    }
    if is_false(right) {
        return line(6, Right::Is(y));
    }
    if same {
        return line(7, Right::Is(x));
    }
    None
}

/// The first equation at `x || y`.
pub fn or_line(x: TermId, y: TermId, left: View, right: View, same: bool) -> Option<Line>
    ensures { (sig : Sig) (ts : List Tree) (t u : Term) → StandsFor sig ts x t → StandsFor sig ts y u → IsView sig ts t left → IsView sig ts u right → (IsTrue same ↔ (t ≡ u)) → IsFirstLine sig ts (t ∨ᵗ u) result }
{
    if is_true(left) {
        return line(8, Right::Is(x));
    }
    if is_true(right) {
        return line(9, Right::Is(y));
    }
    if is_false(left) {
        return line(10, Right::Is(y));
    }
    if is_false(right) {
        return line(11, Right::Is(x));
    }
    if same {
        return line(12, Right::Is(x));
    }
    None
}

/// The first equation at `x => y`.
pub fn implies_line(x: TermId, y: TermId, left: View) -> Option<Line>
    ensures { (sig : Sig) (ts : List Tree) (t u : Term) → StandsFor sig ts x t → StandsFor sig ts y u → IsView sig ts t left → IsFirstLine sig ts (t ⇒ᵗ u) result }
{
    if is_true(left) {
        return line(13, Right::Is(y));
    }
    if is_false(left) {
        return line(14, Right::Truth(true));
    }
    line(15, Right::NotOr(x, y))
}

/// The first equation at `x != y`.
pub fn different_line(equal: FunId, x: TermId, y: TermId) -> Option<Line>
    ensures { (sig : Sig) (ts : List Tree) (a : Sort) (t u : Term) → IsSymbolOf sig equal (equality a) → StandsFor sig ts x t → StandsFor sig ts y u → IsFirstLine sig ts (two (inequality a) t u) result }
{
    line(17, Right::NotTwo(equal, x, y))
}

/// The first equation at `if(b, x, y)`.
pub fn if_line(condition: View, x: TermId, y: TermId, same: bool) -> Option<Line>
    ensures { (sig : Sig) (ts : List Tree) (a : Sort) (b t u : Term) → IsView sig ts b condition → StandsFor sig ts x t → StandsFor sig ts y u → (IsTrue same ↔ (t ≡ u)) → IsFirstLine sig ts (chooses a b t u) result }
{
    if is_true(condition) {
        return line(18, Right::Is(x));
    }
    if is_false(condition) {
        return line(19, Right::Is(y));
    }
    if same {
        return line(20, Right::Is(x));
    }
    None
}
