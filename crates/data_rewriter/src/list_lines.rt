//! The built-in equations on lists.

ghost use Rattle.std.specs.Prelude.{◌≡◌, ◌↔◌, List, IsTrue};
ghost use Rattle.data_theory.specs.Signature.{Sig};
ghost use Rattle.data_theory.specs.IdTables.{IsTable};
ghost use Rattle.data_theory.specs.IdTrees.{Tree};
ghost use Rattle.data_theory.specs.Terms.{Sort, Term, equality, cons, snoc, concatenation, size, head, rhead, tail, rtail, element_at, membership};
ghost use Rattle.data_theory.specs.Equations.{one, two, consᵗ, number};
ghost use Rattle.data_rewriter.specs.Standing.{StandsFor, IsSymbolOf, IsSortOf};
ghost use Rattle.data_rewriter.specs.Views.{IsView};
ghost use Rattle.data_rewriter.specs.FirstLines.{IsFirstLine};

use crate::rights::{Line, Right};
use crate::truth_lines::line;
use crate::views::{View, is_empty_over, number_over, parts_over};
use data_theory::{FunId, Num, SortId, TermId};

const NAT: SortId = SortId(2);

/// The first equation at `x ++ y`.
pub fn concat_line(
    sort: SortId,
    fun: FunId,
    x: TermId,
    y: TermId,
    left: View,
    right: View,
) -> Option<Line>
    ensures { (sig : Sig) (ts : List Tree) (a : Sort) (t u : Term) → IsTable sig → IsSortOf sig sort a → IsSymbolOf sig fun (concatenation a) → StandsFor sig ts x t → StandsFor sig ts y u → IsView sig ts t left → IsView sig ts u right → IsFirstLine sig ts (two (concatenation a) t u) result }
{
    if is_empty_over(left, sort) {
        return line(33, Right::Is(y));
    }
    if is_empty_over(right, sort) {
        return line(34, Right::Is(x));
    }
    let Some(parts) = parts_over(left, sort) else {
        return None;
    };
    line(
        35,
        Right::TwoTwo(parts.cons, parts.first, fun, parts.rest, y),
    )
}

/// The first equation at `x <| y`.
pub fn snoc_line(
    sort: SortId,
    fun: FunId,
    link: FunId,
    x: TermId,
    y: TermId,
    left: View,
) -> Option<Line>
    ensures { (sig : Sig) (ts : List Tree) (a : Sort) (t u : Term) → IsTable sig → IsSortOf sig sort a → IsSymbolOf sig fun (snoc a) → IsSymbolOf sig link (cons a) → StandsFor sig ts x t → StandsFor sig ts y u → IsView sig ts t left → IsFirstLine sig ts (two (snoc a) t u) result }
{
    if is_empty_over(left, sort) {
        return line(36, Right::Two(link, y, x));
    }
    let Some(parts) = parts_over(left, sort) else {
        return None;
    };
    line(
        37,
        Right::TwoTwo(parts.cons, parts.first, fun, parts.rest, y),
    )
}

/// The first equation at `#x`.
pub fn size_line(sort: SortId, fun: FunId, x: View) -> Option<Line>
    ensures { (sig : Sig) (ts : List Tree) (a : Sort) (t : Term) → IsTable sig → IsSortOf sig sort a → IsSymbolOf sig fun (size a) → IsView sig ts t x → IsFirstLine sig ts (one (size a) t) result }
{
    if is_empty_over(x, sort) {
        let zero = Num {
            negative: false,
            magnitude: 0,
        };
        return line(38, Right::Numeral(NAT, zero));
    }
    let Some(parts) = parts_over(x, sort) else {
        return None;
    };
    line(39, Right::Longer(fun, parts.rest))
}

/// The first equation at `head(x)`.
pub fn head_line(sort: SortId, x: View) -> Option<Line>
    ensures { (sig : Sig) (ts : List Tree) (a : Sort) (t : Term) → IsTable sig → IsSortOf sig sort a → IsView sig ts t x → IsFirstLine sig ts (one (head a) t) result }
{
    let Some(parts) = parts_over(x, sort) else {
        return None;
    };
    line(40, Right::Is(parts.first))
}

/// The first equation at `tail(x)`.
pub fn tail_line(sort: SortId, x: View) -> Option<Line>
    ensures { (sig : Sig) (ts : List Tree) (a : Sort) (t : Term) → IsTable sig → IsSortOf sig sort a → IsView sig ts t x → IsFirstLine sig ts (one (tail a) t) result }
{
    let Some(parts) = parts_over(x, sort) else {
        return None;
    };
    line(41, Right::Is(parts.rest))
}

/// The first equation at `rhead(x)`.
pub fn rhead_line(sort: SortId, fun: FunId, x: View, rest: View) -> Option<Line>
    ensures { (sig : Sig) (ts : List Tree) (a : Sort) (t : Term) → IsTable sig → IsSortOf sig sort a → IsSymbolOf sig fun (rhead a) → IsView sig ts t x → ((y l : Term) → t ≡ consᵗ a y l → IsView sig ts l rest) → IsFirstLine sig ts (one (rhead a) t) result }
{
    let Some(parts) = parts_over(x, sort) else {
        return None;
    };
    if is_empty_over(rest, sort) {
        return line(42, Right::Is(parts.first));
    }
    let Some(_) = parts_over(rest, sort) else {
        return None;
    };
    line(43, Right::One(fun, parts.rest))
}

/// The first equation at `rtail(x)`.
pub fn rtail_line(sort: SortId, fun: FunId, x: View, rest: View) -> Option<Line>
    ensures { (sig : Sig) (ts : List Tree) (a : Sort) (t : Term) → IsTable sig → IsSortOf sig sort a → IsSymbolOf sig fun (rtail a) → IsView sig ts t x → ((y l : Term) → t ≡ consᵗ a y l → IsView sig ts l rest) → IsFirstLine sig ts (one (rtail a) t) result }
{
    let Some(parts) = parts_over(x, sort) else {
        return None;
    };
    if is_empty_over(rest, sort) {
        return line(44, Right::Is(parts.rest));
    }
    let Some(_) = parts_over(rest, sort) else {
        return None;
    };
    line(45, Right::TwoOne(parts.cons, parts.first, fun, parts.rest))
}

/// Whether a view is that of the natural number 0.
fn is_zero(view: View) -> bool
    ensures { (sig : Sig) (ts : List Tree) (t : Term) → IsTable sig → IsView sig ts t view → IsTrue result ↔ (t ≡ number 0) }
{
    let Some(num) = number_over(view, NAT) else {
        return false;
    };
    num.magnitude == 0
}

/// The first equation at `x . y`.
pub fn at_line(sort: SortId, fun: FunId, x: View, y: TermId, right: View) -> Option<Line>
    ensures { (sig : Sig) (ts : List Tree) (a : Sort) (t u : Term) → IsTable sig → IsSortOf sig sort a → IsSymbolOf sig fun (element_at a) → StandsFor sig ts y u → IsView sig ts t x → IsView sig ts u right → IsFirstLine sig ts (two (element_at a) t u) result }
{
    let Some(parts) = parts_over(x, sort) else {
        return None;
    };
    if is_zero(right) {
        return line(46, Right::Is(parts.first));
    }
    Some(Line {
        number: 47,
        above_zero: Some(y),
        right: Right::Later(fun, parts.rest, y),
    })
}

/// The first equation at `x in y`.
pub fn in_line(sort: SortId, fun: FunId, equal: FunId, x: TermId, right: View) -> Option<Line>
    ensures { (sig : Sig) (ts : List Tree) (a : Sort) (t u : Term) → IsTable sig → IsSortOf sig sort a → IsSymbolOf sig fun (membership a) → IsSymbolOf sig equal (equality a) → StandsFor sig ts x t → IsView sig ts u right → IsFirstLine sig ts (two (membership a) t u) result }
{
    if is_empty_over(right, sort) {
        return line(48, Right::Truth(false));
    }
    let Some(parts) = parts_over(right, sort) else {
        return None;
    };
    line(49, Right::Either(equal, x, parts.first, fun, x, parts.rest))
}
