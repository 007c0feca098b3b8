//! The built-in equations on equality.

ghost use Rattle.std.specs.Prelude.{◌≡◌, ◌≢◌, ◌↔◌, ℕ, List, IsTrue};
ghost use Rattle.data_theory.specs.Signature.{Sig};
ghost use Rattle.data_theory.specs.IdTables.{IsTable};
ghost use Rattle.data_theory.specs.IdData.{data_meant};
ghost use Rattle.data_theory.specs.IdTrees.{Tree};
ghost use Rattle.data_theory.specs.Terms.{Sort, Term, boolean, list, named, equality};
ghost use Rattle.data_theory.specs.Declarations.{sort_at, structured};
ghost use Rattle.data_theory.specs.Equations.{equals};
ghost use Rattle.data_rewriter.specs.Standing.{StandsFor, IsSymbolOf, IsSortOf};
ghost use Rattle.data_rewriter.specs.Signs.{LooksAt};
ghost use Rattle.data_rewriter.specs.declared.signs.Equals.TheVariants.{Other};
ghost use Rattle.data_rewriter.specs.Views.{IsView};
ghost use Rattle.data_rewriter.specs.FirstLines.{IsFirstLine};

use crate::rights::{Line, Right};
use crate::truth_lines::{is_false, is_true, line};
use crate::views::{View, constructor_of, is_empty_over, number_over, parts_over};
use data_theory::{FunId, SortId, TermId};

/// The first equation at the equality of a sort without equations of its own, where both sides differ.
pub fn other_line(sort: SortId, left: View, right: View) -> Option<Line>
    ensures { (sig : Sig) (ts : List Tree) (a : Sort) (t u : Term) → IsTable sig → IsSortOf sig sort a → LooksAt sig Other a → IsView sig ts t left → IsView sig ts u right → (t ≡ u → ⊥) → IsFirstLine sig ts (equals a t u) result }
{
    let Some(first) = number_over(left, sort) else {
        return None;
    };
    let Some(second) = number_over(right, sort) else {
        return None;
    };
    line(29, Right::Truth(first == second))
}

/// The first equation at the equality of truth values that differ.
pub fn bool_line(sort: SortId, x: TermId, y: TermId, left: View, right: View) -> Option<Line>
    ensures { (sig : Sig) (ts : List Tree) (t u : Term) → IsTable sig → IsSortOf sig sort boolean → StandsFor sig ts x t → StandsFor sig ts y u → IsView sig ts t left → IsView sig ts u right → (t ≡ u → ⊥) → IsFirstLine sig ts (equals boolean t u) result }
{
    if is_true(right) {
        return line(21, Right::Is(x));
    }
    if is_true(left) {
        return line(22, Right::Is(y));
    }
    if is_false(right) {
        return line(23, Right::Not(x));
    }
    if is_false(left) {
        return line(24, Right::Not(y));
    }
    let Some(first) = number_over(left, sort) else {
        return None;
    };
    let Some(second) = number_over(right, sort) else {
        return None;
    };
    line(29, Right::Truth(first == second))
}

/// The first equation at the equality of lists that differ.
pub fn list_line(
    sort: SortId,
    element: SortId,
    equal: FunId,
    fun: FunId,
    left: View,
    right: View,
) -> Option<Line>
    ensures { (sig : Sig) (ts : List Tree) (b : Sort) (t u : Term) → IsTable sig → IsSortOf sig sort (list b) → IsSortOf sig element b → IsSymbolOf sig equal (equality b) → IsSymbolOf sig fun (equality (list b)) → IsView sig ts t left → IsView sig ts u right → (t ≡ u → ⊥) → IsFirstLine sig ts (equals (list b) t u) result }
{
    if let Some(first) = number_over(left, sort) {
        let Some(second) = number_over(right, sort) else {
            return None;
        };
        return line(29, Right::Truth(first == second));
    }
    if is_empty_over(left, element) {
        let Some(_) = parts_over(right, element) else {
            return None;
        };
        return line(30, Right::Truth(false));
    }
    let Some(parts) = parts_over(left, element) else {
        return None;
    };
    if is_empty_over(right, element) {
        return line(31, Right::Truth(false));
    }
    let Some(others) = parts_over(right, element) else {
        return None;
    };
    line(
        32,
        Right::Both(
            equal,
            parts.first,
            others.first,
            fun,
            parts.rest,
            others.rest,
        ),
    )
}

/// The first equation at the equality of values of a `struct` that differ.
pub fn struct_line(sort: SortId, x: TermId, y: TermId, left: View, right: View) -> Option<Line>
    ensures { (sig : Sig) (ts : List Tree) (d : ℕ) (t u : Term) → IsTable sig → IsSortOf sig sort (named d) → sort_at (data_meant sig) d ≡ structured → StandsFor sig ts x t → StandsFor sig ts y u → IsView sig ts t left → IsView sig ts u right → (t ≡ u → ⊥) → IsFirstLine sig ts (equals (named d) t u) result }
{
    if let Some(first) = number_over(left, sort) {
        let Some(second) = number_over(right, sort) else {
            return None;
        };
        return line(29, Right::Truth(first == second));
    }
    let Some(first) = constructor_of(left) else {
        return None;
    };
    let Some(second) = constructor_of(right) else {
        return None;
    };
    if first != second {
        return line(50, Right::Truth(false));
    }
    line(51, Right::Places(first, x, y))
}
