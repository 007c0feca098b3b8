//! What stands at the root of an argument.

ghost use Rattle.std.specs.Prelude.{◌≡◌, ◌<◌, ◌↔◌, ◌^◌, ℕ, ℤ, List, length, IsTrue, MatchOption};
ghost use Rattle.std.specs.List.{All};
ghost use Rattle.data_theory.specs.Signature.{Sig};
ghost use Rattle.data_theory.specs.Terms.{Sort, Term, Terms, application, numeral, function};
ghost use Rattle.data_theory.specs.Equations.{emptyᵗ, consᵗ};
ghost use Rattle.data_theory.specs.Arithmetic.{magnitude};
ghost use Rattle.data_theory.specs.Whole.{whole_of};
ghost use Rattle.data_theory.specs.Declarations.{function_at, constructor};
ghost use Rattle.data_theory.specs.IdData.{data_meant};
ghost use Rattle.data_theory.specs.IdTables.{IsTable};
ghost use Rattle.data_theory.specs.IdTrees.{Tree};
ghost use Rattle.data_theory.specs.IdTerms.{symbol_under};
ghost use Rattle.data_rewriter.specs.Standing.{IsTerm, IsSortOf, term_at, listed_at, terms_of};
ghost use Rattle.data_rewriter.specs.Views.{IsView, IsViewIn, AreSigns, IsCons, HasParts, IsMadeBy};
ghost use Rattle.term_pool.specs.HeadTrees.{IsIn, AreIn};

use crate::signs::Sign;
use crate::tables::Tables;
use data_theory::{FunId, Num, SortId, TermId};
use term_pool::{Head, Pool};

/// What a term shows to the equation of a root over it.
#[derive(Clone, Copy)]
pub enum View {
    /// Nothing that an equation looks at.
    Other,
    True,
    False,
    Not(TermId),
    Number(SortId, Num),
    /// `[]` over a sort.
    Empty(SortId),
    /// `|>` over a sort, with its element and its list.
    Cons(FunId, SortId, TermId, TermId),
    /// A constructor over its arguments.
    Made(FunId),
}

/// The parts of a list that isn't empty.
#[derive(Clone, Copy)]
pub struct Parts {
    pub cons: FunId,
    pub first: TermId,
    pub rest: TermId,
}

/// What an application shows.
fn call_view(tables: &Tables, fun: FunId, args: &[TermId]) -> View
    ensures inside { (ts : List Tree) → AreIn ts args.now → IsViewIn ts result }
    ensures shown { (sig : Sig) (ts : List Tree) → AreSigns sig tables.now.signs.items → fun.0 < length sig.functions → All (IsTerm sig ts) args.now → IsView sig ts (application (symbol_under sig fun) (terms_of (listed_at sig ts args.now))) result }
{
    match tables.sign(fun) {
        Sign::True => if args.is_empty() {
            View::True
        } else {
            View::Other
        },
        Sign::False => if args.is_empty() {
            View::False
        } else {
            View::Other
        },
        Sign::Empty(sort) => if args.is_empty() {
            View::Empty(sort)
        } else {
            View::Other
        },
        Sign::Not => if args.len() == 1 {
            View::Not(args[0])
        } else {
            View::Other
        },
        Sign::Cons(sort) => if args.len() == 2 {
            View::Cons(fun, sort, args[0], args[1])
        } else {
            View::Other
        },
        Sign::Constructor => View::Made(fun),
        _ => View::Other,
    }
}

/// What a term shows.
pub fn view_of(tables: &Tables, pool: &Pool, term: TermId) -> View
    requires { IsIn pool.now.trees term }
    ensures inside { IsViewIn pool.now.trees result }
    ensures shown { (sig : Sig) → AreSigns sig tables.now.signs.items → IsTerm sig pool.now.trees term → IsView sig pool.now.trees (term_at sig pool.now.trees term) result }
{
    let node = pool.node(term);
    match node.head {
        Head::Var(_) => View::Other,
        Head::Num(sort, num) => View::Number(sort, num),
        Head::Fun(fun) => call_view(tables, fun, node.args.as_slice()),
    }
}

/// What the list behind the first element shows.
pub fn view_of_rest(tables: &Tables, pool: &Pool, list: View) -> View
    requires { IsViewIn pool.now.trees list }
    ensures { (sig : Sig) → AreSigns sig tables.now.signs.items → (a : Sort) (t x l : Term) → IsView sig pool.now.trees t list → t ≡ consᵗ a x l → IsView sig pool.now.trees l result }
{
    match list {
        View::Cons(_, _, _, rest) => view_of(tables, pool, rest),
        _ => View::Other,
    }
}

/// Whether a view is that of `[]` over a sort.
pub fn is_empty_over(view: View, sort: SortId) -> bool
    ensures { (sig : Sig) (ts : List Tree) (a : Sort) (t : Term) → IsTable sig → IsSortOf sig sort a → IsView sig ts t view → IsTrue result ↔ (t ≡ emptyᵗ a) }
{
    match view {
        View::Empty(over) => over == sort,
        _ => false,
    }
}

/// The parts of a list over a sort that isn't empty.
pub fn parts_over(view: View, sort: SortId) -> Option<Parts>
    ensures { (sig : Sig) (ts : List Tree) (a : Sort) (t : Term) → IsTable sig → IsSortOf sig sort a → IsView sig ts t view → MatchOption result (IsCons a t → ⊥) (HasParts sig ts a t) }
{
    let View::Cons(cons, over, first, rest) = view else {
        return None;
    };
    if over != sort {
        return None;
    }
    Some(Parts { cons, first, rest })
}

/// The number of a numeral of a sort.
pub fn number_over(view: View, sort: SortId) -> Option<Num>
    ensures { (sig : Sig) (ts : List Tree) (a : Sort) (t : Term) → IsTable sig → IsSortOf sig sort a → IsView sig ts t view → MatchOption result ((z : ℤ) → t ≡ numeral a z → ⊥) (λ n. (t ≡ numeral a (whole_of n)) × (magnitude (whole_of n) < 2 ^ 128)) }
{
    let View::Number(over, num) = view else {
        return None;
    };
    if over != sort {
        return None;
    }
    Some(num)
}

/// The constructor of an application.
pub fn constructor_of(view: View) -> Option<FunId>
    ensures { (sig : Sig) (ts : List Tree) (t : Term) → IsView sig ts t view → MatchOption result ((k : ℕ) (us : Terms) → (function_at (data_meant sig) k).role ≡ constructor → t ≡ application (function k) us → ⊥) (λ f. IsMadeBy sig f t) }
{
    match view {
        View::Made(fun) => Some(fun),
        _ => None,
    }
}
