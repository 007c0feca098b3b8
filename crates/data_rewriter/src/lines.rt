//! The first built-in equation at a root.

ghost use Rattle.std.specs.Prelude.{◌≡◌, ◌<◌, ◌↔◌, ℕ, List, IsTrue, length, get_or, MatchOption};
ghost use Rattle.data_theory.specs.Signature.{Sig};
ghost use Rattle.data_theory.specs.IdTables.{IsTable};
ghost use Rattle.data_theory.specs.IdTerms.{symbol_under};
ghost use Rattle.data_theory.specs.IdTrees.{Tree};
ghost use Rattle.data_theory.specs.Terms.{Sort, Term, Terms, application, none, more, equality};
ghost use Rattle.data_theory.specs.Equations.{equals, trueᵗ};
ghost use Rattle.data_theory.specs.Equations as equations;
ghost use Rattle.number_rules.specs.Rule.{IsExact, rule_of};
ghost use Rattle.term_pool.specs.HeadTrees.{IsIn};
ghost use Rattle.data_rewriter.specs.Standing.{IsTerm, StandsFor, IsSymbolOf, IsSortOf, term_at};
ghost use Rattle.data_rewriter.specs.Signs.{LooksAt};
ghost use Rattle.data_rewriter.specs.Signatures.{AreSignTables};
ghost use Rattle.data_rewriter.specs.Views.{IsView};
ghost use Rattle.data_rewriter.specs.FirstLines.{IsFirstLine};

use crate::equal_lines::{bool_line, list_line, other_line, struct_line};
use crate::list_lines::{
    at_line, concat_line, head_line, in_line, rhead_line, rtail_line, size_line, snoc_line,
    tail_line,
};
use crate::number_lines::{compare_line, minus_line, one_line, two_line};
use crate::rights::{Line, Right};
use crate::signs::{Equals, Sign};
use crate::struct_lines::{projection_line, recogniser_line};
use crate::tables::Tables;
use crate::truth_lines::{
    and_line, different_line, if_line, implies_line, line, not_line, or_line,
};
use crate::views::{View, view_of, view_of_rest};
use data_theory::{FunId, Num, SortId, TermId};
use number_rules::{NumOp, NumberRules};
use term_pool::{Head, Pool};

/// Whether two terms are one.
fn are_same(pool: &Pool, x: TermId, y: TermId) -> bool
    ensures { (sig : Sig) (t u : Term) → IsTable sig → StandsFor sig pool.now.trees x t → StandsFor sig pool.now.trees y u → IsTrue result ↔ (t ≡ u) }
{
    pool.len();
    x == y
}

/// The argument at a place of an application.
fn argument_at(pool: &Pool, term: TermId, place: usize) -> Option<TermId>
    requires { IsIn pool.now.trees term }
    ensures { (sig : Sig) (f : FunId) (us : Terms) → IsTerm sig pool.now.trees term → term_at sig pool.now.trees term ≡ application (symbol_under sig f) us → MatchOption result (equations.term_at us place ≡ trueᵗ) (λ id. StandsFor sig pool.now.trees id (equations.term_at us place)) }
{
    let args = pool.node(term).args.as_slice();
    if place < args.len() {
        Some(args[place])
    } else {
        None
    }
}

/// The first equation at `x == y`.
fn equal_line(
    sort: SortId,
    look: Equals,
    fun: FunId,
    first: (TermId, View),
    second: (TermId, View),
    same: bool,
) -> Option<Line>
    ensures { (sig : Sig) (ts : List Tree) (a : Sort) (t u : Term) → IsTable sig → IsSortOf sig sort a → LooksAt sig look a → IsSymbolOf sig fun (equality a) → StandsFor sig ts first.0 t → StandsFor sig ts second.0 u → IsView sig ts t first.1 → IsView sig ts u second.1 → (IsTrue same ↔ (t ≡ u)) → IsFirstLine sig ts (equals a t u) result }
{
    let (x, left) = first;
    let (y, right) = second;
    if same {
        return line(16, Right::Truth(true));
    }
    match look {
        Equals::Bool => bool_line(sort, x, y, left, right),
        Equals::List(element, equal) => list_line(sort, element, equal, fun, left, right),
        Equals::Struct => struct_line(sort, x, y, left, right),
        Equals::Other => other_line(sort, left, right),
    }
}

/// The first equation at a function over one argument.
fn line_of_one<F: Fn(NumOp, Num, Num) -> Option<Num>>(
    tables: &Tables,
    rules: &NumberRules<F>,
    pool: &Pool,
    fun: FunId,
    x: TermId,
) -> Option<Line>
    requires within { IsIn pool.now.trees x }
    requires rules { IsExact (F.pre (rule_of rules.now)) (F.post (rule_of rules.now)) }
    ensures { (sig : Sig) → AreSignTables tables.now sig → fun.0 < length sig.functions → IsTerm sig pool.now.trees x → IsFirstLine sig pool.now.trees (application (symbol_under sig fun) (more (term_at sig pool.now.trees x) none)) result }
{
    let shown = view_of(tables, pool, x);
    match tables.sign(fun) {
        Sign::Not => not_line(shown),
        Sign::One(op, from, to) => one_line(rules, op, from, to, shown),
        Sign::Minus(sort) => minus_line(sort, shown),
        Sign::Size(sort) => size_line(sort, fun, shown),
        Sign::Head(sort) => head_line(sort, shown),
        Sign::Tail(sort) => tail_line(sort, shown),
        Sign::Rhead(sort) => rhead_line(sort, fun, shown, view_of_rest(tables, pool, shown)),
        Sign::Rtail(sort) => rtail_line(sort, fun, shown, view_of_rest(tables, pool, shown)),
        Sign::Projection(cons, place) => {
            projection_line(cons, shown, argument_at(pool, x, place))
        }
        Sign::Recogniser(cons) => recogniser_line(cons, shown),
        _ => None,
    }
}

/// The first equation at a function over two arguments.
fn line_of_two<F: Fn(NumOp, Num, Num) -> Option<Num>>(
    tables: &Tables,
    rules: &NumberRules<F>,
    pool: &Pool,
    fun: FunId,
    x: TermId,
    y: TermId,
) -> Option<Line>
    requires left { IsIn pool.now.trees x }
    requires right { IsIn pool.now.trees y }
    requires rules { IsExact (F.pre (rule_of rules.now)) (F.post (rule_of rules.now)) }
    ensures { (sig : Sig) → AreSignTables tables.now sig → fun.0 < length sig.functions → IsTerm sig pool.now.trees x → IsTerm sig pool.now.trees y → IsFirstLine sig pool.now.trees (application (symbol_under sig fun) (more (term_at sig pool.now.trees x) (more (term_at sig pool.now.trees y) none))) result }
{
    let left = view_of(tables, pool, x);
    let right = view_of(tables, pool, y);
    let same = are_same(pool, x, y);
    match tables.sign(fun) {
        Sign::And => and_line(x, y, left, right, same),
        Sign::Or => or_line(x, y, left, right, same),
        Sign::Implies => implies_line(x, y, left),
        Sign::Equal(sort, look) => equal_line(sort, look, fun, (x, left), (y, right), same),
        Sign::Different(equal) => different_line(equal, x, y),
        Sign::Two(op, a, b, to) => two_line(rules, op, a, b, to, left, right),
        Sign::Compare(sign, sort) => compare_line(sign, sort, left, right),
        Sign::Snoc(sort, cons) => snoc_line(sort, fun, cons, x, y, left),
        Sign::Concat(sort) => concat_line(sort, fun, x, y, left, right),
        Sign::At(sort) => at_line(sort, fun, left, y, right),
        Sign::In(sort, equal) => in_line(sort, fun, equal, x, right),
        _ => None,
    }
}

/// The first equation at a function over three arguments.
fn line_of_three(
    tables: &Tables,
    pool: &Pool,
    fun: FunId,
    x: TermId,
    y: TermId,
    z: TermId,
) -> Option<Line>
    requires { IsIn pool.now.trees x }
    ensures { (sig : Sig) → AreSignTables tables.now sig → fun.0 < length sig.functions → IsTerm sig pool.now.trees x → IsTerm sig pool.now.trees y → IsTerm sig pool.now.trees z → IsFirstLine sig pool.now.trees (application (symbol_under sig fun) (more (term_at sig pool.now.trees x) (more (term_at sig pool.now.trees y) (more (term_at sig pool.now.trees z) none)))) result }
{
    match tables.sign(fun) {
        Sign::If => if_line(view_of(tables, pool, x), y, z, are_same(pool, y, z)),
        _ => None,
    }
}

/// The first built-in equation at a root.
pub fn first_line<F: Fn(NumOp, Num, Num) -> Option<Num>>(
    tables: &Tables,
    rules: &NumberRules<F>,
    pool: &Pool,
    root: TermId,
) -> Option<Line>
    requires root { IsIn pool.now.trees root }
    requires rules { IsExact (F.pre (rule_of rules.now)) (F.post (rule_of rules.now)) }
    ensures { (sig : Sig) → AreSignTables tables.now sig → IsTerm sig pool.now.trees root → IsFirstLine sig pool.now.trees (term_at sig pool.now.trees root) result }
{
    let node = pool.node(root);
    let Head::Fun(fun) = node.head else {
        return None;
    };
    let args = node.args.as_slice();
    if args.len() == 1 {
        return line_of_one(tables, rules, pool, fun, args[0]);
    }
    if args.len() == 2 {
        return line_of_two(tables, rules, pool, fun, args[0], args[1]);
    }
    if args.len() == 3 {
        return line_of_three(tables, pool, fun, args[0], args[1], args[2]);
    }
    None
}
