//! Right sides, made in a pool.

ghost use Rattle.std.specs.Prelude.{◌≡◌, ◌<◌, ◌≤◌, ◌⊎◌, ◌↔◌, ℕ, List, [], ◌∷◌, IfOk, IsTrue, length};
ghost use Rattle.std.specs.List.{All};
ghost use Rattle.data_theory.specs.Signature.{Sig};
ghost use Rattle.data_theory.specs.IdTables.{IsTable};
ghost use Rattle.data_theory.specs.Terms as terms;
ghost use Rattle.data_theory.specs.Terms.{Sort, positive, natural, integer, Symbol, Term, Terms, none, more, apply};
ghost use Rattle.data_theory.specs.Equations.{number, truth_of, all_equal, one as one_term, two as two_terms};
ghost use Rattle.data_theory.specs.Whole.{whole_of};
ghost use Rattle.data_theory.specs.IdTreeSorts.{HasNumber};
ghost use Rattle.data_theory.specs.WholeSignatures.{IsSignature};
ghost use Rattle.term_pool.specs.HeadTrees.{IsIn, AreIn};
ghost use Rattle.term_pool.specs.Pools.{Extends};
ghost use Rattle.data_theory.specs.Declarations.{function_at};
ghost use Rattle.data_theory.specs.IdData.{data_meant};
ghost use Rattle.data_rewriter.specs.FirstLines.{RightIs, IsRightIn, IsLineIn, IsFirstAt, IsConditionMade};
ghost use Rattle.data_rewriter.specs.Signatures.{AreSignTables, AreEqualities, equal_from};
ghost use Rattle.data_rewriter.specs.States.{IsFoundIn};
ghost use Rattle.data_rewriter.specs.Standing.{IsTerm, StandsFor, IsSymbolOf, IsSortOf, listed_at, terms_of, term_at};

use crate::equations::Found;
use crate::rights::{Line, Right};
use crate::tables::Tables;
use data_theory::{FunId, NoMemory, Num, SortId, TermId};
use std::alloc::Global;
use term_pool::{Head, Pool};

/// A function over arguments.
pub fn call(pool: &mut Pool, fun: FunId, args: &[TermId]) -> Result<TermId, NoMemory>
    requires { AreIn pool.old.trees args.now }
    ensures kept { Extends pool.old.trees pool.new.trees }
    ensures inside { IfOk result (λ id. IsIn pool.new.trees id) }
    ensures made { IfOk result (λ id. (sig : Sig) → IsTable sig → (y : Symbol) → IsSymbolOf sig fun y → All (IsTerm sig pool.old.trees) args.now → StandsFor sig pool.new.trees id (apply y (terms_of (listed_at sig pool.old.trees args.now)))) }
{
    let made = pool.intern(Head::Fun(fun), args)?;
    Ok(made)
}

/// A function over one argument.
pub fn one(pool: &mut Pool, fun: FunId, x: TermId) -> Result<TermId, NoMemory>
    requires { IsIn pool.old.trees x }
    ensures kept { Extends pool.old.trees pool.new.trees }
    ensures inside { IfOk result (λ id. IsIn pool.new.trees id) }
    ensures made { IfOk result (λ id. (sig : Sig) → IsTable sig → (y : Symbol) (t : Term) → IsSymbolOf sig fun y → StandsFor sig pool.old.trees x t → StandsFor sig pool.new.trees id (apply y (more t none))) }
{
    let made = call(pool, fun, &[x])?;
    Ok(made)
}

/// A function over two arguments.
pub fn two(pool: &mut Pool, fun: FunId, x: TermId, y: TermId) -> Result<TermId, NoMemory>
    requires left { IsIn pool.old.trees x }
    requires right { IsIn pool.old.trees y }
    ensures kept { Extends pool.old.trees pool.new.trees }
    ensures inside { IfOk result (λ id. IsIn pool.new.trees id) }
    ensures made { IfOk result (λ id. (sig : Sig) → IsTable sig → (z : Symbol) (t u : Term) → IsSymbolOf sig fun z → StandsFor sig pool.old.trees x t → StandsFor sig pool.old.trees y u → StandsFor sig pool.new.trees id (apply z (more t (more u none)))) }
{
    let made = call(pool, fun, &[x, y])?;
    Ok(made)
}

/// `f(x, g(y))`
pub fn two_one(
    pool: &mut Pool,
    fun: FunId,
    x: TermId,
    inner: FunId,
    y: TermId,
) -> Result<TermId, NoMemory>
    requires left { IsIn pool.old.trees x }
    requires right { IsIn pool.old.trees y }
    ensures kept { Extends pool.old.trees pool.new.trees }
    ensures inside { IfOk result (λ id. IsIn pool.new.trees id) }
    ensures made { IfOk result (λ id. (sig : Sig) → IsTable sig → (z w : Symbol) (t u : Term) → IsSymbolOf sig fun z → IsSymbolOf sig inner w → StandsFor sig pool.old.trees x t → StandsFor sig pool.old.trees y u → StandsFor sig pool.new.trees id (apply z (more t (more (apply w (more u none)) none)))) }
{
    let under = one(pool, inner, y)?;
    let made = two(pool, fun, x, under)?;
    Ok(made)
}

/// `f(x, g(y, z))`
pub fn two_two(
    pool: &mut Pool,
    fun: FunId,
    x: TermId,
    inner: FunId,
    y: TermId,
    z: TermId,
) -> Result<TermId, NoMemory>
    requires left { IsIn pool.old.trees x }
    requires middle { IsIn pool.old.trees y }
    requires right { IsIn pool.old.trees z }
    ensures kept { Extends pool.old.trees pool.new.trees }
    ensures inside { IfOk result (λ id. IsIn pool.new.trees id) }
    ensures made { IfOk result (λ id. (sig : Sig) → IsTable sig → (f g : Symbol) (t u v : Term) → IsSymbolOf sig fun f → IsSymbolOf sig inner g → StandsFor sig pool.old.trees x t → StandsFor sig pool.old.trees y u → StandsFor sig pool.old.trees z v → StandsFor sig pool.new.trees id (apply f (more t (more (apply g (more u (more v none))) none)))) }
{
    let under = two(pool, inner, y, z)?;
    let made = two(pool, fun, x, under)?;
    Ok(made)
}

/// `f(g(x, y), h(z, w))`, with g, x and y as the left part and h, z and w as the right one
pub fn two_twos(
    pool: &mut Pool,
    fun: FunId,
    left: (FunId, TermId, TermId),
    right: (FunId, TermId, TermId),
) -> Result<TermId, NoMemory>
    requires left { IsIn pool.old.trees left.1 × IsIn pool.old.trees left.2 }
    requires right { IsIn pool.old.trees right.1 × IsIn pool.old.trees right.2 }
    ensures kept { Extends pool.old.trees pool.new.trees }
    ensures inside { IfOk result (λ id. IsIn pool.new.trees id) }
    ensures made { IfOk result (λ id. (sig : Sig) → IsTable sig → (f g h : Symbol) (t u v s : Term) → IsSymbolOf sig fun f → IsSymbolOf sig left.0 g → IsSymbolOf sig right.0 h → StandsFor sig pool.old.trees left.1 t → StandsFor sig pool.old.trees left.2 u → StandsFor sig pool.old.trees right.1 v → StandsFor sig pool.old.trees right.2 s → StandsFor sig pool.new.trees id (apply f (more (apply g (more t (more u none))) (more (apply h (more v (more s none))) none)))) }
{
    let (f, x, y) = left;
    let (g, z, w) = right;
    let first = two(pool, f, x, y)?;
    let second = two(pool, g, z, w)?;
    let made = two(pool, fun, first, second)?;
    Ok(made)
}

const TRUE: FunId = FunId(6);

const FALSE: FunId = FunId(7);

const NOT: FunId = FunId(8);

const AND: FunId = FunId(9);

const OR: FunId = FunId(10);

const POS_TO_NAT: FunId = FunId(3);

const LESS_NAT: FunId = FunId(25);

const MINUS_NAT: FunId = FunId(42);

const SUCC_NAT: FunId = FunId(62);

const INT_TO_NAT: FunId = FunId(68);

const POS: SortId = SortId(1);

const NAT: SortId = SortId(2);

const INT: SortId = SortId(3);

/// Whether a sort of numbers has a number.
fn has_number(sort: SortId, num: Num) -> bool
    ensures { IsTrue result → HasNumber sort (whole_of num) }
{
    match sort {
        POS => !num.negative && num.magnitude > 0,
        NAT => !num.negative,
        INT => true,
        _ => false,
    }
}

/// A numeral. The values of the operations at their sorts have one, so that no want of memory is due to it.
pub fn numeral(pool: &mut Pool, sort: SortId, num: Num) -> Result<TermId, NoMemory>
    ensures kept { Extends pool.old.trees pool.new.trees }
    ensures inside { IfOk result (λ id. IsIn pool.new.trees id) }
    ensures made { IfOk result (λ id. (sig : Sig) (a : Sort) → IsSortOf sig sort a → StandsFor sig pool.new.trees id (terms.numeral a (whole_of num))) }
{
    if !has_number(sort, num) {
        return Err(NoMemory);
    }
    let made = pool.intern(Head::Num(sort, num), &[])?;
    Ok(made)
}

/// `true` or `false`
fn truth(pool: &mut Pool, value: bool) -> Result<TermId, NoMemory>
    ensures kept { Extends pool.old.trees pool.new.trees }
    ensures inside { IfOk result (λ id. IsIn pool.new.trees id) }
    ensures made { IfOk result (λ id. (sig : Sig) → IsSignature sig → StandsFor sig pool.new.trees id (truth_of value)) }
{
    if value {
        let made = call(pool, TRUE, &[])?;
        return Ok(made);
    }
    let made = call(pool, FALSE, &[])?;
    Ok(made)
}

/// `Pos2Nat(succ(f(x)))`
fn longer(pool: &mut Pool, size: FunId, x: TermId) -> Result<TermId, NoMemory>
    requires { IsIn pool.old.trees x }
    ensures kept { Extends pool.old.trees pool.new.trees }
    ensures inside { IfOk result (λ id. IsIn pool.new.trees id) }
    ensures made { IfOk result (λ id. (sig : Sig) → IsSignature sig → (a : Sort) (t : Term) → IsSymbolOf sig size (terms.size a) → StandsFor sig pool.old.trees x t → StandsFor sig pool.new.trees id (one_term (terms.upcast positive natural) (one_term (terms.arithmetic terms.successor (natural ∷ []) positive) (one_term (terms.size a) t)))) }
{
    let count = one(pool, size, x)?;
    let next = one(pool, SUCC_NAT, count)?;
    let made = one(pool, POS_TO_NAT, next)?;
    Ok(made)
}

/// `f(x, Int2Nat(y - 1))`
fn later(pool: &mut Pool, fun: FunId, x: TermId, y: TermId) -> Result<TermId, NoMemory>
    requires left { IsIn pool.old.trees x }
    requires right { IsIn pool.old.trees y }
    ensures kept { Extends pool.old.trees pool.new.trees }
    ensures inside { IfOk result (λ id. IsIn pool.new.trees id) }
    ensures made { IfOk result (λ id. (sig : Sig) → IsSignature sig → (z : Symbol) (t u : Term) → IsSymbolOf sig fun z → StandsFor sig pool.old.trees x t → StandsFor sig pool.old.trees y u → StandsFor sig pool.new.trees id (apply z (more t (more (one_term (terms.arithmetic terms.to_natural (integer ∷ []) natural) (two_terms (terms.arithmetic terms.subtract (natural ∷ natural ∷ []) integer) u (number 1))) none)))) }
{
    let step = Num {
        negative: false,
        magnitude: 1,
    };
    let less = numeral(pool, NAT, step)?;
    let rest = two(pool, MINUS_NAT, y, less)?;
    let made = two_one(pool, fun, x, INT_TO_NAT, rest)?;
    Ok(made)
}

/// `0 < x`
fn above_zero(pool: &mut Pool, x: TermId) -> Result<TermId, NoMemory>
    requires { IsIn pool.old.trees x }
    ensures kept { Extends pool.old.trees pool.new.trees }
    ensures inside { IfOk result (λ id. IsIn pool.new.trees id) }
    ensures made { IfOk result (λ id. (sig : Sig) → IsSignature sig → (t : Term) → StandsFor sig pool.old.trees x t → StandsFor sig pool.new.trees id (two_terms (terms.comparison terms.less natural) (number 0) t)) }
{
    let zero = Num {
        negative: false,
        magnitude: 0,
    };
    let least = numeral(pool, NAT, zero)?;
    let made = two(pool, LESS_NAT, least, x)?;
    Ok(made)
}

/// The right side of a built-in equation.
pub fn make(
    alloc: Global,
    tables: &Tables,
    pool: &mut Pool,
    right: Right,
) -> Result<TermId, NoMemory>
    requires { IsRightIn pool.old.trees right }
    ensures kept { Extends pool.old.trees pool.new.trees }
    ensures inside { IfOk result (λ id. IsIn pool.new.trees id) }
    ensures made { IfOk result (λ id. (sig : Sig) → AreSignTables tables.now sig → (t : Term) → RightIs sig pool.old.trees right t → StandsFor sig pool.new.trees id t) }
{
    match right {
        Right::Is(x) => Ok(x),
        Right::Truth(value) => truth(pool, value),
        Right::Numeral(sort, num) => numeral(pool, sort, num),
        Right::Not(x) => one(pool, NOT, x),
        Right::NotTwo(fun, x, y) => {
            let inner = two(pool, fun, x, y)?;
            one(pool, NOT, inner)
        }
        Right::NotOr(x, y) => {
            let inner = one(pool, NOT, x)?;
            two(pool, OR, inner, y)
        }
        Right::One(fun, x) => one(pool, fun, x),
        Right::Two(fun, x, y) => two(pool, fun, x, y),
        Right::TwoOne(fun, x, inner, y) => two_one(pool, fun, x, inner, y),
        Right::TwoTwo(fun, x, inner, y, z) => two_two(pool, fun, x, inner, y, z),
        Right::Both(f, x, y, g, z, w) => two_twos(pool, AND, (f, x, y), (g, z, w)),
        Right::Either(f, x, y, g, z, w) => two_twos(pool, OR, (f, x, y), (g, z, w)),
        Right::Longer(size, x) => longer(pool, size, x),
        Right::Later(fun, x, y) => later(pool, fun, x, y),
        Right::Places(fun, x, y) => places(alloc, tables, pool, fun, x, y),
    }
}

/// The greatest number that none of three passes.
fn least(a: usize, b: usize, c: usize) -> usize
    ensures below { (result ≤ a) × (result ≤ b) × (result ≤ c) }
    ensures one { (a ≤ result) ⊎ ((b ≤ result) ⊎ (c ≤ result)) }
{
    if a <= b && a <= c {
        return a;
    }
    if b <= c {
        return b;
    }
    c
}

/// Whether three numbers are this one.
fn are_all(number: usize, a: usize, b: usize, c: usize) -> bool
    ensures { IsTrue result ↔ ((a ≡ number) × (b ≡ number) × (c ≡ number)) }
{
    a == number && b == number && c == number
}

/// The equalities of two lists of arguments, joined to the right; `true` for none.
fn all_equal(
    pool: &mut Pool,
    equals: &[FunId],
    xs: &[TermId],
    ys: &[TermId],
) -> Result<TermId, NoMemory>
    requires left { AreIn pool.old.trees xs.now }
    requires right { AreIn pool.old.trees ys.now }
    ensures kept { Extends pool.old.trees pool.new.trees }
    ensures inside { IfOk result (λ id. IsIn pool.new.trees id) }
    ensures made { IfOk result (λ id. (sig : Sig) → IsSignature sig → (ss : List Sort) → AreEqualities sig equals.now ss → All (IsTerm sig pool.old.trees) xs.now → All (IsTerm sig pool.old.trees) ys.now → StandsFor sig pool.new.trees id (equal_from 0 ss (listed_at sig pool.old.trees xs.now) (listed_at sig pool.old.trees ys.now))) }
{
    let count = least(equals.len(), xs.len(), ys.len());
    let mut all = truth(pool, true)?;
    for back in 0..count {
        let next = count - back;
        let here = two(pool, equals[next - 1], xs[next - 1], ys[next - 1])?;
        if are_all(next, equals.len(), xs.len(), ys.len()) {
            all = here;
            continue;
        }
        all = two(pool, AND, here, all)?;
    }
    Ok(all)
}

/// The arguments of an application.
fn arguments_of(alloc: Global, pool: &Pool, term: TermId) -> Result<Vec<TermId>, NoMemory>
    requires { IsIn pool.now.trees term }
    ensures inside { IfOk result (λ args. AreIn pool.now.trees args.items) }
    ensures are { IfOk result (λ args. (sig : Sig) (f : Symbol) (us : Terms) → IsTerm sig pool.now.trees term → term_at sig pool.now.trees term ≡ terms.application f us → All (IsTerm sig pool.now.trees) args.items × (us ≡ terms_of (listed_at sig pool.now.trees args.items))) }
{
    let args = pool.node(term).args.as_slice().to_vec(alloc)?;
    Ok(args)
}

/// The equalities of the arguments of two applications of a constructor.
fn places(
    alloc: Global,
    tables: &Tables,
    pool: &mut Pool,
    fun: FunId,
    x: TermId,
    y: TermId,
) -> Result<TermId, NoMemory>
    requires left { IsIn pool.old.trees x }
    requires right { IsIn pool.old.trees y }
    ensures kept { Extends pool.old.trees pool.new.trees }
    ensures inside { IfOk result (λ id. IsIn pool.new.trees id) }
    ensures made { IfOk result (λ id. (sig : Sig) → AreSignTables tables.now sig → (c : ℕ) (us vs : Terms) → IsSymbolOf sig fun (terms.function c) → StandsFor sig pool.old.trees x (terms.application (terms.function c) us) → StandsFor sig pool.old.trees y (terms.application (terms.function c) vs) → StandsFor sig pool.new.trees id (all_equal (function_at (data_meant sig) c).arguments us vs)) }
{
    let xs = arguments_of(alloc, pool, x)?;
    let ys = arguments_of(alloc, pool, y)?;
    let made = all_equal(pool, tables.equalities(fun), xs.as_slice(), ys.as_slice())?;
    Ok(made)
}

/// A built-in equation that matches, with its right side and its condition.
pub fn make_line(
    alloc: Global,
    tables: &Tables,
    pool: &mut Pool,
    line: Line,
) -> Result<Found, NoMemory>
    requires { IsLineIn pool.old.trees line }
    ensures kept { Extends pool.old.trees pool.new.trees }
    ensures number { IfOk result (λ found. found.number ≡ line.number) }
    ensures inside { IfOk result (IsFoundIn pool.new.trees) }
    ensures made { IfOk result (λ found. (sig : Sig) → AreSignTables tables.now sig → (t : Term) (h : IsFirstAt sig pool.old.trees t line) → StandsFor sig pool.new.trees found.right h.right × IsConditionMade sig pool.new.trees found.cond h.condition) }
{
    let right = make(alloc, tables, pool, line.right)?;
    let Some(index) = line.above_zero else {
        return Ok(Found {
            number: line.number,
            cond: None,
            right,
        });
    };
    let cond = above_zero(pool, index)?;
    Ok(Found {
        number: line.number,
        cond: Some(cond),
        right,
    })
}
