//! The product of two linear processes whose first step is of one kind.

ghost use Rattle.std.specs.Prelude.{◌≡◌, ◌≤◌, ◌+◌, ◌&&◌, if◌then◌else◌, length, map, IfOk};
ghost use Rattle.std.specs.List.{list_any, All, AllZip};
ghost use Rattle.term_pool.specs.HeadTrees.{tree_at, IsIn};
ghost use Rattle.term_pool.specs.Pools.{Extends};
ghost use Rattle.lps_core.specs.Fitting.{Fits};
ghost use Rattle.lps_core.specs.Naming.{GrowsByNames};
ghost use Rattle.lps_core.specs.PlainLinears.{ends, plain_linear, plain_next, plain_summand};
ghost use Rattle.lps_core.specs.TreeSummands.{IsSummandIn};
ghost use Rattle.summand_expander.specs.FirstSteps.{left_may};
ghost use Rattle.summand_expander.specs.StartedTrees.{alone_count, started_condition, started_next, times_alone, AreStarted, HasFlagTerms, IsStarted, IsStartedSummand};
ghost use Rattle.summand_expander.specs.WholeFirstSteps.{IsGoodProductFrom};
ghost use Rattle.summand_expander.specs.WholeProducts.{HaveDifferentNames};
ghost use Rattle.summand_expander.specs.StartedProducts.{start_of, IsFirst, IsProductFrom};

use crate::products::product_of_sides;
use data_theory::{FunId, NoMemory, Signature, SortId, TermId, VarId};
use lps_core::{Linear, Summand, conjoined, parts_of, signature_stands, variable_term};
use std::alloc::Global;
use term_pool::{Head, Pool};

const BOOL: SortId = SortId(0);

/// `true`
const TRUE: FunId = FunId(6);

/// `false`
const FALSE: FunId = FunId(7);

/// `!`
const NOT: FunId = FunId(8);

/// What the first step is: one of the left process alone, as in `p ||_ q`, or one of both, as in `p | q`.
#[derive(Clone, Copy, Debug, Drop)]
pub enum Start {
    LeftAlone,
    Both,
}

impl Start {
    /// Whether the first step is one of the left process alone.
    pub fn is_left_alone(self) -> bool
        ensures { result ≡ left_may (start_of self) }
    {
        matches!(self, Start::LeftAlone)
    }
}

/// The parameter that says that the first step is still to come, with the terms that summands have of it.
#[derive(Debug, Drop)]
pub struct FirstFlag {
    pub var: VarId,
    /// The parameter as a term.
    pub column: TermId,
    /// The part `!first`.
    pub begun: TermId,
    /// `false`
    pub unset: TermId,
}

impl FirstFlag {
    /// The parameter after a summand: `false` after one that may be the first step, and as it stands after all others.
    fn after(&self, may_be_first: bool) -> TermId
        ensures { result ≡ (if may_be_first then self.now.unset else self.now.column) }
    {
        if may_be_first {
            self.unset
        } else {
            self.column
        }
    }
}

/// How many summands of a product a summand of one side makes alone: two where both it and the other side end.
fn times_alone(other_ends: bool, summand: &Summand) -> usize
    ensures times { result ≡ times_alone other_ends (plain_summand summand.now).next }
    ensures few { result ≤ 2 }
{
    match &summand.next {
        None if other_ends => 2,
        _ => 1,
    }
}

/// How many summands of a product are of this side alone.
fn count_alone(own: &[Summand], other_ends: bool) -> usize
    ensures { result ≡ alone_count other_ends (map plain_summand own.now) }
{
    let mut count = 0;
    for summand in own {
        count += times_alone(other_ends, summand);
    }
    count
}

/// A new variable of sort Bool, with a fresh name on `first`.
fn first_variable(sig: &mut Signature) -> Result<VarId, NoMemory>
    ensures grown { GrowsByNames sig.old sig.new }
    ensures first { IfOk result (λ var. IsFirst sig.old sig.new var) }
{
    signature_stands(sig);
    let name = sig.fresh("first")?;
    let var = sig.add_var(name, BOOL)?;
    Ok(var)
}

/// The terms of the parameter.
fn flag_terms(pool: &mut Pool, var: VarId) -> Result<FirstFlag, NoMemory>
    ensures kept { Extends pool.old.trees pool.new.trees }
    ensures constants { pool.new.constants ≡ pool.old.constants }
    ensures terms { IfOk result (λ flag. HasFlagTerms pool.new.trees flag) }
    ensures variable { IfOk result (λ flag. flag.var ≡ var) }
{
    let column = variable_term(pool, var)?;
    let begun = pool.intern(Head::Fun(NOT), &[column])?;
    let unset = pool.intern(Head::Fun(FALSE), &[])?;
    Ok(FirstFlag {
        var,
        column,
        begun,
        unset,
    })
}

/// The condition, with the part `!first` before all its parts where the summand can't be the first step.
fn start_condition(
    alloc: Global,
    pool: &mut Pool,
    flag: &FirstFlag,
    may_be_first: bool,
    cond: TermId,
) -> Result<TermId, NoMemory>
    requires terms { HasFlagTerms pool.old.trees flag.now }
    requires within { IsIn pool.old.trees cond }
    ensures kept { Extends pool.old.trees pool.new.trees }
    ensures constants { pool.new.constants ≡ pool.old.constants }
    ensures within { IfOk result (λ id. IsIn pool.new.trees id) }
    ensures tree { IfOk result (λ id. tree_at pool.new.trees id ≡ started_condition flag.now.var may_be_first (tree_at pool.old.trees cond)) }
{
    if may_be_first {
        return Ok(cond);
    }
    let mut parts = Vec::new(alloc);
    parts.push(flag.begun)?;
    parts_of(pool, cond, &mut parts)?;
    conjoined(pool, parts)
}

/// The next terms, and the parameter behind them: `false` after the first step.
fn start_next(
    alloc: Global,
    after: TermId,
    next: &Option<Vec<TermId>>,
) -> Result<Option<Vec<TermId>>, NoMemory>
    ensures { IfOk result (λ made. plain_next made ≡ started_next after (plain_next next.now)) }
{
    let Some(own) = next else {
        return Ok(None);
    };
    let mut terms = own.to_vec(alloc)?;
    terms.push(after)?;
    Ok(Some(terms))
}

/// A summand of the product that may be the first step, or one that can't.
fn start_summand(
    alloc: Global,
    pool: &mut Pool,
    flag: &FirstFlag,
    may_be_first: bool,
    summand: &Summand,
) -> Result<Summand, NoMemory>
    requires terms { HasFlagTerms pool.old.trees flag.now }
    requires within { IsIn pool.old.trees summand.now.cond }
    ensures kept { Extends pool.old.trees pool.new.trees }
    ensures constants { pool.new.constants ≡ pool.old.constants }
    ensures started { IfOk result (λ made. IsStartedSummand pool.old.trees pool.new.trees flag.now may_be_first (plain_summand summand.now) (plain_summand made)) }
{
    let cond = start_condition(alloc, pool, flag, may_be_first, summand.cond)?;
    let next = start_next(alloc, flag.after(may_be_first), &summand.next)?;
    Ok(Summand {
        sums: summand.sums.to_vec(alloc)?,
        cond,
        label: summand.label.copy(alloc)?,
        next,
    })
}

/// Summands of the product that all may be the first step, or that all can't.
fn start_group(
    alloc: Global,
    pool: &mut Pool,
    flag: &FirstFlag,
    may_be_first: bool,
    summands: &[Summand],
) -> Result<Vec<Summand>, NoMemory>
    requires terms { HasFlagTerms pool.old.trees flag.now }
    requires within { All (IsSummandIn pool.old.trees) (map plain_summand summands.now) }
    ensures kept { Extends pool.old.trees pool.new.trees }
    ensures constants { pool.new.constants ≡ pool.old.constants }
    ensures started { IfOk result (λ made. AllZip (IsStartedSummand pool.old.trees pool.new.trees flag.now may_be_first) (map plain_summand summands.now) (map plain_summand made.items)) }
{
    let mut made = Vec::new(alloc);
    for summand in summands {
        made.push(start_summand(alloc, pool, flag, may_be_first, summand)?)?;
    }
    Ok(made)
}

/// The summands of the product with the parameter: first these many of the left side alone, then these many of the right side alone,
/// and then those of both.
fn start_all(
    alloc: Global,
    pool: &mut Pool,
    flag: &FirstFlag,
    start: Start,
    lefts: usize,
    rights: usize,
    summands: &[Summand],
) -> Result<Vec<Summand>, NoMemory>
    requires terms { HasFlagTerms pool.old.trees flag.now }
    requires within { All (IsSummandIn pool.old.trees) (map plain_summand summands.now) }
    requires alone { lefts + rights ≤ length summands.now }
    ensures kept { Extends pool.old.trees pool.new.trees }
    ensures constants { pool.new.constants ≡ pool.old.constants }
    ensures started { IfOk result (λ made. AreStarted pool.old.trees pool.new.trees flag.now (start_of start) lefts rights (map plain_summand summands.now) (map plain_summand made.items)) }
{
    let (left_alone, others) = summands.split_at(lefts);
    let (right_alone, both) = others.split_at(rights);
    let left_first = start.is_left_alone();
    let mut made = start_group(alloc, pool, flag, left_first, left_alone)?;
    let mut of_right = start_group(alloc, pool, flag, false, right_alone)?;
    let mut of_both = start_group(alloc, pool, flag, !left_first, both)?;
    made.append(&mut of_right)?;
    made.append(&mut of_both)?;
    Ok(made)
}

/// The product with the parameter, which is `true` at first.
fn with_flag(
    alloc: Global,
    product: Linear,
    var: VarId,
    start: Start,
    lefts: usize,
    rights: usize,
    pool: &mut Pool,
) -> Result<Linear, NoMemory>
    requires within { All (IsSummandIn pool.old.trees) (map plain_summand product.summands.items) }
    requires alone { lefts + rights ≤ length product.summands.items }
    ensures kept { Extends pool.old.trees pool.new.trees }
    ensures constants { pool.new.constants ≡ pool.old.constants }
    ensures started { IfOk result (λ made. IsStarted pool.old.trees pool.new.trees var (start_of start) lefts rights (plain_linear product) (plain_linear made)) }
{
    let flag = flag_terms(pool, var)?;
    let summands = product.summands.as_slice();
    let summands = start_all(alloc, pool, &flag, start, lefts, rights, summands)?;
    let set = pool.intern(Head::Fun(TRUE), &[])?;
    let Linear { params, init, .. } = product;
    let mut params = params;
    let mut init = init;
    params.push(var)?;
    init.push(set)?;
    Ok(Linear {
        params,
        init,
        summands,
    })
}

/// The product of two linear processes, with one parameter more behind all others, which says that the first step is still to come.
/// A summand that may be the first step, which is one of the left side alone or a pair, gives it `false` where it goes on. Every
/// other one has the part `!first` before all parts of its condition, and leaves it as it is.
///
/// After `NoMemory` the pool and the signature may have got some of this. What was there stays, then too.
///
/// # Errors
///
/// `NoMemory` where there is none for it.
pub fn product_from(
    alloc: Global,
    left: &Linear,
    right: &Linear,
    start: Start,
    sig: &mut Signature,
    pool: &mut Pool,
) -> Result<Linear, NoMemory>
    requires left { Fits sig.old pool.old.trees (plain_linear left.now) }
    requires right { Fits sig.old pool.old.trees (plain_linear right.now) }
    ensures grown { GrowsByNames sig.old sig.new }
    ensures kept { Extends pool.old.trees pool.new.trees }
    ensures constants { pool.new.constants ≡ pool.old.constants }
    ensures fits { IfOk result (λ made. Fits sig.new pool.new.trees (plain_linear made)) }
    ensures made { IfOk result (λ made. IsProductFrom (start_of start) sig.old sig.new pool.new.trees (plain_linear left.now) (plain_linear right.now) (plain_linear made)) }
    ensures bisimilar { IfOk result (λ made. IsGoodProductFrom (start_of start) sig.new pool.new.trees (plain_linear left.now) (plain_linear right.now) (plain_linear made)) }
    ensures names { IfOk result (λ made. HaveDifferentNames sig.old left.now.params.items → HaveDifferentNames sig.old right.now.params.items → HaveDifferentNames sig.new made.params.items) }
    ensures ends { IfOk result (λ made. list_any ends made.summands.items ≡ (list_any ends left.now.summands.items && list_any ends right.now.summands.items)) }
{
    signature_stands(sig);
    let product = product_of_sides(alloc, left, right, sig, pool)?;
    let var = first_variable(sig)?;
    let lefts = count_alone(left.summands(), right.can_end());
    let rights = count_alone(right.summands(), left.can_end());
    with_flag(alloc, product, var, start, lefts, rights, pool)
}
