//! The product of two linear processes.

ghost use Rattle.std.specs.Prelude.{◌≡◌, ◌&&◌, ◌++◌, map, option_to_list, IfOk, IfSome, OnOk};
ghost use Rattle.std.specs.List.{list_any, All};
ghost use Rattle.data_theory.specs.Signature.{Sig};
ghost use Rattle.data_theory.specs.WholeSignatures.{IsSignature};
ghost use Rattle.term_pool.specs.Pools.{Extends};
ghost use Rattle.lps_core.specs.Fitting.{Fits};
ghost use Rattle.lps_core.specs.Naming.{GrowsByNames};
ghost use Rattle.lps_core.specs.PlainLinears.{ends, plain_linear, plain_summand};
ghost use Rattle.lps_core.specs.TreeSummands.{IsSummandIn};
ghost use Rattle.summand_expander.specs.SideFits.{IsFlagOf};
ghost use Rattle.summand_expander.specs.StartedProducts.{HasItsSides};
ghost use Rattle.summand_expander.specs.WholeProducts.{first_flag_id, AreFirstTerms, AreProductSummands, HaveDifferentNames, IsGoodProduct, IsProduct};

use crate::flag::flag_for;
use crate::frames::side_of;
use crate::renewal::giving_way;
use crate::renewed::renewed;
use crate::summands::summands_of;
use data_theory::{FunId, NoMemory, Signature, TermId, VarId};
use lps_core::{Linear, Summand, signature_stands};
use std::alloc::Global;
use term_pool::{Head, Pool};

/// `false`
const FALSE: FunId = FunId(7);

/// The summands of the product of two linear processes with their flags.
fn all_summands(
    alloc: Global,
    left: &Linear,
    left_flag: Option<VarId>,
    right: &Linear,
    right_flag: Option<VarId>,
    pool: &mut Pool,
) -> Result<Vec<Summand>, NoMemory>
    requires left { All (IsSummandIn pool.old.trees) (map plain_summand left.now.summands.items) }
    requires right { All (IsSummandIn pool.old.trees) (map plain_summand right.now.summands.items) }
    ensures kept { Extends pool.old.trees pool.new.trees }
    ensures constants { pool.new.constants ≡ pool.old.constants }
    ensures made { IfOk result (λ made. (g : Sig) → IsSignature g → Fits g pool.old.trees (plain_linear left.now) → Fits g pool.old.trees (plain_linear right.now) → IfSome left_flag (IsFlagOf g) → IfSome right_flag (IsFlagOf g) → AreProductSummands g pool.new.trees (plain_linear left.now) left_flag (plain_linear right.now) right_flag (map plain_summand made.items)) }
{
    let first = side_of(alloc, left, left_flag, pool)?;
    let second = side_of(alloc, right, right_flag, pool)?;
    summands_of(alloc, &first, &second, pool)
}

/// Adds the parameters of a side and its flag.
fn add_columns(all: &mut Vec<VarId>, params: &[VarId], flag: Option<VarId>) -> Result<(), NoMemory>
    ensures { OnOk result (all.new.items ≡ all.old.items ++ (params.now ++ option_to_list flag)) }
{
    all.extend_from_slice(params)?;
    if let Some(flag) = flag {
        all.push(flag)?;
    }
    Ok(())
}

/// The parameters of both sides, each with its flag behind them.
pub fn all_params(
    alloc: Global,
    left: &Linear,
    left_flag: Option<VarId>,
    right: &Linear,
    right_flag: Option<VarId>,
) -> Result<Vec<VarId>, NoMemory>
    ensures { IfOk result (λ all. all.items ≡ (left.now.params.items ++ option_to_list left_flag) ++ (right.now.params.items ++ option_to_list right_flag)) }
{
    let mut all = Vec::new(alloc);
    add_columns(&mut all, left.params.as_slice(), left_flag)?;
    add_columns(&mut all, right.params.as_slice(), right_flag)?;
    Ok(all)
}

/// Adds the initial terms of a side, and of its flag where it has one.
fn add_init(
    all: &mut Vec<TermId>,
    init: &[TermId],
    flag: Option<VarId>,
    unset: TermId,
) -> Result<(), NoMemory>
    ensures { OnOk result (all.new.items ≡ all.old.items ++ (init.now ++ first_flag_id unset flag)) }
{
    all.extend_from_slice(init)?;
    if let Some(_) = flag {
        all.push(unset)?;
    }
    Ok(())
}

/// The initial terms of both sides. No flag is set.
pub fn all_init(
    alloc: Global,
    left: &Linear,
    left_flag: Option<VarId>,
    right: &Linear,
    right_flag: Option<VarId>,
    pool: &mut Pool,
) -> Result<Vec<TermId>, NoMemory>
    ensures kept { Extends pool.old.trees pool.new.trees }
    ensures constants { pool.new.constants ≡ pool.old.constants }
    ensures init { IfOk result (λ all. AreFirstTerms pool.new.trees left.now.init.items left_flag right.now.init.items right_flag all.items) }
{
    let unset = pool.intern(Head::Fun(FALSE), &[])?;
    let mut all = Vec::new(alloc);
    add_init(&mut all, left.init.as_slice(), left_flag, unset)?;
    add_init(&mut all, right.init.as_slice(), right_flag, unset)?;
    Ok(all)
}

/// The product, as that of two separate sides.
pub fn product_of_sides(
    alloc: Global,
    left: &Linear,
    right: &Linear,
    sig: &mut Signature,
    pool: &mut Pool,
) -> Result<Linear, NoMemory>
    requires left { Fits sig.old pool.old.trees (plain_linear left.now) }
    requires right { Fits sig.old pool.old.trees (plain_linear right.now) }
    ensures grown { GrowsByNames sig.old sig.new }
    ensures kept { Extends pool.old.trees pool.new.trees }
    ensures constants { pool.new.constants ≡ pool.old.constants }
    ensures fits { IfOk result (λ made. Fits sig.new pool.new.trees (plain_linear made)) }
    ensures made { IfOk result (λ made. IsProduct sig.old sig.new pool.new.trees (plain_linear left.now) (plain_linear right.now) (plain_linear made)) }
    ensures bisimilar { IfOk result (λ made. IsGoodProduct sig.new pool.new.trees (plain_linear left.now) (plain_linear right.now) (plain_linear made)) }
    ensures sides { IfOk result (λ made. HasItsSides sig.old sig.new pool.new.trees (plain_linear left.now) (plain_linear right.now) (plain_linear made)) }
    ensures names { IfOk result (λ made. HaveDifferentNames sig.old left.now.params.items → HaveDifferentNames sig.old right.now.params.items → HaveDifferentNames sig.new made.params.items) }
    ensures ends { IfOk result (λ made. list_any ends made.summands.items ≡ (list_any ends left.now.summands.items && list_any ends right.now.summands.items)) }
{
    signature_stands(sig);
    let left_flag = flag_for(left, sig)?;
    let renewal = giving_way(alloc, left, right, sig)?;
    let right_flag = flag_for(right, sig)?;
    let right = renewed(alloc, pool, right, &renewal)?;
    let summands = all_summands(alloc, left, left_flag, &right, right_flag, pool)?;
    let params = all_params(alloc, left, left_flag, &right, right_flag)?;
    let init = all_init(alloc, left, left_flag, &right, right_flag, pool)?;
    Ok(Linear {
        params,
        init,
        summands,
    })
}

/// The product of two linear processes: it does what both do side by side, every summand of one side alone and every pair of
/// summands at once (book, parallel composition of linear processes; that a side may end, and has a flag then, is this profile's).
///
/// The right side gives way: its parameters get other names, and its variables other ids, where the left side has them. After
/// `NoMemory` the pool and the signature may have got some of this. What was there stays, then too.
///
/// # Errors
///
/// `NoMemory` where there is none for it.
pub fn product(
    alloc: Global,
    left: &Linear,
    right: &Linear,
    sig: &mut Signature,
    pool: &mut Pool,
) -> Result<Linear, NoMemory>
    requires left { Fits sig.old pool.old.trees (plain_linear left.now) }
    requires right { Fits sig.old pool.old.trees (plain_linear right.now) }
    ensures grown { GrowsByNames sig.old sig.new }
    ensures kept { Extends pool.old.trees pool.new.trees }
    ensures constants { pool.new.constants ≡ pool.old.constants }
    ensures fits { IfOk result (λ made. Fits sig.new pool.new.trees (plain_linear made)) }
    ensures made { IfOk result (λ made. IsProduct sig.old sig.new pool.new.trees (plain_linear left.now) (plain_linear right.now) (plain_linear made)) }
    ensures bisimilar { IfOk result (λ made. IsGoodProduct sig.new pool.new.trees (plain_linear left.now) (plain_linear right.now) (plain_linear made)) }
    ensures names { IfOk result (λ made. HaveDifferentNames sig.old left.now.params.items → HaveDifferentNames sig.old right.now.params.items → HaveDifferentNames sig.new made.params.items) }
    ensures ends { IfOk result (λ made. list_any ends made.summands.items ≡ (list_any ends left.now.summands.items && list_any ends right.now.summands.items)) }
{
    product_of_sides(alloc, left, right, sig, pool)
}
