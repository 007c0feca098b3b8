//! The product of two linear processes within what is allowed.

ghost use Rattle.std.specs.Prelude.{◌≡◌, ◌&&◌, map, IfOk, IfSome};
ghost use Rattle.std.specs.List.{list_any};
ghost use Rattle.term_pool.specs.Pools.{Extends};
ghost use Rattle.process_terms.specs.SignatureEntries.{entries_of};
ghost use Rattle.lps_core.specs.Fitting.{Fits};
ghost use Rattle.lps_core.specs.Naming.{GrowsByNames};
ghost use Rattle.lps_core.specs.PlainLinears.{ends, plain_linear, plain_summand};
ghost use Rattle.summand_expander.specs.PlainAllowed.{plain_allowed};
ghost use Rattle.summand_expander.specs.Pruned.{product_within};
ghost use Rattle.summand_expander.specs.SideFits.{IsFlagOf};
ghost use Rattle.summand_expander.specs.WholeProducts.{AreSummandsOf, HaveDifferentNames};
ghost use Rattle.summand_expander.specs.WithinProducts.{can_stay_of, scope_of, AllowedFits, IsGoodProductWithin, IsProductWithin};

use crate::allowing::Allowed;
use crate::flag::flag_for;
use crate::frames::side_of;
use crate::kept_drafts::drafts_within;
use crate::products::{all_init, all_params};
use crate::renewal::giving_way;
use crate::renewed::renewed;
use crate::summands::all_finished;
use data_theory::{NoMemory, Signature, VarId};
use lps_core::{Linear, Summand, signature_stands};
use std::alloc::Global;
use term_pool::Pool;

/// The summands of the product of two linear processes with their flags, within what is allowed.
fn summands_within(
    alloc: Global,
    left: &Linear,
    left_flag: Option<VarId>,
    right: &Linear,
    right_flag: Option<VarId>,
    allowed: &Allowed,
    sig: &Signature,
    pool: &mut Pool,
) -> Result<Vec<Summand>, NoMemory>
    requires left { Fits sig.now pool.old.trees (plain_linear left.now) }
    requires right { Fits sig.now pool.old.trees (plain_linear right.now) }
    requires left_flag { IfSome left_flag (IsFlagOf sig.now) }
    requires right_flag { IfSome right_flag (IsFlagOf sig.now) }
    requires allowed { AllowedFits sig.now (plain_allowed allowed.now) }
    ensures kept { Extends pool.old.trees pool.new.trees }
    ensures constants { pool.new.constants ≡ pool.old.constants }
    ensures made { IfOk result (λ made. AreSummandsOf (product_within (can_stay_of (entries_of sig.now pool.new.trees) (plain_allowed allowed.now))) sig.now pool.new.trees (plain_linear left.now) left_flag (plain_linear right.now) right_flag (map plain_summand made.items)) }
{
    signature_stands(sig);
    let first = side_of(alloc, left, left_flag, pool)?;
    let second = side_of(alloc, right, right_flag, pool)?;
    let drafts = drafts_within(alloc, allowed, sig, &first, &second)?;
    all_finished(alloc, pool, drafts)
}

/// The product of two linear processes within what is allowed: that of `product` without the summands whose names can't be completed to it,
/// since what stands around the product would leave nothing of them. Where the product can end and no summand that ends would stay, the
/// first one that ends does, so that it can end where the product can.
///
/// The right side gives way as in `product`. Of a pair that is left out nothing is made. After `NoMemory` the pool and the signature may
/// have got some of the product. What was there stays, then too.
///
/// # Errors
///
/// `NoMemory` where there is none for it.
pub fn product_within(
    alloc: Global,
    left: &Linear,
    right: &Linear,
    allowed: &Allowed,
    sig: &mut Signature,
    pool: &mut Pool,
) -> Result<Linear, NoMemory>
    requires left { Fits sig.old pool.old.trees (plain_linear left.now) }
    requires right { Fits sig.old pool.old.trees (plain_linear right.now) }
    requires allowed { AllowedFits sig.old (plain_allowed allowed.now) }
    ensures grown { GrowsByNames sig.old sig.new }
    ensures kept { Extends pool.old.trees pool.new.trees }
    ensures constants { pool.new.constants ≡ pool.old.constants }
    ensures fits { IfOk result (λ made. Fits sig.new pool.new.trees (plain_linear made)) }
    ensures made { IfOk result (λ made. IsProductWithin sig.old sig.new pool.new.trees (scope_of (entries_of sig.new pool.new.trees) (plain_allowed allowed.now)) (plain_linear left.now) (plain_linear right.now) (plain_linear made)) }
    ensures bisimilar { IfOk result (λ made. IsGoodProductWithin sig.new pool.new.trees (scope_of (entries_of sig.new pool.new.trees) (plain_allowed allowed.now)) (plain_linear left.now) (plain_linear right.now) (plain_linear made)) }
    ensures names { IfOk result (λ made. HaveDifferentNames sig.old left.now.params.items → HaveDifferentNames sig.old right.now.params.items → HaveDifferentNames sig.new made.params.items) }
    ensures ends { IfOk result (λ made. list_any ends made.summands.items ≡ (list_any ends left.now.summands.items && list_any ends right.now.summands.items)) }
{
    signature_stands(sig);
    let left_flag = flag_for(left, sig)?;
    let renewal = giving_way(alloc, left, right, sig)?;
    let right_flag = flag_for(right, sig)?;
    let right = renewed(alloc, pool, right, &renewal)?;
    let summands = summands_within(
        alloc, left, left_flag, &right, right_flag, allowed, sig, pool,
    )?;
    let params = all_params(alloc, left, left_flag, &right, right_flag)?;
    let init = all_init(alloc, left, left_flag, &right, right_flag, pool)?;
    Ok(Linear {
        params,
        init,
        summands,
    })
}
