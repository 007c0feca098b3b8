//! The linear process of a network from those of its components.

ghost use Rattle.std.specs.Prelude.{◌≡◌, ◌∷◌, ◌<◌, IfOk, length, map};
ghost use Rattle.term_pool.specs.Pools.{Extends};
ghost use Rattle.lps_core.specs.Fitting.{Fits};
ghost use Rattle.lps_core.specs.Naming.{GrowsByNames};
ghost use Rattle.lps_core.specs.PlainLinears.{plain_linear};
ghost use Rattle.action_filters.specs.Filters.{IsGoodAround};
ghost use Rattle.proc_unfold.specs.Networks.{left_merge, networks_of, plain_network, plain_operator};
ghost use Rattle.lin_driver.specs.FittingOperators.{OperatorFits};
ghost use Rattle.lin_driver.specs.KeptTexts.{TakesTheFirst};
ghost use Rattle.lin_driver.specs.NetworkProducts.{ComposedFrom, IsAround, IsJoint};
ghost use Rattle.lin_driver.specs.NetworkScopes.{around_sign, beside_sign, everything, merging, networks_with, plain_scope, plain_sign, ScopeFits};
ghost use Rattle.lin_driver.specs.Parts.{Composes, HasItsParts, LeadsBeside};
ghost use Rattle.lin_driver.specs.PlainlyMade.{ComposesPlainly, StaysPlainAround};

use crate::scopes::{Scope, Sign, below, beside};
use action_filters::{allow, block, hide, rename};
use communication::communicate;
use data_theory::{NoMemory, Signature};
use lps_core::{Linear, signature_stands};
use proc_unfold::{NetOp, Network};
use std::alloc::Global;
use std::collections::VecDeque;
use summand_expander::{Start, product, product_from, product_within};
use term_pool::Pool;

/// An operator around a linear process. Kept out of the frames of the cycle below, which goes as deep as a network nests.
#[inline(never)]
fn around(
    alloc: Global,
    operator: &NetOp,
    linear: &Linear,
    sig: &Signature,
    pool: &mut Pool,
) -> Result<Linear, NoMemory>
    requires fits { Fits sig.now pool.old.trees (plain_linear linear.now) }
    requires operator { OperatorFits sig.now (plain_operator operator.now) }
    ensures kept { Extends pool.old.trees pool.new.trees }
    ensures constants { pool.new.constants ≡ pool.old.constants }
    ensures params { IfOk result (λ made. (plain_linear made).params ≡ (plain_linear linear.now).params) }
    ensures fits { IfOk result (λ made. Fits sig.now pool.new.trees (plain_linear made)) }
    ensures around { IfOk result (λ made. IsAround sig.now pool.old.trees pool.new.trees (plain_operator operator.now) (plain_linear linear.now) (plain_linear made)) }
    ensures bisimilar { IfOk result (λ made. IsGoodAround sig.now pool.new.trees (plain_operator operator.now) (plain_linear linear.now) (plain_linear made)) }
    ensures plain { IfOk result (λ made. StaysPlainAround sig.now pool.old pool.new (plain_operator operator.now) (plain_linear linear.now) (plain_linear made)) }
{
    signature_stands(sig);
    match operator {
        NetOp::Allow(sets) => allow(alloc, linear, sets.as_slice(), sig),
        NetOp::Block(names) => block(alloc, linear, names.as_slice(), sig),
        NetOp::Hide(names) => hide(alloc, linear, names.as_slice(), sig),
        NetOp::Rename(pairs) => rename(alloc, linear, pairs.as_slice(), sig),
        NetOp::Comm(rules) => communicate(alloc, linear, rules, sig, pool),
    }
}

/// Two linear processes with `||` between them: their product, or the product within the labels that matter.
fn merged(
    alloc: Global,
    left: &Linear,
    right: &Linear,
    within: &Scope,
    sig: &mut Signature,
    pool: &mut Pool,
) -> Result<Linear, NoMemory>
    requires left { Fits sig.old pool.old.trees (plain_linear left.now) }
    requires right { Fits sig.old pool.old.trees (plain_linear right.now) }
    requires scope { ScopeFits sig.old (plain_scope within.now) }
    ensures grown { GrowsByNames sig.old sig.new }
    ensures kept { Extends pool.old.trees pool.new.trees }
    ensures constants { pool.new.constants ≡ pool.old.constants }
    ensures fits { IfOk result (λ made. Fits sig.new pool.new.trees (plain_linear made)) }
    ensures joint { IfOk result (λ made. IsJoint (merging (plain_scope within.now)) sig.old sig.new pool.new.trees (plain_linear left.now) (plain_linear right.now) (plain_linear made)) }
    ensures bisimilar { IfOk result (λ made. LeadsBeside (merging (plain_scope within.now)) sig.new pool.new.trees (plain_linear left.now) (plain_linear right.now) (plain_linear made)) }
{
    match within {
        Scope::Everything => product(alloc, left, right, sig, pool),
        Scope::Completable(allowed) => product_within(alloc, left, right, allowed, sig, pool),
    }
}

/// Two linear processes with this between them.
fn join(
    alloc: Global,
    left: &Linear,
    right: &Linear,
    sign: Sign<'_>,
    sig: &mut Signature,
    pool: &mut Pool,
) -> Result<Linear, NoMemory>
    requires left { Fits sig.old pool.old.trees (plain_linear left.now) }
    requires right { Fits sig.old pool.old.trees (plain_linear right.now) }
    requires scope { ScopeFits sig.old (around_sign (plain_sign sign)) }
    ensures grown { GrowsByNames sig.old sig.new }
    ensures kept { Extends pool.old.trees pool.new.trees }
    ensures constants { pool.new.constants ≡ pool.old.constants }
    ensures fits { IfOk result (λ made. Fits sig.new pool.new.trees (plain_linear made)) }
    ensures joint { IfOk result (λ made. IsJoint (plain_sign sign.entry) sig.old sig.new pool.new.trees (plain_linear left.now) (plain_linear right.now) (plain_linear made)) }
    ensures bisimilar { IfOk result (λ made. LeadsBeside (plain_sign sign.entry) sig.new pool.new.trees (plain_linear left.now) (plain_linear right.now) (plain_linear made)) }
{
    match sign {
        Sign::Merge(within) => merged(alloc, left, right, within, sig, pool),
        Sign::Sync => product_from(alloc, left, right, Start::Both, sig, pool),
    }
}

/// Takes the first of the linear processes.
fn take_first(parts: &mut VecDeque<Linear>) -> Linear
    requires { 0 < length parts.old.items }
    ensures { map plain_linear parts.old.items ≡ plain_linear result ∷ map plain_linear parts.new.items }
{
    match parts.pop_front() {
        Some(linear) => linear,
        None => unreachable!(),
    }
}

/// The linear process of a network, whose components have the first ones of these. They are taken from the front. Around the network the
/// labels of the scope matter: the linear process need not do what doesn't.
///
/// # Errors
///
/// `NoMemory` where there is none for it.
#[cycle(compose)]
pub(crate) fn compose(
    alloc: Global,
    network: &Network,
    within: &Scope,
    parts: &mut VecDeque<Linear>,
    sig: &mut Signature,
    pool: &mut Pool,
) -> Result<Linear, NoMemory>
    requires { HasItsParts (plain_scope within.now) sig.old pool.old.trees (plain_network network.now) (map plain_linear parts.old.items) }
    ensures grown { GrowsByNames sig.old sig.new }
    ensures kept { Extends pool.old.trees pool.new.trees }
    ensures constants { pool.new.constants ≡ pool.old.constants }
    ensures composed { IfOk result (λ made. Composes (plain_scope within.now) sig.old pool.old.trees (plain_network network.now) (map plain_linear parts.old.items) sig.new pool.new.trees (map plain_linear parts.new.items) (plain_linear made)) }
    ensures from { IfOk result (λ made. ComposedFrom (plain_scope within.now) sig.old pool.old.trees (plain_network network.now) (map plain_linear parts.old.items) sig.new pool.new.trees (map plain_linear parts.new.items) (plain_linear made)) }
    ensures first { IfOk result (λ made. TakesTheFirst (plain_network network.now) (map plain_linear parts.old.items) (map plain_linear parts.new.items) (plain_linear made)) }
    ensures plain { IfOk result (λ made. ComposesPlainly sig.old pool.old (plain_network network.now) (map plain_linear parts.old.items) sig.new pool.new (map plain_linear parts.new.items) (plain_linear made)) }
{
    signature_stands(sig);
    match network {
        Network::Leaf(_) => Ok(take_first(parts)),
        Network::Merge(networks) => {
            compose_beside(alloc, networks, Sign::Merge(within), parts, sig, pool)
        }
        Network::Op(operator, part) => {
            let inner = below(alloc, operator, within)?;
            let linear = compose(alloc, part, &inner, parts, sig, pool)?;
            around(alloc, operator, &linear, sig, pool)
        }
        Network::LeftMerge(first, second) => {
            compose_left_merge(alloc, first, second, parts, sig, pool)
        }
        Network::Sync(networks) => { compose_beside(alloc, networks, Sign::Sync, parts, sig, pool) }
    }
}

/// That of a left merge: the product of both whose first step is one of the left one alone.
#[cycle(compose)]
fn compose_left_merge(
    alloc: Global,
    first: &Network,
    second: &Network,
    parts: &mut VecDeque<Linear>,
    sig: &mut Signature,
    pool: &mut Pool,
) -> Result<Linear, NoMemory>
    requires { HasItsParts everything sig.old pool.old.trees (left_merge (plain_network first.now) (plain_network second.now)) (map plain_linear parts.old.items) }
    ensures grown { GrowsByNames sig.old sig.new }
    ensures kept { Extends pool.old.trees pool.new.trees }
    ensures constants { pool.new.constants ≡ pool.old.constants }
    ensures composed { IfOk result (λ made. Composes everything sig.old pool.old.trees (left_merge (plain_network first.now) (plain_network second.now)) (map plain_linear parts.old.items) sig.new pool.new.trees (map plain_linear parts.new.items) (plain_linear made)) }
    ensures from { IfOk result (λ made. ComposedFrom everything sig.old pool.old.trees (left_merge (plain_network first.now) (plain_network second.now)) (map plain_linear parts.old.items) sig.new pool.new.trees (map plain_linear parts.new.items) (plain_linear made)) }
    ensures plain { IfOk result (λ made. ComposesPlainly sig.old pool.old (left_merge (plain_network first.now) (plain_network second.now)) (map plain_linear parts.old.items) sig.new pool.new (map plain_linear parts.new.items) (plain_linear made)) }
{
    signature_stands(sig);
    let left = compose(alloc, first, &Scope::Everything, parts, sig, pool)?;
    let right = compose(alloc, second, &Scope::Everything, parts, sig, pool)?;
    product_from(alloc, &left, &right, Start::LeftAlone, sig, pool)
}

/// That of one of the networks that have this between them.
#[cycle(compose)]
fn compose_one(
    alloc: Global,
    network: &Network,
    sign: Sign<'_>,
    parts: &mut VecDeque<Linear>,
    sig: &mut Signature,
    pool: &mut Pool,
) -> Result<Linear, NoMemory>
    requires { HasItsParts (beside_sign (plain_sign sign) (plain_network network.now)) sig.old pool.old.trees (plain_network network.now) (map plain_linear parts.old.items) }
    ensures grown { GrowsByNames sig.old sig.new }
    ensures kept { Extends pool.old.trees pool.new.trees }
    ensures constants { pool.new.constants ≡ pool.old.constants }
    ensures composed { IfOk result (λ made. Composes (beside_sign (plain_sign sign.entry) (plain_network network.now)) sig.old pool.old.trees (plain_network network.now) (map plain_linear parts.old.items) sig.new pool.new.trees (map plain_linear parts.new.items) (plain_linear made)) }
    ensures from { IfOk result (λ made. ComposedFrom (beside_sign (plain_sign sign.entry) (plain_network network.now)) sig.old pool.old.trees (plain_network network.now) (map plain_linear parts.old.items) sig.new pool.new.trees (map plain_linear parts.new.items) (plain_linear made)) }
    ensures plain { IfOk result (λ made. ComposesPlainly sig.old pool.old (plain_network network.now) (map plain_linear parts.old.items) sig.new pool.new (map plain_linear parts.new.items) (plain_linear made)) }
{
    match beside(network, sign) {
        Some(within) => compose(alloc, network, within, parts, sig, pool),
        None => compose(alloc, network, &Scope::Everything, parts, sig, pool),
    }
}

/// That of networks with `||` or `|` between them: their linear processes joined from the left. Where there is none, the first linear process is that of `delta`.
#[cycle(compose)]
fn compose_beside(
    alloc: Global,
    networks: &[Network],
    sign: Sign<'_>,
    parts: &mut VecDeque<Linear>,
    sig: &mut Signature,
    pool: &mut Pool,
) -> Result<Linear, NoMemory>
    requires { HasItsParts (around_sign (plain_sign sign)) sig.old pool.old.trees (networks_with sign (networks_of (map plain_network networks.now))) (map plain_linear parts.old.items) }
    ensures grown { GrowsByNames sig.old sig.new }
    ensures kept { Extends pool.old.trees pool.new.trees }
    ensures constants { pool.new.constants ≡ pool.old.constants }
    ensures composed { IfOk result (λ made. Composes (around_sign (plain_sign sign.entry)) sig.old pool.old.trees (networks_with sign.entry (networks_of (map plain_network networks.now))) (map plain_linear parts.old.items) sig.new pool.new.trees (map plain_linear parts.new.items) (plain_linear made)) }
    ensures from { IfOk result (λ made. ComposedFrom (around_sign (plain_sign sign.entry)) sig.old pool.old.trees (networks_with sign.entry (networks_of (map plain_network networks.now))) (map plain_linear parts.old.items) sig.new pool.new.trees (map plain_linear parts.new.items) (plain_linear made)) }
    ensures plain { IfOk result (λ made. ComposesPlainly sig.old pool.old (networks_with sign.entry (networks_of (map plain_network networks.now))) (map plain_linear parts.old.items) sig.new pool.new (map plain_linear parts.new.items) (plain_linear made)) }
{
    signature_stands(sig);
    if networks.is_empty() {
        return Ok(take_first(parts));
    }
    let mut joined = compose_one(alloc, &networks[0], sign, parts, sig, pool)?;
    for place in 1..networks.len() {
        let linear = compose_one(alloc, &networks[place], sign, parts, sig, pool)?;
        joined = join(alloc, &joined, &linear, sign, sig, pool)?;
    }
    Ok(joined)
}
