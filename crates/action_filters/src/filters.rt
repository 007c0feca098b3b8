//! `allow`, `block`, `hide` and `rename` around a linear process.

ghost use Rattle.std.specs.Prelude.{◌≡◌, ◌++◌, List, map, option_map, IfOk, OnOk};
ghost use Rattle.std.specs.List.{All};
ghost use Rattle.data_theory.specs.IdTrees.{Tree};
ghost use Rattle.process_terms.specs.PlainProcesses.{items_of_each, plain_label};
ghost use Rattle.process_terms.specs.PlainProcesses.{allow as allow_sets, block as block_names, hide as hide_names, rename as rename_pairs};
ghost use Rattle.lps_core.specs.PlainLinears.{plain_linear, plain_summand};
ghost use Rattle.lps_core.specs.Fitting.{Fits};
ghost use Rattle.action_filters.specs.Filters.{allowed, hidden, labelled, renamed, unblocked, with_labels, HasActionsIn, HaveTargets, IsGoodAround, IsNameIn, RenamesOnce};
ghost use Rattle.action_filters.specs.FilterOutcomes.{outcome, Serves};
ghost use Rattle.action_filters.specs.Means.{MeansAllowing, MeansBlocking, MeansHiding, MeansRenaming};

use crate::indexes::{first_pairs, name_set, sets_in_order};
use crate::labels::{Filter, filtered_label, signature_stands};
use data_theory::{NameId, NoMemory, Signature};
use lps_core::{Linear, Summand};
use process_terms::Label;
use std::alloc::Global;

/// Adds a summand with another label, if there is one.
fn add_labelled(
    alloc: Global,
    summand: &Summand,
    label: Option<Label>,
    found: &mut Vec<Summand>,
) -> Result<(), NoMemory>
    ensures { OnOk result (map plain_summand found.new.items ≡ map plain_summand found.old.items ++ labelled (plain_summand summand.now) (option_map plain_label label)) }
{
    let Some(label) = label else {
        return Ok(());
    };
    let mut made = summand.copy(alloc)?;
    made.label = label;
    found.push(made)?;
    Ok(())
}

/// The linear process with each summand in its place, with the label that comes out of the filter, where one does.
fn with_filter(
    alloc: Global,
    lin: &Linear,
    filter: &Filter,
    sig: &Signature,
) -> Result<Linear, NoMemory>
    requires actions { All (HasActionsIn sig.now) (plain_linear lin.now).summands }
    requires serves { Serves sig.now filter.now }
    ensures { IfOk result (λ made. plain_linear made ≡ with_labels (outcome sig.now filter.now) (plain_linear lin.now)) }
{
    let mut summands = Vec::new(alloc);
    for summand in &lin.summands {
        let label = filtered_label(alloc, sig, filter, &summand.label)?;
        add_labelled(alloc, summand, label, &mut summands)?;
    }
    Ok(Linear {
        params: lin.params.to_vec(alloc)?,
        init: lin.init.to_vec(alloc)?,
        summands,
    })
}

/// `allow(V, p)`: the summands whose names, each as often, are those of one of the sets, and those with the empty label (mCRL2
/// language reference, `allow`).
///
/// # Errors
///
/// `NoMemory` where there is none for the result.
pub fn allow(
    alloc: Global,
    lin: &Linear,
    sets: &[Vec<NameId>],
    sig: &Signature,
) -> Result<Linear, NoMemory>
    requires fits { (ts : List Tree) × Fits sig.now ts (plain_linear lin.now) }
    requires names { All (All (IsNameIn sig.now)) (items_of_each sets.now) }
    ensures summands { IfOk result (λ made. plain_linear made ≡ allowed sig.now (items_of_each sets.now) (plain_linear lin.now)) }
    ensures means { IfOk result (λ made. MeansAllowing sig.now (items_of_each sets.now) (plain_linear lin.now) (plain_linear made)) }
    ensures fits { IfOk result (λ made. (ts : List Tree) → Fits sig.now ts (plain_linear lin.now) → Fits sig.now ts (plain_linear made)) }
    ensures bisimilar { IfOk result (λ made. (ts : List Tree) → Fits sig.now ts (plain_linear lin.now) → IsGoodAround sig.now ts (allow_sets (items_of_each sets.now)) (plain_linear lin.now) (plain_linear made)) }
{
    signature_stands(sig);
    let index = sets_in_order(alloc, sets)?;
    with_filter(alloc, lin, &Filter::Allow(index), sig)
}

/// `block(B, p)`: the summands without a name of the set (mCRL2 language reference, `block`).
///
/// # Errors
///
/// `NoMemory` where there is none for the result.
pub fn block(
    alloc: Global,
    lin: &Linear,
    names: &[NameId],
    sig: &Signature,
) -> Result<Linear, NoMemory>
    requires fits { (ts : List Tree) × Fits sig.now ts (plain_linear lin.now) }
    requires names { All (IsNameIn sig.now) names.now }
    ensures summands { IfOk result (λ made. plain_linear made ≡ unblocked sig.now names.now (plain_linear lin.now)) }
    ensures means { IfOk result (λ made. MeansBlocking sig.now names.now (plain_linear lin.now) (plain_linear made)) }
    ensures fits { IfOk result (λ made. (ts : List Tree) → Fits sig.now ts (plain_linear lin.now) → Fits sig.now ts (plain_linear made)) }
    ensures bisimilar { IfOk result (λ made. (ts : List Tree) → Fits sig.now ts (plain_linear lin.now) → IsGoodAround sig.now ts (block_names names.now) (plain_linear lin.now) (plain_linear made)) }
{
    signature_stands(sig);
    let index = name_set(alloc, names)?;
    with_filter(alloc, lin, &Filter::Block(index), sig)
}

/// `hide(I, p)`: each summand without its actions that have a name of the set (mCRL2 language reference, `hide`).
///
/// # Errors
///
/// `NoMemory` where there is none for the result.
pub fn hide(
    alloc: Global,
    lin: &Linear,
    names: &[NameId],
    sig: &Signature,
) -> Result<Linear, NoMemory>
    requires fits { (ts : List Tree) × Fits sig.now ts (plain_linear lin.now) }
    requires names { All (IsNameIn sig.now) names.now }
    ensures summands { IfOk result (λ made. plain_linear made ≡ hidden sig.now names.now (plain_linear lin.now)) }
    ensures means { IfOk result (λ made. MeansHiding sig.now names.now (plain_linear lin.now) (plain_linear made)) }
    ensures fits { IfOk result (λ made. (ts : List Tree) → Fits sig.now ts (plain_linear lin.now) → Fits sig.now ts (plain_linear made)) }
    ensures bisimilar { IfOk result (λ made. (ts : List Tree) → Fits sig.now ts (plain_linear lin.now) → IsGoodAround sig.now ts (hide_names names.now) (plain_linear lin.now) (plain_linear made)) }
{
    signature_stands(sig);
    let index = name_set(alloc, names)?;
    with_filter(alloc, lin, &Filter::Hide(index), sig)
}

/// `rename(R, p)`: each summand with its names replaced, all at once and each of them once (mCRL2 language reference, `rename`).
///
/// # Errors
///
/// `NoMemory` where there is none for the result.
pub fn rename(
    alloc: Global,
    lin: &Linear,
    pairs: &[(NameId, NameId)],
    sig: &Signature,
) -> Result<Linear, NoMemory>
    requires fits { (ts : List Tree) × Fits sig.now ts (plain_linear lin.now) }
    requires names { All (λ (r : NameId × NameId). IsNameIn sig.now r.0 × IsNameIn sig.now r.1) pairs.now }
    requires once { RenamesOnce pairs.now }
    requires targets { HaveTargets sig.now pairs.now }
    ensures summands { IfOk result (λ made. plain_linear made ≡ renamed sig.now pairs.now (plain_linear lin.now)) }
    ensures means { IfOk result (λ made. MeansRenaming sig.now pairs.now (plain_linear lin.now) (plain_linear made)) }
    ensures fits { IfOk result (λ made. (ts : List Tree) → Fits sig.now ts (plain_linear lin.now) → Fits sig.now ts (plain_linear made)) }
    ensures bisimilar { IfOk result (λ made. (ts : List Tree) → Fits sig.now ts (plain_linear lin.now) → IsGoodAround sig.now ts (rename_pairs pairs.now) (plain_linear lin.now) (plain_linear made)) }
{
    signature_stands(sig);
    let index = first_pairs(alloc, pairs)?;
    with_filter(alloc, lin, &Filter::Rename(index), sig)
}
