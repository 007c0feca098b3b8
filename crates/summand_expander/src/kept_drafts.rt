//! The summands of a product within what is allowed, in their order. Of a pair nothing is made before its names are tested.

ghost use Rattle.std.specs.Prelude.{◌≡◌, ◌&&◌, ◌++◌, ◌∷◌, [], map, flat_map, IfOk, OnOk};
ghost use Rattle.std.specs.List.{list_any, All};
ghost use Rattle.process_terms.specs.PlainProcesses.{plain_label};
ghost use Rattle.action_filters.specs.Filters.{naming, AreActionsIn};
ghost use Rattle.summand_expander.specs.Answers.{AreAnswers};
ghost use Rattle.summand_expander.specs.Drafts.{all_drafts, both_moves, lone_drafts, plain_draft, plain_move, plain_side};
ghost use Rattle.summand_expander.specs.KeptDrafts.{can_stop, draft_ends, draft_stays, is_last, step_ends, HasMovesIn, Keeps};
ghost use Rattle.summand_expander.specs.Nearby.{AreNear, IsPartnerOf};
ghost use Rattle.summand_expander.specs.PlainAllowed.{plain_allowed, PlainAllowed};
ghost use Rattle.summand_expander.specs.Pruned.{kept, pruned};
ghost use Rattle.summand_expander.specs.WithinProducts.{label_stays};

use crate::allowing::Allowed;
use crate::answers::{KnownAnswers, answers_alone, asked};
use crate::drafts::{add_alone, add_last, pair};
use crate::nearby::{Nearby, near_to, stay_near};
use crate::partners::{is_apart, partners_of};
use crate::sides::{Draft, Move, Side};
use action_filters::names_of;
use data_theory::{NameId, NoMemory, Signature};
use indexmap::IndexSet;
use process_terms::Label;
use std::alloc::Global;

/// Whether the names of a label can be completed.
fn label_stays(
    alloc: Global,
    allowed: &Allowed,
    answers: &mut KnownAnswers,
    sig: &Signature,
    label: &Label,
) -> Result<bool, NoMemory>
    requires actions { AreActionsIn sig.now (plain_label label.now) }
    requires answers { AreAnswers (plain_allowed allowed.now) answers.old }
    ensures can { IfOk result (λ can. can ≡ label_stays sig.now (plain_allowed allowed.now) (plain_label label.now)) }
    ensures kept { OnOk result (AreAnswers (plain_allowed allowed.now) answers.new) }
{
    let names = names_of(alloc, sig, label)?;
    asked(alloc, allowed, answers, names.as_slice())
}

/// Whether the names of two labels can be completed together.
fn both_stay(
    alloc: Global,
    allowed: &Allowed,
    answers: &mut KnownAnswers,
    sig: &Signature,
    first: &Label,
    second: &Label,
) -> Result<bool, NoMemory>
    requires first { AreActionsIn sig.now (plain_label first.now) }
    requires second { AreActionsIn sig.now (plain_label second.now) }
    requires answers { AreAnswers (plain_allowed allowed.now) answers.old }
    ensures can { IfOk result (λ can. can ≡ label_stays sig.now (plain_allowed allowed.now) (plain_label first.now ++ plain_label second.now)) }
    ensures kept { OnOk result (AreAnswers (plain_allowed allowed.now) answers.new) }
{
    let mut names = names_of(alloc, sig, first)?;
    let others = names_of(alloc, sig, second)?;
    names.extend_from_slice(others.as_slice())?;
    asked(alloc, allowed, answers, names.as_slice())
}

/// Adds the drafts of one side alone where their names can be completed, and else the one that ends, while one is to be spared.
fn add_alone_within(
    alloc: Global,
    own_first: bool,
    own: &Side,
    other: &Side,
    step: &Move,
    stays: bool,
    spare: &mut bool,
    drafts: &mut Vec<Draft>,
) -> Result<(), NoMemory>
    ensures { OnOk result (Keeps (λ d. stays) is_last (lone_drafts own_first (plain_side own.now) (plain_side other.now) (plain_move step.now)) spare.old spare.new (map plain_draft drafts.old.items) (map plain_draft drafts.new.items)) }
{
    if stays {
        return add_alone(alloc, own_first, own, other, step, drafts);
    }
    if *spare {
        add_last(alloc, own, other, step, drafts)?;
        *spare = !(step.ends && other.flag.is_some());
    }
    Ok(())
}

/// Adds the drafts of all summands of one side alone, without those whose names can't be completed.
fn add_all_alone_within(
    alloc: Global,
    allowed: &Allowed,
    answers: &mut KnownAnswers,
    sig: &Signature,
    own_first: bool,
    own: &Side,
    other: &Side,
    spare: &mut bool,
    drafts: &mut Vec<Draft>,
) -> Result<(), NoMemory>
    requires actions { HasMovesIn sig.now (plain_side own.now) }
    requires answers { AreAnswers (plain_allowed allowed.now) answers.old }
    ensures kept { OnOk result (AreAnswers (plain_allowed allowed.now) answers.new) }
    ensures added { OnOk result (Keeps (draft_stays sig.now (plain_allowed allowed.now)) is_last (flat_map (lone_drafts own_first (plain_side own.now) (plain_side other.now)) (map plain_move own.now.moves.items)) spare.old spare.new (map plain_draft drafts.old.items) (map plain_draft drafts.new.items)) }
{
    for step in &own.moves {
        let stays = label_stays(alloc, allowed, answers, sig, &step.label)?;
        add_alone_within(alloc, own_first, own, other, step, stays, spare, drafts)?;
    }
    Ok(())
}

/// Whether the pair of two summands is to be spared.
fn is_spared(spare: bool, first: &Move, second: &Move) -> bool
    ensures { result ≡ (spare && ((plain_move first.now).ends && (plain_move second.now).ends)) }
{
    spare && first.ends && second.ends
}

/// Adds the draft of a pair where its names can be completed, or where it is to be spared.
fn add_pair_within(
    alloc: Global,
    left: &Side,
    right: &Side,
    first: &Move,
    second: &Move,
    stays: bool,
    spare: &mut bool,
    drafts: &mut Vec<Draft>,
) -> Result<(), NoMemory>
    ensures { OnOk result (Keeps (λ d. stays) is_last (both_moves (plain_side left.now) (plain_side right.now) (plain_move first.now) (plain_move second.now) ∷ []) spare.old spare.new (map plain_draft drafts.old.items) (map plain_draft drafts.new.items)) }
{
    if !stays {
        if !is_spared(*spare, first, second) {
            return Ok(());
        }
        *spare = false;
    }
    drafts.push(pair(alloc, left, right, first, second)?)?;
    Ok(())
}

/// Adds the drafts of one left summand with each right one, without those whose names can't be completed. The answers are kept.
fn add_asked_pairs(
    alloc: Global,
    allowed: &Allowed,
    answers: &mut KnownAnswers,
    sig: &Signature,
    left: &Side,
    right: &Side,
    first: &Move,
    spare: &mut bool,
    drafts: &mut Vec<Draft>,
) -> Result<(), NoMemory>
    requires first { AreActionsIn sig.now (plain_move first.now).label }
    requires actions { HasMovesIn sig.now (plain_side right.now) }
    requires answers { AreAnswers (plain_allowed allowed.now) answers.old }
    ensures kept { OnOk result (AreAnswers (plain_allowed allowed.now) answers.new) }
    ensures added { OnOk result (Keeps (draft_stays sig.now (plain_allowed allowed.now)) is_last (map (both_moves (plain_side left.now) (plain_side right.now) (plain_move first.now)) (map plain_move right.now.moves.items)) spare.old spare.new (map plain_draft drafts.old.items) (map plain_draft drafts.new.items)) }
{
    for second in &right.moves {
        let stays = both_stay(alloc, allowed, answers, sig, &first.label, &second.label)?;
        add_pair_within(alloc, left, right, first, second, stays, spare, drafts)?;
    }
    Ok(())
}

/// Adds the drafts of one left summand with each right one, without those whose names can't be completed by what is near these names.
fn add_near_pairs(
    alloc: Global,
    near: &Nearby,
    names: &[NameId],
    sig: &Signature,
    left: &Side,
    right: &Side,
    first: &Move,
    spare: &mut bool,
    drafts: &mut Vec<Draft>,
) -> Result<(), NoMemory>
    requires names { names.now ≡ map (naming sig.now).name (plain_move first.now).label }
    requires actions { HasMovesIn sig.now (plain_side right.now) }
    ensures { OnOk result ((a : PlainAllowed) → AreNear a names.now (plain_allowed near.now.allowed) near.now.names.keys → Keeps (draft_stays sig.now a) is_last (map (both_moves (plain_side left.now) (plain_side right.now) (plain_move first.now)) (map plain_move right.now.moves.items)) spare.old spare.new (map plain_draft drafts.old.items) (map plain_draft drafts.new.items)) }
{
    for second in &right.moves {
        let stays = stay_near(alloc, near, sig, names, &second.label)?;
        add_pair_within(alloc, left, right, first, second, stays, spare, drafts)?;
    }
    Ok(())
}

/// Adds the drafts of one left summand with each right one, without those whose names can't be completed. Where it has a name that is no
/// partner of the right side, there are none. Where it has a name, only what is allowed near that is asked.
fn add_pairs_of_within(
    alloc: Global,
    allowed: &Allowed,
    answers: &mut KnownAnswers,
    sig: &Signature,
    left: &Side,
    right: &Side,
    partners: &IndexSet<NameId>,
    first: &Move,
    spare: &mut bool,
    drafts: &mut Vec<Draft>,
) -> Result<(), NoMemory>
    requires first { AreActionsIn sig.now (plain_move first.now).label }
    requires actions { HasMovesIn sig.now (plain_side right.now) }
    requires partners { All (IsPartnerOf sig.now (plain_allowed allowed.now) partners.now.keys) (plain_side right.now).moves }
    requires answers { AreAnswers (plain_allowed allowed.now) answers.old }
    ensures kept { OnOk result (AreAnswers (plain_allowed allowed.now) answers.new) }
    ensures added { OnOk result (Keeps (draft_stays sig.now (plain_allowed allowed.now)) is_last (map (both_moves (plain_side left.now) (plain_side right.now) (plain_move first.now)) (map plain_move right.now.moves.items)) spare.old spare.new (map plain_draft drafts.old.items) (map plain_draft drafts.new.items)) }
{
    if is_apart(*spare, partners, sig, &first.label) {
        return Ok(());
    }
    let own = names_of(alloc, sig, &first.label)?;
    let names = own.as_slice();
    if names.is_empty() {
        return add_asked_pairs(
            alloc, allowed, answers, sig, left, right, first, spare, drafts,
        );
    }
    let near = near_to(alloc, allowed, names[0])?;
    add_near_pairs(alloc, &near, names, sig, left, right, first, spare, drafts)?;
    Ok(())
}

/// Adds the drafts of all pairs, the left summand outer, without those whose names can't be completed.
fn add_pairs_within(
    alloc: Global,
    allowed: &Allowed,
    answers: &mut KnownAnswers,
    sig: &Signature,
    left: &Side,
    right: &Side,
    spare: &mut bool,
    drafts: &mut Vec<Draft>,
) -> Result<(), NoMemory>
    requires left { HasMovesIn sig.now (plain_side left.now) }
    requires right { HasMovesIn sig.now (plain_side right.now) }
    requires answers { AreAnswers (plain_allowed allowed.now) answers.old }
    ensures kept { OnOk result (AreAnswers (plain_allowed allowed.now) answers.new) }
    ensures added { OnOk result (Keeps (draft_stays sig.now (plain_allowed allowed.now)) is_last (flat_map (λ m. map (both_moves (plain_side left.now) (plain_side right.now) m) (map plain_move right.now.moves.items)) (map plain_move left.now.moves.items)) spare.old spare.new (map plain_draft drafts.old.items) (map plain_draft drafts.new.items)) }
{
    let partners = partners_of(alloc, allowed, answers, sig, right)?;
    for first in &left.moves {
        add_pairs_of_within(
            alloc, allowed, answers, sig, left, right, &partners, first, spare, drafts,
        )?;
    }
    Ok(())
}

/// The drafts whose names can be completed, and, where one is to be spared, the first one that ends.
fn drafts_kept(
    alloc: Global,
    allowed: &Allowed,
    answers: &mut KnownAnswers,
    sig: &Signature,
    left: &Side,
    right: &Side,
    spare: bool,
) -> Result<Vec<Draft>, NoMemory>
    requires left { HasMovesIn sig.now (plain_side left.now) }
    requires right { HasMovesIn sig.now (plain_side right.now) }
    requires answers { AreAnswers (plain_allowed allowed.now) answers.old }
    ensures kept { OnOk result (AreAnswers (plain_allowed allowed.now) answers.new) }
    ensures drafts { IfOk result (λ drafts. map plain_draft drafts.items ≡ kept (draft_stays sig.now (plain_allowed allowed.now)) is_last spare (all_drafts (plain_side left.now) (plain_side right.now))) }
{
    let mut drafts = Vec::new(alloc);
    let mut waits = spare;
    add_all_alone_within(
        alloc,
        allowed,
        answers,
        sig,
        true,
        left,
        right,
        &mut waits,
        &mut drafts,
    )?;
    add_all_alone_within(
        alloc,
        allowed,
        answers,
        sig,
        false,
        right,
        left,
        &mut waits,
        &mut drafts,
    )?;
    add_pairs_within(
        alloc,
        allowed,
        answers,
        sig,
        left,
        right,
        &mut waits,
        &mut drafts,
    )?;
    Ok(drafts)
}

/// Whether some summand of a side ends.
fn some_step_ends(steps: &[Move]) -> bool
    ensures { result ≡ list_any step_ends steps.now }
{
    steps.iter().any(|step| step.ends)
}

/// Whether a side has a summand that ends, or a flag.
fn can_stop(side: &Side) -> bool
    ensures { result ≡ can_stop (plain_side side.now) }
{
    if side.flag.is_some() {
        return true;
    }
    some_step_ends(side.moves.as_slice())
}

/// Whether some draft ends.
fn some_end(drafts: &[Draft]) -> bool
    ensures { result ≡ list_any draft_ends drafts.now }
{
    drafts.iter().any(|draft| draft.next.is_none())
}

/// The drafts of a product whose names can be completed. Where the product can end and none of these does, its first one that ends is
/// spared.
///
/// # Errors
///
/// `NoMemory` where there is none for them.
pub(crate) fn drafts_within(
    alloc: Global,
    allowed: &Allowed,
    sig: &Signature,
    left: &Side,
    right: &Side,
) -> Result<Vec<Draft>, NoMemory>
    requires left { HasMovesIn sig.now (plain_side left.now) }
    requires right { HasMovesIn sig.now (plain_side right.now) }
    ensures { IfOk result (λ drafts. map plain_draft drafts.items ≡ pruned (draft_stays sig.now (plain_allowed allowed.now)) is_last (all_drafts (plain_side left.now) (plain_side right.now))) }
{
    let mut answers = answers_alone(alloc, allowed)?;
    let drafts = drafts_kept(alloc, allowed, &mut answers, sig, left, right, false)?;
    if !can_stop(left) {
        return Ok(drafts);
    }
    if !can_stop(right) {
        return Ok(drafts);
    }
    if some_end(drafts.as_slice()) {
        return Ok(drafts);
    }
    drafts_kept(alloc, allowed, &mut answers, sig, left, right, true)
}
