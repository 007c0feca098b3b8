//! The names that can be completed together with the labels of a side. In a network a component has few partners, so few summands of the other
//! side have no other names.

ghost use Rattle.std.specs.Prelude.{◌≡◌, false, true, map, IfOk, OnOk};
ghost use Rattle.std.specs.List.{All, Contains};
ghost use Rattle.data_theory.specs.declared.ids.NameId.{NameId};
ghost use Rattle.process_terms.specs.PlainProcesses.{plain_label};
ghost use Rattle.action_filters.specs.Filters.{naming, same_name, AreActionsIn};
ghost use Rattle.action_filters.specs.NameTests.{is_among};
ghost use Rattle.summand_expander.specs.Answers.{AreAnswers};
ghost use Rattle.summand_expander.specs.Drafts.{plain_side};
ghost use Rattle.summand_expander.specs.KeptDrafts.{HasMovesIn};
ghost use Rattle.summand_expander.specs.Nearby.{ArePartners, IsPartnerOf};
ghost use Rattle.summand_expander.specs.PlainAllowed.{plain_allowed};

use crate::allowing::Allowed;
use crate::answers::KnownAnswers;
use crate::nearby::{are_near, near_to};
use crate::sides::Side;
use action_filters::{add_names, names_of};
use data_theory::{NameId, NoMemory, Signature};
use indexmap::IndexSet;
use process_terms::Label;
use std::alloc::Global;

/// Adds the names that can be completed together with a label: those near its first name, or all where it has none.
fn add_partners(
    alloc: Global,
    allowed: &Allowed,
    answers: &KnownAnswers,
    sig: &Signature,
    label: &Label,
    found: &mut IndexSet<NameId>,
) -> Result<(), NoMemory>
    requires actions { AreActionsIn sig.now (plain_label label.now) }
    requires answers { AreAnswers (plain_allowed allowed.now) answers.now }
    ensures kept { OnOk result ((x : NameId) → is_among same_name found.new.keys x ≡ false → is_among same_name found.old.keys x ≡ false) }
    ensures partners { OnOk result (ArePartners (plain_allowed allowed.now) found.new.keys (map (naming sig.now).name (plain_label label.now))) }
{
    let own = names_of(alloc, sig, label)?;
    let names = own.as_slice();
    if names.is_empty() {
        add_names(answers.alone.as_slice(), found)?;
        return Ok(());
    }
    let near = near_to(alloc, allowed, names[0])?;
    add_names(near.names.as_slice(), found)?;
    Ok(())
}

/// Names among which all are that can be completed together with one of a side's labels.
///
/// # Errors
///
/// `NoMemory` where there is none for them.
pub(crate) fn partners_of(
    alloc: Global,
    allowed: &Allowed,
    answers: &KnownAnswers,
    sig: &Signature,
    side: &Side,
) -> Result<IndexSet<NameId>, NoMemory>
    requires actions { HasMovesIn sig.now (plain_side side.now) }
    requires answers { AreAnswers (plain_allowed allowed.now) answers.now }
    ensures { IfOk result (λ found. All (IsPartnerOf sig.now (plain_allowed allowed.now) found.keys) (plain_side side.now).moves) }
{
    let mut found = IndexSet::new(alloc);
    for step in &side.moves {
        add_partners(alloc, allowed, answers, sig, &step.label, &mut found)?;
    }
    Ok(found)
}

/// Whether a label has a name that isn't among the partners of the other side, where no pair is to be spared.
pub(crate) fn is_apart(
    spare: bool,
    partners: &IndexSet<NameId>,
    sig: &Signature,
    label: &Label,
) -> bool
    requires { AreActionsIn sig.now (plain_label label.now) }
    ensures spares { result ≡ true → spare ≡ false }
    ensures apart { result ≡ true → (x : NameId) × (Contains (map (naming sig.now).name (plain_label label.now)) x × (is_among same_name partners.now.keys x ≡ false)) }
{
    if spare {
        return false;
    }
    !are_near(partners, sig, label)
}
