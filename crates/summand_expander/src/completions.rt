//! Names on the way to be completed by a set.

ghost use Rattle.std.specs.Prelude.{◌≡◌, List, Option, Some, None, false, IfOk, OnOk, MatchOption, if◌then◌else◌};
ghost use Rattle.communication.specs.Places.{joining_of};
ghost use Rattle.communication.specs.Ways.{Joining};
ghost use Rattle.data_theory.specs.declared.ids.NameId.{NameId};
ghost use Rattle.process_terms.specs.PlainProcesses.{plain_rule};
ghost use Rattle.action_filters.specs.Filters.{same_name};
ghost use Rattle.summand_expander.specs.CompletableTests.{completes};
ghost use Rattle.summand_expander.specs.Completions.{completes_behind, members, missing_or_done, opened, plain_completion, stood_for, with_member_out};

use action_filters::take_one;
use data_theory::{NameId, NoMemory};
use process_terms::CommRule;
use std::alloc::Global;

/// Names on the way to be completed by a set. What a member stands for is settled only where it has to be: a member has a wanted name itself,
/// or is opened, and then gives a left side.
#[derive(Drop)]
pub(crate) struct Completion {
    /// The names that nothing stands for yet.
    pub wanted: Vec<NameId>,
    /// The names that opened members have given, but for those that stand for one.
    pub given: Vec<NameId>,
    /// The members that stand for nothing yet.
    pub free: Vec<NameId>,
    /// The members that stand for a name, as each of them has one.
    pub kept: Vec<NameId>,
}

/// The names and the set, with all still to be done.
pub(crate) fn begun(alloc: Global, names: &[NameId], set: &[NameId]) -> Result<Completion, NoMemory>
    ensures { IfOk result (λ made. (rules : List (Joining NameId)) → completes_behind rules (plain_completion made) ≡ completes same_name rules names.now set.now) }
{
    Ok(Completion {
        wanted: names.to_vec(alloc)?,
        given: Vec::new(alloc),
        free: set.to_vec(alloc)?,
        kept: Vec::new(alloc),
    })
}

/// The same once more.
pub(crate) fn copied(alloc: Global, state: &Completion) -> Result<Completion, NoMemory>
    ensures { IfOk result (λ made. plain_completion made ≡ plain_completion state.now) }
{
    Ok(Completion {
        wanted: state.wanted.to_vec(alloc)?,
        given: state.given.to_vec(alloc)?,
        free: state.free.to_vec(alloc)?,
        kept: state.kept.to_vec(alloc)?,
    })
}

/// Lets something stand for a name: what was given, or else a member that has it. Whether there is such.
fn stands_for(state: &mut Completion, name: NameId) -> Result<bool, NoMemory>
    ensures stands { IfOk result (λ stands. stood_for name (plain_completion state.old) ≡ (if stands then Some (plain_completion state.new) else None)) }
    ensures wanted { OnOk result (state.new.wanted.items ≡ state.old.wanted.items) }
    ensures otherwise { IfOk result (λ stands. stands ≡ false → plain_completion state.new ≡ plain_completion state.old) }
{
    if take_one(&mut state.given, name) {
        return Ok(true);
    }
    if !take_one(&mut state.free, name) {
        return Ok(false);
    }
    state.kept.push(name)?;
    Ok(true)
}

/// Lets something stand for each wanted name, from the last one on, up to one for which nothing can.
pub(crate) fn next_missing(state: &mut Completion) -> Result<Option<NameId>, NoMemory>
    ensures same { OnOk result ((rules : List (Joining NameId)) → completes_behind rules (plain_completion state.new) ≡ completes_behind rules (plain_completion state.old)) }
    ensures members { OnOk result (members (plain_completion state.new) ≡ members (plain_completion state.old)) }
    ensures missing { IfOk result (missing_or_done (plain_completion state.new)) }
{
    while let Some(name) = state.wanted.pop() {
        if !stands_for(state, name)? {
            state.wanted.push(name)?;
            return Ok(Some(name));
        }
    }
    Ok(None)
}

/// Takes a member with a name out, if there is one. A name that it stood for is wanted again.
fn take_member(state: &mut Completion, name: NameId) -> Result<bool, NoMemory>
    ensures { IfOk result (λ taken. with_member_out name (plain_completion state.old) ≡ (if taken then Some (plain_completion state.new) else None)) }
{
    if take_one(&mut state.free, name) {
        return Ok(true);
    }
    if !take_one(&mut state.kept, name) {
        return Ok(false);
    }
    state.wanted.push(name)?;
    Ok(true)
}

/// Opens a member by a rule, if there is one with its result.
pub(crate) fn open(state: &mut Completion, rule: &CommRule) -> Result<bool, NoMemory>
    ensures { IfOk result (λ can. opened (joining_of (plain_rule rule.now)) (plain_completion state.old) ≡ (if can then Some (plain_completion state.new) else None)) }
{
    if !take_member(state, rule.result)? {
        return Ok(false);
    }
    state.given.extend_from_slice(rule.left.as_slice())?;
    Ok(true)
}
