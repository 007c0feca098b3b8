//! Whether names can be completed.

ghost use Rattle.std.specs.Prelude.{◌≡◌, ◌<◌, ◌&&◌, ◌||◌, map, IfOk, MatchOption};
ghost use Rattle.std.specs.List.{list_any};
ghost use Rattle.communication.specs.Places.{joining_of};
ghost use Rattle.process_terms.specs.PlainProcesses.{items_of_each, plain_rule};
ghost use Rattle.action_filters.specs.Filters.{same_name};
ghost use Rattle.action_filters.specs.NameTests.{is_among};
ghost use Rattle.summand_expander.specs.ByFirst.{rules_with};
ghost use Rattle.summand_expander.specs.CompletableTests.{completes};
ghost use Rattle.summand_expander.specs.Completions.{completes_behind, goes_on, opens_behind, plain_completion};
ghost use Rattle.summand_expander.specs.Nearby.{is_home};
ghost use Rattle.summand_expander.specs.PlainAllowed.{can_complete_ids, joinings, plain_allowed};

use crate::allowing::Allowed;
use crate::completions::{Completion, begun, copied, next_missing, open};
use action_filters::is_among;
use data_theory::{NameId, NoMemory};
use process_terms::CommRule;
use std::alloc::Global;

/// The rules that have a name on their left side.
pub(crate) fn rules_with(
    alloc: Global,
    rules: &[CommRule],
    name: NameId,
) -> Result<Vec<CommRule>, NoMemory>
    ensures { IfOk result (λ found. joinings (map plain_rule found.items) ≡ rules_with same_name name (joinings (map plain_rule rules.now))) }
{
    let mut found = Vec::new(alloc);
    for rule in rules {
        if is_among(rule.left.as_slice(), name) {
            found.push(CommRule {
                left: rule.left.to_vec(alloc)?,
                result: rule.result,
            })?;
        }
    }
    Ok(found)
}

/// Whether one of the rules has a result in a set.
fn some_result(set: &[NameId], rules: &[CommRule]) -> bool
    ensures { result ≡ list_any (λ c. is_among same_name set.now c.result) (joinings (map plain_rule rules.now)) }
{
    for rule in rules {
        if is_among(set, rule.result) {
            return true;
        }
    }
    false
}

/// Whether a name is in a set, or one of the rules with it has a result in the set.
pub(crate) fn is_home(candidates: &[CommRule], name: NameId, set: &[NameId]) -> bool
    ensures { result ≡ is_home same_name (joinings (map plain_rule candidates.now)) name set.now }
{
    if is_among(set, name) {
        return true;
    }
    some_result(set, candidates)
}

/// Whether names are completed once a member is opened by this rule.
#[cycle(completes)]
fn opens_behind(
    alloc: Global,
    rules: &[CommRule],
    state: &Completion,
    rule: &CommRule,
) -> Result<bool, NoMemory>
    ensures { IfOk result (λ can. can ≡ opens_behind (joinings (map plain_rule rules.now)) (plain_completion state.now) (joining_of (plain_rule rule.now))) }
{
    let mut next = copied(alloc, state)?;
    if !open(&mut next, rule)? {
        return Ok(false);
    }
    completes_behind(alloc, rules, next)
}

/// Whether names are completed once a member is opened by one of these rules.
#[cycle(completes)]
fn some_opens_behind(
    alloc: Global,
    rules: &[CommRule],
    state: &Completion,
    candidates: &[CommRule],
) -> Result<bool, NoMemory>
    ensures { IfOk result (λ can. can ≡ list_any (opens_behind (joinings (map plain_rule rules.now)) (plain_completion state.now)) (joinings (map plain_rule candidates.now))) }
{
    for rule in candidates {
        if opens_behind(alloc, rules, state, rule)? {
            return Ok(true);
        }
    }
    Ok(false)
}

/// Opens a member for the first name that is missing, or answers. Where left sides have no name in common, as in a text, one rule at most
/// has the name. So nothing has to be tried: of those that have it, all but the last one are.
#[cycle(completes)]
fn next_opened(
    alloc: Global,
    rules: &[CommRule],
    state: &mut Completion,
) -> Result<Option<bool>, NoMemory>
    ensures { IfOk result (goes_on (joinings (map plain_rule rules.now)) (plain_completion state.old) (plain_completion state.new)) }
{
    let Some(name) = next_missing(state)? else {
        return Ok(Some(true));
    };
    let mut candidates = rules_with(alloc, rules, name)?;
    let Some(last) = candidates.pop() else {
        return Ok(Some(false));
    };
    if some_opens_behind(alloc, rules, state, candidates.as_slice())? {
        return Ok(Some(true));
    }
    if open(state, &last)? {
        return Ok(None);
    }
    Ok(Some(false))
}

/// Whether names are completed. A member is opened only where a name is missing, so as few are as can be.
#[cycle(completes)]
fn completes_behind(alloc: Global, rules: &[CommRule], state: Completion) -> Result<bool, NoMemory>
    ensures { IfOk result (λ can. can ≡ completes_behind (joinings (map plain_rule rules.now)) (plain_completion state)) }
{
    let mut state = state;
    loop {
        if let Some(can) = next_opened(alloc, rules, &mut state)? {
            return Ok(can);
        }
    }
}

/// Whether names, of which one with these rules is the first, are among what a set may have come from.
fn completes(
    alloc: Global,
    rules: &[CommRule],
    candidates: &[CommRule],
    first: NameId,
    names: &[NameId],
    set: &[NameId],
) -> Result<bool, NoMemory>
    ensures { IfOk result (λ can. can ≡ (is_home same_name (joinings (map plain_rule candidates.now)) first set.now && completes same_name (joinings (map plain_rule rules.now)) names.now set.now)) }
{
    if !is_home(candidates, first, set) {
        return Ok(false);
    }
    let state = begun(alloc, names, set)?;
    completes_behind(alloc, rules, state)
}

/// Whether one of the sets completes the names, the first of which has these rules.
fn some_completes(
    alloc: Global,
    rules: &[CommRule],
    candidates: &[CommRule],
    first: NameId,
    names: &[NameId],
    sets: &[Vec<NameId>],
) -> Result<bool, NoMemory>
    ensures { IfOk result (λ can. can ≡ list_any (λ v. is_home same_name (joinings (map plain_rule candidates.now)) first v && completes same_name (joinings (map plain_rule rules.now)) names.now v) (items_of_each sets.now)) }
{
    for set in sets {
        if completes(alloc, rules, candidates, first, names, set.as_slice())? {
            return Ok(true);
        }
    }
    Ok(false)
}

/// Whether the names of a label can be completed to what is allowed: there are none, or they are among what one of the sets may have
/// come from, each of whose members stays or gives the left side of a rule with this result.
///
/// Only sets are asked in which the first name can stand. Of a set a member is opened only where a name is missing otherwise. So where left
/// sides have no name in common, the least number of members is opened for each rule, one after another, and nothing is tried.
///
/// # Errors
///
/// `NoMemory` where there is none for the names that are left.
pub fn is_completable(alloc: Global, allowed: &Allowed, names: &[NameId]) -> Result<bool, NoMemory>
    ensures { IfOk result (λ can. can ≡ can_complete_ids (plain_allowed allowed.now) names.now) }
{
    if names.is_empty() {
        return Ok(true);
    }
    let first = names[0];
    let rules = allowed.rules.rules.as_slice();
    let candidates = rules_with(alloc, rules, first)?;
    some_completes(
        alloc,
        rules,
        candidates.as_slice(),
        first,
        names,
        allowed.sets.as_slice(),
    )
}
