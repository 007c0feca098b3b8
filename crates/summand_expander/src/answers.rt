//! Answers whether names can be completed. For a name alone one index has them all. For several names the test is asked once for the same
//! names, whatever their order.

ghost use Rattle.std.specs.Prelude.{◌≡◌, IfOk, OnOk};
ghost use Rattle.summand_expander.specs.Answers.{answer_under, name_numbers, AreAnswers};
ghost use Rattle.summand_expander.specs.PlainAllowed.{can_complete_ids, plain_allowed};

use crate::allowing::Allowed;
use crate::completing::is_completable;
use crate::nearby::{all_names, near_rules};
use action_filters::is_in;
use data_theory::{NameId, NoMemory};
use indexmap::IndexSet;
use std::alloc::Global;
use std::collections::BTreeMap;

/// What is known of names that can be completed.
#[derive(Drop)]
pub(crate) struct KnownAnswers {
    /// The names that can be completed alone.
    pub alone: IndexSet<NameId>,
    /// The answers for several names, under their numbers in ascending order.
    pub known: BTreeMap<Vec<usize>, bool>,
}

/// The answers for each name alone: those can be completed that are in a set, or in the left side of a rule with its result in one.
///
/// # Errors
///
/// `NoMemory` where there is none for them.
pub(crate) fn answers_alone(alloc: Global, allowed: &Allowed) -> Result<KnownAnswers, NoMemory>
    ensures { IfOk result (AreAnswers (plain_allowed allowed.now)) }
{
    let sets = allowed.sets.as_slice();
    let rules = near_rules(alloc, allowed.rules.rules.as_slice(), sets)?;
    let alone = all_names(alloc, rules.as_slice(), sets)?;
    let known = BTreeMap::new(alloc);
    Ok(KnownAnswers { alone, known })
}

/// The numbers of names.
fn numbers_of(alloc: Global, names: &[NameId]) -> Result<Vec<usize>, NoMemory>
    ensures { IfOk result (λ numbers. numbers.items ≡ name_numbers names.now) }
{
    let mut numbers = Vec::new(alloc);
    for name in names {
        numbers.push(name.0)?;
    }
    Ok(numbers)
}

/// The answer that is kept under the numbers of names.
fn known(answers: &BTreeMap<Vec<usize>, bool>, numbers: &[usize]) -> Option<bool>
    ensures { result ≡ answer_under answers.now numbers.now }
{
    match answers.get(numbers) {
        Some(can) => Some(*can),
        None => None,
    }
}

/// Whether names can be completed. The answer is kept.
///
/// # Errors
///
/// `NoMemory` where there is none for it.
pub(crate) fn asked(
    alloc: Global,
    allowed: &Allowed,
    answers: &mut KnownAnswers,
    names: &[NameId],
) -> Result<bool, NoMemory>
    requires { AreAnswers (plain_allowed allowed.now) answers.old }
    ensures can { IfOk result (λ can. can ≡ can_complete_ids (plain_allowed allowed.now) names.now) }
    ensures kept { OnOk result (AreAnswers (plain_allowed allowed.now) answers.new) }
{
    if names.len() == 1 {
        return Ok(is_in(&answers.alone, names[0]));
    }
    let mut numbers = numbers_of(alloc, names)?;
    numbers.sort_unstable();
    if let Some(can) = known(&answers.known, numbers.as_slice()) {
        return Ok(can);
    }
    let can = is_completable(alloc, allowed, names)?;
    answers.known.insert(numbers, can)?;
    Ok(can)
}
