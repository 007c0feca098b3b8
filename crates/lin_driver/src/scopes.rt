//! Which labels of the parts of a network matter.

ghost use Rattle.std.specs.Prelude.{◌≡◌, IfOk};
ghost use Rattle.process_terms.specs.PlainProcesses.{items_of_each, plain_rules};
ghost use Rattle.proc_unfold.specs.Networks.{plain_network, plain_operator};
ghost use Rattle.summand_expander.specs.PlainAllowed.{plain_allowed};
ghost use Rattle.lin_driver.specs.NetworkScopes.{around_sign, below, below_comm, beside_sign, plain_scope, plain_sign, those_or_all, within_rules, within_sets};

use data_theory::{NameId, NoMemory};
use proc_unfold::{NetOp, Network};
use process_terms::CommSet;
use std::alloc::Global;
use summand_expander::Allowed;

/// Which labels matter of a part of a network, by the names of their actions: those that can do something once the operators around the
/// part are applied.
#[derive(Debug, Drop)]
pub enum Scope {
    /// All of them.
    Everything,
    /// Those that others can complete to allowed ones.
    Completable(Allowed),
}

/// The same sets.
fn copy_sets(alloc: Global, sets: &[Vec<NameId>]) -> Result<Vec<Vec<NameId>>, NoMemory>
    ensures { IfOk result (λ copies. items_of_each copies.items ≡ items_of_each sets.now) }
{
    let mut copies = Vec::new(alloc);
    for set in sets {
        copies.push(set.to_vec(alloc)?)?;
    }
    Ok(copies)
}

/// Those that can be completed to one of the sets.
fn within_sets(alloc: Global, sets: &[Vec<NameId>]) -> Result<Scope, NoMemory>
    ensures { IfOk result (λ scope. plain_scope scope ≡ within_sets (items_of_each sets.now)) }
{
    let sets = copy_sets(alloc, sets)?;
    let rules = CommSet {
        rules: Vec::new(alloc),
    };
    Ok(Scope::Completable(Allowed { sets, rules }))
}

/// Those of which the rules can make what is allowed, where no other rules do so already.
fn within_rules(alloc: Global, rules: &CommSet, allowed: &Allowed) -> Result<Scope, NoMemory>
    ensures { IfOk result (λ scope. plain_scope scope ≡ within_rules (plain_rules rules.now) (plain_allowed allowed.now).rules (plain_allowed allowed.now).sets) }
{
    if !allowed.rules.rules.is_empty() {
        return Ok(Scope::Everything);
    }
    let sets = copy_sets(alloc, allowed.sets.as_slice())?;
    let rules = rules.copy(alloc)?;
    Ok(Scope::Completable(Allowed { sets, rules }))
}

/// Which labels matter below a `comm`, where these matter around it.
fn below_comm(alloc: Global, rules: &CommSet, within: &Scope) -> Result<Scope, NoMemory>
    ensures { IfOk result (λ scope. plain_scope scope ≡ below_comm (plain_rules rules.now) (plain_scope within.now)) }
{
    match within {
        Scope::Everything => Ok(Scope::Everything),
        Scope::Completable(allowed) => within_rules(alloc, rules, allowed),
    }
}

/// Which labels matter below an operator, where these matter around it: below an `allow` those that can be completed to its sets, below a
/// `comm` directly under it those of which its rules can make such, and below all others all.
///
/// # Errors
///
/// `NoMemory` where there is none for the copies.
pub(crate) fn below(alloc: Global, operator: &NetOp, within: &Scope) -> Result<Scope, NoMemory>
    ensures { IfOk result (λ scope. plain_scope scope ≡ below (plain_operator operator.now) (plain_scope within.now)) }
{
    match operator {
        NetOp::Allow(sets) => within_sets(alloc, sets.as_slice()),
        NetOp::Comm(rules) => below_comm(alloc, rules, within),
        NetOp::Block(_) => Ok(Scope::Everything),
        NetOp::Hide(_) => Ok(Scope::Everything),
        NetOp::Rename(_) => Ok(Scope::Everything),
    }
}

/// What stands between networks one after another.
#[derive(Clone, Copy, Debug, Drop)]
pub(crate) enum Sign<'a> {
    /// `||`, around which these labels matter.
    Merge(&'a Scope),
    /// `|`
    Sync,
}

impl<'a> Sign<'a> {
    /// Which labels matter of a `||` that is one of the networks. Where none are given, all do.
    fn of_a_merge(self) -> Option<&'a Scope>
        ensures { those_or_all result ≡ around_sign (plain_sign self.entry) }
    {
        match self {
            Sign::Merge(within) => Some(within),
            Sign::Sync => None,
        }
    }
}

/// Which labels matter of one of the networks that have this between them. Where none are given, all do.
pub(crate) fn beside<'a>(network: &Network, sign: Sign<'a>) -> Option<&'a Scope>
    ensures { those_or_all result ≡ beside_sign (plain_sign sign.entry) (plain_network network.now) }
{
    match network {
        Network::Merge(_) => sign.of_a_merge(),
        Network::Leaf(_) => None,
        Network::LeftMerge(..) => None,
        Network::Sync(_) => None,
        Network::Op(..) => None,
    }
}
