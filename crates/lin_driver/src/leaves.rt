//! The leaves of a network.

ghost use Rattle.std.specs.Prelude.{◌≡◌, ◌++◌, map, IfOk, OnOk};
ghost use Rattle.process_terms.specs.PlainProcesses.{plain_component};
ghost use Rattle.proc_unfold.specs.Networks.{networks_of, plain_network};
ghost use Rattle.lin_driver.specs.Leaves.{leaves, leaves_beside};

use data_theory::NoMemory;
use proc_unfold::Network;
use process_terms::{Component, Proc};
use std::alloc::Global;

/// The leaves of a network, from the left. A `||` or `|` of no parts does nothing, and counts as a leaf.
///
/// # Errors
///
/// `NoMemory` where there is none for the copies.
pub(crate) fn leaves_of(alloc: Global, network: &Network) -> Result<Vec<Component>, NoMemory>
    ensures { IfOk result (λ found. map plain_component found.items ≡ leaves (plain_network network.now)) }
{
    let mut found = Vec::new(alloc);
    add_leaves(alloc, network, &mut found)?;
    Ok(found)
}

/// Puts the leaves of a network behind those that were found.
#[cycle(walk)]
fn add_leaves(alloc: Global, network: &Network, found: &mut Vec<Component>) -> Result<(), NoMemory>
    ensures { OnOk result (map plain_component found.new.items ≡ map plain_component found.old.items ++ leaves (plain_network network.now)) }
{
    match network {
        Network::Leaf(component) => Ok(found.push(component.copy(alloc)?)?),
        Network::Merge(parts) => add_leaves_beside(alloc, parts, found),
        Network::Op(_, part) => add_leaves(alloc, part, found),
        Network::LeftMerge(first, second) => {
            add_leaves(alloc, first, found)?;
            add_leaves(alloc, second, found)
        }
        Network::Sync(parts) => add_leaves_beside(alloc, parts, found),
    }
}

/// Puts the leaves of networks behind those that were found.
#[cycle(walk)]
fn add_leaves_beside(
    alloc: Global,
    parts: &[Network],
    found: &mut Vec<Component>,
) -> Result<(), NoMemory>
    ensures { OnOk result (map plain_component found.new.items ≡ map plain_component found.old.items ++ leaves_beside (networks_of (map plain_network parts.now))) }
{
    if parts.is_empty() {
        return Ok(found.push(Component::Term(Proc::Delta))?);
    }
    for part in parts {
        add_leaves(alloc, part, found)?;
    }
    Ok(())
}
