//! The actions of a signature by name.

use crate::known_names::action_text;
use data_theory::{ActEntry, NoMemory, Signature};
use std::alloc::Global;
use std::collections::BTreeMap;

/// Under each name of an action its actions, in the order of the text. It is ordered, so that no choice of names makes a look-up slow.
#[derive(Drop)]
pub(crate) struct ActionTable<'a> {
    pub(crate) groups: BTreeMap<&'a [u8], Vec<&'a ActEntry>>,
}

impl<'a> ActionTable<'a> {
    ghost use Rattle.std.specs.Prelude.{IfOk};
    ghost use Rattle.sort_checker.specs.ActionTables.{GroupsActions};

    /// The table of a signature's actions.
    ///
    /// # Errors
    ///
    /// `NoMemory` where there is none for it.
    pub(crate) fn new(alloc: Global, sig: &'a Signature) -> Result<ActionTable<'a>, NoMemory>
        ensures { IfOk result (λ table. GroupsActions sig.now sig.now.actions table.groups) }
    {
        let mut groups: BTreeMap<&'a [u8], Vec<&'a ActEntry>> = BTreeMap::new(alloc);
        let _ = sig.next_sort();
        for action in sig.acts() {
            let name = action_text(sig, action);
            let mut group = match groups.remove(&name) {
                Some(group) => group,
                None => Vec::new(alloc),
            };
            group.push(action)?;
            groups.insert(name, group)?;
        }
        Ok(ActionTable { groups })
    }
}
