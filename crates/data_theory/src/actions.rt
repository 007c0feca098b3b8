//! The actions of a signature, with their index.

use crate::ids::{ActId, NameId, SortId};
use crate::keys::Keys;
use crate::no_memory::NoMemory;
use std::alloc::Global;
use std::marker::Model;

/// An action with the sorts of its arguments.
#[derive(Drop)]
pub struct ActEntry {
    pub name: NameId,
    pub sorts: Vec<SortId>,
}

/// The actions of a signature, in the order of their numbers. No two have one name and the same sorts.
#[derive(Drop)]
pub struct Actions {
    entries: Vec<ActEntry>,
    keys: Keys,
}

impl Model for Actions {
    ghost use Rattle.std.specs.Prelude.{◌≡◌, List};
    ghost use Rattle.data_theory.specs.Keys.{Key};

    ghost Value = { List Key };

    ghost use Rattle.data_theory.specs.Actions.{actions_of};

    ghost view = { λ table. actions_of table.entries.items };

    ghost invariant = { λ table. table.keys ≡ actions_of table.entries.items };
}

impl Actions {
    ghost use Rattle.std.specs.Prelude.{◌≡◌, ◌++◌, ◌∷◌, [], length, IfOk, OnErr, MatchOption, slice_get, Some};
    ghost use Rattle.std.specs.List.{Contains};
    ghost use Rattle.data_theory.specs.Keys.{key};
    ghost use Rattle.data_theory.specs.Actions.{actions_of};

    /// No actions.
    pub fn new(alloc: Global) -> Actions
        ensures { result ≡ [] }
    {
        Actions {
            entries: Vec::new(alloc),
            keys: Keys::new(alloc),
        }
    }

    /// All of them.
    pub fn as_slice(&self) -> &[ActEntry]
        ensures { actions_of result.now ≡ self.now }
    {
        self.entries.as_slice()
    }

    /// The action with a name and sorts.
    pub fn find(&self, name: NameId, sorts: &[SortId]) -> Option<ActId>
        ensures { MatchOption result (¬ (Contains self.now (key name sorts.now))) (λ act. slice_get self.now act.0 ≡ Some (key name sorts.now)) }
    {
        match self.keys.find(name, sorts) {
            Some(place) => Some(ActId(place)),
            None => None,
        }
    }

    /// Adds an action behind the others.
    pub fn push(&mut self, name: NameId, sorts: Vec<SortId>) -> Result<ActId, NoMemory>
        requires { ¬ (Contains self.old (key name sorts.items)) }
        ensures number { IfOk result (λ act. act.0 ≡ length self.old) }
        ensures pushed { IfOk result (λ _. self.new ≡ self.old ++ key name sorts.items ∷ []) }
        ensures unchanged { OnErr result (self.new ≡ self.old) }
    {
        self.entries.reserve(1)?;
        self.keys.push(name, sorts.as_slice())?;
        let act = ActId(self.entries.len());
        let _ = self.entries.push(ActEntry { name, sorts });
        Ok(act)
    }
}
