//! Sets of variables.

use data_theory::{NoMemory, VarId};
use indexmap::IndexSet;
use std::alloc::Global;
use std::marker::Model;

/// A set of variables.
#[derive(Drop)]
pub struct VariableSet {
    vars: IndexSet<VarId>,
}

impl Model for VariableSet {
    ghost use Rattle.std.specs.Prelude.{List};
    ghost use Rattle.data_theory.specs.declared.ids.VarId.{VarId};

    ghost Value = { List VarId };

    ghost view = { λ set. set.vars.keys };
}

impl VariableSet {
    ghost use Rattle.std.specs.Prelude.{◌≡◌, ◌↔◌, ◌⊎◌, [], IsTrue, OnOk};
    ghost use Rattle.std.specs.List.{Contains};
    ghost use Rattle.data_theory.specs.declared.ids.VarId.{VarId};

    /// The empty set.
    pub fn new(alloc: Global) -> VariableSet
        ensures { result ≡ [] }
    {
        VariableSet {
            vars: IndexSet::new(alloc),
        }
    }

    /// Adds a variable.
    pub fn insert(&mut self, var: VarId) -> Result<(), NoMemory>
        ensures { OnOk result ((v : VarId) → Contains self.new v ↔ (Contains self.old v
            ⊎ (var ≡ v))) }
    {
        self.vars.insert(var)?;
        Ok(())
    }

    /// Whether a variable is in the set.
    pub fn contains(&self, var: VarId) -> bool
        ensures { IsTrue result ↔ Contains self.now var }
    {
        self.vars.contains(&var)
    }
}
