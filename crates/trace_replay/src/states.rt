//! The states to which some labels lead.

ghost use Rattle.std.specs.Prelude.{◌≡◌, ◌↔◌, ◌⊎◌, List, Option, [], ◌∷◌, IsTrue, IfOk, OnOk, Some};
ghost use Rattle.std.specs.List.{Contains};
ghost use Rattle.data_theory.specs.declared.ids.TermId.{TermId};
ghost use Rattle.lps_core.specs.PlainLinears.{plain_next};
ghost use Rattle.trace_replay.specs.States.{plain_states};

use data_theory::{NoMemory, TermId};
use indexmap::IndexSet;
use std::alloc::Global;

/// States, each once: arguments of the linear process's call, and maybe the end.
#[derive(Drop)]
pub(crate) struct States {
    pub running: IndexSet<Vec<TermId>>,
    pub ended: bool,
}

/// No state.
pub(crate) fn no_states(alloc: Global) -> States
    ensures { plain_states result ≡ [] }
{
    States {
        running: IndexSet::new(alloc),
        ended: false,
    }
}

/// One state that goes on.
pub(crate) fn one_state(alloc: Global, args: &[TermId]) -> Result<States, NoMemory>
    ensures { IfOk result (λ states. plain_states states ≡ Some args.now ∷ []) }
{
    let mut running = IndexSet::new(alloc);
    running.insert(Vec::from_slice(alloc, args)?)?;
    Ok(States {
        running,
        ended: false,
    })
}

impl States {
    /// Whether there is no state.
    pub fn is_empty(&self) -> bool
        ensures { IsTrue result ↔ (plain_states self.now ≡ []) }
    {
        if self.ended {
            return false;
        }
        self.running.is_empty()
    }

    /// Adds a state, where it isn't there.
    pub fn insert(&mut self, state: Option<Vec<TermId>>) -> Result<(), NoMemory>
        ensures added { OnOk result ((o : Option (List TermId)) → Contains (plain_states self.new) o ↔ (Contains (plain_states self.old) o ⊎ (o ≡ plain_next state))) }
    {
        let Some(args) = state else {
            self.ended = true;
            return Ok(());
        };
        self.running.insert(args)?;
        Ok(())
    }
}
