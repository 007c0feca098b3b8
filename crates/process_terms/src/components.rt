//! Components of a network in code.

ghost use Rattle.std.specs.Prelude.{◌≡◌, IfOk};
ghost use Rattle.process_terms.specs.PlainProcesses.{plain_component};

use crate::processes::Proc;
use data_theory::{NoMemory, ProcId, TermId};
use std::alloc::Global;

/// Where a component of a network starts.
#[derive(Debug, Drop)]
pub enum Component {
    /// The call of a process, with an argument for each parameter.
    Call(ProcId, Vec<TermId>),
    /// A process term.
    Term(Proc),
}

impl Component {
    /// The same component.
    ///
    /// # Errors
    ///
    /// `NoMemory` where there is none for the copy.
    pub fn copy(&self, alloc: Global) -> Result<Self, NoMemory>
        ensures { IfOk result (λ component. plain_component component ≡ plain_component self.now) }
    {
        match self {
            Component::Call(process, args) => Ok(Component::Call(*process, args.to_vec(alloc)?)),
            Component::Term(process) => Ok(Component::Term(process.copy(alloc)?)),
        }
    }
}
