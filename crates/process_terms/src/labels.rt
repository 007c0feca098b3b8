//! Actions and multi-actions in code.

ghost use Rattle.std.specs.Prelude.{◌≡◌, IfOk};
ghost use Rattle.process_terms.specs.PlainProcesses.{plain_action, plain_label};

use data_theory::{ActId, NoMemory, TermId};
use std::alloc::Global;

/// An action with its arguments.
#[derive(Debug, Drop)]
pub struct Action {
    /// The action's number in the signature, which stands for its name and the sorts of its arguments.
    pub act: ActId,
    /// The arguments, as numbers of terms in the pool.
    pub args: Vec<TermId>,
}

impl Action {
    /// The same action with the same arguments.
    ///
    /// # Errors
    ///
    /// `NoMemory` where there is none for the copy.
    pub fn copy(&self, alloc: Global) -> Result<Self, NoMemory>
        ensures { IfOk result (λ action. plain_action action ≡ plain_action self.now) }
    {
        Ok(Action {
            act: self.act,
            args: self.args.to_vec(alloc)?,
        })
    }
}

/// A multi-action: actions that happen at once. The empty one is `tau`.
#[derive(Debug, Drop)]
pub struct Label {
    /// The actions, in the order of the text.
    pub actions: Vec<Action>,
}

impl Label {
    /// The same actions in the same order.
    ///
    /// # Errors
    ///
    /// `NoMemory` where there is none for the copy.
    pub fn copy(&self, alloc: Global) -> Result<Self, NoMemory>
        ensures { IfOk result (λ label. plain_label label ≡ plain_label self.now) }
    {
        let mut actions = Vec::new(alloc);
        for action in &self.actions {
            actions.push(action.copy(alloc)?)?;
        }
        Ok(Label { actions })
    }
}
