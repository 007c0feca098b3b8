//! The rules of communication in code.

ghost use Rattle.std.specs.Prelude.{◌≡◌, IfOk};
ghost use Rattle.process_terms.specs.PlainProcesses.{plain_rule, plain_rules};

use data_theory::{NameId, NoMemory};
use std::alloc::Global;

/// A rule of `comm`, as `a|b -> c`: actions with these names and equal arguments join to one with the result's name.
#[derive(Debug, Drop)]
pub struct CommRule {
    /// The names on the left side, in the order of the text.
    pub left: Vec<NameId>,
    /// The name of the result.
    pub result: NameId,
}

impl CommRule {
    fn copy(&self, alloc: Global) -> Result<Self, NoMemory>
        ensures { IfOk result (λ rule. plain_rule rule ≡ plain_rule self.now) }
    {
        Ok(CommRule {
            left: self.left.to_vec(alloc)?,
            result: self.result,
        })
    }
}

/// The rules of a `comm`.
#[derive(Debug, Drop)]
pub struct CommSet {
    /// The rules, in the order of the text.
    pub rules: Vec<CommRule>,
}

impl CommSet {
    /// The same rules in the same order.
    ///
    /// # Errors
    ///
    /// `NoMemory` where there is none for the copy.
    pub fn copy(&self, alloc: Global) -> Result<Self, NoMemory>
        ensures { IfOk result (λ set. plain_rules set ≡ plain_rules self.now) }
    {
        let mut rules = Vec::new(alloc);
        for rule in &self.rules {
            rules.push(rule.copy(alloc)?)?;
        }
        Ok(CommSet { rules })
    }
}
