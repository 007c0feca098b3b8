//! Linear processes in code.

ghost use Rattle.std.specs.Prelude.{◌≡◌, map, IfOk};
ghost use Rattle.std.specs.List.{list_any};
ghost use Rattle.lps_core.specs.PlainLinears.{ends, plain_linear, plain_next, plain_summand};

use data_theory::{NoMemory, TermId, VarId};
use process_terms::Label;
use std::alloc::Global;

/// A summand: for some values of its sum variables, where its condition is true, it does its label and goes on with its next
/// terms as the values of the parameters. Without next terms it ends.
#[derive(Debug, Drop)]
pub struct Summand {
    pub sums: Vec<VarId>,
    pub cond: TermId,
    pub label: Label,
    pub next: Option<Vec<TermId>>,
}

/// A linear process: its parameters, their initial terms, and its summands (book, linear process equations; that a summand may
/// end is this profile's).
#[derive(Debug, Drop)]
pub struct Linear {
    pub params: Vec<VarId>,
    pub init: Vec<TermId>,
    pub summands: Vec<Summand>,
}

fn copy_next(alloc: Global, next: &Option<Vec<TermId>>) -> Result<Option<Vec<TermId>>, NoMemory>
    ensures { IfOk result (λ copy. plain_next copy ≡ plain_next next.now) }
{
    match next {
        Some(args) => Ok(Some(args.to_vec(alloc)?)),
        None => Ok(None),
    }
}

impl Summand {
    /// The same summand.
    pub fn copy(&self, alloc: Global) -> Result<Self, NoMemory>
        ensures { IfOk result (λ summand. plain_summand summand ≡ plain_summand self.now) }
    {
        Ok(Summand {
            sums: self.sums.to_vec(alloc)?,
            cond: self.cond,
            label: self.label.copy(alloc)?,
            next: copy_next(alloc, &self.next)?,
        })
    }
}

impl Linear {
    /// The parameters.
    pub fn params(&self) -> &[VarId]
        ensures { result.now ≡ (plain_linear self.now).params }
    {
        self.params.as_slice()
    }

    /// The initial terms, one for each parameter.
    pub fn init(&self) -> &[TermId]
        ensures { result.now ≡ (plain_linear self.now).init }
    {
        self.init.as_slice()
    }

    /// The summands.
    pub fn summands(&self) -> &[Summand]
        ensures { map plain_summand result.now ≡ (plain_linear self.now).summands }
    {
        self.summands.as_slice()
    }

    /// Whether some summand ends.
    pub fn can_end(&self) -> bool
        ensures { result ≡ list_any ends self.now.summands.items }
    {
        self.summands.iter().any(|summand| summand.next.is_none())
    }

    /// The same linear process.
    pub fn copy(&self, alloc: Global) -> Result<Self, NoMemory>
        ensures { IfOk result (λ linear. plain_linear linear ≡ plain_linear self.now) }
    {
        let mut summands = Vec::new(alloc);
        for summand in &self.summands {
            summands.push(summand.copy(alloc)?)?;
        }
        Ok(Linear {
            params: self.params.to_vec(alloc)?,
            init: self.init.to_vec(alloc)?,
            summands,
        })
    }
}
