//! The names of the processes on a cycle.

ghost use Rattle.std.specs.Prelude.{◌<◌, ℕ, length, map, IfOk, Contains};
ghost use Rattle.process_terms.specs.PlainProcesses.{plain_definition};
ghost use Rattle.guard_check.specs.Guards.{AreNamesOf};

use data_theory::{NameId, NoMemory};
use process_terms::ProcDef;
use std::alloc::Global;

/// The names of these definitions, in their order.
///
/// # Errors
///
/// `NoMemory` where there is none for the list.
pub fn names_of_cycle(
    alloc: Global,
    definitions: &[ProcDef],
    cycle: &[usize],
) -> Result<Vec<NameId>, NoMemory>
    requires { (x : ℕ) → Contains cycle.now x → x < length definitions.now }
    ensures { IfOk result (λ names. AreNamesOf (map plain_definition definitions.now) cycle.now names.items) }
{
    let mut names = Vec::new(alloc);
    for process in cycle {
        names.push(definitions[*process].name)?;
    }
    Ok(names)
}
