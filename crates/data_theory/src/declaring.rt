//! Declaring functions.

ghost use Rattle.std.specs.Prelude.{◌≡◌, ◌++◌, length, map, IfOk, OnOk, OnErr};
ghost use Rattle.data_theory.specs.Functions.{functions_of, AreNew};
ghost use Rattle.data_theory.specs.Structs.{numbers_from};
ghost use Rattle.data_theory.specs.Taken.{with_names};

use crate::functions::{FunEntry, Functions};
use crate::ids::{FunId, NameId};
use crate::no_memory::NoMemory;
use crate::structs::numbers_from;
use crate::taken::take_names;
use indexmap::IndexSet;
use std::alloc::Global;

/// The names of functions.
fn names_of(alloc: Global, entries: &[FunEntry]) -> Result<Vec<NameId>, NoMemory>
    ensures { IfOk result (λ names. names.items ≡ map (λ f. f.name) (functions_of entries.now)) }
{
    let mut names = Vec::new(alloc);
    for entry in entries {
        names.push(entry.name)?;
    }
    Ok(names)
}

/// Adds functions that are declared, and whose names are taken, all or none.
pub fn declare(
    functions: &mut Functions,
    declared: &mut Vec<FunId>,
    taken: &mut IndexSet<NameId>,
    alloc: Global,
    entries: Vec<FunEntry>,
) -> Result<(), NoMemory>
    requires { AreNew functions.old (functions_of entries.items) }
    ensures functions { OnOk result (functions.new ≡ functions.old ++ functions_of entries.items) }
    ensures declared { OnOk result (declared.new.items ≡ declared.old.items ++ numbers_from (length functions.old) (length (functions_of entries.items))) }
    ensures taken { OnOk result (taken.new.keys ≡ with_names taken.old.keys (map (λ f. f.name) (functions_of entries.items))) }
    ensures no_function { OnErr result (functions.new ≡ functions.old) }
    ensures none_declared { OnErr result (declared.new.items ≡ declared.old.items) }
    ensures none_taken { OnErr result (taken.new.keys ≡ taken.old.keys) }
{
    functions.reserve(entries.len())?;
    let mut numbers = numbers_from(alloc, functions.len(), entries.len())?;
    let names = names_of(alloc, entries.as_slice())?;
    declared.reserve(numbers.len())?;
    taken.reserve(names.len())?;
    functions.push_all(entries)?;
    let _ = declared.append(&mut numbers);
    take_names(taken, names.as_slice());
    Ok(())
}
