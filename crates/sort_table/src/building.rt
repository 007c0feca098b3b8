//! The signature of a text's declarations, or why they are refused.

ghost use Rattle.std.specs.Prelude.{◌≡◌, [], IfOk, IfErr, OnOk};
ghost use Rattle.std.specs.List.{AllByRecursion};
ghost use Rattle.std.specs.Str.{IsUtf8};
ghost use Rattle.mcrl2_syntax.specs.Declarations.{spec_of};
ghost use Rattle.sort_table.specs.BareDeclarations.{bare_sections};
ghost use Rattle.sort_table.specs.DeclarationTrees.{declarations_of_text};
ghost use Rattle.sort_table.specs.UnknownSorts.{AllAreKnown};
ghost use Rattle.sort_table.specs.SortCycles.{NoCycle};
ghost use Rattle.sort_table.specs.Duplicates.{NothingAgain};
ghost use Rattle.sort_table.specs.Identifiers.{identifiers_in};
ghost use Rattle.sort_table.specs.PlacedSections.{IsPlaced};
ghost use Rattle.sort_table.specs.Built.{IsBuilt, IsFaultOf};

use crate::duplicates::first_duplicate;
use crate::empty_sorts::empty_sort;
use crate::entered_texts::enter_all;
use crate::sort_cycles::sort_cycle;
use crate::sort_declaring::enter_bytes;
use crate::text_signatures::declared_signature;
use crate::unknown_sorts::unknown_sort;
use data_theory::{NameId, Names, NoMemory, Signature};
use mcrl2_syntax::Spec;
use std::alloc::Global;
use std::mem;

/// Why the declarations of a text are refused.
#[derive(Debug, Drop)]
pub enum SortFault {
    /// The declaration with this number, from 1, is the first that uses a sort name that isn't declared, and this is the first
    /// such name in it.
    UnknownSort(usize, NameId),
    /// The names on a cycle of sort definitions through `=` and `List`.
    SortCycle(Vec<NameId>),
    /// The second declaration declares again what the first did; both numbers are from 1. They are equal where a declaration
    /// repeats itself or a built-in function.
    Duplicate(usize, usize),
    /// A sort with constructors and without a finite value.
    EmptySort(NameId),
    /// There was no memory.
    NoMemory,
}

impl From<NoMemory> for SortFault {
    ghost use Rattle.sort_table.specs.declared.building.SortFault.TheVariants.{NoMemory};

    ghost from_gives = { λ _ fault. fault ≡ NoMemory };

    fn from(_: NoMemory) -> Self {
        SortFault::NoMemory
    }
}

/// The signature of what a specification declares: its sorts, functions and actions, over a table of texts with every identifier
/// of the specification. The given table moves into it, and an empty one stays behind. Each declaration stands in a section of its own
/// word, and the identifiers are text, as in what `parse` gives.
///
/// The time is of the order of n log n for n declarations.
///
/// # Errors
///
/// The first of these that holds: a sort name isn't declared, sort definitions go round, something is declared twice, or a sort
/// has constructors and no finite value. `names` then has the text of each name that the fault lists. `NoMemory` comes only where
/// memory runs out. The rules are those of the mCRL2 language reference, data types.
pub fn build(alloc: Global, spec: &Spec, names: &mut Names) -> Result<Signature, SortFault>
    requires placed { IsPlaced (spec_of spec.now) }
    requires text { AllByRecursion IsUtf8 (identifiers_in (spec_of spec.now)) }
    ensures built { IfOk result (λ signature. IsBuilt (spec_of spec.now) signature) }
    ensures emptied { OnOk result (names.new ≡ []) }
    ensures refused { IfErr result (λ fault. IsFaultOf (spec_of spec.now) names.new fault) }
{
    if let Some((number, name)) = unknown_sort(alloc, spec)? {
        return Err(SortFault::UnknownSort(number, enter_bytes(names, name)?));
    }
    if let Some(cycle) = sort_cycle(alloc, spec)? {
        return Err(SortFault::SortCycle(enter_all(alloc, names, cycle.as_slice())?));
    }
    if let Some((first, second)) = first_duplicate(alloc, spec)? {
        return Err(SortFault::Duplicate(first, second));
    }
    inhabited_signature(alloc, spec, names)
}

/// The signature of a specification whose declarations are sound but for empty sorts.
fn inhabited_signature(
    alloc: Global,
    spec: &Spec,
    names: &mut Names,
) -> Result<Signature, SortFault>
    requires placed { IsPlaced (spec_of spec.now) }
    requires text { AllByRecursion IsUtf8 (identifiers_in (spec_of spec.now)) }
    requires known { AllAreKnown (declarations_of_text spec.now) }
    requires no_cycle { NoCycle (declarations_of_text spec.now) }
    requires once { NothingAgain (bare_sections (spec_of spec.now)) }
    ensures built { IfOk result (λ signature. IsBuilt (spec_of spec.now) signature) }
    ensures emptied { OnOk result (names.new ≡ []) }
    ensures refused { IfErr result (λ fault. IsFaultOf (spec_of spec.now) names.new fault) }
{
    let table = mem::replace(names, Names::new(alloc));
    let (signature, sorts) = declared_signature(alloc, spec, table)?;
    match empty_sort(alloc, &signature, sorts.as_slice()) {
        Ok(None) => Ok(signature),
        Ok(Some(name)) => {
            *names = signature.into_names();
            Err(SortFault::EmptySort(name))
        }
        Err(_) => {
            *names = signature.into_names();
            Err(SortFault::NoMemory)
        }
    }
}
