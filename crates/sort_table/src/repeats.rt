//! The first entry that meets an earlier one.

ghost use Rattle.std.specs.Prelude.{◌≡◌, ◌+◌, ℕ, List, length, IfOk, OnOk, slice_get, Some};
ghost use Rattle.sort_table.specs.SortIndexes.{place_under};
ghost use Rattle.sort_table.specs.Repeats.{Mark, mark_of, marks_of, Meets, IsLeastPair, IsLesser, KnowsLeast, pair_under};

use data_theory::NoMemory;
use std::alloc::Global;
use std::collections::BTreeMap;

/// What a declaration declares, as two keys: the one that it leaves for later entries, and the one by which it meets earlier ones.
#[derive(Drop)]
pub(crate) struct Entry {
    pub(crate) left: Vec<usize>,
    pub(crate) met: Vec<usize>,
    /// The number of the declaration.
    pub(crate) number: usize,
}

/// Of the pairs of an entry with an earlier one that left the key which it meets, the least second number, and for it the least
/// first.
///
/// # Errors
///
/// `NoMemory` where there is none for the map of the keys.
pub(crate) fn first_repeat(
    alloc: Global,
    entries: &[Entry],
) -> Result<Option<(usize, usize)>, NoMemory>
    ensures { IfOk result (λ found. IsLeastPair (Meets (marks_of entries.now) (length entries.now)) found) }
{
    let mut least = BTreeMap::new(alloc);
    let mut found = None;
    for entry in entries {
        found = lesser(found, met_by(&least, entry));
        leave(&mut least, entry)?;
    }
    Ok(found)
}

/// The pair of an entry with the least number under the key that it meets.
fn met_by<'a>(least: &BTreeMap<&'a [usize], usize>, entry: &'a Entry) -> Option<(usize, usize)>
    ensures { result ≡ pair_under (place_under least.now entry.now.met.items) entry.now.number }
{
    match least.get(&entry.met.as_slice()) {
        Some(first) => Some((*first, entry.number)),
        None => None,
    }
}

/// Puts the number of an entry under the key that it leaves, where no number or a greater one stands there.
fn leave<'a>(least: &mut BTreeMap<&'a [usize], usize>, entry: &'a Entry) -> Result<(), NoMemory>
    ensures { OnOk result ((ms : List Mark) (place : ℕ) → slice_get ms place ≡ Some (mark_of entry.now) → KnowsLeast least.old ms place → KnowsLeast least.new ms (place + 1)) }
{
    if let Some(number) = least.get(&entry.left.as_slice()) {
        if *number <= entry.number {
            return Ok(());
        }
    }
    least.insert(entry.left.as_slice(), entry.number)?;
    Ok(())
}

/// The one of two pairs that has the lesser second number, or at the same the lesser first.
pub(crate) fn lesser(a: Option<(usize, usize)>, b: Option<(usize, usize)>) -> Option<(usize, usize)>
    ensures { IsLesser a b result }
{
    let Some(first) = a else {
        return b;
    };
    let Some(second) = b else {
        return a;
    };
    if first.1 < second.1 || first.1 == second.1 && first.0 <= second.0 {
        a
    } else {
        b
    }
}
