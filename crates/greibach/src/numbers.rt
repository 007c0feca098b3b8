//! The numbers of equations, in the order in which their places are met.

ghost use Rattle.std.specs.Prelude.{[], ◌∷◌, IfOk, OnOk};
ghost use Rattle.greibach.specs.MeetingOrder.{IsNumberOf, Meets};

use data_theory::NoMemory;
use indexmap::IndexSet;

/// The number of a place's equation from 1, which is met where it wasn't yet.
pub fn number(place: usize, met: &mut IndexSet<usize>) -> Result<usize, NoMemory>
    ensures met { OnOk result (Meets met.old.keys (place ∷ []) met.new.keys) }
    ensures number { IfOk result (λ number. IsNumberOf met.new.keys place number) }
{
    let (index, _) = met.insert_full(place)?;
    let _ = met.len();
    Ok(index + 1)
}
