//! What terms are worded with.

ghost use Rattle.std.specs.Prelude.{◌≡◌, ◌<◌, ℕ, length, slice_get, Some};
ghost use Rattle.data_theory.specs.declared.ids.FunId.{FunId};

use data_theory::{FunId, Signature};
use term_pool::Pool;

/// What terms are worded with: for each function, `once` tells whether its name is declared once and isn't built in, and
/// `constants` has the constant that stands in open places for this `[]`, where there is one.
#[derive(Clone, Copy)]
pub(crate) struct TermWriter<'a> {
    pub(crate) sig: &'a Signature,
    pub(crate) pool: &'a Pool,
    pub(crate) once: &'a [bool],
    pub(crate) constants: &'a [Option<FunId>],
    ghost known: { (k : ℕ) (f : FunId) → slice_get constants.now k ≡ Some (Some f) → f.0 < length sig.now.functions },
}
