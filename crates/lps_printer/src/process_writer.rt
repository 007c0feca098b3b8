//! What processes are printed with.

use crate::term_writer::TermWriter;
use data_theory::{FunId, Signature, VarId};
use term_pool::Pool;

/// What processes are printed with: the wording of their terms, for each action whether its name is declared once, the name of the
/// process and its parameters.
#[derive(Clone, Copy)]
pub(crate) struct ProcessWriter<'a> {
    pub(crate) terms: TermWriter<'a>,
    pub(crate) once: &'a [bool],
    pub(crate) process: &'a [u8],
    pub(crate) params: &'a [VarId],
}

impl<'a> ProcessWriter<'a> {
    ghost use Rattle.std.specs.Prelude.{◌≡◌, ◌<◌, ℕ, Some, length, slice_get};
    ghost use Rattle.data_theory.specs.declared.ids.FunId.{FunId};

    /// By these tables: for each function and for each action whether its name is declared once, and the constants for empty lists.
    pub(crate) fn new(
        sig: &'a Signature,
        pool: &'a Pool,
        functions: &'a [bool],
        constants: &'a [Option<FunId>],
        actions: &'a [bool],
        process: &'a [u8],
        params: &'a [VarId],
    ) -> ProcessWriter<'a>
        requires { (k : ℕ) (f : FunId) → slice_get constants.now k ≡ Some (Some f) → f.0 < length sig.now.functions }
        ensures sig { result.terms.sig.now ≡ sig.now }
        ensures pool { result.terms.pool.now ≡ pool.now }
        ensures functions { result.terms.once.now ≡ functions.now }
        ensures constants { result.terms.constants.now ≡ constants.now }
        ensures actions { result.once.now ≡ actions.now }
        ensures process { result.process.now ≡ process.now }
        ensures params { result.params.now ≡ params.now }
    {
        let terms = TermWriter {
            sig,
            pool,
            once: functions,
            constants,
        };
        ProcessWriter {
            terms,
            once: actions,
            process,
            params,
        }
    }
}
