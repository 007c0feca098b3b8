//! How a summand goes on.

ghost use Rattle.std.specs.Prelude.{◌≡◌, ◌<◌, ℕ, ◌+◌, true, List, length, IfOk, IfSome, OnOk, Vec};
ghost use Rattle.std.specs.Global.{Global};
ghost use Rattle.data_theory.specs.declared.ids.TermId.{TermId};
ghost use Rattle.data_theory.specs.declared.ids.VarId.{VarId};
ghost use Rattle.lps_core.specs.Fitting.{IsVariable};
ghost use Rattle.lps_core.specs.PlainLinears.{plain_next};
ghost use Rattle.std.specs.List.{All};
ghost use Rattle.process_terms.specs.Meanings.{bound_at};
ghost use Rattle.lps_printer.specs.Adding.{Adds};
ghost use Rattle.lps_printer.specs.SummandLayout.{print_assignment, print_next};
ghost use Rattle.lps_printer.specs.WrittenProcesses.{is_own};
ghost use Rattle.lps_printer.specs.Wordings.{placed};
ghost use Rattle.lps_printer.specs.CodeWordings.{term_by, IsTermBy};
ghost use Rattle.lps_printer.specs.TextWordings.{of_terms, TextWording};
ghost use Rattle.lps_printer.specs.CodeProcesses.{assignments_from, entries_by, next_by, print_listed, AddsProcess, AddsText, AreNextBy, IsTextWording};

use crate::process_writer::ProcessWriter;
use crate::tokens::push_token;
use data_theory::{NoMemory, TermId, VarId};

impl ProcessWriter<'_> {
    /// Whether a term is this variable.
    fn is_own(&self, param: VarId, value: TermId) -> bool
        requires { IsTermBy self.now.terms value }
        ensures { result ≡ is_own (bound_at (entries_by self.now) param) (term_by self.now.terms value) }
    {
        match self.terms.as_variable(value) {
            Some(own) => own.0 == param.0,
            None => false,
        }
    }

    /// `x = d`, behind white space.
    fn assignment(
        &self,
        param: VarId,
        value: TermId,
        gap: &[u8],
        out: &mut Vec<u8>,
    ) -> Result<(), NoMemory>
        requires param { IsVariable self.now.terms.sig.now param }
        requires value { IsTermBy self.now.terms value }
        ensures { OnOk result (AddsText self.now out.old.items out.new.items (λ t rest. print_assignment (record { name = t.names.terms.variable param.0; value = placed (of_terms t) (term_by self.now.terms value) }) gap.now rest)) }
    {
        push_token(out, gap, self.terms.variable(param))?;
        push_token(out, b" ", b"=")?;
        self.terms.term(value, true, b" ", out)
    }

    /// The assignment to the parameter at a place, if it changes, and whether none is there yet.
    fn assignment_at(
        &self,
        next: &[TermId],
        place: usize,
        is_first: bool,
        out: &mut Vec<u8>,
    ) -> Result<bool, NoMemory>
        requires params { All (IsVariable self.now.terms.sig.now) self.now.params.now }
        requires next { AreNextBy self.now next.now }
        requires place { place < length next.now }
        ensures { IfOk result (λ b. (t : TextWording) → IsTextWording self.now t → (final : List ℕ)
            → Adds out.new.items final (λ rest. print_listed b (assignments_from self.now t next.now (place + 1)) rest)
            → Adds out.old.items final (λ rest. print_listed is_first (assignments_from self.now t next.now place) rest)) }
    {
        let param = self.params[place];
        let value = next[place];
        if self.is_own(param, value) {
            return Ok(is_first);
        }
        if is_first {
            self.assignment(param, value, b"", out)?;
            return Ok(false);
        }
        push_token(out, b"", b",")?;
        self.assignment(param, value, b" ", out)?;
        Ok(false)
    }

    /// The assignments to the parameters that change.
    fn assignments(&self, next: &[TermId], out: &mut Vec<u8>) -> Result<(), NoMemory>
        requires params { All (IsVariable self.now.terms.sig.now) self.now.params.now }
        requires next { AreNextBy self.now next.now }
        ensures { OnOk result (AddsText self.now out.old.items out.new.items (λ t rest. print_listed true (assignments_from self.now t next.now 0) rest)) }
    {
        let mut is_first = true;
        for place in 0..next.len() {
            is_first = self.assignment_at(next, place, is_first, out)?;
        }
        Ok(())
    }

    /// ` . P(x = d)`, where a summand goes on.
    pub(crate) fn next(&self, next: &Option<Vec<TermId>>, out: &mut Vec<u8>) -> Result<(), NoMemory>
        requires params { All (IsVariable self.now.terms.sig.now) self.now.params.now }
        requires next { IfSome next.now (λ (ids : Vec TermId Global). AreNextBy self.now ids.items) }
        ensures { OnOk result (AddsProcess self.now out.old.items out.new.items (λ t rest. print_next (next_by self.now t (plain_next next.now)) rest)) }
    {
        let Some(next) = next else {
            return Ok(());
        };
        push_token(out, b" ", b".")?;
        push_token(out, b" ", self.process)?;
        if self.params.is_empty() {
            return Ok(());
        }
        push_token(out, b"", b"(")?;
        self.assignments(next.as_slice(), out)?;
        push_token(out, b"", b")")
    }
}
