//! The definition of a process, and its start.

ghost use Rattle.std.specs.Prelude.{◌≡◌, OnOk};
ghost use Rattle.std.specs.List.{All};
ghost use Rattle.lps_core.specs.Fitting.{IsVariable};
ghost use Rattle.lps_core.specs.PlainLinears.{plain_linear};
ghost use Rattle.lps_printer.specs.SummandLayout.{print_summands};
ghost use Rattle.lps_printer.specs.DefinitionTexts.{print_choice, print_definition, print_parameters, print_start};
ghost use Rattle.lps_printer.specs.CodeWordings.{IsTermBy};
ghost use Rattle.lps_printer.specs.CodeProcesses.{parameters_by, start_by, summands_by, AddsLinear, AddsProcess, AddsText, IsSummandBy};

use crate::process_writer::ProcessWriter;
use crate::sorts::push_variables;
use crate::tokens::push_token;
use data_theory::{NoMemory, TermId};
use lps_core::{Linear, Summand};

impl ProcessWriter<'_> {
    /// The parameters in brackets, where there are any.
    fn parameters(&self, out: &mut Vec<u8>) -> Result<(), NoMemory>
        requires { All (IsVariable self.now.terms.sig.now) self.now.params.now }
        ensures { OnOk result (AddsText self.now out.old.items out.new.items (λ t rest. print_parameters (parameters_by self.now t) rest)) }
    {
        if self.params.is_empty() {
            return Ok(());
        }
        push_token(out, b"", b"(")?;
        push_variables(self.terms.sig, self.params[0], &self.params[1..], b"", out)?;
        push_token(out, b"", b")")
    }

    /// Summands, each on a line of its own.
    fn further_summands(&self, summands: &[Summand], out: &mut Vec<u8>) -> Result<(), NoMemory>
        requires { All (IsSummandBy self.now) summands.now }
        ensures { OnOk result (AddsProcess self.now out.old.items out.new.items (λ t rest. print_summands (summands_by self.now t summands.now) rest)) }
    {
        for summand in summands {
            push_token(out, b"\n  ", b"+")?;
            self.summand(summand, b" ", out)?;
        }
        Ok(())
    }

    /// The choice of all summands, and `delta` where there are none.
    fn choice(&self, summands: &[Summand], out: &mut Vec<u8>) -> Result<(), NoMemory>
        requires { All (IsSummandBy self.now) summands.now }
        ensures { OnOk result (AddsProcess self.now out.old.items out.new.items (λ t rest. print_choice (summands_by self.now t summands.now) rest)) }
    {
        if summands.is_empty() {
            return push_token(out, b" ", b"delta");
        }
        self.summand(&summands[0], b" ", out)?;
        self.further_summands(&summands[1..], out)
    }

    /// `P(x: S) = ..`
    pub(crate) fn definition(&self, summands: &[Summand], out: &mut Vec<u8>) -> Result<(), NoMemory>
        requires params { All (IsVariable self.now.terms.sig.now) self.now.params.now }
        requires summands { All (IsSummandBy self.now) summands.now }
        ensures { OnOk result (AddsProcess self.now out.old.items out.new.items (λ t rest. print_definition t.names.process (parameters_by self.now t) (summands_by self.now t summands.now) rest)) }
    {
        push_token(out, b" ", self.process)?;
        self.parameters(out)?;
        push_token(out, b" ", b"=")?;
        self.choice(summands, out)
    }

    /// `P(d)`
    pub(crate) fn start(&self, init: &[TermId], out: &mut Vec<u8>) -> Result<(), NoMemory>
        requires { All (IsTermBy self.now.terms) init.now }
        ensures { OnOk result (AddsProcess self.now out.old.items out.new.items (λ t rest. print_start (start_by self.now t init.now) rest)) }
    {
        self.terms.call(self.process, init, true, b" ", out)
    }

    /// The section of the process and that of its start, behind white space, and the end of the text.
    pub(crate) fn sections(
        &self,
        lin: &Linear,
        gap: &[u8],
        out: &mut Vec<u8>,
    ) -> Result<(), NoMemory>
        requires same { self.now.params.now ≡ (plain_linear lin.now).params }
        requires params { All (IsVariable self.now.terms.sig.now) self.now.params.now }
        requires summands { All (IsSummandBy self.now) lin.now.summands.items }
        requires init { All (IsTermBy self.now.terms) (plain_linear lin.now).init }
        ensures { OnOk result (AddsLinear self.now (plain_linear lin.now) gap.now out.old.items out.new.items) }
    {
        push_token(out, gap, b"proc")?;
        self.definition(lin.summands.as_slice(), out)?;
        push_token(out, b"", b";")?;
        push_token(out, b"\n", b"init")?;
        self.start(lin.init(), out)?;
        push_token(out, b"", b";")?;
        out.extend_from_slice(b"\n")?;
        Ok(())
    }
}
