//! Summands.

ghost use Rattle.std.specs.Prelude.{OnOk};
ghost use Rattle.lps_core.specs.PlainLinears.{plain_summand};
ghost use Rattle.lps_printer.specs.SummandLayout.{print_summand};
ghost use Rattle.lps_printer.specs.CodeProcesses.{print_guarded, summand_by, AddsProcess, IsSummandBy};

use crate::process_writer::ProcessWriter;
use crate::sorts::push_variables;
use crate::tokens::push_token;
use data_theory::NoMemory;
use lps_core::Summand;

impl ProcessWriter<'_> {
    /// A summand without its sums, behind white space: a condition that isn't `true`, the label and the call.
    fn guarded(&self, summand: &Summand, gap: &[u8], out: &mut Vec<u8>) -> Result<(), NoMemory>
        requires { IsSummandBy self.now summand.now }
        ensures { OnOk result (AddsProcess self.now out.old.items out.new.items (λ t rest. print_guarded (summand_by self.now t (plain_summand summand.now)) gap.now rest)) }
    {
        if self.terms.is_true(summand.cond) {
            self.label(&summand.label, gap, out)?;
            return self.next(&summand.next, out);
        }
        push_token(out, gap, b"(")?;
        self.terms.term(summand.cond, false, b"", out)?;
        push_token(out, b"", b")")?;
        push_token(out, b" ", b"->")?;
        self.label(&summand.label, b" ", out)?;
        self.next(&summand.next, out)
    }

    /// A summand, behind white space.
    pub(crate) fn summand(
        &self,
        summand: &Summand,
        gap: &[u8],
        out: &mut Vec<u8>,
    ) -> Result<(), NoMemory>
        requires { IsSummandBy self.now summand.now }
        ensures { OnOk result (AddsProcess self.now out.old.items out.new.items (λ t rest. print_summand (summand_by self.now t (plain_summand summand.now)) gap.now rest)) }
    {
        let sums = summand.sums.as_slice();
        if sums.is_empty() {
            return self.guarded(summand, gap, out);
        }
        push_token(out, gap, b"sum")?;
        push_variables(self.terms.sig, sums[0], &sums[1..], b" ", out)?;
        push_token(out, b" ", b".")?;
        self.guarded(summand, b" ", out)
    }
}
