//! Why the program writes no answer, and how it says so.
ghost use Rattle.std.specs.Prelude.{◌≡◌, ◌≢◌, List, Option, ℕ};
ghost use Rattle.lin_driver.specs.declared.ending.Ending.{Ending};
ghost use Rattle.lin_driver.specs.declared.methods.Method.{Method};
ghost use Rattle.lin_refusals.specs.BadTerms.{IsBadTermAsTold};
ghost use Rattle.lin_refusals.specs.BadTraces.{IsBadAsTold};
ghost use Rattle.lin_refusals.specs.BadChoices.{IsBadChoiceAsTold};
ghost use Rattle.lin_refusals.specs.Lines.{AreNamed, line_of, names_of_fault};
ghost use Rattle.lin_refusals.specs.Stops.{IsChoiceStop, IsConditionStop, IsStopFor, IsTraceStop, stop_of_load};
ghost use Rattle.trace_replay.specs.declared.replaying.ReplayFault.TheVariants.{BadTrace};
ghost use Rattle.chosen_moves.specs.declared.following.ChoiceFault.TheVariants.{BadChoice};
ghost use Rattle.mcrl2_parser.specs.declared.term_text.TermFault.TheVariants.{NotATerm};
ghost use Rattle.lin_refusals.specs.declared.stop.Stop.TheVariants as stop;

use crate::refusal::{bad_choice, bad_term, bad_trace, refusal};
use chosen_moves::ChoiceFault;
use data_theory::{Names, NoMemory};
use lin_driver::LinFault;
use mcrl2_parser::TermFault;
use mcrl2_text::LoadFault;
use std::alloc::Global;
use trace_replay::ReplayFault;

/// Why there is nothing to write.
#[derive(Drop)]
pub enum Stop {
    /// The words give no command.
    Words,
    /// The shelf failed.
    ReadFault,
    /// The text is too long, or the further file.
    TooLong,
    /// The text is refused, or the further file, with this line.
    Refused(Vec<u8>),
    /// No memory was left.
    NoMemory,
}

impl From<NoMemory> for Stop {
    ghost from_gives = { λ _ made. made ≡ stop.NoMemory };

    fn from(_: NoMemory) -> Self {
        Stop::NoMemory
    }
}

impl From<LoadFault> for Stop {
    ghost from_gives = { λ fault stop. stop ≡ stop_of_load fault };

    fn from(fault: LoadFault) -> Self {
        match fault {
            LoadFault::ReadFault => Stop::ReadFault,
            LoadFault::TooLong => Stop::TooLong,
            LoadFault::NoMemory => Stop::NoMemory,
        }
    }
}

impl Stop {
    /// The stop for a text with that fault, whose names stand in the table.
    pub fn for_fault(alloc: Global, names: &Names, fault: &LinFault) -> Stop
        requires { AreNamed names.now (names_of_fault fault.now) }
        ensures { IsStopFor names.now fault.now result }
    {
        if matches!(fault, LinFault::NoMemory) {
            return Stop::NoMemory;
        }
        match refusal(alloc, names, fault) {
            Ok(line) => Stop::Refused(line),
            Err(_) => Stop::NoMemory,
        }
    }

    /// The stop for a trace with that fault.
    pub fn for_trace(alloc: Global, fault: ReplayFault) -> Stop
        ensures cause { (ending : Ending) (method : Method) (text : List ℕ) (told : Option (List ℕ))
            → ((number : ℕ) → fault ≡ BadTrace number → IsBadAsTold ending method text told number) → IsTraceStop ending method text told result }
        ensures no_read_fault { result ≢ stop.ReadFault }
    {
        let ReplayFault::BadTrace(number) = fault else {
            return Stop::NoMemory;
        };
        match bad_trace(alloc, number) {
            Ok(line) => Stop::Refused(line),
            Err(_) => Stop::NoMemory,
        }
    }

    /// The stop for a text of a condition with that fault.
    pub fn for_term(alloc: Global, fault: TermFault) -> Stop
        ensures cause { (ending : Ending) (method : Method) (text : List ℕ) (told : Option (List ℕ))
            → (fault ≡ NotATerm → IsBadTermAsTold ending method text told) → IsConditionStop ending method text told result }
        ensures no_read_fault { result ≢ stop.ReadFault }
    {
        if matches!(fault, TermFault::NoMemory) {
            return Stop::NoMemory;
        }
        match bad_term(alloc) {
            Ok(line) => Stop::Refused(line),
            Err(_) => Stop::NoMemory,
        }
    }

    /// The stop for a text of choices with that fault.
    pub fn for_choice(alloc: Global, fault: ChoiceFault) -> Stop
        ensures cause { (ending : Ending) (method : Method) (fuel bound : ℕ) (text : List ℕ) (told : Option (List ℕ))
            → ((number : ℕ) → fault ≡ BadChoice number → IsBadChoiceAsTold ending method fuel bound text told number)
            → IsChoiceStop ending method fuel bound text told result }
        ensures no_read_fault { result ≢ stop.ReadFault }
    {
        let ChoiceFault::BadChoice(number) = fault else {
            return Stop::NoMemory;
        };
        match bad_choice(alloc, number) {
            Ok(line) => Stop::Refused(line),
            Err(_) => Stop::NoMemory,
        }
    }

    /// The line that says it.
    pub fn line(&self) -> &[u8]
        ensures { result.now ≡ line_of self.now }
    {
        match self {
            Stop::Words =>
                b"usage: mcrl2lin TASK FILE [--trace FILE] [--method M] [--fuel N] [--bound N] [--seed N] [--depth N] [--ending E] [--invariant FILE] [--after FILE]\n",
            Stop::ReadFault => b"read fault\n",
            Stop::TooLong => b"refused 0 TooLong\n",
            Stop::Refused(line) => line,
            Stop::NoMemory => b"no memory\n",
        }
    }
}
