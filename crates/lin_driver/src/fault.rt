//! Why a specification or a text has no linear process.

ghost use Rattle.std.specs.Prelude.{◌≡◌};
ghost use Rattle.lin_driver.specs.Faults.{fault_of_encode, fault_of_guard, fault_of_lex, fault_of_model, fault_of_net, fault_of_parse, fault_of_sort, fault_of_type};
ghost use Rattle.lin_driver.specs.declared.fault.LinFault.TheVariants as lin;
ghost use Rattle.lin_driver.specs.declared.fault.ModelFault.TheVariants.{NoMemory};

use data_theory as data;
use guard_check::GuardFault;
use mcrl2_lexer::LexFault;
use mcrl2_parser::ParseFault;
use proc_unfold::NetFault;
use regular_encoder::EncodeFault;
use sort_checker::TypeFault;
use sort_table::SortFault;

/// Why a specification has no linear process, in the order in which causes are looked for.
#[derive(Debug, Drop)]
pub enum ModelFault {
    /// Parallelism doesn't stand outside recursion.
    Net(NetFault),
    /// Recursion isn't guarded.
    Guard(GuardFault),
    /// The component with the first number is the first one whose form isn't tail, and the summand with the second number is the first
    /// of that form with two calls. Both count from 1.
    NotTail(usize, usize),
    /// No memory was left.
    NoMemory,
}

impl From<data::NoMemory> for ModelFault {
    ghost from_gives = { λ _ fault. fault ≡ NoMemory };

    fn from(_: data::NoMemory) -> Self {
        ModelFault::NoMemory
    }
}

impl From<NetFault> for ModelFault {
    ghost from_gives = { λ net fault. fault ≡ fault_of_net net };

    fn from(fault: NetFault) -> Self {
        match fault {
            NetFault::NoMemory => ModelFault::NoMemory,
            fault => ModelFault::Net(fault),
        }
    }
}

impl From<GuardFault> for ModelFault {
    ghost from_gives = { λ guard fault. fault ≡ fault_of_guard guard };

    fn from(fault: GuardFault) -> Self {
        match fault {
            GuardFault::NoMemory => ModelFault::NoMemory,
            fault => ModelFault::Guard(fault),
        }
    }
}

impl ModelFault {
    /// The fault of a specification whose component with this number, from 1, has a form that isn't encoded.
    pub(crate) fn of_component(number: usize, fault: EncodeFault) -> Self
        ensures { result ≡ fault_of_encode number fault }
    {
        match fault {
            EncodeFault::NoMemory => ModelFault::NoMemory,
            EncodeFault::NotTail(summand) => ModelFault::NotTail(number, summand),
        }
    }
}

/// Why there is no linear process for a text, in the order in which causes are looked for. The names of a fault stand in the table of
/// texts that was handed in.
#[derive(Debug, Drop)]
pub enum LinFault {
    /// The text has no tokens that are all accepted.
    Lex(LexFault),
    /// The tokens have no declarations that are all accepted.
    Parse(ParseFault),
    /// What the declarations declare has a fault.
    Sort(SortFault),
    /// The text is ill typed.
    Type(TypeFault),
    /// Parallelism doesn't stand outside recursion.
    Net(NetFault),
    /// Recursion isn't guarded.
    Guard(GuardFault),
    /// The component with the first number is the first one whose form isn't tail, the summand with the second number is the first of
    /// that form with two calls, and the regular encoder alone was asked for. Both count from 1.
    NotTail(usize, usize),
    /// The process was to say its end by an action `Terminate`, and the declaration with this number, from 1, is the first of an action of
    /// this name.
    TerminateDeclared(usize),
    /// No memory was left.
    NoMemory,
}

impl From<data::NoMemory> for LinFault {
    ghost from_gives = { λ _ fault. fault ≡ lin.NoMemory };

    fn from(_: data::NoMemory) -> Self {
        LinFault::NoMemory
    }
}

impl LinFault {
    /// The fault of a text whose specification has this fault.
    pub(crate) fn of_model(fault: ModelFault) -> Self
        ensures { result ≡ fault_of_model fault }
    {
        match fault {
            ModelFault::Net(fault) => LinFault::Net(fault),
            ModelFault::Guard(fault) => LinFault::Guard(fault),
            ModelFault::NotTail(component, summand) => LinFault::NotTail(component, summand),
            ModelFault::NoMemory => LinFault::NoMemory,
        }
    }
}

impl From<LexFault> for LinFault {
    ghost from_gives = { λ lex fault. fault ≡ fault_of_lex lex };

    fn from(fault: LexFault) -> Self {
        match fault {
            LexFault::NoMemory => LinFault::NoMemory,
            _ => LinFault::Lex(fault),
        }
    }
}

impl From<ParseFault> for LinFault {
    ghost from_gives = { λ parse fault. fault ≡ fault_of_parse parse };

    fn from(fault: ParseFault) -> Self {
        match fault {
            ParseFault::NoMemory => LinFault::NoMemory,
            _ => LinFault::Parse(fault),
        }
    }
}

impl From<SortFault> for LinFault {
    ghost from_gives = { λ sort fault. fault ≡ fault_of_sort sort };

    fn from(fault: SortFault) -> Self {
        match fault {
            SortFault::NoMemory => LinFault::NoMemory,
            fault => LinFault::Sort(fault),
        }
    }
}

impl From<TypeFault> for LinFault {
    ghost from_gives = { λ typed fault. fault ≡ fault_of_type typed };

    fn from(fault: TypeFault) -> Self {
        match fault {
            TypeFault::NoMemory => LinFault::NoMemory,
            fault => LinFault::Type(fault),
        }
    }
}
