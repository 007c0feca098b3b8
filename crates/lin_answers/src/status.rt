//! How the program ends.
ghost use Rattle.std.specs.Prelude.{◌≡◌};
ghost use Rattle.lin_answers.specs.Statuses.{number_of};

/// How the program ended.
#[derive(Clone, Copy, Debug, PartialEq, Eq)]
pub enum Status {
    /// The task is done.
    Done,
    /// The text is refused.
    Refused,
    /// The words give no command.
    Words,
    /// The shelf failed.
    ReadFault,
    /// The output failed.
    WriteFault,
    /// No memory was left.
    NoMemory,
    /// The task is done, and left something undecided.
    Undecided,
    /// The answer is no.
    No,
}

impl Status {
    /// The exit status of the program.
    pub fn number(self) -> u8
        ensures number { result ≡ number_of self }
    {
        match self {
            Status::Done => 0,
            Status::Refused => 1,
            Status::Words => 2,
            Status::ReadFault => 3,
            Status::WriteFault => 4,
            Status::NoMemory => 5,
            Status::Undecided => 6,
            Status::No => 7,
        }
    }
}
