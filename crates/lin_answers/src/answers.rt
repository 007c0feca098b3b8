//! What a task answers.
ghost use Rattle.std.specs.Prelude.{◌≡◌};

use crate::status::Status;

/// What the program writes for a task, and the status that it ends with once that is written.
#[derive(Debug, Drop)]
pub struct Answer {
    /// What is written.
    pub text: Vec<u8>,
    /// The status.
    pub status: Status,
}

impl Answer {
    /// An answer that leaves nothing open.
    pub fn done(text: Vec<u8>) -> Answer
        ensures text { result.text ≡ text }
        ensures status { result.status ≡ Status.Done }
    {
        Answer {
            text,
            status: Status::Done,
        }
    }
}
