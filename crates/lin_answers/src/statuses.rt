//! The statuses of answers.
ghost use Rattle.std.specs.Prelude.{◌≡◌};
ghost use Rattle.lin_answers.specs.Statuses.{status_with};

use crate::status::Status;
use lps_simulator::Open;

/// The status of a task that leaves these summands undecided.
pub fn status_with(undecided: &[Open]) -> Status
    ensures { result ≡ status_with undecided.now }
{
    if undecided.is_empty() {
        Status::Done
    } else {
        Status::Undecided
    }
}
