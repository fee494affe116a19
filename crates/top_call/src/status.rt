//! The status of a report.

ghost use Rattle.std.specs.Prelude.{◌≡◌};
ghost use Rattle.top_call.specs.Outcomes.{status_of};

use server_model::Verdict;
use top_endings::Status;

/// The status of a report with this verdict.
pub(crate) fn status_of(verdict: &Verdict) -> Status
    ensures { result ≡ status_of verdict.now }
{
    match verdict {
        Verdict::Done => Status::Done,
        Verdict::Reverted(_) => Status::Reverted,
        Verdict::Unfinished => Status::TurnsSpent,
    }
}
