// What is answered to a source that is refused.

ghost use Rattle.std.specs.Prelude.{◌≡◌};
ghost use Rattle.ss_top.specs.Answers.{answer_to};

use ss_core::FrontStop;
use ss_report::Status;

/// The answer to a source that is refused.
pub fn refuse(stop: FrontStop) -> Status
    ensures { result ≡ answer_to stop }
{
    match stop {
        FrontStop::Refused { rule, place } => Status::SourceRefused { rule, place },
        FrontStop::Memory => Status::Memory,
    }
}
