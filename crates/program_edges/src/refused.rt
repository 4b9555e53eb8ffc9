//! Why a run of a program is refused.
ghost use Rattle.std.specs.Prelude.{◌≡◌, ℕ, List};
ghost use Rattle.bench_edges.specs.declared.status.Status.{Status};
ghost use Rattle.opening_report.specs.Lines.{IsLine};
ghost use Rattle.opening_report.specs.Refusals.{refusal_text};
ghost use Rattle.program_edges.specs.Statuses.{status_of};

use arrayvec::ArrayString;
use bench_edges::Status;
use opening_report::{Refusal, refusal_line};

/// Why a run of a program is refused: the line that says so, and the status that the run ends with.
pub trait Refused {
    ghost line_of: { Self → List ℕ };

    ghost status_of: { Self → Status };

    /// The line, its line end among it.
    fn line(&self) -> ArrayString<128>
        ensures text { result.bytes ≡ line_of self.now }
        ensures line { IsLine (line_of self.now) };

    /// The status.
    fn status(&self) -> Status
        ensures { result ≡ status_of self.now };
}

impl Refused for Refusal {
    ghost line_of = { refusal_text };

    ghost status_of = { status_of };

    fn line(&self) -> ArrayString<128> {
        refusal_line(self)
    }

    fn status(&self) -> Status {
        match self {
            Refusal::Words(_) => Status::Words,
            Refusal::Disk => Status::Disk,
            Refusal::NotAJournal | Refusal::OtherTable { .. } | Refusal::Damaged(_) =>
                Status::Journal,
            Refusal::Memory => Status::Memory,
            Refusal::Read => Status::Read,
            _ => Status::Input,
        }
    }
}
