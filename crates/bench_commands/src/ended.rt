//! How a run ended.
use bench_edges::Status;
use opening_report::Refusal;

/// How a run ended, and what a person may be told of it.
#[derive(Clone, Copy, Debug, PartialEq, Eq)]
pub struct Ended {
    pub status: Status,
    /// Why it was refused; none where it came to what it has to write.
    pub refusal: Option<Refusal>,
}
