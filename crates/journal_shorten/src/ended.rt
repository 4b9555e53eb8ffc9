//! How a run ended.
use crate::refusals::ShortenRefusal;
use bench_edges::Status;
use journal_shortening::{Chosen, Sizes};

/// What a run came to.
#[derive(Clone, Copy, Debug, PartialEq, Eq)]
pub enum Answer {
    /// The second journal stands for the first, and these are their numbers.
    Shorter(Sizes),
    /// This journal counts.
    Chosen(Chosen),
}

/// How a run ended, and what a person may be told of it.
#[derive(Clone, Copy, Debug, PartialEq, Eq)]
pub struct Ended {
    pub status: Status,
    /// What it came to, or why it was refused.
    pub answer: Result<Answer, ShortenRefusal>,
}
