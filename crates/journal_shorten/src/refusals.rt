//! Why a run is refused, and the line that says so.
ghost use Rattle.std.specs.Prelude.{◌≡◌};
ghost use Rattle.opening_report.specs.Lines.{IsLine};
ghost use Rattle.journal_shorten.specs.Refusals.{journal_status, journal_text, not_fresh_line, shorten_status, shorten_text};
ghost use Rattle.journal_shorten.specs.declared.refusals.ShortenRefusal.TheVariants as refusals;

use arrayvec::ArrayString;
use bench_edges::{Status, WordsRefusal};
use itoa::Buffer;
use journal_shortening::CompactRefusal;
use opening_report::{Refusal, refusal_line};
use program_edges::Refused;

/// Why a run is refused.
#[derive(Clone, Copy, Debug, PartialEq, Eq)]
pub enum ShortenRefusal {
    /// The words ask for nothing.
    Words(WordsRefusal),
    /// A journal is refused, a disk failed, or memory ran out.
    Journal(CompactRefusal),
}

impl From<WordsRefusal> for ShortenRefusal {
    ghost from_gives = { λ cause refusal. refusal ≡ refusals.Words cause };

    /// The words ask for nothing.
    fn from(cause: WordsRefusal) -> ShortenRefusal {
        ShortenRefusal::Words(cause)
    }
}

impl From<CompactRefusal> for ShortenRefusal {
    ghost from_gives = { λ cause refusal. refusal ≡ refusals.Journal cause };

    /// No second journal is written, or none of the two is chosen.
    fn from(cause: CompactRefusal) -> ShortenRefusal {
        ShortenRefusal::Journal(cause)
    }
}

/// The line on a second journal that has bytes.
fn not_fresh_line(length: u64) -> ArrayString<128>
    ensures bytes { result.bytes ≡ not_fresh_line length }
    ensures line { IsLine (not_fresh_line length) }
{
    let mut line = ArrayString::new();
    let mut buffer = Buffer::new();
    line.push_str("refused journal not-fresh ");
    line.push_str(buffer.format(length));
    line.push_str("\n");
    line
}

/// The line on a journal.
fn journal_line(cause: &CompactRefusal) -> ArrayString<128>
    ensures bytes { result.bytes ≡ journal_text cause.now }
    ensures line { IsLine (journal_text cause.now) }
{
    match *cause {
        CompactRefusal::FromDisk => refusal_line(&Refusal::Disk),
        CompactRefusal::NotAJournal => refusal_line(&Refusal::NotAJournal),
        CompactRefusal::Damaged(at) => refusal_line(&Refusal::Damaged(at)),
        CompactRefusal::IntoDisk => refusal_line(&Refusal::Disk),
        CompactRefusal::NotFresh(length) => not_fresh_line(length),
        CompactRefusal::Memory(_) => refusal_line(&Refusal::Memory),
    }
}

/// The status of a run that a journal ends.
fn journal_status(cause: &CompactRefusal) -> Status
    ensures { result ≡ journal_status cause.now }
{
    match cause {
        CompactRefusal::FromDisk => Status::Disk,
        CompactRefusal::NotAJournal => Status::Journal,
        CompactRefusal::Damaged(_) => Status::Journal,
        CompactRefusal::IntoDisk => Status::Disk,
        CompactRefusal::NotFresh(_) => Status::Journal,
        CompactRefusal::Memory(_) => Status::Memory,
    }
}

impl Refused for ShortenRefusal {
    ghost line_of = { shorten_text };

    ghost status_of = { shorten_status };

    fn line(&self) -> ArrayString<128> {
        match self {
            ShortenRefusal::Words(words) => refusal_line(&Refusal::from(*words)),
            ShortenRefusal::Journal(cause) => journal_line(cause),
        }
    }

    fn status(&self) -> Status {
        match self {
            ShortenRefusal::Words(_) => Status::Words,
            ShortenRefusal::Journal(cause) => journal_status(cause),
        }
    }
}
