//! The top call: from the words and the source's bytes to the sink's bytes, a status, and the disk.
ghost use Rattle.std.specs.Prelude.{◌≡◌, Some};
ghost use Rattle.bench_edges.specs.Words.{texts};
ghost use Rattle.opening_report.specs.Refusals.{refusal_text};
ghost use Rattle.program_edges.specs.Answers.{TakesLine};
ghost use Rattle.program_edges.specs.Statuses.{status_of};
ghost use Rattle.strategy_player.specs.Runs.{HandsOut, RunsPlay};
ghost use Rattle.strategy_player.specs.declared.refusals.PlayRefusal.TheVariants as refusals;

use crate::ended::Ended;
use crate::refusals::PlayRefusal;
use crate::roots::played_root;
use crate::words::read_words;
use bench_disk::Disk;
use bench_edges::{Sink, Source, Status};
use opening_report::Refusal;
use program_edges::{hand_back, read_source, refuse, write_answer};
use std::alloc::Global;

/// The longest source, in bytes.
pub const MOST_SOURCE_BYTES: usize = 1_048_576;

/// Writes the line of a refusal that comes before the play.
fn refused<K: Sink>(cause: Refusal, sink: &mut K) -> Ended
    ensures status { result.status ≡ status_of cause }
    ensures refusal { result.refusal ≡ Some (refusals.Run cause) }
    ensures line { TakesLine (refusal_text cause) (K.taken sink.old) (K.taken sink.new)
        (K.faults sink.old) (K.faults sink.new) }
{
    let refusal = PlayRefusal::from(cause);
    Ended {
        status: refuse(&refusal, sink),
        refusal: Some(refusal),
    }
}

/// Plays what the words say, on the journal of the disk, and hands out how the run ended, and the
/// disk. It is [`play`], but that it says of a refused run why it was refused.
pub fn run<S: Source, K: Sink, D: Disk>(
    alloc: Global,
    words: &[&str],
    source: &mut S,
    sink: &mut K,
    disk: D,
) -> (Ended, D)
    ensures runs { RunsPlay S.Source K.Sink D.Disk (texts words.now)
        source.old source.new sink.old sink.new disk result.1 result.0.status }
    ensures ended { HandsOut S.Source K.Sink D.Disk (texts words.now)
        source.old source.new sink.old sink.new disk result.1
        result.0.status result.0.refusal }
{
    let request = match read_words(words) {
        Ok(request) => request,
        Err(cause) => return (refused(Refusal::from(cause), sink), disk),
    };
    let bytes = match read_source(alloc, Some(MOST_SOURCE_BYTES), source) {
        Ok(bytes) => bytes,
        Err(cause) => return (refused(cause, sink), disk),
    };
    let mut disk = disk;
    let answer = played_root(alloc, request, &bytes, &mut disk);
    hand_back(Some(MOST_SOURCE_BYTES), bytes, source);
    let (status, refusal) = write_answer(answer, sink);
    (Ended { status, refusal }, disk)
}

/// Plays one side of a root of a journal by the certificate of its value, against the moves of the
/// source, and hands the disk back. The journal is read and not written.
///
/// The words are the journal's path, the number of the root, and `black` or `white`. Each line of the
/// source is one move of the other side. Written is the root's position, a line for each move of the
/// side, and at the end `won` where the other side has no legal move, or the position where it is to
/// move and the source ended. A refused run writes one line that says why.
pub fn play<S: Source, K: Sink, D: Disk>(
    alloc: Global,
    words: &[&str],
    source: &mut S,
    sink: &mut K,
    disk: D,
) -> (Status, D)
    ensures { RunsPlay S.Source K.Sink D.Disk (texts words.now)
        source.old source.new sink.old sink.new disk result.1 result.0 }
{
    let (ended, disk) = run(alloc, words, source, sink, disk);
    (ended.status, disk)
}
