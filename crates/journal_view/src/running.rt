//! The top call: from the words to the sink's bytes, a status, and the disk.
ghost use Rattle.std.specs.Prelude.{◌≡◌, Some};
ghost use Rattle.bench_edges.specs.Words.{texts};
ghost use Rattle.opening_report.specs.Refusals.{refusal_text};
ghost use Rattle.program_edges.specs.Answers.{TakesLine};
ghost use Rattle.program_edges.specs.Statuses.{status_of};
ghost use Rattle.journal_view.specs.Runs.{HandsRefusal, RunsView};

use crate::ended::Ended;
use crate::games::games_for;
use crate::shown::shown;
use bench_disk::Disk;
use bench_edges::{Sink, Source, Status};
use opening_report::Refusal;
use program_edges::{refuse, write_answer};
use std::alloc::Global;
use view_words::read_words;

/// Writes the line of a refusal that comes before the journal is read.
fn refused<K: Sink>(refusal: Refusal, sink: &mut K) -> Ended
    ensures status { result.status ≡ status_of refusal }
    ensures refusal { result.refusal ≡ Some refusal }
    ensures line { TakesLine (refusal_text refusal) (K.taken sink.old) (K.taken sink.new)
        (K.faults sink.old) (K.faults sink.new) }
{
    Ended {
        status: refuse(&refusal, sink),
        refusal: Some(refusal),
    }
}

/// Shows what the words ask for, of the journal of the disk, and hands out how the run ended, and the
/// disk. It is [`view`], but that it says of a refused run why it was refused.
pub fn run<S: Source, K: Sink, D: Disk>(
    alloc: Global,
    words: &[&str],
    source: &mut S,
    sink: &mut K,
    disk: D,
) -> (Ended, D)
    ensures runs { RunsView S.Source K.Sink D.Disk (texts words.now) source.old source.new
        sink.old sink.new disk result.1 result.0.status }
    ensures ended { HandsRefusal S.Source K.Sink D.Disk (texts words.now) source.old source.new
        sink.old sink.new disk result.1 result.0.status result.0.refusal }
{
    let request = match read_words(words) {
        Ok(request) => request,
        Err(cause) => return (refused(Refusal::from(cause), sink), disk),
    };
    let games = match games_for(alloc, request, source) {
        Ok(games) => games,
        Err(refusal) => return (refused(refusal, sink), disk),
    };
    let mut disk = disk;
    let answer = shown(alloc, request, &games, &mut disk);
    let (status, refusal) = write_answer(answer, sink);
    (Ended { status, refusal }, disk)
}

/// Shows a journal to a person, and hands its disk back. The journal is read and not written.
///
/// The words are the journal's path and what is asked ([`view_words::read_words`]). For the roots the games
/// of the source are read, of which those that lead to a root stand behind its line; nothing else reads of
/// the source. Written is what is asked, whole, or the one line of a refusal that says why it is not.
pub fn view<S: Source, K: Sink, D: Disk>(
    alloc: Global,
    words: &[&str],
    source: &mut S,
    sink: &mut K,
    disk: D,
) -> (Status, D)
    ensures { RunsView S.Source K.Sink D.Disk (texts words.now) source.old source.new
        sink.old sink.new disk result.1 result.0 }
{
    let (ended, disk) = run(alloc, words, source, sink, disk);
    (ended.status, disk)
}
