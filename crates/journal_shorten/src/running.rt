//! The top call: from the words and the disks of two journals to the sink's bytes, a status, and the
//! disks.
ghost use Rattle.std.specs.Prelude.{◌≡◌, ℕ, List, true};
ghost use Rattle.bench_edges.specs.Words.{texts};
ghost use Rattle.bench_edges.specs.declared.status.Status.TheVariants as status;
ghost use Rattle.shared_words.specs.Counts.{Rose};
ghost use Rattle.program_edges.specs.Answers.{TakesOutput};
ghost use Rattle.journal_shorten.specs.Runs.{DoesTask, Runs, RunsShorten, Takes};
ghost use Rattle.journal_shorten.specs.Texts.{answer_line};
ghost use Rattle.journal_shorten.specs.Words.{Says};
ghost use Rattle.journal_shorten.specs.declared.words.Task.TheVariants as task;

use crate::ended::{Answer, Ended};
use crate::refusals::ShortenRefusal;
use crate::texts::answer_line;
use crate::words::{Task, read_words};
use bench_disk::Disk;
use bench_edges::{Sink, Status, write_all};
use journal_shortening::{choose, compact};
use program_edges::refuse;
use std::alloc::Global;

/// Makes the second journal stand for the first.
#[tactic(auto, using(crate::proofs::TaskLemmas::stays_looked))]
fn shortened<A: Disk, B: Disk>(
    alloc: Global,
    from: A,
    into: B,
) -> (Result<Answer, ShortenRefusal>, A, B)
    ensures { (words : List (List ℕ)) → Says words task.Shorten →
        DoesTask A.Disk B.Disk words from result.1 into result.2 result.0 }
{
    let mut from = from;
    match compact(alloc, &mut from, into) {
        Ok((into, sizes)) => (Ok(Answer::Shorter(sizes)), from, into),
        Err((into, refusal)) => (Err(ShortenRefusal::from(refusal)), from, into),
    }
}

/// Tells which of two journals counts.
#[tactic(auto, using(crate::proofs::TaskLemmas::stays_looked, crate::proofs::TaskLemmas::stays_unasked))]
fn chosen<A: Disk, B: Disk>(
    alloc: Global,
    from: A,
    into: B,
) -> (Result<Answer, ShortenRefusal>, A, B)
    ensures { (words : List (List ℕ)) → Says words task.Which →
        DoesTask A.Disk B.Disk words from result.1 into result.2 result.0 }
{
    let (mut from, mut into) = (from, into);
    match choose(alloc, &mut from, &mut into) {
        Ok(chosen) => (Ok(Answer::Chosen(chosen)), from, into),
        Err(refusal) => (Err(ShortenRefusal::from(refusal)), from, into),
    }
}

/// Does what the words say with two journals, and hands their disks back.
fn done<A: Disk, B: Disk>(
    alloc: Global,
    words: &[&str],
    from: A,
    into: B,
) -> (Result<Answer, ShortenRefusal>, A, B)
    ensures { DoesTask A.Disk B.Disk (texts words.now) from result.1 into result.2 result.0 }
{
    match read_words(words) {
        Ok(Task::Shorten) => shortened(alloc, from, into),
        Ok(Task::Which) => chosen(alloc, from, into),
        Err(refusal) => (Err(ShortenRefusal::from(refusal)), from, into),
    }
}

/// Writes the line of what a run came to, and answers its status.
fn write_line<K: Sink>(answer: &Answer, sink: &mut K) -> Status
    ensures taken { TakesOutput result (answer_line answer.now) true
        (K.taken sink.old) (K.taken sink.new) }
    ensures write { result ≡ status.Write → Rose (K.faults sink.old) (K.faults sink.new) }
{
    match write_all(sink, answer_line(answer).as_bytes()) {
        Ok(()) => Status::Done,
        Err(_) => Status::Write,
    }
}

/// Writes what the run came to, or the line of its refusal.
fn write_ended<K: Sink>(answer: Result<Answer, ShortenRefusal>, sink: &mut K) -> Ended
    ensures answer { result.answer ≡ answer }
    ensures takes { Takes answer result.status (K.taken sink.old) (K.taken sink.new)
        (K.faults sink.old) (K.faults sink.new) }
    ensures write { result.status ≡ status.Write → Rose (K.faults sink.old) (K.faults sink.new) }
{
    let status = match &answer {
        Ok(answer) => write_line(answer, sink),
        Err(refusal) => refuse(refusal, sink),
    };
    Ended { status, answer }
}

/// Does what the words say with two journals, and hands out how the run ended, and their disks. It is
/// [`shorten`], but that it says what the run came to, or why it was refused.
pub fn run<A: Disk, B: Disk, K: Sink>(
    alloc: Global,
    words: &[&str],
    from: A,
    into: B,
    sink: &mut K,
) -> (Ended, A, B)
    ensures { Runs A.Disk B.Disk K.Sink (texts words.now) from result.1 into result.2
        sink.old sink.new result.0.status result.0.answer }
{
    let (answer, from, into) = done(alloc, words, from, into);
    (write_ended(answer, sink), from, into)
}

/// Does what the words say with two journals: `shorten` makes the second one, which has to be fresh,
/// stand for the first, and `which` tells which of them counts. `from` is read alone, and `into` is
/// written by `shorten` alone. Answers the status, and hands the disks back.
///
/// Writes `roots R records X to Y`, with the numbers of the roots and of the records of both; or
/// `old` or `new`; or the line of a refusal.
pub fn shorten<A: Disk, B: Disk, K: Sink>(
    alloc: Global,
    words: &[&str],
    from: A,
    into: B,
    sink: &mut K,
) -> (Status, A, B)
    ensures { RunsShorten A.Disk B.Disk K.Sink (texts words.now) from result.1 into result.2
        sink.old sink.new result.0 }
{
    let (ended, from, into) = run(alloc, words, from, into, sink);
    (ended.status, from, into)
}
