//! What the commands do with each game of an archive.
ghost use Rattle.std.specs.Prelude.{IfOk, IfSome, OnOk};
ghost use Rattle.game_reader.specs.Drafting.{StaysWithin};
ghost use Rattle.game_reader.specs.Listing.{Lists};
ghost use Rattle.game_reader.specs.Writing.{IsOneText, WritesGames};

use crate::archive::{Archive, ArchiveRefusal, MOST_STEPS};
use crate::drafting::{DraftOutcome, drafted, position_fault, score_of};
use crate::listing::{last_lines, lines_of};
use crate::seen::Seen;
use crate::telling::{Counts, say_parts};
use archive_games::{ArchiveGame, Note, NoteKind};
use bench_edges::{Sink, SinkFault, Source, write_all};
use std::alloc::{AllocError, Global};
use strict_games::{Draft, Layout, OpeningGroups, group_text};
use thiserror::Error;

/// How many plies a game has at most for [`drafted`]: all.
pub const ALL_PLIES: usize = usize::MAX;

/// How many games `solve` reads of one source, which is how many one part has.
pub const PART: u64 = 4096;

/// Why a command did not come to its end.
#[derive(Debug, Drop, Error)]
pub enum RunRefusal {
    /// The archive was not read to its end.
    #[error("{0}")]
    Archive(ArchiveRefusal),
    /// The sink failed.
    #[error("the sink failed")]
    Write(SinkFault),
}

impl From<ArchiveRefusal> for RunRefusal {
    fn from(refusal: ArchiveRefusal) -> RunRefusal {
        RunRefusal::Archive(refusal)
    }
}

impl From<AllocError> for RunRefusal {
    fn from(error: AllocError) -> RunRefusal {
        RunRefusal::Archive(ArchiveRefusal::Memory(error))
    }
}

impl From<SinkFault> for RunRefusal {
    fn from(fault: SinkFault) -> RunRefusal {
        RunRefusal::Write(fault)
    }
}

/// What is known of the games so far.
#[derive(Drop)]
struct Tally {
    counts: Counts,
    seen: Seen,
    /// How many games were written, or would have been where only a part is asked.
    written: u64,
}

impl Tally {
    fn new(alloc: Global) -> Tally {
        Tally {
            counts: Counts::new(),
            seen: Seen::new(alloc),
            written: 0,
        }
    }
}

/// The game numbered so among those that can be written, from 0, belongs to the part that is asked,
/// from 1; if none is asked every game does.
fn is_in_part(number: u64, part: Option<u64>) -> bool {
    match part {
        None => true,
        Some(part) => number / PART == part.saturating_sub(1),
    }
}

/// The game's draft after its first `plies` moves. Where it cannot be written there is none, and its
/// notes say why.
fn judged(alloc: Global, game: &mut ArchiveGame, plies: usize) -> Result<Option<Draft>, AllocError>
    ensures { OnOk result (StaysWithin game.old game.new) }
{
    if game.is_left_out {
        if let Some(note) = position_fault(alloc, game) {
            game.notes.push(note)?;
        }
        return Ok(None);
    }
    match drafted(alloc, game, plies)? {
        DraftOutcome::Whole(draft) => Ok(Some(draft)),
        DraftOutcome::LeftOut(note) => {
            game.notes.push(note)?;
            Ok(None)
        }
    }
}

/// The game's text, if it can be written. Where it is the same game as an earlier one, a note says so.
#[tactic(auto, using(crate::proofs::Written::one_text))]
fn text_of(
    alloc: Global,
    game: &mut ArchiveGame,
    seen: &mut Seen,
) -> Result<Option<Vec<u8>>, AllocError>
    ensures text { IfOk result (λ found. IfSome found (λ text. IsOneText text.items)) }
    ensures within { OnOk result (StaysWithin game.old game.new) }
{
    let Some(draft) = judged(alloc, game, ALL_PLIES)? else {
        return Ok(None);
    };
    let score = score_of(game);
    let text = draft.text(score, Layout::Lines)?;
    if let Some(first) = seen.first_same(alloc, &draft, score, game.number)? {
        game.notes.push(Note {
            place: game.begins,
            kind: NoteKind::SameGame { first },
        })?;
    }
    Ok(Some(text))
}

/// `check`: the lines of all faults and doubtful readings, and a line that counts.
pub fn check<S: Source, K: Sink>(
    alloc: Global,
    source: &mut S,
    sink: &mut K,
) -> Result<Counts, RunRefusal>
    ensures { IfOk result (Lists (S.left source.old) (S.left source.new)
        (K.taken sink.old) (K.taken sink.new)) }
{
    let mut archive = Archive::new(alloc)?;
    let mut tally = Tally::new(alloc);
    'games: for _ in 0..MOST_STEPS {
        let Some(mut game) = archive.next(source)? else {
            let mut lines = last_lines(alloc, &mut archive, &mut tally.counts)?;
            tally.counts.say(&mut lines)?;
            write_all(sink, &lines)?;
            return Ok(tally.counts);
        };
        let is_written = text_of(alloc, &mut game, &mut tally.seen)?.is_some();
        tally.counts.game(is_written);
        let lines = lines_of(alloc, &mut game, &mut tally.counts, false)?;
        write_all(sink, &lines)?;
    }
    Err(RunRefusal::Archive(ArchiveRefusal::TooLong))
}

/// Writes one game, if it can be written and belongs to the part, and tells of it.
#[tactic(auto, using(crate::proofs::Written::writes_none, crate::proofs::Written::writes_one))]
fn write_game<K: Sink, N: Sink>(
    alloc: Global,
    game: &mut ArchiveGame,
    sink: &mut K,
    told: &mut N,
    tally: &mut Tally,
    part: Option<u64>,
) -> Result<(), RunRefusal>
    ensures { OnOk result (WritesGames (K.taken sink.old) (K.taken sink.new)) }
{
    let text = text_of(alloc, game, &mut tally.seen)?;
    tally.counts.game(text.is_some());
    let lines = lines_of(alloc, game, &mut tally.counts, true)?;
    let _ = write_all(told, &lines);
    if let Some(bytes) = text {
        let number = tally.written;
        tally.written = number.saturating_add(1);
        if is_in_part(number, part) {
            write_all(sink, &bytes)?;
        }
    }
    Ok(())
}

/// `write`: the games that can be read, in the strict profile, one behind the other. What was left
/// out and what was changed is told.
#[tactic(auto, using(crate::proofs::Written::writes_none, crate::proofs::Written::writes_more))]
pub fn write<S: Source, K: Sink, N: Sink>(
    alloc: Global,
    source: &mut S,
    sink: &mut K,
    told: &mut N,
    part: Option<u64>,
) -> Result<Counts, RunRefusal>
    ensures { OnOk result (WritesGames (K.taken sink.old) (K.taken sink.new)) }
{
    let mut archive = Archive::new(alloc)?;
    let mut tally = Tally::new(alloc);
    'games: for _ in 0..MOST_STEPS {
        let Some(mut game) = archive.next(source)? else {
            let lines = last_told(alloc, &mut archive, &mut tally, part)?;
            let _ = write_all(told, &lines);
            return Ok(tally.counts);
        };
        write_game(alloc, &mut game, sink, told, &mut tally, part)?;
    }
    Err(RunRefusal::Archive(ArchiveRefusal::TooLong))
}

/// What is told behind the last game: its notes, the counts, and that there are more games than
/// `solve` reads of one source.
fn last_told(
    alloc: Global,
    archive: &mut Archive,
    tally: &mut Tally,
    part: Option<u64>,
) -> Result<Vec<u8>, AllocError> {
    let mut lines = last_lines(alloc, archive, &mut tally.counts)?;
    tally.counts.say(&mut lines)?;
    if part.is_none() && tally.written > PART {
        say_parts(&mut lines, tally.written)?;
    }
    Ok(lines)
}

/// Gathers the openings of all games, and tells of those that have none.
fn gather<S: Source, N: Sink>(
    alloc: Global,
    source: &mut S,
    told: &mut N,
    tally: &mut Tally,
    plies: usize,
) -> Result<OpeningGroups, RunRefusal> {
    let mut archive = Archive::new(alloc)?;
    let mut groups = OpeningGroups::new(alloc);
    for _ in 0..MOST_STEPS {
        let Some(mut game) = archive.next(source)? else {
            let lines = last_lines(alloc, &mut archive, &mut tally.counts)?;
            let _ = write_all(told, &lines);
            return Ok(groups);
        };
        let draft = judged(alloc, &mut game, plies)?;
        tally.counts.game(draft.is_some());
        let lines = lines_of(alloc, &mut game, &mut tally.counts, false)?;
        let _ = write_all(told, &lines);
        if let Some(draft) = draft {
            let Ok(number) = u32::try_from(game.number) else {
                return Err(RunRefusal::Archive(ArchiveRefusal::TooLong));
            };
            groups.add(draft.position(), number)?;
        }
    }
    Err(RunRefusal::Archive(ArchiveRefusal::TooLong))
}

/// Writes the game of one line of the group at this place, from 0.
#[tactic(auto, using(crate::proofs::Written::writes_none, crate::proofs::Written::writes_group))]
fn write_group<K: Sink>(
    alloc: Global,
    sink: &mut K,
    groups: &OpeningGroups,
    place: usize,
) -> Result<(), RunRefusal>
    ensures { OnOk result (WritesGames (K.taken sink.old) (K.taken sink.new)) }
{
    if let Some((position, games)) = groups.group(place) {
        let text = group_text(alloc, &position, games)?;
        write_all(sink, &text)?;
    }
    Ok(())
}

/// Writes a game of one line for each group of the part that is asked.
#[tactic(auto, using(crate::proofs::Written::writes_none, crate::proofs::Written::writes_more))]
fn write_groups<K: Sink>(
    alloc: Global,
    sink: &mut K,
    groups: &OpeningGroups,
    part: Option<u64>,
) -> Result<(), RunRefusal>
    ensures { OnOk result (WritesGames (K.taken sink.old) (K.taken sink.new)) }
{
    for place in 0..groups.len() {
        if !is_in_part(place as u64, part) {
            continue;
        }
        write_group(alloc, sink, groups, place)?;
    }
    Ok(())
}

/// `openings`: a game of one line for each distinct position that the first `plies` moves of the
/// games lead to, with a tag that lists these games. The games that have none are told.
pub fn openings<S: Source, K: Sink, N: Sink>(
    alloc: Global,
    source: &mut S,
    sink: &mut K,
    told: &mut N,
    plies: usize,
    part: Option<u64>,
) -> Result<Counts, RunRefusal>
    ensures { OnOk result (WritesGames (K.taken sink.old) (K.taken sink.new)) }
{
    let mut tally = Tally::new(alloc);
    let groups = gather(alloc, source, told, &mut tally, plies)?;
    write_groups(alloc, sink, &groups, part)?;
    let mut lines = Vec::new(alloc);
    tally.counts.say(&mut lines)?;
    if part.is_none() && groups.len() as u64 > PART {
        say_parts(&mut lines, groups.len() as u64)?;
    }
    let _ = write_all(told, &lines);
    Ok(tally.counts)
}
