//! A game of an archive, played on a draft.
ghost use Rattle.std.specs.Prelude.{◌≡◌, OnOk, IfNone, IfOk, IfSome, Option, Some, map};
ghost use Rattle.draughts_board.specs.Board.{Board};
ghost use Rattle.strict_games.specs.Drafts.{begins, led_to};
ghost use Rattle.game_reader.specs.Drafting.{BeginsAs, IsDraftedAs, IsNoteAmong, IsNoteIn, squares_of};
ghost use Rattle.game_reader.specs.Scores.{score_of, score_of_outcome};
ghost use Rattle.archive_records.specs.declared.notes.NoteKind.TheVariants as kinds;

use archive_games::{ArchiveGame, ArchiveMove, ArchiveTag, FoundPosition, Note, NoteKind, Outcome};
use archive_words::{GameKind, game_kind};
use draughts_board::{Position, ResolveRefusal};
use fen_text::read_fen;
use std::alloc::{AllocError, Global};
use strict_games::{Draft, Score, TagRefusal};

/// The draft of a game that begins where the game does, without its tags and moves; none where its
/// position is no FEN.
fn begun(alloc: Global, position: &Option<FoundPosition>) -> Option<Draft>
    ensures { IfSome result (λ draft. BeginsAs position.now draft.set_up
        × (draft.here ≡ begins draft.set_up)) }
{
    match position {
        None => Some(Draft::new(alloc, None)),
        Some(found) => match read_fen(&found.fen) {
            Ok(p) => Some(Draft::new(alloc, Some(p))),
            Err(_) => None,
        },
    }
}

/// The value of a tag `GameType` names another game than English draughts.
fn is_other_game(value: &[u8]) -> bool {
    matches!(game_kind(value), GameKind::Other)
}

/// Adds the tags that the strict profile allows, but `FEN`. A `GameType` in words that it does not
/// have is left out. Answers false where one names another game than English draughts.
fn add_tags(draft: &mut Draft, tags: &[ArchiveTag]) -> Result<bool, AllocError>
    ensures same { OnOk result (draft.new.set_up ≡ draft.old.set_up) }
    ensures here { OnOk result (draft.new.here ≡ draft.old.here) }
{
    for tag in tags {
        match draft.tag(&tag.name, &tag.value) {
            Ok(()) | Err(TagRefusal::Name) | Err(TagRefusal::SetUp) => {}
            Err(TagRefusal::OtherGame) if is_other_game(&tag.value) => return Ok(false),
            Err(TagRefusal::OtherGame) => {}
            Err(TagRefusal::Memory(error)) => return Err(error),
        }
    }
    Ok(true)
}

/// Plays the moves one after another. Answers the note on the first that is not legal or may be
/// several.
#[tactic(auto, using(crate::proofs::Playing::led_more, crate::proofs::Playing::at_move))]
fn play_all(draft: &mut Draft, moves: &[ArchiveMove]) -> Result<Option<Note>, AllocError>
    ensures played { IfOk result (λ note. IfNone note
        (led_to (Some draft.old.here) (map squares_of moves.now) ≡ Some draft.new.here)) }
    ensures place { IfOk result (λ note. IfSome note (IsNoteAmong moves.now)) }
    ensures same { OnOk result (draft.new.set_up ≡ draft.old.set_up) }
{
    draft.reserve(moves.len())?;
    for (i, written) in moves.iter().enumerate() {
        let ply = i as u64 + 1;
        let kind = match draft.play_written(&written.squares) {
            Ok(()) => continue,
            Err(ResolveRefusal::Illegal) => NoteKind::IllegalMove { ply },
            Err(ResolveRefusal::Ambiguous(_, _)) => NoteKind::SeveralMoves { ply },
            Err(ResolveRefusal::Memory(error)) => return Err(error),
        };
        return Ok(Some(Note {
            place: written.place,
            kind,
        }));
    }
    Ok(None)
}

/// What is made of a game.
pub enum DraftOutcome {
    /// It can be written.
    Whole(Draft),
    /// It cannot be, for this cause.
    LeftOut(Note),
}

/// The game as it is written: begun where the archive says, with the tags that the strict profile
/// allows, and its first `plies` moves played one after another; or why it is left out. It depends
/// on this game alone.
pub fn drafted(alloc: Global, game: &ArchiveGame, plies: usize) -> Result<DraftOutcome, AllocError>
    ensures { IfOk result (IsDraftedAs plies game.now) }
{
    let moves = game.moves.get(..plies).unwrap_or(&game.moves);
    let Some(mut draft) = begun(alloc, &game.position) else {
        return Ok(DraftOutcome::LeftOut(note_on(game, NoteKind::BadPosition)));
    };
    if !add_tags(&mut draft, &game.tags)? {
        return Ok(DraftOutcome::LeftOut(note_on(game, NoteKind::OtherGame)));
    }
    match play_all(&mut draft, moves)? {
        Some(note) => Ok(DraftOutcome::LeftOut(note)),
        None => Ok(DraftOutcome::Whole(draft)),
    }
}

/// The note on a game whose own position is no FEN.
pub fn position_fault(alloc: Global, game: &ArchiveGame) -> Option<Note>
    ensures kind { IfSome result (λ note. note.kind ≡ kinds.BadPosition) }
    ensures place { IfSome result (IsNoteIn game.now) }
    ensures none { IfNone result ((set_up : Option Board) × BeginsAs game.now.position set_up) }
{
    match begun(alloc, &game.position) {
        Some(_) => None,
        None => Some(note_on(game, NoteKind::BadPosition)),
    }
}

/// A note on a game as a whole, at its position, if it has one of its own, or its beginning.
fn note_on(game: &ArchiveGame, kind: NoteKind) -> Note
    ensures kind { result.kind ≡ kind }
    ensures place { IsNoteIn game.now result }
{
    let place = match &game.position {
        Some(found) => found.place,
        None => game.begins,
    };
    Note { place, kind }
}

/// The result as the strict profile writes it: `*` where words alone name who won.
pub fn score_of(game: &ArchiveGame) -> Score
    ensures { result ≡ score_of game.now.result }
{
    match &game.result {
        None => Score::Unknown,
        Some(found) => score_of_outcome(found.outcome),
    }
}

/// The outcome as the strict profile writes it.
fn score_of_outcome(outcome: Outcome) -> Score
    ensures { result ≡ score_of_outcome outcome }
{
    match outcome {
        Outcome::FirstWins => Score::OneNil,
        Outcome::SecondWins => Score::NilOne,
        Outcome::Draw => Score::Halves,
        Outcome::BlackWins => Score::Unknown,
        Outcome::WhiteWins => Score::Unknown,
        Outcome::Unfinished => Score::Unknown,
    }
}
