//! The lines of notes, each at a place of what was read.
ghost use Rattle.std.specs.Prelude.{◌≡◌, ◌≤◌, ℕ, IfOk, OnOk};
ghost use Rattle.archive_records.specs.Inside.{IsGameWithin};
ghost use Rattle.game_reader.specs.Listing.{SaysGame, StillTells, TellsWithin};
ghost use Rattle.game_reader.specs.Reading.{bytes_read};

use crate::archive::Archive;
use crate::telling::{Counts, game_text, say_note};
use archive_games::{ArchiveGame, Note, Weight};
use std::alloc::{AllocError, Global};

/// Appends the line of a note, unless it tells a change and those are not told.
fn say_told(
    alloc: Global,
    lines: &mut Vec<u8>,
    of_game: &[u8],
    note: &Note,
    tells_changes: bool,
) -> Result<(), AllocError>
    requires { SaysGame of_game.now }
    ensures { OnOk result (StillTells note.now lines.old.items lines.new.items) }
{
    if tells_changes || note.kind.weight() != Weight::Change {
        say_note(alloc, lines, of_game, note)?;
    }
    Ok(())
}

/// The lines of the game's notes of this weight or more, in the order of their places; each note is
/// counted. Which game it is is made out once, and not among all its tags for each note.
pub(crate) fn lines_of(
    alloc: Global,
    game: &mut ArchiveGame,
    counts: &mut Counts,
    tells_changes: bool,
) -> Result<Vec<u8>, AllocError>
    ensures { IfOk result (λ lines. (bytes : ℕ) → IsGameWithin bytes game.old
        → TellsWithin bytes lines.items) }
{
    game.notes.sort_by_key(|note| note.place.byte)?;
    let of_game = game_text(alloc, game)?;
    let mut lines = Vec::new(alloc);
    for note in game.notes.iter() {
        counts.note(note.kind);
        say_told(alloc, &mut lines, &of_game, note, tells_changes)?;
    }
    Ok(lines)
}

/// The lines of the notes that stand behind the last game.
#[tactic(auto, using(crate::proofs::Told::says_none))]
pub(crate) fn last_lines(
    alloc: Global,
    archive: &mut Archive,
    counts: &mut Counts,
) -> Result<Vec<u8>, AllocError>
    ensures told { IfOk result (λ lines. TellsWithin (bytes_read archive.old) lines.items) }
    ensures read { bytes_read archive.new ≡ bytes_read archive.old }
{
    let mut lines = Vec::new(alloc);
    let notes = archive.notes_left();
    for note in notes.iter() {
        counts.note(note.kind);
        say_told(alloc, &mut lines, b"", note, true)?;
    }
    Ok(lines)
}
