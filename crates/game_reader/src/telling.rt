//! What is told of an archive, a line for each note.
ghost use Rattle.std.specs.Prelude.{◌≡◌, ◌≤◌, ◌++◌, ℕ, List, IfOk, OnOk, length, option_copied, take};
ghost use Rattle.archive_records.specs.Weights.{weight_of};
ghost use Rattle.game_reader.specs.Telling.{IsNoteLine, counts_text, game_text, note_front, parts_text, tag_named, value_text, word_of};

use archive_games::{ArchiveGame, ArchiveTag, Note, NoteKind, Weight};
use std::alloc::{AllocError, Global};
use terminal_text::{quote, say, say_number};

/// How many bytes of a tag's value are told.
const MOST_SHOWN: usize = 64;

/// The first bytes, at most `most`.
fn first_bytes(value: &[u8], most: usize) -> &[u8]
    ensures value { result.now ≡ take most value.now }
    ensures inside { length result.now ≤ length value.now }
{
    value.get(..most).unwrap_or(value)
}

/// The first tag of this name, if the game has one.
fn tag_named<'a>(game: &'a ArchiveGame, name: &[u8]) -> Option<&'a ArchiveTag>
    ensures { option_copied result ≡ tag_named game.now name.now }
{
    game.tags.iter().find(|tag| tag.name.as_slice() == name)
}

/// Appends the first bytes of the value of the first tag of this name; `?` if the game has none. Bytes
/// that are not printable ASCII are escaped.
fn say_value(text: &mut Vec<u8>, game: &ArchiveGame, name: &[u8]) -> Result<(), AllocError>
    ensures { OnOk result (text.new.items ≡ text.old.items ++ value_text game.now name.now) }
{
    match tag_named(game, name) {
        Some(tag) => quote(text, first_bytes(&tag.value, MOST_SHOWN)),
        None => quote(text, b"?"),
    }
}

/// Which game it is: `, game 3 (Club, Ann - Bob)`.
pub fn game_text(alloc: Global, game: &ArchiveGame) -> Result<Vec<u8>, AllocError>
    ensures { IfOk result (λ text. text.items ≡ game_text game.now) }
{
    let mut text = Vec::new(alloc);
    say_number(&mut text, ", game ", game.number, " (")?;
    say_value(&mut text, game, b"Event")?;
    say(&mut text, ", ")?;
    say_value(&mut text, game, b"Black")?;
    say(&mut text, " - ")?;
    say_value(&mut text, game, b"White")?;
    say(&mut text, ")")?;
    Ok(text)
}

/// The word for what becomes of a game.
fn word_of(weight: Weight) -> &'static str
    ensures { result.now ≡ word_of weight }
{
    match weight {
        Weight::Fault => ": left out: ",
        Weight::Doubt => ": doubtful: ",
        Weight::Change => ": changed: ",
    }
}

/// Appends the front of a note's line, up to the words of its kind.
fn say_front(text: &mut Vec<u8>, of_game: &[u8], note: &Note) -> Result<(), AllocError>
    ensures { OnOk result (text.new.items ≡ text.old.items ++ note_front of_game.now note.now) }
{
    say_number(text, "line ", note.place.line, "")?;
    say_number(text, ", column ", note.place.column, "")?;
    text.extend_from_slice(of_game)?;
    say(text, word_of(note.kind.weight()))
}

/// Appends the words of a kind of notes.
fn say_kind(alloc: Global, text: &mut Vec<u8>, kind: NoteKind) -> Result<(), AllocError>
    ensures { OnOk result ((words : List ℕ) × (text.new.items ≡ text.old.items ++ words)) }
{
    let words = format!(in alloc; "{kind}")?;
    say(text, &words)?;
    Ok(())
}

/// Appends the line of a note: `line 2, column 9, game 3 (Club, Ann - Bob): left out: ..`. Which game
/// it is stands in `of_game`, as [`game_text`] writes it; of no game that is empty.
pub fn say_note(
    alloc: Global,
    text: &mut Vec<u8>,
    of_game: &[u8],
    note: &Note,
) -> Result<(), AllocError>
    ensures { OnOk result ((line : List ℕ) × (IsNoteLine of_game.now note.now line
        × (text.new.items ≡ text.old.items ++ line))) }
{
    say_front(text, of_game, note)?;
    say_kind(alloc, text, note.kind)?;
    say(text, "\n")?;
    Ok(())
}

/// How many games there were, what became of them, and how many notes of each weight.
#[derive(Clone, Copy, Debug)]
pub struct Counts {
    pub games: u64,
    pub left_out: u64,
    pub faults: u64,
    pub doubts: u64,
    pub changes: u64,
}

impl Counts {
    ghost use Rattle.std.specs.Prelude.{◌≡◌, ◌==◌, ◌&&◌};
    ghost use Rattle.game_reader.specs.Counting.{no_counts, with_game, with_note};

    /// Nothing counted.
    pub fn new() -> Counts
        ensures { result ≡ no_counts }
    {
        Counts {
            games: 0,
            left_out: 0,
            faults: 0,
            doubts: 0,
            changes: 0,
        }
    }

    /// Counts a game.
    pub fn game(&mut self, is_written: bool)
        ensures { self.new ≡ with_game is_written self.old }
    {
        self.games = self.games.saturating_add(1);
        if !is_written {
            self.left_out = self.left_out.saturating_add(1);
        }
    }

    /// Nothing is at fault or doubtful.
    pub fn is_clean(&self) -> bool
        ensures { result ≡ (self.now.faults == 0 && self.now.doubts == 0 && self.now.left_out == 0) }
    {
        self.faults == 0 && self.doubts == 0 && self.left_out == 0
    }

    /// Counts a note.
    pub fn note(&mut self, kind: NoteKind)
        ensures { self.new ≡ with_note (weight_of kind) self.old }
    {
        match kind.weight() {
            Weight::Fault => self.faults = self.faults.saturating_add(1),
            Weight::Doubt => self.doubts = self.doubts.saturating_add(1),
            Weight::Change => self.changes = self.changes.saturating_add(1),
        }
    }

    /// Appends the line that counts: `games 10 left-out 1 faults 1 doubts 3 changes 2`.
    pub fn say(&self, text: &mut Vec<u8>) -> Result<(), AllocError>
        ensures { OnOk result (text.new.items ≡ text.old.items ++ counts_text self.now) }
    {
        say_number(text, "games ", self.games, "")?;
        say_number(text, " left-out ", self.left_out, "")?;
        say_number(text, " faults ", self.faults, "")?;
        say_number(text, " doubts ", self.doubts, "")?;
        say_number(text, " changes ", self.changes, "\n")
    }
}

/// Appends that there are more games than `solve` reads of one source.
pub fn say_parts(text: &mut Vec<u8>, games: u64) -> Result<(), AllocError>
    ensures { OnOk result (text.new.items ≡ text.old.items ++ parts_text games) }
{
    say_number(
        text,
        "",
        games,
        " games are written: solve reads 4096 of one source; ",
    )?;
    say(
        text,
        "give it the parts that --part 1, --part 2 and so on write\n",
    )
}
