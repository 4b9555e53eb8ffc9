//! What has been read: the game that is open, and games that have ended.
ghost use Rattle.std.specs.Prelude.{◌≡◌, ◌≤◌, ◌<◌, ◌==◌, ◌&&◌, [], All, IfNone, IfSome, is_none, length, max, not, true, OnOk};
ghost use Rattle.archive_records.specs.Inside.{IsGameWithin};

use crate::game::{ArchiveGame, ArchiveMove, ArchiveTag, FoundPosition, FoundResult};
use crate::notes::{Note, NoteKind};
use archive_text::Place;
use archive_words::Outcome;
use std::alloc::{AllocError, Global};
use std::collections::VecDeque;
use std::mem;

/// How many notes of one game are kept, beside its faults.
const MOST_NOTES: usize = 1000;

/// The game that is open, and games that have ended and were not taken yet.
#[derive(Drop)]
pub struct Kept {
    alloc: Global,
    /// The byte of the last sign.
    pub reached: u64,
    draft: ArchiveGame,
    is_open: bool,
    has_event: bool,
    has_setup: bool,
    tag_result: Option<Outcome>,
    ended: VecDeque<ArchiveGame>,
    ghost draft_within: { IsGameWithin reached draft },
    ghost ended_within: { All (IsGameWithin reached) ended.items },
}

impl Kept {
    ghost use Rattle.archive_records.specs.Unbegun.{IsUnbegun};
    ghost use Rattle.archive_records.specs.Keeping.{AreTaken, IsBegun, IsMoved, IsNoted, IsPlaced, IsTagged, IsTaken};

    /// No game yet.
    pub fn new(alloc: Global) -> Kept
        ensures reached { result.reached ≡ 0 }
        ensures next { IsUnbegun result }
    {
        Kept {
            alloc,
            reached: 0,
            draft: ArchiveGame::empty(alloc, 1),
            is_open: false,
            has_event: false,
            has_setup: false,
            tag_result: None,
            ended: VecDeque::new(alloc),
        }
    }

    /// The sign at this place is read.
    pub fn reach(&mut self, place: Place)
        ensures { self.new.reached ≡ max self.old.reached place.byte }
    {
        self.reached = self.reached.max(place.byte);
    }

    /// A game has begun and not ended.
    pub fn is_open(&self) -> bool
        ensures { result ≡ self.now.is_open }
    {
        self.is_open
    }

    /// The open game has a move.
    pub fn has_moves(&self) -> bool
        ensures { result ≡ not (length self.now.draft.moves.items == 0) }
    {
        !self.draft.moves.is_empty()
    }

    /// The open game has a tag `Event`.
    pub fn has_event(&self) -> bool
        ensures { result ≡ self.now.has_event }
    {
        self.has_event
    }

    /// The position of the open game, if it has one of its own.
    pub fn fen(&self) -> Option<&[u8]>
        ensures { IfSome result (λ fen. IfSome self.now.draft.position (λ found. fen.now ≡ found.fen.items)) }
    {
        match &self.draft.position {
            Some(position) => Some(position.fen.as_slice()),
            None => None,
        }
    }

    /// The open game has tags alone, and its next move is made from the start.
    pub fn is_at_start(&self) -> bool
        ensures { result ≡ (length self.now.draft.moves.items == 0 && is_none self.now.draft.position) }
    {
        self.draft.moves.is_empty() && self.draft.position.is_none()
    }

    /// No game has begun in the whole archive.
    pub fn has_no_game(&self) -> bool
        ensures { result ≡ (self.now.draft.number == 1 && not self.now.is_open) }
    {
        self.draft.number == 1 && !self.is_open
    }

    /// Keeps a note. A fault leaves the open game out. Behind [`MOST_NOTES`] notes of one game only faults
    /// are kept.
    pub fn note(&mut self, place: Place, kind: NoteKind) -> Result<(), AllocError>
        requires { place.byte ≤ self.old.reached }
        ensures reached { self.new.reached ≡ self.old.reached }
        ensures kept { OnOk result (IsNoted place kind self.old self.new) }
    {
        let is_fault = kind.is_fault();
        if self.is_open && is_fault {
            self.draft.is_left_out = true;
        }
        if self.draft.notes.len() >= MOST_NOTES && !is_fault {
            return Ok(());
        }
        self.draft.notes.push(Note { place, kind })?;
        Ok(())
    }

    /// Begins a game, if none is open.
    pub fn begin(&mut self, place: Place)
        requires { place.byte ≤ self.old.reached }
        ensures reached { self.new.reached ≡ self.old.reached }
        ensures kept { IsBegun place self.old self.new }
    {
        if !self.is_open {
            self.is_open = true;
            self.draft.begins = place;
        }
    }

    /// What a tag says beside its words.
    pub fn mark_event(&mut self)
        ensures { self.new ≡ record self.old { has_event = true } }
    {
        self.has_event = true;
    }

    /// The tag `SetUp` says that the game begins from a position.
    pub fn mark_setup(&mut self)
        ensures { self.new ≡ record self.old { has_setup = true } }
    {
        self.has_setup = true;
    }

    /// The outcome that the tag `Result` names.
    pub fn mark_result(&mut self, outcome: Option<Outcome>)
        ensures { self.new ≡ record self.old { tag_result = outcome } }
    {
        self.tag_result = outcome;
    }

    /// Keeps a tag.
    pub fn add_tag(&mut self, tag: ArchiveTag) -> Result<(), AllocError>
        requires { tag.place.byte ≤ self.old.reached }
        ensures reached { self.new.reached ≡ self.old.reached }
        ensures kept { OnOk result (IsTagged tag self.old self.new) }
    {
        self.draft.tags.push(tag)?;
        Ok(())
    }

    /// Keeps a move.
    pub fn add_move(&mut self, text: ArchiveMove) -> Result<(), AllocError>
        requires { text.place.byte ≤ self.old.reached }
        ensures reached { self.new.reached ≡ self.old.reached }
        ensures kept { OnOk result (IsMoved text self.old self.new) }
    {
        self.draft.moves.push(text)?;
        Ok(())
    }

    /// Keeps the position.
    pub fn set_position(&mut self, position: FoundPosition)
        requires { position.place.byte ≤ self.old.reached }
        ensures reached { self.new.reached ≡ self.old.reached }
        ensures kept { IsPlaced position self.old self.new }
    {
        self.draft.position = Some(position);
    }

    /// What is doubtful in the open game as a whole.
    fn note_whole(&mut self, score: Option<FoundResult>) -> Result<(), AllocError>
        ensures { self.new.reached ≡ self.old.reached }
    {
        let begins = self.draft.begins;
        if self.has_setup && self.draft.position.is_none() {
            self.note(begins, NoteKind::SetUpWithoutFen)?;
        }
        if self.is_at_start() {
            self.note(begins, empty_kind(score.is_some()))?;
        }
        if let Some(found) = score
            && let Some(outcome) = self.tag_result
            && found.outcome.differs(outcome)
        {
            self.note(begins, NoteKind::ResultsDiffer)?;
        }
        Ok(())
    }

    /// The open game with its result; the next one has not begun.
    fn take_draft(&mut self, score: Option<FoundResult>) -> ArchiveGame
        requires { IfSome score (λ found. found.place.byte ≤ self.old.reached) }
        ensures reached { self.new.reached ≡ self.old.reached }
        ensures within { IsGameWithin self.old.reached result }
        ensures next { IsUnbegun self.new }
    {
        let next = ArchiveGame::empty(self.alloc, self.draft.number.saturating_add(1));
        let mut game = mem::replace(&mut self.draft, next);
        game.result = score;
        self.is_open = false;
        self.has_event = false;
        self.has_setup = false;
        self.tag_result = None;
        game
    }

    /// Ends the open game. The next one has nothing of it: neither its position nor its fault.
    pub fn close(&mut self, score: Option<FoundResult>) -> Result<(), AllocError>
        requires { IfSome score (λ found. found.place.byte ≤ self.old.reached) }
        ensures reached { self.new.reached ≡ self.old.reached }
        ensures next { OnOk result (IsUnbegun self.new) }
    {
        self.note_whole(score)?;
        let game = self.take_draft(score);
        self.ended.push_back(game)?;
        Ok(())
    }

    /// The first game that has ended and was not taken yet.
    pub fn next_ended(&mut self) -> Option<ArchiveGame>
        ensures reached { self.new.reached ≡ self.old.reached }
        ensures within { IfSome result (IsGameWithin self.old.reached) }
        ensures taken { IfSome result (λ game. IsTaken game self.old self.new) }
        ensures none { IfNone result (self.old.ended.items ≡ []) }
    {
        self.ended.pop_front()
    }

    /// The notes behind the last game.
    pub fn take_notes(&mut self) -> Vec<Note>
        ensures reached { self.new.reached ≡ self.old.reached }
        ensures taken { AreTaken result.items self.old self.new }
        ensures within { All (λ note. note.place.byte ≤ self.old.reached) result.items }
    {
        mem::replace(&mut self.draft.notes, Vec::new(self.alloc))
    }
}

/// What is told of a game with neither a move nor a position.
fn empty_kind(has_result: bool) -> NoteKind {
    if has_result {
        NoteKind::NoMoves
    } else {
        NoteKind::EmptyGame
    }
}
