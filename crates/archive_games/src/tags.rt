//! Tags and positions.
ghost use Rattle.std.specs.Prelude.{◌≡◌};

use crate::reading::{Mode, Reading};
use archive_records::{ArchiveTag, FoundPosition, NoteKind};
use archive_words::{
    GameKind, Outcome, TagName, TagText, clean_fen, game_kind, is_like_fen, is_strict_name,
    tag_name, tag_text, unescaped,
};
use std::alloc::AllocError;
use std::mem;

/// The tag is a `GameType` in words that the strict profile does not have.
fn is_odd_game_type(tag: TagText<'_>) -> bool {
    let is_strict = tag.value == b"21".as_slice() || tag.value.starts_with(b"21,");
    tag.name == b"GameType".as_slice() && !is_strict
}

impl Reading {
    /// The tag ends.
    pub(crate) fn end_tag(&mut self) -> Result<(), AllocError>
        ensures { self.new.kept.reached ≡ self.old.kept.reached }
    {
        self.mode = Mode::Moves;
        let text = mem::replace(&mut self.text, Vec::new(self.alloc));
        let taken = match tag_text(&text) {
            Some(tag) => self.tag(tag),
            None => self.stray(self.opened, NoteKind::NoTag),
        };
        // The next tag's text takes the memory of this one's.
        self.text = text;
        taken
    }

    /// A tag.
    fn tag(&mut self, tag: TagText<'_>) -> Result<(), AllocError>
        ensures { self.new.kept.reached ≡ self.old.kept.reached }
    {
        let name = tag_name(tag.name);
        self.begin_game(name == TagName::Event)?;
        match name {
            TagName::Fen => self.position(tag.value, false),
            TagName::Position if is_like_fen(tag.value) => self.position(tag.value, true),
            TagName::SetUp => {
                if !matches!(tag.value, b"0" | b"") {
                    self.kept.mark_setup();
                }
                Ok(())
            }
            _ => self.plain_tag(name, tag),
        }
    }

    /// A tag, or a position on a line of its own, belongs to the open game where that has no move yet,
    /// and is no second `Event`. Else it begins the next one.
    fn begin_game(&mut self, is_event: bool) -> Result<(), AllocError>
        ensures { self.new.kept.reached ≡ self.old.kept.reached }
    {
        if self.kept.has_moves() {
            self.kept.note(self.opened, NoteKind::NoResult)?;
            self.close(None)?;
        } else if is_event && self.kept.has_event() {
            self.kept.note(self.opened, NoteKind::SecondEvent)?;
            self.close(None)?;
        } else if !self.kept.is_open() {
            self.last_number = 0;
        }
        self.kept.begin(self.opened);
        Ok(())
    }

    /// The position of the open game.
    fn position(&mut self, value: &[u8], is_bare: bool) -> Result<(), AllocError>
        ensures { self.new.kept.reached ≡ self.old.kept.reached }
    {
        let place = self.opened;
        let fen = clean_fen(self.alloc, value)?;
        if is_bare {
            self.kept.note(place, NoteKind::BareFen)?;
        } else if fen.as_slice() != value {
            self.kept.note(place, NoteKind::ChangedFen)?;
        }
        let is_same = match self.kept.fen() {
            Some(first) => first == fen.as_slice(),
            None => {
                self.kept.set_position(FoundPosition { place, fen });
                return Ok(());
            }
        };
        if is_same {
            Ok(())
        } else {
            self.kept.note(place, NoteKind::TwoPositions)
        }
    }

    /// A tag that gives no position.
    fn plain_tag(&mut self, name: TagName, tag: TagText<'_>) -> Result<(), AllocError>
        ensures { self.new.kept.reached ≡ self.old.kept.reached }
    {
        let place = self.opened;
        if !tag.is_quoted {
            self.kept.note(place, NoteKind::BareTag)?;
        }
        if !is_strict_name(tag.name) {
            self.kept.note(place, NoteKind::OddName)?;
        }
        self.mark_tag(name, tag)?;
        let name = Vec::from_slice(self.alloc, tag.name)?;
        let value = unescaped(self.alloc, tag.value)?;
        self.kept.add_tag(ArchiveTag { place, name, value })
    }

    /// What a tag says of the open game.
    fn mark_tag(&mut self, name: TagName, tag: TagText<'_>) -> Result<(), AllocError>
        ensures { self.new.kept.reached ≡ self.old.kept.reached }
    {
        match name {
            TagName::Event => {
                self.kept.mark_event();
                Ok(())
            }
            TagName::Result => {
                self.kept.mark_result(Outcome::of_tag(tag.value));
                Ok(())
            }
            TagName::GameType | TagName::Variant => match game_kind(tag.value) {
                GameKind::English if is_odd_game_type(tag) => {
                    self.kept.note(self.opened, NoteKind::OddGameType)
                }
                GameKind::English => Ok(()),
                GameKind::Other => self.kept.note(self.opened, NoteKind::OtherGame),
                GameKind::Unknown => self.kept.note(self.opened, NoteKind::UnknownGame),
            },
            _ => Ok(()),
        }
    }

    /// The position on a line of its own ends.
    pub(crate) fn end_fen(&mut self) -> Result<(), AllocError>
        ensures { self.new.kept.reached ≡ self.old.kept.reached }
    {
        self.mode = Mode::Moves;
        let text = mem::replace(&mut self.text, Vec::new(self.alloc));
        if !is_like_fen(&text) {
            self.stray(self.opened, NoteKind::StrayWord)?;
            return self.end_line();
        }
        self.begin_game(false)?;
        self.position(&text, true)?;
        self.end_line()
    }
}
