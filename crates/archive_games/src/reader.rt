//! The games of an archive, as its bytes come.
ghost use Rattle.std.specs.Prelude.{◌≡◌, ◌≤◌, ◌+◌, All, IfOk, IfSome, OnOk, OnErr, IfErr, length, max};
ghost use Rattle.archive_records.specs.Inside.{IsGameWithin};
ghost use Rattle.archive_text.specs.Fed.{IsFeedCause, bytes_fed};

use crate::reading::{Mode, Reading};
use archive_records::{ArchiveGame, Note, NoteKind};
use archive_text::{ArchiveText, FeedRefusal, Place, Sign};
use std::alloc::{AllocError, Global};

/// The reader of an archive.
#[derive(Drop)]
pub struct ArchiveReader {
    text: ArchiveText,
    reading: Reading,
    is_ended: bool,
    is_finished: bool,
    ghost read: { reading.kept.reached ≤ text.place.byte },
}

impl Reading {
    /// What is open at the end of the source ends.
    fn finish_open(&mut self) -> Result<(), AllocError>
        ensures { self.new.kept.reached ≡ self.old.kept.reached }
    {
        match self.mode {
            Mode::Moves | Mode::Line => Ok(()),
            Mode::Comment => self.fault(self.opened, NoteKind::OpenComment),
            Mode::Variation => self.fault(self.opened, NoteKind::OpenVariation),
            Mode::Tag => self.cut_tag(),
            Mode::Fen => self.end_fen(),
        }
    }

    /// The source ends at this place.
    pub(crate) fn finish(&mut self, end: Place) -> Result<(), AllocError>
        ensures { self.new.kept.reached ≡ max self.old.kept.reached end.byte }
    {
        self.kept.reach(end);
        self.finish_open()?;
        self.mode = Mode::Moves;
        self.in_moves(Sign {
            letter: '\n',
            place: end,
        })?;
        self.end_run()?;
        if self.kept.is_open() {
            self.kept.note(end, NoteKind::NoResult)?;
            return self.close(None);
        }
        if self.kept.has_no_game() {
            return self.kept.note(end, NoteKind::NoGame);
        }
        Ok(())
    }
}

impl ArchiveReader {
    /// A reader to which nothing was fed yet.
    pub fn new(alloc: Global) -> ArchiveReader
        ensures { bytes_fed result.text ≡ 0 }
    {
        ArchiveReader {
            text: ArchiveText::new(alloc),
            reading: Reading::new(alloc),
            is_ended: false,
            is_finished: false,
        }
    }

    /// Takes the next bytes of the archive, in pieces of any length. It is refused where the archive
    /// would have more than [`archive_text::MOST_BYTES`] bytes, or for want of memory; then none of
    /// them is taken.
    pub fn feed(&mut self, bytes: &[u8]) -> Result<(), FeedRefusal>
        ensures ok { OnOk result (bytes_fed self.new.text ≡ bytes_fed self.old.text + length bytes.now) }
        ensures err { OnErr result (bytes_fed self.new.text ≡ bytes_fed self.old.text) }
        ensures cause { IfErr result (IsFeedCause self.old.text bytes.now) }
    {
        self.text.feed(bytes)
    }

    /// Says that the archive has ended.
    pub fn end(&mut self)
        ensures { bytes_fed self.new.text ≡ bytes_fed self.old.text }
    {
        self.text.end();
        self.is_ended = true;
    }

    /// Reads on until a game has ended, or no sign is left.
    fn read_on(&mut self) -> Result<Option<ArchiveGame>, AllocError>
        ensures fed { bytes_fed self.new.text ≡ bytes_fed self.old.text }
        ensures within { IfOk result (λ found. IfSome found (IsGameWithin (bytes_fed self.old.text))) }
    {
        while let Some(sign) = self.text.next_sign() {
            self.reading.take(sign)?;
            self.take_plain()?;
            if let Some(game) = self.reading.kept.next_ended() {
                return Ok(Some(game));
            }
        }
        Ok(None)
    }

    /// Takes the plain text that stands next, where many signs may be taken at once.
    fn take_plain(&mut self) -> Result<(), AllocError>
        ensures fed { bytes_fed self.new.text ≡ bytes_fed self.old.text }
        ensures still { self.old.text.place.byte ≤ self.new.text.place.byte }
    {
        let most = self.reading.most_plain();
        let place = self.text.place();
        let plain = self.text.plain(most);
        let len = plain.len();
        if len == 0 {
            return Ok(());
        }
        let taken = self.reading.take_plain(plain, place);
        self.text.pass(len);
        taken
    }

    /// The next game; none where more bytes are wanted, or the archive has ended. It is to be called
    /// until it gives none, after each feed and behind the end. Each sign is taken once.
    ///
    /// Each place of the game, and of what is told of it, is of a byte that was fed, or of the end.
    pub fn next_game(&mut self) -> Result<Option<ArchiveGame>, AllocError>
        ensures fed { bytes_fed self.new.text ≡ bytes_fed self.old.text }
        ensures within { IfOk result (λ found. IfSome found (IsGameWithin (bytes_fed self.old.text))) }
    {
        if let Some(game) = self.reading.kept.next_ended() {
            return Ok(Some(game));
        }
        if let Some(game) = self.read_on()? {
            return Ok(Some(game));
        }
        if self.is_ended && !self.is_finished {
            self.is_finished = true;
            self.reading.finish(self.text.place())?;
        }
        Ok(self.reading.kept.next_ended())
    }

    /// The notes that belong to no game: what stands behind the last one. To be asked behind the end.
    pub fn notes_left(&mut self) -> Vec<Note>
        ensures fed { bytes_fed self.new.text ≡ bytes_fed self.old.text }
        ensures within { All (λ note. note.place.byte ≤ bytes_fed self.old.text) result.items }
    {
        self.reading.kept.take_notes()
    }
}
