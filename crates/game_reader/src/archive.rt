//! An archive that is read in pieces.
ghost use Rattle.std.specs.Prelude.{◌≡◌, ◌≤◌, All, IfErr, IfOk, IfSome, OnOk};
ghost use Rattle.archive_records.specs.Inside.{IsGameWithin};
ghost use Rattle.game_reader.specs.declared.archive.ArchiveRefusal.TheVariants as refusals;

use archive_games::{ArchiveGame, ArchiveReader, FeedRefusal, Note};
use bench_edges::{Source, SourceFault};
use std::alloc::{AllocError, Global};
use thiserror::Error;

/// How many bytes are asked of a source at once.
const PIECE: usize = 65536;

/// Into how many pieces and games an archive is read at most.
pub(crate) const MOST_STEPS: u64 = 1 << 60;

/// Why an archive was not read to its end.
#[derive(Debug, Drop, Error)]
pub enum ArchiveRefusal {
    /// It is longer than can be counted.
    #[error("the archive is too long")]
    TooLong,
    /// The source failed.
    #[error("the source failed")]
    Read(SourceFault),
    /// Memory ran out.
    #[error("out of memory")]
    Memory(AllocError),
}

impl From<AllocError> for ArchiveRefusal {
    ghost from_gives = { λ error refusal. refusal ≡ refusals.Memory error };

    /// Want of memory.
    fn from(error: AllocError) -> ArchiveRefusal {
        ArchiveRefusal::Memory(error)
    }
}

impl From<FeedRefusal> for ArchiveRefusal {
    ghost use Rattle.game_reader.specs.Refusals.{of_feed};

    ghost from_gives = { λ refusal given. given ≡ of_feed refusal };

    /// What the reader refuses.
    fn from(refusal: FeedRefusal) -> ArchiveRefusal {
        match refusal {
            FeedRefusal::TooLong => ArchiveRefusal::TooLong,
            FeedRefusal::Memory(error) => ArchiveRefusal::Memory(error),
        }
    }
}

/// The games of a source, one at a time. It holds one game and one piece of the source.
#[derive(Drop)]
pub struct Archive {
    reader: ArchiveReader,
    piece: Vec<u8>,
    has_ended: bool,
}

impl Archive {
    ghost use Rattle.game_reader.specs.Reading.{HasRead, IsStopped, bytes_read};

    /// An archive of which nothing is read.
    pub fn new(alloc: Global) -> Result<Archive, AllocError>
        ensures { IfOk result (λ archive. bytes_read archive ≡ 0) }
    {
        Ok(Archive {
            reader: ArchiveReader::new(alloc),
            piece: vec![in alloc; 0; PIECE]?,
            has_ended: false,
        })
    }

    /// The next game; none behind the last. Each place of the game, and of what is told of it, is of
    /// a byte that was read, or of the end. Behind a refusal nothing is said of the archive.
    #[tactic(auto, using(crate::proofs::Reading::reads_none, crate::proofs::Reading::reads_more))]
    pub fn next<S: Source>(&mut self, source: &mut S) -> Result<Option<ArchiveGame>, ArchiveRefusal>
        ensures read { OnOk result (HasRead (S.left source.old) (S.left source.new)
            (bytes_read self.old) (bytes_read self.new)) }
        ensures within { IfOk result (λ found. IfSome found (IsGameWithin (bytes_read self.new))) }
        ensures ok { OnOk result (S.faults source.new ≡ S.faults source.old) }
        ensures cause { IfErr result (IsStopped (S.faults source.old) (S.faults source.new)) }
    {
        'pieces: for _ in 0..MOST_STEPS {
            if let Some(game) = self.reader.next_game()? {
                return Ok(Some(game));
            }
            if self.has_ended {
                return Ok(None);
            }
            self.read_piece(source)?;
        }
        Err(ArchiveRefusal::TooLong)
    }

    /// Reads a piece of the source, or finds that it has ended.
    #[tactic(auto, using(crate::proofs::Reading::reads_none, crate::proofs::Reading::reads_piece))]
    fn read_piece<S: Source>(&mut self, source: &mut S) -> Result<(), ArchiveRefusal>
        ensures read { OnOk result (HasRead (S.left source.old) (S.left source.new)
            (bytes_read self.old) (bytes_read self.new)) }
        ensures ok { OnOk result (S.faults source.new ≡ S.faults source.old) }
        ensures cause { IfErr result (IsStopped (S.faults source.old) (S.faults source.new)) }
    {
        if self.piece.is_empty() {
            self.has_ended = true;
            return Ok(());
        }
        let count = source.read(&mut self.piece).map_err(ArchiveRefusal::Read)?;
        if count == 0 {
            self.reader.end();
            self.has_ended = true;
        } else {
            self.reader.feed(&self.piece[..count])?;
        }
        Ok(())
    }

    /// The notes on no game, behind the last game. Each is at a byte that was read, or at the end.
    pub fn notes_left(&mut self) -> Vec<Note>
        ensures read { bytes_read self.new ≡ bytes_read self.old }
        ensures within { All (λ note. note.place.byte ≤ bytes_read self.old) result.items }
    {
        self.reader.notes_left()
    }
}
