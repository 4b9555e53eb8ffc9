//! Which games an archive has, written by hand.
use archive_games::{ArchiveGame, ArchiveReader, FeedRefusal, NoteKind};
use std::alloc::{AllocError, Global};
use std::test::Fail;

/// The games that have ended.
fn take_games(reader: &mut ArchiveReader, games: &mut Vec<ArchiveGame>) -> Result<(), AllocError> {
    for _ in 0..u64::MAX {
        match reader.next_game()? {
            Some(game) => games.push(game)?,
            None => return Ok(()),
        }
    }
    Ok(())
}

/// The games of an archive that is fed in pieces of `piece` bytes, at least one.
fn games_of(alloc: Global, archive: &[u8], piece: usize) -> Result<Vec<ArchiveGame>, FeedRefusal> {
    let mut reader = ArchiveReader::new(alloc);
    let mut games = Vec::new(alloc);
    for piece in archive.chunks(piece.max(1)) {
        reader.feed(piece)?;
        take_games(&mut reader, &mut games)?;
    }
    reader.end();
    take_games(&mut reader, &mut games)?;
    Ok(games)
}

/// In pieces of how many bytes an archive is fed: a run of plain text is cut at the end of a piece.
const PIECES: [usize; 3] = [1, 7, 1000];

/// What is compared of a game: its number, line, tags, moves, and whether it is left out.
fn row_of(game: &ArchiveGame) -> (u64, u64, usize, usize, bool) {
    (
        game.number,
        game.begins.line,
        game.tags.len(),
        game.moves.len(),
        game.is_left_out,
    )
}

/// A bad game between two good ones, a position of its own, and a game without a result.
const ARCHIVE: &[u8] = b"Hello\n[Event \"a\"]\n[White Smith]\n1. 11-15 22-18 Drawn\n\
[Event \"b\"]\n1. 11-15 22-99 2. 15x22 *\n[Event \"c\"]\n[FEN \"w:w21, 22:b1\"]\n1. 22 - 18 1/2\n9-14 22-18\n";

#[test]
fn games_are_found_behind_a_fault(rt: HostRuntime) -> Result<(), Fail> {
    let wanted = [
        (1, 2, 2, 2, false),
        (2, 5, 1, 2, true),
        (3, 7, 1, 1, false),
        (4, 10, 0, 2, false),
    ];
    for piece in PIECES {
        let games = games_of(rt.alloc(), ARCHIVE, piece)?;
        assert_eq!(rt; games.len(), 4);
        for (game, wanted) in games.iter().zip(wanted) {
            assert_eq!(rt; row_of(game), wanted);
        }
    }
    Ok(())
}

/// The first note of the first game of an archive that is fed in pieces of `piece` bytes.
fn first_note(
    alloc: Global,
    archive: &[u8],
    piece: usize,
) -> Result<Option<(u64, u64, NoteKind)>, FeedRefusal> {
    let games = games_of(alloc, archive, piece)?;
    let Some(game) = games.first() else {
        return Ok(None);
    };
    Ok(
        game.notes
            .first()
            .map(|note| (note.place.line, note.place.column, note.kind)),
    )
}

/// Archives, and the line, the column and the kind of what is told first.
static TOLD: [(&[u8], u64, u64, NoteKind); 6] = [
    (b"[Event \"a\"]\n1. 11-15 22-99 *", 2, 10, NoteKind::BadMove),
    (
        b"[Event \"a\"]\n1. 11-15 {so *\n[Event \"b\"]\n",
        2,
        10,
        NoteKind::OpenComment,
    ),
    (
        b"[Event \"a\"]\n[Event \"b\"]\n1. 11-15 *",
        2,
        1,
        NoteKind::SecondEvent,
    ),
    (
        b"1. 11-15 22-18 4. 15x22 *",
        1,
        16,
        NoteKind::NumberOrder { found: 4, due: 2 },
    ),
    (b"1. 22-18 *", 1, 4, NoteKind::WhiteFirst),
    (
        b"[SetUp \"1\"]\n1. 11-15 *",
        1,
        1,
        NoteKind::SetUpWithoutFen,
    ),
];

#[test]
fn doubts_are_told(rt: HostRuntime) -> Result<(), Fail> {
    for (archive, line, column, kind) in TOLD {
        for piece in PIECES {
            let found = first_note(rt.alloc(), archive, piece)?;
            assert_eq!(rt; found, Some((line, column, kind)));
        }
    }
    Ok(())
}
