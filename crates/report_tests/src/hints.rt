//! Texts on refusals, written by hand.
use draughts_board::{Position, Square};
use fen_text::FenRefusal;
use opening_report::Refusal;
use refusal_hints::{failed_text, hint, legal_moves_text, missing_text, other_run_text};
use std::alloc::{AllocError, Global};
use std::io::ErrorKind;
use std::process::Abort;
use std::test::Fail;

/// The text on a refusal of these words or of this source.
fn text_on(
    alloc: Global,
    words: &[&str],
    refusal: &Refusal,
    source: &[u8],
) -> Result<Vec<u8>, AllocError> {
    hint(alloc, words, refusal, source)
}

/// The text on a refusal of a source.
fn told(alloc: Global, refusal: &Refusal, source: &[u8]) -> Result<Vec<u8>, AllocError> {
    text_on(alloc, &["-", "solve"], refusal, source)
}

/// Whether the text on a refusal of a source says so.
fn is_told(
    alloc: Global,
    refusal: &Refusal,
    source: &[u8],
    want: &str,
) -> Result<bool, AllocError> {
    Ok(told(alloc, refusal, source)?.as_slice() == want.as_bytes())
}

/// Whether it begins so.
fn is_begun(
    alloc: Global,
    refusal: &Refusal,
    source: &[u8],
    want: &str,
) -> Result<bool, AllocError> {
    Ok(
        told(alloc, refusal, source)?
            .as_slice()
            .starts_with(want.as_bytes()),
    )
}

/// A refusal, its source, and the text on it.
type Case = (Refusal, &'static [u8], &'static str);

/// The texts on these say so.
fn expect(rt: &impl Abort, alloc: Global, cases: &[Case]) -> Result<(), Fail> {
    for (refusal, source, want) in cases {
        assert!(rt; is_told(alloc, refusal, source, want)?, "{want}");
    }
    Ok(())
}

const FAULTS_OF_PDN: [Case; 3] = [
    (
        Refusal::PdnBadByte(24),
        b"[Event \"Club\"]\r\n1. 11-15\xE2\x80\x9318 *\r\n",
        "line 2, column 9:\n  1. 11-15\\xE2\\x80\\x9318 *\n          ^\nThis is a dash, a quotation mark or another sign from outside ASCII. Write `-` between the squares of a step.\n",
    ),
    (
        Refusal::PdnBadMove(3),
        b"1. 11-15- *",
        "line 1, column 4:\n  1. 11-15- *\n     ^\n`11-15-` is no move, move number or result. The move goes on with a square, without a blank.\n",
    ),
    (
        Refusal::PdnOpenComment(2),
        b"* {never\x1B[2J closed\n1. 9-13",
        "line 1, column 3:\n  * {never\\x1B[2J closed\n    ^\nThis comment has no `}`.\n",
    ),
];

#[test]
fn faults_of_pdn(rt: HostRuntime) -> Result<(), Fail> {
    expect(&rt, rt.alloc(), &FAULTS_OF_PDN)
}

const SIGNS: [Case; 8] = [
    (
        Refusal::PdnBadByte(5),
        b"9-13 \xC2\xBD-\xC2\xBD",
        "line 1, column 6:\n  9-13 \\xC2\\xBD-\\xC2\\xBD\n       ^\nThis is the sign for one half. A draw is written 1/2-1/2.\n",
    ),
    (
        Refusal::PdnBadByte(4),
        b"9-13\xC2\xA022-18 *",
        "line 1, column 5:\n  9-13\\xC2\\xA022-18 *\n      ^\nThis is a no-break space, as web pages have it. Write a plain blank.\n",
    ),
    (
        Refusal::PdnBadByte(1),
        b"1\xE2\x80\xA6 22-18 *",
        "line 1, column 2:\n  1\\xE2\\x80\\xA6 22-18 *\n   ^\nThese are three full stops in one sign. Write `...`.\n",
    ),
    (
        Refusal::PdnBadByte(0),
        b"\xFF\xFE*\x00",
        "line 1, column 1:\n  \\xFF\\xFE*\\x00\n  ^\nThis text is UTF-16. Save it as UTF-8, or as plain text.\n",
    ),
    (
        Refusal::PdnBadByte(2),
        b"*\n\x1A",
        "line 2, column 1:\n  \\x1A\n  ^\nThis is the end-of-file sign of old systems (byte 26). Leave it out.\n",
    ),
    (
        Refusal::PdnBadByte(2),
        b"*\n\x0C*",
        "line 2, column 1:\n  \\x0C*\n  ^\nThis is a form feed (byte 12), which begins a page. Leave it out.\n",
    ),
    (
        Refusal::PdnBadByte(13),
        b"{the {usual} move} *",
        "line 1, column 14:\n  {the {usual} move} *\n               ^\nWords stand only in tags and in comments: {so} or, up to the end of the line, behind `;`. Squares are numbers, 1 to 32.\nThe comment before it has a second `{`, which opens nothing: the first `}` has closed it.\n",
    ),
    (
        Refusal::PdnBadByte(7),
        b"9-13 *\nW:W16,23:B12\n",
        "line 2, column 1:\n  W:W16,23:B12\n  ^\nThis is a position. It is read as the value of a tag, with a result behind it: [FEN \"W:W16,23:B12\"] *\n",
    ),
];

const TAGS: [Case; 8] = [
    (
        Refusal::PdnOpenTag(0),
        b"[\"Club\"] *",
        "line 1, column 1:\n  [\"Club\"] *\n   ^\nAt the mark the tag's name is due, which begins with a letter.\nA tag is a name, a blank and a value in quotation marks, all on one line: [Event \"Club\"].\n",
    ),
    (
        Refusal::PdnOpenTag(2),
        b"* [Game-Type \"21\"] *",
        "line 1, column 3:\n  * [Game-Type \"21\"] *\n         ^\nAt the mark stands what no name of a tag has: names are letters, digits and `_`.\nA tag is a name, a blank and a value in quotation marks, all on one line: [Event \"Club\"].\n",
    ),
    (
        Refusal::PdnOpenTag(0),
        b"[Event\"Club\"] *",
        "line 1, column 1:\n  [Event\"Club\"] *\n        ^\nAt the mark a blank is due, between the tag's name and its value.\nA tag is a name, a blank and a value in quotation marks, all on one line: [Event \"Club\"].\n",
    ),
    (
        Refusal::PdnOpenTag(0),
        b"[Event Club] *",
        "line 1, column 1:\n  [Event Club] *\n         ^\nAt the mark a quotation mark is due, which opens the tag's value.\nA tag is a name, a blank and a value in quotation marks, all on one line: [Event \"Club\"].\n",
    ),
    (
        Refusal::PdnOpenTag(0),
        b"[Event \xE2\x80\x9CClub\xE2\x80\x9D] *",
        "line 1, column 1:\n  [Event \\xE2\\x80\\x9CClub\\xE2\\x80\\x9D] *\n         ^\nAt the mark stands a quotation mark of another kind. Values stand between two `\"`.\nA tag is a name, a blank and a value in quotation marks, all on one line: [Event \"Club\"].\n",
    ),
    (
        Refusal::PdnOpenTag(0),
        b"[Event \"Club] *\n*",
        "line 1, column 1:\n  [Event \"Club] *\n                 ^\nAt the mark the line ends, and the tag's value is not closed.\nA tag is a name, a blank and a value in quotation marks, all on one line: [Event \"Club\"].\n",
    ),
    (
        Refusal::PdnOpenTag(0),
        b"[Event \"Club\" ",
        "line 1, column 1:\n  [Event \"Club\" \n                ^\nAt the mark the text ends, and the tag is not closed.\nA tag is a name, a blank and a value in quotation marks, all on one line: [Event \"Club\"].\n",
    ),
    (
        Refusal::PdnOpenTag(0),
        b"[Event \"The \"Club\"\"] *",
        "line 1, column 1:\n  [Event \"The \"Club\"\"] *\n               ^\nAt the mark `]` is due. A quotation mark within a value is written \\\".\nA tag is a name, a blank and a value in quotation marks, all on one line: [Event \"Club\"].\n",
    ),
];

#[test]
fn signs_and_tags_have_names(rt: HostRuntime) -> Result<(), Fail> {
    expect(&rt, rt.alloc(), &SIGNS)?;
    expect(&rt, rt.alloc(), &TAGS)
}

const KINDS: [Case; 5] = [
    (
        Refusal::OtherGame(2),
        b"* [GameType \"21 W\"] *",
        "line 1, column 14:\n  * [GameType \"21 W\"] *\n               ^\nGame 2 has the tag GameType \"21 W\". It seems to mean English draughts, whose value is 21, alone or with a comma straight behind it: write [GameType \"21\"].\n",
    ),
    (
        Refusal::OtherGame(2),
        b"* [GameType \"Checkers\"] *",
        "line 1, column 14:\n  * [GameType \"Checkers\"] *\n               ^\nGame 2 has the tag GameType \"Checkers\". It seems to mean English draughts, whose value is 21, alone or with a comma straight behind it: write [GameType \"21\"].\n",
    ),
    (
        Refusal::OtherGame(2),
        b"* [GameType \"Italian\"] *",
        "line 1, column 14:\n  * [GameType \"Italian\"] *\n               ^\nGame 2 has the tag GameType \"Italian\". That is another kind of draughts, and English draughts is 21: take the game out of the file.\n",
    ),
    (
        Refusal::OtherGame(2),
        b"* [GameType \" \"] *",
        "line 1, column 14:\n  * [GameType \" \"] *\n               ^\nGame 2 has the tag GameType \" \". The value is empty: write [GameType \"21\"] for English draughts, or leave the tag out.\n",
    ),
    (
        Refusal::OtherGame(2),
        b"* [GameType \"Club\"] *",
        "line 1, column 14:\n  * [GameType \"Club\"] *\n               ^\nGame 2 has the tag GameType \"Club\". English draughts is 21: where the game is one, write [GameType \"21\"], and else take it out of the file.\n",
    ),
];

/// An empty position behind another game, and one that begins as the value of an earlier tag.
const EMPTY_FEN: Case = (
    Refusal::Fen(2, FenRefusal::Truncated),
    b"[Event \"\"] *\n[FEN \"\"] *",
    "line 2, column 7:\n  [FEN \"\"] *\n        ^\nGame 2 begins from no position. The FEN ends too early.\nA FEN is the side to move and two lists of squares: W:W21,22,K30:B1,5-8. Squares 1 to 12 are where Black begins.\n",
);

#[test]
fn kinds_of_games_and_an_empty_fen(rt: HostRuntime) -> Result<(), Fail> {
    expect(&rt, rt.alloc(), &KINDS)?;
    expect(&rt, rt.alloc(), &[EMPTY_FEN])
}

const FAULTS_OF_FENS: [Case; 2] = [
    (
        Refusal::Fen(1, FenRefusal::BadSquare(7)),
        b"[White \"Lafferty\"]\n[Black \"Tinsley\"]\n[FEN \"W:W21,K33:B1\"]\n*\n",
        "line 3, column 14:\n  [FEN \"W:W21,K33:B1\"]\n               ^\nGame 1 (Black: Tinsley, White: Lafferty) begins from no position. A square is a number from 1 to 32, and a range `5-8` rises.\nA FEN is the side to move and two lists of squares: W:W21,22,K30:B1,5-8. Squares 1 to 12 are where Black begins.\n",
    ),
    (
        Refusal::OtherGame(1),
        b"[GameType \"20\"] *",
        "line 1, column 12:\n  [GameType \"20\"] *\n             ^\nGame 1 has the tag GameType \"20\". That is another kind of draughts, and English draughts is 21: take the game out of the file.\n",
    ),
];

/// The man on 30 of the second game.
const MISPLACED: (&[u8], &str) = (
    b"1. 9-13 *\n[FEN \"W:W21:B30\"] *",
    "line 2, column 7:\n  [FEN \"W:W21:B30\"] *\n        ^\nGame 2 begins from no position. The man on 30 stands on its last row, where it would be a king: write `K` before the square.\nA FEN is the side to move and two lists of squares: W:W21,22,K30:B1,5-8. Squares 1 to 12 are where Black begins.\n",
);

#[test]
fn faults_of_fens(rt: HostRuntime) -> Result<(), Fail> {
    expect(&rt, rt.alloc(), &FAULTS_OF_FENS)?;
    let square = Square::new(30).ok_or("no square")?;
    let refusal = Refusal::Fen(2, FenRefusal::ManOnLastRow(square));
    assert!(rt; is_told(rt.alloc(), &refusal, MISPLACED.0, MISPLACED.1)?);
    Ok(())
}

const MOVES: [Case; 2] = [
    (
        Refusal::Illegal {
            game: 1,
            ply: 3,
            at: 18,
        },
        b"1. 11-15 22-18 2. 8-11 *",
        "line 1, column 19:\n  1. 11-15 22-18 2. 8-11 *\n                    ^\nGame 1, ply 3: 8-11 is not legal.\nBlack is to move: B:W18,21,23,24,25,26,27,28,29,30,31,32:B1,2,3,4,5,6,7,8,9,10,12,15\n    b   b   b   b   1-4\n  b   b   b   b     5-8\n    b   b   .   b   9-12\n  .   .   b   .     13-16\n    .   w   .   .   17-20\n  w   .   w   w     21-24\n    w   w   w   w   25-28\n  w   w   w   w     29-32\nBlack has to capture. The captures: 15x22\n",
    ),
    (
        Refusal::Ambiguous {
            game: 1,
            ply: 1,
            at: 42,
        },
        b"[Event \"Club\"] [FEN \"B:W6,7,14,15:B2\"] 1. 2x18 *",
        "line 1, column 43:\n  vent \"Club\"] [FEN \"B:W6,7,14,15:B2\"] 1. 2x18 *\n                                          ^\nGame 1 (Event: Club), ply 1: 2x18 may mean two moves that differ. Write all squares of the one that was played: 2x9x18, 2x11x18\nBlack is to move: B:W6,7,14,15:B2\n    .   b   .   .   1-4\n  .   w   w   .     5-8\n    .   .   .   .   9-12\n  .   w   w   .     13-16\n    .   .   .   .   17-20\n  .   .   .   .     21-24\n    .   .   .   .   25-28\n  .   .   .   .     29-32\n",
    ),
];

#[test]
fn moves_that_are_not_legal_or_may_be_two(rt: HostRuntime) -> Result<(), Fail> {
    expect(&rt, rt.alloc(), &MOVES)
}

/// Whether the text on a star before a move speaks of the piece that is moved, and ends with what
/// the star means.
fn tells_of_star(alloc: Global) -> Result<(bool, bool), Fail> {
    let refusal = Refusal::Illegal {
        game: 2,
        ply: 1,
        at: 16,
    };
    let text = told(alloc, &refusal, b"[FEN \"W:W6:B\"] *32-27 *")?;
    let text = String::from_utf8(text)?;
    Ok((
        text.as_str().contains(PIECE_OF_OTHER_SIDE),
        text.as_str().ends_with(STAR_BEFORE),
    ))
}

const PIECE_OF_OTHER_SIDE: &str =
    "Game 2, ply 1: 32-27 is not legal.\nThe piece on 32 is White's, and in English draughts Black begins: is this a game of another kind, in which White begins, or does it lack its tag `FEN`?\nBlack is to move: ";

const STAR_BEFORE: &str = "A star before a move is read as the end of the game before it.\n";

#[test]
fn a_star_before_a_move_is_told(rt: HostRuntime) -> Result<(), Fail> {
    assert_eq!(rt; tells_of_star(rt.alloc())?, (true, true));
    Ok(())
}

#[test]
fn legal_moves_are_listed(rt: HostRuntime) -> Result<(), Fail> {
    let moves = legal_moves_text(rt.alloc(), &Position::start())?;
    assert_eq!(rt;
        moves.as_slice(),
        b"9-13, 9-14, 10-14, 10-15, 11-15, 11-16, 12-16".as_slice()
    );
    Ok(())
}

/// Words, the place of the one that is refused, and the text on it.
type Words = (&'static [&'static str], usize, &'static str);

/// The text on a refusal of these words.
fn told_words(alloc: Global, words: &[&str], at: usize) -> Result<Vec<u8>, AllocError> {
    text_on(alloc, words, &Refusal::Words(at), b"")
}

/// Whether the text on a refusal of these words says so.
fn is_told_words(alloc: Global, case: &Words) -> Result<bool, AllocError> {
    Ok(told_words(alloc, case.0, case.1)?.as_slice() == case.2.as_bytes())
}

const FORM: &str =
    "The words are: opening_bench JOURNAL COMMAND, where JOURNAL is a file, or `-` for a journal in memory, and COMMAND is solve, report, certify N, verify, learn, table K, table-check or generate SEED COUNT. Games are read from standard input:\n  opening_bench games.journal solve < games.pdn\n`opening_bench --help` says more.\n";

const WORDS: &[Words] = &[
    (&[], 0, FORM),
    (&["-h"], 1, FORM),
    (&["help"], 1, FORM),
    (&["-V"], 1, FORM),
    (&["report", "--help"], 1, FORM),
    (&["-", "solve", "--help", ""], 2, FORM),
    (&["-", "certify", "-h", ""], 2, FORM),
    (
        &["-", "solve", "--depth"],
        3,
        "A number is missing. --depth takes a number from 0 to 12, as a word of its own, in digits alone and without zeros in front.\n",
    ),
    (
        &["--depth", "slove", "", ""],
        1,
        "`slove` is no command. Perhaps `solve` is meant. The commands are solve, report, certify, verify, learn, table, table-check and generate.\nThe first word names the journal: the file `--depth`. Options stand behind `solve`.\n",
    ),
    (
        &["-", "slove", "", ""],
        1,
        "`slove` is no command. Perhaps `solve` is meant. The commands are solve, report, certify, verify, learn, table, table-check and generate.\n",
    ),
    (
        &["solve", "-", "", ""],
        1,
        "`-` stands where a command is due: the journal comes first, and then `solve`.\n",
    ),
    (
        &["-", "solve", "--dept", "4"],
        2,
        "`--dept` is no option of `solve`. Perhaps `--depth` is meant. The options are --workers, --depth, --pieces, --plies, --budget and --lease, each with a number.\n",
    ),
    (
        &["-", "solve", "--depth", "13"],
        3,
        "`13` cannot stand there. --depth takes a number from 0 to 12, as a word of its own, in digits alone and without zeros in front.\n",
    ),
    (
        &["-", "solve", "--depth=4", ""],
        2,
        "`--depth=4` is no option: the number is a word of its own, as in `--depth 4`.\n",
    ),
    (
        &["-", "table", "4", ""],
        2,
        "`4` cannot stand there. table takes the number of pieces, 2 or 3.\n",
    ),
    (
        &["-", "verify", "x", ""],
        2,
        "`x` cannot stand there. verify takes no further word: it reads standard input, as `< FILE`.\n",
    ),
    (
        &["solve"],
        1,
        "The journal comes first, and `solve` behind it: `-` stands for a journal in memory.\n",
    ),
];

#[test]
fn words_that_are_meant(rt: HostRuntime) -> Result<(), Fail> {
    for case in WORDS {
        assert!(rt; is_told_words(rt.alloc(), case)?, "{}", case.2);
    }
    Ok(())
}

const A_FILE: &str =
    "`club.pdn` stands where a command is due. Files are given on standard input, as `< FILE`.\n";

#[test]
fn a_file_is_no_command(rt: HostRuntime) -> Result<(), Fail> {
    let text = told_words(rt.alloc(), &["-", "club.pdn"], 1)?;
    assert!(rt; text.as_slice().starts_with(A_FILE.as_bytes()));
    Ok(())
}

/// A certificate.
const CERTIFICATE: &[u8] =
    b"certificate 1\ntable 2\nposition W:W16,23:B12\nclaim white-wins\nwin white 2\nW:W16,23:B12 1 23-19\nB:W16,19:B12 0\nend\n";

const CERTIFICATES_AND_TABLES: [Case; 2] = [
    (
        Refusal::BadRank { part: 1, entry: 2 },
        CERTIFICATE,
        "line 7:\n  B:W16,19:B12 0\n  ^\nA position behind this entry has a rank that is not below its own.\n",
    ),
    (
        Refusal::TableWrongLength {
            found: 8,
            due: 64528,
        },
        b"",
        "The file has 8 bytes and by its head 64528 are due: was it copied whole?\n",
    ),
];

/// How texts begin.
const FRONTS: [Case; 2] = [
    (
        Refusal::TextBadLine(2),
        CERTIFICATE,
        "line 2:\n  table 2\n  ^\nThis line may not stand there.",
    ),
    // Index 2 of a table: the board without pieces has indices 0 and 1, and a man of Black on square
    // 1 with Black to move stands next.
    (
        Refusal::TableBadEntry { index: 2, kept: 1 },
        b"",
        "The entry of index 2 stands in the four bytes from byte 16 on (from 0) and says a loss of rank 0, which the positions behind it do not bear out.\nBlack is to move: B:W:B1\n    b   .   .   .   1-4\n",
    ),
];

#[test]
fn certificates_and_tables(rt: HostRuntime) -> Result<(), Fail> {
    expect(&rt, rt.alloc(), &CERTIFICATES_AND_TABLES)?;
    for (refusal, source, want) in &FRONTS {
        assert!(rt; is_begun(rt.alloc(), refusal, source, want)?, "{want}");
    }
    Ok(())
}

const JOURNALS: [Case; 4] = [
    (
        Refusal::OtherTable { found: 3, asked: 2 },
        b"",
        "This journal was begun with tables of 3 pieces and goes on with them alone. Give `--pieces 3`, or name another journal.\n",
    ),
    (
        Refusal::UnsettledRoot(5),
        b"",
        "Root 5 has no value yet. Go on with `solve`, with a larger `--budget` or `--depth`.\n",
    ),
    (
        Refusal::RootExpanded(7),
        b"",
        "The search has gone on below root 7, and a certificate of the root itself would not be used there. Go on with `solve`, or learn the certificate in a new journal.\n",
    ),
    (
        Refusal::Memory,
        b"",
        "Memory ran out. What was written to the journal before is kept.\n",
    ),
];

#[test]
fn journals_and_limits(rt: HostRuntime) -> Result<(), Fail> {
    expect(&rt, rt.alloc(), &JOURNALS)
}

/// The text on the file of a journal that failed for this cause; nothing if none is known of it.
fn told_of_cause(alloc: Global, cause: ErrorKind) -> Result<Vec<u8>, AllocError> {
    Ok(match failed_text(alloc, "games/journal", Some(cause))? {
        Some(told) => told,
        None => Vec::new(alloc),
    })
}

/// The texts on the file of a journal: on one that has no room, on one whose owner has no share of the
/// disk left, on one of whose cause nothing is known, on one that is missing, and on one that another run
/// has open.
fn told_of_files(alloc: Global) -> Result<[Vec<u8>; 5], AllocError> {
    Ok([
        told_of_cause(alloc, ErrorKind::StorageFull)?,
        told_of_cause(alloc, ErrorKind::QuotaExceeded)?,
        told_of_cause(alloc, ErrorKind::TimedOut)?,
        missing_text(alloc, "a`\x1B")?,
        other_run_text(alloc, "journal")?,
    ])
}

const FILES: [&str; 5] = [
    "The file `games/journal` could not be opened, read or written: there is no room on the disk. What was written to the journal before is kept.\n",
    "The file `games/journal` could not be opened, read or written: your share of the disk is used up. What was written to the journal before is kept.\n",
    "",
    "There is no file `a`\\x1B`: it is read as an empty journal.\n",
    "Another run has the journal `journal` open, and two that write to it damage it: stop this one, and begin it again when the other one has ended.\n",
];

/// The first text on the file of a journal that is another one.
fn first_other_of_files(alloc: Global) -> Result<Option<&'static str>, AllocError> {
    let told = told_of_files(alloc)?;
    for (text, want) in told.iter().zip(&FILES) {
        if text.as_slice() != want.as_bytes() {
            return Ok(Some(*want));
        }
    }
    Ok(None)
}

#[test]
fn files_of_journals(rt: HostRuntime) -> Result<(), Fail> {
    assert_eq!(rt; first_other_of_files(rt.alloc())?, None);
    Ok(())
}
