//! Warnings, written by hand.
use source_warnings::{Cause, Warning, warnings_of, warnings_text};
use std::alloc::{AllocError, Global};
use std::process::Abort;
use std::test::Fail;

/// How many warnings on a source are told, and how many more there are.
fn counts(alloc: Global, source: &[u8], plies: usize) -> Result<(usize, usize), AllocError> {
    let found = warnings_of(alloc, source, plies)?;
    Ok((found.told.len(), found.more))
}

/// Sources that are meant so.
const MEANT: [&[u8]; 10] = [
    b"*",
    b"[GameType \"21,B,8,8,N1,0\"] [SetUp \"1\"] [FEN \"W:W16,23:B12\"] 5. 23-19 * [SetUp \"0\"] 1. 9-13 1... 22-18 2. 11-15 *",
    b"*1. 9-13 [GameType \"21,B\"] *",
    b"[Event \"Club [fen]\"] [FEN \"W:W16,23:B12\"] 1. 23-19 *\r\n[FEN \"B:W21:B10\"] *",
    b"{[fen \"x\"] * *} 1. 11-15 (22-18 * * [fen]) $1 22-18! ; * *\r\n1-0\r\n",
    b"[GameType \"21\"] 11-15 1-0 % no comment begins here",
    b"[FEN \"W:W16:B12\"] 16-11 [FEN \"W:W16:B12\"] 16-11 1/2-1/2",
    b"\xEF\xBB\xBF* [White \"a\\\"] * *\"] 0-1",
    b"; one line\r\r\n%another\r\n*",
    b"hello",
];

/// The place of the first source of which something is warned, or some text is told.
fn first_warned(alloc: Global) -> Result<Option<usize>, AllocError> {
    for (place, source) in MEANT.iter().enumerate() {
        let told = warnings_text(alloc, source, 0)?.len();
        if (counts(alloc, source, 0)?, told) != ((0, 0), 0) {
            return Ok(Some(place));
        }
    }
    Ok(None)
}

#[test]
fn sources_that_are_meant_so(rt: HostRuntime) -> Result<(), Fail> {
    assert_eq!(rt; first_warned(rt.alloc())?, None);
    Ok(())
}

/// Whether these and no other warnings are told of a source.
fn is_warned(
    alloc: Global,
    source: &[u8],
    plies: usize,
    due: &[Warning],
) -> Result<bool, AllocError> {
    Ok(warnings_of(alloc, source, plies)?.told.as_slice() == due)
}

/// A source with each cause that is looked for when no plies are asked.
const FAULTY: &[u8] =
    b"[fen \"B:W:B1\"] [gametype \"20\"] 9-13 1-0\n; so\r[FEN \"W:W16:B12\"] *\n[FEN \"W:W16:B12\"] [FEN \"W:W16:B11\"] * *";

const FAULTS: [Warning; 5] = [
    Warning {
        at: 0,
        cause: Cause::LikeFen,
    },
    Warning {
        at: 15,
        cause: Cause::LikeGameType,
    },
    Warning {
        at: 40,
        cause: Cause::RunsOn,
    },
    Warning {
        at: 83,
        cause: Cause::SecondFen,
    },
    Warning {
        at: 103,
        cause: Cause::SecondResult,
    },
];

/// A source with tags, numbers of moves and a star that may be meant otherwise.
const DOUBTFUL: &[u8] =
    b"[SetUp \"1\"] [Event \"a\"] [Event \"b\"] 3. 9-13 2. 9-14 * [GameType \"21,W\"] [GameType \"21\"] *11-15 1. 9-13 [White \"x\"] [SetUp \"1\"] [White \"x\"]";

const DOUBTS: [Warning; 9] = [
    Warning {
        at: 24,
        cause: Cause::SecondTag,
    },
    Warning {
        at: 36,
        cause: Cause::FirstNumber,
    },
    Warning {
        at: 0,
        cause: Cause::LacksFen,
    },
    Warning {
        at: 44,
        cause: Cause::LesserNumber,
    },
    Warning {
        at: 54,
        cause: Cause::OtherGameType,
    },
    Warning {
        at: 72,
        cause: Cause::SecondTag,
    },
    Warning {
        at: 89,
        cause: Cause::StarMove,
    },
    Warning {
        at: 127,
        cause: Cause::SecondTag,
    },
    Warning {
        at: 103,
        cause: Cause::LacksFen,
    },
];

const NO_GAME: [Warning; 1] = [Warning {
    at: 0,
    cause: Cause::NoGame,
}];

#[test]
fn each_cause_has_its_place(rt: HostRuntime) -> Result<(), Fail> {
    assert!(rt; is_warned(rt.alloc(), FAULTY, 0, &FAULTS)?);
    assert!(rt; is_warned(rt.alloc(), DOUBTFUL, 0, &DOUBTS)?);
    assert!(rt; is_warned(rt.alloc(), b"", 3, &NO_GAME)?);
    Ok(())
}

/// Games of two plies, of one, of three and of none.
const SHORT: &[u8] =
    b"1. 11-15 22-18 * [Event \"two\"] 9-13 [Event \"three\"] 9-14 22-18 11-16 1/2-1/2 *";

const FEW_PLIES: [Warning; 3] = [
    Warning {
        at: 3,
        cause: Cause::FewPlies { game: 1, plies: 2 },
    },
    Warning {
        at: 17,
        cause: Cause::FewPlies { game: 2, plies: 1 },
    },
    Warning {
        at: 77,
        cause: Cause::SecondResult,
    },
];

#[test]
fn games_with_few_plies(rt: HostRuntime) -> Result<(), Fail> {
    assert!(rt; is_warned(rt.alloc(), SHORT, 3, &FEW_PLIES)?);
    Ok(())
}

/// A source, how many plies are asked, and the text that is told.
type Case = (&'static [u8], usize, &'static str);

/// The texts on these sources say so.
fn expect(rt: &impl Abort, alloc: Global, cases: &[Case]) -> Result<(), Fail> {
    for (source, plies, want) in cases {
        let told = warnings_text(alloc, source, *plies)?;
        assert!(rt; told.as_slice() == want.as_bytes(), "{want}");
    }
    Ok(())
}

const TEXTS: &[Case] = &[
    (
        b"[Event \"Club\"]\n [Fen \"W:W16,23:B12\"] 9-13 *",
        0,
        "warning: line 2, column 2:\n   [Fen \"W:W16,23:B12\"] 9-13 *\n   ^\nThis tag is not looked at: names of tags are compared letter for letter. The game begins from its tag `FEN`, or else from the start. Write [FEN \"..\"].\n",
    ),
    (
        b"[GAMETYPE \"20\"] *",
        0,
        "warning: line 1, column 1:\n  [GAMETYPE \"20\"] *\n  ^\nThis tag is not looked at: names of tags are compared letter for letter. The game is taken as English draughts. Write [GameType \"21\"], or take games of another kind out.\n",
    ),
    (
        b"[FEN \"W:W16,23:B12\"]\n[FEN \"B:W21:B10,17\"]",
        0,
        "warning: line 2, column 1:\n  [FEN \"B:W21:B10,17\"]\n  ^\nThis position is not looked at: its game has one already, and the first counts. Write a result, as `*`, behind each position that is to be a game of its own.\n",
    ),
    (
        b"9-13 1-0 {Black resigned} *",
        0,
        "warning: line 1, column 27:\n  9-13 1-0 {Black resigned} *\n                            ^\nThis result stands straight behind another and is read as a game of its own, without moves, from the start. Leave one of the two out.\n",
    ),
    (
        b"; from a club\r[FEN \"W:W16,23:B12\"] *\r",
        0,
        "warning: line 1, column 1:\n  ; from a club\n  ^\nThis comment goes on behind its line, which ends with a carriage return (byte 13) alone: what stands up to the next line feed (byte 10) is not read. End lines with a line feed, or write the comment in braces: {so}.\nwarning: line 1, column 1:\n  ; from a club\n  ^\nNo game stands here, so no position is added. A lone `*` is a game that has not begun.\n",
    ),
    (
        b"* 9-13",
        2,
        "warning: line 1, column 1:\n  * 9-13\n  ^\nGame 1 begins here and has fewer moves than the 2 plies of `--plies`: 0. Its opening is the position after all of them.\nwarning: line 1, column 3:\n  * 9-13\n    ^\nGame 2 begins here and has fewer moves than the 2 plies of `--plies`: 1. Its opening is the position after all of them.\n",
    ),
];

#[test]
fn texts_say_what_to_write(rt: HostRuntime) -> Result<(), Fail> {
    expect(&rt, rt.alloc(), TEXTS)
}

/// How often the text on a source speaks of a result, and whether the text ends so.
fn result_count(alloc: Global, source: &[u8], end: &str) -> Result<(usize, bool), Fail> {
    let text = String::from_utf8(warnings_text(alloc, source, 0)?)?;
    let text = text.as_str();
    Ok((text.matches("This result").count(), text.ends_with(end)))
}

#[test]
fn ten_are_told_and_the_rest_counted(rt: HostRuntime) -> Result<(), Fail> {
    let source = b"* * * * * * * * * * * * * *";
    let end = "Leave one of the two out.\nwarning: and 3 more.\n";
    assert!(rt; counts(rt.alloc(), source, 0)? == (10, 3));
    assert!(rt; result_count(rt.alloc(), source, end)? == (10, true));
    Ok(())
}
