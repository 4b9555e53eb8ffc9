//! Texts as the formats say them, written out by hand.
use draughts_board::{Position, Side, Square, Value};
use fen_text::{FenRefusal, read_fen};
use opening_report::{Refusal, Root, refusal_line, report, sound_line, verified_line};
use std::process::Abort;
use std::test::Fail;
use strategy_certificate::Claim;

/// The start position where the text is no FEN.
fn position(fen: &str) -> Position {
    match read_fen(fen.as_bytes()) {
        Ok(p) => p,
        Err(_) => Position::start(),
    }
}

/// A root with this position and this value.
fn root(fen: &str, value: Option<Value>) -> Root {
    Root {
        position: position(fen),
        value,
    }
}

/// What is reported on the four roots of the test.
const REPORT: &str =
    "root 1 B:W16,19:B12 white-wins\nroot 2 W:W:BK2 black-wins\nroot 3 B:WK32:BK1 draw\n\
    root 4 B:W28:B20 unsolved\nroots 4 settled 3 unsolved 1\n";

#[test]
fn a_report_has_a_line_for_each_root_and_a_summary(rt: HostRuntime) -> Result<(), Fail> {
    let roots = [
        root("B:W16,19:B12", Some(Value::WhiteWins)),
        root("W:W:BK2", Some(Value::BlackWins)),
        root("B:WK32:BK1", Some(Value::Draw)),
        root("B:W28:B20", None),
    ];
    let text = report(rt.alloc(), &roots)?;
    assert_eq!(rt; text.as_slice(), REPORT.as_bytes());
    Ok(())
}

#[test]
fn a_report_on_nothing_is_a_summary(rt: HostRuntime) -> Result<(), Fail> {
    let text = report(rt.alloc(), &[])?;
    assert_eq!(rt;
        text.as_slice(),
        "roots 0 settled 0 unsolved 0\n".as_bytes()
    );
    Ok(())
}

/// Each refusal has its line.
fn expect(rt: &impl Abort, cases: &[(Refusal, &str)]) {
    for (refusal, line) in cases {
        assert_eq!(rt; refusal_line(refusal).as_str(), *line);
    }
}

const OF_SOURCES: [(Refusal, &str); 13] = [
    (Refusal::Words(3), "refused words at 3\n"),
    (Refusal::TooLong, "refused input too-long\n"),
    (Refusal::PdnBadByte(0), "refused input pdn bad-byte 0\n"),
    (Refusal::PdnOpenTag(7), "refused input pdn open-tag 7\n"),
    (
        Refusal::PdnOpenComment(16777215),
        "refused input pdn open-comment 16777215\n",
    ),
    (
        Refusal::PdnOpenVariation(12),
        "refused input pdn open-variation 12\n",
    ),
    (Refusal::PdnBadMove(5), "refused input pdn bad-move 5\n"),
    (
        Refusal::PdnTooManyGames,
        "refused input pdn too-many-games\n",
    ),
    (Refusal::OtherGame(2), "refused input game 2 other-game\n"),
    (
        Refusal::Illegal {
            game: 1,
            ply: 3,
            at: 18,
        },
        "refused input game 1 ply 3 byte 18 illegal\n",
    ),
    (
        Refusal::Ambiguous {
            game: 1,
            ply: 1,
            at: 27,
        },
        "refused input game 1 ply 1 byte 27 ambiguous\n",
    ),
    (Refusal::Memory, "refused memory\n"),
    (Refusal::Read, "refused read\n"),
];

#[test]
fn refusals_of_words_source_and_moves(rt: HostRuntime) {
    expect(&rt, &OF_SOURCES);
}

const OF_FENS: [(Refusal, &str); 5] = [
    (
        Refusal::Fen(4096, FenRefusal::BadLetter(0)),
        "refused input game 4096 fen bad-letter 0\n",
    ),
    (
        Refusal::Fen(4096, FenRefusal::BadSquare(4)),
        "refused input game 4096 fen bad-square 4\n",
    ),
    (
        Refusal::Fen(4096, FenRefusal::TooMany(Side::Black)),
        "refused input game 4096 fen too-many black\n",
    ),
    (
        Refusal::Fen(4096, FenRefusal::TooMany(Side::White)),
        "refused input game 4096 fen too-many white\n",
    ),
    (
        Refusal::Fen(4096, FenRefusal::Truncated),
        "refused input game 4096 fen truncated\n",
    ),
];

#[test]
fn refusals_of_a_fen(rt: HostRuntime) -> Result<(), Fail> {
    expect(&rt, &OF_FENS);
    let square = Square::new(5).ok_or("no square")?;
    let twice = Refusal::Fen(4096, FenRefusal::Twice(square));
    let last = Refusal::Fen(4096, FenRefusal::ManOnLastRow(square));
    expect(
        &rt,
        &[
            (twice, "refused input game 4096 fen twice 5\n"),
            (last, "refused input game 4096 fen man-on-last-row 5\n"),
        ],
    );
    Ok(())
}

const OF_TABLES: [(Refusal, &str); 4] = [
    (Refusal::TableBadHead, "refused input table bad-head\n"),
    (
        Refusal::TableWrongLength {
            found: 64_527,
            due: 64_528,
        },
        "refused input table wrong-length found 64527 due 64528\n",
    ),
    (
        Refusal::TableBadEntry {
            index: 1073,
            kept: 0,
        },
        "refused input table bad-entry 1073 kept 0\n",
    ),
    (
        Refusal::TableBadEntry {
            index: 651_009,
            kept: u32::MAX,
        },
        "refused input table bad-entry 651009 kept 4294967295\n",
    ),
];

#[test]
fn refusals_of_tables(rt: HostRuntime) {
    expect(&rt, &OF_TABLES);
}

#[test]
fn a_sound_table_has_a_line(rt: HostRuntime) {
    let line = sound_line(2, 16_130);
    assert_eq!(rt; line.as_str(), "sound table 2 entries 16130\n");
}

const OF_TEXTS: [(Refusal, &str); 5] = [
    (
        Refusal::TextBadLine(7),
        "refused input certificate bad-line 7\n",
    ),
    (
        Refusal::TextBadFen(3),
        "refused input certificate bad-fen 3\n",
    ),
    (
        Refusal::TextDoubled(18446744073709551615),
        "refused input certificate doubled 18446744073709551615\n",
    ),
    (
        Refusal::TextTruncated,
        "refused input certificate truncated\n",
    ),
    (
        Refusal::TextAfterEnd(12),
        "refused input certificate after-end 12\n",
    ),
];

#[test]
fn refusals_of_the_text_of_a_certificate(rt: HostRuntime) {
    expect(&rt, &OF_TEXTS);
}

const OF_CHECKS: [(Refusal, &str); 6] = [
    (Refusal::ClaimNotMet, "refused input check claim-not-met\n"),
    (
        Refusal::BadRank { part: 1, entry: 20 },
        "refused input check part 1 entry 20 bad-rank\n",
    ),
    (
        Refusal::BadMove { part: 2, entry: 1 },
        "refused input check part 2 entry 1 bad-move\n",
    ),
    (
        Refusal::Missing {
            part: 3,
            entry: 405,
        },
        "refused input check part 3 entry 405 missing\n",
    ),
    (
        Refusal::StuckHolder {
            part: 18446744073709551615,
            entry: 18446744073709551614,
        },
        "refused input check part 18446744073709551615 \
        entry 18446744073709551614 stuck-holder\n",
    ),
    (
        Refusal::CheckNoRoot(2),
        "refused input check part 2 no-root\n",
    ),
];

#[test]
fn refusals_of_the_check_of_a_certificate(rt: HostRuntime) {
    expect(&rt, &OF_CHECKS);
}

/// Positions, claims on them, and the lines of these.
const VERIFIED: [(&str, Claim, &str); 5] = [
    (
        "W:W16,23:B12",
        Claim::Win(Side::White),
        "verified W:W16,23:B12 white-wins\n",
    ),
    (
        "B:W32:B1,2",
        Claim::Win(Side::Black),
        "verified B:W32:B1,2 black-wins\n",
    ),
    (
        "B:WK1,K19:BK15",
        Claim::Draw,
        "verified B:WK1,K19:BK15 draw\n",
    ),
    (
        "W:WK32:BK1",
        Claim::Hold(Side::Black),
        "verified W:WK32:BK1 black-holds\n",
    ),
    (
        "W:WK32:BK1",
        Claim::Hold(Side::White),
        "verified W:WK32:BK1 white-holds\n",
    ),
];

#[test]
fn a_verified_claim_has_a_line(rt: HostRuntime) {
    for (fen, claim, line) in VERIFIED {
        assert_eq!(rt; verified_line(&position(fen), claim).as_str(), line);
    }
}
