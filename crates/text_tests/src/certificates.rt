//! Texts and their outcomes, worked out by hand from the format.
use TextRefusal::*;
use certificate_text::{TextRefusal, print_certificate, read_certificate};
use std::alloc::{AllocError, Global};
use std::process::Abort;
use std::test::Fail;

const WIN: &str = "certificate 1\ntable 2\nposition W:W16,23:B12\nclaim white-wins\nwin white 2\n\
    W:W16,23:B12 1 23-19\nB:W16,19:B12 0\nend\n";

const DRAW: &str = "certificate 1\ntable 2\nposition B:WK1,K19:BK15\nclaim draw\nhold black 1\n\
    B:WK1,K19:BK15 15x24\nhold white 1\nB:WK1,K19:BK15\nend\n";

/// How many pieces the table has of the certificate that has this text, where it is printed so
/// again.
fn pieces_of(alloc: Global, text: &[u8]) -> Result<Option<u8>, Fail> {
    let c = read_certificate(alloc, text)?;
    let printed = print_certificate(alloc, &c)?;
    if printed.as_slice() == text {
        Ok(Some(c.pieces))
    } else {
        Ok(None)
    }
}

/// The refusal of the text, if it is refused.
fn refusal(alloc: Global, text: &[u8]) -> Option<TextRefusal> {
    match read_certificate(alloc, text) {
        Ok(_) => None,
        Err(refusal) => Some(refusal),
    }
}

#[test]
fn reads_and_prints_back(rt: HostRuntime) -> Result<(), Fail> {
    let pieces = [
        pieces_of(rt.alloc(), WIN.as_bytes())?,
        pieces_of(rt.alloc(), DRAW.as_bytes())?,
    ];
    assert_eq!(rt; pieces, [Some(2), Some(2)]);
    Ok(())
}

/// The length of the first proper prefix that is not refused as one; none where each is.
fn first_other_prefix(alloc: Global, text: &[u8]) -> Option<usize> {
    for length in 0..text.len() {
        if refusal(alloc, &text[..length]) != Some(Truncated) {
            return Some(length);
        }
    }
    None
}

#[test]
fn every_proper_prefix_is_truncated(rt: HostRuntime) {
    let others = [
        first_other_prefix(rt.alloc(), WIN.as_bytes()),
        first_other_prefix(rt.alloc(), DRAW.as_bytes()),
    ];
    assert_eq!(rt; others, [None, None]);
}

/// Where each line of the first text begins and ends.
const SPANS: [(usize, usize); 8] = [
    (0, 13),
    (14, 21),
    (22, 43),
    (44, 60),
    (61, 72),
    (73, 93),
    (94, 108),
    (109, 112),
];

/// The first text with its line n, counted from 1, in place of its own.
fn with_line(alloc: Global, n: usize, line: &str) -> Result<String, AllocError> {
    let (from, to) = SPANS.get(n.wrapping_sub(1)).copied().unwrap_or((0, 0));
    let front = WIN.get(..from).unwrap_or("");
    let back = WIN.get(to..).unwrap_or("");
    format!(in alloc; "{front}{line}{back}")
}

/// A line's number, what stands there in place of it, and how the text is then refused.
type Damage = (usize, &'static str, TextRefusal);

/// The refusal of the first text with this line in place of its own.
fn refusal_with(alloc: Global, n: usize, line: &str) -> Result<Option<TextRefusal>, AllocError> {
    let text = with_line(alloc, n, line)?;
    Ok(refusal(alloc, text.as_str().as_bytes()))
}

/// Each of the texts is refused so.
fn expect_refused(rt: &impl Abort, alloc: Global, cases: &[Damage]) -> Result<(), Fail> {
    for (n, line, want) in cases {
        assert_eq!(rt; refusal_with(alloc, *n, line)?, Some(*want), "{n} {line}");
    }
    Ok(())
}

const DAMAGED: &[Damage] = &[
    // The first line.
    (1, "", BadLine(1)),
    (1, "certificate", BadLine(1)),
    (1, "certificate 2", BadLine(1)),
    (1, "certificate 1 ", BadLine(1)),
    (1, "Certificate 1", BadLine(1)),
    // The table.
    (2, "table 1", BadLine(2)),
    (2, "table 4", BadLine(2)),
    (2, "table 02", BadLine(2)),
    (2, "table  2", BadLine(2)),
    (2, "table", BadLine(2)),
    // The position: its field is looked at only where the rest of the line fits.
    (3, "position", BadLine(3)),
    (3, "Position W:W16,23:B12", BadLine(3)),
    (3, "position W:W16,23:B12 ", BadLine(3)),
    (3, "position x y", BadLine(3)),
    (3, "position ", BadFen(3)),
    (3, "position x", BadFen(3)),
    (3, "position W:W23,16:B12", BadFen(3)),
    (3, "position W:W16,23:B12.", BadFen(3)),
    (3, "position W:B12:W16,23", BadFen(3)),
    (3, "position W:W016,23:B12", BadFen(3)),
    (3, "position W:W16,16:B12", BadFen(3)),
    // The claim.
    (4, "claim", BadLine(4)),
    (4, "claim white", BadLine(4)),
    (4, "claim white-draws", BadLine(4)),
    (4, "claim white-wins ", BadLine(4)),
    // The first line of a part.
    (5, "win white", BadLine(5)),
    (5, "win white ", BadLine(5)),
    (5, "win White 2", BadLine(5)),
    (5, "win white 02", BadLine(5)),
    (5, "win white -2", BadLine(5)),
    (5, "win white 4294967296", BadLine(5)),
    (5, "draw white 2", BadLine(5)),
    (5, "win white 1", BadLine(7)),
    (5, "win white 3", BadLine(8)),
    (5, "win white 4294967295", BadLine(8)),
    (5, "hold white 2", BadLine(6)),
    (5, "end", AfterEnd(6)),
    // An entry: its rank, its move, and then its position.
    (6, "W:W16,23:B12", BadLine(6)),
    (6, "W:W16,23:B12 ", BadLine(6)),
    (6, "W:W16,23:B12 01 23-19", BadLine(6)),
    (6, "W:W16,23:B12 +1 23-19", BadLine(6)),
    (6, "W:W16,23:B12 4611686018427387905 23-19", BadLine(6)),
    (6, "W:W16,23:B12 18446744073709551616 23-19", BadLine(6)),
    (6, "W:W16,23:B12 1 23x19", BadLine(6)),
    (6, "W:W16,23:B12 1 23-14", BadLine(6)),
    (6, "W:W16,23:B12 1 23", BadLine(6)),
    (6, "W:W16,23:B12 1 23-", BadLine(6)),
    (6, "W:W16,23:B12 1 23-33", BadLine(6)),
    (6, "W:W16,23:B12 1 0-19", BadLine(6)),
    (6, "W:W16,23:B12 1 023-19", BadLine(6)),
    (6, "W:W16,23:B12 1 23x14-5", BadLine(6)),
    (
        6,
        "W:W16,23:B12 1 1x10x1x10x1x10x1x10x1x10x1x10x1x10",
        BadLine(6),
    ),
    (6, "W:W16,23:B12 1 23-19 ", BadLine(6)),
    (6, "x 1 23-19", BadFen(6)),
    (6, " 1 23-19", BadFen(6)),
    (6, "W:W23,16:B12 1 23-19", BadFen(6)),
    (6, "x y", BadLine(6)),
    // The second entry.
    (7, "W:W16,23:B12 0", Doubled(7)),
    (7, "W:W16,23:B12 1 23-19", Doubled(7)),
    (7, "W:W16,23:B12 1 23x19", BadLine(7)),
    // The last line.
    (8, "End", BadLine(8)),
    (8, "end ", BadLine(8)),
    (8, "win white 1", Truncated),
    (8, "win white 0", Truncated),
    (8, "end\nx", AfterEnd(9)),
    (8, "end\n", AfterEnd(9)),
];

#[test]
fn refuses_damaged_lines(rt: HostRuntime) -> Result<(), Fail> {
    expect_refused(&rt, rt.alloc(), DAMAGED)
}

/// A line's number, what stands there in place of it, and how many pieces the table then has.
type Fitting = (usize, &'static str, u8);

const FITTING: &[Fitting] = &[
    (2, "table 3", 3),
    (4, "claim black-wins", 2),
    (4, "claim black-holds", 2),
    (4, "claim white-holds", 2),
    (4, "claim draw", 2),
    (5, "win black 2", 2),
    (6, "W:W16,23:B12 0", 2),
    (6, "W:W16,23:B12 4611686018427387904 23x14", 2),
    (6, "W:W16,23:B12 1 23-19-15", 2),
    (6, "W:W16,23:B12 1 1x10x1x10x1x10x1x10x1x10x1x10x1", 2),
    (8, "hold black 0\nend", 2),
    // Another part may hold the same position.
    (8, "win white 1\nW:W16,23:B12 1 23-19\nend", 2),
];

/// How many pieces the table has, where the text with this line is printed so again.
fn pieces_with(alloc: Global, n: usize, line: &str) -> Result<Option<u8>, Fail> {
    let text = with_line(alloc, n, line)?;
    pieces_of(alloc, text.as_str().as_bytes())
}

#[test]
fn reads_what_fits(rt: HostRuntime) -> Result<(), Fail> {
    for (n, line, pieces) in FITTING {
        assert!(rt;
            pieces_with(rt.alloc(), *n, line)? == Some(*pieces),
            "{n} {line}"
        );
    }
    Ok(())
}

/// What is printed of the refusals, a line each.
fn printed(alloc: Global) -> Result<String, AllocError> {
    format!(in alloc;
        "{}\n{}\n{}\n{}\n{}\n{}\n",
        BadLine(7),
        BadFen(7),
        Doubled(7),
        Truncated,
        AfterEnd(9),
        Memory(AllocError)
    )
}

#[test]
fn refusals_name_their_data(rt: HostRuntime) -> Result<(), Fail> {
    let due = "line 7 may not stand there\n\
        the position of line 7 is no printed FEN\n\
        the position of line 7 stands in its part already\n\
        the text ends too early\n\
        line 9 stands behind the end\n\
        out of memory\n";
    assert_eq!(rt; printed(rt.alloc())?.as_str(), due);
    Ok(())
}
