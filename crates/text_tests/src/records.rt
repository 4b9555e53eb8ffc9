//! Records of version 1 byte by byte, written out from the format: each mask holds square n as the bit of value
//! 2^(n - 1).
ghost use Rattle.std.specs.Prelude.{IfOk};

use RecordRefusal::*;
use bench_records::{BenchRecord, Named, RecordRefusal, decode, encode_full};
use draughts_board::{Cell, Move, PlaceRefusal, Position, Side, Square};
use std::alloc::{AllocError, Global};
use std::process::Abort;
use std::test::Fail;
use strategy_certificate::{Certificate, Claim, Part, WinEntry, WinPart};

/// A root begins: B:W16,19:B12, a Black man on bit 11 and White men on bits 15 and 18.
pub(crate) const BEGIN: [u8; 18] = [1, 0, 0, 0, 8, 0, 0, 0, 0, 0, 0, 4, 128, 0, 0, 0, 0, 0];

/// The journal with this record alone: its head, an open gate, the length of the frame's body in 8
/// bytes, that of the payload in 4, the payload, and a closed gate.
const JOURNAL: [u8; 40] = [
    68, 82, 66, 69, 78, 67, 72, 2, 1, 0, 0, 0, 0, 0, 0, 0, 22, 0, 0, 0, 18, 1, 0, 0, 0, 8, 0, 0, 0,
    0, 0, 0, 4, 128, 0, 0, 0, 0, 0, 0,
];

/// Node 1 is expanded.
pub(crate) const EXPAND: [u8; 9] = [3, 0, 0, 0, 0, 0, 0, 0, 1];

/// Node 0, W:W16,23:B12, is won for White: 23-19 leaves Black without a move.
pub(crate) const SOLVE: [u8; 86] = [
    2, 0, 0, 0, 0, 0, 0, 0, 0, // the kind, and the node
    1, 0, 0, 8, 0, 0, 0, 0, 0, 0, 64, 128, 0, 0, 0, 0, 0, // from 9: its position
    1, 2, 0, 0, 0, 2, // from 26: one certificate, a win of White, with two entries
    1, 0, 0, 8, 0, 0, 0, 0, 0, 0, 64, 128, 0, 0, 0, 0, 0, // from 32: W:W16,23:B12
    0, 0, 0, 0, 0, 0, 0, 1, 2, 23, 19, // from 49: rank 1, and from 57: two squares, 23 and 19
    0, 0, 0, 8, 0, 0, 0, 0, 0, 0, 4, 128, 0, 0, 0, 0, 0, // from 60: B:W16,19:B12
    0, 0, 0, 0, 0, 0, 0, 0, 0, // from 77: rank 0, and at 85: no move
];

/// Node 7, B:WK32:BK1, is held by both sides, by the table alone.
const DRAW: [u8; 38] = [
    2, 0, 0, 0, 0, 0, 0, 0, 7, // the kind, and the node
    0, 0, 0, 0, 0, 0, 0, 0, 1, 0, 0, 0, 0, 128, 0, 0, 0, // from 9: its position
    2, 3, 0, 0, 0, 0, 4, 0, 0, 0, 0, 0, // from 26: two empty certificates, and one byte too many
];

/// W:W16,23:B12
pub(crate) fn won() -> Result<Position, PlaceRefusal> {
    let mut cells = [Cell::Empty; 32];
    cells[16 - 1] = Cell::Man(Side::White);
    cells[23 - 1] = Cell::Man(Side::White);
    cells[12 - 1] = Cell::Man(Side::Black);
    Position::place(cells, Side::White)
}

/// B:W16,19:B12
pub(crate) fn blocked() -> Result<Position, PlaceRefusal> {
    let mut cells = [Cell::Empty; 32];
    cells[16 - 1] = Cell::Man(Side::White);
    cells[19 - 1] = Cell::Man(Side::White);
    cells[12 - 1] = Cell::Man(Side::Black);
    Position::place(cells, Side::Black)
}

/// What is read of the bytes, where no position is named before.
fn read(alloc: Global, bytes: &[u8], pieces: u8) -> Result<BenchRecord, RecordRefusal> {
    let none = Named::new(alloc);
    decode(alloc, bytes, pieces, &none)
}

/// The refusal of the bytes, if they are refused.
fn refusal(alloc: Global, bytes: &[u8]) -> Option<RecordRefusal> {
    match read(alloc, bytes, 2) {
        Ok(_) => None,
        Err(refusal) => Some(refusal),
    }
}

/// What is read of the bytes, written again in full.
fn written_again(alloc: Global, bytes: &[u8]) -> Result<Vec<u8>, RecordRefusal> {
    let none = Named::new(alloc);
    let record = decode(alloc, bytes, 2, &none)?;
    Ok(encode_full(alloc, &record)?)
}

/// Whether it is written again as these bytes.
fn is_written_again(alloc: Global, bytes: &[u8]) -> Result<bool, RecordRefusal> {
    Ok(written_again(alloc, bytes)?.as_slice() == bytes)
}

/// The text of version 1 by which a root begins.
fn begin_text(alloc: Global, p: Position) -> Result<Vec<u8>, AllocError> {
    encode_full(alloc, &BenchRecord::Begin(p))
}

/// The text by which a node is expanded.
fn expand_text(alloc: Global, node: u64) -> Result<Vec<u8>, AllocError> {
    encode_full(alloc, &BenchRecord::Expand { node })
}

/// The position with which the bytes say that a root begins.
fn begun(alloc: Global, bytes: &[u8]) -> Result<Option<Position>, RecordRefusal> {
    match read(alloc, bytes, 2)? {
        BenchRecord::Begin(p) => Ok(Some(p)),
        _ => Ok(None),
    }
}

/// Whether a root begins with the position by this text.
fn is_begun_by(alloc: Global, p: Position, text: &[u8]) -> Result<bool, AllocError> {
    Ok(begin_text(alloc, p)?.as_slice() == text)
}

#[test]
fn a_root_begins_with_18_bytes(rt: HostRuntime) -> Result<(), Fail> {
    let p = blocked()?;
    assert!(rt; is_begun_by(rt.alloc(), p, &BEGIN)?);
    assert!(rt; begun(rt.alloc(), &BEGIN)? == Some(p));
    Ok(())
}

#[test]
fn a_journal_holds_the_record(rt: HostRuntime) {
    assert!(rt; JOURNAL.get(21..39) == Some(BEGIN.as_slice()));
}

/// The node that the bytes say is expanded.
fn expanded(alloc: Global, bytes: &[u8]) -> Result<Option<u64>, RecordRefusal> {
    match read(alloc, bytes, 3)? {
        BenchRecord::Expand { node } => Ok(Some(node)),
        _ => Ok(None),
    }
}

/// The last node is expanded.
const EXPAND_LAST: [u8; 9] = [3, 255, 255, 255, 255, 255, 255, 255, 255];

/// Whether the node is expanded by this text.
fn is_expanded_by(alloc: Global, node: u64, text: &[u8]) -> Result<bool, AllocError> {
    Ok(expand_text(alloc, node)?.as_slice() == text)
}

#[test]
fn a_node_is_expanded_with_9_bytes(rt: HostRuntime) -> Result<(), Fail> {
    let written = [
        is_expanded_by(rt.alloc(), 1, &EXPAND)?,
        is_expanded_by(rt.alloc(), u64::MAX, &EXPAND_LAST)?,
    ];
    assert!(rt; written == [true, true]);
    assert!(rt; expanded(rt.alloc(), &EXPAND)? == Some(1));
    Ok(())
}

/// The step 23-19.
fn step() -> Option<Move> {
    Move::of(&[Square::new(23)?, Square::new(19)?])
}

/// The side of a win part with two entries, and these.
pub(crate) type TwoEntries = (Side, (Position, WinEntry), (Position, WinEntry));

/// What the win part says, where it has two entries.
fn two_entries(part: &WinPart) -> Option<TwoEntries> {
    if part.len() != 2 {
        return None;
    }
    Some((part.side(), part.entry(0), part.entry(1)))
}

/// What the only part of the certificate says.
fn only_win(c: &Certificate) -> Option<TwoEntries> {
    match c.parts.as_slice() {
        [Part::Win(part)] => two_entries(part),
        _ => None,
    }
}

/// What a certificate says beside its parts: its position and its claim, and how many pieces the
/// table has.
pub(crate) type Head = (Position, Claim, u8);

/// What the certificate says beside its parts.
fn head(c: &Certificate) -> Head {
    (c.position, c.claim, c.pieces)
}

/// A node and its position, and of its one certificate the head and the only part.
pub(crate) type SolvedByOne = (u64, Position, Head, TwoEntries);

/// A node and its position, and the heads of its two certificates.
type SolvedByTwo = (u64, Position, Head, Head);

/// What the record says of a solved node with one certificate.
pub(crate) fn solved_by_one(record: &BenchRecord) -> Option<SolvedByOne> {
    let BenchRecord::Solve {
        node,
        position,
        shown,
    } = record
    else {
        return None;
    };
    match shown.as_slice() {
        [c] => Some((*node, *position, head(c), only_win(c)?)),
        _ => None,
    }
}

/// What the record says of a solved node with two certificates.
fn solved_by_two(record: &BenchRecord) -> Option<SolvedByTwo> {
    let BenchRecord::Solve {
        node,
        position,
        shown,
    } = record
    else {
        return None;
    };
    match shown.as_slice() {
        [a, b] => Some((*node, *position, head(a), head(b))),
        _ => None,
    }
}

/// What the bytes say of a solved node with one certificate.
fn read_by_one(alloc: Global, bytes: &[u8]) -> Result<Option<SolvedByOne>, RecordRefusal> {
    Ok(solved_by_one(&read(alloc, bytes, 3)?))
}

/// What the bytes say of a solved node with two certificates.
fn read_by_two(alloc: Global, bytes: &[u8]) -> Result<Option<SolvedByTwo>, RecordRefusal> {
    Ok(solved_by_two(&read(alloc, bytes, 2)?))
}

/// What the solved node of 86 bytes says.
pub(crate) fn win_in_one() -> Result<SolvedByOne, PlaceRefusal> {
    let (won, blocked) = (won()?, blocked()?);
    let first = WinEntry {
        rank: 1,
        chosen: step(),
    };
    let second = WinEntry {
        rank: 0,
        chosen: None,
    };
    let part = (Side::White, (won, first), (blocked, second));
    Ok((0, won, (won, Claim::Win(Side::White), 3), part))
}

#[test]
fn a_node_is_solved_with_86_bytes(rt: HostRuntime) -> Result<(), Fail> {
    assert!(rt; is_written_again(rt.alloc(), &SOLVE)?);
    assert!(rt; read_by_one(rt.alloc(), &SOLVE)? == Some(win_in_one()?));
    Ok(())
}

/// What the 37 bytes of the draw say.
fn draw() -> Option<SolvedByTwo> {
    let p = Position::of_masks([0, 1, 0, 1 << 31], Side::Black)?;
    let (black, white) = (Claim::Hold(Side::Black), Claim::Hold(Side::White));
    Some((7, p, (p, black, 2), (p, white, 2)))
}

#[test]
fn two_holds_show_a_draw(rt: HostRuntime) -> Result<(), Fail> {
    let text = &DRAW[..37];
    assert!(rt; is_written_again(rt.alloc(), text)?);
    let due = draw().ok_or("a position")?;
    assert!(rt; read_by_two(rt.alloc(), text)? == Some(due));
    // With the one byte too many.
    assert!(rt; refusal(rt.alloc(), &DRAW) == Some(Trailing(37)));
    Ok(())
}

/// The place of a byte, what stands there now, and how the bytes are then refused.
pub(crate) type Damage = (usize, u8, RecordRefusal);

/// The refusal of the bytes with this one in place of theirs, or behind them.
fn refusal_with(
    alloc: Global,
    bytes: &[u8],
    at: usize,
    value: u8,
) -> Result<Option<RecordRefusal>, AllocError> {
    let mut changed = bytes.to_vec(alloc)?;
    match changed.get_mut(at) {
        Some(byte) => *byte = value,
        None => changed.push(value)?,
    }
    Ok(refusal(alloc, changed.as_slice()))
}

/// Whether the bytes are refused so.
fn is_refused(alloc: Global, bytes: &[u8], case: &Damage) -> Result<bool, AllocError> {
    Ok(refusal_with(alloc, bytes, case.0, case.1)? == Some(case.2))
}

/// The bytes are refused so with each of these in place of theirs, or behind them.
fn expect_refused(
    rt: &impl Abort,
    alloc: Global,
    bytes: &[u8],
    cases: &[Damage],
) -> Result<(), Fail> {
    for case in cases {
        assert!(rt; is_refused(alloc, bytes, case)?, "{} at {}", case.1, case.0);
    }
    Ok(())
}

/// One byte of the solved node is another.
const DAMAGED_SOLVE: &[Damage] = &[
    // a side that is neither
    (9, 2, BadField(9)),
    (9, 255, BadField(9)),
    // a Black man on 29 and on 32
    (10, 16, BadField(9)),
    (10, 128, BadField(9)),
    // a Black king and a White king on 12, where the Black man stands
    (16, 8, BadField(9)),
    (24, 8, BadField(9)),
    // a Black man on 16, where a White man stands
    (12, 136, BadField(9)),
    // a White man on 1 and on 4
    (21, 1, BadField(9)),
    (21, 8, BadField(9)),
    // no certificate, and five
    (26, 0, BadField(26)),
    (26, 5, BadField(26)),
    (26, 255, BadField(26)),
    // a second certificate that is not there
    (26, 2, BadField(86)),
    // claims before the first and behind the last
    (27, 0, BadField(27)),
    (27, 5, BadField(27)),
    // a third entry that is not there, and more
    (31, 3, BadField(86)),
    (28, 1, BadField(86)),
    (28, 255, BadField(86)),
    // in the first entry: a side, a man on its farthest row, two pieces on one square
    (32, 3, BadField(32)),
    (33, 64, BadField(32)),
    (44, 2, BadField(32)),
    (39, 8, BadField(32)),
    // a rank of 2^40 + 1, and greater ones
    (51, 1, BadField(49)),
    (50, 1, BadField(49)),
    (49, 128, BadField(49)),
    // one square, fourteen, and more
    (57, 1, BadField(57)),
    (57, 14, BadField(57)),
    (57, 255, BadField(57)),
    // three squares, of which the last is the next side byte
    (57, 3, BadField(60)),
    // no move: the first square is taken for a side
    (57, 0, BadField(58)),
    // squares before the first and behind the last
    (58, 0, BadField(58)),
    (58, 33, BadField(58)),
    (59, 0, BadField(59)),
    (59, 33, BadField(59)),
    (59, 255, BadField(59)),
    // in the second entry: a side, a man on its farthest row, two pieces on one square
    (60, 7, BadField(60)),
    (61, 32, BadField(60)),
    (72, 4, BadField(60)),
    (75, 128, BadField(60)),
    // ranks above 2^40
    (79, 2, BadField(77)),
    (78, 1, BadField(77)),
    (77, 1, BadField(77)),
    // one square, fourteen, and a move whose squares are not there
    (85, 1, BadField(85)),
    (85, 14, BadField(85)),
    (85, 2, BadField(86)),
    (85, 13, BadField(86)),
    // a part of one entry and of none, which leave the rest behind the record
    (31, 1, Trailing(60)),
    (31, 0, Trailing(32)),
    // A hold has no ranks: the first byte of the rank says that no move is chosen, and the 17 bytes
    // from 50 on, with Black kings on 1, 2, 3, 5, 10 and 17, White men on 25, 26 and 29 and a White
    // king on 28, are a position without one.
    (27, 3, Trailing(68)),
    (27, 4, Trailing(68)),
    // a byte behind the record
    (86, 0, Trailing(86)),
];

/// One byte of a root that begins is another.
const DAMAGED_BEGIN: &[Damage] = &[
    (1, 2, BadField(1)),
    (1, 128, BadField(1)),
    (2, 16, BadField(1)),
    (13, 1, BadField(1)),
    (8, 8, BadField(1)),
    (16, 128, BadField(1)),
    // a byte behind the record
    (18, 9, Trailing(18)),
];

/// Kinds that are none.
const KINDS: &[Damage] = &[
    (0, 0, BadKind),
    (0, 6, BadKind),
    (0, 128, BadKind),
    (0, 255, BadKind),
];

/// The solved node by the kinds of version 2. The first four zeros are the number of the position
/// that begins a root. The side and the Black men are a number beyond the list of none.
const SHORT_KINDS: &[Damage] = &[(0, 4, Trailing(22)), (0, 5, BadField(9))];

#[test]
fn damaged_bytes_are_refused(rt: HostRuntime) -> Result<(), Fail> {
    expect_refused(&rt, rt.alloc(), &SOLVE, DAMAGED_SOLVE)?;
    expect_refused(&rt, rt.alloc(), &BEGIN, DAMAGED_BEGIN)?;
    expect_refused(&rt, rt.alloc(), &EXPAND, &[(9, 3, Trailing(9))])?;
    expect_refused(&rt, rt.alloc(), &SOLVE, KINDS)?;
    expect_refused(&rt, rt.alloc(), &SOLVE, SHORT_KINDS)?;
    expect_refused(&rt, rt.alloc(), &[3], KINDS)
}

// The second entry's position made that of the first: its side, and White's man from 19 to 23.
#[test]
fn a_position_stands_once_in_a_part(rt: HostRuntime) -> Result<(), Fail> {
    let mut other_side = SOLVE;
    other_side[60] = 1;
    let same = refusal_with(rt.alloc(), &other_side, 70, 64)?;
    assert!(rt; [refusal(rt.alloc(), &other_side), same] == [None, Some(BadField(60))]);
    Ok(())
}

// The greatest rank, 2^40, is read and written again.
#[test]
fn the_greatest_rank_is_read(rt: HostRuntime) -> Result<(), Fail> {
    let mut bytes = SOLVE;
    bytes[79] = 1;
    assert!(rt; is_written_again(rt.alloc(), &bytes)?);
    Ok(())
}

/// The last of the fields that begins there or before.
pub(crate) fn field_at(fields: &[usize], at: usize) -> usize {
    let mut field = 1;
    for begin in fields {
        if *begin <= at {
            field = *begin;
        }
    }
    field
}

/// The length of the first front of the bytes that is not refused at its last field; none where each
/// front is, and all the bytes are read.
fn first_other_front(alloc: Global, bytes: &[u8], fields: &[usize]) -> Option<usize> {
    for length in 1..bytes.len() {
        if refusal(alloc, &bytes[..length]) != Some(BadField(field_at(fields, length))) {
            return Some(length);
        }
    }
    match refusal(alloc, bytes) {
        None => None,
        Some(_) => Some(bytes.len()),
    }
}

/// The places of the fields of the solved node and of the draw.
const SOLVE_FIELDS: [usize; 13] = [1, 9, 26, 27, 28, 32, 49, 57, 58, 59, 60, 77, 85];

const DRAW_FIELDS: [usize; 7] = [1, 9, 26, 27, 28, 32, 33];

#[test]
fn every_front_is_refused(rt: HostRuntime) {
    assert_eq!(rt; refusal(rt.alloc(), &[]), Some(BadKind));
    let others = [
        first_other_front(rt.alloc(), &BEGIN, &[1]),
        first_other_front(rt.alloc(), &EXPAND, &[1]),
        first_other_front(rt.alloc(), &SOLVE, &SOLVE_FIELDS),
        first_other_front(rt.alloc(), &DRAW[..37], &DRAW_FIELDS),
    ];
    assert_eq!(rt; others, [None; 4]);
}

/// What is printed of the refusals, a line each.
fn printed(alloc: Global) -> Result<String, AllocError> {
    format!(in alloc;
        "{}\n{}\n{}\n{}\n",
        BadKind,
        BadField(9),
        Trailing(86),
        Memory(AllocError)
    )
}

#[test]
fn refusals_name_their_places(rt: HostRuntime) -> Result<(), Fail> {
    let due = "no record has this kind\n\
        the field at byte 9 is not whole or not allowed\n\
        bytes follow the record from byte 86\n\
        out of memory\n";
    assert_eq!(rt; printed(rt.alloc())?.as_str(), due);
    Ok(())
}
