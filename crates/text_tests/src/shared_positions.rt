//! Records of version 2 byte by byte, written out from the format: a position that was named before
//! is its number in 4 bytes, and behind the number of none stand its 17 bytes.
use crate::records::{
    BEGIN, Damage, EXPAND, SOLVE, SolvedByOne, blocked, field_at, solved_by_one, win_in_one, won,
};
use RecordRefusal::*;
use bench_records::{BenchRecord, Named, RecordRefusal, decode, encode};
use draughts_board::Position;
use std::alloc::{AllocError, Global};
use std::process::Abort;
use std::test::Fail;

/// A root begins: B:W16,19:B12, before any position is named.
const SHARED_BEGIN: [u8; 22] = [
    4, 0, 0, 0, 0, 0, 0, 0, 8, 0, 0, 0, 0, 0, 0, 4, 128, 0, 0, 0, 0, 0,
];

/// Node 0, W:W16,23:B12, is won for White, where its position alone is named before: 23-19 leaves
/// Black without a move.
const SHARED_SOLVE: [u8; 64] = [
    5, 0, 0, 0, 0, 0, 0, 0, 0, // the kind, and the node
    0, 0, 0, 0, // from 9: the number of its position
    1, 2, 0, 0, 0, 2, // from 13: one certificate, a win of White, with two entries
    0, 0, 0, 0, // from 19: the same position
    0, 0, 0, 0, 0, 0, 0, 1, 2, 23, 19, // from 23: rank 1, and from 31: two squares, 23 and 19
    0, 0, 0, 1, // from 34: a position that is new
    0, 0, 0, 8, 0, 0, 0, 0, 0, 0, 4, 128, 0, 0, 0, 0, 0, // from 38: B:W16,19:B12
    0, 0, 0, 0, 0, 0, 0, 0, 0, // from 55: rank 0, and at 63: no move
];

/// The same, where both positions are named before.
const SHARED_TWICE: [u8; 47] = [
    5, 0, 0, 0, 0, 0, 0, 0, 0, 0, 0, 0, 0, 1, 2, 0, 0, 0, 2, 0, 0, 0, 0, 0, 0, 0, 0, 0, 0, 0, 1, 2,
    23, 19, 0, 0, 0, 1, 0, 0, 0, 0, 0, 0, 0, 0, 0,
];

/// The list with these positions, by the records that begin roots there.
fn named(alloc: Global, positions: &[Position]) -> Result<Named, AllocError> {
    let mut list = Named::new(alloc);
    for p in positions {
        list.add(&BenchRecord::Begin(*p))?;
    }
    Ok(list)
}

/// The text of the record that these bytes spell in full, behind these positions.
fn shared(alloc: Global, full: &[u8], positions: &[Position]) -> Result<Vec<u8>, RecordRefusal> {
    let none = Named::new(alloc);
    let record = decode(alloc, full, 3, &none)?;
    Ok(encode(alloc, &record, &named(alloc, positions)?)?)
}

/// Whether that is this text.
fn is_shared_as(
    alloc: Global,
    full: &[u8],
    positions: &[Position],
    text: &[u8],
) -> Result<bool, RecordRefusal> {
    Ok(shared(alloc, full, positions)?.as_slice() == text)
}

/// The root's record, the expanded node's, and the solved node's behind one position, behind both,
/// and behind none, where it has 81 bytes.
#[test]
fn positions_are_written_by_their_numbers(rt: HostRuntime) -> Result<(), Fail> {
    let (won, blocked) = (won()?, blocked()?);
    let written = [
        is_shared_as(rt.alloc(), &BEGIN, &[], &SHARED_BEGIN)?,
        is_shared_as(rt.alloc(), &BEGIN, &[won, blocked], &[4, 0, 0, 0, 1])?,
        is_shared_as(rt.alloc(), &EXPAND, &[won], &EXPAND)?,
        is_shared_as(rt.alloc(), &SOLVE, &[won], &SHARED_SOLVE)?,
        is_shared_as(rt.alloc(), &SOLVE, &[won, blocked], &SHARED_TWICE)?,
        shared(rt.alloc(), &SOLVE, &[])?.len() == 81,
    ];
    assert_eq!(rt; written, [true; 6]);
    Ok(())
}

/// What the bytes say of a solved node behind these positions.
fn read_behind(
    alloc: Global,
    bytes: &[u8],
    positions: &[Position],
) -> Result<Option<SolvedByOne>, RecordRefusal> {
    let list = named(alloc, positions)?;
    Ok(solved_by_one(&decode(alloc, bytes, 3, &list)?))
}

#[test]
fn numbers_are_read_as_positions(rt: HostRuntime) -> Result<(), Fail> {
    let (won, blocked) = (won()?, blocked()?);
    let due = Some(win_in_one()?);
    let read = [
        read_behind(rt.alloc(), &SHARED_SOLVE, &[won])? == due,
        read_behind(rt.alloc(), &SHARED_TWICE, &[won, blocked])? == due,
        // Version 1 leans on no list.
        read_behind(rt.alloc(), &SOLVE, &[blocked, won])? == due,
        // The numbers of other positions say something else.
        read_behind(rt.alloc(), &SHARED_TWICE, &[blocked, won])? == due,
    ];
    assert_eq!(rt; read, [true, true, true, false]);
    Ok(())
}

/// The refusal of the bytes behind these positions, if they are refused.
fn refusal(
    alloc: Global,
    bytes: &[u8],
    positions: &[Position],
) -> Result<Option<RecordRefusal>, AllocError> {
    let list = named(alloc, positions)?;
    match decode(alloc, bytes, 2, &list) {
        Ok(_) => Ok(None),
        Err(refusal) => Ok(Some(refusal)),
    }
}

/// One byte of the solved node is another.
const DAMAGED: &[Damage] = &[
    // other kinds: a root that begins, the two of version 1, an expanded node, and none
    (0, 4, Trailing(5)),
    (0, 2, BadField(9)),
    (0, 1, BadField(1)),
    (0, 3, Trailing(9)),
    (0, 6, BadKind),
    // The number of the list's end is read, and the 17 bytes behind it are no position.
    (12, 1, BadField(13)),
    // numbers beside the list's end, and far behind it
    (12, 2, BadField(9)),
    (9, 255, BadField(9)),
    (22, 2, BadField(19)),
    (37, 2, BadField(34)),
    (34, 1, BadField(34)),
    // no certificate, five, and claims that are none
    (13, 0, BadField(13)),
    (13, 5, BadField(13)),
    (14, 0, BadField(14)),
    (14, 5, BadField(14)),
    // one entry, and a third that is not there
    (18, 1, Trailing(34)),
    (18, 3, BadField(64)),
    // The rank and the move are taken for a position behind the number of the list's end.
    (22, 1, BadField(23)),
    // a rank above 2^40, and moves that are none
    (23, 1, BadField(23)),
    (31, 1, BadField(31)),
    (31, 14, BadField(31)),
    (32, 0, BadField(32)),
    (32, 33, BadField(32)),
    // the position of the first entry again, by its number
    (37, 0, BadField(34)),
    // a side that is none, and a man on his farthest row
    (38, 2, BadField(38)),
    (39, 16, BadField(38)),
    // a byte behind the record
    (64, 0, Trailing(64)),
];

/// The refusal of the solved node with this byte in place of its own, or behind it.
fn refusal_with(
    alloc: Global,
    positions: &[Position],
    at: usize,
    value: u8,
) -> Result<Option<RecordRefusal>, AllocError> {
    let mut changed = SHARED_SOLVE.to_vec(alloc)?;
    match changed.get_mut(at) {
        Some(byte) => *byte = value,
        None => changed.push(value)?,
    }
    refusal(alloc, changed.as_slice(), positions)
}

/// Whether it is refused so.
fn is_refused(alloc: Global, positions: &[Position], case: &Damage) -> Result<bool, AllocError> {
    Ok(refusal_with(alloc, positions, case.0, case.1)? == Some(case.2))
}

#[test]
fn damaged_numbers_are_refused(rt: HostRuntime) -> Result<(), Fail> {
    let list = [won()?];
    for case in DAMAGED {
        assert!(rt;
            is_refused(rt.alloc(), &list, case)?,
            "{} at {}",
            case.1,
            case.0
        );
    }
    Ok(())
}

/// The root that begins behind the number 1, with its own position in the list.
const LISTED: [u8; 22] = [
    4, 0, 0, 0, 1, 0, 0, 0, 8, 0, 0, 0, 0, 0, 0, 4, 128, 0, 0, 0, 0, 0,
];

#[test]
fn a_position_has_one_number(rt: HostRuntime) -> Result<(), Fail> {
    let (won, blocked) = (won()?, blocked()?);
    let refused = [
        // The list has it: its 17 bytes may not follow.
        refusal(rt.alloc(), &LISTED, &[blocked])?,
        refusal(rt.alloc(), &LISTED, &[won])?,
        // The last number that 4 bytes have is none.
        refusal(rt.alloc(), &[4, 255, 255, 255, 255], &[won])?,
        // A shorter list, and a longer one.
        refusal(rt.alloc(), &SHARED_SOLVE, &[])?,
        refusal(rt.alloc(), &SHARED_SOLVE, &[won, blocked])?,
    ];
    let due = [
        Some(BadField(5)),
        None,
        Some(BadField(1)),
        Some(BadField(13)),
        Some(Trailing(47)),
    ];
    assert!(rt; refused == due);
    Ok(())
}

/// The places of the fields of the solved node.
const FIELDS: [usize; 14] = [1, 9, 13, 14, 15, 19, 23, 31, 32, 33, 34, 38, 55, 63];

/// The length of the first front of the solved node that is not refused at its last field.
fn first_other_front(alloc: Global, positions: &[Position]) -> Result<Option<usize>, AllocError> {
    for length in 1..SHARED_SOLVE.len() {
        let due = Some(BadField(field_at(&FIELDS, length)));
        if refusal(alloc, &SHARED_SOLVE[..length], positions)? != due {
            return Ok(Some(length));
        }
    }
    Ok(None)
}

#[test]
fn every_front_with_numbers_is_refused(rt: HostRuntime) -> Result<(), Fail> {
    assert_eq!(rt; first_other_front(rt.alloc(), &[won()?])?, None);
    Ok(())
}

/// What a list says of two positions: their numbers, and how many it has.
type Listed = (Option<u32>, Option<u32>, u32);

/// What it says of these.
fn listed(list: &Named, first: &Position, second: &Position) -> Listed {
    (list.find(first), list.find(second), list.len())
}

/// The list behind the solved node, and cut back to a number.
fn list_of_solve(alloc: Global, count: u32) -> Result<Listed, RecordRefusal> {
    let mut list = Named::new(alloc);
    let record = decode(alloc, &SOLVE, 3, &list)?;
    list.add(&record)?;
    list.add(&record)?;
    list.cut(count);
    match (won(), blocked()) {
        (Ok(won), Ok(blocked)) => Ok(listed(&list, &won, &blocked)),
        _ => Err(BadKind),
    }
}

#[test]
fn a_list_has_each_position_once(rt: HostRuntime) -> Result<(), Fail> {
    let lists = [
        list_of_solve(rt.alloc(), 2)?,
        list_of_solve(rt.alloc(), 1)?,
        list_of_solve(rt.alloc(), 0)?,
    ];
    let due = [(Some(0), Some(1), 2), (Some(0), None, 1), (None, None, 0)];
    assert!(rt; lists == due);
    Ok(())
}
