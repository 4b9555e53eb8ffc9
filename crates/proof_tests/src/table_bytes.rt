//! Tables that the filler wrote, and what is wrong with them after a change.
use crate::tables::filled;
use endgame_table::table_bytes;
use std::alloc::{AllocError, Global};
use std::test::Fail;
use table_checker::{TableRefusal, check_table};

/// How many pieces and indices the table has that these bytes are, or why they are refused.
fn checked(alloc: Global, bytes: &[u8]) -> Result<(u8, usize), TableRefusal> {
    let table = check_table(alloc, bytes)?;
    Ok((table.pieces(), table.len()))
}

/// The bytes of the table of two or three pieces.
fn bytes_of(alloc: Global, three: bool) -> Result<Vec<u8>, AllocError> {
    table_bytes(alloc, &filled(alloc, three)?)
}

/// How many pieces and indices a table has that was filled and checked; none where it is refused.
fn filled_and_checked(alloc: Global, three: bool) -> Result<Option<(u8, usize)>, AllocError> {
    Ok(checked(alloc, &bytes_of(alloc, three)?).ok())
}

#[test]
fn accepts_what_was_filled(rt: HostRuntime) -> Result<(), Fail> {
    assert_eq!(rt; filled_and_checked(rt.alloc(), false)?, Some((2, 16_130)));
    assert_eq!(rt; filled_and_checked(rt.alloc(), true)?, Some((3, 651_010)));
    Ok(())
}

/// Fronts of other files than tables of two or three pieces.
const OTHER_HEADS: [&[u8]; 5] = [
    b"DRTABLE\x04",
    b"DRTABLE\x01",
    b"DRBENCH\x02",
    b"DRTABLE",
    b"",
];

/// The first of those fronts that is not refused as a head. What stands behind eight bytes of it is
/// a table of two pieces.
fn first_taken_head(alloc: Global, table: &[u8]) -> Result<Option<&'static [u8]>, Fail> {
    for head in OTHER_HEADS {
        let mut bytes = head.to_vec(alloc)?;
        if head.len() == 8 {
            bytes.extend_from_slice(table.get(8..).ok_or("no head")?)?;
        }
        if checked(alloc, &bytes) != Err(TableRefusal::BadHead) {
            return Ok(Some(head));
        }
    }
    Ok(None)
}

#[test]
fn refuses_other_heads(rt: HostRuntime) -> Result<(), Fail> {
    let table = bytes_of(rt.alloc(), false)?;
    assert_eq!(rt; first_taken_head(rt.alloc(), &table)?, None);
    Ok(())
}

/// The length that is refused and the one that is due; none where no length is refused.
fn wrong_length(alloc: Global, bytes: &[u8]) -> Option<(usize, usize)> {
    match checked(alloc, bytes) {
        Err(TableRefusal::WrongLength { found, due }) => Some((found, due)),
        _ => None,
    }
}

#[test]
fn refuses_other_lengths(rt: HostRuntime) -> Result<(), Fail> {
    let mut bytes = bytes_of(rt.alloc(), false)?;
    bytes.push(0)?;
    assert_eq!(rt; wrong_length(rt.alloc(), &bytes), Some((64_529, 64_528)));
    bytes.truncate(64_527);
    assert_eq!(rt; wrong_length(rt.alloc(), &bytes), Some((64_527, 64_528)));
    // The head alone, of the table of three pieces.
    assert_eq!(rt;
        wrong_length(rt.alloc(), b"DRTABLE\x03"),
        Some((8, 2_604_048))
    );
    Ok(())
}

/// An index of the table of two pieces, the number that is put there, and the entry that is then
/// refused: its index and its number.
const OTHER_NUMBERS: [(u32, u32, (u32, u32)); 4] = [
    // B:WK32:BK1 lost: W:WK27:BK1 comes first, a draw with that position behind one of its moves.
    (1232, 1, (1073, 0)),
    // Neither side has a piece, so the one to move has lost.
    (0, 0, (0, 0)),
    // A position without an answer. White reaches it from 27 and 28, and draws there by other
    // moves too.
    (1232, 4_294_967_295, (1232, 4_294_967_295)),
    // A Black man on 29 is no position.
    (226, 0, (226, 0)),
];

/// The same bytes with this number at an index.
fn with_number(alloc: Global, bytes: &[u8], index: u32, number: u32) -> Result<Vec<u8>, Fail> {
    let (front, rest) = bytes
        .split_at_checked(8 + 4 * index as usize)
        .ok_or("no such index")?;
    let (_, back) = rest.split_at_checked(4).ok_or("no such index")?;
    let mut changed = front.to_vec(alloc)?;
    changed.extend_from_slice(&number.to_be_bytes())?;
    changed.extend_from_slice(back)?;
    Ok(changed)
}

/// The entry that is refused: its index and its number; none where no entry is refused.
fn bad_entry(alloc: Global, bytes: &[u8]) -> Option<(u32, u32)> {
    match checked(alloc, bytes) {
        Err(TableRefusal::BadEntry { index, kept }) => Some((index, kept)),
        _ => None,
    }
}

/// The first row of `OTHER_NUMBERS` behind which another entry is refused, or none.
fn first_wrong_entry(alloc: Global, table: &[u8]) -> Result<Option<(u32, u32)>, Fail> {
    for &(index, number, due) in &OTHER_NUMBERS {
        let changed = with_number(alloc, table, index, number)?;
        if bad_entry(alloc, &changed) != Some(due) {
            return Ok(Some((index, number)));
        }
    }
    Ok(None)
}

#[test]
fn refuses_the_first_entry_that_does_not_fit(rt: HostRuntime) -> Result<(), Fail> {
    let table = bytes_of(rt.alloc(), false)?;
    assert_eq!(rt; first_wrong_entry(rt.alloc(), &table)?, None);
    Ok(())
}

/// What is printed of the refusals, a line each.
fn printed(alloc: Global) -> Result<String, AllocError> {
    let length = TableRefusal::WrongLength {
        found: 9,
        due: 64_528,
    };
    let entry = TableRefusal::BadEntry {
        index: 226,
        kept: 7,
    };
    let memory = TableRefusal::Memory(AllocError);
    format!(in alloc; "{}\n{length}\n{entry}\n{memory}\n", TableRefusal::BadHead)
}

#[test]
fn refusals_name_their_data(rt: HostRuntime) -> Result<(), Fail> {
    let due = "no table of 2 or 3 pieces begins so\n\
        9 bytes where a table has 64528\n\
        the number 7 at index 226 does not fit\n\
        out of memory\n";
    assert_eq!(rt; printed(rt.alloc())?.as_str(), due);
    Ok(())
}
