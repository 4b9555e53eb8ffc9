//! Rows of positions that were chosen so that all stand in one window of the table: more than it
//! has slots.
use draughts_board::{Position, Side};
use position_rows::PositionRows;
use std::alloc::{AllocError, Global};
use std::test::Fail;

/// The squares of Black's king and of White's. A program of another language computed the hashes:
/// modulo 64 they are equal, and a table for 24 rows has 64 windows.
const CHOSEN: [(u32, u32); 24] = [
    (1, 26),
    (2, 31),
    (4, 19),
    (5, 21),
    (6, 5),
    (10, 13),
    (12, 3),
    (12, 7),
    (13, 29),
    (14, 2),
    (15, 9),
    (15, 18),
    (16, 23),
    (19, 2),
    (19, 16),
    (20, 4),
    (22, 1),
    (23, 25),
    (26, 6),
    (27, 20),
    (29, 13),
    (31, 3),
    (32, 17),
    (32, 27),
];

/// A mask of one square.
fn bit(square: u32) -> u32 {
    1u32.rotate_left(square.wrapping_sub(1) % 32)
}

/// The position of these two kings.
fn kings(squares: (u32, u32)) -> Position {
    let masks = [0, bit(squares.0), 0, bit(squares.1)];
    match Position::of_masks(masks, Side::White) {
        Some(p) => p,
        None => Position::bare(Side::White),
    }
}

/// Notes each position with its place; tells whether each was new and stands there.
fn noted(rows: &mut PositionRows<usize>) -> Result<bool, AllocError> {
    let mut all = true;
    for (place, squares) in CHOSEN.iter().enumerate() {
        all &= rows.note(kings(*squares), place)? == (place, true);
    }
    Ok(all)
}

/// Each of the first positions is found at its place with its entry, and none behind them.
fn are_first(rows: &PositionRows<usize>, count: usize) -> bool {
    CHOSEN.iter().enumerate().all(|(place, squares)| {
        let p = kings(*squares);
        let due = if place < count { Some(place) } else { None };
        rows.place(&p) == due && rows.get(&p) == due
    })
}

/// Each is found; none more than once; and those that are taken back are found no more.
fn rows_of_one_window(alloc: Global) -> Result<[bool; 7], AllocError> {
    let mut rows = PositionRows::with_capacity(alloc, 3)?;
    let mut told = [false; 7];
    told[0] = rows.is_empty() && are_first(&rows, 0);
    told[1] = noted(&mut rows)?;
    told[2] = rows.len() == 24 && are_first(&rows, 24);
    told[3] = rows.note(kings((12, 7)), 99)? == (7, false) && are_first(&rows, 24);
    rows.truncate(20);
    told[4] = are_first(&rows, 20);
    told[5] = rows.note(kings((12, 7)), 99)? == (7, false);
    if rows.len() > 7 {
        rows.replace(7, 99);
    }
    told[6] = rows.get(&kings((12, 7))) == Some(99) && rows.as_slice().len() == 20;
    Ok(told)
}

#[test]
fn rows_that_were_chosen_for_one_window_are_found(rt: HostRuntime) -> Result<(), Fail> {
    assert_eq!(rt; rows_of_one_window(rt.alloc())?, [true; 7]);
    Ok(())
}
