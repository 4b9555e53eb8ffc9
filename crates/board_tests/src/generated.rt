//! Openings against those that another program makes by the rule alone.
use capture_positions::capture_positions;
use draughts_board::{Position, Side, Square};
use std::alloc::{AllocError, Global};
use std::test::Fail;

/// The squares of Black's kings and of White's.
type Kings = (&'static [u8], &'static [u8]);

/// A seed, how many of its first 2,000 openings have two White kings and how many a Black king on
/// 32, and its first opening, its hundredth and its last.
type Row = (u32, usize, usize, Kings, Kings, Kings);

const ROWS: [Row; 10] = [
    (
        0,
        1001,
        61,
        (&[1], &[2, 6]),
        (&[27], &[23, 25]),
        (&[10], &[5, 15]),
    ),
    (
        1,
        999,
        63,
        (&[24, 32], &[27]),
        (&[26], &[17, 23]),
        (&[21, 24], &[19]),
    ),
    (
        2,
        997,
        63,
        (&[17, 31], &[27]),
        (&[26], &[11, 22]),
        (&[14, 21], &[18]),
    ),
    (
        7,
        1002,
        61,
        (&[28], &[16, 24]),
        (&[10, 23], &[26]),
        (&[30], &[24, 26]),
    ),
    (
        42,
        999,
        62,
        (&[11, 15], &[10]),
        (&[11], &[3, 16]),
        (&[6, 20], &[16]),
    ),
    (
        101,
        998,
        62,
        (&[2, 19], &[16]),
        (&[16, 28], &[11]),
        (&[15], &[10, 30]),
    ),
    (
        4_176,
        1001,
        61,
        (&[1], &[2, 6]),
        (&[27], &[23, 25]),
        (&[10], &[5, 15]),
    ),
    (
        65_535,
        998,
        62,
        (&[19, 23], &[27]),
        (&[21], &[13, 17]),
        (&[15], &[3, 18]),
    ),
    (
        1_000_000_007,
        1003,
        61,
        (&[2, 22], &[6]),
        (&[27], &[12, 24]),
        (&[15, 16], &[11]),
    ),
    (
        4_294_967_295,
        1002,
        62,
        (&[15], &[7, 19]),
        (&[1, 13], &[9]),
        (&[6], &[9, 16]),
    ),
];

/// The mask of the squares with these numbers.
fn mask_of(numbers: &[u8]) -> u32 {
    let mut mask = 0;
    for number in numbers {
        if let Some(square) = Square::new(*number) {
            mask |= square.bit();
        }
    }
    mask
}

/// Two of its kings are White.
fn has_two_white(position: &Position) -> bool {
    position.count(Side::White) == 2
}

/// A Black king stands on 32.
fn has_black_on_32(position: &Position) -> bool {
    position.masks()[1] >= 1 << 31
}

/// How many of the positions have two White kings, and how many a Black king on 32.
fn counts(positions: &[Position]) -> (usize, usize) {
    let mut with_two = 0usize;
    let mut on_32 = 0usize;
    for position in positions {
        if has_two_white(position) {
            with_two = with_two.saturating_add(1);
        }
        if has_black_on_32(position) {
            on_32 = on_32.saturating_add(1);
        }
    }
    (with_two, on_32)
}

/// The position at this place has these kings and no other piece, and Black is to move.
fn has_kings(positions: &[Position], place: usize, kings: &Kings) -> bool {
    match positions.get(place) {
        Some(p) => {
            p.to_move() == Side::Black && p.masks() == [0, mask_of(kings.0), 0, mask_of(kings.1)]
        }
        None => false,
    }
}

/// The positions are as the row says of 2,000 openings.
fn are_due(positions: &[Position], row: &Row) -> bool {
    has_kings(positions, 0, &row.3)
        && has_kings(positions, 99, &row.4)
        && has_kings(positions, 1_999, &row.5)
        && positions.len() == 2_000
        && counts(positions) == (row.1, row.2)
}

/// The 2,000 openings of the row's seed are as it says.
fn is_found(alloc: Global, row: &Row) -> Result<bool, AllocError> {
    Ok(are_due(capture_positions(alloc, row.0, 2_000)?.as_slice(), row))
}

#[test]
fn openings_are_those_of_another_program(rt: HostRuntime) -> Result<(), Fail> {
    for row in &ROWS {
        assert!(rt; is_found(rt.alloc(), row)?, "seed {}", row.0);
    }
    Ok(())
}

/// Whether `count` openings of seed 1 are the first ones of these.
fn is_front(alloc: Global, all: &[Position], count: u32) -> Result<bool, AllocError> {
    let some = capture_positions(alloc, 1, count.min(500))?;
    Ok(all.get(..count as usize) == Some(some.as_slice()))
}

/// Whether that holds of 0, of 1, of 17 and of 499 of them.
fn are_fronts(alloc: Global, all: &[Position]) -> Result<[bool; 4], AllocError> {
    Ok([
        is_front(alloc, all, 0)?,
        is_front(alloc, all, 1)?,
        is_front(alloc, all, 17)?,
        is_front(alloc, all, 499)?,
    ])
}

/// The same of the first 500 openings of seed 1.
fn are_first_ones(alloc: Global) -> Result<[bool; 4], AllocError> {
    let all = capture_positions(alloc, 1, 500)?;
    are_fronts(alloc, all.as_slice())
}

#[test]
fn fewer_openings_are_the_first_ones(rt: HostRuntime) -> Result<(), Fail> {
    assert_eq!(rt; are_first_ones(rt.alloc())?, [true; 4]);
    Ok(())
}
