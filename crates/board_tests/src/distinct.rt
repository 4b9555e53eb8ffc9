//! Positions that stand once each.
use distinct_positions::DistinctPositions;
use draughts_board::{Position, Side};
use std::alloc::{AllocError, Global};
use std::test::Fail;

/// A position that is added again stays where it is.
fn added_again(alloc: Global) -> Result<[bool; 3], AllocError> {
    let start = Position::start();
    let bare = Position::bare(Side::White);
    let mut positions = DistinctPositions::new(alloc);
    let none = positions.as_slice().is_empty();
    for p in [start, bare, start, bare] {
        positions.add(p)?;
    }
    Ok([
        none,
        positions.len() == 2,
        positions.as_slice() == [start, bare].as_slice(),
    ])
}

#[test]
fn a_position_stands_once_at_its_first_place(rt: HostRuntime) -> Result<(), Fail> {
    assert_eq!(rt; added_again(rt.alloc())?, [true; 3]);
    Ok(())
}
