//! Each public call, with indices worked by hand and counts of positions from outside.
use draughts_board::{Position, Side};
use std::test::Fail;
use table_index::{entry_count, index_of, position_at};

/// The index, where the position has at most three pieces.
fn index(p: &Position) -> Option<u32> {
    if p.count(Side::Black) + p.count(Side::White) <= 3 {
        Some(index_of(p))
    } else {
        None
    }
}

/// What stands at the index, where a table of three pieces has it.
fn position(index: u32) -> Option<Position> {
    if index < entry_count(3) {
        position_at(index)
    } else {
        None
    }
}

/// How many indices before this one are positions, each of them its own index; none where one is
/// not.
fn count_of_positions(end: u32) -> Option<u32> {
    let mut count = 0_u32;
    for i in 0..end {
        if let Some(p) = position(i) {
            if index(&p) != Some(i) {
                return None;
            }
            count = count.saturating_add(1);
        }
    }
    Some(count)
}

#[test]
fn blocks_have_their_sizes(rt: HostRuntime) {
    let counts = [
        entry_count(0),
        entry_count(1),
        entry_count(2),
        entry_count(3),
    ];
    assert_eq!(rt; counts, [2, 258, 16_130, 651_010]);
}

/// A Black king on 1 and a White one on this square.
fn two_kings(white: u32, to_move: Side) -> Option<Position> {
    Position::of_masks([0, 1, 0, white], to_move)
}

#[test]
fn kings_have_the_indices_worked_by_hand(rt: HostRuntime) -> Result<(), Fail> {
    // B:WK32:BK1
    let far = two_kings(1 << 31, Side::Black).ok_or("a position")?;
    // W:WK27:BK1
    let near = two_kings(1 << 26, Side::White).ok_or("a position")?;
    assert_eq!(rt; (index(&far), index(&near)), (Some(1232), Some(1073)));
    assert!(rt; [position(1232), position(1073)] == [Some(far), Some(near)]);
    // A Black man on 29 and on 28, Black to move: (28 * 4 + 0) * 2 and (27 * 4 + 0) * 2 behind 2.
    assert!(rt; position(226).is_none() && position(218).is_some());
    Ok(())
}

#[test]
fn pieces_have_as_many_positions_as_published(rt: HostRuntime) {
    // The bare board twice, twice 120 positions of one piece and twice 6,972 of two.
    let counts = [
        count_of_positions(2),
        count_of_positions(258),
        count_of_positions(16_130),
    ];
    assert_eq!(rt; counts, [Some(2), Some(242), Some(14_186)]);
    // Twice 261,224 of three pieces more.
    assert_eq!(rt; count_of_positions(651_010), Some(536_634));
}
