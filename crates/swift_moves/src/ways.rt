//! The four ways that pieces go, and whole boards shifted along them.
ghost use Rattle.std.specs.Prelude.{◌≡◌, ◌&&◌};
ghost use Rattle.std.specs.List.{list_any};
ghost use Rattle.draughts_board.specs.Masks.{IsMaskOf, stands_in};
ghost use Rattle.swift_moves.specs.Ways.{next_is, opposite, of_way, ways_of, forward};

use draughts_board::{Cell, Side};

/// A way that a piece goes: up towards lower rows, left towards lower columns. The order of the
/// ways is that of the squares where a step or a jump ends.
#[derive(Clone, Copy, PartialEq, Eq, Debug)]
pub(crate) enum Way {
    UpLeft,
    UpRight,
    DownLeft,
    DownRight,
}

/// The squares from which one step that way leads to a square of the mask.
#[inline]
pub(crate) fn before(way: Way, mask: u32) -> u32
    ensures { IsMaskOf (next_is way (stands_in mask)) result }
{
    match way {
        Way::UpLeft => (0x0F0F_0F0F & (mask << 4)) | (0xE0E0_E0E0 & (mask << 5)),
        Way::UpRight => (0x0707_0707 & (mask << 3)) | (0xF0F0_F0F0 & (mask << 4)),
        Way::DownLeft => (0x0F0F_0F0F & (mask >> 4)) | (0xE0E0_E0E0 & (mask >> 3)),
        Way::DownRight => (0x0707_0707 & (mask >> 5)) | (0xF0F0_F0F0 & (mask >> 4)),
    }
}

/// The squares that lie one step that way from one of the mask.
#[inline]
pub(crate) fn reached(way: Way, mask: u32) -> u32
    ensures { IsMaskOf (next_is (opposite way) (stands_in mask)) result }
{
    match way {
        Way::UpLeft => before(Way::DownRight, mask),
        Way::UpRight => before(Way::DownLeft, mask),
        Way::DownLeft => before(Way::UpRight, mask),
        Way::DownRight => before(Way::UpLeft, mask),
    }
}

/// The squares that lie two steps that way from one of the mask, with one of `over` between.
#[inline]
pub(crate) fn leapt(way: Way, mask: u32, over: u32) -> u32
    ensures { IsMaskOf (next_is (opposite way)
        (λ y. next_is (opposite way) (stands_in mask) y && stands_in over y)) result }
{
    reached(way, reached(way, mask) & over)
}

/// Of two masks, that of the ways in which the side's men go.
#[inline]
pub(crate) fn forward(side: Side, up: u32, down: u32) -> u32
    ensures { result ≡ forward side up down }
{
    match side {
        Side::Black => down,
        Side::White => up,
    }
}

/// Of four masks, one a way, those of the ways that the piece goes, together.
#[inline]
pub(crate) fn by_ways(
    piece: Cell,
    up_left: u32,
    up_right: u32,
    down_left: u32,
    down_right: u32,
) -> u32
    ensures { IsMaskOf (λ n. list_any
        (λ w. stands_in (of_way up_left up_right down_left down_right w) n)
        (ways_of piece)) result }
{
    match piece {
        Cell::Empty => 0,
        Cell::Man(side) => forward(side, up_left | up_right, down_left | down_right),
        Cell::King(_) => up_left | (up_right | (down_left | down_right)),
    }
}
