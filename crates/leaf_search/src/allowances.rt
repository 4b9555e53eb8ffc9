//! What a search may spend beyond what its depth demands.
ghost use Rattle.std.specs.Prelude.{◌≡◌, ◌≤◌};
ghost use Rattle.leaf_search.specs.Allowances.{IsNothing, IsWithinBounds};

use draughts_board::{Position, Side};

/// Up to this depth nothing is spent beyond what the depth demands.
pub(crate) const PLAIN_DEPTH: u8 = 4;

/// Nothing is spent on a position with this number of pieces more than the tables: nothing is found there.
const FAR_FROM_TABLES: u8 = 7;

/// No search works out more positions slice by slice, at one byte each.
pub(crate) const MOST_SLICE_POSITIONS: u64 = 42_000_000;

/// No strategy has more entries, of some 20 to 30 bytes each in a journal.
pub(crate) const MOST_ENTRIES: usize = 1_500_000;

/// No search for the win of a side by proof numbers makes more lists of moves, at some 100 bytes each.
pub(crate) const MOST_MOVE_LISTS: usize = 1_000_000;

/// What a search may spend beyond what its depth demands.
#[derive(Clone, Copy)]
pub(crate) struct Allowance {
    /// How many lists of moves may be made for the win of each side by proof numbers.
    pub(crate) move_lists: usize,
    /// How many positions may be worked out slice by slice, if all below the position are no more.
    pub(crate) slice_positions: u64,
    /// How many positions are looked through for a closed set in each attempt.
    pub(crate) set_positions: usize,
    /// How many entries a strategy may have that was found so.
    pub(crate) entries: usize,
}

impl Allowance {
    /// Nothing may be spent.
    const NOTHING: Allowance = Allowance {
        move_lists: 0,
        slice_positions: 0,
        set_positions: 0,
        entries: 0,
    };
}

/// What a search of a position that is near enough to the tables may spend, by its depth.
fn by_depth(depth: u8) -> Allowance
    ensures plain { depth ≤ PLAIN_DEPTH → IsNothing result }
    ensures most { IsWithinBounds result }
{
    // lists of moves, positions slice by slice, positions of a closed set, entries
    let (move_lists, slice_positions, set_positions, entries) = match depth {
        0..=PLAIN_DEPTH => return Allowance::NOTHING,
        5..=6 => (0, 0, 400, 100_000),
        7 => (3_000, 500_000, 1_000, 100_000),
        8 => (10_000, 2_500_000, 1_000, 100_000),
        9 => (30_000, 15_000_000, 2_500, 200_000),
        10 => (100_000, 15_000_000, 2_500, 200_000),
        11 => (300_000, MOST_SLICE_POSITIONS, 8_000, MOST_ENTRIES),
        _ => (MOST_MOVE_LISTS, MOST_SLICE_POSITIONS, 8_000, MOST_ENTRIES),
    };
    Allowance {
        move_lists,
        slice_positions,
        set_positions,
        entries,
    }
}

/// What a search of this position may spend, by its depth and the number of pieces of the tables.
pub(crate) fn allowed_for(p: &Position, depth: u8, table_pieces: u8) -> Allowance
    ensures plain { depth ≤ PLAIN_DEPTH → IsNothing result }
    ensures most { IsWithinBounds result }
{
    let pieces = p.count(Side::Black) + p.count(Side::White);
    if pieces.saturating_sub(table_pieces) >= FAR_FROM_TABLES {
        return Allowance::NOTHING;
    }
    by_depth(depth)
}
