//! The rows of the roots, found by their positions.
ghost use Rattle.std.specs.Prelude.{◌≡◌, ◌++◌, ◌∷◌, [], ◌<◌, ◌≤◌, ◌+◌, ◌-◌, length, slice_index, Contains};
ghost use Rattle.std.specs.Map.{keys_of, values_of};

use draughts_board::Position;
use position_rows::PositionRows;

/// Puts a root behind the others, for which there is room.
pub(crate) fn add(roots: &mut PositionRows<usize>, p: &Position, row: usize)
    requires absent { ¬ Contains (keys_of roots.old.entries) p.now }
    requires room { 0 < roots.old.spare }
    ensures entries { roots.new.entries ≡ roots.old.entries ++ (p.now, row) ∷ [] }
    ensures room { roots.old.spare ≤ roots.new.spare + 1 }
{
    match roots.note(*p, row) {
        Ok(_) => {}
        Err(_) => unreachable!(),
    }
}

/// The row of the root at this place, counted from 0.
pub(crate) fn row_of(roots: &PositionRows<usize>, place: usize) -> usize
    requires { place < length roots.now.entries }
    ensures { result ≡ slice_index (values_of roots.now.entries) place }
{
    roots.as_slice()[place].1
}

/// The row of a root, counted from 1.
pub(crate) fn top(roots: &PositionRows<usize>, root: u32) -> usize
    requires first { 1 ≤ root }
    requires there { root ≤ length roots.now.entries }
    ensures { result ≡ slice_index (values_of roots.now.entries) (root - 1) }
{
    row_of(roots, root as usize - 1)
}
