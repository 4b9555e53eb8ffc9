//! Laws over the definitions of the order: each function does nothing, and its contract is the law.
ghost use Rattle.table_index.specs.Laws.{ChoicesAreInOrder, BlockSizes, PositionsHaveIndices, PositionsStandAtTheirIndices, NoIndexIsShared, IndicesHoldPositions};

/// The choices of squares, by whose places the indices go, are all there are, in lexicographic order.
pub fn choices_are_in_order()
    ensures { ChoicesAreInOrder }
{}

/// How many indices the tables of up to three pieces have, and where each block begins.
pub fn sizes_of_blocks()
    ensures { BlockSizes }
{}

/// Each position with at most three pieces has an index of its own, and stands there.
pub fn positions_have_indices()
    ensures below { PositionsHaveIndices }
    ensures there { PositionsStandAtTheirIndices }
    ensures own { NoIndexIsShared }
{}

/// What stands at an index is a position, and the index is its index.
pub fn indices_hold_positions()
    ensures { IndicesHoldPositions }
{}
