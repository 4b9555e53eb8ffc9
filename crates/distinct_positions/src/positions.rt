//! The positions.
ghost use Rattle.position_rows.specs.Rows.{positions_of};

use draughts_board::Position;
use position_rows::PositionRows;
use std::alloc::{AllocError, Global};
use std::marker::Model;

/// Positions, each once, in the order in which they came.
///
/// A contract sees the list of them. A position is looked up, not searched for, and nobody who
/// chooses the positions can make that slow.
#[derive(Drop)]
pub struct DistinctPositions {
    rows: PositionRows<()>,
    positions: Vec<Position>,
}

impl Model for DistinctPositions {
    ghost use Rattle.std.specs.Prelude.{◌≡◌, List};
    ghost use Rattle.draughts_board.specs.Board.{Board};
    ghost use Rattle.position_rows.specs.Rows.{positions_of};

    ghost Value = { List Board };

    ghost view = { λ d. d.positions.items };

    ghost invariant = { λ d. positions_of d.rows.entries ≡ d.positions.items };
}

impl DistinctPositions {
    ghost use Rattle.std.specs.Prelude.{◌≡◌, [], length, OnOk, OnErr};
    ghost use Rattle.distinct_positions.specs.Distinct.{with_position};

    /// No positions.
    pub fn new(alloc: Global) -> DistinctPositions
        ensures { result ≡ [] }
    {
        DistinctPositions {
            rows: PositionRows::new(alloc),
            positions: Vec::new(alloc),
        }
    }

    /// How many there are.
    pub fn len(&self) -> usize
        ensures { result ≡ length self.now }
    {
        self.positions.len()
    }

    /// The positions, in their order.
    pub fn as_slice(&self) -> &[Position]
        ensures { result.now ≡ self.now }
    {
        &self.positions
    }

    /// Adds a position behind the others, unless it stands there. After want of memory they are as
    /// they were.
    pub fn add(&mut self, p: Position) -> Result<(), AllocError>
        ensures ok { OnOk result (self.new ≡ with_position self.old p) }
        ensures err { OnErr result (self.new ≡ self.old) }
    {
        self.positions.reserve(1)?;
        let (_i, is_new) = self.rows.note(p, ())?;
        if is_new {
            self.positions.push_reserved(p);
        }
        Ok(())
    }
}
