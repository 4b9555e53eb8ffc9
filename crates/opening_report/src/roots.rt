//! Roots: positions, with what is known of their values.
ghost use Rattle.std.specs.Prelude.{◌≡◌};

use draughts_board::{Position, Value};

/// A position, and its value where that is known.
#[derive(Clone, Copy, Debug, PartialEq, Eq)]
pub struct Root {
    pub position: Position,
    pub value: Option<Value>,
}
