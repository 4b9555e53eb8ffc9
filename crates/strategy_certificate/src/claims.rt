//! What a certificate claims.
use draughts_board::Side;

/// What is claimed of a position.
#[derive(Clone, Copy, PartialEq, Eq, PartialOrd, Ord, Hash, Debug)]
pub enum Claim {
    /// The side has a forced win.
    Win(Side),
    /// The other side has no forced win.
    Hold(Side),
    /// Neither side has a forced win.
    Draw,
}
