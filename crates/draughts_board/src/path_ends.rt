//! Where a path starts, and where it has come to.
ghost use Rattle.std.specs.Prelude.{◌≡◌, ◌≤◌, length};
ghost use Rattle.draughts_board.specs.Rules.{first_square, last_square};

use crate::squares::Square;

/// Where the path starts.
#[inline]
pub fn first(path: &[Square]) -> Square
    requires { 1 ≤ length path.now }
    ensures { result ≡ first_square path.now }
{
    path[0]
}

/// Where the path has come to.
#[inline]
pub fn last(path: &[Square]) -> Square
    requires { 1 ≤ length path.now }
    ensures { result ≡ last_square path.now }
{
    path[path.len() - 1]
}
