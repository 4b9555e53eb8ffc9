//! The two generators side by side, over positions with kings and long captures that a seeded
//! program makes.
ghost use Rattle.draughts_board.specs.Rules.{IsLegal};

use draughts_board::path_ends::{first, last};
use draughts_board::{Cell, Move, Position, Side};
use std::alloc::{AllocError, Global};

/// What was gone over until the end, or until the generators first differed.
#[derive(Clone, Copy, PartialEq, Eq, Debug)]
pub struct Compared {
    /// Positions on which both agreed.
    pub positions: u64,
    /// Their legal moves.
    pub moves: u64,
    /// The squares of the longest path among them.
    pub longest: usize,
    /// Both agreed on all of them.
    pub agree: bool,
}

/// The next state of a linear congruential generator.
fn next_state(state: u64) -> u64 {
    state
        .wrapping_mul(6364136223846793005)
        .wrapping_add(1442695040888963407)
}

/// What a state puts on a square: nothing mostly, and more kings than a game has.
fn piece_of(state: u64) -> Cell {
    match (state >> 40) % 16 {
        0 => Cell::Man(Side::Black),
        1 => Cell::Man(Side::White),
        2 => Cell::King(Side::Black),
        3 => Cell::King(Side::White),
        _ => Cell::Empty,
    }
}

/// The position that a state makes, if its cells are one.
fn position_of(state: u64) -> Option<Position> {
    let mut state = state;
    let mut cells = [Cell::Empty; 32];
    for cell in cells.iter_mut() {
        state = next_state(state);
        *cell = piece_of(state);
    }
    let to_move = if (state >> 60) % 2 == 0 {
        Side::Black
    } else {
        Side::White
    };
    Position::place(cells, to_move).ok()
}

/// Both generators find the same moves and successors, in the same order, and as many successors are counted.
fn find_the_same(alloc: Global, p: &Position, moves: &[Move]) -> Result<bool, AllocError> {
    let swift = swift_moves::legal_moves(alloc, p)?;
    let plain_next = draughts_rules::successors(alloc, p)?;
    let swift_next = swift_moves::successors(alloc, p)?;
    let counted = swift_moves::count_successors(alloc, p)?;
    Ok(
        moves == swift.as_slice()
            && plain_next.as_slice() == swift_next.as_slice()
            && counted == plain_next.len(),
    )
}

/// Both generators say the same of the move written with its ends alone, and with all its squares.
fn mean_the_same(alloc: Global, p: &Position, m: &Move) -> bool {
    let path = m.path();
    let from = first(path);
    let to = last(path);
    let middle = &path[1..path.len() - 1];
    let bare = draughts_rules::resolve(alloc, p, from, &[], to);
    let whole = draughts_rules::resolve(alloc, p, from, middle, to);
    bare == swift_moves::resolve(alloc, p, from, &[], to)
        && whole == swift_moves::resolve(alloc, p, from, middle, to)
}

/// Both generators lead to the same position by the legal move, and back from it to the same first
/// move.
fn lead_the_same(alloc: Global, p: &Position, m: &Move) -> Result<bool, AllocError>
    requires { IsLegal p.now m.now }
{
    let next = draughts_rules::apply(p, m);
    let plain = draughts_rules::move_to(alloc, p, &next)?;
    let swift = swift_moves::move_to(alloc, p, &next)?;
    Ok(next == swift_moves::apply(p, m) && plain == swift && mean_the_same(alloc, p, m))
}

/// Both generators tell the same of the move: whether it is legal, and where a legal one leads.
fn tell_the_same(alloc: Global, p: &Position, m: &Move) -> Result<bool, AllocError> {
    if !draughts_rules::is_legal(p, m) {
        return Ok(!swift_moves::is_legal(p, m));
    }
    if swift_moves::is_legal(p, m) {
        lead_the_same(alloc, p, m)
    } else {
        Ok(false)
    }
}

/// Both generators agree on the position, whose legal moves are these by the plain one.
fn agree(alloc: Global, p: &Position, moves: &[Move]) -> Result<bool, AllocError> {
    if draughts_rules::has_move(p) != swift_moves::has_move(p) {
        return Ok(false);
    }
    for m in moves {
        if !tell_the_same(alloc, p, m)? {
            return Ok(false);
        }
    }
    find_the_same(alloc, p, moves)
}

/// The squares of the longest path of the moves.
fn longest(moves: &[Move]) -> usize {
    moves.iter().map(|m| m.path().len()).max().unwrap_or(0)
}

/// Compares the generators on the positions that `states` states make, one after another from the
/// seed.
pub fn compare(alloc: Global, seed: u64, states: u32) -> Result<Compared, AllocError> {
    let mut state = seed;
    let mut done = Compared {
        positions: 0,
        moves: 0,
        longest: 0,
        agree: true,
    };
    for _ in 0..states {
        state = next_state(state);
        if let Some(p) = position_of(state) {
            let moves = draughts_rules::legal_moves(alloc, &p)?;
            if !agree(alloc, &p, &moves)? {
                done.agree = false;
                return Ok(done);
            }
            done.positions = done.positions.wrapping_add(1);
            done.moves = done.moves.wrapping_add(moves.len() as u64);
            done.longest = done.longest.max(longest(&moves));
        }
    }
    Ok(done)
}
