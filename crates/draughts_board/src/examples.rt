//! Worked examples of the definitions, proved by computation: each function does nothing, and its
//! contract is a record of `specs/Examples.antt`, one field an example.
ghost use Rattle.draughts_board.specs.Examples.{WorkedSquares, WorkedBoards, WorkedMasks, WorkedCaptures, WorkedSteps, WorkedAfter, WorkedWins, WorkedLooks};

/// Squares: rows, columns, near squares and jumps.
pub fn worked_squares()
    ensures { WorkedSquares }
{}

/// Boards: the start, turned boards, and boards that are no position.
pub fn worked_boards()
    ensures { WorkedBoards }
{}

/// Masks: their squares, those of two positions, and masks that make no position.
pub fn worked_masks()
    ensures { WorkedMasks }
{}

/// Captures: round four men and back, not stopped midway, ended by crowning, over no piece twice,
/// compulsory.
pub fn worked_captures()
    ensures { WorkedCaptures }
{}

/// Steps: the seven first moves of a game, men forward only, kings in all directions, a blocked
/// man.
pub fn worked_steps()
    ensures { WorkedSteps }
{}

/// What a move leaves: pieces taken off, a man crowned, the successors in order.
pub fn worked_positions()
    ensures { WorkedAfter }
{}

/// Who wins: a blocked player has lost, and wins in one and in two plies.
pub fn worked_wins()
    ensures { WorkedWins }
{}

/// What looking ahead shows of wins and holds.
pub fn worked_looks()
    ensures { WorkedLooks }
{}
