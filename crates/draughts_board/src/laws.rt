//! Laws over the definitions of play and of who wins: each function does nothing, and its contract
//! is the law.
ghost use Rattle.draughts_board.specs.Game.{Game};
ghost use Rattle.draughts_board.specs.Draughts.{draughts};
ghost use Rattle.draughts_board.specs.Laws.{LegalPathsAreLegal, SuccessorsAreAfterPaths, SuccessorsAreReached, TestOfPieces, PositionsHaveMasks, MasksOfTheirBoard, MasksHoldPieces, AfterIsPosition, LegalPathsFit, DraughtsTakesTurns, LawsOfWinning, LostWithoutMove, PositionsHaveOneValue, TurningTwice, TurnedPathsLegal, TurnedAfter, TurnedSuccessors, TurnedWins, TurnedValues};

/// What is computed is what the rules say: the legal paths, the successors, and which boards are
/// positions.
pub fn computed_as_ruled()
    ensures paths { LegalPathsAreLegal }
    ensures successors { SuccessorsAreAfterPaths }
    ensures reached { SuccessorsAreReached }
    ensures pieces { TestOfPieces }
{}

/// A position and its four masks give each other back.
pub fn positions_as_masks()
    ensures masks { PositionsHaveMasks }
    ensures boards { MasksOfTheirBoard }
    ensures squares { MasksHoldPieces }
{}

/// A legal path has 2 to 13 squares. After it stands a position with the other side to move, and no
/// piece is added.
pub fn moves_keep_positions()
    ensures squares { LegalPathsFit }
    ensures after { AfterIsPosition }
    ensures turns { DraughtsTakesTurns }
{}

/// Who wins, in any game of two players: no position is won for both, two values never hold of one
/// position, and what looking ahead shows is true.
pub fn winning_in_any_game<P>()
    ensures { (game : Game P) → LawsOfWinning game }
{}

/// Who wins in draughts: the laws of any game, that a player who cannot move has lost, and that
/// each position has exactly one value.
pub fn winning_in_draughts()
    ensures laws { LawsOfWinning draughts }
    ensures lost { LostWithoutMove }
    ensures value { PositionsHaveOneValue }
{}

/// The board turned by 180 degrees with colours exchanged: legal paths, successors and wins turn
/// with it.
pub fn turning()
    ensures twice { TurningTwice }
    ensures paths { TurnedPathsLegal }
    ensures after { TurnedAfter }
    ensures successors { TurnedSuccessors }
    ensures wins { TurnedWins }
    ensures values { TurnedValues }
{}
