//! Laws over the definitions: each function does nothing, and its contract is the law.
ghost use Rattle.draughts_board.specs.Game.{Game, TakesTurns};
ghost use Rattle.strategy_certificate.specs.ShortRanks.{OneShortPart, ShortPartsAreGood};
ghost use Rattle.strategy_certificate.specs.Laws.{ShownWinsAreTrue, ShownHoldsAreTrue, OneSoundTable, TableRanksAreLow, GoodWinPartsWin, GoodHoldPartsHold, GoodCertificatesAreTrue, GoodByEachTable, MergedWinsAreGood, MergedHoldsAreGood, GoodWinsHold};

/// What a sound table shows is true, in any game of two players who move in turn, and there is one
/// such table.
pub fn sound_tables_are_true<P>()
    ensures wins { (game : Game P) → TakesTurns game → ShownWinsAreTrue game }
    ensures holds { (game : Game P) → TakesTurns game → ShownHoldsAreTrue game }
    ensures one { (game : Game P) → OneSoundTable game }
{}

/// Ranks in a sound table of draughts with at most three pieces are below the number of its
/// positions.
pub fn table_ranks_are_low()
    ensures { TableRanksAreLow }
{}

/// What a good certificate claims is true, in a win within its rank in plies, and by whichever
/// sound table it is good.
pub fn good_certificates_are_true()
    ensures wins { GoodWinPartsWin }
    ensures holds { GoodHoldPartsHold }
    ensures claim { GoodCertificatesAreTrue }
    ensures each_table { GoodByEachTable }
{}

/// Of good parts a merged part is good, and so is a win part without its ranks as a hold part.
pub fn merged_parts_are_good()
    ensures wins { MergedWinsAreGood }
    ensures holds { MergedHoldsAreGood }
    ensures as_hold { GoodWinsHold }
{}

/// There is one part with short ranks, and of a good part it is good.
pub fn short_parts_are_good()
    ensures one { OneShortPart }
    ensures good { ShortPartsAreGood }
{}
