//! Laws over the definitions: the function does nothing, and its contract is the laws.
ghost use Rattle.certificate_player.specs.Laws.{NeverStuck, WithinRank, WonAtLast};

/// A player never stands without a move. Where it keeps a rank, no play is longer than that, and at
/// its end the other side has no move.
pub fn plays_end_within_their_rank()
    ensures never_stuck { NeverStuck }
    ensures within { WithinRank }
    ensures at_last { WonAtLast }
{}
