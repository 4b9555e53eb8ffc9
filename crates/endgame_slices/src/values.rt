//! What a slice keeps of a position: 0 where neither side is known to win, and else one more than the plies to the end.
//! So the side to move wins where the value is even, and loses where it is odd.
ghost use Rattle.std.specs.Prelude.{◌≤◌};

use strategy_certificate::Answer;

/// Neither side is known to win.
pub(crate) const OPEN: u8 = 0;

/// The side to move has no move.
pub(crate) const LOST_AT_ONCE: u8 = 1;

/// The greatest value; a win that takes longer is not seen.
pub(crate) const MOST_VALUE: u8 = 250;

/// The side to move wins.
#[inline]
pub(crate) fn is_won(value: u8) -> bool {
    value != OPEN && value % 2 == 0
}

/// The value of a position one ply before one of this value; open where it would be too great.
#[inline]
pub(crate) fn one_more(value: u8) -> u8
    ensures { result ≤ MOST_VALUE }
{
    if value < MOST_VALUE { value + 1 } else { OPEN }
}

/// The value of a position that takes `plies` plies to its end.
fn value_of(plies: u32) -> u8 {
    match u8::try_from(plies) {
        Ok(plies) => one_more(plies),
        Err(_) => OPEN,
    }
}

/// The value where a table gives this answer.
pub(crate) fn value_answered(answer: Answer) -> u8 {
    match answer {
        Answer::Win(plies) | Answer::Loss(plies) => value_of(plies),
        Answer::Draw => OPEN,
    }
}

/// The answer that a value stands for.
pub(crate) fn answer_of(value: u8) -> Answer {
    if value == OPEN {
        return Answer::Draw;
    }
    let plies = u32::from(value - 1);
    if is_won(value) {
        Answer::Win(plies)
    } else {
        Answer::Loss(plies)
    }
}
