//! What a table keeps at an index: one number for each answer.
ghost use Rattle.std.specs.Prelude.{◌≡◌, ◌<◌, ◌^◌};
ghost use Rattle.endgame_table.specs.Numbers.{no_position, answer_of};

use strategy_certificate::Answer;

/// The number at an index that is no position.
pub const NO_POSITION: u32 = 4_294_967_295;

/// The answer that a number stands for: 0 is a draw, 2r + 1 a loss of rank r and 2r + 2 a win of rank r, of the side to
/// move. `NO_POSITION` stands for none.
#[tactic(auto, unfolding(crate::specs::Numbers::answer_of))]
pub fn answer_of(number: u32) -> Option<Answer>
    ensures { result ≡ answer_of number }
{
    match number {
        NO_POSITION => None,
        0 => Some(Answer::Draw),
        _ if number % 2 == 1 => Some(Answer::Loss((number - 1) / 2)),
        _ => Some(Answer::Win((number - 2) / 2)),
    }
}
