//! The rule at one position: when its answer fits those at the next positions.
ghost use Rattle.std.specs.Prelude.{◌≡◌, ◌↔◌, IsTrue, Contains};
ghost use Rattle.std.specs.List.{list_any, list_all};
ghost use Rattle.table_checker.specs.Fitting.{FitsNext, is_loss, is_loss_below, is_win_below};

use strategy_certificate::Answer;

/// The answer is among these.
fn has(next: &[Option<Answer>], answer: Answer) -> bool
    ensures { IsTrue result ↔ Contains next.now (Some answer) }
{
    next.contains(&Some(answer))
}

/// A loss is among the answers.
fn has_loss(next: &[Option<Answer>]) -> bool
    ensures { result ≡ list_any is_loss next.now }
{
    next.iter()
        .any(|answer| matches!(answer, Some(Answer::Loss(_))))
}

/// A loss of a rank below this one is among the answers.
fn has_loss_below(next: &[Option<Answer>], rank: u32) -> bool
    ensures { result ≡ list_any (is_loss_below rank) next.now }
{
    next.iter().any(|answer| matches!(answer, Some(Answer::Loss(loss)) if *loss < rank))
}

/// Each answer is a win of a rank below this one.
fn are_wins_below(next: &[Option<Answer>], rank: u32) -> bool
    ensures { result ≡ list_all (is_win_below rank) next.now }
{
    next.iter().all(|answer| matches!(answer, Some(Answer::Win(win)) if *win < rank))
}

/// The answer fits those at the next positions.
pub(crate) fn fits_next(answer: Answer, next: &[Option<Answer>]) -> bool
    ensures { IsTrue result ↔ FitsNext next.now answer }
{
    match answer {
        Answer::Win(0) => false,
        Answer::Win(rank) => has(next, Answer::Loss(rank - 1)) && !has_loss_below(next, rank - 1),
        Answer::Loss(0) => next.is_empty(),
        Answer::Loss(rank) => has(next, Answer::Win(rank - 1)) && are_wins_below(next, rank),
        Answer::Draw => has(next, Answer::Draw) && !has_loss(next),
    }
}
