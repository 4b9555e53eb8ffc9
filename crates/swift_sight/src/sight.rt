//! What is known of a position at sight: where the table answers, or where nobody can move.
ghost use Rattle.std.specs.Prelude.{◌≡◌, ◌↔◌, [], All, IfOk, IsTrue, map, take};
ghost use Rattle.draughts_board.specs.Play.{successors_of};
ghost use Rattle.proof_numbers.specs.Facts.{known};
ghost use Rattle.proof_numbers.specs.Sight.{AreFactsAtSight};
ghost use Rattle.certificate_checker.specs.Sight.{AreChildren};

use certificate_checker::ChildList;
use draughts_board::{Position, Value};
use proof_numbers::{Child, Facts, mobility};
use std::alloc::{AllocError, Global};
use strategy_certificate::{Answer, Oracle};
use swift_moves::{count_successors, successors};

/// What is known of a position at sight, where it is said whether its mover is blocked.
fn facts_where<O: Oracle>(p: &Position, blocked: bool, oracle: &O) -> Facts
    requires { IsTrue blocked ↔ (successors_of p.now ≡ []) }
    ensures { AreFactsAtSight (O.piece_limit oracle.now) p.now (known result) }
{
    let mover = p.to_move();
    match oracle.answer(p) {
        Some(Answer::Win(_)) => Facts::of_win(mover),
        Some(Answer::Loss(_)) => Facts::of_win(mover.other()),
        Some(Answer::Draw) => Facts::of_value(Value::Draw),
        None => {
            if blocked {
                return Facts::of_win(mover.other());
            }
            Facts::none()
        }
    }
}

/// The position as a child in a tree: with its facts at sight, and its mobility.
pub fn child_at_sight<O: Oracle>(
    alloc: Global,
    p: &Position,
    oracle: &O,
) -> Result<Child, AllocError>
    ensures position { IfOk result (λ child. child.position ≡ p.now) }
    ensures facts { IfOk result
        (λ child. AreFactsAtSight (O.piece_limit oracle.now) p.now (known child.facts)) }
{
    let count = count_successors(alloc, p)?;
    let facts = facts_where(p, count == 0, oracle);
    Ok(Child {
        position: *p,
        facts,
        moves: mobility(count),
    })
}

/// The positions after a position, in order, as children in a tree.
pub fn children_at_sight<O: Oracle>(
    alloc: Global,
    p: &Position,
    oracle: &O,
) -> Result<ChildList, AllocError>
    ensures { IfOk result (AreChildren (O.piece_limit oracle.now) p.now) }
{
    let next = successors(alloc, p)?;
    let mut children = Vec::with_capacity(alloc, next.len())?;
    for q in &next {
        let child = child_at_sight(alloc, q, oracle)?;
        children.push(child)?;
    }
    Ok(ChildList::from_vec(children))
}
