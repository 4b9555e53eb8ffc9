//! Children of which nothing is known, and a tree of which nothing is taken.
ghost use Rattle.std.specs.Prelude.{◌≡◌, map, All, IfOk};
ghost use Rattle.draughts_board.specs.Play.{successors_of};
ghost use Rattle.proof_numbers.specs.Facts.{known};
ghost use Rattle.proof_numbers.specs.Known.{nothing_known};

use crate::picking::Taken;
use crate::rows::NodeId;
use draughts_board::Position;
use proof_numbers::{Child, Facts, mobility};
use std::alloc::{AllocError, Global};
use swift_moves::{count_successors, successors};

/// Nothing is taken: one worker alone picks from the tree.
#[derive(Clone, Copy, Debug)]
pub struct Free;

impl Taken for Free {
    ghost use Rattle.std.specs.Prelude.{false};

    ghost taken = { λ s n. false };

    /// No node is.
    fn is_taken(&self, _n: NodeId) -> bool {
        false
    }
}

/// A position of which nothing is known.
pub fn unknown_child(alloc: Global, p: Position) -> Result<Child, AllocError>
    ensures position { IfOk result (λ child. child.position ≡ p) }
    ensures unknown { IfOk result (λ child. known child.facts ≡ nothing_known) }
{
    let moves = mobility(count_successors(alloc, &p)?);
    Ok(Child {
        position: p,
        facts: Facts::none(),
        moves,
    })
}

/// The successors of a position, in their order, of which nothing is known.
pub fn unknown_children(alloc: Global, p: &Position) -> Result<Vec<Child>, AllocError>
    ensures positions { IfOk result (λ children.
        map (λ child. child.position) children.items ≡ successors_of p.now) }
    ensures unknown { IfOk result (λ children.
        All (λ child. known child.facts ≡ nothing_known) children.items) }
{
    let next = successors(alloc, p)?;
    let mut children = Vec::new(alloc);
    for q in &next {
        children.push(unknown_child(alloc, *q)?)?;
    }
    Ok(children)
}
