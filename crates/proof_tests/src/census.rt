//! Censuses of the start's tree, worked out by hand.
use crate::trees::{grow_at, learn, planted};
use draughts_board::{Position, Side};
use proof_numbers::Facts;
use proof_tree::Tree;
use std::alloc::{AllocError, Global};
use std::test::Fail;
use tree_census::census_of;

/// What is done to a tree: a leaf gets its children, or facts.
#[derive(Clone, Copy)]
enum Step {
    Grow(u64),
    Hold(u64, Side),
}

/// Nodes and open leaves of the first root's tree, where there is one.
fn counted(alloc: Global, tree: &Tree) -> Result<(usize, usize), AllocError> {
    if tree.roots() == 0 {
        return Ok((0, 0));
    }
    let census = census_of(alloc, tree, 1)?;
    Ok((census.nodes, census.open_leaves))
}

/// Does the step, and counts.
fn counted_behind(
    alloc: Global,
    tree: &mut Tree,
    step: Step,
) -> Result<(usize, usize), AllocError> {
    match step {
        Step::Grow(number) => {
            let _children = grow_at(alloc, tree, number)?;
        }
        Step::Hold(number, side) => {
            let _done = learn(tree, number, &Facts::of_hold(side));
        }
    }
    counted(alloc, tree)
}

/// Each side has seven moves at first. A leaf where White holds is closed for Black's win, and so is what
/// stands below node 1 once White holds one of its leaves, where White is to move.
const STEPS: [(Step, (usize, usize)); 4] = [
    (Step::Grow(0), (8, 7)),
    (Step::Hold(2, Side::White), (8, 6)),
    (Step::Grow(1), (15, 12)),
    (Step::Hold(9, Side::White), (15, 5)),
];

#[test]
fn counts_the_start(rt: HostRuntime) -> Result<(), Fail> {
    let mut tree = planted(rt.alloc(), Position::start())?;
    assert_eq!(rt; counted(rt.alloc(), &tree)?, (1, 1));
    for (step, due) in STEPS {
        assert_eq!(rt; counted_behind(rt.alloc(), &mut tree, step)?, due);
    }
    Ok(())
}
