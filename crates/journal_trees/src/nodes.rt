//! What is shown of a node.
ghost use Rattle.std.specs.Prelude.{◌≡◌, All, IfOk, map};
ghost use Rattle.certificate_joiner.specs.Strategy.{IsNamed, named};
ghost use Rattle.journal_trees.specs.Sights.{is_picked, path_to, sight_of, spot_sight};

use draughts_board::{Move, Position, Side};
use proof_numbers::{Facts, Numbers};
use proof_tree::{Mark, NodeId, Tree};
use std::alloc::{AllocError, Global};
use swift_moves::move_to;

/// What is shown of a node of a tree.
#[derive(Clone, Copy, Debug, PartialEq, Eq)]
pub struct ShownNode {
    /// How many plies it lies below the root.
    pub depth: u32,
    /// Its number in the tree, from 0.
    pub number: u64,
    /// The first move that leads there from the position above; none at the root.
    pub path: Option<Move>,
    pub position: Position,
    pub mark: Mark,
    /// What is known of it by itself.
    pub facts: Facts,
    /// The numbers for Black's win.
    pub black: Numbers,
    /// The numbers for White's win.
    pub white: Numbers,
    /// It is the leaf that would be searched next.
    pub is_next: bool,
}

/// Where a node lies in what is shown.
#[derive(Clone, Copy, Debug, PartialEq, Eq)]
pub(crate) struct Spot {
    pub(crate) node: NodeId,
    /// How many plies below the root.
    pub(crate) depth: u32,
    /// The position above it; none at the root.
    pub(crate) above: Option<Position>,
}

/// The first move from the position above that leads there; none at the root.
fn path_to(alloc: Global, above: Option<Position>, p: &Position) -> Result<Option<Move>, AllocError>
    ensures { IfOk result (λ path. path ≡ path_to above p.now) }
{
    match above {
        Some(above) => move_to(alloc, &above, p),
        None => Ok(None),
    }
}

/// The node with this number is the one that would be searched next.
fn is_picked(next: Option<u64>, number: u64) -> bool
    ensures { result ≡ is_picked next number }
{
    match next {
        Some(picked) => picked == number,
        None => false,
    }
}

/// What is shown of the node on a spot, to which this move leads, where `next` is the number of the one that
/// would be searched next.
fn shown_node(tree: &Tree, spot: &Spot, path: Option<Move>, next: Option<u64>) -> ShownNode
    requires there { IsNamed tree.now.forest spot.now.node }
    requires path { path ≡ path_to spot.now.above
        (named tree.now.forest spot.now.node).own.position }
    ensures { sight_of result ≡ spot_sight next tree.now.forest spot.now }
{
    let n = spot.node;
    let position = tree.position(n);
    let number = n.number();
    let mark = tree.mark(n);
    let facts = tree.facts(n);
    let black = tree.numbers(n, Side::Black);
    let white = tree.numbers(n, Side::White);
    let is_next = is_picked(next, number);
    ShownNode {
        depth: spot.depth,
        number,
        path,
        position,
        mark,
        facts,
        black,
        white,
        is_next,
    }
}

/// What is shown of the nodes on these spots, in order.
pub(crate) fn shown_nodes(
    alloc: Global,
    tree: &Tree,
    spots: &[Spot],
    next: Option<u64>,
) -> Result<Vec<ShownNode>, AllocError>
    requires { All (λ spot. IsNamed tree.now.forest spot.node) spots.now }
    ensures { IfOk result (λ nodes. map sight_of nodes.items
        ≡ map (spot_sight next tree.now.forest) spots.now) }
{
    let mut nodes = Vec::new(alloc);
    for spot in spots {
        let position = tree.position(spot.node);
        let path = path_to(alloc, spot.above, &position)?;
        let node = shown_node(tree, spot, path, next);
        nodes.push(node)?;
    }
    Ok(nodes)
}
