//! A tree that is grown at the leaf that is picked next.
ghost use Rattle.std.specs.Prelude.{◌≡◌, IsSomeAnd};
ghost use Rattle.proof_tree.specs.Forest.{node_at};
ghost use Rattle.proof_tree.specs.declared.rows.Mark.{Mark};

use draughts_board::Position;
use proof_tree::{Free, Mark, NodeId, Tree, unknown_child, unknown_children};
use std::alloc::{AllocError, Global};

/// Expands a leaf.
fn grow(alloc: Global, tree: &mut Tree, n: NodeId) -> Result<(), AllocError>
    requires { IsSomeAnd (node_at n tree.old.forest) (λ x. x.own.mark ≡ Mark.Unexpanded) }
{
    let children = unknown_children(alloc, &tree.position(n))?;
    tree.reserve(children.len())?;
    tree.expand(n, &children);
    Ok(())
}

/// A tree with the start as its root.
pub(crate) fn planted(alloc: Global) -> Result<Tree, AllocError> {
    let mut tree = Tree::new(alloc);
    tree.reserve(1)?;
    tree.add_root(unknown_child(alloc, Position::start())?);
    Ok(tree)
}

/// The tree after `expansions` expansions, each at the leaf that is picked; fewer where none is left.
pub(crate) fn grown(alloc: Global, expansions: u32) -> Result<Tree, AllocError> {
    let mut tree = planted(alloc)?;
    for _ in 0..expansions {
        match tree.pick(&Free) {
            Some((n, _)) => grow(alloc, &mut tree, n)?,
            None => return Ok(tree),
        }
    }
    Ok(tree)
}
