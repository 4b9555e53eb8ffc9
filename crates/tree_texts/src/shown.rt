//! What is shown of a root's tree.
ghost use Rattle.std.specs.Prelude.{◌≡◌, ◌≤◌, ◌<◌, ◌-◌, ◌⊎◌, IfNone, IfOk, IfSome, IsSomeAnd, length, map, slice_get};
ghost use Rattle.proof_tree.specs.Forest.{nodes};
ghost use Rattle.journal_trees.specs.Sights.{sight_of};
ghost use Rattle.tree_texts.specs.Shown.{WritesTree, nodes_text};

use crate::json::tree_json;
use crate::texts::tree_text;
use journal_trees::{ShownNode, shown_tree};
use proof_tree::Tree;
use std::alloc::{AllocError, Global};
use tree_census::census_of;

/// Nodes as JSON or as text, of a tree that has `all`.
fn nodes_text(
    alloc: Global,
    nodes: &[ShownNode],
    all: u64,
    json: bool,
) -> Result<Vec<u8>, AllocError>
    ensures { IfOk result (λ text. text.items ≡ nodes_text json (map sight_of nodes.now) all) }
{
    if json {
        tree_json(alloc, nodes, all)
    } else {
        tree_text(alloc, nodes, all)
    }
}

/// The text that shows the tree of a root, counted from 1: its nodes down to the deepest ply, at most `asked`, to
/// which there are no more than `most`, and the root in any case; and how many nodes the tree has. None exactly
/// where there is no such root.
pub fn shown_text(
    alloc: Global,
    tree: &Tree,
    root: u32,
    asked: u32,
    most: u64,
    json: bool,
) -> Result<Option<Vec<u8>>, AllocError>
    ensures some { IfOk result (λ found. IfSome found (λ text.
        IsSomeAnd (slice_get (nodes tree.now.forest) (root - 1)) (λ x.
        WritesTree tree.now.forest x asked most json text.items))) }
    ensures first { IfOk result (λ found. IfSome found (λ text. 1 ≤ root)) }
    ensures none { IfOk result (λ found. IfNone found
        ((root ≡ 0) ⊎ (length (nodes tree.now.forest) < root))) }
{
    let Some(shown) = shown_tree(alloc, tree, root, asked, most)? else {
        return Ok(None);
    };
    let census = census_of(alloc, tree, root)?;
    let text = nodes_text(alloc, &shown.nodes, census.nodes as u64, json)?;
    Ok(Some(text))
}
