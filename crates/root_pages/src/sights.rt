//! A page with what is shown of a root.
ghost use Rattle.std.specs.Prelude.{◌≡◌, ◌≤◌, ◌<◌, ◌-◌, ◌⊎◌, IfNone, IfOk, IfSome, IsSomeAnd, length, map, slice_get};
ghost use Rattle.page_text.specs.Plays.{step_words};
ghost use Rattle.proof_tree.specs.Forest.{nodes};
ghost use Rattle.root_pages.specs.Sights.{WritesSight};

use crate::nodes::page_nodes;
use journal_trees::shown_tree;
use page_text::{PageStep, RootCells, RootSight, root_page};
use proof_tree::Tree;
use std::alloc::{AllocError, Global};
use tree_census::census_of;

/// The page with this table, and behind it what is shown of a root, counted from 1: these steps, its nodes down to
/// the deepest ply, at most `asked`, to which there are no more than `most`, and the root in any case; and how many
/// more there are. None exactly where there is no such root.
pub fn sight_page(
    alloc: Global,
    cells: &[RootCells],
    tree: &Tree,
    root: u32,
    play: Vec<PageStep>,
    asked: u32,
    most: u64,
) -> Result<Option<Vec<u8>>, AllocError>
    ensures some { IfOk result (λ found. IfSome found (λ text.
        IsSomeAnd (slice_get (nodes tree.now.forest) (root - 1)) (λ x.
        WritesSight tree.now.forest x cells.now root (map step_words play.items) asked most
        text.items))) }
    ensures first { IfOk result (λ found. IfSome found (λ text. 1 ≤ root)) }
    ensures none { IfOk result (λ found. IfNone found
        ((root ≡ 0) ⊎ (length (nodes tree.now.forest) < root))) }
{
    let Some(shown) = shown_tree(alloc, tree, root, asked, most)? else {
        return Ok(None);
    };
    let census = census_of(alloc, tree, root)?;
    let nodes = page_nodes(alloc, &shown.nodes)?;
    let more = census.nodes.saturating_sub(shown.nodes.len());
    let sight = RootSight {
        number: u64::from(root),
        play,
        nodes,
        more: more as u64,
    };
    let text = root_page(alloc, cells, &sight)?;
    Ok(Some(text))
}
