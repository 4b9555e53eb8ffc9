//! The nodes of a tree.
ghost use Rattle.std.specs.Prelude.{◌≡◌, IfOk, map};
ghost use Rattle.journal_trees.specs.Sights.{sight_of};
ghost use Rattle.page_text.specs.Nodes.{words_of};
ghost use Rattle.root_pages.specs.Sights.{page_words};

use journal_trees::ShownNode;
use page_text::PageNode;
use std::alloc::{AllocError, Global};
use tree_texts::{push_head, push_state};

/// What a page shows of a node.
fn page_node(alloc: Global, node: &ShownNode) -> Result<PageNode, AllocError>
    ensures { IfOk result (λ shown. words_of shown ≡ page_words (sight_of node.now)) }
{
    let mut summary = Vec::new(alloc);
    push_head(&mut summary, node)?;
    push_state(&mut summary, node)?;
    Ok(PageNode {
        depth: node.depth,
        position: node.position,
        summary,
    })
}

/// What a page shows of each node.
pub(crate) fn page_nodes(alloc: Global, nodes: &[ShownNode]) -> Result<Vec<PageNode>, AllocError>
    ensures { IfOk result (λ shown.
        map words_of shown.items ≡ map page_words (map sight_of nodes.now)) }
{
    let mut shown = Vec::new(alloc);
    for node in nodes {
        shown.push(page_node(alloc, node)?)?;
    }
    Ok(shown)
}
