//! A tree whose nodes open on a click.
ghost use Rattle.std.specs.Prelude.{◌≡◌, ◌++◌, OnOk, map};
ghost use Rattle.page_text.specs.Markup.{markup_text};
ghost use Rattle.page_text.specs.Nodes.{AreAt, Twigs, closings, nodes_text, opening_text, preorder, twigs_markup, words_of};

use crate::boards::push_board;
use crate::markup::push_text;
use draughts_board::Position;
use fen_text::print_fen;
use std::alloc::AllocError;
use terminal_text::say;

/// What is shown of a node.
#[derive(Debug, Drop)]
pub struct PageNode {
    /// How many plies it lies below the first node.
    pub depth: u32,
    pub position: Position,
    /// What is shown before it is opened.
    pub summary: Vec<u8>,
}

/// Appends the last tags of this number of open nodes.
#[tactic(auto, unfolding(crate::specs::Nodes::closings))]
fn push_closings(text: &mut Vec<u8>, count: u64) -> Result<(), AllocError>
    ensures { OnOk result (text.new.items ≡ text.old.items ++ closings count) }
{
    for _ in 0..count {
        say(text, "</details>")?;
    }
    Ok(())
}

/// Appends a node up to those below it.
fn push_opening(text: &mut Vec<u8>, node: &PageNode) -> Result<(), AllocError>
    ensures { OnOk result (text.new.items ≡ text.old.items ++ opening_text (words_of node.now)) }
{
    say(text, "<details><summary>")?;
    push_text(text, &node.summary)?;
    say(text, "</summary>")?;
    push_board(text, &node.position)?;
    say(text, "<p><code>")?;
    let fen = print_fen(&node.position);
    push_text(text, fen.as_bytes())?;
    say(text, "</code></p>")
}

/// Appends nodes, each with those behind it that say a greater depth within.
fn push_nodes(text: &mut Vec<u8>, nodes: &[PageNode]) -> Result<(), AllocError>
    ensures { OnOk result (text.new.items
        ≡ text.old.items ++ nodes_text 0 (map words_of nodes.now)) }
{
    let mut before = 0u64;
    for node in nodes {
        let depth = u64::from(node.depth);
        push_closings(text, before.saturating_sub(depth))?;
        push_opening(text, node)?;
        before = depth + 1;
    }
    push_closings(text, before)
}

/// Appends a tree, whose nodes are given in preorder with their depths, the first ones at depth 0. Each node
/// opens on a click, and shows its board, its FEN, and those below it.
pub fn push_tree(text: &mut Vec<u8>, nodes: &[PageNode]) -> Result<(), AllocError>
    ensures { (twigs : Twigs) → AreAt 0 twigs → map words_of nodes.now ≡ preorder twigs →
        OnOk result (text.new.items ≡ text.old.items ++ markup_text (twigs_markup twigs)) }
{
    push_nodes(text, nodes)
}
