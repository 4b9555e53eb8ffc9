//! A tree as text.
ghost use Rattle.std.specs.Prelude.{◌≡◌, ◌++◌, IfOk, OnOk, map};
ghost use Rattle.proof_numbers.specs.Facts.{known};
ghost use Rattle.journal_trees.specs.Sights.{sight_of};
ghost use Rattle.tree_texts.specs.TreeTexts.{count_line, facts_text, head_text, indent, mark_word, node_line, node_lines, state_text, tree_text, way_text, word_if};

use certificate_text::push_move;
use draughts_board::Move;
use fen_text::print_fen;
use journal_pages::push_numbers;
use journal_trees::ShownNode;
use proof_numbers::Facts;
use proof_tree::Mark;
use shared_words::push_number;
use std::alloc::{AllocError, Global};

/// The word for a mark.
pub(crate) fn mark_word(mark: Mark) -> &'static str
    ensures { result.now ≡ mark_word mark }
{
    match mark {
        Mark::Unexpanded => "unexpanded",
        Mark::Expanded => "expanded",
        Mark::Repeats => "repeats",
    }
}

/// Appends a word behind a blank where it fits.
fn push_word_if(text: &mut Vec<u8>, fits: bool, word: &str) -> Result<(), AllocError>
    ensures { OnOk result (text.new.items ≡ text.old.items ++ word_if fits word.now) }
{
    if fits {
        text.push(b' ')?;
        text.extend_from_slice(word.as_bytes())
    } else {
        Ok(())
    }
}

/// Appends the facts that are known.
fn push_facts(text: &mut Vec<u8>, facts: &Facts) -> Result<(), AllocError>
    ensures { OnOk result (text.new.items ≡ text.old.items ++ facts_text (known facts.now)) }
{
    push_word_if(text, facts.black_wins, "black-wins")?;
    push_word_if(text, facts.white_wins, "white-wins")?;
    push_word_if(text, facts.black_holds, "black-holds")?;
    push_word_if(text, facts.white_holds, "white-holds")
}

/// Appends two blanks for each ply.
#[tactic(auto, unfolding(crate::specs::TreeTexts::indent))]
fn push_indent(text: &mut Vec<u8>, depth: u32) -> Result<(), AllocError>
    ensures { OnOk result (text.new.items ≡ text.old.items ++ indent depth) }
{
    for _ in 0..depth {
        text.extend_from_slice(b"  ")?;
    }
    Ok(())
}

/// Appends the move that leads there, or `root` where none does.
fn push_way(text: &mut Vec<u8>, path: Option<Move>) -> Result<(), AllocError>
    ensures { OnOk result (text.new.items ≡ text.old.items ++ way_text path) }
{
    match path {
        Some(path) => push_move(text, &path),
        None => text.extend_from_slice(b"root"),
    }
}

/// Appends the move to a node, its mark, and whether it is next.
#[tactic(auto, unfolding(crate::specs::TreeTexts::head_text))]
pub fn push_head(text: &mut Vec<u8>, node: &ShownNode) -> Result<(), AllocError>
    ensures { OnOk result (text.new.items ≡ text.old.items ++ head_text (sight_of node.now)) }
{
    push_way(text, node.path)?;
    text.push(b' ')?;
    text.extend_from_slice(mark_word(node.mark).as_bytes())?;
    push_word_if(text, node.is_next, "next")
}

/// Appends what is known of a node, and its numbers.
#[tactic(auto, unfolding(crate::specs::TreeTexts::state_text))]
pub fn push_state(text: &mut Vec<u8>, node: &ShownNode) -> Result<(), AllocError>
    ensures { OnOk result (text.new.items ≡ text.old.items ++ state_text (sight_of node.now)) }
{
    push_facts(text, &node.facts)?;
    text.extend_from_slice(b" black ")?;
    push_numbers(text, &node.black)?;
    text.extend_from_slice(b" white ")?;
    push_numbers(text, &node.white)
}

/// Appends the line of a node.
fn push_line(text: &mut Vec<u8>, node: &ShownNode) -> Result<(), AllocError>
    ensures { OnOk result (text.new.items ≡ text.old.items ++ node_line (sight_of node.now)) }
{
    push_indent(text, node.depth)?;
    push_head(text, node)?;
    text.push(b' ')?;
    text.extend_from_slice(print_fen(&node.position).as_bytes())?;
    push_state(text, node)?;
    text.push(b'\n')?;
    Ok(())
}

/// Appends the lines of nodes.
fn push_lines(text: &mut Vec<u8>, nodes: &[ShownNode]) -> Result<(), AllocError>
    ensures { OnOk result (text.new.items
        ≡ text.old.items ++ node_lines (map sight_of nodes.now)) }
{
    for node in nodes {
        push_line(text, node)?;
    }
    Ok(())
}

/// Appends how many nodes are shown, and of how many.
fn push_count(text: &mut Vec<u8>, shown: u64, all: u64) -> Result<(), AllocError>
    ensures { OnOk result (text.new.items ≡ text.old.items ++ count_line shown all) }
{
    text.extend_from_slice(b"shown ")?;
    push_number(text, shown)?;
    text.extend_from_slice(b" of ")?;
    push_number(text, all)?;
    text.extend_from_slice(b" nodes\n")
}

/// Nodes of a tree as text, where it has `all`: a line for each, with two blanks a ply before it, the move that
/// leads there, its mark, `next` at the leaf that would be searched next, FEN, facts, and numbers for each side's
/// win; and a last line that counts them.
pub fn tree_text(alloc: Global, nodes: &[ShownNode], all: u64) -> Result<Vec<u8>, AllocError>
    ensures { IfOk result (λ text. text.items ≡ tree_text (map sight_of nodes.now) all) }
{
    let mut text = Vec::new(alloc);
    push_lines(&mut text, nodes)?;
    push_count(&mut text, nodes.len() as u64, all)?;
    Ok(text)
}
