//! A tree as JSON.
ghost use Rattle.std.specs.Prelude.{◌≡◌, ◌++◌, IfOk, OnOk, map};
ghost use Rattle.proof_numbers.specs.Facts.{known};
ghost use Rattle.journal_trees.specs.Sights.{sight_of};
ghost use Rattle.journal_pages.specs.Json.{json_bool, json_goals};
ghost use Rattle.tree_texts.specs.Json.{json_count, json_facts, json_holds, json_move, json_next, json_node, json_nodes, json_position, json_spot, json_state, json_text, json_truth, json_wins};

use crate::texts::mark_word;
use certificate_text::push_move;
use draughts_board::Move;
use fen_text::print_fen;
use journal_pages::{json_bool, push_json_goals};
use journal_trees::ShownNode;
use proof_numbers::Facts;
use shared_words::push_number;
use std::alloc::{AllocError, Global};

/// Appends a move as a text; `null` where there is none.
fn push_json_move(text: &mut Vec<u8>, path: Option<Move>) -> Result<(), AllocError>
    ensures { OnOk result (text.new.items ≡ text.old.items ++ json_move path) }
{
    match path {
        Some(path) => {
            text.push(b'"')?;
            push_move(text, &path)?;
            text.push(b'"')?;
            Ok(())
        }
        None => text.extend_from_slice(b"null"),
    }
}

/// Appends a truth value behind its label.
#[tactic(auto, unfolding(crate::specs::Json::json_truth))]
fn push_json_truth(text: &mut Vec<u8>, label: &[u8], value: bool) -> Result<(), AllocError>
    ensures { OnOk result (text.new.items ≡ text.old.items ++ json_truth label.now value) }
{
    text.extend_from_slice(label)?;
    text.extend_from_slice(json_bool(value).as_bytes())
}

/// Appends which sides are known to win, as the front of an object.
fn push_json_wins(text: &mut Vec<u8>, facts: &Facts) -> Result<(), AllocError>
    ensures { OnOk result (text.new.items ≡ text.old.items ++ json_wins (known facts.now)) }
{
    push_json_truth(text, b"{\"black-wins\":", facts.black_wins)?;
    push_json_truth(text, b",\"white-wins\":", facts.white_wins)
}

/// Appends which sides are known to hold, as the end of an object.
fn push_json_holds(text: &mut Vec<u8>, facts: &Facts) -> Result<(), AllocError>
    ensures { OnOk result (text.new.items ≡ text.old.items ++ json_holds (known facts.now)) }
{
    push_json_truth(text, b",\"black-holds\":", facts.black_holds)?;
    push_json_truth(text, b",\"white-holds\":", facts.white_holds)?;
    text.extend_from_slice(b"}")
}

/// Appends which facts are known as an object.
fn push_json_facts(text: &mut Vec<u8>, facts: &Facts) -> Result<(), AllocError>
    ensures { OnOk result (text.new.items ≡ text.old.items ++ json_facts (known facts.now)) }
{
    push_json_wins(text, facts)?;
    push_json_holds(text, facts)
}

/// Appends how deep a node lies and its number, as the front of its object.
#[tactic(auto, unfolding(crate::specs::Json::json_spot))]
fn push_json_spot(text: &mut Vec<u8>, node: &ShownNode) -> Result<(), AllocError>
    ensures { OnOk result (text.new.items ≡ text.old.items ++ json_spot (sight_of node.now)) }
{
    text.extend_from_slice(b"{\"depth\":")?;
    push_number(text, u64::from(node.depth))?;
    text.extend_from_slice(b",\"node\":")?;
    push_number(text, node.number)
}

/// Appends the move that leads to a node, and its position.
#[tactic(auto, unfolding(crate::specs::Json::json_position))]
fn push_json_position(text: &mut Vec<u8>, node: &ShownNode) -> Result<(), AllocError>
    ensures { OnOk result (text.new.items
        ≡ text.old.items ++ json_position (sight_of node.now)) }
{
    text.extend_from_slice(b",\"move\":")?;
    push_json_move(text, node.path)?;
    text.extend_from_slice(b",\"fen\":\"")?;
    text.extend_from_slice(print_fen(&node.position).as_bytes())?;
    text.extend_from_slice(b"\"")
}

/// Appends a node's mark, and what is known of it.
#[tactic(auto, unfolding(crate::specs::Json::json_state))]
fn push_json_state(text: &mut Vec<u8>, node: &ShownNode) -> Result<(), AllocError>
    ensures { OnOk result (text.new.items ≡ text.old.items ++ json_state (sight_of node.now)) }
{
    text.extend_from_slice(b",\"mark\":\"")?;
    text.extend_from_slice(mark_word(node.mark).as_bytes())?;
    text.extend_from_slice(b"\",\"facts\":")?;
    push_json_facts(text, &node.facts)
}

/// Appends whether a node is next, as the end of its object, and a line end.
#[tactic(auto, unfolding(crate::specs::Json::json_next))]
fn push_json_next(text: &mut Vec<u8>, node: &ShownNode) -> Result<(), AllocError>
    ensures { OnOk result (text.new.items ≡ text.old.items ++ json_next (sight_of node.now)) }
{
    text.extend_from_slice(b",\"next\":")?;
    text.extend_from_slice(json_bool(node.is_next).as_bytes())?;
    text.extend_from_slice(b"}\n")
}

/// Appends a node's object and a line end.
fn push_json_node(text: &mut Vec<u8>, node: &ShownNode) -> Result<(), AllocError>
    ensures { OnOk result (text.new.items ≡ text.old.items ++ json_node (sight_of node.now)) }
{
    push_json_spot(text, node)?;
    push_json_position(text, node)?;
    push_json_state(text, node)?;
    push_json_goals(text, &node.black, &node.white)?;
    push_json_next(text, node)
}

/// Appends the objects of nodes.
fn push_json_nodes(text: &mut Vec<u8>, nodes: &[ShownNode]) -> Result<(), AllocError>
    ensures { OnOk result (text.new.items
        ≡ text.old.items ++ json_nodes (map sight_of nodes.now)) }
{
    for node in nodes {
        push_json_node(text, node)?;
    }
    Ok(())
}

/// Appends the object that says how many nodes are shown, and of how many.
fn push_json_count(text: &mut Vec<u8>, shown: u64, all: u64) -> Result<(), AllocError>
    ensures { OnOk result (text.new.items ≡ text.old.items ++ json_count shown all) }
{
    text.extend_from_slice(b"{\"shown\":")?;
    push_number(text, shown)?;
    text.extend_from_slice(b",\"of\":")?;
    push_number(text, all)?;
    text.extend_from_slice(b"}\n")
}

/// Nodes of a tree as JSON, where it has `all`: an object a line, with the node's depth, number, move, FEN, mark,
/// facts and numbers, and whether it is the one that would be searched next; and a last one that counts them.
pub fn tree_json(alloc: Global, nodes: &[ShownNode], all: u64) -> Result<Vec<u8>, AllocError>
    ensures { IfOk result (λ text. text.items ≡ json_text (map sight_of nodes.now) all) }
{
    let mut text = Vec::new(alloc);
    push_json_nodes(&mut text, nodes)?;
    push_json_count(&mut text, nodes.len() as u64, all)?;
    Ok(text)
}
