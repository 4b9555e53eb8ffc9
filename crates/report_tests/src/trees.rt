//! Trees of a root with two moves, worked out by hand, as text and as JSON.
ghost use Rattle.std.specs.Prelude.{◌≡◌, IsSomeAnd};
ghost use Rattle.proof_tree.specs.Forest.{node_at};

use fen_text::read_fen;
use journal_trees::{ShownTree, shown_tree};
use proof_tree::{Mark, NodeId, Tree, unknown_child, unknown_children};
use std::alloc::{AllocError, Global};
use std::test::Fail;
use tree_texts::{tree_json, tree_text};

/// Expands a leaf.
fn grow(alloc: Global, tree: &mut Tree, n: NodeId) -> Result<(), AllocError>
    requires { IsSomeAnd (node_at n tree.old.forest) (λ x. x.own.mark ≡ Mark.Unexpanded) }
{
    let children = unknown_children(alloc, &tree.position(n))?;
    tree.reserve(children.len())?;
    tree.expand(n, &children);
    Ok(())
}

/// The tree of a White king on 1 against a Black king on 32, White to move, whose root is expanded.
fn two_kings(alloc: Global) -> Result<Tree, Fail> {
    let position = read_fen(b"W:WK1:BK32").ok().ok_or("no FEN")?;
    let mut tree = Tree::new(alloc);
    tree.reserve(1)?;
    tree.add_root(unknown_child(alloc, position)?);
    if let Some(root) = tree.leaf(0) {
        grow(alloc, &mut tree, root)?;
    }
    Ok(tree)
}

/// The same tree, in which the first move from the root is expanded too.
fn two_kings_deeper(alloc: Global) -> Result<Tree, Fail> {
    let mut tree = two_kings(alloc)?;
    if let Some(first) = tree.leaf(1) {
        grow(alloc, &mut tree, first)?;
    }
    Ok(tree)
}

/// What is shown of a tree down to this ply, if there are no more nodes than this.
fn shown(alloc: Global, tree: &Tree, asked: u32, most: u64) -> Result<ShownTree, Fail> {
    Ok(shown_tree(alloc, tree, 1, asked, most)?.ok_or("no root")?)
}

/// Worked out by hand. The king on 1 may go to 5 and to 6, and that on 32 to 27 and to 28. Where Black is to move
/// from 32, Black's win takes one of two moves, so its numbers are 1 and 2; that of White has to meet both, 2 and 1.
/// At the root White moves: Black's win has to meet both of White's moves, 1 and 1, and is refuted by one of them,
/// by 2; White's takes one of them, by 2, and is refuted by both, 1 and 1.
const TEXT: &str = "root expanded W:WK1:BK32 black 2 2 white 2 2
  1-5 unexpanded next B:WK5:BK32 black 1 2 white 2 1
  1-6 unexpanded B:WK6:BK32 black 1 2 white 2 1
shown 3 of 3 nodes
";

#[test]
fn trees_are_shown_as_text(rt: HostRuntime) -> Result<(), Fail> {
    let tree = two_kings(rt.alloc())?;
    let found = shown(rt.alloc(), &tree, 4, 3)?;
    let text = tree_text(rt.alloc(), &found.nodes, 3)?;
    assert_eq!(rt; text.as_slice(), TEXT.as_bytes());
    Ok(())
}

/// The king on 5 stands at the edge, and may go to 1 and to 9. So behind Black's reply White's win takes one of two
/// moves, 1 and 2, and Black's has to meet both, 2 and 1. At 1-5, where Black moves, Black's win takes one reply, by
/// 2, and is refuted by both, 1 and 1; White's meets both, 1 and 1, and is refuted by one, by 2. At the root the two
/// moves come to 2 and 1 for Black's win, and to 2 and 1 against White's.
const DEEPER: &str = "root expanded W:WK1:BK32 black 3 2 white 2 3
  1-5 expanded B:WK5:BK32 black 2 2 white 2 2
    32-27 unexpanded next W:WK5:BK27 black 2 1 white 1 2
    32-28 unexpanded W:WK5:BK28 black 2 1 white 1 2
  1-6 unexpanded B:WK6:BK32 black 1 2 white 2 1
shown 5 of 5 nodes
";

#[test]
fn each_node_stands_behind_the_one_above_it(rt: HostRuntime) -> Result<(), Fail> {
    let tree = two_kings_deeper(rt.alloc())?;
    let found = shown(rt.alloc(), &tree, 2, 5)?;
    let text = tree_text(rt.alloc(), &found.nodes, 5)?;
    assert_eq!(rt; text.as_slice(), DEEPER.as_bytes());
    Ok(())
}

/// Down to the first ply: the five nodes down to the second would be more than may be shown, or are not asked.
const FIRST_PLY: &str = "root expanded W:WK1:BK32 black 3 2 white 2 3
  1-5 expanded B:WK5:BK32 black 2 2 white 2 2
  1-6 unexpanded B:WK6:BK32 black 1 2 white 2 1
shown 3 of 5 nodes
";

/// The root alone: its children would be more than may be shown.
const ROOT_ALONE: &str = "root expanded W:WK1:BK32 black 3 2 white 2 3
shown 1 of 5 nodes
";

/// Down to which ply this many plies are asked and this many nodes may be shown, and what is shown then.
const NEAREST: [(u32, u64, u32, &str); 4] = [
    (2, 4, 1, FIRST_PLY),
    (1, 5, 1, FIRST_PLY),
    (2, 2, 0, ROOT_ALONE),
    (0, 0, 0, ROOT_ALONE),
];

/// Whether this is shown of the deeper tree, down to this ply, where this many plies are asked and this many nodes
/// may be shown.
fn is_nearest(alloc: Global, asked: u32, most: u64, plies: u32, due: &str) -> Result<bool, Fail> {
    let tree = two_kings_deeper(alloc)?;
    let found = shown(alloc, &tree, asked, most)?;
    let text = tree_text(alloc, &found.nodes, 5)?;
    Ok(found.plies == plies && text.as_slice() == due.as_bytes())
}

#[test]
fn the_nearest_are_shown_first(rt: HostRuntime) -> Result<(), Fail> {
    for (asked, most, plies, due) in NEAREST {
        let is_due = is_nearest(rt.alloc(), asked, most, plies, due)?;
        assert!(rt; is_due, "{asked} plies, {most} nodes");
    }
    Ok(())
}

/// The facts of a node of which nothing is known.
const UNKNOWN: &str =
    "{\"black-wins\":false,\"white-wins\":false,\"black-holds\":false,\"white-holds\":false}";

/// The object of a node, without the braces of its facts and what is next.
const OBJECTS: [[&str; 3]; 3] = [
    [
        "{\"depth\":0,\"node\":0,\"move\":null,\"fen\":\"W:WK1:BK32\",\"mark\":\"expanded\",\"facts\":",
        UNKNOWN,
        ",\"black\":{\"proof\":2,\"disproof\":2},\"white\":{\"proof\":2,\"disproof\":2},\"next\":false}\n",
    ],
    [
        "{\"depth\":1,\"node\":1,\"move\":\"1-5\",\"fen\":\"B:WK5:BK32\",\"mark\":\"unexpanded\",\"facts\":",
        UNKNOWN,
        ",\"black\":{\"proof\":1,\"disproof\":2},\"white\":{\"proof\":2,\"disproof\":1},\"next\":true}\n",
    ],
    [
        "{\"depth\":1,\"node\":2,\"move\":\"1-6\",\"fen\":\"B:WK6:BK32\",\"mark\":\"unexpanded\",\"facts\":",
        UNKNOWN,
        ",\"black\":{\"proof\":1,\"disproof\":2},\"white\":{\"proof\":2,\"disproof\":1},\"next\":false}\n",
    ],
];

/// The objects, one behind the other.
fn objects(alloc: Global) -> Result<Vec<u8>, AllocError> {
    let mut text = Vec::new(alloc);
    for object in OBJECTS {
        for piece in object {
            text.extend_from_slice(piece.as_bytes())?;
        }
    }
    text.extend_from_slice(b"{\"shown\":3,\"of\":3}\n")?;
    Ok(text)
}

#[test]
fn trees_are_shown_as_json(rt: HostRuntime) -> Result<(), Fail> {
    let tree = two_kings(rt.alloc())?;
    let found = shown(rt.alloc(), &tree, 1, 2_000)?;
    let text = tree_json(rt.alloc(), &found.nodes, 3)?;
    assert_eq!(rt; text.as_slice(), objects(rt.alloc())?.as_slice());
    Ok(())
}

#[test]
fn there_is_no_second_root(rt: HostRuntime) -> Result<(), Fail> {
    let tree = two_kings(rt.alloc())?;
    let second = shown_tree(rt.alloc(), &tree, 2, 1, 10)?;
    let none = shown_tree(rt.alloc(), &tree, 0, 1, 10)?;
    assert_eq!(rt; (second.is_none(), none.is_none()), (true, true));
    Ok(())
}
