//! What a page shows of a root with two moves, worked out by hand.
ghost use Rattle.std.specs.Prelude.{◌≡◌, IsSomeAnd};
ghost use Rattle.proof_tree.specs.Forest.{node_at};

use draughts_board::Position;
use fen_text::read_fen;
use journal_pages::RootRow;
use page_text::RootCells;
use proof_numbers::{Number, Numbers};
use proof_tree::{Mark, NodeId, Tree, unknown_child, unknown_children};
use root_pages::{page_cells, play_steps, sight_page};
use std::alloc::{AllocError, Global};
use std::test::Fail;
use tree_census::Census;

/// The position of a FEN.
fn position(text: &str) -> Result<Position, Fail> {
    Ok(read_fen(text.as_bytes()).ok().ok_or("no FEN")?)
}

/// Expands a leaf.
fn grow(alloc: Global, tree: &mut Tree, n: NodeId) -> Result<(), AllocError>
    requires { IsSomeAnd (node_at n tree.old.forest) (λ x. x.own.mark ≡ Mark.Unexpanded) }
{
    let children = unknown_children(alloc, &tree.position(n))?;
    tree.reserve(children.len())?;
    tree.expand(n, &children);
    Ok(())
}

/// The tree of a White king on 1 against a Black king on 32, White to move, whose root is expanded.
fn two_kings(alloc: Global) -> Result<Tree, Fail> {
    let mut tree = Tree::new(alloc);
    tree.reserve(1)?;
    tree.add_root(unknown_child(alloc, position("W:WK1:BK32")?)?);
    if let Some(root) = tree.leaf(0) {
        grow(alloc, &mut tree, root)?;
    }
    Ok(tree)
}

/// The board of a White king on 1 and a Black king on 32.
const BOARD: &str = "<svg class=\"board\" viewBox=\"0 0 8 8\"><use href=\"#squares\"></use>\
    <use href=\"#white-king\" x=\"1\" y=\"0\"></use><use href=\"#black-king\" x=\"6\" y=\"7\"></use></svg>";

/// What stands behind the table, if the root alone may be shown: the play of no move, and how many more nodes there
/// are.
const ROOT_ALONE: [&str; 6] = [
    "</table><h2>Root 1</h2><div class=\"play\"><figure>",
    BOARD,
    "<figcaption>start</figcaption></figure></div><details><summary>root expanded black 2 2 white 2 2</summary>",
    BOARD,
    "<p><code>W:WK1:BK32</code></p></details><p>Nodes that are not shown: 2</p>",
    "\n</body>\n</html>\n",
];

/// Whether the page that may show this number of nodes ends with these pieces.
fn page_ends(alloc: Global, most: u64, pieces: &[&str]) -> Result<bool, Fail> {
    let tree = two_kings(alloc)?;
    let play = play_steps(alloc, &position("W:WK1:BK32")?, &[])?;
    let page = sight_page(alloc, &[], &tree, 1, play, 4, most)?.ok_or("no root")?;
    let mut end = Vec::new(alloc);
    for piece in pieces {
        end.extend_from_slice(piece.as_bytes())?;
    }
    Ok(page.ends_with(&end))
}

/// The board of the kings on 5 and 32.
const FIRST_CHILD: &str = "<svg class=\"board\" viewBox=\"0 0 8 8\"><use href=\"#squares\"></use>\
    <use href=\"#white-king\" x=\"0\" y=\"1\"></use><use href=\"#black-king\" x=\"6\" y=\"7\"></use></svg>";

/// The board of the kings on 6 and 32.
const SECOND_CHILD: &str = "<svg class=\"board\" viewBox=\"0 0 8 8\"><use href=\"#squares\"></use>\
    <use href=\"#white-king\" x=\"2\" y=\"1\"></use><use href=\"#black-king\" x=\"6\" y=\"7\"></use></svg>";

/// What stands behind the root's board, if three nodes may be shown.
const ALL_NODES: [&str; 6] = [
    "<p><code>W:WK1:BK32</code></p><details><summary>1-5 unexpanded next black 1 2 white 2 1</summary>",
    FIRST_CHILD,
    "<p><code>B:WK5:BK32</code></p></details><details><summary>1-6 unexpanded black 1 2 white 2 1</summary>",
    SECOND_CHILD,
    "<p><code>B:WK6:BK32</code></p></details></details><p>Nodes that are not shown: 0</p>",
    "\n</body>\n</html>\n",
];

#[test]
fn pages_show_trees(rt: HostRuntime) -> Result<(), Fail> {
    assert_eq!(rt; page_ends(rt.alloc(), 2, &ROOT_ALONE)?, true);
    assert_eq!(rt; page_ends(rt.alloc(), 3, &ALL_NODES)?, true);
    Ok(())
}

#[test]
fn rows_get_their_work(rt: HostRuntime) -> Result<(), Fail> {
    let unknown = Numbers {
        proof: Number::Finite(3),
        disproof: Number::Finite(5),
    };
    let row = RootRow {
        position: position("W:WK1:BK32")?,
        value: None,
        black: unknown,
        white: unknown,
        census: Census {
            nodes: 7,
            open_leaves: 6,
        },
    };
    let cells = page_cells(rt.alloc(), &[row], &[30])?;
    let due = RootCells {
        position: row.position,
        value: None,
        black: unknown,
        white: unknown,
        nodes: 7,
        leaves: 6,
        work: 30,
    };
    assert_eq!(rt; cells.as_slice(), [due].as_slice());
    Ok(())
}
