//! Pages, written by hand: what is escaped, a board, a table of roots, a tree and a line of play.
use draughts_board::{Position, Value};
use fen_text::read_fen;
use page_text::{
    FOOT, HEAD, PageNode, PageStep, RootCells, RootSight, push_board, push_play, push_table,
    push_text, push_tree, root_page, roots_page,
};
use proof_numbers::{Number, Numbers};
use std::alloc::Global;
use std::test::Fail;

/// The position of a FEN.
fn position(text: &str) -> Result<Position, Fail> {
    Ok(read_fen(text.as_bytes()).ok().ok_or("no FEN")?)
}

/// A name of a game, as a page may be given it.
const NAME: &[u8] = b"<b>\"A & B\"\x01\xE9";

/// What stands in the page for it.
const ESCAPED: &[u8] = b"&lt;b&gt;&quot;A &amp; B&quot;\\x01\\xE9";

#[test]
fn texts_are_escaped(rt: HostRuntime) -> Result<(), Fail> {
    let mut text = Vec::new(rt.alloc());
    push_text(&mut text, NAME)?;
    assert_eq!(rt; text.as_slice(), ESCAPED);
    Ok(())
}

/// Four pieces: a White man on 9, a White king on 4, a Black man on 28, a Black king on 29.
const FEN: &str = "B:WK4,9:B28,K29";

/// Its board. Square 4 stands in row 0, squares 9, 28 and 29 in rows 2, 6 and 7.
const BOARD: &str = "<svg class=\"board\" viewBox=\"0 0 8 8\"><use href=\"#squares\"></use>\
    <use href=\"#white-king\" x=\"7\" y=\"0\"></use><use href=\"#white-man\" x=\"1\" y=\"2\"></use>\
    <use href=\"#black-man\" x=\"7\" y=\"6\"></use><use href=\"#black-king\" x=\"0\" y=\"7\"></use></svg>";

#[test]
fn boards_have_their_pieces(rt: HostRuntime) -> Result<(), Fail> {
    let mut text = Vec::new(rt.alloc());
    push_board(&mut text, &position(FEN)?)?;
    assert_eq!(rt; text.as_slice(), BOARD.as_bytes());
    Ok(())
}

/// The board of a White king on 1 and a Black king on 32.
const KINGS: &str = "<svg class=\"board\" viewBox=\"0 0 8 8\"><use href=\"#squares\"></use>\
    <use href=\"#white-king\" x=\"1\" y=\"0\"></use><use href=\"#black-king\" x=\"6\" y=\"7\"></use></svg>";

/// The position of `KINGS`.
const KINGS_FEN: &str = "W:WK1:BK32";

/// Two roots: one that White wins, which took 30 records of work, and one without a value, which took 120.
fn two_roots() -> Result<[RootCells; 2], Fail> {
    let won = Numbers {
        proof: Number::Finite(0),
        disproof: Number::Infinite,
    };
    let lost = Numbers {
        proof: Number::Infinite,
        disproof: Number::Finite(0),
    };
    let unknown = Numbers {
        proof: Number::Finite(3),
        disproof: Number::Finite(5),
    };
    Ok([
        RootCells {
            position: position(KINGS_FEN)?,
            value: Some(Value::WhiteWins),
            black: lost,
            white: won,
            nodes: 7,
            leaves: 0,
            work: 30,
        },
        RootCells {
            position: position(FEN)?,
            value: None,
            black: unknown,
            white: unknown,
            nodes: 400,
            leaves: 61,
            work: 120,
        },
    ])
}

const TABLE: [&str; 7] = [
    "<table><tr><th>Root</th><th>Board</th><th>Position</th><th>Value</th><th>Black proof</th>\
        <th>Black disproof</th><th>White proof</th><th>White disproof</th><th>Nodes</th>\
        <th>Open leaves</th><th>Work</th></tr><tr><td>1</td><td>",
    KINGS,
    "</td><td><code>W:WK1:BK32</code></td><td>White wins</td><td>inf</td><td>0</td><td>0</td><td>inf</td>\
        <td>7</td><td>0</td><td>30<meter max=\"120\" value=\"30\">30</meter></td></tr>",
    "<tr><td>2</td><td>",
    BOARD,
    "</td><td><code>B:WK4,9:B28,K29</code></td><td>Unsolved</td><td>3</td><td>5</td><td>3</td><td>5</td>",
    "<td>400</td><td>61</td><td>120<meter max=\"120\" value=\"120\">120</meter></td></tr></table>",
];

/// The pieces, one behind the other.
fn joined(alloc: Global, pieces: &[&str]) -> Result<Vec<u8>, Fail> {
    let mut text = Vec::new(alloc);
    for piece in pieces {
        text.extend_from_slice(piece.as_bytes())?;
    }
    Ok(text)
}

#[test]
fn tables_have_a_row_for_each_root(rt: HostRuntime) -> Result<(), Fail> {
    let mut text = Vec::new(rt.alloc());
    push_table(&mut text, &two_roots()?)?;
    assert_eq!(rt; text.as_slice(), joined(rt.alloc(), &TABLE)?.as_slice());
    Ok(())
}

/// A node of `KINGS` at a depth.
fn node(alloc: Global, depth: u32, summary: &[u8]) -> Result<PageNode, Fail> {
    Ok(PageNode {
        depth,
        position: position(KINGS_FEN)?,
        summary: summary.to_vec(alloc)?,
    })
}

/// A root with two children, the first of which has one.
fn four_nodes(alloc: Global) -> Result<Vec<PageNode>, Fail> {
    let mut nodes = Vec::new(alloc);
    nodes.push(node(alloc, 0, b"root")?)?;
    nodes.push(node(alloc, 1, b"1-5")?)?;
    nodes.push(node(alloc, 2, b"32-27")?)?;
    nodes.push(node(alloc, 1, b"1-6 next")?)?;
    Ok(nodes)
}

const TREE: [&str; 17] = [
    "<details><summary>root</summary>",
    KINGS,
    "<p><code>W:WK1:BK32</code></p>",
    "<details><summary>1-5</summary>",
    KINGS,
    "<p><code>W:WK1:BK32</code></p>",
    "<details><summary>32-27</summary>",
    KINGS,
    "<p><code>W:WK1:BK32</code></p>",
    "</details>",
    "</details>",
    "<details><summary>1-6 next</summary>",
    KINGS,
    "<p><code>W:WK1:BK32</code></p>",
    "</details>",
    "</details>",
    "",
];

#[test]
fn nodes_stand_within_those_above(rt: HostRuntime) -> Result<(), Fail> {
    let mut text = Vec::new(rt.alloc());
    push_tree(&mut text, &four_nodes(rt.alloc())?)?;
    assert_eq!(rt; text.as_slice(), joined(rt.alloc(), &TREE)?.as_slice());
    Ok(())
}

/// A play of two positions.
fn two_steps(alloc: Global) -> Result<Vec<PageStep>, Fail> {
    let mut steps = Vec::new(alloc);
    steps.push(PageStep {
        position: position(KINGS_FEN)?,
        words: b"start".to_vec(alloc)?,
    })?;
    steps.push(PageStep {
        position: position(FEN)?,
        words: b"1. 1-5".to_vec(alloc)?,
    })?;
    Ok(steps)
}

const PLAY: [&str; 5] = [
    "<div class=\"play\"><figure>",
    KINGS,
    "<figcaption>start</figcaption></figure><figure>",
    BOARD,
    "<figcaption>1. 1-5</figcaption></figure></div>",
];

#[test]
fn plays_are_boards_in_a_row(rt: HostRuntime) -> Result<(), Fail> {
    let mut text = Vec::new(rt.alloc());
    push_play(&mut text, &two_steps(rt.alloc())?)?;
    assert_eq!(rt; text.as_slice(), joined(rt.alloc(), &PLAY)?.as_slice());
    Ok(())
}

/// The whole page of these roots, the second of which is shown.
fn whole_page(alloc: Global) -> Result<Vec<u8>, Fail> {
    let table = joined(alloc, &TABLE)?;
    let play = joined(alloc, &PLAY)?;
    let tree = joined(alloc, &TREE)?;
    let mut page = Vec::new(alloc);
    page.extend_from_slice(HEAD.as_bytes())?;
    page.extend_from_slice(&table)?;
    page.extend_from_slice(b"<h2>Root 2</h2>")?;
    page.extend_from_slice(&play)?;
    page.extend_from_slice(&tree)?;
    page.extend_from_slice(b"<p>Nodes that are not shown: 396</p>")?;
    page.extend_from_slice(FOOT.as_bytes())?;
    Ok(page)
}

#[test]
fn pages_show_a_root(rt: HostRuntime) -> Result<(), Fail> {
    let sight = RootSight {
        number: 2,
        play: two_steps(rt.alloc())?,
        nodes: four_nodes(rt.alloc())?,
        more: 396,
    };
    let page = root_page(rt.alloc(), &two_roots()?, &sight)?;
    assert_eq!(rt; page.as_slice(), whole_page(rt.alloc())?.as_slice());
    Ok(())
}

#[test]
fn pages_show_roots_alone(rt: HostRuntime) -> Result<(), Fail> {
    let page = roots_page(rt.alloc(), &[])?;
    let table = [
        HEAD,
        "<table><tr><th>Root</th><th>Board</th><th>Position</th><th>Value</th><th>Black proof</th>\
            <th>Black disproof</th><th>White proof</th><th>White disproof</th><th>Nodes</th>\
            <th>Open leaves</th><th>Work</th></tr></table>",
        FOOT,
    ];
    assert_eq!(rt; page.as_slice(), joined(rt.alloc(), &table)?.as_slice());
    Ok(())
}
