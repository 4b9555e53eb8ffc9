//! A whole page.
ghost use Rattle.std.specs.Prelude.{◌≡◌, ◌++◌, IfOk, OnOk, map};
ghost use Rattle.page_text.specs.Markup.{markup_text, nothing};
ghost use Rattle.page_text.specs.Nodes.{AreAt, Twigs, preorder, words_of};
ghost use Rattle.page_text.specs.Pages.{page_text, root_sight};
ghost use Rattle.page_text.specs.Plays.{step_words};

use crate::markup::{push_count, push_text};
use crate::nodes::{PageNode, push_tree};
use crate::plays::{PageStep, push_play};
use crate::roots::{RootCells, push_table};
use std::alloc::{AllocError, Global};
use terminal_text::say;

/// What stands before the table of roots: the page's head with its styles, and the shapes of boards.
pub const HEAD: &str = "<!DOCTYPE html>
<html lang=\"en\">
<head>
<meta charset=\"utf-8\">
<meta name=\"viewport\" content=\"width=device-width, initial-scale=1\">
<title>Roots of a journal</title>
<style>
body { font: 15px/1.45 sans-serif; margin: 1.5em; color: #222; background: #fff; }
p { max-width: 46em; }
table { display: block; max-width: 100%; overflow-x: auto; border-collapse: collapse; }
th, td { border: 1px solid #ccc; padding: .35em .6em; text-align: left; vertical-align: top; }
th { background: #eee; vertical-align: bottom; }
td:nth-child(4) { font-weight: bold; }
th:nth-child(n+5), td:nth-child(n+5) { text-align: right; font-variant-numeric: tabular-nums; }
code { font-size: 13px; overflow-wrap: anywhere; }
td code { display: block; width: 12em; }
meter { display: block; width: 8em; height: 1em; margin-left: auto; }
.board { display: block; width: 12.5em; height: 12.5em; border: 1px solid #444; }
td .board { --numbers: 0; width: 8em; height: 8em; }
.play { display: flex; flex-wrap: wrap; gap: 1em; margin: 1em 0; }
figure { margin: 0; flex: none; }
figcaption { text-align: center; font-family: monospace; }
details { margin: .15em 0; }
details details { margin-left: .4em; padding-left: .8em; border-left: 1px solid #ccc; }
details > .board, details > p { margin: .4em 0 .4em 1.1em; }
summary { cursor: pointer; font-family: monospace; }
summary:hover { background: #f2f2f2; }
@media (max-width: 40em) {
body { margin: .8em; }
td code { width: 7em; }
.play { flex-wrap: nowrap; overflow-x: auto; }
}
</style>
</head>
<body>
<svg width=\"0\" height=\"0\" style=\"position:absolute\">
<defs>
<g id=\"squares\">
<rect width=\"8\" height=\"8\" fill=\"#efe0c0\"/>
<path stroke=\"#9a6a3c\" stroke-dasharray=\"1 1\" d=\"M1 .5h7M0 1.5h8M1 2.5h7M0 3.5h8M1 4.5h7M0 5.5h8M1 6.5h7M0 7.5h8\"/>
<g fill=\"#f6e9cf\" font-family=\"sans-serif\" font-size=\".28\" style=\"opacity: var(--numbers, 1)\">
<text x=\"1.06\" y=\".3\">1</text><text x=\"3.06\" y=\".3\">2</text><text x=\"5.06\" y=\".3\">3</text><text x=\"7.06\" y=\".3\">4</text>
<text x=\".06\" y=\"1.3\">5</text><text x=\"2.06\" y=\"1.3\">6</text><text x=\"4.06\" y=\"1.3\">7</text><text x=\"6.06\" y=\"1.3\">8</text>
<text x=\"1.06\" y=\"2.3\">9</text><text x=\"3.06\" y=\"2.3\">10</text><text x=\"5.06\" y=\"2.3\">11</text><text x=\"7.06\" y=\"2.3\">12</text>
<text x=\".06\" y=\"3.3\">13</text><text x=\"2.06\" y=\"3.3\">14</text><text x=\"4.06\" y=\"3.3\">15</text><text x=\"6.06\" y=\"3.3\">16</text>
<text x=\"1.06\" y=\"4.3\">17</text><text x=\"3.06\" y=\"4.3\">18</text><text x=\"5.06\" y=\"4.3\">19</text><text x=\"7.06\" y=\"4.3\">20</text>
<text x=\".06\" y=\"5.3\">21</text><text x=\"2.06\" y=\"5.3\">22</text><text x=\"4.06\" y=\"5.3\">23</text><text x=\"6.06\" y=\"5.3\">24</text>
<text x=\"1.06\" y=\"6.3\">25</text><text x=\"3.06\" y=\"6.3\">26</text><text x=\"5.06\" y=\"6.3\">27</text><text x=\"7.06\" y=\"6.3\">28</text>
<text x=\".06\" y=\"7.3\">29</text><text x=\"2.06\" y=\"7.3\">30</text><text x=\"4.06\" y=\"7.3\">31</text><text x=\"6.06\" y=\"7.3\">32</text>
</g>
</g>
<g id=\"black-man\"><circle cx=\".5\" cy=\".5\" r=\".38\" fill=\"#2b2b2b\" stroke=\"#000\" stroke-width=\".05\"/></g>
<g id=\"white-man\"><circle cx=\".5\" cy=\".5\" r=\".38\" fill=\"#fafafa\" stroke=\"#333\" stroke-width=\".05\"/></g>
<path id=\"crown\" d=\"M.28 .66V.38L.4 .5 .5 .32 .6 .5 .72 .38V.66z\" fill=\"#e0a92e\" stroke=\"#6b4a00\" stroke-width=\".02\"/>
<g id=\"black-king\"><use href=\"#black-man\"/><use href=\"#crown\"/></g>
<g id=\"white-king\"><use href=\"#white-man\"/><use href=\"#crown\"/></g>
</defs>
</svg>
<h1>Roots</h1>
<p>A row shows a root of the journal. A value stands only behind a certificate that was joined from the journal and checked
for this page. For the win of either side, proof is how many leaves are to be settled until it is shown, disproof until it is
refuted, and inf where nothing will do. Work is how many searches were spent in the root's tree.</p>
";

/// What stands behind all else.
pub const FOOT: &str = "
</body>
</html>
";

/// What is shown of one root.
#[derive(Debug, Drop)]
pub struct RootSight {
    /// Its number, from 1.
    pub number: u64,
    /// A line of play from its position on; none where it has no value.
    pub play: Vec<PageStep>,
    /// The nodes of its tree that are shown, in preorder.
    pub nodes: Vec<PageNode>,
    /// How many more nodes there are.
    pub more: u64,
}

/// Appends what is shown of one root: its number, its line of play, its tree, and how many nodes are not
/// shown.
pub fn push_sight(text: &mut Vec<u8>, sight: &RootSight) -> Result<(), AllocError>
    ensures { (twigs : Twigs) → AreAt 0 twigs →
        map words_of sight.now.nodes.items ≡ preorder twigs →
        OnOk result (text.new.items ≡ text.old.items ++ markup_text (root_sight sight.now.number
        (map step_words sight.now.play.items) twigs sight.now.more)) }
{
    say(text, "<h2>")?;
    push_text(text, b"Root ")?;
    push_count(text, sight.number)?;
    say(text, "</h2>")?;
    push_play(text, &sight.play)?;
    push_tree(text, &sight.nodes)?;
    say(text, "<p>")?;
    push_text(text, b"Nodes that are not shown: ")?;
    push_count(text, sight.more)?;
    say(text, "</p>")
}

/// The page of a table of roots alone.
pub fn roots_page(alloc: Global, roots: &[RootCells]) -> Result<Vec<u8>, AllocError>
    ensures { IfOk result (λ page. page.items ≡ page_text roots.now nothing) }
{
    let mut text = Vec::new(alloc);
    say(&mut text, HEAD)?;
    push_table(&mut text, roots)?;
    say(&mut text, FOOT)?;
    Ok(text)
}

/// The page of a table of roots and of one root's play and tree.
pub fn root_page(
    alloc: Global,
    roots: &[RootCells],
    sight: &RootSight,
) -> Result<Vec<u8>, AllocError>
    ensures { (twigs : Twigs) → AreAt 0 twigs →
        map words_of sight.now.nodes.items ≡ preorder twigs →
        IfOk result (λ page. page.items ≡ page_text roots.now (root_sight sight.now.number
        (map step_words sight.now.play.items) twigs sight.now.more)) }
{
    let mut text = Vec::new(alloc);
    say(&mut text, HEAD)?;
    push_table(&mut text, roots)?;
    push_sight(&mut text, sight)?;
    say(&mut text, FOOT)?;
    Ok(text)
}
