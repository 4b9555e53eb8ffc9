//! The table of roots.
ghost use Rattle.std.specs.Prelude.{◌≡◌, ◌++◌, OnOk, decimal};
ghost use Rattle.page_text.specs.Markup.{beside, markup_text, text_node};
ghost use Rattle.page_text.specs.Boards.{board};
ghost use Rattle.page_text.specs.Roots.{cell, fen_cell, heading, headings, most_work, number_words, numbers_cells, root_row, root_rows, root_table, value_words, work_bar};

use crate::boards::push_board;
use crate::markup::{push_count, push_text};
use draughts_board::{Position, Value};
use fen_text::print_fen;
use itoa::Buffer;
use proof_numbers::{Number, Numbers};
use shared_words::push_number;
use std::alloc::AllocError;
use terminal_text::say;

/// What a row says of a root.
#[derive(Clone, Copy, Debug, PartialEq, Eq)]
pub struct RootCells {
    pub position: Position,
    pub value: Option<Value>,
    /// The numbers for Black's win.
    pub black: Numbers,
    /// The numbers for White's win.
    pub white: Numbers,
    /// How many nodes its tree has.
    pub nodes: u64,
    /// How many of them are leaves that may still be searched.
    pub leaves: u64,
    /// How many records of work were spent in its tree.
    pub work: u64,
}

/// The words for a value, and for none.
fn value_words(value: Option<Value>) -> &'static str
    ensures { result.now ≡ value_words value }
{
    match value {
        Some(Value::BlackWins) => "Black wins",
        Some(Value::WhiteWins) => "White wins",
        Some(Value::Draw) => "Draw",
        None => "Unsolved",
    }
}

/// Appends a heading.
#[tactic(auto, unfolding(crate::specs::Roots::heading))]
fn push_heading(text: &mut Vec<u8>, words: &[u8]) -> Result<(), AllocError>
    ensures { OnOk result (text.new.items ≡ text.old.items ++ markup_text (heading words.now)) }
{
    say(text, "<th>")?;
    push_text(text, words)?;
    say(text, "</th>")
}

/// Appends the row of headings.
#[tactic(auto, unfolding(crate::specs::Roots::headings))]
fn push_headings(text: &mut Vec<u8>) -> Result<(), AllocError>
    ensures { OnOk result (text.new.items ≡ text.old.items ++ markup_text headings) }
{
    say(text, "<tr>")?;
    push_heading(text, b"Root")?;
    push_heading(text, b"Board")?;
    push_heading(text, b"Position")?;
    push_heading(text, b"Value")?;
    push_heading(text, b"Black proof")?;
    push_heading(text, b"Black disproof")?;
    push_heading(text, b"White proof")?;
    push_heading(text, b"White disproof")?;
    push_heading(text, b"Nodes")?;
    push_heading(text, b"Open leaves")?;
    push_heading(text, b"Work")?;
    say(text, "</tr>")
}

/// Appends a cell with a text.
#[tactic(auto, unfolding(crate::specs::Roots::cell))]
fn push_cell(text: &mut Vec<u8>, words: &[u8]) -> Result<(), AllocError>
    ensures { OnOk result (text.new.items ≡ text.old.items ++ markup_text (cell (text_node words.now))) }
{
    say(text, "<td>")?;
    push_text(text, words)?;
    say(text, "</td>")
}

/// Appends a cell with a proof number or a disproof number.
fn push_number_cell(text: &mut Vec<u8>, number: Number) -> Result<(), AllocError>
    ensures { OnOk result (text.new.items
        ≡ text.old.items ++ markup_text (cell (text_node (number_words number)))) }
{
    match number {
        Number::Finite(n) => {
            let mut buffer = Buffer::new();
            push_cell(text, buffer.format(n).as_bytes())
        }
        Number::Infinite => push_cell(text, b"inf"),
    }
}

/// Appends a cell with a number in decimal.
fn push_count_cell(text: &mut Vec<u8>, n: u64) -> Result<(), AllocError>
    ensures { OnOk result (text.new.items
        ≡ text.old.items ++ markup_text (cell (text_node (decimal n)))) }
{
    let mut buffer = Buffer::new();
    push_cell(text, buffer.format(n).as_bytes())
}

/// Appends a bar as long as the work that a root took is of the most.
fn push_bar(text: &mut Vec<u8>, work: u64, most: u64) -> Result<(), AllocError>
    ensures { OnOk result (text.new.items
        ≡ text.old.items ++ markup_text (work_bar work most)) }
{
    say(text, "<meter max=\"")?;
    push_number(text, most)?;
    say(text, "\" value=\"")?;
    push_number(text, work)?;
    say(text, "\">")?;
    push_count(text, work)?;
    say(text, "</meter>")
}

/// Appends a cell with how much work a root took, and its bar.
#[tactic(auto, unfolding(crate::specs::Roots::cell))]
fn push_work_cell(text: &mut Vec<u8>, work: u64, most: u64) -> Result<(), AllocError>
    ensures { OnOk result (text.new.items ≡ text.old.items
        ++ markup_text (cell (beside (text_node (decimal work)) (work_bar work most)))) }
{
    say(text, "<td>")?;
    push_count(text, work)?;
    push_bar(text, work, most)?;
    say(text, "</td>")
}

/// Appends a cell with a position as a board, and one with its FEN.
#[tactic(auto, unfolding(crate::specs::Roots::cell))]
fn push_position_cells(text: &mut Vec<u8>, p: &Position) -> Result<(), AllocError>
    ensures { OnOk result (text.new.items ≡ text.old.items
        ++ markup_text (beside (cell (board p.now)) (fen_cell p.now))) }
{
    say(text, "<td>")?;
    push_board(text, p)?;
    say(text, "</td><td><code>")?;
    push_text(text, print_fen(p).as_bytes())?;
    say(text, "</code></td>")
}

/// Appends the four cells with the numbers of a root.
fn push_numbers_cells(text: &mut Vec<u8>, root: &RootCells) -> Result<(), AllocError>
    ensures { OnOk result (text.new.items ≡ text.old.items
        ++ markup_text (numbers_cells root.now)) }
{
    push_number_cell(text, root.black.proof)?;
    push_number_cell(text, root.black.disproof)?;
    push_number_cell(text, root.white.proof)?;
    push_number_cell(text, root.white.disproof)
}

/// Appends the row of the root with this number, where the most work that a root took is this.
#[tactic(auto, unfolding(crate::specs::Roots::root_row))]
fn push_row(text: &mut Vec<u8>, most: u64, number: u64, root: &RootCells) -> Result<(), AllocError>
    ensures { OnOk result (text.new.items ≡ text.old.items
        ++ markup_text (root_row most number root.now)) }
{
    say(text, "<tr>")?;
    push_count_cell(text, number)?;
    push_position_cells(text, &root.position)?;
    push_cell(text, value_words(root.value).as_bytes())?;
    push_numbers_cells(text, root)?;
    push_count_cell(text, root.nodes)?;
    push_count_cell(text, root.leaves)?;
    push_work_cell(text, root.work, most)?;
    say(text, "</tr>")
}

/// Appends the rows of roots, which are numbered from 1.
fn push_rows(text: &mut Vec<u8>, most: u64, roots: &[RootCells]) -> Result<(), AllocError>
    ensures { OnOk result (text.new.items ≡ text.old.items
        ++ markup_text (root_rows most 1 roots.now)) }
{
    for (i, root) in roots.iter().enumerate() {
        push_row(text, most, i as u64 + 1, root)?;
    }
    Ok(())
}

/// The most work that one of the roots took.
fn most_work(roots: &[RootCells]) -> u64
    ensures { result ≡ most_work roots.now }
{
    let mut most = 0;
    for root in roots {
        most = root.work.max(most);
    }
    most
}

/// Appends the table of roots, which are numbered from 1: headings, and a row for each with its board, FEN,
/// value, numbers, nodes, open leaves and work. The bar of the root that took the most work is full.
#[tactic(auto, unfolding(crate::specs::Roots::root_table))]
pub fn push_table(text: &mut Vec<u8>, roots: &[RootCells]) -> Result<(), AllocError>
    ensures { OnOk result (text.new.items ≡ text.old.items ++ markup_text (root_table roots.now)) }
{
    say(text, "<table>")?;
    push_headings(text)?;
    push_rows(text, most_work(roots), roots)?;
    say(text, "</table>")
}
