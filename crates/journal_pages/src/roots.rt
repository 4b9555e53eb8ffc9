//! The lines of roots.
ghost use Rattle.std.specs.Prelude.{◌≡◌, ◌++◌, IfOk, OnOk};
ghost use Rattle.opening_report.specs.Report.{value_word};
ghost use Rattle.journal_pages.specs.Roots.{census_text, counts_text, goals_text, number_text, numbers_text, row_line, row_lines};

use draughts_board::{Position, Value};
use fen_text::print_fen;
use itoa::Buffer;
use opened_games::OpenedGames;
use proof_numbers::{Number, Numbers};
use shared_words::push_number;
use std::alloc::{AllocError, Global};
use tree_census::Census;

/// What a tree knows of a root.
#[derive(Clone, Copy, Debug, PartialEq, Eq)]
pub struct RootRow {
    pub position: Position,
    pub value: Option<Value>,
    /// The numbers for Black's win.
    pub black: Numbers,
    /// The numbers for White's win.
    pub white: Numbers,
    /// What stands in its tree.
    pub census: Census,
}

/// The word for a value, and for none.
pub(crate) fn word(value: Option<Value>) -> &'static str
    ensures { result.now ≡ value_word value }
{
    match value {
        Some(Value::BlackWins) => "black-wins",
        Some(Value::WhiteWins) => "white-wins",
        Some(Value::Draw) => "draw",
        None => "unsolved",
    }
}

/// Appends a proof number or a disproof number.
fn push_count(text: &mut Vec<u8>, number: Number) -> Result<(), AllocError>
    ensures { OnOk result (text.new.items ≡ text.old.items ++ number_text number) }
{
    match number {
        Number::Finite(n) => {
            let mut buffer = Buffer::new();
            text.extend_from_slice(buffer.format(n).as_bytes())
        }
        Number::Infinite => text.extend_from_slice(b"inf"),
    }
}

/// Appends a goal's proof number and disproof number, with a blank between; `inf` stands for one that is
/// infinite.
pub fn push_numbers(text: &mut Vec<u8>, numbers: &Numbers) -> Result<(), AllocError>
    ensures { OnOk result (text.new.items ≡ text.old.items ++ numbers_text numbers.now) }
{
    push_count(text, numbers.proof)?;
    text.push(b' ')?;
    push_count(text, numbers.disproof)
}

/// Appends the numbers for each side's win.
fn push_goals(text: &mut Vec<u8>, row: &RootRow) -> Result<(), AllocError>
    ensures { OnOk result (text.new.items ≡ text.old.items ++ goals_text row.now) }
{
    text.extend_from_slice(b" black ")?;
    push_numbers(text, &row.black)?;
    text.extend_from_slice(b" white ")?;
    push_numbers(text, &row.white)
}

/// Appends how many nodes and how many open leaves a tree has.
fn push_census(text: &mut Vec<u8>, census: &Census) -> Result<(), AllocError>
    ensures { OnOk result (text.new.items ≡ text.old.items ++ census_text census.now) }
{
    text.extend_from_slice(b" nodes ")?;
    push_number(text, census.nodes as u64)?;
    text.extend_from_slice(b" open ")?;
    push_number(text, census.open_leaves as u64)
}

/// Appends the numbers for each side's win, and what stands in the tree.
fn push_counts(text: &mut Vec<u8>, row: &RootRow) -> Result<(), AllocError>
    ensures { OnOk result (text.new.items ≡ text.old.items ++ counts_text row.now) }
{
    push_goals(text, row)?;
    push_census(text, &row.census)
}

/// Appends the line of a root with this number.
fn push_row(text: &mut Vec<u8>, number: usize, row: &RootRow) -> Result<(), AllocError>
    ensures { OnOk result (text.new.items ≡ text.old.items ++ row_line number row.now) }
{
    text.extend_from_slice(b"root ")?;
    push_number(text, number as u64)?;
    text.push(b' ')?;
    text.extend_from_slice(print_fen(&row.position).as_bytes())?;
    text.push(b' ')?;
    text.extend_from_slice(word(row.value).as_bytes())?;
    push_counts(text, row)?;
    text.push(b'\n')?;
    Ok(())
}

/// The lines of roots, which are numbered from 1, and behind each those of the games that lead there.
pub fn rows_text(
    alloc: Global,
    rows: &[RootRow],
    games: &OpenedGames,
) -> Result<Vec<u8>, AllocError>
    ensures { IfOk result (λ text. text.items ≡ row_lines games.now 1 rows.now) }
{
    let mut text = Vec::new(alloc);
    for (i, row) in rows.iter().enumerate() {
        push_row(&mut text, i + 1, row)?;
        games.push_games_at(&mut text, &row.position)?;
    }
    Ok(text)
}
