//! What is shown as JSON, an object a line.
ghost use Rattle.std.specs.Prelude.{◌≡◌, ◌≤◌, ◌++◌, IfOk, OnOk, length};
ghost use Rattle.journal_pages.specs.Json.{json_bool, json_census, json_count, json_goals, json_number, json_numbers, json_place, json_played, json_roots, json_row, json_rows, json_summary, json_worth, settled_rows};

use crate::roots::{RootRow, word};
use draughts_board::{Position, Value};
use fen_text::print_fen;
use itoa::Buffer;
use opened_games::OpenedGames;
use proof_numbers::{Number, Numbers};
use shared_words::push_number;
use std::alloc::{AllocError, Global};
use tree_census::Census;

/// The word for a truth value.
pub fn json_bool(value: bool) -> &'static str
    ensures { result.now ≡ json_bool value }
{
    if value { "true" } else { "false" }
}

/// Appends a proof number or a disproof number; `null` where nothing will do.
fn push_number_or_null(text: &mut Vec<u8>, number: Number) -> Result<(), AllocError>
    ensures { OnOk result (text.new.items ≡ text.old.items ++ json_number number) }
{
    match number {
        Number::Finite(n) => {
            let mut buffer = Buffer::new();
            text.extend_from_slice(buffer.format(n).as_bytes())
        }
        Number::Infinite => text.extend_from_slice(b"null"),
    }
}

/// Appends the numbers for a side's win as an object.
#[tactic(auto, unfolding(crate::specs::Json::json_numbers))]
fn push_json_numbers(text: &mut Vec<u8>, numbers: &Numbers) -> Result<(), AllocError>
    ensures { OnOk result (text.new.items ≡ text.old.items ++ json_numbers numbers.now) }
{
    text.extend_from_slice(b"{\"proof\":")?;
    push_number_or_null(text, numbers.proof)?;
    text.extend_from_slice(b",\"disproof\":")?;
    push_number_or_null(text, numbers.disproof)?;
    text.extend_from_slice(b"}")
}

/// Appends the numbers for each side's win, as fields `black` and `white` behind others.
#[tactic(auto, unfolding(crate::specs::Json::json_goals))]
pub fn push_json_goals(
    text: &mut Vec<u8>,
    black: &Numbers,
    white: &Numbers,
) -> Result<(), AllocError>
    ensures { OnOk result (text.new.items ≡ text.old.items ++ json_goals black.now white.now) }
{
    text.extend_from_slice(b",\"black\":")?;
    push_json_numbers(text, black)?;
    text.extend_from_slice(b",\"white\":")?;
    push_json_numbers(text, white)
}

/// Appends a root's number and position, as the front of its object.
#[tactic(auto, unfolding(crate::specs::Json::json_place))]
fn push_json_place(text: &mut Vec<u8>, number: usize, p: &Position) -> Result<(), AllocError>
    ensures { OnOk result (text.new.items ≡ text.old.items ++ json_place number p.now) }
{
    text.extend_from_slice(b"{\"root\":")?;
    push_number(text, number as u64)?;
    text.extend_from_slice(b",\"fen\":\"")?;
    text.extend_from_slice(print_fen(p).as_bytes())?;
    text.extend_from_slice(b"\"")
}

/// Appends a root's value, as a field behind others.
#[tactic(auto, unfolding(crate::specs::Json::json_worth))]
fn push_json_worth(text: &mut Vec<u8>, value: Option<Value>) -> Result<(), AllocError>
    ensures { OnOk result (text.new.items ≡ text.old.items ++ json_worth value) }
{
    text.extend_from_slice(b",\"value\":\"")?;
    text.extend_from_slice(word(value).as_bytes())?;
    text.extend_from_slice(b"\"")
}

/// Appends what stands in a root's tree, as the end of its object, and a line end.
#[tactic(auto, unfolding(crate::specs::Json::json_census))]
fn push_json_census(text: &mut Vec<u8>, census: &Census) -> Result<(), AllocError>
    ensures { OnOk result (text.new.items ≡ text.old.items ++ json_census census.now) }
{
    text.extend_from_slice(b",\"nodes\":")?;
    push_number(text, census.nodes as u64)?;
    text.extend_from_slice(b",\"open\":")?;
    push_number(text, census.open_leaves as u64)?;
    text.extend_from_slice(b"}\n")
}

/// Appends the games that lead to a position, as a field behind others.
#[tactic(auto, unfolding(crate::specs::Json::json_played))]
fn push_json_played(text: &mut Vec<u8>, games: &OpenedGames, p: &Position) -> Result<(), AllocError>
    ensures { OnOk result (text.new.items ≡ text.old.items ++ json_played games.now p.now) }
{
    text.extend_from_slice(b",\"games\":")?;
    games.push_json_at(text, p)
}

/// Appends the object of a root with this number, and a line end.
fn push_json_row(
    text: &mut Vec<u8>,
    number: usize,
    row: &RootRow,
    games: &OpenedGames,
) -> Result<(), AllocError>
    ensures { OnOk result (text.new.items
        ≡ text.old.items ++ json_row games.now number row.now) }
{
    push_json_place(text, number, &row.position)?;
    push_json_worth(text, row.value)?;
    push_json_goals(text, &row.black, &row.white)?;
    push_json_played(text, games, &row.position)?;
    push_json_census(text, &row.census)
}

/// Appends the objects of roots, which are numbered from 1.
fn push_json_rows(
    text: &mut Vec<u8>,
    rows: &[RootRow],
    games: &OpenedGames,
) -> Result<(), AllocError>
    ensures { OnOk result (text.new.items
        ≡ text.old.items ++ json_rows games.now 1 rows.now) }
{
    for (i, row) in rows.iter().enumerate() {
        push_json_row(text, i + 1, row, games)?;
    }
    Ok(())
}

/// How many rows have a value.
fn settled_rows(rows: &[RootRow]) -> usize
    ensures value { result ≡ settled_rows rows.now }
    ensures most { result ≤ length rows.now }
{
    rows.iter().filter(|row| row.value.is_some()).count()
}

/// Appends a count behind its label.
#[tactic(auto, unfolding(crate::specs::Json::json_count))]
fn push_json_count(text: &mut Vec<u8>, label: &[u8], count: usize) -> Result<(), AllocError>
    ensures { OnOk result (text.new.items ≡ text.old.items ++ json_count label.now count) }
{
    text.extend_from_slice(label)?;
    push_number(text, count as u64)
}

/// Appends the object that counts the roots, and a line end.
fn push_json_summary(text: &mut Vec<u8>, rows: &[RootRow]) -> Result<(), AllocError>
    ensures { OnOk result (text.new.items ≡ text.old.items ++ json_summary rows.now) }
{
    let settled = settled_rows(rows);
    push_json_count(text, b"{\"roots\":", rows.len())?;
    push_json_count(text, b",\"settled\":", settled)?;
    push_json_count(text, b",\"unsolved\":", rows.len() - settled)?;
    text.extend_from_slice(b"}\n")
}

/// Roots as JSON: an object a line for each, which are numbered from 1, with the games that lead there, and
/// a last one that counts them.
pub fn rows_json(
    alloc: Global,
    rows: &[RootRow],
    games: &OpenedGames,
) -> Result<Vec<u8>, AllocError>
    ensures { IfOk result (λ text. text.items ≡ json_roots games.now rows.now) }
{
    let mut text = Vec::new(alloc);
    push_json_rows(&mut text, rows, games)?;
    push_json_summary(&mut text, rows)?;
    Ok(text)
}
