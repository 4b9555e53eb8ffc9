//! Lists of positions.
use anyhow::{Context, Result, bail};
use draughts_board::{Position, Value};
use fen_text::read_fen;
use std::alloc::Global;
use std::fs;
use std::rt::Files;

/// A position of a list, and what it is worth where the list says it.
#[derive(Clone, Copy)]
pub(crate) struct ListedPosition {
    pub(crate) position: Position,
    pub(crate) value: Option<Value>,
}

/// The value of this name.
fn read_value(word: &str) -> Result<Value> {
    match word {
        "black-wins" => Ok(Value::BlackWins),
        "white-wins" => Ok(Value::WhiteWins),
        "draw" => Ok(Value::Draw),
        _ => bail!("no value: {word}"),
    }
}

/// The row of a line: a position, and a blank and its value where it is known.
fn read_row(line: &str) -> Result<ListedPosition> {
    let (fen, value) = match line.split_once(' ') {
        Some((fen, word)) => (fen, Some(read_value(word)?)),
        None => (line, None),
    };
    let position = read_fen(fen.as_bytes()).context(format_args!("reading {fen}"))?;
    Ok(ListedPosition { position, value })
}

/// The rows of the file of this name, one a line.
pub(crate) fn read_rows(
    rt: &(impl Files + Alloc<A = Global>),
    name: &str,
) -> Result<Vec<ListedPosition>> {
    let text = fs::read_to_string(rt, name).context(format_args!("reading {name}"))?;
    let mut rows = Vec::new(rt.alloc());
    for line in text.as_str().lines() {
        rows.push(read_row(line)?)?;
    }
    Ok(rows)
}
