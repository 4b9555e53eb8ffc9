//! The report: a line for each root, and a summary.
ghost use Rattle.std.specs.Prelude.{◌≡◌, ◌≤◌, ◌++◌, length, OnOk, IfOk, decimal};
ghost use Rattle.opening_report.specs.Report.{value_word, root_line, settled_count, summary_line, report_of};

use crate::roots::Root;
use draughts_board::Value;
use fen_text::print_fen;
use shared_words::push_number;
use std::alloc::{AllocError, Global};

/// The word for a value, and for none.
fn word(value: Option<Value>) -> &'static str
    ensures { result.now ≡ value_word value }
{
    match value {
        Some(Value::BlackWins) => "black-wins",
        Some(Value::WhiteWins) => "white-wins",
        Some(Value::Draw) => "draw",
        None => "unsolved",
    }
}

/// Appends a label and a number in decimal.
fn push_field(text: &mut Vec<u8>, label: &[u8], n: usize) -> Result<(), AllocError>
    ensures { OnOk result (text.new.items ≡ text.old.items ++ (label.now ++ decimal n)) }
{
    text.extend_from_slice(label)?;
    push_number(text, n as u64)
}

/// Appends the line of a root, whose number is from 1.
fn push_root(text: &mut Vec<u8>, number: usize, root: &Root) -> Result<(), AllocError>
    ensures { OnOk result
        (text.new.items ≡ text.old.items ++ root_line number root.now.position root.now.value) }
{
    text.extend_from_slice(b"root ")?;
    push_number(text, number as u64)?;
    text.push(b' ')?;
    text.extend_from_slice(print_fen(&root.position).as_bytes())?;
    text.push(b' ')?;
    text.extend_from_slice(word(root.value).as_bytes())?;
    text.push(b'\n')?;
    Ok(())
}

/// How many of the roots have a value.
fn settled_count(roots: &[Root]) -> usize
    ensures value { result ≡ settled_count roots.now }
    ensures most { result ≤ length roots.now }
{
    roots.iter().filter(|root| root.value.is_some()).count()
}

/// Appends the last line: how many roots there are, how many have a value, and how many have none.
fn push_summary(text: &mut Vec<u8>, roots: &[Root]) -> Result<(), AllocError>
    ensures { OnOk result (text.new.items ≡ text.old.items ++ summary_line roots.now) }
{
    let settled = settled_count(roots);
    push_field(text, b"roots ", roots.len())?;
    push_field(text, b" settled ", settled)?;
    push_field(text, b" unsolved ", roots.len() - settled)?;
    text.push(b'\n')?;
    Ok(())
}

/// The report on the roots, in their order and numbered from 1, and the summary behind them.
/// Answers want of memory.
pub fn report(alloc: Global, roots: &[Root]) -> Result<Vec<u8>, AllocError>
    ensures { IfOk result (λ text. text.items ≡ report_of roots.now) }
{
    let mut text = Vec::new(alloc);
    for (i, root) in roots.iter().enumerate() {
        push_root(&mut text, i + 1, root)?;
    }
    push_summary(&mut text, roots)?;
    Ok(text)
}
