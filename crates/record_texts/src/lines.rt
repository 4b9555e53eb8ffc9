//! Records as text, a line each.
ghost use Rattle.std.specs.Prelude.{◌≡◌, ◌++◌, OnOk};
ghost use Rattle.record_texts.specs.Records.{claims_text, count_line, head_text, last_text, node_text, position_text, record_line, shown_by, spot_text};

use crate::spots::{kind_word, node_of, position_of, shown_by};
use bench_records::BenchRecord;
use certificate_text::claim_word;
use draughts_board::Position;
use fen_text::print_fen;
use proof_tree::Tree;
use shared_words::push_number;
use std::alloc::AllocError;
use strategy_certificate::Certificate;

/// Appends which record it is, counted from 1, and what it does.
#[tactic(auto, unfolding(crate::specs::Records::head_text))]
fn push_head(text: &mut Vec<u8>, place: usize, r: &BenchRecord) -> Result<(), AllocError>
    ensures { OnOk result (text.new.items ≡ text.old.items ++ head_text place r.now) }
{
    text.extend_from_slice(b"record ")?;
    push_number(text, place as u64)?;
    text.push(b' ')?;
    text.extend_from_slice(kind_word(r).as_bytes())
}

/// Appends the number of a node, if it has one.
fn push_node(text: &mut Vec<u8>, node: Option<u64>) -> Result<(), AllocError>
    ensures { OnOk result (text.new.items ≡ text.old.items ++ node_text node) }
{
    match node {
        Some(n) => {
            text.extend_from_slice(b" node ")?;
            push_number(text, n)
        }
        None => Ok(()),
    }
}

/// Appends a position, if there is one.
fn push_position(text: &mut Vec<u8>, position: Option<Position>) -> Result<(), AllocError>
    ensures { OnOk result (text.new.items ≡ text.old.items ++ position_text position) }
{
    match position {
        Some(p) => {
            text.push(b' ')?;
            text.extend_from_slice(print_fen(&p).as_bytes())
        }
        None => Ok(()),
    }
}

/// Appends where a record does what it does, where so many roots have begun before it.
#[tactic(auto, unfolding(crate::specs::Records::spot_text))]
fn push_spot(
    text: &mut Vec<u8>,
    tree: &Tree,
    begun: usize,
    r: &BenchRecord,
) -> Result<(), AllocError>
    ensures { OnOk result (text.new.items
        ≡ text.old.items ++ spot_text tree.now.forest begun r.now) }
{
    push_node(text, node_of(tree, begun, r))?;
    push_position(text, position_of(tree, r))
}

/// Appends what certificates claim.
fn push_claims(text: &mut Vec<u8>, shown: &[Certificate]) -> Result<(), AllocError>
    ensures { OnOk result (text.new.items ≡ text.old.items ++ claims_text shown.now) }
{
    for certificate in shown {
        text.push(b' ')?;
        text.extend_from_slice(claim_word(certificate.claim).as_bytes())?;
    }
    Ok(())
}

/// The words at the end of a line.
fn last_text(is_last: bool) -> &'static str
    ensures { result.now ≡ last_text is_last }
{
    if is_last { " last" } else { "" }
}

/// Appends the line of a record, counted from 1, where so many roots have begun before it.
pub(crate) fn push_line(
    text: &mut Vec<u8>,
    tree: &Tree,
    place: usize,
    begun: usize,
    is_last: bool,
    r: &BenchRecord,
) -> Result<(), AllocError>
    ensures { OnOk result (text.new.items
        ≡ text.old.items ++ record_line tree.now.forest place begun is_last r.now) }
{
    push_head(text, place, r)?;
    push_spot(text, tree, begun, r)?;
    push_claims(text, shown_by(r))?;
    text.extend_from_slice(last_text(is_last).as_bytes())?;
    text.push(b'\n')?;
    Ok(())
}

/// Appends how many records there are.
pub(crate) fn push_count(text: &mut Vec<u8>, count: usize) -> Result<(), AllocError>
    ensures { OnOk result (text.new.items ≡ text.old.items ++ count_line count) }
{
    text.extend_from_slice(b"records ")?;
    push_number(text, count as u64)?;
    text.push(b'\n')?;
    Ok(())
}
