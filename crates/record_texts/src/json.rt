//! Records as JSON, an object a line.
ghost use Rattle.std.specs.Prelude.{◌≡◌, ◌++◌, OnOk};
ghost use Rattle.record_texts.specs.Json.{json_claim, json_claims, json_count, json_further, json_head, json_node, json_position, json_record, json_spot, json_tail};

use crate::spots::{kind_word, node_of, position_of, shown_by};
use bench_records::BenchRecord;
use certificate_text::claim_word;
use draughts_board::Position;
use fen_text::print_fen;
use journal_pages::json_bool;
use proof_tree::Tree;
use shared_words::push_number;
use std::alloc::AllocError;
use strategy_certificate::Certificate;

/// Appends which record it is, counted from 1, and what it does, as the front of its object.
#[tactic(auto, unfolding(crate::specs::Json::json_head))]
fn push_json_head(text: &mut Vec<u8>, place: usize, r: &BenchRecord) -> Result<(), AllocError>
    ensures { OnOk result (text.new.items ≡ text.old.items ++ json_head place r.now) }
{
    text.extend_from_slice(b"{\"record\":")?;
    push_number(text, place as u64)?;
    text.extend_from_slice(b",\"kind\":\"")?;
    text.extend_from_slice(kind_word(r).as_bytes())?;
    text.extend_from_slice(b"\"")
}

/// Appends the number of a node, `null` where there is none.
fn push_json_node(text: &mut Vec<u8>, node: Option<u64>) -> Result<(), AllocError>
    ensures { OnOk result (text.new.items ≡ text.old.items ++ json_node node) }
{
    match node {
        Some(n) => push_number(text, n),
        None => text.extend_from_slice(b"null"),
    }
}

/// Appends a position as a text, `null` where there is none.
fn push_json_position(text: &mut Vec<u8>, position: Option<Position>) -> Result<(), AllocError>
    ensures { OnOk result (text.new.items ≡ text.old.items ++ json_position position) }
{
    match position {
        Some(p) => {
            text.push(b'"')?;
            text.extend_from_slice(print_fen(&p).as_bytes())?;
            text.push(b'"')?;
            Ok(())
        }
        None => text.extend_from_slice(b"null"),
    }
}

/// Appends where a record does what it does, where so many roots have begun before it.
#[tactic(auto, unfolding(crate::specs::Json::json_spot))]
fn push_json_spot(
    text: &mut Vec<u8>,
    tree: &Tree,
    begun: usize,
    r: &BenchRecord,
) -> Result<(), AllocError>
    ensures { OnOk result (text.new.items
        ≡ text.old.items ++ json_spot tree.now.forest begun r.now) }
{
    text.extend_from_slice(b",\"node\":")?;
    push_json_node(text, node_of(tree, begun, r))?;
    text.extend_from_slice(b",\"fen\":")?;
    push_json_position(text, position_of(tree, r))
}

/// Appends what a certificate claims.
fn push_json_claim(text: &mut Vec<u8>, certificate: &Certificate) -> Result<(), AllocError>
    ensures { OnOk result (text.new.items ≡ text.old.items ++ json_claim certificate.now) }
{
    text.push(b'"')?;
    text.extend_from_slice(claim_word(certificate.claim).as_bytes())?;
    text.push(b'"')?;
    Ok(())
}

/// Appends what certificates claim, each behind a comma.
fn push_json_further(text: &mut Vec<u8>, shown: &[Certificate]) -> Result<(), AllocError>
    ensures { OnOk result (text.new.items ≡ text.old.items ++ json_further shown.now) }
{
    for certificate in shown {
        text.push(b',')?;
        push_json_claim(text, certificate)?;
    }
    Ok(())
}

/// Appends what certificates claim, with commas between.
fn push_json_claims(text: &mut Vec<u8>, shown: &[Certificate]) -> Result<(), AllocError>
    ensures { OnOk result (text.new.items ≡ text.old.items ++ json_claims shown.now) }
{
    match shown {
        [] => Ok(()),
        [first, further @ ..] => {
            push_json_claim(text, first)?;
            push_json_further(text, further)
        }
    }
}

/// Appends what a record shows, and whether it is the last, as the end of its object, and a line end.
#[tactic(auto, unfolding(crate::specs::Json::json_tail))]
fn push_json_tail(text: &mut Vec<u8>, is_last: bool, r: &BenchRecord) -> Result<(), AllocError>
    ensures { OnOk result (text.new.items ≡ text.old.items ++ json_tail is_last r.now) }
{
    text.extend_from_slice(b",\"shows\":[")?;
    push_json_claims(text, shown_by(r))?;
    text.extend_from_slice(b"],\"last\":")?;
    text.extend_from_slice(json_bool(is_last).as_bytes())?;
    text.extend_from_slice(b"}\n")
}

/// Appends the object of a record, counted from 1, where so many roots have begun before it, and a line end.
pub(crate) fn push_json(
    text: &mut Vec<u8>,
    tree: &Tree,
    place: usize,
    begun: usize,
    is_last: bool,
    r: &BenchRecord,
) -> Result<(), AllocError>
    ensures { OnOk result (text.new.items
        ≡ text.old.items ++ json_record tree.now.forest place begun is_last r.now) }
{
    push_json_head(text, place, r)?;
    push_json_spot(text, tree, begun, r)?;
    push_json_tail(text, is_last, r)
}

/// Appends the object that says how many records there are, and a line end.
pub(crate) fn push_json_count(text: &mut Vec<u8>, count: usize) -> Result<(), AllocError>
    ensures { OnOk result (text.new.items ≡ text.old.items ++ json_count count) }
{
    text.extend_from_slice(b"{\"records\":")?;
    push_number(text, count as u64)?;
    text.extend_from_slice(b"}\n")
}
