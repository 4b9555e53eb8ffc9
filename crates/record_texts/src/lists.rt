//! All records of a journal.
ghost use Rattle.std.specs.Prelude.{◌≡◌, ◌++◌, [], IfOk, OnOk};
ghost use Rattle.tree_manager.specs.Receipts.{SpellsRecords};
ghost use Rattle.tree_manager.specs.Replaying.{payload_texts};
ghost use Rattle.record_texts.specs.Lists.{count_text, record_text, records_text};

use crate::json::{push_json, push_json_count};
use crate::lines::{push_count, push_line};
use crate::spots::begun_with;
use bench_core::Bench;
use bench_records::{BenchRecord, Named};
use disk_journal::Payload;
use proof_tree::Tree;
use record_reading::read_next;
use std::alloc::{AllocError, Global};

/// Appends a record, counted from 1, as JSON or as a line, where so many roots have begun before it.
fn push_record(
    text: &mut Vec<u8>,
    json: bool,
    tree: &Tree,
    place: usize,
    begun: usize,
    is_last: bool,
    r: &BenchRecord,
) -> Result<(), AllocError>
    ensures { OnOk result (text.new.items
        ≡ text.old.items ++ record_text json tree.now.forest place begun is_last r.now) }
{
    if json {
        push_json(text, tree, place, begun, is_last, r)
    } else {
        push_line(text, tree, place, begun, is_last, r)
    }
}

/// Appends how many records there are, as JSON or as a line.
fn push_end(text: &mut Vec<u8>, json: bool, count: usize) -> Result<(), AllocError>
    ensures { OnOk result (text.new.items ≡ text.old.items ++ count_text json count) }
{
    if json {
        push_json_count(text, count)
    } else {
        push_count(text, count)
    }
}

/// The records that a bench replayed from these payloads, for tables of `pieces` pieces, as JSON or as lines: one a
/// line, in order, and a last line that counts them.
pub fn records_text(
    alloc: Global,
    bench: &Bench,
    pieces: u8,
    payloads: &[Payload],
    json: bool,
) -> Result<Vec<u8>, AllocError>
    requires { SpellsRecords pieces [] bench.now.records (payload_texts payloads.now) }
    ensures { IfOk result (λ text. text.items
        ≡ records_text json bench.now.state.forest bench.now.records) }
{
    let tree = bench.tree();
    let mut text = Vec::new(alloc);
    let mut known = Named::new(alloc);
    let mut begun = 0;
    for i in 0..payloads.len() {
        let record = read_next(alloc, &payloads[i].bytes, pieces, &mut known)?;
        let is_last = i + 1 == payloads.len();
        push_record(&mut text, json, tree, i + 1, begun, is_last, &record)?;
        begun = begun_with(begun, &record);
    }
    push_end(&mut text, json, payloads.len())?;
    Ok(text)
}
