//! How many work records are of each node.
ghost use Rattle.std.specs.Prelude.{◌≡◌, ◌<◌, ◌+◌, ◌^◌, [], ℕ, IfOk, get_or, if◌then◌else◌, length, ◌==◌};
ghost use Rattle.bench_core.specs.Records.{is_work_on};
ghost use Rattle.proof_tree.specs.Forest.{size};
ghost use Rattle.tree_manager.specs.Receipts.{SpellsRecords};
ghost use Rattle.tree_manager.specs.Replaying.{payload_texts};
ghost use Rattle.root_work.specs.Work.{work_on};

use bench_core::Bench;
use bench_records::{BenchRecord, Named};
use disk_journal::Payload;
use record_reading::read_next;
use std::alloc::{AllocError, Global};

/// Adds one to the count of a node, if it is among those that are counted.
fn add_one(counts: &mut Vec<u64>, node: u64)
    requires { (n : ℕ) → n < length counts.old.items → get_or counts.old.items n 0 + 1 < 2 ^ 64 }
    ensures length { length counts.new.items ≡ length counts.old.items }
    ensures counted { (n : ℕ) → n < length counts.old.items → get_or counts.new.items n 0
        ≡ get_or counts.old.items n 0 + (if node == n then 1 else 0) }
{
    let place = node as usize;
    if place < counts.len() {
        counts[place] += 1;
    }
}

/// Counts a record at its node, if it is a work record.
fn count_record(counts: &mut Vec<u64>, r: &BenchRecord)
    requires { (n : ℕ) → n < length counts.old.items → get_or counts.old.items n 0 + 1 < 2 ^ 64 }
    ensures length { length counts.new.items ≡ length counts.old.items }
    ensures counted { (n : ℕ) → n < length counts.old.items → get_or counts.new.items n 0
        ≡ get_or counts.old.items n 0 + (if is_work_on n r.now then 1 else 0) }
{
    match r {
        BenchRecord::Begin(_) => (),
        BenchRecord::Solve { node, .. } => add_one(counts, *node),
        BenchRecord::Expand { node } => add_one(counts, *node),
    }
}

/// How many work records of a bench, which replayed these payloads, are of each node, by the nodes' numbers.
pub(crate) fn work_of_nodes(
    alloc: Global,
    bench: &Bench,
    pieces: u8,
    payloads: &[Payload],
) -> Result<Vec<u64>, AllocError>
    requires { SpellsRecords pieces [] bench.now.records (payload_texts payloads.now) }
    ensures length { IfOk result (λ counts. length counts.items ≡ size bench.now.state.forest) }
    ensures counted { IfOk result (λ counts. (n : ℕ) → n < length counts.items →
        get_or counts.items n 0 ≡ work_on bench.now.records n) }
{
    let mut counts = vec![in alloc; 0u64; bench.tree().len()]?;
    let mut known = Named::new(alloc);
    for i in 0..payloads.len() {
        let record = read_next(alloc, &payloads[i].bytes, pieces, &mut known)?;
        count_record(&mut counts, &record);
    }
    Ok(counts)
}
