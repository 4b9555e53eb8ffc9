//! Staging the records of a shorter list.
ghost use Rattle.std.specs.Prelude.{◌≡◌, ◌+◌, ◌++◌, ◌∷◌, [], ℕ, List, Some, None, OnOk, slice_get, true, false};
ghost use Rattle.draughts_board.specs.Draughts.{draughts};
ghost use Rattle.draughts_board.specs.Game.{is_at_sight};
ghost use Rattle.draughts_board.specs.declared.pieces.Value.{Value};
ghost use Rattle.journal_compaction.specs.Compactions.{end_in};
ghost use Rattle.bench_records.specs.declared.records.BenchRecord.{BenchRecord as Record};
ghost use Rattle.bench_records.specs.declared.records.BenchRecord.TheVariants as records;
ghost use Rattle.bench_records.specs.Texts.{ShowsEnough};
ghost use Rattle.bench_core.specs.Growing.{IsForestOf};
ghost use Rattle.tree_manager.specs.Receipts.{SpellsRecords};
ghost use Rattle.tree_manager.specs.Replaying.{payload_texts};
ghost use Rattle.compaction_staging.specs.Progress.{AreSpelled, HasStaged, IsCompactStaged};

use crate::naming::{Naming, push_named, push_unnamed};
use crate::showing::shown_by;
use bench_core::Bench;
use bench_disk::Disk;
use bench_records::{BenchRecord, CertificateList, Named, kind_of, sheet_of};
use disk_journal::{Journal, Payload};
use draughts_board::Position;
use leaf_search::is_undecided;
use record_reading::read_next;
use std::alloc::{AllocError, Global};
use strategy_certificate::Oracle;

/// Stages the text of a record, of version 2 behind those staged before it.
fn stage_text<B: Disk>(
    alloc: Global,
    r: &BenchRecord,
    named: &mut Named,
    journal: &mut Journal<B>,
) -> Result<(), AllocError>
    requires unfailed { journal.old.failed ≡ false }
    requires enough { (pieces : ℕ) × ShowsEnough pieces r.now }
    ensures spelled { OnOk result ((pieces : ℕ) (made : List Record) → ShowsEnough pieces r.now →
        AreSpelled pieces made named.old journal.old.staged →
        AreSpelled pieces (made ++ r.now ∷ []) named.new journal.new.staged) }
    ensures rest { journal.new ≡ record journal.old { staged = journal.new.staged } }
{
    let sheet = sheet_of(alloc, r)?;
    let text = sheet.write(alloc, kind_of(r), named)?;
    journal.stage(&text)
}

/// Does nothing: a bench's forest is that of its records.
pub(crate) fn note_forest(bench: &Bench)
    ensures { IsForestOf bench.now.state.settings.pieces bench.now.records
        bench.now.state.forest }
{
    let _tree = bench.tree();
}

/// Stages the Begin of a root that is unsettled in the end.
fn stage_open<B: Disk>(
    alloc: Global,
    bench: &Bench,
    place: usize,
    p: Position,
    naming: &mut Naming,
    journal: &mut Journal<B>,
) -> Result<(), AllocError>
    requires at { slice_get bench.now.records place ≡ Some (records.Begin p) }
    requires so_far { HasStaged bench.now place naming.old.names.items naming.old.next
        naming.old.begun naming.old.named journal.old.staged }
    requires unfailed { journal.old.failed ≡ false }
    requires end { end_in bench.now.state.forest naming.old.begun ≡ None }
    ensures staged { OnOk result (HasStaged bench.now (place + 1) naming.new.names.items
        naming.new.next naming.new.begun naming.new.named journal.new.staged) }
    ensures rest { journal.new ≡ record journal.old { staged = journal.new.staged } }
{
    note_forest(bench);
    let Some(next) = naming.next.checked_add(1) else {
        return Err(AllocError);
    };
    let Some(begun) = naming.begun.checked_add(1) else {
        return Err(AllocError);
    };
    stage_text(alloc, &BenchRecord::Begin(p), &mut naming.named, journal)?;
    push_named(&mut naming.names, naming.next, 1)?;
    naming.next = next;
    naming.begun = begun;
    Ok(())
}

/// Stages the Begin of a root that is decided at sight.
fn stage_seen<B: Disk>(
    alloc: Global,
    bench: &Bench,
    place: usize,
    p: Position,
    naming: &mut Naming,
    journal: &mut Journal<B>,
) -> Result<(), AllocError>
    requires at { slice_get bench.now.records place ≡ Some (records.Begin p) }
    requires so_far { HasStaged bench.now place naming.old.names.items naming.old.next
        naming.old.begun naming.old.named journal.old.staged }
    requires unfailed { journal.old.failed ≡ false }
    requires end { (v : Value) × (end_in bench.now.state.forest naming.old.begun ≡ Some v) }
    requires sight { is_at_sight draughts bench.now.state.settings.pieces p ≡ true }
    ensures staged { OnOk result (HasStaged bench.now (place + 1) naming.new.names.items
        naming.new.next naming.new.begun naming.new.named journal.new.staged) }
    ensures rest { journal.new ≡ record journal.old { staged = journal.new.staged } }
{
    note_forest(bench);
    let Some(next) = naming.next.checked_add(1) else {
        return Err(AllocError);
    };
    let Some(begun) = naming.begun.checked_add(1) else {
        return Err(AllocError);
    };
    stage_text(alloc, &BenchRecord::Begin(p), &mut naming.named, journal)?;
    push_unnamed(&mut naming.names, 1)?;
    naming.next = next;
    naming.begun = begun;
    Ok(())
}

/// Stages the Begin of a root that is settled, and behind it a Solve of it.
fn stage_settled<B: Disk, O: Oracle>(
    alloc: Global,
    bench: &Bench,
    place: usize,
    p: Position,
    root: u32,
    oracle: &O,
    naming: &mut Naming,
    journal: &mut Journal<B>,
) -> Result<(), AllocError>
    requires at { slice_get bench.now.records place ≡ Some (records.Begin p) }
    requires so_far { HasStaged bench.now place naming.old.names.items naming.old.next
        naming.old.begun naming.old.named journal.old.staged }
    requires unfailed { journal.old.failed ≡ false }
    requires end { (v : Value) × (end_in bench.now.state.forest naming.old.begun ≡ Some v) }
    requires sight { is_at_sight draughts bench.now.state.settings.pieces p ≡ false }
    requires root { root ≡ naming.old.begun + 1 }
    requires tables { O.piece_limit oracle.now ≡ bench.now.state.settings.pieces }
    ensures staged { OnOk result (HasStaged bench.now (place + 1) naming.new.names.items
        naming.new.next naming.new.begun naming.new.named journal.new.staged) }
    ensures rest { journal.new ≡ record journal.old { staged = journal.new.staged } }
{
    note_forest(bench);
    let Some(next) = naming.next.checked_add(1) else {
        return Err(AllocError);
    };
    let Some(begun) = naming.begun.checked_add(1) else {
        return Err(AllocError);
    };
    let _pieces = oracle.pieces();
    let certificate = bench.certificate(root)?;
    let shown = shown_by(alloc, certificate)?;
    let solve = BenchRecord::Solve {
        node: naming.next,
        position: p,
        shown,
    };
    stage_text(alloc, &BenchRecord::Begin(p), &mut naming.named, journal)?;
    stage_text(alloc, &solve, &mut naming.named, journal)?;
    push_unnamed(&mut naming.names, 1)?;
    naming.next = next;
    naming.begun = begun;
    Ok(())
}

/// Stages what stands for the Begin of a root.
fn stage_begin<B: Disk, O: Oracle>(
    alloc: Global,
    bench: &Bench,
    place: usize,
    p: Position,
    oracle: &O,
    naming: &mut Naming,
    journal: &mut Journal<B>,
) -> Result<(), AllocError>
    requires at { slice_get bench.now.records place ≡ Some (records.Begin p) }
    requires so_far { HasStaged bench.now place naming.old.names.items naming.old.next
        naming.old.begun naming.old.named journal.old.staged }
    requires unfailed { journal.old.failed ≡ false }
    requires tables { O.piece_limit oracle.now ≡ bench.now.state.settings.pieces }
    ensures staged { OnOk result (HasStaged bench.now (place + 1) naming.new.names.items
        naming.new.next naming.new.begun naming.new.named journal.new.staged) }
    ensures rest { journal.new ≡ record journal.old { staged = journal.new.staged } }
{
    note_forest(bench);
    let Some(root) = naming.begun.checked_add(1) else {
        return Err(AllocError);
    };
    match bench.tree().settled(root) {
        None => stage_open(alloc, bench, place, p, naming, journal),
        Some(_) => {
            if is_undecided(&p, oracle) {
                stage_settled(alloc, bench, place, p, root, oracle, naming, journal)
            } else {
                stage_seen(alloc, bench, place, p, naming, journal)
            }
        }
    }
}

/// Stages what stands for the Solve of a node.
fn stage_solve<B: Disk>(
    alloc: Global,
    bench: &Bench,
    place: usize,
    node: u64,
    position: Position,
    shown: CertificateList,
    naming: &mut Naming,
    journal: &mut Journal<B>,
) -> Result<(), AllocError>
    requires at { slice_get bench.now.records place ≡ Some (records.Solve node position shown) }
    requires enough { ShowsEnough bench.now.state.settings.pieces
        (records.Solve node position shown) }
    requires so_far { HasStaged bench.now place naming.old.names.items naming.old.next
        naming.old.begun naming.old.named journal.old.staged }
    requires unfailed { journal.old.failed ≡ false }
    ensures staged { OnOk result (HasStaged bench.now (place + 1) naming.new.names.items
        naming.new.next naming.new.begun naming.new.named journal.new.staged) }
    ensures rest { journal.new ≡ record journal.old { staged = journal.new.staged } }
{
    note_forest(bench);
    match naming.names[node as usize] {
        None => Ok(()),
        Some(name) => {
            let solve = BenchRecord::Solve {
                node: name,
                position,
                shown,
            };
            stage_text(alloc, &solve, &mut naming.named, journal)
        }
    }
}

/// Stages what stands for the Expand of a node.
fn stage_expand<B: Disk>(
    alloc: Global,
    bench: &Bench,
    place: usize,
    node: u64,
    naming: &mut Naming,
    journal: &mut Journal<B>,
) -> Result<(), AllocError>
    requires at { slice_get bench.now.records place ≡ Some (records.Expand node) }
    requires so_far { HasStaged bench.now place naming.old.names.items naming.old.next
        naming.old.begun naming.old.named journal.old.staged }
    requires unfailed { journal.old.failed ≡ false }
    ensures staged { OnOk result (HasStaged bench.now (place + 1) naming.new.names.items
        naming.new.next naming.new.begun naming.new.named journal.new.staged) }
    ensures rest { journal.new ≡ record journal.old { staged = journal.new.staged } }
{
    note_forest(bench);
    let tree = bench.tree();
    let Some(n) = tree.node(node) else {
        unreachable!()
    };
    let count = tree.children(n);
    match naming.names[node as usize] {
        None => push_unnamed(&mut naming.names, count),
        Some(name) => {
            let Some(next) = naming.next.checked_add(count as u64) else {
                return Err(AllocError);
            };
            stage_text(
                alloc,
                &BenchRecord::Expand { node: name },
                &mut naming.named,
                journal,
            )?;
            push_named(&mut naming.names, naming.next, count)?;
            naming.next = next;
            Ok(())
        }
    }
}

/// Stages what stands for the record at a place of a bench.
fn stage_record<B: Disk, O: Oracle>(
    alloc: Global,
    bench: &Bench,
    place: usize,
    item: BenchRecord,
    oracle: &O,
    naming: &mut Naming,
    journal: &mut Journal<B>,
) -> Result<(), AllocError>
    requires at { slice_get bench.now.records place ≡ Some item }
    requires enough { ShowsEnough bench.now.state.settings.pieces item }
    requires so_far { HasStaged bench.now place naming.old.names.items naming.old.next
        naming.old.begun naming.old.named journal.old.staged }
    requires unfailed { journal.old.failed ≡ false }
    requires tables { O.piece_limit oracle.now ≡ bench.now.state.settings.pieces }
    ensures staged { OnOk result (HasStaged bench.now (place + 1) naming.new.names.items
        naming.new.next naming.new.begun naming.new.named journal.new.staged) }
    ensures rest { journal.new ≡ record journal.old { staged = journal.new.staged } }
{
    match item {
        BenchRecord::Begin(p) => stage_begin(alloc, bench, place, p, oracle, naming, journal),
        BenchRecord::Solve {
            node,
            position,
            shown,
        } => stage_solve(alloc, bench, place, node, position, shown, naming, journal),
        BenchRecord::Expand { node } => stage_expand(alloc, bench, place, node, naming, journal),
    }
}

/// Stages a list of records that stands for those that a bench replayed from these payloads.
pub fn stage_compacted<B: Disk, O: Oracle>(
    alloc: Global,
    bench: &Bench,
    payloads: &[Payload],
    oracle: &O,
    journal: &mut Journal<B>,
) -> Result<(), AllocError>
    requires tables { O.piece_limit oracle.now ≡ bench.now.state.settings.pieces }
    requires spelled { SpellsRecords bench.now.state.settings.pieces [] bench.now.records
        (payload_texts payloads.now) }
    requires unfailed { journal.old.failed ≡ false }
    requires empty { journal.old.staged ≡ [] }
    ensures staged { OnOk result (IsCompactStaged bench.now.state.settings.pieces
        bench.now.records journal.new.staged) }
    ensures rest { journal.new ≡ record journal.old { staged = journal.new.staged } }
{
    note_forest(bench);
    let pieces = oracle.pieces();
    let mut known = Named::new(alloc);
    let mut naming = Naming {
        names: Vec::new(alloc),
        next: 0,
        begun: 0,
        named: Named::new(alloc),
    };
    for i in 0..payloads.len() {
        let next = read_next(alloc, &payloads[i].bytes, pieces, &mut known)?;
        stage_record(alloc, bench, i, next, oracle, &mut naming, journal)?;
    }
    Ok(())
}
