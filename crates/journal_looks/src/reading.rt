//! The records of a journal, and the bench of what a journal reads as.
ghost use Rattle.std.specs.Prelude.{◌≡◌, [], IfOk, IfErr, Err};
ghost use Rattle.bench_disk.specs.Disk.{IsHonest};
ghost use Rattle.disk_journal.specs.Reads.{OnlyReads};
ghost use Rattle.strategy_certificate.specs.Tables.{IsTableSize};
ghost use Rattle.bench_core.specs.Growing.{IsForestOf};
ghost use Rattle.tree_manager.specs.Receipts.{ReadsRecords, SpellsRecords};
ghost use Rattle.tree_manager.specs.Replaying.{RefusesPayloads, payload_texts};
ghost use Rattle.journal_looks.specs.Looks.{ExplainsUnread, HasForest};

use bench_core::{Bench, Settings};
use bench_disk::Disk;
use disk_journal::{JournalRefusal, Payload, read_journal};
use endgame_table::{Table, fill};
use std::alloc::Global;
use tree_manager::replay_payloads;

/// A bench that has replayed the records of a journal, the payloads that spell them, and the table
/// that they are for.
#[derive(Drop)]
pub struct JournalRecords {
    pub bench: Bench,
    pub payloads: Vec<Payload>,
    pub table: Table,
}

/// A bench that has replayed the records of these payloads, and the table of `pieces` pieces, which
/// they are for.
fn bench_of(
    alloc: Global,
    pieces: u8,
    payloads: &[Payload],
) -> Result<(Bench, Table), JournalRefusal>
    requires { IsTableSize pieces }
    ensures table { IfOk result (λ read. read.1.pieces ≡ pieces) }
    ensures size { IfOk result (λ read. IsTableSize read.1.pieces) }
    ensures same { IfOk result (λ read. read.1.pieces ≡ read.0.state.settings.pieces) }
    ensures forest { IfOk result
        (λ read. IsForestOf pieces read.0.records read.0.state.forest) }
    ensures spelled { IfOk result
        (λ read. SpellsRecords pieces [] read.0.records (payload_texts payloads.now)) }
    ensures refused { IfErr result (RefusesPayloads pieces payloads.now) }
{
    let table = fill(alloc, pieces)?;
    let settings = Settings {
        pieces,
        depth: 0,
        budget: 0,
        lease: 1,
    };
    let bench = replay_payloads(alloc, settings, payloads, &table)?;
    Ok((bench, table))
}

/// The records as which a disk reads. It writes nothing to the disk. A fresh disk gives no record,
/// and the table of 2 pieces.
pub fn read_records<D: Disk>(alloc: Global, disk: &mut D) -> Result<JournalRecords, JournalRefusal>
    ensures same { IfOk result (λ read. read.table.pieces ≡ read.bench.state.settings.pieces) }
    ensures size { IfOk result (λ read. IsTableSize read.table.pieces) }
    ensures spelled { IfOk result (λ read. SpellsRecords read.table.pieces [] read.bench.records
        (payload_texts read.payloads.items)) }
    ensures forest { IfOk result
        (λ read. IsForestOf read.table.pieces read.bench.records read.bench.state.forest) }
    ensures read { IsHonest D.TELLS → IfOk result
        (λ read. ReadsRecords read.table.pieces (D.reads disk.old) read.bench.records) }
    ensures refused { IsHonest D.TELLS → IfErr result (ExplainsUnread (D.reads disk.old)) }
    ensures reads { OnlyReads D.Disk disk.old disk.new (result ≡ Err JournalRefusal.DiskFault) }
{
    let (pieces, payloads) = read_journal(alloc, disk)?;
    let (bench, table) = bench_of(alloc, pieces, &payloads)?;
    Ok(JournalRecords {
        bench,
        payloads,
        table,
    })
}

/// A bench that has replayed the records as which a disk reads, and the table that they are for. It
/// writes nothing to the disk. A fresh disk gives no record, and the table of 2 pieces.
pub fn read_bench<D: Disk>(alloc: Global, disk: &mut D) -> Result<(Bench, Table), JournalRefusal>
    ensures same { IfOk result (λ read. read.1.pieces ≡ read.0.state.settings.pieces) }
    ensures size { IfOk result (λ read. IsTableSize read.1.pieces) }
    ensures forest { IsHonest D.TELLS → IfOk result (λ read.
        HasForest read.1.pieces (D.reads disk.old) read.0.state.forest) }
    ensures refused { IsHonest D.TELLS → IfErr result (ExplainsUnread (D.reads disk.old)) }
    ensures reads { OnlyReads D.Disk disk.old disk.new (result ≡ Err JournalRefusal.DiskFault) }
{
    let read = read_records(alloc, disk)?;
    Ok((read.bench, read.table))
}
