//! The records of a shorter journal, written on a fresh disk.
ghost use Rattle.std.specs.Prelude.{◌≡◌, ◌≤◌, [], IfOk, IfErr, MatchResult, false, true};
ghost use Rattle.shared_words.specs.Counts.{Rose};
ghost use Rattle.bench_disk.specs.Disk.{IsHonest, NothingPending};
ghost use Rattle.bench_disk.specs.Runs.{Leaves};
ghost use Rattle.disk_journal.specs.Format.{HasPayloads, IsFresh, StandsForEither};
ghost use Rattle.strategy_certificate.specs.Tables.{IsTableSize};
ghost use Rattle.tree_manager.specs.Receipts.{SpellsRecords};
ghost use Rattle.tree_manager.specs.Replaying.{payload_texts};
ghost use Rattle.compaction_staging.specs.Progress.{IsCompactStaged};
ghost use Rattle.journal_shortening.specs.Refusals.{is_of_from, says_nothing};
ghost use Rattle.journal_shortening.specs.Written.{IsWritten, WritesNoneOrOne};

use crate::fresh::attach_fresh;
use crate::refusals::CompactRefusal;
use crate::sizes::Sizes;
use bench_disk::Disk;
use compaction_staging::stage_compacted;
use disk_journal::Journal;
use journal_looks::JournalRecords;
use std::alloc::Global;

/// Commits what is staged, and tells the numbers of roots and of records.
fn commit_compacted<B: Disk>(
    read: &JournalRecords,
    journal: Journal<B>,
) -> Result<(B, Sizes), (B, CompactRefusal)>
    requires spelled { SpellsRecords read.now.bench.state.settings.pieces []
        read.now.bench.records (payload_texts read.now.payloads.items) }
    requires pieces { journal.pieces ≡ read.now.bench.state.settings.pieces }
    requires staged { IsCompactStaged read.now.bench.state.settings.pieces read.now.bench.records
        journal.staged }
    requires count { journal.count ≡ 0 }
    requires unfailed { journal.failed ≡ false }
    requires empty { IsHonest B.TELLS → HasPayloads journal.pieces (B.reads journal.disk) [] }
    ensures written { IsHonest B.TELLS → IfOk result (λ done.
        IsWritten read.now.bench.state.settings.pieces read.now.bench.records
        read.now.bench.state.forest (B.reads done.0) done.1) }
    ensures durable { IsHonest B.TELLS →
        IfOk result (λ done. NothingPending (B.reads done.0) (B.images done.0)) }
    ensures crash { IsHonest B.TELLS → MatchResult result
        (λ done. Leaves B.moment B.images_since journal.disk done.0
        (StandsForEither journal.pieces [] journal.staged))
        (λ e. Leaves B.moment B.images_since journal.disk e.0
        (StandsForEither journal.pieces [] journal.staged)) }
    ensures refused { IfErr result (λ e. e.1 ≡ CompactRefusal.IntoDisk) }
    ensures faults { MatchResult result (λ done. B.faults journal.disk ≤ B.faults done.0)
        (λ e. (B.faults journal.disk ≤ B.faults e.0)
        × Rose (B.faults journal.disk) (B.faults e.0)) }
{
    let mut journal = journal;
    match journal.commit() {
        Ok(receipt) => Ok((
            journal.into_disk(),
            Sizes {
                roots: read.bench.tree().roots(),
                before: read.payloads.len() as u64,
                after: receipt.number,
            },
        )),
        Err(_) => Err((journal.into_disk(), CompactRefusal::IntoDisk)),
    }
}

/// Writes a journal on a fresh disk whose records stand for these.
pub(crate) fn write_compacted<B: Disk>(
    alloc: Global,
    read: &JournalRecords,
    into: B,
) -> Result<(B, Sizes), (B, CompactRefusal)>
    requires tables { read.now.table.pieces ≡ read.now.bench.state.settings.pieces }
    requires size { IsTableSize read.now.table.pieces }
    requires spelled { SpellsRecords read.now.bench.state.settings.pieces []
        read.now.bench.records (payload_texts read.now.payloads.items) }
    requires fresh { IsHonest B.TELLS → IsFresh (B.reads into) }
    ensures written { IsHonest B.TELLS → IfOk result (λ done.
        IsWritten read.now.bench.state.settings.pieces read.now.bench.records
        read.now.bench.state.forest (B.reads done.0) done.1) }
    ensures durable { IsHonest B.TELLS →
        IfOk result (λ done. NothingPending (B.reads done.0) (B.images done.0)) }
    ensures images { IsHonest B.TELLS → NothingPending (B.reads into) (B.images into) →
        MatchResult result
        (λ done. WritesNoneOrOne B.Disk read.now.bench.state.settings.pieces
        read.now.bench.records into done.0)
        (λ e. WritesNoneOrOne B.Disk read.now.bench.state.settings.pieces
        read.now.bench.records into e.0) }
    ensures refused { IsHonest B.TELLS → IfErr result (λ e. says_nothing e.1 ≡ true) }
    ensures own { IfErr result (λ e. is_of_from e.1 ≡ false) }
    ensures faults { MatchResult result (λ done. B.faults into ≤ B.faults done.0)
        (λ e. (B.faults into ≤ B.faults e.0)
        × (e.1 ≡ CompactRefusal.IntoDisk → Rose (B.faults into) (B.faults e.0))) }
{
    let mut journal = match attach_fresh(alloc, into, read.table.pieces()) {
        Ok(journal) => journal,
        Err(refused) => return Err(refused),
    };
    if let Err(error) = stage_compacted(
        alloc,
        &read.bench,
        &read.payloads,
        &read.table,
        &mut journal,
    ) {
        return Err((journal.into_disk(), CompactRefusal::Memory(error)));
    }
    commit_compacted(read, journal)
}
