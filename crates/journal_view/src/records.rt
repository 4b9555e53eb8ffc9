//! The records of a journal.
ghost use Rattle.std.specs.Prelude.{◌≡◌, true, Err, ℕ, List, IfErr, IfOk};
ghost use Rattle.bench_disk.specs.Disk.{IsHonest};
ghost use Rattle.bench_records.specs.declared.records.BenchRecord.{BenchRecord};
ghost use Rattle.disk_journal.specs.Reads.{OnlyReads};
ghost use Rattle.disk_journal.specs.declared.refusal.JournalRefusal.TheVariants as journal;
ghost use Rattle.journal_looks.specs.Looks.{AnswersEach, BlamesNoFile, ExplainsNoReport, HasNoReport};
ghost use Rattle.tree_manager.specs.Receipts.{ReadsRecords};
ghost use Rattle.journal_view.specs.Shown.{IsTrueList, ShowsRecords};

use bench_disk::Disk;
use journal_looks::{LookRefusal, read_records};
use opening_report::Written;
use record_texts::records_text;
use std::alloc::Global;
use view_words::RecordsRequest;

/// The records of the journal on a disk. Nothing is written to it.
pub(crate) fn records<D: Disk>(
    alloc: Global,
    asked: RecordsRequest,
    disk: &mut D,
) -> Result<Written, LookRefusal>
    ensures shows { IsHonest D.TELLS → IfOk result (λ written.
        ShowsRecords (D.reads disk.old) asked.json written.text.items) }
    ensures values { IfOk result (λ written. IsTrueList asked.json written.text.items) }
    ensures settled { IfOk result (λ written. written.is_settled ≡ true) }
    ensures refused { IsHonest D.TELLS → IfErr result (ExplainsNoReport (D.reads disk.old)) }
    ensures causes { IsHonest D.TELLS → AnswersEach (HasNoReport (D.reads disk.old)) result }
    ensures accepted { IsHonest D.TELLS → (pieces : ℕ) (records : List BenchRecord) →
        ReadsRecords pieces (D.reads disk.old) records → BlamesNoFile result }
    ensures reads { OnlyReads D.Disk disk.old disk.new
        (result ≡ Err (LookRefusal.Journal journal.DiskFault)) }
{
    let read = read_records(alloc, disk)?;
    let pieces = read.table.pieces();
    let text = records_text(alloc, &read.bench, pieces, &read.payloads, asked.json)?;
    Ok(Written::settled(text))
}
