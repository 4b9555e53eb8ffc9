//! The report on a journal, and a certificate of one of its roots.
ghost use Rattle.std.specs.Prelude.{◌≡◌, ◌-◌, ℕ, List, IfOk, IfErr, OnOk, IfSome, IsSome, slice_get, Err};
ghost use Rattle.bench_disk.specs.Disk.{IsHonest};
ghost use Rattle.disk_journal.specs.Reads.{OnlyReads};
ghost use Rattle.disk_journal.specs.declared.refusal.JournalRefusal.TheVariants as journal;
ghost use Rattle.strategy_certificate.specs.Tables.{IsTableSize};
ghost use Rattle.strategy_certificate.specs.Certificates.{IsGood};
ghost use Rattle.proof_tree.specs.Forest.{nodes, value_of};
ghost use Rattle.certificate_joiner.specs.Certified.{IsJoined, claim_for};
ghost use Rattle.bench_records.specs.declared.records.BenchRecord.{BenchRecord};
ghost use Rattle.bench_core.specs.States.{are_settled};
ghost use Rattle.tree_manager.specs.Receipts.{ReadsRecords};
ghost use Rattle.opening_report.specs.Report.{forest_roots, report_of};
ghost use Rattle.journal_looks.specs.Looks.{AnswersEach, Certifies, ExplainsNoCertificate, ExplainsNoReport, HasNoCertificate, HasNoReport, HasSettledRoot, IsTrueReport, BlamesNoFile, OfRoot, RefusesRoot, Shows};

use crate::reading::read_bench;
use crate::refusals::LookRefusal;
use bench_core::Bench;
use bench_disk::Disk;
use endgame_table::Table;
use opening_report::{Written, is_settled, report_text, root_certificate};
use std::alloc::{AllocError, Global};
use strategy_certificate::Certificate;

/// The report on the roots of a bench, and whether each is settled.
fn looked_of(alloc: Global, bench: &Bench, table: &Table) -> Result<Written, AllocError>
    requires { table.now.pieces ≡ bench.now.state.settings.pieces }
    ensures text { IfOk result (λ written.
        written.text.items ≡ report_of (forest_roots bench.now.state.forest)) }
    ensures settled { IfOk result (λ written.
        written.is_settled ≡ are_settled bench.now.state.forest) }
    ensures values { IfOk result (λ written.
        IsTrueReport written.text.items written.is_settled) }
{
    let text = report_text(alloc, bench, table)?;
    let is_settled = is_settled(bench);
    Ok(Written { text, is_settled })
}

/// The report on the roots of the journal on a disk: a line for each, in order, and a summary. It
/// writes nothing to the disk.
///
/// A refusal is that of the disk, of the journal's bytes, or of memory. A disk that was never
/// written gives the report on no roots.
pub fn report<D: Disk>(alloc: Global, disk: &mut D) -> Result<Written, LookRefusal>
    // What the file shows, or why it is refused.
    ensures shows { IsHonest D.TELLS → IfOk result (λ written.
        Shows (D.reads disk.old) written.text.items written.is_settled) }
    ensures refused { IsHonest D.TELLS → IfErr result (ExplainsNoReport (D.reads disk.old)) }

    // Each refusal comes exactly where the file has its cause, and a file that reads as records has
    // none.
    ensures causes { IsHonest D.TELLS → AnswersEach (HasNoReport (D.reads disk.old)) result }
    ensures accepted { IsHonest D.TELLS → (pieces : ℕ) (records : List BenchRecord) →
        ReadsRecords pieces (D.reads disk.old) records → BlamesNoFile result }

    // The values are true, and it says whether each root has one, whatever the disk tells.
    ensures values { IfOk result (λ written.
        IsTrueReport written.text.items written.is_settled) }

    // What is left of the disk.
    ensures reads { OnlyReads D.Disk disk.old disk.new
        (result ≡ Err (LookRefusal.Journal journal.DiskFault)) }
{
    let (bench, table) = read_bench(alloc, disk)?;
    Ok(looked_of(alloc, &bench, &table)?)
}

/// A checked certificate that claims the value of a root of the bench, counted from 1.
fn certified_root(
    alloc: Global,
    bench: &Bench,
    table: &Table,
    root: u32,
) -> Result<Certificate, LookRefusal>
    requires { table.now.pieces ≡ bench.now.state.settings.pieces }
    ensures joined { IfOk result (λ c.
        IfSome (slice_get (nodes bench.now.state.forest) (root - 1)) (λ x.
        IfSome (value_of x) (λ v.
        IsJoined bench.now.state.settings.pieces x.own.position (claim_for v) c))) }
    ensures settled { OnOk result
        (OfRoot bench.now.state.forest root (λ x. IsSome (value_of x))) }
    ensures good { IfOk result IsGood }
    ensures refused { IfErr result (RefusesRoot bench.now.state.forest root) }
{
    let tree = bench.tree();
    if root == 0 {
        return Err(LookRefusal::NoRoot(root));
    }
    if tree.roots() < root {
        return Err(LookRefusal::NoRoot(root));
    }
    let Some(_value) = tree.settled(root) else {
        return Err(LookRefusal::UnsettledRoot(root));
    };
    Ok(root_certificate(alloc, bench, root, table)?)
}

/// A checked certificate that claims the value of a root of the journal on a disk, counted from 1.
/// It writes nothing to the disk.
///
/// A refusal is that of the disk, of the journal's bytes, or of memory; or else no root has this
/// number, or the root has no value yet.
pub fn certify<D: Disk>(alloc: Global, disk: &mut D, root: u32) -> Result<Certificate, LookRefusal>
    // The root's certificate, or why there is none.
    ensures certifies { IsHonest D.TELLS → IfOk result (Certifies (D.reads disk.old) root) }
    ensures refused { IsHonest D.TELLS →
        IfErr result (ExplainsNoCertificate (D.reads disk.old) root) }

    // Each refusal comes exactly where the file has its cause, and a root with a value has none.
    ensures causes { IsHonest D.TELLS →
        AnswersEach (HasNoCertificate (D.reads disk.old) root) result }
    ensures accepted { IsHonest D.TELLS → HasSettledRoot (D.reads disk.old) root →
        BlamesNoFile result }

    // The certificate is good, so its claim is true, whatever the disk tells.
    ensures good { IfOk result IsGood }
    ensures tables { IfOk result (λ c. IsTableSize c.pieces) }

    // What is left of the disk.
    ensures reads { OnlyReads D.Disk disk.old disk.new
        (result ≡ Err (LookRefusal.Journal journal.DiskFault)) }
{
    let (bench, table) = read_bench(alloc, disk)?;
    certified_root(alloc, &bench, &table, root)
}
