//! `learn`: a journal takes a certificate.
ghost use Rattle.std.specs.Prelude.{◌≡◌, true, Some, IfOk, IfErr, OnOk};
ghost use Rattle.bench_disk.specs.Disk.{IsHonest, NothingPending};
ghost use Rattle.bench_edges.specs.declared.words.Command.TheVariants as commands;
ghost use Rattle.journal_lessons.specs.Learnt.{KeepsWhole};
ghost use Rattle.opening_report.specs.Findings.{learnt_text};
ghost use Rattle.opening_report.specs.Lines.{IsLine};
ghost use Rattle.opening_report.specs.declared.refusals.Refusal.TheVariants as refusals;
ghost use Rattle.bench_commands.specs.Bench.{ComesBeforeDisk};
ghost use Rattle.bench_commands.specs.Disks.{HasLearnt, LeavesDisk};
ghost use Rattle.bench_commands.specs.Steps.{AcceptsBytes, AnswersBytes, AnswersCertificate, AnswersLesson, RefusesBytes, RefusesCertificate, SaysTrue};
ghost use Rattle.strategy_certificate.specs.Certificates.{IsGood, IsTrueOf};

use crate::commands::verify::checked;
use bench_disk::Disk;
use certificate_checker::Proved;
use draughts_board::Position;
use endgame_table::Table;
use opening_report::{Refusal, Written};
use std::alloc::Global;
use strategy_certificate::Claim;

/// The line that a journal has learnt this claim on its root of this number.
fn learnt_line(
    alloc: Global,
    root: u32,
    position: &Position,
    claim: Claim,
) -> Result<Written, Refusal>
    ensures text { IfOk result (λ output.
        output.text.items ≡ learnt_text root position.now claim) }
    ensures settled { IfOk result (λ output. output.is_settled ≡ true) }
    ensures line { OnOk result (IsLine (learnt_text root position.now claim)) }
    ensures refused { IfErr result (λ r. r ≡ refusals.Memory) }
{
    let text = opening_report::learnt_text(alloc, root, position, claim)?;
    Ok(Written::settled(text))
}

/// The line on what the journal on a disk has learnt of a certificate, and the disk. The journal is
/// for the table that the certificate names.
fn learn_checked<D: Disk>(
    alloc: Global,
    proved: Proved,
    table: &Table,
    disk: D,
) -> (D, Result<Written, Refusal>)
    requires { table.now.pieces ≡ proved.pieces }
    ensures good { IsGood proved }
    ensures right { IsTrueOf proved.claim proved.position }
    ensures does { IfOk result.1 (λ output.
        HasLearnt D.Disk proved disk result.0 output.text.items) }
    ensures settled { IfOk result.1 (λ output. output.is_settled ≡ true) }
    ensures says { IfOk result.1 (λ output. SaysTrue output.text.items) }
    ensures refused { IfErr result.1 (RefusesCertificate D.Disk proved disk result.0) }
    ensures causes { AnswersCertificate D.Disk proved disk result.1 }
    ensures leaves { IsHonest D.TELLS → NothingPending (D.reads disk) (D.images disk) →
        KeepsWhole D.Disk proved disk result.0 }
{
    let c = proved.certificate();
    let (position, claim) = (c.position, c.claim);
    let (disk, learnt) = journal_lessons::learn(alloc, disk, proved, table);
    match learnt {
        Ok(root) => (disk, learnt_line(alloc, root, &position, claim)),
        Err(refusal) => (disk, Err(Refusal::from(refusal))),
    }
}

/// The line on what the journal on a disk has learnt of the certificate of this text, and the disk.
/// The certificate is read and checked as `verify` does it.
pub(crate) fn learn<D: Disk>(alloc: Global, text: &[u8], disk: D) -> (D, Result<Written, Refusal>)
    ensures leaves { LeavesDisk D.Disk commands.Learn (Some text.now) disk result.0 }
    ensures answers { IfOk result.1 (λ output. AnswersBytes D.Disk
        commands.Learn text.now disk result.0 output.text.items output.is_settled) }
    ensures says { IfOk result.1 (λ output. SaysTrue output.text.items) }
    ensures refused { IfErr result.1 (RefusesBytes D.Disk commands.Learn text.now disk result.0) }
    ensures accepted { IfErr result.1 (AcceptsBytes D.Disk commands.Learn text.now disk) }
    ensures taught { AnswersLesson D.Disk commands.Learn text.now disk result.1 }
    ensures unused { IfErr result.1 (λ r. ComesBeforeDisk r → result.0 ≡ disk) }
{
    match checked(alloc, text) {
        Ok((proved, table)) => learn_checked(alloc, proved, &table, disk),
        Err(refusal) => (disk, Err(refusal)),
    }
}
