//! `certify`: the certificate of a root of the journal.
ghost use Rattle.std.specs.Prelude.{◌≡◌, [], true, Some, IfOk, IfErr};
ghost use Rattle.bench_edges.specs.declared.words.Command.TheVariants as commands;
ghost use Rattle.opening_report.specs.declared.refusals.Refusal.TheVariants as refusals;
ghost use Rattle.certificate_text.specs.Text.{ReadsAs};
ghost use Rattle.strategy_certificate.specs.Tables.{IsTableSize};
ghost use Rattle.bench_commands.specs.Bench.{ComesBeforeDisk};
ghost use Rattle.bench_commands.specs.Disks.{LeavesDisk};
ghost use Rattle.bench_commands.specs.Steps.{AcceptsAsked, AnswersBytes, AnswersLook, RefusesBytes, SaysTrue};

use bench_disk::Disk;
use certificate_text::print_certificate;
use opening_report::{Refusal, Written};
use std::alloc::Global;
use strategy_certificate::Certificate;

/// The text of a certificate.
fn certificate_text(alloc: Global, c: &Certificate) -> Result<Written, Refusal>
    requires { IsTableSize c.now.pieces }
    ensures text { IfOk result (λ output. ReadsAs output.text.items c.now) }
    ensures settled { IfOk result (λ output. output.is_settled ≡ true) }
    ensures refused { IfErr result (λ r. r ≡ refusals.Memory) }
{
    Ok(Written::settled(print_certificate(alloc, c)?))
}

/// The text of the certificate of a root of the journal, by its number from 1, and the disk.
/// Nothing is written to it.
pub(crate) fn certify<D: Disk>(alloc: Global, root: u32, disk: D) -> (D, Result<Written, Refusal>)
    ensures leaves { LeavesDisk D.Disk
        (commands.Certify root) (Some []) disk result.0 }
    ensures answers { IfOk result.1 (λ output.
        AnswersBytes D.Disk
        (commands.Certify root) [] disk result.0 output.text.items output.is_settled) }
    ensures says { IfOk result.1 (λ output. SaysTrue output.text.items) }
    ensures refused { IfErr result.1
        (RefusesBytes D.Disk
        (commands.Certify root) [] disk result.0) }
    ensures asked { AcceptsAsked D.Disk (commands.Certify root) disk result.1 }
    ensures looked { AnswersLook D.Disk (commands.Certify root) disk result.1 }
    ensures used { IfErr result.1 (λ r. ComesBeforeDisk r → ⊥) }
{
    let mut disk = disk;
    match journal_looks::certify(alloc, &mut disk, root) {
        Ok(certificate) => (disk, certificate_text(alloc, &certificate)),
        Err(refusal) => (disk, Err(Refusal::from(refusal))),
    }
}
