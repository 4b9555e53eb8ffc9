//! `report`: what the journal holds.
ghost use Rattle.std.specs.Prelude.{◌≡◌, [], Some, IfOk, IfErr};
ghost use Rattle.bench_edges.specs.declared.words.Command.TheVariants as commands;
ghost use Rattle.bench_commands.specs.Bench.{ComesBeforeDisk};
ghost use Rattle.bench_commands.specs.Disks.{LeavesDisk};
ghost use Rattle.bench_commands.specs.Steps.{AcceptsAsked, AnswersBytes, AnswersLook, RefusesBytes, SaysTrue};

use bench_disk::Disk;
use opening_report::{Refusal, Written};
use std::alloc::Global;

/// The report on the roots of the journal, and the disk. Nothing is written to it.
pub(crate) fn report<D: Disk>(alloc: Global, disk: D) -> (D, Result<Written, Refusal>)
    ensures leaves { LeavesDisk D.Disk
        commands.Report (Some []) disk result.0 }
    ensures answers { IfOk result.1 (λ output.
        AnswersBytes D.Disk
        commands.Report [] disk result.0 output.text.items output.is_settled) }
    ensures says { IfOk result.1 (λ output. SaysTrue output.text.items) }
    ensures refused { IfErr result.1
        (RefusesBytes D.Disk
        commands.Report [] disk result.0) }
    ensures asked { AcceptsAsked D.Disk commands.Report disk result.1 }
    ensures looked { AnswersLook D.Disk commands.Report disk result.1 }
    ensures used { IfErr result.1 (λ r. ComesBeforeDisk r → ⊥) }
{
    let mut disk = disk;
    match journal_looks::report(alloc, &mut disk) {
        Ok(written) => (disk, Ok(written)),
        Err(refusal) => (disk, Err(Refusal::from(refusal))),
    }
}
