//! Which of two journals counts.
ghost use Rattle.std.specs.Prelude.{◌≡◌, ◌≢◌, Err, IfErr, IfOk};
ghost use Rattle.shared_words.specs.Answers.{Unless};
ghost use Rattle.bench_disk.specs.Disk.{IsHonest};
ghost use Rattle.disk_journal.specs.Reads.{OnlyReads};
ghost use Rattle.journal_shortening.specs.Choices.{IsChosenBy};
ghost use Rattle.journal_shortening.specs.Refusals.{ExplainsNoChoice, HasNoChoice, of_into, says_nothing};
ghost use Rattle.journal_shortening.specs.declared.refusals.CompactRefusal.{CompactRefusal as Cause};

use crate::refusals::CompactRefusal;
use bench_disk::Disk;
use disk_journal::{JournalRefusal, read_journal};
use std::alloc::Global;

/// The journal that counts.
#[derive(Clone, Copy, Debug, PartialEq, Eq)]
pub enum Chosen {
    Old,
    New,
}

/// Why the new journal is not read.
fn into_refusal(refusal: JournalRefusal) -> CompactRefusal
    ensures { result ≡ of_into refusal }
{
    match refusal {
        JournalRefusal::DiskFault => CompactRefusal::IntoDisk,
        JournalRefusal::NotAJournal => CompactRefusal::NotAJournal,
        JournalRefusal::OtherTable { .. } => CompactRefusal::NotAJournal,
        JournalRefusal::Damaged(at) => CompactRefusal::Damaged(at),
        JournalRefusal::Memory(error) => CompactRefusal::Memory(error),
    }
}

/// Which journal counts: the new one exactly where it has a payload, since its payloads come by one
/// commit and so are all there. No payload is decoded, and nothing is written. The old journal is
/// not asked for anything.
pub fn choose<A: Disk, B: Disk>(
    alloc: Global,
    from: &mut A,
    into: &mut B,
) -> Result<Chosen, CompactRefusal>
    ensures chosen { IsHonest B.TELLS → IfOk result (IsChosenBy (B.reads into.old)) }

    // Each refusal comes exactly where the new journal is not read for that, unless its disk failed
    // or memory ran out.
    ensures refused { IsHonest B.TELLS →
        IfErr result (ExplainsNoChoice (B.reads into.old)) }
    ensures causes { IsHonest B.TELLS → (cause : Cause) → HasNoChoice (B.reads into.old) cause →
        Unless says_nothing result (result ≡ Err cause) }

    // The old journal is asked for nothing, so its disk is never what failed.
    ensures answers { IfErr result (λ e. e ≢ CompactRefusal.FromDisk) }

    // Both journals stay as they are.
    ensures from { from.new ≡ from.old }
    ensures into { OnlyReads B.Disk into.old into.new (result ≡ Err CompactRefusal.IntoDisk) }
{
    let read = match read_journal(alloc, into) {
        Ok(read) => read,
        Err(refusal) => return Err(into_refusal(refusal)),
    };
    if read.1.is_empty() {
        return Ok(Chosen::Old);
    }
    Ok(Chosen::New)
}
