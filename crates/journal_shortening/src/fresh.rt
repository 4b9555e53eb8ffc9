//! A journal on a fresh disk.
ghost use Rattle.std.specs.Prelude.{◌≡◌, ◌<◌, ◌≤◌, [], IfOk, IfErr, MatchResult, OnOk, Err, length, true, false};
ghost use Rattle.std.specs.Bool.{OnFalse};
ghost use Rattle.shared_words.specs.Counts.{Rose};
ghost use Rattle.bench_disk.specs.Disk.{IsHonest, NothingPending};
ghost use Rattle.bench_disk.specs.Runs.{Leaves};
ghost use Rattle.disk_journal.specs.Format.{HasPayloads, IsFresh, IsPieceCount};
ghost use Rattle.disk_journal.specs.Log.{StaysOrFresh};
ghost use Rattle.disk_journal.specs.Reads.{OnlyReads};
ghost use Rattle.disk_journal.specs.Refusals.{says_nothing_of_file};
ghost use Rattle.journal_shortening.specs.Refusals.{is_of_from, says_nothing};

use crate::refusals::CompactRefusal;
use bench_disk::Disk;
use disk_journal::{Journal, JournalRefusal, MOST_FRESH};
use std::alloc::Global;

/// Refuses a disk that is not fresh. It writes nothing to it.
pub(crate) fn expect_fresh<B: Disk>(into: &mut B) -> Result<(), CompactRefusal>
    ensures fresh { IsHonest B.TELLS → OnOk result (IsFresh (B.reads into.old)) }
    ensures refused { IsHonest B.TELLS → IfErr result (λ e. OnFalse (says_nothing e)
        ((e ≡ CompactRefusal.NotFresh (length (B.reads into.old)))
        × (9 < length (B.reads into.old)))) }
    ensures own { IfErr result (λ e. is_of_from e ≡ false) }
    ensures reads { OnlyReads B.Disk into.old into.new (result ≡ Err CompactRefusal.IntoDisk) }
{
    match into.len() {
        Err(_) => Err(CompactRefusal::IntoDisk),
        Ok(len) => {
            if len > MOST_FRESH {
                return Err(CompactRefusal::NotFresh(len));
            }
            Ok(())
        }
    }
}

/// Why no journal begins on a disk that was fresh when it was measured. One that is not fresh any
/// more has a byte more than a fresh one at least.
fn attach_refusal(refusal: JournalRefusal) -> CompactRefusal
    ensures fault { result ≡ CompactRefusal.IntoDisk → refusal ≡ JournalRefusal.DiskFault }
    ensures nothing { says_nothing result ≡ says_nothing_of_file refusal }
    ensures own { is_of_from result ≡ false }
{
    match refusal {
        JournalRefusal::DiskFault => CompactRefusal::IntoDisk,
        JournalRefusal::Memory(error) => CompactRefusal::Memory(error),
        JournalRefusal::NotAJournal => CompactRefusal::NotFresh(MOST_FRESH + 1),
        JournalRefusal::OtherTable { .. } => CompactRefusal::NotFresh(MOST_FRESH + 1),
        JournalRefusal::Damaged(_) => CompactRefusal::NotFresh(MOST_FRESH + 1),
    }
}

/// Begins a journal on a fresh disk.
pub(crate) fn attach_fresh<B: Disk>(
    alloc: Global,
    into: B,
    pieces: u8,
) -> Result<Journal<B>, (B, CompactRefusal)>
    requires table { IsPieceCount pieces }
    requires fresh { IsHonest B.TELLS → IsFresh (B.reads into) }
    ensures begun { IfOk result (λ j. (j.pieces ≡ pieces) × ((j.staged ≡ [])
        × ((j.count ≡ 0) × (j.failed ≡ false)))) }
    ensures empty { IsHonest B.TELLS → IfOk result (λ j. HasPayloads pieces (B.reads j.disk) []) }
    ensures crash { IsHonest B.TELLS → MatchResult result
        (λ j. Leaves B.moment B.images_since into j.disk
        (StaysOrFresh (B.images into) (B.reads into)))
        (λ e. Leaves B.moment B.images_since into e.0
        (StaysOrFresh (B.images into) (B.reads into))) }
    ensures refused { IsHonest B.TELLS → IfErr result (λ e. says_nothing e.1 ≡ true) }
    ensures own { IfErr result (λ e. is_of_from e.1 ≡ false) }
    ensures faults { MatchResult result (λ j. B.faults into ≤ B.faults j.disk)
        (λ e. (B.faults into ≤ B.faults e.0) ×
        (e.1 ≡ CompactRefusal.IntoDisk → Rose (B.faults into) (B.faults e.0))) }
{
    let (journal, _payloads) = match Journal::attach(alloc, into, pieces) {
        Ok(attached) => attached,
        Err(refused) => return Err((refused.0, attach_refusal(refused.1))),
    };
    let count = journal.count();
    if count > 0 {
        return Err((
            journal.into_disk(),
            CompactRefusal::NotFresh(MOST_FRESH + 1),
        ));
    }
    Ok(journal)
}
