//! A shorter journal is made of a journal, on a fresh disk.
ghost use Rattle.std.specs.Prelude.{◌≡◌, ◌≤◌, ◌<◌, true, length, IfOk, IfErr, IsErrAnd, MatchResult};
ghost use Rattle.shared_words.specs.Answers.{Unless};
ghost use Rattle.shared_words.specs.Counts.{Rose};
ghost use Rattle.bench_disk.specs.Disk.{IsHonest, NothingPending};
ghost use Rattle.disk_journal.specs.Format.{IsFresh};
ghost use Rattle.disk_journal.specs.Reads.{OnlyLooksAt, OnlyReads};
ghost use Rattle.journal_shortening.specs.Outcomes.{IsShorter, LeavesNoneOrShorter};
ghost use Rattle.journal_shortening.specs.Refusals.{Explains, IsCause, is_of_from, says_nothing};
ghost use Rattle.journal_shortening.specs.declared.refusals.CompactRefusal.{CompactRefusal as Cause};

use crate::fresh::expect_fresh;
use crate::refusals::CompactRefusal;
use crate::sizes::Sizes;
use crate::writing::write_compacted;
use bench_disk::Disk;
use journal_looks::read_records;
use std::alloc::Global;

/// Writes a second journal that stands for the first: it has the same roots in the same order, and
/// of each settled root one record stands for all the work on it.
///
/// `from` is read first, and not written. `into` has to be fresh, of at most 9 bytes; it is written
/// by one `attach` and one `commit`, and handed back. The new journal may be the longer one, where a
/// root's certificate is large and its records were few.
pub fn compact<A: Disk, B: Disk>(
    alloc: Global,
    from: &mut A,
    into: B,
) -> Result<(B, Sizes), (B, CompactRefusal)>
    // The journal that is read stays as it is.
    ensures from { OnlyReads A.Disk from.old from.new
        (IsErrAnd result (λ e. e.1 ≡ CompactRefusal.FromDisk)) }

    // The new one reads as records that stand for those of the old one, and nothing is pending.
    ensures shorter { IsHonest A.TELLS → IsHonest B.TELLS →
        IfOk result (λ done. IsShorter (A.reads from.old) (B.reads done.0) done.1) }
    ensures durable { IsHonest B.TELLS →
        IfOk result (λ done. NothingPending (B.reads done.0) (B.images done.0)) }

    // A crash since the call began leaves of a fresh disk no record, or one list that stands for the
    // old journal.
    ensures images { IsHonest A.TELLS → IsHonest B.TELLS →
        NothingPending (B.reads into) (B.images into) → IsFresh (B.reads into) → MatchResult result
        (λ done. LeavesNoneOrShorter (A.reads from.old) (B.images_since done.0 (B.moment into)))
        (λ e. LeavesNoneOrShorter (A.reads from.old) (B.images_since e.0 (B.moment into))) }

    // A disk that is not fresh is refused and not written, and none is asked for anything before the
    // old journal is read.
    ensures unwritten { IsHonest B.TELLS → 9 < length (B.reads into) →
        IsErrAnd result (λ e. OnlyLooksAt B.Disk into e.0) }
    ensures unasked { IfErr result (λ e. is_of_from e.1 ≡ true → e.0 ≡ into) }

    // Each refusal comes exactly for its cause, unless a disk failed or memory ran out.
    ensures refused { IsHonest A.TELLS → IsHonest B.TELLS →
        IfErr result (λ e. Explains (A.reads from.old) (B.reads into) e.1) }
    ensures causes { IsHonest A.TELLS → IsHonest B.TELLS → (cause : Cause) →
        IsCause (A.reads from.old) (B.reads into) cause →
        Unless (λ e. says_nothing e.1) result (IsErrAnd result (λ e. e.1 ≡ cause)) }

    // The faults of the new journal's disk, for which alone `IntoDisk` is answered.
    ensures faults { MatchResult result (λ done. B.faults into ≤ B.faults done.0)
        (λ e. (B.faults into ≤ B.faults e.0)
        × (e.1 ≡ CompactRefusal.IntoDisk → Rose (B.faults into) (B.faults e.0))) }
{
    let read = match read_records(alloc, from) {
        Ok(read) => read,
        Err(refusal) => return Err((into, CompactRefusal::from(refusal))),
    };
    let mut into = into;
    if let Err(refusal) = expect_fresh(&mut into) {
        return Err((into, refusal));
    }
    write_compacted(alloc, &read, into)
}
