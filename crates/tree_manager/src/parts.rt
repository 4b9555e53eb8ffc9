//! What runs on the fields of a session, within one call of it: there a root may be staged.
ghost use Rattle.std.specs.Prelude.{◌≡◌, ◌≢◌, ◌+◌, ◌≤◌, [], length, false, IfOk, IfErr, OnOk};
ghost use Rattle.std.specs.List.{AllByRecursion as Each};
ghost use Rattle.bench_disk.specs.Disk.{GoesOn, IsHonest};
ghost use Rattle.tree_manager.specs.declared.entries.Entry.TheVariants as entry;
ghost use Rattle.tree_manager.specs.Keeping.{HoldsWithinCall, parts_of, state_of};
ghost use Rattle.tree_manager.specs.Lines.{recorded};
ghost use Rattle.tree_manager.specs.Receipts.{acknowledgements};
ghost use Rattle.tree_manager.specs.Sessions.{Appends, RefusesCommit};

use crate::marks::Mark;
use crate::refusals::CommitRefusal;
use bench_core::Bench;
use bench_disk::Disk;
use disk_journal::{Journal, Receipt};
use ghost_list::CountedTrace;

/// Makes all that is staged durable, and applies it. It takes no memory.
///
/// The receipt has the number of the line's records and the disk's moment, both at the exit of this call. After a
/// fault of the disk the journal has failed: the forest stays, and the line ends there.
pub(crate) fn commit_parts<D: Disk>(
    bench: &mut Bench,
    journal: &mut Journal<D>,
    marks: &mut CountedTrace<Mark>,
    due: &mut usize,
) -> Result<Receipt, CommitRefusal>
    requires unfailed { journal.old.failed ≡ false }
    requires within { HoldsWithinCall D.Disk (parts_of marks.old due.old bench.old journal.old) }
    ensures within { HoldsWithinCall D.Disk (parts_of marks.new due.new bench.new journal.new) }
    ensures works { OnOk result (journal.new.failed ≡ false) }
    ensures idle { bench.old.staged ≡ [] → OnOk result
        (state_of (parts_of marks.new due.new bench.new journal.new)
        ≡ state_of (parts_of marks.old due.old bench.old journal.old)) }
    ensures appends { bench.old.staged ≢ [] → IfOk result (λ receipt.
        Appends (state_of (parts_of marks.old due.old bench.old journal.old))
        (entry.Acked receipt.moment) (state_of (parts_of marks.new due.new bench.new journal.new))) }
    ensures none_staged { OnOk result (bench.new.staged ≡ []) }
    ensures number { IfOk result (λ receipt. receipt.number
        ≡ length (recorded (state_of (parts_of marks.new due.new bench.new journal.new)).line)) }
    ensures moment { IfOk result (λ receipt. receipt.moment ≡ D.moment journal.new.disk) }
    ensures later { D.faults journal.old.disk ≤ D.faults journal.new.disk }
    ensures onward { IsHonest D.TELLS → D.moment journal.old.disk ≤ D.moment journal.new.disk }
    ensures calls { D.moment journal.new.disk ≤ D.moment journal.old.disk + 4 }
    ensures since { IsHonest D.TELLS → GoesOn (D.moment journal.old.disk)
        (D.images_since journal.old.disk) (D.images_since journal.new.disk) }
    ensures moments { IsHonest D.TELLS → IfOk result (λ receipt.
        Each (λ ack. ack.moment ≤ receipt.moment)
        (acknowledgements (state_of (parts_of marks.new due.new bench.new journal.new)).line)) }
    ensures refused { IfErr result (RefusesCommit D.faults
        (state_of (parts_of marks.old due.old bench.old journal.old))
        (state_of (parts_of marks.new due.new bench.new journal.new))) }
{
    let waiting = journal.staged();
    match journal.commit() {
        Ok(receipt) => {
            if waiting > 0 {
                bench.apply_staged();
                marks.push(&Mark::Acked(receipt.moment));
                *due -= waiting;
            }
            Ok(receipt)
        }
        Err(_) => {
            let faults = journal.disk().faults();
            marks.push(&Mark::Broken(faults));
            Err(CommitRefusal::Disk)
        }
    }
}
