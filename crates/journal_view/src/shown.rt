//! What is shown of a journal, by what is asked.
ghost use Rattle.std.specs.Prelude.{◌≡◌, Err, IfErr, IfOk};
ghost use Rattle.bench_disk.specs.Disk.{IsHonest, Stays};
ghost use Rattle.disk_journal.specs.Reads.{OnlyReads};
ghost use Rattle.disk_journal.specs.declared.refusal.JournalRefusal.TheVariants as journal;
ghost use Rattle.journal_looks.specs.Looks.{AnswersEach, BlamesNoFile};
ghost use Rattle.journal_view.specs.Runs.{Accepts, AnswersCauses, IsLookFault};
ghost use Rattle.journal_view.specs.Shown.{Explains, HasCause, IsGoodFor, Shows};

use crate::lines::line;
use crate::pages::page;
use crate::records::records;
use crate::roots::roots;
use crate::trees::tree;
use bench_disk::Disk;
use journal_looks::LookRefusal;
use opened_games::OpenedGames;
use opening_report::{Refusal, Written};
use std::alloc::Global;
use view_words::Request;

/// What is asked of the journal on a disk, of roots with these games. Nothing is written to it.
fn looked<D: Disk>(
    alloc: Global,
    request: Request,
    games: &OpenedGames,
    disk: &mut D,
) -> Result<Written, LookRefusal>
    ensures shows { IfOk result (λ written.
        Shows D.Disk games.now request disk.old written.text.items written.is_settled) }
    ensures refused { IsHonest D.TELLS → IfErr result (Explains request (D.reads disk.old)) }
    ensures causes { IsHonest D.TELLS → AnswersEach (HasCause request (D.reads disk.old)) result }
    ensures accepted { IsHonest D.TELLS → IsGoodFor request (D.reads disk.old) →
        BlamesNoFile result }
    ensures reads { OnlyReads D.Disk disk.old disk.new
        (result ≡ Err (LookRefusal.Journal journal.DiskFault)) }
{
    match request {
        Request::Roots(asked) => roots(alloc, asked, games, disk),
        Request::Line(asked) => line(alloc, asked, disk),
        Request::Tree(asked) => tree(alloc, asked, disk),
        Request::Page(asked) => page(alloc, asked, disk),
        Request::Records(asked) => records(alloc, asked, disk),
    }
}

/// What is asked of the journal on a disk, of roots with these games, or the refusal of the run. Nothing
/// is written to the disk.
pub(crate) fn shown<D: Disk>(
    alloc: Global,
    request: Request,
    games: &OpenedGames,
    disk: &mut D,
) -> Result<Written, Refusal>
    ensures shows { IfOk result (λ written.
        Shows D.Disk games.now request disk.old written.text.items written.is_settled) }
    ensures refused { IfErr result (IsLookFault D.Disk request disk.old disk.new) }
    ensures causes { AnswersCauses D.Disk request disk.old result }
    ensures accepted { Accepts D.Disk request disk.old result }
    ensures leaves { IsHonest D.TELLS → Stays D.reads D.images disk.old disk.new }
{
    match looked(alloc, request, games, disk) {
        Ok(written) => Ok(written),
        Err(fault) => Err(Refusal::from(fault)),
    }
}
