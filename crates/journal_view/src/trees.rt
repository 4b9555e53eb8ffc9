//! The tree of a root of a journal.
ghost use Rattle.std.specs.Prelude.{◌≡◌, true, Err, IfErr, IfOk};
ghost use Rattle.bench_disk.specs.Disk.{IsHonest};
ghost use Rattle.disk_journal.specs.Reads.{OnlyReads};
ghost use Rattle.disk_journal.specs.declared.refusal.JournalRefusal.TheVariants as journal;
ghost use Rattle.journal_looks.specs.Looks.{AnswersEach, BlamesNoFile};
ghost use Rattle.journal_view.specs.Trees.{ExplainsNoTree, HasNoTree, HasRoot, IsTrueTree, RefusesTree, ShowsRootTree, ShowsTreeOf};

use bench_core::Bench;
use bench_disk::Disk;
use journal_looks::{LookRefusal, read_bench};
use opening_report::Written;
use std::alloc::Global;
use tree_texts::shown_text;
use view_words::{MOST_PLIES, TreeRequest};

/// How many nodes of a tree are shown if nothing is said.
pub const DEFAULT_NODES: u32 = 2_000;

/// What is written of the tree of a root of a bench.
fn written_tree(alloc: Global, bench: &Bench, asked: &TreeRequest) -> Result<Written, LookRefusal>
    ensures shows { IfOk result (λ written.
        ShowsRootTree bench.now.state.forest asked.now written.text.items) }
    ensures settled { IfOk result (λ written. written.is_settled ≡ true) }
    ensures refused { IfErr result (RefusesTree bench.now.state.forest asked.now.root) }
{
    let tree = bench.tree();
    let plies = asked.plies.unwrap_or(MOST_PLIES);
    let most = u64::from(asked.nodes.unwrap_or(DEFAULT_NODES));
    let found = shown_text(alloc, tree, asked.root, plies, most, asked.json)?;
    match found {
        Some(text) => Ok(Written::settled(text)),
        None => Err(LookRefusal::NoRoot(asked.root)),
    }
}

/// The tree of a root of the journal on a disk. Nothing is written to it.
pub(crate) fn tree<D: Disk>(
    alloc: Global,
    asked: TreeRequest,
    disk: &mut D,
) -> Result<Written, LookRefusal>
    ensures shows { IsHonest D.TELLS → IfOk result (λ written.
        ShowsTreeOf (D.reads disk.old) asked written.text.items) }
    ensures values { IfOk result (λ written. IsTrueTree asked written.text.items) }
    ensures settled { IfOk result (λ written. written.is_settled ≡ true) }
    ensures refused { IsHonest D.TELLS →
        IfErr result (ExplainsNoTree (D.reads disk.old) asked.root) }
    ensures causes { IsHonest D.TELLS →
        AnswersEach (HasNoTree (D.reads disk.old) asked.root) result }
    ensures accepted { IsHonest D.TELLS → HasRoot (D.reads disk.old) asked.root →
        BlamesNoFile result }
    ensures reads { OnlyReads D.Disk disk.old disk.new
        (result ≡ Err (LookRefusal.Journal journal.DiskFault)) }
{
    let (bench, _table) = read_bench(alloc, disk)?;
    written_tree(alloc, &bench, &asked)
}
