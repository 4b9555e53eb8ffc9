//! A page on the roots of a journal, and perhaps on one of them.
ghost use Rattle.std.specs.Prelude.{◌≡◌, ◌≤◌, ◌-◌, [], Err, IfErr, IfOk, IfSome, length, map, slice_get, unwrap_or};
ghost use Rattle.bench_disk.specs.Disk.{IsHonest};
ghost use Rattle.disk_journal.specs.Reads.{OnlyReads};
ghost use Rattle.disk_journal.specs.declared.refusal.JournalRefusal.TheVariants as journal;
ghost use Rattle.journal_looks.specs.Looks.{AnswersEach, BlamesNoFile};
ghost use Rattle.page_text.specs.Plays.{step_words};
ghost use Rattle.proof_tree.specs.Forest.{nodes, value_of};
ghost use Rattle.strategy_certificate.specs.Certificates.{IsGood};
ghost use Rattle.tree_manager.specs.Receipts.{SpellsRecords};
ghost use Rattle.tree_manager.specs.Replaying.{payload_texts};
ghost use Rattle.journal_view.specs.Pages.{ExplainsNoPage, HasNoPage, HasPage, IsPlayFor, IsTruePage, PlaysBy, RefusesPage, ShowsPage, ShowsPageOf, ShowsRootPage, WritesPage, table_cells};
ghost use Rattle.journal_view.specs.Trees.{RefusesTree};

use crate::lines::{DRAWN_PLIES, proved};
use crate::roots::rows_of;
use crate::trees::DEFAULT_NODES;
use bench_core::Bench;
use bench_disk::Disk;
use certificate_lines::{Lengths, line_of};
use endgame_table::Table;
use journal_looks::{JournalRecords, LookRefusal, read_records};
use opening_report::{Written, is_settled, report_text, root_certificate};
use page_text::{PageStep, RootCells, roots_page};
use root_pages::{page_cells, play_steps, sight_page};
use root_work::work_of_roots;
use std::alloc::{AllocError, Global};
use strategy_certificate::{Certificate, Oracle};
use view_words::{MOST_PLIES, PageRequest};

/// The cells of the table of a journal's roots.
fn cells_of(alloc: Global, read: &JournalRecords) -> Result<Vec<RootCells>, AllocError>
    requires { SpellsRecords read.now.table.pieces [] read.now.bench.records
        (payload_texts read.now.payloads.items) }
    ensures { IfOk result (λ cells.
        cells.items ≡ table_cells read.now.bench.records read.now.bench.state.forest) }
{
    let rows = rows_of(alloc, &read.bench)?;
    let pieces = read.table.pieces();
    let work = work_of_roots(alloc, &read.bench, pieces, &read.payloads)?;
    page_cells(alloc, &rows, &work)
}

/// The steps of the line of play by a certificate, which is good. It fails only for want of memory.
fn steps_by(
    alloc: Global,
    certificate: Certificate,
    table: &Table,
) -> Result<Vec<PageStep>, AllocError>
    requires good { IsGood certificate }
    requires pieces { certificate.pieces ≡ table.now.pieces }
    ensures { IfOk result (λ steps. PlaysBy certificate (map step_words steps.items)) }
{
    let proved = proved(alloc, certificate, table)?;
    let lengths = Lengths {
        drawn: DRAWN_PLIES,
        varied: 0,
    };
    let line = line_of(alloc, &proved, lengths, table)?;
    play_steps(alloc, &line.start, &line.moves)
}

/// The steps of the line of play of a root of a bench, counted from 1; none where it has no value.
fn play_of(
    alloc: Global,
    bench: &Bench,
    root: u32,
    table: &Table,
) -> Result<Vec<PageStep>, AllocError>
    requires pieces { table.now.pieces ≡ bench.now.state.settings.pieces }
    requires first { 1 ≤ root }
    requires there { root ≤ length (nodes bench.now.state.forest) }
    ensures { IfOk result (λ steps. IfSome (slice_get (nodes bench.now.state.forest) (root - 1)) (λ x.
        IsPlayFor table.now.pieces x.own.position (value_of x) (map step_words steps.items))) }
{
    match bench.tree().settled(root) {
        Some(_) => steps_by(alloc, root_certificate(alloc, bench, root, table)?, table),
        None => Ok(Vec::new(alloc)),
    }
}

/// The page with this table, and behind it the play and the tree of a root, counted from 1.
fn root_text(
    alloc: Global,
    read: &JournalRecords,
    cells: &[RootCells],
    root: u32,
    most: u64,
) -> Result<Vec<u8>, LookRefusal>
    requires pieces { read.now.table.pieces ≡ read.now.bench.state.settings.pieces }
    requires cells { cells.now ≡ table_cells read.now.bench.records read.now.bench.state.forest }
    ensures shows { IfOk result (λ text. ShowsRootPage read.now.table.pieces
        read.now.bench.records read.now.bench.state.forest root most text.items) }
    ensures refused { IfErr result (RefusesTree read.now.bench.state.forest root) }
{
    let tree = read.bench.tree();
    if root == 0 || tree.roots() < root {
        return Err(LookRefusal::NoRoot(root));
    }
    let play = play_of(alloc, &read.bench, root, &read.table)?;
    let found = sight_page(alloc, cells, tree, root, play, MOST_PLIES, most)?;
    match found {
        Some(text) => Ok(text),
        None => Err(LookRefusal::NoRoot(root)),
    }
}

/// The page with the table of a journal's roots, and with what is shown of the one that is asked for.
fn page_by(
    alloc: Global,
    read: &JournalRecords,
    asked: &PageRequest,
) -> Result<Vec<u8>, LookRefusal>
    requires pieces { read.now.table.pieces ≡ read.now.bench.state.settings.pieces }
    requires spelled { SpellsRecords read.now.table.pieces [] read.now.bench.records
        (payload_texts read.now.payloads.items) }
    ensures shows { IfOk result (λ text. WritesPage read.now.table.pieces read.now.bench.records
        read.now.bench.state.forest (unwrap_or asked.now.nodes DEFAULT_NODES) asked.now.root
        text.items) }
    ensures refused { IfErr result (RefusesPage read.now.bench.state.forest asked.now.root) }
{
    let cells = cells_of(alloc, read)?;
    let most = u64::from(asked.nodes.unwrap_or(DEFAULT_NODES));
    match asked.root {
        None => Ok(roots_page(alloc, &cells)?),
        Some(root) => root_text(alloc, read, &cells, root, most),
    }
}

/// What is written of a page, and whether each root is settled.
fn written_page(
    alloc: Global,
    read: &JournalRecords,
    asked: &PageRequest,
) -> Result<Written, LookRefusal>
    requires pieces { read.now.table.pieces ≡ read.now.bench.state.settings.pieces }
    requires spelled { SpellsRecords read.now.table.pieces [] read.now.bench.records
        (payload_texts read.now.payloads.items) }
    ensures shows { IfOk result (λ written. ShowsPage read.now.table.pieces
        read.now.bench.records read.now.bench.state.forest asked.now written.text.items
        written.is_settled) }
    ensures refused { IfErr result (RefusesPage read.now.bench.state.forest asked.now.root) }
{
    // It joins and checks a certificate of each value.
    let _report = report_text(alloc, &read.bench, &read.table)?;
    let text = page_by(alloc, read, asked)?;
    let is_settled = is_settled(&read.bench);
    Ok(Written { text, is_settled })
}

/// The page of the journal on a disk. Nothing is written to it.
pub(crate) fn page<D: Disk>(
    alloc: Global,
    asked: PageRequest,
    disk: &mut D,
) -> Result<Written, LookRefusal>
    ensures shows { IsHonest D.TELLS → IfOk result (λ written.
        ShowsPageOf (D.reads disk.old) asked written.text.items written.is_settled) }
    ensures values { IfOk result (λ written.
        IsTruePage asked written.text.items written.is_settled) }
    ensures refused { IsHonest D.TELLS →
        IfErr result (ExplainsNoPage (D.reads disk.old) asked.root) }
    ensures causes { IsHonest D.TELLS →
        AnswersEach (HasNoPage (D.reads disk.old) asked.root) result }
    ensures accepted { IsHonest D.TELLS → HasPage (D.reads disk.old) asked.root →
        BlamesNoFile result }
    ensures reads { OnlyReads D.Disk disk.old disk.new
        (result ≡ Err (LookRefusal.Journal journal.DiskFault)) }
{
    let read = read_records(alloc, disk)?;
    written_page(alloc, &read, &asked)
}
