//! The roots of a journal, as lines and as JSON.
ghost use Rattle.std.specs.Prelude.{◌≡◌, ◌-◌, ◌≤◌, ℕ, List, IfOk, IfSome, IfErr, Err, false, length, map, slice_get};
ghost use Rattle.bench_core.specs.States.{are_settled};
ghost use Rattle.bench_disk.specs.Disk.{IsHonest};
ghost use Rattle.bench_records.specs.declared.records.BenchRecord.{BenchRecord};
ghost use Rattle.disk_journal.specs.Reads.{OnlyReads};
ghost use Rattle.disk_journal.specs.declared.refusal.JournalRefusal.TheVariants as journal;
ghost use Rattle.journal_looks.specs.Looks.{AnswersEach, BlamesNoFile, ExplainsNoReport, HasNoReport};
ghost use Rattle.journal_pages.specs.Roots.{row_of};
ghost use Rattle.proof_tree.specs.Forest.{nodes};
ghost use Rattle.tree_census.specs.Censuses.{IsCensus};
ghost use Rattle.tree_manager.specs.Receipts.{ReadsRecords};
ghost use Rattle.journal_view.specs.Shown.{IsTrueView, ShowsRoots, roots_text};

use bench_core::Bench;
use bench_disk::Disk;
use draughts_board::Side;
use endgame_table::Table;
use journal_looks::{LookRefusal, read_bench};
use journal_pages::{RootRow, rows_json, rows_text};
use opened_games::OpenedGames;
use opening_report::{Written, is_settled, report_text, summary_text};
use std::alloc::{AllocError, Global};
use tree_census::{Census, census_of};
use view_words::RootsRequest;

/// What the tree of a bench knows of a root, counted from 1, of whose tree this is the census.
fn row_of(bench: &Bench, number: u32, census: Census) -> RootRow
    requires first { 1 ≤ number }
    requires there { number ≤ length (nodes bench.now.state.forest) }
    requires counted { IfSome (slice_get (nodes bench.now.state.forest) (number - 1))
        (IsCensus census) }
    ensures { IfSome (slice_get (nodes bench.now.state.forest) (number - 1)) (λ x.
        result ≡ row_of x) }
{
    let tree = bench.tree();
    let node = tree.root_node(number);
    let position = tree.position(node);
    let value = tree.settled(number);
    let black = tree.numbers(node, Side::Black);
    let white = tree.numbers(node, Side::White);
    RootRow {
        position,
        value,
        black,
        white,
        census,
    }
}

/// What the tree of a bench knows of each root, in order.
pub(crate) fn rows_of(alloc: Global, bench: &Bench) -> Result<Vec<RootRow>, AllocError>
    ensures { IfOk result (λ rows. rows.items ≡ map row_of (nodes bench.now.state.forest)) }
{
    let mut rows = Vec::new(alloc);
    for place in 0..bench.tree().roots() {
        let census = census_of(alloc, bench.tree(), place + 1)?;
        let row = row_of(bench, place + 1, census);
        rows.push(row)?;
    }
    Ok(rows)
}

/// The lines of the roots of a bench, with the games that lead there, and the last line of its report.
fn lines_text(
    alloc: Global,
    bench: &Bench,
    rows: &[RootRow],
    games: &OpenedGames,
) -> Result<Vec<u8>, AllocError>
    requires { rows.now ≡ map row_of (nodes bench.now.state.forest) }
    ensures { IfOk result (λ text.
        text.items ≡ roots_text games.now false bench.now.state.forest) }
{
    let mut text = rows_text(alloc, rows, games)?;
    text.extend_from_slice(summary_text(bench).as_bytes())?;
    Ok(text)
}

/// The roots of a bench, as JSON or as lines.
fn view_text(
    alloc: Global,
    bench: &Bench,
    games: &OpenedGames,
    json: bool,
) -> Result<Vec<u8>, AllocError>
    ensures { IfOk result (λ text. text.items ≡ roots_text games.now json bench.now.state.forest) }
{
    let rows = rows_of(alloc, bench)?;
    if json {
        rows_json(alloc, &rows, games)
    } else {
        lines_text(alloc, bench, &rows, games)
    }
}

/// What is written of the roots of a bench, and whether each is settled.
fn viewed(
    alloc: Global,
    bench: &Bench,
    table: &Table,
    games: &OpenedGames,
    json: bool,
) -> Result<Written, AllocError>
    requires { table.now.pieces ≡ bench.now.state.settings.pieces }
    ensures text { IfOk result (λ written.
        written.text.items ≡ roots_text games.now json bench.now.state.forest) }
    ensures settled { IfOk result (λ written.
        written.is_settled ≡ are_settled bench.now.state.forest) }
    ensures values { IfOk result (λ written. IsTrueView games.now json written.text.items) }
{
    // It joins and checks a certificate of each value.
    let _report = report_text(alloc, bench, table)?;
    let text = view_text(alloc, bench, games, json)?;
    let is_settled = is_settled(bench);
    Ok(Written { text, is_settled })
}

/// The roots of the journal on a disk, with the games that lead there. Nothing is written to the disk.
pub(crate) fn roots<D: Disk>(
    alloc: Global,
    asked: RootsRequest,
    games: &OpenedGames,
    disk: &mut D,
) -> Result<Written, LookRefusal>
    ensures shows { IsHonest D.TELLS → IfOk result (λ written. ShowsRoots
        games.now (D.reads disk.old) asked.json written.text.items written.is_settled) }
    ensures values { IfOk result (λ written. IsTrueView games.now asked.json written.text.items) }
    ensures refused { IsHonest D.TELLS → IfErr result (ExplainsNoReport (D.reads disk.old)) }
    ensures causes { IsHonest D.TELLS → AnswersEach (HasNoReport (D.reads disk.old)) result }
    ensures accepted { IsHonest D.TELLS → (pieces : ℕ) (records : List BenchRecord) →
        ReadsRecords pieces (D.reads disk.old) records → BlamesNoFile result }
    ensures reads { OnlyReads D.Disk disk.old disk.new
        (result ≡ Err (LookRefusal.Journal journal.DiskFault)) }
{
    let (bench, table) = read_bench(alloc, disk)?;
    Ok(viewed(alloc, &bench, &table, games, asked.json)?)
}
