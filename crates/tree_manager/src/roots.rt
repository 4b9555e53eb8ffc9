//! Staging roots: all of them, or none.
ghost use Rattle.std.specs.Prelude.{◌≡◌, ◌≤◌, ◌<◌, ◌+◌, ◌-◌, ◌++◌, ◌∷◌, [], ℕ, List, Contains, filter, length, map, take, drop, false, IfOk, OnOk, OnErr};
ghost use Rattle.std.specs.List.{AllByRecursion as Each};
ghost use Rattle.draughts_board.specs.Board.{Board};
ghost use Rattle.proof_tree.specs.Sound.{root_positions};
ghost use Rattle.lease_table.specs.Rows.{is_live_row};
ghost use Rattle.bench_records.specs.declared.records.BenchRecord.TheVariants.{Begin};
ghost use Rattle.bench_records.specs.Texts.{IsText};
ghost use Rattle.bench_core.specs.Records.{begun, is_work};
ghost use Rattle.bench_core.specs.Cores.{CanApplyAll, MayStage};
ghost use Rattle.tree_manager.specs.Sessions.{AreNewRoots, MayStageRoots, with_roots, with_roots_staged};
ghost use Rattle.tree_manager.specs.Receipts.{SpellsRecords};
ghost use Rattle.proof_tree.specs.declared.tree.TheConstants.{MOST_ROOTS};

use bench_core::Bench;
use bench_disk::Disk;
use disk_journal::Journal;
use distinct_positions::DistinctPositions;
use draughts_board::Position;
use proof_tree::Tree;
use std::alloc::{AllocError, Global};
use strategy_certificate::Oracle;

/// The positions that are no roots of the tree, each once, at their first places.
pub(crate) fn new_roots(
    alloc: Global,
    tree: &Tree,
    positions: &[Position],
) -> Result<DistinctPositions, AllocError>
    ensures all { IfOk result (λ added. root_positions tree.now.forest ++ added
        ≡ with_roots (root_positions tree.now.forest) positions.now) }
    ensures new { IfOk result (λ added. AreNewRoots (root_positions tree.now.forest) added) }
{
    let mut added = DistinctPositions::new(alloc);
    for p in positions {
        if tree.find_root(p).is_none() {
            added.add(*p)?;
        }
    }
    Ok(added)
}

/// Stages a root in the bench and in the journal. After want of memory both are as they were.
pub(crate) fn stage_root<D: Disk, O: Oracle>(
    bench: &mut Bench,
    journal: &mut Journal<D>,
    p: Position,
    oracle: &O,
) -> Result<(), AllocError>
    requires unfailed { journal.old.failed ≡ false }
    requires tables { O.piece_limit oracle.now ≡ bench.old.state.settings.pieces }
    requires absent { ¬ Contains (root_positions bench.old.state.forest
        ++ begun bench.old.staged) p }
    requires room { length (root_positions bench.old.state.forest
        ++ begun bench.old.staged) < MOST_ROOTS }
    requires live { filter (is_live_row bench.old.state.leases.limit bench.old.state.given)
        bench.old.state.leases.rows ≡ bench.old.state.leases.rows }
    ensures bench { OnOk result (bench.new ≡ with_roots_staged bench.old (p ∷ [])) }
    ensures may { OnOk result (MayStage bench.old (Begin p)) }
    ensures grows { OnOk result (CanApplyAll bench.new) }
    ensures journal { OnOk result ((text : List ℕ)
        × IsText bench.old.state.settings.pieces (bench.old.records ++ bench.old.staged) (Begin p) text
        × (journal.new ≡ record journal.old { staged = journal.old.staged ++ text ∷ [] })) }
    ensures bench_stays { OnErr result (bench.new ≡ bench.old) }
    ensures journal_stays { OnErr result (journal.new ≡ journal.old) }
{
    let text = bench.begin(p, oracle)?;
    if let Err(error) = journal.stage(&text) {
        bench.forget_ready();
        return Err(error);
    }
    Ok(())
}

/// Takes back the last `count` records staged, which are roots.
pub(crate) fn forget_roots<D: Disk>(bench: &mut Bench, journal: &mut Journal<D>, count: usize)
    requires some { count ≤ length bench.old.staged }
    requires texts { count ≤ length journal.old.staged }
    requires roots { Each (λ r. is_work r ≡ false)
        (drop (length bench.old.staged - count) bench.old.staged) }
    requires live { filter (is_live_row bench.old.state.leases.limit bench.old.state.given)
        bench.old.state.leases.rows ≡ bench.old.state.leases.rows }
    ensures bench { bench.new ≡ record bench.old {
      staged = take (length bench.old.staged - count) bench.old.staged;
    } }
    ensures journal { journal.new ≡ record journal.old {
      staged = take (length journal.old.staged - count) journal.old.staged;
    } }
{
    for _ in 0..count {
        bench.forget_ready();
        journal.unstage();
    }
}

/// Stages a root at each of these positions, in order: all of them, or after want of memory none.
pub(crate) fn stage_roots<D: Disk, O: Oracle>(
    bench: &mut Bench,
    journal: &mut Journal<D>,
    added: &[Position],
    oracle: &O,
) -> Result<(), AllocError>
    requires unfailed { journal.old.failed ≡ false }
    requires tables { O.piece_limit oracle.now ≡ bench.old.state.settings.pieces }
    requires new { AreNewRoots (root_positions bench.old.state.forest ++ begun bench.old.staged)
        added.now }
    requires room { length (root_positions bench.old.state.forest ++ begun bench.old.staged)
        + length added.now ≤ MOST_ROOTS }
    requires live { filter (is_live_row bench.old.state.leases.limit bench.old.state.given)
        bench.old.state.leases.rows ≡ bench.old.state.leases.rows }
    requires grows { CanApplyAll bench.old }
    ensures bench { OnOk result (bench.new ≡ with_roots_staged bench.old added.now) }
    ensures may { OnOk result (MayStageRoots bench.old added.now) }
    ensures grows { CanApplyAll bench.new }
    ensures journal { OnOk result ((texts : List (List ℕ))
        × SpellsRecords bench.old.state.settings.pieces (bench.old.records ++ bench.old.staged)
        (map Begin added.now) texts
        × (journal.new ≡ record journal.old { staged = journal.old.staged ++ texts })) }
    ensures bench_stays { OnErr result (bench.new ≡ bench.old) }
    ensures journal_stays { OnErr result (journal.new ≡ journal.old) }
{
    for (count, p) in added.iter().enumerate() {
        if let Err(error) = stage_root(bench, journal, *p, oracle) {
            forget_roots(bench, journal, count);
            return Err(error);
        }
    }
    Ok(())
}
