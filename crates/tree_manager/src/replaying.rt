//! Replaying what a journal has.
ghost use Rattle.std.specs.Prelude.{◌≡◌, ◌≤◌, [], Option, map, IfOk, IfErr};
ghost use Rattle.draughts_board.specs.Board.{Board};
ghost use Rattle.draughts_board.specs.Draughts.{draughts};
ghost use Rattle.strategy_certificate.specs.declared.oracle.Answer.{Answer};
ghost use Rattle.strategy_certificate.specs.Tables.{IsSoundTable, IsTableSize};
ghost use Rattle.tree_manager.specs.declared.marks.Mark.TheVariants.{Put};
ghost use Rattle.tree_manager.specs.Receipts.{SpellsRecords};
ghost use Rattle.tree_manager.specs.Replaying.{IsReplayedCore, RefusesPayloads, payload_texts, refusal_of_payload};

use crate::marks::Mark;
use bench_core::{Bench, ReplayRefusal, Settings};
use disk_journal::{JournalRefusal, Payload};
use ghost_list::CountedTrace;
use std::alloc::Global;
use strategy_certificate::Oracle;

/// The refusal of a payload at this place that is not replayed.
fn refusal_at(at: u64, refusal: ReplayRefusal) -> JournalRefusal
    ensures { result ≡ refusal_of_payload at refusal }
{
    match refusal {
        ReplayRefusal::Unread(_) => JournalRefusal::Damaged(at),
        ReplayRefusal::Unlawful => JournalRefusal::Damaged(at),
        ReplayRefusal::Memory(error) => JournalRefusal::Memory(error),
    }
}

/// A bench that has replayed the records of these payloads.
///
/// `Damaged` comes exactly where a payload is the text of no record that is lawful behind those before it, with the place
/// of that payload's length field.
pub fn replay_payloads<O: Oracle>(
    alloc: Global,
    s: Settings,
    payloads: &[Payload],
    oracle: &O,
) -> Result<Bench, JournalRefusal>
    requires tables { O.piece_limit oracle.now ≡ s.pieces }
    requires pieces { IsTableSize s.pieces }
    requires table { (answer : Board → Option Answer) × IsSoundTable draughts s.pieces answer }
    ensures replayed { IfOk result (IsReplayedCore s) }
    ensures spelled { IfOk result
        (λ bench. SpellsRecords s.pieces [] bench.records (payload_texts payloads.now)) }
    ensures refused { IfErr result (RefusesPayloads s.pieces payloads.now) }
{
    let mut bench = Bench::new(alloc, s)?;
    for payload in payloads {
        if let Err(refusal) = bench.replay(&payload.bytes, oracle) {
            return Err(refusal_at(payload.at, refusal));
        }
    }
    Ok(bench)
}

/// The mark of a Put for each of these payloads.
fn puts_of(payloads: &[Payload]) -> CountedTrace<Mark>
    ensures { result ≡ map (λ _. Put) payloads.now }
{
    let mut marks = CountedTrace::new();
    for _ in payloads {
        marks.push(&Mark::Put);
    }
    marks
}

/// A bench that has replayed the records of these payloads, and a mark for each. It refuses as
/// [`replay_payloads`] does.
pub(crate) fn replay_all<O: Oracle>(
    alloc: Global,
    s: Settings,
    payloads: &[Payload],
    oracle: &O,
) -> Result<(Bench, CountedTrace<Mark>), JournalRefusal>
    requires tables { O.piece_limit oracle.now ≡ s.pieces }
    requires pieces { IsTableSize s.pieces }
    requires table { (answer : Board → Option Answer) × IsSoundTable draughts s.pieces answer }
    ensures replayed { IfOk result (λ r. IsReplayedCore s r.0) }
    ensures spelled { IfOk result
        (λ r. SpellsRecords s.pieces [] r.0.records (payload_texts payloads.now)) }
    ensures marks { IfOk result (λ r. r.1 ≡ map (λ _. Put) r.0.records) }
    ensures refused { IfErr result (RefusesPayloads s.pieces payloads.now) }
{
    let bench = replay_payloads(alloc, s, payloads, oracle)?;
    Ok((bench, puts_of(payloads)))
}
