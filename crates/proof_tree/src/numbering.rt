//! The numbers of nodes, by those of their children.
ghost use Rattle.std.specs.Prelude.{◌≡◌, ◌≢◌, ℕ, Bool, ◌<◌, ◌≤◌, ◌+◌, ◌-◌, ◌^◌, length, map, Some};
ghost use Rattle.proof_numbers.specs.Facts.{known};
ghost use Rattle.proof_numbers.specs.Known.{joined, IsConsistent};
ghost use Rattle.proof_tree.specs.Changes.{learn};
ghost use Rattle.proof_tree.specs.Forest.{folded, numbers_at};
ghost use Rattle.proof_tree.specs.Picking.{left_to_show};
ghost use Rattle.proof_tree.specs.Rows.{kept_numbers, row_at, own_of, slice_of, AreLinked, AreRekept, HaveSameLinks, Fits, AreCounted, IsCounted};
ghost use Rattle.proof_tree.specs.Sums.{finite_sum};

use crate::kept::{KeptNumber, KeptNumbers};
use crate::rows::{Mark, NodeRow};
use draughts_board::Side;
use proof_numbers::{Facts, leaf};

/// The numbers of an expanded node that its facts do not decide, by those that its children keep.
fn folded(children: &[NodeRow], goal: Side, goal_moves: bool) -> KeptNumbers
    requires { (by_proof : Bool)
        → finite_sum (map (λ r. left_to_show by_proof (kept_numbers goal r)) children.now)
        < 2 ^ 32 - 1 }
    ensures { result ≡ folded goal_moves (map (kept_numbers goal) children.now) }
{
    let mut best = KeptNumber::infinite();
    let mut sum = KeptNumber::zero();
    for child in children {
        best = best.least(child.left_to_show(goal, goal_moves));
        sum = sum.total(child.left_to_show(goal, !goal_moves));
    }
    if goal_moves {
        KeptNumbers {
            proof: best,
            disproof: sum,
        }
    } else {
        KeptNumbers {
            proof: sum,
            disproof: best,
        }
    }
}

/// The numbers of a row's node, by those that its children keep, where each row behind it keeps
/// right ones.
fn numbers_of(rows: &[NodeRow], at: usize, goal: Side) -> KeptNumbers
    requires inside { at < length rows.now }
    requires linked { AreLinked rows.now }
    requires few { length rows.now < 2 ^ 26 }
    requires counted { IsCounted rows.now at }
    requires fits { (k : ℕ) → at < k → k < length rows.now → Fits rows.now k }
    ensures { result ≡ numbers_at goal (own_of at (row_at rows.now at))
        (map (kept_numbers goal) (slice_of (row_at rows.now at) rows.now)) }
{
    let row = &rows[at];
    let repeats = row.mark == Mark::Repeats;
    if row.mark != Mark::Expanded || row.facts.decide(goal) {
        let numbers = leaf(row.facts, repeats, goal, row.position.to_move(), row.moves);
        return KeptNumbers::of(numbers);
    }
    let first = row.first as usize;
    let children = &rows[first..first + row.count as usize];
    folded(children, goal, goal == row.position.to_move())
}

/// Mends the numbers that a row and the rows above it keep, where each other row keeps right ones.
pub(crate) fn mend(rows: &mut [NodeRow], from: usize)
    requires inside { from < length rows.old }
    requires linked { AreLinked rows.old }
    requires few { length rows.old < 2 ^ 26 }
    requires counted { AreCounted rows.old }
    requires fits { (k : ℕ) → k < length rows.old → k ≢ from → Fits rows.old k }
    ensures fits { (k : ℕ) → k < length rows.new → Fits rows.new k }
    ensures same { AreRekept rows.old rows.new }
{
    let mut at = Some(from);
    while let Some(k) = at {
        let black = numbers_of(rows, k, Side::Black);
        let white = numbers_of(rows, k, Side::White);
        let row = &mut rows[k];
        row.black = black;
        row.white = white;
        at = row.parent.get();
    }
}

/// Adds these facts to those of a row, and mends what is kept.
pub(crate) fn learn(rows: &mut [NodeRow], at: usize, facts: &Facts)
    requires inside { at < length rows.old }
    requires linked { AreLinked rows.old }
    requires few { length rows.old < 2 ^ 26 }
    requires counted { AreCounted rows.old }
    requires fits { (k : ℕ) → k < length rows.old → Fits rows.old k }
    requires agree { IsConsistent (joined (known (row_at rows.old at).facts) (known facts.now)) }
    ensures fits { (k : ℕ) → k < length rows.new → Fits rows.new k }
    ensures links { HaveSameLinks rows.old rows.new }
    ensures own { (k : ℕ)
        → own_of k (row_at rows.new k) ≡ learn at (known facts.now) (own_of k (row_at rows.old k)) }
{
    let row = &mut rows[at];
    row.facts = row.facts.joined(facts);
    mend(rows, at);
}
