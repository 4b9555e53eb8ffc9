//! The walk down to the leaf to work on next.
//!
//! It tries the children of a node in rising order of what is left to show, and of place, goes down
//! where a child is expanded, and back where all below it is taken. It keeps nothing but the row
//! where it stands and the child that was tried last.
ghost use Rattle.std.specs.Prelude.{◌≡◌, ℕ, ◌<◌, ◌≤◌, ◌+◌, ◌^◌, true, false, length, Some, None, map, All, is_some, slice_index};
ghost use Rattle.std.specs.Map.{values_of};
ghost use Rattle.draughts_board.specs.Board.{same_side};
ghost use Rattle.proof_tree.specs.Rows.{row_at, kept_numbers, AreLinked, nodes_from, node_in, FitsRow, Fits, settled_front, AreNoted};
ghost use Rattle.proof_tree.specs.Walking.{is_before, key, comes, is_behind, is_candidate, first_child_of, IsFirst};
ghost use Rattle.proof_numbers.specs.Numbers.{is_resolved};
ghost use Rattle.proof_tree.specs.Picking.{leaf_below, pick_at, pick_from};
ghost use Rattle.proof_tree.specs.Forest.{goal_by, value_by, value_of};

use crate::kept::{KeptNumber, KeptNumbers};
use crate::roots::row_of;
use crate::rows::{Mark, NodeId, NodeRow};
use crate::stretches::Stretches;
use draughts_board::{Side, Value};
use position_rows::PositionRows;

/// Less left to show, or the same and an earlier place.
fn is_before(x: KeptNumber, a: usize, y: KeptNumber, b: usize) -> bool
    ensures { result ≡ is_before x a y b }
{
    if x.is_below(y) {
        return true;
    }
    if y.is_below(x) {
        return false;
    }
    a < b
}

/// The one row comes before the other in the order of trying.
fn comes(rows: &[NodeRow], goal: Side, by_proof: bool, a: usize, b: usize) -> bool
    requires one { a < length rows.now }
    requires other { b < length rows.now }
    ensures { result ≡ comes rows.now goal by_proof a b }
{
    let x = rows[a].left_to_show(goal, by_proof);
    let y = rows[b].left_to_show(goal, by_proof);
    is_before(x, a, y, b)
}

/// The row is still to be tried.
fn is_candidate(rows: &[NodeRow], goal: Side, by_proof: bool, last: Option<usize>, k: usize) -> bool
    requires inside { k < length rows.now }
    requires last { (a : ℕ) → last ≡ Some a → a < length rows.now }
    ensures { result ≡ is_candidate rows.now goal by_proof last k }
{
    if rows[k].kept(goal).is_resolved() {
        return false;
    }
    match last {
        None => true,
        Some(a) => comes(rows, goal, by_proof, a, k),
    }
}

/// The child that is tried next, where `last` was tried last.
fn next_child(
    rows: &[NodeRow],
    at: usize,
    goal: Side,
    by_proof: bool,
    last: Option<usize>,
) -> Option<usize>
    requires inside { at < length rows.now }
    requires linked { AreLinked rows.now }
    requires last { (a : ℕ) → last ≡ Some a → a < length rows.now }
    ensures { IsFirst rows.now goal by_proof last (row_at rows.now at).first
        ((row_at rows.now at).first + (row_at rows.now at).count) result }
{
    let first = rows[at].first as usize;
    let end = first + rows[at].count as usize;
    let mut best = None;
    for k in first..end {
        if is_candidate(rows, goal, by_proof, last, k) {
            best = first_of(rows, goal, by_proof, best, k);
        }
    }
    best
}

/// Of the two rows, the one that is tried first.
fn first_of(
    rows: &[NodeRow],
    goal: Side,
    by_proof: bool,
    best: Option<usize>,
    k: usize,
) -> Option<usize>
    requires inside { k < length rows.now }
    requires best { (a : ℕ) → best ≡ Some a → a < length rows.now }
    ensures { result ≡ first_child_of rows.now goal by_proof best k }
{
    match best {
        None => Some(k),
        Some(b) => {
            if comes(rows, goal, by_proof, k, b) {
                Some(k)
            } else {
                Some(b)
            }
        }
    }
}

/// Which leaves are taken.
pub trait Taken {
    ghost use Rattle.std.specs.Prelude.{◌≡◌, ℕ, Bool};

    ghost taken: { Self → ℕ → Bool };

    /// The node is taken.
    fn is_taken(&self, n: NodeId) -> bool
        ensures { result ≡ taken self.now n };
}

/// The goal's side is to move at the row.
fn goal_moves(rows: &[NodeRow], at: usize, goal: Side) -> bool
    requires { at < length rows.now }
    ensures { result ≡ same_side goal (row_at rows.now at).position.to_move }
{
    goal == rows[at].position.to_move()
}

/// The leaf at which the walk from an expanded and unresolved row ends, with its ways back.
fn search<T: Taken>(rows: &[NodeRow], root: usize, goal: Side, taken: &T) -> Option<usize>
    requires inside { root < length rows.now }
    requires linked { AreLinked rows.now }
    requires fits { (k : ℕ) → k < length rows.now → FitsRow rows.now goal k }
    requires top { (row_at rows.now root).parent ≡ None }
    requires open { is_resolved (kept_numbers goal (row_at rows.now root)) ≡ false }
    requires inner { (row_at rows.now root).mark ≡ Mark.Expanded }
    ensures { result ≡ leaf_below goal (T.taken taken.now) (node_in (nodes_from 0 rows.now) root) }
{
    let mut at = root;
    let mut last = None;
    'walk: loop {
        let by_proof = goal_moves(rows, at, goal);
        match next_child(rows, at, goal, by_proof, last) {
            Some(c) => match rows[c].mark {
                Mark::Unexpanded => {
                    if !taken.is_taken(NodeId(c as u64)) {
                        return Some(c);
                    }
                    last = Some(c);
                }
                Mark::Expanded => {
                    at = c;
                    last = None;
                }
                Mark::Repeats => last = Some(c),
            },
            None => {
                if at == root {
                    return None;
                }
                last = Some(at);
                match rows[at].parent.get() {
                    Some(p) => at = p,
                    None => return None,
                }
            }
        }
    }
}

/// The leaf at which the walk from a root ends; none where the root is not open for the goal.
fn leaf_from<T: Taken>(rows: &[NodeRow], root: usize, goal: Side, taken: &T) -> Option<usize>
    requires inside { root < length rows.now }
    requires linked { AreLinked rows.now }
    requires fits { (k : ℕ) → k < length rows.now → FitsRow rows.now goal k }
    requires top { (row_at rows.now root).parent ≡ None }
    ensures { result ≡ leaf_below goal (T.taken taken.now) (node_in (nodes_from 0 rows.now) root) }
{
    let row = &rows[root];
    if row.kept(goal).is_resolved() {
        return None;
    }
    match row.mark {
        Mark::Unexpanded => {
            if taken.is_taken(NodeId(root as u64)) {
                None
            } else {
                Some(root)
            }
        }
        Mark::Expanded => search(rows, root, goal, taken),
        Mark::Repeats => None,
    }
}

/// The side whose win is sought at a root with these numbers for Black.
fn goal_by(black: KeptNumbers) -> Side
    ensures { result ≡ goal_by black }
{
    if black.is_resolved() {
        Side::White
    } else {
        Side::Black
    }
}

/// The value of a root with these numbers for Black and for White.
pub(crate) fn value_by(black: KeptNumbers, white: KeptNumbers) -> Option<Value>
    ensures { result ≡ value_by black white }
{
    if black.proof.is_zero() {
        return Some(Value::BlackWins);
    }
    if white.proof.is_zero() {
        return Some(Value::WhiteWins);
    }
    if black.disproof.is_zero() && white.disproof.is_zero() {
        return Some(Value::Draw);
    }
    None
}

/// What a root gives to work on: nothing where it is settled or not open for its goal.
fn pick_at<T: Taken>(rows: &[NodeRow], root: usize, taken: &T) -> Option<(NodeId, Side)>
    requires inside { root < length rows.now }
    requires linked { AreLinked rows.now }
    requires fits { (k : ℕ) → k < length rows.now → Fits rows.now k }
    requires top { (row_at rows.now root).parent ≡ None }
    ensures { result ≡ pick_at (T.taken taken.now) (node_in (nodes_from 0 rows.now) root) }
{
    let black = rows[root].kept(Side::Black);
    let white = rows[root].kept(Side::White);
    if value_by(black, white).is_some() {
        return None;
    }
    let goal = goal_by(black);
    match leaf_from(rows, root, goal, taken) {
        Some(leaf) => Some((NodeId(leaf as u64), goal)),
        None => None,
    }
}

/// The leaf to work on next, where `front` roots at the front are settled. Stretches of settled roots are passed as noted.
pub(crate) fn pick_from<T: Taken>(
    rows: &[NodeRow],
    roots: &PositionRows<usize>,
    front: usize,
    stretches: &Stretches,
    taken: &T,
) -> Option<(NodeId, Side)>
    requires linked { AreLinked rows.now }
    requires fits { (k : ℕ) → k < length rows.now → Fits rows.now k }
    requires inside { (i : ℕ) → i < length roots.now.entries
        → slice_index (values_of roots.now.entries) i < length rows.now }
    requires tops { (i : ℕ) → i < length roots.now.entries
        → (row_at rows.now (slice_index (values_of roots.now.entries) i)).parent ≡ None }
    requires settled { front
        ≤ settled_front (map (node_in (nodes_from 0 rows.now)) (values_of roots.now.entries)) }
    requires noted { AreNoted (map (node_in (nodes_from 0 rows.now)) (values_of roots.now.entries))
        stretches.now.ends.items stretches.now.starts.items }
    ensures { result ≡ pick_from (T.taken taken.now)
        (map (node_in (nodes_from 0 rows.now)) (values_of roots.now.entries)) }
{
    let mut place = front;
    while place < roots.len() {
        let end = stretches.end_of(place);
        if place < end {
            place = end;
        } else {
            if let Some(found) = pick_at(rows, row_of(roots, place), taken) {
                return Some(found);
            }
            place += 1;
        }
    }
    None
}

/// The root has its value.
pub(crate) fn is_settled(rows: &[NodeRow], root: usize) -> bool
    requires inside { root < length rows.now }
    requires linked { AreLinked rows.now }
    requires fits { (k : ℕ) → k < length rows.now → Fits rows.now k }
    ensures { result ≡ is_some (value_of (node_in (nodes_from 0 rows.now) root)) }
{
    let black = rows[root].kept(Side::Black);
    let white = rows[root].kept(Side::White);
    value_by(black, white).is_some()
}

/// How many roots stand before the first that is unsettled, where at least `front` do.
pub(crate) fn settled_front(rows: &[NodeRow], roots: &PositionRows<usize>, front: usize) -> usize
    requires linked { AreLinked rows.now }
    requires fits { (k : ℕ) → k < length rows.now → Fits rows.now k }
    requires inside { (i : ℕ) → i < length roots.now.entries
        → slice_index (values_of roots.now.entries) i < length rows.now }
    requires settled { front
        ≤ settled_front (map (node_in (nodes_from 0 rows.now)) (values_of roots.now.entries)) }
    ensures { result
        ≡ settled_front (map (node_in (nodes_from 0 rows.now)) (values_of roots.now.entries)) }
{
    for i in front..roots.len() {
        if !is_settled(rows, row_of(roots, i)) {
            return i;
        }
    }
    roots.len()
}
