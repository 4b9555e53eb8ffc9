//! New nodes.
ghost use Rattle.std.specs.Prelude.{◌≡◌, ◌≢◌, ℕ, ◌<◌, ◌≤◌, ◌+◌, ◌++◌, ◌∷◌, [], ◌^◌, List, length, vec_len, vec_capacity, Some};
ghost use Rattle.draughts_board.specs.Board.{Board, IsLawful};
ghost use Rattle.proof_tree.specs.Changes.{stands_on};
ghost use Rattle.proof_tree.specs.Rows.{row_at, path, new_row, new_rows, root_row, opened, AreLinked, AreRekept, AreExpanded, AreCounted, Fits};
ghost use Rattle.proof_numbers.specs.Facts.{known};
ghost use Rattle.proof_numbers.specs.Numbers.{leaf_numbers};

use crate::kept::KeptNumbers;
use crate::numbering::mend;
use crate::rows::{Mark, NodeRow, ParentLink};
use draughts_board::{Position, Side};
use proof_numbers::{Child, leaf};

/// The position stands on the way from a row up to its root.
fn stands_above(rows: &[NodeRow], from: usize, p: &Position) -> bool
    requires inside { from < length rows.now }
    requires linked { AreLinked rows.now }
    ensures { result ≡ stands_on (path rows.now (Some from)) p.now }
{
    let mut at = Some(from);
    while let Some(k) = at {
        let row = &rows[k];
        if row.position == *p {
            return true;
        }
        at = row.parent.get();
    }
    false
}

/// What a row of a leaf keeps for the goal.
fn kept_by_leaf(child: &Child, repeats: bool, goal: Side) -> KeptNumbers
    ensures value { result ≡ leaf_numbers goal (known child.now.facts) repeats
        child.now.position.to_move child.now.moves }
    ensures lawful { IsLawful child.now.position }
{
    KeptNumbers::of(leaf(
        child.facts,
        repeats,
        goal,
        child.position.to_move(),
        child.moves,
    ))
}

/// The row of a new node below a parent.
fn new_row(parent: usize, number: usize, child: &Child, repeats: bool) -> NodeRow
    requires few { number < 2 ^ 26 }
    requires parent { parent < 2 ^ 26 }
    ensures { (above : List Board) → repeats ≡ stands_on above child.now.position
        → result ≡ new_row above parent number child.now }
{
    NodeRow {
        position: child.position,
        facts: child.facts,
        mark: if repeats {
            Mark::Repeats
        } else {
            Mark::Unexpanded
        },
        moves: child.moves,
        parent: ParentLink::to(parent),
        first: number as u32 + 1,
        count: 0,
        black: kept_by_leaf(child, repeats, Side::Black),
        white: kept_by_leaf(child, repeats, Side::White),
    }
}

/// Adds the rows of a row's children, for which there is room.
fn push_children(rows: &mut Vec<NodeRow>, parent: usize, children: &[Child])
    requires inside { parent < length rows.old.items }
    requires linked { AreLinked rows.old.items }
    requires few { length rows.old.items + length children.now < 2 ^ 26 }
    requires room { length rows.old.items + length children.now ≤ vec_capacity rows.old }
    ensures items { rows.new.items ≡ rows.old.items
        ++ new_rows (path rows.old.items (Some parent)) parent (length rows.old.items)
        children.now }
    ensures room { vec_capacity rows.old ≤ vec_capacity rows.new }
{
    let first = rows.len();
    for child in children {
        let repeats = stands_above(&rows[..first], parent, &child.position);
        let row = new_row(parent, rows.len(), child, repeats);
        match rows.push(row) {
            Ok(()) => {}
            Err(_) => unreachable!(),
        }
    }
}

/// Makes a row expanded, with `count` children from `first` on, and mends what is kept.
fn open(rows: &mut [NodeRow], at: usize, first: u32, count: u32)
    requires inside { at < length rows.old }
    requires linked { AreLinked (opened rows.old at (row_at rows.old at) first count) }
    requires few { length rows.old < 2 ^ 26 }
    requires counted { AreCounted (opened rows.old at (row_at rows.old at) first count) }
    requires fits { (k : ℕ) → k < length rows.old → k ≢ at
        → Fits (opened rows.old at (row_at rows.old at) first count) k }
    ensures same { AreRekept (opened rows.old at (row_at rows.old at) first count) rows.new }
    ensures fits { (k : ℕ) → k < length rows.new → Fits rows.new k }
{
    let row = &mut rows[at];
    row.mark = Mark::Expanded;
    row.first = first;
    row.count = count;
    mend(rows, at);
}

/// Gives a row its children, for which there is room.
pub(crate) fn expand(rows: &mut Vec<NodeRow>, at: usize, children: &[Child])
    requires inside { at < length rows.old.items }
    requires linked { AreLinked rows.old.items }
    requires leaf { (row_at rows.old.items at).count ≡ 0 }
    requires few { length rows.old.items + length children.now < 2 ^ 26 }
    requires room { length rows.old.items + length children.now ≤ vec_capacity rows.old }
    requires counted { AreCounted rows.old.items }
    requires fits { (k : ℕ) → k < length rows.old.items → Fits rows.old.items k }
    ensures step { AreExpanded rows.old.items rows.new.items at children.now }
    ensures fits { (k : ℕ) → k < length rows.new.items → Fits rows.new.items k }
    ensures room { vec_capacity rows.old ≤ vec_capacity rows.new }
{
    let first = rows.len();
    push_children(rows, at, children);
    open(rows, at, first as u32, children.len() as u32);
}

/// Adds the row of a root, for which there is room.
pub(crate) fn push_root(rows: &mut Vec<NodeRow>, root: &Child)
    requires few { length rows.old.items < 2 ^ 26 }
    requires room { length rows.old.items < vec_capacity rows.old }
    ensures items { rows.new.items
        ≡ rows.old.items ++ root_row (length rows.old.items) root.now ∷ [] }
    ensures room { vec_capacity rows.old ≤ vec_capacity rows.new }
    ensures lawful { IsLawful root.now.position }
{
    let row = NodeRow {
        position: root.position,
        facts: root.facts,
        mark: Mark::Unexpanded,
        moves: root.moves,
        parent: ParentLink::none(),
        first: rows.len() as u32 + 1,
        count: 0,
        black: kept_by_leaf(root, false, Side::Black),
        white: kept_by_leaf(root, false, Side::White),
    };
    match rows.push(row) {
        Ok(()) => {}
        Err(_) => unreachable!(),
    }
}
