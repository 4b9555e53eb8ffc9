//! The proof tree.
ghost use Rattle.std.specs.Prelude.{◌≡◌, ◌≤◌, ◌<◌, ℕ, length};
ghost use Rattle.std.specs.Map.{values_of};
ghost use Rattle.proof_tree.specs.declared.tree.TheConstants.{MOST_ROOTS};
ghost use Rattle.proof_tree.specs.Forest.{nodes};
ghost use Rattle.proof_tree.specs.Rows.{roots_from, forest_of, settled_front, note_room, AreLinked, AreNoted, Fits};

use crate::growing::{expand, push_root};
use crate::numbering::learn;
use crate::picking::{Taken, is_settled, pick_from, settled_front, value_by};
use crate::roots::{add, row_of, top};
use crate::rows::{Mark, NodeId, NodeRow};
use crate::stretches::Stretches;
use draughts_board::{Position, Side, Value};
use position_rows::PositionRows;
use proof_numbers::{Child, Facts, Numbers};
use std::alloc::{AllocError, Global};
use std::marker::Model;

/// There are no more roots than this.
pub const MOST_ROOTS: usize = 65_536;

/// Nodes and spare together stay below this, which leaves room for 1,000,000 expansions of 64 children each. A proof number
/// counts at most 64 for each node, so a row keeps it in four bytes.
const MOST_NODES: usize = 1 << 26;

/// A forest of positions with proof and disproof numbers, grown from its roots.
///
/// A contract sees the forest as a recursive value, and for how many more nodes there is room. The
/// numbers of every node are kept for both goals, and mended along one path where something
/// changes.
#[derive(Drop)]
pub struct Tree {
    /// One for each node, in the order in which they were made.
    rows: Vec<NodeRow>,
    /// The rows of the roots by their positions, in order.
    roots: PositionRows<usize>,
    /// How many more nodes room was made for.
    spare: usize,
    /// How many roots stand before the first that is unsettled.
    front: usize,
    /// Stretches of settled roots, as far as they are noted.
    stretches: Stretches,
}

impl Model for Tree {
    ghost use Rattle.std.specs.Prelude.{vec_capacity};
    ghost use Rattle.std.specs.Map.{values_of};
    ghost use Rattle.proof_tree.specs.Code.{state_code};
    ghost use Rattle.proof_tree.specs.Rows.{forest_of, note_room, IsTreeFrom};
    ghost use Rattle.proof_tree.specs.Sound.{TreeState};

    ghost Value = { TreeState };

    ghost coded = { state_code };

    ghost view = { λ t.
        record { forest = forest_of t.rows.items (values_of t.roots.entries); spare = t.spare } };

    ghost invariant = { λ t.
        IsTreeFrom t.rows.items t.roots.entries (vec_capacity t.rows) t.roots.spare t.spare
        t.front t.stretches.ends.items t.stretches.starts.items (note_room t.stretches) };
}

impl Tree {
    ghost use Rattle.proof_tree.specs.declared.tree.TheConstants.{MOST_ROOTS};
    ghost use Rattle.std.specs.Prelude.{◌≡◌, ◌-◌, ◌+◌, ◌<◌, ◌≤◌, ◌↔◌, ◌==◌, ℕ, length, map, is_some, Contains, slice_get, OnOk, OnErr, IfSome, IsNone, IsSome, IsSomeAnd};
    ghost use Rattle.std.specs.List.{list_all};
    ghost use Rattle.draughts_board.specs.Play.{successors_of};
    ghost use Rattle.proof_numbers.specs.Facts.{known};
    ghost use Rattle.proof_numbers.specs.Known.{joined, IsConsistent};
    ghost use Rattle.proof_tree.specs.Changes.{with_facts, with_children, with_root};
    ghost use Rattle.proof_tree.specs.Forest.{no_node, node_at, node_numbers, nodes, size, value_of};
    ghost use Rattle.proof_tree.specs.Picking.{pick, IsOpenLeaf};
    ghost use Rattle.proof_tree.specs.Rows.{IsRowOf};
    ghost use Rattle.proof_tree.specs.Sound.{root_positions, IsTreeState};

    /// A tree without nodes, which has room for none.
    pub fn new(alloc: Global) -> Tree
        ensures { result ≡ record { forest = no_node; spare = 0 } }
    {
        Tree {
            rows: Vec::new(alloc),
            roots: PositionRows::new(alloc),
            spare: 0,
            front: 0,
            stretches: Stretches::new(alloc),
        }
    }

    /// Makes room for `nodes` more nodes, so that adding them takes no memory. After want of memory,
    /// which a tree of 2^26 nodes meets too, it is as it was.
    pub fn reserve(&mut self, nodes: usize) -> Result<(), AllocError>
        ensures ok { OnOk result (self.new.forest ≡ self.old.forest) }
        ensures room { OnOk result (nodes ≤ self.new.spare) }
        ensures kept { self.old.spare ≤ self.new.spare }
        ensures err { OnErr result (self.new ≡ self.old) }
    {
        if nodes <= self.spare {
            return Ok(());
        }
        if nodes >= MOST_NODES - self.rows.len() {
            return Err(AllocError);
        }
        let roots = nodes.min(MOST_ROOTS - self.roots.len());
        self.roots.reserve(roots)?;
        self.stretches.reserve(roots)?;
        if nodes > self.rows.capacity() - self.rows.len() {
            self.rows.reserve_exact(nodes.max(self.rows.len() / 8))?;
        }
        self.spare = nodes;
        Ok(())
    }

    /// Adds a root, which gets the next number, and gives its place among the roots, counted from
    /// 1. It takes no memory.
    pub fn add_root(&mut self, root: Child) -> u32
        requires absent { ¬ Contains (root_positions self.old.forest) root.position }
        requires few { length (nodes self.old.forest) < MOST_ROOTS }
        requires room { 1 ≤ self.old.spare }
        ensures tree { self.new ≡ record {
          forest = with_root root.position (known root.facts) self.old.forest;
          spare = self.old.spare - 1;
        } }
        ensures place { result ≡ length (nodes self.new.forest) }
    {
        let number = self.rows.len();
        push_root(&mut self.rows, &root);
        add(&mut self.roots, &root.position, number);
        self.spare -= 1;
        self.stretches.add_root();
        self.front = follow(
            &self.rows,
            &self.roots,
            &mut self.stretches,
            self.front,
            number,
        );
        self.roots.len() as u32
    }

    /// Gives a node its children, one for each successor of its position in order, which get the
    /// next numbers. It takes no memory.
    pub fn expand(&mut self, n: NodeId, children: &[Child])
        requires there { IsSomeAnd (node_at n self.old.forest) (λ x. x.own.mark ≡ Mark.Unexpanded) }
        requires successors { IfSome (node_at n self.old.forest) (λ x.
            map (λ child. child.position) children.now ≡ successors_of x.own.position) }
        requires room { length children.now ≤ self.old.spare }
        ensures { self.new ≡ record {
          forest = with_children n children.now self.old.forest;
          spare = self.old.spare - length children.now;
        } }
    {
        let row = n.number() as usize;
        expand(&mut self.rows, row, children);
        self.spare -= children.len();
        self.front = follow(
            &self.rows,
            &self.roots,
            &mut self.stretches,
            self.front,
            row,
        );
    }

    /// Adds these facts to those of a node. The caller knows that the two do not contradict each
    /// other.
    pub fn bound(&mut self, n: NodeId, facts: &Facts)
        requires there { IsSomeAnd (node_at n self.old.forest) (λ x. x.own.mark ≡ Mark.Unexpanded) }
        requires agree { IfSome (node_at n self.old.forest) (λ x.
            IsConsistent (joined x.own.facts (known facts.now))) }
        ensures { self.new ≡ record self.old {
          forest = with_facts n (known facts.now) self.old.forest;
        } }
    {
        let row = n.number() as usize;
        learn(&mut self.rows, row, facts);
        self.front = follow(
            &self.rows,
            &self.roots,
            &mut self.stretches,
            self.front,
            row,
        );
    }

    /// How many roots there are, at most 65,536.
    pub fn roots(&self) -> u32
        ensures value { result ≡ length (nodes self.now.forest) }
        ensures valid { IsTreeState self.now }
    {
        self.roots.len() as u32
    }

    /// How many nodes there are.
    pub fn len(&self) -> usize
        ensures value { result ≡ size self.now.forest }
        ensures valid { IsTreeState self.now }
    {
        self.rows.len()
    }

    /// There is no node.
    pub fn is_empty(&self) -> bool
        ensures { result ≡ (size self.now.forest == 0) }
    {
        self.rows.is_empty()
    }

    /// For how many more nodes there is room.
    pub fn spare(&self) -> usize
        ensures { result ≡ self.now.spare }
    {
        self.spare
    }

    /// The node with this number; none exactly where there is none.
    pub fn node(&self, number: u64) -> Option<NodeId>
        ensures value { IfSome result (λ n. n ≡ number) }
        ensures there { IsSome result ↔ IsSome (node_at number self.now.forest) }
    {
        if number >= self.rows.len() as u64 {
            return None;
        }
        Some(NodeId(number))
    }

    /// The node with this number, where it is unexpanded; none exactly where no unexpanded node has
    /// it.
    pub fn leaf(&self, number: u64) -> Option<NodeId>
        ensures value { IfSome result (λ n. n ≡ number) }
        ensures there { IsSome result
            ↔ IsSomeAnd (node_at number self.now.forest) (λ x. x.own.mark ≡ Mark.Unexpanded) }
    {
        match self.node(number) {
            Some(n) => match self.mark(n) {
                Mark::Unexpanded => Some(n),
                Mark::Expanded => None,
                Mark::Repeats => None,
            },
            None => None,
        }
    }

    /// The root with this position, counted from 1; none exactly where no root has it.
    pub fn find_root(&self, p: &Position) -> Option<u32>
        ensures found { IfSome result (λ root. (1 ≤ root)
            × (slice_get (root_positions self.now.forest) (root - 1) ≡ Some p.now)) }
        ensures none { IsNone result ↔ (¬ Contains (root_positions self.now.forest) p.now) }
    {
        match self.roots.place(p) {
            Some(place) => Some(place as u32 + 1),
            None => None,
        }
    }

    /// The node of a root, counted from 1.
    pub fn root_node(&self, root: u32) -> NodeId
        requires first { 1 ≤ root }
        requires there { root ≤ length (nodes self.now.forest) }
        ensures { IfSome (slice_get (nodes self.now.forest) (root - 1)) (λ x.
            result ≡ x.own.number) }
    {
        NodeId(top(&self.roots, root) as u64)
    }

    /// The value of a root, counted from 1; none exactly while it is unsettled.
    pub fn settled(&self, root: u32) -> Option<Value>
        requires first { 1 ≤ root }
        requires there { root ≤ length (nodes self.now.forest) }
        ensures value { IfSome (slice_get (nodes self.now.forest) (root - 1)) (λ x.
            result ≡ value_of x) }
        ensures valid { IsTreeState self.now }
    {
        let row = &self.rows[top(&self.roots, root)];
        value_by(row.kept(Side::Black), row.kept(Side::White))
    }

    /// Whether every root is settled. It looks at none of them.
    pub fn are_settled(&self) -> bool
        ensures { result ≡ list_all (λ root. is_some (value_of root)) (nodes self.now.forest) }
    {
        self.front == self.roots.len()
    }

    /// The row of a node.
    fn row(&self, n: NodeId) -> &NodeRow
        requires { IsSome (node_at n self.now.forest) }
        ensures { IfSome (node_at n self.now.forest) (IsRowOf n result.now) }
    {
        &self.rows[n.number() as usize]
    }

    /// The position of a node.
    pub fn position(&self, n: NodeId) -> Position
        requires { IsSome (node_at n self.now.forest) }
        ensures { IfSome (node_at n self.now.forest) (λ x. result ≡ x.own.position) }
    {
        self.row(n).position
    }

    /// What is known of a node by itself.
    pub fn facts(&self, n: NodeId) -> Facts
        requires { IsSome (node_at n self.now.forest) }
        ensures { IfSome (node_at n self.now.forest) (λ x. known result ≡ x.own.facts) }
    {
        self.row(n).facts
    }

    /// How far a node is.
    pub fn mark(&self, n: NodeId) -> Mark
        requires { IsSome (node_at n self.now.forest) }
        ensures { IfSome (node_at n self.now.forest) (λ x. result ≡ x.own.mark) }
    {
        self.row(n).mark
    }

    /// How many children a node has.
    pub fn children(&self, n: NodeId) -> usize
        requires { IsSome (node_at n self.now.forest) }
        ensures { IfSome (node_at n self.now.forest) (λ x. result ≡ length (nodes x.children)) }
    {
        self.row(n).count as usize
    }

    /// The child of a node at this place, counted from 0.
    pub fn child(&self, n: NodeId, place: usize) -> NodeId
        requires { IsSomeAnd (node_at n self.now.forest) (λ x. place < length (nodes x.children)) }
        ensures { IfSome (node_at n self.now.forest) (λ x.
            IfSome (slice_get (nodes x.children) place) (λ child. result ≡ child.own.number)) }
    {
        NodeId((self.row(n).first as usize + place) as u64)
    }

    /// The proof and the disproof number of a node, for the goal.
    pub fn numbers(&self, n: NodeId, goal: Side) -> Numbers
        requires { IsSome (node_at n self.now.forest) }
        ensures { IfSome (node_at n self.now.forest) (λ x. result ≡ node_numbers goal x) }
    {
        self.row(n).kept(goal).numbers()
    }

    /// The leaf to work on next, and the side whose win is sought there; none exactly where no
    /// unsettled root has a leaf that is open.
    ///
    /// A leaf is open for a goal where it is unexpanded, unresolved for it and not taken, and a
    /// node above it where it is unresolved and has an open child. At the first unsettled root that
    /// is open for its goal the walk begins, and goes on to the first open child with the least
    /// proof number where the goal moves, with the least disproof number elsewhere.
    pub fn pick<T: Taken>(&self, taken: &T) -> Option<(NodeId, Side)>
        ensures value { result ≡ pick (T.taken taken.now) self.now.forest }
        ensures leaf { IfSome result (λ found.
            IsSomeAnd (node_at found.0 self.now.forest) (IsOpenLeaf found.1 (T.taken taken.now))) }
    {
        pick_from(&self.rows, &self.roots, self.front, &self.stretches, taken)
    }
}

/// How many roots stand before the first that is unsettled, where at least `front` do.
fn front_of(rows: &[NodeRow], roots: &PositionRows<usize>, front: usize) -> usize
    requires linked { AreLinked rows.now }
    requires fits { (k : ℕ) → k < length rows.now → Fits rows.now k }
    requires roots { values_of roots.now.entries ≡ roots_from 0 rows.now }
    requires settled { front
        ≤ settled_front (nodes (forest_of rows.now (values_of roots.now.entries))) }
    ensures { result ≡ settled_front (nodes (forest_of rows.now (values_of roots.now.entries))) }
{
    settled_front(rows, roots, front)
}

/// The row at the end of the way up from a row.
fn top_of(rows: &[NodeRow], from: usize) -> usize
    requires inside { from < length rows.now }
    requires linked { AreLinked rows.now }
    ensures { result < length rows.now }
{
    let mut at = from;
    while let Some(parent) = rows[at].parent.get() {
        at = parent;
    }
    at
}

/// Notes the root above a row where it is settled.
fn note_above(rows: &[NodeRow], roots: &PositionRows<usize>, stretches: &mut Stretches, at: usize)
    requires inside { at < length rows.now }
    requires linked { AreLinked rows.now }
    requires fits { (k : ℕ) → k < length rows.now → Fits rows.now k }
    requires roots { values_of roots.now.entries ≡ roots_from 0 rows.now }
    requires few { length roots.now.entries ≤ MOST_ROOTS }
    requires noted { AreNoted (nodes (forest_of rows.now (values_of roots.now.entries)))
        stretches.old.ends.items stretches.old.starts.items }
    ensures noted { AreNoted (nodes (forest_of rows.now (values_of roots.now.entries)))
        stretches.new.ends.items stretches.new.starts.items }
    ensures room { note_room stretches.new ≡ note_room stretches.old }
{
    let position = rows[top_of(rows, at)].position;
    let Some(place) = roots.place(&position) else {
        return;
    };
    if is_settled(rows, row_of(roots, place)) {
        stretches.note(place);
    }
}

/// Follows a change of a row: notes the root above it where it is settled, and gives how many roots stand before the first
/// that is unsettled, where at least `front` do.
fn follow(
    rows: &[NodeRow],
    roots: &PositionRows<usize>,
    stretches: &mut Stretches,
    front: usize,
    at: usize,
) -> usize
    requires inside { at < length rows.now }
    requires linked { AreLinked rows.now }
    requires fits { (k : ℕ) → k < length rows.now → Fits rows.now k }
    requires roots { values_of roots.now.entries ≡ roots_from 0 rows.now }
    requires few { length roots.now.entries ≤ MOST_ROOTS }
    requires settled { front
        ≤ settled_front (nodes (forest_of rows.now (values_of roots.now.entries))) }
    requires noted { AreNoted (nodes (forest_of rows.now (values_of roots.now.entries)))
        stretches.old.ends.items stretches.old.starts.items }
    ensures front { result
        ≡ settled_front (nodes (forest_of rows.now (values_of roots.now.entries))) }
    ensures noted { AreNoted (nodes (forest_of rows.now (values_of roots.now.entries)))
        stretches.new.ends.items stretches.new.starts.items }
    ensures room { note_room stretches.new ≡ note_room stretches.old }
{
    note_above(rows, roots, stretches, at);
    front_of(rows, roots, front)
}
