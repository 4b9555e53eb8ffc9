//! A tree as a plain list of nodes, whose numbers are folded anew from the leaves each time.
ghost use Rattle.std.specs.Prelude.{◌<◌};

use draughts_board::{Position, Side};
use proof_numbers::{Child, Facts, Number, Numbers};
use proof_tree::Tree;
use std::alloc::{AllocError, Global};

/// Numbers that look random, the same in each run.
#[derive(Drop)]
pub(crate) struct Dice {
    pub(crate) state: u64,
}

impl Dice {
    /// A number below `sides`.
    pub(crate) fn roll(&mut self, sides: u64) -> u64
        requires { 0 < sides }
    {
        let next = self.state.wrapping_mul(6364136223846793005);
        self.state = next.wrapping_add(1442695040888963407);
        (self.state >> 33) % sides
    }

    /// Facts of a position, whichever can be known together.
    pub(crate) fn facts(&mut self) -> Facts {
        match self.roll(5) {
            0 => Facts::of_win(Side::Black),
            1 => Facts::of_win(Side::White),
            2 => Facts::of_hold(Side::Black),
            3 => Facts::of_hold(Side::White),
            _ => Facts::of_hold(Side::Black).joined(&Facts::of_hold(Side::White)),
        }
    }
}

/// A proof and a disproof number; none is infinite.
#[derive(Clone, Copy)]
struct Pair {
    proof: Option<u64>,
    disproof: Option<u64>,
}

const PROVED: Pair = Pair {
    proof: Some(0),
    disproof: None,
};

const REFUTED: Pair = Pair {
    proof: None,
    disproof: Some(0),
};

/// The lesser number; `None` is infinite.
fn lesser(a: Option<u64>, b: Option<u64>) -> Option<u64> {
    match (a, b) {
        (Some(x), Some(y)) => Some(x.min(y)),
        (Some(x), None) => Some(x),
        (None, y) => y,
    }
}

/// The sum; `None` is infinite.
fn sum(a: Option<u64>, b: Option<u64>) -> Option<u64> {
    a?.checked_add(b?)
}

/// The two are one number.
fn is_same(number: Number, plain: Option<u64>) -> bool {
    match (number, plain) {
        (Number::Finite(n), Some(m)) => n == m as u128,
        (Number::Infinite, None) => true,
        _ => false,
    }
}

impl Pair {
    /// One of the two numbers is 0.
    fn is_resolved(&self) -> bool {
        self.proof == Some(0) || self.disproof == Some(0)
    }

    /// The tree keeps these numbers.
    fn is_kept(&self, numbers: Numbers) -> bool {
        is_same(numbers.proof, self.proof) && is_same(numbers.disproof, self.disproof)
    }
}

#[derive(Clone, Copy)]
struct PlainNode {
    position: Position,
    facts: Facts,
    moves: u8,
    parent: Option<usize>,
    first: usize,
    count: usize,
    expanded: bool,
    repeats: bool,
}

/// A tree with one root.
#[derive(Drop)]
pub(crate) struct PlainTree {
    nodes: Vec<PlainNode>,
}

impl PlainTree {
    /// The tree of this root alone.
    pub(crate) fn new(alloc: Global, root: &Child) -> Result<PlainTree, AllocError> {
        let mut nodes = Vec::new(alloc);
        nodes.push(PlainNode {
            position: root.position,
            facts: root.facts,
            moves: root.moves,
            parent: None,
            first: 0,
            count: 0,
            expanded: false,
            repeats: false,
        })?;
        Ok(PlainTree { nodes })
    }

    /// The position stands at this node, or above it.
    fn stands_above(&self, p: &Position, from: usize) -> bool {
        let mut at = Some(from);
        for _ in 0..self.nodes.len() {
            let Some(node) = at.and_then(|k| self.nodes.get(k)) else {
                return false;
            };
            if node.position == *p {
                return true;
            }
            at = node.parent;
        }
        false
    }

    /// Gives the node these children, where there is such a node.
    pub(crate) fn expand(&mut self, at: usize, children: &[Child]) -> Result<(), AllocError> {
        let first = self.nodes.len();
        for child in children {
            let repeats = self.stands_above(&child.position, at);
            self.nodes.push(PlainNode {
                position: child.position,
                facts: child.facts,
                moves: child.moves,
                parent: Some(at),
                first: 0,
                count: 0,
                expanded: false,
                repeats,
            })?;
        }
        if let Some(node) = self.nodes.get_mut(at) {
            node.expanded = true;
            node.first = first;
            node.count = children.len();
        }
        Ok(())
    }

    /// Gives the node these facts, where there is such a node.
    pub(crate) fn bound(&mut self, at: usize, facts: Facts) {
        if let Some(node) = self.nodes.get_mut(at) {
            node.facts = facts;
        }
    }

    /// The numbers of a node, by those of the nodes behind it.
    fn numbers_of(node: &PlainNode, goal: Side, folded: &[Pair]) -> Pair {
        let (wins, held) = match goal {
            Side::Black => (node.facts.black_wins, node.facts.white_holds),
            Side::White => (node.facts.white_wins, node.facts.black_holds),
        };
        if wins {
            return PROVED;
        }
        if held || node.repeats {
            return REFUTED;
        }
        let goal_moves = node.position.to_move() == goal;
        let mut least = if node.expanded { None } else { Some(1) };
        let mut all = if node.expanded {
            Some(0)
        } else {
            Some(node.moves as u64)
        };
        for pair in folded.iter().skip(node.first).take(node.count) {
            let (one, each) = if goal_moves {
                (pair.proof, pair.disproof)
            } else {
                (pair.disproof, pair.proof)
            };
            least = lesser(least, one);
            all = sum(all, each);
        }
        if goal_moves {
            Pair {
                proof: least,
                disproof: all,
            }
        } else {
            Pair {
                proof: all,
                disproof: least,
            }
        }
    }

    /// The numbers of each node for the goal, made anew from the last node to the first.
    fn fold(&self, alloc: Global, goal: Side) -> Result<Vec<Pair>, AllocError> {
        let mut folded = Vec::new(alloc);
        folded.resize(self.nodes.len(), REFUTED)?;
        for k in (0..self.nodes.len()).rev() {
            if let Some(node) = self.nodes.get(k) {
                let pair = PlainTree::numbers_of(node, goal, &folded);
                if let Some(place) = folded.get_mut(k) {
                    *place = pair;
                }
            }
        }
        Ok(folded)
    }

    /// Which nodes are open for the goal, where a node is taken whose number leaves this rest when
    /// divided by 3.
    fn open(&self, alloc: Global, folded: &[Pair], taken: u64) -> Result<Vec<bool>, AllocError> {
        let mut open = Vec::new(alloc);
        open.resize(self.nodes.len(), false)?;
        for k in (0..self.nodes.len()).rev() {
            if let (Some(node), Some(pair)) = (self.nodes.get(k), folded.get(k)) {
                let below = open
                    .iter()
                    .skip(node.first)
                    .take(node.count)
                    .any(|is_open| *is_open);
                let itself = !node.expanded && !node.repeats && k as u64 % 3 != taken;
                if let Some(place) = open.get_mut(k) {
                    *place = !pair.is_resolved() && (itself || below);
                }
            }
        }
        Ok(open)
    }

    /// The first open child of least proof number where the goal moves, of least disproof number
    /// elsewhere.
    fn child(&self, at: usize, goal: Side, folded: &[Pair], open: &[bool]) -> Option<usize> {
        let node = self.nodes.get(at)?;
        let goal_moves = node.position.to_move() == goal;
        let mut best = None;
        for (k, (pair, is_open)) in folded.iter().zip(open.iter()).enumerate() {
            if k < node.first || k - node.first >= node.count || !is_open {
                continue;
            }
            let key = if goal_moves {
                pair.proof
            } else {
                pair.disproof
            };
            let left = key.unwrap_or(u64::MAX);
            match best {
                Some((_, least)) if least <= left => {}
                _ => best = Some((k, left)),
            }
        }
        match best {
            Some((k, _)) => Some(k),
            None => None,
        }
    }

    /// The leaf at which the walk ends, and the goal, where `taken` are taken.
    pub(crate) fn pick(
        &self,
        alloc: Global,
        taken: u64,
    ) -> Result<Option<(u64, Side)>, AllocError> {
        let black = self.fold(alloc, Side::Black)?;
        let white = self.fold(alloc, Side::White)?;
        let (Some(b), Some(w)) = (black.first(), white.first()) else {
            return Ok(None);
        };
        if b.proof == Some(0) || w.proof == Some(0) || b.is_resolved() && w.is_resolved() {
            return Ok(None);
        }
        let (goal, folded) = if b.is_resolved() {
            (Side::White, white)
        } else {
            (Side::Black, black)
        };
        let open = self.open(alloc, &folded, taken)?;
        if open.first() != Some(&true) {
            return Ok(None);
        }
        let mut at = 0;
        for _ in 0..self.nodes.len() {
            match self.child(at, goal, &folded, &open) {
                Some(k) => at = k,
                None => return Ok(Some((at as u64, goal))),
            }
        }
        Ok(None)
    }

    /// Each node of the tree keeps the numbers of the fold, for both goals.
    pub(crate) fn agrees(&self, alloc: Global, tree: &Tree) -> Result<bool, AllocError> {
        let black = self.fold(alloc, Side::Black)?;
        let white = self.fold(alloc, Side::White)?;
        for (k, (b, w)) in black.iter().zip(white.iter()).enumerate() {
            match tree.node(k as u64) {
                Some(n) => {
                    if !b.is_kept(tree.numbers(n, Side::Black))
                        || !w.is_kept(tree.numbers(n, Side::White))
                    {
                        return Ok(false);
                    }
                }
                None => return Ok(false),
            }
        }
        Ok(tree.len() == self.nodes.len())
    }
}
