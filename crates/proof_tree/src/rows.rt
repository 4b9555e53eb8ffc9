//! The nodes as rows of one table.
ghost use Rattle.std.specs.Prelude.{◌≡◌, ◌<◌, ◌^◌};

use crate::kept::{KeptNumber, KeptNumbers};
use draughts_board::{Position, Side};
use proof_numbers::Facts;
use std::marker::Model;

/// Names a node. Nodes are numbered from 0 in the order in which they were made, and a contract
/// sees the number.
#[derive(Clone, Copy, PartialEq, Eq, Debug)]
pub struct NodeId(pub(crate) u64);

impl Model for NodeId {
    ghost use Rattle.std.specs.Prelude.{ℕ};

    ghost Value = { ℕ };

    ghost view = { λ id. id.0 };

    ghost inverse = { λ n. record { 0 = n } };
}

impl NodeId {
    /// The node's number.
    pub fn number(self) -> u64
        ensures { result ≡ self }
    {
        self.0
    }
}

/// How far a node is.
#[derive(Clone, Copy, PartialEq, Eq, Debug)]
pub enum Mark {
    /// It has no children yet.
    Unexpanded,
    /// It has a child for each successor of its position.
    Expanded,
    /// Its position stands on the path from its root above it, and it never gets children.
    Repeats,
}

/// The number of a row's parent, or none, in four bytes. A contract sees an option.
#[derive(Clone, Copy)]
pub(crate) struct ParentLink {
    word: u32,
}

impl Model for ParentLink {
    ghost use Rattle.std.specs.Prelude.{ℕ, Option};
    ghost use Rattle.proof_tree.specs.Kept.{parent_of, parent_word, parent_back};

    ghost Value = { Option ℕ };

    ghost view = { λ link. parent_of link.word };

    ghost inverse = { λ parent. record { word = parent_word parent } };

    ghost inverse_ok = { λ link h i. record { word = parent_back link.word i } };
}

impl ParentLink {
    ghost use Rattle.std.specs.Prelude.{None, Some};

    /// No parent: the row of a root.
    pub(crate) fn none() -> ParentLink
        ensures { result ≡ None }
    {
        ParentLink { word: 0 }
    }

    /// The row with this number.
    pub(crate) fn to(parent: usize) -> ParentLink
        requires { parent < 2 ^ 26 }
        ensures { result ≡ Some parent }
    {
        ParentLink {
            word: parent as u32 + 1,
        }
    }

    /// The number of the parent's row.
    pub(crate) fn get(&self) -> Option<usize>
        ensures { result ≡ self.now }
    {
        let parent = self.word.checked_sub(1)?;
        Some(parent as usize)
    }
}

/// A node.
#[derive(Clone, Copy)]
pub(crate) struct NodeRow {
    /// Where the moves down to it led.
    pub(crate) position: Position,
    /// What is known there.
    pub(crate) facts: Facts,
    pub(crate) mark: Mark,
    /// The mobility of its position.
    pub(crate) moves: u8,
    /// The number of its parent.
    pub(crate) parent: ParentLink,
    /// The number of its first child; the others follow. Without children it is the number of the
    /// next row.
    pub(crate) first: u32,
    /// How many children it has.
    pub(crate) count: u32,
    /// Its numbers for the goal Black.
    pub(crate) black: KeptNumbers,
    /// Its numbers for the goal White.
    pub(crate) white: KeptNumbers,
}

impl NodeRow {
    ghost use Rattle.proof_tree.specs.Picking.{left_to_show};
    ghost use Rattle.proof_tree.specs.Rows.{kept_numbers};

    /// The numbers that it keeps for the goal.
    pub(crate) fn kept(&self, goal: Side) -> KeptNumbers
        ensures { result ≡ kept_numbers goal self.now }
    {
        match goal {
            Side::Black => self.black,
            Side::White => self.white,
        }
    }

    /// The proof number, or the disproof number, that it keeps for the goal.
    pub(crate) fn left_to_show(&self, goal: Side, by_proof: bool) -> KeptNumber
        ensures { result ≡ left_to_show by_proof (kept_numbers goal self.now) }
    {
        match goal {
            Side::Black => self.black.left_to_show(by_proof),
            Side::White => self.white.left_to_show(by_proof),
        }
    }
}
