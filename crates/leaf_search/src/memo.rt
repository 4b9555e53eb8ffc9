//! A bounded memory of positions in which looking ahead shows no win, and of positions that were worked out slice by slice.
use draughts_board::{Position, Side};
use endgame_slices::Slices;
use lru::LruCache;
use std::alloc::{AllocError, Global};
use std::marker::Model;
use std::num::NonZeroUsize;

/// How many plies ahead no win of a side shows, by side and position, for endgame tables of one number of pieces; and what
/// searches have worked out slice by slice.
///
/// It keeps the least recently used positions no longer than there is room, and no more slices than the last search that
/// used some was allowed. What it says of plies ahead is always exact, also after want of memory; what it has forgotten is
/// looked for again. A contract sees the number of pieces.
#[derive(Drop)]
pub struct Memo {
    pieces: u8,
    /// The greatest depth at which no win of the side was found.
    without_win: LruCache<(Side, Position), u8>,
    /// What was worked out slice by slice, unless a search has it.
    slices: Option<Slices>,
}

impl Model for Memo {
    ghost use Rattle.std.specs.Prelude.{ℕ, All};
    ghost use Rattle.leaf_search.specs.Wins.{IsWithoutWin};

    ghost Value = { ℕ };

    ghost view = { λ memo. memo.pieces };

    ghost invariant = { λ memo. All (IsWithoutWin memo.pieces) memo.without_win.entries };
}

impl Memo {
    ghost use Rattle.std.specs.Prelude.{◌≡◌, ◌≤◌, IfOk};
    ghost use Rattle.std.specs.Bool.{OnTrue};
    ghost use Rattle.draughts_board.specs.Draughts.{draughts};
    ghost use Rattle.draughts_board.specs.Game.{ShowsWin};
    ghost use Rattle.strategy_certificate.specs.Tables.{IsTableSize};

    /// An empty memory for tables of `pieces` pieces, which keeps at most `capacity` positions.
    pub fn new(alloc: Global, pieces: u8, capacity: usize) -> Result<Memo, AllocError>
        requires pieces { IsTableSize pieces }
        requires capacity { 1 ≤ capacity }
        ensures { IfOk result (λ memo. memo ≡ pieces) }
    {
        let Some(capacity) = NonZeroUsize::new(capacity) else {
            unreachable!()
        };
        Ok(Memo {
            pieces,
            without_win: LruCache::new(alloc, capacity)?,
            slices: None,
        })
    }

    /// The number of pieces of the tables.
    pub fn pieces(&self) -> u8
        ensures { result ≡ self.now }
    {
        self.pieces
    }

    /// It is known that looking `depth` plies ahead shows no win of the side. True only where that is so.
    pub(crate) fn knows_no_win(&mut self, side: Side, p: &Position, depth: u8) -> bool
        ensures same { self.new ≡ self.old }
        ensures known { OnTrue result (ShowsWin draughts self.old side depth p.now → ⊥) }
    {
        if depth == 0 {
            return false;
        }
        let key = (side, *p);
        let Some(deepest) = self.without_win.peek(&key).copied() else {
            return false;
        };
        if deepest < depth {
            return false;
        }
        self.without_win.promote(&key);
        true
    }

    /// Keeps that looking `depth` plies ahead shows no win of the side. Where there is no memory for it, it is forgotten.
    pub(crate) fn note_no_win(&mut self, side: Side, p: &Position, depth: u8)
        requires { ShowsWin draughts self.old side depth p.now → ⊥ }
        ensures { self.new ≡ self.old }
    {
        if depth == 0 {
            return;
        }
        let _ = self.without_win.put((side, *p), depth);
    }

    /// Gives what was worked out slice by slice, and is without it.
    pub(crate) fn take_slices(&mut self, alloc: Global) -> Slices
        ensures { self.new ≡ self.old }
    {
        match self.slices.take() {
            Some(slices) => slices,
            None => Slices::new(alloc),
        }
    }

    /// Keeps what was worked out slice by slice for the next search.
    pub(crate) fn keep_slices(&mut self, slices: Slices)
        ensures { self.new ≡ self.old }
    {
        self.slices = Some(slices);
    }
}
