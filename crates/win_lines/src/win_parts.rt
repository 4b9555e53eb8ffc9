//! Strategies by which a side wins, made of wins that are known.
ghost use Rattle.std.specs.Prelude.{◌≡◌, ◌≤◌, IfOk, IfSome};
ghost use Rattle.strategy_certificate.specs.Claims.{HasShortRanks};
ghost use Rattle.strategy_certificate.specs.declared.entries.TheConstants.{MOST_FOUND_RANK};
ghost use Rattle.strategy_certificate.specs.declared.certificates.Part.TheVariants as parts;

use crate::known::KnownWins;
use draughts_board::{Move, Position, Side};
use indexmap::IndexSet;
use std::alloc::{AllocError, Global};
use strategy_certificate::{Oracle, WinEntry, WinPart};
use swift_moves::{move_to, successors};

/// The entry of a position `plies` plies before the end, with this move.
fn entry_of(plies: u32, chosen: Option<Move>) -> WinEntry
    ensures rank { result.rank ≡ plies }
    ensures chosen { result.chosen ≡ chosen }
{
    WinEntry {
        rank: u64::from(plies),
        chosen,
    }
}

/// What a strategy that is being made needs: positions that the table does not answer for.
#[derive(Drop)]
struct Needs<'w, 'o, W, O> {
    side: Side,
    wins: &'w W,
    oracle: &'o O,
    /// All of them so far.
    known: IndexSet<Position>,
    /// Those that have no entry yet; the last gets the next one.
    waiting: Vec<Position>,
}

impl<W: KnownWins, O: Oracle> Needs<'_, '_, W, O> {
    /// In how many plies the side is known to win the position.
    fn plies(&self, p: &Position) -> Option<u32> {
        self.wins.plies(self.side, p, self.oracle)
    }

    /// The position needs no further entry: it is among those needed, or the table answers for it.
    fn is_there(&self, p: &Position) -> bool {
        self.oracle.answer(p).is_some() || self.known.contains(p)
    }

    /// The position is needed.
    fn demand(&mut self, p: &Position) -> Result<(), AllocError> {
        if self.is_there(p) {
            return Ok(());
        }
        self.known.insert(*p)?;
        self.waiting.push(*p)?;
        Ok(())
    }

    /// How many of the replies in the position are not there yet.
    fn fresh_replies(&self, alloc: Global, p: &Position) -> Result<usize, AllocError> {
        let mut fresh = 0_usize;
        for q in &successors(alloc, p)? {
            if !self.is_there(q) {
                fresh = fresh.saturating_add(1);
            }
        }
        Ok(fresh)
    }

    /// Where the side goes, which is to move and wins in `plies` plies: of the positions that it wins sooner the first that
    /// is there, or else the first with the fewest fresh replies.
    fn choose(
        &self,
        alloc: Global,
        p: &Position,
        plies: u32,
    ) -> Result<Option<Position>, AllocError> {
        let mut least = usize::MAX;
        let mut best = None;
        for q in &successors(alloc, p)? {
            if self.plies(q).is_none_or(|left| left >= plies) {
                continue;
            }
            if self.is_there(q) {
                return Ok(Some(*q));
            }
            let fresh = self.fresh_replies(alloc, q)?;
            if fresh < least {
                least = fresh;
                best = Some(*q);
            }
        }
        Ok(best)
    }

    /// The entry of a position, after which what it needs is there. None where the side is not known to win.
    fn entry(&mut self, alloc: Global, p: &Position) -> Result<Option<WinEntry>, AllocError>
        ensures { IfOk result (λ found. IfSome found (λ entry. entry.rank ≤ MOST_FOUND_RANK)) }
    {
        let Some(plies) = self.plies(p) else {
            return Ok(None);
        };
        if p.to_move() != self.side {
            for q in &successors(alloc, p)? {
                self.demand(q)?;
            }
            return Ok(Some(entry_of(plies, None)));
        }
        let Some(next) = self.choose(alloc, p, plies)? else {
            return Ok(None);
        };
        self.demand(&next)?;
        Ok(Some(entry_of(plies, move_to(alloc, p, &next)?)))
    }
}

/// A strategy by which the side wins the position, with what it reaches alone. None where it would have more than `most`
/// entries, or some position that it reaches is not known to be won.
pub fn win_part<W: KnownWins, O: Oracle>(
    alloc: Global,
    wins: &W,
    p: &Position,
    side: Side,
    most: usize,
    oracle: &O,
) -> Result<Option<WinPart>, AllocError>
    ensures side { IfOk result (λ found. IfSome found (λ part. part.side ≡ side)) }
    ensures ranks { IfOk result (λ found. IfSome found (λ part. HasShortRanks (parts.Win part))) }
{
    let mut needs = Needs {
        side,
        wins,
        oracle,
        known: IndexSet::new(alloc),
        waiting: Vec::new(alloc),
    };
    needs.demand(p)?;
    let mut part = WinPart::new(alloc, side)?;
    for _ in 0..most {
        let Some(q) = needs.waiting.pop() else {
            return Ok(Some(part));
        };
        let Some(entry) = needs.entry(alloc, &q)? else {
            return Ok(None);
        };
        part.add_new(q, entry)?;
    }
    Ok(None)
}
