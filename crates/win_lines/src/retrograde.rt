//! The plies to the end of positions that were shown to be won, worked out backwards.
use crate::descent::Descent;
use crate::known::{KnownWins, table_plies};
use draughts_board::{Position, Side};
use indexmap::IndexMap;
use std::alloc::{AllocError, Global};
use strategy_certificate::Oracle;
use swift_moves::successors_into;

/// No more positions are looked through. A search never shows as many.
const MOST_POSITIONS: usize = 1 << 32;

/// What is known of a position that is won.
#[derive(Clone, Copy)]
struct Line {
    /// In how many plies it is won at most, once that is known.
    plies: Option<u32>,
    /// For how many replies this waits: for one where the winner is to move, and else for each.
    waiting: usize,
    /// The greatest of the plies after a reply so far, and one more.
    slowest: u32,
    /// The last of the links that say who waits for it.
    last: Option<usize>,
}

/// One position waits for another. The links of one position form a list, from the last to the first.
#[derive(Clone, Copy)]
struct Link {
    /// The place of the position that waits for the other.
    resting: usize,
    before: Option<usize>,
}

/// Positions that a side wins, with the plies to the end.
#[derive(Drop)]
pub(crate) struct WonLines {
    winner: Side,
    /// The positions, each at its place.
    lines: IndexMap<Position, Line>,
    links: Vec<Link>,
    /// The places of the positions of which the plies are known, in the order in which they became known.
    known: Vec<usize>,
}

impl KnownWins for WonLines {
    fn plies<O: Oracle>(&self, side: Side, p: &Position, oracle: &O) -> Option<u32> {
        if oracle.answer(p).is_some() {
            return table_plies(oracle, side, p);
        }
        if side != self.winner {
            return None;
        }
        self.lines.get(p)?.plies
    }
}

impl WonLines {
    /// What the search has shown of the positions to which winning moves, and all moves of the other side, lead from this one.
    pub(crate) fn below<O: Oracle>(
        alloc: Global,
        p: &Position,
        found: &Descent<'_, O>,
        oracle: &O,
    ) -> Result<WonLines, AllocError> {
        let mut won = WonLines {
            winner: found.seeker(),
            lines: IndexMap::new(alloc),
            links: Vec::new(alloc),
            known: Vec::new(alloc),
        };
        won.demand(p)?;
        won.list_all(alloc, found, oracle)?;
        won.go_back()?;
        Ok(won)
    }

    /// The position is looked through, in its turn. Gives its place.
    fn demand(&mut self, p: &Position) -> Result<usize, AllocError> {
        if let Some(place) = self.lines.get_index_of(p) {
            return Ok(place);
        }
        let line = Line {
            plies: None,
            waiting: 0,
            slowest: 0,
            last: None,
        };
        let (place, _) = self.lines.insert_full(*p, line)?;
        Ok(place)
    }

    /// Looks through one position after the other, each of which may bring in more.
    fn list_all<O: Oracle>(
        &mut self,
        alloc: Global,
        found: &Descent<'_, O>,
        oracle: &O,
    ) -> Result<(), AllocError> {
        let mut next = Vec::new(alloc);
        for place in 0..MOST_POSITIONS {
            let Some(p) = self.position_at(place) else {
                break;
            };
            successors_into(alloc, &p, &mut next)?;
            if p.to_move() == self.winner {
                self.list_moves(place, &next, found, oracle)?;
            } else {
                self.list_replies(place, &next, found, oracle)?;
            }
        }
        Ok(())
    }

    /// The position at this place.
    fn position_at(&self, place: usize) -> Option<Position> {
        let (p, _) = self.lines.get_index(place)?;
        Some(*p)
    }

    /// The position waits for this many of its replies.
    fn wait(&mut self, place: usize, replies: usize) {
        if let Some(line) = self.lines.get_index_mut(place) {
            line.waiting = replies;
        }
    }

    /// The winner is to move: one of the moves that win is enough, at best into the table.
    fn list_moves<O: Oracle>(
        &mut self,
        place: usize,
        next: &[Position],
        found: &Descent<'_, O>,
        oracle: &O,
    ) -> Result<(), AllocError> {
        self.wait(place, 1);
        let mut quickest = None;
        for q in next {
            if let Some(plies) = table_plies(oracle, self.winner, q) {
                quickest = Some(plies.min(quickest.unwrap_or(u32::MAX)));
            } else if found.is_won(q) {
                self.link(place, q)?;
            }
        }
        if let Some(plies) = quickest {
            self.hear(place, plies)?;
        }
        Ok(())
    }

    /// The other side is to move: each of its replies has to be won.
    fn list_replies<O: Oracle>(
        &mut self,
        place: usize,
        next: &[Position],
        found: &Descent<'_, O>,
        oracle: &O,
    ) -> Result<(), AllocError> {
        self.wait(place, next.len());
        if next.is_empty() {
            return self.settle(place, 0);
        }
        for q in next {
            if let Some(plies) = table_plies(oracle, self.winner, q) {
                self.hear(place, plies)?;
            } else if found.is_won(q) {
                self.link(place, q)?;
            }
        }
        Ok(())
    }

    /// Notes that the position at this place waits for the other, which is looked through too.
    fn link(&mut self, resting: usize, p: &Position) -> Result<(), AllocError> {
        let place = self.demand(p)?;
        let at = self.links.len();
        if let Some(line) = self.lines.get_index_mut(place) {
            let before = line.last;
            line.last = Some(at);
            self.links.push(Link { resting, before })?;
        }
        Ok(())
    }

    /// A reply of the position at this place is won in these plies: it waits for one less.
    fn hear(&mut self, place: usize, plies: u32) -> Result<(), AllocError> {
        let Some(line) = self.lines.get_index_mut(place) else {
            return Ok(());
        };
        if line.plies.is_some() {
            return Ok(());
        }
        line.slowest = line.slowest.max(plies.saturating_add(1));
        line.waiting = line.waiting.saturating_sub(1);
        if line.waiting > 0 {
            return Ok(());
        }
        let slowest = line.slowest;
        self.settle(place, slowest)
    }

    /// The position at this place is won in this many plies.
    fn settle(&mut self, place: usize, plies: u32) -> Result<(), AllocError> {
        if let Some(line) = self.lines.get_index_mut(place) {
            line.plies = Some(plies);
            self.known.push(place)?;
        }
        Ok(())
    }

    /// Tells those that wait for positions of which the plies are known, until nothing more becomes known.
    fn go_back(&mut self) -> Result<(), AllocError> {
        for number in 0..self.lines.len() {
            let Some(place) = self.known.get(number).copied() else {
                break;
            };
            self.tell(place)?;
        }
        Ok(())
    }

    /// Tells those that wait for the position at this place.
    fn tell(&mut self, place: usize) -> Result<(), AllocError> {
        let Some((_, line)) = self.lines.get_index(place) else {
            return Ok(());
        };
        let plies = line.plies.unwrap_or(u32::MAX);
        let mut last = line.last;
        for _ in 0..self.links.len() {
            let Some(link) = self.link_at(last) else {
                break;
            };
            self.hear(link.resting, plies)?;
            last = link.before;
        }
        Ok(())
    }

    /// The link at this place in the list of links.
    fn link_at(&self, place: Option<usize>) -> Option<Link> {
        self.links.get(place?).copied()
    }
}
