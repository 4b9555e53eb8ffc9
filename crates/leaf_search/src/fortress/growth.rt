//! A set of positions that grows until its side has an answer to everything.
ghost use Rattle.std.specs.Prelude.{All};
ghost use Rattle.draughts_board.specs.Rules.{IsLegal};

use crate::fortress::choice::{Pieces, cost, pieces_of};
use crate::sight::is_mover;
use draughts_board::{Move, Position, Side};
use endgame_slices::Slices;
use indexmap::IndexSet;
use std::alloc::{AllocError, Global};
use strategy_certificate::{HoldPart, Oracle, table_holds};
use swift_moves::{apply, legal_moves, successors};

/// How often a position is looked at on average, at most, before the set is given up.
const MOST_LOOKS: usize = 4;

/// Where a position of the set stands.
#[derive(Clone, Copy, PartialEq, Eq)]
enum State {
    /// It is to be looked at.
    Waiting,
    /// It was looked at, and what it needs is in the set.
    Settled,
    /// It was waiting, and nothing rests on it any more.
    Idle,
    /// It is not held, so far as was looked.
    Refuted,
}

/// A move of the side, and the place of the position that it leads to, unless the table holds that.
#[derive(Clone, Copy)]
struct Choice {
    made: Move,
    place: Option<usize>,
}

/// What is known of a position of the set.
#[derive(Clone, Copy)]
struct Node {
    state: State,
    /// It is the side's turn.
    mine: bool,
    /// What the side plays there.
    choice: Option<Choice>,
    /// The last of the links that say who rests on it.
    last: Option<usize>,
}

/// One position rests on another. The links of one position form a list, from the last to the first.
#[derive(Clone, Copy)]
struct Link {
    /// The place of the position that rests on the other.
    resting: usize,
    before: Option<usize>,
}

/// How a position stands to the set.
#[derive(Clone, Copy, PartialEq, Eq)]
enum Standing {
    /// The table shows that it is held.
    Held,
    /// The table or what was found before shows that it is not, or it was refuted.
    Lost,
    /// It is in the set.
    There,
    /// It is not in the set.
    Fresh,
}

/// A move of the side, and the position that it leads to.
#[derive(Clone, Copy)]
struct Candidate {
    made: Move,
    next: Position,
}

/// What became of a set.
#[derive(Clone, Copy, PartialEq, Eq)]
pub(crate) enum Growing {
    /// Each position has what it needs.
    Closed,
    /// The first position was refuted: its side does not hold it.
    Refuted,
    /// The set was given up: it grew too large, or was looked at too often.
    GivenUp,
}

/// A set of positions in which a side looks for a strategy that never leaves it.
#[derive(Drop)]
pub(crate) struct Growth<'a> {
    side: Side,
    /// The positions, each at its place; the first is the one to hold.
    positions: IndexSet<Position>,
    /// What is known of each.
    nodes: Vec<Node>,
    links: Vec<Link>,
    /// The places of the positions to be looked at; the last comes first.
    waiting: Vec<usize>,
    /// The places of the positions that were refuted, while those that rest on them have not been told.
    refuted: Vec<usize>,
    /// The configurations of the side's pieces to which a chosen move has led.
    seen: IndexSet<Pieces>,
    /// What a step of the way to a double corner costs.
    corner_weight: u32,
    /// What was found of positions before, if anything.
    known: Option<&'a Slices>,
}

impl<'a> Growth<'a> {
    /// An empty set for this side. No memory is taken.
    pub(crate) fn new(
        alloc: Global,
        side: Side,
        corner_weight: u32,
        known: Option<&'a Slices>,
    ) -> Growth<'a> {
        Growth {
            side,
            positions: IndexSet::new(alloc),
            nodes: Vec::new(alloc),
            links: Vec::new(alloc),
            waiting: Vec::new(alloc),
            refuted: Vec::new(alloc),
            seen: IndexSet::new(alloc),
            corner_weight,
            known,
        }
    }

    /// The other side was found to win the position.
    fn is_known_lost<O: Oracle>(&self, p: &Position, oracle: &O) -> bool {
        match self.known {
            Some(slices) => slices.is_win(self.side.other(), p, oracle),
            None => false,
        }
    }

    /// What is known at this place.
    fn node(&self, place: usize) -> Option<Node> {
        self.nodes.get(place).copied()
    }

    /// Writes what is known at this place.
    fn set(&mut self, place: usize, node: Node) {
        if place < self.nodes.len() {
            self.nodes[place] = node;
        }
    }

    /// Writes where the position at this place stands.
    fn set_state(&mut self, place: usize, state: State) {
        if let Some(node) = self.node(place) {
            self.set(place, Node { state, ..node });
        }
    }

    /// Writes what the side plays at this place.
    fn set_choice(&mut self, place: usize, made: Move, target: Option<usize>) {
        if let Some(node) = self.node(place) {
            let choice = Some(Choice {
                made,
                place: target,
            });
            self.set(place, Node { choice, ..node });
        }
    }

    /// The link at this place in the list of links.
    fn link_at(&self, place: Option<usize>) -> Option<Link> {
        self.links.get(place?).copied()
    }

    /// The position at this place was refuted.
    fn is_refuted(&self, place: usize) -> bool {
        match self.node(place) {
            Some(node) => node.state == State::Refuted,
            None => false,
        }
    }

    /// Brings the position into the set, or wakes it where it is idle, and gives its place.
    pub(crate) fn demand(&mut self, p: &Position) -> Result<usize, AllocError> {
        let (place, is_new) = self.positions.insert_full(*p)?;
        if is_new {
            self.nodes.push(Node {
                state: State::Waiting,
                mine: is_mover(p, self.side),
                choice: None,
                last: None,
            })?;
            self.waiting.push(place)?;
            return Ok(place);
        }
        if self
            .node(place)
            .is_some_and(|node| node.state == State::Idle)
        {
            self.set_state(place, State::Waiting);
            self.waiting.push(place)?;
        }
        Ok(place)
    }

    /// Notes that the one position rests on the other.
    fn link(&mut self, resting: usize, place: usize) -> Result<(), AllocError> {
        if let Some(node) = self.node(place) {
            let at = self.links.len();
            self.links.push(Link {
                resting,
                before: node.last,
            })?;
            self.set(
                place,
                Node {
                    last: Some(at),
                    ..node
                },
            );
        }
        Ok(())
    }

    /// How the position stands to the set.
    fn standing<O: Oracle>(&self, p: &Position, oracle: &O) -> Standing {
        if oracle.answer(p).is_some() {
            return if table_holds(oracle, self.side, p) {
                Standing::Held
            } else {
                Standing::Lost
            };
        }
        match self.positions.get_index_of(p) {
            Some(place) if self.is_refuted(place) => Standing::Lost,
            Some(_) => Standing::There,
            None if self.is_known_lost(p, oracle) => Standing::Lost,
            None => Standing::Fresh,
        }
    }

    /// Looks at one position after the other until each has what it needs, or the first was refuted, or the set would have
    /// more than `most` positions.
    pub(crate) fn close<O: Oracle>(
        &mut self,
        alloc: Global,
        most: usize,
        oracle: &O,
    ) -> Result<Growing, AllocError> {
        for _ in 0..most.saturating_mul(MOST_LOOKS) {
            if self.is_refuted(0) {
                return Ok(Growing::Refuted);
            }
            if self.positions.len() > most {
                return Ok(Growing::GivenUp);
            }
            let Some(place) = self.waiting.pop() else {
                return Ok(Growing::Closed);
            };
            self.look(alloc, place, oracle)?;
            self.spread()?;
        }
        Ok(Growing::GivenUp)
    }

    /// Looks at the position at this place, unless nothing rests on it any more.
    fn look<O: Oracle>(
        &mut self,
        alloc: Global,
        place: usize,
        oracle: &O,
    ) -> Result<(), AllocError> {
        let Some(p) = self.positions.get_index(place).copied() else {
            return Ok(());
        };
        let Some(node) = self.node(place) else {
            return Ok(());
        };
        if node.state != State::Waiting {
            return Ok(());
        }
        if !self.is_needed(place, &node) {
            self.set_state(place, State::Idle);
            return Ok(());
        }
        self.set_state(place, State::Settled);
        if node.mine {
            self.choose(alloc, place, &p, oracle)
        } else {
            self.answer_all(alloc, place, &p, oracle)
        }
    }

    /// Something that is not refuted rests on this position, or it is the first.
    fn is_needed(&self, place: usize, node: &Node) -> bool {
        if place == 0 {
            return true;
        }
        let mut last = node.last;
        for _ in 0..self.links.len() {
            let Some(link) = self.link_at(last) else {
                return false;
            };
            if self.rests_on(link.resting, place) {
                return true;
            }
            last = link.before;
        }
        false
    }

    /// The one position rests on the other, and is not refuted.
    fn rests_on(&self, resting: usize, place: usize) -> bool {
        let Some(node) = self.node(resting) else {
            return false;
        };
        if node.state == State::Refuted || node.state == State::Idle {
            return false;
        }
        if !node.mine {
            return true;
        }
        node.choice
            .is_some_and(|choice| choice.place == Some(place))
    }

    /// Brings all replies into the set that the table does not hold; the position is refuted where one of them is lost.
    fn answer_all<O: Oracle>(
        &mut self,
        alloc: Global,
        place: usize,
        p: &Position,
        oracle: &O,
    ) -> Result<(), AllocError> {
        let replies = successors(alloc, p)?;
        for r in &replies {
            if self.standing(r, oracle) == Standing::Lost {
                return self.refute(place);
            }
        }
        for r in &replies {
            if oracle.answer(r).is_none() {
                let needed = self.demand(r)?;
                self.link(place, needed)?;
            }
        }
        Ok(())
    }

    /// Chooses a move of the side: one that stays in the set, or else the cheapest. The position is refuted where each of
    /// them is lost.
    fn choose<O: Oracle>(
        &mut self,
        alloc: Global,
        place: usize,
        p: &Position,
        oracle: &O,
    ) -> Result<(), AllocError> {
        let moves = legal_moves(alloc, p)?;
        if let Some(staying) = self.staying(p, &moves, oracle) {
            return self.take(place, &staying, oracle);
        }
        match self.cheapest(alloc, p, &moves, oracle)? {
            Some(cheapest) => self.take(place, &cheapest, oracle),
            None => self.refute(place),
        }
    }

    /// The first of these moves that leads into the set, or to a position that the table holds.
    fn staying<O: Oracle>(&self, p: &Position, moves: &[Move], oracle: &O) -> Option<Candidate>
        requires { All (IsLegal p.now) moves.now }
    {
        for m in moves {
            let next = apply(p, m);
            match self.standing(&next, oracle) {
                Standing::Held | Standing::There => return Some(Candidate { made: *m, next }),
                Standing::Lost | Standing::Fresh => {}
            }
        }
        None
    }

    /// The first of the cheapest of these moves, as far as they are not lost.
    fn cheapest<O: Oracle>(
        &self,
        alloc: Global,
        p: &Position,
        moves: &[Move],
        oracle: &O,
    ) -> Result<Option<Candidate>, AllocError>
        requires { All (IsLegal p.now) moves.now }
    {
        let mut least = u32::MAX;
        let mut best = None;
        for m in moves {
            let next = apply(p, m);
            if let Some(price) = self.price(alloc, &next, oracle)? {
                if price < least {
                    least = price;
                    best = Some(Candidate { made: *m, next });
                }
            }
        }
        Ok(best)
    }

    /// What the move to this position costs; none where it, or some reply to it, is lost.
    fn price<O: Oracle>(
        &self,
        alloc: Global,
        next: &Position,
        oracle: &O,
    ) -> Result<Option<u32>, AllocError> {
        if self.standing(next, oracle) == Standing::Lost {
            return Ok(None);
        }
        let mut fresh = 0_u32;
        let mut replies = 0_u32;
        for r in &successors(alloc, next)? {
            replies = replies.saturating_add(1);
            match self.standing(r, oracle) {
                Standing::Lost => return Ok(None),
                Standing::Fresh => fresh = fresh.saturating_add(1),
                Standing::Held | Standing::There => {}
            }
        }
        let pieces = pieces_of(next, self.side);
        let seen = self.seen.contains(&pieces);
        Ok(Some(cost(fresh, replies, pieces, seen, self.corner_weight)))
    }

    /// Plays the move at this place.
    fn take<O: Oracle>(
        &mut self,
        place: usize,
        taken: &Candidate,
        oracle: &O,
    ) -> Result<(), AllocError> {
        self.seen.insert(pieces_of(&taken.next, self.side))?;
        if oracle.answer(&taken.next).is_some() {
            self.set_choice(place, taken.made, None);
            return Ok(());
        }
        let target = self.demand(&taken.next)?;
        self.link(place, target)?;
        self.set_choice(place, taken.made, Some(target));
        Ok(())
    }

    /// The position at this place is not held, so far as was looked.
    fn refute(&mut self, place: usize) -> Result<(), AllocError> {
        self.set_state(place, State::Refuted);
        self.refuted.push(place)?;
        Ok(())
    }

    /// Tells those that rest on refuted positions.
    fn spread(&mut self) -> Result<(), AllocError> {
        for _ in 0..self.nodes.len().saturating_add(1) {
            let Some(place) = self.refuted.pop() else {
                return Ok(());
            };
            self.tell(place)?;
        }
        Ok(())
    }

    /// Tells those that rest on this refuted position.
    fn tell(&mut self, place: usize) -> Result<(), AllocError> {
        let Some(node) = self.node(place) else {
            return Ok(());
        };
        let mut last = node.last;
        for _ in 0..self.links.len() {
            let Some(link) = self.link_at(last) else {
                return Ok(());
            };
            if self.rests_on(link.resting, place) {
                self.lose(link.resting)?;
            }
            last = link.before;
        }
        Ok(())
    }

    /// The position at this place has lost what it rests on: its side looks for another move, and a reply refutes it.
    fn lose(&mut self, place: usize) -> Result<(), AllocError> {
        let Some(node) = self.node(place) else {
            return Ok(());
        };
        if !node.mine {
            return self.refute(place);
        }
        self.set(
            place,
            Node {
                state: State::Waiting,
                choice: None,
                ..node
            },
        );
        self.waiting.push(place)?;
        Ok(())
    }

    /// The part with all positions that the first one needs, as it stands.
    pub(crate) fn part<O: Oracle>(
        &self,
        alloc: Global,
        oracle: &O,
    ) -> Result<HoldPart, AllocError> {
        let mut part = HoldPart::new(alloc, self.side)?;
        let mut places = Vec::new(alloc);
        places.push(0)?;
        for _ in 0..self.links.len().saturating_add(1) {
            let Some(place) = places.pop() else {
                return Ok(part);
            };
            self.enter(alloc, place, oracle, &mut part, &mut places)?;
        }
        Ok(part)
    }

    /// Gives the position at this place its entry, unless it has one, and lists the places that it needs.
    fn enter<O: Oracle>(
        &self,
        alloc: Global,
        place: usize,
        oracle: &O,
        part: &mut HoldPart,
        places: &mut Vec<usize>,
    ) -> Result<(), AllocError> {
        let Some(p) = self.positions.get_index(place).copied() else {
            return Ok(());
        };
        if part.find(&p).is_some() {
            return Ok(());
        }
        let choice = self.node(place).and_then(|node| node.choice);
        part.add(p, choice.map(|choice| choice.made))?;
        if let Some(choice) = choice {
            if let Some(next) = choice.place {
                places.push(next)?;
            }
            return Ok(());
        }
        for r in &successors(alloc, &p)? {
            if oracle.answer(r).is_none() {
                if let Some(next) = self.positions.get_index_of(r) {
                    places.push(next)?;
                }
            }
        }
        Ok(())
    }
}
