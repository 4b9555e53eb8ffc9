//! Depth-first proof-number search, on a stack of its own.
use crate::known::table_plies;
use crate::numbers::{INFINITE, MoverNumbers};
use crate::outlooks::Outlook;
use draughts_board::{Position, Side};
use indexmap::IndexMap;
use std::alloc::{AllocError, Global};
use strategy_certificate::Oracle;
use swift_moves::{count_successors, has_move, successors_into};

/// No number reaches these limits before the position is settled.
const NO_LIMITS: MoverNumbers = MoverNumbers {
    own: INFINITE,
    other: INFINITE,
};

/// What is known of a position that was looked at.
#[derive(Clone, Copy)]
struct Node {
    numbers: MoverNumbers,
    /// The search stands at it or below it.
    is_on_path: bool,
}

/// A position after a move of one on the path.
#[derive(Clone, Copy)]
struct Reply {
    position: Position,
    /// The numbers that it has until it is looked at.
    first: MoverNumbers,
}

/// A position on the path.
#[derive(Clone, Copy)]
struct Frame {
    /// Its place among the nodes.
    place: usize,
    /// The place of the first of its replies; they are the last ones while it is the end of the path.
    replies: usize,
    /// It is left once its numbers reach these.
    limits: MoverNumbers,
}

/// A search for the win of a side.
#[derive(Drop)]
pub(crate) struct Descent<'o, O> {
    oracle: &'o O,
    /// The side whose win is sought.
    seeker: Side,
    /// The positions that were looked at.
    nodes: IndexMap<Position, Node>,
    /// The path from the first position to the one where the search stands.
    frames: Vec<Frame>,
    /// The replies of all positions on the path.
    replies: Vec<Reply>,
    /// How many lists of moves were made.
    lists: usize,
    /// Room for one of them.
    next: Vec<Position>,
}

impl<'o, O: Oracle> Descent<'o, O> {
    /// A search that was not begun. No memory is taken.
    pub(crate) fn new(alloc: Global, seeker: Side, oracle: &'o O) -> Descent<'o, O> {
        Descent {
            oracle,
            seeker,
            nodes: IndexMap::new(alloc),
            frames: Vec::new(alloc),
            replies: Vec::new(alloc),
            lists: 0,
            next: Vec::new(alloc),
        }
    }

    /// The side whose win is sought.
    pub(crate) fn seeker(&self) -> Side {
        self.seeker
    }

    /// The position was shown to be won by the side whose win is sought, by the table, or by having no move.
    pub(crate) fn is_won(&self, p: &Position) -> bool {
        if self.oracle.answer(p).is_some() {
            return table_plies(self.oracle, self.seeker, p).is_some();
        }
        let is_seeker_to_move = p.to_move() == self.seeker;
        match self.nodes.get(p) {
            Some(node) => node.numbers == MoverNumbers::decided(true, is_seeker_to_move),
            None => !is_seeker_to_move && !has_move(p),
        }
    }

    /// Looks for the win in this position until it is shown or refuted, or `most` lists of moves were made.
    pub(crate) fn run(
        &mut self,
        alloc: Global,
        p: &Position,
        most: usize,
    ) -> Result<(), AllocError> {
        self.enter(alloc, p, NO_LIMITS)?;
        for _ in 0..most.saturating_mul(2).saturating_add(1) {
            let Some(frame) = self.frames.last().copied() else {
                break;
            };
            self.step(alloc, &frame, most)?;
        }
        Ok(())
    }

    /// Leaves the last position of the path where its numbers have reached their limits, or else goes on to its best reply.
    fn step(&mut self, alloc: Global, frame: &Frame, most: usize) -> Result<(), AllocError> {
        let outlook = self.outlook(frame);
        let numbers = outlook.numbers();
        if numbers.is_settled() || numbers.exceeds(&frame.limits) || self.lists >= most {
            self.leave(frame, numbers);
            return Ok(());
        }
        let Some(reply) = self.replies.get(outlook.best).copied() else {
            self.leave(frame, numbers);
            return Ok(());
        };
        self.enter(alloc, &reply.position, outlook.limits_below(&frame.limits))
    }

    /// Goes on to this position, and lists its replies.
    fn enter(
        &mut self,
        alloc: Global,
        p: &Position,
        limits: MoverNumbers,
    ) -> Result<(), AllocError> {
        let node = Node {
            numbers: NO_LIMITS,
            is_on_path: true,
        };
        let (place, _) = self.nodes.insert_full(*p, node)?;
        self.frames.push(Frame {
            place,
            replies: self.replies.len(),
            limits,
        })?;
        self.lists = self.lists.saturating_add(1);
        successors_into(alloc, p, &mut self.next)?;
        for number in 0..self.next.len() {
            if let Some(position) = self.next.get(number).copied() {
                let first = self.first_numbers(alloc, &position)?;
                self.replies.push(Reply { position, first })?;
            }
        }
        Ok(())
    }

    /// Takes the last position off the path, with these numbers.
    fn leave(&mut self, frame: &Frame, numbers: MoverNumbers) {
        self.frames.pop();
        self.replies.truncate(frame.replies);
        if let Some(node) = self.nodes.get_index_mut(frame.place) {
            *node = Node {
                numbers,
                is_on_path: false,
            };
        }
    }

    /// The numbers of a position that was not looked at: by the table, by having no move, or by how many moves it has.
    fn first_numbers(&self, alloc: Global, p: &Position) -> Result<MoverNumbers, AllocError> {
        if self.oracle.answer(p).is_some() {
            let is_won = table_plies(self.oracle, self.seeker, p).is_some();
            return Ok(MoverNumbers::decided(is_won, p.to_move() == self.seeker));
        }
        let moves = count_successors(alloc, p)?;
        if moves == 0 {
            return Ok(MoverNumbers::MISSED);
        }
        Ok(MoverNumbers::unseen(moves))
    }

    /// The numbers of a reply. A position on the path counts as no win, since the win would have to come before it.
    fn numbers_of(&self, reply: &Reply) -> MoverNumbers {
        if reply.first.is_settled() {
            return reply.first;
        }
        match self.nodes.get(&reply.position) {
            None => reply.first,
            Some(node) if node.is_on_path => {
                MoverNumbers::decided(false, reply.position.to_move() == self.seeker)
            }
            Some(node) => node.numbers,
        }
    }

    /// What the replies of the last position of the path tell of it.
    fn outlook(&self, frame: &Frame) -> Outlook {
        let mut outlook = Outlook::NONE;
        for place in frame.replies..self.replies.len() {
            if let Some(reply) = self.replies.get(place) {
                outlook.add(place, self.numbers_of(reply));
            }
        }
        outlook
    }
}
