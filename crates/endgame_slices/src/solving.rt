//! Slices are worked out one by one, each backwards from what leads out of it.
use crate::bits::Bits;
use crate::choices::Choices;
use crate::keys::{SliceKey, keys_below};
use crate::movers::king_steps;
use crate::outlooks::Surroundings;
use crate::slices::{Kings, Layout, Slice, Slices};
use crate::values::{MOST_VALUE, OPEN, is_won, one_more};
use crate::walks::Walk;
use draughts_board::Position;
use std::alloc::{AllocError, Global};
use strategy_certificate::Oracle;

/// A slice that is being worked out.
#[derive(Drop)]
struct Work<'s, 'o, O> {
    around: Surroundings<'s, 'o, O>,
    choices: &'s Choices,
    layout: Layout,
    /// The value of each position. One above the level that is worked at may still become lower.
    values: Vec<u8>,
    /// For how many steps of kings each position waits until it is lost; 0 where it does not wait.
    waiting: Vec<u8>,
    /// The greatest value so far.
    top: u8,
    /// Room for the positions after captures.
    next: Vec<Position>,
}

impl<O: Oracle> Work<'_, '_, O> {
    /// Writes the value of the position at this place.
    #[inline]
    fn set_value(&mut self, place: usize, value: u8) {
        if place < self.values.len() {
            self.values[place] = value;
        }
        self.top = self.top.max(value);
    }

    /// Gives each position the value that the moves out of the slice give it, and counts its other moves.
    fn begin(&mut self, alloc: Global) -> Result<(), AllocError> {
        let mut walk = Walk::of(&self.layout);
        for place in 0..self.values.len() {
            let outlook = self.around.look(alloc, walk.kings(), &mut self.next)?;
            self.set_value(place, outlook.value());
            if place < self.waiting.len() {
                self.waiting[place] = outlook.waits();
            }
            walk.advance();
        }
        Ok(())
    }

    /// Goes back from the positions of one value after the other, the lowest first. Each value is final when its turn comes.
    fn go_back(&mut self, alloc: Global) -> Result<(), AllocError> {
        for level in 1..MOST_VALUE {
            if level > self.top {
                break;
            }
            self.go_back_from(alloc, level)?;
        }
        Ok(())
    }

    /// Goes back from all positions of this value.
    fn go_back_from(&mut self, alloc: Global, level: u8) -> Result<(), AllocError> {
        for place in 0..self.values.len() {
            if self.values.get(place).copied() == Some(level) {
                let kings = self.layout.kings_at(place, self.choices);
                self.step_back(alloc, &kings, level)?;
            }
        }
        Ok(())
    }

    /// Takes back each step of a king to the position where the kings stand so, which has this value.
    fn step_back(&mut self, alloc: Global, kings: &Kings, level: u8) -> Result<(), AllocError> {
        let stepped = kings.to_move.other();
        let own = kings.of(stepped);
        let empty = self.around.empty(kings);
        for king in Bits(own) {
            for from in Bits(king_steps(king) & empty) {
                let before = Kings {
                    to_move: stepped,
                    ..kings.moved(stepped, own ^ king ^ from)
                };
                self.learn(alloc, &before, level)?;
            }
        }
        Ok(())
    }

    /// Notes that a step of a king leads from the position where the kings stand so to one of this value, if it may be made.
    #[inline]
    fn learn(&mut self, alloc: Global, kings: &Kings, level: u8) -> Result<(), AllocError> {
        let place = self.layout.place(kings, self.choices);
        let value = self.values.get(place).copied().unwrap_or(OPEN);
        if (value != OPEN && value <= one_more(level)) || self.around.has_jump(kings) {
            return Ok(());
        }
        if !is_won(level) {
            self.set_value(place, one_more(level));
            return Ok(());
        }
        self.count_down(alloc, place, kings, level)
    }

    /// One step less of the position at this place is not known to lose. After the last one it is lost.
    fn count_down(
        &mut self,
        alloc: Global,
        place: usize,
        kings: &Kings,
        level: u8,
    ) -> Result<(), AllocError> {
        let left = self.waiting.get(place).copied().unwrap_or(0);
        if left == 0 {
            return Ok(());
        }
        if place < self.waiting.len() {
            self.waiting[place] = left - 1;
        }
        if left == 1 {
            let outlook = self.around.look(alloc, kings, &mut self.next)?;
            self.set_value(place, one_more(outlook.slowest.max(level)));
        }
        Ok(())
    }
}

/// `count` zeros.
fn zeros(alloc: Global, count: u64) -> Result<Vec<u8>, AllocError> {
    let mut numbers = Vec::new(alloc);
    numbers.resize(count as usize, 0)?;
    Ok(numbers)
}

/// The slice with this key, whose moves lead to those below.
fn solve<O: Oracle>(
    alloc: Global,
    key: &SliceKey,
    below: &Slices,
    oracle: &O,
) -> Result<Slice, AllocError> {
    let choices = below.choices();
    let size = key.size(choices);
    let mut work = Work {
        around: Surroundings::of(alloc, below, key, oracle)?,
        choices,
        layout: Layout::of(key, choices),
        values: zeros(alloc, size)?,
        waiting: zeros(alloc, size)?,
        top: OPEN,
        next: Vec::new(alloc),
    };
    work.begin(alloc)?;
    work.go_back(alloc)?;
    Ok(Slice {
        layout: work.layout,
        values: work.values,
    })
}

/// Works out all positions below this one that are not there yet. False where all below it are more than `most`, of which
/// nothing is begun.
///
/// There are never more than `most` positions afterwards: what was there is forgotten first where they would be. What is
/// there is the same whatever was asked before, and good for searches with the same table alone.
pub fn solve_below<O: Oracle>(
    alloc: Global,
    p: &Position,
    most: u64,
    oracle: &O,
    slices: &mut Slices,
) -> Result<bool, AllocError> {
    let choices = Choices::new();
    let table_pieces = u32::from(oracle.pieces());
    let Some(keys) = keys_below(alloc, p, table_pieces, most, &choices)? else {
        return Ok(false);
    };
    if slices.position_count_with(&keys) > most {
        slices.clear();
    }
    for key in &keys {
        if slices.number_of(key).is_none() {
            let slice = solve(alloc, key, slices, oracle)?;
            slices.add(*key, slice)?;
        }
    }
    Ok(true)
}
