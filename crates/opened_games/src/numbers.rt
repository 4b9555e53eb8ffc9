//! The numbers of games, by the positions that their openings lead to.
ghost use Rattle.std.specs.Prelude.{◌≡◌, ◌<◌, ◌++◌, ◌∷◌, [], ℕ, List, OnOk, Vec, length, ◌==◌, if◌then◌else◌};
ghost use Rattle.opened_games.specs.Numbers.{items_at};

use draughts_board::Position;
use position_rows::PositionRows;
use std::alloc::{AllocError, Global};

/// Lists of numbers by positions.
#[derive(Drop)]
pub(crate) struct Numbers {
    pub(crate) positions: PositionRows<()>,
    /// The list of each position, in the order of the rows.
    pub(crate) lists: Vec<Vec<u32>>,
}

/// Adds a number to the list at this place.
fn add_number(lists: &mut Vec<Vec<u32>>, place: usize, number: u32) -> Result<(), AllocError>
    requires { place < length lists.old.items }
    ensures lists { length lists.new.items ≡ length lists.old.items }
    ensures numbers { OnOk result ((k : ℕ) → items_at lists.new.items k
        ≡ (if place == k then items_at lists.old.items k ++ number ∷ [] else items_at lists.old.items k)) }
{
    lists[place].push(number)?;
    Ok(())
}

impl Numbers {
    ghost use Rattle.std.specs.Prelude.{◌≡◌, ◌++◌, ◌∷◌, [], List, OnOk, if◌then◌else◌};
    ghost use Rattle.draughts_board.specs.Board.{Board, same_board};
    ghost use Rattle.opened_games.specs.Numbers.{HaveLists, numbers_at};

    /// No numbers.
    pub(crate) fn new(alloc: Global) -> Numbers
        ensures lists { HaveLists result.positions.entries result.lists.items }
        ensures none { (q : Board) → numbers_at result.positions.entries result.lists.items q ≡ [] }
    {
        Numbers {
            positions: PositionRows::new(alloc),
            lists: Vec::new(alloc),
        }
    }

    /// Adds a number at the end of the list of a position.
    pub(crate) fn add(&mut self, alloc: Global, p: Position, number: u32) -> Result<(), AllocError>
        requires { HaveLists self.old.positions.entries self.old.lists.items }
        ensures lists { OnOk result (HaveLists self.new.positions.entries self.new.lists.items) }
        ensures numbers { OnOk result ((q : Board) →
            numbers_at self.new.positions.entries self.new.lists.items q
            ≡ numbers_at self.old.positions.entries self.old.lists.items q
            ++ (if same_board p q then number ∷ [] else [])) }
    {
        let (place, is_new) = self.positions.note(p, ())?;
        if is_new {
            self.lists.push(Vec::new(alloc))?;
        }
        add_number(&mut self.lists, place, number)?;
        Ok(())
    }

    /// The list of a position; an empty one where it has none.
    pub(crate) fn at(&self, p: &Position) -> &[u32]
        requires { HaveLists self.now.positions.entries self.now.lists.items }
        ensures { result.now ≡ numbers_at self.now.positions.entries self.now.lists.items p.now }
    {
        match self.positions.place(p) {
            Some(place) => self.lists[place].as_slice(),
            None => &[],
        }
    }
}
