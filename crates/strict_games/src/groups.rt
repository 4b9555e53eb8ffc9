//! Games grouped by the position that they lead to.
ghost use Rattle.std.specs.Prelude.{IfOk};
ghost use Rattle.strict_games.specs.Groups.{IsGroupText};

use crate::draft::Draft;
use crate::printing::{Layout, Score};
use crate::ranges::listed;
use crate::tags::TagRefusal;
use draughts_board::Position;
use position_rows::PositionRows;
use std::alloc::{AllocError, Global};
use std::marker::Model;

/// Games by the position that they lead to: the positions in the order in which they came first, each
/// with the numbers of its games in the order in which they came. A position is looked up, not
/// searched for, and nobody who chooses the positions can make that slow.
#[derive(Drop)]
pub struct OpeningGroups {
    alloc: Global,
    positions: PositionRows<()>,
    /// The games of the position at the same place.
    games: Vec<Vec<u32>>,
}

impl Model for OpeningGroups {
    ghost use Rattle.std.specs.Prelude.{◌≡◌, ℕ, List, length, map};
    ghost use Rattle.std.specs.List.{zip};
    ghost use Rattle.draughts_board.specs.Board.{Board};
    ghost use Rattle.position_rows.specs.Rows.{positions_of};
    ghost use Rattle.strict_games.specs.Grouping.{Group};

    ghost Value = { List Group };

    ghost view = { λ g. zip (positions_of g.positions.entries) (map (λ games. games.items) g.games.items) };

    ghost invariant = { λ g. length g.games.items ≡ length g.positions.entries };
}

impl OpeningGroups {
    ghost use Rattle.std.specs.Prelude.{◌≡◌, ◌==◌, ◌∷◌, ◌++◌, [], false, OnOk, MatchOption, None, Some, length, map, slice_get};
    ghost use Rattle.std.specs.List.{list_any};
    ghost use Rattle.draughts_board.specs.Board.{same_board};
    ghost use Rattle.strict_games.specs.Grouping.{Group, grouped_with};

    /// No game.
    pub fn new(alloc: Global) -> OpeningGroups
        ensures { result ≡ [] }
    {
        OpeningGroups {
            alloc,
            positions: PositionRows::new(alloc),
            games: Vec::new(alloc),
        }
    }

    /// Adds the game of this number, which leads to this position. After want of memory the games of
    /// this position are not said.
    pub fn add(&mut self, position: Position, game: u32) -> Result<(), AllocError>
        ensures { OnOk result (self.new ≡ grouped_with self.old position game) }
    {
        match self.positions.place(&position) {
            Some(place) => {
                self.games[place].push(game)?;
                Ok(())
            }
            None => self.begin(position, game),
        }
    }

    /// Begins a group behind the others with the first game of its position.
    fn begin(&mut self, position: Position, game: u32) -> Result<(), AllocError>
        requires { list_any (same_board position) (map (λ group. group.0) self.old) ≡ false }
        ensures { OnOk result (self.new ≡ self.old ++ (position, game ∷ []) ∷ []) }
    {
        let games = vec![in self.alloc; game]?;
        self.games.reserve(1)?;
        self.positions.note(position, ())?;
        self.games.push_reserved(games);
        Ok(())
    }

    /// How many positions there are.
    pub fn len(&self) -> usize
        ensures { result ≡ length self.now }
    {
        self.games.len()
    }

    /// There is no position.
    pub fn is_empty(&self) -> bool
        ensures { result ≡ (length self.now == 0) }
    {
        self.games.is_empty()
    }

    /// The position of this place, from 0, and the numbers of its games.
    pub fn group(&self, place: usize) -> Option<(Position, &[u32])>
        ensures { MatchOption result (slice_get self.now place ≡ None)
            (λ group. slice_get self.now place ≡ Some (group.0, group.1.now)) }
    {
        let row = self.positions.as_slice().get(place)?;
        let games = self.games.get(place)?;
        Some((row.0, games.as_slice()))
    }
}

/// A game of one line that stands for all games that lead to a position: `[FEN ".."]`, and the tag
/// `Games` with their numbers as ranges, `12, 40-43`.
#[tactic(auto, using(crate::proofs::Grouped::games_taken))]
pub fn group_text(alloc: Global, position: &Position, games: &[u32]) -> Result<Vec<u8>, AllocError>
    ensures { IfOk result (λ text. IsGroupText position.now games.now text.items) }
{
    let mut draft = Draft::new(alloc, Some(*position));
    let list = listed(alloc, games)?;
    match draft.tag(b"Games", &list) {
        Ok(()) => draft.text(Score::Unknown, Layout::OneLine),
        Err(TagRefusal::Memory(error)) => Err(error),
        Err(_) => unreachable!(),
    }
}
