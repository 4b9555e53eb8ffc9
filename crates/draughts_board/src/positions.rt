//! Positions: what stands on each square, and whose turn it is.
use crate::cells::{count_of, in_other_colours, least_misplaced};
use crate::masks::{
    are_allowed, are_apart, are_few, are_same, cell_in, cells_in, count_in, mask_of, paired, put_in,
};
use crate::pieces::{Cell, Side};
use crate::squares::Square;
use std::cmp::Ordering;
use std::hash::{Hash, Hasher};
use std::marker::Model;

/// Why cells are no position.
#[derive(Clone, Copy, PartialEq, Eq, Debug, thiserror::Error)]
pub enum PlaceRefusal {
    /// The side has more than 12 pieces; Black is counted first.
    #[error("{0} has more than 12 pieces")]
    TooMany(Side),
    /// A man stands on its farthest row, where it would be a king; this is the least such square.
    #[error("the man on {0} stands on its farthest row")]
    ManOnLastRow(Square),
}

/// A position of English draughts.
///
/// A contract sees it as a `Board`: 32 cells, that of square n at place n - 1, and the side to
/// move. Each position keeps the rule on pieces: at most 12 a side, no Black man on 29 to 32 and no
/// White man on 1 to 4.
#[derive(Clone, Copy, Debug)]
pub struct Position {
    // Masks in which square n is the bit of value 2^(n - 1); no square stands in two of them.
    black_men: u32,
    black_kings: u32,
    white_men: u32,
    white_kings: u32,
    to_move: Side,
}

impl Model for Position {
    ghost use Rattle.std.specs.Prelude.{[], ◌∷◌};
    ghost use Rattle.draughts_board.specs.Board.{Board};
    ghost use Rattle.draughts_board.specs.declared.pieces.Side.TheVariants.{Black, White};
    ghost use Rattle.draughts_board.specs.declared.pieces.Cell.TheVariants.{Man, King};
    ghost use Rattle.draughts_board.specs.Masks.{board_in, mask_of, MakePosition};
    ghost use Rattle.draughts_board.specs.MasksBack.{masks-back};

    ghost Value = { Board };

    ghost view = { λ p. board_in
        (p.black_men ∷ p.black_kings ∷ p.white_men ∷ p.white_kings ∷ []) p.to_move };

    ghost invariant = { λ p. MakePosition p.black_men p.black_kings p.white_men p.white_kings
        p.to_move };

    ghost inverse = { λ b. record {
      black_men = mask_of (Man Black) b.cells;
      black_kings = mask_of (King Black) b.cells;
      white_men = mask_of (Man White) b.cells;
      white_kings = mask_of (King White) b.cells;
      to_move = b.to_move;
    } };

    ghost inverse_ok = { λ p h i. let back =
        masks-back p.black_men p.black_kings p.white_men p.white_kings p.to_move h in
        record {
          black_men = back.0 i;
          black_kings = back.1 i;
          white_men = back.2 i;
          white_kings = back.3 i;
          to_move = p.to_move;
        } };
}

impl PartialEq for Position {
    ghost use Rattle.draughts_board.specs.Board.{same_board};
    ghost use Rattle.draughts_board.specs.Same.{same_board-laws};

    ghost eq = { same_board };

    ghost laws = { same_board-laws };

    fn eq(&self, other: &Position) -> bool {
        are_same(&self.masks(), &other.masks()) && self.to_move == other.to_move
    }
}

impl Eq for Position {
    ghost use Rattle.draughts_board.specs.Same.{same_board-equivalence};

    ghost laws = { same_board-equivalence };
}

impl Ord for Position {
    ghost use Rattle.draughts_board.specs.Order.{board_cmp, board_cmp-total, board_cmp-ties};
    ghost use Rattle.std.proofs.Common.{refl};

    ghost cmp = { board_cmp };

    ghost total = { board_cmp-total };

    ghost matches_partial_cmp = { λ x y. refl };

    ghost matches_eq = { board_cmp-ties };

    /// By what stands on square 1, then on square 2, and so on, and last by the side to move.
    fn cmp(&self, other: &Position) -> Ordering {
        self.cells()
            .cmp(&other.cells())
            .then(self.to_move.cmp(&other.to_move))
    }
}

impl PartialOrd for Position {
    ghost use Rattle.std.specs.Ordering.{as_partial_cmp};
    ghost use Rattle.draughts_board.specs.Order.{board_cmp, board_cmp-partial};

    ghost partial_cmp = { as_partial_cmp board_cmp };

    ghost laws = { board_cmp-partial };

    fn partial_cmp(&self, other: &Position) -> Option<Ordering> {
        Some(self.cmp(other))
    }
}

impl Hash for Position {
    ghost use Rattle.draughts_board.specs.Same.{hash_input_of, hash_input_of-respects};

    ghost hash_input = { hash_input_of };

    ghost respects_eq = { hash_input_of-respects };

    fn hash<H: Hasher>(&self, state: &mut H) {
        let [black_men, black_kings, white_men, white_kings] = self.masks();
        paired(black_men, black_kings).hash(state);
        paired(white_men, white_kings).hash(state);
        self.to_move.hash(state);
    }
}

impl Position {
    ghost use Rattle.std.specs.Prelude.{◌≡◌, ◌≤◌, ◌<◌, ◌↔◌, ℕ, not, replicate, IsTrue, IsOk, IfOk, IsSome, IfSome};
    ghost use Rattle.draughts_board.specs.Geometry.{IsSquare};
    ghost use Rattle.draughts_board.specs.Board.{IsLawful, IsLeastMisplaced, cell_at, is_empty, pieces, start_board, turned};
    ghost use Rattle.draughts_board.specs.Masks.{AreMasksOf, IsMaskOf, masks_of, are_apart, board_in};
    ghost use Rattle.draughts_board.specs.Rules.{put};

    /// The position with these cells, that of square n at place n - 1, and this side to move.
    ///
    /// Refused as `TooMany` exactly where that side has more than 12 pieces (Black is tried first),
    /// and else as `ManOnLastRow` exactly where this is the least square with a man on its farthest
    /// row.
    pub fn place(cells: [Cell; 32], to_move: Side) -> Result<Position, PlaceRefusal>
        ensures ok { IfOk result (λ p. p ≡ record { cells = cells; to_move = to_move }) }
        ensures black { (result ≡ Err (PlaceRefusal.TooMany Side.Black))
            ↔ (12 < pieces Side.Black cells) }
        ensures white { (result ≡ Err (PlaceRefusal.TooMany Side.White))
            ↔ ((pieces Side.Black cells ≤ 12) × (12 < pieces Side.White cells)) }
        ensures man { (s : ℕ) → (result ≡ Err (PlaceRefusal.ManOnLastRow s))
            ↔ ((pieces Side.Black cells ≤ 12) × (pieces Side.White cells ≤ 12)
            × IsLeastMisplaced cells s) }
        ensures lawful { IsOk result ↔ IsLawful (record { cells = cells; to_move = to_move }) }
    {
        if count_of(&cells, Side::Black) > 12 {
            return Err(PlaceRefusal::TooMany(Side::Black));
        }
        if count_of(&cells, Side::White) > 12 {
            return Err(PlaceRefusal::TooMany(Side::White));
        }
        match least_misplaced(&cells) {
            Some(square) => Err(PlaceRefusal::ManOnLastRow(square)),
            None => Ok(Position::of_lawful(cells, to_move)),
        }
    }

    /// The position with these cells, that of square n at place n - 1, where the caller knows that
    /// they keep the rule on pieces.
    pub fn of_lawful(cells: [Cell; 32], to_move: Side) -> Position
        requires { IsLawful (record { cells = cells; to_move = to_move }) }
        ensures { result ≡ record { cells = cells; to_move = to_move } }
    {
        Position {
            black_men: mask_of(Cell::Man(Side::Black), &cells),
            black_kings: mask_of(Cell::King(Side::Black), &cells),
            white_men: mask_of(Cell::Man(Side::White), &cells),
            white_kings: mask_of(Cell::King(Side::White), &cells),
            to_move,
        }
    }

    /// The masks of its pieces: Black's men, Black's kings, White's men and White's kings. Square n
    /// is the bit of value 2^(n - 1).
    #[inline]
    pub fn masks(&self) -> [u32; 4]
        ensures value { result ≡ masks_of self.now }
        ensures squares { AreMasksOf self.now result }
        ensures lawful { IsLawful self.now }
    {
        [
            self.black_men,
            self.black_kings,
            self.white_men,
            self.white_kings,
        ]
    }

    /// The mask of the squares on which a piece stands.
    #[inline]
    pub fn occupied(&self) -> u32
        ensures squares { IsMaskOf (λ n. not (is_empty (cell_at self.now n))) result }
        ensures lawful { IsLawful self.now }
    {
        let [black_men, black_kings, white_men, white_kings] = self.masks();
        black_men | black_kings | white_men | white_kings
    }

    /// The position with these masks, where the caller knows that no two of them share a square and
    /// that their pieces keep the rule.
    #[inline]
    pub fn of_lawful_masks(masks: [u32; 4], to_move: Side) -> Position
        requires apart { IsTrue (are_apart masks) }
        requires lawful { IsLawful (board_in masks to_move) }
        ensures { result ≡ board_in masks to_move }
    {
        Position::of_apart(&masks, to_move)
    }

    /// The position with these masks, as `of_lawful_masks` has it.
    #[inline]
    fn of_apart(masks: &[u32; 4], to_move: Side) -> Position
        requires apart { IsTrue (are_apart masks.now) }
        requires lawful { IsLawful (board_in masks.now to_move) }
        ensures value { result ≡ board_in masks.now to_move }
        ensures masks { masks_of result ≡ masks.now }
    {
        let [black_men, black_kings, white_men, white_kings] = *masks;
        Position {
            black_men,
            black_kings,
            white_men,
            white_kings,
            to_move,
        }
    }

    /// The position with these masks, in the order of `masks`, and this side to move; none exactly
    /// where a square stands in two of them, or their pieces break the rule.
    pub fn of_masks(masks: [u32; 4], to_move: Side) -> Option<Position>
        ensures some { IsSome result ↔ (IsTrue (are_apart masks)
            × IsLawful (board_in masks to_move)) }
        ensures value { IfSome result (λ p. p ≡ board_in masks to_move) }
        ensures masks { IfSome result (λ p. masks_of p ≡ masks) }
    {
        if are_apart(&masks) && are_few(&masks) && are_allowed(&masks) {
            Some(Position::of_apart(&masks, to_move))
        } else {
            None
        }
    }

    /// The position where this stands on the square and this side is to move, where the caller
    /// knows that it keeps the rule on pieces.
    #[inline]
    pub fn with(&self, square: Square, cell: Cell, to_move: Side) -> Position
        requires { IsLawful (record { cells = put self.now.cells square cell; to_move = to_move }) }
        ensures { result ≡ record { cells = put self.now.cells square cell; to_move = to_move } }
    {
        Position {
            black_men: put_in(self.black_men, Cell::Man(Side::Black), square, cell),
            black_kings: put_in(self.black_kings, Cell::King(Side::Black), square, cell),
            white_men: put_in(self.white_men, Cell::Man(Side::White), square, cell),
            white_kings: put_in(self.white_kings, Cell::King(Side::White), square, cell),
            to_move,
        }
    }

    /// The position without the piece on the square, if one stands there, and with the same side to
    /// move.
    #[inline]
    pub fn without(&self, square: Square) -> Position
        ensures { result ≡ record {
          cells = put self.now.cells square Cell.Empty;
          to_move = self.now.to_move;
        } }
    {
        self.with(square, Cell::Empty, self.to_move())
    }

    /// What stands on each square, that of square n at place n - 1.
    pub fn cells(&self) -> [Cell; 32]
        ensures value { result ≡ self.now.cells }
        ensures lawful { IsLawful self.now }
    {
        cells_in(&self.masks())
    }

    /// What stands on the square.
    #[inline]
    pub fn at(&self, s: Square) -> Cell
        ensures value { result ≡ cell_at self.now s }
        ensures lawful { IsLawful self.now }
        ensures square { IsSquare s }
    {
        cell_in(&self.masks(), s)
    }

    /// Whose turn it is.
    #[inline]
    pub fn to_move(&self) -> Side
        ensures value { result ≡ self.now.to_move }
        ensures lawful { IsLawful self.now }
    {
        self.to_move
    }

    /// How many pieces the side has, 0 to 12.
    #[inline]
    pub fn count(&self, side: Side) -> u8
        ensures value { result ≡ pieces side self.now.cells }
        ensures most { result ≤ 12 }
        ensures lawful { IsLawful self.now }
    {
        let [black_men, black_kings, white_men, white_kings] = self.masks();
        match side {
            Side::Black => count_in(black_men | black_kings) as u8,
            Side::White => count_in(white_men | white_kings) as u8,
        }
    }

    /// The board without pieces.
    #[inline]
    pub fn bare(to_move: Side) -> Position
        ensures { result ≡ record { cells = replicate 32 Cell.Empty; to_move = to_move } }
    {
        Position {
            black_men: 0,
            black_kings: 0,
            white_men: 0,
            white_kings: 0,
            to_move,
        }
    }

    /// The start of a game: Black on 1 to 12, White on 21 to 32, and Black to move.
    pub fn start() -> Position
        ensures { result ≡ start_board }
    {
        Position {
            black_men: 0x0000_0FFF,
            black_kings: 0,
            white_men: 0xFFF0_0000,
            white_kings: 0,
            to_move: Side::Black,
        }
    }

    /// The board turned by 180 degrees with the colours exchanged: what stood on square n stands in
    /// the other colour on 33 - n, and the other side is to move.
    pub fn turned(&self) -> Position
        ensures { result ≡ turned self.now }
    {
        let mut cells = in_other_colours(&self.cells());
        cells.reverse();
        Position::of_lawful(cells, self.to_move.other())
    }
}
