//! How squares, sides, moves and positions are printed for a person.
use crate::paths::Move;
use crate::pieces::{Cell, Side};
use crate::positions::Position;
use crate::squares::Square;
use std::fmt;

impl fmt::Display for Square {
    /// Its number.
    fn fmt<W: fmt::Write>(&self, f: &mut fmt::Formatter<W>) -> fmt::Result {
        write!(f, "{}", self.number())
    }
}

impl fmt::Display for Side {
    /// Its name.
    fn fmt<W: fmt::Write>(&self, f: &mut fmt::Formatter<W>) -> fmt::Result {
        f.write_str(match self {
            Side::Black => "Black",
            Side::White => "White",
        })
    }
}

impl fmt::Display for Move {
    /// Its squares, with `x` between those of a capture and `-` between those of a step: `1x10x17`,
    /// `23-19`.
    fn fmt<W: fmt::Write>(&self, f: &mut fmt::Formatter<W>) -> fmt::Result {
        let path = self.path();
        let between = if path[0].is_near(path[1]) { "-" } else { "x" };
        for (i, square) in path.iter().enumerate() {
            if i > 0 {
                f.write_str(between)?;
            }
            write!(f, "{square}")?;
        }
        Ok(())
    }
}

/// The letter of a side in FEN.
fn letter(side: Side) -> &'static str {
    match side {
        Side::Black => "B",
        Side::White => "W",
    }
}

/// Writes a side's letter and its pieces in rising order of square, with commas between them and a
/// `K` before each king.
fn write_pieces<W: fmt::Write>(f: &mut fmt::Formatter<W>, p: &Position, side: Side) -> fmt::Result {
    write!(f, ":{}", letter(side))?;
    let mut comma = "";
    for square in &Square::all() {
        let cell = p.at(*square);
        if cell.belongs_to(side) {
            let king = if matches!(cell, Cell::King(_)) {
                "K"
            } else {
                ""
            };
            write!(f, "{comma}{king}{square}")?;
            comma = ",";
        }
    }
    Ok(())
}

impl fmt::Display for Position {
    /// Its FEN, with White's pieces first: `B:W6,7,14,15:BK2`.
    fn fmt<W: fmt::Write>(&self, f: &mut fmt::Formatter<W>) -> fmt::Result {
        f.write_str(letter(self.to_move()))?;
        write_pieces(f, self, Side::White)?;
        write_pieces(f, self, Side::Black)
    }
}
