//! Reading fields from the front of bytes.
ghost use Rattle.std.specs.Prelude.{◌≡◌, ◌≢◌, ◌+◌, ◌<◌, ◌≤◌, ◌^◌, IfSome, IfNone, ◌++◌, length};
ghost use Rattle.bench_records.specs.Positions.{short_text, long_text, side_byte, position_text};
ghost use Rattle.bench_records.specs.Reading.{NoPosition};
ghost use Rattle.draughts_board.specs.Board.{IsLawful};

use crate::named::Named;
use crate::names::Names;
use crate::refusal::RecordRefusal;
use draughts_board::{Move, Position, Side, Square};
use shared_words::{split_u32, split_u64};
use std::alloc::Global;
use std::marker::Model;

/// The number of the first 4 bytes, the most significant first, and the bytes behind them.
fn split_short(bytes: &[u8]) -> Option<(u32, &[u8])>
    ensures some { IfSome result (λ cut.
        (cut.0 < 2 ^ 32) × (bytes.now ≡ short_text cut.0 ++ cut.1.now)) }
    ensures none { IfNone result (length bytes.now < 4) }
{
    split_u32(bytes)
}

/// The number of the first 8 bytes, the most significant first, and the bytes behind them.
fn split_long(bytes: &[u8]) -> Option<(u64, &[u8])>
    ensures some { IfSome result (λ cut.
        (cut.0 < 2 ^ 64) × (bytes.now ≡ long_text cut.0 ++ cut.1.now)) }
    ensures none { IfNone result (length bytes.now < 8) }
{
    split_u64(bytes)
}

/// The side that this byte stands for.
fn side_of(byte: u8) -> Option<Side>
    ensures some { IfSome result (λ side. byte ≡ side_byte side) }
    ensures none { IfNone result ((byte ≢ 0) × (byte ≢ 1)) }
{
    match byte {
        0 => Some(Side::Black),
        1 => Some(Side::White),
        _ => None,
    }
}

/// The position of the first 17 bytes, and the bytes behind them; none exactly where no position
/// begins the bytes.
fn split_position(bytes: &[u8]) -> Option<(Position, &[u8])>
    ensures some { IfSome result (λ cut.
        IsLawful cut.0 × (bytes.now ≡ position_text cut.0 ++ cut.1.now)) }
    ensures none { IfNone result (NoPosition bytes.now) }
{
    let (side, rest) = bytes.split_first()?;
    let to_move = side_of(*side)?;
    let (black_men, rest) = split_short(rest)?;
    let (black_kings, rest) = split_short(rest)?;
    let (white_men, rest) = split_short(rest)?;
    let (white_kings, rest) = split_short(rest)?;
    let p = Position::of_masks([black_men, black_kings, white_men, white_kings], to_move)?;
    Some((p, rest))
}

/// The bytes that are left, the place of the first of them, counted from 0, the positions named so
/// far, and whether positions are spelled by their numbers among them.
#[derive(Drop)]
pub(crate) struct Reader<'a> {
    left: &'a [u8],
    at: usize,
    names: Names<'a>,
    by_number: bool,
}

impl<'a> Model for Reader<'a> {
    ghost use Rattle.std.specs.Prelude.{◌+◌, ◌<◌, ◌^◌, length};
    ghost use Rattle.bench_records.specs.Reading.{Spot};

    ghost Value = { Spot };

    ghost view = { λ r. record {
      left = r.left.now;
      at = r.at;
      named = r.names;
      by_number = r.by_number;
    } };

    ghost invariant = { λ r. r.at + length r.left.now < 2 ^ 64 };
}

impl<'a> Reader<'a> {
    ghost use Rattle.std.specs.Prelude.{IfOk, IfErr, [], ◌==◌, List, Contains, true, false};
    ghost use Rattle.draughts_board.specs.Board.{Board};
    ghost use Rattle.bench_records.specs.Formats.{one, byte, short, long, position};
    ghost use Rattle.bench_records.specs.Names.{IsNamed};
    ghost use Rattle.bench_records.specs.Orders.{is_between, choice_order, many, square_order};
    ghost use Rattle.bench_records.specs.Reading.{ReadsValue, FailsFrom, RefusesRecord};

    /// A reader of these bytes from their first on, behind these positions; it reads them in full.
    pub(crate) fn new(alloc: Global, bytes: &'a [u8], named: &'a Named) -> Reader<'a>
        ensures value { result
            ≡ record { left = bytes.now; at = 0; named = named.now; by_number = false } }
        ensures named { IsNamed named.now }
    {
        Reader {
            left: bytes,
            at: 0,
            names: Names::behind(alloc, named),
            by_number: false,
        }
    }

    /// It reads positions by their numbers from now on.
    pub(crate) fn take_numbers(&mut self)
        ensures { self.new ≡ record {
          left = self.old.left;
          at = self.old.at;
          named = self.old.named;
          by_number = true;
        } }
    {
        self.by_number = true;
    }

    /// The place of the next byte.
    pub(crate) fn place(&self) -> usize
        ensures { result ≡ self.now.at }
    {
        self.at
    }

    /// No byte is left.
    pub(crate) fn is_at_end(&self) -> bool
        ensures { result ≡ (length self.now.left == 0) }
    {
        self.left.is_empty()
    }

    /// A byte from the one number to the other.
    pub(crate) fn byte(&mut self, least: u8, most: u8) -> Result<u8, RecordRefusal>
        ensures ok { IfOk result (λ n.
            ReadsValue (one (byte (is_between least most))) self.old n self.new) }
        ensures range { IfOk result (λ n. (least ≤ n) × (n ≤ most)) }
        ensures err { IfErr result (RefusesRecord (one (byte (is_between least most))) self.old) }
        ensures place { IfErr result (λ refusal. refusal ≡ RecordRefusal.BadField self.old.at) }
    {
        let Some((n, rest)) = self.left.split_first() else {
            return Err(RecordRefusal::BadField(self.at));
        };
        if *n < least || *n > most {
            return Err(RecordRefusal::BadField(self.at));
        }
        self.left = rest;
        self.at += 1;
        Ok(*n)
    }

    /// A number of 4 bytes.
    pub(crate) fn short(&mut self) -> Result<u32, RecordRefusal>
        ensures ok { IfOk result (λ n. ReadsValue (one short) self.old n self.new) }
        ensures err { IfErr result (RefusesRecord (one short) self.old) }
    {
        let Some((n, rest)) = split_short(self.left) else {
            return Err(RecordRefusal::BadField(self.at));
        };
        self.left = rest;
        self.at += 4;
        Ok(n)
    }

    /// A number of 8 bytes, which is at most this.
    pub(crate) fn long(&mut self, most: u64) -> Result<u64, RecordRefusal>
        ensures ok { IfOk result (λ n. ReadsValue (one (long most)) self.old n self.new) }
        ensures most { IfOk result (λ n. n ≤ most) }
        ensures err { IfErr result (RefusesRecord (one (long most)) self.old) }
    {
        let Some((n, rest)) = split_long(self.left) else {
            return Err(RecordRefusal::BadField(self.at));
        };
        if n > most {
            return Err(RecordRefusal::BadField(self.at));
        }
        self.left = rest;
        self.at += 8;
        Ok(n)
    }

    /// A square.
    fn square(&mut self) -> Result<Square, RecordRefusal>
        ensures ok { IfOk result (λ s. ReadsValue (square_order []) self.old s self.new) }
        ensures err { IfErr result (RefusesRecord (square_order []) self.old) }
    {
        let n = self.byte(1, 32)?;
        Ok(Square::new(n).unwrap())
    }

    /// A path of `count` squares.
    fn path(&mut self, count: u8) -> Result<Move, RecordRefusal>
        requires least { 2 ≤ count }
        requires most { count ≤ 13 }
        ensures ok { IfOk result (λ path.
            ReadsValue (many count square_order []) self.old path self.new) }
        ensures err { IfErr result (RefusesRecord (many count square_order []) self.old) }
    {
        let mut path = [Square::new(1).unwrap(); 13];
        for i in 0..count as usize {
            path[i] = self.square()?;
        }
        Ok(Move::of(&path[..count as usize]).unwrap())
    }

    /// The move that is chosen, if one is.
    pub(crate) fn choice(&mut self) -> Result<Option<Move>, RecordRefusal>
        ensures ok { IfOk result (λ chosen. ReadsValue choice_order self.old chosen self.new) }
        ensures err { IfErr result (RefusesRecord choice_order self.old) }
    {
        let at = self.at;
        let count = self.byte(0, 13)?;
        if count == 1 {
            return Err(RecordRefusal::BadField(at));
        }
        if count == 0 {
            return Ok(None);
        }
        Ok(Some(self.path(count)?))
    }

    /// A position that is spelled in full, and its place.
    fn full_position(&mut self) -> Result<(Position, usize), RecordRefusal>
        requires { self.old.by_number ≡ false }
        ensures read { IfOk result (λ r. (others : List Board) → ¬ Contains others r.0
            → ReadsValue (one (position others)) self.old r.0 self.new) }
        ensures taken { IfOk result (λ r. (others : List Board) → Contains others r.0
            → FailsFrom (one (position others)) self.old r.1) }
        ensures err { IfErr result (λ e. (others : List Board)
            → RefusesRecord (one (position others)) self.old e) }
    {
        let at = self.at;
        match split_position(self.left) {
            Some(cut) => {
                self.left = cut.1;
                self.at += 17;
                Ok((cut.0, at))
            }
            None => Err(RecordRefusal::BadField(at)),
        }
    }

    /// A position that is spelled by its number, and the place of what says which it is: of its
    /// number, or behind that of the position itself.
    fn numbered_position(&mut self) -> Result<(Position, usize), RecordRefusal>
        requires { self.old.by_number ≡ true }
        ensures read { IfOk result (λ r. (others : List Board) → ¬ Contains others r.0
            → ReadsValue (one (position others)) self.old r.0 self.new) }
        ensures taken { IfOk result (λ r. (others : List Board) → Contains others r.0
            → FailsFrom (one (position others)) self.old r.1) }
        ensures err { IfErr result (λ e. (others : List Board)
            → RefusesRecord (one (position others)) self.old e) }
    {
        let at = self.at;
        let Some((n, rest)) = split_short(self.left) else {
            return Err(RecordRefusal::BadField(at));
        };
        let count = self.names.len();
        if n > count || n == u32::MAX {
            return Err(RecordRefusal::BadField(at));
        }
        if n < count {
            let p = self.names.position(n);
            self.left = rest;
            self.at = at + 4;
            return Ok((p, at));
        }
        let Some(cut) = split_position(rest) else {
            return Err(RecordRefusal::BadField(at + 4));
        };
        if self.names.find(&cut.0).is_some() {
            return Err(RecordRefusal::BadField(at + 4));
        }
        self.names.add(cut.0)?;
        self.left = cut.1;
        self.at = at + 21;
        Ok((cut.0, at + 4))
    }

    /// A position, and the place of what says which it is: there a reader refuses it that has it
    /// already.
    pub(crate) fn position(&mut self) -> Result<(Position, usize), RecordRefusal>
        ensures read { IfOk result (λ r. (others : List Board) → ¬ Contains others r.0
            → ReadsValue (one (position others)) self.old r.0 self.new) }
        ensures taken { IfOk result (λ r. (others : List Board) → Contains others r.0
            → FailsFrom (one (position others)) self.old r.1) }
        ensures err { IfErr result (λ e. (others : List Board)
            → RefusesRecord (one (position others)) self.old e) }
    {
        if self.by_number {
            self.numbered_position()
        } else {
            self.full_position()
        }
    }
}
