//! A plain reader of records, by docs/FORMATS.md alone. It searches its lists.
use std::alloc::{AllocError, Global};

/// A position in full.
pub type Spelled = [u8; 17];

/// What is answered of bytes.
#[derive(Clone, Copy, PartialEq, Eq, Debug)]
pub enum Answer {
    /// They are a record.
    Read,
    /// The first is no kind of record, or there is none.
    Kind,
    /// The field at this place is the first that is not whole or not allowed.
    Field(usize),
    /// Bytes follow the record from this place.
    Trailing(usize),
}

/// Why reading ends early.
enum Stop {
    /// At this field.
    Field(usize),
    /// For want of memory.
    Memory(AllocError),
}

impl From<AllocError> for Stop {
    fn from(error: AllocError) -> Stop {
        Stop::Memory(error)
    }
}

/// The number of these bytes, the most significant first.
fn number_of(field: &[u8]) -> u64 {
    let mut n: u64 = 0;
    for byte in field {
        n = n.wrapping_mul(256).wrapping_add(u64::from(*byte));
    }
    n
}

/// The 17 bytes are a position: its side is one, no square has two pieces, no side has more than 12, and no man stands on
/// the row on which he would be a king.
fn is_position(field: &[u8]) -> bool {
    if field.len() != 17 || field[0] > 1 {
        return false;
    }
    let black_men = number_of(&field[1..5]);
    let black_kings = number_of(&field[5..9]);
    let white_men = number_of(&field[9..13]);
    let white_kings = number_of(&field[13..17]);
    let (black, white) = (black_men | black_kings, white_men | white_kings);
    let apart = black_men & black_kings == 0 && white_men & white_kings == 0 && black & white == 0;
    let few = black.count_ones() <= 12 && white.count_ones() <= 12;
    apart && few && black_men & 0xf000_0000 == 0 && white_men & 15 == 0
}

/// Whether the list has the position.
fn has(list: &[Spelled], field: &[u8]) -> bool {
    list.iter().any(|p| p.as_slice() == field)
}

/// The 17 bytes of the field.
fn spelled(field: &[u8]) -> Spelled {
    let mut p = [0; 17];
    for (slot, byte) in p.iter_mut().zip(field) {
        *slot = *byte;
    }
    p
}

/// The bytes of a record, the place of the next, and the positions that were named.
#[derive(Drop)]
struct Reader<'a> {
    bytes: &'a [u8],
    at: usize,
    by_number: bool,
    named: &'a mut Vec<Spelled>,
}

impl<'a> Reader<'a> {
    /// The next bytes, this many.
    fn field(&mut self, width: usize) -> Result<&'a [u8], Stop> {
        let end = self.at.saturating_add(width);
        let Some(field) = self.bytes.get(self.at..end) else {
            return Err(Stop::Field(self.at));
        };
        self.at = end;
        Ok(field)
    }

    /// A number of this many bytes, in these bounds.
    fn number(&mut self, width: usize, least: u64, most: u64) -> Result<u64, Stop> {
        let at = self.at;
        let n = number_of(self.field(width)?);
        if n < least || n > most {
            return Err(Stop::Field(at));
        }
        Ok(n)
    }

    /// A position in full that is none of these.
    fn full(&mut self, others: &[Spelled]) -> Result<Spelled, Stop> {
        let at = self.at;
        let field = self.field(17)?;
        if !is_position(field) || has(others, field) {
            return Err(Stop::Field(at));
        }
        Ok(spelled(field))
    }

    /// A new position behind the next number.
    fn new_position(&mut self) -> Result<Spelled, Stop> {
        let at = self.at;
        let field = self.field(17)?;
        if !is_position(field) || has(self.named.as_slice(), field) {
            return Err(Stop::Field(at));
        }
        self.named.push(spelled(field)).map_err(AllocError::from)?;
        Ok(spelled(field))
    }

    /// A position, in full or by its number, that is none of these.
    fn position(&mut self, others: &[Spelled]) -> Result<Spelled, Stop> {
        if !self.by_number {
            return self.full(others);
        }
        let at = self.at;
        let last = (self.named.len() as u64).min(0xffff_fffe);
        let n = self.number(4, 0, last)?;
        match self.named.get(n as usize) {
            Some(p) if others.contains(p) => Err(Stop::Field(at)),
            Some(p) => Ok(*p),
            None => self.new_position(),
        }
    }

    /// A move.
    fn chosen(&mut self) -> Result<(), Stop> {
        let at = self.at;
        let count = self.number(1, 0, 13)?;
        if count == 1 {
            return Err(Stop::Field(at));
        }
        for _ in 0..count {
            self.number(1, 1, 32)?;
        }
        Ok(())
    }

    /// A certificate.
    fn certificate(&mut self, alloc: Global) -> Result<(), Stop> {
        let claim = self.number(1, 1, 4)?;
        let count = self.number(4, 0, u64::MAX)?;
        let mut part = Vec::new(alloc);
        for _ in 0..count {
            let p = self.position(part.as_slice())?;
            part.push(p).map_err(AllocError::from)?;
            if claim <= 2 {
                self.number(8, 0, 1 << 40)?;
            }
            self.chosen()?;
        }
        Ok(())
    }

    /// What stands behind a kind.
    fn behind(&mut self, alloc: Global, kind: u8) -> Result<(), Stop> {
        self.by_number = kind >= 4;
        if kind == 1 || kind == 4 {
            self.position(&[])?;
            return Ok(());
        }
        self.number(8, 0, u64::MAX)?;
        if kind == 3 {
            return Ok(());
        }
        self.position(&[])?;
        for _ in 0..self.number(1, 1, 4)? {
            self.certificate(alloc)?;
        }
        Ok(())
    }
}

/// What is answered of these bytes behind these positions. The list gets the positions that a record of version 2 spells,
/// also where it ends early.
pub fn plain_answer(
    alloc: Global,
    bytes: &[u8],
    named: &mut Vec<Spelled>,
) -> Result<Answer, AllocError> {
    let Some(kind) = bytes.first() else {
        return Ok(Answer::Kind);
    };
    if *kind < 1 || *kind > 5 {
        return Ok(Answer::Kind);
    }
    let mut reader = Reader {
        bytes,
        at: 1,
        by_number: false,
        named,
    };
    match reader.behind(alloc, *kind) {
        Ok(()) if reader.at == bytes.len() => Ok(Answer::Read),
        Ok(()) => Ok(Answer::Trailing(reader.at)),
        Err(Stop::Field(at)) => Ok(Answer::Field(at)),
        Err(Stop::Memory(error)) => Err(error),
    }
}
