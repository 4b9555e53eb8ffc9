//! What a record spells: bytes, and between them positions, however these will be spelled.
ghost use Rattle.std.specs.Prelude.{◌≡◌, ◌++◌, OnOk};
ghost use Rattle.bench_records.specs.Positions.{short_text, side_byte, position_text};
ghost use Rattle.bench_records.specs.Names.{name_text, with_name, IsNamed};
ghost use Rattle.bench_records.specs.Woven.{GoesOn};

use crate::named::{Named, note_rule};
use crate::names::Names;
use draughts_board::{Position, Side};
use std::alloc::{AllocError, Global};
use std::marker::Model;

/// Bytes, and positions between them. A contract sees the list of both.
#[derive(Drop)]
pub struct Sheet {
    bytes: Vec<u8>,
    /// Each position, and how many of the bytes stand before it.
    names: Vec<(Position, usize)>,
}

impl Model for Sheet {
    ghost use Rattle.std.specs.Prelude.{length};
    ghost use Rattle.bench_records.specs.Names.{Sheet as Items};
    ghost use Rattle.bench_records.specs.Woven.{woven, AreRising};

    ghost Value = { Items };

    ghost view = { λ s. woven 0 s.bytes.items s.names.items };

    ghost invariant = { λ s. AreRising 0 (length s.bytes.items) s.names.items };
}

impl Sheet {
    ghost use Rattle.std.specs.Prelude.{◌≡◌, ◌++◌, ◌∷◌, [], ◌<◌, ◌^◌, length, IfOk, OnOk, OnErr};
    ghost use Rattle.draughts_board.specs.Board.{IsLawful};
    ghost use Rattle.bench_records.specs.Names.{mark, name, marks, full_text, short_sheet, named_by, IsNamed};
    ghost use Rattle.bench_records.specs.Woven.{GoesOn};

    /// An empty sheet.
    pub fn new(alloc: Global) -> Sheet
        ensures { result ≡ [] }
    {
        Sheet {
            bytes: Vec::new(alloc),
            names: Vec::new(alloc),
        }
    }

    /// Appends bytes.
    pub(crate) fn extend(&mut self, bytes: &[u8]) -> Result<(), AllocError>
        ensures { OnOk result (self.new ≡ self.old ++ marks bytes.now) }
    {
        self.bytes.extend_from_slice(bytes)?;
        Ok(())
    }

    /// Appends a byte.
    pub(crate) fn push(&mut self, byte: u8) -> Result<(), AllocError>
        ensures { OnOk result (self.new ≡ self.old ++ mark byte ∷ []) }
    {
        self.extend(&[byte])
    }

    /// Appends a position.
    pub(crate) fn name(&mut self, p: &Position) -> Result<(), AllocError>
        ensures text { OnOk result (self.new ≡ self.old ++ name p.now ∷ []) }
        ensures lawful { IsLawful p.now }
    {
        note_rule(p);
        self.names.push((*p, self.bytes.len()))?;
        Ok(())
    }

    /// A text that has this kind so far, and room for the sheet where each position is a number.
    fn begin_text(&self, alloc: Global, kind: u8) -> Result<Vec<u8>, AllocError>
        ensures { IfOk result (λ text. text.items ≡ kind ∷ []) }
    {
        let numbers = self.names.len().saturating_mul(4);
        let room = self.bytes.len().saturating_add(numbers).saturating_add(1);
        let mut text = Vec::with_capacity(alloc, room)?;
        text.push(kind)?;
        Ok(text)
    }

    /// The text of the sheet behind this kind, with each position in full.
    pub(crate) fn spell(&self, alloc: Global, kind: u8) -> Result<Vec<u8>, AllocError>
        ensures { IfOk result (λ text. text.items ≡ kind ∷ full_text self.now) }
    {
        let mut text = self.begin_text(alloc, kind)?;
        let mut from = 0;
        for i in 0..self.names.len() {
            let row = self.names[i];
            text.extend_from_slice(&self.bytes[from..row.1])?;
            push_position(&mut text, &row.0)?;
            from = row.1;
        }
        text.extend_from_slice(&self.bytes[from..])?;
        Ok(text)
    }

    /// The text of the sheet behind this kind, with each position by its number in the list. One that
    /// would need the number 2^32 - 1 is answered as want of memory.
    pub fn fill(&self, alloc: Global, kind: u8, named: &Named) -> Result<Vec<u8>, AllocError>
        ensures text { IfOk result (λ text. text.items ≡ kind ∷ short_sheet named.now self.now) }
        ensures few { IfOk result (λ text. length (named_by named.now self.now) < 2 ^ 32) }
    {
        let mut text = self.begin_text(alloc, kind)?;
        let mut names = Names::behind(alloc, named);
        let mut from = 0;
        for i in 0..self.names.len() {
            let row = self.names[i];
            text.extend_from_slice(&self.bytes[from..row.1])?;
            push_name(&mut text, &mut names, &row.0)?;
            from = row.1;
        }
        text.extend_from_slice(&self.bytes[from..])?;
        Ok(text)
    }

    /// The text of the sheet behind this kind, as `fill` gives it, whose positions the list has from
    /// then on. After want of memory the list is as it was. Each position is hashed once.
    pub fn write(&self, alloc: Global, kind: u8, named: &mut Named) -> Result<Vec<u8>, AllocError>
        ensures text { IfOk result (λ text. text.items ≡ kind ∷ short_sheet named.old self.now) }
        ensures names { OnOk result (named.new ≡ named_by named.old self.now) }
        ensures few { OnOk result (length named.new < 2 ^ 32) }
        ensures err { OnErr result (named.new ≡ named.old) }
    {
        let count = named.len();
        match self.write_noting(alloc, kind, named) {
            Ok(text) => Ok(text),
            Err(error) => {
                named.cut(count);
                Err(error)
            }
        }
    }

    /// The same, but that after want of memory the list may have gone on.
    fn write_noting(
        &self,
        alloc: Global,
        kind: u8,
        named: &mut Named,
    ) -> Result<Vec<u8>, AllocError>
        requires { IsNamed named.old }
        ensures text { IfOk result (λ text. text.items ≡ kind ∷ short_sheet named.old self.now) }
        ensures names { OnOk result (named.new ≡ named_by named.old self.now) }
        ensures named { IsNamed named.new }
        ensures front { GoesOn named.old named.new }
    {
        let mut text = self.begin_text(alloc, kind)?;
        let mut from = 0;
        for i in 0..self.names.len() {
            let row = self.names[i];
            text.extend_from_slice(&self.bytes[from..row.1])?;
            note_name(&mut text, named, &row.0)?;
            from = row.1;
        }
        text.extend_from_slice(&self.bytes[from..])?;
        Ok(text)
    }
}

/// Appends a number in 4 bytes.
fn push_short(text: &mut Vec<u8>, n: u32) -> Result<(), AllocError>
    ensures { OnOk result (text.new.items ≡ text.old.items ++ short_text n) }
{
    text.extend_from_slice(&n.to_be_bytes())
}

/// The byte for a side.
fn side_byte(side: Side) -> u8
    ensures { result ≡ side_byte side }
{
    match side {
        Side::Black => 0,
        Side::White => 1,
    }
}

/// Appends a position in full.
fn push_position(text: &mut Vec<u8>, p: &Position) -> Result<(), AllocError>
    ensures text { OnOk result (text.new.items ≡ text.old.items ++ position_text p.now) }
{
    text.push(side_byte(p.to_move()))?;
    for mask in p.masks() {
        push_short(text, mask)?;
    }
    Ok(())
}

/// Appends a position by its number. One that has none gets the next, and is spelled behind it.
fn push_name(text: &mut Vec<u8>, names: &mut Names<'_>, p: &Position) -> Result<(), AllocError>
    ensures text { OnOk result (text.new.items ≡ text.old.items ++ name_text names.old p.now) }
    ensures names { OnOk result (names.new ≡ with_name names.old p.now) }
    ensures named { IsNamed names.new }
{
    if let Some(n) = names.find(p) {
        return push_short(text, n);
    }
    let n = names.len();
    if n == u32::MAX {
        return Err(AllocError);
    }
    names.add(*p)?;
    push_short(text, n)?;
    push_position(text, p)?;
    Ok(())
}

/// Appends a position by its number, which it has in the list from then on.
fn note_name(text: &mut Vec<u8>, named: &mut Named, p: &Position) -> Result<(), AllocError>
    ensures text { OnOk result (text.new.items ≡ text.old.items ++ name_text named.old p.now) }
    ensures names { OnOk result (named.new ≡ with_name named.old p.now) }
    ensures named { IsNamed named.new }
    ensures front { GoesOn named.old named.new }
{
    let noted = named.note(*p)?;
    push_short(text, noted.0)?;
    if noted.1 {
        push_position(text, p)?;
    }
    Ok(())
}
