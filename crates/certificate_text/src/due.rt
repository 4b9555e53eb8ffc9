//! What a reader has come to, and how a line leads on.
ghost use Rattle.std.specs.Prelude.{◌≡◌, ◌<◌, ◌^◌, ℕ, [], IfOk, IfErr, OnOk, OnErr};
ghost use Rattle.certificate_text.specs.Lines.{Line, line_text};
ghost use Rattle.certificate_text.specs.Text.{IsSoundPlace, IsOpenPlace};
ghost use Rattle.certificate_text.specs.Steps.{place_due, AddsLine, Advances, RefusesLine, settled, with_part};
ghost use Rattle.certificate_text.specs.Places.{at_position, at_part, at_entry};
ghost use Rattle.strategy_certificate.specs.declared.certificates.Certificate.{Certificate as Read};
ghost use Rattle.strategy_certificate.specs.declared.certificates.Part.TheVariants as parts;

use crate::lines::{
    Heading, claim_of, heading_of, hold_entry, is, position_field, table_of, win_entry,
};
use crate::refusal::TextRefusal;
use draughts_board::{Position, Side};
use fen_text::read_printed_fen;
use std::alloc::{AllocError, Global};
use strategy_certificate::{Certificate, Claim, HoldPart, Part, PartList, WinEntry, WinPart};

/// Which line is due next, and what the lines before it say.
#[derive(Drop)]
pub(crate) enum Due {
    /// The first line.
    Title,
    /// The number of pieces of the table.
    Table,
    /// The position, behind the number of pieces.
    Position(u8),
    /// The claim, behind the number of pieces and the position.
    Claim(u8, Position),
    /// A part's first line or `end`, behind the certificate so far.
    Part(Certificate),
    /// One of this number of further entries of the part, which is not yet among the certificate's.
    Entry(Certificate, Part, u32),
    /// No line: the certificate is whole.
    Nothing(Certificate),
}

/// The certificate with one more part.
fn with_part(c: Certificate, part: Part) -> Result<Certificate, AllocError>
    ensures { IfOk result (λ longer. longer ≡ with_part c part) }
{
    let mut parts = c.parts.into_vec();
    parts.push(part)?;
    Ok(Certificate {
        position: c.position,
        claim: c.claim,
        pieces: c.pieces,
        parts: PartList::from_vec(parts),
    })
}

/// What is due where `left` entries of the part are left.
fn settled(c: Certificate, part: Part, left: u32) -> Result<Due, AllocError>
    ensures { IfOk result (λ next. place_due next ≡ settled c part left) }
{
    if left == 0 {
        Ok(Due::Part(with_part(c, part)?))
    } else {
        Ok(Due::Entry(c, part, left))
    }
}

/// What is due behind the line of the position.
fn after_position(pieces: u8, number: usize, line: &[u8]) -> Result<Due, TextRefusal>
    ensures ok { IfOk result (λ next. Advances (at_position pieces) line.now (place_due next)) }
    ensures err { IfErr result (RefusesLine (at_position pieces) line.now number) }
{
    let Some(field) = position_field(line) else {
        return Err(TextRefusal::BadLine(number));
    };
    match read_printed_fen(field) {
        Some(p) => Ok(Due::Claim(pieces, p)),
        None => Err(TextRefusal::BadFen(number)),
    }
}

/// A certificate without parts.
fn without_parts(alloc: Global, pieces: u8, position: Position, claim: Claim) -> Certificate
    ensures { result ≡ record { position = position; claim = claim; pieces = pieces; parts = [] } }
{
    Certificate {
        position,
        claim,
        pieces,
        parts: PartList::from_vec(Vec::new(alloc)),
    }
}

/// A win part without entries.
fn new_win(alloc: Global, side: Side) -> Result<Part, AllocError>
    ensures { IfOk result (λ p. p ≡ parts.Win (record { side = side; entries = [] })) }
{
    Ok(Part::Win(WinPart::new(alloc, side)?))
}

/// A hold part without entries.
fn new_hold(alloc: Global, side: Side) -> Result<Part, AllocError>
    ensures { IfOk result (λ p. p ≡ parts.Hold (record { side = side; entries = [] })) }
{
    Ok(Part::Hold(HoldPart::new(alloc, side)?))
}

/// What is due behind a part's first line or the last line.
fn after_heading(
    alloc: Global,
    c: Certificate,
    number: usize,
    line: &[u8],
) -> Result<Due, TextRefusal>
    ensures ok { IfOk result (λ next. Advances (at_part c) line.now (place_due next)) }
    ensures err { IfErr result (RefusesLine (at_part c) line.now number) }
{
    match heading_of(line) {
        Some(Heading::Win(side, count)) => Ok(settled(c, new_win(alloc, side)?, count)?),
        Some(Heading::Hold(side, count)) => Ok(settled(c, new_hold(alloc, side)?, count)?),
        Some(Heading::End) => Ok(Due::Nothing(c)),
        None => Err(TextRefusal::BadLine(number)),
    }
}

/// Adds the entry of a line to a win part.
fn add_win(part: &mut WinPart, number: usize, line: &[u8]) -> Result<(), TextRefusal>
    ensures ok { OnOk result ((said : Line) × ((line.now ≡ line_text said)
        × AddsLine (parts.Win part.old) said (parts.Win part.new))) }
    ensures err { IfErr result (λ r. (c : Read) (left : ℕ)
        → RefusesLine (at_entry c (parts.Win part.old) left) line.now number r) }
{
    let Some((field, rank, chosen)) = win_entry(line) else {
        return Err(TextRefusal::BadLine(number));
    };
    let Some(p) = read_printed_fen(field) else {
        return Err(TextRefusal::BadFen(number));
    };
    match part.add_new(p, WinEntry { rank, chosen }) {
        Ok(true) => Ok(()),
        Ok(false) => Err(TextRefusal::Doubled(number)),
        Err(error) => Err(TextRefusal::Memory(error)),
    }
}

/// Adds the entry of a line to a hold part.
fn add_hold(part: &mut HoldPart, number: usize, line: &[u8]) -> Result<(), TextRefusal>
    ensures ok { OnOk result ((said : Line) × ((line.now ≡ line_text said)
        × AddsLine (parts.Hold part.old) said (parts.Hold part.new))) }
    ensures err { IfErr result (λ r. (c : Read) (left : ℕ)
        → RefusesLine (at_entry c (parts.Hold part.old) left) line.now number r) }
{
    let Some((field, chosen)) = hold_entry(line) else {
        return Err(TextRefusal::BadLine(number));
    };
    let Some(p) = read_printed_fen(field) else {
        return Err(TextRefusal::BadFen(number));
    };
    match part.add_new(p, chosen) {
        Ok(true) => Ok(()),
        Ok(false) => Err(TextRefusal::Doubled(number)),
        Err(error) => Err(TextRefusal::Memory(error)),
    }
}

/// What is due behind an entry line.
fn after_entry(
    c: Certificate,
    part: Part,
    left: u32,
    number: usize,
    line: &[u8],
) -> Result<Due, TextRefusal>
    requires { 0 < left }
    ensures ok { IfOk result (λ next. Advances (at_entry c part left) line.now (place_due next)) }
    ensures err { IfErr result (RefusesLine (at_entry c part left) line.now number) }
{
    match part {
        Part::Win(mut part) => match add_win(&mut part, number, line) {
            Ok(()) => Ok(settled(c, Part::Win(part), left - 1)?),
            Err(refusal) => Err(refusal),
        },
        Part::Hold(mut part) => match add_hold(&mut part, number, line) {
            Ok(()) => Ok(settled(c, Part::Hold(part), left - 1)?),
            Err(refusal) => Err(refusal),
        },
    }
}

/// What is due behind a line, which is line `number` of the text and stands where `due` is due.
pub(crate) fn after(alloc: Global, due: Due, number: usize, line: &[u8]) -> Result<Due, TextRefusal>
    requires sound { IsSoundPlace (place_due due) }
    requires open { IsOpenPlace (place_due due) }
    ensures ok { IfOk result (λ next. Advances (place_due due) line.now (place_due next)) }
    ensures err { IfErr result (RefusesLine (place_due due) line.now number) }
{
    match due {
        Due::Title if is(line, "certificate 1") => Ok(Due::Table),
        Due::Title => Err(TextRefusal::BadLine(number)),
        Due::Table => match table_of(line) {
            Some(pieces) => Ok(Due::Position(pieces)),
            None => Err(TextRefusal::BadLine(number)),
        },
        Due::Position(pieces) => after_position(pieces, number, line),
        Due::Claim(pieces, position) => match claim_of(line) {
            Some(claim) => Ok(Due::Part(without_parts(alloc, pieces, position, claim))),
            None => Err(TextRefusal::BadLine(number)),
        },
        Due::Part(c) => after_heading(alloc, c, number, line),
        Due::Entry(c, part, left) => after_entry(c, part, left, number, line),
        Due::Nothing(_) => unreachable!(),
    }
}
