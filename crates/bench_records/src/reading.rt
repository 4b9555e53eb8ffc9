//! Reading the text of a record.
ghost use Rattle.std.specs.Prelude.{◌≡◌, ◌≤◌, ◌^◌, [], ◌∷◌, false, IfOk, IfErr};
ghost use Rattle.std.specs.Bool.{OnFalse};
ghost use Rattle.shared_words.specs.Answers.{IsExact};
ghost use Rattle.strategy_certificate.specs.Parts.{HasEntry, positions_of};
ghost use Rattle.bench_records.specs.Formats.{one, position, SpellsValue};
ghost use Rattle.bench_records.specs.Names.{IsNamed};
ghost use Rattle.bench_records.specs.Texts.{IsTextFor};
ghost use Rattle.bench_records.specs.Orders.{many, win_order, hold_order, win_part_order, hold_part_order, part_order, certificate_order, begin_order, solve_order, expand_order, kind_order, record_order};
ghost use Rattle.bench_records.specs.Reading.{ReadsValue, RefusesRecord, ReadsPlain, RefusesPlain};
ghost use Rattle.bench_records.specs.Refusals.{IsRecordRefusal, record_wants_memory};

use crate::named::Named;
use crate::reader::Reader;
use crate::records::{BenchRecord, CertificateList, MOST_SHOWN};
use crate::refusal::RecordRefusal;
use draughts_board::{Move, Position, Side};
use std::alloc::{AllocError, Global};
use strategy_certificate::{
    Certificate, HoldPart, MOST_FOUND_RANK, Part, PartList, WinEntry, WinPart,
};

/// A position that has no entry in the win part.
fn win_position(reader: &mut Reader<'_>, part: &WinPart) -> Result<Position, RecordRefusal>
    ensures ok { IfOk result (λ p.
        ReadsValue (one (position (positions_of part.now.entries))) reader.old p reader.new) }
    ensures absent { IfOk result (λ p. ¬ HasEntry part.now.entries p) }
    ensures err { IfErr result (
        RefusesRecord (one (position (positions_of part.now.entries))) reader.old) }
{
    let spelled = reader.position()?;
    if part.find(&spelled.0).is_some() {
        return Err(RecordRefusal::BadField(spelled.1));
    }
    Ok(spelled.0)
}

/// A position that has no entry in the hold part.
fn hold_position(reader: &mut Reader<'_>, part: &HoldPart) -> Result<Position, RecordRefusal>
    ensures ok { IfOk result (λ p.
        ReadsValue (one (position (positions_of part.now.entries))) reader.old p reader.new) }
    ensures absent { IfOk result (λ p. ¬ HasEntry part.now.entries p) }
    ensures err { IfErr result (
        RefusesRecord (one (position (positions_of part.now.entries))) reader.old) }
{
    let spelled = reader.position()?;
    if part.find(&spelled.0).is_some() {
        return Err(RecordRefusal::BadField(spelled.1));
    }
    Ok(spelled.0)
}

/// An entry of a win part, behind those that the part has.
fn win_entry(reader: &mut Reader<'_>, part: &WinPart) -> Result<(Position, WinEntry), RecordRefusal>
    ensures ok { IfOk result (λ row.
        ReadsValue (win_order part.now.entries) reader.old row reader.new) }
    ensures absent { IfOk result (λ row. ¬ HasEntry part.now.entries row.0) }
    ensures rank { IfOk result (λ row. row.1.rank ≤ 2 ^ 40) }
    ensures err { IfErr result (RefusesRecord (win_order part.now.entries) reader.old) }
{
    let p = win_position(reader, part)?;
    let rank = reader.long(MOST_FOUND_RANK)?;
    let chosen = reader.choice()?;
    Ok((p, WinEntry { rank, chosen }))
}

/// An entry of a hold part, behind those that the part has.
fn hold_entry(
    reader: &mut Reader<'_>,
    part: &HoldPart,
) -> Result<(Position, Option<Move>), RecordRefusal>
    ensures ok { IfOk result (λ row.
        ReadsValue (hold_order part.now.entries) reader.old row reader.new) }
    ensures absent { IfOk result (λ row. ¬ HasEntry part.now.entries row.0) }
    ensures err { IfErr result (RefusesRecord (hold_order part.now.entries) reader.old) }
{
    let p = hold_position(reader, part)?;
    let chosen = reader.choice()?;
    Ok((p, chosen))
}

/// A win part of this side. Its memory grows with the bytes that are read, whatever count they
/// name.
fn win_part(alloc: Global, reader: &mut Reader<'_>, side: Side) -> Result<Part, RecordRefusal>
    ensures ok { IfOk result (λ part. ReadsValue (win_part_order side) reader.old part reader.new) }
    ensures err { IfErr result (RefusesRecord (win_part_order side) reader.old) }
{
    let count = reader.short()?;
    let mut part = WinPart::new(alloc, side)?;
    for _ in 0..count {
        let (p, entry) = win_entry(reader, &part)?;
        part.add(p, entry)?;
    }
    Ok(Part::Win(part))
}

/// A hold part of this side.
fn hold_part(alloc: Global, reader: &mut Reader<'_>, side: Side) -> Result<Part, RecordRefusal>
    ensures ok { IfOk result (λ part.
        ReadsValue (hold_part_order side) reader.old part reader.new) }
    ensures err { IfErr result (RefusesRecord (hold_part_order side) reader.old) }
{
    let count = reader.short()?;
    let mut part = HoldPart::new(alloc, side)?;
    for _ in 0..count {
        let (p, chosen) = hold_entry(reader, &part)?;
        part.add(p, chosen)?;
    }
    Ok(Part::Hold(part))
}

/// The part that shows what this byte claims.
fn part_of(alloc: Global, reader: &mut Reader<'_>, claim: u8) -> Result<Part, RecordRefusal>
    requires least { 1 ≤ claim }
    requires most { claim ≤ 4 }
    ensures ok { IfOk result (λ part. ReadsValue (part_order claim) reader.old part reader.new) }
    ensures err { IfErr result (RefusesRecord (part_order claim) reader.old) }
{
    match claim {
        1 => win_part(alloc, reader, Side::Black),
        2 => win_part(alloc, reader, Side::White),
        3 => hold_part(alloc, reader, Side::Black),
        _ => hold_part(alloc, reader, Side::White),
    }
}

/// A list of one part.
fn only(alloc: Global, part: Part) -> Result<PartList, AllocError>
    ensures { IfOk result (λ parts. parts ≡ part ∷ []) }
{
    let mut parts = Vec::new(alloc);
    parts.push(part)?;
    Ok(PartList::from_vec(parts))
}

/// A certificate of this position, by tables of `pieces` pieces.
fn certificate(
    alloc: Global,
    reader: &mut Reader<'_>,
    pieces: u8,
    position: Position,
) -> Result<Certificate, RecordRefusal>
    ensures ok { IfOk result (λ c.
        ReadsValue (certificate_order pieces position []) reader.old c reader.new) }
    ensures err { IfErr result (RefusesRecord (certificate_order pieces position []) reader.old) }
{
    let claim = reader.byte(1, 4)?;
    let part = part_of(alloc, reader, claim)?;
    Ok(Certificate {
        position,
        claim: part.claim(),
        pieces,
        parts: only(alloc, part)?,
    })
}

/// `count` certificates of this position.
fn certificates(
    alloc: Global,
    reader: &mut Reader<'_>,
    pieces: u8,
    position: Position,
    count: u8,
) -> Result<CertificateList, RecordRefusal>
    ensures ok { IfOk result (λ shown.
        ReadsValue (many count (certificate_order pieces position) [])
        reader.old shown reader.new) }
    ensures err { IfErr result (
        RefusesRecord (many count (certificate_order pieces position) []) reader.old) }
{
    let mut shown = Vec::new(alloc);
    for _ in 0..count {
        let next = certificate(alloc, reader, pieces, position)?;
        shown.push(next).map_err(AllocError::from)?;
    }
    Ok(CertificateList::from_vec(shown))
}

/// What stands behind the kind of a record that begins a root.
fn begin(reader: &mut Reader<'_>) -> Result<BenchRecord, RecordRefusal>
    ensures ok { IfOk result (λ r. ReadsValue begin_order reader.old r reader.new) }
    ensures err { IfErr result (RefusesRecord begin_order reader.old) }
{
    let spelled = reader.position()?;
    Ok(BenchRecord::Begin(spelled.0))
}

/// What stands behind the kind of a record that solves a node.
fn solve(alloc: Global, reader: &mut Reader<'_>, pieces: u8) -> Result<BenchRecord, RecordRefusal>
    ensures ok { IfOk result (λ r. ReadsValue (solve_order pieces) reader.old r reader.new) }
    ensures err { IfErr result (RefusesRecord (solve_order pieces) reader.old) }
{
    let node = reader.long(u64::MAX)?;
    let spelled = reader.position()?;
    let position = spelled.0;
    let count = reader.byte(1, MOST_SHOWN)?;
    let shown = certificates(alloc, reader, pieces, position, count)?;
    Ok(BenchRecord::Solve {
        node,
        position,
        shown,
    })
}

/// What stands behind the kind of a record that expands a node.
fn expand(reader: &mut Reader<'_>) -> Result<BenchRecord, RecordRefusal>
    ensures ok { IfOk result (λ r. ReadsValue expand_order reader.old r reader.new) }
    ensures err { IfErr result (RefusesRecord expand_order reader.old) }
{
    let node = reader.long(u64::MAX)?;
    Ok(BenchRecord::Expand { node })
}

/// What stands behind this kind.
fn behind_kind(
    alloc: Global,
    reader: &mut Reader<'_>,
    pieces: u8,
    kind: u8,
) -> Result<BenchRecord, RecordRefusal>
    requires least { 1 ≤ kind }
    requires most { kind ≤ 5 }
    requires full { reader.old.by_number ≡ false }
    ensures ok { IfOk result (λ r.
        ReadsPlain (kind_order reader.old.named pieces kind) reader.old r reader.new) }
    ensures err { IfErr result
        (RefusesPlain (kind_order reader.old.named pieces kind) reader.old) }
{
    match kind {
        1 => begin(reader),
        2 => solve(alloc, reader, pieces),
        3 => expand(reader),
        4 => {
            reader.take_numbers();
            begin(reader)
        }
        _ => {
            reader.take_numbers();
            solve(alloc, reader, pieces)
        }
    }
}

/// The record that these bytes spell, all of them, behind these positions.
fn record(
    alloc: Global,
    bytes: &[u8],
    pieces: u8,
    named: &Named,
) -> Result<BenchRecord, RecordRefusal>
    ensures spelled { IfOk result (SpellsValue (record_order named.now pieces) bytes.now) }
    ensures refused { IfErr result
        (λ e. OnFalse (record_wants_memory e) (IsRecordRefusal named.now pieces bytes.now e)) }
    ensures named { IsNamed named.now }
{
    let mut reader = Reader::new(alloc, bytes, named);
    let Ok(kind) = reader.byte(1, 5) else {
        return Err(RecordRefusal::BadKind);
    };
    let record = behind_kind(alloc, &mut reader, pieces, kind)?;
    if !reader.is_at_end() {
        return Err(RecordRefusal::Trailing(reader.place()));
    }
    Ok(record)
}

/// The record of which these bytes are a text, of version 1 or 2, in a journal for tables of
/// `pieces` pieces whose records before named these positions.
///
/// Bytes that are no record's text are refused for what goes wrong first ([`RecordRefusal`]); there
/// is one refusal of them, and none of the text of a record ([`crate::laws`]). Want of memory may
/// be answered for any bytes. A count of entries takes no memory: that grows with the bytes that
/// are there.
pub fn decode(
    alloc: Global,
    bytes: &[u8],
    pieces: u8,
    named: &Named,
) -> Result<BenchRecord, RecordRefusal>
    // The record that has this text, or what goes wrong first: exactly that, unless memory ran out.
    ensures { IsExact record_wants_memory (λ r. IsTextFor pieces named.now r bytes.now)
        (IsRecordRefusal named.now pieces bytes.now) result }
{
    record(alloc, bytes, pieces, named)
}
