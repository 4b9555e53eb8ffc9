//! Writing a record in its texts.
ghost use Rattle.std.specs.Prelude.{◌≡◌, ◌++◌, ◌∷◌, [], ◌≤◌, ℕ, ◌<◌, ◌^◌, List, length, map, All, IfOk, OnOk};
ghost use Rattle.std.specs.List.{flat_map};
ghost use Rattle.strategy_certificate.specs.declared.certificates.Part.TheVariants as parts;
ghost use Rattle.strategy_certificate.specs.Certificates.{claim_of};
ghost use Rattle.draughts_board.specs.Board.{Board, IsLawful};
ghost use Rattle.bench_records.specs.Positions.{short_text, long_text};
ghost use Rattle.bench_records.specs.Texts.{choice_bytes, win_sheet, hold_sheet, claim_byte, part_sheet, certificate_sheet, record_sheet, full_kind, short_kind, ShowsEnough, HasShortCount, IsSoundRecord, IsFullText, IsShortText, IsTextFor};
ghost use Rattle.bench_records.specs.Names.{mark, name, marks};

use crate::named::Named;
use crate::records::BenchRecord;
use crate::sheet::Sheet;
use draughts_board::{Move, Position, Side};
use std::alloc::{AllocError, Global};
use strategy_certificate::{Certificate, Claim, HoldPart, Part, WinEntry, WinPart};

/// Appends a number in 4 bytes.
fn push_short(sheet: &mut Sheet, n: u32) -> Result<(), AllocError>
    ensures { OnOk result (sheet.new ≡ sheet.old ++ marks (short_text n)) }
{
    sheet.extend(&n.to_be_bytes())
}

/// Appends a number in 8 bytes.
fn push_long(sheet: &mut Sheet, n: u64) -> Result<(), AllocError>
    ensures { OnOk result (sheet.new ≡ sheet.old ++ marks (long_text n)) }
{
    sheet.extend(&n.to_be_bytes())
}

/// Appends a move, if one is chosen, or that none is.
fn push_choice(sheet: &mut Sheet, chosen: &Option<Move>) -> Result<(), AllocError>
    ensures { OnOk result (sheet.new ≡ sheet.old ++ marks (choice_bytes chosen.now)) }
{
    let Some(chosen) = chosen else {
        sheet.push(0)?;
        return Ok(());
    };
    let path = chosen.path();
    sheet.push(path.len() as u8)?;
    for square in path {
        sheet.push(square.number())?;
    }
    Ok(())
}

/// Appends an entry of a win part.
fn push_win(sheet: &mut Sheet, p: &Position, entry: &WinEntry) -> Result<(), AllocError>
    ensures { OnOk result (sheet.new ≡ sheet.old ++ win_sheet (p.now, entry.now)) }
{
    sheet.name(p)?;
    push_long(sheet, entry.rank)?;
    push_choice(sheet, &entry.chosen)
}

/// Appends an entry of a hold part.
fn push_hold(sheet: &mut Sheet, p: &Position, chosen: &Option<Move>) -> Result<(), AllocError>
    ensures { OnOk result (sheet.new ≡ sheet.old ++ hold_sheet (p.now, chosen.now)) }
{
    sheet.name(p)?;
    push_choice(sheet, chosen)
}

/// Appends the number of entries of a part. One of 2^32 or more is answered as want of memory.
fn push_count(sheet: &mut Sheet, count: usize) -> Result<(), AllocError>
    ensures text { OnOk result (sheet.new ≡ sheet.old ++ marks (short_text count)) }
    ensures fits { OnOk result (count < 2 ^ 32) }
{
    match u32::try_from(count) {
        Ok(count) => push_short(sheet, count),
        Err(_) => Err(AllocError),
    }
}

/// Appends a win part.
fn push_win_part(sheet: &mut Sheet, part: &WinPart) -> Result<(), AllocError>
    ensures text { OnOk result (sheet.new ≡ sheet.old ++ part_sheet (parts.Win part.now)) }
    ensures counted { OnOk result (HasShortCount (parts.Win part.now)) }
{
    push_count(sheet, part.len())?;
    for i in 0..part.len() {
        let (p, entry) = part.entry(i);
        push_win(sheet, &p, &entry)?;
    }
    Ok(())
}

/// Appends a hold part.
fn push_hold_part(sheet: &mut Sheet, part: &HoldPart) -> Result<(), AllocError>
    ensures text { OnOk result (sheet.new
        ≡ sheet.old ++ part_sheet (parts.Hold part.now)) }
    ensures counted { OnOk result (HasShortCount (parts.Hold part.now)) }
{
    push_count(sheet, part.len())?;
    for i in 0..part.len() {
        let (p, chosen) = part.entry(i);
        push_hold(sheet, &p, &chosen)?;
    }
    Ok(())
}

/// Appends a part.
fn push_part(sheet: &mut Sheet, part: &Part) -> Result<(), AllocError>
    ensures text { OnOk result (sheet.new ≡ sheet.old ++ part_sheet part.now) }
    ensures counted { OnOk result (HasShortCount part.now) }
{
    match part {
        Part::Win(part) => push_win_part(sheet, part),
        Part::Hold(part) => push_hold_part(sheet, part),
    }
}

/// The byte for a claim. A record shows no draw.
fn claim_byte(claim: Claim) -> u8
    ensures { result ≡ claim_byte claim }
{
    match claim {
        Claim::Win(Side::Black) => 1,
        Claim::Win(Side::White) => 2,
        Claim::Hold(Side::Black) => 3,
        Claim::Hold(Side::White) => 4,
        Claim::Draw => 0,
    }
}

/// Appends a certificate of one part.
fn push_certificate(sheet: &mut Sheet, c: &Certificate) -> Result<(), AllocError>
    requires { map claim_of c.now.parts ≡ c.now.claim ∷ [] }
    ensures text { OnOk result (sheet.new ≡ sheet.old ++ certificate_sheet c.now) }
    ensures counted { OnOk result (All HasShortCount c.now.parts) }
{
    sheet.push(claim_byte(c.claim))?;
    match c.parts.as_slice() {
        [part] => push_part(sheet, part),
        _ => unreachable!(),
    }
}

/// Appends certificates of one part each.
fn push_certificates(sheet: &mut Sheet, shown: &[Certificate]) -> Result<(), AllocError>
    requires { All (λ c. map claim_of c.parts ≡ c.claim ∷ []) shown.now }
    ensures text { OnOk result (sheet.new
        ≡ sheet.old ++ flat_map certificate_sheet shown.now) }
    ensures counted { OnOk result (All (λ c. All HasShortCount c.parts) shown.now) }
{
    for c in shown {
        push_certificate(sheet, c)?;
    }
    Ok(())
}

/// Appends what stands behind the kind of a record that solves a node.
fn push_solve(
    sheet: &mut Sheet,
    node: u64,
    position: &Position,
    shown: &[Certificate],
) -> Result<(), AllocError>
    requires few { length shown.now ≤ 4 }
    requires parts { All (λ c. map claim_of c.parts ≡ c.claim ∷ []) shown.now }
    ensures text { OnOk result (sheet.new ≡ sheet.old ++ (marks (long_text node)
        ++ name position.now ∷ mark (length shown.now)
        ∷ flat_map certificate_sheet shown.now)) }
    ensures lawful { OnOk result (IsLawful position.now) }
    ensures counted { OnOk result (All (λ c. All HasShortCount c.parts) shown.now) }
{
    push_long(sheet, node)?;
    sheet.name(position)?;
    sheet.push(shown.len() as u8)?;
    push_certificates(sheet, shown)
}

/// What stands behind the kind of a record, however its positions will be spelled. A part of 2^32
/// entries or more, which no text can say, is answered as want of memory.
pub fn sheet_of(alloc: Global, r: &BenchRecord) -> Result<Sheet, AllocError>
    requires { (pieces : ℕ) × ShowsEnough pieces r.now }
    ensures sheet { IfOk result (λ sheet. sheet ≡ record_sheet r.now) }
    ensures sound { OnOk result (IsSoundRecord r.now) }
{
    let mut sheet = Sheet::new(alloc);
    match r {
        BenchRecord::Begin(position) => sheet.name(position)?,
        BenchRecord::Solve {
            node,
            position,
            shown,
        } => push_solve(&mut sheet, *node, position, shown.as_slice())?,
        BenchRecord::Expand { node } => push_long(&mut sheet, *node)?,
    }
    Ok(sheet)
}

/// The kind of a record that spells positions by their numbers.
pub fn kind_of(r: &BenchRecord) -> u8
    ensures { result ≡ short_kind r.now }
{
    match r {
        BenchRecord::Begin(_) => 4,
        BenchRecord::Solve { .. } => 5,
        BenchRecord::Expand { .. } => 3,
    }
}

/// The text of version 2 of a record behind these positions. A part of 2^32 entries or more, and a
/// position that would need the number 2^32 - 1, are answered as want of memory.
pub fn encode(alloc: Global, r: &BenchRecord, named: &Named) -> Result<Vec<u8>, AllocError>
    requires { (pieces : ℕ) × ShowsEnough pieces r.now }
    ensures short { IfOk result (λ text. IsShortText named.now r.now text.items) }
    ensures text { IfOk result (λ text. (pieces : ℕ)
        → ShowsEnough pieces r.now → IsTextFor pieces named.now r.now text.items) }
{
    let sheet = sheet_of(alloc, r)?;
    sheet.fill(alloc, kind_of(r), named)
}

/// The kind of a record that spells positions in full.
fn full_kind_of(r: &BenchRecord) -> u8
    ensures { result ≡ full_kind r.now }
{
    match r {
        BenchRecord::Begin(_) => 1,
        BenchRecord::Solve { .. } => 2,
        BenchRecord::Expand { .. } => 3,
    }
}

/// The text of version 1 of a record, which is one behind any positions. A part of 2^32 entries or
/// more, which no text can say, is answered as want of memory.
pub fn encode_full(alloc: Global, r: &BenchRecord) -> Result<Vec<u8>, AllocError>
    requires { (pieces : ℕ) × ShowsEnough pieces r.now }
    ensures full { IfOk result (λ text. IsFullText r.now text.items) }
    ensures text { IfOk result (λ text. (pieces : ℕ) (named : List Board)
        → ShowsEnough pieces r.now → IsTextFor pieces named r.now text.items) }
{
    let sheet = sheet_of(alloc, r)?;
    sheet.spell(alloc, full_kind_of(r))
}
