//! A list of positions gets those that a record names.
ghost use Rattle.std.specs.Prelude.{◌≡◌, OnOk, OnErr};
ghost use Rattle.std.specs.List.{flat_map};
ghost use Rattle.strategy_certificate.specs.declared.certificates.Part.TheVariants as parts;
ghost use Rattle.bench_records.specs.Names.{named_by, with_name};
ghost use Rattle.bench_records.specs.Texts.{part_sheet, certificate_sheet, record_sheet};
ghost use Rattle.bench_records.specs.Woven.{GoesOn};

use crate::named::Named;
use crate::records::BenchRecord;
use draughts_board::Position;
use std::alloc::AllocError;
use strategy_certificate::{Certificate, HoldPart, Part, WinPart};

/// Notes the positions of a win part.
fn note_wins(named: &mut Named, part: &WinPart) -> Result<(), AllocError>
    ensures names { OnOk result
        (named.new ≡ named_by named.old (part_sheet (parts.Win part.now))) }
    ensures front { GoesOn named.old named.new }
{
    for i in 0..part.len() {
        let (p, _) = part.entry(i);
        named.note(p)?;
    }
    Ok(())
}

/// Notes the positions of a hold part.
fn note_holds(named: &mut Named, part: &HoldPart) -> Result<(), AllocError>
    ensures names { OnOk result
        (named.new ≡ named_by named.old (part_sheet (parts.Hold part.now))) }
    ensures front { GoesOn named.old named.new }
{
    for i in 0..part.len() {
        let (p, _) = part.entry(i);
        named.note(p)?;
    }
    Ok(())
}

/// Notes the positions of a part.
fn note_part(named: &mut Named, part: &Part) -> Result<(), AllocError>
    ensures names { OnOk result (named.new ≡ named_by named.old (part_sheet part.now)) }
    ensures front { GoesOn named.old named.new }
{
    match part {
        Part::Win(part) => note_wins(named, part),
        Part::Hold(part) => note_holds(named, part),
    }
}

/// Notes the positions of a certificate's parts.
fn note_certificate(named: &mut Named, c: &Certificate) -> Result<(), AllocError>
    ensures names { OnOk result (named.new ≡ named_by named.old (certificate_sheet c.now)) }
    ensures front { GoesOn named.old named.new }
{
    for part in c.parts.as_slice() {
        note_part(named, part)?;
    }
    Ok(())
}

/// Notes the positions of certificates.
fn note_shown(named: &mut Named, shown: &[Certificate]) -> Result<(), AllocError>
    ensures names { OnOk result
        (named.new ≡ named_by named.old (flat_map certificate_sheet shown.now)) }
    ensures front { GoesOn named.old named.new }
{
    for c in shown {
        note_certificate(named, c)?;
    }
    Ok(())
}

/// Notes the position of a node that is solved, and those of the certificates.
fn note_solve(
    named: &mut Named,
    position: &Position,
    shown: &[Certificate],
) -> Result<(), AllocError>
    ensures names { OnOk result (named.new ≡ named_by (with_name named.old position.now)
        (flat_map certificate_sheet shown.now)) }
    ensures front { GoesOn named.old named.new }
{
    named.note(*position)?;
    note_shown(named, shown)
}

/// Notes the positions that a record names.
fn note_record(named: &mut Named, r: &BenchRecord) -> Result<(), AllocError>
    ensures names { OnOk result (named.new ≡ named_by named.old (record_sheet r.now)) }
    ensures front { GoesOn named.old named.new }
{
    match r {
        BenchRecord::Begin(position) => {
            named.note(*position)?;
            Ok(())
        }
        BenchRecord::Solve {
            position,
            shown,
            ..
        } => note_solve(named, position, shown.as_slice()),
        BenchRecord::Expand { .. } => Ok(()),
    }
}

impl Named {
    /// Appends the positions that the record names and that are not there, in the order in which it
    /// names them. After want of memory the list is as it was.
    pub fn add(&mut self, r: &BenchRecord) -> Result<(), AllocError>
        ensures names { OnOk result (self.new ≡ named_by self.old (record_sheet r.now)) }
        ensures err { OnErr result (self.new ≡ self.old) }
    {
        let count = self.len();
        match note_record(self, r) {
            Ok(()) => Ok(()),
            Err(error) => {
                self.cut(count);
                Err(error)
            }
        }
    }
}
