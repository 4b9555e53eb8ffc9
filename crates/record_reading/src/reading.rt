//! Reading a record again.
ghost use Rattle.std.specs.Prelude.{◌≡◌, IfOk};
ghost use Rattle.bench_records.specs.declared.records.BenchRecord.{BenchRecord as Record};
ghost use Rattle.bench_records.specs.Names.{named_by};
ghost use Rattle.bench_records.specs.Texts.{IsTextFor, record_sheet};

use bench_records::{BenchRecord, Named, RecordRefusal, decode};
use std::alloc::{AllocError, Global};

/// The record of which these bytes are the text, of tables of `pieces` pieces and behind these positions.
fn decoded(
    alloc: Global,
    bytes: &[u8],
    pieces: u8,
    named: &Named,
) -> Result<BenchRecord, AllocError>
    requires { (r : Record) × IsTextFor pieces named.now r bytes.now }
    ensures { IfOk result (λ r. (s : Record) → IsTextFor pieces named.now s bytes.now → r ≡ s) }
{
    match decode(alloc, bytes, pieces, named) {
        Ok(record) => Ok(record),
        Err(RecordRefusal::Memory(error)) => Err(error),
        Err(RecordRefusal::BadKind) => unreachable!(),
        Err(RecordRefusal::BadField(_)) => unreachable!(),
        Err(RecordRefusal::Trailing(_)) => unreachable!(),
    }
}

/// The record of which these bytes are the text, of tables of `pieces` pieces and behind those that named these
/// positions. Those that it names itself stand among them from then on.
pub fn read_next(
    alloc: Global,
    bytes: &[u8],
    pieces: u8,
    named: &mut Named,
) -> Result<BenchRecord, AllocError>
    requires { (r : Record) × IsTextFor pieces named.old r bytes.now }
    ensures only { IfOk result (λ r. (s : Record) → IsTextFor pieces named.old s bytes.now → r ≡ s) }
    ensures names { IfOk result (λ r. named.new ≡ named_by named.old (record_sheet r)) }
{
    let record = decoded(alloc, bytes, pieces, named)?;
    named.add(&record)?;
    Ok(record)
}
