//! Where bytes come from.
ghost use Rattle.std.specs.Prelude.{◌≡◌, ◌+◌, ◌<◌, ◌≤◌, ◌++◌, ℕ, List, Option, length, take, IfErr, IfOk, IfSome, IsErrOf, OnOk, OnErr};
ghost use Rattle.std.specs.Io.KnownBytes.{Consumes, IsAtEnd, Keeps};
ghost use Rattle.bench_edges.specs.Faults.{CountsFaults};
ghost use Rattle.bench_edges.specs.KnownBytes.{ConsumesAtMost, ConsumesJust};
ghost use Rattle.bench_edges.specs.Reading.{IsRefusedFor, IsStopped};

use std::alloc::{AllocError, Global};
use thiserror::Error;

/// The source failed, and counted a fault.
#[derive(Clone, Copy, Debug, PartialEq, Eq, Error)]
#[error("the source failed")]
pub struct SourceFault;

/// Gives bytes, in order, each once.
pub trait Source {
    /// The bytes still to come, where the source tells them. One that told them goes on telling.
    ghost left: { Self → Option (List ℕ) };

    /// How often the source has failed, up to the last value of a `u64`. The count never falls.
    ghost faults: { Self → ℕ };

    /// Moves the first bytes that are left into the front of `into`, and answers how many: at least
    /// one, unless none is left. What stands in `into` behind them is not said. Answers
    /// `SourceFault` where the source failed; then it has what it had.
    fn read(&mut self, into: &mut [u8]) -> Result<usize, SourceFault>
        requires { 0 < length into.old }
        ensures bound { IfOk result (λ count. count ≤ length into.old) }
        ensures moved { IfOk result (λ count.
            Consumes (left self.old) (left self.new) (take count into.new)) }
        // None moved only where none is left. The converse follows by `moved`.
        ensures end { IfOk result (λ count. count ≡ 0 → IsAtEnd (left self.new)) }
        ensures kept { OnErr result (Keeps (left self.old) (left self.new)) }
        ensures faults { CountsFaults (faults self.old) (faults self.new) result };

    /// Is handed bytes that were read from it, by one who has done with them, and drops them. They
    /// do not come again.
    fn take_back(&mut self, _bytes: Vec<u8>)
        ensures left { left self.new ≡ left self.old }
        ensures faults { faults self.new ≡ faults self.old }
    {}
}

/// Why a source was not read to its end.
#[derive(Debug, Drop, Error)]
pub enum ReadRefusal {
    /// It has more bytes than may be.
    #[error("the source is longer than its limit")]
    TooLong,
    /// It failed, and counted a fault.
    #[error("the source failed")]
    Fault(SourceFault),
    /// There was no memory for its bytes.
    #[error("out of memory")]
    Memory(AllocError),
}

/// How many bytes are asked of a source at once, at most.
const CHUNK: usize = 4096;

/// Reads once, at most `most` bytes, and puts what came behind `bytes`. Answers how many came.
fn read_more<S: Source>(
    source: &mut S,
    bytes: &mut Vec<u8>,
    most: usize,
) -> Result<usize, ReadRefusal>
    requires { 0 < most }
    ensures bound { IfOk result (λ count. count ≤ most) }
    ensures len { IfOk result (λ count. length bytes.new.items ≡ length bytes.old.items + count) }
    ensures end { IfOk result (λ count. count ≡ 0 → IsAtEnd (S.left source.new)) }
    ensures moved { OnOk result ((front : List ℕ) × (bytes.new.items ≡ bytes.old.items ++ front)
        × Consumes (S.left source.old) (S.left source.new) front) }
    ensures ok { OnOk result (S.faults source.new ≡ S.faults source.old) }
    ensures lost { OnErr result (ConsumesAtMost most (S.left source.old) (S.left source.new)) }
    ensures cause { IfErr result (IsStopped (S.faults source.old) (S.faults source.new)) }
    ensures later { S.faults source.old ≤ S.faults source.new }
{
    let mut chunk = [0; CHUNK];
    let asked = most.min(CHUNK);
    let count = source
        .read(&mut chunk[..asked])
        .map_err(ReadRefusal::Fault)?;
    bytes
        .extend_from_slice(&chunk[..count])
        .map_err(ReadRefusal::Memory)?;
    Ok(count)
}

/// Reads all that is left, unless that is more than `limit` bytes. Answers `TooLong` there, with
/// one byte more than the limit read; `Fault` where the source failed; `Memory` where none was
/// left. After a refusal the bytes that were read are gone from the source.
pub fn read_to_limit<S: Source>(
    alloc: Global,
    source: &mut S,
    limit: usize,
) -> Result<Vec<u8>, ReadRefusal>
    ensures bytes { IfOk result (λ bytes. IfSome (S.left source.old) (λ left. bytes.items ≡ left)) }
    ensures moved { IfOk result (λ bytes.
        Consumes (S.left source.old) (S.left source.new) bytes.items) }
    ensures end { OnOk result (IsAtEnd (S.left source.new)) }
    ensures fits { IfOk result (λ bytes. length bytes.items ≤ limit) }
    ensures ok { OnOk result (S.faults source.new ≡ S.faults source.old) }

    // What was read: at most one byte past the limit, and just that byte where the source is too
    // long.
    ensures past { IsErrOf result ReadRefusal.TooLong →
        ConsumesJust (limit + 1) (S.left source.old) (S.left source.new) }
    ensures front { OnErr result
        (ConsumesAtMost (limit + 1) (S.left source.old) (S.left source.new)) }
    ensures cause { IfErr result
        (IsRefusedFor limit (S.left source.old) (S.faults source.old) (S.faults source.new)) }
    ensures later { S.faults source.old ≤ S.faults source.new }
{
    let mut bytes = Vec::new(alloc);
    while bytes.len() <= limit {
        let most = (limit - bytes.len()).min(CHUNK - 1) + 1;
        if read_more(source, &mut bytes, most)? == 0 {
            return Ok(bytes);
        }
    }
    Err(ReadRefusal::TooLong)
}
