//! Reading the source of a run.
ghost use Rattle.std.specs.Prelude.{◌≡◌, ◌+◌, None, IfOk, IfErr, IfSome, IsSome, OnOk};
ghost use Rattle.std.specs.Io.KnownBytes.{IsAtEnd};
ghost use Rattle.bench_edges.specs.KnownBytes.{ConsumesAtMost};
ghost use Rattle.program_edges.specs.Sources.{IsCutShort, IsInput};

use bench_edges::{Source, read_to_limit};
use opening_report::Refusal;
use std::alloc::Global;

/// The longest source of games that a program reads, in bytes.
pub const MOST_GAMES_BYTES: usize = 16_777_216;

/// Reads all that is left of the source, of which at most `limit` bytes may be left; nothing where
/// there is no limit, for a run that reads no source. Answers `TooLong` behind one byte more,
/// `Read` where the source failed, and `Memory`.
pub fn read_source<S: Source>(
    alloc: Global,
    limit: Option<usize>,
    source: &mut S,
) -> Result<Vec<u8>, Refusal>
    ensures input { IfOk result (λ bytes. IsInput limit (S.left source.old) bytes.items) }
    ensures end { OnOk result (IsSome limit → IsAtEnd (S.left source.new)) }
    ensures counted { OnOk result (S.faults source.new ≡ S.faults source.old) }
    ensures refused { IfErr result (IsCutShort limit (S.left source.old) (S.left source.new)
        (S.faults source.old) (S.faults source.new)) }
    ensures front { IfSome limit (λ most.
        ConsumesAtMost (most + 1) (S.left source.old) (S.left source.new)) }
    ensures unread { limit ≡ None → source.new ≡ source.old }
{
    match limit {
        Some(limit) => Ok(read_to_limit(alloc, source, limit)?),
        None => Ok(Vec::new(alloc)),
    }
}

/// Hands the bytes that were read by this limit back to their source. Where there is no limit, none
/// were read, and none go back.
pub fn hand_back<S: Source>(limit: Option<usize>, bytes: Vec<u8>, source: &mut S)
    ensures left { S.left source.new ≡ S.left source.old }
    ensures counted { S.faults source.new ≡ S.faults source.old }
    ensures unread { limit ≡ None → source.new ≡ source.old }
{
    if limit.is_some() {
        source.take_back(bytes);
    }
}
