//! Reading the head and the numbers of a table.
ghost use Rattle.std.specs.Prelude.{◌≡◌, ◌<◌, ◌%◌, ◌^◌, ℕ, All, length, IfOk, MatchOption};
ghost use Rattle.std.specs.List.{flat_map};
ghost use Rattle.endgame_table.specs.Bytes.{number_bytes};
ghost use Rattle.table_checker.specs.Faults.{BeginsTable};

use shared_words::split_u32;
use std::alloc::{AllocError, Global};

/// For how many pieces the table is that begins with these bytes, 2 or 3; none where no table does.
pub(crate) fn pieces_of_head(bytes: &[u8]) -> Option<u8>
    ensures { MatchOption result ((k : ℕ) → BeginsTable k bytes.now → ⊥)
        (λ k. BeginsTable k bytes.now) }
{
    match bytes.strip_prefix(b"DRTABLE") {
        Some([pieces @ (2 | 3), ..]) => Some(*pieces),
        _ => None,
    }
}

/// The numbers that these bytes are, 4 bytes each.
pub(crate) fn read_numbers(alloc: Global, bytes: &[u8]) -> Result<Vec<u32>, AllocError>
    requires { length bytes.now % 4 ≡ 0 }
    ensures bytes { IfOk result (λ numbers. bytes.now ≡ flat_map number_bytes numbers.items) }
    ensures words { IfOk result (λ numbers. All (λ n. n < 2 ^ 32) numbers.items) }
{
    let mut numbers = Vec::with_capacity(alloc, bytes.len() / 4)?;
    let mut rest = bytes;
    while let Some((number, behind)) = split_u32(rest) {
        numbers.push(number)?;
        rest = behind;
    }
    Ok(numbers)
}
