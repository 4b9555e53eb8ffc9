//! The bytes of a table.
ghost use Rattle.std.specs.Prelude.{◌≡◌, IfOk};
ghost use Rattle.endgame_table.specs.Bytes.{bytes_of};

use crate::table::Table;
use std::alloc::{AllocError, Global};

/// `DRTABLE`, a byte with the number of pieces, and the number at each index in 4 bytes, the most significant first.
pub fn table_bytes(alloc: Global, t: &Table) -> Result<Vec<u8>, AllocError>
    ensures { IfOk result (λ bytes. bytes.items ≡ bytes_of t.now.pieces t.now.numbers) }
{
    let mut bytes = Vec::with_capacity(alloc, 8 + 4 * t.len())?;
    bytes.extend_from_slice(b"DRTABLE")?;
    bytes.push(t.pieces())?;
    for number in t.numbers() {
        bytes.extend_from_slice(&number.to_be_bytes())?;
    }
    Ok(bytes)
}
