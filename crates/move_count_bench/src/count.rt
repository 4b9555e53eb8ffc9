//! The number of lists of legal moves.
ghost use Rattle.std.specs.Prelude.{◌≡◌, IfOk};
ghost use Rattle.move_count_bench.specs.Lists.{lists_of};

use crate::generator::Generator;
use draughts_board::Position;
use std::alloc::{AllocError, Global};

/// Why the lists were not counted.
#[derive(Debug, Drop, thiserror::Error)]
pub enum CountError {
    #[error("there are 2^64 lists or more")]
    TooMany,
    #[error("out of memory")]
    Memory(#[from] AllocError),
}

/// How many lists of n legal moves there are from the position. The last moves are counted, and not
/// made.
pub fn count(generator: Generator, alloc: Global, p: &Position, n: u32) -> Result<u64, CountError>
    ensures { IfOk result (λ lists. lists ≡ lists_of n p.now) }
{
    if n == 0 {
        return Ok(1);
    }
    let moves = generator.legal_moves(alloc, p)?;
    if n == 1 {
        return Ok(moves.len() as u64);
    }
    let mut lists = 0u64;
    for m in &moves {
        let behind = count(generator, alloc, &generator.apply(p, m), n - 1)?;
        lists = lists.checked_add(behind).ok_or(CountError::TooMany)?;
    }
    Ok(lists)
}
