//! Filling a table backwards from lost positions.
ghost use Rattle.std.specs.Prelude.{◌≡◌, ◌^◌, IfOk};
ghost use Rattle.endgame_table.specs.Numbers.{AreBelow};
ghost use Rattle.strategy_certificate.specs.Tables.{IsTableSize};
ghost use Rattle.endgame_table.specs.Entries.{IsTable};

use crate::moves::{Moves, list_moves};
use crate::rounds::run_rounds;
use crate::table::Table;
use std::alloc::{AllocError, Global};

/// The table of 2 or of 3 pieces. Its numbers are below 2^24, but for that of no position.
pub fn fill(alloc: Global, pieces: u8) -> Result<Table, AllocError>
    requires { IsTableSize pieces }
    ensures pieces { IfOk result (λ t. t.pieces ≡ pieces) }
    ensures table { IfOk result (λ t. IsTable t.pieces t.numbers) }
    ensures small { IfOk result (λ t. AreBelow (2 ^ 24) t.numbers) }
{
    let moves = list_moves(alloc, pieces)?;
    let Moves {
        origins,
        mut waiting,
        mut numbers,
        lost,
    } = moves;
    run_rounds(alloc, &origins, lost, &mut waiting, &mut numbers)?;
    Ok(Table::of_sound(pieces, numbers))
}
