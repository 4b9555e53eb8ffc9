//! `table`: the bytes of an endgame table.
ghost use Rattle.std.specs.Prelude.{◌≡◌, true, IfOk, IfErr};
ghost use Rattle.strategy_certificate.specs.Tables.{IsTableSize};
ghost use Rattle.opening_report.specs.declared.refusals.Refusal.TheVariants as refusals;
ghost use Rattle.bench_commands.specs.Tables.{AreTableBytes};
ghost use Rattle.bench_commands.specs.Steps.{SaysTrue};

use endgame_table::{fill, table_bytes};
use opening_report::{Refusal, Written};
use std::alloc::Global;

/// The bytes of the table of `pieces` pieces, 2 or 3.
pub(crate) fn table(alloc: Global, pieces: u8) -> Result<Written, Refusal>
    requires { IsTableSize pieces }
    ensures answers { IfOk result (λ output. AreTableBytes pieces output.text.items) }
    ensures settled { IfOk result (λ output. output.is_settled ≡ true) }
    ensures says { IfOk result (λ output. SaysTrue output.text.items) }
    ensures refused { IfErr result (λ r. r ≡ refusals.Memory) }
{
    let table = fill(alloc, pieces)?;
    Ok(Written::settled(table_bytes(alloc, &table)?))
}
