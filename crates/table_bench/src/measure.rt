//! How long filling and checking a table take.
ghost use Rattle.strategy_certificate.specs.Tables.{IsTableSize};

use anyhow::Result;
use endgame_table::{fill, table_bytes};
use std::alloc::Global;
use std::rt::Clock;
use std::time::Instant;
use table_checker::check_table;

/// How often each is done; the best time counts.
const RUNS: u32 = 5;

/// Prints the best times of filling a table of `pieces` pieces and of checking its bytes, in
/// milliseconds.
pub fn time(rt: &(impl Print + Clock + Alloc<A = Global>), pieces: u8) -> Result<()>
    requires { IsTableSize pieces }
{
    let mut filling = u128::MAX;
    let mut checking = u128::MAX;
    for _ in 0..RUNS {
        let start = Instant::now(rt)?;
        let table = fill(rt.alloc(), pieces)?;
        filling = filling.min(start.elapsed(rt)?.as_millis());
        let bytes = table_bytes(rt.alloc(), &table)?;
        let start = Instant::now(rt)?;
        let _ = check_table(rt.alloc(), &bytes)?;
        checking = checking.min(start.elapsed(rt)?.as_millis());
    }
    println!(rt; "table {pieces}: filled in {filling} ms, checked in {checking} ms")?;
    Ok(())
}
