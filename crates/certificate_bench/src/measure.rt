//! How fast a certificate is read and checked.
use crate::making::entry_count;
use anyhow::{Result, ensure};
use certificate_checker::check;
use certificate_text::read_certificate;
use endgame_table::Table;
use std::alloc::Global;
use std::rt::Clock;
use std::time::Instant;

/// How often each is done; the best time counts.
const RUNS: u32 = 5;

/// Entries a second, if these take this number of nanoseconds.
fn rate(entries: usize, nanoseconds: u128) -> u128 {
    (entries as u128).saturating_mul(1_000_000_000) / nanoseconds.max(1)
}

/// Prints how many entries a second of this text are read, and how many are checked by the table,
/// by the best times.
pub fn time(
    rt: &(impl Print + Clock + Alloc<A = Global>),
    text: &[u8],
    table: &Table,
) -> Result<()> {
    let mut entries = 0_usize;
    let mut reading = u128::MAX;
    let mut checking = u128::MAX;
    for _ in 0..RUNS {
        let start = Instant::now(rt)?;
        let read = read_certificate(rt.alloc(), text)?;
        reading = reading.min(start.elapsed(rt)?.as_nanos());
        ensure!(read.pieces == table.pieces(), "not the table that it names");
        let start = Instant::now(rt)?;
        let proved = check(rt.alloc(), read, table).map_err(|refused| refused.1)?;
        checking = checking.min(start.elapsed(rt)?.as_nanos());
        entries = entry_count(proved.certificate());
    }
    let read_rate = rate(entries, reading);
    let check_rate = rate(entries, checking);
    println!(rt; "read {entries} entries: {read_rate} entries a second")?;
    println!(rt; "checked {entries} entries: {check_rate} entries a second")?;
    Ok(())
}
