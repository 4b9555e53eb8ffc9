//! How fast a large file is read, beside a plain copy of its bytes.
ghost use Rattle.std.specs.Prelude.{◌<◌};

use anyhow::{Context, Result, ensure};
use pdn_text::read_games;
use std::alloc::Global;
use std::fs;
use std::rt::{Clock, Files};
use std::time::Instant;

/// Bytes a second, if these take this number of nanoseconds.
fn rate(bytes: usize, nanoseconds: u128) -> u128 {
    (bytes as u128).saturating_mul(1_000_000_000) / nanoseconds.max(1)
}

/// Reads a file in parts of one length, five times, and copies it five times. Prints the best of
/// each.
pub(crate) fn time(
    rt: &(impl Files + Print + Clock + Alloc<A = Global>),
    name: &str,
    parts: usize,
) -> Result<()>
    requires { 0 < parts }
{
    let text = fs::read(rt, name).context(format_args!("reading {name}"))?;
    let part = text.len() / parts;
    ensure!(part > 0, "an empty file");
    let mut games = 0_usize;
    let mut reading = u128::MAX;
    let mut copying = u128::MAX;
    for _ in 0..5 {
        let start = Instant::now(rt)?;
        games = 0;
        for piece in text.as_slice().chunks(part) {
            games = games.saturating_add(read_games(rt.alloc(), piece)?.len());
        }
        reading = reading.min(start.elapsed(rt)?.as_nanos());
        let start = Instant::now(rt)?;
        let copy = Vec::from_slice(rt.alloc(), text.as_slice())?;
        copying = copying.min(start.elapsed(rt)?.as_nanos());
        ensure!(copy.len() == text.len(), "a short copy");
    }
    let bytes = text.len();
    let read_rate = rate(bytes, reading);
    let copy_rate = rate(bytes, copying);
    let times = copy_rate / read_rate.max(1);
    println!(rt; "read {bytes} bytes, {games} games: {read_rate} bytes a second")?;
    println!(rt; "copied {bytes} bytes: {copy_rate} bytes a second")?;
    println!(rt; "the copy is {times} times as fast")?;
    Ok(())
}
