//! How long chosen entries take to be read, beside ordinary ones.
use crate::choosing::{Choice, chosen_certificate};
use crate::making::entry_count;
use crate::records::{record_of, shown_by};
use anyhow::{Result, ensure};
use certificate_text::{print_certificate, read_certificate};
use std::alloc::Global;
use std::time::CpuClock;

/// How many entries are read without the clock.
const FEW: u32 = 2_000;

/// How many entries are timed: about 2, 5 and 20 million bytes of text.
const COUNTS: [u32; 3] = [90_000, 200_000, 760_000];

/// How often each is read; the best time counts.
const RUNS: u32 = 3;

/// Entries as a certificate's text, and as the record of a journal.
#[derive(Drop)]
struct Entries {
    text: Vec<u8>,
    record: Vec<u8>,
}

/// How long entries take to be read, in nanoseconds of the processor.
#[derive(Clone, Copy)]
struct Times {
    text: u128,
    record: u128,
}

/// So many entries, chosen so.
fn make_entries(alloc: Global, choice: Choice, count: u32) -> Result<Entries> {
    let c = chosen_certificate(alloc, choice, count)?;
    Ok(Entries {
        text: print_certificate(alloc, &c)?,
        record: record_of(alloc, c)?,
    })
}

/// Reads entries that are chosen so, and prints how many there are.
fn tell_choice(rt: &(impl Print + Alloc<A = Global>), name: &str, choice: Choice) -> Result<()> {
    let made = make_entries(rt.alloc(), choice, FEW)?;
    let read = entry_count(&read_certificate(rt.alloc(), &made.text)?);
    let shown = entry_count(&shown_by(rt.alloc(), &made.record)?);
    let text = made.text.len();
    let record = made.record.len();
    println!(rt; "{name}: {read} entries of {text} bytes, {shown} of a record of {record}")?;
    Ok(())
}

/// Reads a few entries, ordinary ones and those chosen against each table.
pub fn tell_chosen(rt: &(impl Print + Alloc<A = Global>)) -> Result<()> {
    tell_choice(rt, "ordinary", Choice::Ordinary)?;
    tell_choice(rt, "chosen against IndexMap", Choice::AgainstMap)?;
    tell_choice(rt, "chosen against windows", Choice::AgainstWindows)
}

/// How long `count` entries take to be read that are chosen so, by the best times.
fn read_times(
    rt: &(impl CpuClock + Alloc<A = Global>),
    choice: Choice,
    count: u32,
) -> Result<Times> {
    let made = make_entries(rt.alloc(), choice, count)?;
    let mut best = Times {
        text: u128::MAX,
        record: u128::MAX,
    };
    for _ in 0..RUNS {
        let start = rt.thread_cpu_time()?;
        let read = read_certificate(rt.alloc(), &made.text)?;
        let middle = rt.thread_cpu_time()?;
        let shown = shown_by(rt.alloc(), &made.record)?;
        let end = rt.thread_cpu_time()?;
        best.text = best.text.min(middle.saturating_sub(start).as_nanos());
        best.record = best.record.min(end.saturating_sub(middle).as_nanos());
        ensure!(
            entry_count(&read) == entry_count(&shown),
            "not all were read"
        );
    }
    Ok(best)
}

/// Prints the time of ordinary entries, that of chosen ones, and how many times as long they take.
fn tell_times(rt: &impl Print, what: &str, ordinary: u128, map: u128, windows: u128) -> Result<()> {
    let milliseconds = ordinary / 1_000_000;
    let map_hundredths = map.saturating_mul(100) / ordinary.max(1);
    let windows_hundredths = windows.saturating_mul(100) / ordinary.max(1);
    let map_times = map_hundredths / 100;
    let map_rest = map_hundredths % 100;
    let windows_times = windows_hundredths / 100;
    let windows_rest = windows_hundredths % 100;
    println!(rt;
        "  {what}: ordinary {milliseconds} ms, chosen against IndexMap {map_times}.{map_rest:02} times that, against windows {windows_times}.{windows_rest:02}"
    )?;
    Ok(())
}

/// Times entries of each count.
pub fn time_chosen(rt: &(impl Print + CpuClock + Alloc<A = Global>)) -> Result<()> {
    for count in COUNTS {
        let ordinary = read_times(rt, Choice::Ordinary, count)?;
        let map = read_times(rt, Choice::AgainstMap, count)?;
        let windows = read_times(rt, Choice::AgainstWindows, count)?;
        println!(rt; "{count} entries:")?;
        tell_times(rt, "text", ordinary.text, map.text, windows.text)?;
        tell_times(rt, "record", ordinary.record, map.record, windows.record)?;
    }
    Ok(())
}
