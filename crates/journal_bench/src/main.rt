//! Commits payloads to a journal, 1, 4 and 64 at a time.
//!
//! Without words it does so in memory and on a file in the folder that it runs in, and prints how
//! many payloads stand in the journal, how many calls the disk had, how many bytes it holds and how
//! many payloads are read back; then it commits one payload of a megabyte. With the words `time
//! PATH` it prints commits and payloads a second on a file at that path and in memory, and beside
//! them how often a second the same bytes are written and synced there without a journal.
#![tactic(auto)]

mod commits;
mod measure;

use anyhow::Result;
use bench_disk::{FileDisk, MemoryDisk};
use commits::{LONG, SHORT, tell};
use std::{env, fs};

/// How many payloads are committed at a time.
pub const AT_ONCE: [usize; 3] = [1, 4, 64];

/// The file for the runs without words.
const FILE: &str = "journal_bench.journal";

fn main(rt: HostRuntime) -> Result<()> {
    let alloc = rt.alloc();
    let mut words = env::args(&rt)?;
    if let (Some(word), Some(path)) = (words.nth(1), words.next())
        && word.as_str() == "time"
    {
        return measure::time(&rt, path.as_str());
    }
    for at_once in AT_ONCE {
        tell(&rt, "memory", MemoryDisk::new(alloc), SHORT, at_once, 48)?;
    }
    tell(&rt, "memory", MemoryDisk::new(alloc), LONG, 1, 1)?;
    for at_once in AT_ONCE {
        let _ = fs::remove_file(&rt, FILE);
        let disk = FileDisk::new(&rt, String::from_str(alloc, FILE)?);
        tell(&rt, "file", disk, SHORT, at_once, 48)?;
    }
    fs::remove_file(&rt, FILE)?;
    Ok(())
}
