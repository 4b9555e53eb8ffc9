//! An open file in memory that tells what it holds.
//!
//! [`MemoryFile`] is a file as a disk stands on it (`FileHandle` of `bench_disk`): it reads and writes at
//! most a number of bytes at a call, and may be new, so that a crash may leave anything of it until its
//! folder and then the file itself were synced.
//!
//! Proved: it keeps each clause of `FileHandle` with `TELLS` true. So the clauses over any honest file
//! speak of something, and a disk over this one (`HandleDisk`) is an honest disk.
//!
//! Tests: journal_tests/src/disks.rt
#![tactic(auto)]

mod changes;
mod held;

pub use held::MemoryFile;
