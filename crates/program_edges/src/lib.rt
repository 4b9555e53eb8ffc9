//! What every program of this repository does at its edges: the words of the command line, the
//! disks that words name, its source, and what it writes at the end.
//!
//! A `main` takes [`args`] and answers [`told`] itself. It takes [`Standards`] before it opens a
//! file, has a [`PathDisk`] made of each word that names one ([`Standards::disk_of`]), and hands
//! these to the program's own call. That call reads by [`read_source`] and writes by
//! [`write_answer`], for any refusal that is [`Refused`].
//!
//! Proved: the text of `--help` or `--version` is answered for that word alone. A disk by a word
//! keeps the clauses of `Disk`, and stands over the file at exactly that path, or over memory for
//! `-`. A source is read whole and up to its limit. What is written is the whole output with the
//! status that it has, or one line of a refusal with its status; where the sink fails, a front of
//! it. Games are those that the bytes of a source say, each with its opening, or a fault of theirs
//! stands.
//!
//! Tests: report_tests/src/answers.rt, report_tests/src/path_disks.rt
#![tactic(auto)]

mod answers;
mod command_line;
mod games;
mod keeping_source;
mod path_disk;
mod refused;
mod sources;
mod standard_streams;
mod standards;

pub use answers::{refuse, write_answer};
pub use command_line::{NO_WORDS, args, told, words_of};
pub use games::{OpenedText, read_openings};
pub use keeping_source::KeepingSource;
pub use path_disk::PathDisk;
pub use refused::Refused;
pub use sources::{MOST_GAMES_BYTES, hand_back, read_source};
pub use standard_streams::{print, tell};
pub use standards::Standards;
