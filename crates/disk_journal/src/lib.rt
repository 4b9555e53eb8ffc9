//! A journal of payloads on a disk, which a crash at any moment cannot spoil.
//!
//! The bytes are a head of 8 bytes, `DRBENCH` and the pieces of the endgame tables that the journal
//! is for, and behind it frames. Before each frame stands a gate of one byte: 1 is open, and behind
//! it stand the length of a body, in 8 bytes with the greatest first, and the body, which is one
//! payload or more, each behind its length in 4 bytes. Any other gate is closed, and what stands
//! behind it is never read. A file of at most 9 bytes is fresh: it is taken as a new journal,
//! whatever its bytes are.
//!
//! [`Journal::commit`] writes all that is staged as one frame behind the closed gate, with the next
//! gate closed behind it, makes that durable, and only then opens the gate.
//!
//! Proved, of an honest disk: the payloads read are exactly those of the file, and a refusal is
//! exactly what is wrong with it. Every image that a crash since a [`Receipt`]'s moment may leave
//! holds all that was acknowledged by then, and of what is being committed all or none. Of every
//! disk: a commit raises the moment by at most four, a fault is answered only where the disk
//! counted it, and a refused journal hands its disk back.
//!
//! Tests: journal_tests/src/journals.rt
#![tactic(auto)]

mod append;
mod body;
mod frame;
mod gate;
mod journal;
mod load;
mod payload;
mod reader;
mod refusal;

pub use journal::{Journal, Receipt};
pub use load::{MOST_FRESH, read_journal};
pub use payload::Payload;
pub use refusal::JournalRefusal;
