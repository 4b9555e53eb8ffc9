//! The records of a bench as bytes, both ways.
//!
//! A record is one step of a solution that a journal keeps: a root begins, a node is solved, or a
//! node is expanded. Its text of version 1 has each position in full. Its text of version 2 has in
//! place of a position its number in the list of those named before, and behind the number of none
//! the position itself (`specs/Texts.antt`, `specs/Names.antt`).
//!
//! Proved: `encode` writes the text of version 2 of a record behind a list of positions, and
//! `encode_full` that of version 1; each is refused for want of memory alone. What `decode` reads
//! behind a list is a text of the record there, of either version, and of no other. Each other
//! refusal names the kind, the first field that is not whole or not allowed, or the first byte
//! behind the record; there is one refusal of any bytes. A list has each position once, and grows
//! by those that a record names.
//!
//! Tests: text_tests/src/records.rt, text_tests/src/shared_positions.rt
#![tactic(auto)]

mod adding;
pub mod laws;
mod named;
mod names;
mod reader;
mod reading;
mod records;
mod refusal;
mod sheet;
mod writing;

pub use named::Named;
pub use reading::decode;
pub use records::{BenchRecord, CertificateList, MOST_SHOWN};
pub use refusal::RecordRefusal;
pub use sheet::Sheet;
pub use writing::{encode, encode_full, kind_of, sheet_of};
