//! The records of a journal, a line each, as text and as JSON.
//!
//! What stands in a line: the place of the record, what it does, the node and the position where it does it, what
//! it shows, and whether it is the last. How it is written stands in `specs/Records.antt` and `specs/Json.antt`:
//! ASCII alone, and no byte of the JSON needs an escape.
//!
//! Proved: [`records_text`] writes exactly the texts of `specs/`, of the records that a bench replayed.
#![tactic(auto)]

mod json;
mod lines;
mod lists;
mod spots;

pub use lists::records_text;
