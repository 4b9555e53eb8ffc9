//! What proves a value: answers of endgame tables, the parts of certificates, and certificates.
//!
//! A table of answers is sound by a condition on single entries, and a certificate is good by
//! conditions on single entries of its parts (`specs/Tables.antt`, `specs/Certificates.antt`). An
//! [`Oracle`] is whatever answers as a sound table does.
//!
//! Proved: what a sound table shows is true by the definition of who wins, and there is one sound
//! table for each number of pieces. The claim of a good certificate is true. Parts have exact lists
//! of entries: one is added only if its position has none, a part is cut back to its first entries,
//! and parts are merged exactly. `table_rank`, `table_holds` and `is_held` say exactly what a table
//! shows for a side, and what a hold part shows beside it. Each rank in a sound table of at most
//! three pieces is below 651,010. So a good win part stays good where its ranks are replaced, in
//! their order, by the short ones from 2^32 on.
//!
//! Tests: proof_tests/src/parts.rt
#![tactic(auto)]

mod certificates;
mod claims;
mod entries;
pub mod examples;
mod hold_parts;
pub mod laws;
mod merging;
mod oracle;
mod rows;
mod shortening;
mod shown;
mod win_parts;

pub use certificates::{Certificate, Part, PartList};
pub use claims::Claim;
pub use entries::{MOST_FOUND_RANK, MOST_RANK, WinEntry};
pub use hold_parts::{HoldPart, merge_holds};
pub use oracle::{Answer, Oracle, TABLE_POSITIONS};
pub use shortening::{FIRST_SHORT_RANK, has_short_ranks, is_short};
pub use shown::{is_held, table_holds, table_rank};
pub use win_parts::{WinPart, as_hold, merge_wins, short_ranks};
