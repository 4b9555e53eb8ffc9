//! What texts for a person at a terminal are made of: the line and the column of a byte of a
//! source, the piece round it, words and numbers, and bytes as a terminal may be given them.
//!
//! It knows nothing of draughts. Lines and columns count from 1 (`specs/Places.antt`); what a
//! terminal is given is printable ASCII and line ends (`specs/Shown.antt`).
//!
//! Proved: `place_of` and `say_place` are exactly the line and the column of a byte. A line ends
//! with LF, CR or CR LF; columns count bytes. `excerpt_of` is a piece of the source round the byte,
//! of at most 64 bytes, and `say_excerpt` that piece with a mark under the byte. `shown` makes any
//! bytes printable ASCII and line ends.
//!
//! Tests: text_tests/src/terminals.rt
#![tactic(auto)]

mod excerpts;
mod places;
mod texts;

pub use excerpts::{EXCERPT_WIDTH, Excerpt, excerpt_of, say_excerpt};
pub use places::{Place, place_of, say_place};
pub use texts::{is_printable, quote, say, say_number, shown};
