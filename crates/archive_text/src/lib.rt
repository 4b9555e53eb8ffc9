//! An archive of games as signs with their places: bytes come in pieces, and each sign is told with
//! its line, its column and its byte, in whatever encoding the archive is written.
//!
//! UTF-8, UTF-16 by its mark, and Windows-1252 (and so Latin-1) where bytes are no UTF-8. Dashes,
//! blanks, quotation marks, line ends, references such as `&nbsp;` and tags of HTML come as the few
//! signs that stand for them.
//!
//! Proved: each place told is a place of what was fed, and places rise. What was fed is read once,
//! sign by sign, and each call ends. No call panics or overflows. How bytes are understood is tested.
//!
//! Tests: archive_tests/src/texts.rt
#![tactic(auto)]

mod ahead;
mod characters;
mod encoding;
mod markup;
mod normal;
mod places;
mod references;
mod symbol;
mod text;
mod windows;

pub use places::Place;
pub use text::{ArchiveText, FeedRefusal, MOST_BYTES, Sign};
