//! What a person is told of a source of games that is read, and perhaps as something else than its
//! owner meant.
//!
//! [`warnings_of`] goes from item to item of `pdn_text`, and answers what it found:
//! `specs/Warnings.antt` says exactly what. [`warnings_text`] makes a text of it. Both read their
//! arguments and nothing else, in one pass over the source.
//!
//! Proved: `warnings_of` answers the first ten of exactly the warnings of `specs/Warnings.antt`, in
//! their order, and how many more there are. The items are those into which `read_games` cuts the
//! source, up to the first place with none. The text is printable ASCII and line ends whatever the
//! source holds; it is empty exactly where there is no warning, and else begins with the line and
//! the column of the first.
//!
//! That the games, as they are counted there, are those of `read_games` is not proved. The wording
//! is tested.
//!
//! Tests: text_tests/src/warnings.rt
#![tactic(auto)]

mod causes;
mod found;
mod games;
mod items;
mod scan;
mod tags;
mod text;

pub use causes::{Cause, Warning};
pub use found::{Found, MOST_TOLD};
pub use scan::warnings_of;
pub use text::warnings_text;
