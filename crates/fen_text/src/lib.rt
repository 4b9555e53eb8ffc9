//! FEN, the text of a position: read whole, and printed in one spelling.
//!
//! `B:W16,19:B12` is Black to move, with White men on 16 and 19 and a Black man on 12; `K` before a
//! square stands for a king. The grammar stands in `specs/Grammar.antt`.
//!
//! Proved: `read_fen` accepts exactly the texts of the grammar that spell a position, and refuses
//! every other with its first fault and place. `print_fen` gives the one printed spelling, which is
//! read back as the same position.
//!
//! Tests: text_tests/src/fens.rt
#![tactic(auto)]

mod comparing;
mod fault;
mod group;
mod laws;
mod printing;
mod reading;
mod refusal;
mod setup;

pub use comparing::read_printed_fen;
pub use laws::{printed_is_plain, printed_is_spelled, printed_tells_apart, spelled_tells_apart};
pub use printing::print_fen;
pub use reading::read_fen;
pub use refusal::FenRefusal;
