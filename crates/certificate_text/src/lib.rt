//! The one spelling of a certificate and its exact reader.
//!
//! Each line says one thing and ends with a line feed: the format, the table, the position, the
//! claim, the entries of each part, and the end (`specs/Text.antt`).
//!
//! Proved: `print_certificate` gives the one text of a certificate. `read_certificate` reads
//! exactly the printed texts, each as the certificate that it is printed of, and refuses every
//! other with its one refusal, by line. `push_move` appends a move as these texts have it. `laws`: no
//! printed text begins another.
//!
//! Tests: text_tests/src/certificates.rt
#![tactic(auto)]

mod due;
pub mod laws;
mod lines;
mod printing;
mod reading;
mod refusal;

pub use printing::{claim_word, print_certificate, push_move};
pub use reading::read_certificate;
pub use refusal::TextRefusal;
