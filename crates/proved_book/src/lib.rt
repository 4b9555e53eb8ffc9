//! A book of proved strategies: what is proved once answers again, wherever the position comes up.
//!
//! A [`Book`] takes over the parts of certificates, all for one endgame table, and answers a
//! position that is an entry of one of them with certificates about it. Each is trimmed: it has what
//! is reached from the position by its moves, and nothing else. Trimming takes time in what is kept,
//! whatever the book has besides.
//!
//! Proved: a book takes over each part of a certificate exactly, and a win part whose ranks are not
//! short by its short ranks. `facts` tells exactly what a position has by being an entry, and
//! `answer` gives exactly the trimmed certificate of a win, or those of both holds, and nothing
//! where neither is known. All of it is true of the position, and an answer serves as the result of
//! a leaf's search for either goal and any depth. Of a good part the trimmed one is good, and there
//! is one.
//!
//! Tests: book_tests/src/books.rt
#![tactic(auto)]

mod book;
pub mod examples;
pub mod laws;
mod strategy;
mod trimming;
mod walking;

pub use book::Book;
pub use trimming::{trim_holds, trim_wins};
