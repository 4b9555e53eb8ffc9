//! Tests of the public calls of books of proved strategies.
//!
//! What is expected was worked out by hand, from the moves of a win and of a draw of few pieces.
#![tactic(auto)]

#[cfg(test)]
mod books;
