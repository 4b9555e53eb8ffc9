//! The words that `journal_view` is called with.
//!
//! The grammar stands in `specs/Words.antt`: a path, what is shown, and then a root's number and options in one
//! order, each at most once.
//!
//! Proved: [`read_words`] gives what the words ask for, and refuses other words at the first that cannot stand
//! where it stands, or at their number where one is missing.
#![tactic(auto)]

mod commands;
mod places;
mod requests;
mod words;

pub use requests::{
    LineRequest, MOST_NODES, MOST_PLAYED, MOST_PLIES, MOST_VARIED, PageRequest, RecordsRequest,
    Request, RootsRequest, TreeRequest,
};
pub use words::read_words;
