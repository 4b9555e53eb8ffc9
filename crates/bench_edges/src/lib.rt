//! The edges of the program: where its bytes come from, where they go, and the words that it is
//! called with.
//!
//! A [`Source`] gives bytes and a [`Sink`] takes them. Each counts its own faults. What a source
//! has left and what a sink has taken are values that contracts see, where the object tells them.
//! [`read_to_limit`] and [`write_all`] are the two loops over them. [`Status`] is how a run ends.
//!
//! The names of commands and options, with their limits and defaults, stand here alone
//! ([`COMMAND_NAMES`], [`SOLVE_OPTIONS`]). A limit that a crate below keeps is that crate's number.
//!
//! Proved: what a read takes from a source and a write gives to a sink; a fault is answered only
//! where its count rose, so that no layer above can claim one that did not happen. [`read_words`]
//! reads exactly the grammar of the words, with numbers within their limits, and else names the
//! first word that cannot stand where it stands.
//!
//! Tests: edge_tests/src/words.rt, edge_tests/src/sources.rt, edge_tests/src/sinks.rt,
//! edge_tests/src/printed.rt
#![tactic(auto)]

mod memory_sink;
mod memory_source;
mod sink;
mod source;
mod status;
mod std_sink;
mod std_source;
mod words;

pub use memory_sink::MemorySink;
pub use memory_source::MemorySource;
pub use sink::{Sink, SinkFault, write_all};
pub use source::{ReadRefusal, Source, SourceFault, read_to_limit};
pub use status::Status;
pub use std_sink::StdSink;
pub use std_source::StdSource;
pub use words::{
    COMMAND_NAMES, Command, DEFAULT_BUDGET, DEFAULT_DEPTH, DEFAULT_LEASE, DEFAULT_PIECES,
    DEFAULT_PLIES, DEFAULT_WORKERS, LEAST_COUNT, LEAST_LEASE, LEAST_PIECES, LEAST_ROOT,
    LEAST_WORKERS, MOST_BUDGET, MOST_COUNT, MOST_DEPTH, MOST_LEASE, MOST_PIECES, MOST_PLIES,
    MOST_ROOT, MOST_SEED, MOST_WORKERS, Options, SOLVE_OPTIONS, SolveOption, WordsRefusal,
    read_words,
};
