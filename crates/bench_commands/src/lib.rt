//! What each command of `opening_bench` does, over any source, any sink and any disk.
//!
//! [`bench`] reads games, works on their openings on a journal that keeps what is found, and writes
//! what the certificates found there show of their values; or it does what another command says.
//! [`run`] hands out how the run ended, too ([`Ended`]), and [`bench_quiet`] does a command that
//! searches nothing: each of its calls returns.
//!
//! Proved: the clauses of [`bench`], in `docs/PROVED.md`. [`run`] promises them as one record, and
//! hands out why a run was refused; [`bench_quiet`] has them by the command.
//!
//! Tests: bench_tests/src/solve_tests.rt, bench_tests/src/journal_tests.rt,
//! bench_tests/src/certificate_tests.rt, bench_tests/src/lesson_tests.rt,
//! bench_tests/src/table_tests.rt
#![tactic(auto)]

mod commands;
mod ended;
pub mod examples;
mod quiet;
mod running;
mod searching;
mod top_call;

pub use ended::Ended;
pub use quiet::bench_quiet;
pub use running::run;
pub use top_call::bench;
