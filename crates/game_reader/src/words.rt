//! The words of the command line.
use shared_words::number;
use thiserror::Error;

/// The most plies that the opening of a game has, as `opening_bench solve` takes them. They are taken if no number is given.
const MOST_PLIES: u64 = bench_edges::MOST_PLIES as u64;

/// The number of the first part.
const FIRST_PART: u64 = 1;

/// The greatest number that a part may have.
const LAST_PART: u64 = 999_999_999;

/// What is asked.
#[derive(Clone, Copy, PartialEq, Eq, Debug)]
pub enum Asked {
    /// To list faults and doubtful readings.
    Check,
    /// To write the games, or this part of them.
    Write { part: Option<u64> },
    /// To write the openings after these plies, or this part of them.
    Openings { plies: u64, part: Option<u64> },
}

/// Why the words ask nothing.
#[derive(Clone, Copy, PartialEq, Eq, Debug, Error)]
pub enum WordsRefusal {
    /// They are of no form that the program knows.
    #[error("the words are of no form that `game_reader --help` lists")]
    Form,
    /// What stands behind `--part` is no part's number.
    #[error("`--part` takes a number from 1 to 999999999")]
    Part,
    /// What stands behind `--plies` is no number of plies.
    #[error("`--plies` takes a number from 0 to 200")]
    Plies,
}

/// The part that a word numbers, from 1.
fn part_of(word: &str) -> Result<Option<u64>, WordsRefusal> {
    match number(word.as_bytes()) {
        Some(n) if FIRST_PART <= n && n <= LAST_PART => Ok(Some(n)),
        _ => Err(WordsRefusal::Part),
    }
}

/// How many plies a word says.
fn plies_of(word: &str) -> Result<u64, WordsRefusal> {
    match number(word.as_bytes()) {
        Some(n) if n <= MOST_PLIES => Ok(n),
        _ => Err(WordsRefusal::Plies),
    }
}

/// What the options behind `openings` ask: each stands at most once, with its number behind it.
fn read_openings(options: &[&str]) -> Result<Asked, WordsRefusal> {
    let (plies, part) = match options {
        [] => (MOST_PLIES, None),
        ["--plies", n] => (plies_of(n)?, None),
        ["--part", k] => (MOST_PLIES, part_of(k)?),
        ["--plies", n, "--part", k] | ["--part", k, "--plies", n] => (plies_of(n)?, part_of(k)?),
        _ => return Err(WordsRefusal::Form),
    };
    Ok(Asked::Openings { plies, part })
}

/// What the words ask, without the program's name.
pub(crate) fn read_words(words: &[&str]) -> Result<Asked, WordsRefusal> {
    match words {
        ["check"] => Ok(Asked::Check),
        ["write"] => Ok(Asked::Write { part: None }),
        ["write", "--part", k] => Ok(Asked::Write { part: part_of(k)? }),
        ["openings", options @ ..] => read_openings(options),
        _ => Err(WordsRefusal::Form),
    }
}
