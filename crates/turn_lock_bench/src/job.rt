//! What to run, and how it is asked for.
use anyhow::{Context, Result, bail, ensure};

/// Who keeps the history.
#[derive(Clone, Copy, Debug, PartialEq, Eq)]
pub enum Keeper {
    Lock,
    Mutex,
}

impl Keeper {
    /// The word for it.
    pub fn name(self) -> &'static str {
        match self {
            Keeper::Lock => "lock",
            Keeper::Mutex => "mutex",
        }
    }
}

/// How many threads there are, and how many turns each takes.
#[derive(Clone, Copy, Debug, PartialEq, Eq)]
pub struct Job {
    pub keeper: Keeper,
    pub threads: u32,
    pub turns: u32,
}

const MOST_THREADS: u32 = 64;

/// The job that the words ask for, as `lock 4 1000`; none where there are no words.
pub fn read_words(words: &[String]) -> Result<Option<Job>> {
    let [keeper, threads, turns] = words else {
        ensure!(words.is_empty(), "the words are: lock|mutex THREADS TURNS");
        return Ok(None);
    };
    let keeper = match keeper.as_str() {
        "lock" => Keeper::Lock,
        "mutex" => Keeper::Mutex,
        _ => bail!("the first word is lock or mutex"),
    };
    let threads = threads.parse::<u32>().context("the number of threads")?;
    ensure!(
        1 <= threads && threads <= MOST_THREADS,
        "from 1 to {MOST_THREADS} threads"
    );
    let turns = turns.parse::<u32>().context("the number of turns")?;
    Ok(Some(Job {
        keeper,
        threads,
        turns,
    }))
}
