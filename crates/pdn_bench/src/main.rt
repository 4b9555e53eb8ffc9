//! Reads files of games in Portable Draughts Notation.
//!
//! With names of files it prints how many games, tags and moves each has, and then what comes of a
//! text with the most games that one may have, and of one game more. With the word `time`, a number
//! of parts and one name it cuts the file into that many parts of one length, each a text of its
//! own, and prints how many bytes a second are read, how many a plain copy of the same bytes takes,
//! and how many times as fast the copy is.
#![tactic(auto)]

mod measure;
mod most;

use anyhow::{Context, Result, ensure};
use pdn_text::{Game, read_games};
use std::rt::{Env, Files};
use std::{env, fs};

/// How many tags and moves these games have.
fn counts(games: &[Game]) -> (usize, usize) {
    let mut tags = 0_usize;
    let mut moves = 0_usize;
    for game in games {
        tags = tags.saturating_add(game.tags.as_slice().len());
        moves = moves.saturating_add(game.moves.as_slice().len());
    }
    (tags, moves)
}

/// Prints what one file has.
fn tell(rt: &(impl Files + Print + Alloc<A = std::alloc::Global>), name: &str) -> Result<()> {
    let text = fs::read(rt, name).context(format_args!("reading {name}"))?;
    let games = read_games(rt.alloc(), text.as_slice())?;
    let count = games.len();
    let (tags, moves) = counts(games.as_slice());
    println!(rt; "{name}: {count} games, {tags} tags, {moves} moves")?;
    Ok(())
}

fn main(rt: HostRuntime) -> Result<()> {
    let mut words = Vec::new(rt.alloc());
    for word in env::args(&rt)?.skip(1) {
        words.push(word)?;
    }
    if words.len() == 3 && words[0].as_str() == "time" {
        let parts = words[1].as_str().parse::<usize>()?;
        ensure!(parts > 0, "no parts");
        return measure::time(&rt, words[2].as_str(), parts);
    }
    for word in &words {
        tell(&rt, word.as_str())?;
    }
    most::tell(&rt)
}
