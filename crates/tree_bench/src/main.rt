//! Grows proof trees from the start position, each time at the leaf that is picked next.
//!
//! Without words it prints, for 1,000, 10,000 and 100,000 expansions, how many nodes the tree has
//! and the numbers of its root for both goals. With the word `time` it prints expansions a second
//! by the clock for each, how much of the time the tree itself takes, and how the rates compare.
//!
//! Behind that it does the same with 256, 4,096 and 65,536 roots, of which all but the first and the
//! last are settled, and the first is taken: which node is picked, and how long a pick takes.
#![tactic(auto)]

mod crowds;
mod grow;
mod measure;

use anyhow::Result;
use draughts_board::Side;
use grow::grown;
use proof_numbers::{Number, Numbers};
use proof_tree::Tree;
use std::alloc::Global;
use std::env;

/// How many expansions each tree gets.
const SIZES: [u32; 3] = [1_000, 10_000, 100_000];

/// Prints a number.
fn print_number(rt: &impl Print, number: Number) -> Result<()> {
    match number {
        Number::Finite(n) => print!(rt; " {n}")?,
        Number::Infinite => print!(rt; " infinite")?,
    }
    Ok(())
}

/// Prints the numbers of the root for the goal.
fn print_root(rt: &impl Print, tree: &Tree, goal: Side, name: &str) -> Result<()> {
    if let Some(root) = tree.node(0) {
        let Numbers { proof, disproof } = tree.numbers(root, goal);
        print!(rt; ", {name}")?;
        print_number(rt, proof)?;
        print_number(rt, disproof)?;
    }
    Ok(())
}

/// Grows a tree and prints what it has.
fn tell(rt: &(impl Print + Alloc<A = Global>), expansions: u32) -> Result<()> {
    let tree = grown(rt.alloc(), expansions)?;
    let nodes = tree.len();
    print!(rt; "{expansions} expansions: {nodes} nodes")?;
    print_root(rt, &tree, Side::Black, "Black")?;
    print_root(rt, &tree, Side::White, "White")?;
    println!(rt)?;
    Ok(())
}

fn main(rt: HostRuntime) -> Result<()> {
    let is_timed = env::args(&rt)?
        .nth(1)
        .is_some_and(|word| word.as_str() == "time");
    if is_timed {
        measure::time(&rt, &SIZES)?;
        return crowds::time(&rt);
    }
    for size in SIZES {
        tell(&rt, size)?;
    }
    crowds::tell(&rt)
}
