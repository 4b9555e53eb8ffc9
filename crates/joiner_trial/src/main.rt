//! Grows proof trees from small positions that a seeded program makes, searches their leaves, joins
//! a certificate for each settled root, and has it checked.
//!
//! For each number of pieces of the table and of the positions it prints how many forests were
//! grown, with how many roots and nodes; how many roots are settled, by value, each with a joined
//! certificate that the checker accepted; how many entries these have; and at how many settled
//! roots with at most three pieces the table of three says another value. A certificate that is
//! refused ends the program with an error.
//!
//! Its type `CertifiedTree` keeps that every fact of the tree is certified, so `join` is called
//! with nothing assumed.
#![tactic(auto)]

mod certified;
mod dice;
mod forests;
mod tally;
#[cfg(test)]
mod tests;

use crate::forests::{Forests, settle};
use anyhow::Result;
use endgame_table::{Table, fill};
use std::alloc::Global;

/// Forests of positions of three and of four pieces, by the table of two, and of four and of five, by that of three.
const KINDS: [Forests; 4] = [
    Forests {
        seed: 1,
        count: 300,
        rolls: 3,
        pieces: 3,
        turns: 250,
    },
    Forests {
        seed: 2,
        count: 300,
        rolls: 3,
        pieces: 4,
        turns: 250,
    },
    Forests {
        seed: 3,
        count: 300,
        rolls: 3,
        pieces: 4,
        turns: 250,
    },
    Forests {
        seed: 4,
        count: 300,
        rolls: 3,
        pieces: 5,
        turns: 250,
    },
];

/// Grows forests by the table and prints what came of them.
fn tell(
    rt: &(impl Print + Alloc<A = Global>),
    forests: &Forests,
    table: &Table,
    three: &Table,
) -> Result<()> {
    let tally = settle(rt.alloc(), forests, table, three)?;
    let table_pieces = table.pieces();
    let Forests { count, pieces, .. } = *forests;
    println!(rt; "table of {table_pieces}, up to {pieces} pieces: {count} forests")?;
    tally.print(rt)
}

fn main(rt: HostRuntime) -> Result<()> {
    let two = fill(rt.alloc(), 2)?;
    let three = fill(rt.alloc(), 3)?;
    let [first, second, third, last] = KINDS;
    tell(&rt, &first, &two, &three)?;
    tell(&rt, &second, &two, &three)?;
    tell(&rt, &third, &three, &three)?;
    tell(&rt, &last, &three, &three)
}
