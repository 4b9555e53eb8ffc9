//! Reads records by the dice, of both versions behind the records before them, each as it is, each
//! front of it, and each of its bytes as four others, and compares every answer with that of a
//! plain reader that was written from docs/FORMATS.md alone.
//!
//! What is read is written again in both versions, and compared with what the format says. A
//! difference ends the program with an error. Last it prints how many texts were read, and how many
//! damaged ones were answered in which way.
#![tactic(auto)]

mod plain;
mod seeded;

use crate::plain::{Answer, Spelled, plain_answer};
use crate::seeded::{POOL, Written, pool, record, roll};
use anyhow::{Result, bail};
use bench_records::{Named, RecordRefusal, decode, encode, encode_full};
use rand_pcg::Pcg32;
use std::alloc::Global;

/// How many journals there are, and how many records each has.
const JOURNALS: u64 = 4;

const RECORDS: u32 = 6;

/// What is added to each byte in turn.
const CHANGES: [u8; 4] = [1, 3, 128, 255];

/// How many texts were answered in each way.
#[derive(Clone, Copy)]
struct Tally {
    read: u64,
    kind: u64,
    field: u64,
    trailing: u64,
}

/// One more answer of this kind.
fn count(tally: &mut Tally, found: Answer) {
    let one = match found {
        Answer::Read => &mut tally.read,
        Answer::Kind => &mut tally.kind,
        Answer::Field(_) => &mut tally.field,
        Answer::Trailing(_) => &mut tally.trailing,
    };
    *one = one.saturating_add(1);
}

/// What `decode` answers.
fn decoded(alloc: Global, bytes: &[u8], named: &Named) -> Result<Answer> {
    match decode(alloc, bytes, 2, named) {
        Ok(_) => Ok(Answer::Read),
        Err(RecordRefusal::BadKind) => Ok(Answer::Kind),
        Err(RecordRefusal::BadField(at)) => Ok(Answer::Field(at)),
        Err(RecordRefusal::Trailing(at)) => Ok(Answer::Trailing(at)),
        Err(RecordRefusal::Memory(error)) => Err(error.into()),
    }
}

/// The answer to these bytes, which both readers give.
fn compared(alloc: Global, bytes: &[u8], named: &Named, list: &[Spelled]) -> Result<Answer> {
    let mut list = list.to_vec(alloc)?;
    let due = plain_answer(alloc, bytes, &mut list)?;
    let found = decoded(alloc, bytes, named)?;
    if found != due {
        bail!("{found:?} is answered, and {due:?} is due");
    }
    Ok(found)
}

/// Compares each front of the bytes, and each byte as others.
fn compare_damaged(
    alloc: Global,
    bytes: &[u8],
    named: &Named,
    list: &[Spelled],
    tally: &mut Tally,
) -> Result<()> {
    for length in 0..bytes.len() {
        count(tally, compared(alloc, &bytes[..length], named, list)?);
    }
    let mut changed = bytes.to_vec(alloc)?;
    for place in 0..bytes.len() {
        for change in CHANGES {
            changed[place] = bytes[place].wrapping_add(change);
            count(tally, compared(alloc, changed.as_slice(), named, list)?);
        }
        changed[place] = bytes[place];
    }
    changed.push(0)?;
    count(tally, compared(alloc, changed.as_slice(), named, list)?);
    Ok(())
}

/// The record of these bytes is written again as both texts, and the list gets its positions.
fn write_again(alloc: Global, bytes: &[u8], text: &Written, named: &mut Named) -> Result<()> {
    let record = decode(alloc, bytes, 2, named)?;
    if encode(alloc, &record, named)?.as_slice() != text.short.as_slice() {
        bail!("another text of version 2");
    }
    if encode_full(alloc, &record)?.as_slice() != text.full.as_slice() {
        bail!("another text of version 1");
    }
    Ok(named.add(&record)?)
}

/// Reads one more record of a journal, in either version.
fn go_on(
    alloc: Global,
    dice: &mut Pcg32,
    pool: &[Spelled; POOL],
    named: &mut Named,
    list: &mut Vec<Spelled>,
    tally: &mut Tally,
) -> Result<()> {
    let before = list.as_slice().to_vec(alloc)?;
    let text = record(alloc, dice, pool, list)?;
    for bytes in [text.full.as_slice(), text.short.as_slice()] {
        if compared(alloc, bytes, named, before.as_slice())? != Answer::Read {
            bail!("a record that is not read");
        }
        compare_damaged(alloc, bytes, named, before.as_slice(), tally)?;
    }
    if roll(dice, 2) == 0 {
        return write_again(alloc, text.full.as_slice(), &text, named);
    }
    write_again(alloc, text.short.as_slice(), &text, named)
}

/// Reads a journal of records of both versions.
fn read_journal(alloc: Global, seed: u64, tally: &mut Tally) -> Result<u32> {
    let mut dice = Pcg32::new(seed, 1);
    let pool = pool(&mut dice);
    let mut named = Named::new(alloc);
    let mut list = Vec::new(alloc);
    for _ in 0..RECORDS {
        go_on(alloc, &mut dice, &pool, &mut named, &mut list, tally)?;
    }
    if named.len() as usize != list.len() {
        bail!("another list of positions");
    }
    Ok(named.len())
}

fn main(rt: HostRuntime) -> Result<()> {
    let mut tally = Tally {
        read: 0,
        kind: 0,
        field: 0,
        trailing: 0,
    };
    let mut names: u64 = 0;
    for seed in 1..=JOURNALS {
        names = names.saturating_add(u64::from(read_journal(rt.alloc(), seed, &mut tally)?));
    }
    println!(rt;
        "{JOURNALS} journals of {RECORDS} records in two versions, {names} positions named"
    )?;
    println!(rt;
        "damaged: {} read, {} of no kind, {} with a bad field, {} with bytes behind",
        tally.read, tally.kind, tally.field, tally.trailing
    )?;
    Ok(())
}
