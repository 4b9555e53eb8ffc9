//! Filling in the numbers of positions, which a turn does for each position of its record, and reading records of either
//! version.
//!
//! The records show that a node is held, with positions of a list in an order that jumps, so that in a long list each is
//! looked up where the processor's caches lack it.
use anyhow::{Result, bail};
use bench_records::{Named, Sheet, decode, kind_of, sheet_of};
use draughts_board::{Position, Side};
use std::alloc::{AllocError, Global};
use std::time::Instant;

/// How many positions a list has.
const NAMES: [u32; 2] = [20_000, 1_000_000];

/// How many records there are, and how many entries each has.
const RECORDS: u32 = 2_000;

const ENTRIES: u32 = 50;

/// How many positions of a list lie between two entries. It is a prime number, which divides no length of a list.
const STRIDE: u32 = 7_919;

/// How many runs there are of each kind; the fastest counts.
const RUNS: u32 = 3;

/// Another number for each, in an order that jumps.
fn scattered(n: u32) -> u32 {
    let mixed = n.wrapping_mul(0x9e37_79b1);
    mixed ^ mixed >> 15
}

/// The mask of the square that the five bits from this place on name.
fn square(n: u32, place: u32) -> u32 {
    1u32.rotate_left(n.rotate_right(place))
}

/// A position of five pieces that the number names, if it names one.
fn position_of(n: u32) -> Option<Position> {
    let white_kings = square(n, 15) | square(n, 20);
    let masks = [square(n, 0), square(n, 5), square(n, 10), white_kings];
    let side = if n.leading_zeros() == 0 {
        Side::Black
    } else {
        Side::White
    };
    Position::of_masks(masks, side)
}

/// A list of `count` positions.
fn make_list(alloc: Global, count: u32) -> Result<Named> {
    let mut named = Named::new(alloc);
    for n in 0..u32::MAX {
        if named.len() >= count {
            return Ok(named);
        }
        if let Some(p) = position_of(scattered(n)) {
            named.note(p)?;
        }
    }
    bail!("there are fewer positions")
}

/// The positions of a list.
fn positions_of(alloc: Global, named: &Named) -> Result<Vec<Position>, AllocError> {
    let mut positions = Vec::with_capacity(alloc, named.len() as usize)?;
    for k in 0..named.len() {
        positions.push(named.position(k))?;
    }
    Ok(positions)
}

/// Appends a position in full.
fn push_position(text: &mut Vec<u8>, p: &Position) -> Result<(), AllocError> {
    text.push(match p.to_move() {
        Side::Black => 0,
        Side::White => 1,
    })?;
    for mask in p.masks() {
        text.extend_from_slice(&mask.to_be_bytes())?;
    }
    Ok(())
}

/// The text of version 1 of a record that a node is held by Black, with positions of these from that one on.
fn held_text(alloc: Global, positions: &[Position], first: u32) -> Result<Vec<u8>> {
    let count = u32::try_from(positions.len()).unwrap_or(u32::MAX);
    let mut text = Vec::new(alloc);
    text.extend_from_slice(&[2, 0, 0, 0, 0, 0, 0, 0, 0])?;
    for i in 0..=ENTRIES {
        let place = first
            .wrapping_add(i.wrapping_mul(STRIDE))
            .checked_rem(count);
        let Some(p) = positions.get(place.unwrap_or(0) as usize) else {
            bail!("no position");
        };
        push_position(&mut text, p)?;
        if i == 0 {
            text.extend_from_slice(&[1, 3])?;
            text.extend_from_slice(&ENTRIES.to_be_bytes())?;
        } else {
            text.push(0)?;
        }
    }
    Ok(text)
}

/// The texts of version 1 of the records.
fn held_texts(alloc: Global, positions: &[Position]) -> Result<Vec<Vec<u8>>> {
    let mut texts = Vec::new(alloc);
    for r in 0..RECORDS {
        texts.push(held_text(alloc, positions, scattered(r) >> 8)?)?;
    }
    Ok(texts)
}

/// The sheets of these records, and the kind that they have in version 2.
fn sheets_of(alloc: Global, texts: &[Vec<u8>], named: &Named) -> Result<(Vec<Sheet>, u8)> {
    let mut sheets = Vec::new(alloc);
    let mut kind = 0;
    for text in texts {
        let record = decode(alloc, text, 2, named)?;
        kind = kind_of(&record);
        sheets.push(sheet_of(alloc, &record)?)?;
    }
    Ok((sheets, kind))
}

/// What one run took, and the texts of version 2.
#[derive(Drop)]
struct Filled {
    spent: u128,
    texts: Vec<Vec<u8>>,
}

/// Fills in the sheets, and counts what they take by the clock.
fn fill_in(rt: &HostRuntime, sheets: &[Sheet], kind: u8, named: &mut Named) -> Result<Filled> {
    let alloc = rt.alloc();
    let mut texts = Vec::with_capacity(alloc, sheets.len())?;
    let start = Instant::now(rt)?;
    for sheet in sheets {
        texts.push(sheet.write(alloc, kind, named)?)?;
    }
    let spent = start.elapsed(rt)?.as_nanos();
    Ok(Filled { spent, texts })
}

/// Reads the texts as records: in how many nanoseconds by the clock.
fn read_all(rt: &HostRuntime, texts: &[Vec<u8>], named: &Named) -> Result<u128> {
    let alloc = rt.alloc();
    let mut records = Vec::with_capacity(alloc, texts.len())?;
    let start = Instant::now(rt)?;
    for text in texts {
        records.push(decode(alloc, text, 2, named)?)?;
    }
    Ok(start.elapsed(rt)?.as_nanos())
}

/// How many bytes all texts have.
fn bytes_of(texts: &[Vec<u8>]) -> usize {
    let mut bytes = 0usize;
    for text in texts {
        bytes = bytes.saturating_add(text.len());
    }
    bytes
}

/// Prints what a position takes to fill in and to read, with a list of `count`.
fn time_list(rt: &HostRuntime, count: u32) -> Result<()> {
    let alloc = rt.alloc();
    let mut named = make_list(alloc, count)?;
    let positions = positions_of(alloc, &named)?;
    let full = held_texts(alloc, positions.as_slice())?;
    let (sheets, kind) = sheets_of(alloc, full.as_slice(), &named)?;
    let mut best = fill_in(rt, sheets.as_slice(), kind, &mut named)?;
    let mut read = [u128::MAX; 2];
    for _ in 0..RUNS {
        let other = fill_in(rt, sheets.as_slice(), kind, &mut named)?;
        best.spent = best.spent.min(other.spent);
        read[0] = read[0].min(read_all(rt, full.as_slice(), &named)?);
        read[1] = read[1].min(read_all(rt, best.texts.as_slice(), &named)?);
    }
    if named.len() != count {
        bail!("the list has grown");
    }
    let fields = u128::from(RECORDS) * u128::from(ENTRIES + 1);
    let (filled, old, new) = (best.spent / fields, read[0] / fields, read[1] / fields);
    let (long, short) = (bytes_of(full.as_slice()), bytes_of(best.texts.as_slice()));
    print!(rt; "{count} positions named: filling in {filled} ns a position; ")?;
    print!(rt; "reading {old} ns a position in full, {new} ns by its number; ")?;
    println!(rt; "{long} bytes in full, {short} by numbers")?;
    Ok(())
}

/// Makes a list of `count` positions and nothing else, for whoever looks at how much memory that takes.
pub(crate) fn hold_list(rt: &HostRuntime, count: &str) -> Result<()> {
    let named = make_list(rt.alloc(), count.parse()?)?;
    println!(rt; "{} positions named", named.len())?;
    Ok(())
}

/// Takes the time of short and of long lists.
pub(crate) fn time_names(rt: &HostRuntime) -> Result<()> {
    for count in NAMES {
        time_list(rt, count)?;
    }
    Ok(())
}
