//! What a person is told of roots that a run of `solve` leaves without a value: how the records of
//! the run fell to the roots, which roots were never searched, and which a larger table settles.
use crate::shares::{Share, Shares};
use std::alloc::{AllocError, Global};
use terminal_text::{say, say_number};

/// How many roots are named with their searches.
const MOST_NAMED: usize = 3;

/// How many ranges of roots are named.
const MOST_RANGES: usize = 10;

/// How many pieces the largest endgame table has.
const LARGEST_TABLE: u32 = 3;

/// A root, counted from 1, and how many searches fell to it.
#[derive(Clone, Copy)]
struct Taker {
    root: usize,
    searches: u64,
}

/// A root with this taker stands among these.
fn is_named(named: &[Taker], root: usize) -> bool {
    named.iter().any(|taker| taker.root == root)
}

/// The root with the most searches that is not among these; the first of several.
fn next_taker(shares: &[Share], named: &[Taker]) -> Option<Taker> {
    let mut most: Option<Taker> = None;
    for (place, share) in shares.iter().enumerate() {
        let least = match most {
            Some(taker) => taker.searches,
            None => 0,
        };
        let root = place.saturating_add(1);
        if share.searches > least && !is_named(named, root) {
            most = Some(Taker {
                root,
                searches: share.searches,
            });
        }
    }
    most
}

/// The roots with the most searches, the one with the most first.
fn takers(alloc: Global, shares: &[Share]) -> Result<Vec<Taker>, AllocError> {
    let mut named = Vec::new(alloc);
    for _ in 0..MOST_NAMED {
        let Some(taker) = next_taker(shares, &named) else {
            break;
        };
        named.push(taker)?;
    }
    Ok(named)
}

/// How many searches fell to these roots.
fn searches_of(shares: &[Share]) -> u64 {
    let mut sum = 0u64;
    for share in shares {
        sum = sum.saturating_add(share.searches);
    }
    sum
}

/// How many searches these roots took.
fn searches_named(named: &[Taker]) -> u64 {
    let mut sum = 0u64;
    for taker in named {
        sum = sum.saturating_add(taker.searches);
    }
    sum
}

/// Appends how many searches each of these roots took: of the first it says of how many. Each gave one record, where there are
/// as many records.
fn say_takers(
    text: &mut Vec<u8>,
    named: &[Taker],
    searches: u64,
    records: u64,
) -> Result<(), AllocError> {
    let what = if searches == records {
        " records"
    } else {
        " searches"
    };
    for (place, taker) in named.iter().enumerate() {
        let before = if place == 0 { "Root " } else { ", root " };
        say_number(text, before, taker.root as u64, " took ")?;
        say_number(text, "", taker.searches, "")?;
        if place == 0 {
            say_number(text, " of ", searches, what)?;
        }
    }
    Ok(())
}

/// Appends how the searches of the run fell to the roots, where there are any and more than one root.
fn say_shares(text: &mut Vec<u8>, alloc: Global, shares: &Shares) -> Result<(), AllocError> {
    let searches = searches_of(&shares.roots);
    if searches == 0 || shares.roots.len() == 1 {
        return Ok(());
    }
    let named = takers(alloc, &shares.roots)?;
    say_takers(text, &named, searches, shares.records)?;
    let others = searches.saturating_sub(searches_named(&named));
    if others > 0 {
        say_number(text, ", the other roots ", others, "")?;
    }
    say(text, ".\n")
}

/// Roots that follow one another: from the first to the last of them, counted from 1.
#[derive(Clone, Copy)]
struct Range {
    first: usize,
    last: usize,
}

/// Takes a root behind those of the ranges.
fn take_root(ranges: &mut Vec<Range>, root: usize) -> Result<(), AllocError> {
    let first = match ranges.pop() {
        Some(range) if range.last.saturating_add(1) == root => range.first,
        Some(range) => {
            ranges.push(range)?;
            root
        }
        None => root,
    };
    ranges.push(Range { first, last: root })?;
    Ok(())
}

/// The root was never searched, and has no value.
fn is_unsearched(share: &Share) -> bool {
    !share.is_settled && !share.was_searched
}

/// The root has no value, and a table of so few pieces as the largest has one.
fn is_small(share: &Share) -> bool {
    !share.is_settled && share.pieces <= LARGEST_TABLE
}

/// The ranges of the roots that were never searched.
fn unsearched(alloc: Global, shares: &[Share]) -> Result<Vec<Range>, AllocError> {
    let mut ranges = Vec::new(alloc);
    for (place, share) in shares.iter().enumerate() {
        if is_unsearched(share) {
            take_root(&mut ranges, place.saturating_add(1))?;
        }
    }
    Ok(ranges)
}

/// The ranges of the roots without a value that the largest table settles.
fn small(alloc: Global, shares: &[Share]) -> Result<Vec<Range>, AllocError> {
    let mut ranges = Vec::new(alloc);
    for (place, share) in shares.iter().enumerate() {
        if is_small(share) {
            take_root(&mut ranges, place.saturating_add(1))?;
        }
    }
    Ok(ranges)
}

/// Appends a range of roots.
fn say_range(text: &mut Vec<u8>, range: Range) -> Result<(), AllocError> {
    say_number(text, " ", range.first as u64, "")?;
    if range.first == range.last {
        return Ok(());
    }
    let between = if range.first.saturating_add(1) == range.last {
        ", "
    } else {
        " to "
    };
    say_number(text, between, range.last as u64, "")
}

/// One root alone stands in these ranges.
fn is_one_root(ranges: &[Range]) -> bool {
    match ranges {
        [range] => range.first == range.last,
        _ => false,
    }
}

/// Appends the numbers of the roots of ranges, of as many ranges as are named.
fn say_roots(text: &mut Vec<u8>, ranges: &[Range]) -> Result<(), AllocError> {
    let named = ranges.len().min(MOST_RANGES);
    for (place, range) in ranges[..named].iter().enumerate() {
        say(text, if place > 0 { "," } else { "" })?;
        say_range(text, *range)?;
    }
    say(text, if named < ranges.len() { ", .." } else { "" })
}

/// Appends which roots were never searched, where there are any.
fn say_unsearched(text: &mut Vec<u8>, ranges: &[Range]) -> Result<(), AllocError> {
    if ranges.is_empty() {
        return Ok(());
    }
    let is_one = is_one_root(ranges);
    say(text, if is_one { "Root" } else { "Roots" })?;
    say_roots(text, ranges)?;
    say(
        text,
        if is_one {
            " was never searched: give a larger `--budget`, or solve it in a journal of its own.\n"
        } else {
            " were never searched: give a larger `--budget`, or solve them in a journal of their own.\n"
        },
    )
}

/// Appends which roots the largest table settles, where there are any.
fn say_small(text: &mut Vec<u8>, ranges: &[Range], in_memory: bool) -> Result<(), AllocError> {
    if ranges.is_empty() {
        return Ok(());
    }
    say(text, "The table of three pieces settles root")?;
    say(text, if is_one_root(ranges) { "" } else { "s" })?;
    say_roots(text, ranges)?;
    say(
        text,
        if in_memory {
            ": give `--pieces 3`.\n"
        } else {
            ": give `--pieces 3` and another journal, since this one keeps its table of two.\n"
        },
    )
}

/// The text on roots without a value, of which these shares tell.
pub(crate) fn unsolved_text(
    alloc: Global,
    shares: &Shares,
    in_memory: bool,
) -> Result<Vec<u8>, AllocError> {
    let mut text = Vec::new(alloc);
    say_shares(&mut text, alloc, shares)?;
    say_unsearched(&mut text, &unsearched(alloc, &shares.roots)?)?;
    if u32::from(shares.table) < LARGEST_TABLE {
        say_small(&mut text, &small(alloc, &shares.roots)?, in_memory)?;
    }
    Ok(text)
}
