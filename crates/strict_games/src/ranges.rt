//! The numbers of games, written as ranges.
ghost use Rattle.std.specs.Prelude.{◌≡◌, ◌==◌, ◌+◌, ◌++◌, ◌∷◌, [], IfOk, OnOk};
ghost use Rattle.std.specs.List.{flat_map};
ghost use Rattle.strict_games.specs.Groups.{Lists, further_text, numbers_in, range_text};

use shared_words::push_number;
use std::alloc::{AllocError, Global};

/// Numbers that follow one another.
#[derive(Clone, Copy, PartialEq, Eq, Debug)]
pub struct GameRange {
    /// The first.
    pub first: u32,
    /// How many follow it.
    pub more: u32,
}

/// The range goes on with this number.
fn goes_on(range: GameRange, number: u32) -> bool
    ensures { result ≡ (range.first + range.more + 1 == number) }
{
    u64::from(range.first) + u64::from(range.more) + 1 == u64::from(number)
}

/// Adds a number behind those of the ranges.
fn add_number(ranges: &mut Vec<GameRange>, number: u32) -> Result<(), AllocError>
    ensures { OnOk result (flat_map numbers_in ranges.new.items
        ≡ flat_map numbers_in ranges.old.items ++ number ∷ []) }
{
    let alone = GameRange {
        first: number,
        more: 0,
    };
    match ranges.pop() {
        None => ranges.push(alone)?,
        Some(last) if goes_on(last, number) => ranges.push(GameRange {
            first: last.first,
            more: last.more + 1,
        })?,
        Some(last) => {
            ranges.push(last)?;
            ranges.push(alone)?;
        }
    }
    Ok(())
}

/// The ranges of these numbers, in their order, each as long as it can be.
fn ranges_of(alloc: Global, numbers: &[u32]) -> Result<Vec<GameRange>, AllocError>
    ensures { IfOk result (λ ranges. flat_map numbers_in ranges.items ≡ numbers.now) }
{
    let mut ranges = Vec::new(alloc);
    for number in numbers {
        add_number(&mut ranges, *number)?;
    }
    Ok(ranges)
}

/// Appends a range.
fn push_range(text: &mut Vec<u8>, range: GameRange) -> Result<(), AllocError>
    ensures { OnOk result (text.new.items ≡ text.old.items ++ range_text range) }
{
    push_number(text, u64::from(range.first))?;
    if range.more > 0 {
        text.push(b'-')?;
        push_number(text, u64::from(range.first) + u64::from(range.more))?;
    }
    Ok(())
}

/// Appends ranges, each behind a comma and a blank.
fn push_further(text: &mut Vec<u8>, ranges: &[GameRange]) -> Result<(), AllocError>
    ensures { OnOk result (text.new.items ≡ text.old.items ++ further_text ranges.now) }
{
    for range in ranges {
        text.extend_from_slice(b", ")?;
        push_range(text, *range)?;
    }
    Ok(())
}

/// The numbers as ranges with commas between: `12, 40-43`.
pub(crate) fn listed(alloc: Global, numbers: &[u32]) -> Result<Vec<u8>, AllocError>
    ensures { IfOk result (λ text. Lists numbers.now text.items) }
{
    let mut text = Vec::new(alloc);
    let ranges = ranges_of(alloc, numbers)?;
    if let [first, further @ ..] = ranges.as_slice() {
        push_range(&mut text, *first)?;
        push_further(&mut text, further)?;
    }
    Ok(text)
}
