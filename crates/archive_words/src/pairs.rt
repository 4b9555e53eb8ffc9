//! Moves and their numbers as most archives write them: `11-15 `, `12. `.
ghost use Rattle.std.specs.Prelude.{◌≡◌, ◌≤◌, ◌<◌, IfSome, MatchOption, None, Some, length};
ghost use Rattle.archive_words.specs.Pairs.{join_at, number_at, pair_at, short_number};

use crate::runs::Join;

/// Two numbers with a sign between, and a blank behind them: `11-15 `, `22x15 `.
#[derive(Clone, Copy, PartialEq, Eq, Debug)]
pub struct Pair {
    pub first: u32,
    pub join: Join,
    pub second: u32,
    /// How many bytes it has, with the blank.
    pub len: usize,
}

/// The number of one digit or two at the front, and what stands behind them.
fn short_number(text: &[u8]) -> Option<(u32, &[u8])>
    ensures value { MatchOption result (short_number text.now ≡ None)
        (λ found. short_number text.now ≡ Some (found.0, found.1.now)) }
    ensures small { IfSome result (λ found. (found.0 < 100) × (length found.1.now < length text.now)) }
{
    match text {
        [tens, ones, rest @ ..] if tens.is_ascii_digit() && ones.is_ascii_digit() => {
            Some((u32::from(tens - b'0') * 10 + u32::from(ones - b'0'), rest))
        }
        [ones, rest @ ..] if ones.is_ascii_digit() => Some((u32::from(ones - b'0'), rest)),
        _ => None,
    }
}

/// The sign at the front that joins two numbers, `-` or `x`, and what stands behind it.
fn join_at(text: &[u8]) -> Option<(Join, &[u8])>
    ensures value { MatchOption result (join_at text.now ≡ None)
        (λ found. join_at text.now ≡ Some (found.0, found.1.now)) }
    ensures inside { IfSome result (λ found. length found.1.now < length text.now) }
{
    match text {
        [b'-', rest @ ..] => Some((Join::Dash, rest)),
        [b'x', rest @ ..] => Some((Join::Cross, rest)),
        _ => None,
    }
}

/// The two numbers, of one digit or two each, that stand at the front with a `-` or an `x` between and
/// a blank behind them.
pub fn pair_at(text: &[u8]) -> Option<Pair>
    ensures value { result ≡ pair_at text.now }
    ensures small { IfSome result (λ pair. (pair.first < 100) × (pair.second < 100)) }
    ensures some { IfSome result (λ pair. 0 < pair.len) }
    ensures inside { IfSome result (λ pair. pair.len ≤ length text.now) }
{
    let (first, rest) = short_number(text)?;
    let (join, rest) = join_at(rest)?;
    let (second, rest) = short_number(rest)?;
    let [b' ', rest @ ..] = rest else {
        return None;
    };
    Some(Pair {
        first,
        join,
        second,
        len: text.len() - rest.len(),
    })
}

/// The number of a move, and how many bytes stand there: `12. `, with the blank.
#[derive(Clone, Copy, PartialEq, Eq, Debug)]
pub struct Numbered {
    pub number: u32,
    pub len: usize,
}

/// The number of one digit or two, from 1, that stands at the front with a dot and a blank behind it.
pub fn number_at(text: &[u8]) -> Option<Numbered>
    ensures value { result ≡ number_at text.now }
    ensures range { IfSome result (λ found. (0 < found.number) × (found.number < 100)) }
    ensures some { IfSome result (λ found. 0 < found.len) }
    ensures inside { IfSome result (λ found. found.len ≤ length text.now) }
{
    let (number, rest) = short_number(text)?;
    let [b'.', b' ', rest @ ..] = rest else {
        return None;
    };
    if number == 0 {
        return None;
    }
    Some(Numbered {
        number,
        len: text.len() - rest.len(),
    })
}
