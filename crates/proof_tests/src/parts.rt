//! Parts and how they are merged, on the White win in one: in W:W16,23:B12 the step 23-19 leaves
//! Black without a move.
use draughts_board::{Move, Position, Side, Square};
use fen_text::read_fen;
use std::alloc::{AllocError, Global};
use std::test::Fail;
use strategy_certificate::{
    Claim, HoldPart, Part, PartList, WinEntry, WinPart, as_hold, merge_holds, merge_wins,
};

const WON: &str = "W:W16,23:B12";

const BLOCKED: &str = "B:W16,19:B12";

/// An entry: its position, its rank, which a hold part leaves out, and the squares of its move.
type Row = (&'static str, u32, Option<(u8, u8)>);

const WIN_IN_ONE: [Row; 2] = [(WON, 1, Some((23, 19))), (BLOCKED, 0, None)];

/// The step from the one square to the other.
fn step(squares: Option<(u8, u8)>) -> Option<Move> {
    let (from, to) = squares?;
    Move::of(&[Square::new(from)?, Square::new(to)?])
}

/// The row's position and entry.
fn entry(row: &Row) -> Option<(Position, WinEntry)> {
    let entry = WinEntry {
        rank: row.1 as u64,
        chosen: step(row.2),
    };
    Some((read_fen(row.0.as_bytes()).ok()?, entry))
}

/// Adds an entry, unless the position has one.
fn add_win(
    part: &mut WinPart,
    p: Position,
    rank: u32,
    chosen: Option<Move>,
) -> Result<(), AllocError> {
    if part.find(&p).is_none() {
        let rank = rank as u64;
        part.add(p, WinEntry { rank, chosen })?;
    }
    Ok(())
}

/// A White win part of these entries.
fn win_part(alloc: Global, rows: &[Row]) -> Result<WinPart, Fail> {
    let mut part = WinPart::new(alloc, Side::White)?;
    for &(text, rank, squares) in rows {
        let p = read_fen(text.as_bytes())?;
        add_win(&mut part, p, rank, step(squares))?;
    }
    Ok(part)
}

/// Adds an entry, unless the position has one.
fn add_hold(part: &mut HoldPart, p: Position, chosen: Option<Move>) -> Result<(), AllocError> {
    if part.find(&p).is_none() {
        part.add(p, chosen)?;
    }
    Ok(())
}

/// A White hold part of these entries.
fn hold_part(alloc: Global, rows: &[Row]) -> Result<HoldPart, Fail> {
    let mut part = HoldPart::new(alloc, Side::White)?;
    for &(text, _, squares) in rows {
        let p = read_fen(text.as_bytes())?;
        add_hold(&mut part, p, step(squares))?;
    }
    Ok(part)
}

/// Whether this entry stands at this place of the part and is found there.
fn has_win(part: &WinPart, place: usize, row: &Row) -> bool {
    let Some((p, e)) = entry(row) else {
        return false;
    };
    if place >= part.len() {
        return false;
    }
    let (at, there) = part.entry(place);
    match part.find(&p) {
        Some(found) => at == p && there == e && found == e,
        None => false,
    }
}

/// Whether this entry stands, without its rank, at this place of the part and is found there.
fn has_hold(part: &HoldPart, place: usize, row: &Row) -> bool {
    let Some((p, e)) = entry(row) else {
        return false;
    };
    if place >= part.len() {
        return false;
    }
    let (at, there) = part.entry(place);
    match part.find(&p) {
        Some(found) => at == p && there == e.chosen && found == e.chosen,
        None => false,
    }
}

/// Whether the part is White's, and has these entries in this order and no other.
fn is_win_part(part: &WinPart, rows: &[Row]) -> bool {
    for (place, row) in rows.iter().enumerate() {
        if !has_win(part, place, row) {
            return false;
        }
    }
    part.side() == Side::White
        && part.len() == rows.len()
        && part.is_empty() == rows.is_empty()
        && part.find(&Position::start()).is_none()
}

/// Whether the part is White's, and has these entries without their ranks, in this order, and no
/// other.
fn is_hold_part(part: &HoldPart, rows: &[Row]) -> bool {
    for (place, row) in rows.iter().enumerate() {
        if !has_hold(part, place, row) {
            return false;
        }
    }
    part.side() == Side::White
        && part.len() == rows.len()
        && part.is_empty() == rows.is_empty()
        && part.find(&Position::start()).is_none()
}

/// Whether the win in one, cut to `count` entries, has those and no other.
fn keeps_first_wins(alloc: Global, count: usize) -> Result<bool, Fail> {
    let mut part = win_part(alloc, &WIN_IN_ONE)?;
    part.truncate(count);
    Ok(is_win_part(&part, WIN_IN_ONE.get(..count).unwrap_or(&WIN_IN_ONE)))
}

/// The same of its hold.
fn keeps_first_holds(alloc: Global, count: usize) -> Result<bool, Fail> {
    let mut part = hold_part(alloc, &WIN_IN_ONE)?;
    part.truncate(count);
    Ok(is_hold_part(&part, WIN_IN_ONE.get(..count).unwrap_or(&WIN_IN_ONE)))
}

#[test]
fn parts_keep_their_first_entries(rt: HostRuntime) -> Result<(), Fail> {
    for count in 0..4 {
        let kept = (
            keeps_first_wins(rt.alloc(), count)?,
            keeps_first_holds(rt.alloc(), count)?,
        );
        assert_eq!(rt; kept, (true, true), "{count} entries");
    }
    Ok(())
}

/// What adding an entry without a move tells at a position that has an entry and at one that has
/// none, and whether the part is then the hold of the win in one.
fn told_of_new_holds(alloc: Global) -> Result<(bool, bool, bool), Fail> {
    let (won, blocked) = (read_fen(WON.as_bytes())?, read_fen(BLOCKED.as_bytes())?);
    let mut part = hold_part(alloc, &[(WON, 0, Some((23, 19)))])?;
    let is_won_new = part.add_new(won, None)?;
    let is_blocked_new = part.add_new(blocked, None)?;
    Ok((is_won_new, is_blocked_new, is_hold_part(&part, &WIN_IN_ONE)))
}

#[test]
fn tells_which_holds_are_new(rt: HostRuntime) -> Result<(), Fail> {
    assert_eq!(rt; told_of_new_holds(rt.alloc())?, (false, true, true));
    Ok(())
}

/// Parts, what is merged into each, and what it then is.
const MERGED: [(&[Row], &[Row], &[Row]); 4] = [
    // The smaller rank comes in with its move, and a new position goes last.
    (&[(WON, 7, Some((16, 11)))], &WIN_IN_ONE, &WIN_IN_ONE),
    // What has an equal rank stays, with its move.
    (&WIN_IN_ONE, &[(WON, 1, Some((16, 11)))], &WIN_IN_ONE),
    // What has a smaller rank stays.
    (&WIN_IN_ONE, &[(BLOCKED, 2, None)], &WIN_IN_ONE),
    (&[], &WIN_IN_ONE, &WIN_IN_ONE),
];

/// The same of hold parts: what is there stays.
const MERGED_HOLDS: [(&[Row], &[Row], &[Row]); 2] = [
    (
        &WIN_IN_ONE,
        &[(WON, 0, Some((16, 11))), (BLOCKED, 0, None)],
        &WIN_IN_ONE,
    ),
    (&[], &WIN_IN_ONE, &WIN_IN_ONE),
];

/// Merges the wins, where both parts are of one side, and tells whether the part then has these.
fn merges(
    alloc: Global,
    into: &mut WinPart,
    from: &WinPart,
    due: &[Row],
) -> Result<bool, AllocError> {
    if into.side() != from.side() {
        return Ok(false);
    }
    merge_wins(alloc, into, from)?;
    Ok(is_win_part(into, due))
}

/// The same of holds.
fn merges_as_holds(
    alloc: Global,
    into: &mut HoldPart,
    from: &HoldPart,
    due: &[Row],
) -> Result<bool, AllocError> {
    if into.side() != from.side() {
        return Ok(false);
    }
    merge_holds(alloc, into, from)?;
    Ok(is_hold_part(into, due))
}

/// The number of the first row of `MERGED`, counted from 0, that is merged otherwise.
fn first_wrong_merge(alloc: Global) -> Result<Option<usize>, Fail> {
    for (number, &(into, from, due)) in MERGED.iter().enumerate() {
        let from = win_part(alloc, from)?;
        if !merges(alloc, &mut win_part(alloc, into)?, &from, due)? {
            return Ok(Some(number));
        }
    }
    Ok(None)
}

/// The same of `MERGED_HOLDS`.
fn first_wrong_merge_of_holds(alloc: Global) -> Result<Option<usize>, Fail> {
    for (number, &(into, from, due)) in MERGED_HOLDS.iter().enumerate() {
        let from = hold_part(alloc, from)?;
        if !merges_as_holds(alloc, &mut hold_part(alloc, into)?, &from, due)? {
            return Ok(Some(number));
        }
    }
    Ok(None)
}

/// Whether the win in one is without its ranks the hold of the same entries.
fn holds_without_ranks(alloc: Global) -> Result<bool, Fail> {
    let hold = as_hold(alloc, &win_part(alloc, &WIN_IN_ONE)?)?;
    Ok(is_hold_part(&hold, &WIN_IN_ONE))
}

#[test]
fn parts_are_merged(rt: HostRuntime) -> Result<(), Fail> {
    assert_eq!(rt; first_wrong_merge(rt.alloc())?, None);
    assert_eq!(rt; first_wrong_merge_of_holds(rt.alloc())?, None);
    assert!(rt; holds_without_ranks(rt.alloc())?);
    Ok(())
}

/// The claims of two parts; none of another number of parts.
fn claims(parts: &[Part]) -> Option<(Claim, Claim)> {
    match parts {
        [first, second] => Some((first.claim(), second.claim())),
        _ => None,
    }
}

/// Those of a Black hold part and a White win part behind it, in a list and in the `Vec` that it is
/// turned into.
fn listed_claims(alloc: Global) -> Result<[Option<(Claim, Claim)>; 2], AllocError> {
    let hold = Part::Hold(HoldPart::new(alloc, Side::Black)?);
    let win = Part::Win(WinPart::new(alloc, Side::White)?);
    let list = PartList::from_vec(vec![in alloc; hold, win]?);
    let listed = claims(list.as_slice());
    Ok([listed, claims(&list.into_vec())])
}

#[test]
fn keeps_parts_in_order(rt: HostRuntime) -> Result<(), Fail> {
    let due = Some((Claim::Hold(Side::Black), Claim::Win(Side::White)));
    assert_eq!(rt; listed_claims(rt.alloc())?, [due, due]);
    Ok(())
}
