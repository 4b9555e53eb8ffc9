//! Searches of positions of three pieces, whose values were worked out by hand, and by a program that solves
//! backwards from the end and is not kept here.
use crate::tables::filled;
use certificate_checker::{MOST_DEPTH, Outcome};
use draughts_board::{Position, Side};
use endgame_table::Table;
use fen_text::read_fen;
use leaf_search::{Memo, is_undecided, prove_fortress, search};
use std::alloc::Global;
use std::test::Fail;
use strategy_certificate::Claim;

/// 23-19 blocks the man on 12.
const WHITE_BLOCKS: &str = "W:W16,23:B12";

/// The same, turned by 180 degrees with the colours exchanged.
const BLACK_BLOCKS: &str = "B:W21:B10,17";

/// 15x24 is forced, and leaves one king a side.
const FORCED_DRAW: &str = "B:WK1,K19:BK15";

/// A draw, by the program that solves backwards.
const KING_EACH: &str = "B:WK7,16:BK8";

/// Another.
const LONE_KING: &str = "W:WK18:B5,K13";

/// What a search of the position for Black's win comes to, `depth` plies ahead; none where no search can be asked.
fn ask(
    alloc: Global,
    text: &str,
    depth: u8,
    table: &Table,
    memo: &mut Memo,
) -> Result<Option<Outcome>, Fail> {
    let p = read_fen(text.as_bytes())?;
    if !is_undecided(&p, table) || memo.pieces() != table.pieces() || depth > MOST_DEPTH {
        return Ok(None);
    }
    let outcome = search(alloc, &p, Side::Black, depth, table, memo)?;
    Ok(Some(outcome))
}

/// The only claim that came, or a draw where both holds came; none where the search was exhausted.
fn claim_of(outcome: &Option<Outcome>) -> Option<Claim> {
    match outcome {
        None | Some(Outcome::Exhausted(_)) => None,
        Some(Outcome::Solved(found)) => match found.as_slice() {
            [only] => Some(only.certificate().claim),
            _ => Some(Claim::Draw),
        },
    }
}

/// The claim that comes `depth` plies ahead.
fn solved(
    alloc: Global,
    text: &str,
    depth: u8,
    table: &Table,
    memo: &mut Memo,
) -> Result<Option<Claim>, Fail> {
    Ok(claim_of(&ask(alloc, text, depth, table, memo)?))
}

/// Positions, and the claim that comes one ply ahead and no sooner.
const SOLVED: [(&str, Claim); 3] = [
    (WHITE_BLOCKS, Claim::Win(Side::White)),
    (BLACK_BLOCKS, Claim::Win(Side::Black)),
    (FORCED_DRAW, Claim::Draw),
];

/// The first position for which another claim comes, or sooner.
fn first_wrong_claim(alloc: Global, table: &Table) -> Result<Option<&'static str>, Fail> {
    let mut memo = Memo::new(alloc, 2, 65_536)?;
    for &(text, due) in &SOLVED {
        let sooner = solved(alloc, text, 0, table, &mut memo)?;
        let found = solved(alloc, text, 1, table, &mut memo)?;
        if (sooner, found) != (None, Some(due)) {
            return Ok(Some(text));
        }
    }
    Ok(None)
}

#[test]
fn solves_three_pieces(rt: HostRuntime) -> Result<(), Fail> {
    let table = filled(rt.alloc(), false)?;
    assert_eq!(rt; first_wrong_claim(rt.alloc(), &table)?, None);
    Ok(())
}

const ALL: [&str; 5] = [
    WHITE_BLOCKS,
    BLACK_BLOCKS,
    FORCED_DRAW,
    KING_EACH,
    LONE_KING,
];

/// The first position and depth at which another claim comes with a memory of one position.
fn first_difference(alloc: Global, table: &Table) -> Result<Option<(&'static str, u8)>, Fail> {
    let mut wide = Memo::new(alloc, 2, 65_536)?;
    let mut narrow = Memo::new(alloc, 2, 1)?;
    for text in ALL {
        for depth in 0..5 {
            let found = solved(alloc, text, depth, table, &mut wide)?;
            if solved(alloc, text, depth, table, &mut narrow)? != found {
                return Ok(Some((text, depth)));
            }
        }
    }
    Ok(None)
}

#[test]
fn solves_the_same_with_a_memory_of_one_position(rt: HostRuntime) -> Result<(), Fail> {
    let table = filled(rt.alloc(), false)?;
    assert_eq!(rt; first_difference(rt.alloc(), &table)?, None);
    Ok(())
}

/// How many positions come behind an exhausted one, the depth and the goal; none of a solved one.
fn exhausted(outcome: &Option<Outcome>) -> Option<(usize, u8, Side)> {
    match outcome {
        Some(Outcome::Exhausted(found)) => {
            Some((found.children.as_slice().len(), found.depth, found.goal))
        }
        _ => None,
    }
}

/// What a search that looks no ply ahead leaves of the position.
fn left_by_a_search(alloc: Global, text: &str) -> Result<Option<(usize, u8, Side)>, Fail> {
    let table = filled(alloc, false)?;
    let mut memo = Memo::new(alloc, 2, 16)?;
    Ok(exhausted(&ask(alloc, text, 0, &table, &mut memo)?))
}

#[test]
fn gives_the_positions_after_an_exhausted_one(rt: HostRuntime) -> Result<(), Fail> {
    // 16-11, 23-18 and 23-19, where Black is blocked.
    let due = Some((3, 0, Side::Black));
    assert_eq!(rt; left_by_a_search(rt.alloc(), WHITE_BLOCKS)?, due);
    Ok(())
}

/// Whether a closed set of at most `most` positions shows that White holds.
fn is_held(alloc: Global, text: &str, most: usize, table: &Table) -> Result<bool, Fail> {
    let p = read_fen(text.as_bytes())?;
    Ok(prove_fortress(alloc, &p, Side::White, most, table)?.is_some())
}

/// The first position that no search solves as a draw, or for which no set is closed, or one of a
/// single position.
fn first_open_set(alloc: Global, table: &Table) -> Result<Option<&'static str>, Fail> {
    let mut memo = Memo::new(alloc, 2, 1_024)?;
    for text in [KING_EACH, LONE_KING] {
        let found = solved(alloc, text, 6, table, &mut memo)?;
        let held = (
            is_held(alloc, text, 400, table)?,
            is_held(alloc, text, 1, table)?,
        );
        if found != Some(Claim::Draw) || held != (true, false) {
            return Ok(Some(text));
        }
    }
    Ok(None)
}

#[test]
fn closes_sets(rt: HostRuntime) -> Result<(), Fail> {
    let table = filled(rt.alloc(), false)?;
    assert_eq!(rt; first_open_set(rt.alloc(), &table)?, None);
    Ok(())
}
