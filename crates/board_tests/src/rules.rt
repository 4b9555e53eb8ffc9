//! Counts and positions from outside: the published numbers of lists of moves, and the rule book's
//! hard cases.
use draughts_board::{Move, Position, Side, Square};
use draughts_rules::{
    ResolveRefusal, apply, has_move, is_legal, legal_moves, move_to, resolve, successors,
};
use std::alloc::{AllocError, Global};
use std::test::Fail;

/// The position after each list of one more move.
fn one_move_on(alloc: Global, positions: &[Position]) -> Result<Vec<Position>, AllocError> {
    let mut next = Vec::new(alloc);
    for p in positions {
        for m in &legal_moves(alloc, p)? {
            if is_legal(p, m) {
                next.push(apply(p, m))?;
            }
        }
    }
    Ok(next)
}

#[test]
fn counts_lists_of_moves(rt: HostRuntime) -> Result<(), Fail> {
    let mut reached = [Position::start()].to_vec(rt.alloc())?;
    for count in [7, 49, 302, 1469, 7361, 36768] {
        reached = one_move_on(rt.alloc(), &reached)?;
        assert_eq!(rt; reached.len(), count);
    }
    Ok(())
}

/// The masks of a position: Black's men and kings, and White's.
type Masks = [u32; 4];

/// A Black king on 2 that can jump round four White men, on 6, 7, 14 and 15.
const KING_ROUND: Masks = [0, 1 << 1, 0x0000_6060, 0];

/// A Black man there, that can jump two of them.
const MAN_ROUND: Masks = [1 << 1, 0, 0x0000_6060, 0];

/// A Black man on 22 that is crowned by a jump over the White man on 26, and another White man on
/// 27.
const CROWNING: Masks = [1 << 21, 0, 0x0600_0000, 0];

/// The numbers of the squares of a path.
type Path = &'static [u8];

/// Whether the move goes over the squares with these numbers.
fn is_path(m: &Move, numbers: &[u8]) -> bool {
    for (square, number) in m.path().iter().zip(numbers) {
        if square.number() != *number {
            return false;
        }
    }
    m.path().len() == numbers.len()
}

/// Whether the moves have these paths, in this order.
fn are_paths(moves: &[Move], paths: &[Path]) -> bool {
    for (m, path) in moves.iter().zip(paths) {
        if !is_path(m, path) {
            return false;
        }
    }
    moves.len() == paths.len()
}

/// Whether those are the position's legal moves, and this its only successor.
fn has_moves(
    alloc: Global,
    p: &Position,
    paths: &[Path],
    next: &Position,
) -> Result<(bool, bool), AllocError> {
    let has_paths = are_paths(legal_moves(alloc, p)?.as_slice(), paths);
    let is_next = successors(alloc, p)?.as_slice() == [*next].as_slice();
    Ok((has_paths, is_next))
}

/// The king alone, behind both ways round, with White to move.
const KING_ALONE: Masks = [0, 1 << 1, 0, 0];

/// Whether a move leads to the position, and over squares with these numbers; none where none does.
fn is_move_to(
    alloc: Global,
    p: &Position,
    next: &Position,
    path: &[u8],
) -> Result<Option<bool>, AllocError> {
    match move_to(alloc, p, next)? {
        Some(m) => Ok(Some(is_path(&m, path))),
        None => Ok(None),
    }
}

#[test]
fn king_jumps_round_to_its_start(rt: HostRuntime) -> Result<(), Fail> {
    let p = Position::of_masks(KING_ROUND, Side::Black).ok_or("a position")?;
    let bare = Position::of_masks(KING_ALONE, Side::White).ok_or("a position")?;
    let (one, other) = ([2, 9, 18, 11, 2].as_slice(), [2, 11, 18, 9, 2].as_slice());
    let moves = has_moves(rt.alloc(), &p, &[one, other], &bare)?;
    assert_eq!(rt; moves, (true, true));
    // Both ways round lead there, and the lesser path is found; no move leads back to the position
    // itself.
    let found = (
        is_move_to(rt.alloc(), &p, &bare, one)?,
        is_move_to(rt.alloc(), &p, &p, one)?,
    );
    assert_eq!(rt; found, (Some(true), None));
    Ok(())
}

/// The man is a king on 31, and the man on 27 is left.
const CROWNED: Masks = [0, 1 << 30, 1 << 26, 0];

#[test]
fn crowned_man_stops(rt: HostRuntime) -> Result<(), Fail> {
    let p = Position::of_masks(CROWNING, Side::Black).ok_or("a position")?;
    let crowned = Position::of_masks(CROWNED, Side::White).ok_or("a position")?;
    let moves = has_moves(rt.alloc(), &p, &[&[22, 31]], &crowned)?;
    assert_eq!(rt; moves, (true, true));
    Ok(())
}

/// Whether the move over 22 and these squares is legal where the man is crowned.
fn is_legal_there(second: u8, third: Option<u8>) -> Option<bool> {
    let p = Position::of_masks(CROWNING, Side::Black)?;
    let squares = [
        Square::new(22)?,
        Square::new(second)?,
        Square::new(third.unwrap_or(second))?,
    ];
    let count = if third.is_some() { 3 } else { 2 };
    Some(is_legal(&p, &Move::of(squares.get(..count)?)?))
}

#[test]
fn tells_legal_moves(rt: HostRuntime) {
    let legal = [
        is_legal_there(31, None),
        is_legal_there(31, Some(24)),
        is_legal_there(18, None),
    ];
    assert_eq!(rt; legal, [Some(true), Some(false), Some(false)]);
}

/// Whether the side has a move, with a Black man on 12 and these White men.
fn can_move(white_men: u32, to_move: Side) -> Option<bool> {
    let p = Position::of_masks([1 << 11, 0, white_men, 0], to_move)?;
    Some(has_move(&p))
}

#[test]
fn a_blocked_man_has_no_move(rt: HostRuntime) {
    // White men on 16 and 19, and on 16 alone.
    let both = 1 << 15 | 1 << 18;
    let moves = [
        can_move(both, Side::Black),
        can_move(both, Side::White),
        can_move(1 << 15, Side::Black),
    ];
    assert_eq!(rt; moves, [Some(false), Some(true), Some(true)]);
}

/// What a written move comes to: the move that is meant, two that may be meant, or none.
#[derive(Clone, Copy)]
enum Due {
    Meant(Path),
    Either(Path, Path),
    Illegal,
}

/// Black's masks and White's, a written move's first square, one between if it is named, and its last,
/// and what it comes to.
type Written = (Masks, u8, Option<u8>, u8, Due);

const WRITTEN: [Written; 4] = [
    // Both ways round lead to one position, so the first is meant.
    (KING_ROUND, 2, None, 2, Due::Meant(&[2, 9, 18, 11, 2])),
    // A man goes one way or the other, and the men that are left differ.
    (
        MAN_ROUND,
        2,
        None,
        18,
        Due::Either(&[2, 9, 18], &[2, 11, 18]),
    ),
    (MAN_ROUND, 2, Some(9), 18, Due::Meant(&[2, 9, 18])),
    // A crowned man jumps no further.
    (CROWNING, 22, Some(31), 24, Due::Illegal),
];

/// A written move of a position in which Black is to move: the square between stands first in
/// `middle` where one is named.
#[derive(Clone, Copy)]
struct Asked {
    position: Position,
    from: Square,
    middle: [Square; 1],
    named: usize,
    to: Square,
}

/// The written move.
fn written_out(case: &Written) -> Option<Asked> {
    Some(Asked {
        position: Position::of_masks(case.0, Side::Black)?,
        from: Square::new(case.1)?,
        middle: [Square::new(case.2.unwrap_or(1))?],
        named: case.2.is_some() as usize,
        to: Square::new(case.3)?,
    })
}

/// Whether a written move comes to what is due.
fn meets(found: &Result<Move, ResolveRefusal>, due: &Due) -> bool {
    match (found, due) {
        (Ok(m), Due::Meant(path)) => is_path(m, path),
        (Err(ResolveRefusal::Ambiguous(a, b)), Due::Either(one, other)) => {
            is_path(a, one) && is_path(b, other)
        }
        (Err(ResolveRefusal::Illegal), Due::Illegal) => true,
        _ => false,
    }
}

/// Whether the written move comes to what is due, by the rules and on masks.
fn is_resolved(alloc: Global, case: &Written) -> Option<[bool; 2]> {
    let asked = written_out(case)?;
    let Asked {
        position,
        from,
        to,
        ..
    } = asked;
    let middle = asked.middle.get(..asked.named).unwrap_or(&[]);
    let by_rules = resolve(alloc, &position, from, middle, to);
    let on_masks = swift_moves::resolve(alloc, &position, from, middle, to);
    Some([meets(&by_rules, &case.4), meets(&on_masks, &case.4)])
}

#[test]
fn resolves_written_moves(rt: HostRuntime) {
    for case in &WRITTEN {
        assert_eq!(rt; is_resolved(rt.alloc(), case), Some([true, true]));
    }
}
