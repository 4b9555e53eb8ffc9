//! What a book knows and answers, on Black's win of two men against one in six positions: 13-17
//! leaves White two moves, and after each Black takes the man or blocks it.
ghost use Rattle.std.specs.Prelude.{◌≡◌, IfOk};

use certificate_checker::{Proved, check};
use draughts_board::{Move, Position, Side, Square, Value};
use endgame_table::{Table, fill};
use fen_text::read_fen;
use proof_numbers::Facts;
use proved_book::Book;
use std::alloc::{AllocError, Global};
use std::test::Fail;
use strategy_certificate::{
    Certificate, Claim, HoldPart, MOST_RANK, Part, PartList, WinEntry, WinPart,
};

/// An entry: its position, its rank and the squares of its move.
type Row = (&'static str, u64, Option<(u8, u8)>);

const WON: [Row; 6] = [
    ("B:W25:B10,13", 3, Some((13, 17))),
    ("W:W25:B10,17", 2, None),
    ("B:W21:B10,17", 1, Some((10, 14))),
    ("W:W21:B14,17", 0, None),
    ("B:W22:B10,17", 1, Some((17, 26))),
    ("W:W:B10,26", 0, None),
];

/// The places of the entries that are reached from each of them.
const REACHED: [&[usize]; 6] = [
    &[0, 1, 2, 3, 4, 5],
    &[1, 2, 3, 4, 5],
    &[2, 3],
    &[3],
    &[4, 5],
    &[5],
];

/// A position in which Black takes one king of two with its own. Of a king each, in reach of its
/// double corner, neither wins.
const DRAWN: &str = "B:WK6,K32:BK1";

/// After that, which is no entry.
const DRAWN_NEXT: &str = "W:WK32:BK10";

/// The move between the two squares.
fn step(squares: Option<(u8, u8)>) -> Option<Move> {
    let (from, to) = squares?;
    Move::of(&[Square::new(from)?, Square::new(to)?])
}

/// The certificate, checked by the table of two pieces.
fn checked(
    alloc: Global,
    table: &Table,
    position: Position,
    claim: Claim,
    parts: Vec<Part>,
) -> Result<Proved, Fail>
    requires { table.now.pieces ≡ 2 }
    ensures { IfOk result (λ proved. proved.pieces ≡ 2) }
{
    let certificate = Certificate {
        position,
        claim,
        pieces: 2,
        parts: PartList::from_vec(parts),
    };
    match check(alloc, certificate, table) {
        Ok(proved) => Ok(proved),
        Err(refused) => Err(Fail::from(refused.1)),
    }
}

/// The certificate of Black's win, with each rank multiplied by `times`.
fn won(alloc: Global, table: &Table, times: u64) -> Result<Proved, Fail>
    requires { table.now.pieces ≡ 2 }
    ensures { IfOk result (λ proved. proved.pieces ≡ 2) }
{
    let mut part = WinPart::new(alloc, Side::Black)?;
    for &(text, rank, squares) in &WON {
        let p = read_fen(text.as_bytes())?;
        let rank = rank.saturating_mul(times).min(MOST_RANK);
        let chosen = step(squares);
        part.add_new(p, WinEntry { rank, chosen })?;
    }
    let position = read_fen(WON[0].0.as_bytes())?;
    let parts = vec![in alloc; Part::Win(part)]?;
    checked(alloc, table, position, Claim::Win(Side::Black), parts)
}

/// The hold part of the drawn position, with the move of the side that is to move.
fn held(alloc: Global, side: Side) -> Result<Part, Fail> {
    let p = read_fen(DRAWN.as_bytes())?;
    let mut part = HoldPart::new(alloc, side)?;
    let chosen = match side {
        Side::Black => step(Some((1, 10))),
        Side::White => None,
    };
    part.add_new(p, chosen)?;
    Ok(Part::Hold(part))
}

/// The certificate of the draw.
fn drawn(alloc: Global, table: &Table) -> Result<Proved, Fail>
    requires { table.now.pieces ≡ 2 }
    ensures { IfOk result (λ proved. proved.pieces ≡ 2) }
{
    let p = read_fen(DRAWN.as_bytes())?;
    let black = held(alloc, Side::Black)?;
    let white = held(alloc, Side::White)?;
    checked(alloc, table, p, Claim::Draw, vec![in alloc; black, white]?)
}

/// The certificate of White's hold alone.
fn half_drawn(alloc: Global, table: &Table) -> Result<Proved, Fail>
    requires { table.now.pieces ≡ 2 }
    ensures { IfOk result (λ proved. proved.pieces ≡ 2) }
{
    let p = read_fen(DRAWN.as_bytes())?;
    let white = held(alloc, Side::White)?;
    checked(
        alloc,
        table,
        p,
        Claim::Hold(Side::White),
        vec![in alloc; white]?,
    )
}

/// A book with this certificate.
fn book_with(alloc: Global, proved: Proved) -> Result<Book, AllocError>
    requires { proved.pieces ≡ 2 }
    ensures { IfOk result (λ book. book.pieces ≡ 2) }
{
    let mut book = Book::new(alloc, 2)?;
    book.add(proved)?;
    Ok(book)
}

/// Whether the entry at this place is that row, its rank so much higher.
fn is_row(part: &WinPart, place: usize, row: &Row, higher: u64) -> bool {
    if place >= part.len() {
        return false;
    }
    let Ok(p) = read_fen(row.0.as_bytes()) else {
        return false;
    };
    let (q, e) = part.entry(place);
    q == p && e.rank == row.1.saturating_add(higher) && e.chosen == step(row.2)
}

/// Whether the part has the rows at these places, with ranks so much higher, and no other.
fn has_rows(part: &WinPart, due: &[usize], higher: u64) -> bool {
    for (place, &number) in due.iter().enumerate() {
        let Some(row) = WON.get(number) else {
            return false;
        };
        if !is_row(part, place, row, higher) {
            return false;
        }
    }
    part.len() == due.len()
}

/// Whether the book answers the position with the certificate of Black's win that has these rows,
/// their ranks so much higher.
fn answers_win(
    book: &Book,
    table: &Table,
    asked: &str,
    due: &[usize],
    higher: u64,
) -> Result<bool, Fail>
    requires { table.now.pieces ≡ book.now.pieces }
{
    let p = read_fen(asked.as_bytes())?;
    let Some(proofs) = book.answer(&p, table)? else {
        return Ok(false);
    };
    let [proved] = proofs.as_slice() else {
        return Ok(false);
    };
    let c = proved.certificate();
    let [Part::Win(part)] = c.parts.as_slice() else {
        return Ok(false);
    };
    Ok(
        c.position == p
            && c.claim == Claim::Win(Side::Black)
            && c.pieces == 2
            && has_rows(part, due, higher),
    )
}

/// The first of the positions that a book with the win answers otherwise, where its ranks are
/// multiplied and raised by these numbers.
fn first_wrong_answer(alloc: Global, times: u64, higher: u64) -> Result<Option<usize>, Fail> {
    let table = fill(alloc, 2)?;
    let book = book_with(alloc, won(alloc, &table, times)?)?;
    for (number, (row, due)) in WON.iter().zip(&REACHED).enumerate() {
        if !answers_win(&book, &table, row.0, due, higher)? {
            return Ok(Some(number));
        }
    }
    Ok(None)
}

#[test]
fn answers_have_what_is_reached(rt: HostRuntime) -> Result<(), Fail> {
    assert_eq!(rt; first_wrong_answer(rt.alloc(), 1, 0)?, None);
    Ok(())
}

#[test]
fn long_ranks_are_kept_short(rt: HostRuntime) -> Result<(), Fail> {
    assert_eq!(rt; first_wrong_answer(rt.alloc(), 1 << 50, 1 << 32)?, None);
    Ok(())
}

/// How many certificates the book answers the position with; none where it does not answer.
fn answer_count(book: &Book, table: &Table, asked: &str) -> Result<Option<usize>, Fail>
    requires { table.now.pieces ≡ book.now.pieces }
{
    let p = read_fen(asked.as_bytes())?;
    match book.answer(&p, table)? {
        Some(proofs) => Ok(Some(proofs.as_slice().len())),
        None => Ok(None),
    }
}

/// Which claims the book answers the position with, where they are two.
fn two_claims(book: &Book, table: &Table, asked: &str) -> Result<Option<(Claim, Claim)>, Fail>
    requires { table.now.pieces ≡ book.now.pieces }
{
    let p = read_fen(asked.as_bytes())?;
    let Some(proofs) = book.answer(&p, table)? else {
        return Ok(None);
    };
    match proofs.as_slice() {
        [black, white] => Ok(Some((black.certificate().claim, white.certificate().claim))),
        _ => Ok(None),
    }
}

/// What a book with the draw answers at its position, and whether it answers the next one.
fn draw_answers(alloc: Global) -> Result<(Option<(Claim, Claim)>, Option<usize>), Fail> {
    let table = fill(alloc, 2)?;
    let book = book_with(alloc, drawn(alloc, &table)?)?;
    let claims = two_claims(&book, &table, DRAWN)?;
    Ok((claims, answer_count(&book, &table, DRAWN_NEXT)?))
}

#[test]
fn draws_are_answered_by_both_holds(rt: HostRuntime) -> Result<(), Fail> {
    let both = Some((Claim::Hold(Side::Black), Claim::Hold(Side::White)));
    assert_eq!(rt; draw_answers(rt.alloc())?, (both, None));
    Ok(())
}

/// Whether a book with one hold alone answers its position, and what it knows of it.
fn hold_answers(alloc: Global) -> Result<(Option<usize>, Facts), Fail> {
    let table = fill(alloc, 2)?;
    let book = book_with(alloc, half_drawn(alloc, &table)?)?;
    let count = answer_count(&book, &table, DRAWN)?;
    Ok((count, book.facts(&read_fen(DRAWN.as_bytes())?)))
}

#[test]
fn one_hold_is_known_and_answers_nothing(rt: HostRuntime) -> Result<(), Fail> {
    assert_eq!(rt;
        hold_answers(rt.alloc())?,
        (None, Facts::of_hold(Side::White))
    );
    Ok(())
}

/// What a book with both certificates knows of an entry of each, and of another position.
fn known(alloc: Global) -> Result<[Facts; 3], Fail> {
    let table = fill(alloc, 2)?;
    let mut book = book_with(alloc, won(alloc, &table, 1)?)?;
    book.add(drawn(alloc, &table)?)?;
    Ok([
        book.facts(&read_fen(WON[4].0.as_bytes())?),
        book.facts(&read_fen(DRAWN.as_bytes())?),
        book.facts(&Position::start()),
    ])
}

#[test]
fn knows_what_is_an_entry(rt: HostRuntime) -> Result<(), Fail> {
    let due = [
        Facts::of_win(Side::Black),
        Facts::of_value(Value::Draw),
        Facts::none(),
    ];
    assert_eq!(rt; known(rt.alloc())?, due);
    Ok(())
}
