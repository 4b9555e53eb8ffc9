//! Reading a text from the front. Each part answers what it read and the bytes behind it.
ghost use Rattle.std.specs.Prelude.{◌≡◌, ◌<◌, ◌≤◌, ◌↔◌, IfOk, IfSome, length};
ghost use Rattle.std.specs.Option.{option_map};
ghost use Rattle.draughts_board.specs.Board.{Board, IsLawful};
ghost use Rattle.fen_text.specs.Spelled.{Spells};
ghost use Rattle.fen_text.specs.Printed.{fen_of};
ghost use Rattle.fen_text.specs.Refusal.{IsFenFault, IsFaultWithin, refusal_at};
ghost use Rattle.fen_text.specs.declared.refusal.FenRefusal.{FenRefusal};
ghost use Rattle.fen_text.specs.Reading.{Gives, byte_at, side_at, second_digit, square_at, king_at, last_at};
ghost use Rattle.fen_text.specs.Reading.{item_at, without_blanks, after_comma, items_at, list_at, without_stop};
ghost use Rattle.fen_text.specs.Reading.{end_at, form_at};
ghost use Rattle.fen_text.specs.Seen.{group_seen, GivesGroups, GivesSetup};

use crate::fault::Fault;
use crate::group::Group;
use crate::printing::letter;
use crate::refusal::FenRefusal;
use crate::setup::Setup;
use draughts_board::{Position, Side, Square};

/// This byte.
#[tactic(auto, unfolding(crate::specs::Reading::byte_at))]
fn byte(due: u8, bytes: &[u8]) -> Result<&[u8], Fault>
    ensures { Gives (λ x. x.now) result (byte_at due bytes.now) }
{
    match bytes {
        [] => Err(Fault::End),
        [b, behind @ ..] if *b == due => Ok(behind),
        _ => Err(Fault::Letter(bytes.len())),
    }
}

/// A letter of either side.
#[tactic(auto, unfolding(crate::specs::Reading::side_at))]
fn side(bytes: &[u8]) -> Result<(Side, &[u8]), Fault>
    ensures { Gives (λ x. (x.0, x.1.now)) result (side_at bytes.now) }
{
    match bytes {
        [] => Err(Fault::End),
        [b'B', behind @ ..] => Ok((Side::Black, behind)),
        [b'W', behind @ ..] => Ok((Side::White, behind)),
        _ => Err(Fault::Letter(bytes.len())),
    }
}

/// The number behind its first digit: of two digits where two stand, or else of one.
fn second_digit(tens: u8, bytes: &[u8]) -> (u8, &[u8])
    requires { tens ≤ 9 }
    ensures value { (result.0, result.1.now) ≡ second_digit tens bytes.now }
    ensures length { length result.1.now ≤ length bytes.now }
{
    match bytes {
        [digit, behind @ ..] if digit.is_ascii_digit() => (10 * tens + (*digit - b'0'), behind),
        _ => (tens, bytes),
    }
}

/// A square that is no less than `least`.
#[tactic(auto, unfolding(crate::specs::Reading::square_at))]
fn square(least: u8, bytes: &[u8]) -> Result<(Square, &[u8]), Fault>
    requires { 1 ≤ least }
    ensures value { Gives (λ x. (x.0, x.1.now)) result (square_at least bytes.now) }
    ensures shorter { IfOk result (λ x. length x.1.now < length bytes.now) }
    ensures least { IfOk result (λ x. least ≤ x.0) }
{
    let [first, behind @ ..] = bytes else {
        return Err(Fault::End);
    };
    if !first.is_ascii_digit() {
        return Err(Fault::Number(bytes.len()));
    }
    let (number, behind) = second_digit(*first - b'0', behind);
    match Square::new(number) {
        Some(square) if least <= number => Ok((square, behind)),
        _ => Err(Fault::Number(bytes.len())),
    }
}

/// Whether a `K` stands in front.
fn king(bytes: &[u8]) -> (bool, &[u8])
    ensures value { (result.0, result.1.now) ≡ king_at bytes.now }
    ensures length { length result.1.now ≤ length bytes.now }
{
    match bytes {
        [b'K', behind @ ..] => (true, behind),
        _ => (false, bytes),
    }
}

/// The last square of a range, or the one square.
#[tactic(auto, unfolding(crate::specs::Reading::last_at))]
fn last(first: Square, bytes: &[u8]) -> Result<(Square, &[u8]), Fault>
    ensures value { Gives (λ x. (x.0, x.1.now)) result (last_at first bytes.now) }
    ensures length { IfOk result (λ x. length x.1.now ≤ length bytes.now) }
    ensures rising { IfOk result (λ x. first ≤ x.0) }
{
    match bytes {
        [b'-', behind @ ..] => square(first.number(), behind),
        _ => Ok((first, bytes)),
    }
}

/// An item of this side's list.
#[tactic(auto, unfolding(crate::specs::Reading::item_at))]
fn item(side: Side, bytes: &[u8]) -> Result<(Group, &[u8]), Fault>
    ensures value { Gives (λ x. (group_seen x.0, x.1.now)) result (item_at side bytes.now) }
    ensures shorter { IfOk result (λ x. length x.1.now < length bytes.now) }
    ensures rising { IfOk result (λ x. x.0.first ≤ x.0.last) }
{
    let (king, behind) = king(bytes);
    let (first, behind) = match square(1, behind) {
        Ok(read) => read,
        Err(fault) => return Err(fault),
    };
    match last(first, behind) {
        Ok((last, behind)) => {
            let group = Group {
                side,
                king,
                first,
                last,
            };
            Ok((group, behind))
        }
        Err(fault) => Err(fault),
    }
}

/// Behind the blanks in front.
fn without_blanks(bytes: &[u8]) -> &[u8]
    ensures value { result.now ≡ without_blanks bytes.now }
    ensures length { length result.now ≤ length bytes.now }
{
    let mut rest = bytes;
    while let [b' ', behind @ ..] = rest {
        rest = behind;
    }
    rest
}

/// Behind a comma and its blanks, where a comma stands in front.
fn after_comma(bytes: &[u8]) -> Option<&[u8]>
    ensures value { option_map (λ x. x.now) result ≡ after_comma bytes.now }
    ensures shorter { IfSome result (λ x. length x.now < length bytes.now) }
{
    match bytes {
        [b',', behind @ ..] => Some(without_blanks(behind)),
        _ => None,
    }
}

/// An item and the items behind it.
fn items<'a>(setup: &mut Setup, side: Side, bytes: &'a [u8]) -> Result<&'a [u8], Fault>
    ensures { GivesGroups (λ x. x.now) setup.old setup.new result (items_at side bytes.now) }
{
    let mut rest = bytes;
    loop {
        let behind = match item(side, rest) {
            Ok((group, behind)) => {
                setup.add(&group);
                behind
            }
            Err(fault) => return Err(fault),
        };
        match after_comma(behind) {
            Some(next) => rest = next,
            None => return Ok(behind),
        }
    }
}

/// The items of a list, if any.
#[tactic(auto, unfolding(crate::specs::Reading::list_at))]
fn list<'a>(setup: &mut Setup, side: Side, bytes: &'a [u8]) -> Result<&'a [u8], Fault>
    ensures { GivesGroups (λ x. x.now) setup.old setup.new result (list_at side bytes.now) }
{
    match bytes {
        [b'K' | b'0'..=b'9', ..] => items(setup, side, bytes),
        _ => Ok(bytes),
    }
}

/// Behind a full stop, where one stands in front.
fn without_stop(bytes: &[u8]) -> &[u8]
    ensures { result.now ≡ without_stop bytes.now }
{
    match bytes {
        [b'.', behind @ ..] => behind,
        _ => bytes,
    }
}

/// Nothing stands there.
fn end(bytes: &[u8]) -> Result<(), Fault>
    ensures { Gives (λ x. x) result (end_at bytes.now) }
{
    if bytes.is_empty() {
        Ok(())
    } else {
        Err(Fault::Letter(bytes.len()))
    }
}

/// The whole text: the side to move, and what the two lists name.
#[tactic(auto, unfolding(crate::specs::Reading::form_at))]
fn form(text: &[u8]) -> Result<(Side, Setup), Fault>
    ensures { GivesSetup result (form_at text.now) }
{
    let mut setup = Setup::new();
    let (to_move, rest) = side(text)?;
    let rest = byte(b':', rest)?;
    let (colour, rest) = side(rest)?;
    let rest = list(&mut setup, colour, rest)?;
    let rest = byte(b':', rest)?;
    let rest = byte(letter(colour.other()), rest)?;
    let rest = list(&mut setup, colour.other(), rest)?;
    end(without_stop(rest))?;
    Ok((to_move, setup))
}

/// The refusal that answers a fault in a text of this length.
fn refusal_of(fault: Fault, len: usize) -> FenRefusal
    requires { IsFaultWithin len fault }
    ensures { result ≡ refusal_at len fault }
{
    match fault {
        Fault::Letter(left) => FenRefusal::BadLetter(len - left),
        Fault::Number(left) => FenRefusal::BadSquare(len - left),
        Fault::End => FenRefusal::Truncated,
    }
}

/// The position that a FEN spells.
///
/// Every spelling of the grammar is read: either order of the lists, ranges, `K` before an item,
/// blanks behind a comma, a 0 before a square of one digit, and a full stop at the end. Squares are
/// numbered 1 to 32 and places are bytes from 0. No memory is taken.
///
/// The first place that cannot go on is answered: `BadLetter`, `BadSquare` or `Truncated`. Of a
/// text that has the form, the least square that is named more than once is answered as `Twice`;
/// else a side with more than 12 pieces as `TooMany`, Black counted first; else the least square
/// with a man on its farthest row as `ManOnLastRow`.
pub fn read_fen(text: &[u8]) -> Result<Position, FenRefusal>
    // What is read is what the text spells.
    ensures ok { (p : Board) → (result ≡ Ok p) ↔ Spells text.now p }

    // What is printed is read as the position that it was printed from.
    ensures printed { (p : Board) → IsLawful p → text.now ≡ fen_of p → result ≡ Ok p }

    // Each refusal comes exactly where the text has that fault.
    ensures refused { (fault : FenRefusal) → (result ≡ Err fault) ↔ IsFenFault text.now fault }
{
    let (to_move, setup) = match form(text) {
        Ok(found) => found,
        Err(fault) => return Err(refusal_of(fault, text.len())),
    };
    if let Some(square) = setup.twice {
        return Err(FenRefusal::Twice(square));
    }
    match Position::place(setup.cells, to_move) {
        Ok(position) => Ok(position),
        Err(refusal) => Err(FenRefusal::from(refusal)),
    }
}
