//! What one line says.
ghost use Rattle.std.specs.Prelude.{◌≡◌, ◌≢◌, ◌++◌, ◌∷◌, ◌<◌, ◌≤◌, ◌^◌, ◌⊎◌, ◌↔◌, ℕ, IsTrue, List, Option, option_copied, All, IfSome, IfNone, decimal, length};
ghost use Rattle.draughts_board.specs.Geometry.{IsSquare};
ghost use Rattle.draughts_board.specs.declared.pieces.Side.{Side as Player};
ghost use Rattle.strategy_certificate.specs.declared.claims.Claim.{Claim as Value};
ghost use Rattle.strategy_certificate.specs.declared.entries.TheConstants.{MOST_RANK};
ghost use Rattle.strategy_certificate.specs.Parts.{IsPath};
ghost use Rattle.shared_words.specs.Bytes.{Lacks};
ghost use Rattle.certificate_text.specs.Lines.{Line, table, position, claim, win_entry, hold_entry, line_text, separator as separator_of, squares_text, move_text, choice_text, side_word};
ghost use Rattle.strategy_certificate.specs.Tables.{IsTableSize};
ghost use Rattle.certificate_text.specs.Refusals.{BeginsPart};
ghost use Rattle.certificate_text.specs.Steps.{behind_field};
ghost use Rattle.certificate_text.specs.Headings.{said};

use crate::printing;
use draughts_board::{Move, Side, Square};
use shared_words::{number_to, split_once};
use strategy_certificate::{Claim, MOST_RANK};

/// The bytes are this text.
pub(crate) fn is(bytes: &[u8], text: &str) -> bool
    ensures { IsTrue result ↔ (bytes.now ≡ text.now) }
{
    bytes == text.as_bytes()
}

/// The first field of a line, and what stands behind its blank, if one does.
fn split_field(line: &[u8]) -> (&[u8], Option<&[u8]>)
    ensures field { Lacks 32 result.0.now }
    ensures line { line.now ≡ result.0.now ++ behind_field (option_copied result.1) }
{
    match split_once(line, b' ') {
        Some((field, behind)) => (field, Some(behind)),
        None => (line, None),
    }
}

/// The square whose number these bytes are.
fn square(text: &[u8]) -> Option<Square>
    ensures some { IfSome result (λ s. IsSquare s × (text.now ≡ decimal s)) }
    ensures none { IfNone result ((s : ℕ) → IsSquare s → text.now ≢ decimal s) }
{
    let n = number_to(text, 32)?;
    Square::new(n as u8)
}

/// The path, of 2 to 13 squares, that these bytes are with the separator between each two.
fn squares(text: &[u8], separator: u8) -> Option<Move>
    requires { (separator ≡ 45) ⊎ (separator ≡ 120) }
    ensures some { IfSome result (λ path. IsPath path × (text.now ≡ squares_text separator path)) }
    ensures none { IfNone result ((path : List ℕ) → IsPath path
        → text.now ≢ squares_text separator path) }
{
    let mut path = [Square::new(1).unwrap(); 13];
    let mut count = 0;
    let mut rest = text;
    while let Some((word, behind)) = split_once(rest, separator) {
        if count == 12 {
            return None;
        }
        path[count] = square(word)?;
        count += 1;
        rest = behind;
    }
    path[count] = square(rest)?;
    Move::of(&path[..count + 1])
}

/// The move that these bytes are, where this is its separator.
fn move_with(text: &[u8], separator: u8) -> Option<Move>
    requires { (separator ≡ 45) ⊎ (separator ≡ 120) }
    ensures some { IfSome result (λ path. IsPath path × (text.now ≡ move_text path)) }
    ensures none { IfNone result ((path : List ℕ) → IsPath path
        → separator_of path ≡ separator → text.now ≢ move_text path) }
{
    let chosen = squares(text, separator)?;
    if printing::separator(chosen.path()) == separator {
        Some(chosen)
    } else {
        None
    }
}

/// The move that these bytes are.
fn move_of(text: &[u8]) -> Option<Move>
    ensures some { IfSome result (λ path. IsPath path × (text.now ≡ move_text path)) }
    ensures none { IfNone result ((path : List ℕ) → IsPath path → text.now ≢ move_text path) }
{
    match move_with(text, b'x') {
        Some(chosen) => Some(chosen),
        None => move_with(text, b'-'),
    }
}

/// What is chosen where these bytes stand behind a field; none where they are no move.
fn choice(behind: Option<&[u8]>) -> Option<Option<Move>>
    ensures some { IfSome result (λ chosen. IfSome chosen IsPath
        × (behind_field (option_copied behind.entry) ≡ choice_text chosen)) }
    ensures none { IfNone result ((chosen : Option (List ℕ)) → IfSome chosen IsPath
        → behind_field (option_copied behind.entry) ≢ choice_text chosen) }
{
    match behind {
        Some(text) => Some(Some(move_of(text)?)),
        None => Some(None),
    }
}

/// The number of pieces that a line says.
pub(crate) fn table_of(line: &[u8]) -> Option<u8>
    ensures some { IfSome result (λ pieces. IsTableSize pieces
        × (line.now ≡ line_text (table pieces))) }
    ensures none { IfNone result ((pieces : ℕ) → IsTableSize pieces
        → line.now ≢ line_text (table pieces)) }
{
    if is(line, "table 2") {
        Some(2)
    } else if is(line, "table 3") {
        Some(3)
    } else {
        None
    }
}

/// What stands behind this beginning of a line.
fn behind<'a>(line: &'a [u8], beginning: &str) -> Option<&'a [u8]>
    ensures some { IfSome result (λ rest. line.now ≡ beginning.now ++ rest.now) }
    ensures none { IfNone result ((rest : List ℕ) → line.now ≢ beginning.now ++ rest) }
{
    let length = beginning.len();
    if line.len() >= length && is(&line[..length], beginning) {
        Some(&line[length..])
    } else {
        None
    }
}

/// The field of the position that a line says.
pub(crate) fn position_field(line: &[u8]) -> Option<&[u8]>
    ensures some { IfSome result (λ field. Lacks 32 field.now
        × (line.now ≡ line_text (position field.now))) }
    ensures none { IfNone result ((field : List ℕ) → Lacks 32 field
        → line.now ≢ line_text (position field)) }
{
    let field = behind(line, "position ")?;
    match split_once(field, b' ') {
        Some(_) => None,
        None => Some(field),
    }
}

/// The claim that a line says.
pub(crate) fn claim_of(line: &[u8]) -> Option<Claim>
    ensures some { IfSome result (λ c. line.now ≡ line_text (claim c)) }
    ensures none { IfNone result ((c : Value) → line.now ≢ line_text (claim c)) }
{
    if is(line, "claim black-wins") {
        Some(Claim::Win(Side::Black))
    } else if is(line, "claim white-wins") {
        Some(Claim::Win(Side::White))
    } else if is(line, "claim black-holds") {
        Some(Claim::Hold(Side::Black))
    } else if is(line, "claim white-holds") {
        Some(Claim::Hold(Side::White))
    } else if is(line, "claim draw") {
        Some(Claim::Draw)
    } else {
        None
    }
}

/// A line behind a whole part.
#[derive(Clone, Copy)]
pub(crate) enum Heading {
    /// A win part with this number of entries begins.
    Win(Side, u32),
    /// A hold part with this number of entries begins.
    Hold(Side, u32),
    /// The text ends.
    End,
}

/// The side and the count of entries that a part's first line says behind the part's kind.
fn side_and_count(text: &[u8]) -> Option<(Side, u32)>
    ensures some { IfSome result (λ found. (found.1 < 2 ^ 32)
        × (text.now ≡ side_word found.0 ++ 32 ∷ decimal found.1)) }
    ensures none { IfNone result ((side : Player) (count : ℕ) → count < 2 ^ 32
        → text.now ≢ side_word side ++ 32 ∷ decimal count) }
{
    let (word, count) = split_once(text, b' ')?;
    let count = number_to(count, u64::from(u32::MAX))? as u32;
    if is(word, "black") {
        Some((Side::Black, count))
    } else if is(word, "white") {
        Some((Side::White, count))
    } else {
        None
    }
}

/// What a line behind a whole part says.
pub(crate) fn heading_of(line: &[u8]) -> Option<Heading>
    ensures some { IfSome result (λ h. BeginsPart (said h) × (line.now ≡ line_text (said h))) }
    ensures none { IfNone result ((l : Line) → BeginsPart l → line.now ≢ line_text l) }
{
    if is(line, "end") {
        return Some(Heading::End);
    }
    if let Some(rest) = behind(line, "win ") {
        let (side, count) = side_and_count(rest)?;
        return Some(Heading::Win(side, count));
    }
    let rest = behind(line, "hold ")?;
    let (side, count) = side_and_count(rest)?;
    Some(Heading::Hold(side, count))
}

/// The field of the position, the rank and the move that an entry line of a win part says.
pub(crate) fn win_entry(line: &[u8]) -> Option<(&[u8], u64, Option<Move>)>
    ensures some { IfSome result (λ e. Lacks 32 e.0.now × ((e.1 ≤ MOST_RANK) × (IfSome e.2 IsPath
        × (line.now ≡ line_text (win_entry e.0.now e.1 e.2))))) }
    ensures none { IfNone result ((field : List ℕ) (rank : ℕ) (chosen : Option (List ℕ))
        → Lacks 32 field → rank ≤ MOST_RANK → IfSome chosen IsPath
        → line.now ≢ line_text (win_entry field rank chosen)) }
{
    let (field, behind) = split_once(line, b' ')?;
    let (rank, behind) = split_field(behind);
    let rank = number_to(rank, MOST_RANK)?;
    let chosen = choice(behind)?;
    Some((field, rank, chosen))
}

/// The field of the position and the move that an entry line of a hold part says.
pub(crate) fn hold_entry(line: &[u8]) -> Option<(&[u8], Option<Move>)>
    ensures some { IfSome result (λ e. Lacks 32 e.0.now × (IfSome e.1 IsPath
        × (line.now ≡ line_text (hold_entry e.0.now e.1)))) }
    ensures none { IfNone result ((field : List ℕ) (chosen : Option (List ℕ)) → Lacks 32 field
        → IfSome chosen IsPath → line.now ≢ line_text (hold_entry field chosen)) }
{
    let (field, behind) = split_field(line);
    let chosen = choice(behind)?;
    Some((field, chosen))
}
