//! Printing a certificate in its one spelling.
ghost use Rattle.std.specs.Prelude.{◌≡◌, ◌++◌, ◌∷◌, ◌<◌, ◌≤◌, ◌^◌, [], IfOk, OnOk, decimal, length, codes};
ghost use Rattle.draughts_board.specs.Board.{IsLawful};
ghost use Rattle.fen_text.specs.Printed.{fen_of};
ghost use Rattle.certificate_text.specs.Lines.{line_text, text_of_lines, choice_text, separator, further_squares, move_text, side_word, claim_word};
ghost use Rattle.certificate_text.specs.Text.{text_of_certificate, part_lines, win_line, hold_line, head_lines, IsPrinted, IsPrintedPart};
ghost use Rattle.strategy_certificate.specs.Tables.{IsTableSize};
ghost use Rattle.strategy_certificate.specs.declared.certificates.Part.TheVariants as parts;

use draughts_board::{Move, Position, Side, Square};
use fen_text::print_fen;
use shared_words::push_number;
use std::alloc::{AllocError, Global};
use strategy_certificate::{Certificate, Claim, HoldPart, Part, WinEntry, WinPart};

/// The word for a side.
fn side_word(side: Side) -> &'static str
    ensures { result.now ≡ side_word side }
{
    match side {
        Side::Black => "black",
        Side::White => "white",
    }
}

/// The word for a claim: `black-wins`, `white-wins`, `black-holds`, `white-holds` or `draw`.
pub fn claim_word(claim: Claim) -> &'static str
    ensures { result.now ≡ claim_word claim }
{
    match claim {
        Claim::Win(Side::Black) => "black-wins",
        Claim::Win(Side::White) => "white-wins",
        Claim::Hold(Side::Black) => "black-holds",
        Claim::Hold(Side::White) => "white-holds",
        Claim::Draw => "draw",
    }
}

/// What stands between the squares of a path: `x` where the rows of the first two differ by two,
/// else `-`.
pub(crate) fn separator(path: &[Square]) -> u8
    requires { 2 ≤ length path.now }
    ensures { result ≡ separator path.now }
{
    if path[0].row().abs_diff(path[1].row()) == 2 {
        b'x'
    } else {
        b'-'
    }
}

/// Appends a word.
fn push_word(text: &mut Vec<u8>, word: &str) -> Result<(), AllocError>
    ensures { OnOk result (text.new.items ≡ text.old.items ++ word.now) }
{
    text.extend_from_slice(word.as_bytes())
}

/// Appends the printed FEN of a position.
fn push_position(text: &mut Vec<u8>, p: &Position) -> Result<(), AllocError>
    ensures text { OnOk result (text.new.items ≡ text.old.items ++ fen_of p.now) }
    ensures lawful { IsLawful p.now }
{
    text.extend_from_slice(print_fen(p).as_bytes())
}

/// Appends squares, each behind the separator.
fn push_further(text: &mut Vec<u8>, separator: u8, squares: &[Square]) -> Result<(), AllocError>
    ensures { OnOk result (text.new.items ≡ text.old.items
        ++ further_squares separator squares.now) }
{
    for square in squares {
        text.push(separator)?;
        push_number(text, u64::from(square.number()))?;
    }
    Ok(())
}

/// Appends a move by all its squares, from 1 to 32, with `x` between them if it captures, else `-`.
pub fn push_move(text: &mut Vec<u8>, m: &Move) -> Result<(), AllocError>
    ensures { OnOk result (text.new.items ≡ text.old.items ++ move_text m.now) }
{
    let path = m.path();
    push_number(text, u64::from(path[0].number()))?;
    push_further(text, separator(path), &path[1..])
}

/// Appends a blank and the move, if one is chosen.
fn push_choice(text: &mut Vec<u8>, chosen: &Option<Move>) -> Result<(), AllocError>
    ensures { OnOk result (text.new.items ≡ text.old.items ++ choice_text chosen.now) }
{
    let Some(chosen) = chosen else {
        return Ok(());
    };
    text.push(b' ')?;
    push_move(text, chosen)
}

/// Appends the line of an entry of a win part.
fn push_win_entry(text: &mut Vec<u8>, p: &Position, entry: &WinEntry) -> Result<(), AllocError>
    ensures { OnOk result (text.new.items ≡ text.old.items
        ++ (line_text (win_line (p.now, entry.now)) ++ 10 ∷ [])) }
{
    push_position(text, p)?;
    text.push(b' ')?;
    push_number(text, entry.rank)?;
    push_choice(text, &entry.chosen)?;
    text.push(b'\n')?;
    Ok(())
}

/// Appends the line of an entry of a hold part.
fn push_hold_entry(
    text: &mut Vec<u8>,
    p: &Position,
    chosen: &Option<Move>,
) -> Result<(), AllocError>
    ensures { OnOk result (text.new.items ≡ text.old.items
        ++ (line_text (hold_line (p.now, chosen.now)) ++ 10 ∷ [])) }
{
    push_position(text, p)?;
    push_choice(text, chosen)?;
    text.push(b'\n')?;
    Ok(())
}

/// Appends the line that begins a part of this kind. A count of 2^32 or more is answered as want of
/// memory.
fn push_part_line(
    text: &mut Vec<u8>,
    kind: &str,
    side: Side,
    count: usize,
) -> Result<(), AllocError>
    ensures line { OnOk result (text.new.items ≡ text.old.items ++ ((kind.now
        ++ (side_word side ++ 32 ∷ decimal count)) ++ 10 ∷ [])) }
    ensures count { OnOk result (count < 2 ^ 32) }
{
    if count > u32::MAX as usize {
        return Err(AllocError);
    }
    push_word(text, kind)?;
    push_word(text, side_word(side))?;
    text.push(b' ')?;
    push_number(text, count as u64)?;
    text.push(b'\n')?;
    Ok(())
}

/// Appends the lines of a win part.
fn push_win_part(text: &mut Vec<u8>, part: &WinPart) -> Result<(), AllocError>
    ensures lines { OnOk result (text.new.items ≡ text.old.items
        ++ text_of_lines (part_lines (parts.Win part.now))) }
    ensures printed { OnOk result (IsPrintedPart (parts.Win part.now)) }
{
    push_part_line(text, "win ", part.side(), part.len())?;
    for i in 0..part.len() {
        let (p, entry) = part.entry(i);
        push_win_entry(text, &p, &entry)?;
    }
    Ok(())
}

/// Appends the lines of a hold part.
fn push_hold_part(text: &mut Vec<u8>, part: &HoldPart) -> Result<(), AllocError>
    ensures lines { OnOk result (text.new.items ≡ text.old.items
        ++ text_of_lines (part_lines (parts.Hold part.now))) }
    ensures printed { OnOk result (IsPrintedPart (parts.Hold part.now)) }
{
    push_part_line(text, "hold ", part.side(), part.len())?;
    for i in 0..part.len() {
        let (p, chosen) = part.entry(i);
        push_hold_entry(text, &p, &chosen)?;
    }
    Ok(())
}

/// Appends the lines of a part.
fn push_part(text: &mut Vec<u8>, part: &Part) -> Result<(), AllocError>
    ensures lines { OnOk result (text.new.items ≡ text.old.items
        ++ text_of_lines (part_lines part.now)) }
    ensures printed { OnOk result (IsPrintedPart part.now) }
{
    match part {
        Part::Win(part) => push_win_part(text, part),
        Part::Hold(part) => push_hold_part(text, part),
    }
}

/// Appends the first four lines.
fn push_head(text: &mut Vec<u8>, c: &Certificate) -> Result<(), AllocError>
    ensures lines { OnOk result (text.new.items ≡ text.old.items
        ++ text_of_lines (head_lines c.now)) }
    ensures lawful { OnOk result (IsLawful c.now.position) }
{
    push_word(text, "certificate 1\ntable ")?;
    push_number(text, u64::from(c.pieces))?;
    push_word(text, "\nposition ")?;
    push_position(text, &c.position)?;
    push_word(text, "\nclaim ")?;
    push_word(text, claim_word(c.claim))?;
    text.push(b'\n')?;
    Ok(())
}

/// The text of a certificate. A part of 2^32 entries or more, which no text can say, is answered as
/// want of memory.
pub fn print_certificate(alloc: Global, c: &Certificate) -> Result<Vec<u8>, AllocError>
    requires { IsTableSize c.now.pieces }
    ensures text { IfOk result (λ text. text.items ≡ text_of_certificate c.now) }
    ensures printed { OnOk result (IsPrinted c.now) }
{
    let mut text = Vec::new(alloc);
    push_head(&mut text, c)?;
    for part in c.parts.as_slice() {
        push_part(&mut text, part)?;
    }
    push_word(&mut text, "end\n")?;
    Ok(text)
}
