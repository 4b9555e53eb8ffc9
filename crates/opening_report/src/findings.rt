//! The lines on what was found good: a table that is sound, a claim that was verified, and one that
//! was learnt.
ghost use Rattle.std.specs.Prelude.{◌≡◌, IfOk, OnOk};
ghost use Rattle.opening_report.specs.Lines.{IsLine};
ghost use Rattle.opening_report.specs.Findings.{learnt_text, sound_text, verified_text};

use crate::refusals::numbered_twice;
use arrayvec::ArrayString;
use certificate_text::claim_word;
use draughts_board::Position;
use fen_text::print_fen;
use shared_words::push_number;
use std::alloc::{AllocError, Global};
use strategy_certificate::Claim;

/// The line that a table of `pieces` pieces, with `entries` entries, is sound, its line end among it.
/// It takes no memory.
pub fn sound_line(pieces: u8, entries: usize) -> ArrayString<128>
    ensures text { result.bytes ≡ sound_text pieces entries }
    ensures line { IsLine (sound_text pieces entries) }
{
    numbered_twice("sound table ", pieces as usize, " entries ", entries)
}

/// The line that this claim on this position was verified, its line end among it. It takes no
/// memory.
pub fn verified_line(position: &Position, claim: Claim) -> ArrayString<128>
    ensures text { result.bytes ≡ verified_text position.now claim }
    ensures line { IsLine (verified_text position.now claim) }
{
    let mut line = ArrayString::new();
    line.push_str("verified ");
    line.push_str(print_fen(position).as_str());
    line.push(' ');
    line.push_str(claim_word(claim));
    line.push('\n');
    line
}

/// The line that a journal has learnt this claim on its root of this number, counted from 1, which
/// has the position; its line end is among it.
pub fn learnt_text(
    alloc: Global,
    number: u32,
    position: &Position,
    claim: Claim,
) -> Result<Vec<u8>, AllocError>
    ensures text { IfOk result (λ text. text.items ≡ learnt_text number position.now claim) }
    ensures line { OnOk result (IsLine (learnt_text number position.now claim)) }
{
    let mut text = Vec::new(alloc);
    text.extend_from_slice(b"learnt ")?;
    push_number(&mut text, u64::from(number))?;
    text.push(b' ')?;
    text.extend_from_slice(print_fen(position).as_bytes())?;
    text.push(b' ')?;
    text.extend_from_slice(claim_word(claim).as_bytes())?;
    text.push(b'\n')?;
    Ok(text)
}
