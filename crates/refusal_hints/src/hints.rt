//! The text on a refusal.
ghost use Rattle.std.specs.Prelude.{◌≡◌, ◌≤◌, ◌++◌, ℕ, List, All, IfOk, IfSome, OnOk, length};
ghost use Rattle.opening_report.specs.declared.refusals.Refusal.{Refusal as Cause};
ghost use Rattle.refusal_hints.specs.Refusals.{fault_place};
ghost use Rattle.terminal_text.specs.Places.{place_text};
ghost use Rattle.terminal_text.specs.Shown.{IsShown, shown};

use crate::certificates::{say_check_fault, say_text_fault};
use crate::games::{games_of, say_fen, say_move_fault, say_other_game};
use crate::journals::{say_journal, say_limit, say_root};
use crate::pdn::say_pdn;
use crate::tables::say_table;
use crate::words::say_words;
use opening_report::Refusal;
use std::alloc::{AllocError, Global};
use terminal_text::{say_place, shown};

/// The byte of the source that a refusal names, counted from 0, if it names one.
fn fault_place(refusal: &Refusal) -> Option<usize>
    ensures { result ≡ fault_place refusal.now }
{
    match *refusal {
        Refusal::PdnBadByte(at) => Some(at),
        Refusal::PdnOpenTag(at) => Some(at),
        Refusal::PdnOpenComment(at) => Some(at),
        Refusal::PdnOpenVariation(at) => Some(at),
        Refusal::PdnBadMove(at) => Some(at),
        Refusal::Illegal { at, .. } => Some(at),
        Refusal::Ambiguous { at, .. } => Some(at),
        _ => None,
    }
}

/// The line and the column of a byte of the source, or of its end.
fn place_line(alloc: Global, source: &[u8], at: usize) -> Result<Vec<u8>, AllocError>
    requires { at ≤ length source.now }
    ensures { IfOk result (λ text. text.items ≡ place_text source.now at) }
{
    let mut text = Vec::new(alloc);
    say_place(&mut text, source, at)?;
    Ok(text)
}

/// What is wrong at a byte of the source.
fn explained_at(
    alloc: Global,
    refusal: &Refusal,
    source: &[u8],
    at: usize,
) -> Result<Vec<u8>, AllocError>
    requires { at ≤ length source.now }
{
    let mut text = Vec::new(alloc);
    match *refusal {
        Refusal::Illegal { game, ply, .. } => say_move_fault(
            &mut text, alloc, source, at, game, ply, false,
        ),
        Refusal::Ambiguous { game, ply, .. } => say_move_fault(
            &mut text, alloc, source, at, game, ply, true,
        ),
        _ => say_pdn(&mut text, refusal, source, at),
    }?;
    Ok(text)
}

/// Appends what is wrong with a game of the source that names no byte of it.
fn say_game_fault(
    text: &mut Vec<u8>,
    alloc: Global,
    refusal: &Refusal,
    source: &[u8],
) -> Result<(), AllocError> {
    let games = games_of(alloc, source)?;
    match *refusal {
        Refusal::Fen(number, fault) => say_fen(text, alloc, &games, number, fault, source),
        Refusal::OtherGame(number) => say_other_game(text, alloc, &games, number, source),
        _ => Ok(()),
    }
}

/// What a refusal means that names no byte of the source.
fn explained(
    alloc: Global,
    words: &[&str],
    refusal: &Refusal,
    source: &[u8],
) -> Result<Vec<u8>, AllocError> {
    let mut text = Vec::new(alloc);
    match refusal {
        Refusal::Words(at) => say_words(&mut text, alloc, words, *at),
        Refusal::Fen(..) | Refusal::OtherGame(_) => say_game_fault(
            &mut text, alloc, refusal, source,
        ),
        Refusal::TextBadLine(_)
        | Refusal::TextBadFen(_)
        | Refusal::TextDoubled(_)
        | Refusal::TextAfterEnd(_)
        | Refusal::TextTruncated => say_text_fault(&mut text, refusal, source),
        Refusal::ClaimNotMet
        | Refusal::BadRank { .. }
        | Refusal::BadMove { .. }
        | Refusal::Missing { .. }
        | Refusal::StuckHolder { .. }
        | Refusal::CheckNoRoot(_) => say_check_fault(&mut text, refusal, source),
        Refusal::TableBadHead | Refusal::TableWrongLength { .. } | Refusal::TableBadEntry { .. } =>
            say_table(&mut text, refusal),
        Refusal::Disk | Refusal::NotAJournal | Refusal::OtherTable { .. } | Refusal::Damaged(_) =>
            say_journal(&mut text, refusal),
        Refusal::NoRoot(_) | Refusal::UnsettledRoot(_) | Refusal::RootExpanded(_) => say_root(
            &mut text, refusal,
        ),
        _ => say_limit(&mut text, refusal),
    }?;
    Ok(text)
}

/// The text before it is made safe for a terminal.
fn raw_hint(
    alloc: Global,
    words: &[&str],
    refusal: &Refusal,
    source: &[u8],
) -> Result<Vec<u8>, AllocError>
    ensures { IfOk result (λ text. IfSome (fault_place refusal.now) (λ at. at ≤ length source.now
        → (rest : List ℕ) × (text.items ≡ place_text source.now at ++ rest))) }
{
    match fault_place(refusal) {
        Some(at) if at <= source.len() => {
            let mut text = place_line(alloc, source, at)?;
            let rest = explained_at(alloc, refusal, source, at)?;
            text.extend_from_slice(&rest)?;
            Ok(text)
        }
        Some(_) => Ok(Vec::new(alloc)),
        None => explained(alloc, words, refusal, source),
    }
}

/// What a person is told of a refusal: where its cause stands, how the text reads there, what is
/// wrong, and what may be written. `words` are those of the command line without the program's
/// name, and `source` is what standard input gave, or as much of its front as is known.
///
/// It reads nothing but its arguments. Whatever they hold, the text is printable ASCII and line
/// ends: other bytes of the source are escaped, as `\xE2`. Where the refusal names a byte of the
/// source, the text begins with its line and its column; where that byte is not among `source`, it
/// is empty. It fails only for want of memory.
pub fn hint(
    alloc: Global,
    words: &[&str],
    refusal: &Refusal,
    source: &[u8],
) -> Result<Vec<u8>, AllocError>
    ensures safe { IfOk result (λ text. All IsShown text.items) }
    ensures place { IfOk result (λ text. IfSome (fault_place refusal.now) (λ at.
        at ≤ length source.now → (rest : List ℕ)
        × (text.items ≡ shown (place_text source.now at ++ rest)))) }
{
    let text = raw_hint(alloc, words, refusal, source)?;
    shown(alloc, &text)
}
