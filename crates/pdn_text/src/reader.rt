//! Reads a whole text.
ghost use Rattle.std.specs.Prelude.{◌≡◌, ◌<◌, ◌≤◌, drop, length, IfOk, IfErr};
ghost use Rattle.std.specs.Bool.{OnFalse};
ghost use Rattle.shared_words.specs.Answers.{IsExact, listed};
ghost use Rattle.pdn_text.specs.Grammar.{IsItemOfText, IsPdnFault, begins_line, form_at};
ghost use Rattle.pdn_text.specs.Pdn.{Reads, Refused, beginning, behind_skipped};
ghost use Rattle.pdn_text.specs.Signs.{pdn_wants_memory};

use crate::game::Game;
use crate::gather::Gathered;
use crate::items::{Item, item_of};
use crate::refusal::PdnRefusal;
use crate::runs::skipped_len;
use std::alloc::Global;

/// The games of a text in Portable Draughts Notation, in the order of the text, or the fault that
/// stands first in it.
///
/// A byte order mark at the front is skipped. A text without tag, move and result has no game. Each
/// refusal but `TooManyGames` and `Memory` has the place of its fault, a byte offset from 0: of the
/// byte itself, of the `[` of what is no tag, of the `{` or the outermost `(` that is not closed,
/// of the first byte of a word that is no move.
pub fn read_games(alloc: Global, text: &[u8]) -> Result<Vec<Game>, PdnRefusal>
    // The games that the text's items make, or the fault that stands first: exactly that, unless
    // memory ran out.
    ensures { IsExact pdn_wants_memory (Reads text.now) (Refused text.now) (listed result) }
{
    read_items(alloc, text)
}

/// Reads item after item, up to the end or the first fault.
fn read_items(alloc: Global, text: &[u8]) -> Result<Vec<Game>, PdnRefusal>
    ensures games { IfOk result (λ games. Reads text.now games.items) }
    ensures refused { IfErr result (λ e. OnFalse (pdn_wants_memory e) (Refused text.now e)) }
{
    let mut gathered = Gathered::new(alloc);
    let first = beginning(text);
    let mut at = behind_skipped(text, first);
    while at < text.len() {
        let Item { end, sign } = item_at(alloc, text, at)?;
        let next = behind_skipped(text, end);
        match sign {
            Some(sign) => gathered.take(sign)?,
            None => {}
        }
        at = next;
    }
    Ok(gathered.finish()?)
}

/// The item that stands at a place of a text, or the fault there: [`read_games`] cuts a text into these,
/// from [`beginning`] on and each straight behind the one before. It fails otherwise only for want of
/// memory.
pub fn item_at(alloc: Global, text: &[u8], at: usize) -> Result<Item, PdnRefusal>
    requires { at < length text.now }
    ensures exact { IsExact pdn_wants_memory
        (IsItemOfText (form_at text.now at) at (drop at text.now))
        (IsPdnFault (form_at text.now at) at (drop at text.now)) result }
    ensures onward { IfOk result (λ item. at < item.end) }
    ensures inside { IfOk result (λ item. item.end ≤ length text.now) }
{
    item_of(alloc, begins_line(text, at), text, at)
}

/// The first place, from this one on, where no byte stands that is an item by itself and says nothing of a
/// game: a blank, the end of a line, `.`, `!` or `?`. [`item_at`] gives each of them too.
pub fn behind_skipped(text: &[u8], at: usize) -> usize
    requires { at ≤ length text.now }
    ensures value { result ≡ behind_skipped text.now at }
    ensures onward { at ≤ result }
    ensures inside { result ≤ length text.now }
{
    at + skipped_len(text.split_at(at).1)
}

/// Where the items begin: behind the byte order mark, if one stands at the front.
pub fn beginning(text: &[u8]) -> usize
    ensures value { result ≡ beginning text.now }
    ensures inside { result ≤ length text.now }
{
    if text.starts_with(&[0xef, 0xbb, 0xbf]) {
        3
    } else {
        0
    }
}

/// The place is the text's first, or stands straight behind a byte 10.
fn begins_line(text: &[u8], at: usize) -> bool
    requires { at < length text.now }
    ensures { result ≡ begins_line text.now at }
{
    at == 0 || text[at - 1] == b'\n'
}
