//! The item at a place of a text.
ghost use Rattle.std.specs.Prelude.{◌≡◌, ◌+◌, ◌^◌, ◌<◌, ◌≤◌, ◌==◌, length, drop, position, IfOk, IfSome};
ghost use Rattle.pdn_text.specs.Forms as forms;
ghost use Rattle.pdn_text.specs.Grammar.{word_len, word_at};
ghost use Rattle.pdn_text.specs.Scans.{item_of, word_item};
ghost use Rattle.pdn_text.specs.Signs.{pdn_wants_memory};
ghost use Rattle.shared_words.specs.Answers.{Unless};
ghost use Rattle.pdn_text.specs.Words as words;

use crate::form::{Form, form_of};
use crate::game::{MoveText, Tag};
use crate::refusal::PdnRefusal;
use crate::runs::{digits_len, line_len, word_len};
use crate::tags::tag_at;
use crate::variations::{Unclosed, variation_end};
use crate::words::{Word, word_of};
use std::alloc::Global;

/// What an item says of a game.
#[derive(Debug, Drop)]
pub enum Sign {
    /// The game has this tag; behind a move the tag begins the next game.
    Tagged(Tag),
    /// The game has this move.
    Moved(MoveText),
    /// The game ends: the item is a result.
    Ended,
}

/// An item of a text.
#[derive(Debug, Drop)]
pub struct Item {
    /// The place behind its last byte.
    pub end: usize,
    /// What it says of a game, if anything.
    pub sign: Option<Sign>,
}

/// The item that begins at `at`, or the fault there. `line_start` says whether a line begins there.
pub(crate) fn item_of(
    alloc: Global,
    line_start: bool,
    text: &[u8],
    at: usize,
) -> Result<Item, PdnRefusal>
    requires { at < length text.now }
    ensures gives { let rest = drop at text.now in
        Unless pdn_wants_memory result (result ≡ item_of (forms.form_of line_start rest) at rest) }
    ensures onward { IfOk result (λ item. at < item.end) }
    ensures inside { IfOk result (λ item. item.end ≤ length text.now) }
{
    let (_, rest) = text.split_at(at);
    match form_of(line_start, rest) {
        Form::Line => Ok(skipped(at + (1 + line_len(rest.split_at(1).1)))),
        Form::Blank => Ok(skipped(at + 1)),
        Form::Comment => match closing_of(rest) {
            Some(closing) => Ok(skipped(at + (closing + 1))),
            None => Err(PdnRefusal::OpenComment(at)),
        },
        Form::Variation => match variation_end(rest) {
            Ok(end) => Ok(skipped(at + end)),
            Err(Unclosed::Comment(open)) => Err(PdnRefusal::OpenComment(at + open)),
            Err(Unclosed::Variation) => Err(PdnRefusal::OpenVariation(at)),
        },
        Form::Annotation => Ok(skipped(at + (1 + digits_len(rest.split_at(1).1)))),
        Form::Tag => match tag_at(alloc, rest) {
            Ok(Some((tag, after))) => Ok(Item {
                end: text.len() - after.len(),
                sign: Some(Sign::Tagged(tag)),
            }),
            Ok(None) => Err(PdnRefusal::OpenTag(at)),
            Err(error) => Err(PdnRefusal::Memory(error)),
        },
        Form::Star => Ok(Item {
            end: at + 1,
            sign: Some(Sign::Ended),
        }),
        Form::Word => word_at(rest, at),
        Form::Nothing => Err(PdnRefusal::BadByte(at)),
    }
}

/// The place of the first `}`.
fn closing_of(rest: &[u8]) -> Option<usize>
    ensures value { result ≡ position (λ b. b == 125) rest.now }
    ensures inside { IfSome result (λ place. place < length rest.now) }
{
    rest.iter().position(|b| *b == b'}')
}

/// An item that says nothing of a game.
fn skipped(end: usize) -> Item
    ensures { result ≡ record { end = end; sign = None } }
{
    Item { end, sign: None }
}

/// The word at the front of `rest`, which stands at `at` in the text.
fn word_at(rest: &[u8], at: usize) -> Result<Item, PdnRefusal>
    requires { at + length rest.now < 2 ^ 64 }
    ensures gives { Unless pdn_wants_memory result
        (result ≡ word_item at (at + word_len rest.now) (words.word_of (word_at rest.now))) }
    ensures end { IfOk result (λ item. item.end ≡ at + word_len rest.now) }
    ensures inside { word_len rest.now ≤ length rest.now }
{
    let len = word_len(rest);
    let end = at + len;
    match word_of(rest.split_at(len).0) {
        Word::Result => Ok(Item {
            end,
            sign: Some(Sign::Ended),
        }),
        Word::Number => Ok(skipped(end)),
        Word::Move(squares) => Ok(Item {
            end,
            sign: Some(Sign::Moved(MoveText { at, end, squares })),
        }),
        Word::Bad => Err(PdnRefusal::BadMove(at)),
    }
}
