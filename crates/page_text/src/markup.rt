//! Texts in markup.
ghost use Rattle.std.specs.Prelude.{◌≡◌, ◌++◌, IsTrue, OnOk, decimal};
ghost use Rattle.std.specs.List.{list_all};
ghost use Rattle.page_text.specs.Markup.{escaped, escaped_byte, is_plain};

use itoa::Buffer;
use std::alloc::AllocError;
use terminal_text::{quote, say};

/// Appends a byte of a text, escaped.
fn push_byte(text: &mut Vec<u8>, b: u8) -> Result<(), AllocError>
    ensures { OnOk result (text.new.items ≡ text.old.items ++ escaped_byte b) }
{
    match b {
        b'&' => say(text, "&amp;"),
        b'<' => say(text, "&lt;"),
        b'>' => say(text, "&gt;"),
        b'"' => say(text, "&quot;"),
        _ => quote(text, &[b]),
    }
}

/// Appends a text, escaped: `&`, `<`, `>` and `"` by their names, and a byte that is not printable ASCII as
/// `\xE9`.
#[tactic(auto, unfolding(crate::specs::Markup::escaped))]
pub fn push_text(text: &mut Vec<u8>, words: &[u8]) -> Result<(), AllocError>
    ensures same { OnOk result (text.new.items ≡ text.old.items ++ escaped words.now) }
    ensures plain { IsTrue (list_all is_plain (escaped words.now)) }
{
    for b in words {
        push_byte(text, *b)?;
    }
    Ok(())
}

/// Appends a number in decimal as a text.
pub(crate) fn push_count(text: &mut Vec<u8>, n: u64) -> Result<(), AllocError>
    ensures { OnOk result (text.new.items ≡ text.old.items ++ escaped (decimal n)) }
{
    let mut buffer = Buffer::new();
    push_text(text, buffer.format(n).as_bytes())
}
