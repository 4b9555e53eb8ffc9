//! Reading the text of a certificate.
ghost use Rattle.std.specs.Prelude.{◌≡◌, ◌↔◌, IfOk, IfErr, IsTrue};
ghost use Rattle.std.specs.Bool.{OnFalse};
ghost use Rattle.shared_words.specs.Answers.{IsExact};
ghost use Rattle.certificate_text.specs.Text.{ReadsAs, IsOpenPlace};
ghost use Rattle.certificate_text.specs.Refusals.{IsTextRefusal, text_wants_memory};
ghost use Rattle.certificate_text.specs.Places.{at_end};
ghost use Rattle.certificate_text.specs.Steps.{place_due};

use crate::due::{Due, after};
use crate::refusal::TextRefusal;
use shared_words::split_once;
use std::alloc::Global;
use strategy_certificate::Certificate;

/// A line is due.
fn is_open(due: &Due) -> bool
    ensures { IsTrue result ↔ IsOpenPlace (place_due due.now) }
{
    !matches!(due, Due::Nothing(_))
}

/// The certificate where no line is due.
fn whole(due: Due) -> Certificate
    requires { ¬ IsOpenPlace (place_due due) }
    ensures { place_due due ≡ at_end result }
{
    match due {
        Due::Nothing(c) => c,
        _ => unreachable!(),
    }
}

/// The certificate of which this is the text.
///
/// A text that is no certificate's is refused, by line from 1, for what goes wrong first
/// ([`TextRefusal`]); there is one refusal of it, and none of the text of a certificate
/// ([`crate::laws`]). Want of memory may be answered for any text. The text is gone over a fixed
/// number of times, and a position is looked up among the entries, not searched for.
pub fn read_certificate(alloc: Global, text: &[u8]) -> Result<Certificate, TextRefusal>
    // The certificate of which this is the text, or what goes wrong first: exactly that, unless
    // memory ran out.
    ensures { IsExact text_wants_memory (ReadsAs text.now) (IsTextRefusal text.now) result }
{
    read_lines(alloc, text)
}

/// Reads line after line, up to the last or to the first that is refused.
fn read_lines(alloc: Global, text: &[u8]) -> Result<Certificate, TextRefusal>
    ensures read { IfOk result (ReadsAs text.now) }
    ensures refused { IfErr result (λ e. OnFalse (text_wants_memory e) (IsTextRefusal text.now e)) }
{
    let mut due = Due::Title;
    let mut lines = 0;
    let mut rest = text;
    while is_open(&due) {
        let Some((line, behind)) = split_once(rest, b'\n') else {
            return Err(TextRefusal::Truncated);
        };
        due = match after(alloc, due, lines + 1, line) {
            Ok(next) => next,
            Err(refusal) => return Err(refusal),
        };
        lines += 1;
        rest = behind;
    }
    if !rest.is_empty() {
        return Err(TextRefusal::AfterEnd(lines + 1));
    }
    Ok(whole(due))
}
