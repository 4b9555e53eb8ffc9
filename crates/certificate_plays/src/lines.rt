//! The source: its lines, and the moves that they say.
ghost use Rattle.std.specs.Prelude.{◌≡◌, ◌≢◌, ◌<◌, ◌∷◌, [], IfNone, IfOk, IfSome, MatchOption, OnOk, Some, false, length};
ghost use Rattle.pdn_text.specs.declared.game.MoveText.{MoveText as Written};
ghost use Rattle.pdn_text.specs.declared.items.Sign.TheVariants.{Moved};
ghost use Rattle.pdn_text.specs.Signs.{pdn_wants_memory};
ghost use Rattle.certificate_plays.specs.Lines.{IsMoveLine, lines_of};

use pdn_text::{Item, MoveText, PdnRefusal, Sign, item_at};
use shared_words::split_once;
use std::alloc::{AllocError, Global};

/// The first line of a text, without its line end, and what stands behind it; none of an empty text.
pub fn split_line(text: &[u8]) -> Option<(&[u8], &[u8])>
    ensures some { IfSome result (λ halves.
        lines_of text.now ≡ halves.0.now ∷ lines_of halves.1.now) }
    ensures shorter { IfSome result (λ halves. length halves.1.now < length text.now) }
    ensures none { IfNone result (text.now ≡ []) }
{
    if text.is_empty() {
        return None;
    }
    match split_once(text, b'\n') {
        Some(halves) => Some(halves),
        None => Some((text, &[])),
    }
}

/// It is a fault of the text, and no want of memory.
fn stands(fault: PdnRefusal) -> Result<(), AllocError>
    ensures { OnOk result (pdn_wants_memory fault ≡ false) }
{
    match fault {
        PdnRefusal::Memory(error) => Err(error),
        _ => Ok(()),
    }
}

/// The move of an item that ends there, if it is a move.
fn moved(item: &Item, end: usize) -> Option<MoveText>
    ensures some { IfSome result (λ written. (item.now.end ≡ end)
        × (item.now.sign ≡ Some (Moved written))) }
    ensures none { IfNone result ((written : Written) → item.now.end ≡ end
        → item.now.sign ≢ Some (Moved written)) }
{
    match &item.sign {
        Some(Sign::Moved(written)) if item.end == end => Some(*written),
        _ => None,
    }
}

/// The move that a line says: the line is one item of PDN, and that is a move. None where it is not.
pub(crate) fn move_of(alloc: Global, line: &[u8]) -> Result<Option<MoveText>, AllocError>
    ensures { IfOk result (λ found. MatchOption found
        ((written : Written) → ¬ IsMoveLine line.now written) (IsMoveLine line.now)) }
{
    if line.is_empty() {
        return Ok(None);
    }
    match item_at(alloc, line, 0) {
        Ok(item) => Ok(moved(&item, line.len())),
        Err(fault) => {
            stands(fault)?;
            Ok(None)
        }
    }
}
