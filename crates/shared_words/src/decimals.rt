//! Numbers in decimal: the one spelling that `decimal` names, without sign and without leading
//! zeros.
ghost use Rattle.std.specs.Prelude.{◌≡◌, ◌≢◌, ◌++◌, ◌<◌, ◌≤◌, ◌^◌, ℕ, IfSome, IfNone, OnOk, OnErr, decimal};

use itoa::Buffer;
use std::alloc::AllocError;

/// The number that these bytes are in decimal digits, without sign and without leading zeros.
pub fn number(text: &[u8]) -> Option<u64>
    ensures digits { IfSome result (λ n. text.now ≡ decimal n) }
    ensures other { IfNone result ((n : ℕ) → n < 2 ^ 64 → text.now ≢ decimal n) }
{
    if text.is_empty() || text[0] == b'+' {
        return None;
    }
    if text[0] == b'0' && text.len() > 1 {
        return None;
    }
    let Ok(digits) = str::from_utf8(text) else {
        return None;
    };
    digits.parse().ok()
}

/// The number that these bytes are in decimal digits, if it is at most `most`.
pub fn number_to(text: &[u8], most: u64) -> Option<u64>
    ensures digits { IfSome result (λ n. (n ≤ most) × (text.now ≡ decimal n)) }
    ensures other { IfNone result ((n : ℕ) → n ≤ most → text.now ≢ decimal n) }
{
    let n = number(text)?;
    if n <= most { Some(n) } else { None }
}

/// Appends a number in decimal. Where memory is wanting, the text keeps what it had.
pub fn push_number(text: &mut Vec<u8>, n: u64) -> Result<(), AllocError>
    ensures ok { OnOk result (text.new.items ≡ text.old.items ++ decimal n) }
    ensures err { OnErr result (text.new.items ≡ text.old.items) }
{
    let mut buffer = Buffer::new();
    text.extend_from_slice(buffer.format(n).as_bytes())
}
