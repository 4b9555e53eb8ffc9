//! Splitting a text at a byte.
ghost use Rattle.std.specs.Prelude.{◌≡◌, ◌++◌, ◌∷◌, IfSome, IfNone};
ghost use Rattle.shared_words.specs.Bytes.{Lacks};

/// The bytes before the first such byte, and those behind it; none where it does not stand in the
/// text.
pub fn split_once(text: &[u8], byte: u8) -> Option<(&[u8], &[u8])>
    ensures before { IfSome result (λ halves. Lacks byte halves.0.now) }
    ensures whole { IfSome result (λ halves. text.now ≡ halves.0.now ++ byte ∷ halves.1.now) }
    ensures none { IfNone result (Lacks byte text.now) }
{
    for (place, b) in text.iter().enumerate() {
        if *b == byte {
            return Some((&text[..place], &text[place + 1..]));
        }
    }
    None
}
