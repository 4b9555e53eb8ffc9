//! Where a variation ends.
ghost use Rattle.std.specs.Prelude.{◌≡◌, ℕ, ◌<◌, ◌≤◌, length, IfOk};
ghost use Rattle.pdn_text.specs.Scans.{variation_end};

/// Why a variation has no end.
#[derive(Clone, Copy)]
pub(crate) enum Unclosed {
    /// The comment that begins at this place in it is not closed.
    Comment(usize),
    /// The variation itself is not closed.
    Variation,
}

/// The place behind the variation that begins at the front of `rest`. A counter holds how many
/// variations are open.
pub(crate) fn variation_end(rest: &[u8]) -> Result<usize, Unclosed>
    ensures value { result ≡ variation_end 0 None 0 rest.now }
    ensures onward { IfOk result (λ end. 0 < end) }
    ensures inside { IfOk result (λ end. end ≤ length rest.now) }
    ensures comment { (place : ℕ) → result ≡ Err (Unclosed.Comment place)
        → place < length rest.now }
{
    let mut depth = 0_usize;
    let mut comment = None;
    for (i, byte) in rest.iter().enumerate() {
        match (comment, *byte) {
            (Some(_), b'}') => comment = None,
            (Some(_), _) => {}
            (None, b'{') => comment = Some(i),
            (None, b'(') => depth += 1,
            (None, b')') if depth <= 1 => return Ok(i + 1),
            (None, b')') => depth -= 1,
            (None, _) => {}
        }
    }
    match comment {
        Some(open) => Err(Unclosed::Comment(open)),
        None => Err(Unclosed::Variation),
    }
}
