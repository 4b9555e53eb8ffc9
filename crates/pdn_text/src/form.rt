//! What may stand at a place, told by its first byte.
ghost use Rattle.std.specs.Prelude.{◌≡◌, ◌<◌, length};
ghost use Rattle.pdn_text.specs.Forms.{form_of};

/// The kinds of items, and `Nothing` where no item begins.
#[derive(Clone, Copy)]
pub(crate) enum Form {
    /// A comment to the end of the line.
    Line,
    /// One byte that is skipped.
    Blank,
    /// A comment in braces.
    Comment,
    /// A variation in parentheses.
    Variation,
    /// `$` and digits.
    Annotation,
    /// A tag in brackets.
    Tag,
    /// The result `*`.
    Star,
    /// A word: a result, a move number or a move.
    Word,
    /// No item.
    Nothing,
}

/// Which item begins at the front of `rest`. `line_start` says whether it begins a line.
#[tactic(auto, unfolding(crate::specs::Forms::form_of))]
pub(crate) fn form_of(line_start: bool, rest: &[u8]) -> Form
    requires { 0 < length rest.now }
    ensures { result ≡ form_of line_start rest.now }
{
    match rest[0] {
        b'%' if line_start => Form::Line,
        b';' => Form::Line,
        b' ' | b'\t' | b'\r' | b'\n' | b'.' | b'!' | b'?' => Form::Blank,
        b'{' => Form::Comment,
        b'(' => Form::Variation,
        b'$' if rest.len() > 1 && rest[1].is_ascii_digit() => Form::Annotation,
        b'[' => Form::Tag,
        b'*' => Form::Star,
        b'0'..=b'9' => Form::Word,
        _ => Form::Nothing,
    }
}
