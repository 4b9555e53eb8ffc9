//! How long the runs of bytes at the front of a text are.
ghost use Rattle.std.specs.Prelude.{◌≡◌, ◌≤◌, not, length};
ghost use Rattle.std.specs.List.{position_or_len};
ghost use Rattle.pdn_text.specs.Bytes.{is_blank, is_skipped};
ghost use Rattle.pdn_text.specs.Grammar.{line_len, digits_len, word_len};
ghost use Rattle.pdn_text.specs.Scans.{name_len};

/// Where the line ends: the place of the first byte 10, or the text's end.
pub(crate) fn line_len(rest: &[u8]) -> usize
    ensures value { result ≡ line_len rest.now }
    ensures within { result ≤ length rest.now }
{
    rest.iter().position(|b| *b == b'\n').unwrap_or(rest.len())
}

/// How many digits stand at the front.
pub(crate) fn digits_len(rest: &[u8]) -> usize
    ensures value { result ≡ digits_len rest.now }
    ensures within { result ≤ length rest.now }
{
    rest.iter()
        .position(|b| !b.is_ascii_digit())
        .unwrap_or(rest.len())
}

/// How many bytes of a word stand at the front: digits, `-`, `x` and `/`.
pub(crate) fn word_len(rest: &[u8]) -> usize
    ensures value { result ≡ word_len rest.now }
    ensures within { result ≤ length rest.now }
{
    rest.iter()
        .position(|b| !(b.is_ascii_digit() || *b == b'-' || *b == b'x' || *b == b'/'))
        .unwrap_or(rest.len())
}

/// How many bytes at the front say nothing of a game, each as an item: blanks, ends of lines, `.`, `!` and
/// `?`.
pub(crate) fn skipped_len(rest: &[u8]) -> usize
    ensures value { result ≡ position_or_len (λ b. not (is_skipped b)) rest.now }
    ensures within { result ≤ length rest.now }
{
    rest.iter()
        .position(|b| {
            !(*b == b' '
                || *b == b'\t'
                || *b == b'\r'
                || *b == b'\n'
                || *b == b'.'
                || *b == b'!'
                || *b == b'?')
        })
        .unwrap_or(rest.len())
}

/// How many blanks of a tag stand at the front: spaces and tabs.
pub(crate) fn blanks_len(rest: &[u8]) -> usize
    ensures value { result ≡ position_or_len (λ b. not (is_blank b)) rest.now }
    ensures within { result ≤ length rest.now }
{
    rest.iter()
        .position(|b| !(*b == b' ' || *b == b'\t'))
        .unwrap_or(rest.len())
}

/// How many bytes of a tag's name stand at the front: letters, digits and `_`.
pub(crate) fn name_len(rest: &[u8]) -> usize
    ensures value { result ≡ name_len rest.now }
    ensures within { result ≤ length rest.now }
{
    rest.iter()
        .position(|b| !(b.is_ascii_alphanumeric() || *b == b'_'))
        .unwrap_or(rest.len())
}
