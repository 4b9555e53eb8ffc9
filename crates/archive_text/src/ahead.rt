//! Runs of bytes that are read at once: each byte is a character of its own.
ghost use Rattle.std.specs.Prelude.{◌≡◌, ◌≤◌, not, length, take};
ghost use Rattle.std.specs.List.{position_or_len};
ghost use Rattle.archive_text.specs.Lines.{is_plain};

/// How many bytes are looked at ahead for a run that is taken at once.
pub(crate) const MOST_RUN: usize = 256;

/// The first bytes, at most `most`.
pub(crate) fn first_bytes(rest: &[u8], most: usize) -> &[u8]
    ensures value { result.now ≡ take most rest.now }
    ensures inside { length result.now ≤ length rest.now }
{
    rest.get(..most).unwrap_or(rest)
}

/// The byte is one of plain text: a printable character of ASCII that opens and closes nothing.
fn is_plain(byte: u8) -> bool
    ensures { result ≡ is_plain byte }
{
    b' ' <= byte
        && byte <= b'~'
        && !(byte == b'"'
            || byte == b'&'
            || byte == b'('
            || byte == b')'
            || byte == b'<'
            || byte == b'['
            || byte == b'\\'
            || byte == b']'
            || byte == b'{'
            || byte == b'}')
}

/// How many bytes of plain text stand at the front.
pub(crate) fn plain_len(rest: &[u8]) -> usize
    ensures value { result ≡ position_or_len (λ b. not (is_plain b)) rest.now }
    ensures inside { result ≤ length rest.now }
{
    rest.iter()
        .position(|b| !is_plain(*b))
        .unwrap_or(rest.len())
}
