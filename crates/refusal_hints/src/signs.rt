//! Bytes that begin no item, by their names.
ghost use Rattle.std.specs.Prelude.{◌≤◌, length};

/// A sign from outside ASCII by its name, and what may stand in its place.
fn sign_advice(rest: &[u8]) -> &'static str {
    match rest {
        [0xC2, 0xBD, ..] | [0xBD, ..] =>
            "This is the sign for one half. A draw is written 1/2-1/2.\n",
        [0xC2, 0xA0, ..] | [0xA0, ..] | [0xE2, 0x80, 0xAF, ..] =>
            "This is a no-break space, as web pages have it. Write a plain blank.\n",
        [0xE2, 0x80, 0xA6, ..] | [0x85, ..] =>
            "These are three full stops in one sign. Write `...`.\n",
        [0xFF, 0xFE, ..] | [0xFE, 0xFF, ..] =>
            "This text is UTF-16. Save it as UTF-8, or as plain text.\n",
        [0xEF, 0xBB, 0xBF, ..] =>
            "This is a byte order mark, which stands only at the front of a text. Leave it out.\n",
        [0xE2, 0x80, ..] =>
            "This is a dash, a quotation mark or another sign from outside ASCII. Write `-` \
                between the squares of a step.\n",
        [0xC3, 0x97, ..] | [0xD7, ..] =>
            "This is the sign for times. Between the squares of a capture stands a small `x`: `15x22`.\n",
        _ => "This byte is no ASCII. Outside of tags and comments only ASCII may stand.\n",
    }
}

/// What is wrong with a byte that stands for no sign.
fn control_advice(byte: u8) -> &'static str {
    match byte {
        0 => "This is a byte 0, as in UTF-16. Save the text as UTF-8, or as plain text.\n",
        12 => "This is a form feed (byte 12), which begins a page. Leave it out.\n",
        26 => "This is the end-of-file sign of old systems (byte 26). Leave it out.\n",
        _ => "This is a control character. Leave it out.\n",
    }
}

/// What is wrong with a sign of ASCII.
fn ascii_advice(byte: u8) -> &'static str {
    match byte {
        b')' =>
            "Move numbers are written with a full stop: `1.` and not `1)`. A `)` alone closes nothing.\n",
        b'}' =>
            "No comment is open here. Comments do not stand within one another: the first `}` closes.\n",
        b'X' => "Between the squares of a capture stands a small `x`: `15x22`.\n",
        b'-' | b'x' | b'/' => "A move is written without blanks: `11-15`, `15x22`.\n",
        b':' => "Between the squares of a capture stands `x`: `15x22`.\n",
        b'%' => "`%` begins a comment only at the beginning of a line.\n",
        b'$' => "Behind `$` stands a number.\n",
        b'"' => "A quotation mark stands only in a tag: [Event \"Club\"].\n",
        b'a'..=b'z' | b'A'..=b'Z' =>
            "Words stand only in tags and in comments: {so} or, up to the end of the line, behind \
                `;`. Squares are numbers, 1 to 32.\n",
        _ => "Outside of tags and comments only moves, move numbers, results, `!`, `?`, `$` with a \
                number and variations in parentheses may stand.\n",
    }
}

/// The bytes that no item begins with are these, as people write them.
pub(crate) fn byte_advice(source: &[u8], at: usize) -> &'static str
    requires { at ≤ length source.now }
{
    let rest = &source[at..];
    match rest {
        [] => "The text ends here.\n",
        [byte, ..] if *byte >= 128 => sign_advice(rest),
        [byte, ..] if *byte < 32 || *byte == 127 => control_advice(*byte),
        [byte, ..] => ascii_advice(*byte),
    }
}

/// The comment that ends last before a place has a second `{` in it.
pub(crate) fn follows_doubled_brace(source: &[u8], at: usize) -> bool
    requires { at ≤ length source.now }
{
    let mut closed = false;
    let mut braces = 0u8;
    for byte in source[..at].iter().rev() {
        if *byte == b'}' {
            if closed {
                break;
            }
            closed = true;
        }
        if *byte == b'{' && closed {
            braces = braces.saturating_add(1);
        }
    }
    braces > 1
}
