//! Places, excerpts and bytes as they are shown, written by hand.
use std::alloc::AllocError;
use std::test::Fail;
use terminal_text::{excerpt_of, place_of, quote, say, say_excerpt, say_number, say_place, shown};

/// The ends of the excerpt at a byte, or at the end of the source.
fn ends(source: &[u8], at: usize) -> (usize, usize) {
    let excerpt = excerpt_of(source, at.min(source.len()));
    (excerpt.first, excerpt.behind)
}

/// Bytes of a source, and the line and the column of each.
const PLACES: [(usize, usize, usize); 11] = [
    (0, 1, 1),
    (2, 1, 3),
    (3, 2, 1),
    (4, 2, 2),
    (5, 2, 3),
    (6, 3, 1),
    (7, 4, 1),
    (8, 4, 2),
    (9, 5, 1),
    (10, 6, 1),
    (12, 6, 3),
];

#[test]
fn lines_end_in_three_ways(rt: HostRuntime) {
    let source = b"ab\nc\r\n\rd\n\nef";
    for (at, line, column) in PLACES {
        let place = place_of(source, at.min(source.len()));
        assert_eq!(rt; (place.line, place.column), (line, column), "{at}");
    }
}

#[test]
fn excerpts_are_cut(rt: HostRuntime) {
    let long = [b'.'; 200];
    let found = (ends(b"ab\r\ncde\nf", 5), ends(&long, 100), ends(&long, 3));
    assert_eq!(rt; found, ((4, 7), (60, 124), (0, 64)));
}

/// Appends what stands in `SAID`, a piece by each call.
fn say_all(text: &mut Vec<u8>) -> Result<(), AllocError> {
    say_place(text, b"a\nbc", 3)?;
    say_excerpt(text, b"a\nb\tc", 4)?;
    say(text, "so: ")?;
    say_number(text, "(", 12, ") ")?;
    quote(text, b"\x1B[2J\xE2\n")
}

const SAID: &[u8] = b"line 2, column 2:\n  b\\x09c\n       ^\nso: (12) \\x1B[2J\\xE2\\x0A";

#[test]
fn texts_are_said(rt: HostRuntime) -> Result<(), Fail> {
    let mut text = Vec::new(rt.alloc());
    say_all(&mut text)?;
    assert_eq!(rt; text.as_slice(), SAID);
    Ok(())
}

#[test]
fn texts_are_shown(rt: HostRuntime) -> Result<(), Fail> {
    let text = shown(rt.alloc(), b"a\x07\nb\x7F")?;
    assert_eq!(rt; text.as_slice(), b"a\\x07\nb\\x7F".as_slice());
    Ok(())
}
