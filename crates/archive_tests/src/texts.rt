//! What bytes are read as, written by hand.
use archive_text::{ArchiveText, FeedRefusal};
use std::alloc::{AllocError, Global};
use std::test::Fail;

/// Appends the signs that can be read.
fn take_signs(text: &mut ArchiveText, signs: &mut String) -> Result<(), AllocError> {
    for _ in 0..u64::MAX {
        match text.next_sign() {
            Some(sign) => signs.push(sign.letter)?,
            None => return Ok(()),
        }
    }
    Ok(())
}

/// The signs of a source that is fed in pieces of this many bytes.
fn signs(alloc: Global, source: &[u8], piece: usize) -> Result<String, FeedRefusal> {
    let mut text = ArchiveText::new(alloc);
    let mut signs = String::new(alloc);
    for bytes in source.chunks(piece.max(1)) {
        text.feed(bytes)?;
        take_signs(&mut text, &mut signs)?;
    }
    text.end();
    take_signs(&mut text, &mut signs)?;
    Ok(signs)
}

/// Bytes, and the signs that they are.
static READ: [(&[u8], &str); 12] = [
    (b"11-15\r\n22x15\r1", "11-15\n22x15\n1"),
    (b"\xef\xbb\xbfa\xe2\x80\x93b", "a-b"),
    (b"\xff\xfea\0\x13\x20b\0", "a-b"),
    (b"\xfe\xff\0a\x20\x13\0b", "a-b"),
    (b"K\xf6ln 11\x9615 \xbd", "Köln 11-15 ½"),
    (b"K\xc3\xb6ln \xf6", "Köln ö"),
    (b"a\xa0b\xe2\x80\x89c\x0c\x1a", "a b c  "),
    (b"\x93x\x94 \xe2\x80\x9ey\xe2\x80\x9c", "\"x\" \"y\""),
    (b"&quot;&amp;&#189;&#xBD;&ndash;&nbsp;&x &;", "\"&½½- &x &;"),
    (b"a<b>c</b>d<br>e<1<", "a c d\ne<1<"),
    (b"\xff\xfe\x3d\xd8\x00\xde\x3d\xd8a\0", "😀\u{fffd}a"),
    (b"15\xc3\x9722 15\xd722", "15×22 15×22"),
];

#[test]
fn bytes_are_read_as_signs(rt: HostRuntime) -> Result<(), Fail> {
    for (bytes, wanted) in READ {
        for piece in [1, 7, 100] {
            let found = signs(rt.alloc(), bytes, piece)?;
            assert_eq!(rt; found.as_str(), wanted);
        }
    }
    Ok(())
}

/// The line, column and byte of each sign of `a<CR><LF>ä<LF>-` in UTF-8.
const PLACES: [(u64, u64, u64); 5] = [(1, 1, 0), (1, 2, 1), (2, 1, 3), (2, 2, 5), (3, 1, 6)];

#[test]
fn signs_have_places(rt: HostRuntime) -> Result<(), Fail> {
    let mut text = ArchiveText::new(rt.alloc());
    text.feed(b"a\r\n\xc3\xa4\n-")?;
    text.end();
    for wanted in PLACES {
        let found = text.next_sign().map(|sign| (
            sign.place.line,
            sign.place.column,
            sign.place.byte,
        ));
        assert_eq!(rt; found, Some(wanted));
    }
    assert_eq!(rt; text.next_sign().is_none(), true);
    Ok(())
}

/// How many bytes of plain text stand behind the first sign, where at most this number is asked.
fn plain_behind(alloc: Global, source: &[u8], most: usize) -> Result<usize, FeedRefusal> {
    let mut text = ArchiveText::new(alloc);
    text.feed(source)?;
    text.end();
    let _ = text.next_sign();
    Ok(text.plain(most).len())
}

#[test]
fn plain_text_stands_ahead(rt: HostRuntime) -> Result<(), Fail> {
    let rows: [(&[u8], usize, usize); 6] = [
        (b"[Event \"a\"]", 100, 6),
        (b"[Event \"a\"]", 4, 4),
        (b"a11-15\n", 100, 5),
        (b"<b 11-15>", 100, 0),
        (b"\xff\xfea\0b\0", 100, 0),
        (b"a&b", 100, 0),
    ];
    for (source, most, wanted) in rows {
        let found = plain_behind(rt.alloc(), source, most)?;
        assert_eq!(rt; found, wanted);
    }
    Ok(())
}
