//! The encodings, told by the mark at a source's front.
ghost use Rattle.std.specs.Prelude.{◌≤◌, length};

/// How bytes stand for characters.
#[derive(Clone, Copy, PartialEq, Eq, Debug)]
pub(crate) enum Encoding {
    /// UTF-8, and each byte that begins no character of UTF-8 is one of Windows-1252.
    Bytes,
    /// UTF-16, the low byte of each unit first.
    LowFirst,
    /// UTF-16, the high byte of each unit first.
    HighFirst,
}

/// A mark at the front of a source.
#[derive(Clone, Copy, PartialEq, Eq, Debug)]
pub(crate) struct Mark {
    /// The encoding that it tells.
    pub(crate) encoding: Encoding,
    /// How many bytes it takes.
    pub(crate) width: usize,
}

/// The mark at the front of a source; UTF-8 in no byte where none stands there.
pub(crate) fn mark_of(front: &[u8]) -> Mark
    ensures { result.width ≤ length front.now }
{
    match front {
        [0xef, 0xbb, 0xbf, ..] => Mark {
            encoding: Encoding::Bytes,
            width: 3,
        },
        [0xff, 0xfe, ..] => Mark {
            encoding: Encoding::LowFirst,
            width: 2,
        },
        [0xfe, 0xff, ..] => Mark {
            encoding: Encoding::HighFirst,
            width: 2,
        },
        _ => Mark {
            encoding: Encoding::Bytes,
            width: 0,
        },
    }
}
