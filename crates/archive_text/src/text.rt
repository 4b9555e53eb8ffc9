//! The text of an archive, as its bytes come.
ghost use Rattle.std.specs.Prelude.{◌≡◌, ◌≤◌, ◌<◌, ◌+◌, ◌-◌, ◌^◌, length, take, drop, IfSome, IfNone, OnOk, OnErr, IfErr};

use crate::ahead::{MOST_RUN, first_bytes, plain_len};
use crate::encoding::{Encoding, mark_of};
use crate::markup::{Told, letter_told};
use crate::places::Place;
use crate::symbol::symbol_at;
use std::alloc::{AllocError, Global};
use thiserror::Error;

/// How many bytes an archive has at most.
pub const MOST_BYTES: u64 = 4611686018427387904;

/// How many bytes stand behind the place where a sign is read, unless the source has ended. A
/// reference of ten characters takes at most 40.
const LOOK_AHEAD: usize = 64;

/// Why bytes were not taken.
#[derive(Debug, Drop, Error)]
pub enum FeedRefusal {
    #[error("an archive has at most {MOST_BYTES} bytes")]
    TooLong,
    #[error(transparent)]
    Memory(#[from(alloc)] AllocError),
}

/// A sign and its place.
#[derive(Clone, Copy, PartialEq, Eq, Debug)]
pub struct Sign {
    /// The character that stands for it: LF for each line end, a blank for blanks, page breaks,
    /// end-of-file signs and tags of HTML, `-` for dashes, `×` for crosses, `"` and `'` for quotation
    /// marks, and each other character itself.
    pub letter: char,
    /// Where it stands.
    pub place: Place,
}

/// The text of an archive. What was fed is held until it is read.
#[derive(Drop)]
pub struct ArchiveText {
    alloc: Global,
    held: Vec<u8>,
    // How many of the bytes held have been read, and the place behind them.
    at: usize,
    place: Place,
    encoding: Encoding,
    is_begun: bool,
    is_ended: bool,
    is_in_tag: bool,
    ghost within: { at ≤ length held.items },
    ghost few: { place.byte + length held.items ≤ 2 ^ 62 + at },
}

impl ArchiveText {
    ghost use Rattle.archive_text.specs.Ahead.{IsAlong, ahead, reads_bytes};
    ghost use Rattle.archive_text.specs.Fed.{IsFeedCause, IsNextPlace, bytes_fed};
    ghost use Rattle.archive_text.specs.Lines.{is_plain, run_of};

    /// A source of which nothing was fed yet.
    pub fn new(alloc: Global) -> ArchiveText
        ensures { bytes_fed result ≡ 0 }
    {
        ArchiveText {
            alloc,
            held: Vec::new(alloc),
            at: 0,
            place: Place::FIRST,
            encoding: Encoding::Bytes,
            is_begun: false,
            is_ended: false,
            is_in_tag: false,
        }
    }

    /// Where the next sign stands, or the end of what was read.
    pub fn place(&self) -> Place
        ensures { result ≡ self.now.place }
    {
        self.place
    }

    /// Lets go what has been read.
    fn drop_read(&mut self) -> Result<(), AllocError>
        ensures fed { bytes_fed self.new ≡ bytes_fed self.old }
        ensures place { self.new.place ≡ self.old.place }
        ensures ok { OnOk result (self.new.at ≡ 0) }
    {
        let rest = self.held[self.at..].to_vec(self.alloc)?;
        self.held = rest;
        self.at = 0;
        Ok(())
    }

    /// Takes the next bytes of the source, in pieces of any length. It is refused where the source
    /// would have more than [`MOST_BYTES`] bytes, or for want of memory; then none of them is taken.
    ///
    /// What has been read is let go once it is at least as long as the rest, so that pieces of any
    /// length are taken in time linear in them all.
    pub fn feed(&mut self, bytes: &[u8]) -> Result<(), FeedRefusal>
        ensures place { self.new.place ≡ self.old.place }
        ensures ok { OnOk result (bytes_fed self.new ≡ bytes_fed self.old + length bytes.now) }
        ensures err { OnErr result (bytes_fed self.new ≡ bytes_fed self.old) }
        ensures cause { IfErr result (IsFeedCause self.old bytes.now) }
    {
        let left = self.held.len() - self.at;
        if bytes.len() as u64 > MOST_BYTES - self.place.byte - left as u64 {
            return Err(FeedRefusal::TooLong);
        }
        if self.at >= left {
            self.drop_read().map_err(FeedRefusal::Memory)?;
        }
        self.held
            .extend_from_slice(bytes)
            .map_err(FeedRefusal::Memory)
    }

    /// Says that the source has ended.
    pub fn end(&mut self)
        ensures fed { bytes_fed self.new ≡ bytes_fed self.old }
        ensures place { self.new.place ≡ self.old.place }
    {
        self.is_ended = true;
    }

    /// Reads the mark at the front of the source.
    fn begin(&mut self)
        ensures fed { bytes_fed self.new ≡ bytes_fed self.old }
        ensures onward { self.old.at ≤ self.new.at }
        ensures held { self.new.held.items ≡ self.old.held.items }
        ensures place { self.old.place.byte ≤ self.new.place.byte }
    {
        let mark = mark_of(&self.held[self.at..]);
        self.encoding = mark.encoding;
        self.at += mark.width;
        self.place.byte += mark.width as u64;
        self.is_begun = true;
    }

    /// The sign at the front, or nothing where a tag of HTML stands, and its place.
    fn step(&mut self) -> Option<(Option<char>, Place)>
        ensures fed { bytes_fed self.new ≡ bytes_fed self.old }
        ensures held { self.new.held.items ≡ self.old.held.items }
        ensures place { IfSome result (λ step. IsNextPlace self.old step.1) }
        ensures behind { IfSome result (λ step. step.1.byte < self.new.place.byte) }
        ensures onward { IfSome result (λ _. self.old.at < self.new.at) }
        ensures still { self.old.place.byte ≤ self.new.place.byte }
    {
        let left = self.held.len() - self.at;
        if left < LOOK_AHEAD && !self.is_ended {
            return None;
        }
        if !self.is_begun {
            self.begin();
        }
        if self.at == self.held.len() {
            return None;
        }
        let place = self.place;
        let symbol = symbol_at(self.encoding, &self.held[self.at..]);
        self.at += symbol.width;
        self.place = place.behind(symbol.letter, symbol.width);
        let behind = &self.held[self.at..];
        let Told { letter, is_in_tag } = letter_told(self.encoding, self.is_in_tag, symbol, behind);
        self.is_in_tag = is_in_tag;
        Some((letter, place))
    }

    /// The next byte, where it is a sign of its own: a printable character of ASCII that begins no
    /// reference and no tag of HTML, or LF.
    fn lone_byte(&self) -> Option<u8>
        ensures { IfSome result (λ _. self.now.at < length self.now.held.items) }
    {
        let byte = *self.ahead().first()?;
        let is_lone = byte == b'\n' || (b' ' <= byte && byte <= b'~');
        if is_lone && byte != b'&' && byte != b'<' {
            Some(byte)
        } else {
            None
        }
    }

    /// The next sign of the source; none where more bytes are wanted, or the source has ended.
    pub fn next_sign(&mut self) -> Option<Sign>
        ensures fed { bytes_fed self.new ≡ bytes_fed self.old }
        ensures place { IfSome result (λ sign. IsNextPlace self.old sign.place) }
        ensures behind { IfSome result (λ sign. sign.place.byte < self.new.place.byte) }
        ensures still { self.old.place.byte ≤ self.new.place.byte }
    {
        if let Some(byte) = self.lone_byte() {
            let letter = byte as char;
            let place = self.place;
            self.at += 1;
            self.place = place.behind(letter, 1);
            return Some(Sign { letter, place });
        }
        while let Some((letter, place)) = self.step() {
            if let Some(letter) = letter {
                return Some(Sign { letter, place });
            }
        }
        None
    }

    /// A byte of ASCII that stands next is a character of its own: it is not in UTF-16, not before the
    /// mark, and not inside a tag of HTML.
    fn reads_bytes(&self) -> bool
        ensures { result ≡ reads_bytes self.now }
    {
        match self.encoding {
            Encoding::Bytes => self.is_begun && !self.is_in_tag,
            Encoding::LowFirst => false,
            Encoding::HighFirst => false,
        }
    }

    /// The next bytes, where a byte of ASCII is a character of its own.
    fn ahead(&self) -> &[u8]
        ensures ahead { result.now ≡ ahead self.now }
        ensures inside { length result.now ≤ length self.now.held.items - self.now.at }
    {
        if self.reads_bytes() {
            first_bytes(&self.held[self.at..], MOST_RUN)
        } else {
            &self.held[..0]
        }
    }

    /// The plain text that stands next, at most `most` bytes: each is a sign of its own. There may be
    /// more behind it.
    pub fn plain(&self, most: usize) -> &[u8]
        ensures plain { result.now ≡ take most (run_of is_plain (ahead self.now)) }
        ensures inside { self.now.place.byte + length result.now ≤ bytes_fed self.now }
    {
        let ahead = self.ahead();
        let len = plain_len(ahead).min(most);
        &ahead[..len]
    }

    /// Passes over `count` bytes, which are signs of their own on this line, as [`ArchiveText::plain`]
    /// gives them.
    pub fn pass(&mut self, count: usize)
        requires { self.old.place.byte + count ≤ bytes_fed self.old }
        ensures fed { bytes_fed self.new ≡ bytes_fed self.old }
        ensures place { IsAlong self.old.place count self.new.place }
    {
        self.at += count;
        self.place = self.place.along(count);
    }
}
