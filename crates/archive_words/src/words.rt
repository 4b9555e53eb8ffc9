//! Words that tell a result.
ghost use Rattle.std.specs.Prelude.{◌≡◌};
ghost use Rattle.archive_words.specs.Words.{said_by, says_black, says_drawn, says_loses, says_nothing, says_unfinished, says_white, says_wins};

use arrayvec::ArrayVec;
use draughts_board::Side;

/// How many letters of a word are kept.
const MOST_LETTERS: usize = 16;

/// What a word says.
#[derive(Clone, Copy, PartialEq, Eq, Debug)]
pub enum Said {
    /// The game is drawn.
    Drawn,
    /// The game was not finished.
    Unfinished,
    /// A side.
    Side(Side),
    /// The side that stands before it won.
    Wins,
    /// The side that stands before it lost.
    Loses,
    /// Nothing of its own: it stands beside words that say a result, or judges a move.
    Nothing,
    /// Anything else.
    Other,
}

/// A word, as far as it has come: its letters as small ones, and `?` for a letter beside A to Z.
#[derive(Drop)]
pub struct Word {
    letters: ArrayVec<u8, MOST_LETTERS>,
    is_long: bool,
}

/// A word for a draw.
fn says_drawn(word: &[u8]) -> bool
    ensures { result ≡ says_drawn word.now }
{
    word == b"draw".as_slice()
        || word == b"drawn".as_slice()
        || word == b"draws".as_slice()
        || word == b"tie".as_slice()
        || word == b"tied".as_slice()
        || word == b"remis".as_slice()
}

/// A word for a game that was not finished.
fn says_unfinished(word: &[u8]) -> bool
    ensures { result ≡ says_unfinished word.now }
{
    word == b"unfinished".as_slice()
        || word == b"adjourned".as_slice()
        || word == b"abandoned".as_slice()
}

/// A word for Black.
fn says_black(word: &[u8]) -> bool
    ensures { result ≡ says_black word.now }
{
    word == b"black".as_slice() || word == b"red".as_slice() || word == b"schwarz".as_slice()
}

/// A word for White.
fn says_white(word: &[u8]) -> bool
    ensures { result ≡ says_white word.now }
{
    word == b"white".as_slice() || word == b"weiss".as_slice() || word == b"wei?".as_slice()
}

/// A word for winning.
fn says_wins(word: &[u8]) -> bool
    ensures { result ≡ says_wins word.now }
{
    word == b"win".as_slice()
        || word == b"wins".as_slice()
        || word == b"won".as_slice()
        || word == b"gewinnt".as_slice()
        || word == b"gewann".as_slice()
}

/// A word for losing.
fn says_loses(word: &[u8]) -> bool
    ensures { result ≡ says_loses word.now }
{
    word == b"lost".as_slice()
        || word == b"loses".as_slice()
        || word == b"resigns".as_slice()
        || word == b"resigned".as_slice()
        || word == b"verliert".as_slice()
}

/// A word that stands beside words that say a result, or judges a move.
fn says_nothing(word: &[u8]) -> bool
    ensures { result ≡ says_nothing word.now }
{
    word == b"n".as_slice()
        || word == b"by".as_slice()
        || word == b"agreed".as_slice()
        || word == b"agreement".as_slice()
        || word == b"game".as_slice()
        || word == b"result".as_slice()
}

/// What these letters say.
fn said_by(word: &[u8]) -> Said
    ensures { result ≡ said_by word.now }
{
    if says_drawn(word) {
        Said::Drawn
    } else if says_unfinished(word) {
        Said::Unfinished
    } else if says_black(word) {
        Said::Side(Side::Black)
    } else if says_white(word) {
        Said::Side(Side::White)
    } else if says_wins(word) {
        Said::Wins
    } else if says_loses(word) {
        Said::Loses
    } else if says_nothing(word) {
        Said::Nothing
    } else {
        Said::Other
    }
}

impl Word {
    ghost use Rattle.std.specs.Prelude.{◌≡◌, ◌==◌, ◌<◌, ◌∷◌, ◌++◌, [], true, false, length};
    ghost use Rattle.archive_words.specs.Words.{kept_letter, said_of, side_of};

    /// A word without letters.
    pub fn new() -> Word
        ensures { (result.letters.items ≡ []) × (result.is_long ≡ false) }
    {
        Word {
            letters: ArrayVec::new(),
            is_long: false,
        }
    }

    /// It has no letter.
    pub fn is_empty(&self) -> bool
        ensures { result ≡ (length self.now.letters.items == 0) }
    {
        self.letters.is_empty()
    }

    /// Takes a letter. A word of 16 keeps no further one.
    pub fn push(&mut self, letter: char)
        ensures kept { length self.old.letters.items < MOST_LETTERS
            → (self.new.letters.items ≡ self.old.letters.items ++ kept_letter letter ∷ [])
            × (self.new.is_long ≡ self.old.is_long) }
        ensures some { 0 < length self.new.letters.items }
        ensures full { length self.old.letters.items ≡ MOST_LETTERS
            → (self.new.letters.items ≡ self.old.letters.items) × (self.new.is_long ≡ true) }
    {
        let small = if letter.is_ascii() {
            letter.to_ascii_lowercase() as u8
        } else {
            b'?'
        };
        if self.letters.is_full() {
            self.is_long = true;
        } else {
            self.letters.push(small);
        }
    }

    /// Begins anew.
    pub fn clear(&mut self)
        ensures { (self.new.letters.items ≡ []) × (self.new.is_long ≡ false) }
    {
        self.letters.clear();
        self.is_long = false;
    }

    /// The side whose letter it is, `b` or `w`.
    pub fn side(&self) -> Option<Side>
        ensures { result ≡ side_of self.now.letters.items }
    {
        let letters = self.letters.as_slice();
        if letters == b"b".as_slice() {
            Some(Side::Black)
        } else if letters == b"w".as_slice() {
            Some(Side::White)
        } else {
            None
        }
    }

    /// What it says.
    pub fn said(&self) -> Said
        ensures { result ≡ said_of self.now }
    {
        if self.is_long {
            Said::Other
        } else {
            said_by(self.letters.as_slice())
        }
    }
}
