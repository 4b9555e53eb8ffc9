//! The state of reading, and what becomes of it with each sign.
ghost use Rattle.std.specs.Prelude.{◌≡◌, ◌≤◌, max};

use archive_records::Kept;
use archive_text::{Place, Sign};
use archive_words::{Outcome, Run, Word};
use draughts_board::Side;
use std::alloc::{AllocError, Global};

/// What the next sign stands in.
#[derive(Clone, Copy)]
pub(crate) enum Mode {
    /// Moves, numbers, results and words.
    Moves,
    /// A comment in braces, in a variation too.
    Comment,
    /// A comment up to the end of the line.
    Line,
    /// A variation in parentheses.
    Variation,
    /// A tag.
    Tag,
    /// A position on a line of its own.
    Fen,
}

/// What has been read, and what is being read.
#[derive(Drop)]
pub(crate) struct Reading {
    pub(crate) alloc: Global,
    pub(crate) kept: Kept,
    pub(crate) mode: Mode,
    /// The sign before.
    pub(crate) before: Sign,
    /// Only blanks stand before it on its line.
    pub(crate) is_line_front: bool,
    /// The sign before is a `[` at the front of its line.
    pub(crate) is_bracket_front: bool,
    /// Where the comment, variation, tag or position that is open began.
    pub(crate) opened: Place,
    /// How many braces, and parentheses, are open.
    pub(crate) braces: u64,
    pub(crate) parentheses: u64,
    /// The text of the tag or position that is open, its last sign that is no blank, and whether a
    /// quotation mark is open in it.
    pub(crate) text: Vec<u8>,
    pub(crate) last_ink: char,
    pub(crate) is_quoted: bool,
    /// The number that is being read, and where it, or the word, began.
    pub(crate) figure: Option<u32>,
    pub(crate) token_place: Place,
    /// The numbers and signs before it that belong together, and where they began.
    pub(crate) run: Run,
    pub(crate) run_place: Place,
    /// The word that is being read, and whether it stands at the front of its line.
    pub(crate) word: Word,
    pub(crate) is_word_front: bool,
    /// The side, and the outcome, that words on this line have named, and where they stand.
    pub(crate) side: Option<Side>,
    pub(crate) said: Option<Outcome>,
    pub(crate) said_place: Place,
    /// The sign before is a `*` that may be a result.
    pub(crate) is_star: bool,
    /// The last dash stands behind a move and a blank.
    pub(crate) is_dash_apart: bool,
    /// Signs up to the next blank are passed over.
    pub(crate) is_skipping: bool,
    /// A stray sign of this line has been told.
    pub(crate) is_told: bool,
    /// The last number of a move, the moves since, and the dots behind it.
    pub(crate) last_number: u32,
    pub(crate) plies_since: u32,
    pub(crate) dots: u32,
    ghost before_within: { before.place.byte ≤ kept.reached },
    ghost opened_within: { opened.byte ≤ kept.reached },
    ghost token_within: { token_place.byte ≤ kept.reached },
    ghost run_within: { run_place.byte ≤ kept.reached },
    ghost said_within: { said_place.byte ≤ kept.reached },
}

impl Reading {
    /// Nothing was read yet.
    pub(crate) fn new(alloc: Global) -> Reading
        ensures { result.kept.reached ≡ 0 }
    {
        Reading {
            alloc,
            kept: Kept::new(alloc),
            mode: Mode::Moves,
            before: Sign {
                letter: '\n',
                place: Place::FIRST,
            },
            is_line_front: true,
            is_bracket_front: false,
            opened: Place::FIRST,
            braces: 0,
            parentheses: 0,
            text: Vec::new(alloc),
            last_ink: ' ',
            is_quoted: false,
            figure: None,
            token_place: Place::FIRST,
            run: Run::new(),
            run_place: Place::FIRST,
            word: Word::new(),
            is_word_front: false,
            side: None,
            said: None,
            said_place: Place::FIRST,
            is_star: false,
            is_dash_apart: false,
            is_skipping: false,
            is_told: false,
            last_number: 0,
            plies_since: 0,
            dots: 0,
        }
    }

    /// Takes the next sign.
    pub(crate) fn take(&mut self, sign: Sign) -> Result<(), AllocError>
        ensures { self.new.kept.reached ≡ max self.old.kept.reached sign.place.byte }
    {
        self.kept.reach(sign.place);
        self.by_mode(sign)?;
        self.before = sign;
        self.is_bracket_front = sign.letter == '[' && self.is_line_front;
        self.is_line_front = match sign.letter {
            '\n' => true,
            ' ' => self.is_line_front,
            _ => false,
        };
        Ok(())
    }

    /// Takes the next sign where it stands.
    fn by_mode(&mut self, sign: Sign) -> Result<(), AllocError>
        requires { sign.place.byte ≤ self.old.kept.reached }
        ensures { self.new.kept.reached ≡ self.old.kept.reached }
    {
        match self.mode {
            Mode::Moves => self.in_moves(sign),
            Mode::Comment => self.in_comment(sign),
            Mode::Line => self.in_line(sign),
            Mode::Variation => self.in_variation(sign),
            Mode::Tag => self.in_tag(sign),
            Mode::Fen => self.in_fen(sign),
        }
    }
}
