//! A game's text as it is printed.
ghost use Rattle.std.specs.Prelude.{◌≡◌, ◌≤◌, ◌∷◌, ◌++◌, [], List, ℕ, IfOk, OnOk, codes, length, not, true};
ghost use Rattle.strict_games.specs.Pages.{AreTagsBefore, IsPrinted, PageSays, Says};
ghost use Rattle.std.specs.List.{list_all};
ghost use Rattle.pdn_text.specs.Bytes.{is_line_end};
ghost use Rattle.strict_games.specs.Tags.{AreTaken, IsTaken, is_name};
ghost use Rattle.draughts_board.specs.Board.{IsLawful};
ghost use Rattle.fen_text.specs.Printed.{fen_of};

use crate::wording::{
    MoveNumber, move_len, number_before, number_len, push_move_text, push_number_text,
    push_tag_text, word_of,
};
use draughts_board::{Move, Position, Side};
use fen_text::print_fen;
use pdn_text::Tag;
use std::alloc::{AllocError, Global};

/// How many columns a line of moves has at most.
const COLUMNS: usize = 80;

/// For how many bytes a text has room at once.
const ROOM: usize = 1024;

/// How a game is laid out.
#[derive(Clone, Copy, PartialEq, Eq, Debug)]
pub enum Layout {
    /// A line for each tag, and lines of at most 80 columns for the moves and the result.
    Lines,
    /// One line.
    OneLine,
}

/// The result of a game, as PDN writes it.
#[derive(Clone, Copy, PartialEq, Eq, Debug)]
pub enum Score {
    /// `1-0`
    OneNil,
    /// `0-1`
    NilOne,
    /// `1/2-1/2`
    Halves,
    /// `2-0`
    TwoNil,
    /// `0-2`
    NilTwo,
    /// `1-1`
    OneAll,
    /// `0-0`
    NilAll,
    /// `*`
    Unknown,
}

/// A text that is written word by word.
#[derive(Drop)]
struct Page {
    text: Vec<u8>,
    /// Where its last line begins.
    line: usize,
    /// How many bytes a line has at most, unless one word has more.
    width: usize,
}

impl Page {
    /// A page on which nothing stands.
    #[tactic(auto, using(crate::proofs::Printed::page_empty))]
    fn new(alloc: Global, layout: Layout) -> Result<Page, AllocError>
        ensures says { IfOk result (λ page. PageSays page [] []) }
        ensures inside { IfOk result (λ page. page.line ≤ length page.text.items) }
    {
        let width = match layout {
            Layout::Lines => COLUMNS,
            Layout::OneLine => usize::MAX,
        };
        let text = Vec::with_capacity(alloc, ROOM)?;
        Ok(Page {
            text,
            line: 0,
            width,
        })
    }

    /// Ends the last line.
    fn end_line(&mut self) -> Result<(), AllocError>
        ensures says { OnOk result ((tags : List Tag) (moves : List (List ℕ)) →
            PageSays self.old tags moves → PageSays self.new tags moves) }
        ensures whole { OnOk result ((tags : List Tag) (moves : List (List ℕ)) →
            PageSays self.old tags moves → Says self.new.text.items tags moves) }
        ensures inside { OnOk result (self.new.line ≤ length self.new.text.items) }
    {
        self.text.push(b'\n')?;
        self.line = self.text.len();
        Ok(())
    }

    /// Appends a blank.
    fn push_blank(&mut self) -> Result<(), AllocError>
        requires { self.old.line ≤ length self.old.text.items }
        ensures whole { OnOk result ((tags : List Tag) (moves : List (List ℕ)) →
            PageSays self.old tags moves → Says self.new.text.items tags moves) }
        ensures inside { OnOk result (self.new.line ≤ length self.new.text.items) }
    {
        self.text.push(b' ')?;
        Ok(())
    }

    /// That many bytes have room on the last line.
    fn has_room(&self, len: usize) -> bool
        requires { self.now.line ≤ length self.now.text.items }
    {
        let column = self.text.len() - self.line;
        column.saturating_add(len) <= self.width
    }

    /// Sets the next word apart from the one before: by a blank, or on a new line where that many bytes,
    /// a blank and the word, have no room on this one.
    fn part(&mut self, len: usize) -> Result<(), AllocError>
        requires { self.old.line ≤ length self.old.text.items }
        ensures says { OnOk result ((tags : List Tag) (moves : List (List ℕ)) →
            PageSays self.old tags moves → Says self.new.text.items tags moves) }
        ensures inside { OnOk result (self.new.line ≤ length self.new.text.items) }
    {
        let is_begun = self.text.len() == self.line;
        if is_begun {
            return Ok(());
        }
        let has_room = self.has_room(len);
        if has_room {
            return self.push_blank();
        }
        self.end_line()
    }

    /// Appends a tag.
    fn push_tag(&mut self, name: &[u8], value: &[u8]) -> Result<(), AllocError>
        requires inside { self.old.line ≤ length self.old.text.items }
        requires named { is_name name.now ≡ true }
        requires one_line { list_all (λ b. not (is_line_end b)) value.now ≡ true }
        ensures says { OnOk result ((tags : List Tag) → PageSays self.old tags []
            → PageSays self.new (tags ++ record { name = name.now; value = value.now } ∷ []) []) }
        ensures inside { OnOk result (self.new.line ≤ length self.new.text.items) }
    {
        self.part(0)?;
        push_tag_text(&mut self.text, name, value)?;
        Ok(())
    }

    /// Appends a tag, with the end of its line in [`Layout::Lines`].
    fn lay_tag(&mut self, name: &[u8], value: &[u8], layout: Layout) -> Result<(), AllocError>
        requires inside { self.old.line ≤ length self.old.text.items }
        requires named { is_name name.now ≡ true }
        requires one_line { list_all (λ b. not (is_line_end b)) value.now ≡ true }
        ensures says { OnOk result ((tags : List Tag) → PageSays self.old tags []
            → PageSays self.new (tags ++ record { name = name.now; value = value.now } ∷ []) []) }
        ensures inside { OnOk result (self.new.line ≤ length self.new.text.items) }
    {
        self.push_tag(name, value)?;
        match layout {
            Layout::Lines => self.end_line(),
            Layout::OneLine => Ok(()),
        }
    }

    /// Appends the number of a move, with its dots.
    fn push_number(&mut self, number: MoveNumber) -> Result<(), AllocError>
        requires { self.old.line ≤ length self.old.text.items }
        ensures says { OnOk result ((tags : List Tag) (moves : List (List ℕ)) →
            PageSays self.old tags moves → PageSays self.new tags moves) }
        ensures inside { OnOk result (self.new.line ≤ length self.new.text.items) }
    {
        self.part(number_len(number.number))?;
        push_number_text(&mut self.text, number.number, number.is_white)?;
        Ok(())
    }

    /// Appends the number that stands before the move of this ply, from 0, if one does.
    fn push_turn(&mut self, first: Side, ply: u64) -> Result<(), AllocError>
        requires { self.old.line ≤ length self.old.text.items }
        ensures says { OnOk result ((tags : List Tag) (moves : List (List ℕ)) →
            PageSays self.old tags moves → PageSays self.new tags moves) }
        ensures inside { OnOk result (self.new.line ≤ length self.new.text.items) }
    {
        match number_before(first, ply) {
            Some(number) => self.push_number(number),
            None => Ok(()),
        }
    }

    /// Appends a move.
    fn push_move(&mut self, squares: &Move) -> Result<(), AllocError>
        requires { self.old.line ≤ length self.old.text.items }
        ensures says { OnOk result ((tags : List Tag) (moves : List (List ℕ)) →
            PageSays self.old tags moves → PageSays self.new tags (moves ++ squares.now ∷ [])) }
        ensures inside { OnOk result (self.new.line ≤ length self.new.text.items) }
    {
        self.part(move_len(squares))?;
        push_move_text(&mut self.text, squares)?;
        Ok(())
    }

    /// Appends the result, and ends the last line.
    fn push_score(&mut self, score: Score) -> Result<(), AllocError>
        requires { self.old.line ≤ length self.old.text.items }
        ensures { OnOk result ((tags : List Tag) (moves : List (List ℕ)) →
            PageSays self.old tags moves → IsPrinted self.new.text.items tags moves) }
    {
        let word = word_of(score).as_bytes();
        self.part(word.len() + 1)?;
        self.text.extend_from_slice(word)?;
        self.text.push(b'\n')?;
        Ok(())
    }

    /// Appends the tag of a position.
    fn push_fen(&mut self, p: &Position, layout: Layout) -> Result<(), AllocError>
        requires { self.old.line ≤ length self.old.text.items }
        ensures says { OnOk result (IsLawful p.now × (PageSays self.old [] []
            → PageSays self.new (record { name = codes "FEN"; value = fen_of p.now } ∷ []) [])) }
        ensures inside { OnOk result (self.new.line ≤ length self.new.text.items) }
    {
        let fen = print_fen(p);
        self.lay_tag(b"FEN", fen.as_bytes(), layout)?;
        Ok(())
    }

    /// Appends the tag of the position that is set up, if one is.
    fn push_set_up(&mut self, set_up: &Option<Position>, layout: Layout) -> Result<(), AllocError>
        requires { self.old.line ≤ length self.old.text.items }
        ensures says { OnOk result ((before : List Tag) × (AreTagsBefore set_up.now before
            × (PageSays self.old [] [] → PageSays self.new before []))) }
        ensures inside { OnOk result (self.new.line ≤ length self.new.text.items) }
    {
        match set_up {
            Some(p) => self.push_fen(p, layout),
            None => Ok(()),
        }
    }

    /// Appends a tag of a draft.
    fn push_one(&mut self, tag: &Tag, layout: Layout) -> Result<(), AllocError>
        requires inside { self.old.line ≤ length self.old.text.items }
        requires taken { IsTaken tag.now }
        ensures says { OnOk result ((tags : List Tag) →
            PageSays self.old tags [] → PageSays self.new (tags ++ tag.now ∷ []) []) }
        ensures inside { OnOk result (self.new.line ≤ length self.new.text.items) }
    {
        self.lay_tag(tag.name.as_slice(), tag.value.as_slice(), layout)?;
        Ok(())
    }

    /// Appends tags.
    fn push_tags(&mut self, tags: &[Tag], layout: Layout) -> Result<(), AllocError>
        requires inside { self.old.line ≤ length self.old.text.items }
        requires taken { AreTaken tags.now }
        ensures says { OnOk result ((before : List Tag) →
            PageSays self.old before [] → PageSays self.new (before ++ tags.now) []) }
        ensures inside { OnOk result (self.new.line ≤ length self.new.text.items) }
    {
        for tag in tags {
            self.push_one(tag, layout)?;
        }
        Ok(())
    }

    /// Appends the moves with their numbers.
    fn push_moves(&mut self, first: Side, moves: &[Move]) -> Result<(), AllocError>
        requires { self.old.line ≤ length self.old.text.items }
        ensures says { OnOk result ((tags : List Tag) →
            PageSays self.old tags [] → PageSays self.new tags moves.now) }
        ensures inside { OnOk result (self.new.line ≤ length self.new.text.items) }
    {
        for (ply, squares) in moves.iter().enumerate() {
            self.push_turn(first, ply as u64)?;
            self.push_move(squares)?;
        }
        Ok(())
    }
}

/// The text of a game: its position, if it has one of its own, its tags, its moves and its result.
pub(crate) fn printed(
    alloc: Global,
    set_up: &Option<Position>,
    tags: &[Tag],
    first: Side,
    moves: &[Move],
    score: Score,
    layout: Layout,
) -> Result<Vec<u8>, AllocError>
    requires { AreTaken tags.now }
    ensures { IfOk result (λ text. (before : List Tag) × (AreTagsBefore set_up.now before
        × IsPrinted text.items (before ++ tags.now) moves.now)) }
{
    let mut page = Page::new(alloc, layout)?;
    page.push_set_up(set_up, layout)?;
    page.push_tags(tags, layout)?;
    page.push_moves(first, moves)?;
    page.push_score(score)?;
    let Page { text, .. } = page;
    Ok(text)
}
