//! Runs of numbers with signs between: `11-15`, `22x15`, `1/2-1/2`, `7`.
ghost use Rattle.std.specs.Prelude.{◌≡◌, IfSome};
ghost use Rattle.archive_words.specs.Runs.{is_half, is_square, path_of, score_of};
ghost use Rattle.std.specs.Option.{is_some};

use crate::outcome::Outcome;
use arrayvec::ArrayVec;
use draughts_board::{Move, Square};

/// How many numbers a run keeps: as many as a move has squares at most.
pub const MOST_NUMBERS: usize = 13;

/// A sign between two numbers.
#[derive(Clone, Copy, PartialEq, Eq, Debug)]
pub enum Join {
    Dash,
    /// `x`, `×`, or another letter that looks like it.
    Cross,
    Colon,
    Slash,
}

/// What a run is.
#[derive(Clone, Copy, Debug)]
pub enum Meaning {
    /// No number stands in it.
    Nothing,
    /// A number alone.
    Number(u32),
    /// The squares of a move.
    Move(Move),
    /// A result in digits.
    Result(Outcome),
    /// A time or a date.
    Clock,
    /// A number is wanted at its end.
    Half,
    /// Nothing of these.
    Bad,
}

/// A run of numbers, as far as it has come.
#[derive(Drop)]
pub struct Run {
    numbers: ArrayVec<u32, MOST_NUMBERS>,
    // A sign stands behind the last number.
    is_open: bool,
    // More numbers were there than are kept.
    is_long: bool,
    has_slash: bool,
    // Each sign is a colon.
    is_clock: bool,
}

/// The square of this number.
fn square_of(number: u32) -> Option<Square>
    ensures value { IfSome result (λ s. s ≡ number) }
    ensures some { is_some result ≡ is_square number }
{
    if number > 32 {
        return None;
    }
    Square::new(number as u8)
}

/// The move over these squares.
fn path_of(numbers: &[u32]) -> Option<Move>
    ensures { result ≡ path_of numbers.now }
{
    if let [from, to] = numbers {
        return Some(Move::direct(square_of(*from)?, square_of(*to)?));
    }
    if numbers.len() < 2 || numbers.len() > MOST_NUMBERS {
        return None;
    }
    let first = square_of(numbers[0])?;
    let mut squares = [first; 13];
    for (place, number) in numbers.iter().enumerate() {
        squares[place] = square_of(*number)?;
    }
    Move::of(&squares[..numbers.len()])
}

/// `1/2` and `1/2-1/2`.
fn is_half(numbers: &[u32]) -> bool
    ensures { result ≡ is_half numbers.now }
{
    match numbers {
        [1, 2] => true,
        [1, 2, 1, 2] => true,
        _ => false,
    }
}

/// The result that two numbers are, if they are one.
fn score_of(numbers: &[u32]) -> Option<Outcome>
    ensures { result ≡ score_of numbers.now }
{
    match numbers {
        [first, second] => Outcome::of_score(*first, *second),
        _ => None,
    }
}

impl Run {
    ghost use Rattle.std.specs.Prelude.{◌<◌, ◌==◌, ◌||◌, ◌++◌, ◌∷◌, [], false, length};
    ghost use Rattle.archive_words.specs.Runs.{IsNew, IsOver, joined_by, joined_meaning, lone_of, meaning_of};

    /// A run without numbers.
    pub fn new() -> Run
        ensures { IsNew result }
    {
        Run {
            numbers: ArrayVec::new(),
            is_open: false,
            is_long: false,
            has_slash: false,
            is_clock: true,
        }
    }

    /// No number stands in it.
    pub fn is_empty(&self) -> bool
        ensures { result ≡ (length self.now.numbers.items == 0) }
    {
        self.numbers.is_empty()
    }

    /// A sign stands behind its last number, so that the next number belongs to it.
    pub fn is_open(&self) -> bool
        ensures { result ≡ self.now.is_open }
    {
        self.is_open
    }

    /// The number that stands in it alone, if one does.
    pub fn lone(&self) -> Option<u32>
        ensures value { result ≡ lone_of self.now }
        ensures some { IfSome result (λ number. self.now.numbers.items ≡ number ∷ []) }
        ensures closed { IfSome result (λ _. self.now.is_open ≡ false) }
    {
        match self.numbers.as_slice() {
            [number] if !self.is_open => Some(*number),
            _ => None,
        }
    }

    /// Takes a number behind the last sign. A run of [`MOST_NUMBERS`] keeps no further one.
    pub fn push(&mut self, number: u32)
        ensures numbers { length self.old.numbers.items < MOST_NUMBERS
            → self.new.numbers.items ≡ self.old.numbers.items ++ number ∷ [] }
        ensures full { length self.old.numbers.items ≡ MOST_NUMBERS
            → self.new.numbers.items ≡ self.old.numbers.items }
        ensures closed { self.new.is_open ≡ false }
        ensures long { self.new.is_long
            ≡ (self.old.is_long || length self.old.numbers.items == MOST_NUMBERS) }
        ensures slash { self.new.has_slash ≡ self.old.has_slash }
        ensures clock { self.new.is_clock ≡ self.old.is_clock }
    {
        self.is_open = false;
        if self.numbers.is_full() {
            self.is_long = true;
        } else {
            self.numbers.push(number);
        }
    }

    /// Takes a sign behind the last number.
    pub fn join(&mut self, join: Join)
        ensures { self.new ≡ joined_by join self.old }
    {
        self.is_open = true;
        match join {
            Join::Colon => {}
            Join::Slash => {
                self.has_slash = true;
                self.is_clock = false;
            }
            Join::Dash => self.is_clock = false,
            Join::Cross => self.is_clock = false,
        }
    }

    /// Takes the last sign back.
    pub fn close(&mut self)
        ensures { self.new ≡ record self.old { is_open = false } }
    {
        self.is_open = false;
    }

    /// Begins anew.
    pub fn clear(&mut self)
        ensures { IsNew self.new }
    {
        self.numbers.clear();
        self.is_open = false;
        self.is_long = false;
        self.has_slash = false;
        self.is_clock = true;
    }

    /// What two numbers or more are.
    fn joined(&self) -> Meaning
        ensures { result ≡ joined_meaning self.now }
    {
        let numbers = self.numbers.as_slice();
        if self.has_slash {
            return if is_half(numbers) {
                Meaning::Result(Outcome::Draw)
            } else {
                Meaning::Clock
            };
        }
        if let Some(outcome) = score_of(numbers) {
            return Meaning::Result(outcome);
        }
        match path_of(numbers) {
            Some(path) => Meaning::Move(path),
            None if self.is_clock => Meaning::Clock,
            None => Meaning::Bad,
        }
    }

    /// What it is.
    pub fn meaning(&self) -> Meaning
        ensures value { result ≡ meaning_of self.now }
        ensures over { IsOver self.now.numbers.items result }
    {
        match self.numbers.as_slice() {
            [] => Meaning::Nothing,
            [number] if !self.is_open || self.is_clock => Meaning::Number(*number),
            _ if self.is_open => Meaning::Half,
            _ if self.is_long => Meaning::Bad,
            _ => self.joined(),
        }
    }
}
