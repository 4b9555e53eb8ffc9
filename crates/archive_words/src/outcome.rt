//! Results.

/// How a game ended.
#[derive(Clone, Copy, PartialEq, Eq, Debug)]
pub enum Outcome {
    /// `1-0` or `2-0`. Archives differ in whose score stands first.
    FirstWins,
    /// `0-1` or `0-2`.
    SecondWins,
    /// `1/2-1/2`, `1-1`, `½-½`, `½`, or a word for a draw.
    Draw,
    /// Black won, in words.
    BlackWins,
    /// White won, in words.
    WhiteWins,
    /// `*`, `0-0`, or a word for a game that was not finished.
    Unfinished,
}

impl Outcome {
    ghost use Rattle.std.specs.Prelude.{◌≡◌, ◌&&◌, not};
    ghost use Rattle.archive_words.specs.Outcomes.{is_in_digits, is_same, outcome_of_tag, written};
    ghost use Rattle.archive_words.specs.Runs.{outcome_of_score};

    /// The result in digits; `*` where words name the side, since archives differ in whose score
    /// stands first.
    pub fn written(self) -> &'static str
        ensures { result.now ≡ written self }
    {
        match self {
            Outcome::FirstWins => "1-0",
            Outcome::SecondWins => "0-1",
            Outcome::Draw => "1/2-1/2",
            Outcome::BlackWins => "*",
            Outcome::WhiteWins => "*",
            Outcome::Unfinished => "*",
        }
    }

    /// The outcome of a score in two numbers, if it is one.
    pub(crate) fn of_score(first: u32, second: u32) -> Option<Outcome>
        ensures { result ≡ outcome_of_score first second }
    {
        match (first, second) {
            (1, 0) | (2, 0) => Some(Outcome::FirstWins),
            (0, 1) | (0, 2) => Some(Outcome::SecondWins),
            (1, 1) => Some(Outcome::Draw),
            (0, 0) => Some(Outcome::Unfinished),
            _ => None,
        }
    }

    /// The outcome that a tag `Result` names in digits; none for other words.
    pub fn of_tag(value: &[u8]) -> Option<Outcome>
        ensures { result ≡ outcome_of_tag value.now }
    {
        if value == b"1-0".as_slice() || value == b"2-0".as_slice() {
            Some(Outcome::FirstWins)
        } else if value == b"0-1".as_slice() || value == b"0-2".as_slice() {
            Some(Outcome::SecondWins)
        } else if value == b"1/2-1/2".as_slice()
            || value == b"1-1".as_slice()
            || value == b"1/2".as_slice()
        {
            Some(Outcome::Draw)
        } else if value == b"*".as_slice() || value == b"0-0".as_slice() {
            Some(Outcome::Unfinished)
        } else {
            None
        }
    }
    /// This result behind the moves is another than that of the tag, where both are finished and in
    /// digits.
    pub fn differs(self, named: Outcome) -> bool
        ensures { result ≡ (is_in_digits self && is_in_digits named && not (is_same self named)) }
    {
        self.is_in_digits() && named.is_in_digits() && self != named
    }

    /// The game is finished, and its result is written in digits.
    fn is_in_digits(self) -> bool
        ensures { result ≡ is_in_digits self }
    {
        match self {
            Outcome::FirstWins => true,
            Outcome::SecondWins => true,
            Outcome::Draw => true,
            Outcome::BlackWins => false,
            Outcome::WhiteWins => false,
            Outcome::Unfinished => false,
        }
    }
}
