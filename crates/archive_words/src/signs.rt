//! What kinds of signs stand among moves.
ghost use Rattle.std.specs.Prelude.{◌≡◌};
ghost use Rattle.archive_words.specs.Signs.{is_cross, is_letter, is_judgement, is_silent};

/// The letter looks like the cross of a capture; the two others are Cyrillic.
pub fn is_cross(letter: char) -> bool
    ensures { result ≡ is_cross letter }
{
    letter == 'x' || letter == 'X' || letter == '\u{445}' || letter == '\u{425}'
}

/// The sign is a letter of a word.
pub fn is_letter(letter: char) -> bool
    ensures { result ≡ is_letter letter }
{
    letter.is_ascii_alphabetic()
        || ('\u{c0}' <= letter && letter < '\u{2000}' && letter != '×' && letter != '÷')
}

/// A sign that judges a move, or begins an evaluation or a number for a judgement.
pub fn is_judgement(letter: char) -> bool
    ensures { result ≡ is_judgement letter }
{
    letter == '$'
        || letter == '+'
        || letter == '='
        || letter == '±'
        || letter == '∓'
        || letter == '⩲'
        || letter == '⩱'
        || letter == '~'
        || letter == '#'
        || letter == '^'
        || letter == '∞'
        || letter == '%'
        || letter == '□'
        || letter == '■'
}

/// A sign that says nothing.
pub fn is_silent(letter: char) -> bool
    ensures { result ≡ is_silent letter }
{
    letter == ' '
        || letter == '!'
        || letter == '?'
        || letter == ','
        || letter == '"'
        || letter == '\''
        || letter == '>'
        || letter == '|'
        || letter == '_'
}
