//! The few signs that many characters stand for.

/// The sign for a character: blanks of all kinds as a blank, dashes as `-`, quotation marks as `"` or
/// `'`, line ends as LF, and each other character as it is.
pub(crate) fn normal(letter: char) -> char {
    match letter {
        ' '..='~' => letter,
        '\n' | '\u{85}' | '\u{2028}' | '\u{2029}' => '\n',
        '\0'..=' ' | '\u{7f}' | '\u{a0}' | '\u{1680}' | '\u{2000}'..='\u{200f}' => ' ',
        '\u{202a}'..='\u{202f}' | '\u{205f}'..='\u{2064}' | '\u{3000}' | '\u{feff}' => ' ',
        '\u{ad}' | '\u{2010}'..='\u{2015}' | '\u{2043}' | '\u{2212}' | '\u{fe58}' => '-',
        '\u{fe63}' | '\u{ff0d}' | '\u{2500}' => '-',
        '\u{ab}' | '\u{bb}' | '\u{201c}'..='\u{201f}' | '\u{2033}' => '"',
        '\u{2018}'..='\u{201b}' | '\u{2032}' => '\'',
        '\u{d7}' | '\u{2715}' | '\u{2716}' | '\u{2a2f}' => '×',
        '\u{2236}' => ':',
        _ => letter,
    }
}
