//! Windows-1252, of which Latin-1 is a part.

/// The characters of the bytes 128 to 159.
static UPPER: [char; 32] = [
    '€', '\u{81}', '‚', 'ƒ', '„', '…', '†', '‡', 'ˆ', '‰', 'Š', '‹', 'Œ', '\u{8d}', 'Ž', '\u{8f}',
    '\u{90}', '‘', '’', '“', '”', '•', '–', '—', '˜', '™', 'š', '›', 'œ', '\u{9d}', 'ž', 'Ÿ',
];

/// The character of a byte of Windows-1252.
pub(crate) fn windows_character(byte: u8) -> char {
    if 0x80 <= byte && byte < 0xa0 {
        UPPER[byte as usize - 0x80]
    } else {
        byte as char
    }
}
