//! The hash and the word by which a position is looked up.
ghost use Rattle.std.specs.Prelude.{◌≡◌};
ghost use Rattle.position_rows.specs.Words.{digit, hash_of, next_word, pair_of, word_of};

use draughts_board::Position;

/// An odd number, so that no two numbers below 2^128 have the same product with it modulo 2^128.
/// Its bits stand in no order.
const FACTOR: u128 = 0x9e37_79b9_7f4a_7c15_f39c_c060_5ced_c835;

/// Two numbers whose bits stand in no order.
const BLACK_KEY: u64 = 0x243f_6a88_85a3_08d3;

const WHITE_KEY: u64 = 0x9e37_79b9_7f4a_7c15;

/// Two masks behind each other.
#[inline]
fn pair_of(men: u32, kings: u32) -> u64
    ensures { result ≡ pair_of men kings }
{
    (men as u64).wrapping_add((kings as u64).wrapping_mul(1 << 32))
}

/// The hash of a position's pieces: one multiplication of two masks by the two others, so that each
/// bit of the masks moves each bit of the hash.
#[inline]
pub(crate) fn hash_of(p: &Position) -> u64
    ensures { result ≡ hash_of p.now }
{
    let [black_men, black_kings, white_men, white_kings] = p.masks();
    let black = pair_of(black_men, black_kings) ^ BLACK_KEY;
    let white = pair_of(white_men, white_kings) ^ WHITE_KEY;
    let product = (black as u128).wrapping_mul(white as u128);
    (product & 0xFFFF_FFFF_FFFF_FFFF) as u64 ^ (product >> 64) as u64
}

/// The word of a position's pieces: its four masks behind each other, times an odd number, so that
/// each bit of the masks moves the highest bits.
#[inline]
pub(crate) fn word_of(p: &Position) -> u128
    ensures { result ≡ word_of p.now }
{
    let [black_men, black_kings, white_men, white_kings] = p.masks();
    (pair_of(black_men, black_kings) as u128)
        .wrapping_add((pair_of(white_men, white_kings) as u128).wrapping_mul(1 << 64))
        .wrapping_mul(FACTOR)
}

/// The first digit of a word: the highest of 128 bits.
#[inline]
pub(crate) fn digit(word: u128) -> bool
    ensures { result ≡ digit word }
{
    word >= 1 << 127
}

/// The digits behind the first.
#[inline]
pub(crate) fn next_word(word: u128) -> u128
    ensures { result ≡ next_word word }
{
    word.wrapping_mul(2)
}
