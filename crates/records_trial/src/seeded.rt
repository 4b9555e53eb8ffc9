//! Records by the dice, written byte by byte from docs/FORMATS.md, in both versions at once.
use crate::plain::Spelled;
use rand_core::utils::NextWord;
use rand_pcg::Pcg32;
use std::alloc::{AllocError, Global};

/// How many positions the records of a journal choose from.
pub const POOL: usize = 6;

/// A record in full, and with its positions by number.
#[derive(Drop)]
pub struct Written {
    pub full: Vec<u8>,
    pub short: Vec<u8>,
}

/// A number below the bound, where that is not 0.
pub fn roll(dice: &mut Pcg32, bound: u32) -> u32 {
    dice.next_word().checked_rem(bound).unwrap_or(0)
}

/// A number of one byte below the bound, where that is not 0.
fn roll_byte(dice: &mut Pcg32, bound: u8) -> u8 {
    u8::try_from(roll(dice, u32::from(bound))).unwrap_or(0)
}

/// Its big-endian bytes.
fn number_bytes(number: usize) -> [u8; 4] {
    u32::try_from(number).unwrap_or(u32::MAX).to_be_bytes()
}

/// A mask of some of these squares: each has a chance of one in sixteen.
fn mask(dice: &mut Pcg32, free: u32) -> u32 {
    dice.next_word() & dice.next_word() & dice.next_word() & dice.next_word() & free
}

/// A position of few pieces, in full.
fn position(dice: &mut Pcg32) -> Spelled {
    let black_men = mask(dice, 0x0fff_ffff);
    let black_kings = mask(dice, !black_men);
    let white_men = mask(dice, !(black_men | black_kings) & 0xffff_fff0);
    let white_kings = mask(dice, !(black_men | black_kings | white_men));
    let mut p = [0; 17];
    p[0] = roll_byte(dice, 2);
    for (place, mask) in [black_men, black_kings, white_men, white_kings]
        .iter()
        .enumerate()
    {
        for (slot, byte) in p.iter_mut().skip(1 + 4 * place).zip(mask.to_be_bytes()) {
            *slot = byte;
        }
    }
    p
}

/// Positions to choose from.
pub fn pool(dice: &mut Pcg32) -> [Spelled; POOL] {
    let mut pool = [[0; 17]; POOL];
    for p in pool.iter_mut() {
        *p = position(dice);
    }
    pool
}

/// Appends the same bytes to both.
fn put(text: &mut Written, bytes: &[u8]) -> Result<(), AllocError> {
    text.full.extend_from_slice(bytes)?;
    text.short.extend_from_slice(bytes)
}

/// Appends a position: in full, and by its number in the list.
fn put_position(
    text: &mut Written,
    named: &mut Vec<Spelled>,
    p: &Spelled,
) -> Result<(), AllocError> {
    text.full.extend_from_slice(p)?;
    if let Some(number) = named.iter().position(|q| q == p) {
        return text.short.extend_from_slice(&number_bytes(number));
    }
    text.short.extend_from_slice(&number_bytes(named.len()))?;
    text.short.extend_from_slice(p)?;
    Ok(named.push(*p).map_err(AllocError::from)?)
}

/// Appends a move, or that none is chosen.
fn put_move(text: &mut Written, dice: &mut Pcg32) -> Result<(), AllocError> {
    let count = match roll_byte(dice, 14) {
        1 => 0,
        count => count,
    };
    put(text, &[count])?;
    for _ in 0..count {
        put(text, &[roll_byte(dice, 32).saturating_add(1)])?;
    }
    Ok(())
}

/// Appends a certificate of up to four entries.
fn put_certificate(
    text: &mut Written,
    dice: &mut Pcg32,
    pool: &[Spelled; POOL],
    named: &mut Vec<Spelled>,
) -> Result<(), AllocError> {
    let claim = roll_byte(dice, 4).saturating_add(1);
    let count = roll(dice, 5);
    let first = roll(dice, POOL as u32) as usize;
    put(text, &[claim])?;
    put(text, &count.to_be_bytes())?;
    for p in pool.iter().cycle().skip(first).take(count as usize) {
        put_position(text, named, p)?;
        if claim <= 2 {
            put(text, &u64::from(dice.next_word()).to_be_bytes())?;
        }
        put_move(text, dice)?;
    }
    Ok(())
}

/// A record of one of the three sorts. The list gets the positions that it names.
pub fn record(
    alloc: Global,
    dice: &mut Pcg32,
    pool: &[Spelled; POOL],
    named: &mut Vec<Spelled>,
) -> Result<Written, AllocError> {
    let mut text = Written {
        full: Vec::new(alloc),
        short: Vec::new(alloc),
    };
    let own = &pool[roll(dice, POOL as u32) as usize % POOL];
    let sort = roll(dice, 4);
    if sort == 0 {
        text.full.push(1)?;
        text.short.push(4)?;
        put_position(&mut text, named, own)?;
        return Ok(text);
    }
    let node = u64::from(dice.next_word()).to_be_bytes();
    if sort == 1 {
        put(&mut text, &[3])?;
        put(&mut text, &node)?;
        return Ok(text);
    }
    text.full.push(2)?;
    text.short.push(5)?;
    put(&mut text, &node)?;
    put_position(&mut text, named, own)?;
    let count = roll_byte(dice, 4).saturating_add(1);
    put(&mut text, &[count])?;
    for _ in 0..count {
        put_certificate(&mut text, dice, pool, named)?;
    }
    Ok(text)
}
