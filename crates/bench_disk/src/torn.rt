//! The bytes that a write leaves, whole or torn by a crash.
ghost use Rattle.std.specs.Prelude.{◌≡◌, ◌+◌, ◌<◌, ◌≤◌, length, IfOk, OnOk, OnErr};
ghost use Rattle.bench_disk.specs.Disk.{IsTorn, written};

use std::alloc::{AllocError, Global};

/// Numbers that decide what is left of torn writes, the same for the same choice.
#[derive(Drop)]
pub struct Picks {
    state: u64,
}

impl Picks {
    /// The numbers of this choice.
    pub fn new(choice: u64) -> Picks
        ensures { result.state ≡ choice }
    {
        Picks { state: choice }
    }

    /// The generator splitmix64 of Steele, Lea and Flood (2014).
    fn next(&mut self) -> u64 {
        self.state = self.state.wrapping_add(0x9e37_79b9_7f4a_7c15);
        let mut mixed = self.state;
        mixed = (mixed ^ (mixed >> 30)).wrapping_mul(0xbf58_476d_1ce4_e5b9);
        mixed = (mixed ^ (mixed >> 27)).wrapping_mul(0x94d0_49bb_1331_11eb);
        mixed ^ (mixed >> 31)
    }

    /// A place from the low one up to the high one, both included.
    fn place(&mut self, low: usize, high: usize) -> usize
        requires { low ≤ high }
        ensures at_least { low ≤ result }
        ensures at_most { result ≤ high }
    {
        let spread = (high - low) as u64;
        if spread == u64::MAX {
            return low;
        }
        low + (self.next() % (spread + 1)) as usize
    }
}

/// What a crash leaves of a write.
#[derive(Clone, Copy)]
enum Fate {
    Lost,
    Whole,
    /// Each byte is the old one, the new one or any other, and the end lies anywhere.
    Mixed,
}

impl Fate {
    /// The next fate.
    fn pick(picks: &mut Picks) -> Fate {
        match picks.next() % 4 {
            0 => Fate::Lost,
            1 => Fate::Whole,
            _ => Fate::Mixed,
        }
    }

    /// A byte of the range, or one past the old end: there the old one is missing, before the range
    /// the new one.
    fn byte(self, old: Option<u8>, new: Option<u8>, picks: &mut Picks) -> u8 {
        let picked = picks.next();
        let any = (picked % 256) as u8;
        match self {
            Fate::Lost => old.unwrap_or(any),
            Fate::Whole => new.unwrap_or(any),
            Fate::Mixed => match picked / 256 % 3 {
                0 => old.unwrap_or(any),
                1 => new.unwrap_or(any),
                _ => any,
            },
        }
    }

    /// Where the file ends, from the old end up to the end that it has with the whole write.
    fn end(self, old: usize, whole: usize, picks: &mut Picks) -> usize
        requires { old ≤ whole }
        ensures at_least { old ≤ result }
        ensures at_most { result ≤ whole }
    {
        match self {
            Fate::Lost => old,
            Fate::Whole => whole,
            Fate::Mixed => picks.place(old, whole),
        }
    }
}

/// Puts these bytes in the place of what stands there, longer where these end later. It takes its
/// memory first, and without it leaves the bytes as they were.
pub fn overwrite(bytes: &mut Vec<u8>, at: usize, from: &[u8]) -> Result<(), AllocError>
    ensures ok { OnOk result (bytes.new.items ≡ written bytes.old.items at from.now) }
    ensures err { OnErr result (bytes.new.items ≡ bytes.old.items) }
{
    let start = at.min(bytes.len());
    let inside = from.len().min(bytes.len() - start);
    bytes.extend_from_slice(&from[inside..])?;
    bytes[start..start + inside].copy_from_slice(&from[..inside]);
    Ok(())
}

/// The bytes after a write that a crash tore, as the picks decide.
pub fn torn(
    alloc: Global,
    bytes: &[u8],
    at: usize,
    from: &[u8],
    picks: &mut Picks,
) -> Result<Vec<u8>, AllocError>
    ensures { IfOk result (λ v. IsTorn at (length from.now) bytes.now v.items) }
{
    let fate = Fate::pick(picks);
    let whole = bytes.len().max(at.saturating_add(from.len()));
    let end = fate.end(bytes.len(), whole, picks);
    let mut left = Vec::new(alloc);
    for place in 0..end {
        let old = bytes.get(place).copied();
        let new = place.checked_sub(at).and_then(|i| from.get(i).copied());
        let byte = match (old, new) {
            (Some(old), None) => old,
            _ => fate.byte(old, new, picks),
        };
        left.push(byte)?;
    }
    Ok(left)
}
