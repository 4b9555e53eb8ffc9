//! The bits of a mask.

/// The bits of a mask one by one, the lowest first.
#[derive(Clone, Copy)]
pub(crate) struct Bits(pub(crate) u32);

impl Iterator for Bits {
    ghost use Rattle.std.specs.Iterator.{at_most};

    type Item = u32;

    ghost remaining = { λ bits. at_most bits.0 };

    #[inline]
    fn next(&mut self) -> Option<u32> {
        if self.0 == 0 {
            return None;
        }
        let others = self.0 & (self.0 - 1);
        let lowest = self.0 ^ others;
        self.0 = others;
        Some(lowest)
    }
}

/// The `count` lowest bits of the mask.
pub(crate) fn lowest_bits(mask: u32, count: u32) -> u32 {
    let mut lowest = 0;
    for bit in Bits(mask).take(count as usize) {
        lowest |= bit;
    }
    lowest
}
