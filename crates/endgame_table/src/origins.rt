//! Where moves come from, by index: for each index the indices with a move that leads there.
//!
//! The origins of an index stand in a list that runs through one array of links, the last added first. A place in the
//! array is counted from 1, so that 0 is the end of a list.
use std::alloc::{AllocError, Global};

/// How many links there may be, since a place is kept in 32 bits.
pub(crate) const MOST_LINKS: usize = 4_294_967_295;

/// One origin, and the place of the next link of its list.
#[derive(Clone, Copy, Debug)]
pub(crate) struct Link {
    pub(crate) origin: u32,
    pub(crate) next: u32,
}

/// The list of origins of each index: the place of its first link, and the links.
#[derive(Drop)]
pub(crate) struct Origins {
    pub(crate) heads: Vec<u32>,
    pub(crate) links: Vec<Link>,
}

impl Origins {
    ghost use Rattle.std.specs.Prelude.{◌≡◌, ◌<◌, ◌≤◌, ◌+◌, ◌++◌, ◌∷◌, [], length, replicate, slice_index, slice_set, IfOk, OnOk};

    /// No origins of `count` indices.
    pub(crate) fn none(alloc: Global, count: usize) -> Result<Origins, AllocError>
        ensures heads { IfOk result (λ o. o.heads.items ≡ replicate count 0) }
        ensures links { IfOk result (λ o. o.links.items ≡ []) }
    {
        let mut heads = Vec::new(alloc);
        heads.resize(count, 0)?;
        Ok(Origins {
            heads,
            links: Vec::new(alloc),
        })
    }

    /// Puts an origin in front of those of the target. Where 2^32 - 1 links stand already, there is no room for it.
    pub(crate) fn add(&mut self, target: u32, origin: u32) -> Result<(), AllocError>
        requires { target < length self.old.heads.items }
        ensures links { OnOk result (self.new.links.items ≡ self.old.links.items
            ++ record { origin = origin; next = slice_index self.old.heads.items target } ∷ []) }
        ensures heads { OnOk result (self.new.heads.items
            ≡ slice_set self.old.heads.items target (length self.old.links.items + 1)) }
        ensures room { OnOk result (length self.new.links.items ≤ MOST_LINKS) }
    {
        if self.links.len() >= MOST_LINKS {
            return Err(AllocError);
        }
        let next = self.heads[target as usize];
        self.links.push(Link { origin, next })?;
        self.heads[target as usize] = self.links.len() as u32;
        Ok(())
    }
}
