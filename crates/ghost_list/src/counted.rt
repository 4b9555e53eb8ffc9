//! A list that only proofs read, and its length.
ghost use Rattle.std.specs.Prelude.{◌≡◌, ◌≤◌, ◌+◌, ◌^◌, ◌<◌, [], ◌∷◌, ◌++◌, length, OnOk, OnErr};

use crate::trace::Trace;
use std::alloc::AllocError;
use std::marker::Model;

/// Room is made for lengths below this.
const MOST: usize = 1 << 63;

/// A list of which the length alone is kept: eight bytes, however long it is. A contract sees the list.
#[derive(Drop)]
pub struct CountedTrace<T> {
    trace: Trace<T>,
    len: usize,
}

impl<T> Model for CountedTrace<T> {
    ghost use Rattle.std.specs.Prelude.{◌≡◌, List, length};
    ghost use Rattle.std.specs.Coded.{coded_list};

    ghost Value = { List T };

    ghost coded = { coded_list T.code };

    ghost view = { λ c. c.trace.items };

    ghost invariant = { λ c. length c.trace.items ≡ c.len };
}

impl<T> CountedTrace<T> {
    /// The empty list.
    pub fn new() -> CountedTrace<T>
        ensures { result ≡ [] }
    {
        CountedTrace {
            trace: Trace::new(),
            len: 0,
        }
    }

    /// How long it is.
    pub fn len(&self) -> usize
        ensures { result ≡ length self.now }
    {
        self.len
    }

    /// Whether its length stays below 2^63 with `more` items behind it; else it is answered as want of memory.
    pub fn reserve(&self, more: usize) -> Result<(), AllocError>
        ensures ok { OnOk result (length self.now + more < 2 ^ 63) }
        ensures err { OnErr result (2 ^ 63 ≤ length self.now + more) }
    {
        if self.len >= MOST || more >= MOST - self.len {
            return Err(AllocError);
        }
        Ok(())
    }

    /// Adds an item behind the others.
    pub fn push(&mut self, item: &T)
        requires { length self.old + 1 < 2 ^ 64 }
        ensures { self.new ≡ self.old ++ item.now ∷ [] }
    {
        self.trace = self.trace.with(item);
        self.len += 1;
    }
}
