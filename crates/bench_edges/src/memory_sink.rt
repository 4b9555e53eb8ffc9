//! A sink in memory.
ghost use Rattle.std.specs.Prelude.{◌≡◌, ◌<◌, ◌≤◌, ◌++◌, [], Contains, IfOk, IsErr, OnErr, Some, length, min, take};
ghost use Rattle.shared_words.specs.Counts.{one_more};
ghost use Rattle.std.specs.Io.KnownBytes.{Appends, Keeps};
ghost use Rattle.bench_edges.specs.Faults.{CountsFaults};
ghost use Rattle.bench_edges.specs.MemorySink.{Store};

use crate::sink::{Sink, SinkFault};
use std::alloc::Global;
use std::marker::Model;

/// A sink in memory: it holds what it took, tells it, and fails the writes that it is told to fail.
/// A write that finds no memory fails too.
#[derive(Drop)]
pub struct MemorySink {
    bytes: Vec<u8>,
    failing: Vec<u64>,
    most: usize,
    calls: u64,
    faults: u64,
}

impl Model for MemorySink {
    ghost Value = { Store };

    ghost view = { λ s. record {
      taken = s.bytes.items;
      failing = s.failing.items;
      most = s.most;
      calls = s.calls;
      faults = s.faults;
    } };

    ghost invariant = { λ s. 0 < s.most };
}

impl MemorySink {
    /// A sink that has taken nothing, takes all that it is given, and fails the writes with these
    /// numbers. The first write has the number 0.
    pub fn new(alloc: Global, fail: Vec<u64>) -> MemorySink
        ensures { result ≡ record {
          taken = [];
          failing = fail.items;
          most = usize.MAX;
          calls = 0;
          faults = 0;
        } }
    {
        MemorySink {
            bytes: Vec::new(alloc),
            failing: fail,
            most: usize::MAX,
            calls: 0,
            faults: 0,
        }
    }

    /// The same sink, which takes at most `most` bytes a write.
    pub fn at_most(self, most: usize) -> MemorySink
        requires { 0 < most }
        ensures { result ≡ record self { most = most } }
    {
        let mut sink = self;
        sink.most = most;
        sink
    }

    /// The bytes that it has taken.
    pub fn bytes(&self) -> &[u8]
        ensures { result.now ≡ self.now.taken }
    {
        &self.bytes
    }

    /// How many writes there were, up to the last value.
    pub fn calls(&self) -> u64
        ensures { result ≡ self.now.calls }
    {
        self.calls
    }

    /// How many of them failed, up to the last value.
    pub fn faults(&self) -> u64
        ensures { result ≡ self.now.faults }
    {
        self.faults
    }
}

impl Sink for MemorySink {
    ghost taken = { λ s. Some s.taken };

    ghost faults = { λ s. s.faults };

    fn write(&mut self, from: &[u8]) -> Result<usize, SinkFault>
        requires { 0 < length from.now }
        ensures some { IfOk result (λ count. 0 < count) }
        ensures bound { IfOk result (λ count. count ≤ length from.now) }
        ensures taken { IfOk result (λ count.
            Appends (Some self.old.taken) (Some self.new.taken) (take count from.now)) }
        ensures kept { OnErr result (Keeps (Some self.old.taken) (Some self.new.taken)) }
        ensures faults { CountsFaults self.old.faults self.new.faults result }

        // A write fails for want of memory too.
        ensures failed { Contains self.old.failing self.old.calls → IsErr result }
        ensures err { OnErr result (self.new ≡ record self.old {
          calls = one_more self.old.calls;
          faults = one_more self.old.faults;
        }) }
        ensures count { IfOk result (λ count. count ≡ min self.old.most (length from.now)) }
        ensures ok { IfOk result (λ count. self.new ≡ record self.old {
          taken = self.old.taken ++ take count from.now;
          calls = one_more self.old.calls;
        }) }
    {
        let call = self.calls;
        self.calls = call.saturating_add(1);
        let count = from.len().min(self.most);
        let fails = self.failing.contains(&call);
        if fails || self.bytes.extend_from_slice(&from[..count]).is_err() {
            self.faults = self.faults.saturating_add(1);
            return Err(SinkFault);
        }
        Ok(count)
    }
}
