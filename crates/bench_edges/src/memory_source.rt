//! A source in memory.
ghost use Rattle.std.specs.Prelude.{◌≡◌, ◌↔◌, ◌<◌, ◌≤◌, ◌++◌, Contains, IfOk, IsErr, OnErr, Some, length, min, take, drop};
ghost use Rattle.shared_words.specs.Counts.{one_more};
ghost use Rattle.std.specs.Io.KnownBytes.{Consumes, IsAtEnd, Keeps};
ghost use Rattle.bench_edges.specs.Faults.{CountsFaults};
ghost use Rattle.bench_edges.specs.MemorySource.{Supply};

use crate::source::{Source, SourceFault};
use std::marker::Model;

/// A source in memory: it holds its bytes, tells them, and fails the reads that it is told to fail.
#[derive(Drop)]
pub struct MemorySource {
    bytes: Vec<u8>,
    at: usize,
    failing: Vec<u64>,
    most: usize,
    calls: u64,
    faults: u64,
}

impl Model for MemorySource {
    ghost Value = { Supply };

    ghost view = { λ s. record {
      left = drop s.at s.bytes.items;
      failing = s.failing.items;
      most = s.most;
      calls = s.calls;
      faults = s.faults;
    } };

    ghost invariant = { λ s. (s.at ≤ length s.bytes.items) × (0 < s.most) };
}

impl MemorySource {
    /// A source of these bytes that gives as many bytes as are asked, and fails the reads with
    /// these numbers. The first read has the number 0.
    pub fn new(bytes: Vec<u8>, fail: Vec<u64>) -> MemorySource
        ensures { result ≡ record {
          left = bytes.items;
          failing = fail.items;
          most = usize.MAX;
          calls = 0;
          faults = 0;
        } }
    {
        MemorySource {
            bytes,
            at: 0,
            failing: fail,
            most: usize::MAX,
            calls: 0,
            faults: 0,
        }
    }

    /// The same source, which gives at most `most` bytes a read.
    pub fn at_most(self, most: usize) -> MemorySource
        requires { 0 < most }
        ensures { result ≡ record self { most = most } }
    {
        let mut source = self;
        source.most = most;
        source
    }

    /// The bytes that are left.
    pub fn left(&self) -> &[u8]
        ensures { result.now ≡ self.now.left }
    {
        &self.bytes[self.at..]
    }

    /// How many reads there were, up to the last value.
    pub fn calls(&self) -> u64
        ensures { result ≡ self.now.calls }
    {
        self.calls
    }

    /// How many of them failed, up to the last value.
    pub fn faults(&self) -> u64
        ensures { result ≡ self.now.faults }
    {
        self.faults
    }
}

impl Source for MemorySource {
    ghost left = { λ s. Some s.left };

    ghost faults = { λ s. s.faults };

    fn read(&mut self, into: &mut [u8]) -> Result<usize, SourceFault>
        requires { 0 < length into.old }
        ensures bound { IfOk result (λ count. count ≤ length into.old) }
        ensures moved { IfOk result (λ count.
            Consumes (Some self.old.left) (Some self.new.left) (take count into.new)) }
        ensures end { IfOk result (λ count. count ≡ 0 → IsAtEnd (Some self.new.left)) }
        ensures kept { OnErr result (Keeps (Some self.old.left) (Some self.new.left)) }
        ensures faults { CountsFaults self.old.faults self.new.faults result }

        ensures failed { IsErr result ↔ Contains self.old.failing self.old.calls }
        ensures err { OnErr result (self.new ≡ record self.old {
          calls = one_more self.old.calls;
          faults = one_more self.old.faults;
        }) }
        ensures count { IfOk result (λ count.
            count ≡ min (min self.old.most (length into.old)) (length self.old.left)) }
        ensures into { IfOk result (λ count.
            into.new ≡ take count self.old.left ++ drop count into.old) }
        ensures ok { IfOk result (λ count. self.new ≡ record self.old {
          left = drop count self.old.left;
          calls = one_more self.old.calls;
        }) }
    {
        let call = self.calls;
        self.calls = call.saturating_add(1);
        if self.failing.contains(&call) {
            self.faults = self.faults.saturating_add(1);
            return Err(SourceFault);
        }
        let left = &self.bytes[self.at..];
        let count = left.len().min(into.len()).min(self.most);
        into[..count].copy_from_slice(&left[..count]);
        self.at += count;
        Ok(count)
    }
}
