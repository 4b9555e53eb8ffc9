//! A sink in front of a terminal that shows progress.
use crate::progress::ProgressGate;
use bench_edges::{Sink, SinkFault};

/// A sink that takes the line of progress from the terminal before it takes bytes, so that what a run writes begins a line.
#[derive(Drop)]
pub(crate) struct ClearingSink<'g, 'a, K: Sink> {
    sink: K,
    gate: &'g ProgressGate<'a>,
}

impl<'g, 'a, K: Sink> ClearingSink<'g, 'a, K> {
    /// The sink, beside the gate that shows progress.
    pub(crate) fn new(sink: K, gate: &'g ProgressGate<'a>) -> ClearingSink<'g, 'a, K> {
        ClearingSink { sink, gate }
    }
}

impl<K: Sink> Sink for ClearingSink<'_, '_, K> {
    ghost taken = { λ s. K.taken s.sink };

    ghost faults = { λ s. K.faults s.sink };

    fn write(&mut self, from: &[u8]) -> Result<usize, SinkFault> {
        self.gate.clear();
        self.sink.write(from)
    }
}
