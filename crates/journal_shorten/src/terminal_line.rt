//! The line of progress at a terminal.
ghost use Rattle.std.specs.Prelude.{◌≡◌};

use bench_edges::{Sink, SinkFault};
use program_edges::tell;
use std::io::IsTerminal;

/// What the line says.
const READING: &[u8] = b"reading the journal and writing the shorter one";

/// What takes the line from the terminal again.
const CLEARED: &[u8] = b"\r\x1b[K";

/// A sink beside a line of progress on standard error. It takes the line from the terminal before it
/// takes bytes, so that what a run writes begins a line.
#[derive(Drop)]
pub(crate) struct ClearingSink<'a, K: Sink> {
    rt: &'a HostRuntime,
    sink: K,
    /// The line stands at the terminal.
    stands: bool,
}

impl<'a, K: Sink> ClearingSink<'a, K> {
    /// The sink. No line stands yet.
    pub(crate) fn new(rt: &'a HostRuntime, sink: K) -> ClearingSink<'a, K> {
        ClearingSink {
            rt,
            sink,
            stands: false,
        }
    }

    /// Shows the line; nothing where standard error is no terminal.
    pub(crate) fn show(&mut self) {
        if self.rt.stderr().is_terminal() {
            tell(self.rt, READING);
            self.stands = true;
        }
    }

    /// Takes the line from the terminal, where it stands.
    pub(crate) fn clear(&mut self)
        ensures { self.new.sink ≡ self.old.sink }
    {
        if self.stands {
            tell(self.rt, CLEARED);
            self.stands = false;
        }
    }
}

impl<K: Sink> Sink for ClearingSink<'_, K> {
    ghost taken = { λ s. K.taken s.sink };

    ghost faults = { λ s. K.faults s.sink };

    fn write(&mut self, from: &[u8]) -> Result<usize, SinkFault> {
        self.clear();
        self.sink.write(from)
    }
}
