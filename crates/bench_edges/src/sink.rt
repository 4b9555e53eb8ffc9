//! Where bytes go.
ghost use Rattle.std.specs.Prelude.{◌<◌, ◌≤◌, ℕ, List, Option, length, take, IfOk, OnOk, OnErr};
ghost use Rattle.std.specs.Io.KnownBytes.{Appends, Keeps};
ghost use Rattle.bench_edges.specs.Faults.{CountsFaults};
ghost use Rattle.bench_edges.specs.KnownBytes.{AppendsFront};

use thiserror::Error;

/// The sink failed, and counted a fault.
#[derive(Clone, Copy, Debug, PartialEq, Eq, Error)]
#[error("the sink failed")]
pub struct SinkFault;

/// Takes bytes, in order, and keeps them.
pub trait Sink {
    /// The bytes that it has taken so far, where the sink tells them. One that told them goes on
    /// telling.
    ghost taken: { Self → Option (List ℕ) };

    /// How often the sink has failed, up to the last value of a `u64`. The count never falls.
    ghost faults: { Self → ℕ };

    /// Takes bytes from the front of `from`, at least one, and answers how many. Answers
    /// `SinkFault` where the sink failed; then it has taken none of them.
    fn write(&mut self, from: &[u8]) -> Result<usize, SinkFault>
        requires { 0 < length from.now }
        ensures some { IfOk result (λ count. 0 < count) }
        ensures bound { IfOk result (λ count. count ≤ length from.now) }
        ensures taken { IfOk result (λ count.
            Appends (taken self.old) (taken self.new) (take count from.now)) }
        ensures kept { OnErr result (Keeps (taken self.old) (taken self.new)) }
        ensures faults { CountsFaults (faults self.old) (faults self.new) result };
}

/// Writes all of `bytes`, by one `write` after the other. Answers the first fault; then the sink
/// has taken the bytes in front of it, and not all.
pub fn write_all<K: Sink>(sink: &mut K, bytes: &[u8]) -> Result<(), SinkFault>
    ensures whole { OnOk result (Appends (K.taken sink.old) (K.taken sink.new) bytes.now) }
    ensures front { OnErr result (AppendsFront (K.taken sink.old) (K.taken sink.new) bytes.now) }
    ensures faults { CountsFaults (K.faults sink.old) (K.faults sink.new) result }
{
    let mut at = 0;
    while at < bytes.len() {
        at += sink.write(&bytes[at..])?;
    }
    Ok(())
}
