//! Standard output and standard error, to which a program writes of itself.
ghost use Rattle.std.specs.Prelude.{◌≡◌, ◌⊎◌};
ghost use Rattle.bench_edges.specs.Status.{status_number};
ghost use Rattle.bench_edges.specs.declared.status.Status.TheVariants as status;

use bench_edges::{Status, StdSink, write_all};
use std::io;

/// Writes a text to standard output. Gives the exit status: 0, or that of [`Status::Write`] where it
/// fails.
pub fn print(rt: &HostRuntime, text: &str) -> u8
    ensures { (result ≡ status_number status.Done) ⊎ (result ≡ status_number status.Write) }
{
    match write_all(&mut StdSink::new(io::writer(rt)), text.as_bytes()) {
        Ok(()) => Status::Done.number(),
        Err(_) => Status::Write.number(),
    }
}

/// Writes a text to standard error, for a person. Where that fails, nothing more is said.
pub fn tell(rt: &HostRuntime, text: &[u8]) {
    let _ = rt.stderr().write_all(text);
}
