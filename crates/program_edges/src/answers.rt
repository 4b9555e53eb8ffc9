//! How the answer of a run is written: what it has to write, or the line of its refusal.
ghost use Rattle.std.specs.Prelude.{◌≡◌, None, Some, IfOk, IfErr, OnOk};
ghost use Rattle.shared_words.specs.Counts.{Rose};
ghost use Rattle.opening_report.specs.Lines.{IsLine};
ghost use Rattle.program_edges.specs.Answers.{TakesLine, TakesOutput};

use crate::refused::Refused;
use bench_edges::{Sink, Status, write_all};
use opening_report::Written;

/// Writes the line of the refusal, and answers its status. Where the sink fails at the line, the
/// status stays.
pub fn refuse<E: Refused, K: Sink>(refusal: &E, sink: &mut K) -> Status
    ensures status { result ≡ E.status_of refusal.now }
    ensures line { TakesLine (E.line_of refusal.now) (K.taken sink.old) (K.taken sink.new)
        (K.faults sink.old) (K.faults sink.new) }
    ensures said { IsLine (E.line_of refusal.now) }
{
    let line = refusal.line();
    let _ = write_all(sink, line.as_bytes());
    refusal.status()
}

/// Writes the output. Where the sink fails, the status is `Write`; else it is `Done` where the
/// output is settled, and `Unsolved` where it is not.
fn write_output<K: Sink>(output: &Written, sink: &mut K) -> Status
    ensures taken { TakesOutput result output.now.text.items output.now.is_settled
        (K.taken sink.old) (K.taken sink.new) }
    ensures write { result ≡ Status.Write → Rose (K.faults sink.old) (K.faults sink.new) }
{
    match write_all(sink, &output.text) {
        Err(_) => Status::Write,
        Ok(()) if output.is_settled => Status::Done,
        Ok(()) => Status::Unsolved,
    }
}

/// Writes the output, or the line of the refusal. Answers the status, and hands the refusal back.
pub fn write_answer<E: Refused + Drop, K: Sink>(
    answer: Result<Written, E>,
    sink: &mut K,
) -> (Status, Option<E>)
    ensures taken { IfOk answer (λ output. TakesOutput result.0 output.text.items output.is_settled
        (K.taken sink.old) (K.taken sink.new)) }
    ensures write { OnOk answer
        (result.0 ≡ Status.Write → Rose (K.faults sink.old) (K.faults sink.new)) }
    ensures status { IfErr answer (λ r. result.0 ≡ E.status_of r) }
    ensures line { IfErr answer (λ r. TakesLine (E.line_of r) (K.taken sink.old) (K.taken sink.new)
        (K.faults sink.old) (K.faults sink.new)) }
    ensures said { IfErr answer (λ r. IsLine (E.line_of r)) }
    ensures settled { OnOk answer (result.1 ≡ None) }
    ensures refusal { IfErr answer (λ r. result.1 ≡ Some r) }
{
    match answer {
        Ok(output) => (write_output(&output, sink), None),
        Err(refusal) => (refuse(&refusal, sink), Some(refusal)),
    }
}
