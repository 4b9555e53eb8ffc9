//! `verify`: whether a text is that of a good certificate.
ghost use Rattle.std.specs.Prelude.{◌≡◌, IfOk, IfErr};
ghost use Rattle.bench_edges.specs.declared.words.Command.TheVariants as commands;
ghost use Rattle.certificate_text.specs.Text.{ReadsAs};
ghost use Rattle.opening_report.specs.Findings.{verified_text};
ghost use Rattle.opening_report.specs.Lines.{IsLine};
ghost use Rattle.bench_commands.specs.Commands.{Answers};
ghost use Rattle.bench_commands.specs.Steps.{IsAnswerFault, IsAnswerFaultOnly, SaysTrue};
ghost use Rattle.strategy_certificate.specs.Certificates.{IsGood, IsTrueOf};

use certificate_checker::{Proved, check};
use certificate_text::read_certificate;
use endgame_table::{Table, fill};
use opening_report::{Refusal, Written, verified_line};
use std::alloc::{AllocError, Global};

/// The longest source that `verify` reads, in bytes.
pub const MOST_CERTIFICATE_BYTES: usize = 268_435_456;

/// The line that the certificate's claim is true of its position.
fn verified_text(alloc: Global, proved: &Proved) -> Result<Vec<u8>, AllocError>
    ensures text { IfOk result (λ text.
        text.items ≡ verified_text proved.now.position proved.now.claim) }
    ensures line { IsLine (verified_text proved.now.position proved.now.claim) }
    ensures good { IsGood proved.now }
    ensures right { IsTrueOf proved.now.claim proved.now.position }
{
    let c = proved.certificate();
    let line = verified_line(&c.position, c.claim);
    line.as_bytes().to_vec(alloc)
}

/// The certificate of this text, checked, and the endgame table of the pieces that it names.
pub(crate) fn checked(alloc: Global, text: &[u8]) -> Result<(Proved, Table), Refusal>
    ensures spelled { IfOk result (λ found. ReadsAs text.now found.0) }
    ensures tables { IfOk result (λ found. found.1.pieces ≡ found.0.pieces) }
    ensures refused { IfErr result (IsAnswerFault commands.Verify text.now) }
    ensures accepted { IfErr result (IsAnswerFaultOnly commands.Verify text.now) }
{
    let certificate = read_certificate(alloc, text)?;
    let table = fill(alloc, certificate.pieces)?;
    match check(alloc, certificate, &table) {
        Ok(proved) => Ok((proved, table)),
        Err(refused) => Err(Refusal::from(refused.1)),
    }
}

/// The line on the certificate of this text, by the endgame table of the pieces that it names.
pub(crate) fn verify(alloc: Global, text: &[u8]) -> Result<Written, Refusal>
    ensures answers { IfOk result (λ output. Answers commands.Verify text.now
        output.text.items output.is_settled) }
    ensures says { IfOk result (λ output. SaysTrue output.text.items) }
    ensures refused { IfErr result (IsAnswerFault commands.Verify text.now) }
    ensures accepted { IfErr result (IsAnswerFaultOnly commands.Verify text.now) }
{
    let (proved, _table) = checked(alloc, text)?;
    Ok(Written::settled(verified_text(alloc, &proved)?))
}
