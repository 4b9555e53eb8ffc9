//! The line of play of a root of a journal.
ghost use Rattle.std.specs.Prelude.{◌≡◌, true, Err, IfErr, IfOk, unwrap_or};
ghost use Rattle.bench_disk.specs.Disk.{IsHonest};
ghost use Rattle.disk_journal.specs.Reads.{OnlyReads};
ghost use Rattle.disk_journal.specs.declared.refusal.JournalRefusal.TheVariants as journal;
ghost use Rattle.journal_looks.specs.Looks.{AnswersEach, BlamesNoFile, ExplainsNoCertificate, HasNoCertificate, HasSettledRoot};
ghost use Rattle.strategy_certificate.specs.Certificates.{IsGood};
ghost use Rattle.strategy_certificate.specs.Tables.{IsTableSize};
ghost use Rattle.journal_view.specs.Shown.{ShowsLine, WantsMemory, WritesLine};

use bench_disk::Disk;
use certificate_checker::{Proved, prove};
use certificate_lines::{Lengths, line_of};
use endgame_table::fill;
use journal_looks::{LookRefusal, certify};
use journal_pages::line_text;
use opening_report::Written;
use std::alloc::{AllocError, Global};
use strategy_certificate::{Certificate, Oracle};
use view_words::LineRequest;

/// For how many plies the line of a draw goes on.
pub const DRAWN_PLIES: usize = 20;

/// The certificate, which is good, as one that the checker accepted. It fails only for want of memory.
pub(crate) fn proved<O: Oracle>(
    alloc: Global,
    certificate: Certificate,
    oracle: &O,
) -> Result<Proved, AllocError>
    requires good { IsGood certificate }
    requires pieces { certificate.pieces ≡ O.piece_limit oracle.now }
    ensures { IfOk result (λ proved. proved ≡ certificate) }
{
    // That tells that its answers are sound.
    let _pieces = oracle.pieces();
    prove(alloc, certificate, oracle)
}

/// The text of the line of play by a certificate, which is good, of the root that is asked.
fn line_by(
    alloc: Global,
    asked: LineRequest,
    certificate: Certificate,
) -> Result<Vec<u8>, AllocError>
    requires good { IsGood certificate }
    requires pieces { IsTableSize certificate.pieces }
    ensures { IfOk result (λ text. WritesLine asked.root (unwrap_or asked.plies 0) certificate
        text.items) }
{
    let table = fill(alloc, certificate.pieces)?;
    let claim = certificate.claim;
    let proved = proved(alloc, certificate, &table)?;
    let varied = asked.plies.unwrap_or(0);
    let lengths = Lengths {
        drawn: DRAWN_PLIES,
        varied: varied as usize,
    };
    let line = line_of(alloc, &proved, lengths, &table)?;
    line_text(
        alloc,
        asked.root,
        &line.start,
        claim,
        &line.moves,
        &line.variations,
    )
}

/// What is written of the line of play by a certificate, which is good. It fails only for want of memory.
fn written_line(
    alloc: Global,
    asked: LineRequest,
    certificate: Certificate,
) -> Result<Written, LookRefusal>
    requires good { IsGood certificate }
    requires pieces { IsTableSize certificate.pieces }
    ensures writes { IfOk result (λ written. WritesLine asked.root (unwrap_or asked.plies 0)
        certificate written.text.items) }
    ensures settled { IfOk result (λ written. written.is_settled ≡ true) }
    ensures memory { IfErr result WantsMemory }
{
    match line_by(alloc, asked, certificate) {
        Ok(text) => Ok(Written::settled(text)),
        Err(error) => Err(LookRefusal::from(error)),
    }
}

/// The line of play of a root of the journal on a disk, with variations at the plies that are asked.
/// Nothing is written to the disk.
pub(crate) fn line<D: Disk>(
    alloc: Global,
    asked: LineRequest,
    disk: &mut D,
) -> Result<Written, LookRefusal>
    ensures shows { IfOk result (λ written. ShowsLine D.Disk asked.root
        (unwrap_or asked.plies 0) disk.old written.text.items) }
    ensures settled { IfOk result (λ written. written.is_settled ≡ true) }
    ensures refused { IsHonest D.TELLS →
        IfErr result (ExplainsNoCertificate (D.reads disk.old) asked.root) }
    ensures causes { IsHonest D.TELLS →
        AnswersEach (HasNoCertificate (D.reads disk.old) asked.root) result }
    ensures accepted { IsHonest D.TELLS → HasSettledRoot (D.reads disk.old) asked.root →
        BlamesNoFile result }
    ensures reads { OnlyReads D.Disk disk.old disk.new
        (result ≡ Err (LookRefusal.Journal journal.DiskFault)) }
{
    match certify(alloc, disk, asked.root) {
        Ok(certificate) => written_line(alloc, asked, certificate),
        Err(fault) => Err(fault),
    }
}
