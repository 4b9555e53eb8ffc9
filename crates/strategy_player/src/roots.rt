//! A play from a root of a journal.
ghost use Rattle.std.specs.Prelude.{◌≡◌, true, IfErr, IfOk};
ghost use Rattle.bench_disk.specs.Disk.{IsHonest, Stays};
ghost use Rattle.strategy_certificate.specs.Certificates.{IsGood};
ghost use Rattle.strategy_certificate.specs.Tables.{IsTableSize};
ghost use Rattle.strategy_player.specs.Runs.{AcceptsRoot, AnswersCauses, IsRefusedBy, IsRefusedRoot, Shows};
ghost use Rattle.strategy_player.specs.Texts.{WritesOut};

use crate::refusals::PlayRefusal;
use crate::texts::play_text;
use crate::words::Request;
use bench_disk::Disk;
use certificate_checker::{Proved, prove};
use certificate_plays::played;
use draughts_board::Side;
use endgame_table::fill;
use journal_looks::certify;
use opening_report::Written;
use std::alloc::{AllocError, Global};
use strategy_certificate::{Certificate, Oracle};

/// The certificate, which is good, as one that the checker accepted. It fails only for want of memory.
fn proved<O: Oracle>(
    alloc: Global,
    certificate: Certificate,
    oracle: &O,
) -> Result<Proved, AllocError>
    requires good { IsGood certificate }
    requires pieces { certificate.pieces ≡ O.piece_limit oracle.now }
    ensures { IfOk result (λ proved. proved ≡ certificate) }
{
    // That tells that its answers are sound.
    let _pieces = oracle.pieces();
    prove(alloc, certificate, oracle)
}

/// What is written of a play of the side by a certificate, which is good, against the lines of a
/// source.
fn play_by(
    alloc: Global,
    certificate: Certificate,
    side: Side,
    source: &[u8],
) -> Result<Written, PlayRefusal>
    requires good { IsGood certificate }
    requires pieces { IsTableSize certificate.pieces }
    ensures plays { IfOk result (λ written.
        WritesOut certificate side source.now written.text.items) }
    ensures settled { IfOk result (λ written. written.is_settled ≡ true) }
    ensures refused { IfErr result (IsRefusedBy certificate side source.now) }
{
    let table = fill(alloc, certificate.pieces)?;
    let proved = proved(alloc, certificate, &table)?;
    let play = played(alloc, proved, side, &table, source)?;
    Ok(Written::settled(play_text(alloc, &play)?))
}

/// What is written of the play that is asked, against the lines of a source. Nothing is written to
/// the disk.
pub(crate) fn played_root<D: Disk>(
    alloc: Global,
    request: Request,
    source: &[u8],
    disk: &mut D,
) -> Result<Written, PlayRefusal>
    ensures shows { IfOk result (λ written. Shows D.Disk
        request.root request.side source.now disk.old written.text.items) }
    ensures settled { IfOk result (λ written. written.is_settled ≡ true) }
    ensures refused { IfErr result (IsRefusedRoot D.Disk
        request.root request.side source.now disk.old disk.new) }
    ensures causes { AnswersCauses D.Disk request.root request.side disk.old result }
    ensures accepted { AcceptsRoot D.Disk
        request.root request.side source.now disk.old result }
    ensures leaves { IsHonest D.TELLS → Stays D.reads D.images disk.old disk.new }
{
    match certify(alloc, disk, request.root) {
        Ok(certificate) => play_by(alloc, certificate, request.side, source),
        Err(refusal) => Err(PlayRefusal::from(refusal)),
    }
}
