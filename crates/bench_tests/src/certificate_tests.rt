//! Runs of `verify`. The texts and what is due were worked out by hand from the format, and from the
//! rules of play: 23-19 leaves the man on 12 without a move, and 15x24 takes the king on 19.
ghost use Rattle.std.specs.Prelude.{IfOk};
ghost use Rattle.certificate_text.specs.Text.{IsPrinted};

use crate::runs_of_tests::{Leaves, NO_FAULTS, RUN, Run, expect_runs, run_bench};
use bench_edges::Status;
use certificate_checker::{CheckRefusal, check};
use certificate_text::{print_certificate, read_certificate};
use endgame_table::fill;
use fen_text::read_fen;
use std::alloc::Global;
use std::test::Fail;
use strategy_certificate::Certificate;
use worker_gate::OpenGate;

/// White wins in one ply: 23-19 blocks the last man.
const BLOCKING: &str =
    "certificate 1\ntable 2\nposition W:W16,23:B12\nclaim white-wins\nwin white 2\n\
    W:W16,23:B12 1 23-19\nB:W16,19:B12 0\nend\n";

/// Black's king takes one of two, and then neither side wins.
const DRAWN: &str = "certificate 1\ntable 2\nposition B:WK1,K19:BK15\nclaim draw\nhold black 1\n\
    B:WK1,K19:BK15 15x24\nhold white 1\nB:WK1,K19:BK15\nend\n";

/// As `BLOCKING`, but the rank of the first entry is not above that of the second.
const LOW: &str = "certificate 1\ntable 2\nposition W:W16,23:B12\nclaim white-wins\nwin white 2\n\
    W:W16,23:B12 0 23-19\nB:W16,19:B12 0\nend\n";

/// As `BLOCKING`, but the move of the first entry leads to no entry.
const ASTRAY: &str =
    "certificate 1\ntable 2\nposition W:W16,23:B12\nclaim white-wins\nwin white 2\n\
    W:W16,23:B12 1 23-18\nB:W16,19:B12 0\nend\n";

/// The line of a text that ends before its end.
const TRUNCATED: &[u8] = b"refused input certificate truncated\n";

/// A run of `verify` over this source.
const VERIFY: Run = Run {
    words: &["-", "verify"],
    leaves: Leaves::Same,
    ..RUN
};

/// A refused one.
const REFUSED: Run = Run {
    status: Status::Input,
    ..VERIFY
};

/// Certificates that are verified, and those that the checker refuses.
const CHECKED: &[Run] = &[
    Run {
        source: BLOCKING,
        written: "verified W:W16,23:B12 white-wins\n",
        ..VERIFY
    },
    Run {
        source: DRAWN,
        written: "verified B:WK1,K19:BK15 draw\n",
        ..VERIFY
    },
    Run {
        source: LOW,
        written: "refused input check part 1 entry 1 bad-rank\n",
        ..REFUSED
    },
    Run {
        source: ASTRAY,
        written: "refused input check part 1 entry 1 missing\n",
        ..REFUSED
    },
    // The part of another claim.
    Run {
        source: "certificate 1\ntable 2\nposition W:W16,23:B12\nclaim black-wins\nwin white 0\nend\n",
        written: "refused input check claim-not-met\n",
        ..REFUSED
    },
    // A draw with one part.
    Run {
        source: "certificate 1\ntable 2\nposition W:W16,23:B12\nclaim draw\nhold white 0\nend\n",
        written: "refused input check claim-not-met\n",
        ..REFUSED
    },
    // No move is chosen where White moves.
    Run {
        source: "certificate 1\ntable 2\nposition W:W16,23:B12\nclaim white-wins\nwin white 2\n\
            W:W16,23:B12 1\nB:W16,19:B12 0\nend\n",
        written: "refused input check part 1 entry 1 bad-move\n",
        ..REFUSED
    },
    // 23-27 goes backwards.
    Run {
        source: "certificate 1\ntable 2\nposition W:W16,23:B12\nclaim white-wins\nwin white 2\n\
            B:W16,19:B12 0\nW:W16,23:B12 1 23-27\nend\n",
        written: "refused input check part 1 entry 2 bad-move\n",
        ..REFUSED
    },
    // Black has no move in the one entry, so it holds nothing.
    Run {
        source: "certificate 1\ntable 2\nposition W:W16,23:B12\nclaim black-holds\nhold black 1\n\
            B:W16,19:B12\nend\n",
        written: "refused input check part 1 entry 1 stuck-holder\n",
        ..REFUSED
    },
    // The entry is good, and the position is none of the part's.
    Run {
        source: "certificate 1\ntable 2\nposition W:W16,23:B12\nclaim white-wins\nwin white 1\n\
            B:W16,19:B12 0\nend\n",
        written: "refused input check part 1 no-root\n",
        ..REFUSED
    },
];

/// Texts that are no certificate.
const UNREADABLE: &[Run] = &[
    Run {
        source: "certificate 2\n",
        written: "refused input certificate bad-line 1\n",
        ..REFUSED
    },
    Run {
        source: "certificate 1\ntable 4\n",
        written: "refused input certificate bad-line 2\n",
        ..REFUSED
    },
    Run {
        source: "certificate 1\ntable 2\nposition W:W23,16:B12\n",
        written: "refused input certificate bad-fen 3\n",
        ..REFUSED
    },
    Run {
        source: "certificate 1\ntable 2\nposition W:W16,23:B12\nclaim white-wins\nwin white 2\n\
            B:W16,19:B12 0\nB:W16,19:B12 0\nend\n",
        written: "refused input certificate doubled 7\n",
        ..REFUSED
    },
    Run {
        source: "certificate 1\ntable 2\nposition W:W16,23:B12\nclaim white-wins\nwin white 2\n\
            W:W16,23:B12 1 23-19\nB:W16,19:B12 0\nend\nx\n",
        written: "refused input certificate after-end 9\n",
        ..REFUSED
    },
];

#[test]
fn certificates_are_verified_or_refused(rt: HostRuntime) -> Result<(), Fail> {
    expect_runs(&rt, rt.alloc(), &[], CHECKED)?;
    expect_runs(&rt, rt.alloc(), &[], UNREADABLE)?;
    Ok(())
}

#[test]
fn every_prefix_is_truncated(rt: HostRuntime) -> Result<(), Fail> {
    for count in 0..BLOCKING.len() {
        let text = &BLOCKING.as_bytes()[..count];
        let seen = run_bench(
            &rt,
            rt.alloc(),
            VERIFY.words,
            text,
            &[],
            NO_FAULTS,
            &OpenGate,
        )?;
        assert_eq!(rt;
            (seen.status, seen.written.as_slice()),
            (Status::Input, TRUNCATED)
        );
    }
    Ok(())
}

// ---- the checker by itself

/// The certificate of this text.
fn certificate(alloc: Global, text: &str) -> Result<Certificate, Fail>
    ensures { IfOk result IsPrinted }
{
    Ok(read_certificate(alloc, text.as_bytes())?)
}

/// Whether the checker hands the certificate back whose text this is, and why it refuses it, if it
/// does.
fn checked(alloc: Global, text: &str) -> Result<(bool, Option<CheckRefusal>), Fail> {
    let table = fill(alloc, 2)?;
    let given = certificate(alloc, text)?;
    if given.pieces != table.pieces() {
        return Err(Fail::from("another table"));
    }
    let (handed_back, refusal) = match check(alloc, given, &table) {
        Ok(proved) => (proved.into_certificate(), None),
        Err((given, refusal)) => (given, Some(refusal)),
    };
    let printed = print_certificate(alloc, &handed_back)?;
    Ok((printed.as_slice() == text.as_bytes(), refusal))
}

#[test]
fn the_checker_hands_certificates_back(rt: HostRuntime) -> Result<(), Fail> {
    let missing = CheckRefusal::Missing {
        part: 1,
        entry: 1,
        successor: read_fen(b"B:W16,18:B12")?,
    };
    let low = CheckRefusal::BadRank { part: 1, entry: 1 };
    for (text, refusal) in [(BLOCKING, None), (LOW, Some(low)), (ASTRAY, Some(missing))] {
        assert_eq!(rt; checked(rt.alloc(), text)?, (true, refusal));
    }
    Ok(())
}
