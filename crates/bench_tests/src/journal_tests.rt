//! Runs on journals in memory, one after the other. What is due was worked out by hand from the
//! rules of play and from the format of journals.
use crate::runs_of_tests::{Leaves, NO_FAULTS, RUN, Run, expect_runs, run_bench};
use bench_edges::Status;
use std::alloc::Global;
use std::process::Abort;
use std::sync::Wait;
use std::test::Fail;
use std::thread::Threads;
use worker_gate::{MeetGate, OpenGate};

/// 23-19 blocks the last man of the first, and Black wins the second by 10-14.
pub(crate) const TWO: &str = "[FEN \"W:W16,23:B12\"] * [FEN \"B:W21:B10,17\"] *";

const BLOCKING_WON: &str = "root 1 W:W16,23:B12 white-wins\nroots 1 settled 1 unsolved 0\n";

const HALF: &str = "root 1 W:W16,23:B12 white-wins\nroot 2 B:W21:B10,17 unsolved\n\
    roots 2 settled 1 unsolved 1\n";

pub(crate) const WHOLE: &str = "root 1 W:W16,23:B12 white-wins\nroot 2 B:W21:B10,17 black-wins\n\
    roots 2 settled 2 unsolved 0\n";

/// A journal of one root, in which Black is blocked: a head, a frame, and a closed gate.
const BLOCKED: [u8; 44] = [
    0x44, 0x52, 0x42, 0x45, 0x4e, 0x43, 0x48, 2, 1, 0, 0, 0, 0, 0, 0, 0, 26, 0, 0, 0, 22, 4, 0, 0,
    0, 0, 0, 0, 0, 8, 0, 0, 0, 0, 0, 0, 4, 0x80, 0, 0, 0, 0, 0, 0,
];

/// The same root as a record of version 1. The frame's record has its length field at 17.
const BLOCKED_BEFORE: [u8; 40] = [
    0x44, 0x52, 0x42, 0x45, 0x4e, 0x43, 0x48, 2, 1, 0, 0, 0, 0, 0, 0, 0, 22, 0, 0, 0, 18, 1, 0, 0,
    0, 8, 0, 0, 0, 0, 0, 0, 4, 0x80, 0, 0, 0, 0, 0, 0,
];

/// .. and behind it a second root, W:W16,23:B12. Its position is new, so it stands behind the number
/// 1.
const GONE_ON_WITH: &[u8] = &[
    0x44, 0x52, 0x42, 0x45, 0x4e, 0x43, 0x48, 2, 1, 0, 0, 0, 0, 0, 0, 0, 22, 0, 0, 0, 18, 1, 0, 0,
    0, 8, 0, 0, 0, 0, 0, 0, 4, 0x80, 0, 0, 0, 0, 0, 1, 0, 0, 0, 0, 0, 0, 0, 26, 0, 0, 0, 22, 4, 0,
    0, 0, 1, 1, 0, 0, 8, 0, 0, 0, 0, 0, 0, 0x40, 0x80, 0, 0, 0, 0, 0,
];

/// Records of version 1: the roots of `TWO` in one frame, and that 23-19 wins the first. The frames are of
/// 44 and of 90 bytes, with their gates at 8 and 61; the closed gate stands at 160.
const HALF_SOLVED: &[u8] = &[
    0x44, 0x52, 0x42, 0x45, 0x4e, 0x43, 0x48, 2, // the head
    1, 0, 0, 0, 0, 0, 0, 0, 44, // a gate, and the length of its frame
    0, 0, 0, 18, 1, 1, 0, 0, 8, 0, 0, 0, 0, 0, 0, 0x40, 0x80, 0, 0, 0, 0, 0, // W:W16,23:B12
    0, 0, 0, 18, 1, 0, 0, 1, 2, 0, 0, 0, 0, 0, 0, 0x10, 0, 0, 0, 0, 0, 0, // B:W21:B10,17
    1, 0, 0, 0, 0, 0, 0, 0, 90, // a gate, and the length of its frame
    0, 0, 0, 86, 2, 0, 0, 0, 0, 0, 0, 0, 0, // the first node is solved
    1, 0, 0, 8, 0, 0, 0, 0, 0, 0, 0x40, 0x80, 0, 0, 0, 0, 0, // it has this position
    1, 2, 0, 0, 0, 2, // one certificate: White wins, by two entries
    1, 0, 0, 8, 0, 0, 0, 0, 0, 0, 0x40, 0x80, 0, 0, 0, 0, 0, // W:W16,23:B12
    0, 0, 0, 0, 0, 0, 0, 1, 2, 23, 19, // in one ply, by 23-19
    0, 0, 0, 8, 0, 0, 0, 0, 0, 0, 4, 0x80, 0, 0, 0, 0, 0, // B:W16,19:B12
    0, 0, 0, 0, 0, 0, 0, 0, 0, // at once, without a move
    0, // a closed gate
];

/// `solve` of two positions with one record of work to spend.
const SOLVE_ONE: Run = Run {
    words: &["-", "solve", "--depth", "1", "--budget", "1"],
    source: TWO,
    ..RUN
};

/// `report`, which leaves the disk as it is.
const REPORT: Run = Run {
    words: &["-", "report"],
    leaves: Leaves::Same,
    ..RUN
};

/// `certify` of root 1.
const CERTIFY: Run = Run {
    words: &["-", "certify", "1"],
    leaves: Leaves::Same,
    ..RUN
};

/// A root that is settled at sight, and then again.
const SETTLED_AT_SIGHT: &[Run] = &[
    Run {
        words: &["-", "solve"],
        source: "[FEN \"B:W16,19:B12\"] *",
        written: "root 1 B:W16,19:B12 white-wins\nroots 1 settled 1 unsolved 0\n",
        leaves: Leaves::Bytes(&BLOCKED),
        ..RUN
    },
    Run {
        words: &["-", "solve"],
        source: "[FEN \"B:W16,19:B12\"] *",
        written: "root 1 B:W16,19:B12 white-wins\nroots 1 settled 1 unsolved 0\n",
        leaves: Leaves::Same,
        ..RUN
    },
    Run {
        words: &["-", "certify", "2"],
        status: Status::Input,
        written: "refused input no-root 2\n",
        leaves: Leaves::Same,
        ..RUN
    },
    Run {
        words: &["-", "solve", "--pieces", "3"],
        status: Status::Journal,
        written: "refused journal other-table found 2 asked 3\n",
        leaves: Leaves::Same,
        ..RUN
    },
];

/// A journal of before, which is read and gone on with.
const GOES_ON: &[Run] = &[
    REPORT_OF_BLOCKED,
    Run {
        words: &["-", "solve", "--depth", "1"],
        source: "[FEN \"W:W16,23:B12\"] *",
        written: "root 1 B:W16,19:B12 white-wins\nroot 2 W:W16,23:B12 white-wins\n\
            roots 2 settled 2 unsolved 0\n",
        leaves: Leaves::Front(GONE_ON_WITH),
        ..RUN
    },
    Run {
        written: "root 1 B:W16,19:B12 white-wins\nroot 2 W:W16,23:B12 white-wins\n\
            roots 2 settled 2 unsolved 0\n",
        ..REPORT
    },
];

/// The report of the one root in which Black is blocked.
const REPORT_OF_BLOCKED: Run = Run {
    written: "root 1 B:W16,19:B12 white-wins\nroots 1 settled 1 unsolved 0\n",
    ..REPORT
};

/// A win that is found by looking ahead.
const WON_BY_SEARCH: &[Run] = &[Run {
    words: &["-", "solve", "--depth", "1"],
    source: "[FEN \"W:W16,23:B12\"] *",
    written: BLOCKING_WON,
    leaves: Leaves::Bytes(SOLVED),
    ..RUN
}];

/// The same win, whose position is expanded and not searched.
const WON_BY_EXPANSION: &[Run] = &[Run {
    words: &["-", "solve", "--depth", "0", "--budget", "1"],
    source: "[FEN \"W:W16,23:B12\"] *",
    written: BLOCKING_WON,
    ..RUN
}];

/// A draw that is found by looking ahead.
const DRAWN_BY_SEARCH: &[Run] = &[Run {
    words: &["-", "solve", "--depth", "1"],
    source: "[FEN \"B:WK1,K19:BK15\"] *",
    written: "root 1 B:WK1,K19:BK15 draw\nroots 1 settled 1 unsolved 0\n",
    ..RUN
}];

/// A draw by the table, whose certificate has no entry.
const DRAWN_AT_SIGHT: &[Run] = &[
    Run {
        words: &["-", "solve"],
        source: "[FEN \"B:WK32:BK1\"] *",
        written: "root 1 B:WK32:BK1 draw\nroots 1 settled 1 unsolved 0\n",
        ..RUN
    },
    Run {
        written: "certificate 1\ntable 2\nposition B:WK32:BK1\nclaim draw\n\
            hold black 0\nhold white 0\nend\n",
        ..CERTIFY
    },
];

/// A first run that has one record of work to spend on two roots, and a second that goes on.
const SECOND_RUN: &[Run] = &[
    Run {
        status: Status::Unsolved,
        written: HALF,
        ..SOLVE_ONE
    },
    Run {
        status: Status::Unsolved,
        written: HALF,
        ..REPORT
    },
    Run {
        words: &["-", "certify", "2"],
        status: Status::Input,
        written: "refused input unsettled-root 2\n",
        leaves: Leaves::Same,
        ..RUN
    },
    Run {
        written: WHOLE,
        ..SOLVE_ONE
    },
    Run {
        written: WHOLE,
        ..REPORT
    },
];

/// A journal that was written before.
const WRITTEN_BEFORE: &[Run] = &[Run {
    status: Status::Unsolved,
    written: HALF,
    ..REPORT
}];

#[test]
fn runs_go_on_where_those_before_ended(rt: HostRuntime) -> Result<(), Fail> {
    for runs in [SETTLED_AT_SIGHT, DRAWN_AT_SIGHT, SECOND_RUN] {
        expect_runs(&rt, rt.alloc(), &[], runs)?;
    }
    Ok(())
}

#[test]
fn a_journal_of_before_is_gone_on_with(rt: HostRuntime) -> Result<(), Fail> {
    expect_runs(&rt, rt.alloc(), &BLOCKED_BEFORE, GOES_ON)?;
    Ok(())
}

/// A payload that is no record.
const NO_RECORD: &[Run] = &[Run {
    status: Status::Journal,
    written: "refused journal damaged byte 17\n",
    ..REPORT
}];

/// A frame that is whole, and no gate behind it, at 39 and at 43.
const WITHOUT_END_BEFORE: &[Run] = &[Run {
    status: Status::Journal,
    written: "refused journal damaged byte 39\n",
    ..REPORT
}];

const WITHOUT_END: &[Run] = &[Run {
    status: Status::Journal,
    written: "refused journal damaged byte 43\n",
    ..REPORT
}];

/// Journals, and of the fronts of each what is due by their lengths.
const FRONTS: [(&[u8], usize, usize, &[Run]); 8] = [
    (&BLOCKED_BEFORE, 0, 9, EMPTY),
    (&BLOCKED_BEFORE, 10, 38, DAMAGED),
    (&BLOCKED_BEFORE, 39, 39, WITHOUT_END_BEFORE),
    (&BLOCKED_BEFORE, 40, 40, &[REPORT_OF_BLOCKED]),
    (&BLOCKED, 0, 9, EMPTY),
    (&BLOCKED, 10, 42, DAMAGED),
    (&BLOCKED, 43, 43, WITHOUT_END),
    (&BLOCKED, 44, 44, &[REPORT_OF_BLOCKED]),
];

#[test]
fn fronts_of_a_journal(rt: HostRuntime) -> Result<(), Fail> {
    for (journal, first, last, due) in FRONTS {
        for count in first..=last {
            let front = journal.get(..count).unwrap_or(&[]);
            expect_runs(&rt, rt.alloc(), front, due)?;
        }
    }
    Ok(())
}

/// A journal, a place in it, and a byte that may not stand there: a kind that is none, a side that is none, and the number of a
/// position that has none yet.
const BAD_FIELDS: [(&[u8], usize, u8); 5] = [
    (&BLOCKED_BEFORE, 21, 9),
    (&BLOCKED_BEFORE, 22, 2),
    (&BLOCKED, 21, 9),
    (&BLOCKED, 22, 2),
    (&BLOCKED, 26, 2),
];

#[test]
fn records_with_a_bad_field(rt: HostRuntime) -> Result<(), Fail> {
    for (journal, at, byte) in BAD_FIELDS {
        let bytes = altered(rt.alloc(), journal, at, byte)?;
        expect_runs(&rt, rt.alloc(), &bytes, NO_RECORD)?;
    }
    Ok(())
}

/// These bytes with another byte at a place.
fn altered(alloc: Global, bytes: &[u8], at: usize, byte: u8) -> Result<Vec<u8>, Fail> {
    let mut altered = bytes.to_vec(alloc)?;
    match altered.get_mut(at) {
        Some(found) => *found = byte,
        None => return Err(Fail::from("no byte stands there")),
    }
    Ok(altered)
}

/// That 23-19 wins W:W16,23:B12, behind a frame that begins that root: records of version 1 and as they are now. The certificate's
/// payload stands at 48 and at 52, and 19, the last square of its move, at 111 and at 119.
const SOLVED_BEFORE: &[u8] = &[
    0x44, 0x52, 0x42, 0x45, 0x4e, 0x43, 0x48, 2, // the head
    1, 0, 0, 0, 0, 0, 0, 0, 22, // a gate, and the length of its frame
    0, 0, 0, 18, 1, 1, 0, 0, 8, 0, 0, 0, 0, 0, 0, 0x40, 0x80, 0, 0, 0, 0, 0, // W:W16,23:B12
    1, 0, 0, 0, 0, 0, 0, 0, 90, // a gate, and the length of its frame
    0, 0, 0, 86, 2, 0, 0, 0, 0, 0, 0, 0, 0, // the first node is solved
    1, 0, 0, 8, 0, 0, 0, 0, 0, 0, 0x40, 0x80, 0, 0, 0, 0, 0, // it has this position
    1, 2, 0, 0, 0, 2, // one certificate: White wins, by two entries
    1, 0, 0, 8, 0, 0, 0, 0, 0, 0, 0x40, 0x80, 0, 0, 0, 0, 0, // W:W16,23:B12
    0, 0, 0, 0, 0, 0, 0, 1, 2, 23, 19, // in one ply, by 23-19
    0, 0, 0, 8, 0, 0, 0, 0, 0, 0, 4, 0x80, 0, 0, 0, 0, 0, // B:W16,19:B12
    0, 0, 0, 0, 0, 0, 0, 0, 0, // at once, without a move
    0, // a closed gate
];

const SOLVED: &[u8] = &[
    0x44, 0x52, 0x42, 0x45, 0x4e, 0x43, 0x48, 2, // the head
    1, 0, 0, 0, 0, 0, 0, 0, 26, // a gate, and the length of its frame
    0, 0, 0, 22, 4, 0, 0, 0, 0, // a root begins, at a position that gets the number 0
    1, 0, 0, 8, 0, 0, 0, 0, 0, 0, 0x40, 0x80, 0, 0, 0, 0, 0, // W:W16,23:B12
    1, 0, 0, 0, 0, 0, 0, 0, 68, // a gate, and the length of its frame
    0, 0, 0, 64, 5, 0, 0, 0, 0, 0, 0, 0, 0, // the first node is solved
    0, 0, 0, 0, // it has the position of this number
    1, 2, 0, 0, 0, 2, // one certificate: White wins, by two entries
    0, 0, 0, 1, // the position that gets the number 1
    0, 0, 0, 8, 0, 0, 0, 0, 0, 0, 4, 0x80, 0, 0, 0, 0, 0, // B:W16,19:B12
    0, 0, 0, 0, 0, 0, 0, 0, 0, // at once, without a move
    0, 0, 0, 0, 0, 0, 0, 0, 0, 0, 0, 1, 2, 23, 19, // the position 0, in one ply, by 23-19
    0, // a closed gate
];

/// The report of the root that 23-19 wins.
const REPORT_OF_SOLVED: &[Run] = &[Run {
    written: BLOCKING_WON,
    ..REPORT
}];

/// A certificate in the journal is false.
const FALSE_BEFORE: &[Run] = &[Run {
    status: Status::Journal,
    written: "refused journal damaged byte 48\n",
    ..REPORT
}];

const FALSE: &[Run] = &[Run {
    status: Status::Journal,
    written: "refused journal damaged byte 52\n",
    ..REPORT
}];

/// A journal with a certificate, the place of the square to which its move leads, and what is due if the move leads to another
/// square, to which the man may go too.
const CERTIFICATES: [(&[u8], usize, &[Run]); 2] = [
    (SOLVED_BEFORE, 111, FALSE_BEFORE),
    (SOLVED, 119, FALSE),
];

#[test]
fn a_certificate_of_the_journal_is_false(rt: HostRuntime) -> Result<(), Fail> {
    for (journal, at, due) in CERTIFICATES {
        expect_runs(&rt, rt.alloc(), journal, REPORT_OF_SOLVED)?;
        let bytes = altered(rt.alloc(), journal, at, 18)?;
        expect_runs(&rt, rt.alloc(), &bytes, due)?;
    }
    Ok(())
}

/// What `verify` writes of the certificate that `certify` writes of root 1 of a journal of these
/// bytes, which stays as it is.
fn verified<R: Abort + Threads + Wait + Sync>(
    rt: &R,
    alloc: Global,
    disk: &[u8],
) -> Result<Vec<u8>, Fail> {
    let certified = run_bench(rt, alloc, CERTIFY.words, &[], disk, NO_FAULTS, &OpenGate)?;
    assert_eq!(rt; certified.disk.as_slice(), disk);
    let text = certified.written.as_slice();
    let seen = run_bench(rt, alloc, &["-", "verify"], text, &[], NO_FAULTS, &OpenGate)?;
    Ok(seen.written)
}

/// The first opening that is generated from 1.
const GENERATED_ALONE: &[Run] = &[Run {
    words: &["-", "generate", "1", "1"],
    written: "roots 1 settled 1 unsolved 0\n",
    ..RUN
}];

/// Runs, the bytes of the disk before them, and what `verify` says of the certificate of root 1 that
/// they leave.
const CERTIFIED: [(&[Run], &[u8], &[u8]); 5] = [
    (WON_BY_SEARCH, &[], b"verified W:W16,23:B12 white-wins\n"),
    (WON_BY_EXPANSION, &[], b"verified W:W16,23:B12 white-wins\n"),
    (DRAWN_BY_SEARCH, &[], b"verified B:WK1,K19:BK15 draw\n"),
    (
        WRITTEN_BEFORE,
        HALF_SOLVED,
        b"verified W:W16,23:B12 white-wins\n",
    ),
    (
        GENERATED_ALONE,
        &[],
        b"verified B:WK27:BK24,K32 black-wins\n",
    ),
];

#[test]
fn certificates_of_runs_are_verified(rt: HostRuntime) -> Result<(), Fail> {
    for (runs, disk, line) in CERTIFIED {
        let left = expect_runs(&rt, rt.alloc(), disk, runs)?;
        let found = verified(&rt, rt.alloc(), &left)?;
        assert_eq!(rt; found.as_slice(), line);
    }
    Ok(())
}

/// A journal that is refused, whatever is asked of it, and stays as it is.
const NO_JOURNAL: &[Run] = &[
    Run {
        status: Status::Journal,
        written: "refused journal not-a-journal\n",
        ..REPORT
    },
    Run {
        status: Status::Journal,
        written: "refused journal not-a-journal\n",
        leaves: Leaves::Same,
        ..SOLVE_ONE
    },
];

/// A gate that is open, and no frame behind it.
const DAMAGED: &[Run] = &[Run {
    status: Status::Journal,
    written: "refused journal damaged byte 8\n",
    ..REPORT
}];

/// A gate that is closed.
const EMPTY: &[Run] = &[Run {
    written: "roots 0 settled 0 unsolved 0\n",
    ..REPORT
}];

#[test]
fn bytes_that_are_no_journal(rt: HostRuntime) -> Result<(), Fail> {
    let rows: [(&[u8], &[Run]); 3] = [
        (b"hello worl", NO_JOURNAL),
        (b"DRBENCH\x02\x01\0", DAMAGED),
        (b"DRBENCH\x02\x07\0", EMPTY),
    ];
    for (bytes, runs) in rows {
        expect_runs(&rt, rt.alloc(), bytes, runs)?;
    }
    Ok(())
}

#[test]
fn two_searches_run_at_once(rt: HostRuntime) -> Result<(), Fail> {
    let alloc = rt.alloc();
    let words = ["-", "solve", "--workers", "4", "--depth", "1"];
    let gate = MeetGate::new();
    let seen = run_bench(&rt, alloc, &words, TWO.as_bytes(), &[], NO_FAULTS, &gate)?;
    assert!(rt; seen.status == Status::Done && seen.written.as_slice() == WHOLE.as_bytes());
    assert!(rt; gate.met());
    Ok(())
}

/// 500 openings, each settled by one record of work; nothing is read.
const GENERATE: Run = Run {
    words: &["-", "generate", "1", "500"],
    source: "left",
    left: 4,
    written: "roots 500 settled 500 unsolved 0\n",
    ..RUN
};

/// The second run adds nothing.
const GENERATED: &[Run] = &[
    GENERATE,
    Run {
        leaves: Leaves::Same,
        ..GENERATE
    },
];

#[test]
fn generated_openings_are_settled_once(rt: HostRuntime) -> Result<(), Fail> {
    expect_runs(&rt, rt.alloc(), &[], GENERATED)?;
    Ok(())
}
