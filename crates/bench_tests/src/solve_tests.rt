//! Runs of `solve` on new disks, and refused words and openings. What is due was worked out by hand
//! from the rules of play.
use crate::runs_of_tests::{Faults, Leaves, NO_FAULTS, RUN, Run, expect_runs, run_bench};
use bench_edges::Status;
use std::alloc::Global;
use std::test::Fail;
use worker_gate::OpenGate;

/// `solve` without work.
const AT_SIGHT: &[&str] = &["-", "solve", "--budget", "0"];

/// `solve` with one ply looked ahead.
const ONE_PLY: &[&str] = &["-", "solve", "--depth", "1"];

/// `solve` by the table of three pieces alone.
const THREE_PIECES: &[&str] = &["-", "solve", "--pieces", "3", "--depth", "0"];

/// 23-19 blocks the last man.
const BLOCKING: &str = "[FEN \"W:W16,23:B12\"] *";

#[test]
fn values_at_sight(rt: HostRuntime) -> Result<(), Fail> {
    // The mover is blocked; 1x10 takes the last piece; neither king can be caught; Black's one step
    // 20-24 is answered by 28x19, which leaves Black no piece. Three pieces are more than the table
    // has.
    let run = Run {
        words: AT_SIGHT,
        source: "[FEN \"B:W16,19:B12\"] * [FEN \"B:WK6:BK1\"] * [FEN \"B:WK32:BK1\"] *\n\
            [FEN \"B:W28:B20\"] * [FEN \"W:W16,23:B12\"] * [FEN \"B:WK1,K19:BK15\"] *\n",
        status: Status::Unsolved,
        written: "root 1 B:W16,19:B12 white-wins\nroot 2 B:WK6:BK1 black-wins\n\
            root 3 B:WK32:BK1 draw\nroot 4 B:W28:B20 white-wins\nroot 5 W:W16,23:B12 unsolved\n\
            root 6 B:WK1,K19:BK15 unsolved\nroots 6 settled 4 unsolved 2\n",
        ..RUN
    };
    expect_runs(&rt, rt.alloc(), &[], &[run])?;
    Ok(())
}

/// Each of these is a run on a disk of its own.
const SEARCHES: &[Run] = &[
    // 23-19 blocks the last man.
    Run {
        words: ONE_PLY,
        source: BLOCKING,
        written: "root 1 W:W16,23:B12 white-wins\nroots 1 settled 1 unsolved 0\n",
        ..RUN
    },
    // 15x24 takes one of two kings, and then neither side wins.
    Run {
        words: ONE_PLY,
        source: "[FEN \"B:WK1,K19:BK15\"] *",
        written: "root 1 B:WK1,K19:BK15 draw\nroots 1 settled 1 unsolved 0\n",
        ..RUN
    },
    // 10-14 guards 17, so that White's last man is blocked.
    Run {
        words: ONE_PLY,
        source: "[FEN \"B:W21:B10,17\"] *",
        written: "root 1 B:W21:B10,17 black-wins\nroots 1 settled 1 unsolved 0\n",
        ..RUN
    },
    Run {
        words: THREE_PIECES,
        source: "[FEN \"W:W16,23:B12\"] * [FEN \"B:WK1,K19:BK15\"] *",
        written: "root 1 W:W16,23:B12 white-wins\nroot 2 B:WK1,K19:BK15 draw\n\
            roots 2 settled 2 unsolved 0\n",
        ..RUN
    },
    // Three games have two openings between them. Looking ahead decides each: two records of work
    // are enough.
    Run {
        words: &["-", "solve", "--depth", "1", "--budget", "2"],
        source: "[FEN \"W:W16,23:B12\"] * [FEN \"B:W21:B10,17\"] * [FEN \"W:W16,23:B12\"] *",
        written: "root 1 W:W16,23:B12 white-wins\nroot 2 B:W21:B10,17 black-wins\n\
            roots 2 settled 2 unsolved 0\n",
        ..RUN
    },
];

/// Six kings stand in front of two wins. Looking one ply ahead shows no value of the first, and those
/// of the others: each of the three has one record of work.
const HARD_ROOT_FIRST: Run = Run {
    source: "[FEN \"W:WK1,K2,K3:BK30,K31,K32\"] * [FEN \"W:W16,23:B12\"] *\n\
        [FEN \"B:W21:B10,17\"] *\n",
    status: Status::Unsolved,
    written: "root 1 W:WK1,K2,K3:BK30,K31,K32 unsolved\nroot 2 W:W16,23:B12 white-wins\n\
        root 3 B:W21:B10,17 black-wins\nroots 3 settled 2 unsolved 1\n",
    ..RUN
};

/// The same with 1, 4 and 64 workers, each on a disk of its own.
const NO_ROOT_STARVED: &[Run] = &[
    Run {
        words: &[
            "-",
            "solve",
            "--depth",
            "1",
            "--budget",
            "3",
            "--workers",
            "1",
        ],
        ..HARD_ROOT_FIRST
    },
    Run {
        words: &[
            "-",
            "solve",
            "--depth",
            "1",
            "--budget",
            "3",
            "--workers",
            "4",
        ],
        ..HARD_ROOT_FIRST
    },
    Run {
        words: &[
            "-",
            "solve",
            "--depth",
            "1",
            "--budget",
            "3",
            "--workers",
            "64",
        ],
        ..HARD_ROOT_FIRST
    },
];

#[test]
fn no_root_is_starved(rt: HostRuntime) -> Result<(), Fail> {
    for runs in NO_ROOT_STARVED.chunks(1) {
        expect_runs(&rt, rt.alloc(), &[], runs)?;
    }
    Ok(())
}

/// Each of these is a run on a disk of its own.
const OPENINGS: &[Run] = &[
    // A capture that ends where it began.
    Run {
        words: &["-", "solve"],
        source: "[FEN \"B:W6,7,14,15:BK2\"] 1. 2x2 *",
        written: "root 1 W:W:BK2 black-wins\nroots 1 settled 1 unsolved 0\n",
        ..RUN
    },
    Run {
        words: &["-", "solve", "--plies", "0"],
        source: "[FEN \"B:W6,7,14,15:BK2\"] 1. 2x2 *",
        written: "root 1 B:W6,7,14,15:BK2 black-wins\nroots 1 settled 1 unsolved 0\n",
        ..RUN
    },
    // The same with the squares between; what it leaves is unsettled at once.
    Run {
        words: AT_SIGHT,
        source: "[FEN \"B:W6,7,14,15:B2\"] 1. 2x9x18 *",
        status: Status::Unsolved,
        written: "root 1 W:W7,15:B18 unsolved\nroots 1 settled 0 unsolved 1\n",
        ..RUN
    },
    // A game of a club, with comments, a variation and a result.
    Run {
        words: &["-", "solve", "--budget", "20"],
        source: "[Event \"Club\"]\n[GameType \"21\"]\n\
            1. 11-15! 22-18 {a centre man} 2. 15x22 $1 (2. 15x22 26x17) 25x18 1/2-1/2\n",
        status: Status::Unsolved,
        written: "root 1 B:W18,21,23,24,26,27,28,29,30,31,32:B1,2,3,4,5,6,7,8,9,10,12 unsolved\n\
            roots 1 settled 0 unsolved 1\n",
        ..RUN
    },
    Run {
        words: AT_SIGHT,
        source: "1. 9-13 *",
        status: Status::Unsolved,
        written: "root 1 W:W21,22,23,24,25,26,27,28,29,30,31,32:B1,2,3,4,5,6,7,8,10,11,12,13 unsolved\n\
            roots 1 settled 0 unsolved 1\n",
        ..RUN
    },
    Run {
        words: &["-", "solve"],
        written: "roots 0 settled 0 unsolved 0\n",
        ..RUN
    },
];

#[test]
fn values_by_search_and_openings(rt: HostRuntime) -> Result<(), Fail> {
    for runs in SEARCHES.chunks(1).chain(OPENINGS.chunks(1)) {
        expect_runs(&rt, rt.alloc(), &[], runs)?;
    }
    Ok(())
}

/// A refused run of `solve` over this source, which leaves the disk empty.
const REFUSED: Run = Run {
    words: &["-", "solve"],
    status: Status::Input,
    leaves: Leaves::Same,
    ..RUN
};

/// A run whose words are refused, which reads nothing.
const UNREAD: Run = Run {
    source: "left",
    left: 4,
    status: Status::Words,
    leaves: Leaves::Same,
    ..RUN
};

/// Runs that are refused.
const REFUSALS: &[Run] = &[
    // Two captures lead from 2 to 18, and leave different positions.
    Run {
        source: "[FEN \"B:W6,7,14,15:B2\"] 1. 2x18 *",
        written: "refused input game 1 ply 1 byte 27 ambiguous\n",
        ..REFUSED
    },
    // A man that is crowned stops.
    Run {
        source: "[FEN \"B:W26,27:B22\"] 1. 22x31x24 *",
        written: "refused input game 1 ply 1 byte 24 illegal\n",
        ..REFUSED
    },
    // A capture is compulsory.
    Run {
        source: "1. 11-15 22-18 2. 8-11 *",
        written: "refused input game 1 ply 3 byte 18 illegal\n",
        ..REFUSED
    },
    Run {
        source: "1. 9-13 * [FEN \"W:W21:B30\"] *",
        written: "refused input game 2 fen man-on-last-row 30\n",
        ..REFUSED
    },
    Run {
        source: "[FEN \"W:W21,21:B5\"] *",
        written: "refused input game 1 fen twice 21\n",
        ..REFUSED
    },
    Run {
        source: "1. 9-13 {",
        written: "refused input pdn open-comment 8\n",
        ..REFUSED
    },
    Run {
        words: &["-", "solve", "--depth", "13"],
        written: "refused words at 3\n",
        ..UNREAD
    },
    Run {
        words: &["-", "solve", "--depth"],
        written: "refused words at 3\n",
        ..UNREAD
    },
    Run {
        words: &["-"],
        written: "refused words at 1\n",
        ..UNREAD
    },
    Run {
        written: "refused words at 0\n",
        ..UNREAD
    },
    Run {
        words: &["-", "table", "4"],
        written: "refused words at 2\n",
        ..UNREAD
    },
    Run {
        words: &["-", "table"],
        written: "refused words at 2\n",
        ..UNREAD
    },
    Run {
        words: &["-", "table", "2", "3"],
        written: "refused words at 3\n",
        ..UNREAD
    },
    Run {
        words: &["-", "table-check", "2"],
        written: "refused words at 2\n",
        ..UNREAD
    },
];

#[test]
fn refusals(rt: HostRuntime) -> Result<(), Fail> {
    expect_runs(&rt, rt.alloc(), &[], REFUSALS)?;
    Ok(())
}

/// The source fails; the disk fails; the sink fails; and on the disk that this leaves each object
/// moves one byte a call.
const FAILING: &[Run] = &[
    Run {
        faults: Faults {
            reads: &[0],
            ..NO_FAULTS
        },
        source: BLOCKING,
        left: BLOCKING.len(),
        status: Status::Read,
        written: "refused read\n",
        ..REFUSED
    },
    Run {
        words: &["-", "verify"],
        faults: Faults {
            reads: &[0],
            ..NO_FAULTS
        },
        source: "certificate 1\n",
        left: 14,
        status: Status::Read,
        written: "refused read\n",
        ..REFUSED
    },
    Run {
        faults: Faults {
            disk: &[0],
            ..NO_FAULTS
        },
        source: BLOCKING,
        status: Status::Disk,
        written: "refused disk\n",
        ..REFUSED
    },
    Run {
        words: ONE_PLY,
        faults: Faults {
            writes: &[0],
            ..NO_FAULTS
        },
        source: BLOCKING,
        status: Status::Write,
        ..RUN
    },
    Run {
        words: ONE_PLY,
        faults: Faults {
            is_slow: true,
            ..NO_FAULTS
        },
        source: BLOCKING,
        written: "root 1 W:W16,23:B12 white-wins\nroots 1 settled 1 unsolved 0\n",
        leaves: Leaves::Same,
        ..RUN
    },
    // The second byte of the table cannot be written.
    Run {
        words: &["-", "table", "2"],
        faults: Faults {
            writes: &[1],
            is_slow: true,
            ..NO_FAULTS
        },
        status: Status::Write,
        written: "D",
        leaves: Leaves::Same,
        ..RUN
    },
];

#[test]
fn objects_that_fail(rt: HostRuntime) -> Result<(), Fail> {
    expect_runs(&rt, rt.alloc(), &[], FAILING)?;
    Ok(())
}

/// A text of as many games as may be, each from another position: two White kings, and a Black one
/// that is to move.
fn as_many_games_as_may_be(alloc: Global) -> Result<Vec<u8>, Fail> {
    let mut text = Vec::new(alloc);
    let mut games = 0;
    for a in 1..33u32 {
        for b in 1..33u32 {
            for c in 1..33u32 {
                if games < 4096 && a < b && c != a && c != b {
                    games += 1;
                    let game = format!(in alloc; "[FEN \"B:WK{a},K{b}:BK{c}\"] *\n")?;
                    text.extend_from_slice(game.as_bytes())?;
                }
            }
        }
    }
    Ok(text)
}

#[test]
fn as_many_roots_as_may_be(rt: HostRuntime) -> Result<(), Fail> {
    let alloc = rt.alloc();
    let text = as_many_games_as_may_be(alloc)?;
    let seen = run_bench(&rt, alloc, AT_SIGHT, &text, &[], NO_FAULTS, &OpenGate)?;
    let end = b"root 4096 B:WK5,K24:BK17 unsolved\nroots 4096 settled 0 unsolved 4096\n";
    assert!(rt; seen.status == Status::Unsolved && seen.written.ends_with(end));
    Ok(())
}
