//! Runs of `learn`. The certificates are written by hand from the format and the rules of play:
//! 13-17 leaves White's last man two ways, and 10-14 or 17x26 answers them.
use crate::runs_of_tests::{Leaves, RUN, Run, expect_runs};
use bench_edges::Status;
use std::test::Fail;

/// Black wins with two men against one.
const WON: &str = "certificate 1\ntable 2\nposition B:W25:B10,13\nclaim black-wins\nwin black 6\n\
    B:W25:B10,13 3 13-17\nW:W25:B10,17 2\nB:W21:B10,17 1 10-14\nW:W21:B14,17 0\n\
    B:W22:B10,17 1 17x26\nW:W:B10,26 0\nend\n";

/// The same win from the position one ply later.
const WON_LATER: &str =
    "certificate 1\ntable 2\nposition W:W25:B10,17\nclaim black-wins\nwin black 5\n\
    W:W25:B10,17 2\nB:W21:B10,17 1 10-14\nW:W21:B14,17 0\nB:W22:B10,17 1 17x26\n\
    W:W:B10,26 0\nend\n";

/// Black's hold in that later position, which is less.
const HELD_LATER: &str =
    "certificate 1\ntable 2\nposition W:W25:B10,17\nclaim black-holds\nhold black 5\n\
    W:W25:B10,17\nB:W21:B10,17 10-14\nW:W21:B14,17\nB:W22:B10,17 17x26\nW:W:B10,26\nend\n";

/// A draw: Black takes one king of two, and a king each is left.
const DRAWN: &str = "certificate 1\ntable 2\nposition B:WK1,K19:BK15\nclaim draw\nhold black 1\n\
    B:WK1,K19:BK15 15x24\nhold white 1\nB:WK1,K19:BK15\nend\n";

/// White's hold in that position alone.
const HALF_DRAWN: &str =
    "certificate 1\ntable 2\nposition B:WK1,K19:BK15\nclaim white-holds\nhold white 1\n\
    B:WK1,K19:BK15\nend\n";

/// A draw by the table alone.
const SEEN: &str =
    "certificate 1\ntable 2\nposition B:WK32:BK1\nclaim draw\nhold black 0\nhold white 0\nend\n";

/// As `WON`, but the move of the first entry is none.
const ASTRAY: &str =
    "certificate 1\ntable 2\nposition B:W25:B10,13\nclaim black-wins\nwin black 1\n\
    B:W25:B10,13 3 13-18\nend\n";

/// A journal of two pieces with `Begin` of W:W25:B10,17 and `Expand` of its node: frames of 22 and of
/// 13 bytes, with records of 18 and of 9.
const EXPANDED: [u8; 62] = [
    0x44, 0x52, 0x42, 0x45, 0x4e, 0x43, 0x48, 2, 1, 0, 0, 0, 0, 0, 0, 0, 22, 0, 0, 0, 18, 1, 1, 0,
    1, 2, 0, 0, 0, 0, 0, 1, 0, 0, 0, 0, 0, 0, 0, 1, 0, 0, 0, 0, 0, 0, 0, 13, 0, 0, 0, 9, 3, 0, 0,
    0, 0, 0, 0, 0, 0, 0,
];

/// `Begin` of W:W25:B10,17 alone.
const BEGUN: [u8; 40] = [
    0x44, 0x52, 0x42, 0x45, 0x4e, 0x43, 0x48, 2, 1, 0, 0, 0, 0, 0, 0, 0, 22, 0, 0, 0, 18, 1, 1, 0,
    1, 2, 0, 0, 0, 0, 0, 1, 0, 0, 0, 0, 0, 0, 0, 0,
];

/// `Begin` of B:WK32:BK1, the position of `SEEN`, as a record of version 2: a frame of 26 bytes, with a
/// record of 22.
const SEEN_BEGUN: &[u8] = &[
    0x44, 0x52, 0x42, 0x45, 0x4e, 0x43, 0x48, 2, 1, 0, 0, 0, 0, 0, 0, 0, 26, 0, 0, 0, 22, 4, 0, 0,
    0, 0, 0, 0, 0, 0, 0, 0, 0, 0, 1, 0, 0, 0, 0, 0x80, 0, 0, 0, 0,
];

/// A journal of three pieces without records.
const WIDE: [u8; 10] = [0x44, 0x52, 0x42, 0x45, 0x4e, 0x43, 0x48, 3, 0, 0];

/// A run of `learn` over `WON`.
const LEARN: Run = Run {
    words: &["journal", "learn"],
    source: WON,
    written: "learnt 1 B:W25:B10,13 black-wins\n",
    ..RUN
};

/// A new journal learns the certificate, and again adds nothing. The next one gets the next number.
const LEARNT: &[Run] = &[
    LEARN,
    Run {
        leaves: Leaves::Same,
        ..LEARN
    },
    Run {
        source: WON_LATER,
        written: "learnt 2 W:W25:B10,17 black-wins\n",
        ..LEARN
    },
    Run {
        words: &["journal", "report"],
        source: "",
        written: "root 1 B:W25:B10,13 black-wins\nroot 2 W:W25:B10,17 black-wins\n\
            roots 2 settled 2 unsolved 0\n",
        ..RUN
    },
];

/// One hold settles no root: the draw solves it once more, by both holds, and then each of them is known.
const HELD: &[Run] = &[
    Run {
        source: HALF_DRAWN,
        written: "learnt 1 B:WK1,K19:BK15 white-holds\n",
        ..LEARN
    },
    Run {
        source: HALF_DRAWN,
        written: "learnt 1 B:WK1,K19:BK15 white-holds\n",
        leaves: Leaves::Same,
        ..LEARN
    },
    Run {
        source: DRAWN,
        written: "learnt 1 B:WK1,K19:BK15 draw\n",
        ..LEARN
    },
    Run {
        source: HALF_DRAWN,
        written: "learnt 1 B:WK1,K19:BK15 white-holds\n",
        leaves: Leaves::Same,
        ..LEARN
    },
    Run {
        words: &["journal", "report"],
        source: "",
        written: "root 1 B:WK1,K19:BK15 draw\nroots 1 settled 1 unsolved 0\n",
        ..RUN
    },
];

/// A root that is begun is solved by a hold, and then by the win.
const ON_A_ROOT: &[Run] = &[
    Run {
        source: HELD_LATER,
        written: "learnt 1 W:W25:B10,17 black-holds\n",
        ..LEARN
    },
    Run {
        source: WON_LATER,
        written: "learnt 1 W:W25:B10,17 black-wins\n",
        ..LEARN
    },
    Run {
        source: HELD_LATER,
        written: "learnt 1 W:W25:B10,17 black-holds\n",
        leaves: Leaves::Same,
        ..LEARN
    },
];

/// A position that is decided at sight is begun, and needs no more.
const AT_SIGHT: &[Run] = &[Run {
    source: SEEN,
    written: "learnt 1 B:WK32:BK1 draw\n",
    leaves: Leaves::Bytes(SEEN_BEGUN),
    ..LEARN
}];

/// What is not learnt, on a disk that stays.
const REFUSED: Run = Run {
    status: Status::Input,
    leaves: Leaves::Same,
    ..LEARN
};

/// An expanded root refuses its certificate, and none of another position.
const BELOW: &[Run] = &[
    Run {
        source: WON_LATER,
        written: "refused input root-expanded 1\n",
        ..REFUSED
    },
    Run {
        written: "learnt 2 B:W25:B10,13 black-wins\n",
        ..LEARN
    },
];

/// The certificate is read and checked before the disk is looked at.
const UNCHECKED: &[Run] = &[
    Run {
        source: "certificate 2\n",
        written: "refused input certificate bad-line 1\n",
        ..REFUSED
    },
    Run {
        source: ASTRAY,
        written: "refused input check part 1 entry 1 bad-move\n",
        ..REFUSED
    },
    Run {
        status: Status::Journal,
        written: "refused journal other-table found 3 asked 2\n",
        ..REFUSED
    },
];

#[test]
fn a_certificate_is_learnt_once(rt: HostRuntime) -> Result<(), Fail> {
    expect_runs(&rt, rt.alloc(), &[], LEARNT)?;
    Ok(())
}

#[test]
fn a_root_is_solved_by_what_settles_it(rt: HostRuntime) -> Result<(), Fail> {
    expect_runs(&rt, rt.alloc(), &[], HELD)?;
    expect_runs(&rt, rt.alloc(), &BEGUN, ON_A_ROOT)?;
    expect_runs(&rt, rt.alloc(), &[], AT_SIGHT)?;
    Ok(())
}

#[test]
fn an_expanded_root_refuses_its_certificate(rt: HostRuntime) -> Result<(), Fail> {
    expect_runs(&rt, rt.alloc(), &EXPANDED, BELOW)?;
    Ok(())
}

#[test]
fn a_certificate_that_is_not_good_is_not_learnt(rt: HostRuntime) -> Result<(), Fail> {
    expect_runs(&rt, rt.alloc(), &WIDE, UNCHECKED)?;
    Ok(())
}
