//! The words of the command line, by the grammar of the manual.
use bench_edges::{
    COMMAND_NAMES, Command, Options, SOLVE_OPTIONS, SolveOption, WordsRefusal, read_words,
};
use std::process::Abort;

/// The options of `solve` where no number is given.
const DEFAULTS: Options = Options {
    workers: 1,
    depth: 4,
    pieces: 2,
    plies: 200,
    budget: 1_000,
    lease: 1_000_000,
};

/// Words, and the command that they are.
const COMMANDS: &[(&[&str], Command)] = &[
    // `solve`, with options in any order.
    (&["-", "solve"], Command::Solve(DEFAULTS)),
    (
        &["-", "solve", "--depth", "0"],
        Command::Solve(Options {
            depth: 0,
            ..DEFAULTS
        }),
    ),
    (
        &["a journal", "solve", "--depth", "12"],
        Command::Solve(Options {
            depth: 12,
            ..DEFAULTS
        }),
    ),
    (
        &["--depth", "solve", "--depth", "1"],
        Command::Solve(Options {
            depth: 1,
            ..DEFAULTS
        }),
    ),
    (
        &["-", "solve", "--plies", "0"],
        Command::Solve(Options {
            plies: 0,
            ..DEFAULTS
        }),
    ),
    (
        &["-", "solve", "--pieces", "3"],
        Command::Solve(Options {
            pieces: 3,
            ..DEFAULTS
        }),
    ),
    (
        &[
            "-", "solve", "--plies", "9", "--depth", "2", "--pieces", "2",
        ],
        Command::Solve(Options {
            depth: 2,
            plies: 9,
            ..DEFAULTS
        }),
    ),
    (
        &[
            "-", "solve", "--pieces", "3", "--depth", "2", "--plies", "200",
        ],
        Command::Solve(Options {
            depth: 2,
            pieces: 3,
            ..DEFAULTS
        }),
    ),
    (
        &["-", "solve", "--budget", "0"],
        Command::Solve(Options {
            budget: 0,
            ..DEFAULTS
        }),
    ),
    (
        &["-", "solve", "--budget", "1000000", "--lease", "1"],
        Command::Solve(Options {
            budget: 1_000_000,
            lease: 1,
            ..DEFAULTS
        }),
    ),
    (
        &["-", "solve", "--lease", "1000000000"],
        Command::Solve(Options {
            lease: 1_000_000_000,
            ..DEFAULTS
        }),
    ),
    (&["-", "solve", "--workers", "1"], Command::Solve(DEFAULTS)),
    (
        &["-", "solve", "--workers", "64"],
        Command::Solve(Options {
            workers: 64,
            ..DEFAULTS
        }),
    ),
    (
        &["-", "solve", "--depth", "8", "--workers", "4"],
        Command::Solve(Options {
            workers: 4,
            depth: 8,
            ..DEFAULTS
        }),
    ),
    // `generate`.
    (
        &["-", "generate", "1", "500"],
        Command::Generate {
            seed: 1,
            count: 500,
        },
    ),
    (
        &["-", "generate", "0", "1"],
        Command::Generate { seed: 0, count: 1 },
    ),
    (
        &["-", "generate", "4294967295", "2000"],
        Command::Generate {
            seed: 4_294_967_295,
            count: 2_000,
        },
    ),
    // The others.
    (&["-", "report"], Command::Report),
    (&["report", "report"], Command::Report),
    (&["-", "certify", "1"], Command::Certify(1)),
    (&["-", "certify", "65536"], Command::Certify(65_536)),
    (&["-", "verify"], Command::Verify),
    (&["verify", "verify"], Command::Verify),
    (&["-", "learn"], Command::Learn),
    (&["learn", "learn"], Command::Learn),
    (&["-", "table", "2"], Command::MakeTable(2)),
    (&["table", "table", "3"], Command::MakeTable(3)),
    (&["-", "table-check"], Command::TableCheck),
    (&["2", "table-check"], Command::TableCheck),
];

/// The place of the first word that cannot stand where it stands, or the number of words where one
/// is missing; and the words.
type Refused = (usize, &'static [&'static str]);

/// Numbers of options out of their limits, or in another spelling.
const NUMBERS: &[Refused] = &[
    (3, &["-", "solve", "--budget", "1000001"]),
    (3, &["-", "solve", "--lease", "0"]),
    (3, &["-", "solve", "--lease", "1000000001"]),
    (3, &["-", "solve", "--budget", "4294967296"]),
    (3, &["-", "solve", "--workers", "0"]),
    (3, &["-", "solve", "--workers", "65"]),
    (3, &["-", "solve", "--workers", "04"]),
    (3, &["-", "solve", "--workers", "-4"]),
    (3, &["-", "solve", "--workers", "four"]),
    (3, &["-", "solve", "--workers", "256"]),
    (3, &["-", "solve", "--workers", ""]),
    (3, &["-", "solve", "--depth", "13"]),
    (3, &["-", "solve", "--depth", ""]),
    (3, &["-", "solve", "--depth", "-1"]),
    (3, &["-", "solve", "--depth", "+1"]),
    (3, &["-", "solve", "--depth", "01"]),
    (3, &["-", "solve", "--depth", "00"]),
    (3, &["-", "solve", "--depth", "1 "]),
    (3, &["-", "solve", "--depth", "0x1"]),
    (3, &["-", "solve", "--depth", "１"]),
    (3, &["-", "solve", "--depth", "4294967297"]),
    (3, &["-", "solve", "--plies", "201"]),
    (3, &["-", "solve", "--pieces", "1"]),
    (3, &["-", "solve", "--pieces", "4"]),
    (5, &["-", "solve", "--depth", "1", "--plies", "-1"]),
];

/// Words that are no option, and options without a number or given twice.
const OPTIONS: &[Refused] = &[
    (2, &["-", "solve", "depth", "1"]),
    (2, &["-", "solve", "--depth=1"]),
    (2, &["-", "solve", "--worker", "1"]),
    (2, &["-", "report", "--workers", "1"]),
    (4, &["-", "solve", "--depth", "1", "2"]),
    (4, &["-", "solve", "--budget", "1", "--budget", "1"]),
    (4, &["-", "solve", "--workers", "1", "--workers", "2"]),
    (4, &["-", "solve", "--pieces", "2", "--pieces", "3"]),
    (4, &["-", "solve", "--depth", "1", "--depth", "1"]),
    (
        6,
        &["-", "solve", "--plies", "1", "--depth", "1", "--plies", "1"],
    ),
    (3, &["-", "solve", "--workers"]),
    (3, &["-", "solve", "--depth"]),
    (3, &["-", "solve", "--pieces"]),
    (5, &["-", "solve", "--depth", "1", "--plies"]),
];

/// Words near `generate`.
const GENERATE: &[Refused] = &[
    (2, &["-", "generate"]),
    (3, &["-", "generate", "1"]),
    (2, &["-", "generate", "4294967296", "500"]),
    (2, &["-", "generate", "01", "500"]),
    (2, &["-", "generate", "-1", "500"]),
    (2, &["-", "generate", "", "500"]),
    (2, &["-", "generate", "one", "500"]),
    (2, &["-", "generate", "--workers", "500"]),
    (3, &["-", "generate", "1", "0"]),
    (3, &["-", "generate", "1", "2001"]),
    (3, &["-", "generate", "1", "0500"]),
    (3, &["-", "generate", "1", "+1"]),
    (3, &["-", "generate", "1", ""]),
    (3, &["-", "generate", "1", "4294967297"]),
    (3, &["-", "generate", "1", "--workers"]),
    (4, &["-", "generate", "1", "500", "x"]),
    (4, &["-", "generate", "1", "500", "--workers", "4"]),
    (2, &["-", "generate", "one", "500", "x"]),
    (0, &["", "generate", "1", "500"]),
    (1, &["-", "Generate", "1", "500"]),
    (1, &["-", "generate ", "1", "500"]),
    (1, &["-", "generates", "1", "500"]),
    (1, &["-", "--generate", "1", "500"]),
];

/// Words near `report` and `certify`.
const CERTIFY: &[Refused] = &[
    (2, &["-", "report", "1"]),
    (0, &["", "report"]),
    (1, &["-", "reports"]),
    (2, &["-", "certify"]),
    (2, &["-", "certify", "0"]),
    (2, &["-", "certify", "65537"]),
    (2, &["-", "certify", "01"]),
    (2, &["-", "certify", "-1"]),
    (2, &["-", "certify", ""]),
    (2, &["-", "certify", "one"]),
    (2, &["-", "certify", "4294967297"]),
    (3, &["-", "certify", "1", "1"]),
];

/// Words near `learn`.
const LEARN: &[Refused] = &[
    (1, &["-", "Learn"]),
    (1, &["-", "learn "]),
    (1, &["-", "lear"]),
    (1, &["-", "learns", "x"]),
    (1, &["-", "--learn"]),
    (2, &["-", "learn", "x"]),
    (2, &["-", "learn", "--pieces", "2"]),
    (0, &["", "learn"]),
    (1, &["learn"]),
];

/// Words near `verify`.
const VERIFY: &[Refused] = &[
    (1, &["-", "Verify"]),
    (1, &["-", "Verify", "x"]),
    (1, &["-", "verify "]),
    (1, &["-", "verify ", "x"]),
    (1, &["-", " verify"]),
    (1, &["-", " verify", "x"]),
    (1, &["-", "verif"]),
    (1, &["-", "verif", "x"]),
    (1, &["-", "verifys"]),
    (1, &["-", "verifys", "x"]),
    (1, &["-", "--verify"]),
    (1, &["-", "--verify", "x"]),
    (2, &["-", "verify", "x"]),
    (2, &["-", "verify", ""]),
    (2, &["-", "verify", "verify"]),
    (0, &["", "verify"]),
    (1, &["verify"]),
];

/// Words near `table` and `table-check`.
const TABLE: &[Refused] = &[
    (1, &["-", "tables"]),
    (1, &["-", "tables", "2"]),
    (1, &["-", "Table"]),
    (1, &["-", "Table", "2"]),
    (1, &["-", "table "]),
    (1, &["-", "table ", "2"]),
    (1, &["-", "table-"]),
    (1, &["-", "table-", "2"]),
    (1, &["-", "table-checks"]),
    (1, &["-", "table-checks", "2"]),
    (1, &["-", ""]),
    (1, &["-", "", "2"]),
    (2, &["-", "table", "4"]),
    (2, &["-", "table", "4", "2"]),
    (2, &["-", "table", "1"]),
    (2, &["-", "table", "1", "2"]),
    (2, &["-", "table", "0"]),
    (2, &["-", "table", "0", "2"]),
    (2, &["-", "table", "02"]),
    (2, &["-", "table", "02", "2"]),
    (2, &["-", "table", "+2"]),
    (2, &["-", "table", "+2", "2"]),
    (2, &["-", "table", ""]),
    (2, &["-", "table", "", "2"]),
    (2, &["-", "table", "2 "]),
    (2, &["-", "table", "2 ", "2"]),
    (2, &["-", "table", "two"]),
    (2, &["-", "table", "two", "2"]),
    (2, &["-", "table", "22"]),
    (2, &["-", "table", "22", "2"]),
    (2, &["-", "table", "--depth"]),
    (2, &["-", "table", "--depth", "2"]),
    (2, &["-", "table"]),
    (3, &["-", "table", "2", "x"]),
    (3, &["-", "table", "3", ""]),
    (3, &["-", "table", "2", "2", "2"]),
    (2, &["-", "table-check", "x"]),
    (2, &["-", "table-check", "2"]),
    (0, &["", "table", "2"]),
    (0, &["", "table-check"]),
];

/// No words, no command, and no path.
const FRONTS: &[Refused] = &[
    (0, &[]),
    (1, &["-"]),
    (0, &["", "solve"]),
    (1, &["-", "Solve"]),
];

/// Each row of words is its command.
fn expect_commands(rt: &impl Abort, rows: &[(&[&str], Command)]) {
    for (words, command) in rows {
        assert_eq!(rt; read_words(words), Ok(*command), "{words:?}");
    }
}

/// Each row of words is refused at its place.
fn expect_refused(rt: &impl Abort, rows: &[Refused]) {
    for (at, words) in rows {
        assert_eq!(rt;
            read_words(words),
            Err(WordsRefusal { at: *at }),
            "{words:?}"
        );
    }
}

#[test]
fn words_of_the_grammar_are_commands(rt: HostRuntime) {
    expect_commands(&rt, COMMANDS);
}

#[test]
fn numbers_out_of_their_limits_are_refused(rt: HostRuntime) {
    expect_refused(&rt, NUMBERS);
}

#[test]
fn options_are_known_and_given_once(rt: HostRuntime) {
    expect_refused(&rt, OPTIONS);
}

#[test]
fn words_near_generate_are_refused(rt: HostRuntime) {
    expect_refused(&rt, GENERATE);
}

#[test]
fn words_near_report_and_certify_are_refused(rt: HostRuntime) {
    expect_refused(&rt, CERTIFY);
}

#[test]
fn words_near_verify_are_refused(rt: HostRuntime) {
    expect_refused(&rt, VERIFY);
    expect_refused(&rt, LEARN);
}

#[test]
fn words_near_a_table_are_refused(rt: HostRuntime) {
    expect_refused(&rt, TABLE);
}

#[test]
fn a_path_and_a_command_are_due(rt: HostRuntime) {
    expect_refused(&rt, FRONTS);
}

/// The first name of the list at which the words are refused.
fn first_unknown() -> Option<&'static str> {
    for name in COMMAND_NAMES {
        if read_words(&["-", name]) == Err(WordsRefusal { at: 1 }) {
            return Some(name);
        }
    }
    None
}

/// Whether each option of the list has its own name, with which it takes its least number and its
/// most.
fn are_options() -> bool {
    for option in SOLVE_OPTIONS {
        if SolveOption::named(option.name()) != Some(option) || option.least() > option.most() {
            return false;
        }
    }
    true
}

#[test]
fn names_are_those_that_are_read(rt: HostRuntime) {
    assert_eq!(rt; first_unknown(), None);
    assert!(rt; are_options());
}
