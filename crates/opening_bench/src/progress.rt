//! Progress for a person who waits, and what is noted of a run for what is told behind it.
use crate::NO_PATH;
use crate::deeper::deeper_text;
use crate::journal_use::JournalUse;
use crate::progress_lines::{Pace, Progress, found_text, progress_line};
use crate::shares::shares_of;
use crate::unsolved::unsolved_text;
use bench_core::Bench;
use bench_edges::{Command, Options};
use lease_table::Lease;
use proof_tree::Tree;
use std::alloc::{AllocError, Global};
use std::io::{IsTerminal, Write};
use std::sync::OnceLock;
use std::sync::atomic::{AtomicU64, Ordering};
use std::time::Instant;
use terminal_text::say;
use tree_manager::RootCounts;
use worker_gate::Gate;

/// What a terminal shows while a run that searches reads its journal.
const READING: &str = "reading the journal";

/// .. while it joins the certificates of its report.
const JOINING: &str = "joining certificates";

/// .. and while a command does both that only looks at its journal.
const LOOKING: &str = "reading the journal and joining certificates";

/// How many searches beyond the budget each worker may begin.
const BEYOND: u64 = 8;

/// What was seen of a bench when it was last looked at.
#[derive(Drop)]
struct Seen {
    records: AtomicU64,
    budget: AtomicU64,
    roots: AtomicU64,
    settled: AtomicU64,
    root: AtomicU64,
}

impl Seen {
    /// Nothing was seen.
    fn new() -> Seen {
        Seen {
            records: AtomicU64::new(0),
            budget: AtomicU64::new(0),
            roots: AtomicU64::new(0),
            settled: AtomicU64::new(0),
            root: AtomicU64::new(0),
        }
    }

    /// Sees how far a bench is.
    fn see(&self, bench: &Bench) {
        let RootCounts { all, settled } = RootCounts::of(bench.tree());
        self.records.store(bench.work(), Ordering::SeqCst);
        self.budget
            .store(u64::from(bench.budget()), Ordering::SeqCst);
        self.roots.store(u64::from(all), Ordering::SeqCst);
        self.settled.store(u64::from(settled), Ordering::SeqCst);
        self.root
            .store(u64::from(first_unsettled(bench.tree())), Ordering::SeqCst);
    }
}

/// The first root without a value, counted from 1; 0 where each has one.
fn first_unsettled(tree: &Tree) -> u32 {
    for place in 0..tree.roots() {
        if tree.settled(place + 1).is_none() {
            return place + 1;
        }
    }
    0
}

/// Looks on while a run works. Standard error gets a line of progress: at a terminal one that is rewritten, once a second at
/// most, and elsewhere one a minute at most. The nodes that were searched are noted for what is told behind the report. It holds
/// nobody, and says nothing where the clock or memory fails it.
#[derive(Drop)]
pub(crate) struct ProgressGate<'a> {
    rt: &'a HostRuntime,
    is_terminal: bool,
    /// When the run began; none where the clock fails.
    start: Option<Instant>,
    pace: Pace,
    seen: Seen,
    /// How many searches were begun, and how many milliseconds behind the run's beginning the work began.
    begun: AtomicU64,
    work_began: AtomicU64,
    /// How many positions were looked at by searches that take long, as far as it has heard.
    positions: AtomicU64,
    /// 1 where a line stands at the terminal.
    stands: AtomicU64,
    /// The options of `solve`, where the words say that.
    options: Option<Options>,
    /// The journal is one in memory.
    in_memory: bool,
    /// The node of each search that was begun, as far as there is room.
    nodes: Vec<AtomicU64>,
    /// What is told of roots without a value, once the work has ended.
    unsolved: OnceLock<Vec<u8>>,
}

/// The options of `solve`, where that is the command.
fn options_of(command: Option<Command>) -> Option<Options> {
    match command {
        Some(Command::Solve(options)) => Some(options),
        _ => None,
    }
}

/// Room for the node of each search of a run with these options.
fn room_for(alloc: Global, options: &Options) -> Vec<AtomicU64> {
    let beyond = BEYOND.saturating_mul(u64::from(options.workers));
    let mut nodes = Vec::new(alloc);
    for _ in 0..u64::from(options.budget).saturating_add(beyond) {
        if nodes.push(AtomicU64::new(0)).is_err() {
            break;
        }
    }
    nodes
}

impl<'a> ProgressGate<'a> {
    /// A gate that no search has passed, of a run of a command on the journal at a path.
    pub(crate) fn new(
        rt: &'a HostRuntime,
        path: &str,
        command: Option<Command>,
    ) -> ProgressGate<'a> {
        let is_terminal = rt.stderr().is_terminal();
        let options = options_of(command);
        ProgressGate {
            rt,
            is_terminal,
            start: Instant::now(rt).ok(),
            pace: if is_terminal {
                Pace::at_terminal()
            } else {
                Pace::elsewhere()
            },
            seen: Seen::new(),
            begun: AtomicU64::new(0),
            work_began: AtomicU64::new(0),
            positions: AtomicU64::new(0),
            stands: AtomicU64::new(0),
            options,
            nodes: match &options {
                Some(options) => room_for(rt.alloc(), options),
                None => Vec::new(rt.alloc()),
            },
            in_memory: path == NO_PATH,
            unsolved: OnceLock::new(),
        }
    }

    /// How many milliseconds ago the run began.
    fn now(&self) -> Option<u64> {
        let elapsed = self.start?.elapsed(self.rt).ok()?;
        u64::try_from(elapsed.as_millis()).ok()
    }

    /// Writes a text to standard error.
    fn write(&self, text: &str) {
        let _ = self.rt.stderr().write_all(text.as_bytes());
    }

    /// Rewrites the terminal's line.
    fn rewrite(&self, line: &str) {
        self.write("\r");
        self.write(line);
        self.write("\x1b[K");
        self.stands.store(1, Ordering::SeqCst);
    }

    /// Takes the line from the terminal, where one stands.
    pub(crate) fn clear(&self) {
        if self.stands.swap(0, Ordering::SeqCst) == 1 {
            self.write("\r\x1b[K");
        }
    }

    /// Shows at a terminal that a command is at its journal, once it begins: one that looks begins at once, and one that writes when
    /// its source was read, which nobody may be typing.
    pub(crate) fn reads(&self, journal: JournalUse, is_typed: bool) {
        let text = match journal {
            JournalUse::Looks => LOOKING,
            JournalUse::Writes if !is_typed => READING,
            JournalUse::Writes | JournalUse::Nothing => return,
        };
        if self.is_terminal && !self.in_memory {
            self.rewrite(text);
        }
    }

    /// How far the run is now.
    fn progress(&self, now: u64) -> Progress {
        Progress {
            records: self.seen.records.load(Ordering::SeqCst),
            budget: self.seen.budget.load(Ordering::SeqCst),
            settled: self.seen.settled.load(Ordering::SeqCst),
            roots: self.seen.roots.load(Ordering::SeqCst),
            root: self.seen.root.load(Ordering::SeqCst),
            begun: self.begun.load(Ordering::SeqCst),
            positions: self.positions.load(Ordering::SeqCst),
            elapsed: now.saturating_sub(self.work_began.load(Ordering::SeqCst)),
        }
    }

    /// What is told of roots without a value; nothing where the work did not come to its end.
    pub(crate) fn unsolved(&self) -> &[u8] {
        match self.unsolved.get() {
            Some(text) => text.as_slice(),
            None => &[],
        }
    }

    /// The text on the roots of a bench that have no value, behind a run with these options.
    fn text_on(&self, bench: &Bench, options: &Options) -> Result<Vec<u8>, AllocError> {
        let alloc = self.rt.alloc();
        let begun = self.begun.load(Ordering::SeqCst);
        let shares = shares_of(alloc, bench, options.pieces, &self.nodes, begun)?;
        let mut text = unsolved_text(alloc, &shares, self.in_memory)?;
        say(&mut text, deeper_text(options.depth, &shares.roots))?;
        Ok(text)
    }
}

impl Gate for ProgressGate<'_> {
    fn before_search(&self, lease: &Lease) {
        let place = self.begun.fetch_add(1, Ordering::SeqCst) as usize;
        if let Some(node) = self.nodes.get(place) {
            node.store(lease.node, Ordering::SeqCst);
        }
    }

    fn wants_look(&self) -> bool {
        match self.now() {
            Some(now) => self.pace.begins_line(now),
            None => false,
        }
    }

    fn look(&self, bench: &Bench) {
        self.seen.see(bench);
    }

    fn tell(&self) {
        let Some(now) = self.now() else {
            return;
        };
        if let Ok(line) = progress_line(self.rt.alloc(), &self.progress(now)) {
            if self.is_terminal {
                self.rewrite(line.as_str());
            } else {
                self.write(line.as_str());
                self.write("\n");
            }
        }
        self.pace.ends_line(now);
    }

    fn looked_at(&self, positions: u64) {
        self.positions.fetch_add(positions, Ordering::SeqCst);
        // A search that takes long shows that it goes on.
        if self.wants_look() {
            self.tell();
        }
    }

    fn begins(&self, records: u64) {
        self.clear();
        if let Ok(text) = found_text(self.rt.alloc(), records) {
            self.write(text.as_str());
        }
        self.work_began
            .store(self.now().unwrap_or(0), Ordering::SeqCst);
    }

    fn ends(&self, bench: &Bench) {
        // A run that may search nothing says nothing of it.
        if let Some(options) = &self.options
            && options.budget > 0
            && !bench.tree().are_settled()
            && let Ok(text) = self.text_on(bench, options)
        {
            let _ = self.unsolved.try_set(text);
        }
        if self.is_terminal && self.options.is_some() {
            self.rewrite(JOINING);
        }
    }
}
