//! Events in an order that looks random, each answered by a bench and by a plain list.
ghost use Rattle.std.specs.Prelude.{◌≤◌};
ghost use Rattle.bench_core.specs.declared.settings.TheConstants.{MOST_WORK, MOST_LEASE};
ghost use Rattle.certificate_checker.specs.declared.outcomes.TheConstants.{MOST_DEPTH};

use crate::plain::Plain;
use crate::tabled::TabledBench;
use crate::tally::{Tally, count};
use anyhow::{Result, bail};
use bench_core::{LeaseRefusal, ReadyRefusal};
use draughts_board::Side;
use endgame_table::Table;
use fen_text::read_fen;
use lease_table::LeaseId;
use proof_tree::Tree;
use rand_core::utils::NextWord;
use rand_pcg::Pcg32;
use std::alloc::{AllocError, Global};

/// Positions that begin roots: of three pieces, of six, and the first of a game.
const ROOTS: [&str; 8] = [
    "W:W16,23:B12",
    "B:W21:B10,17",
    "B:WK1,K19:BK15",
    "W:W14:B1,2",
    "B:WK10:B5,K9",
    "B:WK7,16:BK8",
    "B:W21,30,K32:B1,12,K3",
    "B:W21,22,23,24,25,26,27,28,29,30,31,32:B1,2,3,4,5,6,7,8,9,10,11,12",
];

/// A list of events, and by what settings it is played.
#[derive(Clone, Copy)]
pub(crate) struct Plan {
    /// By this the events are rolled.
    pub(crate) seed: u64,
    pub(crate) events: u32,
    /// For how many leases given a lease lasts.
    pub(crate) lease: u32,
    pub(crate) depth: u8,
    pub(crate) budget: u32,
}

/// A bench, and what it is compared with.
#[derive(Drop)]
struct Match<'a> {
    bench: TabledBench<'a>,
    plain: Plain,
    dice: Pcg32,
    tally: Tally,
}

/// A number below the bound, which is not 0.
fn roll(dice: &mut Pcg32, bound: u32) -> u32 {
    dice.next_word().checked_rem(bound).unwrap_or(0)
}

impl<'a> Match<'a> {
    /// A worker asks for a lease.
    fn ask(&mut self, alloc: Global) -> Result<()> {
        let worker = roll(&mut self.dice, 3);
        let due = self.plain.answer(alloc, self.bench.bench().tree(), worker)?;
        let answer = self.bench.ask(worker);
        if answer != due {
            bail!("another answer to a worker");
        }
        match answer {
            Ok(lease) => {
                count(&mut self.tally.leases);
                self.plain.give(lease)?;
            }
            Err(LeaseRefusal::Done) => count(&mut self.tally.done),
            Err(LeaseRefusal::Spent { .. }) => count(&mut self.tally.spent),
            Err(LeaseRefusal::NoLeaf { .. }) => count(&mut self.tally.without_leaf),
            Err(_) => bail!("a refusal that is not due"),
        }
        Ok(())
    }

    /// The place of one of the last leases given.
    fn place(&mut self) -> usize {
        let back = roll(&mut self.dice, 6) as usize;
        self.plain.given().saturating_sub(back)
    }

    /// The result of a lease is refused.
    fn refuse(&mut self, id: LeaseId, refusal: ReadyRefusal) -> Result<()> {
        if self.plain.is_open(id) || refusal != ReadyRefusal::Stale(id) {
            bail!("another refusal of a result");
        }
        count(&mut self.tally.stale);
        Ok(())
    }

    /// The result of a lease comes.
    fn hand_in(&mut self, alloc: Global) -> Result<()> {
        let place = self.place();
        let Some(lease) = self.plain.lease_at(place) else {
            return Ok(());
        };
        match self.bench.hand_in(alloc, &lease)? {
            Err(refusal) => self.refuse(lease.id, refusal),
            Ok(text) => {
                if !self.plain.is_open(lease.id) {
                    bail!("a result that is not due is staged");
                }
                count(&mut self.tally.staged);
                self.plain.stage(text, Some(lease.id))?;
                Ok(())
            }
        }
    }

    /// The result of a lease comes, and is taken back.
    fn hand_in_and_forget(&mut self, alloc: Global) -> Result<()> {
        let place = self.place();
        let Some(lease) = self.plain.lease_at(place) else {
            return Ok(());
        };
        if let Some(refusal) = self.bench.hand_in_and_forget(alloc, &lease)? {
            return self.refuse(lease.id, refusal);
        }
        if !self.plain.is_open(lease.id) {
            bail!("a result that is not due is staged");
        }
        count(&mut self.tally.forgotten);
        Ok(())
    }

    /// A lease is released.
    fn release(&mut self) -> Result<()> {
        let id = LeaseId::new((self.place() as u128).saturating_add(1));
        let is_open = self.plain.is_open(id);
        if self.bench.release(id).is_ok() != is_open {
            bail!("another answer to a release");
        }
        if is_open {
            count(&mut self.tally.released);
            self.plain.end(id);
        }
        Ok(())
    }

    /// What is staged is applied.
    fn apply(&mut self, alloc: Global) -> Result<()> {
        self.bench.apply();
        self.plain.apply(alloc)?;
        Ok(())
    }

    /// What is staged is applied, and a root begins.
    fn begin(&mut self, alloc: Global) -> Result<()> {
        self.plain.apply(alloc)?;
        let root = roll(&mut self.dice, ROOTS.len() as u32) as usize;
        let Some(fen) = ROOTS.get(root) else {
            return Ok(());
        };
        if let Some(text) = self.bench.begin(read_fen(fen.as_bytes())?)? {
            count(&mut self.tally.roots);
            self.plain.stage(text, None)?;
        }
        Ok(())
    }

    /// The event that was rolled.
    fn happen(&mut self, alloc: Global, rolled: u32) -> Result<()> {
        match rolled {
            0..6 => self.ask(alloc),
            6..9 => self.hand_in(alloc),
            9 | 10 => self.release(),
            11 => self.hand_in_and_forget(alloc),
            12 | 13 => self.begin(alloc),
            _ => self.apply(alloc),
        }
    }

    /// One event, after which as many leases and work records are counted.
    fn step(&mut self, alloc: Global) -> Result<()> {
        let rolled = roll(&mut self.dice, 16);
        self.happen(alloc, rolled)?;
        let bench = self.bench.bench();
        if bench.given() != self.plain.given() as u128 || bench.work() != self.plain.work() {
            bail!("another count of leases or of work records");
        }
        Ok(())
    }
}

/// Whether two trees have the same nodes, with the same positions and numbers.
fn are_same(one: &Tree, other: &Tree) -> bool {
    if one.len() != other.len() || one.roots() != other.roots() {
        return false;
    }
    for number in 0..one.len() as u64 {
        let (Some(n), Some(m)) = (one.node(number), other.node(number)) else {
            return false;
        };
        if one.position(n) != other.position(m)
            || one.mark(n) != other.mark(m)
            || one.numbers(n, Side::Black) != other.numbers(m, Side::Black)
            || one.numbers(n, Side::White) != other.numbers(m, Side::White)
        {
            return false;
        }
    }
    true
}

/// How many roots are settled. The certificate of each is checked.
pub(crate) fn count_settled(alloc: Global, bench: &TabledBench<'_>) -> Result<u32> {
    let mut settled = 0;
    for place in 0..bench.bench().tree().roots() {
        if bench.prove(alloc, place + 1)?.is_some() {
            count(&mut settled);
        }
    }
    Ok(settled)
}

/// A bench, and what it is compared with, before the first event.
fn begin_match<'a>(alloc: Global, plan: &Plan, table: &'a Table) -> Result<Match<'a>, AllocError>
    requires depth { plan.now.depth ≤ MOST_DEPTH }
    requires budget { plan.now.budget ≤ MOST_WORK }
    requires first { 1 ≤ plan.now.lease }
    requires last { plan.now.lease ≤ MOST_LEASE }
{
    let Plan {
        seed,
        lease,
        depth,
        budget,
        ..
    } = *plan;
    Ok(Match {
        bench: TabledBench::new(alloc, table, depth, budget, lease)?,
        plain: Plain::new(alloc, lease, depth, table.pieces(), budget),
        dice: Pcg32::new(seed, 1),
        tally: Tally::default(),
    })
}

/// A bench into which these texts were read back.
fn read_back<'a>(
    alloc: Global,
    plan: &Plan,
    table: &'a Table,
    texts: &[Vec<u8>],
) -> Result<TabledBench<'a>>
    requires depth { plan.now.depth ≤ MOST_DEPTH }
    requires budget { plan.now.budget ≤ MOST_WORK }
    requires first { 1 ≤ plan.now.lease }
    requires last { plan.now.lease ≤ MOST_LEASE }
{
    let mut bench = TabledBench::new(alloc, table, plan.depth, plan.budget, plan.lease)?;
    bench.replay_all(texts)?;
    Ok(bench)
}

/// What is counted, after the bench into which the records were read back is found to have the same tree.
fn compare(alloc: Global, played: &Match<'_>, again: &TabledBench<'_>) -> Result<Tally> {
    let tree = played.bench.bench().tree();
    if !are_same(tree, again.bench().tree()) || again.bench().work() != 0 {
        bail!("another tree is read back");
    }
    let mut tally = played.tally;
    tally.records = played.plain.applied().len();
    tally.nodes = tree.len();
    tally.settled = count_settled(alloc, again)?;
    Ok(tally)
}

/// `events` events happen, and what is staged then is applied.
fn happen_all(alloc: Global, events: u32, played: &mut Match<'_>) -> Result<()> {
    for _ in 0..events {
        played.step(alloc)?;
    }
    played.apply(alloc)
}

/// The events of a plan happen; the records that came of them are read back, and it is counted.
fn play_on(alloc: Global, plan: &Plan, table: &Table, played: &mut Match<'_>) -> Result<Tally>
    requires depth { plan.now.depth ≤ MOST_DEPTH }
    requires budget { plan.now.budget ≤ MOST_WORK }
    requires first { 1 ≤ plan.now.lease }
    requires last { plan.now.lease ≤ MOST_LEASE }
{
    happen_all(alloc, plan.events, played)?;
    let again = read_back(alloc, plan, table, played.plain.applied())?;
    compare(alloc, played, &again)
}

/// Plays a list of events, reads the records back that came of it, and counts.
pub(crate) fn play(alloc: Global, plan: &Plan, table: &Table) -> Result<Tally>
    requires depth { plan.now.depth ≤ MOST_DEPTH }
    requires budget { plan.now.budget ≤ MOST_WORK }
    requires first { 1 ≤ plan.now.lease }
    requires last { plan.now.lease ≤ MOST_LEASE }
{
    let mut played = begin_match(alloc, plan, table)?;
    play_on(alloc, plan, table, &mut played)
}
