//! What is to be recorded for a certificate behind a journal's payloads. It looks at no disk.
ghost use Rattle.std.specs.Prelude.{◌≡◌, ◌++◌, [], ◌∷◌, map, IfOk, IfErr};
ghost use Rattle.strategy_certificate.specs.Certificates.{IsGood, IsTrueOf};
ghost use Rattle.strategy_certificate.specs.Tables.{IsTableSize};
ghost use Rattle.bench_records.specs.declared.records.BenchRecord.{BenchRecord};
ghost use Rattle.bench_records.specs.Texts.{IsText};
ghost use Rattle.journal_lessons.specs.Lessons.{IsSolveBy};
ghost use Rattle.journal_lessons.specs.Teaching.{IsTaught, IsTaughtBehind, RefusesBehind, RefusesTeaching};

use crate::lessons::{Lesson, lesson_for};
use crate::recorded::recorded_as;
use crate::refusals::LearnRefusal;
use bench_core::{Bench, Settings};
use bench_records::{BenchRecord, encode};
use certificate_checker::Proved;
use disk_journal::Payload;
use endgame_table::Table;
use std::alloc::{AllocError, Global};
use strategy_certificate::Certificate;
use tree_manager::replay_payloads;

/// The texts of what is recorded, in order, and the root's number, counted from 1.
#[derive(Drop)]
pub(crate) struct Taught {
    pub(crate) root: u32,
    pub(crate) texts: Vec<Vec<u8>>,
}

/// The text of the record that solves the node by a certificate, behind what the bench has applied
/// and staged.
fn solve(alloc: Global, bench: &Bench, node: u64, c: Certificate) -> Result<Vec<u8>, AllocError>
    requires good { IsGood c }
    ensures { IfOk result (λ text. (r : BenchRecord) × (IsSolveBy node c r ×
        IsText c.pieces (bench.now.records ++ bench.now.staged) r text.items)) }
{
    let position = c.position;
    let shown = recorded_as(alloc, c)?;
    let record = BenchRecord::Solve {
        node,
        position,
        shown,
    };
    encode(alloc, &record, bench.named())
}

/// Nothing is recorded.
fn none(alloc: Global, root: u32) -> Taught
    ensures root { result.root ≡ root }
    ensures texts { map (λ t. t.items) result.texts.items ≡ [] }
{
    Taught {
        root,
        texts: Vec::new(alloc),
    }
}

/// This text is recorded.
fn one(alloc: Global, root: u32, text: Vec<u8>) -> Result<Taught, AllocError>
    ensures root { IfOk result (λ taught. taught.root ≡ root) }
    ensures texts { IfOk result (λ taught.
        map (λ t. t.items) taught.texts.items ≡ text.items ∷ []) }
{
    let mut texts = Vec::new(alloc);
    texts.push(text)?;
    Ok(Taught { root, texts })
}

/// These two texts are recorded.
fn both(alloc: Global, root: u32, first: Vec<u8>, second: Vec<u8>) -> Result<Taught, AllocError>
    ensures root { IfOk result (λ taught. taught.root ≡ root) }
    ensures texts { IfOk result (λ taught.
        map (λ t. t.items) taught.texts.items ≡ first.items ∷ second.items ∷ []) }
{
    let mut texts = Vec::new(alloc);
    texts.push(first)?;
    texts.push(second)?;
    Ok(Taught { root, texts })
}

/// What is to be recorded behind the records of a bench. A root that begins is staged there.
fn teach_bench(
    alloc: Global,
    bench: &mut Bench,
    c: Certificate,
    table: &Table,
) -> Result<Taught, LearnRefusal>
    requires table { table.now.pieces ≡ bench.old.state.settings.pieces }
    requires pieces { c.pieces ≡ bench.old.state.settings.pieces }
    requires size { IsTableSize c.pieces }
    requires good { IsGood c }
    requires truth { IsTrueOf c.claim c.position }
    requires staged { bench.old.staged ≡ [] }
    ensures taught { IfOk result (λ taught.
        IsTaught c bench.old.records bench.old.state.forest taught.root
        (map (λ t. t.items) taught.texts.items)) }
    ensures refused { IfErr result (RefusesTeaching c bench.old.state.forest) }
{
    match lesson_for(bench.tree(), &c, table) {
        Lesson::Known(root) => Ok(none(alloc, root)),
        Lesson::Solves(root, node) => {
            let text = solve(alloc, bench, node, c)?;
            let taught = one(alloc, root, text)?;
            Ok(taught)
        }
        Lesson::Begins(root) => {
            let text = bench.begin(c.position, table)?;
            let taught = one(alloc, root, text)?;
            Ok(taught)
        }
        Lesson::BeginsAndSolves(root, node) => {
            let first = bench.begin(c.position, table)?;
            let second = solve(alloc, bench, node, c)?;
            let taught = both(alloc, root, first, second)?;
            Ok(taught)
        }
        Lesson::RootExpanded(root) => Err(LearnRefusal::RootExpanded(root)),
        Lesson::TooManyRoots => Err(LearnRefusal::TooManyRoots),
    }
}

/// What is to be recorded behind these payloads.
pub(crate) fn teach(
    alloc: Global,
    payloads: &[Payload],
    proved: Proved,
    table: &Table,
) -> Result<Taught, LearnRefusal>
    requires { table.now.pieces ≡ proved.pieces }
    ensures taught { IfOk result (λ taught.
        IsTaughtBehind proved payloads.now taught.root (map (λ t. t.items) taught.texts.items)) }
    ensures refused { IfErr result (RefusesBehind proved payloads.now) }
{
    let c = proved.into_certificate();
    let settings = Settings {
        pieces: table.pieces(),
        depth: 0,
        budget: 0,
        lease: 1,
    };
    let mut bench = replay_payloads(alloc, settings, payloads, table)?;
    teach_bench(alloc, &mut bench, c, table)
}
