//! The report on a bench. A value is written only after a certificate of it was checked.
ghost use Rattle.std.specs.Prelude.{◌≡◌, ◌≤◌, ◌-◌, length, slice_get, IsSome, IfSome, IfOk, OnOk};
ghost use Rattle.draughts_board.specs.Game.{HasValue};
ghost use Rattle.draughts_board.specs.Draughts.{draughts};
ghost use Rattle.strategy_certificate.specs.Certificates.{IsGood};
ghost use Rattle.certificate_joiner.specs.Certified.{IsJoined, claim_for};
ghost use Rattle.proof_tree.specs.Forest.{nodes, value_of};
ghost use Rattle.bench_core.specs.States.{are_settled};
ghost use Rattle.opening_report.specs.Lines.{IsLine};
ghost use Rattle.opening_report.specs.Report.{IsTrueRoot, AreTrueRoots, root_of, forest_roots, report_of, settled_count, summary_line};
ghost use Rattle.proof_tree.specs.declared.tree.TheConstants.{MOST_ROOTS};

use crate::refusals::push_number;
use crate::reports::report;
use crate::roots::Root;
use arrayvec::ArrayString;
use bench_core::Bench;
use certificate_checker::prove;
use draughts_board::Value;
use proof_tree::Tree;
use std::alloc::{AllocError, Global};
use strategy_certificate::{Certificate, Oracle};

/// A checked certificate that claims the value of a settled root, counted from 1. It fails only for
/// want of memory, since what a bench joins is good.
pub fn root_certificate<O: Oracle>(
    alloc: Global,
    bench: &Bench,
    number: u32,
    oracle: &O,
) -> Result<Certificate, AllocError>
    requires tables { O.piece_limit oracle.now ≡ bench.now.state.settings.pieces }
    requires first { 1 ≤ number }
    requires there { number ≤ length (nodes bench.now.state.forest) }
    requires settled { IfSome (slice_get (nodes bench.now.state.forest) (number - 1)) (λ x.
        IsSome (value_of x)) }
    ensures joined { IfOk result (λ c.
        IfSome (slice_get (nodes bench.now.state.forest) (number - 1)) (λ x.
        IfSome (value_of x) (λ v.
        IsJoined bench.now.state.settings.pieces x.own.position (claim_for v) c))) }
    ensures good { IfOk result IsGood }
    ensures value { OnOk result
        (IfSome (slice_get (nodes bench.now.state.forest) (number - 1)) (λ x.
        IfSome (value_of x) (HasValue draughts x.own.position))) }
{
    let certificate = bench.certificate(number)?;
    let pieces = oracle.pieces();
    prove!(certificate.pieces == pieces);
    Ok(prove(alloc, certificate, oracle)?.into_certificate())
}

/// The value of a root, counted from 1, where it is settled: it is true. It fails only for want of
/// memory.
fn shown_value<O: Oracle>(
    alloc: Global,
    bench: &Bench,
    number: u32,
    oracle: &O,
) -> Result<Option<Value>, AllocError>
    requires tables { O.piece_limit oracle.now ≡ bench.now.state.settings.pieces }
    requires first { 1 ≤ number }
    requires there { number ≤ length (nodes bench.now.state.forest) }
    ensures value { IfOk result (λ value.
        IfSome (slice_get (nodes bench.now.state.forest) (number - 1)) (λ x.
        value ≡ value_of x)) }
    ensures right { OnOk result
        (IfSome (slice_get (nodes bench.now.state.forest) (number - 1)) (λ x.
        IfSome (value_of x) (HasValue draughts x.own.position))) }
{
    let Some(value) = bench.tree().settled(number) else {
        return Ok(None);
    };
    let _certificate = root_certificate(alloc, bench, number, oracle)?;
    Ok(Some(value))
}

/// A root of the bench, counted from 1, with its value where it is settled. It fails only for want
/// of memory.
fn shown_root<O: Oracle>(
    alloc: Global,
    bench: &Bench,
    number: u32,
    oracle: &O,
) -> Result<Root, AllocError>
    requires tables { O.piece_limit oracle.now ≡ bench.now.state.settings.pieces }
    requires first { 1 ≤ number }
    requires there { number ≤ length (nodes bench.now.state.forest) }
    ensures root { IfOk result (λ root.
        IfSome (slice_get (nodes bench.now.state.forest) (number - 1)) (λ x. root ≡ root_of x)) }
    ensures right { IfOk result IsTrueRoot }
{
    let tree = bench.tree();
    let position = tree.position(tree.root_node(number));
    let value = shown_value(alloc, bench, number, oracle)?;
    Ok(Root { position, value })
}

/// The roots of the bench in order, each with its value where it is settled. It fails only for want
/// of memory.
fn shown_roots<O: Oracle>(alloc: Global, bench: &Bench, oracle: &O) -> Result<Vec<Root>, AllocError>
    requires { O.piece_limit oracle.now ≡ bench.now.state.settings.pieces }
    ensures roots { IfOk result (λ roots. roots.items ≡ forest_roots bench.now.state.forest) }
    ensures values { OnOk result (AreTrueRoots (forest_roots bench.now.state.forest)) }
    ensures few { OnOk result (length (forest_roots bench.now.state.forest) ≤ MOST_ROOTS) }
{
    let mut roots = Vec::new(alloc);
    for place in 0..bench.tree().roots() {
        let root = shown_root(alloc, bench, place + 1, oracle)?;
        roots.push(root)?;
    }
    Ok(roots)
}

/// The report on the roots of a bench: a line for each, in order, and the summary behind them.
///
/// Each value in it is true: a certificate that claims it was joined and checked before. It fails
/// only for want of memory.
pub fn report_text<O: Oracle>(
    alloc: Global,
    bench: &Bench,
    oracle: &O,
) -> Result<Vec<u8>, AllocError>
    requires { O.piece_limit oracle.now ≡ bench.now.state.settings.pieces }
    ensures text { IfOk result (λ text.
        text.items ≡ report_of (forest_roots bench.now.state.forest)) }
    ensures values { OnOk result (AreTrueRoots (forest_roots bench.now.state.forest)) }
    ensures few { OnOk result (length (forest_roots bench.now.state.forest) ≤ MOST_ROOTS) }
{
    let roots = shown_roots(alloc, bench, oracle)?;
    report(alloc, &roots)
}

/// How many roots of the tree are settled.
fn settled_roots(tree: &Tree) -> usize
    ensures value { result ≡ settled_count (forest_roots tree.now.forest) }
    ensures most { result ≤ length (nodes tree.now.forest) }
{
    let mut settled = 0;
    for place in 0..tree.roots() {
        if tree.settled(place + 1).is_some() {
            settled += 1;
        }
    }
    settled
}

/// Whether each root of the bench is settled. It takes no memory.
pub fn is_settled(bench: &Bench) -> bool
    ensures { result ≡ are_settled bench.now.state.forest }
{
    let tree = bench.tree();
    settled_roots(tree) == tree.roots() as usize
}

/// The last line of the report on a bench, its line end among it: how many roots there are, how
/// many are settled, and how many are not. It takes no memory.
pub fn summary_text(bench: &Bench) -> ArrayString<128>
    ensures text { result.bytes ≡ summary_line (forest_roots bench.now.state.forest) }
    ensures line { IsLine (summary_line (forest_roots bench.now.state.forest)) }
{
    let tree = bench.tree();
    let roots = tree.roots() as usize;
    let settled = settled_roots(tree);
    let mut line = ArrayString::new();
    line.push_str("roots ");
    push_number(&mut line, roots);
    line.push_str(" settled ");
    push_number(&mut line, settled);
    line.push_str(" unsolved ");
    push_number(&mut line, roots - settled);
    line.push('\n');
    line
}
