//! Applying a record that is read back: it is not trusted, and checked by the tree and the table.
ghost use Rattle.std.specs.Prelude.{◌≡◌, ◌↔◌, ◌&&◌, false, IsTrue, All, IsSome, IfSome, OnOk, OnErr, IfOk, IfErr, map};
ghost use Rattle.draughts_board.specs.Draughts.{draughts};
ghost use Rattle.draughts_board.specs.Game.{is_at_sight};
ghost use Rattle.draughts_board.specs.Play.{successors_of};
ghost use Rattle.proof_numbers.specs.Numbers.{is_resolved};
ghost use Rattle.strategy_certificate.specs.Claims.{HasShortRanks};
ghost use Rattle.proof_tree.specs.Forest.{node_at, node_numbers};
ghost use Rattle.proof_tree.specs.Sound.{root_positions, IsSoundForest};
ghost use Rattle.certificate_checker.specs.Refusals.{check_wants_memory};
ghost use Rattle.certificate_joiner.specs.Certified.{IsShelved};
ghost use Rattle.certificate_joiner.specs.Laws.{AreCertified};
ghost use Rattle.bench_core.specs.declared.refusals.ApplyRefusal.TheVariants as refusals;
ghost use Rattle.bench_records.specs.declared.records.BenchRecord.TheVariants as records;
ghost use Rattle.bench_core.specs.Records.{batches_shown};
ghost use Rattle.bench_core.specs.Growing.{MayBegin};
ghost use Rattle.bench_core.specs.Grown.{GrownState};
ghost use Rattle.bench_core.specs.Replaying.{IsReplayed, RefusesRecord};

use crate::grown::GrownTree;
use crate::refusals::ApplyRefusal;
use crate::shown::certificates_of;
use bench_records::{BenchRecord, CertificateList};
use certificate_checker::{CheckRefusal, ProofList, Proved, check, told_by_all};
use draughts_board::{Position, Side};
use proof_numbers::Child;
use proof_tree::{MOST_ROOTS, NodeId, Tree};
use std::alloc::{AllocError, Global};
use strategy_certificate::{Certificate, MOST_FOUND_RANK, Oracle, Part};
use swift_sight::{child_at_sight, children_at_sight};

/// A root may begin at the position: none has it, and there is room for one more.
fn may_begin(tree: &Tree, p: Position) -> bool
    ensures { IsTrue result ↔ MayBegin p (root_positions tree.now.forest) }
{
    tree.find_root(&p).is_none() && (tree.roots() as usize) < MOST_ROOTS
}

/// Begins a root.
fn replay_begin<O: Oracle>(
    alloc: Global,
    grown: &mut GrownTree,
    p: Position,
    oracle: &O,
) -> Result<(), ApplyRefusal>
    ensures ok { OnOk result
        (IsReplayed (O.piece_limit oracle.now) grown.old (records.Begin p) grown.new) }
    ensures refused { IfErr result
        (RefusesRecord (O.piece_limit oracle.now) grown.old (records.Begin p)) }
    ensures forest { OnErr result (grown.new.forest ≡ grown.old.forest) }
    ensures records { OnErr result (grown.new.records ≡ grown.old.records) }
{
    if !may_begin(grown.tree(), p) {
        return Err(ApplyRefusal::Unlawful);
    }
    let root = child_at_sight(alloc, &p, oracle)?;
    grown.reserve(1, 1)?;
    grown.begin(root);
    Ok(())
}

/// The node is resolved for both sides.
fn is_resolved_for_both(tree: &Tree, n: NodeId) -> bool
    requires { IsSome (node_at n tree.now.forest) }
    ensures { IfSome (node_at n tree.now.forest) (λ x.
        result ≡ (is_resolved (node_numbers Side.Black x)
        && is_resolved (node_numbers Side.White x))) }
{
    tree.numbers(n, Side::Black).is_resolved() && tree.numbers(n, Side::White).is_resolved()
}

/// The position is decided at sight. These are the positions after it, in order.
fn is_at_sight<O: Oracle>(p: &Position, children: &[Child], oracle: &O) -> bool
    requires { map (λ child. child.position) children.now ≡ successors_of p.now }
    ensures { result ≡ is_at_sight draughts (O.piece_limit oracle.now) p.now }
{
    children.is_empty() || p.count(Side::Black) + p.count(Side::White) <= oracle.pieces()
}

/// Expands a node.
fn replay_expand<O: Oracle>(
    alloc: Global,
    grown: &mut GrownTree,
    node: u64,
    oracle: &O,
) -> Result<(), ApplyRefusal>
    ensures ok { OnOk result
        (IsReplayed (O.piece_limit oracle.now) grown.old (records.Expand node) grown.new) }
    ensures refused { IfErr result
        (RefusesRecord (O.piece_limit oracle.now) grown.old (records.Expand node)) }
    ensures forest { OnErr result (grown.new.forest ≡ grown.old.forest) }
    ensures records { OnErr result (grown.new.records ≡ grown.old.records) }
{
    let tree = grown.tree();
    let Some(n) = tree.leaf(node) else {
        return Err(ApplyRefusal::Unlawful);
    };
    if is_resolved_for_both(tree, n) {
        return Err(ApplyRefusal::Unlawful);
    }
    let p = tree.position(n);
    let children = children_at_sight(alloc, &p, oracle)?;
    if is_at_sight(&p, children.as_slice(), oracle) {
        return Err(ApplyRefusal::Unlawful);
    }
    grown.reserve(children.as_slice().len(), 1)?;
    grown.expand(n, children.as_slice());
    Ok(())
}

/// Each rank of the part is one that a search may give.
fn has_short_ranks(part: &Part) -> bool
    ensures { IsTrue result ↔ HasShortRanks part.now }
{
    match part {
        Part::Win(list) => (0..list.len()).all(|i| list.entry(i).1.rank <= MOST_FOUND_RANK),
        Part::Hold(_) => true,
    }
}

/// Each part has such ranks.
fn have_short_ranks(parts: &[Part]) -> bool
    ensures { IsTrue result ↔ All HasShortRanks parts.now }
{
    parts.iter().all(|part| has_short_ranks(part))
}

/// The certificate is of this position, for tables of `pieces` pieces, and each rank is one that a search may give.
fn is_of(c: &Certificate, p: &Position, pieces: u8) -> bool
    ensures { IsTrue result ↔ ((c.now.position ≡ p.now)
        × ((c.now.pieces ≡ pieces) × All HasShortRanks c.now.parts)) }
{
    c.position == *p && c.pieces == pieces && have_short_ranks(c.parts.as_slice())
}

/// What refuses the record of a certificate that is refused so: want of memory, or that it is not lawful.
fn refusal_for(refusal: CheckRefusal) -> ApplyRefusal
    ensures { (result ≡ refusals.Unlawful) ↔ (check_wants_memory refusal ≡ false) }
{
    match refusal {
        CheckRefusal::Memory(error) => ApplyRefusal::Memory(error),
        _ => ApplyRefusal::Unlawful,
    }
}

/// The certificate, checked: it may stand on the shelf for a node of this position.
fn check_shown<O: Oracle>(
    alloc: Global,
    p: &Position,
    c: Certificate,
    oracle: &O,
) -> Result<Proved, ApplyRefusal>
    ensures ok { IfOk result
        (λ proved. (proved ≡ c) × IsShelved (O.piece_limit oracle.now) p.now c) }
    ensures refused { IfErr result (λ refusal. (refusal ≡ refusals.Unlawful)
        → ¬ IsShelved (O.piece_limit oracle.now) p.now c) }
{
    let pieces = oracle.pieces();
    if !is_of(&c, p, pieces) {
        return Err(ApplyRefusal::Unlawful);
    }
    match check(alloc, c, oracle) {
        Ok(proved) => Ok(proved),
        Err(refused) => Err(refusal_for(refused.1)),
    }
}

/// The certificates, each checked.
fn check_all<O: Oracle>(
    alloc: Global,
    p: &Position,
    shown: CertificateList,
    oracle: &O,
) -> Result<ProofList, ApplyRefusal>
    ensures ok { IfOk result
        (λ proofs. (proofs ≡ shown) × All (IsShelved (O.piece_limit oracle.now) p.now) shown) }
    ensures refused { IfErr result (λ refusal. (refusal ≡ refusals.Unlawful)
        → ¬ All (IsShelved (O.piece_limit oracle.now) p.now) shown) }
{
    let mut proofs = Vec::with_capacity(alloc, shown.as_slice().len())?;
    for c in shown.into_vec() {
        let proved = check_shown(alloc, p, c, oracle)?;
        if let Err(error) = proofs.push(proved) {
            return Err(AllocError::from(error).into());
        }
    }
    Ok(ProofList::from_vec(proofs))
}

/// Adds what certificates tell of a node.
fn replay_solve<O: Oracle>(
    alloc: Global,
    grown: &mut GrownTree,
    node: u64,
    position: Position,
    shown: CertificateList,
    oracle: &O,
) -> Result<(), ApplyRefusal>
    requires sound { IsSoundForest grown.old.forest }
    requires certified { AreCertified (O.piece_limit oracle.now) (batches_shown grown.old.records)
        grown.old.forest }
    ensures ok { OnOk result
        (IsReplayed (O.piece_limit oracle.now) grown.old
        (records.Solve node position shown) grown.new) }
    ensures refused { IfErr result
        (RefusesRecord (O.piece_limit oracle.now) grown.old (records.Solve node position shown)) }
    ensures forest { OnErr result (grown.new.forest ≡ grown.old.forest) }
    ensures records { OnErr result (grown.new.records ≡ grown.old.records) }
{
    let tree = grown.tree();
    let Some(n) = tree.leaf(node) else {
        return Err(ApplyRefusal::Unlawful);
    };
    if tree.position(n) != position {
        return Err(ApplyRefusal::Unlawful);
    }
    let known = tree.facts(n);
    let proofs = check_all(alloc, &position, shown, oracle)?;
    let facts = told_by_all(proofs.as_slice());
    if known.includes(&facts) {
        return Err(ApplyRefusal::Unlawful);
    }
    let shown = certificates_of(alloc, proofs)?;
    grown.reserve(0, 1)?;
    grown.solve(n, position, &facts, shown);
    Ok(())
}

/// Applies a record.
pub(crate) fn replay_record<O: Oracle>(
    alloc: Global,
    grown: &mut GrownTree,
    r: BenchRecord,
    oracle: &O,
) -> Result<(), ApplyRefusal>
    requires sound { IsSoundForest grown.old.forest }
    requires certified { AreCertified (O.piece_limit oracle.now) (batches_shown grown.old.records)
        grown.old.forest }
    ensures ok { OnOk result (IsReplayed (O.piece_limit oracle.now) grown.old r grown.new) }
    ensures refused { IfErr result (RefusesRecord (O.piece_limit oracle.now) grown.old r) }
    ensures forest { OnErr result (grown.new.forest ≡ grown.old.forest) }
    ensures records { OnErr result (grown.new.records ≡ grown.old.records) }
{
    match r {
        BenchRecord::Begin(p) => replay_begin(alloc, grown, p, oracle),
        BenchRecord::Solve {
            node,
            position,
            shown,
        } => replay_solve(alloc, grown, node, position, shown, oracle),
        BenchRecord::Expand { node } => replay_expand(alloc, grown, node, oracle),
    }
}
