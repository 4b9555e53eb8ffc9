//! What stands on a shelf. Tests of `join` stand in `joiner_trial`: they need a search, a table and
//! the checker.
use crate::trees::{grow_at, planted};
use certificate_joiner::PartShelf;
use draughts_board::{Position, Side};
use proof_tree::NodeId;
use std::alloc::{AllocError, Global};
use std::test::Fail;
use strategy_certificate::{Certificate, Claim, PartList};

/// Two nodes of a tree.
fn two_nodes(alloc: Global) -> Result<Option<(NodeId, NodeId)>, AllocError> {
    let mut tree = planted(alloc, Position::start())?;
    grow_at(alloc, &mut tree, 0)?;
    Ok(tree.node(0).zip(tree.node(1)))
}

/// A certificate of the start with this claim, and no part.
fn claiming(alloc: Global, claim: Claim) -> Certificate {
    Certificate {
        position: Position::start(),
        claim,
        pieces: 2,
        parts: PartList::from_vec(Vec::new(alloc)),
    }
}

/// Puts a batch on the shelf, of certificates with these two claims.
fn put_two(
    alloc: Global,
    shelf: &mut PartShelf,
    n: NodeId,
    claims: (Claim, Claim),
) -> Result<(), AllocError> {
    let mut batch = Vec::new(alloc);
    batch.push(claiming(alloc, claims.0))?;
    batch.push(claiming(alloc, claims.1))?;
    shelf.reserve(1)?;
    shelf.put(n, batch);
    Ok(())
}

/// The claims of a batch of two; none where there is no such batch.
fn claims_of(shelf: &PartShelf, n: NodeId, batch: usize) -> Option<(Claim, Claim)> {
    if batch >= shelf.batches(n) {
        return None;
    }
    match shelf.of(n, batch) {
        [first, second] => Some((first.claim, second.claim)),
        _ => None,
    }
}

/// Those of the first three batches of a node.
fn first_claims(shelf: &PartShelf, n: NodeId) -> [Option<(Claim, Claim)>; 3] {
    [
        claims_of(shelf, n, 0),
        claims_of(shelf, n, 1),
        claims_of(shelf, n, 2),
    ]
}

/// Whether batches that are put on a shelf stand there by their nodes and in their order.
fn keeps_order(alloc: Global, first: NodeId, second: NodeId) -> Result<bool, AllocError> {
    let mut shelf = PartShelf::new(alloc);
    let win = (Claim::Win(Side::Black), Claim::Hold(Side::Black));
    let hold = (Claim::Hold(Side::White), Claim::Draw);
    let draw = (Claim::Draw, Claim::Win(Side::White));
    put_two(alloc, &mut shelf, first, win)?;
    put_two(alloc, &mut shelf, second, hold)?;
    put_two(alloc, &mut shelf, first, draw)?;
    Ok(
        first_claims(&shelf, first) == [Some(win), Some(draw), None]
            && first_claims(&shelf, second) == [Some(hold), None, None],
    )
}

#[test]
fn keeps_batches_in_order(rt: HostRuntime) -> Result<(), Fail> {
    let (first, second) = two_nodes(rt.alloc())?.ok_or("no node")?;
    assert!(rt; keeps_order(rt.alloc(), first, second)?);
    Ok(())
}

/// Whether there is room for `count` batches where it is made; none where it is not made, and the
/// shelf is as it was.
fn has_made_room(alloc: Global, count: usize) -> Option<bool> {
    let mut shelf = PartShelf::new(alloc);
    match shelf.reserve(count) {
        Ok(()) => Some(shelf.spare() >= count),
        Err(_) if shelf.spare() == 0 => None,
        Err(_) => Some(false),
    }
}

#[test]
fn makes_room(rt: HostRuntime) {
    assert_eq!(rt; has_made_room(rt.alloc(), 5), Some(true));
    // More than a machine can address.
    assert_eq!(rt; has_made_room(rt.alloc(), usize::MAX), None);
}
