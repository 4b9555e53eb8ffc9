//! Certificates that are joined, each through the checker.
//!
//! What the positions are worth, and which positions a strategy goes through, was worked out by hand or by a program in
//! another language that solves backwards from the end and is not kept here.
ghost use Rattle.std.specs.Prelude.{◌≡◌, IfSome, IsSomeAnd};
ghost use Rattle.proof_tree.specs.Forest.{node_at};

use crate::certified::CertifiedTree;
use certificate_checker::{MOST_DEPTH, Proved};
use draughts_board::{Position, Side};
use endgame_table::fill;
use fen_text::read_fen;
use proof_tree::{Mark, NodeId, Tree};
use std::alloc::Global;
use std::test::Fail;
use strategy_certificate::{Claim, Part};

/// The leaf of this position with the least number.
fn find_leaf(tree: &Tree, p: &Position) -> Option<NodeId>
    ensures { IfSome result (λ n.
        IsSomeAnd (node_at n tree.now.forest) (λ x. x.own.mark ≡ Mark.Unexpanded)) }
{
    for number in 0..tree.len() as u64 {
        if let Some(n) = tree.leaf(number) {
            if tree.position(n) == *p {
                return Some(n);
            }
        }
    }
    None
}

/// Adds a root.
fn add(alloc: Global, tree: &mut CertifiedTree<'_>, fen: &str) -> Result<(), Fail> {
    let p = read_fen(fen.as_bytes())?;
    tree.add_root(alloc, &p)?;
    Ok(())
}

/// Expands the first leaf of this position.
fn expand(alloc: Global, tree: &mut CertifiedTree<'_>, fen: &str) -> Result<(), Fail> {
    let p = read_fen(fen.as_bytes())?;
    let Some(n) = find_leaf(tree.tree(), &p) else {
        return Err(Fail::from("no such leaf"));
    };
    tree.expand(alloc, n)?;
    Ok(())
}

/// Searches the first leaf of this position for Black's win, at most as deep as a search may go.
fn search(alloc: Global, tree: &mut CertifiedTree<'_>, fen: &str, depth: u8) -> Result<(), Fail> {
    let p = read_fen(fen.as_bytes())?;
    let Some(n) = find_leaf(tree.tree(), &p) else {
        return Err(Fail::from("no such leaf"));
    };
    tree.work(alloc, n, Side::Black, depth.min(MOST_DEPTH))?;
    Ok(())
}

/// What is done to a tree.
#[derive(Clone, Copy)]
enum Step {
    /// A root is added.
    Root(&'static str),
    /// The first leaf of this position is expanded.
    Expand(&'static str),
    /// The first leaf of this position is searched so deep for Black's win.
    Search(&'static str, u8),
}

use Step::*;

/// Takes one step.
fn take(alloc: Global, tree: &mut CertifiedTree<'_>, step: Step) -> Result<(), Fail> {
    match step {
        Root(fen) => add(alloc, tree, fen),
        Expand(fen) => expand(alloc, tree, fen),
        Search(fen, depth) => search(alloc, tree, fen, depth),
    }
}

/// Takes each step, in order.
fn take_all(alloc: Global, tree: &mut CertifiedTree<'_>, steps: &[Step]) -> Result<(), Fail> {
    for step in steps {
        take(alloc, tree, *step)?;
    }
    Ok(())
}

/// How many nodes repeat a position above them.
fn repeated(tree: &Tree) -> usize {
    let mut count = 0_usize;
    for number in 0..tree.len() as u64 {
        if let Some(n) = tree.node(number) {
            if tree.mark(n) == Mark::Repeats {
                count = count.saturating_add(1);
            }
        }
    }
    count
}

/// The rank at which the certificate's win part has this position.
fn rank_of(proved: &Proved, p: &Position) -> Option<u64> {
    match proved.certificate().parts.as_slice() {
        [Part::Win(part)] => part.find(p).map(|entry| entry.rank),
        _ => None,
    }
}

/// Whether Black's hold part has this position, and whether White's has it.
fn held_at(proved: &Proved, fen: &str) -> Option<(bool, bool)> {
    let p = read_fen(fen.as_bytes()).ok()?;
    match proved.certificate().parts.as_slice() {
        [Part::Hold(black), Part::Hold(white)] => {
            Some((black.find(&p).is_some(), white.find(&p).is_some()))
        }
        _ => None,
    }
}

/// The same of the positions behind 9-6 and behind 9-13.
fn held_behind(proved: &Proved) -> Option<[(bool, bool); 2]> {
    let taken = held_at(proved, "W:WK10:B5,K6")?;
    let chased = held_at(proved, "W:WK10:B5,K13")?;
    Some([taken, chased])
}

/// How many entries the hold parts have: Black's and White's.
fn hold_lens(proved: &Proved) -> Option<(usize, usize)> {
    match proved.certificate().parts.as_slice() {
        [Part::Hold(black), Part::Hold(white)] => Some((black.len(), white.len())),
        _ => None,
    }
}

/// The joined certificate of a root, where it is there and settled, behind these steps with the table of two pieces.
fn joined(alloc: Global, steps: &[Step], root: u32) -> Result<Option<Proved>, Fail> {
    let table = fill(alloc, 2)?;
    let mut tree = CertifiedTree::new(alloc, &table)?;
    take_all(alloc, &mut tree, steps)?;
    Ok(tree.prove(alloc, root)?)
}

/// How many nodes there are behind these steps, and how many of them repeat a position above them.
fn nodes(alloc: Global, steps: &[Step]) -> Result<(usize, usize), Fail> {
    let table = fill(alloc, 2)?;
    let mut tree = CertifiedTree::new(alloc, &table)?;
    take_all(alloc, &mut tree, steps)?;
    Ok((tree.tree().len(), repeated(tree.tree())))
}

/// What the joined certificate of a root claims.
fn claimed(alloc: Global, steps: &[Step], root: u32) -> Result<Option<Claim>, Fail> {
    match joined(alloc, steps, root)? {
        Some(proved) => Ok(Some(proved.certificate().claim)),
        None => Ok(None),
    }
}

/// The rank of this position in the win part of the first root's certificate.
fn ranked(alloc: Global, steps: &[Step], fen: &str) -> Result<Option<u64>, Fail> {
    let p = read_fen(fen.as_bytes())?;
    match joined(alloc, steps, 1)? {
        Some(proved) => Ok(rank_of(&proved, &p)),
        None => Ok(None),
    }
}

/// How many entries the hold parts of the first root's certificate have: Black's and White's.
fn lens(alloc: Global, steps: &[Step]) -> Result<Option<(usize, usize)>, Fail> {
    match joined(alloc, steps, 1)? {
        Some(proved) => Ok(hold_lens(&proved)),
        None => Ok(None),
    }
}

/// Which hold parts of the first root's certificate have the positions behind 9-6 and behind 9-13.
fn held(alloc: Global, steps: &[Step]) -> Result<Option<[(bool, bool); 2]>, Fail> {
    match joined(alloc, steps, 1)? {
        Some(proved) => Ok(held_behind(&proved)),
        None => Ok(None),
    }
}

/// White moves 16-11, 23-18 or 23-19, behind which Black is blocked.
const BLOCKED: [Step; 2] = [Root("W:W16,23:B12"), Expand("W:W16,23:B12")];

#[test]
fn joins_what_is_seen_at_sight(rt: HostRuntime) -> Result<(), Fail> {
    assert_eq!(rt; claimed(rt.alloc(), &BLOCKED[..1], 1)?, None);
    assert_eq!(rt; nodes(rt.alloc(), &BLOCKED)?, (4, 0));
    let claims = (
        claimed(rt.alloc(), &BLOCKED, 1)?,
        claimed(rt.alloc(), &BLOCKED, 2)?,
    );
    assert_eq!(rt; claims, (Some(Claim::Win(Side::White)), None));
    assert!(rt; ranked(rt.alloc(), &BLOCKED, "B:W16,19:B12")?.is_some());
    Ok(())
}

/// 17-14 blocks the man on 21.
const SHOWN: [Step; 2] = [Root("B:W21:B10,17"), Search("B:W21:B10,17", 1)];

#[test]
fn joins_what_one_search_shows(rt: HostRuntime) -> Result<(), Fail> {
    assert_eq!(rt; nodes(rt.alloc(), &SHOWN)?, (1, 0));
    assert_eq!(rt;
        claimed(rt.alloc(), &SHOWN, 1)?,
        Some(Claim::Win(Side::Black))
    );
    assert_eq!(rt; ranked(rt.alloc(), &SHOWN, "B:W21:B10,17")?, Some(1));
    Ok(())
}

/// A draw: Black's king can go to 6 or 14, where it is taken, and one king each is left, or to 13, from where it is chased
/// back.
const CHASED: &str = "B:WK10:B5,K9";

/// The chase, and a search of each leaf beside it.
const CHASE: [Step; 9] = [
    Root(CHASED),
    Expand(CHASED),
    Expand("W:WK10:B5,K13"),
    Expand("B:WK14:B5,K13"),
    Expand("W:WK14:B5,K9"),
    Search("W:WK10:B5,K6", 1),
    Search("W:WK10:B5,K14", 1),
    Search("W:WK14:B9,K13", 1),
    Search("W:WK14:B5,K17", 1),
];

#[test]
fn joins_a_hold_that_repeats(rt: HostRuntime) -> Result<(), Fail> {
    assert_eq!(rt; nodes(rt.alloc(), &CHASE[..5])?.1, 1);
    assert_eq!(rt; claimed(rt.alloc(), &CHASE, 1)?, Some(Claim::Draw));
    // Black holds by 9-6; White's strategy has all eight positions, one of which leads back to the first.
    assert_eq!(rt; lens(rt.alloc(), &CHASE)?, Some((2, 8)));
    Ok(())
}

/// A search of the leaf behind 9-13, and then of the two beside it.
const LEAVES: [Step; 5] = [
    Root(CHASED),
    Expand(CHASED),
    Search("W:WK10:B5,K13", 6),
    Search("W:WK10:B5,K6", 1),
    Search("W:WK10:B5,K14", 1),
];

#[test]
fn joins_holds_of_different_leaves(rt: HostRuntime) -> Result<(), Fail> {
    assert_eq!(rt; nodes(rt.alloc(), &LEAVES[..3])?.0, 4);
    let claims = (
        claimed(rt.alloc(), &LEAVES[..3], 1)?,
        claimed(rt.alloc(), &LEAVES, 1)?,
    );
    assert_eq!(rt; claims, (None, Some(Claim::Draw)));
    // Black's hold goes by 9-6 alone; White's has to hold behind 9-13 too, which another leaf shows.
    assert_eq!(rt;
        held(rt.alloc(), &LEAVES)?,
        Some([(true, true), (false, true)])
    );
    Ok(())
}

/// Black wins in four plies, however White's man goes on.
const CAUGHT: &str = "W:W14:B1,2";

/// By 14-9, 1-5, 9-6 and by 14-10, 1-5, 10-6: Black wins by 2x9.
const TAKEN: &str = "B:W6:B2,5";

/// One node of that position is expanded, and a search shows the other.
const TWICE: [Step; 9] = [
    Root(CAUGHT),
    Expand(CAUGHT),
    Expand("B:W10:B1,2"),
    Expand("W:W10:B2,5"),
    Expand(TAKEN),
    Expand("B:W9:B1,2"),
    Expand("W:W9:B2,5"),
    Search(TAKEN, 1),
    Search("B:W7:B2,5", 1),
];

#[test]
fn joins_one_position_at_two_ranks(rt: HostRuntime) -> Result<(), Fail> {
    let grown = (
        nodes(rt.alloc(), &TWICE[..7])?.0,
        nodes(rt.alloc(), &TWICE)?.0,
    );
    assert_eq!(rt; grown, (15, 15));
    assert_eq!(rt;
        claimed(rt.alloc(), &TWICE, 1)?,
        Some(Claim::Win(Side::Black))
    );
    assert_eq!(rt; ranked(rt.alloc(), &TWICE, TAKEN)?, Some(1));
    Ok(())
}
