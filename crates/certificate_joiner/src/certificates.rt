//! One certificate for a settled root.
ghost use Rattle.std.specs.Prelude.{◌≡◌, ◌≤◌, ◌-◌, ◌^◌, [], length, slice_get, IfOk, IfSome, IsSome};
ghost use Rattle.draughts_board.specs.declared.pieces.Side.TheVariants.{Black, White};
ghost use Rattle.strategy_certificate.specs.declared.claims.Claim.TheVariants as claims;
ghost use Rattle.strategy_certificate.specs.Certificates.{IsGoodPart, claim_of};
ghost use Rattle.proof_tree.specs.Forest.{nodes, value_of};
ghost use Rattle.proof_tree.specs.Sound.{IsTreeState};
ghost use Rattle.certificate_joiner.specs.declared.steps.Aim.TheVariants as aim;
ghost use Rattle.certificate_joiner.specs.Certified.{IsJoined, claim_for};
ghost use Rattle.certificate_joiner.specs.Laws.{AreCertified};
ghost use Rattle.certificate_joiner.specs.Steps.{ByEachTable};
ghost use Rattle.certificate_joiner.specs.Strategy.{IsDueNode, named, claim_sought, IsNamed};

use crate::collecting::collect;
use crate::joining::{join_holds, join_wins};
use crate::shelf::PartShelf;
use crate::steps::{Aim, Quest};
use draughts_board::{Side, Value};
use proof_tree::{NodeId, Tree};
use std::alloc::{AllocError, Global};
use strategy_certificate::{Certificate, Claim, Part, PartList};

/// The part by which the side of the quest wins, or holds, the position of a node.
fn part_for(
    alloc: Global,
    tree: &Tree,
    shelf: &PartShelf,
    n: NodeId,
    quest: Quest,
) -> Result<Part, AllocError>
    requires pieces { quest.pieces ≤ 3 }
    requires valid { IsTreeState tree.now }
    requires there { IsNamed tree.now.forest n }
    requires due { IsDueNode quest.pieces shelf.now.puts quest.aim quest.side []
        (named tree.now.forest n) }
    ensures claim { IfOk result (λ one. claim_of one ≡ claim_sought quest.aim quest.side) }
    ensures good { IfOk result (λ one. ByEachTable quest.pieces (λ answer.
        IsGoodPart answer (named tree.now.forest n).own.position one)) }
{
    let Quest { aim, side, pieces } = quest;
    let strategy = collect(alloc, tree, n, quest)?;
    let nodes = strategy.as_slice();
    match aim {
        Aim::Win => {
            let wins = join_wins(alloc, tree, shelf, nodes, side, pieces)?;
            Ok(Part::Win(wins))
        }
        Aim::Hold => {
            let holds = join_holds(alloc, tree, shelf, nodes, side, pieces)?;
            Ok(Part::Hold(holds))
        }
    }
}

/// The certificate of a win.
fn win_certificate(
    alloc: Global,
    tree: &Tree,
    shelf: &PartShelf,
    n: NodeId,
    side: Side,
    pieces: u8,
) -> Result<Certificate, AllocError>
    requires pieces { pieces ≤ 3 }
    requires valid { IsTreeState tree.now }
    requires there { IsNamed tree.now.forest n }
    requires due { IsDueNode pieces shelf.now.puts aim.Win side [] (named tree.now.forest n) }
    ensures { IfOk result
        (IsJoined pieces (named tree.now.forest n).own.position (claims.Win side)) }
{
    let quest = Quest {
        aim: Aim::Win,
        side,
        pieces,
    };
    let mut parts = Vec::new(alloc);
    parts.push(part_for(alloc, tree, shelf, n, quest)?)?;
    Ok(Certificate {
        position: tree.position(n),
        claim: Claim::Win(side),
        pieces,
        parts: PartList::from_vec(parts),
    })
}

/// The certificate of a draw: Black's hold, and then White's.
fn draw_certificate(
    alloc: Global,
    tree: &Tree,
    shelf: &PartShelf,
    n: NodeId,
    pieces: u8,
) -> Result<Certificate, AllocError>
    requires pieces { pieces ≤ 3 }
    requires valid { IsTreeState tree.now }
    requires there { IsNamed tree.now.forest n }
    requires black { IsDueNode pieces shelf.now.puts aim.Hold Black [] (named tree.now.forest n) }
    requires white { IsDueNode pieces shelf.now.puts aim.Hold White [] (named tree.now.forest n) }
    ensures { IfOk result (IsJoined pieces (named tree.now.forest n).own.position claims.Draw) }
{
    let aim = Aim::Hold;
    let black = Quest {
        aim,
        side: Side::Black,
        pieces,
    };
    let white = Quest {
        side: Side::White,
        ..black
    };
    let mut parts = Vec::new(alloc);
    parts.push(part_for(alloc, tree, shelf, n, black)?)?;
    parts.push(part_for(alloc, tree, shelf, n, white)?)?;
    Ok(Certificate {
        position: tree.position(n),
        claim: Claim::Draw,
        pieces,
        parts: PartList::from_vec(parts),
    })
}

/// One certificate of a settled root, counted from 1, that claims its value, for tables of `pieces` pieces.
///
/// The caller knows that every fact of the tree is certified: seen at sight, or claimed or implied by a certificate that
/// stands on the shelf for its node. Memory and time go by the strategy that is found, and not by the tree. It fails
/// only for want of memory.
pub fn join(
    alloc: Global,
    tree: &Tree,
    shelf: &PartShelf,
    root: u32,
    pieces: u8,
) -> Result<Certificate, AllocError>
    requires pieces { pieces ≤ 3 }
    requires first { 1 ≤ root }
    requires there { root ≤ length (nodes tree.now.forest) }
    requires settled { IfSome (slice_get (nodes tree.now.forest) (root - 1)) (λ x.
        IsSome (value_of x)) }
    requires certified { AreCertified pieces shelf.now.puts tree.now.forest }
    ensures { IfOk result (λ c. IfSome (slice_get (nodes tree.now.forest) (root - 1)) (λ x.
        IfSome (value_of x) (λ v. IsJoined pieces x.own.position (claim_for v) c))) }
{
    let n = tree.root_node(root);
    match tree.settled(root) {
        Some(Value::BlackWins) => win_certificate(alloc, tree, shelf, n, Side::Black, pieces),
        Some(Value::WhiteWins) => win_certificate(alloc, tree, shelf, n, Side::White, pieces),
        Some(Value::Draw) => draw_certificate(alloc, tree, shelf, n, pieces),
        None => unreachable!(),
    }
}
