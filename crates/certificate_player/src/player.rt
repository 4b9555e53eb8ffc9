//! The player.
ghost use Rattle.std.specs.Prelude.{◌≡◌, ◌↔◌, IsTrue, Some, map};
ghost use Rattle.strategy_certificate.specs.Certificates.{claim_of, due_claims};
ghost use Rattle.strategy_certificate.specs.Claims.{TellsHold};
ghost use Rattle.certificate_player.specs.Plays.{own_part};
ghost use Rattle.certificate_player.specs.Sides.{side_of};

use crate::moves::chosen_move;
use crate::ranks::{first_rank, next_rank};
use certificate_checker::Proved;
use draughts_board::{Move, Position, ResolveRefusal, Side, Square};
use std::alloc::{AllocError, Global};
use std::marker::Model;
use strategy_certificate::{Certificate, Claim, Oracle, Part};
use swift_moves::{apply, resolve};

/// A player of one side, which follows a certificate.
///
/// A contract sees the certificate, the side, the positions of the play behind the certificate's,
/// and the rank. At every moment the side holds the position; where a rank is kept, the side wins
/// within that many plies.
#[derive(Drop)]
pub struct Player {
    alloc: Global,
    proved: Proved,
    side: Side,
    // The positions of the play behind the certificate's, in order.
    later: Vec<Position>,
    rank: Option<u64>,
}

impl Model for Player {
    ghost use Rattle.certificate_player.specs.Plays.{IsPlay, Play};

    ghost Value = { Play };

    ghost view = { λ player. record {
      certificate = player.proved;
      side = player.side;
      later = player.later.items;
      rank = player.rank;
    } };

    ghost invariant = { λ player. IsPlay (record {
      certificate = player.proved;
      side = player.side;
      later = player.later.items;
      rank = player.rank;
    }) };
}

/// The claim says or implies that the side holds.
fn tells_hold(claim: Claim, side: Side) -> bool
    ensures { IsTrue result ↔ TellsHold side claim }
{
    match claim {
        Claim::Win(winner) => winner == side,
        Claim::Hold(holder) => holder == side,
        Claim::Draw => true,
    }
}

/// The side's part of a certificate: of a draw Black's part is the first.
pub fn own_part(certificate: &Certificate, side: Side) -> &Part
    requires due { map claim_of certificate.now.parts ≡ due_claims certificate.now.claim }
    requires own { TellsHold side certificate.now.claim }
    ensures part { own_part certificate.now side ≡ Some result.now }
    ensures side { side_of result.now ≡ side }
{
    let place = if certificate.claim == Claim::Draw && side == Side::White {
        1
    } else {
        0
    };
    &certificate.parts.as_slice()[place]
}

impl Player {
    ghost use Rattle.std.specs.Prelude.{◌≡◌, ◌↔◌, ℕ, List, Err, IfErr, IfOk, OnErr, OnOk};
    ghost use Rattle.std.specs.Bool.{OnFalse};
    ghost use Rattle.draughts_board.specs.Board.{other};
    ghost use Rattle.draughts_board.specs.Resolution.{matches, meaning, resolve_wants_memory};
    ghost use Rattle.strategy_certificate.specs.Claims.{TellsHold};
    ghost use Rattle.certificate_player.specs.Choices.{Begins, GoesOn, Makes};
    ghost use Rattle.certificate_player.specs.Plays.{IsPlay, RankFalls, here};

    /// A player of the side, at the certificate's position.
    ///
    /// The certificate comes back exactly where it claims the other side's win, or the other side's
    /// hold alone.
    pub fn new<O: Oracle>(
        alloc: Global,
        proved: Proved,
        side: Side,
        oracle: &O,
    ) -> Result<Player, Proved>
        requires { proved.pieces ≡ O.piece_limit oracle.now }
        ensures begins { IfOk result (Begins (O.answer_at oracle.now) proved side) }
        ensures own { OnOk result (TellsHold side proved.claim) }
        ensures back { IfErr result (λ back. back ≡ proved) }
        ensures other { OnErr result (TellsHold side proved.claim → ⊥) }
        ensures valid { IfOk result IsPlay }
    {
        let certificate = proved.certificate();
        if !tells_hold(certificate.claim, side) {
            return Err(proved);
        }
        let pieces = oracle.pieces();
        prove!(certificate.pieces == pieces);
        let part = own_part(certificate, side);
        let rank = first_rank(part, oracle, &certificate.position);
        Ok(Player {
            alloc,
            proved,
            side,
            later: Vec::new(alloc),
            rank,
        })
    }

    /// Where the play stands.
    pub fn position(&self) -> Position
        ensures value { result ≡ here self.now }
        ensures valid { IsPlay self.now }
    {
        match self.later.last() {
            Some(p) => *p,
            None => self.proved.certificate().position,
        }
    }

    /// The side that it plays.
    pub fn side(&self) -> Side
        ensures value { result ≡ self.now.side }
        ensures valid { IsPlay self.now }
    {
        self.side
    }

    /// Within how many plies its side wins; none exactly where the certificate does not claim that.
    pub fn rank(&self) -> Option<u64>
        ensures value { result ≡ self.now.rank }
        ensures valid { IsPlay self.now }
    {
        self.rank
    }

    /// Makes its side's move, and gives it. There always is one.
    ///
    /// It is the move of the position's entry, if it has one whose rank is not above the kept one,
    /// and else one by the table. After want of memory the player is as it was.
    pub fn choose<O: Oracle>(&mut self, oracle: &O) -> Result<Move, AllocError>
        requires turn { (here self.old).to_move ≡ self.old.side }
        requires pieces { self.old.certificate.pieces ≡ O.piece_limit oracle.now }
        ensures makes { IfOk result (Makes (O.answer_at oracle.now) self.old self.new) }
        ensures falls { OnOk result (RankFalls self.old.rank self.new.rank) }
        ensures err { OnErr result (self.new ≡ self.old) }
        ensures valid { IsPlay self.new }
    {
        self.later.reserve(1)?;
        let p = self.position();
        let (mover, pieces) = (p.to_move(), oracle.pieces());
        prove!(mover == self.side);
        prove!(self.proved.certificate().pieces == pieces);
        let part = own_part(self.proved.certificate(), self.side);
        let path = chosen_move(self.alloc, part, oracle, &p, self.rank)?;
        let next = apply(&p, &path);
        self.rank = next_rank(part, oracle, &next, self.rank);
        self.later.push_reserved(next);
        Ok(path)
    }

    /// Takes the other side's move, which is written with these squares.
    ///
    /// It is refused as `Illegal` and as `Ambiguous` exactly where [`resolve`] refuses it so. After
    /// a refusal the player is as it was.
    pub fn hear<O: Oracle>(
        &mut self,
        from: Square,
        middle: &[Square],
        to: Square,
        oracle: &O,
    ) -> Result<(), ResolveRefusal>
        requires turn { (here self.old).to_move ≡ other self.old.side }
        requires pieces { self.old.certificate.pieces ≡ O.piece_limit oracle.now }
        ensures heard { OnOk result ((path : List ℕ)
            × ((meaning (here self.old) (matches (here self.old) from middle.now to) ≡ Ok path)
            × GoesOn (O.answer_at oracle.now) self.old self.new path)) }
        ensures refused { IfErr result (λ cause. OnFalse (resolve_wants_memory cause)
            (meaning (here self.old) (matches (here self.old) from middle.now to) ≡ Err cause)) }
        ensures falls { OnOk result (RankFalls self.old.rank self.new.rank) }
        ensures err { OnErr result (self.new ≡ self.old) }
        ensures valid { IsPlay self.new }
    {
        self.later.reserve(1).map_err(ResolveRefusal::Memory)?;
        let p = self.position();
        let (mover, pieces) = (p.to_move(), oracle.pieces());
        prove!(mover != self.side);
        prove!(self.proved.certificate().pieces == pieces);
        let path = resolve(self.alloc, &p, from, middle, to)?;
        let next = apply(&p, &path);
        let part = own_part(self.proved.certificate(), self.side);
        self.rank = next_rank(part, oracle, &next, self.rank);
        self.later.push_reserved(next);
        Ok(())
    }
}
