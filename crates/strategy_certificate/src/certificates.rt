//! Certificates: a position, a claim, and the strategies that show it.
use crate::claims::Claim;
use crate::hold_parts::HoldPart;
use crate::win_parts::WinPart;
use draughts_board::Position;
use shared_words::ItemList;

/// One strategy of a certificate.
#[derive(Drop)]
pub enum Part {
    /// By this the side wins.
    Win(WinPart),
    /// By this the side never loses.
    Hold(HoldPart),
}

impl Part {
    ghost use Rattle.std.specs.Prelude.{◌≡◌};
    ghost use Rattle.strategy_certificate.specs.Certificates.{claim_of};

    /// What the part shows where it is good: that its side wins, or that it holds.
    pub fn claim(&self) -> Claim
        ensures { result ≡ claim_of self.now }
    {
        match self {
            Part::Win(part) => Claim::Win(part.side()),
            Part::Hold(part) => Claim::Hold(part.side()),
        }
    }
}

/// The parts of a certificate, in order.
pub type PartList = ItemList<Part>;

/// A claim about a position, and what is to show it.
///
/// Whether it is good, and so its claim true, is a matter of its parts and of the endgame table of
/// `pieces` pieces.
#[derive(Drop)]
pub struct Certificate {
    pub position: Position,
    pub claim: Claim,
    /// The number of pieces of the endgame table that the parts lean on.
    pub pieces: u8,
    pub parts: PartList,
}
