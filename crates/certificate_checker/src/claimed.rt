//! What certificates tell of their position.
ghost use Rattle.std.specs.Prelude.{◌≡◌, All};
ghost use Rattle.draughts_board.specs.Board.{Board};
ghost use Rattle.proof_numbers.specs.Facts.{known};
ghost use Rattle.strategy_certificate.specs.Certificates.{IsGood};
ghost use Rattle.certificate_checker.specs.Told.{facts_claimed, facts_shown};

use crate::checking::Proved;
use draughts_board::Value;
use proof_numbers::Facts;
use strategy_certificate::Claim;

/// What a claim says or implies of its position.
pub fn told(claim: Claim) -> Facts
    ensures { known result ≡ facts_claimed claim }
{
    match claim {
        Claim::Win(side) => Facts::of_win(side),
        Claim::Hold(side) => Facts::of_hold(side),
        Claim::Draw => Facts::of_value(Value::Draw),
    }
}

/// What certificates of one position together claim or imply. They are good, so this is true of
/// it.
pub fn told_by_all(proofs: &[Proved]) -> Facts
    requires { (p : Board) × All (λ c. c.position ≡ p) proofs.now }
    ensures told { known result ≡ facts_shown proofs.now }
    ensures good { All IsGood proofs.now }
{
    let mut facts = Facts::none();
    let mut at = proofs.len();
    while at > 0 {
        at -= 1;
        facts = told(proofs[at].certificate().claim).joined(&facts);
    }
    facts
}
