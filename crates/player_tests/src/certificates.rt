//! The certificates that are played by.
ghost use Rattle.std.specs.Prelude.{◌≡◌, IfSome};
ghost use Rattle.std.specs.Result.{IfOk as OnFine};

use certificate_checker::{Proved, check};
use certificate_text::read_certificate;
use endgame_table::Table;
use std::alloc::Global;
use std::test::Fail;
use strategy_certificate::Oracle;

/// Black wins by 13-17 and then by a step or a jump.
pub(crate) const WON: &str =
    "certificate 1\ntable 2\nposition B:W25:B10,13\nclaim black-wins\nwin black 6
B:W25:B10,13 3 13-17\nW:W25:B10,17 2\nB:W21:B10,17 1 10-14\nW:W21:B14,17 0
B:W22:B10,17 1 17x26\nW:W:B10,26 0\nend\n";

/// A draw: Black has to take the king on 19, and then has a king against a king.
pub(crate) const DRAWN: &str = "certificate 1\ntable 2\nposition B:WK1,K19:BK15\nclaim draw
hold black 1\nB:WK1,K19:BK15 15x24\nhold white 1\nB:WK1,K19:BK15\nend\n";

/// The certificate of this text, as the checker accepted it; none where it is for another table.
pub(crate) fn accepted(alloc: Global, text: &str, table: &Table) -> Result<Option<Proved>, Fail>
    ensures { OnFine result (λ found. IfSome found (λ proved. proved.pieces ≡ table.now.pieces)) }
{
    let certificate = read_certificate(alloc, text.as_bytes())?;
    if certificate.pieces != table.pieces() {
        return Ok(None);
    }
    let proved = check(alloc, certificate, table).map_err(|refused| refused.1)?;
    Ok(Some(proved))
}
