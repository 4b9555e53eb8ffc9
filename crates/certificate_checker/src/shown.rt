//! The least rank that is shown of a position, by a part or by the table.
ghost use Rattle.std.specs.Prelude.{◌≡◌, ◌↔◌, ℕ};
ghost use Rattle.strategy_certificate.specs.Certificates.{HasRank, IsReached};
ghost use Rattle.certificate_checker.specs.Ranks.{IsLeast, lesser_of};

use draughts_board::Position;
use strategy_certificate::{Oracle, WinPart, table_rank};

/// The rank that the part has for a position.
fn kept_rank(part: &WinPart, q: &Position) -> Option<u64>
    ensures { (r : ℕ) → (result ≡ Some r) ↔ HasRank part.now r q.now }
{
    match part.find(q) {
        Some(entry) => Some(entry.rank),
        None => None,
    }
}

/// The lesser of two ranks, where either may be missing.
fn lesser(a: Option<u64>, b: Option<u64>) -> Option<u64>
    ensures { result ≡ lesser_of a b }
{
    match (a, b) {
        (Some(x), Some(y)) => Some(x.min(y)),
        (Some(x), None) => Some(x),
        (None, y) => y,
    }
}

/// The least rank of a position, in the part or by the table.
pub(crate) fn least_rank<O: Oracle>(part: &WinPart, oracle: &O, q: &Position) -> Option<u64>
    ensures { IsLeast (λ r. IsReached part.now (O.answer_at oracle.now) r q.now) result }
{
    lesser(kept_rank(part, q), table_rank(oracle, part.side(), q))
}
