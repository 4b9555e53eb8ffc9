//! Reading the body of a frame.
ghost use Rattle.std.specs.Prelude.{◌≡◌, ◌+◌, ◌<◌, ◌≤◌, ◌^◌, ◌++◌, All, List, ℕ, length, map, IfOk, MatchBool};
ghost use Rattle.disk_journal.specs.Format.{IsPayload, body, places_in_body};
ghost use Rattle.disk_journal.specs.Refusals.{IsNoBody};

use crate::payload::Payload;
use shared_words::split_u32;
use std::alloc::{AllocError, Global};

/// Adds the payloads of a body, which stands at that place, and tells whether it is exactly filled
/// by them.
pub fn read_body(
    alloc: Global,
    bytes: &[u8],
    at: u64,
    payloads: &mut Vec<Payload>,
) -> Result<bool, AllocError>
    requires { at + length bytes.now ≤ 2 ^ 62 }
    ensures { IfOk result (λ whole. MatchBool whole
        ((found : List (List ℕ)) × All IsPayload found × (bytes.now ≡ body found)
        × (map (λ p. p.bytes.items) payloads.new.items ≡ map (λ p. p.bytes.items) payloads.old.items
        ++ found)
        × (map (λ p. p.at) payloads.new.items ≡ map (λ p. p.at) payloads.old.items ++ places_in_body
        at found))
        (IsNoBody bytes.now)) }
{
    let mut rest = bytes;
    let mut place = at;
    while !rest.is_empty() {
        let Some((len, behind)) = split_u32(rest) else {
            return Ok(false);
        };
        let len = len as usize;
        if len == 0 || behind.len() < len {
            return Ok(false);
        }
        let (payload, more) = behind.split_at(len);
        let bytes = payload.to_vec(alloc)?;
        payloads.push(Payload { at: place, bytes })?;
        place += 4 + len as u64;
        rest = more;
    }
    Ok(true)
}
