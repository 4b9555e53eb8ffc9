//! What stands where a gate is due.
ghost use Rattle.std.specs.Prelude.{◌≡◌, ◌+◌, ◌≤◌, ◌<◌, ◌^◌, ◌∷◌, List, ℕ, length, take, IfNone, IfSome};
ghost use Rattle.disk_journal.specs.Format.{IsPieceCount, body_length, file_head};

use shared_words::split_u64;

/// What stands where a gate is due.
#[derive(Clone, Copy)]
pub enum Gate {
    Closed,
    /// The file ends, or the gate is open and no whole body stands behind it.
    Broken,
    /// An open gate, and behind it the body of a frame, of this number of bytes.
    Open(u64),
}

/// The pieces of the tables that these first 8 bytes of a file are a journal's head for.
pub fn pieces_of(start: &[u8]) -> Option<u8>
    ensures some { IfSome result (λ pieces. IsPieceCount pieces × (start.now ≡ file_head pieces)) }
    ensures none { IfNone result ((pieces : ℕ) → IsPieceCount pieces
        → ¬ (start.now ≡ file_head pieces)) }
{
    let [b'D', b'R', b'B', b'E', b'N', b'C', b'H', pieces] = start else {
        return None;
    };
    if *pieces == 2 || *pieces == 3 {
        Some(*pieces)
    } else {
        None
    }
}

impl Gate {
    ghost use Rattle.disk_journal.specs.Rest.{BeginsGate, IsGateWithin};

    /// What stands there, by the first 9 bytes from the gate on, or all where there are fewer, and
    /// the count of all.
    pub fn of(start: &[u8], left: u64) -> Gate
        ensures begins { (rest : List ℕ) → start.now ≡ take 9 rest → left ≡ length rest →
            BeginsGate rest result }
        ensures within { IsGateWithin left result }
    {
        if start.is_empty() || left == 0 {
            return Gate::Broken;
        }
        if start[0] != 1 {
            return Gate::Closed;
        }
        if left < 9 {
            return Gate::Broken;
        }
        let (_, field) = start.split_at(1);
        let Some((len, _)) = split_u64(field) else {
            return Gate::Broken;
        };
        if len == 0 || len > left - 9 {
            return Gate::Broken;
        }
        Gate::Open(len)
    }
}
