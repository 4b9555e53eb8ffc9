//! The frame of what is staged.
ghost use Rattle.std.specs.Prelude.{◌≡◌, ◌+◌, ◌-◌, ◌≤◌, ◌<◌, ◌^◌, [], ◌∷◌, ◌++◌, ℕ, List, length, drop, vec_capacity, vec_len, IfOk, OnErr, OnOk};
ghost use Rattle.disk_journal.specs.Format.{IsFrame, IsPayload, body_length};
ghost use Rattle.disk_journal.specs.Gate.{gate_text};

use std::alloc::{AllocError, Global};
use std::marker::Model;

/// The bytes of a body's length field, and of a payload's.
const BODY_FIELD: usize = 8;

const PAYLOAD_FIELD: usize = 4;

/// The frame of the payloads that are staged, and the next gate behind it, ready to be written
/// behind a gate.
#[derive(Drop)]
pub struct Frame {
    // The length of the body, the body, and a closed gate.
    text: Vec<u8>,
    // The lengths of the payloads, in order.
    lengths: Vec<usize>,
}

impl Model for Frame {
    ghost use Rattle.std.specs.Prelude.{ℕ, List};
    ghost use Rattle.disk_journal.specs.Frame.{IsReady, staged_in};

    ghost Value = { List (List ℕ) };

    ghost view = { λ frame. staged_in frame.lengths.items frame.text.items };

    ghost invariant = { λ frame. IsReady frame.lengths.items frame.text.items };
}

/// Writes the length of a body into the field before it.
#[tactic(auto, unfolding(crate::specs::Format::body_length))]
fn set_length(text: &mut [u8], body: u64)
    requires { 8 ≤ length text.old }
    ensures { text.new ≡ body_length body ++ drop 8 text.old }
{
    text[..BODY_FIELD].copy_from_slice(&body.to_be_bytes());
}

/// Writes the length of the body into its field, and a closed gate behind the body.
fn seal(text: &mut Vec<u8>)
    requires field { 8 ≤ vec_len text.old }
    requires room { vec_len text.old < vec_capacity text.old }
    ensures text { text.new.items ≡ body_length (length text.old.items - 8) ++ drop 8 text.old.items
        ++ 0 ∷ [] }
    ensures capacity { vec_capacity text.new ≡ vec_capacity text.old }
{
    let body = (text.len() - BODY_FIELD) as u64;
    set_length(text, body);
    text.push_reserved(0);
}

/// Puts a payload with its length behind those of a text. There is room for it.
#[tactic(auto, unfolding(crate::specs::Format::payload_length))]
fn append(text: &mut Vec<u8>, payload: &[u8])
    requires fits { length payload.now < 2 ^ 32 }
    requires sealed { 9 ≤ vec_len text.old }
    requires room { vec_len text.old + 4 + length payload.now ≤ vec_capacity text.old }
    ensures { (payloads : List (List ℕ)) → text.old.items ≡ gate_text payloads →
        text.new.items ≡ gate_text (payloads ++ payload.now ∷ []) }
{
    let _ = text.pop();
    let _ = text.extend_from_slice(&(payload.len() as u32).to_be_bytes());
    let _ = text.extend_from_slice(payload);
    seal(text);
}

/// Drops the last payload of a text, which has this length.
fn cut(text: &mut Vec<u8>, size: usize)
    requires { 13 + size ≤ vec_len text.old }
    ensures { (payloads : List (List ℕ)) (last : List ℕ) → size ≡ length last →
        text.old.items ≡ gate_text (payloads ++ last ∷ []) → text.new.items ≡ gate_text payloads }
{
    text.truncate(text.len() - 1 - PAYLOAD_FIELD - size);
    seal(text);
}

impl Frame {
    /// The frame of no payload.
    #[tactic(auto, unfolding(crate::specs::Format::body_length))]
    pub fn new(alloc: Global) -> Result<Frame, AllocError>
        ensures { IfOk result (λ frame. frame ≡ []) }
    {
        let mut text = Vec::new(alloc);
        text.resize(BODY_FIELD + 1, 0)?;
        Ok(Frame {
            text,
            lengths: Vec::new(alloc),
        })
    }

    /// Adds a payload behind the others. All memory that is needed until the frame is written is
    /// taken here.
    pub fn push(&mut self, payload: &[u8]) -> Result<(), AllocError>
        requires { IsPayload payload.now }
        ensures ok { OnOk result (self.new ≡ self.old ++ payload.now ∷ []) }
        ensures err { OnErr result (self.new ≡ self.old) }
    {
        self.lengths.reserve(1)?;
        self.text.reserve(PAYLOAD_FIELD + payload.len())?;
        append(&mut self.text, payload);
        self.lengths.push_reserved(payload.len());
        Ok(())
    }

    /// Drops the payload that was added last.
    pub fn pop(&mut self)
        requires { 0 < length self.old }
        ensures { (last : List ℕ) × (self.old ≡ self.new ++ last ∷ []) }
    {
        if let Some(size) = self.lengths.pop() {
            cut(&mut self.text, size);
        }
    }

    /// Drops all payloads, and keeps the room.
    #[tactic(auto, unfolding(crate::specs::Format::body_length))]
    pub fn clear(&mut self)
        ensures { self.new ≡ [] }
    {
        self.lengths.clear();
        self.text.truncate(BODY_FIELD);
        seal(&mut self.text);
    }

    /// How many payloads it has.
    pub fn len(&self) -> usize
        ensures { result ≡ length self.now }
    {
        self.lengths.len()
    }

    /// What is to be written behind the gate: the frame, and the next gate, closed.
    pub fn text(&self) -> &[u8]
        ensures text { result.now ≡ gate_text self.now }
        ensures frame { 0 < length self.now → IsFrame self.now }
    {
        &self.text
    }
}
