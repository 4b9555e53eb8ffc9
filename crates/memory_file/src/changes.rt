//! What a file keeps of its past.

/// What a call did to what a crash may leave.
#[derive(Drop)]
pub enum Change {
    /// These bytes were written from this place on.
    Wrote { at: u64, bytes: Vec<u8> },
    /// All bytes were made to outlast a crash.
    Synced,
}

/// A change, and the moment in which it came.
#[derive(Drop)]
pub struct Step {
    pub moment: u64,
    pub change: Change,
}
