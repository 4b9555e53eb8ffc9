//! The calls that a disk in memory has had.

/// A call that was Ok.
#[derive(Drop)]
pub enum Call {
    /// It read, or asked for the length.
    Look,
    Sync,
    /// It wrote these bytes from this place on.
    Write { at: u64, bytes: Vec<u8> },
}
