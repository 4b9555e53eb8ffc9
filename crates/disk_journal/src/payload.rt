//! A payload, as it was read from a disk.

/// A payload, and the place of its length field on the disk, counted from 0.
#[derive(Debug, Drop)]
pub struct Payload {
    pub at: u64,
    pub bytes: Vec<u8>,
}
