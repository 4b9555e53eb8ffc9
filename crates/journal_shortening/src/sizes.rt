//! How long two journals are.

/// How many roots both journals have, how many records the old one has, and how many the new one.
#[derive(Clone, Copy, Debug, PartialEq, Eq)]
pub struct Sizes {
    pub roots: u32,
    pub before: u64,
    pub after: u64,
}
