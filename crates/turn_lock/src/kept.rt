//! What a value under the lock offers.
ghost use Rattle.std.specs.Prelude.{◌≡◌, ℕ, List, length};

/// A value that stands for a list of entries, its history.
pub trait Kept {
    /// Plain data. No value of it need be made: it is what contracts speak of.
    type Entry;

    // The entries that the value stands for, the oldest first.
    ghost entries: { Self → List Self.Entry };

    // Whether a turn may add this entry.
    ghost may_add: { Self.Entry → Type 0 };

    /// The number of entries, with which the lock's count word begins.
    fn count(&self) -> u64
        ensures { result ≡ length (entries self.now) };
}
