//! A list that only proofs read. It takes no memory, and its methods do nothing at run time.
ghost use Rattle.std.specs.Prelude.{◌≡◌, List, [], ◌∷◌, ◌++◌};
ghost use Rattle.std.specs.Borrow.{ftrue};

use std::marker::{Model, PhantomData};

/// What was noted, in order. A clause reads it as `items`; no byte of it is kept.
#[derive(Drop)]
pub struct Trace<T> {
    of: PhantomData<T>,
    pub ghost items: { List T },
}

impl<T> Model for Trace<T> {
    ghost also_owns = { λ _. ftrue };
}

// It owns nothing.
unsafe impl<T: Send> Send for Trace<T> {}

impl<T> Trace<T> {
    /// Nothing yet.
    pub fn new() -> Trace<T>
        ensures { result.items ≡ [] }
    {
        Trace { of: PhantomData }
    }

    /// What was noted before, and this behind it.
    pub fn with(&self, item: &T) -> Trace<T>
        ensures { result.items ≡ self.now.items ++ item.now ∷ [] }
    {
        Trace { of: PhantomData }
    }
}
