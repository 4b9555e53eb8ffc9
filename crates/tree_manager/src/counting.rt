//! How many roots there are, and how many of them are settled.
use proof_tree::Tree;

/// How many roots there are, and how many of them are settled.
#[derive(Clone, Copy, PartialEq, Eq, Debug)]
pub struct RootCounts {
    /// How many there are.
    pub all: u32,
    /// How many of them have a value.
    pub settled: u32,
}

impl RootCounts {
    ghost use Rattle.tree_manager.specs.Turns.{AreRootCounts};

    /// Those of a tree. It looks at each root once.
    pub fn of(tree: &Tree) -> RootCounts
        ensures { AreRootCounts result tree.now.forest }
    {
        let all = tree.roots();
        let mut settled = 0;
        for place in 0..all {
            if tree.settled(place + 1).is_some() {
                settled += 1;
            }
        }
        RootCounts { all, settled }
    }
}
