//! What a certificate teaches a journal, by the forest of its records.
ghost use Rattle.std.specs.Prelude.{◌≡◌, ◌≤◌, ◌-◌, IfSome, length, slice_get};
ghost use Rattle.proof_tree.specs.Forest.{nodes};
ghost use Rattle.proof_tree.specs.Sound.{IsSoundForest};
ghost use Rattle.journal_lessons.specs.Lessons.{covers, lesson_of, taught_by};

use certificate_checker::told;
use leaf_search::is_undecided;
use proof_tree::{MOST_ROOTS, Mark, Tree};
use strategy_certificate::{Certificate, Claim, Oracle};

/// What is to be done with a journal for a certificate. Roots are counted from 1, and nodes from 0.
#[derive(Clone, Copy, PartialEq, Eq, Debug)]
pub enum Lesson {
    /// Nothing: the root of this number, which has the position, is settled, or has all facts of the
    /// claim as its own.
    Known(u32),
    /// The root of this number is solved, which is this node.
    Solves(u32, u64),
    /// A root of the position begins, and gets this number. It is decided at sight.
    Begins(u32),
    /// A root of the position begins, and gets this number; its node, which gets the second one, is
    /// solved.
    BeginsAndSolves(u32, u64),
    /// It is refused: the root of this number is expanded.
    RootExpanded(u32),
    /// It is refused: no room for one root more is left.
    TooManyRoots,
}

/// The root, counted from 1, is settled, or has all facts of the claim as its own.
fn covers(tree: &Tree, root: u32, claim: Claim) -> bool
    requires first { 1 ≤ root }
    requires there { root ≤ length (nodes tree.now.forest) }
    ensures covers { IfSome (slice_get (nodes tree.now.forest) (root - 1)) (λ x.
        result ≡ covers x claim) }
    ensures sound { IsSoundForest tree.now.forest }
{
    let value = tree.settled(root);
    let facts = tree.facts(tree.root_node(root));
    let is_told = facts.includes(&told(claim));
    match value {
        Some(_) => true,
        None => is_told,
    }
}

/// What is to be done where the position is a root, counted from 1.
fn lesson_on(tree: &Tree, root: u32, claim: Claim) -> Lesson
    requires first { 1 ≤ root }
    requires there { root ≤ length (nodes tree.now.forest) }
    ensures lesson { IfSome (slice_get (nodes tree.now.forest) (root - 1)) (λ x.
        result ≡ taught_by root x claim) }
    ensures sound { IsSoundForest tree.now.forest }
{
    let is_covered = covers(tree, root, claim);
    let node = tree.root_node(root);
    let mark = tree.mark(node);
    if is_covered {
        return Lesson::Known(root);
    }
    match mark {
        Mark::Expanded => Lesson::RootExpanded(root),
        Mark::Unexpanded => Lesson::Solves(root, node.number()),
        Mark::Repeats => Lesson::Solves(root, node.number()),
    }
}

/// What is to be done for a certificate, by the tree of the journal's records and the table that the
/// certificate names.
pub fn lesson_for<O: Oracle>(tree: &Tree, c: &Certificate, oracle: &O) -> Lesson
    requires { O.piece_limit oracle.now ≡ c.now.pieces }
    ensures { result ≡ lesson_of c.now.pieces tree.now.forest c.now }
{
    if let Some(root) = tree.find_root(&c.position) {
        return lesson_on(tree, root, c.claim);
    }
    if tree.roots() as usize >= MOST_ROOTS {
        return Lesson::TooManyRoots;
    }
    if !is_undecided(&c.position, oracle) {
        return Lesson::Begins(tree.roots() + 1);
    }
    Lesson::BeginsAndSolves(tree.roots() + 1, tree.len() as u64)
}
