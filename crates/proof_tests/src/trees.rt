//! The start and its first moves, a repetition and facts, worked out by hand, and trees of 300
//! expansions beside a plain fold that the tests write down by themselves.
ghost use Rattle.std.specs.Prelude.{◌≡◌, ◌<◌, IsSomeAnd};
ghost use Rattle.proof_tree.specs.Forest.{node_at};

use draughts_board::{Position, Side, Value};
use fen_text::read_fen;
use proof_numbers::{Child, Facts, Number, Numbers};
use proof_tree::{Free, Mark, NodeId, Taken, Tree, unknown_child, unknown_children};
use std::alloc::{AllocError, Global};
use std::test::Fail;

mod plain;

use plain::{Dice, PlainTree};

/// Each node whose number leaves this rest when divided by 3 is taken.
#[derive(Clone, Copy)]
struct Third {
    rest: u64,
}

impl Taken for Third {
    ghost use Rattle.std.specs.Prelude.{◌%◌, ◌==◌};

    ghost taken = { λ s n. n % 3 == s.rest };

    fn is_taken(&self, n: NodeId) -> bool {
        n.number() % 3 == self.rest
    }
}

/// Expands a leaf.
fn grow(alloc: Global, tree: &mut Tree, n: NodeId) -> Result<Vec<Child>, AllocError>
    requires { IsSomeAnd (node_at n tree.old.forest) (λ x. x.own.mark ≡ Mark.Unexpanded) }
{
    let children = unknown_children(alloc, &tree.position(n))?;
    tree.reserve(children.len())?;
    tree.expand(n, &children);
    Ok(children)
}

/// Expands the leaf with this number, and gives its children; none where there is no such leaf.
pub(crate) fn grow_at(
    alloc: Global,
    tree: &mut Tree,
    number: u64,
) -> Result<Vec<Child>, AllocError> {
    match tree.leaf(number) {
        Some(n) => grow(alloc, tree, n),
        None => Ok(Vec::new(alloc)),
    }
}

/// A tree with this position as its root.
pub(crate) fn planted(alloc: Global, p: Position) -> Result<Tree, AllocError> {
    let mut tree = Tree::new(alloc);
    tree.reserve(1)?;
    tree.add_root(unknown_child(alloc, p)?);
    Ok(tree)
}

/// Both numbers are finite.
fn finite(proof: u128, disproof: u128) -> Numbers {
    Numbers {
        proof: Number::Finite(proof),
        disproof: Number::Finite(disproof),
    }
}

const REFUTED: Numbers = Numbers {
    proof: Number::Infinite,
    disproof: Number::Finite(0),
};

/// The numbers of the node with this number, where there is one.
fn numbers_at(tree: &Tree, number: u64, goal: Side) -> Option<Numbers> {
    let n = tree.node(number)?;
    Some(tree.numbers(n, goal))
}

/// The number of the leaf that is picked, and the goal.
fn picked<T: Taken>(tree: &Tree, taken: &T) -> Option<(u64, Side)> {
    let (n, goal) = tree.pick(taken)?;
    Some((n.number(), goal))
}

/// Expands the leaf with this number: how many children it then has, its numbers for Black, and
/// which leaf is picked next.
fn expanded(
    alloc: Global,
    tree: &mut Tree,
    number: u64,
) -> Result<(usize, Option<Numbers>, Option<(u64, Side)>), AllocError> {
    let children = grow_at(alloc, tree, number)?;
    Ok((
        children.len(),
        numbers_at(tree, number, Side::Black),
        picked(tree, &Free),
    ))
}

#[test]
fn expands_the_start(rt: HostRuntime) -> Result<(), Fail> {
    let mut tree = planted(rt.alloc(), Position::start())?;
    // Node 1 is that after 9-13, node 9 that after 22-17, where 13x22 is compulsory.
    let due = (7, Some(finite(7, 7)), Some((1, Side::Black)));
    assert_eq!(rt; expanded(rt.alloc(), &mut tree, 0)?, due);
    assert_eq!(rt; numbers_at(&tree, 0, Side::White), Some(finite(7, 7)));
    // White has seven replies to each first move. Where nodes 1, 4 and 7 are taken, the first of
    // the others is picked.
    assert_eq!(rt; picked(&tree, &Third { rest: 1 }), Some((2, Side::Black)));
    let due = (7, Some(finite(7, 1)), Some((9, Side::Black)));
    assert_eq!(rt; expanded(rt.alloc(), &mut tree, 1)?, due);
    assert_eq!(rt; numbers_at(&tree, 0, Side::Black), Some(finite(7, 7)));
    assert_eq!(rt; tree.len(), 15);
    Ok(())
}

/// A king a side.
const KINGS: &str = "B:WK32:BK1";

/// The positions behind 1-5, 32-28, 5-1 and 28-32, which lead from there back.
const THERE_AND_BACK: [&str; 4] = ["W:WK32:BK5", "B:WK28:BK5", "W:WK28:BK1", KINGS];

/// Expands the leaf with this number, and gives the number of its child with this position.
fn child_at(alloc: Global, tree: &mut Tree, number: u64, text: &str) -> Result<u64, Fail> {
    let p = read_fen(text.as_bytes())?;
    let made = tree.len() as u64;
    let children = grow_at(alloc, tree, number)?;
    let place = children.iter().position(|child| child.position == p);
    Ok(made.saturating_add(place.ok_or("no such child")? as u64))
}

/// How many nodes are marked as repetitions, and the number of the last of them.
fn repetitions(tree: &Tree) -> (u32, Option<u64>) {
    let mut found = (0u32, None);
    for number in 0..tree.len() as u64 {
        if is_repetition(tree, number) {
            found = (found.0.saturating_add(1), Some(number));
        }
    }
    found
}

/// Whether there is a node with this number that is marked as a repetition.
fn is_repetition(tree: &Tree, number: u64) -> bool {
    match tree.node(number) {
        Some(n) => tree.mark(n) == Mark::Repeats,
        None => false,
    }
}

#[test]
fn marks_a_repetition(rt: HostRuntime) -> Result<(), Fail> {
    let mut tree = planted(rt.alloc(), read_fen(KINGS.as_bytes())?)?;
    let mut last = 0;
    for text in THERE_AND_BACK {
        last = child_at(rt.alloc(), &mut tree, last, text)?;
    }
    assert_eq!(rt; repetitions(&tree), (1, Some(last)));
    assert_eq!(rt; numbers_at(&tree, last, Side::Black), Some(REFUTED));
    assert_eq!(rt; numbers_at(&tree, last, Side::White), Some(REFUTED));
    assert!(rt; grow_at(rt.alloc(), &mut tree, last)?.is_empty());
    Ok(())
}

/// Adds facts to the leaf with this number, where they hold all that is known of it.
pub(crate) fn learn(tree: &mut Tree, number: u64, facts: &Facts) -> bool {
    match tree.leaf(number) {
        Some(n) => {
            if !facts.includes(&tree.facts(n)) {
                return false;
            }
            tree.bound(n, facts);
            true
        }
        None => false,
    }
}

/// The value of the first root, where there is one and it is settled.
fn value(tree: &Tree) -> Option<Value> {
    if tree.roots() == 0 {
        return None;
    }
    tree.settled(1)
}

/// Adds facts to the root: its value, and what is picked next; none where they do not hold all that
/// is known of it.
fn settled_by(tree: &mut Tree, facts: &Facts) -> Option<(Option<Value>, Option<(u64, Side)>)> {
    if !learn(tree, 0, facts) {
        return None;
    }
    Some((value(tree), picked(tree, &Free)))
}

#[test]
fn settles_roots_by_facts(rt: HostRuntime) -> Result<(), Fail> {
    let root = read_fen(KINGS.as_bytes())?;
    let mut tree = planted(rt.alloc(), root)?;
    let roots = (tree.find_root(&root), tree.find_root(&Position::start()));
    assert_eq!(rt; (tree.roots(), roots), (1, (Some(1), None)));
    assert_eq!(rt; value(&tree), None);
    // That White holds settles the goal Black, and White is the goal from then on.
    let white_holds = settled_by(&mut tree, &Facts::of_hold(Side::White));
    assert_eq!(rt; white_holds, Some((None, Some((0, Side::White)))));
    let drawn = settled_by(&mut tree, &Facts::of_value(Value::Draw));
    assert_eq!(rt; drawn, Some((Some(Value::Draw), None)));
    Ok(())
}

/// One turn: the leaf that is picked is expanded in both trees; with dice, a third of its children
/// learn facts. False where no leaf is picked.
fn turn(
    alloc: Global,
    tree: &mut Tree,
    plain: &mut PlainTree,
    taken: &Third,
    dice: &mut Option<Dice>,
) -> Result<bool, AllocError> {
    let Some((n, _)) = tree.pick(taken) else {
        return Ok(false);
    };
    let made = tree.len();
    let children = grow(alloc, tree, n)?;
    plain.expand(n.number() as usize, &children)?;
    if let Some(dice) = dice {
        for k in made..tree.len() {
            let facts = dice.facts();
            if dice.roll(3) == 0 && learn(tree, k as u64, &facts) {
                plain.bound(k, facts);
            }
        }
    }
    Ok(true)
}

/// The number of turns, at most 300, until no leaf is picked; none where after each tenth one, or
/// with dice after each, the two trees do not have the same numbers and the same next leaf.
fn turns(alloc: Global, taken: u64, mut dice: Option<Dice>) -> Result<Option<u32>, AllocError> {
    let mut tree = planted(alloc, Position::start())?;
    let mut plain = PlainTree::new(alloc, &unknown_child(alloc, Position::start())?)?;
    for count in 0..300 {
        let third = Third { rest: taken };
        if !turn(alloc, &mut tree, &mut plain, &third, &mut dice)? {
            return Ok(Some(count));
        }
        if dice.is_some() || count % 10 == 9 {
            if picked(&tree, &third) != plain.pick(alloc, taken)? || !plain.agrees(alloc, &tree)? {
                return Ok(None);
            }
        }
    }
    Ok(Some(300))
}

#[test]
fn keeps_the_numbers_of_a_plain_fold(rt: HostRuntime) -> Result<(), Fail> {
    assert_eq!(rt; turns(rt.alloc(), 3, None)?, Some(300));
    Ok(())
}

/// The number of turns of forty trees together, where facts come in and leaves are taken; none where
/// one of them does not agree with its fold.
fn turns_of_all(alloc: Global) -> Result<Option<u32>, AllocError> {
    let mut all = 0u32;
    for seed in 1..=40 {
        let dice = Dice { state: seed };
        let Some(count) = turns(alloc, 1 + seed % 2, Some(dice))? else {
            return Ok(None);
        };
        all = all.saturating_add(count);
    }
    Ok(Some(all))
}

#[test]
fn keeps_them_where_facts_come_in_and_leaves_are_taken(rt: HostRuntime) -> Result<(), Fail> {
    let all = turns_of_all(rt.alloc())?;
    assert!(rt; all.is_some_and(|count| count >= 100), "{all:?}");
    Ok(())
}
