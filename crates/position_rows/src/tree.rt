//! A tree of rows by the digits of their positions' words.
ghost use Rattle.std.specs.Prelude.{◌≡◌, ◌<◌, ◌+◌, ◌^◌, ◌↔◌, ◌∷◌, [], ℕ, set, IfSome, IfNone, IsTrue, length, vec_len, vec_capacity, OnOk, OnErr};
ghost use Rattle.draughts_board.specs.Board.{Board};
ghost use Rattle.position_rows.specs.Rows.{IsRowAt, IsNumberOf};
ghost use Rattle.position_rows.specs.Walks.{LinksTo, IsBehind, IsEnd, IsHung, TellsBehind, node_at, with_link};

use crate::words::{digit, next_word, word_of};
use draughts_board::Position;

/// A row's number, one more than its place, and the nodes behind this one by their next digit, 0
/// where there is none.
#[derive(Clone, Copy)]
pub(crate) struct Node {
    number: u32,
    zero: u32,
    one: u32,
}

/// How a look-up ends: at the place of the position's row, or behind a node at a digit.
#[derive(Clone, Copy)]
pub(crate) enum End {
    At(usize),
    Behind(usize, bool),
}

/// The row at this place is that of the position.
#[inline]
fn is_row_at<E: Copy>(rows: &[(Position, E)], i: usize, p: &Position) -> bool
    requires { i < length rows.now }
    ensures { IsTrue result ↔ IsRowAt rows.now i p.now }
{
    rows[i].0 == *p
}

/// The number is one more than the place of the position's row.
#[inline]
pub(crate) fn is_number_of<E: Copy>(rows: &[(Position, E)], number: u32, p: &Position) -> bool
    ensures { IsTrue result ↔ IsNumberOf rows.now number p.now }
{
    if number == 0 {
        return false;
    }
    let i = number as usize - 1;
    if i >= rows.len() {
        return false;
    }
    is_row_at(rows, i, p)
}

/// The node to which the digit leads from node i.
#[inline]
fn next_node(nodes: &[Node], i: usize, digit: bool) -> Option<usize>
    requires { i < length nodes.now }
    ensures some { IfSome result (LinksTo nodes.now i digit) }
    ensures none { IfNone result ((k : ℕ) → ¬ LinksTo nodes.now i digit k) }
{
    let node = nodes[i];
    let next = if digit {
        node.one as usize
    } else {
        node.zero as usize
    };
    if next <= i || next >= nodes.len() {
        return None;
    }
    Some(next)
}

/// The number of node i.
#[inline]
fn number_at(nodes: &[Node], i: usize) -> u32
    requires { i < length nodes.now }
    ensures { result ≡ (node_at nodes.now i).number }
{
    nodes[i].number
}

/// Looks a position up from the first node on.
pub(crate) fn seek_behind<E: Copy>(rows: &[(Position, E)], nodes: &[Node], p: &Position) -> End
    requires { 0 < length nodes.now }
    ensures { TellsBehind rows.now nodes.now p.now result }
{
    let mut word = word_of(p);
    let mut i = 0;
    'nodes: loop {
        let number = number_at(nodes, i);
        if is_number_of(rows, number, p) {
            return End::At(number as usize - 1);
        }
        let Some(next) = next_node(nodes, i, digit(word)) else {
            return End::Behind(i, digit(word));
        };
        i = next;
        word = next_word(word);
    }
}

/// The node, naming one more.
#[inline]
fn with_link(node: Node, digit: bool, k: u32) -> Node
    ensures { result ≡ with_link node digit k }
{
    if digit {
        Node { one: k, ..node }
    } else {
        Node { zero: k, ..node }
    }
}

/// Lets node i name node k at the digit.
fn link(nodes: &mut Vec<Node>, i: usize, digit: bool, k: u32)
    requires { i < vec_len nodes.old }
    ensures items { nodes.new.items
        ≡ set nodes.old.items i (with_link (node_at nodes.old.items i) digit k) }
    ensures capacity { vec_capacity nodes.new ≡ vec_capacity nodes.old }
{
    let node = nodes[i];
    nodes[i] = with_link(node, digit, k);
}

/// Adds a node with this number at the end, which node i names at the digit, where it named none.
pub(crate) fn hang(nodes: &mut Vec<Node>, i: usize, digit: bool, number: u32)
    requires room { vec_len nodes.old < vec_capacity nodes.old }
    requires few { vec_len nodes.old < 2 ^ 32 }
    requires inside { i < vec_len nodes.old }
    requires none { (k : ℕ) → ¬ LinksTo nodes.old.items i digit k }
    requires number { 0 < number }
    ensures hung { IsHung nodes.old.items nodes.new.items i digit number }
    ensures len { vec_len nodes.new ≡ vec_len nodes.old + 1 }
    ensures capacity { vec_capacity nodes.new ≡ vec_capacity nodes.old }
{
    let last = nodes.len() as u32;
    link(nodes, i, digit, last);
    nodes.push_reserved(Node {
        number,
        zero: 0,
        one: 0,
    });
}

/// Makes the first node of a tree without any.
pub(crate) fn plant(nodes: &mut Vec<Node>, number: u32)
    requires room { vec_len nodes.old < vec_capacity nodes.old }
    requires none { nodes.old.items ≡ [] }
    ensures items { nodes.new.items ≡ record { number = number; zero = 0; one = 0 } ∷ [] }
    ensures capacity { vec_capacity nodes.new ≡ vec_capacity nodes.old }
{
    nodes.push_reserved(Node {
        number,
        zero: 0,
        one: 0,
    });
}
