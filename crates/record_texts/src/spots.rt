//! Where a record does what it does.
ghost use Rattle.std.specs.Prelude.{◌≡◌, ◌≤◌, ◌+◌, ◌^◌, ◌<◌, length, slice_get};
ghost use Rattle.std.specs.Option.{option_map};
ghost use Rattle.proof_tree.specs.Forest.{node_at, nodes};
ghost use Rattle.record_texts.specs.Records.{begun_with, kind_word, node_of, position_of, shown_by};

use bench_records::BenchRecord;
use draughts_board::Position;
use proof_tree::Tree;
use strategy_certificate::Certificate;

/// The word for what a record does.
pub(crate) fn kind_word(r: &BenchRecord) -> &'static str
    ensures { result.now ≡ kind_word r.now }
{
    match r {
        BenchRecord::Begin(_) => "begin",
        BenchRecord::Solve { .. } => "solve",
        BenchRecord::Expand { .. } => "expand",
    }
}

/// How many roots have begun with this record, where so many have before it.
pub(crate) fn begun_with(begun: usize, r: &BenchRecord) -> usize
    requires { begun + 1 < 2 ^ 64 }
    ensures value { result ≡ begun_with begun r.now }
    ensures most { result ≤ begun + 1 }
{
    match r {
        BenchRecord::Begin(_) => begun + 1,
        BenchRecord::Solve { .. } => begun,
        BenchRecord::Expand { .. } => begun,
    }
}

/// The certificates that a record shows.
pub(crate) fn shown_by(r: &BenchRecord) -> &[Certificate]
    ensures { result.now ≡ shown_by r.now }
{
    match r {
        BenchRecord::Begin(_) => &[],
        BenchRecord::Solve { shown, .. } => shown.as_slice(),
        BenchRecord::Expand { .. } => &[],
    }
}

/// The number of the root's node before which so many roots stand.
fn root_behind(tree: &Tree, begun: usize) -> Option<u64>
    ensures { result ≡ option_map (λ x. x.own.number) (slice_get (nodes tree.now.forest) begun) }
{
    if begun < tree.roots() as usize {
        Some(tree.root_node(begun as u32 + 1).number())
    } else {
        None
    }
}

/// The number of a record's node, where so many roots have begun before it.
pub(crate) fn node_of(tree: &Tree, begun: usize, r: &BenchRecord) -> Option<u64>
    ensures { result ≡ node_of tree.now.forest begun r.now }
{
    match r {
        BenchRecord::Begin(_) => root_behind(tree, begun),
        BenchRecord::Solve { node, .. } => Some(*node),
        BenchRecord::Expand { node } => Some(*node),
    }
}

/// The position of the node with this number.
fn position_at(tree: &Tree, node: u64) -> Option<Position>
    ensures { result ≡ option_map (λ x. x.own.position) (node_at node tree.now.forest) }
{
    match tree.node(node) {
        Some(n) => Some(tree.position(n)),
        None => None,
    }
}

/// The position of a record's node.
pub(crate) fn position_of(tree: &Tree, r: &BenchRecord) -> Option<Position>
    ensures { result ≡ position_of tree.now.forest r.now }
{
    match r {
        BenchRecord::Begin(position) => Some(*position),
        BenchRecord::Solve { position, .. } => Some(*position),
        BenchRecord::Expand { node } => position_at(tree, *node),
    }
}
