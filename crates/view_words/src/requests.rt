//! What is asked of a journal.

/// No tree is shown deeper than this many plies.
pub const MOST_PLIES: u32 = 500;

/// No more nodes of a tree are shown than this, whatever is said.
pub const MOST_NODES: u32 = 100_000;

/// No variation of a line begins at a later ply than this.
pub const MOST_VARIED: u32 = 40;

/// Of each game on standard input no more plies are played than this.
pub const MOST_PLAYED: u32 = 200;

/// What is asked of the roots.
#[derive(Clone, Copy, Debug, PartialEq, Eq)]
pub struct RootsRequest {
    /// How many plies of each game on standard input are played at most.
    pub plies: Option<u32>,
    /// An object a root, in place of a line.
    pub json: bool,
}

/// What is asked of the line of play behind a root's value.
#[derive(Clone, Copy, Debug, PartialEq, Eq)]
pub struct LineRequest {
    /// The root's number, from 1.
    pub root: u32,
    /// At how many of its first plies the line has variations.
    pub plies: Option<u32>,
}

/// What is asked of the tree of a root.
#[derive(Clone, Copy, Debug, PartialEq, Eq)]
pub struct TreeRequest {
    /// The root's number, from 1.
    pub root: u32,
    /// How many plies deep at most.
    pub plies: Option<u32>,
    /// How many nodes at most.
    pub nodes: Option<u32>,
    /// An object a node, in place of a line.
    pub json: bool,
}

/// What is asked of a page.
#[derive(Clone, Copy, Debug, PartialEq, Eq)]
pub struct PageRequest {
    /// The root, from 1, whose play and tree the page shows too.
    pub root: Option<u32>,
    /// How many nodes of that tree at most.
    pub nodes: Option<u32>,
}

/// What is asked of the records.
#[derive(Clone, Copy, Debug, PartialEq, Eq)]
pub struct RecordsRequest {
    /// An object a record, in place of a line.
    pub json: bool,
}

/// What is asked of a journal.
#[derive(Clone, Copy, Debug, PartialEq, Eq)]
pub enum Request {
    /// Its roots.
    Roots(RootsRequest),
    /// The line of play behind the value of a root.
    Line(LineRequest),
    /// The tree of a root.
    Tree(TreeRequest),
    /// A page on its roots, and perhaps on one of them.
    Page(PageRequest),
    /// Its records.
    Records(RecordsRequest),
}

/// What is shown, as the second word names it.
#[derive(Clone, Copy, Debug, PartialEq, Eq)]
pub(crate) enum Kind {
    Roots,
    Line,
    Tree,
    Page,
    Records,
}
