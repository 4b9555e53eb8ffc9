//! Why a text cannot go on.

/// What does not fit where a text cannot go on, with how many bytes are left from there.
#[derive(Clone, Copy, PartialEq, Eq, Debug)]
pub(crate) enum Fault {
    /// No letter or sign that may stand there.
    Letter(usize),
    /// No square that may stand there.
    Number(usize),
    /// The text ends where something is due.
    End,
}
