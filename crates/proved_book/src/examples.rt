//! Worked examples of the definitions: each function does nothing, and its contract is a record of
//! `specs/Examples.antt`, one field an example.
ghost use Rattle.proved_book.specs.Examples.{WorkedTrims, WorkedBooks};

/// A win in one, trimmed to each of its positions and to another.
pub fn worked_trims()
    ensures { WorkedTrims }
{}

/// What a book with that win knows and answers.
pub fn worked_books()
    ensures { WorkedBooks }
{}
