//! Laws over the definitions: each function does nothing, and its contract is the law.
ghost use Rattle.proved_book.specs.Laws.{TrimmedWinsAreGood, TrimmedHoldsAreGood, OneTrimmedWin, OneTrimmedHold, AnswersServe, AnswersAreTrue, OneAnswer, BooksGrow};

/// Of a good part the trimmed one is good, and there is one.
pub fn trimmed_parts_are_good()
    ensures wins { TrimmedWinsAreGood }
    ensures holds { TrimmedHoldsAreGood }
    ensures one_win { OneTrimmedWin }
    ensures one_hold { OneTrimmedHold }
{}

/// What a book answers is true, there is one answer, and it serves as the result of a leaf's search,
/// whatever the goal and the depth.
pub fn answers_serve()
    ensures serve { AnswersServe }
    ensures truth { AnswersAreTrue }
    ensures one { OneAnswer }
{}

/// A book that takes over a good part is a book.
pub fn books_grow()
    ensures { BooksGrow }
{}
