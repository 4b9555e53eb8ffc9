//! Worked examples of the definitions: the function does nothing, and its contract is the examples.
ghost use Rattle.shared_words.specs.Examples.{WorkedWords};

/// A text with and without an end of line, counts that rose and that did not.
pub fn worked_words()
    ensures { WorkedWords }
{}
