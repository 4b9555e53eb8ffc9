//! Laws of tables and of their bytes: each function does nothing, and its contract is the law.
ghost use Rattle.endgame_table.specs.Laws.{TablesFitEverywhere, OneTable, BytesTellApart};

/// As many numbers as there are indices are a table exactly where the rule holds at every index.
pub fn tables_fit_everywhere()
    ensures { TablesFitEverywhere }
{}

/// There is one table for each number of pieces: two have the same numbers.
pub fn one_table()
    ensures { OneTable }
{}

/// The bytes of a table give the pieces and the numbers back.
pub fn bytes_tell_apart()
    ensures { BytesTellApart }
{}
