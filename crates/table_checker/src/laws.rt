//! Laws of bytes and their faults: each function does nothing, and its contract is the law.
ghost use Rattle.table_checker.specs.Laws.{FaultyBytesAreNoTable, OneFault, OneTableOfBytes};

/// Bytes with a fault are those of no table.
pub fn faulty_bytes_are_no_table()
    ensures { FaultyBytesAreNoTable }
{}

/// Bytes have at most one fault.
pub fn bytes_have_one_fault()
    ensures { OneFault }
{}

/// Bytes are those of at most one table.
pub fn bytes_have_one_table()
    ensures { OneTableOfBytes }
{}
