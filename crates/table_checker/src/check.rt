//! Whether bytes are an endgame table.
ghost use Rattle.std.specs.Prelude.{◌≡◌, IfOk, IfErr};
ghost use Rattle.std.specs.Bool.{OnFalse};
ghost use Rattle.shared_words.specs.Answers.{IsExact};
ghost use Rattle.strategy_certificate.specs.Tables.{IsTableSize};
ghost use Rattle.table_checker.specs.Faults.{AreBytesOf, IsTableFault, table_wants_memory, due_length};

use crate::bytes::{pieces_of_head, read_numbers};
use crate::entries::first_bad_entry;
use crate::refusal::TableRefusal;
use endgame_table::Table;
use std::alloc::Global;
use table_index::entry_count;

/// How many bytes a table of `pieces` pieces has.
fn due_length(pieces: u8) -> usize
    requires { IsTableSize pieces }
    ensures { result ≡ due_length pieces }
{
    8 + 4 * entry_count(pieces) as usize
}

/// The table that these bytes are: the head, the numbers of the indices in 4 bytes each, the most
/// significant first, and the rule of tables at each index.
///
/// Refused exactly where they are none, for what fails first: the head, the length, an index. Want
/// of memory may be answered for any bytes.
pub fn check_table(alloc: Global, bytes: &[u8]) -> Result<Table, TableRefusal>
    // The table that these bytes are, or what fails first: exactly that, unless memory ran out.
    ensures { IsExact table_wants_memory (AreBytesOf bytes.now) (IsTableFault bytes.now) result }
{
    read_table(alloc, bytes)
}

/// Reads the head, the numbers, and tests one index after the other.
fn read_table(alloc: Global, bytes: &[u8]) -> Result<Table, TableRefusal>
    ensures table { IfOk result (AreBytesOf bytes.now) }
    ensures refused { IfErr result (λ e. OnFalse (table_wants_memory e)
        (IsTableFault bytes.now e)) }
{
    let pieces = pieces_of_head(bytes).ok_or(TableRefusal::BadHead)?;
    let due = due_length(pieces);
    if bytes.len() != due {
        return Err(TableRefusal::WrongLength {
            found: bytes.len(),
            due,
        });
    }
    let numbers = read_numbers(alloc, &bytes[8..])?;
    match first_bad_entry(alloc, pieces, &numbers)? {
        None => Ok(Table::of_sound(pieces, numbers)),
        Some(index) => Err(TableRefusal::BadEntry {
            index,
            kept: numbers[index as usize],
        }),
    }
}
