//! Endgame tables: the position of an index.
use crate::boards::say_position;
use endgame_table::answer_of;
use opening_report::Refusal;
use std::alloc::AllocError;
use strategy_certificate::Answer;
use table_index::{entry_count, position_at};
use terminal_text::{say, say_number};

/// How many bytes a table has before its first number.
const HEAD_LENGTH: u64 = 8;

/// Appends what a number of a table says of its position.
fn say_answer(text: &mut Vec<u8>, kept: u32) -> Result<(), AllocError> {
    match answer_of(kept) {
        None => say(text, "that it is no position"),
        Some(Answer::Draw) => say(text, "a draw"),
        Some(Answer::Loss(rank)) => say_number(text, "a loss of rank ", u64::from(rank), ""),
        Some(Answer::Win(rank)) => say_number(text, "a win of rank ", u64::from(rank), ""),
    }
}

/// Appends the position of an index of a table, if it is that of one.
fn say_index(text: &mut Vec<u8>, index: u32) -> Result<(), AllocError> {
    if index >= entry_count(3u8) {
        return Ok(());
    }
    match position_at(index) {
        Some(p) => say_position(text, &p),
        None => say(text, "No position has this index.\n"),
    }
}

/// Appends that a table is not right at an index, where this number stands.
fn say_entry(text: &mut Vec<u8>, index: u32, kept: u32) -> Result<(), AllocError> {
    let place = HEAD_LENGTH + 4 * u64::from(index);
    say_number(text, "The entry of index ", u64::from(index), "")?;
    say_number(
        text,
        " stands in the four bytes from byte ",
        place,
        " on (from 0) and says ",
    )?;
    say_answer(text, kept)?;
    say(text, ", which the positions behind it do not bear out.\n")?;
    say_index(text, index)
}

/// Appends why bytes are no sound table.
pub(crate) fn say_table(text: &mut Vec<u8>, refusal: &Refusal) -> Result<(), AllocError> {
    match refusal {
        Refusal::TableWrongLength { found, due } => {
            say_number(text, "The file has ", *found as u64, " bytes and ")?;
            say_number(
                text,
                "by its head ",
                *due as u64,
                " are due: was it copied whole?\n",
            )
        }
        Refusal::TableBadEntry { index, kept } => say_entry(text, *index, *kept),
        _ => say(
            text,
            "A table begins with `DRTABLE` and a byte 2 or 3. `opening_bench - table 2 > FILE` \
                writes one.\n",
        ),
    }
}
