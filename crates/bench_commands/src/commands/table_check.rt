//! `table-check`: whether bytes are those of a sound endgame table.
ghost use Rattle.std.specs.Prelude.{◌≡◌, IfOk, IfErr, length};
ghost use Rattle.bench_edges.specs.declared.words.Command.TheVariants as commands;
ghost use Rattle.opening_report.specs.Findings.{sound_text};
ghost use Rattle.opening_report.specs.Lines.{IsLine};
ghost use Rattle.bench_commands.specs.Commands.{Answers};
ghost use Rattle.bench_commands.specs.Steps.{IsAnswerFault, IsAnswerFaultOnly, SaysTrue};

use endgame_table::Table;
use opening_report::{Refusal, Written, sound_line};
use std::alloc::{AllocError, Global};
use table_checker::check_table;

/// The longest source that `table-check` reads, in bytes.
pub const MOST_TABLE_BYTES: usize = 4_194_304;

/// The line that the table is sound.
fn sound_text(alloc: Global, table: &Table) -> Result<Vec<u8>, AllocError>
    ensures text { IfOk result (λ text.
        text.items ≡ sound_text table.now.pieces (length table.now.numbers)) }
    ensures line { IsLine (sound_text table.now.pieces (length table.now.numbers)) }
{
    let line = sound_line(table.pieces(), table.len());
    line.as_bytes().to_vec(alloc)
}

/// The line on the table of these bytes.
pub(crate) fn table_check(alloc: Global, bytes: &[u8]) -> Result<Written, Refusal>
    ensures answers { IfOk result (λ output. Answers commands.TableCheck bytes.now
        output.text.items output.is_settled) }
    ensures says { IfOk result (λ output. SaysTrue output.text.items) }
    ensures refused { IfErr result (IsAnswerFault commands.TableCheck bytes.now) }
    ensures accepted { IfErr result (IsAnswerFaultOnly commands.TableCheck bytes.now) }
{
    let table = check_table(alloc, bytes)?;
    Ok(Written::settled(sound_text(alloc, &table)?))
}
