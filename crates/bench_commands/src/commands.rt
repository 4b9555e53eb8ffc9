//! The commands, each in its file, from its source and its disk to what is written; and of each,
//! whether workers search for it, and how long its source may be.
pub mod certify;
pub mod generate;
pub mod learn;
pub mod report;
pub mod solve;
pub mod table;
pub mod table_check;
pub mod verify;

ghost use Rattle.std.specs.Prelude.{◌≡◌, true, false};
ghost use Rattle.bench_commands.specs.Commands.{Searches, source_limit};

use crate::commands::table_check::MOST_TABLE_BYTES;
use crate::commands::verify::MOST_CERTIFICATE_BYTES;
use bench_edges::Command;
use program_edges::MOST_GAMES_BYTES;

/// Whether workers search for the command's values.
pub(crate) fn searches(command: Command) -> bool
    ensures yes { result ≡ true → Searches command }
    ensures no { result ≡ false → Searches command → ⊥ }
{
    match command {
        Command::Solve(_) | Command::Generate { .. } => true,
        Command::Report
        | Command::Certify(_)
        | Command::Verify
        | Command::Learn
        | Command::MakeTable(_)
        | Command::TableCheck => false,
    }
}

/// How many bytes the source of a command has at most, if it reads one.
pub(crate) fn source_limit(command: Command) -> Option<usize>
    ensures { result ≡ source_limit command }
{
    match command {
        Command::Solve(_) => Some(MOST_GAMES_BYTES),
        Command::Verify => Some(MOST_CERTIFICATE_BYTES),
        Command::Learn => Some(MOST_CERTIFICATE_BYTES),
        Command::TableCheck => Some(MOST_TABLE_BYTES),
        Command::Report | Command::Certify(_) | Command::MakeTable(_) | Command::Generate { .. } =>
            None,
    }
}
