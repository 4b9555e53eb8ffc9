//! What a command does with its journal.
use bench_edges::Command;

/// What a command does with its journal.
#[derive(Clone, Copy, PartialEq, Eq)]
pub(crate) enum JournalUse {
    /// It may write to it.
    Writes,
    /// It looks at it, and writes nothing to it.
    Looks,
    /// It uses none.
    Nothing,
}

/// What the command does with its journal; nothing where the words say no command.
pub(crate) fn use_by(command: Option<Command>) -> JournalUse {
    match command {
        Some(Command::Solve(_) | Command::Learn | Command::Generate { .. }) => JournalUse::Writes,
        Some(Command::Report | Command::Certify(_)) => JournalUse::Looks,
        Some(Command::Verify | Command::MakeTable(_) | Command::TableCheck) => JournalUse::Nothing,
        None => JournalUse::Nothing,
    }
}
