//! What a run is refused for, where a crate below refuses: `?` converts.
ghost use Rattle.std.specs.Prelude.{◌≡◌};
ghost use Rattle.opening_report.specs.Conversions.{of_read, of_pdn, of_openings, of_text, of_check, of_table, of_journal};
ghost use Rattle.opening_report.specs.declared.refusals.Refusal.TheVariants as refusals;

use crate::refusals::Refusal;
use bench_edges::{ReadRefusal, WordsRefusal};
use certificate_checker::CheckRefusal;
use certificate_text::TextRefusal;
use disk_journal::JournalRefusal;
use pdn_openings::OpeningRefusal;
use pdn_text::PdnRefusal;
use std::alloc::AllocError;
use table_checker::TableRefusal;

impl From<AllocError> for Refusal {
    ghost from_gives = { λ _ refusal. refusal ≡ refusals.Memory };

    /// Memory ran out.
    fn from(_error: AllocError) -> Refusal {
        Refusal::Memory
    }
}

impl From<WordsRefusal> for Refusal {
    ghost from_gives = { λ words refusal. refusal ≡ refusals.Words words.at };

    /// The words are not in the grammar.
    fn from(words: WordsRefusal) -> Refusal {
        Refusal::Words(words.at)
    }
}

impl From<ReadRefusal> for Refusal {
    ghost from_gives = { λ read refusal. refusal ≡ of_read read };

    /// The source was not read to its end.
    fn from(read: ReadRefusal) -> Refusal {
        match read {
            ReadRefusal::TooLong => Refusal::TooLong,
            ReadRefusal::Fault(_) => Refusal::Read,
            ReadRefusal::Memory(_) => Refusal::Memory,
        }
    }
}

impl From<PdnRefusal> for Refusal {
    ghost from_gives = { λ fault refusal. refusal ≡ of_pdn fault };

    /// The text is no PDN.
    fn from(fault: PdnRefusal) -> Refusal {
        match fault {
            PdnRefusal::BadByte(at) => Refusal::PdnBadByte(at),
            PdnRefusal::OpenTag(at) => Refusal::PdnOpenTag(at),
            PdnRefusal::OpenComment(at) => Refusal::PdnOpenComment(at),
            PdnRefusal::OpenVariation(at) => Refusal::PdnOpenVariation(at),
            PdnRefusal::BadMove(at) => Refusal::PdnBadMove(at),
            PdnRefusal::TooManyGames => Refusal::PdnTooManyGames,
            PdnRefusal::Memory(_) => Refusal::Memory,
        }
    }
}

impl From<OpeningRefusal> for Refusal {
    ghost from_gives = { λ fault refusal. refusal ≡ of_openings fault };

    /// The games have no openings.
    fn from(fault: OpeningRefusal) -> Refusal {
        match fault {
            OpeningRefusal::OtherGame(game) => Refusal::OtherGame(game),
            OpeningRefusal::Fen(game, fault) => Refusal::Fen(game, fault),
            OpeningRefusal::Illegal { game, ply, at } => Refusal::Illegal { game, ply, at },
            OpeningRefusal::Ambiguous { game, ply, at } => Refusal::Ambiguous { game, ply, at },
            OpeningRefusal::Memory(_) => Refusal::Memory,
        }
    }
}

impl From<TextRefusal> for Refusal {
    ghost from_gives = { λ fault refusal. refusal ≡ of_text fault };

    /// The bytes are no certificate's text.
    fn from(fault: TextRefusal) -> Refusal {
        match fault {
            TextRefusal::BadLine(n) => Refusal::TextBadLine(n),
            TextRefusal::BadFen(n) => Refusal::TextBadFen(n),
            TextRefusal::Doubled(n) => Refusal::TextDoubled(n),
            TextRefusal::Truncated => Refusal::TextTruncated,
            TextRefusal::AfterEnd(n) => Refusal::TextAfterEnd(n),
            TextRefusal::Memory(_) => Refusal::Memory,
        }
    }
}

impl From<CheckRefusal> for Refusal {
    ghost from_gives = { λ fault refusal. refusal ≡ of_check fault };

    /// The certificate is not good.
    fn from(fault: CheckRefusal) -> Refusal {
        match fault {
            CheckRefusal::ClaimNotMet => Refusal::ClaimNotMet,
            CheckRefusal::BadRank { part, entry } => Refusal::BadRank { part, entry },
            CheckRefusal::BadMove { part, entry } => Refusal::BadMove { part, entry },
            CheckRefusal::Missing { part, entry, .. } => Refusal::Missing { part, entry },
            CheckRefusal::StuckHolder { part, entry } => Refusal::StuckHolder { part, entry },
            CheckRefusal::NoRoot(part) => Refusal::CheckNoRoot(part),
            CheckRefusal::Memory(_) => Refusal::Memory,
        }
    }
}

impl From<TableRefusal> for Refusal {
    ghost from_gives = { λ fault refusal. refusal ≡ of_table fault };

    /// The bytes are no sound table.
    fn from(fault: TableRefusal) -> Refusal {
        match fault {
            TableRefusal::BadHead => Refusal::TableBadHead,
            TableRefusal::WrongLength { found, due } => Refusal::TableWrongLength { found, due },
            TableRefusal::BadEntry { index, kept } => Refusal::TableBadEntry { index, kept },
            TableRefusal::Memory(_) => Refusal::Memory,
        }
    }
}

impl From<JournalRefusal> for Refusal {
    ghost from_gives = { λ fault refusal. refusal ≡ of_journal fault };

    /// The disk is not read as a journal.
    fn from(fault: JournalRefusal) -> Refusal {
        match fault {
            JournalRefusal::DiskFault => Refusal::Disk,
            JournalRefusal::NotAJournal => Refusal::NotAJournal,
            JournalRefusal::OtherTable { found, asked } => Refusal::OtherTable { found, asked },
            JournalRefusal::Damaged(at) => Refusal::Damaged(at),
            JournalRefusal::Memory(_) => Refusal::Memory,
        }
    }
}
