//! Journals, limits and streams: what can be done.
use opening_report::Refusal;
use std::alloc::AllocError;
use terminal_text::{say, say_number};

/// Appends what can be done where a journal, or its disk, refuses.
pub(crate) fn say_journal(text: &mut Vec<u8>, refusal: &Refusal) -> Result<(), AllocError> {
    match refusal {
        Refusal::NotAJournal => say(
            text,
            "The file that the first word names is no journal of this program. Nothing was \
                written to it. Name another file; one that is missing is made.\n",
        ),
        Refusal::OtherTable { found, .. } => {
            say_number(
                text,
                "This journal was begun with tables of ",
                u64::from(*found),
                " pieces ",
            )?;
            say_number(
                text,
                "and goes on with them alone. Give `--pieces ",
                u64::from(*found),
                "`, or name another journal.\n",
            )
        }
        Refusal::Damaged(at) => {
            say_number(
                text,
                "The journal's file is damaged at byte ",
                *at,
                " (from 0), or another run is writing to it just now: look again once that run has \
                    ended. Nothing was written to it. Bring it back from a copy, or begin a new \
                    journal; keep the damaged file if you want to have it looked at.\n",
            )
        }
        _ => say(
            text,
            "The file that the first word names could not be read or written. Is the path right, \
                may you write there, is there room on the disk? What was written to the journal \
                before is kept.\n",
        ),
    }
}

/// Appends what can be done where a root is not there, has no value, or was searched below.
pub(crate) fn say_root(text: &mut Vec<u8>, refusal: &Refusal) -> Result<(), AllocError> {
    match refusal {
        Refusal::NoRoot(n) => say_number(
            text,
            "The journal has no root ",
            u64::from(*n),
            ". `report` lists its roots with their numbers.\n",
        ),
        Refusal::UnsettledRoot(n) => say_number(
            text,
            "Root ",
            u64::from(*n),
            " has no value yet. Go on with `solve`, with a larger `--budget` or `--depth`.\n",
        ),
        Refusal::RootExpanded(n) => say_number(
            text,
            "The search has gone on below root ",
            u64::from(*n),
            ", and a certificate of the root itself would not be used there. Go on with `solve`, \
                or learn the certificate in a new journal.\n",
        ),
        _ => Ok(()),
    }
}

/// Appends what can be done where a limit is met.
pub(crate) fn say_limit(text: &mut Vec<u8>, refusal: &Refusal) -> Result<(), AllocError> {
    match refusal {
        Refusal::PdnTooManyGames => say(
            text,
            "A file has at most 4096 games. Split it and give the parts one after the other to \
                the same journal.\n",
        ),
        Refusal::TooLong => say(
            text,
            "`solve` reads at most 16777216 bytes, `verify` and `learn` 268435456, and `table-check` \
                4194304. \
                Games can be split over several files that are given one after the other to the \
                same journal.\n",
        ),
        Refusal::TooManyRoots => say(
            text,
            "A journal has at most 65536 roots, and nothing was added to this one. Begin another \
                journal, or ask for fewer plies by `--plies`.\n",
        ),
        Refusal::Memory => say(
            text,
            "Memory ran out. What was written to the journal before is kept.\n",
        ),
        _ => say(
            text,
            "Standard input could not be read. Is it a file, and not a folder?\n",
        ),
    }
}
