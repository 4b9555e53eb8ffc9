//! The games on standard input.
ghost use Rattle.std.specs.Prelude.{◌≡◌, ◌⊎◌, None, ℕ, List, IfErr, IfOk};
ghost use Rattle.opening_report.specs.declared.refusals.Refusal.TheVariants as refusals;
ghost use Rattle.journal_view.specs.Games.{HasGames, HasNoGames, IsRefusedSource, OpensSource, played};
ghost use Rattle.program_edges.specs.Games.{HasGamesFault, OpensGames};

use bench_edges::Source;
use opened_games::OpenedGames;
use opening_report::Refusal;
use program_edges::{MOST_GAMES_BYTES, hand_back, read_openings, read_source};
use std::alloc::Global;
use view_words::{MOST_PLAYED, Request};

/// The games of a text with their openings after this number of plies.
fn opened_in(alloc: Global, plies: u32, text: &[u8]) -> Result<OpenedGames, Refusal>
    ensures opened { IfOk result (λ opened.
        OpensGames plies text.now opened.games opened.openings) }
    ensures refused { IfErr result (λ r.
        (r ≡ refusals.Memory) ⊎ HasGamesFault plies text.now r) }
{
    let found = read_openings(alloc, plies, text)?;
    Ok(OpenedGames::of(alloc, found.games, found.openings)?)
}

/// The games of a source with their openings after this number of plies. The bytes that were read go back
/// to the source.
fn read_opened<S: Source>(alloc: Global, plies: u32, source: &mut S) -> Result<OpenedGames, Refusal>
    ensures opened { IfOk result (OpensSource plies (S.left source.old)) }
    ensures refused { IfErr result (IsRefusedSource plies (S.left source.old) (S.left source.new)
        (S.faults source.old) (S.faults source.new)) }
{
    let text = read_source(alloc, Some(MOST_GAMES_BYTES), source)?;
    let opened = opened_in(alloc, plies, &text);
    hand_back(Some(MOST_GAMES_BYTES), text, source);
    opened
}

/// How many plies of each game are played; none where no games are asked.
fn played(request: Request) -> Option<u32>
    ensures { result ≡ played request }
{
    match request {
        Request::Roots(asked) => Some(asked.plies.unwrap_or(MOST_PLAYED)),
        Request::Line(_) => None,
        Request::Tree(_) => None,
        Request::Page(_) => None,
        Request::Records(_) => None,
    }
}

/// The games of the source, where games are asked; no other request reads of it.
pub(crate) fn games_for<S: Source>(
    alloc: Global,
    request: Request,
    source: &mut S,
) -> Result<OpenedGames, Refusal>
    ensures games { IfOk result (HasGames request (S.left source.old)) }
    ensures refused { IfErr result (HasNoGames request (S.left source.old) (S.left source.new)
        (S.faults source.old) (S.faults source.new)) }
    ensures unread { played request ≡ None → source.new ≡ source.old }
{
    match played(request) {
        Some(plies) => read_opened(alloc, plies, source),
        None => Ok(OpenedGames::none(alloc)),
    }
}
