//! The warnings on a source.
ghost use Rattle.std.specs.Prelude.{◌≡◌, ◌≤◌, ◌<◌, ◌^◌, List, All, IfOk, length};
ghost use Rattle.source_warnings.specs.Warnings as warned;

use crate::causes::{Cause, Warning};
use crate::found::Found;
use crate::games::{Game, after, first_game, game_of_tag, has_tag, lacks_fen, opened};
use crate::items::{Kind, next_item, sign_kind};
use crate::tags::TagKind;
use pdn_text::{Item, beginning, behind_skipped};
use std::alloc::{AllocError, Global};

/// The warning on a game that ends, if it has fewer moves than were asked.
fn few(asked: usize, game: Game) -> Option<Warning>
    ensures { result ≡ warned.few asked game }
{
    if game.plies < asked {
        Some(Warning {
            at: game.begins,
            cause: Cause::FewPlies {
                game: game.number,
                plies: game.plies,
            },
        })
    } else {
        None
    }
}

/// The warning on the game that ends with the item at a place, if one does.
fn on_ending(asked: usize, game: Game, at: usize, kind: Kind) -> Option<Warning>
    ensures { result ≡ warned.on_ending asked game at kind }
{
    match kind {
        Kind::Tag(_) if game.plies != 0 => few(asked, game),
        Kind::Result if !game.follows_result => few(asked, opened(game, at)),
        Kind::Skipped | Kind::RunsOn | Kind::Number(_) | Kind::Tag(_) | Kind::Move | Kind::Result =>
            None,
    }
}

/// Why a tag of this meaning is read otherwise than it may be meant, if it is, in any game.
fn cause_of_tag(tag: TagKind) -> Option<Cause>
    ensures { result ≡ warned.cause_of_tag tag }
{
    match tag {
        TagKind::LikeFen => Some(Cause::LikeFen),
        TagKind::LikeGameType => Some(Cause::LikeGameType),
        TagKind::OtherGameType => Some(Cause::OtherGameType),
        TagKind::Fen => None,
        TagKind::GameType => None,
        TagKind::SetUp => None,
        TagKind::Event => None,
        TagKind::Black => None,
        TagKind::White => None,
        TagKind::Other => None,
    }
}

/// Why a tag of this meaning that is not the first one of its game is told.
fn cause_of_second(tag: TagKind) -> Cause
    ensures { result ≡ warned.cause_of_second tag }
{
    if matches!(tag, TagKind::Fen) {
        Cause::SecondFen
    } else {
        Cause::SecondTag
    }
}

/// The warning on a tag of this game.
fn on_tag(game: Game, at: usize, tag: TagKind) -> Option<Warning>
    ensures { result ≡ warned.on_tag game at tag }
{
    let cause = if has_tag(game, tag) {
        cause_of_second(tag)
    } else {
        cause_of_tag(tag)?
    };
    Some(Warning { at, cause })
}

/// The warning on the number of a move of this game.
fn on_number(game: Game, at: usize, number: usize) -> Option<Warning>
    ensures { result ≡ warned.on_number game at number }
{
    let is_first = game.move_number == 0 && game.plies == 0 && !game.has_position;
    let cause = if number < game.move_number {
        Cause::LesserNumber
    } else if is_first && number != 1 {
        Cause::FirstNumber
    } else {
        return None;
    };
    Some(Warning { at, cause })
}

/// The warning on a game that lacks its position, if it does.
fn on_lack(game: Game) -> Option<Warning>
    ensures { result ≡ warned.on_lack game }
{
    if lacks_fen(game) {
        Some(Warning {
            at: game.begins,
            cause: Cause::LacksFen,
        })
    } else {
        None
    }
}

/// A star stands straight before a place.
fn is_behind_star(source: &[u8], at: usize) -> bool
    requires { at ≤ length source.now }
    ensures { result ≡ warned.is_behind_star source.now at }
{
    at > 0 && source[at - 1] == b'*'
}

/// The warning on a move of this game at a place.
fn on_move(game: Game, source: &[u8], at: usize) -> Option<Warning>
    requires { at ≤ length source.now }
    ensures { result ≡ warned.on_move game source.now at }
{
    if is_behind_star(source, at) {
        Some(Warning {
            at,
            cause: Cause::StarMove,
        })
    } else {
        on_lack(game)
    }
}

/// The warning on a result of this game at a place.
fn on_result(game: Game, at: usize) -> Option<Warning>
    ensures { result ≡ warned.on_result game at }
{
    if game.follows_result {
        Some(Warning {
            at,
            cause: Cause::SecondResult,
        })
    } else {
        on_lack(game)
    }
}

/// The warning on the item at a place.
fn on_item(game: Game, source: &[u8], at: usize, kind: Kind) -> Option<Warning>
    requires number { game.number < 2 ^ 63 }
    requires inside { at ≤ length source.now }
    ensures { result ≡ warned.on_item game source.now at kind }
{
    match kind {
        Kind::Skipped => None,
        Kind::RunsOn => Some(Warning {
            at,
            cause: Cause::RunsOn,
        }),
        Kind::Number(number) => on_number(game, at, number),
        Kind::Tag(tag) => on_tag(game_of_tag(game), at, tag),
        Kind::Move => on_move(game, source, at),
        Kind::Result => on_result(game, at),
    }
}

/// The warning where the items end at a place, on the game that is read there: that it lacks its
/// position, or has few moves; or that the source has ended without any game.
fn on_end(asked: usize, game: Game, source: &[u8], at: usize) -> Option<Warning>
    ensures { result ≡ warned.on_end asked game source.now at }
{
    if lacks_fen(game) {
        on_lack(game)
    } else if game.is_open {
        few(asked, game)
    } else if game.number == 1 && at == source.len() {
        Some(Warning {
            at: 0,
            cause: Cause::NoGame,
        })
    } else {
        None
    }
}

/// The warnings on a source of games for whose openings `asked` plies were asked; 0 where none were.
///
/// The source is cut into items as `pdn_text::read_games` cuts it, up to the first place where no item
/// stands. The warnings are in the order of the items, but the one on a game's plies comes where the
/// game ends. No more than [`crate::MOST_TOLD`] are kept. It fails only for want of memory.
pub fn warnings_of(alloc: Global, source: &[u8], asked: usize) -> Result<Found, AllocError>
    ensures exact { IfOk result (warned.AreFound source.now asked) }
    ensures only { IfOk result (λ found. (all : List Warning) →
        warned.AreWarnings source.now asked all → warned.IsKept found all) }
    ensures inside { IfOk result (λ found. All (warned.IsInside source.now) found.told.items) }
{
    let mut found = Found::new(alloc);
    let mut game = first_game();
    let first = beginning(source);
    let mut at = behind_skipped(source, first);
    while let Some(Item { end, sign }) = next_item(alloc, source, at)? {
        let kind = sign_kind(&source[at..end], sign);
        let next = behind_skipped(source, end);
        found.keep(on_ending(asked, game, at, kind))?;
        found.keep(on_item(game, source, at, kind))?;
        game = after(game, at, kind);
        at = next;
    }
    found.keep(on_end(asked, game, source, at))?;
    Ok(found)
}
