//! The text on warnings.
ghost use Rattle.std.specs.Prelude.{◌≡◌, ◌≤◌, ◌++◌, ℕ, List, All, IfOk, OnOk, codes, length};
ghost use Rattle.source_warnings.specs.Told.{IsToldOf};
ghost use Rattle.source_warnings.specs.Warnings.{AreWarnings, IsInside};
ghost use Rattle.source_warnings.specs.declared.causes.Warning.{Warning};
ghost use Rattle.terminal_text.specs.Places.{place_text};
ghost use Rattle.terminal_text.specs.Shown.{IsShown};

use crate::causes::{Cause, Warning};
use crate::scan::warnings_of;
use std::alloc::{AllocError, Global};
use terminal_text::{say, say_excerpt, say_number, say_place, shown};

/// Appends that a game has fewer moves than the plies that were asked.
fn say_few(text: &mut Vec<u8>, asked: usize, game: usize, plies: usize) -> Result<(), AllocError> {
    say_number(
        text,
        "Game ",
        game as u64,
        " begins here and has fewer moves than the ",
    )?;
    say_number(text, "", asked as u64, " plies of `--plies`: ")?;
    say_number(
        text,
        "",
        plies as u64,
        ". Its opening is the position after all of them.\n",
    )
}

/// How the source is read where a warning stands, and what may be written instead; empty where that says which game it is.
fn cause_text(cause: Cause) -> &'static str {
    match cause {
        Cause::LikeFen =>
            "This tag is not looked at: names of tags are compared letter for letter. The game begins from its tag `FEN`, or \
                else from the start. Write [FEN \"..\"].\n",
        Cause::LikeGameType =>
            "This tag is not looked at: names of tags are compared letter for letter. The game is taken as English draughts. \
                Write [GameType \"21\"], or take games of another kind out.\n",
        Cause::OtherGameType =>
            "This value names another side, board or notation than English draughts has: 21,B,8,8. The game is taken as \
                English draughts all the same, and Black begins on squares 1 to 12.\n",
        Cause::SecondFen =>
            "This position is not looked at: its game has one already, and the first counts. Write a result, as `*`, behind \
                each position that is to be a game of its own.\n",
        Cause::SecondTag =>
            "Its game has a tag of this name already: what stands between is read as one game. Where two games are meant, \
                write a result, as `*`, behind the first.\n",
        Cause::LacksFen =>
            "The game that begins here has a tag `SetUp` and no tag `FEN`: it is played from the start. Write its position, \
                as [FEN \"B:W21:B5\"], or leave `SetUp` out.\n",
        Cause::SecondResult =>
            "This result stands straight behind another and is read as a game of its own, without moves, from the start. \
                Leave one of the two out.\n",
        Cause::StarMove =>
            "The star is read as the end of the game before it, and this move as the first of a new game, from the start. \
                Where the star only praises the move, leave it out, or write `!` behind the move.\n",
        Cause::FirstNumber =>
            "The first number of this game is not 1, though the game is played from the start: does a tag `FEN` or a part of \
                the game lack?\n",
        Cause::LesserNumber =>
            "The numbers of moves fall back here, and the moves are read as those of one game. Where another game begins \
                here, write a result, as `*`, behind the one before.\n",
        Cause::RunsOn =>
            "This comment goes on behind its line, which ends with a carriage return (byte 13) alone: what stands up to the \
                next line feed (byte 10) is not read. End lines with a line feed, or write the comment in braces: {so}.\n",
        Cause::NoGame =>
            "No game stands here, so no position is added. A lone `*` is a game that has not begun.\n",
        Cause::FewPlies { .. } => "",
    }
}

/// Appends how the source is read, and what may be written instead.
fn say_cause(text: &mut Vec<u8>, asked: usize, cause: Cause) -> Result<(), AllocError> {
    match cause {
        Cause::FewPlies { game, plies } => say_few(text, asked, game, plies),
        _ => say(text, cause_text(cause)),
    }
}

/// Appends a warning: its place, how the source reads there, how that is read, and what may be written.
fn say_warning(
    text: &mut Vec<u8>,
    source: &[u8],
    asked: usize,
    warning: Warning,
) -> Result<(), AllocError>
    requires { IsInside source.now warning }
{
    say(text, "warning: ")?;
    say_place(text, source, warning.at)?;
    say_excerpt(text, source, warning.at)?;
    say_cause(text, asked, warning.cause)
}

/// Appends warnings, and how many more there are.
fn say_further(
    text: &mut Vec<u8>,
    source: &[u8],
    asked: usize,
    told: &[Warning],
    more: usize,
) -> Result<(), AllocError>
    requires { All (IsInside source.now) told.now }
{
    for warning in told {
        say_warning(text, source, asked, *warning)?;
    }
    if more > 0 {
        say_number(text, "warning: and ", more as u64, " more.\n")?;
    }
    Ok(())
}

/// The first warning before it is made safe for a terminal, the further ones, and how many more there
/// are.
fn raw_text(
    alloc: Global,
    source: &[u8],
    asked: usize,
    first: Warning,
    further: &[Warning],
    more: usize,
) -> Result<Vec<u8>, AllocError>
    requires here { IsInside source.now first }
    requires behind { All (IsInside source.now) further.now }
    ensures { IfOk result (λ text. (rest : List ℕ)
        × (text.items ≡ codes "warning: " ++ (place_text source.now first.at ++ rest))) }
{
    let mut text = Vec::new(alloc);
    say(&mut text, "warning: ")?;
    say_place(&mut text, source, first.at)?;
    let mut rest = Vec::new(alloc);
    say_excerpt(&mut rest, source, first.at)?;
    say_cause(&mut rest, asked, first.cause)?;
    say_further(&mut rest, source, asked, further, more)?;
    text.extend_from_slice(&rest)?;
    Ok(text)
}

/// What a person is told of a source of games that was read, for whose openings `asked` plies were
/// asked; 0 where none were. Of each of the first [`crate::MOST_TOLD`] warnings: its line and its
/// column, how the source reads there, how that is read, and what may be written instead; then how
/// many more there are.
///
/// It reads nothing but its arguments. Whatever they hold, the text is printable ASCII and line ends. It
/// is empty where there is nothing to warn of, and else begins with the place of the first warning. It
/// fails only for want of memory.
pub fn warnings_text(alloc: Global, source: &[u8], asked: usize) -> Result<Vec<u8>, AllocError>
    ensures safe { IfOk result (λ text. All IsShown text.items) }
    ensures told { IfOk result (λ text. (all : List Warning)
        × AreWarnings source.now asked all × IsToldOf source.now all text.items) }
{
    let found = warnings_of(alloc, source, asked)?;
    let [first, further @ ..] = found.told.as_slice() else {
        return Ok(Vec::new(alloc));
    };
    let text = raw_text(alloc, source, asked, *first, further, found.more)?;
    shown(alloc, &text)
}
