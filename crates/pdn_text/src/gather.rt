//! Gathers what the items say into games.
ghost use Rattle.std.specs.Prelude.{◌≡◌, ◌≤◌, false, ◌↔◌, length, OnOk, IfOk, IfErr, IsTrue};

use crate::MOST_GAMES;
use crate::game::{Game, MoveText, Tag};
use crate::items::Sign;
use crate::refusal::PdnRefusal;
use shared_words::ItemList;
use std::alloc::{AllocError, Global};
use std::mem;

/// The games that have ended, and the tags and moves of the game that has begun, if one has.
#[derive(Drop)]
pub(crate) struct Gathered {
    alloc: Global,
    games: Vec<Game>,
    tags: Vec<Tag>,
    moves: Vec<MoveText>,
}

impl Gathered {
    ghost use Rattle.pdn_text.specs.Gathering.{progress, no_game, taken, closed, games_of, is_open, IsRefusedAs};
    ghost use Rattle.pdn_text.specs.declared.items.Sign.TheVariants.{Tagged, Moved, Ended};

    /// No game yet.
    pub(crate) fn new(alloc: Global) -> Gathered
        ensures { progress result ≡ no_game }
    {
        Gathered {
            alloc,
            games: Vec::new(alloc),
            tags: Vec::new(alloc),
            moves: Vec::new(alloc),
        }
    }

    /// Takes what the next item says. Where it begins one game more than a text may have, it is
    /// refused.
    pub(crate) fn take(&mut self, sign: Sign) -> Result<(), PdnRefusal>
        requires { length (games_of (progress self.old)) ≤ MOST_GAMES }
        ensures ok { OnOk result (progress self.new ≡ taken (progress self.old) sign) }
        ensures few { OnOk result (length (games_of (progress self.new)) ≤ MOST_GAMES) }
        ensures err { IfErr result (IsRefusedAs (progress self.old) sign) }
    {
        match sign {
            Sign::Tagged(tag) => self.tag(tag),
            Sign::Moved(text) => self.play(text),
            Sign::Ended => self.end(),
        }
    }

    /// A game has begun and not ended.
    fn is_open(&self) -> bool
        ensures { result ≡ is_open (progress self.now) }
    {
        !self.tags.is_empty() || !self.moves.is_empty()
    }

    /// Whether no game is open and none more may begin.
    fn is_full(&self) -> bool
        requires { length (games_of (progress self.now)) ≤ MOST_GAMES }
        ensures { IsTrue result ↔ ((is_open (progress self.now) ≡ false)
            × (length self.now.games.items ≡ MOST_GAMES)) }
    {
        !self.is_open() && self.games.len() == MOST_GAMES
    }

    /// Ends the open game, which is one without tags and moves where none was open.
    fn close(&mut self) -> Result<(), AllocError>
        ensures { OnOk result (progress self.new ≡ closed (progress self.old)) }
    {
        let tags = mem::replace(&mut self.tags, Vec::new(self.alloc));
        let moves = mem::replace(&mut self.moves, Vec::new(self.alloc));
        let game = Game {
            tags: ItemList::from_vec(tags),
            moves: ItemList::from_vec(moves),
        };
        self.games.push(game)?;
        Ok(())
    }

    /// A tag; behind a move it begins the next game.
    fn tag(&mut self, tag: Tag) -> Result<(), PdnRefusal>
        requires { length (games_of (progress self.old)) ≤ MOST_GAMES }
        ensures ok { OnOk result (progress self.new ≡ taken (progress self.old) (Tagged tag)) }
        ensures few { OnOk result (length (games_of (progress self.new)) ≤ MOST_GAMES) }
        ensures err { IfErr result (IsRefusedAs (progress self.old) (Tagged tag)) }
    {
        if !self.moves.is_empty() {
            self.close()?;
        }
        if self.is_full() {
            return Err(PdnRefusal::TooManyGames);
        }
        self.tags
            .push(tag)
            .map_err(|_| PdnRefusal::Memory(AllocError))
    }

    /// A move.
    fn play(&mut self, text: MoveText) -> Result<(), PdnRefusal>
        requires { length (games_of (progress self.old)) ≤ MOST_GAMES }
        ensures ok { OnOk result (progress self.new ≡ taken (progress self.old) (Moved text)) }
        ensures few { OnOk result (length (games_of (progress self.new)) ≤ MOST_GAMES) }
        ensures err { IfErr result (IsRefusedAs (progress self.old) (Moved text)) }
    {
        if self.is_full() {
            return Err(PdnRefusal::TooManyGames);
        }
        self.moves
            .push(text)
            .map_err(|_| PdnRefusal::Memory(AllocError))
    }

    /// A result, which ends the game.
    fn end(&mut self) -> Result<(), PdnRefusal>
        requires { length (games_of (progress self.old)) ≤ MOST_GAMES }
        ensures ok { OnOk result (progress self.new ≡ taken (progress self.old) Ended) }
        ensures few { OnOk result (length (games_of (progress self.new)) ≤ MOST_GAMES) }
        ensures err { IfErr result (IsRefusedAs (progress self.old) Ended) }
    {
        if self.is_full() {
            return Err(PdnRefusal::TooManyGames);
        }
        self.close()?;
        Ok(())
    }

    /// The games, where the text ends here.
    pub(crate) fn finish(mut self) -> Result<Vec<Game>, AllocError>
        ensures { IfOk result (λ games. games.items ≡ games_of (progress self)) }
    {
        if self.is_open() {
            self.close()?;
        }
        Ok(self.games)
    }
}
