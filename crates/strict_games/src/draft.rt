//! A game that is being written.
ghost use Rattle.std.specs.Prelude.{◌≡◌, IfOk};
ghost use Rattle.strict_games.specs.Drafts.{begins};

use crate::printing::{Layout, Score, printed};
use crate::spelling::move_meant;
use crate::tags::{TagRefusal, cleaned, tag_fault};
use draughts_board::{Move, Position, ResolveRefusal, Square};
use pdn_text::Tag;
use shared_words::ItemList;
use std::alloc::{AllocError, Global};
use std::marker::Model;
use swift_moves::apply;

/// A game that is being written: where it begins, its tags, its moves, and the position that they
/// lead to.
#[derive(Drop)]
pub struct Draft {
    alloc: Global,
    set_up: Option<Position>,
    tags: Vec<Tag>,
    moves: Vec<Move>,
    here: Position,
}

impl Model for Draft {
    ghost use Rattle.strict_games.specs.Drafting.{IsDraft};
    ghost use Rattle.strict_games.specs.Drafts.{Drafted};

    ghost Value = { Drafted };

    ghost view = { λ d. record {
      set_up = d.set_up;
      tags = d.tags.items;
      moves = d.moves.items;
      here = d.here;
    } };

    ghost invariant = { λ d. IsDraft d.set_up d.tags.items d.moves.items d.here };
}

/// Where a game begins: from its own position, if it has one, else from the start.
fn begins(set_up: &Option<Position>) -> Position
    ensures { result ≡ begins set_up.now }
{
    match set_up {
        Some(p) => *p,
        None => Position::start(),
    }
}

impl Draft {
    ghost use Rattle.std.specs.Prelude.{◌∷◌, ◌++◌, [], OnOk, OnErr, IfErr, None, Some, Err};
    ghost use Rattle.std.specs.Bool.{OnFalse};
    ghost use Rattle.draughts_board.specs.Resolution.{matches, meaning, resolve_wants_memory};
    ghost use Rattle.strict_games.specs.Drafts.{IsTextOf, begins, unplaced};
    ghost use Rattle.strict_games.specs.Playing.{Plays, PlaysWritten};
    ghost use Rattle.pdn_openings.specs.Playing.{meaning_of};
    ghost use Rattle.strict_games.specs.Tags.{cleaned, tag_fault, tag_wants_memory};

    /// A game without tags and moves, which begins from this position, or from the start of a game.
    pub fn new(alloc: Global, set_up: Option<Position>) -> Draft
        ensures { result ≡ record { set_up = set_up; tags = []; moves = []; here = begins set_up } }
    {
        let here = begins(&set_up);
        Draft {
            alloc,
            set_up,
            tags: Vec::new(alloc),
            moves: Vec::new(alloc),
            here,
        }
    }

    /// The position that the moves so far lead to.
    pub fn position(&self) -> Position
        ensures { result ≡ self.now.here }
    {
        self.here
    }

    /// The position of its own that it begins from, if it has one.
    pub fn set_up(&self) -> &Option<Position>
        ensures { result.now ≡ self.now.set_up }
    {
        &self.set_up
    }

    /// Its tags, beside that of its position.
    pub fn tags(&self) -> &[Tag]
        ensures { result.now ≡ self.now.tags }
    {
        self.tags.as_slice()
    }

    /// Its moves, each with the squares that it is written with.
    pub fn moves(&self) -> &[Move]
        ensures { result.now ≡ self.now.moves }
    {
        self.moves.as_slice()
    }

    /// Makes room for `moves` further moves.
    pub fn reserve(&mut self, moves: usize) -> Result<(), AllocError>
        ensures { self.new ≡ self.old }
    {
        self.moves.reserve(moves)
    }

    /// Adds a tag behind those that the game has. The bytes 10 and 13 of its value become blanks.
    ///
    /// Refused are a name that is not a letter followed by letters, digits and `_`; the name `FEN`,
    /// since the position is a draft's own; and a `GameType` of another game than English draughts.
    pub fn tag(&mut self, name: &[u8], value: &[u8]) -> Result<(), TagRefusal>
        ensures ok { OnOk result (self.new ≡ record self.old {
          tags = self.old.tags ++ record { name = name.now; value = cleaned value.now } ∷ [];
        }) }
        ensures none { OnOk result (tag_fault name.now value.now ≡ None) }
        ensures refused { IfErr result (λ e.
            OnFalse (tag_wants_memory e) (tag_fault name.now value.now ≡ Some e)) }
        ensures err { OnErr result (self.new ≡ self.old) }
    {
        if let Some(fault) = tag_fault(name, value) {
            return Err(fault);
        }
        let name = Vec::from_slice(self.alloc, name).map_err(TagRefusal::Memory)?;
        let value = cleaned(self.alloc, value).map_err(TagRefusal::Memory)?;
        let tag = Tag {
            name: ItemList::from_vec(name),
            value: ItemList::from_vec(value),
        };
        self.tags
            .push(tag)
            .map_err(|_| TagRefusal::Memory(AllocError))
    }

    /// Plays the legal move that is written with these ends and, if any are named, these squares in
    /// between, as `swift_moves::resolve` says. After a refusal the game is what it was.
    pub fn play(
        &mut self,
        from: Square,
        middle: &[Square],
        to: Square,
    ) -> Result<(), ResolveRefusal>
        ensures ok { OnOk result (Plays from middle.now to self.old self.new) }
        ensures refused { IfErr result (λ cause. OnFalse (resolve_wants_memory cause)
            (meaning self.old.here (matches self.old.here from middle.now to) ≡ Err cause)) }
        ensures err { OnErr result (self.new ≡ self.old) }
    {
        let found = move_meant(self.alloc, &self.here, from, middle, to)?;
        self.moves
            .push(found.written)
            .map_err(|_| ResolveRefusal::Memory(AllocError))?;
        self.here = apply(&self.here, &found.played);
        Ok(())
    }

    /// Plays the legal move that is written with these squares: its first and its last, and those
    /// between if any are named. After a refusal the game is what it was.
    pub fn play_written(&mut self, written: &Move) -> Result<(), ResolveRefusal>
        ensures ok { OnOk result (PlaysWritten written.now self.old self.new) }
        ensures refused { IfErr result (λ cause. OnFalse (resolve_wants_memory cause)
            (meaning_of self.old.here (unplaced written.now) ≡ Err cause)) }
        ensures err { OnErr result (self.new ≡ self.old) }
    {
        let squares = written.path();
        let last = squares.len() - 1;
        self.play(squares[0], &squares[1..last], squares[last])
    }

    /// The game's text with this result, which ends with byte 10: `[FEN "..."]` first where the game
    /// has a position of its own, the tags, the moves with their numbers, the result.
    pub fn text(&self, score: Score, layout: Layout) -> Result<Vec<u8>, AllocError>
        ensures { IfOk result (λ text. IsTextOf self.now text.items) }
    {
        printed(
            self.alloc,
            &self.set_up,
            self.tags.as_slice(),
            begins(&self.set_up).to_move(),
            self.moves.as_slice(),
            score,
            layout,
        )
    }
}
