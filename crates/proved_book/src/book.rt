//! The book, what it takes over and what it answers.
ghost use Rattle.std.specs.Prelude.{◌≡◌, ◌↔◌, ◌⊎◌, ◌∷◌, [], IfOk, IsTrue, OnErr, OnOk};
ghost use Rattle.strategy_certificate.specs.declared.claims.Claim.TheVariants as claim;
ghost use Rattle.strategy_certificate.specs.declared.certificates.Part.TheVariants as parts;
ghost use Rattle.strategy_certificate.specs.Parts.{HasEntry, WinList, HoldList};
ghost use Rattle.strategy_certificate.specs.Certificates.{IsGoodWinPart, IsGoodHoldPart};
ghost use Rattle.certificate_checker.specs.OneParts.{with_part};
ghost use Rattle.proved_book.specs.Trimming.{IsTrimmedWin, IsTrimmedHold};

use crate::trimming::{trim_holds, trim_wins};
use certificate_checker::{ProofList, Proved, prove_part};
use draughts_board::{Position, Side};
use proof_numbers::Facts;
use std::alloc::{AllocError, Global};
use std::marker::Model;
use strategy_certificate::{
    HoldPart, Oracle, Part, WinPart, has_short_ranks, merge_holds, merge_wins, short_ranks,
};

/// The certificate that a win part gives for one of its positions.
fn win_of<O: Oracle>(
    alloc: Global,
    part: &WinPart,
    p: &Position,
    oracle: &O,
) -> Result<Proved, AllocError>
    requires good { IsGoodWinPart part.now (O.answer_at oracle.now) }
    requires entry { HasEntry part.now.entries p.now }
    ensures { IfOk result (λ c. (kept : WinList) × (IsTrimmedWin part.now p.now kept
        × (c ≡ with_part (O.piece_limit oracle.now) p.now (parts.Win kept)))) }
{
    let kept = trim_wins(alloc, part, p)?;
    prove_part(alloc, p, Part::Win(kept), oracle)
}

/// The certificate that a hold part gives for one of its positions.
fn hold_of<O: Oracle>(
    alloc: Global,
    part: &HoldPart,
    p: &Position,
    oracle: &O,
) -> Result<Proved, AllocError>
    requires good { IsGoodHoldPart part.now (O.answer_at oracle.now) }
    requires entry { HasEntry part.now.entries p.now }
    ensures { IfOk result (λ c. (kept : HoldList) × (IsTrimmedHold part.now p.now kept
        × (c ≡ with_part (O.piece_limit oracle.now) p.now (parts.Hold kept)))) }
{
    let kept = trim_holds(alloc, part, p)?;
    prove_part(alloc, p, Part::Hold(kept), oracle)
}

/// The win part has an entry of the position.
fn has_win(part: &WinPart, p: &Position) -> bool
    ensures { IsTrue result ↔ HasEntry part.now.entries p.now }
{
    part.find(p).is_some()
}

/// The hold part has an entry of the position.
fn has_hold(part: &HoldPart, p: &Position) -> bool
    ensures { IsTrue result ↔ HasEntry part.now.entries p.now }
{
    part.find(p).is_some()
}

/// One of the two parts has an entry of the position.
fn has_either(wins: &WinPart, holds: &HoldPart, p: &Position) -> bool
    ensures { IsTrue result ↔ (HasEntry wins.now.entries p.now ⊎ HasEntry holds.now.entries p.now) }
{
    if has_win(wins, p) {
        return true;
    }
    has_hold(holds, p)
}

/// Proved strategies, all for the endgame table of `pieces` pieces: a win part and a hold part for
/// each side, into which the parts of certificates are merged.
#[derive(Drop)]
pub struct Book {
    pieces: u8,
    black_wins: WinPart,
    white_wins: WinPart,
    black_holds: HoldPart,
    white_holds: HoldPart,
    alloc: Global,
}

impl Model for Book {
    ghost use Rattle.proved_book.specs.Books.{Strategies, IsBook};

    ghost Value = { Strategies };

    ghost view = { λ b. record {
      pieces = b.pieces;
      black_wins = b.black_wins;
      white_wins = b.white_wins;
      black_holds = b.black_holds;
      white_holds = b.white_holds;
    } };

    ghost invariant = { λ b. IsBook (record {
      pieces = b.pieces;
      black_wins = b.black_wins;
      white_wins = b.white_wins;
      black_holds = b.black_holds;
      white_holds = b.white_holds;
    }) };
}

impl Book {
    ghost use Rattle.draughts_board.specs.declared.pieces.Side.TheVariants.{Black, White};
    ghost use Rattle.strategy_certificate.specs.Certificates.{claim_of};
    ghost use Rattle.strategy_certificate.specs.Tables.{IsTableSize};
    ghost use Rattle.strategy_certificate.specs.Claims.{HasShortRanks};
    ghost use Rattle.proof_numbers.specs.Facts.{known};
    ghost use Rattle.proved_book.specs.Books.{AreTrueFacts, HasTable, IsAnsweredBy, IsBook, IsGoodByEach, IsGoodHoldByEach, IsGoodWinByEach, Knows, TakesOver, TakesOverAll, empty_book, with_hold, with_win};

    /// A book without entries, for an endgame table of 2 or 3 pieces.
    pub fn new(alloc: Global, pieces: u8) -> Result<Book, AllocError>
        requires { IsTableSize pieces }
        ensures { IfOk result (λ book. book ≡ empty_book pieces) }
    {
        Ok(Book {
            pieces,
            black_wins: WinPart::new(alloc, Side::Black)?,
            white_wins: WinPart::new(alloc, Side::White)?,
            black_holds: HoldPart::new(alloc, Side::Black)?,
            white_holds: HoldPart::new(alloc, Side::White)?,
            alloc,
        })
    }

    /// The facts that the position has by being an entry. Each of them is true.
    pub fn facts(&self, p: &Position) -> Facts
        ensures exact { Knows self.now p.now (known result) }
        ensures truth { AreTrueFacts p.now (known result) }
    {
        let black_wins = has_win(&self.black_wins, p);
        let white_wins = has_win(&self.white_wins, p);
        let black_holds = has_either(&self.black_wins, &self.black_holds, p);
        let white_holds = has_either(&self.white_wins, &self.white_holds, p);
        Facts {
            black_wins,
            white_wins,
            black_holds,
            white_holds,
        }
    }

    /// What answers a search of the position: the certificate of a win, or else those of both holds;
    /// nothing where neither is known.
    pub fn answer<O: Oracle>(
        &self,
        p: &Position,
        oracle: &O,
    ) -> Result<Option<ProofList>, AllocError>
        requires { O.piece_limit oracle.now ≡ self.now.pieces }
        ensures exact { IfOk result (IsAnsweredBy self.now p.now) }
        ensures valid { IsBook self.now }
    {
        let _pieces = oracle.pieces();
        if has_win(&self.black_wins, p) {
            let won = win_of(self.alloc, &self.black_wins, p, oracle)?;
            let mut proofs = Vec::new(self.alloc);
            proofs.push(won)?;
            return Ok(Some(ProofList::from_vec(proofs)));
        }
        if has_win(&self.white_wins, p) {
            let won = win_of(self.alloc, &self.white_wins, p, oracle)?;
            let mut proofs = Vec::new(self.alloc);
            proofs.push(won)?;
            return Ok(Some(ProofList::from_vec(proofs)));
        }
        if !has_hold(&self.black_holds, p) {
            return Ok(None);
        }
        if !has_hold(&self.white_holds, p) {
            return Ok(None);
        }
        let black = hold_of(self.alloc, &self.black_holds, p, oracle)?;
        let white = hold_of(self.alloc, &self.white_holds, p, oracle)?;
        let mut proofs = Vec::new(self.alloc);
        proofs.push(black)?;
        proofs.push(white)?;
        Ok(Some(ProofList::from_vec(proofs)))
    }

    /// Merges a win part into that of its side. After want of memory the book is as it was.
    fn add_win(&mut self, part: &WinPart) -> Result<(), AllocError>
        requires table { HasTable self.old.pieces }
        requires good { IsGoodWinByEach self.old.pieces part.now }
        requires short { HasShortRanks (parts.Win part.now) }
        ensures added { OnOk result (self.new ≡ with_win part.now.side part.now self.old) }
        ensures err { OnErr result (self.new ≡ self.old) }
    {
        match part.side() {
            Side::Black => merge_wins(self.alloc, &mut self.black_wins, part),
            Side::White => merge_wins(self.alloc, &mut self.white_wins, part),
        }
    }

    /// Merges a hold part into that of its side. After want of memory the book is as it was.
    fn add_hold(&mut self, part: &HoldPart) -> Result<(), AllocError>
        requires table { HasTable self.old.pieces }
        requires good { IsGoodHoldByEach self.old.pieces part.now }
        ensures added { OnOk result (self.new ≡ with_hold part.now.side part.now self.old) }
        ensures err { OnErr result (self.new ≡ self.old) }
    {
        match part.side() {
            Side::Black => merge_holds(self.alloc, &mut self.black_holds, part),
            Side::White => merge_holds(self.alloc, &mut self.white_holds, part),
        }
    }

    /// Merges the hold parts of a draw. After want of memory the book is as it was.
    fn add_holds(&mut self, black: &HoldPart, white: &HoldPart) -> Result<(), AllocError>
        requires table { HasTable self.old.pieces }
        requires black { black.now.side ≡ Black }
        requires white { white.now.side ≡ White }
        requires good { IsGoodHoldByEach self.old.pieces black.now }
        requires good_too { IsGoodHoldByEach self.old.pieces white.now }
        ensures added { OnOk result (self.new
            ≡ with_hold White white.now (with_hold Black black.now self.old)) }
        ensures err { OnErr result (self.new ≡ self.old) }
    {
        let count = self.black_holds.len();
        merge_holds(self.alloc, &mut self.black_holds, black)?;
        match merge_holds(self.alloc, &mut self.white_holds, white) {
            Ok(()) => Ok(()),
            Err(error) => {
                self.black_holds.truncate(count);
                Err(error)
            }
        }
    }

    /// Takes over a part. After want of memory the book is as it was.
    fn take(&mut self, part: &Part) -> Result<(), AllocError>
        requires table { HasTable self.old.pieces }
        requires good { IsGoodByEach self.old.pieces part.now }
        ensures added { OnOk result (TakesOver self.old part.now self.new) }
        ensures err { OnErr result (self.new ≡ self.old) }
    {
        match part {
            Part::Win(wins) => {
                if has_short_ranks(part) {
                    return self.add_win(wins);
                }
                let kept = short_ranks(self.alloc, wins)?;
                self.add_win(&kept)
            }
            Part::Hold(holds) => self.add_hold(holds),
        }
    }

    /// Takes over the two parts of a draw. After want of memory the book is as it was.
    fn take_both(&mut self, black: &Part, white: &Part) -> Result<(), AllocError>
        requires table { HasTable self.old.pieces }
        requires black { claim_of black.now ≡ claim.Hold Black }
        requires white { claim_of white.now ≡ claim.Hold White }
        requires good { IsGoodByEach self.old.pieces black.now }
        requires good_too { IsGoodByEach self.old.pieces white.now }
        ensures added { OnOk result (TakesOverAll self.old (black.now ∷ white.now ∷ []) self.new) }
        ensures err { OnErr result (self.new ≡ self.old) }
    {
        let (Part::Hold(black), Part::Hold(white)) = (black, white) else {
            unreachable!()
        };
        self.add_holds(black, white)
    }

    /// Takes over each part of a certificate, a win part that is not short by its short ranks.
    ///
    /// After want of memory the book is as it was.
    pub fn add(&mut self, proved: Proved) -> Result<(), AllocError>
        requires { proved.pieces ≡ self.old.pieces }
        ensures added { OnOk result (TakesOverAll self.old proved.parts self.new) }
        ensures err { OnErr result (self.new ≡ self.old) }
        ensures pieces { self.new.pieces ≡ self.old.pieces }
    {
        let certificate = proved.into_certificate();
        let parts = certificate.parts.as_slice();
        if parts.len() == 1 {
            return self.take(&parts[0]);
        }
        self.take_both(&parts[0], &parts[1])
    }
}
