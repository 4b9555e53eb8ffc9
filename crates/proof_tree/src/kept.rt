//! Numbers as rows keep them, in four bytes each.
ghost use Rattle.std.specs.Prelude.{◌≡◌, ◌-◌, ◌^◌};
ghost use Rattle.proof_numbers.specs.declared.numbers.Number.TheVariants as number;
ghost use Rattle.proof_numbers.specs.Numbers.{least, total, is_resolved, is_zero, IsFinitely};
ghost use Rattle.proof_tree.specs.Picking.{is_below, left_to_show};
ghost use Rattle.proof_tree.specs.Sums.{IsKeepable};

use proof_numbers::{Number, Numbers};
use std::marker::Model;

/// The word that stands for infinity.
const INFINITE: u32 = u32::MAX;

/// A number as a row keeps it. A contract sees the number.
#[derive(Clone, Copy)]
pub(crate) struct KeptNumber {
    word: u32,
}

impl Model for KeptNumber {
    ghost use Rattle.proof_numbers.specs.declared.numbers.Number.{Number};
    ghost use Rattle.proof_tree.specs.Kept.{number_of_word, word_of, word_back};

    ghost Value = { Number };

    ghost view = { λ k. number_of_word k.word };

    ghost inverse = { λ n. record { word = word_of n } };

    ghost inverse_ok = { λ k h i. record { word = word_back k.word i } };
}

impl KeptNumber {
    /// No leaf is left to settle.
    pub(crate) fn zero() -> KeptNumber
        ensures { result ≡ number.Finite 0 }
    {
        KeptNumber { word: 0 }
    }

    /// No leaves will do.
    pub(crate) fn infinite() -> KeptNumber
        ensures { result ≡ number.Infinite }
    {
        KeptNumber { word: INFINITE }
    }

    /// This number, which is below 2^32 - 1 where it is finite.
    fn of(number: Number) -> KeptNumber
        requires { IsFinitely (2 ^ 32 - 1) number }
        ensures { result ≡ number }
    {
        match number {
            Number::Finite(n) => KeptNumber { word: n as u32 },
            Number::Infinite => KeptNumber { word: INFINITE },
        }
    }

    /// The number.
    fn number(self) -> Number
        ensures { result ≡ self }
    {
        if self.word == INFINITE {
            Number::Infinite
        } else {
            Number::Finite(self.word as u128)
        }
    }

    /// It is 0.
    pub(crate) fn is_zero(self) -> bool
        ensures { result ≡ is_zero self }
    {
        self.word == 0
    }

    /// It is less than the other.
    pub(crate) fn is_below(self, other: KeptNumber) -> bool
        ensures { result ≡ is_below self other }
    {
        self.word < other.word
    }

    /// The lesser of the two.
    pub(crate) fn least(self, other: KeptNumber) -> KeptNumber
        ensures { result ≡ least self other }
    {
        KeptNumber {
            word: self.word.min(other.word),
        }
    }

    /// The sum of the two. The caller knows that a finite sum is below 2^32 - 1.
    pub(crate) fn total(self, other: KeptNumber) -> KeptNumber
        requires { IsFinitely (2 ^ 32 - 1) (total self other) }
        ensures { result ≡ total self other }
    {
        KeptNumber {
            word: self.word.saturating_add(other.word),
        }
    }
}

/// A proof and a disproof number as a row keeps them. A contract sees the numbers.
#[derive(Clone, Copy)]
pub(crate) struct KeptNumbers {
    pub(crate) proof: KeptNumber,
    pub(crate) disproof: KeptNumber,
}

impl Model for KeptNumbers {
    ghost use Rattle.proof_numbers.specs.declared.numbers.Numbers.{Numbers};

    ghost Value = { Numbers };

    ghost view = { λ k. record { proof = k.proof; disproof = k.disproof } };

    ghost inverse = { λ n. record { proof = n.proof; disproof = n.disproof } };
}

impl KeptNumbers {
    /// These numbers, each below 2^32 - 1 where it is finite.
    pub(crate) fn of(numbers: Numbers) -> KeptNumbers
        requires { IsKeepable numbers }
        ensures { result ≡ numbers }
    {
        KeptNumbers {
            proof: KeptNumber::of(numbers.proof),
            disproof: KeptNumber::of(numbers.disproof),
        }
    }

    /// The numbers.
    pub(crate) fn numbers(&self) -> Numbers
        ensures { result ≡ self.now }
    {
        Numbers {
            proof: self.proof.number(),
            disproof: self.disproof.number(),
        }
    }

    /// The proof number, or the disproof number.
    pub(crate) fn left_to_show(&self, by_proof: bool) -> KeptNumber
        ensures { result ≡ left_to_show by_proof self.now }
    {
        if by_proof { self.proof } else { self.disproof }
    }

    /// The goal is shown or refuted.
    pub(crate) fn is_resolved(&self) -> bool
        ensures { result ≡ is_resolved self.now }
    {
        self.proof.is_zero() || self.disproof.is_zero()
    }
}
