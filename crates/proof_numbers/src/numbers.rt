//! Numbers with infinity.
ghost use Rattle.std.specs.Prelude.{◌≡◌, ◌^◌};
ghost use Rattle.proof_numbers.specs.Numbers.{least, total, is_resolved, is_zero, IsFinitely};

/// How many leaves are still to be settled, at least.
#[derive(Clone, Copy, PartialEq, Eq, Debug)]
pub enum Number {
    /// How many leaves; 0 where the goal is shown, or refuted, already.
    Finite(u128),
    /// No leaves will do: the contrary is shown.
    Infinite,
}

impl Number {
    /// It is 0.
    pub fn is_zero(self) -> bool
        ensures { result ≡ is_zero self }
    {
        match self {
            Number::Finite(n) => n == 0,
            Number::Infinite => false,
        }
    }
}

/// The proof number and the disproof number of a node for a goal.
#[derive(Clone, Copy, PartialEq, Eq, Debug)]
pub struct Numbers {
    /// How many leaves are to be settled until the goal is shown.
    pub proof: Number,
    /// How many leaves are to be settled until the goal is refuted.
    pub disproof: Number,
}

impl Numbers {
    /// The goal is shown or refuted.
    pub fn is_resolved(&self) -> bool
        ensures { result ≡ is_resolved self.now }
    {
        self.proof.is_zero() || self.disproof.is_zero()
    }
}

/// The lesser of the two.
pub fn least(a: Number, b: Number) -> Number
    ensures { result ≡ least a b }
{
    match (a, b) {
        (Number::Finite(m), Number::Finite(n)) => Number::Finite(m.min(n)),
        (Number::Finite(m), Number::Infinite) => Number::Finite(m),
        (Number::Infinite, b) => b,
    }
}

/// The sum of the two. The caller knows that a finite sum fits a `u128`.
pub fn total(a: Number, b: Number) -> Number
    requires { IsFinitely (2 ^ 128) (total a b) }
    ensures { result ≡ total a b }
{
    match (a, b) {
        (Number::Finite(m), Number::Finite(n)) => Number::Finite(m + n),
        _ => Number::Infinite,
    }
}
