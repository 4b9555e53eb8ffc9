//! What a command has to write.
ghost use Rattle.std.specs.Prelude.{◌≡◌, true};

/// What a command has to write, whole in memory.
#[derive(Drop)]
pub struct Written {
    pub text: Vec<u8>,
    /// No value in it is `unsolved`.
    pub is_settled: bool,
}

impl Written {
    /// A text that says of no root that it is unsolved.
    pub fn settled(text: Vec<u8>) -> Written
        ensures text { result.text ≡ text }
        ensures settled { result.is_settled ≡ true }
    {
        Written {
            text,
            is_settled: true,
        }
    }
}
