//! The words of the command line.
ghost use Rattle.std.specs.Prelude.{◌≡◌, ◌≢◌, ◌⊎◌, [], ◌∷◌, None, IfErr, IfSome, IsSome, codes, map};
ghost use Rattle.bench_edges.specs.Status.{status_number};
ghost use Rattle.bench_edges.specs.declared.status.Status.TheVariants as status;
ghost use Rattle.bench_edges.specs.Words.{texts};

use bench_edges::Status;
use std::alloc::Global;
use std::{env, io};

/// The exit status where the words cannot be had for another cause than want of memory. No
/// [`Status`] has it.
pub const NO_WORDS: u8 = 9;

/// The words of the command line without the program's name; or the exit status where they cannot
/// be had: that of [`Status::Memory`] for want of memory, and else [`NO_WORDS`].
pub fn args(rt: &HostRuntime) -> Result<Vec<String>, u8>
    ensures refused { IfErr result (λ number.
        (number ≡ status_number status.Memory) ⊎ (number ≡ NO_WORDS)) }
{
    let args = match env::args(rt) {
        Ok(args) => args,
        Err(error) if error.kind() == io::ErrorKind::OutOfMemory => return Err(
            Status::Memory.number(),
        ),
        Err(_) => return Err(NO_WORDS),
    };
    args.skip(1)
        .collect(rt.alloc())
        .map_err(|_| Status::Memory.number())
}

/// The words, borrowed, in their order; or the exit status where there is no memory for them.
pub fn words_of(alloc: Global, args: &[String]) -> Result<Vec<&str>, u8>
    ensures refused { IfErr result (λ number. number ≡ status_number status.Memory) }
{
    args.iter()
        .map(|word| word.as_str())
        .collect(alloc)
        .map_err(|_| Status::Memory.number())
}

/// What a program tells of itself, where that alone is asked: `usage` for the one word `--help`,
/// and `version` for the one word `--version`.
pub fn told<'a>(words: &[&str], usage: &'a str, version: &'a str) -> Option<&'a str>
    ensures usage { texts words.now ≡ codes "--help" ∷ [] →
        IsSome result × IfSome result (λ text. text.now ≡ usage.now) }
    ensures version { texts words.now ≡ codes "--version" ∷ [] →
        IsSome result × IfSome result (λ text. text.now ≡ version.now) }
    ensures other { texts words.now ≢ codes "--help" ∷ []
        → texts words.now ≢ codes "--version" ∷ [] → result ≡ None }
{
    if words.len() != 1 {
        return None;
    }
    match words[0] {
        "--help" => Some(usage),
        "--version" => Some(version),
        _ => None,
    }
}
