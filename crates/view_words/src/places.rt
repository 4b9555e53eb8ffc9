//! What stands at a place of the words, or is missing there.
ghost use Rattle.std.specs.Prelude.{◌≡◌, ◌≢◌, ◌≤◌, ◌<◌, ◌+◌, ℕ, List, ◌∷◌, [], Some, IfOk, IfErr, IfSome, IfNone, OnOk, OnErr, true, false, drop};
ghost use Rattle.bench_edges.specs.Words.{texts};
ghost use Rattle.view_words.specs.Places.{HasNoNumber, LacksNumber, ReadsNumber, ReadsOption};

use bench_edges::WordsRefusal;
use shared_words::number_to;

/// The number from `least` to `most` that stands at a place, if one does.
pub(crate) fn found_at(words: &[&str], at: usize, least: u32, most: u32) -> Option<u32>
    ensures { ReadsNumber least most (drop at (texts words.now)) result }
{
    if at >= words.len() {
        return None;
    }
    match number_to(words[at].as_bytes(), u64::from(most)) {
        Some(n) if n >= u64::from(least) => Some(n as u32),
        _ => None,
    }
}

/// The number from `least` to `most` that stands at a place.
pub(crate) fn number_at(
    words: &[&str],
    at: usize,
    least: u32,
    most: u32,
) -> Result<u32, WordsRefusal>
    ensures read { IfOk result (λ n.
        ReadsNumber least most (drop at (texts words.now)) (Some n)) }
    ensures place { IfErr result (λ refusal. refusal.at ≡ at) }
    ensures other { OnErr result (HasNoNumber least most (drop at (texts words.now))) }
{
    match found_at(words, at, least, most) {
        Some(n) => Ok(n),
        None => Err(WordsRefusal { at }),
    }
}

/// Whether this word stands at a place.
pub(crate) fn stands_at(words: &[&str], at: usize, name: &str) -> bool
    ensures yes { result ≡ true → drop at (texts words.now)
        ≡ name.now ∷ drop (at + 1) (texts words.now) }
    ensures no { result ≡ false → (rest : List (List ℕ)) →
        drop at (texts words.now) ≢ name.now ∷ rest }
{
    at < words.len() && words[at] == name
}

/// The number up to `most` that an option is given, if its name stands at a place; the number is the word behind
/// it.
pub(crate) fn option_at(
    words: &[&str],
    at: usize,
    name: &str,
    most: u32,
) -> Result<Option<u32>, WordsRefusal>
    requires { at < 1000 }
    ensures read { IfOk result (ReadsOption name.now most (drop at (texts words.now))) }
    ensures place { IfErr result (λ refusal. refusal.at ≡ at + 1) }
    ensures other { OnErr result (LacksNumber name.now most (drop at (texts words.now))) }
{
    if !stands_at(words, at, name) {
        return Ok(None);
    }
    let n = number_at(words, at + 1, 0, most)?;
    Ok(Some(n))
}

/// The place behind a number that stands at a place, if one does.
pub(crate) fn behind_number(at: usize, given: Option<u32>) -> usize
    requires { at < 1000 }
    ensures some { IfSome given (λ n. result ≡ at + 1) }
    ensures none { IfNone given (result ≡ at) }
{
    match given {
        Some(_) => at + 1,
        None => at,
    }
}

/// The place behind an option that stands at a place, if it is given.
pub(crate) fn behind_option(at: usize, given: Option<u32>) -> usize
    requires { at < 1000 }
    ensures some { IfSome given (λ n. result ≡ at + 2) }
    ensures none { IfNone given (result ≡ at) }
{
    match given {
        Some(_) => at + 2,
        None => at,
    }
}

/// The place behind a word that stands at a place, if it is said.
pub(crate) fn behind_word(at: usize, said: bool) -> usize
    requires { at < 1000 }
    ensures yes { said ≡ true → result ≡ at + 1 }
    ensures no { said ≡ false → result ≡ at }
{
    if said { at + 1 } else { at }
}

/// Refuses a word that stands at a place.
pub(crate) fn end_at(words: &[&str], at: usize) -> Result<(), WordsRefusal>
    ensures end { OnOk result (drop at (texts words.now) ≡ []) }
    ensures place { IfErr result (λ refusal. refusal.at ≡ at) }
    ensures more { OnErr result (drop at (texts words.now) ≢ []) }
{
    if at < words.len() {
        return Err(WordsRefusal { at });
    }
    Ok(())
}
