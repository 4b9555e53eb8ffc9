//! Reading the words.
ghost use Rattle.std.specs.Prelude.{◌≡◌, ◌≢◌, IfErr, IfNone, IfOk, IfSome, Ok};
ghost use Rattle.bench_edges.specs.Words.{texts};
ghost use Rattle.view_words.specs.Words.{IsRefusedAt, Says, kind_word};
ghost use Rattle.view_words.specs.declared.requests.Kind.{Kind as Named};
ghost use Rattle.view_words.specs.declared.requests.Request.{Request as Asked};

use crate::commands::{read_line, read_page, read_records, read_roots, read_tree};
use crate::requests::{Kind, Request};
use bench_edges::WordsRefusal;

/// What a word names.
fn kind_named(word: &str) -> Option<Kind>
    ensures some { IfSome result (λ kind. word.now ≡ kind_word kind) }
    ensures none { IfNone result ((kind : Named) → word.now ≢ kind_word kind) }
{
    match word {
        "roots" => Some(Kind::Roots),
        "line" => Some(Kind::Line),
        "tree" => Some(Kind::Tree),
        "page" => Some(Kind::Page),
        "records" => Some(Kind::Records),
        _ => None,
    }
}

/// Reads the words, without the program's name: the journal's path, which is not empty, then what is shown,
/// and behind that, in this order:
///
/// - `roots`: perhaps `--plies` with a number up to 200, perhaps `--json`;
/// - `line`: the number of a root, 1 to 65,536, perhaps `--plies` with a number up to 40;
/// - `tree`: the number of a root, perhaps `--plies` with a number up to 500, `--nodes` with a number up to
///   100,000, and `--json`;
/// - `page`: perhaps the number of a root, perhaps `--nodes` as above;
/// - `records`: perhaps `--json`.
///
/// Refuses other words at the first that cannot stand where it stands (places count from 0), or at
/// their number where one is missing.
pub fn read_words(words: &[&str]) -> Result<Request, WordsRefusal>
    ensures request { IfOk result (λ asked. Says (texts words.now) asked) }
    ensures each_request { (request : Asked) → Says (texts words.now) request →
        result ≡ Ok request }
    ensures refused { IfErr result (λ refusal. IsRefusedAt (texts words.now) refusal.at) }
{
    if words.is_empty() || words[0].is_empty() {
        return Err(WordsRefusal { at: 0 });
    }
    if words.len() == 1 {
        return Err(WordsRefusal { at: 1 });
    }
    let Some(kind) = kind_named(words[1]) else {
        return Err(WordsRefusal { at: 1 });
    };
    match kind {
        Kind::Roots => read_roots(words),
        Kind::Line => read_line(words),
        Kind::Tree => read_tree(words),
        Kind::Page => read_page(words),
        Kind::Records => read_records(words),
    }
}
