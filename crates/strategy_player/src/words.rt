//! The words that the program is called with.
ghost use Rattle.std.specs.Prelude.{◌≡◌, ◌≢◌, ℕ, IfErr, IfNone, IfOk, IfSome, Ok, Err, decimal};
ghost use Rattle.bench_edges.specs.Words.{IsRootNumber, texts};
ghost use Rattle.certificate_text.specs.Lines.{side_word};
ghost use Rattle.draughts_board.specs.declared.pieces.Side.{Side as Player};
ghost use Rattle.strategy_player.specs.Words.{IsRefusedAt, Says};

use bench_edges::{LEAST_ROOT, MOST_ROOT, WordsRefusal};
use draughts_board::Side;
use shared_words::number_to;

/// What is asked: a play of this side from this root of the journal, counted from 1.
#[derive(Clone, Copy, Debug, PartialEq, Eq)]
pub struct Request {
    pub root: u32,
    pub side: Side,
}

/// The root that a word numbers, from 1.
fn root_numbered(word: &str) -> Option<u32>
    ensures some { IfSome result (λ n. IsRootNumber n × (word.now ≡ decimal n)) }
    ensures none { IfNone result ((n : ℕ) → IsRootNumber n → word.now ≢ decimal n) }
{
    match number_to(word.as_bytes(), u64::from(MOST_ROOT)) {
        Some(n) if n >= u64::from(LEAST_ROOT) => Some(n as u32),
        _ => None,
    }
}

/// The side that a word names.
fn side_named(word: &str) -> Option<Side>
    ensures some { IfSome result (λ side. word.now ≡ side_word side) }
    ensures none { IfNone result ((side : Player) → word.now ≢ side_word side) }
{
    match word {
        "black" => Some(Side::Black),
        "white" => Some(Side::White),
        _ => None,
    }
}

/// Reads the words, without the program's name: the journal's path, which is not empty, the number
/// of a root, 1 to 65,536, and `black` or `white`.
///
/// Refuses other words at the first that cannot stand where it stands (places count from 0), or at
/// their number where one is missing.
pub fn read_words(words: &[&str]) -> Result<Request, WordsRefusal>
    ensures request { IfOk result (λ asked. Says (texts words.now) asked.root asked.side) }
    ensures each_request { (root : ℕ) (side : Player) → Says (texts words.now) root side →
        result ≡ Ok (record { root = root; side = side }) }
    ensures refused { IfErr result (λ refusal. IsRefusedAt (texts words.now) refusal.at) }
{
    if words.is_empty() || words[0].is_empty() {
        return Err(WordsRefusal { at: 0 });
    }
    if words.len() == 1 {
        return Err(WordsRefusal { at: 1 });
    }
    let Some(root) = root_numbered(words[1]) else {
        return Err(WordsRefusal { at: 1 });
    };
    if words.len() == 2 {
        return Err(WordsRefusal { at: 2 });
    }
    let Some(side) = side_named(words[2]) else {
        return Err(WordsRefusal { at: 2 });
    };
    if words.len() > 3 {
        return Err(WordsRefusal { at: 3 });
    }
    Ok(Request { root, side })
}
