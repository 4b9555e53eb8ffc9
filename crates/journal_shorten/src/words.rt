//! The words that the program is called with.
ghost use Rattle.std.specs.Prelude.{◌≡◌, ◌≢◌, IfErr, IfNone, IfOk, IfSome, Ok};
ghost use Rattle.bench_edges.specs.Words.{texts};
ghost use Rattle.journal_shorten.specs.Words.{IsRefusedAt, Says, task_word};
ghost use Rattle.journal_shorten.specs.declared.words.Task.{Task as Asked};

use bench_edges::WordsRefusal;

/// What is asked of two journals.
#[derive(Clone, Copy, Debug, PartialEq, Eq)]
pub enum Task {
    /// Write the second one, so that it stands for the first.
    Shorten,
    /// Tell which of them counts.
    Which,
}

/// The task that a word names.
fn task_named(word: &str) -> Option<Task>
    ensures some { IfSome result (λ task. word.now ≡ task_word task) }
    ensures none { IfNone result ((task : Asked) → word.now ≢ task_word task) }
{
    match word {
        "shorten" => Some(Task::Shorten),
        "which" => Some(Task::Which),
        _ => None,
    }
}

/// Reads the words, without the program's name: `shorten` or `which`, and the paths of two journals.
/// Neither path is empty, and they differ.
///
/// Refuses other words at the first that cannot stand where it stands (places count from 0), or at
/// their number where one is missing.
pub fn read_words(words: &[&str]) -> Result<Task, WordsRefusal>
    ensures task { IfOk result (λ task. Says (texts words.now) task) }
    ensures each_task { (task : Asked) → Says (texts words.now) task → result ≡ Ok task }
    ensures refused { IfErr result (λ refusal. IsRefusedAt (texts words.now) refusal.at) }
{
    if words.is_empty() {
        return Err(WordsRefusal { at: 0 });
    }
    let Some(task) = task_named(words[0]) else {
        return Err(WordsRefusal { at: 0 });
    };
    if words.len() == 1 || words[1].is_empty() {
        return Err(WordsRefusal { at: 1 });
    }
    if words.len() == 2 || words[2].is_empty() || words[2] == words[1] {
        return Err(WordsRefusal { at: 2 });
    }
    if words.len() > 3 {
        return Err(WordsRefusal { at: 3 });
    }
    Ok(task)
}
