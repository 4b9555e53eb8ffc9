//! What is written of a run that is not refused.
ghost use Rattle.std.specs.Prelude.{◌≡◌, ◌≤◌, ◌+◌, ◌++◌, decimal, length};
ghost use Rattle.arrayvec.specs.ArrayString.{array_string_len};
ghost use Rattle.journal_shorten.specs.Texts.{answer_line, chosen_line, sizes_line};

use crate::ended::Answer;
use arrayvec::ArrayString;
use itoa::Buffer;
use journal_shortening::{Chosen, Sizes};

/// Appends a label and a number in decimal.
fn push_labelled(line: &mut ArrayString<128>, label: &str, n: u64)
    requires short { length label.now ≤ 9 }
    requires room { array_string_len line.old + 29 ≤ 128 }
    ensures bytes { line.new.bytes ≡ line.old.bytes ++ (label.now ++ decimal n) }
    ensures len { array_string_len line.new ≤ array_string_len line.old + 29 }
{
    let mut buffer = Buffer::new();
    line.push_str(label);
    line.push_str(buffer.format(n));
}

/// The line on the numbers of two journals.
fn sizes_line(sizes: &Sizes) -> ArrayString<128>
    ensures { result.bytes ≡ sizes_line sizes.now }
{
    let mut line = ArrayString::new();
    push_labelled(&mut line, "roots ", u64::from(sizes.roots));
    push_labelled(&mut line, " records ", sizes.before);
    push_labelled(&mut line, " to ", sizes.after);
    line.push_str("\n");
    line
}

/// The line of the journal that counts.
fn chosen_line(chosen: Chosen) -> ArrayString<128>
    ensures { result.bytes ≡ chosen_line chosen }
{
    let mut line = ArrayString::new();
    line.push_str(match chosen {
        Chosen::Old => "old\n",
        Chosen::New => "new\n",
    });
    line
}

/// The line that is written where the run came to this. It takes no memory.
pub(crate) fn answer_line(answer: &Answer) -> ArrayString<128>
    ensures { result.bytes ≡ answer_line answer.now }
{
    match answer {
        Answer::Shorter(sizes) => sizes_line(sizes),
        Answer::Chosen(chosen) => chosen_line(*chosen),
    }
}
