//! The lines on a certificate that was read, and that the check refuses.
ghost use Rattle.std.specs.Prelude.{◌≡◌, ◌≤◌, ◌++◌, IsTrue, length, decimal, codes};
ghost use Rattle.arrayvec.specs.ArrayString.{array_string_len};
ghost use Rattle.opening_report.specs.Lines.{IsLine, is_line};
ghost use Rattle.opening_report.specs.Refusals.{of_part, of_entry};

use crate::refusals::{push_field, push_number};
use arrayvec::ArrayString;

/// The front of a line on a part.
fn of_part(part: usize) -> ArrayString<128>
    ensures bytes { result.bytes ≡ codes "refused input check part " ++ decimal part }
    ensures len { array_string_len result ≤ 45 }
{
    let mut line = ArrayString::new();
    line.push_str("refused input check part ");
    push_number(&mut line, part);
    line
}

/// The line on a part that ends with these words, the line end among them.
pub(crate) fn part_line(part: usize, wrong: &str) -> ArrayString<128>
    requires short { length wrong.now ≤ 20 }
    requires line { IsTrue (is_line wrong.now) }
    ensures bytes { result.bytes ≡ of_part part wrong.now }
    ensures line { IsLine (of_part part wrong.now) }
{
    let mut line = of_part(part);
    line.push_str(wrong);
    line
}

/// The line on an entry of a part that ends with these words, the line end among them.
pub(crate) fn part_entry_line(part: usize, entry: usize, wrong: &str) -> ArrayString<128>
    requires short { length wrong.now ≤ 20 }
    requires line { IsTrue (is_line wrong.now) }
    ensures bytes { result.bytes ≡ of_entry part entry wrong.now }
    ensures line { IsLine (of_entry part entry wrong.now) }
{
    let mut line = of_part(part);
    push_field(&mut line, " entry ", entry);
    line.push_str(wrong);
    line
}
