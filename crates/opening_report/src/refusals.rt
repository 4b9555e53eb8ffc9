//! Why a run was refused, and the line that says so.
ghost use Rattle.std.specs.Prelude.{◌≡◌, ◌+◌, ◌≤◌, ◌++◌, IsTrue, length, decimal, codes};
ghost use Rattle.arrayvec.specs.ArrayString.{array_string_len};
ghost use Rattle.opening_report.specs.Lines.{IsLine, is_line};
ghost use Rattle.shared_words.specs.Bytes.{Lacks};
ghost use Rattle.opening_report.specs.Refusals.{numbered, numbered_twice, of_game, fen_words, move_words, refusal_text};

use crate::part_lines::{part_entry_line, part_line};
use arrayvec::ArrayString;
use draughts_board::Side;
use fen_text::FenRefusal;
use itoa::Buffer;

/// Why a run was refused. Places of words and bytes count from 0; games, plies, lines, parts and
/// entries from 1.
#[derive(Clone, Copy, Debug, PartialEq, Eq)]
pub enum Refusal {
    /// The word at this place cannot stand there, or is missing.
    Words(usize),
    /// The source is longer than its limit.
    TooLong,
    /// A byte at this place begins nothing.
    PdnBadByte(usize),
    /// The tag that begins at this place is none.
    PdnOpenTag(usize),
    /// The comment that begins at this place is not closed.
    PdnOpenComment(usize),
    /// The variation that begins at this place is not closed.
    PdnOpenVariation(usize),
    /// The word that begins at this place is no move, number or result.
    PdnBadMove(usize),
    /// There are more games than may be.
    PdnTooManyGames,
    /// This game is of another variant.
    OtherGame(u32),
    /// The FEN tag of this game is no position.
    Fen(u32, FenRefusal),
    /// The move at this byte is no legal one.
    Illegal { game: u32, ply: u32, at: usize },
    /// The move at this byte may mean two that differ.
    Ambiguous { game: u32, ply: u32, at: usize },
    /// This line of a certificate's text is none that may stand there.
    TextBadLine(usize),
    /// The position of this line of a certificate's text is no printed FEN.
    TextBadFen(usize),
    /// The position of this line of a certificate's text stands in its part already.
    TextDoubled(usize),
    /// This line stands behind the end of a certificate's text.
    TextAfterEnd(usize),
    /// A certificate's text ends too early.
    TextTruncated,
    /// The parts of a certificate are not those that its claim needs.
    ClaimNotMet,
    /// The rank of a successor of this entry is not below its own.
    BadRank { part: usize, entry: usize },
    /// This entry does not choose the move that is due.
    BadMove { part: usize, entry: usize },
    /// A successor of this entry is missing.
    Missing { part: usize, entry: usize },
    /// The holder has no move at this entry.
    StuckHolder { part: usize, entry: usize },
    /// The position of the certificate is missing from this part.
    CheckNoRoot(usize),
    /// The bytes do not begin as a table's do.
    TableBadHead,
    /// The table has this number of bytes, and not the one that its head asks for.
    TableWrongLength { found: usize, due: usize },
    /// The table is not right at this index, counted from 0, where this number stands.
    TableBadEntry { index: u32, kept: u32 },
    /// There would be more roots than a journal can hold.
    TooManyRoots,
    /// No root has this number, counted from 1.
    NoRoot(u32),
    /// The root with this number, counted from 1, has no value yet.
    UnsettledRoot(u32),
    /// The root with this number, counted from 1, is expanded: what is learnt of it would not be used.
    RootExpanded(u32),
    /// The disk failed.
    Disk,
    /// The bytes of the disk are those of no journal.
    NotAJournal,
    /// The journal is for tables of this number of pieces, and not of those that are asked for.
    OtherTable { found: u8, asked: u8 },
    /// The journal is damaged at this byte, counted from 0.
    Damaged(u64),
    /// Memory ran out.
    Memory,
    /// The source failed.
    Read,
}

/// A line of this text, its line end among it.
fn plain(text: &str) -> ArrayString<128>
    requires short { length text.now ≤ 128 }
    requires line { IsTrue (is_line text.now) }
    ensures bytes { result.bytes ≡ text.now }
    ensures line { IsLine text.now }
{
    let mut line = ArrayString::new();
    line.push_str(text);
    line
}

/// Appends a number in decimal.
pub(crate) fn push_number(line: &mut ArrayString<128>, n: usize)
    requires { array_string_len line.old + 20 ≤ 128 }
    ensures bytes { line.new.bytes ≡ line.old.bytes ++ decimal n }
    ensures len { array_string_len line.new ≤ array_string_len line.old + 20 }
{
    let mut buffer = Buffer::new();
    line.push_str(buffer.format(n));
}

/// Appends a label and a number in decimal.
pub(crate) fn push_field(line: &mut ArrayString<128>, label: &str, n: usize)
    requires short { length label.now ≤ 7 }
    requires room { array_string_len line.old + 27 ≤ 128 }
    ensures bytes { line.new.bytes ≡ line.old.bytes ++ (label.now ++ decimal n) }
    ensures len { array_string_len line.new ≤ array_string_len line.old + 27 }
{
    line.push_str(label);
    push_number(line, n);
}

/// A label, a number and the line end.
fn numbered(label: &str, n: usize) -> ArrayString<128>
    requires short { length label.now ≤ 100 }
    requires bare { Lacks 10 label.now }
    ensures bytes { result.bytes ≡ numbered label.now n }
    ensures line { IsLine (numbered label.now n) }
{
    let mut line = ArrayString::new();
    line.push_str(label);
    push_number(&mut line, n);
    line.push_str("\n");
    line
}

/// A label, a number, another label, another number and the line end.
pub(crate) fn numbered_twice(first: &str, a: usize, second: &str, b: usize) -> ArrayString<128>
    requires short { (length first.now ≤ 50) × (length second.now ≤ 20) }
    requires bare { Lacks 10 first.now × Lacks 10 second.now }
    ensures bytes { result.bytes ≡ numbered_twice first.now a second.now b }
    ensures line { IsLine (numbered_twice first.now a second.now b) }
{
    let mut line = ArrayString::new();
    line.push_str(first);
    push_number(&mut line, a);
    line.push_str(second);
    push_number(&mut line, b);
    line.push_str("\n");
    line
}

/// The line on a table that has another length than is due.
fn length_line(found: usize, due: usize) -> ArrayString<128>
    ensures bytes { result.bytes
        ≡ numbered_twice (codes "refused input table wrong-length found ") found
        (codes " due ") due }
    ensures line { IsLine
        (numbered_twice (codes "refused input table wrong-length found ") found
        (codes " due ") due) }
{
    numbered_twice(
        "refused input table wrong-length found ",
        found,
        " due ",
        due,
    )
}

/// The line on a table that is not right at an index.
fn entry_line(index: u32, kept: u32) -> ArrayString<128>
    ensures bytes { result.bytes
        ≡ numbered_twice (codes "refused input table bad-entry ") index (codes " kept ") kept }
    ensures line { IsLine
        (numbered_twice (codes "refused input table bad-entry ") index (codes " kept ") kept) }
{
    let label = "refused input table bad-entry ";
    numbered_twice(label, index as usize, " kept ", kept as usize)
}

/// The line on a journal for tables of other pieces.
fn other_table_line(found: u8, asked: u8) -> ArrayString<128>
    ensures bytes { result.bytes
        ≡ numbered_twice (codes "refused journal other-table found ") found
        (codes " asked ") asked }
    ensures line { IsLine
        (numbered_twice (codes "refused journal other-table found ") found
        (codes " asked ") asked) }
{
    let label = "refused journal other-table found ";
    numbered_twice(label, found as usize, " asked ", asked as usize)
}

/// The front of a line on a game.
fn of_game(game: u32) -> ArrayString<128>
    ensures bytes { result.bytes ≡ codes "refused input game " ++ decimal game }
    ensures bare { Lacks 10 (codes "refused input game " ++ decimal game) }
    ensures len { array_string_len result ≤ 39 }
{
    let mut line = ArrayString::new();
    line.push_str("refused input game ");
    push_number(&mut line, game as usize);
    line
}

/// The line on a game that ends with these words, the line end among them.
fn game_line(game: u32, words: &str) -> ArrayString<128>
    requires short { length words.now ≤ 80 }
    requires line { IsTrue (is_line words.now) }
    ensures bytes { result.bytes ≡ of_game game words.now }
    ensures line { IsLine (of_game game words.now) }
{
    let mut line = of_game(game);
    line.push_str(words);
    line
}

/// The line on a game that ends with a label and a number.
fn numbered_game_line(game: u32, label: &str, n: usize) -> ArrayString<128>
    requires short { length label.now ≤ 40 }
    requires bare { Lacks 10 label.now }
    ensures bytes { result.bytes ≡ of_game game (numbered label.now n) }
    ensures line { IsLine (of_game game (numbered label.now n)) }
{
    let mut line = of_game(game);
    line.push_str(label);
    push_number(&mut line, n);
    line.push_str("\n");
    line
}

/// The line on the FEN of a game that has too many pieces of a side.
fn too_many_line(game: u32, side: Side) -> ArrayString<128>
    ensures bytes { result.bytes ≡ of_game game (fen_words (FenRefusal.TooMany side)) }
    ensures line { IsLine (of_game game (fen_words (FenRefusal.TooMany side))) }
{
    match side {
        Side::Black => game_line(game, " fen too-many black\n"),
        Side::White => game_line(game, " fen too-many white\n"),
    }
}

/// The line on the FEN of a game.
fn fen_line(game: u32, fault: FenRefusal) -> ArrayString<128>
    ensures bytes { result.bytes ≡ of_game game (fen_words fault) }
    ensures line { IsLine (of_game game (fen_words fault)) }
{
    match fault {
        FenRefusal::BadLetter(at) => numbered_game_line(game, " fen bad-letter ", at),
        FenRefusal::BadSquare(at) => numbered_game_line(game, " fen bad-square ", at),
        FenRefusal::Twice(square) => numbered_game_line(
            game,
            " fen twice ",
            square.number() as usize,
        ),
        FenRefusal::TooMany(side) => too_many_line(game, side),
        FenRefusal::ManOnLastRow(square) => numbered_game_line(
            game,
            " fen man-on-last-row ",
            square.number() as usize,
        ),
        FenRefusal::Truncated => game_line(game, " fen truncated\n"),
    }
}

/// The line on a move of a game.
fn move_line(game: u32, ply: u32, at: usize, wrong: &str) -> ArrayString<128>
    requires short { length wrong.now ≤ 20 }
    requires line { IsTrue (is_line wrong.now) }
    ensures bytes { result.bytes ≡ of_game game (move_words ply at wrong.now) }
    ensures line { IsLine (of_game game (move_words ply at wrong.now)) }
{
    let mut line = of_game(game);
    push_field(&mut line, " ply ", ply as usize);
    push_field(&mut line, " byte ", at);
    line.push_str(wrong);
    line
}

/// The line that says why a run was refused, its line end among it. It takes no memory.
pub fn refusal_line(r: &Refusal) -> ArrayString<128>
    ensures text { result.bytes ≡ refusal_text r.now }
    ensures line { IsLine (refusal_text r.now) }
{
    match *r {
        Refusal::Words(at) => numbered("refused words at ", at),
        Refusal::TooLong => plain("refused input too-long\n"),
        Refusal::PdnBadByte(at) => numbered("refused input pdn bad-byte ", at),
        Refusal::PdnOpenTag(at) => numbered("refused input pdn open-tag ", at),
        Refusal::PdnOpenComment(at) => numbered("refused input pdn open-comment ", at),
        Refusal::PdnOpenVariation(at) => numbered("refused input pdn open-variation ", at),
        Refusal::PdnBadMove(at) => numbered("refused input pdn bad-move ", at),
        Refusal::PdnTooManyGames => plain("refused input pdn too-many-games\n"),
        Refusal::OtherGame(game) => game_line(game, " other-game\n"),
        Refusal::Fen(game, fault) => fen_line(game, fault),
        Refusal::Illegal { game, ply, at } => move_line(game, ply, at, " illegal\n"),
        Refusal::Ambiguous { game, ply, at } => move_line(game, ply, at, " ambiguous\n"),
        Refusal::TextBadLine(n) => numbered("refused input certificate bad-line ", n),
        Refusal::TextBadFen(n) => numbered("refused input certificate bad-fen ", n),
        Refusal::TextDoubled(n) => numbered("refused input certificate doubled ", n),
        Refusal::TextAfterEnd(n) => numbered("refused input certificate after-end ", n),
        Refusal::TextTruncated => plain("refused input certificate truncated\n"),
        Refusal::ClaimNotMet => plain("refused input check claim-not-met\n"),
        Refusal::BadRank { part, entry } => part_entry_line(part, entry, " bad-rank\n"),
        Refusal::BadMove { part, entry } => part_entry_line(part, entry, " bad-move\n"),
        Refusal::Missing { part, entry } => part_entry_line(part, entry, " missing\n"),
        Refusal::StuckHolder { part, entry } => part_entry_line(part, entry, " stuck-holder\n"),
        Refusal::CheckNoRoot(part) => part_line(part, " no-root\n"),
        Refusal::TableBadHead => plain("refused input table bad-head\n"),
        Refusal::TableWrongLength { found, due } => length_line(found, due),
        Refusal::TableBadEntry { index, kept } => entry_line(index, kept),
        Refusal::TooManyRoots => plain("refused input too-many-roots\n"),
        Refusal::NoRoot(n) => numbered("refused input no-root ", n as usize),
        Refusal::UnsettledRoot(n) => numbered("refused input unsettled-root ", n as usize),
        Refusal::RootExpanded(n) => numbered("refused input root-expanded ", n as usize),
        Refusal::Disk => plain("refused disk\n"),
        Refusal::NotAJournal => plain("refused journal not-a-journal\n"),
        Refusal::OtherTable { found, asked } => other_table_line(found, asked),
        Refusal::Damaged(at) => numbered("refused journal damaged byte ", at as usize),
        Refusal::Memory => plain("refused memory\n"),
        Refusal::Read => plain("refused read\n"),
    }
}
