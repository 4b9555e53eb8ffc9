//! Texts worked out by hand from the grammar. An answer is written as `<TAGS|MOVES>` for each game,
//! with tags `NAME=VALUE` and moves `SQUARES@PLACE-END`, or as the refusal and its place.
use draughts_board::Square;
use pdn_text::{Game, MoveText, PdnRefusal, Tag, read_games};
use std::alloc::{AllocError, Global};
use std::process::Abort;
use std::test::Fail;

/// Appends bytes that are a text, or else a question mark.
fn push_bytes(out: &mut String, bytes: &[u8]) -> Result<(), AllocError> {
    out.push_str(str::from_utf8(bytes).unwrap_or("?"))
}

/// Appends a number.
fn push_number(alloc: Global, out: &mut String, n: usize) -> Result<(), AllocError> {
    out.push_str(format!(in alloc; "{n}")?.as_str())
}

/// Appends a sign, unless what comes is the first.
fn push_sign(out: &mut String, sign: &str, i: usize) -> Result<(), AllocError> {
    if i > 0 { out.push_str(sign) } else { Ok(()) }
}

/// Appends a tag.
fn push_tag(out: &mut String, tag: &Tag) -> Result<(), AllocError> {
    push_bytes(out, tag.name.as_slice())?;
    out.push_str("=")?;
    push_bytes(out, tag.value.as_slice())
}

/// Appends the tags of a game.
fn push_tags(out: &mut String, tags: &[Tag]) -> Result<(), AllocError> {
    for (i, tag) in tags.iter().enumerate() {
        push_sign(out, ",", i)?;
        push_tag(out, tag)?;
    }
    Ok(())
}

/// Appends the squares of a move.
fn push_squares(alloc: Global, out: &mut String, squares: &[Square]) -> Result<(), AllocError> {
    for (i, square) in squares.iter().enumerate() {
        push_sign(out, ".", i)?;
        push_number(alloc, out, square.number() as usize)?;
    }
    Ok(())
}

/// Appends a move and its place.
fn push_move(alloc: Global, out: &mut String, text: &MoveText) -> Result<(), AllocError> {
    push_squares(alloc, out, text.squares.path())?;
    out.push_str("@")?;
    push_number(alloc, out, text.at)?;
    out.push_str("-")?;
    push_number(alloc, out, text.end)
}

/// Appends the moves of a game.
fn push_moves(alloc: Global, out: &mut String, moves: &[MoveText]) -> Result<(), AllocError> {
    for (i, text) in moves.iter().enumerate() {
        push_sign(out, ",", i)?;
        push_move(alloc, out, text)?;
    }
    Ok(())
}

/// Appends a game as it is told.
fn push_game(alloc: Global, out: &mut String, game: &Game) -> Result<(), AllocError> {
    out.push_str("<")?;
    push_tags(out, game.tags.as_slice())?;
    out.push_str("|")?;
    push_moves(alloc, out, game.moves.as_slice())?;
    out.push_str(">")
}

/// Appends the games.
fn push_games(alloc: Global, out: &mut String, games: &[Game]) -> Result<(), AllocError> {
    for game in games {
        push_game(alloc, out, game)?;
    }
    Ok(())
}

/// The games, as they are told.
fn told_games(alloc: Global, games: &[Game]) -> Result<String, AllocError> {
    let mut out = String::new(alloc);
    push_games(alloc, &mut out, games)?;
    Ok(out)
}

/// The refusal, as it is told.
fn told_refusal(alloc: Global, refusal: PdnRefusal) -> Result<String, AllocError> {
    let (words, at) = match refusal {
        PdnRefusal::BadByte(at) => ("bad byte", at),
        PdnRefusal::OpenTag(at) => ("open tag", at),
        PdnRefusal::OpenComment(at) => ("open comment", at),
        PdnRefusal::OpenVariation(at) => ("open variation", at),
        PdnRefusal::BadMove(at) => ("bad move", at),
        PdnRefusal::TooManyGames => return format!(in alloc; "too many games"),
        PdnRefusal::Memory(error) => return Err(error),
    };
    format!(in alloc; "{words} {at}")
}

/// The answer to a text, as it is told.
fn told(alloc: Global, text: &[u8]) -> Result<String, AllocError> {
    match read_games(alloc, text) {
        Ok(games) => told_games(alloc, games.as_slice()),
        Err(refusal) => told_refusal(alloc, refusal),
    }
}

/// The text is answered so.
fn expect_told(rt: &impl Abort, alloc: Global, text: &[u8], want: &str) -> Result<(), Fail> {
    assert_eq!(rt; told(alloc, text)?.as_str(), want);
    Ok(())
}

/// Each text is answered so.
fn expect(rt: &impl Abort, alloc: Global, cases: &[(&str, &str)]) -> Result<(), Fail> {
    for (text, want) in cases {
        expect_told(rt, alloc, text.as_bytes(), want)?;
    }
    Ok(())
}

const NO_GAMES: &[(&str, &str)] = &[
    ("", ""),
    (" \t\r\n.!?", ""),
    ("; 11-15", ""),
    ("% 11-15", ""),
    ("{11-15}", ""),
    ("(11-15)", ""),
    ("$1", ""),
    ("1.", ""),
    ("12", ""),
    ("\u{feff}", ""),
    ("\u{feff} \n", ""),
    (";a\r11-15", ""),
    ("\r\n%a", ""),
    ("(%\n)", ""),
];

#[test]
fn text_without_games(rt: HostRuntime) -> Result<(), Fail> {
    expect(&rt, rt.alloc(), NO_GAMES)
}

const RESULTS: &[(&str, &str)] = &[
    ("*", "<|>"),
    ("1-0", "<|>"),
    ("0-1", "<|>"),
    ("1/2-1/2", "<|>"),
    ("2-0", "<|>"),
    ("0-2", "<|>"),
    ("1-1", "<|>"),
    ("0-0", "<|>"),
    ("* *", "<|><|>"),
    ("**", "<|><|>"),
    ("1-2", "<|1.2@0-3>"),
    ("1-01-0", "bad move 0"),
    ("1-0-0", "bad move 0"),
    ("1/2", "bad move 0"),
    ("2-0 11-15", "<|><|11.15@4-9>"),
    // One square twice is a move as far as its text goes.
    ("11-15 2-2", "<|11.15@0-5,2.2@6-9>"),
];

#[test]
fn results(rt: HostRuntime) -> Result<(), Fail> {
    expect(&rt, rt.alloc(), RESULTS)
}

const MOVES: &[(&str, &str)] = &[
    ("11-15", "<|11.15@0-5>"),
    ("11x15", "<|11.15@0-5>"),
    ("1-5", "<|1.5@0-3>"),
    ("01-05", "<|1.5@0-5>"),
    ("32-28", "<|32.28@0-5>"),
    ("1x10x17", "<|1.10.17@0-7>"),
    (" 11-15", "<|11.15@1-6>"),
    ("1.11-15", "<|11.15@2-7>"),
    (
        "1. 11-15 23-19 2. 8-11",
        "<|11.15@3-8,23.19@9-14,8.11@18-22>",
    ),
    ("11-15 23x18", "<|11.15@0-5,23.18@6-11>"),
    (
        "1x2x3x4x5x6x7x8x9x10x11x12x13",
        "<|1.2.3.4.5.6.7.8.9.10.11.12.13@0-29>",
    ),
    ("1x2x3x4x5x6x7x8x9x10x11x12x13x14", "bad move 0"),
    ("11-15-18", "bad move 0"),
    ("11x15-18", "bad move 0"),
    ("11-33", "bad move 0"),
    ("0-5", "bad move 0"),
    ("00-5", "bad move 0"),
    ("111-15", "bad move 0"),
    ("11-", "bad move 0"),
    ("11--15", "bad move 0"),
    ("11x", "bad move 0"),
    ("11/15", "bad move 0"),
    ("12 11-99", "bad move 3"),
];

#[test]
fn moves(rt: HostRuntime) -> Result<(), Fail> {
    expect(&rt, rt.alloc(), MOVES)
}

const MARKS: &[(&str, &str)] = &[
    ("11-15!", "<|11.15@0-5>"),
    ("11-15?! 22-18", "<|11.15@0-5,22.18@8-13>"),
    ("11-15$1", "<|11.15@0-5>"),
    ("11-15 $12 22-18", "<|11.15@0-5,22.18@10-15>"),
    ("$1 11-15", "<|11.15@3-8>"),
    ("$1$2", ""),
    ("$", "bad byte 0"),
    ("$ 1", "bad byte 0"),
    ("11-15 $a", "bad byte 6"),
    ("$12x15", "bad byte 3"),
    ("$12-15", "bad byte 3"),
    ("x", "bad byte 0"),
    ("-", "bad byte 0"),
    ("/", "bad byte 0"),
    ("a", "bad byte 0"),
    (")", "bad byte 0"),
    ("}", "bad byte 0"),
    ("]", "bad byte 0"),
    ("\"", "bad byte 0"),
    ("\u{0}", "bad byte 0"),
    ("11-15,22-18", "bad byte 5"),
    ("/W:W21:B1/", "bad byte 0"),
];

#[test]
fn marks_and_annotations(rt: HostRuntime) -> Result<(), Fail> {
    expect(&rt, rt.alloc(), MARKS)
}

const BYTE_ORDER_MARKS: &[(&str, &str)] = &[
    ("\u{feff}11-15", "<|11.15@3-8>"),
    ("\u{feff}%", "bad byte 3"),
    ("\u{feff}\n%", ""),
    (" \u{feff}", "bad byte 1"),
    ("\u{feff}\u{feff}", "bad byte 3"),
];

#[test]
fn byte_order_mark(rt: HostRuntime) -> Result<(), Fail> {
    expect(&rt, rt.alloc(), BYTE_ORDER_MARKS)?;
    expect_told(&rt, rt.alloc(), &[0xef, 0xbb], "bad byte 0")?;
    expect_told(&rt, rt.alloc(), &[0xef, 0xbb, 0xbf, 0xff], "bad byte 3")?;
    expect_told(&rt, rt.alloc(), &[0xef, 0xbb, 0xbe], "bad byte 0")
}

const COMMENTS: &[(&str, &str)] = &[
    ("{a{b}c}", "bad byte 5"),
    ("{", "open comment 0"),
    ("11-15 {abc", "open comment 6"),
    ("{a} {b", "open comment 4"),
    ("{}11-15", "<|11.15@2-7>"),
    ("{(}11-15", "<|11.15@3-8>"),
    ("{;}11-15", "<|11.15@3-8>"),
    ("{\n%}11-15", "<|11.15@4-9>"),
    (";{\n11-15", "<|11.15@3-8>"),
    ("11-15 ; 22-18\n8-11", "<|11.15@0-5,8.11@14-18>"),
    ("%x\n11-15", "<|11.15@3-8>"),
    ("11-15\n% no\n22-18", "<|11.15@0-5,22.18@11-16>"),
    ("11-15 %", "bad byte 6"),
    ("11-15 % {", "bad byte 6"),
    ("\r%", "bad byte 1"),
    (" %", "bad byte 1"),
    ("{\n}%", "bad byte 3"),
    (";\n%{\n11-15", "<|11.15@5-10>"),
];

#[test]
fn comments(rt: HostRuntime) -> Result<(), Fail> {
    expect(&rt, rt.alloc(), COMMENTS)
}

const VARIATIONS: &[(&str, &str)] = &[
    ("(", "open variation 0"),
    ("((", "open variation 0"),
    ("(()", "open variation 0"),
    ("()11-15", "<|11.15@2-7>"),
    ("(1. 22-18 (23-19) 8-11) 11-15", "<|11.15@24-29>"),
    ("({)})11-15", "<|11.15@5-10>"),
    ("({)", "open comment 1"),
    ("(({x}", "open variation 0"),
    ("(({x} {", "open comment 6"),
    ("(a{b}c)11-15", "<|11.15@7-12>"),
    ("(}) 11-15", "<|11.15@4-9>"),
    ("(;)11-15", "<|11.15@3-8>"),
    ("([)11-15", "<|11.15@3-8>"),
    ("(11-99)11-15", "<|11.15@7-12>"),
    ("11-15 (22-18", "open variation 6"),
    ("{(}(", "open variation 3"),
    ("(a)b", "bad byte 3"),
    ("())", "bad byte 2"),
    ("({(}) 11-15", "<|11.15@6-11>"),
    ("(()()) 1-0", "<|>"),
];

#[test]
fn variations(rt: HostRuntime) -> Result<(), Fail> {
    expect(&rt, rt.alloc(), VARIATIONS)
}

const TAGS: &[(&str, &str)] = &[
    ("[Event \"a\"]", "<Event=a|>"),
    ("[Event \"a\"] 11-15", "<Event=a|11.15@12-17>"),
    ("[ Event  \"a\" ]", "<Event=a|>"),
    ("[\tEvent\t\"a\"\t]", "<Event=a|>"),
    ("[Event \"\"]", "<Event=|>"),
    ("[E_1 \"x y\"]", "<E_1=x y|>"),
    ("[E \"a\\\"b\"]", "<E=a\"b|>"),
    ("[E \"a\\\\b\"]", "<E=a\\b|>"),
    ("[E \"\\n\"]", "<E=n|>"),
    ("[E \"a}b\"]", "<E=a}b|>"),
    ("[E \"]\"]", "<E=]|>"),
    ("[e \"%;({\"]", "<e=%;({|>"),
    ("[E \"a\"][F \"b\"]", "<E=a,F=b|>"),
    ("[E \"a\"]\n[E \"b\"]", "<E=a,E=b|>"),
];

#[test]
fn tags(rt: HostRuntime) -> Result<(), Fail> {
    expect(&rt, rt.alloc(), TAGS)
}

const OPEN_TAGS: &[(&str, &str)] = &[
    ("[", "open tag 0"),
    ("[]", "open tag 0"),
    ("[Event\"a\"]", "open tag 0"),
    ("[1vent \"a\"]", "open tag 0"),
    ("[_e \"a\"]", "open tag 0"),
    ("[Event \"a\"", "open tag 0"),
    ("[Event \"a", "open tag 0"),
    ("[Event a]", "open tag 0"),
    ("[Event]", "open tag 0"),
    ("[E \"a\nb\"]", "open tag 0"),
    ("[E \"a\rb\"]", "open tag 0"),
    ("[E \"a\\\nb\"]", "open tag 0"),
    ("[E \"a\\\"]", "open tag 0"),
    ("[E \"\\", "open tag 0"),
    ("[E \"a\"x]", "open tag 0"),
    ("[E\n\"a\"]", "open tag 0"),
    ("[E-F \"a\"]", "open tag 0"),
    ("11-15 [E", "open tag 6"),
];

#[test]
fn open_tags(rt: HostRuntime) -> Result<(), Fail> {
    expect(&rt, rt.alloc(), OPEN_TAGS)
}

const GAMES: &[(&str, &str)] = &[
    ("11-15 [E \"b\"] 22-18", "<|11.15@0-5><E=b|22.18@14-19>"),
    (
        "[E \"a\"] [F \"b\"] 11-15 * [E \"c\"] *",
        "<E=a,F=b|11.15@16-21><E=c|>",
    ),
    ("11-15 1-0 22-18 0-1", "<|11.15@0-5><|22.18@10-15>"),
    ("11-15 * 22-18", "<|11.15@0-5><|22.18@8-13>"),
    ("[E \"a\"] *", "<E=a|>"),
    ("* [E \"a\"]", "<|><E=a|>"),
    ("[E \"a\"] {x} [F \"b\"]", "<E=a,F=b|>"),
    ("11-15 {x} (22-18) $3 22-18 2-0", "<|11.15@0-5,22.18@21-26>"),
    (
        "[GameType \"21\"]\r\n\r\n1. 11-15 23-19\r\n2. 8-11 *\r\n",
        "<GameType=21|11.15@22-27,23.19@28-33,8.11@38-42>",
    ),
    ("11-99 (", "bad move 0"),
    ("( 11-99", "open variation 0"),
    ("a {", "bad byte 0"),
    ("{ [", "open comment 0"),
    ("[E \"{\"] }", "bad byte 8"),
];

#[test]
fn games(rt: HostRuntime) -> Result<(), Fail> {
    expect(&rt, rt.alloc(), GAMES)
}

/// This byte so often, and these behind it.
fn repeated(alloc: Global, byte: u8, count: usize, behind: &[u8]) -> Result<Vec<u8>, AllocError> {
    let mut text = vec![in alloc; byte; count]?;
    text.extend_from_slice(behind)?;
    Ok(text)
}

/// A byte, how often it stands first, what stands behind it, and the answer.
type Repeated = (u8, usize, &'static str, &'static str);

/// There may be 4,096 games.
const GAMES_TOO_MANY: &[Repeated] = &[
    (b'*', 4096, "*", "too many games"),
    (b'*', 4096, "11-15", "too many games"),
    (b'*', 4096, "[E \"a\"]", "too many games"),
    (b'*', 4096, "* a", "too many games"),
    (b'*', 4096, "a*", "bad byte 4096"),
    (b'*', 4096, "11-99", "bad move 4096"),
    (b'*', 4096, "[E*", "open tag 4096"),
    (b'*', 4096, "(", "open variation 4096"),
    (b'*', 4096, "1. {", "open comment 4099"),
    // A tag begins one game too many.
    (b'*', 4095, "11-15 [E \"a\"]", "too many games"),
];

/// The answer to a text with repeated bytes in front, as it is told.
fn told_behind(alloc: Global, byte: u8, count: usize, behind: &[u8]) -> Result<String, AllocError> {
    let text = repeated(alloc, byte, count, behind)?;
    told(alloc, text.as_slice())
}

/// Whether the text is answered so.
fn is_told_behind(alloc: Global, case: &Repeated) -> Result<bool, AllocError> {
    let (byte, count, behind, want) = *case;
    Ok(told_behind(alloc, byte, count, behind.as_bytes())?.as_str() == want)
}

/// Each text is answered so.
fn expect_repeated(rt: &impl Abort, alloc: Global, cases: &[Repeated]) -> Result<(), Fail> {
    for case in cases {
        assert!(rt; is_told_behind(alloc, case)?, "{}", case.2);
    }
    Ok(())
}

/// How many games there are behind `count` results.
fn count_behind(alloc: Global, count: usize, behind: &[u8]) -> Result<usize, Fail> {
    let text = repeated(alloc, b'*', count, behind)?;
    Ok(read_games(alloc, text.as_slice())?.len())
}

#[test]
fn too_many_games(rt: HostRuntime) -> Result<(), Fail> {
    let counts = [
        count_behind(rt.alloc(), 4096, b" {x}")?,
        count_behind(rt.alloc(), 4095, b"11-15 22-18")?,
    ];
    assert_eq!(rt; counts, [4096, 4096]);
    expect_repeated(&rt, rt.alloc(), GAMES_TOO_MANY)
}

const DEEP: &[Repeated] = &[
    (b'(', 100_000, "", "open variation 0"),
    (b'(', 100_000, "{)", "open comment 100000"),
];

/// The answer to 100,000 variations in one another, all closed, with these bytes behind.
fn told_closed(alloc: Global, behind: &[u8]) -> Result<String, AllocError> {
    let closed = repeated(alloc, b')', 100_000, behind)?;
    told_behind(alloc, b'(', 100_000, closed.as_slice())
}

#[test]
fn deep_variations(rt: HostRuntime) -> Result<(), Fail> {
    let told = told_closed(rt.alloc(), b"11-15")?;
    assert_eq!(rt; told.as_str(), "<|11.15@200000-200005>");
    expect_repeated(&rt, rt.alloc(), DEEP)
}

/// What is printed of the refusals, a line each.
fn printed(alloc: Global) -> Result<String, AllocError> {
    format!(in alloc;
        "{}\n{}\n{}\n{}\n{}\n{}\n{}\n",
        PdnRefusal::BadByte(7),
        PdnRefusal::OpenTag(7),
        PdnRefusal::OpenComment(7),
        PdnRefusal::OpenVariation(7),
        PdnRefusal::BadMove(7),
        PdnRefusal::TooManyGames,
        PdnRefusal::Memory(AllocError)
    )
}

#[test]
fn refusals_name_their_data(rt: HostRuntime) -> Result<(), Fail> {
    let due = "byte 7 begins nothing that may stand there\n\
        no tag stands at byte 7\n\
        the comment at byte 7 is not closed\n\
        the variation at byte 7 is not closed\n\
        the word at byte 7 is no move\n\
        more than 4,096 games\n\
        out of memory\n";
    assert_eq!(rt; printed(rt.alloc())?.as_str(), due);
    Ok(())
}
